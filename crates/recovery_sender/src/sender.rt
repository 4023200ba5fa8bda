//! The sender: one recovery, and the variables by which it decides (RFC 9002, A.3).
ghost use Rattle.std.specs.Prelude.{◌≡◌, true};
ghost use Rattle.quic_recovery.specs.State.{state_of};
ghost use Rattle.recovery_sender.specs.Bounds.{ArePathsBounded};
ghost use Rattle.recovery_sender.specs.Promises.Samples.{IsExplained};
ghost use Rattle.recovery_sender.specs.Timer.{TimerIsSet, IsOnlyPto};

use quic_recovery::{LiveRecovery, Recovery};
use rand_core::Rng;
use recovery_base::time::Duration;
use recovery_congestion::congestion::ControllerFactory;
use recovery_events::event::Refusal;
use recovery_losses::Variables;
use recovery_queue::queue::RetransmitQueue;
use std::alloc::Global;
use thiserror::Error;

mod acks;
mod ends;
mod events;
mod frequent;
mod handshake;
mod losses;
mod packets;
mod paths;
mod probes;
mod readings;
mod timer;

pub use acks::{Acknowledged, EcnOutcome, NewlyAcked};
pub use ends::Retransmitted;
pub use events::passes;
pub use losses::Losses;
pub use packets::Transmission;
pub use probes::Timeout;
pub use readings::TimerState;

/// Why a call fails.
#[derive(Clone, Copy, Debug, PartialEq, Eq, Error)]
pub enum SenderError {
    /// The error of the recovery's event.
    #[error("{0}")]
    Event(Refusal),
    /// A packet number was acknowledged that was never sent (RFC 9000, 13.1).
    #[error("a number was acknowledged that was never sent")]
    Unsent,
    /// The space of 1-RTT packets is never discarded (RFC 9001, 4.9; RFC 9002, A.11).
    #[error("the space of 1-RTT packets is never discarded")]
    DataSpace,
}

impl From<Refusal> for SenderError {
    fn from(refusal: Refusal) -> SenderError {
        SenderError::Event(refusal)
    }
}

/// The sender of one endpoint. Its recovery tracks the packets in flight; the sender has no second list.
///
/// A stack sends a packet whose datagram [`Sender::transmit`] has permitted, with the contents that it carries:
///
/// ```
/// match self.sender.send(space, now, size, true, None, items, ()) {
///     Ok(Answer::Sent { number, .. }) => Ok(number),
///     Ok(_) => unreachable!(),
///     Err(refused) => Err(refused),
/// }
/// ```
///
/// It passes each ACK frame to [`Sender::on_ack`]. When the loss detection timer expires, it asks what is due:
///
/// ```
/// match self.sender.on_timeout(now) {
///     Ok(Timeout::Probe { space, count }) => Ok(Some((space, count))),
///     Ok(_) => Ok(None),
///     Err(refused) => Err(refused),
/// }
/// ```
///
/// The contents of lost packets wait in the recovery, until they are taken to be sent again:
///
/// ```
/// match self.sender.on_event(Event::TakePending { space }) {
///     Ok(Answer::Queue(items)) => Ok(items),
///     Ok(_) => unreachable!(),
///     Err(refused) => Err(refused),
/// }
/// ```
#[derive(Drop)]
pub struct Sender<F: ControllerFactory, Q: RetransmitQueue, R: Rng> {
    alloc: Global,
    recovery: LiveRecovery<F, Q, R>,
    variables: Variables,
    /// Whether the loss detection timer is known to be set correctly. Then it is not set again if no input changes.
    is_timer_current: bool,
    /// The probe timeout of 1-RTT packets, if nothing else may be due. It holds only while `is_timer_current`.
    known_pto: Option<Duration>,
    ghost bounded: { ArePathsBounded F.Controller.words (state_of recovery.recovery) },
    ghost explained: { ∥ IsExplained recovery.recovery ∥₁ },
    ghost timed: { is_timer_current ≡ true → TimerIsSet (state_of recovery.recovery) variables },
    ghost known: { is_timer_current ≡ true → IsOnlyPto (state_of recovery.recovery) variables known_pto },
}

impl<F, Q, R> Sender<F, Q, R>
where
    F: ControllerFactory,
    Q: RetransmitQueue,
    R: Rng + Drop,
{
    /// Returns the recovery, for reading.
    pub fn recovery(&self) -> &Recovery<F, Q, R>
        ensures { result.now ≡ self.now.recovery.recovery }
    {
        self.recovery.recovery()
    }

    /// Returns the variables that a sender has next to its recovery.
    pub fn variables(&self) -> &Variables
        ensures { result.now ≡ self.now.variables }
    {
        &self.variables
    }
}
