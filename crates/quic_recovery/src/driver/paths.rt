//! The events of the path in use (RFC 9000, 8; RFC 9002, 5 to 7).

use crate::driver::Recovery;
use rand_core::Rng;
use recovery_base::below::NoMemory;
use recovery_base::time::{Duration, Instant};
use recovery_congestion::congestion::{Controller, ControllerFactory};
use recovery_events::event::{Answer, Refusal};
use recovery_paths::path_pair::{DatagramError, PathName};
use recovery_paths::paths::PathData;
use recovery_queue::queue::RetransmitQueue;
use std::net::SocketAddr;

impl<F, Q, R> Recovery<F, Q, R>
where
    F: ControllerFactory,
    Q: RetransmitQueue,
    R: Rng + Drop,
{
    ghost use Rattle.recovery_events.specs.declared.event.Event.TheVariants.{InFlight, Sample, DatagramIn, Validated, Transmit, PacerCheck, Congestion, EndAcks, NewPath, ResetPath, DropPrevious, RevertPath};
    ghost use Rattle.std.specs.Prelude.{◌≡◌, ◌+◌, ◌<◌, false, Ok};
    ghost use Rattle.recovery_base.specs.Units.{u64_limit};
    ghost use Rattle.quic_recovery.specs.State.{state_of, Transition, ReadOnlyTransition};

    /// How much is in flight on a path (RFC 9002, B.2)?
    #[inline(always)]
    pub(super) fn in_flight(&self, path: PathName) -> Result<Answer<Q>, Refusal>
        ensures { ReadOnlyTransition (InFlight path) self.now result }
    {
        match self.paths.in_flight(path) {
            Some(counters) => Ok(Answer::InFlight {
                bytes: counters.bytes,
                ack_eliciting: counters.ack_eliciting,
            }),
            None => Err(Refusal::NoSuchPath),
        }
    }

    /// An RTT sample (RFC 9002, 5).
    #[inline(always)]
    pub(crate) fn sample(&mut self, delay: Duration, rtt: Duration) -> Result<Answer<Q>, Refusal>
        ensures { Transition (Sample delay rtt) self.old result self.new }
    {
        self.paths.current.sample(delay, rtt);
        Ok(Answer::Done)
    }

    /// A datagram was received (RFC 9000, 8.1).
    #[inline(always)]
    pub(super) fn datagram_in(&mut self, path: PathName, bytes: u64) -> Result<Answer<Q>, Refusal>
        ensures { Transition (DatagramIn path bytes) self.old result self.new }
    {
        match self.paths.receive_datagram(path, bytes) {
            Ok(()) => Ok(Answer::Done),
            Err(DatagramError::NoSuchPath) => Err(Refusal::NoSuchPath),
            Err(DatagramError::Overflow) => Err(Refusal::Overflow),
        }
    }

    /// The peer's address was validated (RFC 9000, 8).
    #[inline(always)]
    pub(super) fn validated(&mut self, path: PathName) -> Result<Answer<Q>, Refusal>
        ensures { Transition (Validated path) self.old result self.new }
    {
        if self.paths.validate(path) {
            Ok(Answer::Done)
        } else {
            Err(Refusal::NoSuchPath)
        }
    }

    /// Another path is used from now on (RFC 9000, 9.3).
    #[inline(always)]
    pub(super) fn new_path(
        &mut self,
        now: Instant,
        remote: SocketAddr,
        fresh: bool,
    ) -> Result<Answer<Q>, Refusal>
        ensures { Transition (NewPath now remote fresh) self.old result self.new }
    {
        let Some(generation) = self.paths.next_generation() else {
            return Err(Refusal::Overflow);
        };
        let path = if fresh {
            let limit = self.peer_limit;
            PathData::new(
                remote,
                self.allow_mtud,
                limit,
                generation,
                now,
                &self.transport,
            )
        } else {
            let current = &self.paths.current;
            match current.congestion.try_clone() {
                Ok(second) => PathData::from_previous(remote, current, second, generation, now),
                Err(NoMemory) => return Err(Refusal::NoMemory),
            }
        };
        self.paths.move_to(path);
        Ok(Answer::Done)
    }

    /// A path is used from now on that continues from the current one, with this copy of its controller.
    pub(crate) fn continue_path(&mut self, now: Instant, remote: SocketAddr, second: F::Controller)
        requires room { (state_of self.old).paths.made + 1 < u64_limit }
        requires copy { F.Controller.content second
            ≡ (state_of self.old).paths.current.state.controller }
        ensures { Transition (NewPath now remote false) self.old (Ok Answer.Done) self.new }
    {
        let Some(generation) = self.paths.next_generation() else {
            unreachable!()
        };
        let current = &self.paths.current;
        let path = PathData::from_previous(remote, current, second, generation, now);
        self.paths.move_to(path);
    }

    /// The path in use starts from its initial values (RFC 9000, 9.4).
    #[inline(always)]
    pub(super) fn reset_path(&mut self, now: Instant) -> Result<Answer<Q>, Refusal>
        ensures { Transition (ResetPath now) self.old result self.new }
    {
        self.paths.current.reset(now, &self.transport);
        Ok(Answer::Done)
    }

    /// The previous path is dropped (RFC 9000, 9.3.3).
    #[inline(always)]
    pub(super) fn drop_previous(&mut self) -> Result<Answer<Q>, Refusal>
        ensures { Transition DropPrevious self.old result self.new }
    {
        if self.paths.drop_previous() {
            Ok(Answer::Done)
        } else {
            Err(Refusal::NoSuchPath)
        }
    }

    /// The previous path is used again (RFC 9000, 9.3.2).
    #[inline(always)]
    pub(super) fn revert_path(&mut self) -> Result<Answer<Q>, Refusal>
        ensures { Transition RevertPath self.old result self.new }
    {
        let limit = self.peer_limit;
        if self.paths.revert(self.allow_mtud, limit, &self.transport) {
            Ok(Answer::Done)
        } else {
            Err(Refusal::NoSuchPath)
        }
    }

    /// A datagram is to be transmitted (RFC 9000, 8.1; RFC 9002, 7.7).
    #[inline(always)]
    pub(crate) fn transmit(
        &mut self,
        now: Instant,
        bytes: u16,
        checked: bool,
    ) -> Result<Answer<Q>, Refusal>
        ensures { Transition (Transmit now bytes checked) self.old result self.new }
    {
        if !self.paths.current.has_room(bytes) {
            return Err(Refusal::Overflow);
        }
        if checked {
            let asked = u64::from(bytes);
            if self.paths.current.anti_amplification_blocked(asked) {
                return Ok(Answer::Blocked);
            }
            if let Some(until) = self.paths.current.delay(now, asked) {
                return Ok(Answer::Delayed(until));
            }
        }
        self.paths.current.transmit(bytes);
        Ok(Answer::Transmitted)
    }

    /// Does the pacer let this many bytes pass now (RFC 9002, 7.7)?
    #[inline(always)]
    pub(super) fn pacer_check(&mut self, now: Instant, bytes: u64) -> Result<Answer<Q>, Refusal>
        ensures { Transition (PacerCheck now bytes) self.old result self.new }
    {
        match self.paths.current.delay(now, bytes) {
            None => Ok(Answer::Ready),
            Some(until) => Ok(Answer::Delayed(until)),
        }
    }

    /// Packets were lost, or ECN reported congestion (RFC 9002, 7.3).
    #[inline(always)]
    pub(super) fn congestion(
        &mut self,
        now: Instant,
        sent: Instant,
        persistent: bool,
        bytes: u64,
    ) -> Result<Answer<Q>, Refusal>
        ensures { Transition (Congestion now sent persistent bytes) self.old result self.new }
    {
        self.paths
            .current
            .on_congestion_event(now, sent, persistent, bytes);
        Ok(Answer::Done)
    }

    /// All packets that an ACK newly acknowledges were reported.
    #[inline(always)]
    pub(crate) fn end_acks(
        &mut self,
        now: Instant,
        app_limited: bool,
        largest: Option<u64>,
    ) -> Result<Answer<Q>, Refusal>
        ensures { Transition (EndAcks now app_limited largest) self.old result self.new }
    {
        self.paths.current.on_end_acks(now, app_limited, largest);
        Ok(Answer::Done)
    }
}
