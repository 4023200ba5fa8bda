//! Readings of a sender (RFC 9000, 8.1; RFC 9002, 6.2, 7 and A.8).
ghost use Rattle.std.specs.Prelude.{◌≡◌, ◌*◌, ◌-◌, min, Decides, MatchOption};
ghost use Rattle.recovery_base.specs.Units.{largest_u64};
ghost use Rattle.recovery_paths.specs.PathStates.{amplification_factor, IsRoomInPacer};
ghost use Rattle.recovery_sender.specs.Calls.{IsAckRequired};
ghost use Rattle.recovery_sender.specs.Readings.{amplification_room, timer_state, window_room};
ghost use Rattle.recovery_sender.specs.RetransmitAll.{HasNoneFrom, IsLeastFrom};
ghost use Rattle.recovery_sender.specs.Senders.{state_in};
ghost use Rattle.recovery_sender.specs.Spaces.{packets_in};

use super::Sender;
use super::timer::LEAST_DATAGRAM;
use rand_core::Rng;
use recovery_base::below::SpaceId;
use recovery_base::time::Instant;
use recovery_congestion::congestion::{Controller, ControllerFactory};
use recovery_losses::Due;
use recovery_queue::queue::RetransmitQueue;

/// The purpose of the loss detection timer, or why it is not set (RFC 9002, 6.2 and A.8).
#[derive(Clone, Copy)]
pub enum TimerState {
    /// It is set to this time, for this purpose.
    Set(Instant, Due),
    /// The amplification limit permits no datagram of 1200 bytes (RFC 9000, 8.1 and 14.1). The next datagram from the
    /// peer sets the timer.
    Blocked,
    /// Only 1-RTT packets are in flight. They are probed for once the handshake is confirmed (RFC 9002, 6.2.1): if it
    /// is, `on_handshake_confirmed` was not called.
    Unconfirmed,
    /// No ack-eliciting packet is in flight that is probed for.
    Idle,
}

/// Returns how many bytes may still be sent to an address that is not validated, at most `u64::MAX` (RFC 9000, 8.1).
fn room_within_limit(received: u64, sent: u64) -> u64
    ensures { result ≡ min (amplification_factor * received - sent) largest_u64 }
{
    let room = (3 * u128::from(received)).saturating_sub(u128::from(sent));
    if room < u128::from(u64::MAX) {
        room as u64
    } else {
        u64::MAX
    }
}

impl<F, Q, R> Sender<F, Q, R>
where
    F: ControllerFactory,
    Q: RetransmitQueue,
    R: Rng + Drop,
{
    /// Returns the purpose of the loss detection timer, or why it is not set (RFC 9002, 6.2 and A.8). Use it to find
    /// out why a transfer waits.
    pub fn timer_state(&self) -> TimerState
        ensures { result ≡ timer_state (state_in self.now) self.now.variables }
    {
        if let Some((time, due)) = self.due() {
            TimerState::Set(time, due)
        } else if self.path().anti_amplification_blocked(LEAST_DATAGRAM) {
            TimerState::Blocked
        } else if !self.variables.is_handshake_confirmed && self.tracks_eliciting(SpaceId::Data) {
            TimerState::Unconfirmed
        } else {
            TimerState::Idle
        }
    }

    /// Returns how many more bytes fit into the congestion window of the path in use (RFC 9002, 7): 0 if it is full. A
    /// larger datagram that counts in flight is `Full`. Ask [`Sender::transmit`] for a handshake packet all the same:
    /// only then does its space have a probe timeout while it waits.
    pub fn window_room(&self) -> u64
        ensures { result ≡ window_room F.Controller.words (state_in self.now) }
    {
        let path = self.path();
        path.congestion
            .window()
            .saturating_sub(path.in_flight().bytes)
    }

    /// Returns whether an ACK of a space is required at once (RFC 9000, 13.2.1): if the window or the pacer holds its
    /// packets back, send the ACK alone. False for a discarded space.
    pub fn ack_required(&self, space: SpaceId) -> bool
        ensures { Decides result (IsAckRequired (state_in self.now) space) }
    {
        match self.space(space) {
            Some(here) => here.pending_acks.can_send(),
            None => false,
        }
    }

    /// Returns how many bytes the pacer permits now on the path in use: the largest datagram that `transmit` does not
    /// delay (RFC 9002, 7.7). At most `u64::MAX`, which is returned if nothing is paced.
    pub fn pacer_room(&self, now: Instant) -> u64
        ensures { IsRoomInPacer F.Controller.words now (state_in self.now).paths.current.state
            result }
    {
        self.path().pacer_room(now)
    }

    /// Returns how many more bytes the amplification limit permits on the path in use (RFC 9000, 8.1), at most
    /// `u64::MAX`; `None` if its address is validated, so that no limit applies.
    pub fn amplification_room(&self) -> Option<u64>
        ensures { result ≡ amplification_room (state_in self.now) }
    {
        let path = self.path();
        if path.validated {
            return None;
        }
        Some(room_within_limit(path.total_recvd, path.total_sent))
    }

    /// Returns the smallest packet number that is tracked in a space, if any: all smaller ones are acknowledged, lost,
    /// forgotten or discarded. Cost: logarithmic.
    pub fn smallest_tracked(&self, space: SpaceId) -> Option<u64>
        ensures { MatchOption result
            (HasNoneFrom (packets_in (state_in self.now) space) 0)
            (IsLeastFrom (packets_in (state_in self.now) space) 0) }
    {
        self.first_tracked(space, 0)
    }
}
