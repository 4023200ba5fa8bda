//! What can be read of a sender in numbers: the purpose of its timer, and the room that is left on the path in use.
ghost use Rattle.std.specs.Prelude.{◌≡◌};
ghost use Rattle.recovery_sender.specs.Senders.{state_in};
ghost use Rattle.recovery_engine.specs.SenderViews.{awaited, awaited_space, awaited_time, no_sender_view, sender_shown};

use crate::kept::ItemSender;
use crate::numbers::{
    AWAITS_CONFIRMATION, AWAITS_DEADLOCK_PROBE, AWAITS_LOSSES, AWAITS_NOTHING, AWAITS_PEER,
    AWAITS_PROBES,
};
use crate::spelling::space_number;
use recovery_losses::Due;
use recovery_sender::TimerState;

/// The purpose of a sender's loss detection timer, and the room that is left on the path in use.
#[repr(C)]
#[derive(Clone, Copy)]
pub struct SenderView {
    /// How many bytes more fit into the congestion window (RFC 9002, 7). Ask `recovery_ffi_sender_transmit` for what
    /// waits even if there is no room.
    pub window_room: u64,
    /// How many more bytes the amplification limit permits, if `is_limited` (RFC 9000, 8.1); else `u64::MAX`.
    pub amplification_room: u64,
    /// When the loss detection timer expires, in nanoseconds; 0 if it is not set.
    pub timer: u64,
    /// Its purpose, such as `AWAITS_LOSSES`, or why it is not set, such as `AWAITS_PEER`.
    pub awaits: u8,
    /// The space for which it is set; 0 if it is not set.
    pub space: u8,
    /// Whether the amplification limit applies to the path: its address is not validated.
    pub is_limited: bool,
}

/// Returns the number of the timer's purpose.
fn awaited(state: &TimerState) -> u8
    ensures { result ≡ awaited state.now }
{
    match state {
        TimerState::Set(_, Due::Losses(_)) => AWAITS_LOSSES,
        TimerState::Set(_, Due::Probes(_)) => AWAITS_PROBES,
        TimerState::Set(_, Due::AntiDeadlock(_)) => AWAITS_DEADLOCK_PROBE,
        TimerState::Blocked => AWAITS_PEER,
        TimerState::Unconfirmed => AWAITS_CONFIRMATION,
        TimerState::Idle => AWAITS_NOTHING,
    }
}

/// Returns the space for which the timer is set.
fn awaited_space(state: &TimerState) -> u8
    ensures { result ≡ awaited_space state.now }
{
    match state {
        TimerState::Set(_, Due::Losses(space))
        | TimerState::Set(_, Due::Probes(space))
        | TimerState::Set(_, Due::AntiDeadlock(space)) => space_number(*space),
        _ => 0,
    }
}

/// Returns the time that the timer is set to.
fn awaited_time(state: &TimerState) -> u64
    ensures { result ≡ awaited_time state.now }
{
    match state {
        TimerState::Set(time, _) => time.as_nanos(),
        _ => 0,
    }
}

impl SenderView {
    /// Returns the view if there is no sender.
    pub fn none() -> SenderView
        ensures { result ≡ no_sender_view }
    {
        SenderView {
            window_room: 0,
            amplification_room: 0,
            timer: 0,
            awaits: AWAITS_NOTHING,
            space: 0,
            is_limited: false,
        }
    }

    /// Returns the view of a sender.
    pub fn of(sender: &ItemSender) -> SenderView
        ensures { result ≡ sender_shown (state_in sender.now) sender.now.variables }
    {
        let state = sender.timer_state();
        let room = sender.amplification_room();
        SenderView {
            window_room: sender.window_room(),
            amplification_room: room.unwrap_or(u64::MAX),
            timer: awaited_time(&state),
            awaits: awaited(&state),
            space: awaited_space(&state),
            is_limited: room.is_some(),
        }
    }
}
