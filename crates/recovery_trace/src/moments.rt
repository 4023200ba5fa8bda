//! When an event happens.
ghost use Rattle.std.specs.Prelude.{◌≡◌};
ghost use Rattle.recovery_trace.specs.EventTimes.{moment_of};

use recovery_events::event::Event;
use recovery_queue::items::ItemQueue;

/// Returns the time of an event, in nanoseconds, or 0 if it has none.
pub fn moment_of(event: &Event<ItemQueue>) -> u64
    ensures { result ≡ moment_of event.now }
{
    match event {
        Event::Received { now, .. }
        | Event::Send { now, .. }
        | Event::Acked { now, .. }
        | Event::IssueIds { now, .. }
        | Event::Transmit { now, .. }
        | Event::PacerCheck { now, .. }
        | Event::Congestion { now, .. }
        | Event::EndAcks { now, .. }
        | Event::PollMtu { now }
        | Event::LossesDone { now }
        | Event::NewPath { now, .. }
        | Event::ResetPath { now } => now.as_nanos(),
        _ => 0,
    }
}
