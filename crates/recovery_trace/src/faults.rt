//! The lines of a trace, for the report of one that cannot be read.
ghost use Rattle.recovery_script_syntax.specs.Lines.{EncodesEvent};

use recovery_base::below::NoMemory;
use recovery_events::event::Event;
use recovery_queue::items::ItemQueue;
use recovery_replay::faults::{Grammar, line_named};
use recovery_script_syntax::lines::event_in;
use std::alloc::Global;

/// A line for each event, with words that fit.
const EXAMPLES: [&str; 37] = [
    "received data 0 0 1",
    "send data 0 0 1 -",
    "acked data 0 0 0",
    "lost data 0",
    "new-id 0 0 0",
    "next-id",
    "initial-id 0",
    "issue-ids 0 0 0",
    "id-timeout",
    "peer-retired 0 0",
    "ack-frequency 0 0 0 0",
    "acks-sent data",
    "ack-delay-timeout data",
    "set-timer idle 0",
    "stop-timer idle",
    "next-timeout",
    "discard data",
    "in-flight current",
    "sample 0 0",
    "datagram-in current 0",
    "validated current",
    "transmit 0 0 1",
    "pacer-check 0 0",
    "congestion 0 0 0 0",
    "end-acks 0 0 -",
    "poll-mtu 0",
    "peer-limit 0",
    "mtu-found 0",
    "losses-done 0",
    "ecn data 0 0 0 0",
    "check-ack data 0 0",
    "queue-probe data 0",
    "take-pending data",
    "new-path 0 0 0",
    "reset-path 0",
    "drop-previous",
    "revert-path",
];

/// The lines that encode an event.
pub struct EventLines;

impl Grammar for EventLines {
    type Item = Event<ItemQueue>;

    ghost encodes = { EncodesEvent };

    ghost are_short = { λ line event encoded. encoded.short };

    fn example_of(name: &[u8]) -> Option<&'static [u8]> {
        line_named(&EXAMPLES, name)
    }

    fn item_in(alloc: Global, line: &[u8]) -> Result<Option<Event<ItemQueue>>, NoMemory> {
        event_in(alloc, line)
    }
}
