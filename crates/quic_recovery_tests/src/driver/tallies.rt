//! The retransmission queue, and probes, over a queue type that is not the program's.
ghost use Rattle.std.specs.Prelude.{◌<◌};

use super::*;
use recovery_spaces::spaces::SendableFrames;

const PING: Reply = Ok(Answer::Sendable(SendableFrames {
    acks: false,
    other: true,
}));

const TAKE: Event = Event::TakePending {
    space: SpaceId::Data,
};

fn send_with(bytes: u64) -> Event {
    Event::Send {
        space: SpaceId::Data,
        now: at(7),
        size: 100,
        ack_eliciting: true,
        largest_acked: None,
        queue: Tally { bytes },
        stream_frames: 5,
    }
}

fn lost(number: u64) -> Event {
    Event::Lost {
        space: SpaceId::Data,
        number,
    }
}

fn queue_probe(immediate_ack: bool, streams: bool) -> Event {
    Event::QueueProbe {
        space: SpaceId::Data,
        immediate_ack,
        streams,
    }
}

fn tally(bytes: u64) -> Reply {
    Ok(Answer::Queue(Tally { bytes }))
}

/// Asserts the replies to the events of a fresh connection, one a row, and which requests of probes they leave.
fn play_fresh<const N: usize>(
    rt: &impl Abort,
    alloc: Global,
    rows: [(Event, Reply); N],
    marks: (bool, bool, u32),
)
    requires { N < 1000 }
{
    let (ping, immediate_ack, probes) = marks;
    let mut recovery = fresh(rt, alloc);
    play(rt, &mut recovery, rows);
    let here = kept(rt, &recovery, SpaceId::Data);
    let is_left = here.ping_pending == ping
        && here.immediate_ack_pending == immediate_ack
        && here.loss_probes == probes;
    holds(rt, is_left, N as u64);
    drop(recovery);
}

/// What is lost is added to what already waits; a probe finds what waits, or else the contents of the first packet that
/// has any.
#[test]
fn what_is_sent_again(rt: HostRuntime) {
    let rows = [
        (send_with(0), sent(0, None)),
        (send_with(10), sent(1, None)),
        (send_with(20), sent(2, None)),
        (send_with(40), sent(3, None)),
        (TAKE, tally(0)),
        (lost(3), LOST),
        (queue_probe(false, true), PING),
        (lost(1), LOST),
        (TAKE, tally(50)),
        (TAKE, tally(0)),
        (queue_probe(false, true), PING),
        (TAKE, tally(20)),
        (lost(2), LOST),
        (TAKE, tally(0)),
    ];
    play_fresh(&rt, rt.alloc(), rows, (false, false, 2));
}

/// If nothing is found a PING is requested, unless an immediate ACK is. Queues are tested with the streams of the
/// event.
#[test]
fn a_probe_that_finds_nothing(rt: HostRuntime) {
    let closed = [
        (send_with(10), sent(0, None)),
        (queue_probe(false, false), PING),
        (TAKE, tally(0)),
    ];
    play_fresh(&rt, rt.alloc(), closed, (true, false, 1));
    let at_once = [
        (queue_probe(true, true), PING),
        (queue_probe(false, true), PING),
        (send_with(10), sent(0, None)),
    ];
    play_fresh(&rt, rt.alloc(), at_once, (false, true, 1));
    let found = [
        (send_with(10), sent(0, None)),
        (queue_probe(false, true), PING),
    ];
    play_fresh(&rt, rt.alloc(), found, (false, false, 1));
}

/// What cannot be joined stays in its packet.
#[test]
fn tallies_that_are_not_joined(rt: HostRuntime) {
    let rows = [
        (send_with(u64::MAX), sent(0, None)),
        (send_with(1), sent(1, None)),
        (lost(0), LOST),
        (lost(1), NO_MEMORY),
        (CURRENT, in_flight(100, 1)),
        (lost(1), NO_MEMORY),
        (TAKE, tally(u64::MAX)),
        (lost(1), LOST),
        (TAKE, tally(1)),
        (lost(1), NOT_TRACKED),
        (CURRENT, in_flight(0, 0)),
    ];
    play_fresh(&rt, rt.alloc(), rows, (false, false, 0));
}
