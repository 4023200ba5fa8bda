//! Allocation fails for packets that are lost: these are still tracked, and the next pass, or the same call, continues
//! with them. The answers are computed by hand.
use crate::sender::failing::FailingQueue;
use quic_recovery_rows::config::{settings, words};
use quic_recovery_rows::events::at;
use rand_pcg::Pcg32;
use recovery_base::below::SpaceId;
use recovery_base::time::Duration;
use recovery_congestion::congestion::NewRenoConfig;
use recovery_events::event::{Answer, Event};
use recovery_losses::{Ack, Side};
use recovery_sender::{Acknowledged, Losses, Retransmitted, Sender, SenderError, Timeout};
use std::alloc::Global;
use std::process::Abort;

type Failing = Sender<NewRenoConfig, FailingQueue, Pcg32>;

const MILLIS: u64 = 1_000_000;

/// A call, with its time in milliseconds first.
#[derive(Clone, Copy)]
enum Call {
    Validated,
    Confirmed,
    /// A packet of 1000 bytes with an item, or with none.
    Send(u64, SpaceId, Option<u64>),
    /// The same, and allocation fails once if it is declared lost.
    SendFailing(u64, SpaceId, Option<u64>),
    /// A frame of 1-RTT packets that acknowledges one number.
    Ack(u64, u64),
    Timeout(u64),
    RetransmitAll(u64, SpaceId),
    /// The items of 1-RTT packets that wait for retransmission.
    TakePending,
}

/// Packets that are declared lost: the first two numbers, the bytes of congestion, whether it is persistent, and
/// whether allocation failed for one.
#[derive(Clone, Copy, PartialEq, Eq)]
struct Lost {
    numbers: (Option<u64>, Option<u64>),
    congestion: Option<u64>,
    is_persistent: bool,
    is_cut: bool,
}

/// The answer of a call.
#[derive(Clone, Copy, PartialEq, Eq)]
enum Said {
    Done,
    Sent(u64),
    /// How many numbers are acknowledged, and what is lost.
    Acked(usize, Lost),
    Lost(Lost),
    /// How many items wait, and the first.
    Items(usize, Option<u64>),
    Other,
}

fn first_two(numbers: &[u64]) -> (Option<u64>, Option<u64>) {
    (numbers.first().copied(), numbers.get(1).copied())
}

fn lost_in(losses: &Losses) -> Lost {
    Lost {
        numbers: first_two(&losses.numbers),
        congestion: losses.congestion,
        is_persistent: losses.is_persistent,
        is_cut: losses.is_cut,
    }
}

fn acked(reply: &Result<Acknowledged, SenderError>) -> Said {
    match reply {
        Ok(acked) => Said::Acked(acked.numbers.len(), lost_in(&acked.losses)),
        Err(_) => Said::Other,
    }
}

fn timed_out(reply: &Result<Timeout, SenderError>) -> Said {
    match reply {
        Ok(Timeout::Lost { losses, .. }) => Said::Lost(lost_in(losses)),
        _ => Said::Other,
    }
}

fn retransmitted(reply: &Result<Retransmitted, SenderError>) -> Said {
    match reply {
        Ok(all) => Said::Lost(Lost {
            numbers: first_two(&all.numbers),
            congestion: None,
            is_persistent: false,
            is_cut: all.is_cut,
        }),
        Err(_) => Said::Other,
    }
}

fn answer(reply: &Result<Answer<FailingQueue>, SenderError>) -> Said {
    match reply {
        Ok(Answer::Sent { number, .. }) => Said::Sent(*number),
        Ok(Answer::Queue(queue)) => Said::Items(
            queue.items().len(),
            queue.items().first().copied(),
        ),
        _ => Said::Other,
    }
}

/// Sends a packet. Allocation fails this often when its item is to join others.
fn send(
    alloc: Global,
    sender: &mut Failing,
    millis: u64,
    space: SpaceId,
    item: Option<u64>,
    failures: u32,
) -> Said {
    let mut items = Vec::new(alloc);
    if let Some(item) = item {
        let _room = items.push(item);
    }
    let queue = FailingQueue::new(items, failures);
    let now = at(millis.saturating_mul(MILLIS));
    let reply = sender.send(space, now, 1000, true, None, queue, ());
    answer(&reply)
}

fn on_ack(sender: &mut Failing, millis: u64, number: u64) -> Said {
    let ack = Ack {
        delay: Duration::ZERO,
        ecn: None,
        app_limited: false,
        received: None,
    };
    let now = at(millis.saturating_mul(MILLIS));
    let reply = sender.on_ack(SpaceId::Data, now, &[(number, number)], ack);
    acked(&reply)
}

fn take_pending(sender: &mut Failing) -> Said {
    let reply = sender.on_event(Event::TakePending {
        space: SpaceId::Data,
    });
    answer(&reply)
}

fn play(alloc: Global, sender: &mut Failing, given: Call) -> Said {
    match given {
        Call::Validated => {
            sender.on_address_validated();
            Said::Done
        }
        Call::Confirmed => {
            sender.on_handshake_confirmed();
            Said::Done
        }
        Call::Send(millis, space, item) => send(alloc, sender, millis, space, item, 0),
        Call::SendFailing(millis, space, item) => send(alloc, sender, millis, space, item, 1),
        Call::Ack(millis, number) => on_ack(sender, millis, number),
        Call::Timeout(millis) => {
            let reply = sender.on_timeout(at(millis.saturating_mul(MILLIS)));
            timed_out(&reply)
        }
        Call::RetransmitAll(millis, space) => {
            let reply = sender.retransmit_all(space, at(millis.saturating_mul(MILLIS)));
            retransmitted(&reply)
        }
        Call::TakePending => take_pending(sender),
    }
}

/// Asserts the answer of each call, and the timer after it.
fn walk<const N: usize>(
    rt: &impl Abort,
    alloc: Global,
    sender: &mut Failing,
    rows: [(Call, Said, Option<u64>); N],
) {
    let mut row = 0u64;
    for (given, said, timer) in rows {
        let found = play(alloc, sender, given);
        let is_right = found == said && sender.loss_detection_timer() == timer.map(at);
        assert!(rt; is_right, "row {row}");
        row = row.saturating_add(1);
    }
}

fn run<const N: usize>(
    rt: &impl Abort,
    alloc: Global,
    side: Side,
    rows: [(Call, Said, Option<u64>); N],
) {
    match Sender::new(alloc, side, settings(8), words(), at(0)) {
        Ok(mut sender) => {
            walk(rt, alloc, &mut sender, rows);
            drop(sender);
        }
        Err(_) => panic!(rt; "NoMemory"),
    }
}

/// Nothing is declared lost.
fn none() -> Lost {
    Lost {
        numbers: (None, None),
        congestion: None,
        is_persistent: false,
        is_cut: false,
    }
}

/// One packet is lost, and these bytes of congestion.
fn one(number: u64, congestion: Option<u64>) -> Lost {
    Lost {
        numbers: (Some(number), None),
        congestion,
        ..none()
    }
}

fn cut(lost: Lost) -> Lost {
    Lost {
        is_cut: true,
        ..lost
    }
}

/// Packets 0 and 1 are lost by an ACK (RFC 9002, 6.1.1). Allocation fails for 0, which retains its item. The timer is
/// due at once, and declares it lost.
#[test]
fn one_of_two_losses(rt: HostRuntime) {
    let data = SpaceId::Data;
    let sent = Some(1_025_000_000);
    let rows = [
        (Call::Validated, Said::Done, None),
        (Call::Confirmed, Said::Done, None),
        (Call::SendFailing(1, data, Some(1)), Said::Sent(0), sent),
        (Call::Send(1, data, Some(2)), Said::Sent(1), sent),
        (Call::Send(1, data, Some(3)), Said::Sent(2), sent),
        (Call::Send(1, data, Some(4)), Said::Sent(3), sent),
        (Call::Send(1, data, Some(5)), Said::Sent(4), sent),
        (
            Call::Ack(101, 4),
            Said::Acked(1, cut(one(1, Some(1000)))),
            Some(101_000_000),
        ),
        (
            Call::TakePending,
            Said::Items(1, Some(2)),
            Some(101_000_000),
        ),
        (
            Call::Timeout(101),
            Said::Lost(one(0, Some(1000))),
            Some(113_500_000),
        ),
        (
            Call::TakePending,
            Said::Items(1, Some(1)),
            Some(113_500_000),
        ),
    ];
    run(&rt, rt.alloc(), Side::Server, rows);
}

/// Only packet 0 is lost, by its age (RFC 9002, 6.1.2), and allocation fails for it.
#[test]
fn the_only_loss(rt: HostRuntime) {
    let data = SpaceId::Data;
    let (sent, lost) = (Some(1_025_000_000), Some(226_000_000));
    let rows = [
        (Call::Validated, Said::Done, None),
        (Call::Confirmed, Said::Done, None),
        (Call::SendFailing(1, data, Some(1)), Said::Sent(0), sent),
        (Call::Send(1, data, Some(2)), Said::Sent(1), sent),
        (Call::Ack(201, 1), Said::Acked(1, none()), lost),
        (Call::Timeout(226), Said::Lost(cut(none())), lost),
        (Call::Timeout(226), Said::Lost(one(0, Some(1000))), None),
    ];
    run(&rt, rt.alloc(), Side::Server, rows);
}

/// All packets of a space were declared lost (RFC 9002, 6.3). Allocation fails for packet 0, and the same call goes on
/// with it.
#[test]
fn one_of_all_packets(rt: HostRuntime) {
    let initial = SpaceId::Initial;
    let sent = Some(999_000_000);
    let rows = [
        (Call::SendFailing(0, initial, Some(7)), Said::Sent(0), sent),
        (Call::Send(0, initial, Some(8)), Said::Sent(1), sent),
        (
            Call::RetransmitAll(10, initial),
            Said::Lost(cut(one(1, None))),
            sent,
        ),
        (
            Call::RetransmitAll(20, initial),
            Said::Lost(one(0, None)),
            Some(1_019_000_000),
        ),
    ];
    run(&rt, rt.alloc(), Side::Client, rows);
}

/// Packets 1 and 3 are lost, farther apart than the period of persistent congestion. Allocation fails for packet 2
/// between them: it is not lost now, so the congestion is not persistent (RFC 9002, 7.6.2).
#[test]
fn a_loss_between_others(rt: HostRuntime) {
    let data = SpaceId::Data;
    let two = Lost {
        numbers: (Some(1), Some(3)),
        congestion: Some(2000),
        is_persistent: false,
        is_cut: true,
    };
    let rows = [
        (Call::Validated, Said::Done, None),
        (Call::Confirmed, Said::Done, None),
        (
            Call::Send(0, data, None),
            Said::Sent(0),
            Some(1_024_000_000),
        ),
        (Call::Ack(100, 0), Said::Acked(1, none()), None),
        (
            Call::Send(100, data, None),
            Said::Sent(1),
            Some(425_000_000),
        ),
        (
            Call::SendFailing(600, data, None),
            Said::Sent(2),
            Some(925_000_000),
        ),
        (
            Call::Send(1200, data, None),
            Said::Sent(3),
            Some(1_525_000_000),
        ),
        (
            Call::Send(1300, data, None),
            Said::Sent(4),
            Some(1_625_000_000),
        ),
        (Call::Ack(1400, 4), Said::Acked(1, two), Some(1_400_000_000)),
    ];
    run(&rt, rt.alloc(), Side::Server, rows);
}
