//! The answer of each call of a sender, and the loss detection timer after it.
use quic_recovery_rows::config::{settings, words};
use quic_recovery_rows::events::{Answer, Event, at, received};
use quic_recovery_rows::tally::Tally;
use rand_pcg::Pcg32;
use recovery_base::below::SpaceId;
use recovery_base::time::Duration;
use recovery_congestion::congestion::NewRenoConfig;
use recovery_losses::{Ack, Due, Side};
use recovery_sender::{
    Acknowledged, Losses, Retransmitted, Sender, SenderError, Timeout, TimerState, Transmission,
    passes,
};
use std::alloc::Global;
use std::process::Abort;

type Reno = Sender<NewRenoConfig, Tally, Pcg32>;

/// A call, with its time in nanoseconds first.
#[derive(Clone, Copy)]
enum Call {
    Transmit(u64, u16, SpaceId, bool),
    Send(u64, u16, SpaceId),
    PollMtu(u64),
    Datagram(u64),
    Validated,
    Keys,
    Confirmed,
    PeerMaxAckDelay(u64),
    InitialRtt(u64),
    /// The room in the window and under the amplification limit, and the smallest number that a space tracks.
    Rooms(SpaceId),
    /// What the timer waits for.
    State,
    Discard(u64, SpaceId),
    RetransmitAll(u64, SpaceId),
    Received(SpaceId, u64),
    /// A frame of 1-RTT packets that acknowledges one number.
    Ack(u64, u64),
    Timeout(u64),
}

/// The answer of a call.
#[derive(Clone, Copy, PartialEq, Eq)]
enum Said {
    Done,
    Transmitted,
    Blocked,
    Full,
    Delayed,
    Sent(u64),
    Probe(u64, u16),
    New,
    /// The first number acknowledged, how many are, and the first that is lost.
    Acked(u64, usize, Option<u64>),
    /// The first number that is lost, and the bytes of congestion.
    Lost(Option<u64>, Option<u64>),
    /// This many probes are due.
    ProbesDue(u8),
    Nothing,
    Rooms(u64, u64, Option<u64>, Option<u64>),
    Idle,
    AwaitsLosses,
    AwaitsProbes(SpaceId),
    AwaitsDeadlockProbe,
    AwaitsPeer,
    AwaitsConfirmation,
    Other,
    SenderError(u64),
    Unsent,
    DataSpace,
}

fn refused(refused: &SenderError) -> Said {
    match refused {
        SenderError::Event(refusal) => Said::SenderError(u64::from(refusal.number())),
        SenderError::Unsent => Said::Unsent,
        SenderError::DataSpace => Said::DataSpace,
    }
}

fn transmission(reply: &Result<Transmission, SenderError>) -> Said {
    match reply {
        Ok(Transmission::Transmitted) => Said::Transmitted,
        Ok(Transmission::Blocked) => Said::Blocked,
        Ok(Transmission::Full { .. }) => Said::Full,
        Ok(Transmission::Delayed { .. }) => Said::Delayed,
        Err(given) => refused(given),
    }
}

fn answer(reply: &Result<Answer, SenderError>) -> Said {
    match reply {
        Ok(Answer::Sent { number, .. }) => Said::Sent(*number),
        Ok(Answer::Probe { number, size }) => Said::Probe(*number, *size),
        Ok(Answer::New { .. }) => Said::New,
        Ok(_) => Said::Other,
        Err(given) => refused(given),
    }
}

fn done(reply: &Result<(), SenderError>) -> Said {
    match reply {
        Ok(()) => Said::Done,
        Err(given) => refused(given),
    }
}

fn first(numbers: &[u64]) -> Option<u64> {
    Some(*numbers.first()?)
}

fn lost(losses: &Losses) -> Said {
    Said::Lost(first(&losses.numbers), losses.congestion)
}

fn acked(reply: &Result<Acknowledged, SenderError>) -> Said {
    match reply {
        Ok(acked) => match first(&acked.numbers) {
            Some(number) => {
                Said::Acked(number, acked.numbers.len(), first(&acked.losses.numbers))
            }
            None => Said::Nothing,
        },
        Err(given) => refused(given),
    }
}

fn retransmitted(reply: &Result<Retransmitted, SenderError>) -> Said {
    match reply {
        Ok(all) => Said::Lost(first(&all.numbers), None),
        Err(given) => refused(given),
    }
}

fn timed_out(reply: &Result<Timeout, SenderError>) -> Said {
    match reply {
        Ok(Timeout::Nothing) => Said::Nothing,
        Ok(Timeout::Lost { losses, .. }) => lost(losses),
        Ok(Timeout::Probe { count, .. }) => Said::ProbesDue(*count),
        Err(given) => refused(given),
    }
}

/// A frame without a delay and without ECN counts.
fn on_ack(sender: &mut Reno, now: u64, number: u64) -> Said {
    let ack = Ack {
        delay: Duration::ZERO,
        ecn: None,
        app_limited: false,
        received: None,
    };
    let reply = sender.on_ack(SpaceId::Data, at(now), &[(number, number)], ack);
    acked(&reply)
}

/// Calls that may fail.
fn play(sender: &mut Reno, given: Call) -> Said {
    match given {
        Call::Transmit(now, bytes, space, in_flight) => {
            let reply = sender.transmit(at(now), bytes, space, in_flight);
            transmission(&reply)
        }
        Call::Send(now, size, space) => {
            let nothing = Tally { bytes: 0 };
            let reply = sender.send(space, at(now), size, true, None, nothing, 0);
            answer(&reply)
        }
        Call::PollMtu(now) => {
            let reply = sender.poll_mtu(at(now));
            answer(&reply)
        }
        Call::Received(space, number) => pass(sender, received(space, number, true)),
        Call::Datagram(bytes) => {
            let reply = sender.on_datagram(bytes);
            done(&reply)
        }
        Call::Discard(now, space) => {
            let reply = sender.discard(space, at(now));
            done(&reply)
        }
        Call::RetransmitAll(now, space) => {
            let reply = sender.retransmit_all(space, at(now));
            retransmitted(&reply)
        }
        Call::Ack(now, number) => on_ack(sender, now, number),
        Call::Timeout(now) => {
            let reply = sender.on_timeout(at(now));
            timed_out(&reply)
        }
        Call::Rooms(space) => Said::Rooms(
            sender.window_room(),
            sender.pacer_room(at(0)),
            sender.amplification_room(),
            sender.smallest_tracked(space),
        ),
        Call::State => awaited(sender),
        other => tell(sender, other),
    }
}

/// What the timer waits for, or why it is not set.
fn awaited(sender: &Reno) -> Said {
    match sender.timer_state() {
        TimerState::Set(_, Due::Losses(_)) => Said::AwaitsLosses,
        TimerState::Set(_, Due::Probes(space)) => Said::AwaitsProbes(space),
        TimerState::Set(_, Due::AntiDeadlock(_)) => Said::AwaitsDeadlockProbe,
        TimerState::Blocked => Said::AwaitsPeer,
        TimerState::Unconfirmed => Said::AwaitsConfirmation,
        TimerState::Idle => Said::Idle,
    }
}

/// An event that passes through.
fn pass(sender: &mut Reno, event: Event) -> Said {
    if !passes(&event) {
        return Said::Other;
    }
    let reply = sender.on_event(event);
    answer(&reply)
}

/// The other calls: reports about the connection.
fn tell(sender: &mut Reno, given: Call) -> Said {
    match given {
        Call::Validated => sender.on_address_validated(),
        Call::Keys => sender.on_handshake_keys(),
        Call::Confirmed => sender.on_handshake_confirmed(),
        Call::PeerMaxAckDelay(nanos) => sender.set_peer_max_ack_delay(Duration::from_nanos(nanos)),
        Call::InitialRtt(nanos) => sender.set_initial_rtt(Duration::from_nanos(nanos)),
        _ => return Said::Other,
    }
    Said::Done
}

/// Asserts the answer of each call, and the timer after it.
fn walk<const N: usize>(rt: &impl Abort, sender: &mut Reno, rows: [(Call, Said, Option<u64>); N]) {
    let mut row = 0u64;
    for (given, said, timer) in rows {
        let found = play(sender, given);
        let is_right = found == said && sender.loss_detection_timer() == timer.map(at);
        assert!(rt; is_right, "row {row}");
        row = row.saturating_add(1);
    }
}

/// A server may send three times the bytes received, and as much as its window allows: ten datagrams of 1,200 bytes
/// (RFC 9000, 8.1; RFC 9002, 7.2). Its probe timeout is 333 ms, four times half of that, and the peer's delay (RFC
/// 9002, 6.2.1).
#[test]
fn a_server(rt: HostRuntime) {
    let (initial, data) = (SpaceId::Initial, SpaceId::Data);
    let rows = [
        (Call::Datagram(400), Said::Done, None),
        (
            Call::Transmit(0, 1200, initial, true),
            Said::Transmitted,
            None,
        ),
        (Call::Send(0, 1200, initial), Said::Sent(0), None),
        (Call::Transmit(0, 1, initial, true), Said::Blocked, None),
        (Call::Datagram(399), Said::Done, None),
        (Call::Datagram(1), Said::Done, Some(999_000_000)),
        (Call::Discard(0, initial), Said::Done, None),
        (
            Call::Transmit(0, 1, initial, true),
            Said::SenderError(5),
            None,
        ),
        (Call::Validated, Said::Done, None),
        (Call::Confirmed, Said::Done, None),
        (Call::Transmit(0, 12_001, data, true), Said::Full, None),
        (
            Call::Transmit(0, 12_001, data, false),
            Said::Transmitted,
            None,
        ),
        (
            Call::Send(0, 1000, data),
            Said::Sent(0),
            Some(1_024_000_000),
        ),
        (
            Call::PeerMaxAckDelay(10_000_000),
            Said::Done,
            Some(1_009_000_000),
        ),
        (
            Call::PollMtu(1_000_000),
            Said::Probe(1, 1326),
            Some(1_010_000_000),
        ),
        (Call::Received(data, 0), Said::New, Some(1_010_000_000)),
    ];
    run(&rt, rt.alloc(), Side::Server, rows);
}

/// What a stack reads of a server: the amplification limit is three times what was received (RFC 9000, 8.1), and the
/// pacer permits a burst of ten datagrams, as the window does.
#[test]
fn rooms_that_are_read(rt: HostRuntime) {
    let (initial, data) = (SpaceId::Initial, SpaceId::Data);
    let rows = [
        (Call::State, Said::AwaitsPeer, None),
        (
            Call::Rooms(initial),
            Said::Rooms(12_000, 12_000, Some(0), None),
            None,
        ),
        (Call::Datagram(400), Said::Done, None),
        (
            Call::Rooms(initial),
            Said::Rooms(12_000, 12_000, Some(1200), None),
            None,
        ),
        (Call::State, Said::Idle, None),
        (
            Call::Transmit(0, 1200, initial, true),
            Said::Transmitted,
            None,
        ),
        (Call::Send(0, 1200, initial), Said::Sent(0), None),
        (
            Call::Rooms(initial),
            Said::Rooms(10_800, 10_800, Some(0), Some(0)),
            None,
        ),
        (Call::State, Said::AwaitsPeer, None),
        (Call::Validated, Said::Done, Some(999_000_000)),
        (
            Call::Rooms(data),
            Said::Rooms(10_800, 10_800, None, None),
            Some(999_000_000),
        ),
    ];
    run(&rt, rt.alloc(), Side::Server, rows);
}

/// What the timer of a server waits for. Before the first RTT sample the probe timeout is three times the initial RTT
/// (RFC 9002, 6.2.1 and 6.2.2): 300 ms for 100 ms, and 600 ms for 200 ms. In the space of 1-RTT packets the peer's
/// delay of 25 ms is added.
#[test]
fn states_that_are_read(rt: HostRuntime) {
    let (initial, data) = (SpaceId::Initial, SpaceId::Data);
    let (first, second) = (Some(300_000_000), Some(600_000_000));
    let rows = [
        (Call::Datagram(400), Said::Done, None),
        (Call::InitialRtt(100_000_000), Said::Done, None),
        (
            Call::Transmit(0, 1200, initial, true),
            Said::Transmitted,
            None,
        ),
        (Call::Send(0, 1200, initial), Said::Sent(0), None),
        (Call::State, Said::AwaitsPeer, None),
        (Call::Datagram(399), Said::Done, None),
        (Call::State, Said::AwaitsPeer, None),
        (Call::Datagram(1), Said::Done, first),
        (Call::State, Said::AwaitsProbes(initial), first),
        (Call::InitialRtt(200_000_000), Said::Done, second),
        (Call::Validated, Said::Done, second),
        (Call::Discard(0, initial), Said::Done, None),
        (Call::Send(0, 1000, data), Said::Sent(0), None),
        (Call::State, Said::AwaitsConfirmation, None),
        (Call::Confirmed, Said::Done, Some(625_000_000)),
        (Call::State, Said::AwaitsProbes(data), Some(625_000_000)),
    ];
    run(&rt, rt.alloc(), Side::Server, rows);
}

/// What was sent before a Retry, or in rejected 0-RTT, is lost without congestion; the count of probes starts again
/// (RFC 9002, 6.3 and 6.4).
#[test]
fn a_retry(rt: HostRuntime) {
    let (initial, data) = (SpaceId::Initial, SpaceId::Data);
    let rows = [
        (
            Call::Send(0, 1200, initial),
            Said::Sent(0),
            Some(999_000_000),
        ),
        (Call::Send(0, 1200, data), Said::Sent(0), Some(999_000_000)),
        (
            Call::Timeout(999_000_000),
            Said::ProbesDue(2),
            Some(1_998_000_000),
        ),
        (
            Call::RetransmitAll(1_000_000_000, initial),
            Said::Lost(Some(0), None),
            Some(1_999_000_000),
        ),
        (
            Call::Send(1_000_000_000, 1200, initial),
            Said::Sent(1),
            Some(1_999_000_000),
        ),
        (
            Call::RetransmitAll(1_010_000_000, data),
            Said::Lost(Some(0), None),
            Some(1_999_000_000),
        ),
        (
            Call::RetransmitAll(1_010_000_000, data),
            Said::Lost(None, None),
            Some(1_999_000_000),
        ),
    ];
    run(&rt, rt.alloc(), Side::Client, rows);
}

/// A client's timer runs from the start, so that not both endpoints wait forever (RFC 9002, 6.2.2.1), and no limit
/// stops it. Its window may be filled exactly (RFC 9002, 7).
#[test]
fn a_client(rt: HostRuntime) {
    let (initial, handshake) = (SpaceId::Initial, SpaceId::Handshake);
    let rows = [
        (Call::Keys, Said::Done, Some(999_000_000)),
        (
            Call::Transmit(0, 12_001, initial, true),
            Said::Full,
            Some(999_000_000),
        ),
        (
            Call::Transmit(0, 12_000, initial, true),
            Said::Transmitted,
            Some(999_000_000),
        ),
        (
            Call::Send(1_000_000, 300, handshake),
            Said::Sent(0),
            Some(1_000_000_000),
        ),
        (
            Call::Discard(2_000_000, handshake),
            Said::Done,
            Some(1_001_000_000),
        ),
        (Call::Discard(3_000_000, initial), Said::Done, None),
    ];
    run(&rt, rt.alloc(), Side::Client, rows);
}

/// A packet is lost if its number is three below the largest acknowledged, or 9/8 of the RTT of 100 ms after it was
/// sent (RFC 9002, 6.1). Then nothing is left, and a frame with a number that was never sent is rejected (RFC 9000,
/// 13.1).
#[test]
fn losses(rt: HostRuntime) {
    let data = SpaceId::Data;
    let rows = [
        (Call::Validated, Said::Done, None),
        (Call::Confirmed, Said::Done, None),
        (
            Call::Send(0, 1000, data),
            Said::Sent(0),
            Some(1_024_000_000),
        ),
        (
            Call::Send(1_000_000, 1000, data),
            Said::Sent(1),
            Some(1_025_000_000),
        ),
        (
            Call::Send(2_000_000, 1000, data),
            Said::Sent(2),
            Some(1_026_000_000),
        ),
        (
            Call::Send(3_000_000, 1000, data),
            Said::Sent(3),
            Some(1_027_000_000),
        ),
        (
            Call::Ack(103_000_000, 3),
            Said::Acked(3, 1, Some(0)),
            Some(113_500_000),
        ),
        (Call::Timeout(113_499_999), Said::Nothing, Some(113_500_000)),
        (
            Call::Timeout(113_500_000),
            Said::Lost(Some(1), Some(1000)),
            Some(114_500_000),
        ),
        (
            Call::Timeout(114_500_000),
            Said::Lost(Some(2), Some(1000)),
            None,
        ),
        (Call::Ack(115_000_000, 4), Said::Unsent, None),
    ];
    run(&rt, rt.alloc(), Side::Server, rows);
}

fn run<const N: usize>(
    rt: &impl Abort,
    alloc: Global,
    side: Side,
    rows: [(Call, Said, Option<u64>); N],
) {
    match Sender::new(alloc, side, settings(8), words(), at(0)) {
        Ok(mut sender) => {
            walk(rt, &mut sender, rows);
            drop(sender);
        }
        Err(_) => panic!(rt; "NoMemory"),
    }
}
