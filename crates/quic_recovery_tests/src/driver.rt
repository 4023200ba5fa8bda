//! The state after events, and replies that no line of a script shows: packets, IDs and timers.
ghost use Rattle.std.specs.Prelude.{◌≡◌, ◌<◌};
ghost use Rattle.recovery_packet_numbers.specs.Skips.{IsSkips};

use quic_recovery::Recovery;
use quic_recovery_rows::config::{settings, settings_with, words};
use quic_recovery_rows::events::*;
use quic_recovery_rows::refusals::Refusal;
use quic_recovery_rows::runs::{self, Wrong};
use quic_recovery_rows::tally::Tally;
use rand_core::Rng;
use recovery_base::below::{AckFrequency, EcnCounts, SpaceId, VarInt};
use recovery_base::time::Duration;
use recovery_base::timer::Timer;
use recovery_config::config::TransportConfig;
use recovery_congestion::congestion::{ControllerFactory, NewRenoConfig};
use recovery_history::RecoveryConfig;
use recovery_packet_numbers::Skips;
use recovery_spaces::spaces::PacketSpace;
use std::alloc::Global;
use std::process::Abort;

mod ids;
mod live;
mod refusals;
mod settings;
mod skips;
mod tallies;

/// Returns a result, or ends the test with what went wrong.
pub(crate) fn right<T>(rt: &impl Abort, found: Result<T, Wrong>) -> T {
    match found {
        Ok(value) => value,
        Err(wrong) => panic!(rt; "{wrong}"),
    }
}

/// Asserts that a row holds.
pub(crate) fn holds(rt: &impl Abort, is_right: bool, row: u64) {
    assert!(rt; is_right, "row {row}");
}

/// Returns a recovery without any event.
pub(crate) fn made<F, R>(
    rt: &impl Abort,
    alloc: Global,
    config: RecoveryConfig<F>,
    rng: R,
) -> Recovery<F, Tally, R>
where
    F: ControllerFactory,
    R: Rng + Drop,
    requires issued { config.issued ≡ 1 }
    requires skips { IsSkips config.skips }
{
    match Recovery::new(alloc, config, rng, at(0)) {
        Ok(recovery) => recovery,
        Err(_) => panic!(rt; "NoMemory"),
    }
}

/// The same with the settings of the replay program.
pub(crate) fn fresh(rt: &impl Abort, alloc: Global) -> Reno {
    made(rt, alloc, settings(8), words())
}

/// Asserts the reply to one event.
pub(crate) fn told<F, R>(
    rt: &impl Abort,
    recovery: &mut Recovery<F, Tally, R>,
    row: u64,
    event: Event,
    want: Reply,
)
where
    F: ControllerFactory,
    R: Rng + Drop,
{
    let reply = recovery.apply(event);
    right(rt, runs::same(row, &reply, &want));
}

/// Asserts the replies to events, one a row.
pub(crate) fn play<F, R, const N: usize>(
    rt: &impl Abort,
    recovery: &mut Recovery<F, Tally, R>,
    rows: [(Event, Reply); N],
)
where
    F: ControllerFactory,
    R: Rng + Drop,
    requires { N < 1000 }
{
    let mut row = 0u64;
    for (event, want) in rows {
        told(rt, recovery, row, event, want);
        row = row.saturating_add(1);
    }
}

/// Returns the state of a space that is not discarded.
pub(crate) fn kept<'a, R: Rng + Drop>(
    rt: &impl Abort,
    recovery: &'a Recovery<NewRenoConfig, Tally, R>,
    space: SpaceId,
) -> &'a PacketSpace<Tally> {
    match recovery.space(space) {
        Some(here) => here,
        None => panic!(rt; "the space is discarded"),
    }
}

/// No packet has a loss time, nothing was sent in CRYPTO frames, and no packet was received with an ECN codepoint.
#[test]
fn a_fresh_connection(rt: HostRuntime) {
    let recovery = fresh(&rt, rt.alloc());
    for space in [SpaceId::Initial, SpaceId::Handshake, SpaceId::Data] {
        let here = kept(&rt, &recovery, space);
        let is_fresh = here.loss_time == None
            && here.crypto_offset == 0
            && here.ecn_counters == EcnCounts::ZERO;
        holds(&rt, is_fresh, 0);
    }
    holds(&rt, recovery.peer_limit().is_none(), 1);
    drop(recovery);
}

/// A list of events at once, which may be empty.
#[test]
fn run_answers_with_memory(rt: HostRuntime) {
    let data = SpaceId::Data;
    drop(right(&rt, runs::walk(rt.alloc(), settings(8), words(), [])));
    let rows = [
        (received(data, 0, true), new(true)),
        (received(data, 0, true), DUPLICATE),
    ];
    drop(right(&rt, runs::walk(rt.alloc(), settings(8), words(), rows)));
}

#[test]
fn what_events_leave(rt: HostRuntime) {
    let mut recovery = fresh(&rt, rt.alloc());
    timers_left(&rt, &mut recovery);
    packets_left(&rt, &mut recovery);
    acks_left(&rt, &mut recovery);
    ranges_left(&rt, &mut recovery);
    limit_left(&rt, &mut recovery);
    probe_left(&rt, &mut recovery);
    drop(recovery);
}

fn timers_left(rt: &impl Abort, recovery: &mut Reno) {
    let rows = [
        (set(Timer::Idle, 50), DONE),
        (set(Timer::Pacing, 20), DONE),
        (stop(Timer::Pacing), DONE),
    ];
    play(rt, recovery, rows);
    let timers = recovery.timers();
    let is_left = timers.get(Timer::Idle) == Some(at(50)) && timers.get(Timer::Pacing) == None;
    holds(rt, is_left, 3);
}

/// Packets are tracked until they leave: then none is, and the space of one is discarded.
fn packets_left(rt: &impl Abort, recovery: &mut Reno) {
    let (initial, data) = (SpaceId::Initial, SpaceId::Data);
    let discard = Event::DiscardSpace { space: initial };
    let lost = Event::Lost {
        space: data,
        number: 1,
    };
    let rows = [
        (send(initial, 500, true), sent(0, None)),
        (send(data, 0, false), sent(0, None)),
        (discard, DONE),
        (send(data, 700, true), sent(1, None)),
        (lost, LOST),
        (acked(data, 0), ACKED),
    ];
    play(rt, recovery, rows);
    let here = kept(rt, recovery, data);
    let is_left = here.next_packet_number() == 2
        && here.sent_packets.last_eliciting() == Some(1)
        && here.largest_acked_packet == Some(0)
        && !here.sent_packets.has_size();
    holds(rt, is_left, 6);
    let (path, counters) = (recovery.current(), recovery.current().in_flight());
    let is_empty = counters.bytes == 0 && counters.ack_eliciting == 0 && path.generation() == 0;
    holds(rt, is_empty && recovery.space(initial).is_none(), 7);
}

/// A rejected request does not change the local delay. After the ACK delay timer expired, only a packet after the next
/// ACK starts it again.
fn acks_left(rt: &impl Abort, recovery: &mut Reno) {
    let space = SpaceId::Data;
    let one = VarInt::from_u32(1);
    let request = AckFrequency {
        sequence: one,
        ack_eliciting_threshold: one,
        request_max_ack_delay: VarInt::from_u32(999),
        reordering_threshold: one,
    };
    let rows = [
        (Event::AckFrequencyIn(request), Err(Refusal::DelayTooSmall)),
        (received(space, 0, true), new(true)),
        (Event::AckDelayTimeout { space }, DONE),
        (received(space, 1, true), new(false)),
        (Event::AcksSent { space }, DONE),
        (Event::AckDelayTimeout { space }, DONE),
        (received(space, 2, true), new(true)),
    ];
    play(rt, recovery, rows);
    let here = kept(rt, recovery, space);
    let is_left = !here.pending_acks.can_send()
        && here.pending_acks.can_send_with_other_frames()
        && here.rx_packet == 2;
    holds(rt, is_left, 7);
    let delay = recovery.ack_frequency().max_ack_delay;
    holds(rt, delay == Duration::from_millis(25), 8);
}

/// Of 0, 2, .. 128 all but the smallest are to be acknowledged: 64 ranges.
fn ranges_left(rt: &impl Abort, recovery: &mut Reno) {
    let space = SpaceId::Handshake;
    for half in 0..65u64 {
        let event = received(space, half.saturating_mul(2), false);
        told(rt, recovery, half, event, new(false));
    }
    let mut least = 2u64;
    for range in kept(rt, recovery, space).pending_acks.ranges().iter() {
        let end = least.saturating_add(1);
        holds(rt, range.start == least && range.end == end, least);
        least = end.saturating_add(1);
    }
    holds(rt, least == 130, least);
}

/// A limit is stored unless it is rejected.
fn limit_left(rt: &impl Abort, recovery: &mut Reno) {
    let rows = [
        (Event::PeerLimit { size: 600 }, DONE),
        (Event::PeerLimit { size: 1400 }, DONE),
        (Event::PeerLimit { size: 0 }, Err(Refusal::ZeroMtu)),
    ];
    play(rt, recovery, rows);
    let is_left = recovery.peer_limit() == Some(1400) && recovery.current().current_mtu() == 600;
    holds(rt, is_left, 3);
}

/// A probe is an ack-eliciting packet, and is in no total of the path.
fn probe_left(rt: &impl Abort, recovery: &mut Reno) {
    let probe = Ok(Answer::Probe {
        number: 2,
        size: 1000,
    });
    play(rt, recovery, [(Event::PollMtu { now: at(5) }, probe)]);
    let here = kept(rt, recovery, SpaceId::Data);
    let is_left = here.next_packet_number() == 3
        && here.sent_packets.last_eliciting() == Some(2)
        && here.time_of_last_ack_eliciting_packet == Some(at(5));
    holds(rt, is_left, 1);
    let path = recovery.current();
    let is_kept = path.total_sent == 0 && path.total_recvd == 0 && path.current_mtu() == 600;
    holds(rt, is_kept, 2);
}
