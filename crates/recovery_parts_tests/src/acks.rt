//! ACKs. Rows are events, and what is read after each.
ghost use Rattle.std.specs.Prelude.{◌≡◌, ◌<◌, ◌≤◌, None, unwrap_or};
ghost use Rattle.recovery_base.specs.Units.{number_limit};

use crate::rows::{finds, holds, same};
use recovery_acks::{AckFrequencyState, PendingAcks};
use recovery_base::below::{AckFrequency, NoMemory, TransportParameters, VarInt};
use recovery_base::config::AckFrequencyConfig;
use recovery_base::dedup::Dedup;
use recovery_base::time::{Duration, Instant};
use std::process::Abort;

/// Returns an ACK_FREQUENCY frame with thresholds 3 and 2.
fn frame(sequence: u32, micros: u32) -> AckFrequency {
    AckFrequency {
        sequence: VarInt::from_u32(sequence),
        ack_eliciting_threshold: VarInt::from_u32(3),
        request_max_ack_delay: VarInt::from_u32(micros),
        reordering_threshold: VarInt::from_u32(2),
    }
}

/// An event of the ACKs of a space.
#[derive(Clone, Copy)]
enum Call {
    /// An ack-eliciting packet is received.
    Eliciting,
    /// Another packet is received.
    Silent,
    /// The peer asks for thresholds 3 and 2.
    Asked,
    /// An ACK is sent.
    Sent,
    /// A packet is sent anyway.
    Lazy,
    /// The delay is over.
    Late,
    /// An ACK is to be sent at once.
    AtOnce,
}

/// Receives a packet with a new number, not below those before, at the time of its number.
fn receive(
    acks: &mut PendingAcks,
    dedup: &mut Dedup,
    number: u64,
    ack_eliciting: bool,
) -> Option<bool>
    requires small { number < number_limit }
    requires above { unwrap_or acks.old.counts.greatest 0 ≤ number }
    ensures { unwrap_or acks.new.counts.greatest 0 ≤ number }
{
    let now = Instant::from_nanos(number);
    if dedup.insert(number) {
        return Some(false);
    }
    acks.insert_one(number, now).ok()?;
    Some(acks.packet_received(now, number, ack_eliciting, dedup))
}

/// Applies an event; a received packet has this number. Returns whether it starts the timer.
fn apply(acks: &mut PendingAcks, dedup: &mut Dedup, call: Call, number: u64) -> Option<bool>
    requires small { number < number_limit }
    requires above { unwrap_or acks.old.counts.greatest 0 ≤ number }
    ensures { unwrap_or acks.new.counts.greatest 0 ≤ number }
{
    match call {
        Call::Eliciting => return receive(acks, dedup, number, true),
        Call::Silent => return receive(acks, dedup, number, false),
        Call::Asked => acks.set_ack_frequency_params(&frame(0, 1000)),
        Call::Sent => acks.acks_sent(),
        Call::Lazy => acks.maybe_ack_non_eliciting(),
        Call::Late => acks.on_max_ack_delay_timeout(),
        Call::AtOnce => acks.set_immediate_ack_required(),
    }
    Some(false)
}

/// An event and its packet's number; then whether the timer starts, whether an ACK may be sent, and when a delay of 1
/// us would end.
type Row = (Call, u64, bool, bool, Option<u64>);

/// Asserts that each row has the expected values. Numbers increase.
fn play(rt: &impl Abort, acks: &mut PendingAcks, rows: &[Row])
    requires { acks.old.counts.greatest ≡ None }
{
    let mut dedup = Dedup::new();
    let mut last = 0u64;
    let mut place = 0u64;
    for (call, number, arms, can_send, ends) in rows {
        assert!(rt; last <= *number && *number < 1 << 62, "row {place}: number");
        last = *number;
        let started = apply(acks, &mut dedup, *call, last);
        let timeout = acks.max_ack_delay_timeout(Duration::from_micros(1));
        let is_right = started == Some(*arms)
            && acks.can_send() == *can_send
            && timeout == ends.map(Instant::from_nanos);
        holds(rt, is_right, place);
        place = place.saturating_add(1);
    }
}

#[test]
fn acknowledges_many_silent_packets(rt: HostRuntime) {
    static ROWS: [Row; 15] = [
        (Call::Sent, 0, false, false, None),
        (Call::Silent, 0, false, false, None),
        (Call::Silent, 1, false, false, None),
        (Call::Silent, 2, false, false, None),
        (Call::Silent, 3, false, false, None),
        (Call::Silent, 4, false, false, None),
        (Call::Silent, 5, false, false, None),
        (Call::Silent, 6, false, false, None),
        (Call::Silent, 7, false, false, None),
        (Call::Silent, 8, false, false, None),
        (Call::Silent, 9, false, false, None),
        (Call::Silent, 10, false, false, None),
        (Call::Lazy, 10, false, true, None),
        (Call::Late, 10, false, false, None),
        (Call::AtOnce, 10, false, true, None),
    ];
    let mut acks = PendingAcks::new(rt.alloc());
    play(&rt, &mut acks, &ROWS);
    holds(&rt, acks.can_send_with_other_frames(), 15);
}

/// Three packets in order, an ACK, and then this one.
fn after_three(last: Row) -> [Row; 6] {
    [
        (Call::Asked, 0, false, false, None),
        (Call::Eliciting, 0, true, false, Some(1000)),
        (Call::Eliciting, 1, false, false, Some(1000)),
        (Call::Eliciting, 2, false, false, Some(1000)),
        (Call::Sent, 2, false, false, None),
        last,
    ]
}

#[test]
fn arms_the_timer_unless_out_of_order(rt: HostRuntime) {
    for last in [
        (Call::Eliciting, 5, false, true, None),
        (Call::Eliciting, 4, true, false, Some(1004)),
    ] {
        let mut acks = PendingAcks::new(rt.alloc());
        play(&rt, &mut acks, &after_three(last));
    }
}

/// Inserts the numbers 0, 2, .. 128.
fn insert_even(acks: &mut PendingAcks) -> Result<(), NoMemory> {
    for half in 0..65 {
        acks.insert_one(2 * half, Instant::from_nanos(0))?;
    }
    Ok(())
}

/// Asserts that 2, 4, .. 128 are to be acknowledged.
fn holds_64(rt: &impl Abort, acks: &PendingAcks) {
    let mut start = 2u64;
    for range in acks.ranges().iter() {
        let end = start.saturating_add(1);
        holds(rt, range.start == start && range.end == end, start);
        start = end.saturating_add(1);
    }
    holds(rt, start == 130, start);
}

#[test]
fn keeps_the_64_highest_ranges(rt: HostRuntime) {
    let mut acks = PendingAcks::new(rt.alloc());
    holds(&rt, insert_even(&mut acks).is_ok(), 0);
    holds_64(&rt, &acks);
    let is_put_in = acks.insert_one(0, Instant::from_nanos(0)).is_ok();
    holds(&rt, is_put_in, 1);
    holds_64(&rt, &acks);
    acks.subtract_below(4);
    holds(&rt, acks.ranges().len() == 62, 2);
}

#[test]
fn measures_the_delay_of_the_largest(rt: HostRuntime) {
    let start = Instant::from_nanos(1_000_000_000);
    let mut acks = PendingAcks::new(rt.alloc());
    let first = acks.ack_delay(Instant::from_nanos(9));
    for (number, millis) in [(0, 0), (3, 2), (2, 7)] {
        let now = start + Duration::from_millis(millis);
        holds(&rt, acks.insert_one(number, now).is_ok(), number);
    }
    let last = acks.ack_delay(start + Duration::from_millis(7));
    same(
        &rt,
        &[(first, Duration::ZERO), (last, Duration::from_millis(5))],
    );
}

#[test]
fn asks_for_a_delay(rt: HostRuntime) {
    let params = TransportParameters {
        min_ack_delay: Some(VarInt::from_u32(100_000)),
        max_ack_delay: VarInt::from_u32(25),
    };
    let config = AckFrequencyConfig::default();
    let rtt = Duration::from_millis(5);
    let mut state = AckFrequencyState::new(Duration::from_millis(100));
    let candidate = state.candidate_max_ack_delay(rtt, &config, &params);
    let at_first = state.should_send_ack_frequency(rtt, &config, &params);
    let number = state.next_sequence_number();
    let again = state.should_send_ack_frequency(rtt, &config, &params);
    state.ack_frequency_sent(7, Duration::from_millis(200));
    let on_its_way = state.max_ack_delay_for_pto();
    state.on_acked(6);
    let other_acked = state.peer_max_ack_delay;
    state.on_acked(7);
    same(
        &rt,
        &[
            (candidate, Duration::from_millis(100)),
            (on_its_way, Duration::from_millis(200)),
            (other_acked, Duration::from_millis(100)),
            (state.peer_max_ack_delay, Duration::from_millis(200)),
        ],
    );
    let is_first = number == Some(VarInt::from_u32(0));
    holds(&rt, at_first && !again && is_first, 4);
}

#[test]
fn takes_a_frame_once(rt: HostRuntime) {
    let mut acks = PendingAcks::new(rt.alloc());
    let mut state = AckFrequencyState::new(Duration::from_millis(25));
    for (sequence, micros, taken) in [
        (5, 999, None),
        (5, 999, Some(false)),
        (4, 5000, Some(false)),
        (6, 1000, Some(true)),
    ] {
        let answer = state.ack_frequency_received(&frame(sequence, micros), &mut acks);
        finds(&rt, u64::from(sequence), &answer.ok(), &taken);
    }
    holds(&rt, state.max_ack_delay == Duration::from_millis(1), 0);
}

#[test]
fn too_small_a_delay_closes_the_connection(rt: HostRuntime) {
    let mut acks = PendingAcks::new(rt.alloc());
    let mut state = AckFrequencyState::new(Duration::from_millis(25));
    let answer = state.ack_frequency_received(&frame(5, 999), &mut acks);
    let reason = "Requested Max Ack Delay in ACK_FREQUENCY frame is less than min_ack_delay";
    let is_closed = matches!(answer, Err(error) if error.code == 10 && error.reason == reason);
    holds(&rt, is_closed, 0);
}
