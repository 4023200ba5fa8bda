//! Times, timers, sets of numbers, wire items and settings. Rows are pairs: the value found, and the expected one.
use crate::rows::{holds, same};
use recovery_base::below::{ArrayRangeSet, TransportError, VarInt, VarIntBoundsExceeded};
use recovery_base::config::AckFrequencyConfig;
use recovery_base::time::{Duration, Instant};
use recovery_base::timer::{Timer, TimerTable};
use std::ops::Range;
use std::process::Abort;

mod dedup;

fn at(nanos: u64) -> Instant {
    Instant::from_nanos(nanos)
}

#[test]
fn sums_stop_at_the_ends_and_differences_at_zero(rt: HostRuntime) {
    let (end, three, one) = (at(u64::MAX), at(3), Duration::from_nanos(1));
    same(
        &rt,
        &[
            (three + Duration::from_micros(2), at(2003)),
            (end + one, end),
        ],
    );
    same(
        &rt,
        &[
            (end.checked_add(one), None),
            (three.checked_add(Duration::ZERO), Some(three)),
        ],
    );
    same(
        &rt,
        &[
            (Some(end - three), Some(Duration::from_nanos(u64::MAX - 3))),
            (
                Some(three.saturating_duration_since(end)),
                Some(Duration::ZERO),
            ),
            (three.checked_duration_since(end), None),
            (end.checked_duration_since(end), Some(Duration::default())),
        ],
    );
    holds(&rt, end.as_nanos() == u64::MAX, 0);
}

#[test]
fn spans_are_whole_nanoseconds(rt: HostRuntime) {
    let last = Duration::from_secs(u64::MAX) + Duration::from_nanos(999_999_999);
    same(
        &rt,
        &[
            (Duration::from_millis(333).as_nanos(), 333_000_000),
            (
                Duration::from_secs(600).as_nanos(),
                Duration::from_millis(600_000).as_nanos(),
            ),
        ],
    );
    same(
        &rt,
        &[
            (Some(last), Some(Duration::MAX)),
            (Duration::checked_from_nanos(last.as_nanos()), Some(last)),
            (Duration::checked_from_nanos(last.as_nanos() + 1), None),
            (last.checked_add(Duration::from_nanos(1)), None),
            (Some(last.saturating_add(last)), Some(last)),
            (Duration::ZERO.checked_sub(last), None),
            (Some(Duration::ZERO - last), Some(Duration::ZERO)),
            (Some(last.saturating_sub(last)), Some(Duration::ZERO)),
        ],
    );
}

#[test]
fn timers_are_set_and_stopped_one_by_one(rt: HostRuntime) {
    let unset = TimerTable::default();
    let mut timers = unset;
    timers.set(Timer::Idle, at(50));
    timers.set(Timer::Pacing, at(20));
    let mut stopped = timers;
    stopped.stop(Timer::Pacing);
    same(
        &rt,
        &[
            (unset.next_timeout(), None),
            (timers.next_timeout(), Some(at(20))),
            (timers.get(Timer::Idle), Some(at(50))),
            (stopped.next_timeout(), Some(at(50))),
        ],
    );
    same(
        &rt,
        &[
            (timers.is_expired(Timer::Pacing, at(20)), true),
            (timers.is_expired(Timer::Pacing, at(19)), false),
            (stopped.is_expired(Timer::Pacing, at(99)), false),
        ],
    );
}

#[test]
fn bounds_variable_length_integers(rt: HostRuntime) {
    let greatest = VarInt::MAX.into_inner();
    same(
        &rt,
        &[
            (VarInt::from_u64(greatest), Ok(VarInt::MAX)),
            (VarInt::from_u64(1 << 62), Err(VarIntBoundsExceeded)),
            (VarInt::try_from(1u128 << 64), Err(VarIntBoundsExceeded)),
            (Ok(VarInt::default()), Ok(VarInt::from_u32(0))),
        ],
    );
    same(
        &rt,
        &[
            (greatest, (1 << 62) - 1),
            (TransportError::PROTOCOL_VIOLATION("why").code, 10),
        ],
    );
}

#[test]
fn sets_each_field(rt: HostRuntime) {
    let first = AckFrequencyConfig::default();
    let mut config = first;
    config
        .ack_eliciting_threshold(VarInt::from_u32(3))
        .max_ack_delay(Some(Duration::from_millis(4)));
    config.reordering_threshold(VarInt::from_u32(5));
    same(
        &rt,
        &[
            (first.ack_eliciting_threshold, VarInt::from_u32(1)),
            (first.reordering_threshold, VarInt::from_u32(2)),
            (config.ack_eliciting_threshold, VarInt::from_u32(3)),
            (config.reordering_threshold, VarInt::from_u32(5)),
        ],
    );
    same(
        &rt,
        &[
            (first.max_ack_delay, None),
            (config.max_ack_delay, Some(Duration::from_millis(4))),
        ],
    );
}

/// Asserts that each number is new to the set, and inserts it.
fn insert(rt: &impl Abort, set: &mut ArrayRangeSet, numbers: &[u32]) {
    for number in numbers {
        let is_new = set.insert_one(u64::from(*number));
        holds(rt, is_new == Ok(true), u64::from(*number));
    }
}

/// Asserts the ranges.
fn ranges_are(rt: &impl Abort, set: &ArrayRangeSet, wanted: &[(u64, u64)]) {
    let mut row = 0u64;
    holds(rt, set.len() == wanted.len(), row);
    for (range, (start, end)) in set.iter().zip(wanted) {
        holds(rt, range.start == *start && range.end == *end, row);
        row = row.saturating_add(1);
    }
}

/// Asserts whether a number of the range is removed.
fn removes(rt: &impl Abort, set: &mut ArrayRangeSet, range: Range<u64>, some: bool) {
    holds(rt, set.remove(range) == Ok(some), 0);
}

fn pops(rt: &impl Abort, set: &mut ArrayRangeSet, start: u64, end: u64) {
    holds(rt, set.pop_min() == Some(start..end), start);
}

#[test]
fn removes_from_the_middle(rt: HostRuntime) {
    let mut set = ArrayRangeSet::new(rt.alloc());
    holds(&rt, set.is_empty(), 0);
    insert(&rt, &mut set, &[0, 1, 2, 3, 4, 5, 6, 7, 8, 9]);
    holds(&rt, set.insert_one(4) == Ok(false), 4);
    removes(&rt, &mut set, 3..5, true);
    removes(&rt, &mut set, 3..5, false);
    ranges_are(&rt, &set, &[(0, 3), (5, 10)]);
    pops(&rt, &mut set, 0, 3);
    pops(&rt, &mut set, 5, 10);
    holds(&rt, set.pop_min().is_none(), 10);
}

#[test]
fn joins_and_splits(rt: HostRuntime) {
    let mut set = ArrayRangeSet::new(rt.alloc());
    insert(&rt, &mut set, &[7, 3, 5, 4, 9, 2]);
    ranges_are(&rt, &set, &[(2, 6), (7, 8), (9, 10)]);
    removes(&rt, &mut set, 0..8, true);
    holds(&rt, set.len() == 1, 0);
}

#[test]
fn clones_are_equal_until_one_changes(rt: HostRuntime) {
    let mut set = ArrayRangeSet::new(rt.alloc());
    insert(&rt, &mut set, &[0, 1, 4]);
    let Ok(clone) = set.clone() else {
        panic!(rt; "NoMemory");
    };
    holds(&rt, clone == set, 0);
    removes(&rt, &mut set, 4..5, true);
    holds(&rt, clone != set, 1);
    ranges_are(&rt, &clone, &[(0, 2), (4, 5)]);
}
