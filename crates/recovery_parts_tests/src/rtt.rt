//! The RTT. Rows are samples, and what is read after each.
use crate::rows::holds;
use recovery_base::time::Duration;
use recovery_congestion::rtt::RttEstimator;
use std::process::Abort;

/// A delay and a sample, and then the estimate, the conservative one, the minimum, and the probe timeout; all in
/// nanoseconds.
type Row = (u128, u128, [u128; 4]);

/// The longest span.
const END: u128 = 18_446_744_073_709_551_615_999_999_999;

fn span(nanos: u128) -> Duration {
    Duration::checked_from_nanos(nanos).unwrap_or(Duration::MAX)
}

fn seen(rtt: &RttEstimator) -> [u128; 4] {
    [rtt.get(), rtt.conservative(), rtt.min(), rtt.pto_base()].map(|span| span.as_nanos())
}

/// Asserts the expected values before the first sample and after each row; rows count from 1.
fn play(rt: &impl Abort, initial: u128, first: [u128; 4], rows: &[Row]) {
    let mut rtt = RttEstimator::new(span(initial));
    holds(rt, seen(&rtt) == first, 0);
    let mut row = 1u64;
    for (delay, sample, wanted) in rows {
        rtt.update(span(*delay), span(*sample));
        holds(rt, seen(&rtt) == *wanted, row);
        row = row.saturating_add(1);
    }
}

#[test]
fn moves_by_an_eighth(rt: HostRuntime) {
    static ROWS: [Row; 3] = [
        (
            0,
            100_000_000,
            [100_000_000, 100_000_000, 100_000_000, 300_000_000],
        ),
        (
            10_000_000,
            140_000_000,
            [103_750_000, 140_000_000, 100_000_000, 283_750_000],
        ),
        (
            50_000_000,
            120_000_000,
            [105_781_250, 120_000_000, 100_000_000, 257_031_250],
        ),
    ];
    play(
        &rt,
        333_000_000,
        [333_000_000, 333_000_000, 333_000_000, 999_000_000],
        &ROWS,
    );
}

/// The last sample and the mean deviation, as RFC 9002, 5.3 computes them.
#[test]
fn sample_and_variance_are_told(rt: HostRuntime) {
    let told = |rtt: &RttEstimator| [rtt.latest().as_nanos(), rtt.variance().as_nanos()];
    let mut rtt = RttEstimator::new(span(333_000_000));
    holds(&rt, told(&rtt) == [333_000_000, 166_500_000], 0);
    rtt.update(span(0), span(100_000_000));
    holds(&rt, told(&rtt) == [100_000_000, 50_000_000], 1);
    rtt.update(span(10_000_000), span(140_000_000));
    holds(&rt, told(&rtt) == [140_000_000, 45_000_000], 2);
    rtt.update(span(50_000_000), span(120_000_000));
    holds(&rt, told(&rtt) == [120_000_000, 37_812_500], 3);
}

#[test]
fn first_sample_replaces_a_lesser_initial_rtt(rt: HostRuntime) {
    static ROWS: [Row; 2] = [
        (
            9_000_000,
            400_000_000,
            [400_000_000, 400_000_000, 400_000_000, 1_200_000_000],
        ),
        // 440 - 50 ms would be below the minimum: the whole sample counts.
        (
            50_000_000,
            440_000_000,
            [405_000_000, 440_000_000, 400_000_000, 1_045_000_000],
        ),
    ];
    play(
        &rt,
        333_000_000,
        [333_000_000, 333_000_000, 333_000_000, 999_000_000],
        &ROWS,
    );
}

#[test]
fn deviation_is_a_millisecond_at_least(rt: HostRuntime) {
    static ROWS: [Row; 4] = [
        (0, 0, [0, 0, 0, 1_000_000]),
        (END, 0, [0, 0, 0, 1_000_000]),
        (5, 5, [0, 5, 0, 1_000_000]),
        (4, 12, [1, 12, 0, 1_000_001]),
    ];
    play(&rt, 0, [0, 0, 0, 1_000_000], &ROWS);
}

#[test]
fn stops_at_the_longest_span(rt: HostRuntime) {
    static ROWS: [Row; 3] = [
        (END, END, [END, END, END, END]),
        (END, END, [END, END, END, END]),
        (
            END,
            0,
            [
                16_140_901_064_495_857_663_999_999_999,
                16_140_901_064_495_857_663_999_999_999,
                0,
                END,
            ],
        ),
    ];
    play(&rt, END, [END, END, END, END], &ROWS);
}
