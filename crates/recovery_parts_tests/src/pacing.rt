//! The pacer. Rows are the state of a path, a call at a time, and the reported time, if there is one.
use crate::rows::{finds, holds};
use recovery_base::time::{Duration, Instant};
use recovery_congestion::pacing::Pacer;
use std::process::Abort;

/// RTT in nanoseconds, congestion window and MTU.
type Path = (u128, u64, u16);

/// No RTT was measured yet.
const FRESH: Path = (333_000_000, 12_000, 1200);

const LONGEST_RTT: u128 = 18_446_744_073_709_551_615_999_999_999;

/// What happens.
#[derive(Clone, Copy)]
enum Call {
    /// May this many bytes be sent?
    Asks(u64),
    /// Packets of this count and size are to be sent, and are sent if they are not delayed.
    Packets(u16, u16),
}

/// A path, a time, a call, and the reported time.
type Row = (Path, u64, Call, Option<u64>);

fn made(rt: &impl Abort, path: &Path, now: u64) -> Pacer {
    let (rtt, window, mtu) = *path;
    assert!(rt; window > 0 && mtu > 0);
    let rtt = Duration::checked_from_nanos(rtt).unwrap_or(Duration::MAX);
    Pacer::new(rtt, window, mtu, Instant::from_nanos(now))
}

fn ask(rt: &impl Abort, pacer: &mut Pacer, path: &Path, now: u64, bytes: u64) -> Option<Instant> {
    let (rtt, window, mtu) = *path;
    assert!(rt; window > 0 && mtu > 0);
    let rtt = Duration::checked_from_nanos(rtt).unwrap_or(Duration::MAX);
    pacer.delay(rtt, bytes, mtu, window, Instant::from_nanos(now))
}

/// Returns the time reported to the first packet that is delayed.
fn send(
    rt: &impl Abort,
    pacer: &mut Pacer,
    path: &Path,
    now: u64,
    count: u16,
    bytes: u16,
) -> Option<Instant> {
    for _ in 0..count {
        let until = ask(rt, pacer, path, now, u64::from(bytes));
        if until.is_some() {
            return until;
        }
        pacer.on_transmit(bytes);
    }
    None
}

fn apply(rt: &impl Abort, pacer: &mut Pacer, path: &Path, now: u64, call: Call) -> Option<Instant> {
    match call {
        Call::Asks(bytes) => ask(rt, pacer, path, now, bytes),
        Call::Packets(count, bytes) => send(rt, pacer, path, now, count, bytes),
    }
}

/// Asserts that a pacer made for a path at a time reports in each row the expected time.
fn play(rt: &impl Abort, path: &Path, start: u64, rows: &[Row]) {
    let mut pacer = made(rt, path, start);
    let mut place = 0u64;
    for (path, now, call, wanted) in rows {
        let found = apply(rt, &mut pacer, path, *now, *call);
        finds(rt, place, &found, &wanted.map(Instant::from_nanos));
        place = place.saturating_add(1);
    }
}

/// Ten packets of the MTU at this rate, minus what was sent.
#[test]
fn the_bucket_is_told(rt: HostRuntime) {
    let mut pacer = made(&rt, &FRESH, 0);
    let is_full = pacer.capacity() == 12_000 && pacer.tokens() == 12_000;
    holds(&rt, is_full, 0);
    pacer.on_transmit(1_500);
    let is_less = pacer.capacity() == 12_000 && pacer.tokens() == 10_500;
    holds(&rt, is_less, 1);
    pacer.on_transmit(u16::MAX);
    holds(&rt, pacer.tokens() == 0, 2);
}

#[test]
fn a_burst_passes_and_time_brings_more(rt: HostRuntime) {
    static ROWS: [Row; 6] = [
        (PATH, 7, Call::Packets(80, 1000), None),
        (PATH, 7, Call::Asks(0), None),
        (PATH, 7, Call::Asks(1000), Some(1_600_007)),
        (PATH, 800_007, Call::Asks(1000), None),
        (PATH, 800_007, Call::Packets(40, 1000), None),
        (PATH, 7, Call::Asks(1000), Some(2_400_007)),
    ];
    const PATH: Path = (50_000_000, 2_000_000, 1000);
    play(&rt, &PATH, 7, &ROWS);
}

#[test]
fn a_clock_that_steps_back_brings_nothing(rt: HostRuntime) {
    static ROWS: [Row; 5] = [
        (FRESH, 0, Call::Asks(12_001), Some(22_200)),
        (FRESH, 333_000_000, Call::Asks(12_001), Some(333_022_200)),
        (FRESH, 0, Call::Asks(12_001), Some(333_022_200)),
        (FRESH, u64::MAX, Call::Asks(12_001), Some(u64::MAX)),
        (FRESH, 0, Call::Asks(12_001), Some(u64::MAX)),
    ];
    play(&rt, &FRESH, 0, &ROWS);
}

#[test]
fn the_bound_is_met_with_equality(rt: HostRuntime) {
    static ROWS: [Row; 4] = [
        (FRESH, 0, Call::Packets(10, 1200), None),
        (FRESH, 0, Call::Asks(1200), Some(266_400_000)),
        (FRESH, 266_400_000, Call::Packets(10, 1200), None),
        (FRESH, 266_400_000, Call::Asks(1200), Some(532_800_000)),
    ];
    play(&rt, &FRESH, 0, &ROWS);
}

#[test]
fn a_change_of_the_path_fills_nothing(rt: HostRuntime) {
    static ROWS: [Row; 3] = [
        (SMALL, 0, Call::Asks(6000), None),
        (SMALL, 0, Call::Asks(6001), Some(22_200)),
        (FRESH, 0, Call::Asks(12_000), Some(133_200_000)),
    ];
    const SMALL: Path = (333_000_000, 12_000, 600);
    play(&rt, &FRESH, 0, &ROWS);
}

#[test]
fn an_rtt_alone_changes_no_capacity(rt: HostRuntime) {
    static ROWS: [Row; 2] = [
        ((1_000_000, 12_000, 1200), 0, Call::Asks(12_001), Some(64)),
        ((1_000_000, 6000, 1200), 0, Call::Asks(12_001), Some(132)),
    ];
    play(&rt, &FRESH, 0, &ROWS);
}

/// The path for which a pacer is made, the path when this many bytes are asked for at 0, and the reported time.
type Single = (Path, Path, u64, Option<u64>);

fn play_each(rt: &impl Abort, rows: &[Single]) {
    let mut place = 0u64;
    for (first, path, bytes, wanted) in rows {
        let mut pacer = made(rt, first, 0);
        let found = ask(rt, &mut pacer, path, 0, *bytes);
        finds(rt, place, &found, &wanted.map(Instant::from_nanos));
        place = place.saturating_add(1);
    }
}

#[test]
fn windows_past_32_bits_are_not_paced(rt: HostRuntime) {
    static ROWS: [Single; 7] = [
        ((SECOND, WIDE, 1000), (SECOND, WIDE, 1000), 300_000, None),
        (
            (SECOND, PACED, 1000),
            (SECOND, PACED, 1000),
            300_000,
            Some(8192),
        ),
        (FRESH, (333_000_000, WIDE, 1200), 307_201, None),
        (
            (333_000_000, PACED, 1200),
            (333_000_000, PACED, 1200),
            307_200,
            None,
        ),
        (
            (333_000_000, PACED, 1200),
            (333_000_000, PACED, 1200),
            307_201,
            Some(0),
        ),
        ((1, 1 << 63, 1000), (1, PACED, 1000), 256_000, None),
        ((1, 1 << 63, 1000), (1, PACED, 1000), 256_001, Some(0)),
    ];
    const SECOND: u128 = 1_000_000_000;
    const PACED: u64 = 4_294_967_295;
    const WIDE: u64 = 4_294_967_296;
    play_each(&rt, &ROWS);
}

#[test]
fn takes_every_argument(rt: HostRuntime) {
    static ROWS: [Single; 6] = [
        (SECOND, SECOND, 4_294_977_296, Some(286_331_153_066_664)),
        (SECOND, SECOND, u64::MAX, Some(u64::MAX)),
        (FRESH, (0, 12_000, 1200), 12_001, None),
        (FRESH, (LONGEST_RTT, 12_000, 1200), 12_001, Some(u64::MAX)),
        (FRESH, (333_000_000, 14_526, 1326), 13_261, Some(23_126_144)),
        (GREATEST, GREATEST, u64::MAX, None),
    ];
    const SECOND: Path = (1_000_000_000, 12_000, 1000);
    const GREATEST: Path = (LONGEST_RTT, u64::MAX, u16::MAX);
    play_each(&rt, &ROWS);
}
