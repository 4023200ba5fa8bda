//! CUBIC. Rows are calls with their milliseconds, and the window after each, by the formulas of RFC 9438 with datagrams
//! of 1200 bytes: C is 480 bytes for each cubed second.
ghost use Rattle.std.specs.Prelude.{◌<◌};

use crate::rows::{finds, holds};
use recovery_base::time::{Duration, Instant};
use recovery_congestion::congestion::{Controller, ControllerFactory};
use recovery_congestion::rtt::RttEstimator;
use recovery_cubic::{Cubic, CubicConfig};
use std::process::Abort;

/// A call of a controller. Packets sent at the time of the call count; packets sent at 0 do not once there was a loss.
#[derive(Clone, Copy)]
enum Call {
    /// This many bytes were sent.
    Sent(u64, u64),
    /// An ACK left this many bytes in flight.
    EndAcks(u64, u64),
    /// This many bytes were acknowledged.
    Acked(u64, u64),
    /// The same, application-limited.
    AckedLimited(u64, u64),
    /// The same for packets sent at 0.
    AckedOld(u64, u64),
    /// Packets were lost.
    Lost(u64),
    /// The same for packets sent at 0.
    LostOld(u64),
    /// The same, and the congestion is persistent.
    LostForLong(u64),
    /// The MTU changed.
    Mtu(u16),
}

fn at(millis: u64) -> Instant {
    Instant::from_nanos(millis.saturating_mul(1_000_000))
}

/// Makes a call of a controller.
fn tell(cubic: &mut Cubic, call: Call) {
    let rtt = RttEstimator::new(Duration::from_millis(333));
    match call {
        Call::Sent(now, bytes) => cubic.on_sent(at(now), bytes, 7),
        Call::EndAcks(now, in_flight) => cubic.on_end_acks(at(now), in_flight, false, Some(7)),
        Call::Acked(now, bytes) => cubic.on_ack(at(now), at(now), bytes, false, &rtt),
        Call::AckedLimited(now, bytes) => cubic.on_ack(at(now), at(now), bytes, true, &rtt),
        Call::AckedOld(now, bytes) => cubic.on_ack(at(now), at(0), bytes, false, &rtt),
        Call::Lost(now) => cubic.on_congestion_event(at(now), at(now), false, 1200),
        Call::LostOld(now) => cubic.on_congestion_event(at(now), at(0), false, 1200),
        Call::LostForLong(now) => cubic.on_congestion_event(at(now), at(now), true, 1200),
        Call::Mtu(mtu) => cubic.on_mtu_update(mtu),
    }
}

/// Asserts the windows of a controller that is made at 0 with an MTU of 1200; rows count from 1.
fn play(rt: &impl Abort, initial: u64, rows: &[(Call, u64)])
    requires { 0 < initial }
{
    let mut config = CubicConfig::default();
    config.initial_window(initial);
    let mut cubic = config.build(at(0), 1200);
    let is_first = cubic.initial_window() == initial && cubic.window() == initial;
    holds(rt, is_first, 0);
    let mut row = 1u64;
    for (call, window) in rows {
        tell(&mut cubic, *call);
        finds(rt, row, &cubic.window(), window);
        row = row.saturating_add(1);
    }
    let is_cloned = match cubic.try_clone() {
        Ok(clone) => clone.metrics().congestion_window == cubic.window(),
        Err(_) => false,
    };
    holds(rt, is_cloned, row);
}

/// W_max is 100 datagrams, of which 30 are missing: K is the cube root of 75, which is 4.217163 seconds.
#[test]
fn cubic_goes_by_the_curve(rt: HostRuntime) {
    static ROWS: [(Call, u64); 13] = [
        (Call::Lost(1000), 84_000),
        (Call::LostOld(1001), 84_000),
        (Call::AckedOld(1002, 1200), 84_000),
        (Call::Acked(2000, 84_000), 104_017),
        (Call::Acked(3000, 84_000), 114_769),
        (Call::Acked(4000, 84_000), 119_135),
        (Call::Acked(5217, 84_000), 120_000),
        (Call::Acked(5218, 84_000), 120_000),
        (Call::Acked(6000, 1200), 120_230),
        (Call::Acked(8000, 1200), 120_830),
        (Call::Acked(8000, 240_000), 130_344),
        (Call::Acked(9000, 240_000), 145_983),
        (Call::Lost(9001), 102_188),
    ];
    play(&rt, 120_000, &ROWS);
}

#[test]
fn cubic_grows_by_half_of_the_bytes(rt: HostRuntime) {
    static ROWS: [(Call, u64); 4] = [
        (Call::Lost(1000), 84_000),
        (Call::Acked(4000, 1200), 84_600),
        (Call::Acked(4000, 1201), 85_200),
        (Call::Acked(60_000, 84_000), 127_200),
    ];
    play(&rt, 120_000, &ROWS);
}

#[test]
fn cubic_leaves_out_limited_time(rt: HostRuntime) {
    static ROWS: [(Call, u64); 5] = [
        (Call::Lost(1000), 84_000),
        (Call::Acked(2000, 84_000), 104_017),
        (Call::AckedLimited(100_000, 84_000), 104_017),
        (Call::Acked(100_001, 84_000), 104_032),
        (Call::Acked(101_000, 84_000), 114_769),
    ];
    play(&rt, 120_000, &ROWS);
}

/// Nothing is in flight from 2 to 101 seconds: of the 101 seconds from the loss to 102 seconds 2 count.
#[test]
fn cubic_leaves_out_idle_time(rt: HostRuntime) {
    static ROWS: [(Call, u64); 11] = [
        (Call::Lost(1000), 84_000),
        (Call::Acked(2000, 84_000), 104_017),
        (Call::EndAcks(2000, 0), 104_017),
        // No packet that counts in flight, and an ACK in the same idle period.
        (Call::Sent(50_000, 0), 104_017),
        (Call::EndAcks(51_000, 0), 104_017),
        (Call::Sent(101_000, 1200), 104_017),
        (Call::Acked(102_000, 84_000), 114_769),
        (Call::EndAcks(102_000, 1200), 114_769),
        (Call::Sent(103_000, 1200), 114_769),
        (Call::Acked(103_000, 84_000), 119_135),
        (Call::Acked(104_217, 84_000), 120_000),
    ];
    play(&rt, 120_000, &ROWS);
}

/// 9/17 of a datagram for a window of bytes, and a whole one once the window is back at 12,000.
#[test]
fn cubic_is_not_below_reno(rt: HostRuntime) {
    static ROWS: [(Call, u64); 8] = [
        (Call::Lost(1000), 8400),
        (Call::Acked(1010, 8400), 9036),
        (Call::Acked(1020, 9600), 9711),
        (Call::Acked(1030, 9600), 10_339),
        (Call::Acked(1040, 10_000), 10_953),
        (Call::Acked(1050, 10_000), 11_533),
        (Call::Acked(1060, 12_000), 12_194),
        (Call::Acked(1070, 12_000), 13_375),
    ];
    play(&rt, 12_000, &ROWS);
}

/// W_max is 17/20 of 104,017 after the second loss, and K 3.191456 seconds.
#[test]
fn cubic_converges(rt: HostRuntime) {
    static ROWS: [(Call, u64); 5] = [
        (Call::Lost(1000), 84_000),
        (Call::Acked(2000, 84_000), 104_017),
        (Call::Lost(2001), 72_811),
        (Call::Acked(3000, 84_000), 83_356),
        (Call::Acked(12_000, 84_000), 125_356),
    ];
    play(&rt, 120_000, &ROWS);
}

#[test]
fn cubic_starts_anew_behind_persistent_congestion(rt: HostRuntime) {
    static ROWS: [(Call, u64); 6] = [
        (Call::LostForLong(1000), 2400),
        (Call::Acked(1100, 2400), 4800),
        (Call::Acked(1200, 4800), 9600),
        (Call::Acked(1300, 80_000), 89_600),
        (Call::Acked(1400, 9000), 89_664),
        (Call::Acked(3300, 80_000), 93_440),
    ];
    play(&rt, 120_000, &ROWS);
}

/// A new MTU leaves a window of two datagrams or more (RFC 8899, 3).
#[test]
fn cubic_window_does_not_follow_the_mtu(rt: HostRuntime) {
    static ROWS: [(Call, u64); 5] = [
        (Call::Lost(1000), 8400),
        (Call::Mtu(4200), 8400),
        (Call::Mtu(4201), 8402),
        (Call::Mtu(1452), 8402),
        (Call::Mtu(1200), 8402),
    ];
    play(&rt, 12_000, &ROWS);
}

#[test]
fn cubic_window_is_two_mtus_at_least(rt: HostRuntime) {
    static ROWS: [(Call, u64); 7] = [
        (Call::Mtu(9000), 18_000),
        (Call::Lost(1000), 18_000),
        (Call::Mtu(1200), 18_000),
        (Call::Lost(1001), 12_600),
        (Call::Acked(1002, 0), 12_600),
        (Call::Mtu(65_535), 131_070),
        (Call::Mtu(0), 131_070),
    ];
    play(&rt, 12_000, &ROWS);
}

#[test]
fn cubic_stops_at_the_end(rt: HostRuntime) {
    static ROWS: [(Call, u64); 4] = [
        (Call::Acked(1000, u64::MAX), u64::MAX),
        (Call::Lost(1001), 12_912_720_851_596_686_130),
        (Call::Acked(18_000_000_000_000, u64::MAX), u64::MAX),
        (Call::Acked(18_000_000_000_001, u64::MAX), u64::MAX),
    ];
    play(&rt, u64::MAX - 1, &ROWS);
}
