//! Congestion controllers of any kind. Rows are calls, and the window after each.
ghost use Rattle.std.specs.Prelude.{◌<◌};

use crate::halving::HalvingConfig;
use crate::rows::{finds, holds};
use recovery_base::below::NoMemory;
use recovery_base::time::{Duration, Instant};
use recovery_congestion::congestion::{
    Controller, ControllerFactory, ControllerMetrics, NewRenoConfig,
};
use recovery_congestion::rtt::RttEstimator;
use std::process::Abort;

/// A call of a controller.
#[derive(Clone, Copy)]
enum Call {
    /// 1200 bytes were sent.
    Sent,
    /// This many bytes were acknowledged, sent at this time.
    Acked(u64, u64),
    /// The same, application-limited.
    AckedLimited(u64, u64),
    /// All packets of an ACK were reported.
    EndAcks,
    /// Packets sent at the second time were lost at the first.
    Lost(u64, u64),
    /// The same, and the congestion is persistent.
    LostForLong(u64, u64),
    /// The MTU changed.
    Mtu(u16),
}

fn at(nanos: u64) -> Instant {
    Instant::from_nanos(nanos)
}

/// Makes a call of a controller.
fn tell<C: Controller>(controller: &mut C, call: Call) {
    let rtt = RttEstimator::new(Duration::from_millis(333));
    match call {
        Call::Sent => controller.on_sent(at(1), 1200, 7),
        Call::Acked(bytes, sent) => controller.on_ack(at(9), at(sent), bytes, false, &rtt),
        Call::AckedLimited(bytes, sent) => controller.on_ack(at(9), at(sent), bytes, true, &rtt),
        Call::EndAcks => controller.on_end_acks(at(9), 0, false, Some(7)),
        Call::Lost(now, sent) => controller.on_congestion_event(at(now), at(sent), false, 1200),
        Call::LostForLong(now, sent) => {
            controller.on_congestion_event(at(now), at(sent), true, 1200)
        }
        Call::Mtu(mtu) => controller.on_mtu_update(mtu),
    }
}

/// Returns whether a clone has the window of its original.
fn is_cloned<C: Controller + Drop>(controller: &C) -> bool {
    match controller.try_clone() {
        Ok(clone) => {
            clone.window() == controller.window()
                && clone.metrics().congestion_window == controller.window()
        }
        Err(NoMemory) => false,
    }
}

/// Asserts that the window of a controller that is made at 0 with an MTU of 1200 is the initial one, and after each row
/// as expected; rows count from 1. At the end that of a clone is the same.
fn play<F: ControllerFactory>(rt: &impl Abort, factory: F, initial: u64, rows: &[(Call, u64)])
where
    F: Drop,
{
    let mut controller = factory.build(at(0), 1200);
    let is_first = controller.initial_window() == initial && controller.window() == initial;
    holds(rt, is_first, 0);
    let mut row = 1u64;
    for (call, window) in rows {
        tell(&mut controller, *call);
        finds(rt, row, &controller.window(), window);
        row = row.saturating_add(1);
    }
    holds(rt, is_cloned(&controller), row);
}

/// Returns the window after a loss, which no controller reduces to zero.
fn lose<C: Controller>(controller: &mut C) -> u64
    requires { C.is_sound (C.content controller.old) }
    ensures above { 0 < result }
    ensures sound { C.is_sound (C.content controller.new) }
{
    controller.on_congestion_event(at(1), at(1), true, u64::MAX);
    controller.window()
}

/// Returns the window of a fresh controller after two losses.
fn lose_twice<F: ControllerFactory>(factory: &F) -> u64
where
    ensures { 0 < result }
{
    let mut controller = factory.build(at(0), 1);
    lose(&mut controller);
    lose(&mut controller)
}

/// Returns a NewReno with this initial window and loss reduction factor.
fn reno(initial: u64, numerator: u64, denominator: u64) -> NewRenoConfig
    requires window { 0 < initial }
    requires fraction { 0 < denominator }
{
    let mut config = NewRenoConfig::default();
    config.initial_window(initial);
    config.loss_reduction_factor(numerator, denominator);
    config
}

#[test]
fn reno_halves_once_in_a_recovery(rt: HostRuntime) {
    static ROWS: [(Call, u64); 13] = [
        (Call::Sent, 12000),
        (Call::Acked(1200, 0), 12000),
        (Call::AckedLimited(1200, 1), 12000),
        (Call::Acked(1200, 1), 13200),
        (Call::EndAcks, 13200),
        (Call::Lost(2, 1), 6600),
        (Call::Lost(3, 2), 6600),
        (Call::Acked(1200, 3), 6600),
        (Call::Acked(1200, 3), 6600),
        (Call::Acked(1200, 3), 6600),
        (Call::Acked(1200, 3), 6600),
        (Call::Acked(1200, 3), 6600),
        (Call::Acked(1200, 3), 7800),
    ];
    play(&rt, NewRenoConfig::default(), 12000, &ROWS);
}

#[test]
fn reno_recovery_may_begin_earlier(rt: HostRuntime) {
    static ROWS: [(Call, u64); 4] = [
        (Call::Lost(5, 1), 6000),
        (Call::Lost(0, 5), 6000),
        (Call::Lost(0, 6), 3000),
        (Call::Lost(9, 1), 2400),
    ];
    play(&rt, NewRenoConfig::default(), 12000, &ROWS);
}

#[test]
fn reno_takes_one_window_off_the_count(rt: HostRuntime) {
    static ROWS: [(Call, u64); 7] = [
        (Call::Lost(2, 1), 6000),
        (Call::Acked(20000, 3), 7200),
        (Call::Acked(0, 2), 7200),
        (Call::Acked(0, 3), 8400),
        (Call::Acked(0, 3), 8400),
        // 6800 bytes still count.
        (Call::Lost(4, 3), 4200),
        (Call::Acked(0, 5), 5400),
    ];
    play(&rt, NewRenoConfig::default(), 12000, &ROWS);
}

#[test]
fn reno_counts_what_passes_the_threshold(rt: HostRuntime) {
    static ROWS: [(Call, u64); 4] = [
        (Call::LostForLong(2, 1), 2400),
        (Call::Acked(4000, 3), 6400),
        (Call::Acked(5999, 3), 6400),
        (Call::Acked(1, 3), 7600),
    ];
    play(&rt, NewRenoConfig::default(), 12000, &ROWS);
}

#[test]
fn reno_window_is_two_mtus_at_least(rt: HostRuntime) {
    static ROWS: [(Call, u64); 4] = [
        (Call::Mtu(1500), 3000),
        (Call::Mtu(1200), 3000),
        (Call::Lost(2, 1), 2400),
        (Call::Mtu(65535), 131070),
    ];
    play(&rt, reno(1, 0, 1), 1, &ROWS);
}

#[test]
fn reno_reduces_exactly(rt: HostRuntime) {
    static FIRST: [(Call, u64); 1] = [(Call::Lost(2, 1), 8_388_609)];
    static SECOND: [(Call, u64); 1] = [(Call::Lost(2, 1), u64::MAX - 1)];
    play(&rt, reno(16_777_219, 1, 2), 16_777_219, &FIRST);
    play(
        &rt,
        reno(u64::MAX, u64::MAX - 1, u64::MAX),
        u64::MAX,
        &SECOND,
    );
}

#[test]
fn reno_stops_at_the_end(rt: HostRuntime) {
    static ROWS: [(Call, u64); 5] = [
        (Call::Acked(u64::MAX, 1), u64::MAX),
        (Call::Acked(u64::MAX, 1), u64::MAX),
        (Call::LostForLong(2, 1), 2400),
        (Call::Lost(3, 3), u64::MAX),
        (Call::Acked(u64::MAX, 4), u64::MAX),
    ];
    play(&rt, reno(u64::MAX - 1, u64::MAX, 1), u64::MAX - 1, &ROWS);
}

#[test]
fn reno_shows_its_threshold(rt: HostRuntime) {
    let mut controller = NewRenoConfig::default().build(at(0), 1200);
    let first = controller.metrics().ssthresh;
    controller.on_congestion_event(at(2), at(1), true, 0);
    let metrics = controller.metrics();
    let is_lost = metrics.congestion_window == 2400
        && metrics.ssthresh == Some(6000)
        && metrics.pacing_rate.is_none();
    holds(&rt, first == Some(u64::MAX), 0);
    holds(&rt, is_lost, 1);
    holds(&rt, ControllerMetrics::default().congestion_window == 0, 2);
}

#[test]
fn halving_halves(rt: HostRuntime) {
    static ROWS: [(Call, u64); 9] = [
        (Call::Sent, 12000),
        (Call::Acked(1200, 1), 12000),
        (Call::EndAcks, 12000),
        (Call::Lost(2, 0), 6000),
        (Call::Lost(0, 0), 3000),
        (Call::LostForLong(0, 0), 2400),
        (Call::Lost(0, 0), 2400),
        (Call::Mtu(9000), 2400),
        (Call::Lost(0, 0), 18000),
    ];
    play(&rt, HalvingConfig::new(12000), 12000, &ROWS);
}

#[test]
fn no_window_falls_to_zero(rt: HostRuntime) {
    holds(&rt, lose_twice(&reno(1, 0, 1)) == 2, 0);
    holds(&rt, lose_twice(&HalvingConfig::new(1)) == 2, 1);
}
