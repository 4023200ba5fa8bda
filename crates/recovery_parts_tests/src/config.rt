//! Settings of a connection: the defaults, each setter once, and idle timeouts.
use crate::halving::HalvingConfig;
use crate::rows::{all_hold, holds};
use recovery_base::below::{VarInt, VarIntBoundsExceeded};
use recovery_base::config::AckFrequencyConfig;
use recovery_base::time::{Duration, Instant};
use recovery_config::config::{IdleTimeout, TransportConfig};
use recovery_config::laws::idle_timeouts_agree;
use recovery_congestion::congestion::{Controller, ControllerFactory, NewRenoConfig};
use std::hash::{DefaultHasher, Hash, Hasher};
use std::process::Abort;

fn settings() -> TransportConfig<NewRenoConfig> {
    TransportConfig::default()
}

/// The defaults of streams and of their limits, setting by setting.
#[test]
fn defaults_of_streams(rt: HostRuntime) {
    let config = settings();
    let are_right = [
        config.max_concurrent_bidi_streams.into_inner() == 100,
        config.max_concurrent_uni_streams.into_inner() == 100,
        config.max_idle_timeout == Some(VarInt::from_u32(30_000)),
        config.stream_receive_window.into_inner() == 1_250_000,
        config.receive_window == VarInt::MAX,
        config.send_window == 10_000_000,
        config.send_fairness,
        config.keep_alive_interval.is_none(),
        config.crypto_buffer_size == 16_384,
        config.allow_spin,
        config.datagram_receive_buffer_size == Some(1_250_000),
        config.datagram_send_buffer_size == 1_048_576,
    ];
    all_hold(&rt, &are_right);
}

/// The defaults of loss recovery and paths.
#[test]
fn defaults_of_loss_recovery(rt: HostRuntime) {
    let config = settings();
    let are_right = [
        config.packet_threshold == 3,
        config.get_time_threshold() == (9, 8),
        config.initial_rtt == Duration::from_millis(333),
        config.get_initial_mtu() == 1200,
        config.get_min_mtu() == 1200,
        config.mtu_discovery_config.is_some(),
        !config.pad_to_mtu,
        config.ack_frequency_config.is_none(),
        config.persistent_congestion_threshold == 3,
    ];
    all_hold(&rt, &are_right);
}

#[test]
fn default_congestion_controller_factory(rt: HostRuntime) {
    let factory = settings().congestion_controller_factory;
    let controller = factory.build(Instant::from_nanos(0), 1200);
    assert!(rt; controller.window() == 12_000);
}

#[test]
fn setters_of_streams_and_windows(rt: HostRuntime) {
    let mut config = settings();
    config
        .max_concurrent_bidi_streams(VarInt::from_u32(1))
        .max_concurrent_uni_streams(VarInt::from_u32(2))
        .stream_receive_window(VarInt::from_u32(3))
        .receive_window(VarInt::from_u32(4))
        .send_window(5)
        .send_fairness(false);
    let are_right = [
        config.max_concurrent_bidi_streams.into_inner() == 1,
        config.max_concurrent_uni_streams.into_inner() == 2,
        config.stream_receive_window.into_inner() == 3,
        config.receive_window.into_inner() == 4,
        config.send_window == 5,
        !config.send_fairness,
    ];
    all_hold(&rt, &are_right);
}

#[test]
fn setters_of_buffers_and_silence(rt: HostRuntime) {
    let mut config = settings();
    let second = Duration::from_secs(1);
    config
        .max_idle_timeout(None)
        .keep_alive_interval(Some(second))
        .crypto_buffer_size(1)
        .allow_spin(false)
        .datagram_receive_buffer_size(None)
        .datagram_send_buffer_size(0);
    let are_right = [
        config.max_idle_timeout.is_none(),
        config.keep_alive_interval == Some(second),
        config.crypto_buffer_size == 1,
        !config.allow_spin,
        config.datagram_receive_buffer_size.is_none(),
        config.datagram_send_buffer_size == 0,
    ];
    all_hold(&rt, &are_right);
    config.max_idle_timeout(Some(IdleTimeout::from(VarInt::from_u32(7))));
    assert!(rt; config.max_idle_timeout == Some(VarInt::from_u32(7)));
}

#[test]
fn setters_of_loss_recovery(rt: HostRuntime) {
    let mut config = settings();
    config
        .packet_threshold(4)
        .time_threshold(5, 4)
        .persistent_congestion_threshold(2)
        .mtu_discovery_config(None)
        .pad_to_mtu(true)
        .ack_frequency_config(Some(AckFrequencyConfig::default()));
    let are_right = [
        config.packet_threshold == 4,
        config.get_time_threshold() == (5, 4),
        config.persistent_congestion_threshold == 2,
        config.mtu_discovery_config.is_none(),
        config.pad_to_mtu,
        config.ack_frequency_config.is_some(),
    ];
    all_hold(&rt, &are_right);
}

/// Returns whether the initial RTT and both MTUs are these: the initial one of a path, and the minimum.
fn has<F>(config: &TransportConfig<F>, millis: u64, mtus: (u16, u16)) -> bool {
    config.initial_rtt == Duration::from_millis(millis)
        && (config.get_initial_mtu(), config.get_min_mtu()) == mtus
}

#[test]
fn setters_of_paths(rt: HostRuntime) {
    let mut config = TransportConfig::with_factory(HalvingConfig::new(1));
    holds(&rt, has(&config, 333, (1200, 1200)), 0);
    config.initial_mtu(1);
    holds(&rt, has(&config, 333, (1200, 1200)), 1);
    config.min_mtu(u16::MAX);
    holds(&rt, has(&config, 333, (u16::MAX, u16::MAX)), 2);
    config.min_mtu(1).initial_mtu(1500);
    holds(&rt, has(&config, 333, (1500, 1)), 3);
    config.initial_rtt(Duration::from_millis(1));
    holds(&rt, has(&config, 1, (1500, 1)), 4);
    config.congestion_controller_factory(HalvingConfig::new(7));
    let controller = config
        .congestion_controller_factory
        .build(Instant::from_nanos(0), 1500);
    holds(&rt, controller.window() == 7, 5);
    holds(&rt, has(&config, 1, (1500, 1)), 6);
}

#[test]
fn first_mtu_is_the_greater_of_two(rt: HostRuntime) {
    let mut config = settings();
    config.initial_mtu(1300).min_mtu(1400);
    assert!(rt; config.get_initial_mtu() == 1400);
}

/// Returns the idle timeout of a span of this many nanoseconds.
fn idle_of(nanos: u128) -> Result<IdleTimeout, VarIntBoundsExceeded> {
    match Duration::checked_from_nanos(nanos) {
        Some(span) => IdleTimeout::try_from(span),
        None => Err(VarIntBoundsExceeded),
    }
}

/// Asserts for each row how many milliseconds a span of nanoseconds gives, or that it is rejected.
fn idle_rows(rt: &impl Abort, rows: &[(u128, Option<VarInt>)]) {
    let mut row = 0u64;
    for (nanos, millis) in rows {
        let mut config = settings();
        config.max_idle_timeout(idle_of(*nanos).ok());
        assert!(rt; config.max_idle_timeout == *millis, "row {row}");
        row = row.saturating_add(1);
    }
}

#[test]
fn idle_timeouts_are_whole_milliseconds(rt: HostRuntime) {
    let end = 4_611_686_018_427_387_904u128 * 1_000_000;
    idle_rows(
        &rt,
        &[
            (0, Some(VarInt::default())),
            (999_999, Some(VarInt::default())),
            (1_000_000, Some(VarInt::from_u32(1))),
            (30_000_999_999, Some(VarInt::from_u32(30_000))),
            (end - 1_000_000, Some(VarInt::MAX)),
            (end - 1, Some(VarInt::MAX)),
            (end, None),
        ],
    );
    assert!(rt; IdleTimeout::try_from(Duration::MAX).is_err());
}

fn hash_of(timeout: &IdleTimeout) -> u64 {
    let mut state = DefaultHasher::new();
    timeout.hash(&mut state);
    state.finish()
}

#[test]
fn idle_timeouts_are_ordered_by_milliseconds(rt: HostRuntime) {
    idle_timeouts_agree();
    let none = IdleTimeout::default();
    let one = IdleTimeout::from(VarInt::from_u32(1));
    let are_right = [
        none < one,
        none == IdleTimeout::from(VarInt::from_u32(0)),
        none != one,
        hash_of(&none) == hash_of(&IdleTimeout::from(VarInt::default())),
    ];
    all_hold(&rt, &are_right);
}
