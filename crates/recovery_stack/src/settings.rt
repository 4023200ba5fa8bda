//! The settings of a recovery.
ghost use Rattle.std.specs.Prelude.{◌≡◌, ◌<◌, None, Some};
ghost use Rattle.recovery_packet_numbers.specs.Skips.{IsSkips, first_skip_limit};
ghost use Rattle.recovery_stack.specs.Codes.{maybe};
ghost use Rattle.recovery_stack.specs.Settings.{config_of, controller_of, default_settings, discovery_of, settings_fault, transport_of, skips_of, AreSettingsSound};

use crate::codes::maybe;
use recovery_base::below::ConnectionId;
use recovery_base::time::Duration;
use recovery_config::config::TransportConfig;
use recovery_congestion::congestion::NewRenoConfig;
use recovery_cubic::CubicConfig;
use recovery_engine::controllers::{ChosenConfig, FixedConfig};
use recovery_engine::numbers::{
    CONTROLLER_CUBIC, CONTROLLER_FIXED, CONTROLLER_NEW_RENO, NEW_MADE, NEW_SKIP_TOO_LARGE,
    NEW_TOO_MANY_ISSUED, NEW_UNKNOWN_CONTROLLER, NEW_UNKNOWN_SKIPS, NEW_ZERO_DENOMINATOR,
    NEW_ZERO_MTU, NEW_ZERO_WINDOW, SKIPS_DISABLED, SKIPS_DRAWN, SKIPS_STARTING,
};
use recovery_history::RecoveryConfig;
use recovery_mtud::config::MtuDiscoveryConfig;
use recovery_packet_numbers::Skips;
use std::net::SocketAddr;

/// The settings of a recovery: times are in nanoseconds, and sizes in bytes.
#[repr(C)]
#[derive(Clone, Copy)]
pub struct Settings {
    /// The local max_ack_delay (RFC 9000, 18.2).
    pub max_ack_delay: u64,
    /// The lifetime of local connection IDs, if they expire.
    pub cid_lifetime: u64,
    /// How many connection IDs the local endpoint has issued, at most 2^62; memory grows with it, by 16 bytes per ID.
    pub issued: u64,
    /// The seed with which skips are drawn.
    pub seed: u64,
    /// The first number that is skipped, below 64, if it is given.
    pub first_skip: u64,
    /// The RTT before the first sample (RFC 9002, 6.2.2).
    pub initial_rtt: u64,
    /// The time from the end of an MTU search to the next one.
    pub mtu_interval: u64,
    /// The time from the report of a black hole to the next MTU search.
    pub black_hole_cooldown: u64,
    /// The initial congestion window, above zero (RFC 9002, 7.2).
    pub initial_window: u64,
    /// The numerator of the factor by which a loss reduces the window (RFC 9002, 7.3.2).
    pub loss_numerator: u64,
    /// Its denominator, above zero.
    pub loss_denominator: u64,
    /// The numerator of the time threshold, in RTTs: a sender declares a packet lost this long after it was sent, if a
    /// later one is acknowledged. A smaller fraction than 1 counts as 1 (RFC 9002, 6.1.2).
    pub time_numerator: u64,
    /// Its denominator, above zero.
    pub time_denominator: u64,
    /// The packet threshold: a sender declares a packet lost that was sent this many packets before an acknowledged
    /// one; 0 counts as 1 (RFC 9002, 6.1.1).
    pub packet_threshold: u32,
    /// How many probe timeouts persistent congestion lasts, for a sender; 0 counts as 1 (RFC 9002, 7.6.1).
    pub persistent_congestion_threshold: u32,
    /// The size of datagrams before the search, above zero.
    pub initial_mtu: u16,
    /// The datagram size that the path is known to carry, above zero.
    pub min_mtu: u16,
    /// The largest datagram size that is probed.
    pub mtu_upper_bound: u16,
    /// The smallest difference that is worth a probe.
    pub mtu_minimum_change: u16,
    /// The length of local connection IDs.
    pub cid_len: u8,
    /// Which congestion controller paths have: `CONTROLLER_NEW_RENO`, `CONTROLLER_FIXED` or
    /// `CONTROLLER_CUBIC`.
    pub controller: u8,
    /// How numbers are skipped: `SKIPS_DISABLED`, `SKIPS_DRAWN` or `SKIPS_STARTING`.
    pub skips: u8,
    /// Whether local connection IDs expire after `cid_lifetime`.
    pub ids_end: bool,
    /// Whether the peer's address is validated.
    pub validated: bool,
    /// Whether MTU discovery is allowed.
    pub allow_mtud: bool,
    /// Whether an MTU search is configured; if not, there is none.
    pub searches: bool,
}

impl Default for Settings {
    /// Returns the defaults of RFC 9000, 14 and 18.2, and RFC 9002, 6.1, 6.2.2, 7.2 and 7.6.1, with NewReno;
    /// `recovery_ffi_default_settings` lists them.
    fn default() -> Settings
        ensures defaults { result ≡ default_settings }
        ensures sound { settings_fault result ≡ NEW_MADE }
    {
        Settings {
            max_ack_delay: 25_000_000,
            cid_lifetime: 10_000_000_000,
            issued: 1,
            seed: 0,
            first_skip: 0,
            initial_rtt: 333_000_000,
            mtu_interval: 600_000_000_000,
            black_hole_cooldown: 60_000_000_000,
            initial_window: 12_000,
            loss_numerator: 1,
            loss_denominator: 2,
            time_numerator: 9,
            time_denominator: 8,
            packet_threshold: 3,
            persistent_congestion_threshold: 3,
            initial_mtu: 1200,
            min_mtu: 1200,
            mtu_upper_bound: 1452,
            mtu_minimum_change: 20,
            cid_len: 8,
            controller: CONTROLLER_NEW_RENO,
            skips: SKIPS_DISABLED,
            ids_end: true,
            validated: false,
            allow_mtud: true,
            searches: true,
        }
    }
}

/// Returns the number of the first error in settings; `NEW_MADE` if there is none.
pub fn fault(settings: &Settings) -> u8
    ensures fault { result ≡ settings_fault settings.now }
    ensures sound { result ≡ NEW_MADE → AreSettingsSound settings.now }
{
    if settings.issued > 1 << 62 {
        NEW_TOO_MANY_ISSUED
    } else if settings.first_skip >= 64 {
        NEW_SKIP_TOO_LARGE
    } else if settings.initial_mtu == 0 || settings.min_mtu == 0 {
        NEW_ZERO_MTU
    } else if settings.initial_window == 0 {
        NEW_ZERO_WINDOW
    } else if settings.loss_denominator == 0 || settings.time_denominator == 0 {
        NEW_ZERO_DENOMINATOR
    } else if settings.controller > CONTROLLER_CUBIC {
        NEW_UNKNOWN_CONTROLLER
    } else if settings.skips > SKIPS_STARTING {
        NEW_UNKNOWN_SKIPS
    } else {
        NEW_MADE
    }
}

/// Returns the configuration of a recovery with these settings, whose peer is at this address and has this connection
/// ID. Never fails.
pub fn config(
    settings: &Settings,
    initial_cid: ConnectionId,
    remote: SocketAddr,
) -> RecoveryConfig<ChosenConfig>
    requires { AreSettingsSound settings.now }
    ensures config { result ≡ config_of settings.now initial_cid remote }
    ensures skips { IsSkips result.skips }
{
    let mut config = RecoveryConfig::new(transport(settings), remote, initial_cid);
    config.validated(settings.validated);
    config.allow_mtud(settings.allow_mtud);
    config.max_ack_delay(Duration::from_nanos(settings.max_ack_delay));
    config.cid_len(usize::from(settings.cid_len));
    config.cid_lifetime(lifetime(settings.ids_end, settings.cid_lifetime));
    config.issued(settings.issued);
    config.skips(skips(settings.skips, settings.first_skip));
    config
}

fn controller(settings: &Settings) -> ChosenConfig
    requires { AreSettingsSound settings.now }
    ensures { result ≡ controller_of settings.now }
{
    match settings.controller {
        CONTROLLER_NEW_RENO => {
            let mut reno = NewRenoConfig::default();
            reno.initial_window(settings.initial_window);
            reno.loss_reduction_factor(settings.loss_numerator, settings.loss_denominator);
            ChosenConfig::Reno(reno)
        }
        CONTROLLER_FIXED => ChosenConfig::Fixed(FixedConfig::new(settings.initial_window)),
        _ => {
            let mut cubic = CubicConfig::default();
            cubic.initial_window(settings.initial_window);
            ChosenConfig::Cubic(cubic)
        }
    }
}

/// Returns the configuration of MTU discovery, if there is one.
pub fn discovery(settings: &Settings) -> Option<MtuDiscoveryConfig>
    ensures { result ≡ discovery_of settings.now }
{
    if !settings.searches {
        return None;
    }
    let mut discovery = MtuDiscoveryConfig::default();
    discovery.interval(Duration::from_nanos(settings.mtu_interval));
    discovery.upper_bound(settings.mtu_upper_bound);
    discovery.black_hole_cooldown(Duration::from_nanos(settings.black_hole_cooldown));
    discovery.minimum_change(settings.mtu_minimum_change);
    Some(discovery)
}

fn transport(settings: &Settings) -> TransportConfig<ChosenConfig>
    requires { AreSettingsSound settings.now }
    ensures { result ≡ transport_of settings.now }
{
    let mut transport = TransportConfig::with_factory(controller(settings));
    transport.initial_rtt(Duration::from_nanos(settings.initial_rtt));
    transport.initial_mtu(settings.initial_mtu);
    transport.min_mtu(settings.min_mtu);
    transport.mtu_discovery_config(discovery(settings));
    transport.packet_threshold(settings.packet_threshold);
    transport.time_threshold(settings.time_numerator, settings.time_denominator);
    transport.persistent_congestion_threshold(settings.persistent_congestion_threshold);
    transport
}

fn lifetime(ends: bool, nanos: u64) -> Option<Duration>
    ensures { result ≡ maybe ends nanos }
{
    if ends {
        Some(Duration::from_nanos(nanos))
    } else {
        None
    }
}

fn skips(kind: u8, first: u64) -> Skips
    requires { first < first_skip_limit }
    ensures skips { result ≡ skips_of kind first }
    ensures sound { IsSkips result }
{
    match kind {
        SKIPS_DISABLED => Skips::Disabled,
        SKIPS_DRAWN => Skips::Drawn,
        _ => Skips::Starting(first),
    }
}
