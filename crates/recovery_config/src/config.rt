//! Settings of a connection.
ghost use Rattle.std.specs.Prelude.{◌≡◌, ◌<◌, max};
ghost use Rattle.std.specs.Option.{ForSome};
ghost use Rattle.recovery_base.specs.Units.{u16_limit};
ghost use Rattle.recovery_congestion.specs.RenoSettings.{default_reno};
ghost use Rattle.recovery_config.specs.Settings.{settings_with, initial_mtu_of};

use recovery_base::below::VarInt;
use recovery_base::config::AckFrequencyConfig;
use recovery_base::time::Duration;
use recovery_congestion::congestion::NewRenoConfig;
use recovery_mtud::config::MtuDiscoveryConfig;
use std::marker::Model;

mod idle;
mod limits;

pub use idle::IdleTimeout;

/// How many streams of each kind the peer may have open.
const STREAMS: u32 = 100;

/// How long a connection may be idle, in milliseconds (RFC 9308, 3.2).
const IDLE_MILLIS: u32 = 30_000;

/// What a stream transfers in 100 ms at 12.5 MB a second, in bytes.
const STREAM_WINDOW: u32 = 1_250_000;

/// The initial RTT of a path, in milliseconds (RFC 9002, 6.2.2).
const INITIAL_RTT_MILLIS: u64 = 333;

/// The datagram size that every QUIC path carries, in bytes (RFC 9000, 14).
const LEAST_MTU: u16 = 1200;

/// An MTU, in bytes, above zero.
#[derive(Clone, Copy)]
struct Mtu {
    bytes: u16,
}

impl Model for Mtu {
    ghost use Rattle.std.specs.Prelude.{ℕ, ◌<◌};

    ghost Value = { ℕ };

    ghost view = { λ mtu. mtu.bytes };

    ghost invariant = { λ mtu. 0 < mtu.bytes };

    ghost inverse = { λ bytes. record { bytes = bytes } };
}

impl Mtu {
    fn new(bytes: u16) -> Self
        requires { 0 < bytes }
        ensures { result ≡ bytes }
    {
        Mtu { bytes }
    }

    fn get(self) -> u16
        ensures value { result ≡ self }
        ensures positive { 0 < result }
    {
        self.bytes
    }
}

/// A fraction whose denominator is above zero.
#[derive(Clone, Copy)]
struct Fraction {
    numerator: u64,
    denominator: u64,
}

impl Model for Fraction {
    ghost use Rattle.std.specs.Prelude.{ℕ, ◌<◌};

    ghost Value = { ℕ × ℕ };

    ghost view = { λ fraction. (fraction.numerator, fraction.denominator) };

    ghost invariant = { λ fraction. 0 < fraction.denominator };

    ghost inverse = { λ pair. record { numerator = pair.0; denominator = pair.1 } };
}

impl Fraction {
    fn new(numerator: u64, denominator: u64) -> Self
        requires { 0 < denominator }
        ensures { result ≡ (numerator, denominator) }
    {
        Fraction {
            numerator,
            denominator,
        }
    }

    fn get(self) -> (u64, u64)
        ensures value { result ≡ self }
        ensures positive { 0 < result.1 }
    {
        (self.numerator, self.denominator)
    }
}

/// Settings of a connection, with a factory `F` of its congestion controllers.
///
/// Each setting has a setter of its name. MTUs and the denominator of the time threshold are always above zero.
#[derive(Drop)]
pub struct TransportConfig<F> {
    /// How many bidirectional streams the peer may have open at once (RFC 9000, 4.6).
    pub max_concurrent_bidi_streams: VarInt,
    /// How many unidirectional streams the peer may have open at once (RFC 9000, 4.6).
    pub max_concurrent_uni_streams: VarInt,
    /// How long the connection may be idle, in milliseconds; `None` sets no limit (RFC 9000, 10.1).
    pub max_idle_timeout: Option<VarInt>,
    /// How many unread bytes of one stream the peer may send (RFC 9000, 4.1).
    pub stream_receive_window: VarInt,
    /// How many unread bytes of all streams the peer may send (RFC 9000, 4.1).
    pub receive_window: VarInt,
    /// How many unacknowledged bytes of streams the local endpoint may store.
    pub send_window: u64,
    /// Whether streams of one priority take turns at sending; if not, each sends until it has no more.
    pub send_fairness: bool,
    /// A packet is lost if one that was sent this many packets later is acknowledged (RFC 9002, 6.1.1).
    pub packet_threshold: u32,
    time_threshold: Fraction,
    /// The initial RTT of a path. Default 333 ms (RFC 9002, 6.2.2).
    pub initial_rtt: Duration,
    initial_mtu: Mtu,
    min_mtu: Mtu,
    /// The settings of MTU searches; `None` turns them off (RFC 9000, 14.3).
    pub mtu_discovery_config: Option<MtuDiscoveryConfig>,
    /// Whether datagrams of application data are padded to the MTU.
    pub pad_to_mtu: bool,
    /// What ACK_FREQUENCY frames request from the peer; `None` sends none (draft-ietf-quic-ack-frequency-04, section
    /// 4).
    pub ack_frequency_config: Option<AckFrequencyConfig>,
    /// Congestion is persistent if all packets that were sent over this many probe timeouts are lost (RFC 9002, 7.6.1).
    pub persistent_congestion_threshold: u32,
    /// How long the connection may be without traffic before a keep-alive PING is sent; `None` sends none (RFC 9000,
    /// 10.1.2).
    pub keep_alive_interval: Option<Duration>,
    /// How many bytes of CRYPTO frames out of order are stored (RFC 9000, 7.5).
    pub crypto_buffer_size: usize,
    /// Whether the spin bit lets observers measure the RTT (RFC 9000, 17.4).
    pub allow_spin: bool,
    /// How many bytes of datagrams are stored until they are read; `None` accepts no datagrams (RFC 9221, 3).
    pub datagram_receive_buffer_size: Option<usize>,
    /// How many bytes of datagrams are stored until they are sent (RFC 9221, 5).
    pub datagram_send_buffer_size: usize,
    /// The factory of the congestion controllers of paths.
    pub congestion_controller_factory: F,
}

impl<F> TransportConfig<F> {
    /// Returns the default settings, with this factory of congestion controllers.
    pub fn with_factory(factory: F) -> Self
        ensures { result ≡ settings_with factory }
    {
        TransportConfig {
            max_concurrent_bidi_streams: VarInt::from_u32(STREAMS),
            max_concurrent_uni_streams: VarInt::from_u32(STREAMS),
            max_idle_timeout: Some(VarInt::from_u32(IDLE_MILLIS)),
            stream_receive_window: VarInt::from_u32(STREAM_WINDOW),
            receive_window: VarInt::MAX,
            send_window: 8 * u64::from(STREAM_WINDOW),
            send_fairness: true,
            packet_threshold: 3,
            time_threshold: Fraction::new(9, 8),
            initial_rtt: Duration::from_millis(INITIAL_RTT_MILLIS),
            initial_mtu: Mtu::new(LEAST_MTU),
            min_mtu: Mtu::new(LEAST_MTU),
            mtu_discovery_config: Some(MtuDiscoveryConfig::default()),
            pad_to_mtu: false,
            ack_frequency_config: None,
            persistent_congestion_threshold: 3,
            keep_alive_interval: None,
            crypto_buffer_size: 16_384,
            allow_spin: true,
            datagram_receive_buffer_size: Some(STREAM_WINDOW as usize),
            datagram_send_buffer_size: 1_048_576,
            congestion_controller_factory: factory,
        }
    }

    /// Sets the packet threshold: a packet is lost if one that was sent this many packets later is acknowledged (RFC
    /// 9002, 6.1.1). Default 3.
    pub fn packet_threshold(&mut self, value: u32) -> &mut Self
        ensures same { result.ghost_name ≡ self.entry.ghost_name }
        ensures value { result.now ≡ record self.old { packet_threshold = value } }
    {
        self.packet_threshold = value;
        self
    }

    /// Sets the time threshold: a packet is lost this many RTTs after it was sent, if a later one is acknowledged (RFC
    /// 9002, 6.1.2). It is a fraction whose denominator is above zero. Default 9/8.
    pub fn time_threshold(&mut self, numerator: u64, denominator: u64) -> &mut Self
        requires { 0 < denominator }
        ensures same { result.ghost_name ≡ self.entry.ghost_name }
        ensures value { result.now ≡ record self.old { time_threshold = (numerator, denominator) } }
    {
        self.time_threshold = Fraction::new(numerator, denominator);
        self
    }

    /// Returns the numerator and denominator of the time threshold.
    pub fn get_time_threshold(&self) -> (u64, u64)
        ensures value { result ≡ self.now.time_threshold }
        ensures positive { 0 < result.1 }
    {
        self.time_threshold.get()
    }

    /// Sets the initial RTT of a path. Default 333 ms (RFC 9002, 6.2.2).
    pub fn initial_rtt(&mut self, value: Duration) -> &mut Self
        ensures same { result.ghost_name ≡ self.entry.ghost_name }
        ensures value { result.now ≡ record self.old { initial_rtt = value } }
    {
        self.initial_rtt = value;
        self
    }

    /// Sets the size of datagrams before MTU discovery, in bytes, above zero. Default 1200 (RFC 9000, 14).
    pub fn initial_mtu(&mut self, value: u16) -> &mut Self
        requires { 0 < value }
        ensures same { result.ghost_name ≡ self.entry.ghost_name }
        ensures value { result.now ≡ record self.old { initial_mtu = value } }
    {
        self.initial_mtu = Mtu::new(value);
        self
    }

    /// Sets the size of datagrams that the path is known to carry, in bytes, above zero. Default 1200 (RFC 9000, 14).
    pub fn min_mtu(&mut self, value: u16) -> &mut Self
        requires { 0 < value }
        ensures same { result.ghost_name ≡ self.entry.ghost_name }
        ensures value { result.now ≡ record self.old { min_mtu = value } }
    {
        self.min_mtu = Mtu::new(value);
        self
    }

    /// Sets the settings of MTU searches; `None` turns them off. Default: that of `MtuDiscoveryConfig` (RFC 9000,
    /// 14.3).
    pub fn mtu_discovery_config(&mut self, value: Option<MtuDiscoveryConfig>) -> &mut Self
        ensures same { result.ghost_name ≡ self.entry.ghost_name }
        ensures value { result.now ≡ record self.old { mtu_discovery_config = value } }
    {
        self.mtu_discovery_config = value;
        self
    }

    /// Sets whether datagrams of application data are padded to the MTU. Default false.
    pub fn pad_to_mtu(&mut self, value: bool) -> &mut Self
        ensures same { result.ghost_name ≡ self.entry.ghost_name }
        ensures value { result.now ≡ record self.old { pad_to_mtu = value } }
    {
        self.pad_to_mtu = value;
        self
    }

    /// Sets what ACK_FREQUENCY frames request from the peer; `None` sends none (draft-ietf-quic-ack-frequency-04,
    /// section 4). Default `None`.
    pub fn ack_frequency_config(&mut self, value: Option<AckFrequencyConfig>) -> &mut Self
        ensures same { result.ghost_name ≡ self.entry.ghost_name }
        ensures value { result.now ≡ record self.old { ack_frequency_config = value } }
    {
        self.ack_frequency_config = value;
        self
    }

    /// Sets the persistent congestion threshold: congestion is persistent if all packets that were sent over this many
    /// probe timeouts are lost (RFC 9002, 7.6.1). Default 3.
    pub fn persistent_congestion_threshold(&mut self, value: u32) -> &mut Self
        ensures same { result.ghost_name ≡ self.entry.ghost_name }
        ensures value { result.now ≡ record self.old { persistent_congestion_threshold = value } }
    {
        self.persistent_congestion_threshold = value;
        self
    }

    /// Proves for callers that the largest size that is probed is below 2^16, as its type says.
    pub fn upper_bound_fits(&self)
        ensures { ForSome self.now.mtu_discovery_config (λ config. config.upper_bound < u16_limit) }
    {
        if let Some(config) = &self.mtu_discovery_config {
            config.upper_bound_fits();
        }
    }

    /// Returns the initial size of a path's datagrams, in bytes: the larger of `initial_mtu` and `min_mtu`.
    pub fn get_initial_mtu(&self) -> u16
        ensures value { result ≡ initial_mtu_of self.now }
        ensures positive { 0 < result }
    {
        self.initial_mtu.get().max(self.min_mtu.get())
    }

    /// Returns the size of datagrams that the path is known to carry, in bytes.
    pub fn get_min_mtu(&self) -> u16
        ensures value { result ≡ self.now.min_mtu }
        ensures positive { 0 < result }
    {
        self.min_mtu.get()
    }
}

impl<F: Drop> TransportConfig<F> {
    /// Sets the factory of the congestion controllers of paths.
    pub fn congestion_controller_factory(&mut self, factory: F) -> &mut Self
        ensures same { result.ghost_name ≡ self.entry.ghost_name }
        ensures value { result.now ≡ record self.old { congestion_controller_factory = factory } }
    {
        self.congestion_controller_factory = factory;
        self
    }
}

impl Default for TransportConfig<NewRenoConfig> {
    ghost is_default = { λ config. config ≡ settings_with default_reno };

    fn default() -> Self {
        TransportConfig::with_factory(NewRenoConfig::default())
    }
}
