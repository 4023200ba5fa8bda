//! The settings of a connection.
use recovery_base::below::ConnectionId;
use recovery_base::time::Duration;
use recovery_config::config::TransportConfig;
use recovery_packet_numbers::Skips;
use std::net::SocketAddr;

/// The default of the longest ACK delay, in milliseconds (RFC 9000, 18.2: max_ack_delay).
const MAX_ACK_DELAY_MILLIS: u64 = 25;

/// The default lifetime of local IDs, in seconds.
const CID_LIFETIME_SECS: u64 = 10;

/// The settings with which a recovery starts. `F` makes the congestion controllers of its paths.
///
/// [`RecoveryConfig::new`] returns the defaults. Each setting that has a default has a setter of its name.
#[derive(Drop)]
pub struct RecoveryConfig<F> {
    /// The settings of paths.
    pub transport: TransportConfig<F>,
    /// The peer's address on the first path.
    pub remote: SocketAddr,
    /// Whether the address was already validated (RFC 9000, 8.1).
    pub validated: bool,
    /// Whether to search for the MTU of paths, if `transport` has settings for it (RFC 9000, 14.3).
    pub allow_mtud: bool,
    /// The longest delay of local ACKs, until the peer asks for another (RFC 9000, 18.2: max_ack_delay).
    /// `ack_frequency` also starts with it as the peer's longest delay, which no event changes: the stack stores the
    /// peer's own value.
    pub max_ack_delay: Duration,
    /// The peer's first ID, which has number 0 (RFC 9000, 5.1.1).
    pub initial_cid: ConnectionId,
    /// The length of local IDs in bytes; 0 if they are not used.
    pub cid_len: usize,
    /// The lifetime of local IDs, after which the peer is to retire them; `None`: unlimited.
    pub cid_lifetime: Option<Duration>,
    /// How many local IDs are issued at the start, at most 2^62. Each takes 16 bytes, so `NoMemory` occurs long before
    /// that.
    pub issued: u64,
    /// How numbers of 1-RTT packets are skipped (RFC 9000, 21.4). `Starting(n)` requires n below 64.
    pub skips: Skips,
}

impl<F> RecoveryConfig<F> {
    ghost use Rattle.std.specs.Prelude.{◌≡◌};
    ghost use Rattle.recovery_history.specs.Config.{config_with};

    /// Returns the default settings with these settings of paths, the peer's address on the first path, and the peer's
    /// first ID of at most 20 bytes.
    pub fn new(transport: TransportConfig<F>, remote: SocketAddr, initial_cid: ConnectionId) -> Self
        ensures { result ≡ config_with transport remote initial_cid }
    {
        RecoveryConfig {
            transport,
            remote,
            validated: false,
            allow_mtud: true,
            max_ack_delay: Duration::from_millis(MAX_ACK_DELAY_MILLIS),
            initial_cid,
            cid_len: 8,
            cid_lifetime: Some(Duration::from_secs(CID_LIFETIME_SECS)),
            issued: 1,
            skips: Skips::Disabled,
        }
    }

    /// Sets whether the peer's address was already validated, so that the anti-amplification limit does not apply (RFC
    /// 9000, 8.1). Default false.
    pub fn validated(&mut self, value: bool) -> &mut Self
        ensures same { result.ghost_name ≡ self.entry.ghost_name }
        ensures value { result.now ≡ record self.old { validated = value } }
    {
        self.validated = value;
        self
    }

    /// Sets whether to search for the MTU of paths, if `transport` has settings for it (RFC 9000, 14.3). Default true.
    pub fn allow_mtud(&mut self, value: bool) -> &mut Self
        ensures same { result.ghost_name ≡ self.entry.ghost_name }
        ensures value { result.now ≡ record self.old { allow_mtud = value } }
    {
        self.allow_mtud = value;
        self
    }

    /// Sets the longest delay of local ACKs, until the peer asks for another: any span (RFC 9000, 18.2: max_ack_delay).
    /// Default 25 ms.
    pub fn max_ack_delay(&mut self, value: Duration) -> &mut Self
        ensures same { result.ghost_name ≡ self.entry.ghost_name }
        ensures value { result.now ≡ record self.old { max_ack_delay = value } }
    {
        self.max_ack_delay = value;
        self
    }

    /// Sets the length of local IDs in bytes; 0 if they are not used (RFC 9000, 5.1). Default 8.
    pub fn cid_len(&mut self, value: usize) -> &mut Self
        ensures same { result.ghost_name ≡ self.entry.ghost_name }
        ensures value { result.now ≡ record self.old { cid_len = value } }
    {
        self.cid_len = value;
        self
    }

    /// Sets the lifetime of local IDs, after which the peer is to retire them (RFC 9000, 5.1.2); `None`: unlimited.
    /// Default 10 s.
    pub fn cid_lifetime(&mut self, value: Option<Duration>) -> &mut Self
        ensures same { result.ghost_name ≡ self.entry.ghost_name }
        ensures value { result.now ≡ record self.old { cid_lifetime = value } }
    {
        self.cid_lifetime = value;
        self
    }

    /// Sets how many local IDs are issued at the start (RFC 9000, 5.1.1): at most 2^62, of 16 bytes each. Default 1.
    pub fn issued(&mut self, value: u64) -> &mut Self
        ensures same { result.ghost_name ≡ self.entry.ghost_name }
        ensures value { result.now ≡ record self.old { issued = value } }
    {
        self.issued = value;
        self
    }

    /// Sets how numbers of 1-RTT packets are skipped (RFC 9000, 21.4). Default: none is.
    pub fn skips(&mut self, value: Skips) -> &mut Self
        ensures same { result.ghost_name ≡ self.entry.ghost_name }
        ensures value { result.now ≡ record self.old { skips = value } }
    {
        self.skips = value;
        self
    }
}
