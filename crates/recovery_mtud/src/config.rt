//! Settings of MTU discovery.
ghost use Rattle.std.specs.Prelude.{◌≡◌, ◌<◌, min, max};
ghost use Rattle.recovery_base.specs.Units.{u16_limit};
ghost use Rattle.recovery_mtud.specs.Settings.{default_settings};
ghost use Rattle.recovery_mtud.specs.Search.{max_udp_payload};

use recovery_base::time::Duration;

/// The largest payload of a UDP datagram over IPv6 without jumbograms, in bytes (RFC 9000, 18.2).
pub(crate) const MAX_UDP_PAYLOAD: u16 = 65_527;

/// Settings of MTU discovery (RFC 8899, 5.1; RFC 9000, 14.3).
///
/// Each setting has a setter of its name.
#[derive(Clone, Copy)]
pub struct MtuDiscoveryConfig {
    pub(crate) interval: Duration,
    pub(crate) upper_bound: u16,
    pub(crate) black_hole_cooldown: Duration,
    pub(crate) minimum_change: u16,
}

impl MtuDiscoveryConfig {
    /// Sets the time from the end of a search to the next one. Default 600 s (the PMTU_RAISE_TIMER of RFC 8899, 5.1.1).
    pub fn interval(&mut self, value: Duration) -> &mut Self
        ensures same { result.ghost_name ≡ self.entry.ghost_name }
        ensures value { result.now ≡ record self.old { interval = value } }
    {
        self.interval = value;
        self
    }

    /// Sets the largest size that is probed, in bytes. The maximum is 65,527, which is stored for a larger one. Default
    /// 1452: what IPv6 and UDP leave of an Ethernet frame.
    pub fn upper_bound(&mut self, value: u16) -> &mut Self
        ensures same { result.ghost_name ≡ self.entry.ghost_name }
        ensures value { result.now ≡ record self.old { upper_bound = min value max_udp_payload } }
    {
        self.upper_bound = value.min(MAX_UDP_PAYLOAD);
        self
    }

    /// Sets the time from the report of a black hole to the next search. Default 60 s: less than `interval`, since the
    /// route that lost the large packets may be replaced soon.
    pub fn black_hole_cooldown(&mut self, value: Duration) -> &mut Self
        ensures same { result.ghost_name ≡ self.entry.ghost_name }
        ensures value { result.now ≡ record self.old { black_hole_cooldown = value } }
    {
        self.black_hole_cooldown = value;
        self
    }

    /// Sets the smallest step from one size to the next that is worth a probe, in bytes. The minimum is 1, which is
    /// stored for 0. Default 20.
    ///
    /// At 1 and 2 a search may probe its lower bound again, and at 1 a size below it.
    pub fn minimum_change(&mut self, value: u16) -> &mut Self
        ensures same { result.ghost_name ≡ self.entry.ghost_name }
        ensures value { result.now ≡ record self.old { minimum_change = max value 1 } }
    {
        self.minimum_change = value.max(1);
        self
    }

    /// Proves for callers that the largest size that is probed is below 2^16, as its type says.
    pub fn upper_bound_fits(&self)
        ensures { self.now.upper_bound < u16_limit }
    {
        let _upper_bound = self.upper_bound;
    }
}

impl Default for MtuDiscoveryConfig {
    ghost is_default = { λ config. config ≡ default_settings };

    fn default() -> Self {
        MtuDiscoveryConfig {
            interval: Duration::from_secs(600),
            upper_bound: 1452,
            black_hole_cooldown: Duration::from_secs(60),
            minimum_change: 20,
        }
    }
}
