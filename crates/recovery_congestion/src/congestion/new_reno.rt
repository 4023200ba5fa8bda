//! NewReno (RFC 9002, 7 and appendix B).
ghost use Rattle.std.specs.Prelude.{◌≡◌, ◌<◌, ◌≤◌, nat_le, Ok, refl};
ghost use Rattle.std.proofs.Math.Nat.{le_refl};
ghost use Rattle.recovery_congestion.specs.RenoSettings.{default_reno};
ghost use Rattle.recovery_congestion.specs.NewReno.{reno_made, reno_words, reno_acked, reno_congested, reno_with_mtu, reno_metrics, minimum_window, reduced_window, slow_started, avoided, sum_to_most, IsRenoSound, AvoidsBelowMost, CountsBytes};
ghost use Rattle.recovery_congestion.specs.RenoLaws.{reno_laws};

use super::{Controller, ControllerFactory, ControllerMetrics};
use crate::rtt::RttEstimator;
use recovery_base::below::NoMemory;
use recovery_base::time::Instant;
use std::marker::Model;

/// The default initial window, in bytes: ten datagrams of 1200 bytes, since these are less than 14720 bytes (RFC 9002,
/// 7.2).
const INITIAL_WINDOW: u64 = 12_000;

/// The settings of a [`NewReno`]: its initial window, and how a loss reduces the window.
///
/// ```
/// let now = Instant::from_nanos(1);
/// let mut controller = NewRenoConfig::default().build(Instant::from_nanos(0), 1200);
/// assert!(&rt; controller.window() == 12_000);
/// // A packet of 1200 bytes, sent at the same time, is lost: the window is halved.
/// controller.on_congestion_event(now, now, false, 1200);
/// assert!(&rt; controller.window() == 6000);
/// ```
#[derive(Clone, Copy)]
pub struct NewRenoConfig {
    initial_window: u64,
    numerator: u64,
    denominator: u64,
}

impl Model for NewRenoConfig {
    ghost use Rattle.recovery_congestion.specs.RenoSettings.{RenoSettings, ArePositive};

    ghost Value = { RenoSettings };

    ghost use Rattle.recovery_congestion.specs.RenoConfigView.{settings_in, settings_back};

    ghost view = { settings_in };

    ghost invariant = { λ config. ArePositive (settings_in config) };

    ghost inverse = { settings_back };
}

impl NewRenoConfig {
    /// Sets the initial window, in bytes, above zero. Default 12000 (RFC 9002, 7.2).
    pub fn initial_window(&mut self, value: u64) -> &mut Self
        requires { 0 < value }
        ensures same { result.ghost_name ≡ self.entry.ghost_name }
        ensures value { result.now ≡ record self.old { initial_window = value } }
    {
        self.initial_window = value;
        self
    }

    /// Sets the factor of the window at a loss: a fraction whose denominator is above zero. Default 1/2 (RFC 9002,
    /// 7.3.2).
    pub fn loss_reduction_factor(&mut self, numerator: u64, denominator: u64) -> &mut Self
        requires { 0 < denominator }
        ensures same { result.ghost_name ≡ self.entry.ghost_name }
        ensures value { result.now
            ≡ record self.old { numerator = numerator; denominator = denominator } }
    {
        self.numerator = numerator;
        self.denominator = denominator;
        self
    }
}

impl Default for NewRenoConfig {
    ghost is_default = { λ config. config ≡ default_reno };

    fn default() -> Self {
        NewRenoConfig {
            initial_window: INITIAL_WINDOW,
            numerator: 1,
            denominator: 2,
        }
    }
}

impl ControllerFactory for NewRenoConfig {
    type Controller = NewReno;

    ghost built = { reno_made };

    fn build(&self, now: Instant, current_mtu: u16) -> NewReno {
        NewReno::new(*self, now, current_mtu)
    }

    ghost starts_at_initial = { λ factory now mtu. refl };

    ghost starts_by_now = { λ factory now mtu. le_refl now };
}

/// NewReno: a window that grows by the bytes acknowledged up to a threshold, and above it by one MTU for each window of
/// them. A loss reduces it by a fixed factor, once in a recovery (RFC 9002, 7.3).
#[derive(Clone, Drop)]
pub struct NewReno {
    config: NewRenoConfig,
    current_mtu: u16,
    window: u64,
    ssthresh: u64,
    recovery_start_time: Instant,
    bytes_acked: u64,
}

impl NewReno {
    /// Returns a controller in slow start, with the window of the configuration, for a path of this MTU in bytes.
    /// Packets sent at this time count as sent before it.
    pub fn new(config: NewRenoConfig, now: Instant, current_mtu: u16) -> Self
        ensures value { result ≡ reno_made config now current_mtu }
        ensures sound { 0 < current_mtu → IsRenoSound result }
    {
        let window = config.initial_window;
        NewReno {
            config,
            current_mtu,
            window,
            ssthresh: u64::MAX,
            recovery_start_time: now,
            bytes_acked: 0,
        }
    }

    /// Returns the minimum window (RFC 9002, 7.2).
    fn minimum_window(&self) -> u64
        ensures { result ≡ minimum_window self.now }
    {
        2 * u64::from(self.current_mtu)
    }

    /// Returns the window after a loss.
    fn reduced_window(&self) -> u64
        ensures { result ≡ reduced_window self.now }
    {
        let product = u128::from(self.window) * u128::from(self.config.numerator);
        let reduced = product / u128::from(self.config.denominator);
        let reduced = u64::try_from(reduced).unwrap_or(u64::MAX);
        reduced.max(self.minimum_window())
    }

    /// Returns whether a packet was sent before the recovery began, or as it began.
    fn precedes_recovery(&self, sent: Instant) -> bool
        ensures { result ≡ nat_le sent self.now.recovery_start_time }
    {
        sent <= self.recovery_start_time
    }

    /// Grows in slow start. Bytes beyond the threshold already count for congestion avoidance.
    fn start_slowly(&mut self, bytes: u64)
        ensures { self.new ≡ slow_started bytes self.old }
    {
        let window = self.window.saturating_add(bytes);
        if let Some(excess) = window.checked_sub(self.ssthresh) {
            self.bytes_acked = excess;
        }
        self.window = window;
    }

    /// Counts bytes in congestion avoidance, and grows by one MTU for each window of them.
    fn avoid_congestion(&mut self, bytes: u64)
        ensures { self.new ≡ avoided (sum_to_most self.old.bytes_acked bytes) self.old }
    {
        let counted = self.bytes_acked.saturating_add(bytes);
        match counted.checked_sub(self.window) {
            Some(rest) => {
                self.bytes_acked = rest;
                self.window = self.window.saturating_add(u64::from(self.current_mtu));
            }
            None => self.bytes_acked = counted,
        }
    }
}

impl Controller for NewReno {
    type Content = NewReno;

    ghost content = { λ reno. reno };

    ghost words = { reno_words };

    ghost is_sound = { IsRenoSound };

    /// Changes nothing.
    fn on_sent(&mut self, _now: Instant, _bytes: u64, _last_packet_number: u64)
        ensures { self.new ≡ self.old }
    {}

    /// Never reduces the window. In congestion avoidance it grows by one MTU for each window of bytes.
    #[inline(always)]
    fn on_ack(
        &mut self,
        _now: Instant,
        sent: Instant,
        bytes: u64,
        app_limited: bool,
        _rtt: &RttEstimator,
    )
        ensures value { self.new ≡ reno_acked sent bytes app_limited self.old }
        ensures kept { self.old.window ≤ self.new.window }
        ensures exact { AvoidsBelowMost sent bytes app_limited self.old
            → CountsBytes bytes self.old self.new }
    {
        if app_limited || self.precedes_recovery(sent) {
            return;
        }
        if self.window < self.ssthresh {
            self.start_slowly(bytes);
        } else {
            self.avoid_congestion(bytes);
        }
    }

    /// Changes nothing.
    fn on_end_acks(
        &mut self,
        _now: Instant,
        _in_flight: u64,
        _app_limited: bool,
        _largest_packet_num_acked: Option<u64>,
    )
        ensures { self.new ≡ self.old }
    {}

    /// Does nothing for packets sent before the recovery began. Nothing else reduces the window.
    fn on_congestion_event(
        &mut self,
        now: Instant,
        sent: Instant,
        is_persistent_congestion: bool,
        _lost_bytes: u64,
    )
        ensures value { self.new ≡ reno_congested now sent is_persistent_congestion self.old }
        ensures falls { self.new.window < self.old.window → self.old.recovery_start_time < sent }
    {
        if self.precedes_recovery(sent) {
            return;
        }
        let reduced = self.reduced_window();
        self.recovery_start_time = now;
        self.ssthresh = reduced;
        self.window = if is_persistent_congestion {
            self.minimum_window()
        } else {
            reduced
        };
    }

    /// Never reduces the window, which becomes two MTUs or more.
    fn on_mtu_update(&mut self, new_mtu: u16)
        ensures value { self.new ≡ reno_with_mtu new_mtu self.old }
        ensures kept { self.old.window ≤ self.new.window }
    {
        self.current_mtu = new_mtu;
        self.window = self.minimum_window().max(self.window);
    }

    fn window(&self) -> u64
        ensures { result ≡ self.now.window }
    {
        self.window
    }

    /// Returns the window and the threshold; there is no pacing rate.
    fn metrics(&self) -> ControllerMetrics
        ensures { result ≡ reno_metrics self.now }
    {
        ControllerMetrics {
            congestion_window: self.window,
            ssthresh: Some(self.ssthresh),
            pacing_rate: None,
        }
    }

    fn initial_window(&self) -> u64
        ensures { result ≡ self.now.config.initial_window }
    {
        self.config.initial_window
    }

    /// Does not allocate, and never fails.
    fn try_clone(&self) -> Result<Self, NoMemory>
        ensures { result ≡ Ok self.now }
    {
        Ok(NewReno {
            config: self.config,
            current_mtu: self.current_mtu,
            window: self.window,
            ssthresh: self.ssthresh,
            recovery_start_time: self.recovery_start_time,
            bytes_acked: self.bytes_acked,
        })
    }

    ghost laws = { reno_laws };
}
