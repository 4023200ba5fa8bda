//! CUBIC as a controller (RFC 9438), and its factory.
ghost use Rattle.std.specs.Prelude.{◌≡◌, ◌*◌, ◌<◌, ◌≤◌, true, nat_le, Ok, refl, ◌^◌};
ghost use Rattle.recovery_base.specs.Units.{u16_limit};
ghost use Rattle.std.proofs.Math.Nat.{le_refl};
ghost use Rattle.recovery_cubic.specs.ConfigView.{default_window};
ghost use Rattle.recovery_cubic.specs.Cubic.{datagram_of, least_window, cubic_made, cubic_sent, cubic_found, slow_started, friendly_step, avoided, cubic_acked, reduced_window, next_w_max, next_stage, cubic_recovering, cubic_congested, cubic_with_mtu, cubic_metrics, IsCubicSound, cubic_words};
ghost use Rattle.recovery_cubic.specs.CubicLaws.{cubic_laws};

use crate::curve::Curve;
use crate::stage::{PARTS, Stage};
use recovery_base::below::NoMemory;
use recovery_base::time::Instant;
use recovery_congestion::congestion::{Controller, ControllerFactory, ControllerMetrics};
use recovery_congestion::rtt::RttEstimator;
use std::marker::Model;

/// The default initial window, in bytes: ten datagrams of 1200 bytes (RFC 9002, 7.2).
const INITIAL_WINDOW: u64 = 12_000;

/// Beta is 7/10, the factor of the window in a reduction (RFC 9438, 4.6).
const BETA_NUMERATOR: u128 = 7;

/// The denominator of beta.
const BETA_DENOMINATOR: u128 = 10;

/// (1 + beta) / 2 is 17/20: the factor of the plateau if the window is reduced below the last one (RFC 9438, 4.7).
const CONVERGENCE_NUMERATOR: u128 = 17;

/// The denominator of that fraction.
const CONVERGENCE_DENOMINATOR: u128 = 20;

/// Alpha is 3 (1 - beta) / (1 + beta), which is 9/17: how fast Reno's window grows (RFC 9438, 4.3).
const ALPHA_NUMERATOR: u128 = 9;

/// The denominator of alpha.
const ALPHA_DENOMINATOR: u128 = 17;

/// The settings of a [`Cubic`].
///
/// ```
/// let now = Instant::from_nanos(1);
/// let mut controller = CubicConfig::default().build(Instant::from_nanos(0), 1200);
/// assert!(&rt; controller.window() == 12_000);
/// // A packet of 1200 bytes, sent at the same time, is lost: the window is reduced to 70%.
/// controller.on_congestion_event(now, now, false, 1200);
/// assert!(&rt; controller.window() == 8400);
/// ```
#[derive(Clone, Copy)]
pub struct CubicConfig {
    initial_window: u64,
}

impl Model for CubicConfig {
    ghost use Rattle.std.specs.Prelude.{ℕ, ◌<◌};

    ghost Value = { ℕ };

    ghost use Rattle.recovery_cubic.specs.ConfigView.{window_in, window_back};

    ghost view = { window_in };

    ghost invariant = { λ config. 0 < window_in config };

    ghost inverse = { window_back };
}

impl CubicConfig {
    /// Sets the initial window, in bytes, above zero. Default 12000 (RFC 9002, 7.2).
    pub fn initial_window(&mut self, value: u64) -> &mut Self
        requires { 0 < value }
        ensures same { result.ghost_name ≡ self.entry.ghost_name }
        ensures value { result.now ≡ value }
    {
        self.initial_window = value;
        self
    }
}

impl Default for CubicConfig {
    ghost is_default = { λ config. config ≡ default_window };

    fn default() -> Self {
        CubicConfig {
            initial_window: INITIAL_WINDOW,
        }
    }
}

impl ControllerFactory for CubicConfig {
    type Controller = Cubic;

    ghost built = { cubic_made };

    fn build(&self, now: Instant, current_mtu: u16) -> Cubic {
        Cubic::new(*self, now, current_mtu)
    }

    ghost starts_at_initial = { λ factory now mtu. refl };

    ghost starts_by_now = { λ factory now mtu. le_refl now };
}

/// CUBIC (RFC 9438). A loss reduces the window to 7/10, once in a recovery. The window then is a function of time: it
/// grows fast toward the window before the loss (the plateau), slowly near it, and fast again beyond it.
///
/// RFC 9438, 4.2, moves toward the curve's value one round trip later, in one step for each acknowledgement. Here each
/// acknowledgement sets the window to the curve's value at its own time, but increases it by at most half of its bytes.
/// As in 4.2 that is half a window in a round trip. The window is never below what Reno's would be (4.3). Idle time
/// does not count (5.8): it lasts from an ACK that leaves nothing in flight to the next packet that counts in flight.
/// If losses alone empty the flight, time counts until an ACK. An MTU of zero counts as one byte. Not implemented:
/// undoing a reduction after a spurious loss (4.9), and other slow starts such as HyStart++ (4.10).
#[derive(Clone, Drop)]
pub struct Cubic {
    initial_window: u64,
    current_mtu: u16,
    window: u64,
    ssthresh: u64,
    recovery_start_time: Instant,
    /// The window before the last reduction (`cwnd_prior`).
    prior_window: u64,
    stage: Stage,
    /// When an ACK left nothing in flight, if no packet was sent since.
    idle_since: Option<Instant>,
}

impl Cubic {
    /// Returns a controller in slow start, with the window of the configuration, for a path of this MTU in bytes.
    /// Packets sent at this time count as sent before it.
    pub fn new(config: CubicConfig, now: Instant, current_mtu: u16) -> Self
        ensures value { result ≡ cubic_made config now current_mtu }
        ensures sound { IsCubicSound result }
    {
        let window = config.initial_window;
        Cubic {
            initial_window: window,
            current_mtu,
            window,
            ssthresh: u64::MAX,
            recovery_start_time: now,
            prior_window: window,
            stage: Stage::flat(window, u64::from(current_mtu).max(1), now),
            idle_since: None,
        }
    }

    /// Returns the size of a datagram, in bytes.
    fn datagram(&self) -> u64
        ensures value { result ≡ datagram_of self.now.current_mtu }
        ensures small { result < u16_limit }
    {
        u64::from(self.current_mtu).max(1)
    }

    /// Returns the minimum window (RFC 9002, 7.2).
    fn least_window(&self) -> u64
        ensures { result ≡ least_window self.now }
    {
        2 * self.datagram()
    }

    /// Returns the window after a loss (RFC 9438, 4.6).
    fn reduced_window(&self) -> u64
        ensures { result ≡ reduced_window self.now }
    {
        let reduced = u128::from(self.window) * BETA_NUMERATOR / BETA_DENOMINATOR;
        (reduced as u64).max(self.least_window())
    }

    /// Returns the plateau after a loss (RFC 9438, 4.7).
    fn next_w_max(&self) -> u64
        ensures { result ≡ next_w_max self.now }
    {
        if self.window < self.stage.w_max() {
            let lower = u128::from(self.window) * CONVERGENCE_NUMERATOR / CONVERGENCE_DENOMINATOR;
            lower as u64
        } else {
            self.window
        }
    }

    /// Returns the stage that begins with a reduction.
    fn next_stage(&self, now: Instant) -> Stage
        ensures { result ≡ next_stage now self.now }
    {
        let reduced = self.reduced_window();
        let curve = Curve::new(self.next_w_max(), reduced, self.datagram());
        Stage::new(curve, reduced, now)
    }

    /// Returns whether a packet was sent before the recovery began, or as it began.
    fn precedes_recovery(&self, sent: Instant) -> bool
        ensures { result ≡ nat_le sent self.now.recovery_start_time }
    {
        sent <= self.recovery_start_time
    }

    /// Grows in slow start.
    fn start_slowly(&mut self, now: Instant, bytes: u64)
        ensures { self.new ≡ slow_started now bytes self.old }
    {
        let window = self.window.saturating_add(bytes);
        let datagram = self.datagram();
        self.window = window;
        self.stage = Stage::flat(window, datagram, now);
    }

    /// Returns how much Reno's window grows, in fractions of a byte, rounded up (RFC 9438, 4.3).
    fn friendly_step(&self, bytes: u64) -> u128
        ensures { result ≡ friendly_step bytes self.now }
    {
        let alpha = if self.stage.has_reached(self.prior_window) {
            ALPHA_DENOMINATOR
        } else {
            ALPHA_NUMERATOR
        };
        let product = PARTS * alpha * u128::from(self.datagram()) * u128::from(bytes);
        let window = ALPHA_DENOMINATOR * u128::from(self.window.max(self.least_window()));
        (product + (window - 1)) / window
    }

    /// Grows in congestion avoidance.
    fn avoid_congestion(&mut self, now: Instant, bytes: u64)
        ensures { self.new ≡ avoided now bytes self.old }
    {
        let step = self.friendly_step(bytes);
        self.stage.count(now);
        let friendly = self.stage.raise(step);
        let half_above = self.window.saturating_add(bytes / 2);
        let curve = self.stage.curve_window().min(half_above);
        self.window = self.window.max(curve).max(friendly);
    }
}

impl Controller for Cubic {
    type Content = Cubic;

    ghost content = { λ cubic. cubic };

    ghost words = { cubic_words };

    ghost is_sound = { IsCubicSound };

    /// Ends an idle period, whose time does not count (RFC 9438, 5.8). A packet of size 0 changes nothing.
    fn on_sent(&mut self, now: Instant, bytes: u64, _last_packet_number: u64)
        ensures { self.new ≡ cubic_sent now bytes self.old }
    {
        if bytes == 0 {
            return;
        }
        if let Some(since) = self.idle_since {
            self.stage.leave_idle_out(since, now);
        }
        self.idle_since = None;
    }

    /// Never reduces the window. If application-limited, the window stays, and the time since the previous
    /// acknowledgement does not count (RFC 9438, 5.8).
    fn on_ack(
        &mut self,
        now: Instant,
        sent: Instant,
        bytes: u64,
        app_limited: bool,
        _rtt: &RttEstimator,
    )
        ensures value { self.new ≡ cubic_acked now sent bytes app_limited self.old }
        ensures kept { self.old.window ≤ self.new.window }
        ensures limited { app_limited ≡ true → self.new.window ≡ self.old.window }
    {
        if self.precedes_recovery(sent) {
            return;
        }
        if app_limited {
            self.stage.leave_out(now);
        } else if self.window < self.ssthresh {
            self.start_slowly(now, bytes);
        } else {
            self.avoid_congestion(now, bytes);
        }
    }

    /// Begins an idle period if nothing is in flight. One that has begun continues.
    fn on_end_acks(
        &mut self,
        now: Instant,
        in_flight: u64,
        _app_limited: bool,
        _largest_packet_num_acked: Option<u64>,
    )
        ensures { self.new ≡ cubic_found now in_flight self.old }
    {
        self.idle_since = if in_flight == 0 {
            Some(self.idle_since.unwrap_or(now))
        } else {
            None
        };
    }

    /// Does nothing for packets sent before the recovery began. Nothing else reduces the window.
    fn on_congestion_event(
        &mut self,
        now: Instant,
        sent: Instant,
        is_persistent_congestion: bool,
        _lost_bytes: u64,
    )
        ensures value { self.new ≡ cubic_congested now sent is_persistent_congestion self.old }
        ensures falls { self.new.window < self.old.window → self.old.recovery_start_time < sent }
    {
        if self.precedes_recovery(sent) {
            return;
        }
        let least = self.least_window();
        let reduced = self.reduced_window();
        let datagram = self.datagram();
        self.stage = if is_persistent_congestion {
            Stage::flat(least, datagram, now)
        } else {
            self.next_stage(now)
        };
        self.recovery_start_time = now;
        self.prior_window = self.window;
        self.ssthresh = reduced;
        self.window = if is_persistent_congestion {
            least
        } else {
            reduced
        };
    }

    /// Leaves a window of two datagrams of the new size or more unchanged (RFC 8899, 3). A smaller one becomes two
    /// datagrams (RFC 9002, 7.2): below one, a datagram of that size would never fit. The curve still has the datagram
    /// size with which it began.
    fn on_mtu_update(&mut self, new_mtu: u16)
        ensures value { self.new ≡ cubic_with_mtu new_mtu self.old }
        ensures kept { self.old.window ≤ self.new.window }
        ensures unchanged { 2 * datagram_of new_mtu ≤ self.old.window
            → self.new.window ≡ self.old.window }
        ensures minimum { self.old.window ≤ 2 * datagram_of new_mtu
            → self.new.window ≡ 2 * datagram_of new_mtu }
    {
        self.current_mtu = new_mtu;
        self.window = self.least_window().max(self.window);
    }

    fn window(&self) -> u64
        ensures { result ≡ self.now.window }
    {
        self.window
    }

    /// Returns the window and the threshold; there is no pacing rate.
    fn metrics(&self) -> ControllerMetrics
        ensures { result ≡ cubic_metrics self.now }
    {
        ControllerMetrics {
            congestion_window: self.window,
            ssthresh: Some(self.ssthresh),
            pacing_rate: None,
        }
    }

    fn initial_window(&self) -> u64
        ensures { result ≡ self.now.initial_window }
    {
        self.initial_window
    }

    /// Does not allocate, and never fails.
    fn try_clone(&self) -> Result<Self, NoMemory>
        ensures { result ≡ Ok self.now }
    {
        Ok(Cubic {
            initial_window: self.initial_window,
            current_mtu: self.current_mtu,
            window: self.window,
            ssthresh: self.ssthresh,
            recovery_start_time: self.recovery_start_time,
            prior_window: self.prior_window,
            stage: self.stage,
            idle_since: self.idle_since,
        })
    }

    ghost laws = { cubic_laws };
}
