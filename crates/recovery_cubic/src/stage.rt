//! A stage of congestion avoidance (RFC 9438, 4.2 and 4.3): its curve, its time, and the estimate of Reno's window.
ghost use Rattle.std.specs.Prelude.{◌≡◌, ◌*◌, nat_le, Some};
ghost use Rattle.recovery_cubic.specs.Stage.{parts, quotient_up, stage_from, flat_stage, counted, uncounted, resumed, raised, curve_window};

use crate::curve::Curve;
use recovery_base::time::Instant;

/// The estimate counts in fractions of a byte, of which this many are a byte.
pub const PARTS: u128 = 4_294_967_296;

/// The largest estimate: 2^64 - 1 bytes.
const MOST_PARTS: u128 = 79_228_162_514_264_337_589_248_983_040;

/// A stage: since the last reduction, or the last acknowledgement in slow start.
#[derive(Clone, Copy, Drop)]
pub struct Stage {
    curve: Curve,
    /// What Reno's window would be, in fractions of a byte (`W_est`).
    estimate: u128,
    /// The time that counts, in nanoseconds.
    elapsed: u64,
    /// Up to when time was counted or excluded.
    last: Instant,
}

impl Stage {
    /// Returns a stage that begins with this window, in bytes.
    pub fn new(curve: Curve, window: u64, now: Instant) -> Self
        ensures { result ≡ stage_from curve window now }
    {
        Stage {
            curve,
            estimate: PARTS * u128::from(window),
            elapsed: 0,
            last: now,
        }
    }

    /// Returns a stage that begins on the plateau, which is this window, in bytes (RFC 9438, 4.8).
    pub fn flat(window: u64, datagram: u64, now: Instant) -> Self
        ensures { result ≡ flat_stage window datagram now }
    {
        Stage::new(Curve::flat(window, datagram), window, now)
    }

    /// Returns the window at the plateau, in bytes.
    pub fn w_max(&self) -> u64
        ensures { result ≡ self.now.curve.w_max }
    {
        self.curve.w_max()
    }

    /// Returns the window of the curve at the time that counts, in bytes.
    pub fn curve_window(&self) -> u64
        ensures { result ≡ curve_window self.now }
    {
        self.curve.window_at(self.elapsed / 1000)
    }

    /// Counts the time up to now.
    pub fn count(&mut self, now: Instant)
        ensures { self.new ≡ counted now self.old }
    {
        let since = now.as_nanos().saturating_sub(self.last.as_nanos());
        self.elapsed = self.elapsed.saturating_add(since);
        self.last = self.last.max(now);
    }

    /// Excludes the time up to now: application-limited (RFC 9438, 5.8).
    pub fn leave_out(&mut self, now: Instant)
        ensures { self.new ≡ uncounted now self.old }
    {
        self.last = self.last.max(now);
    }

    /// Excludes an idle period from `since` to now (RFC 9438, 5.8).
    pub fn leave_idle_out(&mut self, since: Instant, now: Instant)
        ensures { self.new ≡ resumed now (Some since) self.old }
    {
        let later = self.last + now.saturating_duration_since(since);
        self.last = self.last.max(now.min(later));
    }

    /// Returns whether Reno's window has reached this one, in bytes (RFC 9438, 4.3).
    pub fn has_reached(&self, window: u64) -> bool
        ensures { result ≡ nat_le (parts * window) self.now.estimate }
    {
        PARTS * u128::from(window) <= self.estimate
    }

    /// Increases Reno's window by these fractions of a byte, up to 64 bits. Returns it in bytes, rounded up.
    pub fn raise(&mut self, step: u128) -> u64
        ensures value { self.new ≡ raised step self.old }
        ensures window { result ≡ quotient_up self.new.estimate parts }
    {
        let estimate = self.estimate.saturating_add(step).min(MOST_PARTS);
        self.estimate = estimate;
        ((estimate + (PARTS - 1)) / PARTS) as u64
    }
}
