//! Times and spans in whole nanoseconds. No clock is read: the caller passes times.
ghost use Rattle.std.specs.Prelude.{◌≡◌, ℕ, ◌+◌, ◌-◌, ◌*◌, ◌≤◌, ◌<◌, min};
ghost use Rattle.std.specs.Option.{SomeIff};
ghost use Rattle.recovery_base.specs.Times.{longest_span, span_limit};
ghost use Rattle.recovery_base.specs.Units.{last_time, microseconds, milliseconds, seconds, u64_limit};

use std::marker::Model;
use std::ops::{Add, Sub};

const NANOS_PER_MICRO: u128 = 1_000;

const NANOS_PER_MILLI: u128 = 1_000_000;

const NANOS_PER_SEC: u128 = 1_000_000_000;

/// A time: nanoseconds since an epoch that the caller chooses, 0 to `u64::MAX`.
///
/// In contracts its value is the plain number.
#[derive(Clone, Copy, PartialEq, Eq, PartialOrd, Ord)]
pub struct Instant {
    nanos: u64,
}

impl Model for Instant {
    ghost Value = { ℕ };

    ghost view = { λ instant. instant.nanos };

    ghost inverse = { λ n. record { nanos = n } };
}

impl Instant {
    /// Returns the time this many nanoseconds after the epoch.
    pub fn from_nanos(nanos: u64) -> Self
        ensures { result ≡ nanos }
    {
        Instant { nanos }
    }

    /// Returns the nanoseconds since the epoch.
    pub fn as_nanos(self) -> u64
        ensures { result ≡ self }
    {
        self.nanos
    }

    /// Returns the time a span later, or `None` above `u64::MAX` nanoseconds.
    pub fn checked_add(self, duration: Duration) -> Option<Instant>
        ensures { SomeIff result (self + duration < u64_limit) (self + duration) }
    {
        let sum = u128::from(self.nanos) + duration.as_nanos();
        match u64::try_from(sum) {
            Ok(nanos) => Some(Instant { nanos }),
            Err(_) => None,
        }
    }

    /// Returns the span since an earlier time, or `None` if that time is later.
    pub fn checked_duration_since(self, earlier: Instant) -> Option<Duration>
        ensures { SomeIff result (earlier ≤ self) (self - earlier) }
    {
        let nanos = self.nanos.checked_sub(earlier.nanos)?;
        Some(Duration::from_nanos(nanos))
    }

    /// Returns the span since an earlier time, zero if that time is later.
    pub fn saturating_duration_since(self, earlier: Instant) -> Duration
        ensures { result ≡ self - earlier }
    {
        Duration::from_nanos(self.nanos.saturating_sub(earlier.nanos))
    }
}

/// The time a span later. It saturates at `u64::MAX` nanoseconds.
impl Add<Duration> for Instant {
    type Output = Instant;

    ghost add_gives = { λ instant duration sum. sum ≡ min (instant + duration) last_time };

    fn add(self, rhs: Duration) -> Instant {
        match self.checked_add(rhs) {
            Some(sum) => sum,
            None => Instant { nanos: u64::MAX },
        }
    }
}

/// The span between two times, zero if the second is later.
impl Sub for Instant {
    type Output = Duration;

    ghost sub_gives = { λ instant earlier difference. difference ≡ instant - earlier };

    fn sub(self, rhs: Instant) -> Duration {
        self.saturating_duration_since(rhs)
    }
}

/// A span of time: whole nanoseconds, 0 to 2^64 · 10^9 - 1 (the range of std's `Duration`).
///
/// In contracts its value is the plain number.
#[derive(Clone, Copy, PartialEq, Eq, PartialOrd, Ord)]
pub struct Duration {
    nanos: u128,
}

impl Model for Duration {
    ghost Value = { ℕ };

    ghost view = { λ duration. duration.nanos };

    ghost invariant = { λ duration. duration.nanos < span_limit };

    ghost inverse = { λ n. record { nanos = n } };
}

impl Default for Duration {
    ghost is_default = { λ duration. duration ≡ 0 };

    fn default() -> Self {
        Duration::ZERO
    }
}

impl Duration {
    /// The zero span.
    pub const ZERO: Duration = Duration { nanos: 0 };

    /// The longest span: 2^64 · 10^9 - 1 nanoseconds.
    pub const MAX: Duration = Duration {
        nanos: 18_446_744_073_709_551_615_999_999_999,
    };

    /// Returns a span of whole nanoseconds.
    pub fn from_nanos(nanos: u64) -> Self
        ensures { result ≡ nanos }
    {
        Duration {
            nanos: u128::from(nanos),
        }
    }

    /// Returns a span of whole nanoseconds, or `None` above the longest.
    pub fn checked_from_nanos(nanos: u128) -> Option<Self>
        ensures { SomeIff result (nanos < span_limit) nanos }
    {
        if nanos > Self::MAX.nanos {
            return None;
        }
        Some(Duration { nanos })
    }

    /// Returns a span of whole microseconds.
    pub fn from_micros(micros: u64) -> Self
        ensures { result ≡ micros * microseconds }
    {
        Duration {
            nanos: u128::from(micros) * NANOS_PER_MICRO,
        }
    }

    /// Returns a span of whole milliseconds.
    pub fn from_millis(millis: u64) -> Self
        ensures { result ≡ millis * milliseconds }
    {
        Duration {
            nanos: u128::from(millis) * NANOS_PER_MILLI,
        }
    }

    /// Returns a span of whole seconds.
    pub fn from_secs(secs: u64) -> Self
        ensures { result ≡ secs * seconds }
    {
        Duration {
            nanos: u128::from(secs) * NANOS_PER_SEC,
        }
    }

    /// Returns the whole nanoseconds.
    pub fn as_nanos(self) -> u128
        ensures value { result ≡ self }
        ensures bound { result < span_limit }
    {
        self.nanos
    }

    /// Returns the sum, or `None` above the longest span.
    pub fn checked_add(self, other: Duration) -> Option<Duration>
        ensures { SomeIff result (self + other < span_limit) (self + other) }
    {
        Duration::checked_from_nanos(self.nanos + other.nanos)
    }

    /// Returns the sum. It saturates at the longest span.
    pub fn saturating_add(self, other: Duration) -> Duration
        ensures { result ≡ min (self + other) longest_span }
    {
        match self.checked_add(other) {
            Some(sum) => sum,
            None => Duration::MAX,
        }
    }

    /// Returns the difference, or `None` if the other span is longer.
    pub fn checked_sub(self, other: Duration) -> Option<Duration>
        ensures { SomeIff result (other ≤ self) (self - other) }
    {
        let nanos = self.nanos.checked_sub(other.nanos)?;
        Some(Duration { nanos })
    }

    /// Returns the difference, zero if the other span is longer.
    pub fn saturating_sub(self, other: Duration) -> Duration
        ensures { result ≡ self - other }
    {
        Duration {
            nanos: self.nanos.saturating_sub(other.nanos),
        }
    }
}

/// The sum. It saturates at the longest span.
impl Add for Duration {
    type Output = Duration;

    ghost add_gives = { λ first second sum. sum ≡ min (first + second) longest_span };

    fn add(self, rhs: Duration) -> Duration {
        self.saturating_add(rhs)
    }
}

/// The difference, zero if the second span is longer.
impl Sub for Duration {
    type Output = Duration;

    ghost sub_gives = { λ first second difference. difference ≡ first - second };

    fn sub(self, rhs: Duration) -> Duration {
        self.saturating_sub(rhs)
    }
}
