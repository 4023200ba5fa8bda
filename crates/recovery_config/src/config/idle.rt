//! How long a connection may be idle.
ghost use Rattle.std.specs.Prelude.{◌≡◌, ℕ, ◌/◌, ◌<◌};
ghost use Rattle.std.specs.Result.{OkIff};
ghost use Rattle.recovery_base.specs.Units.{milliseconds, number_limit};

use recovery_base::below::{VarInt, VarIntBoundsExceeded};
use recovery_base::time::Duration;
use std::marker::Model;

const NANOS_PER_MILLI: u128 = 1_000_000;

/// How long a connection may be idle, in whole milliseconds, 0 to 2^62 - 1 (RFC 9000, 10.1).
///
/// In contracts its value is the plain number.
#[derive(Clone, Copy, PartialEq, Eq, PartialOrd, Ord, Hash)]
pub struct IdleTimeout {
    millis: VarInt,
}

impl Model for IdleTimeout {
    ghost Value = { ℕ };

    ghost view = { λ timeout. timeout.millis };

    ghost inverse = { λ n. record { millis = n } };
}

/// Zero.
impl Default for IdleTimeout {
    ghost is_default = { λ timeout. timeout ≡ 0 };

    fn default() -> Self {
        IdleTimeout {
            millis: VarInt::default(),
        }
    }
}

impl IdleTimeout {
    /// Returns the time in milliseconds.
    pub(super) fn into_millis(self) -> VarInt
        ensures { result ≡ self }
    {
        self.millis
    }
}

/// This many milliseconds.
impl From<VarInt> for IdleTimeout {
    ghost from_gives = { λ millis timeout. timeout ≡ millis };

    fn from(millis: VarInt) -> Self {
        IdleTimeout { millis }
    }
}

/// The whole milliseconds of a span, rounded down. Fails for a span of 2^62 ms or more.
impl TryFrom<Duration> for IdleTimeout {
    type Error = VarIntBoundsExceeded;

    fn try_from(span: Duration) -> Result<Self, VarIntBoundsExceeded>
        ensures { OkIff result (span / milliseconds < number_limit) (span / milliseconds) }
    {
        let millis = VarInt::try_from(span.as_nanos() / NANOS_PER_MILLI)?;
        Ok(IdleTimeout { millis })
    }
}
