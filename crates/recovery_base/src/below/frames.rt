//! The integers, frames and parameters that loss recovery reads.
ghost use Rattle.std.specs.Prelude.{◌≡◌, ℕ, ◌-◌, ◌<◌, None, Some, MatchResult, OnOk, OnErr, nat_lt};
ghost use Rattle.std.specs.Result.{OkIff};
ghost use Rattle.recovery_base.specs.Ecn.{ecn_fault};
ghost use Rattle.recovery_base.specs.Units.{number_limit};
ghost use Rattle.recovery_base.specs.Errors.{protocol_violation};

use std::marker::Model;
use thiserror::Error;

/// A variable-length integer: 0 to 2^62 - 1 (RFC 9000, 16).
///
/// In contracts its value is the plain number.
#[derive(Clone, Copy, PartialEq, Eq, PartialOrd, Ord, Hash)]
pub struct VarInt {
    value: u64,
}

impl Model for VarInt {
    ghost Value = { ℕ };

    ghost view = { λ number. number.value };

    ghost invariant = { λ number. number.value < number_limit };

    ghost inverse = { λ n. record { value = n } };
}

impl Default for VarInt {
    ghost is_default = { λ number. number ≡ 0 };

    fn default() -> Self {
        VarInt { value: 0 }
    }
}

impl VarInt {
    /// The largest one: 2^62 - 1.
    pub const MAX: VarInt = VarInt {
        value: 4_611_686_018_427_387_903,
    };

    /// Returns the integer; any `u32` fits.
    pub fn from_u32(value: u32) -> Self
        ensures { result ≡ value }
    {
        VarInt {
            value: u64::from(value),
        }
    }

    /// Returns the integer, 0 to 2^62 - 1 (RFC 9000, 16). 2^62 or more fails with `VarIntBoundsExceeded`.
    pub fn from_u64(value: u64) -> Result<Self, VarIntBoundsExceeded>
        ensures { OkIff result (value < number_limit) value }
    {
        if value > Self::MAX.value {
            return Err(VarIntBoundsExceeded);
        }
        Ok(VarInt { value })
    }

    /// Returns the number, below 2^62.
    pub fn into_inner(self) -> u64
        ensures value { result ≡ self }
        ensures bound { result < number_limit }
    {
        self.value
    }
}

/// Fails for 2^62 or more.
impl TryFrom<u128> for VarInt {
    type Error = VarIntBoundsExceeded;

    fn try_from(value: u128) -> Result<Self, VarIntBoundsExceeded>
        ensures { OkIff result (value < number_limit) value }
    {
        match u64::try_from(value) {
            Ok(value) => Self::from_u64(value),
            Err(_) => Err(VarIntBoundsExceeded),
        }
    }
}

/// A number is 2^62 or more.
#[derive(Clone, Copy, Debug, PartialEq, Eq, Error)]
#[error("value too large for a variable-length integer")]
pub struct VarIntBoundsExceeded;

/// The request of an ACK_FREQUENCY frame (draft-ietf-quic-ack-frequency-04, section 4).
#[derive(Clone, Copy, PartialEq, Eq)]
pub struct AckFrequency {
    /// Its sequence number.
    pub sequence: VarInt,
    /// How many ack-eliciting packets may be received without an immediate ACK.
    pub ack_eliciting_threshold: VarInt,
    /// The longest delay of an ACK, in microseconds.
    pub request_max_ack_delay: VarInt,
    /// How far out of order a packet may be without an immediate ACK; 0 turns this off.
    pub reordering_threshold: VarInt,
}

/// An error that closes the connection (RFC 9000, 20.1).
#[derive(Clone, Copy, Debug, PartialEq, Eq, Error)]
#[error("{reason}")]
pub struct TransportError {
    /// The error code on the wire.
    pub code: u64,
    /// What happened, as text.
    pub reason: &'static str,
}

impl TransportError {
    /// Returns a PROTOCOL_VIOLATION: code 10.
    pub fn PROTOCOL_VIOLATION(reason: &'static str) -> Self
        ensures code { result.code ≡ protocol_violation }
        ensures reason { result.reason.now ≡ reason.now }
    {
        TransportError { code: 10, reason }
    }
}

/// The peer's transport parameters of ACK delays (RFC 9000, 18.2; draft-ietf-quic-ack-frequency-04, section 3).
#[derive(Clone, Copy, PartialEq, Eq)]
pub struct TransportParameters {
    /// The smallest delay that may be requested from it, in microseconds.
    pub min_ack_delay: Option<VarInt>,
    /// The longest delay of its ACKs, in milliseconds.
    pub max_ack_delay: VarInt,
}

/// How many packets a peer reports as received with each ECN codepoint, in total (RFC 9000, 19.3.2).
#[derive(Clone, Copy, PartialEq, Eq, Default)]
pub struct EcnCounts {
    /// Packets received with ECT(0).
    pub ect0: u64,
    /// Packets received with ECT(1).
    pub ect1: u64,
    /// Packets received with CE (Congestion Experienced).
    pub ce: u64,
}

impl EcnCounts {
    /// No packet with any codepoint.
    pub const ZERO: EcnCounts = EcnCounts {
        ect0: 0,
        ect1: 0,
        ce: 0,
    };

    /// Checks the counts of an ACK frame against these, which are those of the last one (RFC 9000, 13.4.2.1).
    /// `newly_acked` is how many packets sent with ECT(0) the frame is the first to acknowledge.
    ///
    /// A path that erases or rewrites codepoints hides congestion. It shows in counts that increase by less than what
    /// was acknowledged, and ECN must then be disabled. A larger increase is valid: it is for packets whose ACK frames
    /// were lost.
    ///
    /// `Ok` stores the new counts and returns whether CE increased: packets were marked for congestion. `Err` stores
    /// nothing and returns the first of these faults, as text. One of the three counts decreased ("peer ECT(0) count
    /// regression", "peer ECT(1) count regression", "peer CE count regression"). The three increased by less than
    /// `newly_acked` together ("ECN bleaching"). ECT(0) and CE did so, or ECT(1) increased ("ECN corruption").
    pub fn detect(&mut self, newly_acked: u64, counts: EcnCounts) -> Result<bool, &'static str>
        ensures result { MatchResult result
            (λ marked. (ecn_fault self.old newly_acked counts ≡ None)
            × (marked ≡ nat_lt self.old.ce counts.ce))
            (λ text. ecn_fault self.old newly_acked counts ≡ Some text.now) }
        ensures taken { OnOk result (self.new ≡ counts) }
        ensures kept { OnErr result (self.new ≡ self.old) }
    {
        if counts.ect0 < self.ect0 {
            return Err("peer ECT(0) count regression");
        }
        if counts.ect1 < self.ect1 {
            return Err("peer ECT(1) count regression");
        }
        if counts.ce < self.ce {
            return Err("peer CE count regression");
        }
        let newly_acked = u128::from(newly_acked);
        let rise = u128::from(counts.ect0 - self.ect0) + u128::from(counts.ce - self.ce);
        if rise + u128::from(counts.ect1 - self.ect1) < newly_acked {
            return Err("ECN bleaching");
        }
        if rise < newly_acked || counts.ect1 > self.ect1 {
            return Err("ECN corruption");
        }
        let marked = counts.ce > self.ce;
        *self = counts;
        Ok(marked)
    }
}
