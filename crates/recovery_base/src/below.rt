//! Items that a QUIC implementation has below its loss recovery.
mod frames;
mod ids;
mod ranges;

pub use frames::{
    AckFrequency, EcnCounts, TransportError, TransportParameters, VarInt, VarIntBoundsExceeded,
};
pub use ids::{ConnectionId, IssuedCid, NewConnectionId, ResetToken};
pub use ranges::ArrayRangeSet;
use std::alloc::{AllocError, AllocFailed};
use thiserror::Error;

/// A packet number space (RFC 9000, 12.3).
#[derive(Clone, Copy, PartialEq, Eq, PartialOrd, Ord)]
pub enum SpaceId {
    /// Initial packets.
    Initial,
    /// Handshake packets.
    Handshake,
    /// 0-RTT and 1-RTT packets.
    Data,
}

/// The one error for lack of memory: an allocation failed.
#[derive(Clone, Copy, Debug, PartialEq, Eq, Error)]
#[error("out of memory")]
pub struct NoMemory;

impl<T: Drop> From<AllocFailed<T>> for NoMemory {
    fn from(_refused: AllocFailed<T>) -> Self {
        NoMemory
    }
}

impl From<AllocError> for NoMemory {
    fn from(_refused: AllocError) -> Self {
        NoMemory
    }
}
