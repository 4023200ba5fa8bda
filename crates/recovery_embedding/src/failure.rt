//! Why the example ends early.
use quic_recovery::Refusal;
use quic_recovery::below::NoMemory;
use recovery_sender::SenderError;
use std::io;
use thiserror::Error;

/// Why the example ends early.
#[derive(Clone, Copy, Debug, Error)]
pub enum Failure {
    #[error("{0}")]
    SenderError(#[from] Refusal),
    #[error("the number was never sent")]
    Unsent,
    #[error("the space of 1-RTT packets is never discarded")]
    DataSpace,
    #[error("cannot be written: {0}")]
    Io(#[from] io::Error),
    #[error("{0}")]
    NoMemory(#[from] NoMemory),
}

impl From<SenderError> for Failure {
    fn from(refused: SenderError) -> Failure {
        match refused {
            SenderError::Event(refusal) => Failure::SenderError(refusal),
            SenderError::Unsent => Failure::Unsent,
            SenderError::DataSpace => Failure::DataSpace,
        }
    }
}
