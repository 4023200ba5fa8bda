//! Why no picture is written.

use recovery_base::below::NoMemory;
use recovery_replay::arguments::ArgumentsError;
use std::alloc::AllocError;
use std::io;
use thiserror::Error;

/// Why no picture is written.
#[derive(Clone, Copy, Debug, Error)]
pub enum Failure {
    #[error("usage: recovery-pictures connection [from=TIME] [to=TIME] [over=WINDOW] [SEED [WINDOW]] | tunnel")]
    Usage,
    #[error("line {0}: cannot be read")]
    BadLine(u64),
    #[error("line {0}: not 'SIZE yes' or 'SIZE no'")]
    BadMeasurement(u64),
    #[error("no line 'over' between two scripts")]
    NoSecond,
    #[error("recovery-pictures: the text is not UTF-8")]
    NotUtf8,
    #[error("the input cannot be read")]
    Input,
    #[error("out of memory")]
    NoMemory,
    #[error("{0}")]
    Io(#[from] io::Error),
}

impl Failure {
    /// Returns the exit status: 2 if the arguments or the text cannot be parsed, else 1.
    pub fn status(&self) -> u8 {
        match self {
            Failure::Usage
            | Failure::BadLine(_)
            | Failure::BadMeasurement(_)
            | Failure::NoSecond
            | Failure::NotUtf8 => 2,
            _ => 1,
        }
    }
}

impl From<NoMemory> for Failure {
    fn from(_: NoMemory) -> Self {
        Failure::NoMemory
    }
}

impl From<AllocError> for Failure {
    fn from(_: AllocError) -> Self {
        Failure::NoMemory
    }
}

impl From<ArgumentsError> for Failure {
    fn from(error: ArgumentsError) -> Self {
        match error {
            ArgumentsError::OutOfMemory => Failure::NoMemory,
            ArgumentsError::Unreadable => Failure::Usage,
        }
    }
}
