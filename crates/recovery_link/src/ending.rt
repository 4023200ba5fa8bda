//! How the program ends.
use recovery_base::below::NoMemory;
use recovery_events::event::Refusal;
use recovery_network::ack::AckPacket;
use recovery_sender::SenderError;
use std::alloc::{AllocError, AllocFailed};

/// How the program ends.
#[derive(Clone, Copy)]
pub enum Ending {
    /// Success.
    Ended,
    /// A schedule cannot be opened, or a read failed.
    ReadFailed,
    /// A write failed.
    WriteFailed,
    /// The reader closed the pipe.
    Closed,
    /// An allocation failed.
    OutOfMemory,
    /// A call of the sender failed, which no transfer causes.
    SenderError,
    /// The arguments are no text; nothing was written.
    WrongArguments,
    /// An argument cannot be read, which was reported.
    Refused,
}

impl Ending {
    /// Returns the exit status: 0 on success, 2 if the arguments are wrong, else 1. A closed pipe is no failure.
    pub fn status(self) -> u8 {
        match self {
            Ending::Ended | Ending::Closed => 0,
            Ending::WrongArguments | Ending::Refused => 2,
            Ending::ReadFailed | Ending::WriteFailed | Ending::OutOfMemory | Ending::SenderError =>
                1,
        }
    }

    /// Returns what is wrong, with a line feed at the end; empty on success.
    pub fn text(self) -> &'static str {
        match self {
            Ending::Ended | Ending::Closed | Ending::Refused => "",
            Ending::ReadFailed => "link: read failed\n",
            Ending::WriteFailed => "link: write failed\n",
            Ending::OutOfMemory => "link: out of memory\n",
            Ending::SenderError => "link: the sender refused a call\n",
            Ending::WrongArguments => {
                "usage: recovery-link [--script|--qlog] [NAME=VALUE]..: --help has names and limits\n"
            }
        }
    }
}

impl From<NoMemory> for Ending {
    fn from(_: NoMemory) -> Self {
        Ending::OutOfMemory
    }
}

impl From<AllocError> for Ending {
    fn from(_: AllocError) -> Self {
        Ending::OutOfMemory
    }
}

impl From<AllocFailed<u64>> for Ending {
    fn from(_: AllocFailed<u64>) -> Self {
        Ending::OutOfMemory
    }
}

impl From<AllocFailed<AckPacket>> for Ending {
    fn from(_: AllocFailed<AckPacket>) -> Self {
        Ending::OutOfMemory
    }
}

impl From<SenderError> for Ending {
    fn from(refused: SenderError) -> Self {
        match refused {
            SenderError::Event(Refusal::NoMemory) => Ending::OutOfMemory,
            _ => Ending::SenderError,
        }
    }
}
