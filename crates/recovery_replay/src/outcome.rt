//! How a program that reads lines ends: its exit status, and what it writes to standard error.
ghost use Rattle.std.specs.Prelude.{◌≡◌, ◌≤◌, OnOk, length};
ghost use Rattle.std.specs.Io.KnownBytes.{Appends};
ghost use Rattle.recovery_replay.specs.Outcomes.{IsBroken, outcome_of, outcome_text, status_of};
ghost use Rattle.recovery_replay.specs.Writing.{AppendsFront};

use crate::reading::Unread;
use crate::script::Ending;
use crate::writing::deliver;
use arrayvec::ArrayString;
use itoa::Buffer;
use std::io;
use std::io::{ErrorKind, Write};

/// How a program ends.
#[derive(Clone, Copy)]
pub enum Outcome {
    /// The answers were written, and the input ended so.
    Ended(Ending),
    /// A write of the answers failed; a prefix of them was written.
    WriteFailed,
    /// The reader closed the pipe for the answers; a prefix of them was written.
    Closed,
    /// An allocation failed.
    OutOfMemory,
    /// The arguments are wrong; nothing was read or written.
    WrongArguments,
}

impl From<Unread> for Outcome {
    ghost from_gives = { λ unread outcome. outcome ≡ outcome_of unread };

    fn from(unread: Unread) -> Self {
        match unread {
            Unread::ReadFailed => Outcome::Ended(Ending::ReadFailed),
            Unread::OutOfMemory => Outcome::OutOfMemory,
        }
    }
}

impl Outcome {
    /// Returns the outcome of a write that failed.
    pub fn of_failed_write(error: io::Error) -> Outcome
        ensures { IsBroken result }
    {
        if error.kind() == ErrorKind::BrokenPipe {
            Outcome::Closed
        } else {
            Outcome::WriteFailed
        }
    }

    /// Returns the exit status: 0 on success, 2 if the arguments or a line are wrong, 1 if a read, a write or an
    /// allocation failed. A closed pipe is no failure.
    pub fn status(self) -> u8
        ensures { result ≡ status_of self }
    {
        match self {
            Outcome::Ended(Ending::Whole) | Outcome::Closed => 0,
            Outcome::Ended(Ending::BadLine(_)) | Outcome::WrongArguments => 2,
            Outcome::Ended(Ending::ReadFailed) | Outcome::WriteFailed | Outcome::OutOfMemory => 1,
        }
    }

    /// Returns what is wrong, with a line feed at the end; empty on success. `program` is the name before each text (16
    /// bytes at most), `usage` the text for wrong arguments (128 bytes at most). It does not allocate.
    pub fn text(self, program: &str, usage: &str) -> ArrayString<128>
        requires program { length program.now ≤ 16 }
        requires usage { length usage.now ≤ 128 }
        ensures { result.bytes ≡ outcome_text program.now usage.now self }
    {
        let mut text = ArrayString::new();
        match self {
            Outcome::Ended(Ending::Whole) | Outcome::Closed => {}
            Outcome::Ended(Ending::BadLine(number)) => {
                text.push_str("line ");
                text.push_str(Buffer::new().format(number));
                text.push_str(": cannot be read\n");
            }
            Outcome::Ended(Ending::ReadFailed) => {
                text.push_str(program);
                text.push_str(": read failed\n");
            }
            Outcome::WriteFailed => {
                text.push_str(program);
                text.push_str(": write failed\n");
            }
            Outcome::OutOfMemory => {
                text.push_str(program);
                text.push_str(": out of memory\n");
            }
            Outcome::WrongArguments => text.push_str(usage),
        }
        text
    }

    /// Writes the text. After a failure a prefix of it was written.
    pub fn report<E: Write>(self, program: &str, usage: &str, errors: &mut E) -> io::Result<()>
        requires program { length program.now ≤ 16 }
        requires usage { length usage.now ≤ 128 }
        ensures whole { OnOk result (Appends (E.contents errors.old) (E.contents errors.new)
            (outcome_text program.now usage.now self)) }
        ensures front { AppendsFront (E.contents errors.old) (E.contents errors.new)
            (outcome_text program.now usage.now self) }
    {
        deliver(errors, self.text(program, usage).as_str().as_bytes())
    }
}
