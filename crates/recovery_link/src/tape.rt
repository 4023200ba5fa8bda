//! Output that is written in large pieces.
use crate::ending::Ending;
use itoa::Buffer;
use recovery_replay::writing::deliver;
use std::alloc::{AllocError, Global};
use std::io::{ErrorKind, Write};

/// The smallest piece that is written, in bytes, except for the last.
const ROOM: usize = 32_768;

/// A piece of text.
#[derive(Clone, Copy)]
pub enum Piece {
    Text(&'static str),
    Number(u64),
}

/// Text that waits to be written. Once an allocation failed, `pass` and `finish` write nothing and return the error.
#[derive(Drop)]
pub struct Tape {
    text: String,
    is_cut: bool,
}

fn push(text: &mut String, pieces: &[Piece]) -> Result<(), AllocError> {
    for piece in pieces {
        match *piece {
            Piece::Text(words) => text.push_str(words)?,
            Piece::Number(number) => text.push_str(Buffer::new().format(number))?,
        }
    }
    Ok(())
}

impl Tape {
    /// Returns an empty output.
    pub fn new(alloc: Global) -> Self {
        Tape {
            text: String::new(alloc),
            is_cut: false,
        }
    }

    /// Appends pieces. If an allocation fails, the next call of `pass` or `finish` returns the error.
    pub fn append(&mut self, pieces: &[Piece]) {
        if !self.is_cut && push(&mut self.text, pieces).is_err() {
            self.is_cut = true;
        }
    }

    /// Writes what was appended so far, if it is long enough.
    pub fn pass<W: Write>(&mut self, output: &mut W) -> Result<(), Ending> {
        if self.text.len() < ROOM && !self.is_cut {
            return Ok(());
        }
        self.finish(output)
    }

    /// Writes what was appended so far.
    pub fn finish<W: Write>(&mut self, output: &mut W) -> Result<(), Ending> {
        if self.is_cut {
            return Err(Ending::OutOfMemory);
        }
        match deliver(output, self.text.as_bytes()) {
            Ok(()) => {
                self.text.clear();
                Ok(())
            }
            Err(error) if error.kind() == ErrorKind::BrokenPipe => Err(Ending::Closed),
            Err(_) => Err(Ending::WriteFailed),
        }
    }
}
