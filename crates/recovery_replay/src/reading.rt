//! Reads an input line by line, in memory that does not grow with it.
ghost use Rattle.std.specs.Prelude.{◌≡◌, ◌≤◌, ◌++◌, ◌∷◌, [], IfErr, OnOk, MatchResult, length, take, ◌+◌};
ghost use Rattle.std.specs.Io.KnownBytes.{Keeps};
ghost use Rattle.recovery_replay.specs.declared.reading.Unread.TheVariants.{OutOfMemory, ReadFailed};
ghost use Rattle.recovery_replay.specs.Reading.{BreaksOff, IsByte, IsLine};
ghost use Rattle.recovery_script_syntax.specs.Words.{longest_line};

use recovery_script_syntax::lines::LINE_LIMIT;
use std::io::{ErrorKind, Read};

/// Bounds the loops that call a reader or a writer. The check requires that every loop ends, and these have no measure:
/// a reader may return bytes without end, and both may report interruptions without end. No run reaches this number.
pub const MAX_CALLS: u64 = u64::MAX;

/// How a line that was read ended.
#[derive(Clone, Copy)]
pub enum Next {
    /// By a line feed.
    Line,
    /// By the end of the input, after one byte or more.
    Last,
}

/// Why no line was read.
#[derive(Clone, Copy)]
pub enum Unread {
    /// A read failed.
    ReadFailed,
    /// An allocation failed.
    OutOfMemory,
}

/// Returns the next byte, or `None` at the end. A read that is interrupted is tried again.
fn next_byte<R: Read>(input: &mut R) -> Result<Option<u8>, Unread>
    ensures { MatchResult result (IsByte (R.remaining input.old) (R.remaining input.new))
        (λ unread. (unread ≡ ReadFailed)
        × Keeps (R.remaining input.old) (R.remaining input.new)) }
{
    let mut byte = [0u8; 1];
    for _ in 0..MAX_CALLS {
        match input.read(&mut byte) {
            Ok(0) => return Ok(None),
            Ok(_) => return Ok(Some(byte[0])),
            Err(error) => {
                if error.kind() != ErrorKind::Interrupted {
                    return Err(Unread::ReadFailed);
                }
            }
        }
    }
    Err(Unread::ReadFailed)
}

/// Appends a byte of a line, unless it has 4097 already.
fn keep(line: &mut Vec<u8>, byte: u8) -> Result<(), Unread>
    requires { length line.old.items ≤ longest_line + 1 }
    ensures kept { OnOk result (line.new.items
        ≡ take (longest_line + 1) (line.old.items ++ byte ∷ [])) }
    ensures memory { IfErr result (λ unread. unread ≡ OutOfMemory) }
{
    if line.len() > LINE_LIMIT {
        return Ok(());
    }
    match line.push(byte) {
        Ok(()) => Ok(()),
        Err(_) => Err(Unread::OutOfMemory),
    }
}

/// Reads one line into `line`, without its line feed. Of a line of more than 4096 bytes it stores the first 4097, which
/// show that it is too long. Returns `None` at the end of the input. If a read or an allocation fails, the bytes read
/// of the line are lost. A read that is interrupted is tried again.
pub fn next_line<R: Read>(input: &mut R, line: &mut Vec<u8>) -> Result<Option<Next>, Unread>
    ensures { MatchResult result
        (IsLine (R.remaining input.old) (R.remaining input.new) line.new.items)
        (BreaksOff (R.remaining input.old) (R.remaining input.new)) }
{
    line.clear();
    for _ in 0..MAX_CALLS {
        match next_byte(input) {
            Ok(None) if line.is_empty() => return Ok(None),
            Ok(None) => return Ok(Some(Next::Last)),
            Ok(Some(b'\n')) => return Ok(Some(Next::Line)),
            Ok(Some(byte)) => match keep(line, byte) {
                Ok(()) => {}
                Err(unread) => return Err(unread),
            },
            Err(unread) => return Err(unread),
        }
    }
    Err(Unread::ReadFailed)
}
