//! The report of a line that cannot be read.
ghost use Rattle.std.specs.Prelude.{◌≡◌, ◌≤◌, ◌++◌, true, min, IfOk, OnOk, length, string_bytes};
ghost use Rattle.recovery_replay.specs.Faults.{NamesWordOf};
ghost use Rattle.std.specs.Str.{IsAscii};
ghost use Rattle.recovery_script_syntax.specs.Forms.{IsLineOf};
ghost use Rattle.recovery_replay.specs.FaultReports.{ReportsFault, TellsFault, quoted, most_shown};

use crate::faults::{Fault, Grammar, fault_in};
use recovery_base::below::NoMemory;
use std::alloc::{AllocError, Global};
use std::str;

/// How many bytes of an invalid word are shown.
const SHOWN: usize = 64;

/// Returns whether the byte is a UTF-8 continuation byte.
fn is_inside(byte: u8) -> bool
    ensures { result ≡ true → 128 ≤ byte }
{
    (128..192).contains(&byte)
}

/// Returns how many bytes of a word are shown: at most 64, without splitting a character.
fn shown_len(word: &[u8]) -> usize
    ensures within { result ≤ min most_shown (length word.now) }
    ensures plain { IsAscii word.now → result ≡ min most_shown (length word.now) }
{
    if word.len() <= SHOWN {
        return word.len();
    }
    let mut end = SHOWN;
    while end > SHOWN - 4 && is_inside(word[end]) {
        end -= 1;
    }
    end
}

/// Appends a word between quotes, as far as it is shown: what is not UTF-8, byte by byte.
fn write_word(text: &mut String, word: &[u8]) -> Result<(), AllocError>
    ensures { OnOk result (IsAscii word.now
        → string_bytes text.new ≡ string_bytes text.old ++ quoted word.now) }
{
    let shown = &word[..shown_len(word)];
    match str::from_utf8(shown) {
        Ok(said) => write!(text, "{said:?}"),
        Err(_) => write!(text, "\"{}\"", shown.escape_ascii()),
    }
}

/// Appends the report of a fault of the line of this number.
fn write_fault<G: Grammar>(
    text: &mut String,
    line: &[u8],
    number: u64,
    fault: Fault,
) -> Result<(), AllocError>
    requires { NamesWordOf (IsLineOf G.encodes) line.now fault }
    ensures { OnOk result
        (TellsFault line.now number fault (string_bytes text.old) (string_bytes text.new)) }
{
    write!(text, "line {number}: ")?;
    match fault {
        Fault::TooLong => text.push_str("longer than 4096 bytes\n"),
        Fault::TooShort => text.push_str("words are missing behind the last one\n"),
        Fault::Word {
            number: word,
            start,
            end,
        } => {
            write!(text, "cannot read word {word}, ")?;
            write_word(text, &line[start..end])?;
            text.push_str("\n")
        }
    }
}

/// Returns the report of a line of this number that the grammar does not have.
pub fn fault_line<G: Grammar>(alloc: Global, line: &[u8], number: u64) -> Result<String, NoMemory>
    ensures { IfOk result
        (λ text. ReportsFault (IsLineOf G.encodes) line.now number (string_bytes text)) }
{
    let mut text = String::new(alloc);
    let fault = match fault_in::<G>(alloc, line) {
        Ok(fault) => fault,
        Err(refused) => return Err(refused),
    };
    match write_fault::<G>(&mut text, line, number, fault) {
        Ok(()) => Ok(text),
        Err(_) => Err(NoMemory),
    }
}
