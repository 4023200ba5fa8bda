//! Why a line of an input cannot be read: the report names the first word that fits no line.
ghost use Rattle.std.specs.Prelude.{◌≡◌, ◌≤◌, ℕ, List, IfOk, IsTrue, MatchBool, length};
ghost use Rattle.recovery_replay.specs.Faults.{IsPrefix, EndsWord, NamesWordOf, IsSilent};
ghost use Rattle.recovery_script_syntax.specs.Forms.{IsItemOf, IsLineOf};
ghost use Rattle.recovery_script_syntax.specs.Words.{longest_line};

use recovery_base::below::NoMemory;
use recovery_script_syntax::lines::LINE_LIMIT;
use std::alloc::Global;

/// A line may end in a list. These lists are tried: an empty one, and those of one to three numbers.
const ENDS: [&str; 4] = ["", " 0", " 0 0", " 0 0 0"];

/// The grammar of the lines that a program reads: each line encodes an item, or none.
pub trait Grammar {
    /// What a line encodes.
    type Item: Drop;

    /// Whether a line encodes an item.
    ghost encodes: { List ℕ → Self.Item → Type 0 };

    /// Such a line has at most 4096 bytes.
    ghost are_short: { (line : List ℕ) (item : Self.Item) → encodes line item
        → length line ≤ longest_line };

    /// Returns a line of the grammar whose first word is this name, if there is one. Its other words are examples.
    fn example_of(name: &[u8]) -> Option<&'static [u8]>;

    /// Returns the item of a line, given without its line feed, or `None` if the line encodes none.
    fn item_in(alloc: Global, line: &[u8]) -> Result<Option<Self::Item>, NoMemory>
        ensures { IfOk result (IsItemOf encodes line.now) };
}

/// Why a line cannot be read.
#[derive(Clone, Copy)]
pub enum Fault {
    /// It has more than 4096 bytes.
    TooLong,
    /// Words are missing at its end.
    TooShort,
    /// A word does not fit its place, or is one too many.
    Word {
        /// Which word of the line, counted from 1.
        number: u64,
        /// Its start, in bytes from the line's first.
        start: usize,
        /// Its end.
        end: usize,
    },
}

/// Returns whether the line is empty or a comment.
pub fn is_silent(line: &[u8]) -> bool
    ensures { MatchBool result (IsSilent line.now) (¬ IsSilent line.now) }
{
    line.is_empty() || line[0] == b'#'
}

/// Returns the end of the word of a line that begins at a place.
fn word_end(line: &[u8], start: usize) -> usize
    requires { start ≤ length line.now }
    ensures { EndsWord line.now start result }
{
    let mut end = start;
    while end < line.len() && line[end] != b' ' {
        end += 1;
    }
    end
}

/// Returns the first of some lines whose first word is this name, if any.
pub fn line_named(lines: &[&'static str], name: &[u8]) -> Option<&'static [u8]> {
    for line in lines {
        let bytes = line.as_bytes();
        if &bytes[..word_end(bytes, 0)] == name {
            return Some(bytes);
        }
    }
    None
}

/// Returns what follows the first word of bytes that may begin with a space.
fn behind_word(words: &[u8]) -> &[u8] {
    if words.is_empty() {
        return words;
    }
    &words[word_end(words, 1)..]
}

/// Returns whether these parts are a line.
fn is_joined<G: Grammar>(
    alloc: Global,
    front: &[u8],
    behind: &[u8],
    end: &[u8],
) -> Result<bool, NoMemory>
    ensures { IfOk result (λ is. IsTrue is → IsPrefix (IsLineOf G.encodes) front.now) }
{
    let mut line = Vec::new(alloc);
    line.extend_from_slice(front)?;
    line.extend_from_slice(behind)?;
    line.extend_from_slice(end)?;
    let item = G::item_in(alloc, &line)?;
    Ok(item.is_some())
}

/// Returns whether these bytes begin a line, with this continuation or a longer one.
fn begins<G: Grammar>(alloc: Global, front: &[u8], behind: &[u8]) -> Result<bool, NoMemory>
    ensures { IfOk result (λ does. IsTrue does → IsPrefix (IsLineOf G.encodes) front.now) }
{
    for end in ENDS {
        if is_joined::<G>(alloc, front, behind, end.as_bytes())? {
            return Ok(true);
        }
    }
    Ok(false)
}

/// Returns the first word of a line that cannot continue as the example does.
fn fault_beside<G: Grammar>(alloc: Global, line: &[u8], example: &[u8]) -> Result<Fault, NoMemory>
    requires { length line.now ≤ longest_line }
    ensures { IfOk result (NamesWordOf (IsLineOf G.encodes) line.now) }
{
    let mut behind = example;
    let mut start = 0;
    let mut number = 1;
    while start <= line.len() {
        let end = word_end(line, start);
        behind = behind_word(behind);
        match begins::<G>(alloc, &line[..end], behind) {
            Ok(true) => {}
            Ok(false) => return Ok(Fault::Word { number, start, end }),
            Err(refused) => return Err(refused),
        }
        start = end + 1;
        number += 1;
    }
    Ok(Fault::TooShort)
}

/// Returns why a line that the grammar does not have cannot be read. What precedes the reported word begins a line of
/// the grammar.
pub fn fault_in<G: Grammar>(alloc: Global, line: &[u8]) -> Result<Fault, NoMemory>
    ensures { IfOk result (NamesWordOf (IsLineOf G.encodes) line.now) }
{
    if line.len() > LINE_LIMIT {
        return Ok(Fault::TooLong);
    }
    let end = word_end(line, 0);
    match G::example_of(&line[..end]) {
        Some(example) => fault_beside::<G>(alloc, line, example),
        None => Ok(Fault::Word {
            number: 1,
            start: 0,
            end,
        }),
    }
}
