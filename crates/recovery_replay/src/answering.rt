//! Writes the line of each answer immediately, and remembers why no more can be written.
ghost use Rattle.std.specs.Prelude.{◌≡◌, ◌++◌, ℕ, List, None, OnOk, decimal};
ghost use Rattle.recovery_replay.specs.Answering.{ExtendsText, TakesAnswer, WritesUpTo};
ghost use Rattle.recovery_replay.specs.Playing.{ending_of};
ghost use Rattle.recovery_script_syntax.specs.Answers.{items_text};

use crate::outcome::Outcome;
use crate::writing::deliver;
use itoa::Buffer;
use recovery_events::feeding::Sink;
use std::alloc::{AllocError, Global};
use std::io::Write;

/// How the answers of a program are written: a line for each.
pub trait AnswerLines {
    /// An answer.
    type Answer: Drop;

    /// The line of an answer, with its line feed.
    ghost line_of: { Self.Answer → List ℕ };

    /// Appends the line of an answer.
    fn push_line(alloc: Global, text: &mut String, answer: Self::Answer) -> Result<(), AllocError>
        ensures { OnOk result (ExtendsText text.old (line_of answer) text.new) };
}

/// Appends a text and a number.
pub fn push_number(text: &mut String, before: &str, number: u64) -> Result<(), AllocError>
    ensures { OnOk result (ExtendsText text.old (before.now ++ decimal number) text.new) }
{
    text.push_str(before)?;
    text.push_str(Buffer::new().format(number))
}

/// Appends numbers, with a space before each.
pub fn push_numbers(text: &mut String, numbers: &[u64]) -> Result<(), AllocError>
    ensures { OnOk result (ExtendsText text.old (items_text numbers.now) text.new) }
{
    for number in numbers {
        push_number(text, " ", *number)?;
    }
    Ok(())
}

/// The answers of a program, each written immediately.
#[derive(Drop)]
pub struct Answers<L, W> {
    alloc: Global,
    /// How they are written.
    lines: L,
    /// The last answer, whose memory is reused.
    text: String,
    /// The output.
    pub output: W,
    /// Why no more are written, if so.
    pub broken: Option<Outcome>,
}

impl<L, W> Answers<L, W> {
    /// Returns the answers to an output, before the first. Nothing is allocated.
    pub fn new(alloc: Global, lines: L, output: W) -> Self
        ensures { (result.output ≡ output) × (result.broken ≡ None) }
    {
        Answers {
            alloc,
            lines,
            text: String::new(alloc),
            output,
            broken: None,
        }
    }
}

/// Writes the line of an answer. Returns why it could not be written, if so.
fn write_answer<L: AnswerLines, W: Write>(
    alloc: Global,
    text: &mut String,
    output: &mut W,
    answer: L::Answer,
) -> Option<Outcome>
    ensures { WritesUpTo (W.contents output.old) (W.contents output.new) (L.line_of answer) result }
{
    text.clear();
    if L::push_line(alloc, text, answer).is_err() {
        return Some(Outcome::OutOfMemory);
    }
    match deliver(output, text.as_bytes()) {
        Ok(()) => None,
        Err(error) => Some(Outcome::of_failed_write(error)),
    }
}

impl<L: AnswerLines + Drop, W: Write> Sink<L::Answer> for Answers<L, W> {
    ghost takes = { λ old answer new. TakesAnswer (W.contents old.output) (W.contents new.output)
        (L.line_of answer) old.broken new.broken };

    fn put(&mut self, answer: L::Answer) -> bool {
        if self.broken.is_none() {
            self.broken = write_answer::<L, W>(
                self.alloc,
                &mut self.text,
                &mut self.output,
                answer,
            );
        }
        self.broken.is_none()
    }
}

/// Returns the outcome: why no more answers were written, if so, or else how the input ended. The answers ask for no
/// more only after a failure.
pub fn ending_of(broken: Option<Outcome>, ended: Option<Outcome>) -> Outcome
    ensures { result ≡ ending_of broken ended }
{
    match (broken, ended) {
        (Some(outcome), _) | (None, Some(outcome)) => outcome,
        (None, None) => Outcome::WriteFailed,
    }
}
