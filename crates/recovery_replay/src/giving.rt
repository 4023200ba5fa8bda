//! Reads an input line by line and passes the item of each line to a sink.
ghost use Rattle.std.specs.Prelude.{◌≡◌};
ghost use Rattle.recovery_replay.specs.Giving.{GivesItems, GivesLine, TellsLine, YieldsItems};

use crate::fault_reports::fault_line;
use crate::faults::{Grammar, is_silent};
use crate::outcome::Outcome;
use crate::reading::{Next, next_line};
use crate::script::Ending;
use crate::writing::deliver;
use recovery_events::feeding::{Sink, Source};
use std::alloc::Global;
use std::io::{Read, Write};

/// The lines of an input as items of a grammar, up to the first line that encodes none, which is reported.
#[derive(Drop)]
pub struct Lines<'a, G, R, E> {
    /// For one line.
    pub alloc: Global,
    /// The grammar.
    pub grammar: G,
    /// The input.
    pub input: &'a mut R,
    /// The stream to which a line that cannot be read is reported.
    pub errors: &'a mut E,
    /// How the input ended; `None` if the sink asked for no more.
    pub outcome: Option<Outcome>,
}

impl<'a, G: Grammar + Drop, R: Read, E: Write> Source<G::Item> for Lines<'a, G, R, E> {
    ghost gives = { λ old items new. (new.input.ghost_name ≡ old.input.ghost_name)
        × (new.errors.ghost_name ≡ old.errors.ghost_name)
        × GivesItems G.encodes (R.remaining old.input.now) (R.remaining new.input.now)
        (E.contents old.errors.now) (E.contents new.errors.now) items new.outcome };

    fn feed<S: Sink<G::Item>>(&mut self, sink: &mut S) {
        self.outcome = give_all::<G, R, S, E>(self.alloc, self.input, sink, self.errors);
    }
}

/// Reports the line of this number that encodes no item, as far as it can be written.
fn report_line<G: Grammar, E: Write>(
    alloc: Global,
    line: &[u8],
    number: u64,
    errors: &mut E,
) -> Outcome
    ensures { TellsLine G.encodes (E.contents errors.old) (E.contents errors.new)
        line.now number result }
{
    match fault_line::<G>(alloc, line, number) {
        Ok(text) => {
            let _told = deliver(errors, text.as_bytes());
            Outcome::Ended(Ending::BadLine(number))
        }
        Err(_) => Outcome::OutOfMemory,
    }
}

/// Passes the item of a line to a sink, unless the line is empty or a comment. Returns whether the sink asks for more,
/// or how the input ends.
fn give<G: Grammar, S: Sink<G::Item>, E: Write>(
    alloc: Global,
    line: &[u8],
    number: u64,
    sink: &mut S,
    errors: &mut E,
) -> Result<bool, Outcome>
    ensures { YieldsItems S.takes (λ items. GivesLine G.encodes (E.contents errors.old)
        (E.contents errors.new) line.now number items result) sink.old sink.new }
{
    if is_silent(line) {
        return Ok(true);
    }
    match G::item_in(alloc, line) {
        Ok(Some(item)) => Ok(sink.put(item)),
        Ok(None) => Err(report_line::<G, E>(alloc, line, number, errors)),
        Err(_) => Err(Outcome::OutOfMemory),
    }
}

/// Passes the items of an input to a sink, while that asks for more. Returns how the input ended.
fn give_all<G: Grammar, R: Read, S: Sink<G::Item>, E: Write>(
    alloc: Global,
    input: &mut R,
    sink: &mut S,
    errors: &mut E,
) -> Option<Outcome>
    ensures { YieldsItems S.takes (λ items. GivesItems G.encodes (R.remaining input.old)
        (R.remaining input.new) (E.contents errors.old) (E.contents errors.new) items result)
        sink.old sink.new }
{
    let mut line = Vec::new(alloc);
    for number in 1..u64::MAX {
        let next = match next_line(input, &mut line) {
            Ok(Some(next)) => next,
            Ok(None) => return Some(Outcome::Ended(Ending::Whole)),
            Err(unread) => return Some(Outcome::from(unread)),
        };
        match give::<G, S, E>(alloc, &line, number, sink, errors) {
            Ok(true) => {}
            Ok(false) => return None,
            Err(outcome) => return Some(outcome),
        }
        if let Next::Last = next {
            return Some(Outcome::Ended(Ending::Whole));
        }
    }
    Some(Outcome::Ended(Ending::ReadFailed))
}
