//! The changes of a link over time, as arguments: `rate@2s=1M`, `delay@2s=50ms`.
use crate::amounts::{count_in, span_in};
use recovery_network::schedule::Change;
use std::alloc::{AllocFailed, Global};

/// The largest rate and span that can be chosen.
const MOST: u64 = 1_000_000_000_000;

/// What changes.
#[derive(Clone, Copy, PartialEq, Eq)]
enum Quantity {
    /// The rate of the link, in bits per second.
    Rate,
    /// The delay in each direction, in nanoseconds.
    Delay,
}

/// The changes of a link, each list in order of time.
#[derive(Drop)]
pub struct Changes {
    pub rates: Vec<Change>,
    pub delays: Vec<Change>,
}

/// Why the changes cannot be taken.
#[derive(Clone, Copy)]
pub enum Unfit {
    /// An allocation failed.
    OutOfMemory,
    /// The argument at this place is before a change of the same quantity.
    Order(usize),
}

impl From<AllocFailed<Change>> for Unfit {
    fn from(_: AllocFailed<Change>) -> Self {
        Unfit::OutOfMemory
    }
}

fn quantity_in(name: &str) -> Option<Quantity> {
    match name {
        "rate" => Some(Quantity::Rate),
        "delay" => Some(Quantity::Delay),
        _ => None,
    }
}

/// Parses an argument that is a change.
fn change_in(word: &str) -> Option<(Quantity, Change)> {
    let (name, value) = word.split_once('=')?;
    let (name, time) = name.split_once('@')?;
    let from = span_in(time, 0, MOST)?;
    let quantity = quantity_in(name)?;
    let value = match quantity {
        Quantity::Rate => count_in(value, 1, MOST)?,
        Quantity::Delay => span_in(value, 0, MOST)?,
    };
    Some((quantity, Change { from, value }))
}

/// Returns whether an argument is a change.
pub fn is_change(word: &str) -> bool {
    change_in(word).is_some()
}

/// Returns whether a change is not before the last one of these.
fn follows(changes: &[Change], change: Change) -> bool {
    match changes.last() {
        Some(last) => last.from <= change.from,
        None => true,
    }
}

/// Adds a change. Returns false if it is out of order.
fn add(changes: &mut Changes, quantity: Quantity, change: Change) -> Result<bool, Unfit> {
    let list = match quantity {
        Quantity::Rate => &mut changes.rates,
        Quantity::Delay => &mut changes.delays,
    };
    if !follows(list, change) {
        return Ok(false);
    }
    list.push(change)?;
    Ok(true)
}

/// Returns the changes among the arguments.
pub fn changes_of(alloc: Global, words: &[String]) -> Result<Changes, Unfit> {
    let mut changes = Changes {
        rates: Vec::new(alloc),
        delays: Vec::new(alloc),
    };
    let mut place = 0;
    for word in words {
        if let Some((quantity, change)) = change_in(word.as_str()) {
            if !add(&mut changes, quantity, change)? {
                return Err(Unfit::Order(place));
            }
        }
        place = place.saturating_add(1);
    }
    Ok(changes)
}
