//! A quantity that changes at given times: the rate of a link, or its delay.
ghost use Rattle.std.specs.Prelude.{◌≡◌, IfOk};
ghost use Rattle.recovery_network.specs.Schedules.{value_at};

use std::alloc::{AllocError, Global};

/// From a time on, in nanoseconds, the quantity has this value.
#[derive(Clone, Copy)]
pub struct Change {
    pub from: u64,
    pub value: u64,
}

/// A quantity over time.
#[derive(Drop)]
pub struct Schedule {
    first: u64,
    /// In order of time.
    changes: Vec<Change>,
}

/// Returns the value that holds at a time, if this one held before the changes.
fn value_at(first: u64, changes: &[Change], now: u64) -> u64
    ensures { result ≡ value_at first changes.now now }
{
    let mut value = first;
    for change in changes {
        if change.from <= now {
            value = change.value;
        }
    }
    value
}

impl Schedule {
    /// Returns a quantity with this value at first, and with these changes, in order of time.
    pub fn new(alloc: Global, first: u64, changes: &[Change]) -> Result<Self, AllocError>
        ensures { IfOk result (λ schedule. (schedule.first ≡ first)
            × (schedule.changes.items ≡ changes.now)) }
    {
        let mut all = Vec::with_capacity(alloc, changes.len())?;
        all.extend_from_slice(changes)?;
        Ok(Schedule {
            first,
            changes: all,
        })
    }

    /// Returns the value that holds at a time: that of the last change which is not after it. Cost: linear in the
    /// changes.
    pub fn at(&self, now: u64) -> u64
        ensures { result ≡ value_at self.now.first self.now.changes.items now }
    {
        value_at(self.first, self.changes.as_slice(), now)
    }
}
