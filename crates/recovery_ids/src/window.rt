//! The IDs held for the numbers of a window.
ghost use Rattle.std.specs.Prelude.{◌≡◌, ℕ, ◌+◌, ◌<◌, ◌≤◌, ◌%◌, ◌==◌, Some, None, MatchOption, set, if◌then◌else◌};
ghost use Rattle.recovery_base.specs.Units.{number_limit};
ghost use Rattle.recovery_ids.specs.RemoteIds.{IsLeastHeld, with_id, without_below};
ghost use Rattle.recovery_ids.specs.Window.{held_at, FitsInWindow};

use recovery_base::below::{ConnectionId, ResetToken};

/// An ID, with its token if it has one.
pub type CidData = (ConnectionId, Option<ResetToken>);

/// The most IDs of the peer that are held. A power of two, so that finding a number's position needs no division.
pub const LEN: usize = 8;

/// The entries of `LEN` numbers from `start` on. The entry of a number is at its remainder modulo `LEN`.
#[derive(Drop)]
pub struct Window {
    entries: [Option<CidData>; LEN],
    start: u64,
}

/// Returns the position of a number's entry.
fn slot(number: u64) -> usize
    ensures { result ≡ number % LEN }
{
    (number % LEN as u64) as usize
}

/// Empties the entry of one of the `LEN` numbers from the window's start on.
fn clear(entries: &mut [Option<CidData>; LEN], start: u64, number: u64)
    requires { (start ≤ number) × (number < start + LEN) }
    ensures { entries.new ≡ set entries.old (number % LEN) None }
{
    entries[slot(number)] = None;
}

impl Window {
    /// Returns a window from number 0 on, which holds only this entry for it.
    pub fn new(entry: CidData) -> Self
        ensures start { result.start ≡ 0 }
        ensures entries { (n : ℕ) → held_at result n ≡ (if n == 0 then Some entry else None) }
    {
        let mut entries = [None; LEN];
        entries[0] = Some(entry);
        Window { entries, start: 0 }
    }

    /// Returns the first number of the window.
    pub fn start(&self) -> u64
        ensures { result ≡ self.now.start }
    {
        self.start
    }

    /// Returns the entry of a number: none outside the window.
    pub fn get(&self, number: u64) -> Option<CidData>
        ensures { result ≡ held_at self.now number }
    {
        if number < self.start || number - self.start >= LEN as u64 {
            return None;
        }
        self.entry(number)
    }

    /// Returns the entry of a number of the window.
    fn entry(&self, number: u64) -> Option<CidData>
        requires { FitsInWindow self.now number }
        ensures { result ≡ held_at self.now number }
    {
        self.entries[slot(number)]
    }

    /// Sets the entry of a number of the window.
    pub fn set(&mut self, number: u64, entry: CidData)
        requires { FitsInWindow self.old number }
        ensures start { self.new.start ≡ self.old.start }
        ensures entries { (n : ℕ) → held_at self.new n ≡ with_id number entry (held_at self.old) n }
    {
        self.entries[slot(number)] = Some(entry);
    }

    /// Moves the start up to a number, and drops the entries below. However far it moves, it empties at most `LEN`
    /// entries: those of numbers in the new window.
    pub fn drop_below(&mut self, low: u64)
        requires ahead { self.old.start ≤ low }
        requires small { low < number_limit }
        ensures start { self.new.start ≡ low }
        ensures entries { (n : ℕ) → held_at self.new n ≡ without_below low (held_at self.old) n }
    {
        // Entries below are out of reach once the start has moved. Numbers new in the window have no entry.
        let end = self.start + LEN as u64;
        for number in end.max(low)..low + LEN as u64 {
            clear(&mut self.entries, low, number);
        }
        self.start = low;
    }

    /// Returns the smallest number, not below another, that has an entry. It examines no number after the window.
    pub fn least_from(&self, low: u64) -> Option<u64>
        requires ahead { self.now.start ≤ low }
        requires small { self.now.start < number_limit }
        ensures { MatchOption result ((n : ℕ) → low ≤ n → held_at self.now n ≡ None)
            (IsLeastHeld (held_at self.now) low) }
    {
        for number in low..self.start + LEN as u64 {
            if self.entry(number).is_some() {
                return Some(number);
            }
        }
        None
    }
}
