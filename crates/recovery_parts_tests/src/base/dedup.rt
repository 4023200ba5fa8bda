//! Which packet numbers are new: worked rows, and the window compared with a plain program over a set.
ghost use Rattle.std.specs.Prelude.{◌<◌, ◌≤◌};
ghost use Rattle.recovery_base.specs.Units.{number_limit};

use crate::rows::{finds, holds};
use recovery_base::below::NoMemory;
use recovery_base::dedup::Dedup;
use std::alloc::Global;
use std::collections::BTreeSet;
use std::process::Abort;

const BOUND: u64 = 1 << 62;

/// The plain program: the numbers received, reduced to those at most 128 below the largest.
#[derive(Drop)]
struct Plain {
    recent: BTreeSet<u64>,
}

impl Plain {
    fn new(alloc: Global) -> Self {
        Plain {
            recent: BTreeSet::new(alloc),
        }
    }

    fn insert(&mut self, number: u64) -> Result<bool, NoMemory> {
        if self.is_duplicate(number) {
            return Ok(true);
        }
        self.recent.insert(number)?;
        if let Some(greatest) = self.recent.last() {
            let greatest = *greatest;
            self.recent
                .retain(|number| greatest.saturating_sub(*number) <= 128);
        }
        Ok(false)
    }

    fn is_duplicate(&self, number: u64) -> bool {
        self.is_too_old(number) || self.recent.contains(&number)
    }

    fn is_too_old(&self, number: u64) -> bool {
        match self.recent.last() {
            Some(greatest) => greatest.saturating_sub(number) > 128,
            None => false,
        }
    }

    fn smallest_missing(&self, low: u64, high: u64) -> Option<u64> {
        let greatest = match self.recent.last() {
            Some(greatest) => *greatest,
            None => return None,
        };
        for number in low.saturating_add(1).max(greatest.saturating_sub(128))..high {
            if !self.recent.contains(&number) {
                return Some(number);
            }
        }
        None
    }
}

/// Inserts a number. Returns whether it is a duplicate.
fn insert(rt: &impl Abort, dedup: &mut Dedup, number: u64) -> bool {
    assert!(rt; number < BOUND);
    dedup.insert(number)
}

/// Asserts for each number whether it is a duplicate.
fn walk(rt: &impl Abort, rows: &[(u64, bool)]) -> Dedup {
    let mut dedup = Dedup::new();
    for (number, wanted) in rows {
        let is_duplicate = insert(rt, &mut dedup, *number);
        finds(rt, *number, &is_duplicate, wanted);
    }
    dedup
}

/// Returns the smallest missing number of an interval, after a new number at or above its end.
fn missing_after(mut dedup: Dedup, greatest: u64, low: u64, high: u64) -> Option<u64>
    requires number { greatest < number_limit }
    requires ordered { low ≤ high }
    requires reached { high ≤ greatest }
{
    if dedup.insert(greatest) {
        return None;
    }
    dedup.smallest_missing_in_interval(low, high)
}

#[test]
fn answers_the_worked_rows(rt: HostRuntime) {
    static ROWS: [(u64, bool); 11] = [
        (0, false),
        (0, true),
        (1, false),
        (2, false),
        (4, false),
        (7, false),
        (4, true),
        (3, false),
        (258, false),
        (129, true),
        (130, false),
    ];
    walk(&rt, &ROWS);
}

#[test]
fn finds_the_least_missing(rt: HostRuntime) {
    static ROWS: [(u64, bool); 8] = [
        (0, false),
        (1, false),
        (5, false),
        (7, false),
        (2, false),
        (170, false),
        (172, false),
        (300, false),
    ];
    let dedup = walk(&rt, &ROWS);
    for (low, high, missing) in [(0, 500, Some(372)), (0, 373, Some(372)), (0, 372, None)] {
        assert!(rt; low <= high && high <= 500);
        finds(&rt, high, &missing_after(dedup, 500, low, high), &missing);
    }
}

/// Inserts one number into both, and compares an interval that ends at it.
fn compare(rt: &impl Abort, dedup: &mut Dedup, plain: &mut Plain, number: u64, low: u64) {
    let number = number.min(BOUND - 1);
    let before = *dedup;
    let duplicate = dedup.insert(number);
    holds(rt, plain.insert(number) == Ok(duplicate), number);
    if !duplicate && low < number {
        let missing = missing_after(before, number, low, number);
        let is_same = missing == plain.smallest_missing(low, number);
        holds(rt, is_same, low);
    }
}

/// Inserts some numbers into both, from the beginning on.
fn compare_all(rt: &impl Abort, alloc: Global, numbers: &[u64], low: u64) {
    let mut dedup = Dedup::new();
    let mut plain = Plain::new(alloc);
    for number in numbers {
        compare(rt, &mut dedup, &mut plain, *number, low);
    }
}

const NUMBERS: [u64; 14] = [
    0,
    1,
    2,
    3,
    127,
    128,
    129,
    130,
    131,
    257,
    258,
    260,
    BOUND - 2,
    BOUND - 1,
];

#[test]
fn is_the_plain_program_on_short_inputs(rt: HostRuntime) {
    for first in NUMBERS {
        for second in NUMBERS {
            for third in NUMBERS {
                let numbers = [first, second, third, first, 128, 0];
                compare_all(&rt, rt.alloc(), &numbers, second);
            }
        }
    }
}

/// Inserts two thousand numbers around those before, and around a start. Returns the generator's state.
fn compare_around(rt: &impl Abort, alloc: Global, start: u64, seed: u64) -> u64 {
    let mut random = seed;
    let mut dedup = Dedup::new();
    let mut plain = Plain::new(alloc);
    let mut greatest = start;
    for _ in 0..2000u32 {
        random = random
            .wrapping_mul(6364136223846793005)
            .wrapping_add(1442695040888963407);
        let step = (random >> 33) % 136;
        let number = if (random >> 60) == 0 {
            greatest.saturating_add(step)
        } else {
            greatest.saturating_sub(step)
        };
        greatest = greatest.max(number).min(BOUND - 1);
        let low = greatest.saturating_sub((random >> 40) % 140);
        compare(rt, &mut dedup, &mut plain, number, low);
    }
    random
}

#[test]
fn is_the_plain_program_around_each_boundary(rt: HostRuntime) {
    let mut random = 1u64;
    for start in [0u64, 1, 126, 127, 128, 129, 130, 1 << 32, BOUND - 400] {
        random = compare_around(&rt, rt.alloc(), start, random);
    }
}

/// The largest number before it moves.
const START: u64 = 299;

/// How far the largest number moves, and one further: by whole words, by bits, and out of the window.
const MOVES: [u64; 11] = [0, 1, 31, 32, 33, 63, 64, 96, 127, 128, 1 << 61];

/// Of the numbers before, each multiple of this is omitted.
const LEFT_OUT: [u64; 7] = [1000, 2, 3, 32, 33, 64, 97];

/// How far below the largest number an interval begins or ends: at both sides of each word's edge.
const EDGES: [u64; 19] = [
    0, 1, 2, 31, 32, 33, 34, 63, 64, 65, 66, 95, 96, 97, 98, 127, 128, 129, 130,
];

/// Asserts what is a duplicate in the window and below it.
fn compare_members(rt: &impl Abort, dedup: Dedup, plain: &Plain, greatest: u64) {
    for below in 0..=131u64 {
        let mut dedup = dedup;
        let number = greatest.saturating_sub(below);
        let is_same = insert(rt, &mut dedup, number) == plain.is_duplicate(number);
        holds(rt, is_same, number);
    }
}

/// Asserts what is missing between any two edges, after the largest number was inserted.
fn compare_intervals(rt: &impl Abort, before: Dedup, plain: &Plain, greatest: u64) {
    assert!(rt; greatest < BOUND);
    for first in EDGES {
        for last in EDGES {
            let low = greatest.saturating_sub(first.max(last));
            let high = greatest.saturating_sub(first.min(last));
            let missing = missing_after(before, greatest, low, high);
            let is_same = missing == plain.smallest_missing(low, high);
            holds(rt, is_same, low);
        }
    }
}

/// Compares the numbers before, followed by one this far above them.
fn compare_moved(rt: &impl Abort, alloc: Global, left_out: u64, by: u64) {
    let mut dedup = Dedup::new();
    let mut plain = Plain::new(alloc);
    for number in 0..=START {
        if number == START || number % left_out.max(1) != 0 {
            compare(rt, &mut dedup, &mut plain, number, START);
        }
    }
    let before = dedup;
    let greatest = START.saturating_add(by);
    compare(rt, &mut dedup, &mut plain, greatest, START);
    compare_members(rt, dedup, &plain, greatest);
    if by > 0 {
        compare_intervals(rt, before, &plain, greatest);
    }
}

#[test]
fn is_the_plain_program_across_the_words(rt: HostRuntime) {
    for by in MOVES {
        for left_out in LEFT_OUT {
            compare_moved(&rt, rt.alloc(), left_out, by);
            compare_moved(&rt, rt.alloc(), left_out, by + 1);
        }
    }
}
