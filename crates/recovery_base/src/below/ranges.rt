//! A set of numbers stored as ranges.
ghost use Rattle.std.specs.Prelude.{◌≡◌, ℕ, ◌+◌, ◌<◌, ◌==◌, ◌++◌, List, [], length, IfNone, IfOk, OnErr, IsErr, IsOk, MatchBool, ⊤};
ghost use Rattle.std.specs.Option.{option_to_list};
ghost use Rattle.std.specs.Slice.Iter.{iter_rest};
ghost use Rattle.std.specs.declared.ops.Range.{Range};
ghost use Rattle.recovery_base.specs.Ranges.{InRanges, AreApart, InsertsOne, Removes, IsSplitBy, IsPlace, clipped, cut_ranges};
ghost use Rattle.recovery_base.specs.Units.{number_limit};

use super::NoMemory;
use std::alloc::Global;
use std::marker::Model;
use std::ops::Range;
use std::slice::Iter;

/// A set of numbers, stored as ranges in ascending order that neither overlap nor touch.
///
/// In contracts its value is the list of the ranges.
#[derive(Clone, Drop)]
pub struct ArrayRangeSet {
    ranges: Vec<Range<u64>>,
}

impl Model for ArrayRangeSet {
    ghost use Rattle.std.specs.Prelude.{ℕ, List};
    ghost use Rattle.std.specs.declared.ops.Range.{Range};
    ghost use Rattle.recovery_base.specs.Ranges.{AreApart};

    ghost Value = { List (Range ℕ) };

    ghost view = { λ set. set.ranges.items };

    ghost invariant = { λ set. AreApart 0 set.ranges.items };
}

impl PartialEq for ArrayRangeSet {
    ghost use Rattle.std.specs.Prelude.{◌==◌, ◌&&◌};
    ghost use Rattle.std.proofs.Common.{rules};
    ghost use Rattle.std.specs.Cmp.Rules.{comparing};
    ghost use Rattle.std.specs.Cmp.Lexicographic.{pointwise, lists_per};

    ghost eq = { pointwise (λ x y. (x.start == y.start) && (x.end == y.end)) };

    ghost laws = { lists_per (Prim.search (comparing, rules)) };

    fn eq(&self, other: &Self) -> bool {
        self.ranges == other.ranges
    }
}

impl Eq for ArrayRangeSet {
    ghost use Rattle.std.proofs.Common.{rules};
    ghost use Rattle.std.specs.Cmp.Rules.{comparing};
    ghost use Rattle.std.specs.Cmp.Lexicographic.{lists_equiv};

    ghost laws = { lists_equiv (Prim.search (comparing, rules)) };
}

impl ArrayRangeSet {
    /// Returns the empty set. Does not allocate.
    pub fn new(alloc: Global) -> Self
        ensures { result ≡ [] }
    {
        ArrayRangeSet {
            ranges: Vec::new(alloc),
        }
    }

    /// Adds a number below 2^62. Returns whether it is new.
    ///
    /// `NoMemory` changes nothing; a number that is in the set allocates nothing. Cost: constant for a number in or
    /// above the last range, else a binary search of the ranges, plus a move of those above if a range is added or
    /// merged.
    pub fn insert_one(&mut self, x: u64) -> Result<bool, NoMemory>
        requires { x < number_limit }
        ensures inserts { IfOk result (λ new. InsertsOne self.old x new self.new) }
        ensures known_changes_nothing { IfOk result (λ new.
            MatchBool new ⊤ (self.new ≡ self.old)) }
        ensures only_new_takes_memory { IsErr result → ¬ InRanges self.old x }
        ensures err { OnErr result (self.new ≡ self.old) }
    {
        insert(&mut self.ranges, x)
    }

    /// Removes the numbers of a range. Returns whether the set had any of them.
    ///
    /// `NoMemory` changes nothing. It allocates only if one of the ranges has numbers on both sides of those removed: a
    /// removal that starts at 0 never does. Cost: linear in the ranges.
    pub fn remove(&mut self, range: Range<u64>) -> Result<bool, NoMemory>
        ensures removes { IfOk result (λ some.
            Removes self.old range.start range.end some self.new) }
        ensures none_changes_nothing { IfOk result (λ some.
            MatchBool some ⊤ (self.new ≡ self.old)) }
        ensures no_memory_from_zero { range.start ≡ 0 → IsOk result }
        ensures only_a_split_takes_memory { IsErr result →
            IsSplitBy self.old range.start range.end }
        ensures err { OnErr result (self.new ≡ self.old) }
    {
        remove(&mut self.ranges, range.start, range.end)
    }

    /// Removes and returns the lowest range.
    pub fn pop_min(&mut self) -> Option<Range<u64>>
        ensures lowest { self.old ≡ option_to_list result ++ self.new }
        ensures none { IfNone result (self.old ≡ []) }
        ensures apart { AreApart 0 self.old }
    {
        if self.ranges.is_empty() {
            return None;
        }
        Some(self.ranges.remove(0))
    }

    /// Returns the number of ranges.
    pub fn len(&self) -> usize
        ensures { result ≡ length self.now }
    {
        self.ranges.len()
    }

    /// Returns whether the set is empty.
    pub fn is_empty(&self) -> bool
        ensures numbers { MatchBool result
            ((n : ℕ) → ¬ InRanges self.now n)
            ((n : ℕ) × InRanges self.now n) }
    {
        self.ranges.is_empty()
    }

    /// Returns the ranges in order.
    pub fn iter(&self) -> Iter<'_, Range<u64>>
        ensures rest { iter_rest result ≡ self.now }
        ensures apart { AreApart 0 self.now }
    {
        self.ranges.iter()
    }
}

/// Returns the position of the first range that ends at a number or above it.
fn place(ranges: &[Range<u64>], x: u64) -> usize
    requires { AreApart 0 ranges.now }
    ensures { IsPlace ranges.now x result }
{
    // Numbers are mostly received in order: the last range is tried before the search.
    let Some(last) = ranges.last() else {
        return 0;
    };
    if last.end < x {
        return ranges.len();
    }
    if last.start <= x {
        return ranges.len() - 1;
    }
    ranges.partition_point(|range| range.end < x)
}

fn insert(ranges: &mut Vec<Range<u64>>, x: u64) -> Result<bool, NoMemory>
    requires small { x < number_limit }
    requires apart { AreApart 0 ranges.old.items }
    ensures inserts { IfOk result (λ new. InsertsOne ranges.old.items x new ranges.new.items) }
    ensures known_changes_nothing { IfOk result (λ new.
        MatchBool new ⊤ (ranges.new.items ≡ ranges.old.items)) }
    ensures only_new_takes_memory { IsErr result → ¬ InRanges ranges.old.items x }
    ensures err { OnErr result (ranges.new.items ≡ ranges.old.items) }
{
    let at = place(ranges, x);
    if at == ranges.len() {
        ranges.push(x..x + 1)?;
        return Ok(true);
    }
    let (start, end) = (ranges[at].start, ranges[at].end);
    if x + 1 < start {
        ranges.insert(at, x..x + 1)?;
    } else if x + 1 == start {
        ranges[at].start = x;
    } else if x < end {
        return Ok(false);
    } else if at + 1 < ranges.len() && ranges[at + 1].start == x + 1 {
        let next = ranges.remove(at + 1);
        ranges[at].end = next.end;
    } else {
        ranges[at].end = x + 1;
    }
    Ok(true)
}

fn remove(ranges: &mut Vec<Range<u64>>, start: u64, end: u64) -> Result<bool, NoMemory>
    requires { AreApart 0 ranges.old.items }
    ensures removes { IfOk result (λ some.
        Removes ranges.old.items start end some ranges.new.items) }
    ensures none_changes_nothing { IfOk result (λ some.
        MatchBool some ⊤ (ranges.new.items ≡ ranges.old.items)) }
    ensures no_memory_from_zero { start ≡ 0 → IsOk result }
    ensures only_a_split_takes_memory { IsErr result → IsSplitBy ranges.old.items start end }
    ensures err { OnErr result (ranges.new.items ≡ ranges.old.items) }
{
    if start >= end {
        return Ok(false);
    }
    let at = place(ranges, start + 1);
    if at == ranges.len() {
        return Ok(false);
    }
    let (first, last) = (ranges[at].start, ranges[at].end);
    if end <= first {
        return Ok(false);
    }
    if first < start && end < last {
        ranges.insert(at + 1, end..last)?;
        ranges[at].end = start;
    } else {
        cut(ranges, start, end);
    }
    Ok(true)
}

/// Removes the numbers from `start` up to `end` from each range, none of which has numbers on both sides.
fn cut(ranges: &mut Vec<Range<u64>>, start: u64, end: u64)
    ensures { ranges.new.items ≡ cut_ranges start end ranges.old.items }
{
    for range in ranges.iter_mut() {
        clip(range, start, end);
    }
    ranges.retain(|range| range.start < range.end);
}

fn clip(range: &mut Range<u64>, start: u64, end: u64)
    ensures { range.new ≡ clipped start end range.old }
{
    if range.start < start {
        range.end = range.end.min(start);
    } else {
        range.start = range.start.max(end);
    }
}
