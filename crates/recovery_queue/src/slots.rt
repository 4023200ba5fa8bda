//! A queue of slots in the order of their numbers.
ghost use Rattle.std.specs.Prelude.{◌≡◌, ℕ, ◌+◌, ◌-◌, ◌^◌, ◌<◌, ◌≤◌, ◌∷◌, ◌++◌, [], length, drop, filter, slice_index_or, Some, None, Decides, IfSome, IfNone, IfOk, OnOk, OnErr, MatchOption, MatchResult};
ghost use Rattle.std.specs.VecDeque.{deque_len, deque_capacity};
ghost use Rattle.std.specs.Option.{is_some, option_copied, option_map_or};
ghost use Rattle.std.specs.Ordering.{nat_cmp};
ghost use Rattle.std.specs.BTreeMap.{is_at};
ghost use Rattle.std.specs.Map.{remove_entry};
ghost use Rattle.recovery_queue.specs.Slots.{entries_in, item_at, AreSlotsIncreasing, IsFiledAt, IsNumberAt, Divides, Encloses, IsHeldAt, IsEmptyAt, IsAboveAll, IsClosedUp, IsFrontEmpty, IsBackFrom, Replaces, ExchangesPart, ExchangesAt, IsIncreasing, LeavesNoneOut, IsFirst, IsFirstWith, IsLast, FindsSlot, IsWithinDigits, CompactsSlots, RemovesSlot, trimmed, AreFrom, IsWithinWalk, entries_from, first_entry, first_number, is_below, is_filled};

mod looks;

use looks::Looks;
use std::alloc::{AllocError, Global};
use std::collections::VecDeque;
use std::marker::Model;
use std::mem;

/// How many slots may be empty in addition to as many as are filled.
const SLACK: usize = 64;

/// A slot of the queue: the item stored under its number, or nothing once that was removed.
#[derive(Drop)]
struct Slot<T> {
    number: u64,
    item: Option<T>,
}

/// An item with a part that can be exchanged for another in place.
pub trait Exchange<P> {
    /// What an exchange does to the item and to the part.
    ghost exchanged: { Self → P → Self → P → Type 0 };

    /// Exchanges the part.
    fn exchange(&mut self, part: &mut P)
        ensures { exchanged self.old part.old self.new part.new };
}

/// Items stored under increasing numbers.
///
/// In contracts its value is the slots. A removed item leaves its slot empty, until empty slots are closed up.
#[derive(Drop)]
pub struct SlotQueue<T> {
    slots: VecDeque<Slot<T>>,
    filled: usize,
    first: u64,
    last: u64,
}

impl<T> Model for SlotQueue<T> {
    ghost use Rattle.std.specs.Prelude.{List};
    ghost use Rattle.recovery_queue.specs.declared.slots.Slot.{Slot};
    ghost use Rattle.recovery_queue.specs.Slots.{IsSlotQueueSound};

    ghost Value = { List (Slot T) };

    ghost view = { λ a. a.slots.items };

    ghost invariant = { λ a. IsSlotQueueSound a.slots.items a.filled a.first a.last };
}

impl<T: Drop> SlotQueue<T> {
    /// Returns an empty queue. It does not allocate; `push` does.
    pub fn new(alloc: Global) -> Self
        ensures { result ≡ [] }
    {
        SlotQueue {
            slots: VecDeque::new(alloc),
            filled: 0,
            first: 0,
            last: 0,
        }
    }

    /// Returns how many slots there are, filled and empty.
    pub fn len(&self) -> usize
        ensures { result ≡ length self.now }
    {
        self.slots.len()
    }

    /// Returns how many slots are filled.
    pub fn filled(&self) -> usize
        ensures count { result ≡ length (entries_in self.now) }
        ensures few { length (entries_in self.now) < 2 ^ 63 }
    {
        self.filled
    }

    /// Returns the item in the slot at a position, with its number.
    pub fn get(&self, place: usize) -> Option<(u64, &T)>
        requires { place < length self.now }
        ensures slot { MatchOption result (IsEmptyAt self.now place)
            (λ found. IsFiledAt self.now found.0 place found.1.now) }
        ensures divides { IfSome result (λ found. Divides self.now found.0 place) }
    {
        let slot = &self.slots[place];
        match &slot.item {
            Some(item) => Some((slot.number, item)),
            None => None,
        }
    }

    /// Returns the position of a number among slots whose numbers have no gaps, if it is one of these numbers. Reads no
    /// slot.
    #[inline(always)]
    fn gapless_place(&self, number: u64) -> Option<usize>
        ensures number { IfSome result (IsNumberAt self.now number) }
        ensures divides { IfSome result (Divides self.now number) }
        ensures rises { IsIncreasing self.now }
    {
        if number < self.first || number > self.last {
            return None;
        }
        if (self.last - self.first) as usize >= self.len() {
            return None;
        }
        Some((number - self.first) as usize)
    }

    /// Returns the position of the slot of a number, filled or empty. `None` if nothing is stored under the number.
    #[inline(always)]
    fn place_of(&self, number: u64) -> Option<usize>
        ensures number { MatchOption result (item_at self.now number ≡ None)
            (IsNumberAt self.now number) }
        ensures rises { IsIncreasing self.now }
    {
        match self.gapless_place(number) {
            Some(place) => Some(place),
            None => self.search(number).0.ok(),
        }
    }

    /// Returns the item stored under a number. Cost: as `find`.
    #[inline(always)]
    pub fn item_of(&self, number: u64) -> Option<&T>
        ensures { option_copied result ≡ item_at self.now number }
    {
        let place = self.place_of(number)?;
        match &self.slots[place].item {
            Some(item) => Some(item),
            None => None,
        }
    }

    /// Returns two positions that enclose a number: slots before the first have lower numbers, and from the second on
    /// higher ones. If the numbers have no gaps these enclose at most one position.
    fn range_of(&self, number: u64) -> (usize, usize)
        ensures encloses { Encloses self.now number result.0 result.1 }
        ensures one { LeavesNoneOut self.now → result.1 ≤ result.0 + 1 }
        ensures rises { IsIncreasing self.now }
        ensures few { length self.now < 2 ^ 63 }
    {
        let len = self.len();
        if number < self.first {
            return (0, 0);
        }
        if number > self.last {
            return (len, len);
        }
        let above = (number - self.first) as usize;
        let below = (self.last - number) as usize;
        let low = len.saturating_sub(below.saturating_add(1));
        let high = above.saturating_add(1).min(len);
        (low, high)
    }

    /// Returns the position of the item stored under a number, or, in `Err`, the first position whose number is not
    /// below it, and how many slots were read.
    #[inline(never)]
    fn search(&self, number: u64) -> (Result<usize, usize>, u32)
        ensures held { MatchResult result.0
            (λ place. (item : T) × IsHeldAt self.now number place item)
            (λ place. item_at self.now number ≡ None) }
        ensures divides { MatchResult result.0 (Divides self.now number) (Divides self.now number) }
        ensures looks { IsWithinDigits result.1 (length self.now) }
        ensures one { LeavesNoneOut self.now → result.1 ≤ 1 }
        ensures seen { IfOk result.0 (λ _. 0 < result.1) }
    {
        let (low, high) = self.range_of(number);
        let mut looks = Looks::over(&self.slots);
        let place = halve(&mut looks, number, low, high);
        (place, looks.count())
    }

    /// Returns the position of the item stored under a number, and how many slots were read. These are at most as many
    /// as the count of slots has binary digits, and at most one if the numbers have no gaps.
    pub fn find(&self, number: u64) -> (Option<usize>, u32)
        ensures { FindsSlot self.now number result }
    {
        let Some(place) = self.gapless_place(number) else {
            let (place, looks) = self.search(number);
            return (place.ok(), looks);
        };
        let mut looks = Looks::over(&self.slots);
        match &looks.look(place).item {
            Some(_) => (Some(place), looks.count()),
            None => (None, looks.count()),
        }
    }

    /// Returns the first position whose number is not below this one, or a position after all slots if there is none,
    /// and how many slots were read.
    #[inline(always)]
    fn start_of(&self, number: u64) -> (usize, u32)
        ensures divides { Divides self.now number result.0 }
        ensures looks { IsWithinDigits result.1 (length self.now) }
    {
        if number < self.first {
            return (0, 0);
        }
        if let Some(place) = self.gapless_place(number) {
            return (place, 0);
        }
        let (place, looks) = self.search(number);
        match place {
            Ok(place) => (place, looks),
            Err(place) => (place, looks),
        }
    }

    /// Returns the first position whose number is not below this one; if there is none, the count of slots, or more.
    #[inline(always)]
    pub fn place_from(&self, number: u64) -> usize
        ensures entries { entries_in (drop result self.now) ≡ entries_from number self.now }
        ensures divides { Divides self.now number result }
    {
        let (place, _) = self.start_of(number);
        place
    }

    /// Returns an upper bound on how many items are stored below a number. It is at most the count of all items. Cost:
    /// as `find`.
    #[inline(always)]
    pub fn filled_below(&self, number: u64) -> usize
        ensures enough { length (filter (is_below number) (entries_in self.now)) ≤ result }
        ensures most { result ≤ length (entries_in self.now) }
    {
        self.place_from(number).min(self.filled)
    }

    /// Puts another item, or none, into the slot at a position, and returns what was in it.
    #[inline(always)]
    fn replace(&mut self, place: usize, item: Option<T>) -> Option<T>
        requires { place < length self.old }
        ensures { Replaces self.old place item result self.new }
    {
        self.filled += usize::from(item.is_some());
        let slot = &mut self.slots[place];
        let old = mem::replace(&mut slot.item, item);
        self.filled -= usize::from(old.is_some());
        old
    }

    /// Exchanges a part of the item stored under a number. The item is not moved. Returns false and changes nothing if
    /// nothing is stored under the number. Cost: that of `find`, plus the exchange.
    #[inline(always)]
    pub fn exchange<P>(&mut self, number: u64, part: &mut P) -> bool
    where
        T: Exchange<P>,
        ensures found { result ≡ is_some (item_at self.old number) }
        ensures after { ExchangesAt T.exchanged self.old number part.old self.new part.new }
    {
        let Some(place) = self.place_of(number) else {
            return false;
        };
        let slot = &mut self.slots[place];
        exchange_in(&mut slot.item, part)
    }

    /// Makes room for this many more slots, with at most one allocation: pushes do not allocate until they are used.
    ///
    /// `AllocError` changes nothing. If no slot is requested, nothing is allocated.
    pub fn reserve(&mut self, count: usize) -> Result<(), AllocError>
        ensures slots { self.new ≡ self.old }
        ensures memory { OnErr result (0 < count) }
    {
        if count == 0 {
            return Ok(());
        }
        self.slots.reserve(count)
    }

    /// Stores an item under a number above all numbers in use, any `u64`.
    ///
    /// `AllocError` changes nothing, and drops the item. Cost: constant, plus one step for each empty slot at the end
    /// with that number or a higher one, which is dropped. If the slots need more room they are moved.
    #[inline(always)]
    pub fn push(&mut self, number: u64, item: T) -> Result<(), AllocError>
        requires { IsAboveAll (entries_in self.old) number }
        ensures ok { OnOk result
            (entries_in self.new ≡ entries_in self.old ++ (number, item) ∷ []) }
        ensures one_more { OnOk result (length self.new ≤ length self.old + 1) }
        ensures err { OnErr result (self.new ≡ self.old) }
    {
        self.slots.reserve(1)?;
        cut(&mut self.slots, self.last, number);
        self.first = first_with(&self.slots, self.first, number);
        self.slots.push_back_reserved(Slot {
            number,
            item: Some(item),
        });
        self.last = number;
        self.filled += 1;
        Ok(())
    }

    /// Removes and returns the item stored under a number. Empty slots are closed up if there are too many.
    #[inline(always)]
    pub fn take(&mut self, number: u64) -> Option<T>
        ensures value { result ≡ item_at self.old number }
        ensures entries { entries_in self.new
            ≡ remove_entry (is_at (nat_cmp number)) (entries_in self.old) }
        ensures bound { IfSome result (λ _. IsClosedUp self.new) }
        ensures closes { IfSome result (λ item. RemovesSlot self.old item self.new) }
        ensures none { IfNone result (self.new ≡ self.old) }
    {
        let place = self.place_of(number)?;
        let item = self.replace(place, None);
        if item.is_some() {
            self.close_up();
        }
        item
    }

    /// Removes and returns the item with the lowest number. Empty slots are closed up if there are too many.
    pub fn pop_first(&mut self) -> Option<(u64, T)>
        ensures entries { MatchOption result (entries_in self.old ≡ [])
            (λ entry. entries_in self.old ≡ entry ∷ entries_in self.new) }
        ensures bound { IfSome result (λ _. IsClosedUp self.new) }
        ensures closes { IfSome result (λ entry. RemovesSlot self.old entry.1 self.new) }
        ensures none { IfNone result (self.new ≡ self.old) }
    {
        let number = self.first_from(0)?;
        let item = self.take(number)?;
        Some((number, item))
    }

    /// Returns the item with the lowest number that is not below another, with its number. Cost: that of `find`, plus
    /// the empty slots that are passed over.
    pub fn entry_from(&self, number: u64) -> Option<(u64, &T)>
        ensures first { MatchOption result (first_entry (entries_from number self.now) ≡ None)
            (λ found. first_entry (entries_from number self.now) ≡ Some (found.0, found.1.now)) }
        ensures lowest { IfSome result (λ found. AreFrom found.0 (entries_from number self.now)) }
    {
        for place in self.place_from(number)..self.len() {
            if let Some(found) = self.get(place) {
                return Some(found);
            }
        }
        None
    }

    /// Returns the item with the lowest number that is not below `from` and is below `end`, with its number, and how
    /// many slots were read. Cost: that of `find`, plus one step for each slot between the first number and the one
    /// found, or the end.
    #[inline(always)]
    pub fn entry_between(&self, from: u64, end: u64) -> (Option<(u64, &T)>, usize)
        ensures none { IfNone result.0 (AreFrom end (entries_from from self.now)) }
        ensures first { IfSome result.0 (λ found. (found.0 < end)
            × (first_entry (entries_from from self.now) ≡ Some (found.0, found.1.now))) }
        ensures lowest { IfSome result.0 (λ found. AreFrom found.0 (entries_from from self.now)) }
        ensures looks { IsWithinWalk self.now from
            (option_map_or (λ found. found.0) result.0 end) result.1 }
    {
        if from >= end {
            return (None, 0);
        }
        if self.first >= end {
            return (None, 0);
        }
        let Some(place) = self.gapless_place(from) else {
            let (start, looks) = self.start_of(from);
            return self.walk_between(from, end, start, looks);
        };
        match &self.slots[place].item {
            Some(item) => (Some((from, item)), 1),
            None => self.walk_between(from, end, place, 1),
        }
    }

    /// Returns what `entry_between` returns, by reading the slots from a position on, after this many slots were read.
    #[inline(never)]
    fn walk_between(
        &self,
        from: u64,
        end: u64,
        start: usize,
        looks: u32,
    ) -> (Option<(u64, &T)>, usize)
        requires divides { Divides self.now from start }
        requires few { IsWithinDigits looks (length self.now) }
        ensures none { IfNone result.0 (AreFrom end (entries_from from self.now)) }
        ensures first { IfSome result.0 (λ found. (found.0 < end)
            × (first_entry (entries_from from self.now) ≡ Some (found.0, found.1.now))) }
        ensures lowest { IfSome result.0 (λ found. AreFrom found.0 (entries_from from self.now)) }
        ensures looks { IsWithinWalk self.now from
            (option_map_or (λ found. found.0) result.0 end) result.1 }
    {
        let looks = looks as usize;
        for place in start..self.len() {
            let slot = &self.slots[place];
            let looked = looks + (place - start) + 1;
            if slot.number >= end {
                return (None, looked);
            }
            if let Some(item) = &slot.item {
                return (Some((slot.number, item)), looked);
            }
        }
        (None, looks + self.len().saturating_sub(start))
    }

    /// Returns the lowest number in use that is not below another.
    pub fn first_from(&self, number: u64) -> Option<u64>
        ensures first { result ≡ first_number (entries_from number self.now) }
        ensures lowest { IfSome result (λ found. AreFrom found (entries_from number self.now)) }
    {
        match self.entry_from(number) {
            Some((found, _)) => Some(found),
            None => None,
        }
    }

    /// Closes up empty slots: those before the first filled one always, the others if there are too many.
    #[inline(always)]
    fn close_up(&mut self)
        ensures entries { entries_in self.new ≡ entries_in self.old }
        ensures closes { CompactsSlots self.old self.new }
    {
        self.first = trim(&mut self.slots, self.first);
        if self.slots.len() - self.filled > self.filled + SLACK {
            keep_filled(&mut self.slots);
            self.last = last_of(&self.slots, self.last);
        }
    }
}

/// Returns the position of the item stored under a number, or, in `Err`, the first position whose number is not below
/// it, between two positions.
#[inline(always)]
fn halve<T>(looks: &mut Looks<'_, T>, number: u64, from: usize, to: usize) -> Result<usize, usize>
    requires fresh { looks.old.count ≡ 0 }
    requires encloses { Encloses looks.old.slots.now.items number from to }
    requires rises { IsIncreasing looks.old.slots.now.items }
    requires few { length looks.old.slots.now.items < 2 ^ 63 }
    ensures held { MatchResult result
        (λ place. (item : T) × IsHeldAt looks.old.slots.now.items number place item)
        (λ place. item_at looks.old.slots.now.items number ≡ None) }
    ensures divides { MatchResult result (Divides looks.old.slots.now.items number)
        (Divides looks.old.slots.now.items number) }
    ensures looks { IsWithinDigits looks.new.count (to - from) }
    ensures seen { IfOk result (λ _. 0 < looks.new.count) }
{
    let (mut low, mut high) = (from, to);
    while low < high {
        let middle = low + (high - low) / 2;
        let slot = looks.look(middle);
        if slot.number < number {
            low = middle + 1;
        } else if slot.number > number {
            high = middle;
        } else if slot.item.is_some() {
            return Ok(middle);
        } else {
            return Err(middle);
        }
    }
    Err(low)
}

/// Exchanges a part of an item, if there is one. Returns whether there is.
#[inline(always)]
fn exchange_in<T: Exchange<P>, P>(item: &mut Option<T>, part: &mut P) -> bool
    ensures found { result ≡ is_some item.old }
    ensures filled { result ≡ is_some item.new }
    ensures after { ExchangesPart T.exchanged item.old part.old item.new part.new }
{
    match item {
        Some(item) => {
            item.exchange(part);
            true
        }
        None => false,
    }
}

/// Drops the empty slots before the first filled one. Returns the number of that one, or `first` if there is none.
#[inline(always)]
fn trim<T: Drop>(slots: &mut VecDeque<Slot<T>>, first: u64) -> u64
    ensures trimmed { slots.new.items ≡ trimmed slots.old.items }
    ensures first { IsFirst result slots.new.items }
{
    while let Some(slot) = slots.front() {
        if slot.item.is_some() {
            return slot.number;
        }
        slots.pop_front();
    }
    first
}

/// Drops the empty slots. Does not allocate.
fn keep_filled<T: Drop>(slots: &mut VecDeque<Slot<T>>)
    ensures { slots.new.items ≡ filter is_filled slots.old.items }
{
    slots.retain(|slot| slot.item.is_some());
}

/// Returns the number of the last slot, or `last` if there is none.
fn last_of<T>(slots: &VecDeque<Slot<T>>, last: u64) -> u64
    ensures { IsLast result slots.now.items }
{
    match slots.back() {
        Some(slot) => slot.number,
        None => last,
    }
}

/// Returns the number of the first slot after one more slot is appended.
fn first_with<T>(slots: &VecDeque<Slot<T>>, first: u64, number: u64) -> u64
    ensures rising { AreSlotsIncreasing first slots.now.items number
        → (result ≤ number) × AreSlotsIncreasing result slots.now.items number }
    ensures first { IsFirst first slots.now.items → IsFirstWith result slots.now.items number }
{
    if slots.is_empty() { number } else { first }
}

/// Drops the slots from a number on, all of which are empty. None has a number above the last.
#[inline(always)]
fn cut<T: Drop>(slots: &mut VecDeque<Slot<T>>, last: u64, number: u64)
    requires { IsAboveAll (entries_in slots.old.items) number }
    ensures entries { entries_in slots.new.items ≡ entries_in slots.old.items }
    ensures rising { (first : ℕ) → AreSlotsIncreasing first slots.old.items (last + 1)
        → AreSlotsIncreasing first slots.new.items number }
    ensures first { (first : ℕ) → IsFirst first slots.old.items → IsFirst first slots.new.items }
    ensures fewer { deque_len slots.new ≤ deque_len slots.old }
    ensures capacity { deque_capacity slots.new ≡ deque_capacity slots.old }
{
    if number <= last {
        cut_back(slots, number);
    }
}

/// Drops the slots from a number on, all of which are empty.
fn cut_back<T: Drop>(slots: &mut VecDeque<Slot<T>>, number: u64)
    requires { IsAboveAll (entries_in slots.old.items) number }
    ensures entries { entries_in slots.new.items ≡ entries_in slots.old.items }
    ensures rising { (first end : ℕ) → AreSlotsIncreasing first slots.old.items end
        → AreSlotsIncreasing first slots.new.items number }
    ensures first { (first : ℕ) → IsFirst first slots.old.items → IsFirst first slots.new.items }
    ensures fewer { deque_len slots.new ≤ deque_len slots.old }
    ensures capacity { deque_capacity slots.new ≡ deque_capacity slots.old }
{
    while is_back_from(slots, number) {
        slots.pop_back();
    }
}

/// Returns whether the last slot has this number or a higher one.
fn is_back_from<T>(slots: &VecDeque<Slot<T>>, number: u64) -> bool
    ensures { Decides result (IsBackFrom number slots.now.items) }
{
    match slots.back() {
        Some(slot) => slot.number >= number,
        None => false,
    }
}
