//! Slots that are read one by one, and counted.
ghost use Rattle.std.specs.Prelude.{◌≡◌, ◌+◌, ◌<◌, length, slice_index_or};

use super::Slot;
use std::collections::VecDeque;

/// Reads slots. Only `look` returns one, so the count is of all slots that were read.
#[derive(Drop)]
pub struct Looks<'a, T> {
    slots: &'a VecDeque<Slot<T>>,
    count: u32,
}

impl<'a, T> Looks<'a, T> {
    /// Returns a reader of these slots that has read none.
    #[inline(always)]
    pub fn over(slots: &'a VecDeque<Slot<T>>) -> Self
        ensures slots { result.slots.now ≡ slots.now }
        ensures none { result.count ≡ 0 }
    {
        Looks { slots, count: 0 }
    }

    /// Returns how many slots were read.
    pub fn count(&self) -> u32
        ensures { result ≡ self.now.count }
    {
        self.count
    }

    /// Reads the slot at a position.
    #[inline(always)]
    pub fn look(&mut self, place: usize) -> &'a Slot<T>
        requires within { place < length self.old.slots.now.items }
        requires few { self.old.count < 64 }
        ensures slot { result.now ≡ slice_index_or self.old.slots.now.items place result.now }
        ensures slots { self.new.slots.now ≡ self.old.slots.now }
        ensures counted { self.new.count ≡ self.old.count + 1 }
    {
        self.count += 1;
        &self.slots[place]
    }
}
