//! A queue of item numbers.
ghost use Rattle.std.specs.Prelude.{◌≡◌, ◌<◌, ◌++◌, IfOk, OnOk, OnErr, length};
ghost use Rattle.recovery_queue.specs.Items.{item_words};

use crate::queue::RetransmitQueue;
use smallvec::SmallVec;
use std::alloc::{AllocError, Global};
use std::marker::Model;

/// How many items a queue stores without an allocation. Two take no more memory than one.
const INLINE: usize = 2;

/// The numbers of the items that a packet carries, in the order in which they were added (RFC 9000, 13.3). Up to two
/// are stored without an allocation: most packets carry one.
///
/// In contracts its value is the list of the items.
///
/// ```
/// let lost = ItemQueue::from_slice(rt.alloc(), &[3]);
/// let waiting = ItemQueue::from_slice(rt.alloc(), &[1, 2]);
/// let (Ok(mut lost), Ok(waiting)) = (lost, waiting) else {
///     panic!(&rt; "NoMemory");
/// };
/// // What was lost is sent again first.
/// assert!(&rt; lost.append(waiting).is_ok());
/// assert!(&rt; lost.items() == [3, 1, 2].as_slice());
/// ```
#[derive(Drop)]
pub struct ItemQueue {
    items: SmallVec<u64, INLINE>,
}

impl Model for ItemQueue {
    ghost use Rattle.std.specs.Prelude.{ℕ, List};

    ghost Value = { List ℕ };

    ghost view = { λ queue. queue.items.items };
}

impl ItemQueue {
    /// Returns a queue of these items. Does not allocate.
    pub fn from_items(items: Vec<u64>) -> Self
        ensures { result ≡ items.items }
    {
        ItemQueue {
            items: SmallVec::from_vec(items),
        }
    }

    /// Returns a queue with a copy of these items. Allocates only for three or more.
    pub fn from_slice(alloc: Global, items: &[u64]) -> Result<Self, AllocError>
        ensures items { IfOk result (λ queue. queue ≡ items.now) }
        ensures memory { OnErr result (2 < length items.now) }
    {
        if items.len() == 1 {
            // One item is common, and cheaper to push than a list is to copy.
            let mut one = SmallVec::new(alloc);
            one.push_reserved(items[0]);
            return Ok(ItemQueue { items: one });
        }
        Ok(ItemQueue {
            items: SmallVec::from_slice(alloc, items)?,
        })
    }

    /// Returns the items, in the order in which they were added.
    pub fn items(&self) -> &[u64]
        ensures { result.now ≡ self.now }
    {
        self.items.as_slice()
    }
}

/// Appends other items. `AllocError` changes nothing.
#[inline(never)]
fn join(
    items: &mut SmallVec<u64, INLINE>,
    others: &mut SmallVec<u64, INLINE>,
) -> Result<(), AllocError>
    ensures ok { OnOk result (items.new.items ≡ items.old.items ++ others.old.items) }
    ensures err { OnErr result ((items.new ≡ items.old) × (others.new ≡ others.old)) }
{
    if others.len() == 1 {
        // One item is common, and cheaper to push than a list is to move.
        items.reserve(1)?;
        items.push_reserved(others.as_slice()[0]);
        return Ok(());
    }
    items.append(others)
}

impl RetransmitQueue for ItemQueue {
    ghost use Rattle.std.specs.Prelude.{refl};
    ghost use Rattle.std.proofs.Common.{append-nil};

    type Streams = ();

    type Meta = ();

    type Contents = ItemQueue;

    ghost contents = { λ queue. queue };

    ghost words = { item_words };

    ghost blank = { tt };

    fn empty(alloc: Global) -> Self {
        ItemQueue {
            items: SmallVec::new(alloc),
        }
    }

    fn is_empty(&self, _streams: &()) -> bool {
        self.items.is_empty()
    }

    fn is_void(&self) -> bool {
        self.items.is_empty()
    }

    /// Appends the other queue's items. It allocates only if both queues have items, and three or more together.
    #[inline(always)]
    fn append(&mut self, mut other: Self) -> Result<(), Self> {
        if self.items.is_empty() {
            *self = other;
            return Ok(());
        }
        match join(&mut self.items, &mut other.items) {
            Ok(()) => Ok(()),
            Err(AllocError) => Err(other),
        }
    }

    ghost laws = { record {
      unit_left = λ items. refl;
      unit_right = λ items. append-nil items;
      empty_is_empty = λ streams. refl;
    } };

    ghost is_blank = { λ meta here. refl };
}
