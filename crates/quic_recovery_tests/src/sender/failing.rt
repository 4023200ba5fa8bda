//! A queue for which allocation fails on demand.
ghost use Rattle.std.specs.Prelude.{◌≡◌, refl};
ghost use Rattle.recovery_queue.specs.Items.{item_words};

use recovery_queue::items::ItemQueue;
use recovery_queue::queue::RetransmitQueue;
use std::alloc::Global;
use std::marker::Model;

/// The items of a packet. The first times that they are to join others allocation fails, as often as requested.
///
/// In contracts its value is the list of the items.
#[derive(Drop)]
pub struct FailingQueue {
    items: ItemQueue,
    failures: u32,
}

impl Model for FailingQueue {
    ghost use Rattle.std.specs.Prelude.{ℕ, List};

    ghost Value = { List ℕ };

    ghost view = { λ queue. queue.items };
}

impl FailingQueue {
    /// Returns a queue of these items. Allocation fails this often before they join others.
    pub fn new(items: Vec<u64>, failures: u32) -> Self
        ensures { result ≡ items.items }
    {
        FailingQueue {
            items: ItemQueue::from_items(items),
            failures,
        }
    }

    /// Returns the items, in the order in which they were added.
    pub fn items(&self) -> &[u64]
        ensures { result.now ≡ self.now }
    {
        self.items.items()
    }
}

impl RetransmitQueue for FailingQueue {
    ghost use Rattle.std.proofs.Common.{append-nil};

    type Streams = ();

    type Meta = ();

    type Contents = FailingQueue;

    ghost contents = { λ queue. queue };

    ghost words = { item_words };

    ghost blank = { tt };

    fn empty(alloc: Global) -> Self {
        FailingQueue {
            items: ItemQueue::empty(alloc),
            failures: 0,
        }
    }

    fn is_empty(&self, streams: &()) -> bool {
        self.items.is_empty(streams)
    }

    fn append(&mut self, other: Self) -> Result<(), Self> {
        if other.failures > 0 {
            return Err(FailingQueue {
                items: other.items,
                failures: other.failures - 1,
            });
        }
        match self.items.append(other.items) {
            Ok(()) => Ok(()),
            Err(items) => Err(FailingQueue { items, failures: 0 }),
        }
    }

    ghost laws = { record {
      unit_left = λ items. refl;
      unit_right = λ items. append-nil items;
      empty_is_empty = λ streams. refl;
    } };

    ghost is_blank = { λ meta here. refl };
}
