//! A queue and a controller that allocate in each call that may fail, while those of the program seldom or never do.
ghost use Rattle.std.specs.Prelude.{◌≡◌, refl};
ghost use Rattle.std.proofs.Common.{zero-le};
ghost use Rattle.recovery_parts_tests.specs.Halving.{halving_made, halving_words, IsHalvingSound, halving_laws};

use recovery_base::below::NoMemory;
use recovery_base::time::Instant;
use recovery_congestion::congestion::{Controller, ControllerFactory, ControllerMetrics};
use recovery_congestion::rtt::RttEstimator;
use recovery_parts_tests::halving::{Halving, HalvingConfig};
use recovery_queue::items::ItemQueue;
use recovery_queue::queue::RetransmitQueue;
use std::alloc::Global;
use std::marker::Model;

/// Allocates some memory and frees it. Returns whether that failed.
fn is_refused(alloc: Global) -> bool {
    let mut asked = Vec::new(alloc);
    asked.push(0u64).is_err()
}

/// Numbers of items, as those of the program, except that each `append` allocates.
///
/// In contracts its value is the list of the items.
#[derive(Drop)]
pub struct ScarceQueue {
    items: ItemQueue,
    alloc: Global,
}

impl Model for ScarceQueue {
    ghost use Rattle.std.specs.Prelude.{ℕ, List};

    ghost Value = { List ℕ };

    ghost view = { λ queue. queue.items };
}

impl ScarceQueue {
    /// Returns a queue of these items.
    pub fn from_items(items: Vec<u64>) -> Self
        ensures { result ≡ items.items }
    {
        let alloc = *items.allocator();
        ScarceQueue {
            items: ItemQueue::from_items(items),
            alloc,
        }
    }

    /// Returns the items, in the order in which they were added.
    pub fn items(&self) -> &[u64]
        ensures { result.now ≡ self.now }
    {
        self.items.items()
    }
}

impl RetransmitQueue for ScarceQueue {
    ghost use Rattle.std.proofs.Common.{append-nil};
    ghost use Rattle.recovery_queue.specs.Items.{item_words};

    type Streams = ();

    type Meta = ();

    type Contents = ScarceQueue;

    ghost contents = { λ queue. queue };

    ghost words = { item_words };

    ghost blank = { tt };

    fn empty(alloc: Global) -> Self {
        ScarceQueue {
            items: ItemQueue::empty(alloc),
            alloc,
        }
    }

    fn is_empty(&self, streams: &()) -> bool {
        self.items.is_empty(streams)
    }

    fn append(&mut self, other: Self) -> Result<(), Self> {
        if is_refused(self.alloc) {
            return Err(other);
        }
        match self.items.append(other.items) {
            Ok(()) => Ok(()),
            Err(items) => Err(ScarceQueue {
                items,
                alloc: other.alloc,
            }),
        }
    }

    ghost laws = { record {
      unit_left = λ items. refl;
      unit_right = λ items. append-nil items;
      empty_is_empty = λ streams. refl;
    } };

    ghost is_blank = { λ meta here. refl };
}

/// Makes controllers whose clones allocate.
#[derive(Clone, Copy)]
pub struct ScarceConfig {
    /// The settings of the controllers.
    pub halving: HalvingConfig,
    /// The allocator that they use.
    pub alloc: Global,
}

impl ControllerFactory for ScarceConfig {
    type Controller = ScarceHalving;

    ghost built = { λ factory now mtu. halving_made factory.halving.initial_window mtu };

    fn build(&self, now: Instant, current_mtu: u16) -> ScarceHalving {
        ScarceHalving {
            halving: self.halving.build(now, current_mtu),
            alloc: self.alloc,
        }
    }

    ghost starts_at_initial = { λ factory now mtu. refl };

    ghost starts_by_now = { λ factory now mtu. zero-le };
}

/// A window that congestion events halve, and whose clones allocate.
#[derive(Drop)]
pub struct ScarceHalving {
    halving: Halving,
    alloc: Global,
}

impl Controller for ScarceHalving {
    type Content = Halving;

    ghost content = { λ controller. controller.halving };

    ghost words = { halving_words };

    ghost is_sound = { IsHalvingSound };

    fn on_sent(&mut self, now: Instant, bytes: u64, last_packet_number: u64) {
        self.halving.on_sent(now, bytes, last_packet_number);
    }

    fn on_ack(
        &mut self,
        now: Instant,
        sent: Instant,
        bytes: u64,
        app_limited: bool,
        rtt: &RttEstimator,
    ) {
        self.halving.on_ack(now, sent, bytes, app_limited, rtt);
    }

    fn on_end_acks(
        &mut self,
        now: Instant,
        in_flight: u64,
        app_limited: bool,
        largest_packet_num_acked: Option<u64>,
    ) {
        self.halving
            .on_end_acks(now, in_flight, app_limited, largest_packet_num_acked);
    }

    fn on_congestion_event(
        &mut self,
        now: Instant,
        sent: Instant,
        is_persistent_congestion: bool,
        lost_bytes: u64,
    ) {
        self.halving
            .on_congestion_event(now, sent, is_persistent_congestion, lost_bytes);
    }

    fn on_mtu_update(&mut self, new_mtu: u16) {
        self.halving.on_mtu_update(new_mtu);
    }

    fn window(&self) -> u64 {
        self.halving.window()
    }

    fn metrics(&self) -> ControllerMetrics {
        self.halving.metrics()
    }

    fn initial_window(&self) -> u64 {
        self.halving.initial_window()
    }

    fn try_clone(&self) -> Result<Self, NoMemory> {
        if is_refused(self.alloc) {
            return Err(NoMemory);
        }
        Ok(ScarceHalving {
            halving: self.halving.try_clone()?,
            alloc: self.alloc,
        })
    }

    ghost laws = { halving_laws };
}
