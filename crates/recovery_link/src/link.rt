//! The link that all flows share: a queue, its manager, and a way with losses, late packets and duplicates.
use crate::changes::Changes;
use crate::settings::Settings;
use rand_core::SeedableRng;
use rand_pcg::Pcg32;
use recovery_base::below::NoMemory;
use recovery_network::ack::Arrival;
use recovery_network::bottleneck::{Bottleneck, QueuedPacket};
use recovery_network::codel::{CoDel, Look};
use recovery_network::draws::Draws;
use recovery_network::schedule::Schedule;
use recovery_network::way::Way;
use std::alloc::Global;

/// What happened to a flow's packets at the queue.
#[derive(Clone, Copy)]
pub struct Passage {
    /// How many were dropped: they had no room, or the manager dropped them.
    pub dropped: u64,
    /// How many were marked.
    pub marked: u64,
    /// How many left the queue.
    pub left: u64,
    /// How long these were there in total, in nanoseconds, including the time to send them.
    pub waited: u64,
}

impl Passage {
    const NONE: Passage = Passage {
        dropped: 0,
        marked: 0,
        left: 0,
        waited: 0,
    };

    fn leaves(&mut self, time: u64, is_marked: bool) {
        self.left = self.left.saturating_add(1);
        self.waited = self.waited.saturating_add(time);
        if is_marked {
            self.marked = self.marked.saturating_add(1);
        }
    }
}

/// The link. Times are in nanoseconds.
#[derive(Drop)]
pub struct Link {
    queue: Bottleneck,
    manager: Option<CoDel>,
    /// Whether the manager examined the first packet, and whether it marked it.
    is_seen: bool,
    is_marked: bool,
    draws: Draws<Pcg32>,
    way: Way<Arrival>,
    late: u64,
    /// Of each flow.
    passages: Vec<Passage>,
}

impl Link {
    /// Returns a link with nothing on it.
    pub fn new(alloc: Global, settings: &Settings, changes: &Changes) -> Result<Self, NoMemory> {
        let shape = settings.link;
        let rates = Schedule::new(alloc, shape.rate, &changes.rates)?;
        let delays = Schedule::new(alloc, shape.delay, &changes.delays)?;
        let mut passages = Vec::new(alloc);
        for _ in 0..settings.flows {
            passages.push(Passage::NONE)?;
        }
        let manager = if settings.is_managed {
            Some(CoDel::new(settings.target, settings.interval))
        } else {
            None
        };
        Ok(Link {
            queue: Bottleneck::new(alloc, rates, shape.queue),
            manager,
            is_seen: false,
            is_marked: false,
            draws: Draws::new(Pcg32::seed_from_u64(settings.seed), shape.there),
            way: Way::new(alloc, delays),
            late: shape.late,
            passages,
        })
    }

    /// Returns the most bytes that waited.
    pub fn most(&self) -> u64 {
        self.queue.most()
    }

    /// Returns what happened to the packets of a flow.
    pub fn passage(&self, flow: u64) -> Passage {
        match self.passages.get(flow as usize) {
            Some(passage) => *passage,
            None => Passage::NONE,
        }
    }

    /// Sends a packet.
    pub fn enter(&mut self, packet: QueuedPacket) -> Result<(), NoMemory> {
        self.go_on(packet.came)?;
        if !self.queue.enter(packet)? {
            self.drop_one(packet.flow);
        }
        Ok(())
    }

    fn drop_one(&mut self, flow: u64) {
        if let Some(passage) = self.passages.get_mut(flow as usize) {
            passage.dropped = passage.dropped.saturating_add(1);
        }
    }

    /// Returns when something happens next: a packet leaves the queue, or arrives.
    pub fn next(&self) -> Option<u64> {
        sooner(self.queue.next(), self.way.next())
    }

    /// Lets packets leave the queue, as far as they do by now.
    pub fn go_on(&mut self, now: u64) -> Result<(), NoMemory> {
        // Bounded as in `transfer.rt`: no measure shows that it ends.
        for _ in 0..u64::MAX {
            self.look(now);
            let Some(leaves) = self.queue.next() else {
                return Ok(());
            };
            let Some(packet) = self.queue.take(now) else {
                return Ok(());
            };
            self.pass(packet, leaves)?;
        }
        Ok(())
    }

    /// Lets the manager look at the first packet when its first bit is sent, and at those after it while it drops them.
    fn look(&mut self, now: u64) {
        for _ in 0..u64::MAX {
            if !self.drops_first(now) {
                return;
            }
        }
    }

    /// Returns whether the manager dropped the first packet.
    fn drops_first(&mut self, now: u64) -> bool {
        if self.is_seen {
            return false;
        }
        let Some((first, begins)) = self.queue.first() else {
            return false;
        };
        if begins > now {
            return false;
        }
        let look = Look {
            now: begins,
            sojourn: begins.saturating_sub(first.came),
            behind: self.queue.bytes().saturating_sub(u64::from(first.size)),
        };
        let drops = match &mut self.manager {
            Some(manager) => manager.drops(look),
            None => false,
        };
        if drops && !first.is_ect {
            let _dropped = self.queue.discard();
            self.drop_one(first.flow);
            return true;
        }
        self.is_seen = true;
        self.is_marked = drops;
        false
    }

    /// Sends a packet that has left the queue on its way, unless it is lost.
    fn pass(&mut self, packet: QueuedPacket, leaves: u64) -> Result<(), NoMemory> {
        let is_marked = self.is_marked;
        self.is_seen = false;
        self.is_marked = false;
        if let Some(passage) = self.passages.get_mut(packet.flow as usize) {
            passage.leaves(leaves.saturating_sub(packet.came), is_marked);
        }
        if self.draws.loses() {
            return Ok(());
        }
        let late = if self.draws.delays() { self.late } else { 0 };
        let arrival = Arrival { packet, is_marked };
        if self.draws.doubles() {
            self.way.send(leaves, late, arrival)?;
        }
        self.way.send(leaves, late, arrival)?;
        Ok(())
    }

    /// Removes and returns the packet that arrived by now.
    pub fn take(&mut self, now: u64) -> Option<Arrival> {
        self.way.take(now)
    }
}

/// Returns the earlier of two times, if there is one.
pub fn sooner(one: Option<u64>, other: Option<u64>) -> Option<u64> {
    match (one, other) {
        (Some(one), Some(other)) => Some(one.min(other)),
        (Some(one), None) => Some(one),
        (None, other) => other,
    }
}
