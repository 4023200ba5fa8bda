//! The queue before a simulated link: packets are sent at a rate, one after another, and one without room is dropped.
ghost use Rattle.std.specs.Prelude.{◌≡◌, ◌≤◌, max, [], OnErr, IfOk};
ghost use Rattle.recovery_network.specs.Bottlenecks.{Admits, IsAfter, IsNext, IsSameLink, Keeps, Takes, Discards, end_of, rate_of, service};
ghost use Rattle.recovery_network.specs.Schedules.{value_at};

use crate::schedule::Schedule;
use std::alloc::{AllocError, Global};
use std::collections::VecDeque;
use std::marker::Model;

/// A second in nanoseconds.
const SECOND: u64 = 1_000_000_000;

/// A packet.
#[derive(Clone, Copy)]
pub struct QueuedPacket {
    /// Whose packet it is.
    pub flow: u64,
    pub number: u64,
    /// In bytes.
    pub size: u16,
    /// When it reached the queue, in nanoseconds.
    pub came: u64,
    /// Whether it may be marked instead of dropped (RFC 3168).
    pub is_ect: bool,
}

/// The queue before a link. Times are in nanoseconds.
#[derive(Drop)]
pub struct Bottleneck {
    rates: Schedule,
    room: u64,
    /// The packets that have not left, in the order in which they came; the first is being sent.
    waiting: VecDeque<QueuedPacket>,
    /// How many bytes they have.
    bytes: u64,
    /// When the last bit of the last packet that left was sent.
    free: u64,
    /// The most bytes that waited.
    most: u64,
}

impl Model for Bottleneck {
    ghost use Rattle.recovery_network.specs.Bottlenecks.{Queue, IsSound};
    ghost use Rattle.recovery_network.specs.BottleneckView.{queue_in};

    ghost Value = { Queue };

    ghost view = { queue_in };

    ghost invariant = { λ queue. IsSound (queue_in queue) };
}

/// Returns how long a packet of this size takes to be sent, rounded up to whole nanoseconds. A rate of 0 counts as 1.
fn service(rate: u64, size: u16) -> u64
    ensures { result ≡ service rate size }
{
    (u64::from(size) * 8 * SECOND).div_ceil(rate.max(1))
}

/// Returns when the last bit of a packet is sent over a link that is free from this time on.
fn departure(rates: &Schedule, free: u64, packet: QueuedPacket) -> u64
    ensures { result ≡ end_of (value_at rates.now.first rates.now.changes.items)
        (max packet.came free) packet.size }
{
    let begins = packet.came.max(free);
    begins.saturating_add(service(rates.at(begins), packet.size))
}

impl Bottleneck {
    /// Returns an empty queue with room for this many bytes, including the packet that is being sent, before a link
    /// with these rates, in bits per second. A packet is sent at the rate that holds when its first bit is sent.
    pub fn new(alloc: Global, rates: Schedule, room: u64) -> Self
        ensures begun { IsAfter [] [] result }
        ensures rates { rate_of result ≡ value_at rates.first rates.changes.items }
        ensures room { result.room ≡ room }
    {
        Bottleneck {
            rates,
            room,
            waiting: VecDeque::new(alloc),
            bytes: 0,
            free: 0,
            most: 0,
        }
    }

    /// Returns the most bytes that waited.
    pub fn most(&self) -> u64
        ensures { result ≤ self.now.room }
    {
        self.most
    }

    /// Returns how many bytes wait, including those of the packet that is being sent.
    pub fn bytes(&self) -> u64
        ensures { result ≡ self.now.bytes }
    {
        self.bytes
    }

    /// Queues a packet. Returns false if it has no room and is dropped.
    pub fn enter(&mut self, packet: QueuedPacket) -> Result<bool, AllocError>
        ensures link { IsSameLink self.old self.new }
        ensures admits { IfOk result (Admits packet self.old self.new) }
        ensures unchanged { OnErr result (Keeps self.old self.new) }
    {
        let size = u64::from(packet.size);
        if size > self.room - self.bytes {
            return Ok(false);
        }
        self.waiting.push_back(packet)?;
        self.bytes += size;
        self.most = self.most.max(self.bytes);
        Ok(true)
    }

    /// Returns when the last bit of the first packet is sent.
    pub fn next(&self) -> Option<u64>
        ensures { IsNext self.now result }
    {
        match self.waiting.front() {
            Some(first) => Some(departure(&self.rates, self.free, *first)),
            None => None,
        }
    }

    /// Returns the first packet, and when its first bit is sent.
    pub fn first(&self) -> Option<(QueuedPacket, u64)> {
        match self.waiting.front() {
            Some(first) => Some((*first, first.came.max(self.free))),
            None => None,
        }
    }

    /// Removes and returns the first packet, if its last bit was sent by now.
    pub fn take(&mut self, now: u64) -> Option<QueuedPacket>
        ensures link { IsSameLink self.old self.new }
        ensures takes { Takes now self.old self.new result }
    {
        let leaves = self.next()?;
        if leaves > now {
            return None;
        }
        let first = self.waiting.pop_front()?;
        self.bytes = self.bytes.saturating_sub(u64::from(first.size));
        self.free = leaves;
        Some(first)
    }

    /// Removes and returns the first packet without sending it.
    pub fn discard(&mut self) -> Option<QueuedPacket>
        ensures link { IsSameLink self.old self.new }
        ensures discards { Discards self.old self.new result }
    {
        let first = self.waiting.pop_front()?;
        self.bytes = self.bytes.saturating_sub(u64::from(first.size));
        Some(first)
    }
}
