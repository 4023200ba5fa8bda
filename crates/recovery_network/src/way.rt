//! What is in transit in one direction, in order of arrival.
ghost use Rattle.std.specs.Prelude.{◌≡◌, ◌≤◌, [], length, OnErr, OnOk};
ghost use Rattle.recovery_network.specs.Ways.{Adds, ArriveInOrder, IsFirstArrival, IsPlaceByArrival, TakesArrived, arrival_of};

use crate::schedule::Schedule;
use std::alloc::{AllocError, Global};
use std::collections::VecDeque;

/// An item in transit.
#[derive(Drop)]
pub struct Carried<T> {
    /// When it arrives, in nanoseconds.
    arrives: u64,
    what: T,
}

/// What is in transit, in order of arrival, and at one time in order of departure.
#[derive(Drop)]
pub struct Way<T> {
    /// The minimum delay of an item that is sent at a time, in nanoseconds.
    delays: Schedule,
    carried: VecDeque<Carried<T>>,
}

/// Returns the place of an item that arrives at this time: behind those that arrive no later.
fn place_of<T: Drop>(carried: &VecDeque<Carried<T>>, arrives: u64) -> usize
    ensures bound { result ≤ length carried.now.items }
    ensures place { ArriveInOrder carried.now.items
        → IsPlaceByArrival arrives carried.now.items result }
{
    match carried.back() {
        Some(last) if last.arrives > arrives => carried.partition_point(|it| it.arrives <= arrives),
        _ => carried.len(),
    }
}

impl<T: Drop> Way<T> {
    /// Returns a direction without anything in transit, in which each item has the minimum delay of the time at which
    /// it is sent.
    pub fn new(alloc: Global, delays: Schedule) -> Self
        ensures delays { result.delays ≡ delays }
        ensures empty { result.carried.items ≡ [] }
    {
        Way {
            delays,
            carried: VecDeque::new(alloc),
        }
    }

    /// Sends an item at time `now`, which is late by this much. An error changes nothing.
    pub fn send(&mut self, now: u64, late: u64, what: T) -> Result<(), AllocError>
        ensures delays { self.new.delays ≡ self.old.delays }
        ensures order { ArriveInOrder self.old.carried.items
            → ArriveInOrder self.new.carried.items }
        ensures adds { OnOk result (Adds (arrival_of self.old.delays now late) what
            self.old.carried.items self.new.carried.items) }
        ensures unchanged { OnErr result (self.new.carried.items ≡ self.old.carried.items) }
    {
        let arrives = now.saturating_add(self.delays.at(now)).saturating_add(late);
        let place = place_of(&self.carried, arrives);
        self.carried.insert(place, Carried { arrives, what })?;
        Ok(())
    }

    /// Returns when the next item arrives.
    pub fn next(&self) -> Option<u64>
        ensures { IsFirstArrival self.now.carried.items result }
    {
        let first = self.carried.front()?;
        Some(first.arrives)
    }

    /// Removes and returns the next item, if it arrived by now.
    pub fn take(&mut self, now: u64) -> Option<T>
        ensures delays { self.new.delays ≡ self.old.delays }
        ensures order { ArriveInOrder self.old.carried.items
            → ArriveInOrder self.new.carried.items }
        ensures takes { TakesArrived now self.old.carried.items self.new.carried.items result }
    {
        match self.next() {
            Some(arrives) if arrives <= now => {
                let first = self.carried.pop_front()?;
                Some(first.what)
            }
            _ => None,
        }
    }
}
