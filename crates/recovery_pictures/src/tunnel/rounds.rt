//! One endpoint of a tunnel: rounds of probes and bursts, and what is drawn of them.

use super::link::Link;
use crate::plot::axis::Point;
use recovery_base::below::{NoMemory, SpaceId};
use recovery_base::time::{Duration, Instant};
use recovery_congestion::pacing::Pacer;
use recovery_mtud::config::MtuDiscoveryConfig;
use recovery_mtud::mtud::MtuDiscovery;
use std::alloc::Global;

/// The datagram size that every path carries, in bytes (RFC 9000, 14).
const LEAST: u16 = 1200;
/// The largest size that is probed, in bytes.
pub const LARGEST: u16 = 1452;
/// The bytes of a packet that only keeps the tunnel alive.
const SMALL: u16 = 100;
/// How many packets a burst has.
const BURST: u64 = 24;
/// How many bytes may be in flight.
const WINDOW: u64 = 24_000;

/// A tunnel, and what happened in it. Times are nanoseconds since it began, sizes bytes.
#[derive(Drop)]
pub struct Tunnel {
    search: MtuDiscovery,
    pacer: Pacer,
    now: Instant,
    number: u64,
    /// Probes that arrived.
    pub arrived: Vec<Point>,
    /// Probes that were lost.
    pub lost: Vec<Point>,
    /// The MTU in use.
    pub mtu: Vec<Point>,
    /// The largest size that the search has not excluded.
    pub bound: Vec<Point>,
    /// The times at which a black hole was detected.
    pub holes: Vec<u64>,
    /// The first burst: how many bytes were sent by each time.
    pub burst: Vec<Point>,
    /// The size of the last probe that was lost, and how often in a row it was.
    losses: (u16, u8),
}

fn rtt() -> Duration {
    Duration::from_millis(50)
}

impl Tunnel {
    pub fn new(alloc: Global) -> Self {
        let now = Instant::from_nanos(0);
        Tunnel {
            search: MtuDiscovery::new(LEAST, LEAST, None, MtuDiscoveryConfig::default()),
            pacer: Pacer::new(rtt(), WINDOW, LEAST, now),
            now,
            number: 0,
            arrived: Vec::new(alloc),
            lost: Vec::new(alloc),
            mtu: Vec::new(alloc),
            bound: Vec::new(alloc),
            holes: Vec::new(alloc),
            burst: Vec::new(alloc),
            losses: (LARGEST, 0),
        }
    }

    /// Returns when the last round ended, in nanoseconds.
    pub fn now(&self) -> u64 {
        self.now.as_nanos()
    }

    /// Runs one round: a probe, if one is due, a burst, and a small packet. The next one begins five seconds later.
    pub fn round(&mut self, link: Link) -> Result<(), NoMemory> {
        let is_first = self.mtu.is_empty();
        self.note()?;
        self.probe(link)?;
        self.send_burst(link, is_first)?;
        self.keep_alive();
        if self.search.black_hole_detected(self.now) {
            self.holes.push(self.now.as_nanos())?;
            self.losses = (LARGEST, 0);
        }
        self.note()?;
        self.now = self.now + Duration::from_secs(5);
        Ok(())
    }

    /// Records the MTU in use, and what is excluded: a size of which three probes in a row were lost (RFC 8899, 5.1.2).
    fn note(&mut self) -> Result<(), NoMemory> {
        let mtu = self.here(self.search.current_mtu());
        self.mtu.push(mtu)?;
        let (size, count) = self.losses;
        if self.bound.is_empty() || count == 0 || count >= 3 {
            let bound = self.here(size);
            self.bound.push(bound)?;
        }
        Ok(())
    }

    /// Returns a size at the current time as a point.
    fn here(&self, size: u16) -> Point {
        Point {
            x: self.now.as_nanos(),
            y: u64::from(size),
        }
    }

    /// Returns the number of the next packet.
    fn next_number(&mut self) -> u64 {
        let number = self.number;
        self.number = number.saturating_add(1);
        number
    }

    fn probe(&mut self, link: Link) -> Result<(), NoMemory> {
        let Some(size) = self.search.poll_transmit(self.now, self.number) else {
            return Ok(());
        };
        let number = self.next_number();
        let point = self.here(size);
        if link.carries(size) {
            self.search.on_acked(SpaceId::Data, number, size);
            self.arrived.push(point)?;
        } else {
            self.search.on_probe_lost();
            self.lost.push(point)?;
            self.losses = match self.losses {
                (last, count) if last == size => (last, count.saturating_add(1)),
                _ => (size, 1),
            };
        }
        Ok(())
    }

    /// Sends packets as large as the MTU in use, as the pacer allows.
    fn send_burst(&mut self, link: Link, is_first: bool) -> Result<(), NoMemory> {
        let size = self.search.current_mtu();
        for _ in 0..BURST {
            if let Some(moment) = self
                .pacer
                .delay(rtt(), u64::from(size), size, WINDOW, self.now)
            {
                self.now = moment;
            }
            self.pacer.on_transmit(size);
            let number = self.next_number();
            if link.carries(size) {
                self.search.on_acked(SpaceId::Data, number, size);
            } else {
                self.search.on_non_probe_lost(number, size);
            }
            if is_first {
                self.note_burst(size)?;
            }
        }
        Ok(())
    }

    /// Adds this many bytes to what was sent of the first burst at the current time.
    fn note_burst(&mut self, size: u16) -> Result<(), NoMemory> {
        let point = self.here(size);
        match self.burst.last_mut() {
            Some(last) if last.x == point.x => last.y = last.y.saturating_add(point.y),
            _ => self.burst.push(point)?,
        }
        Ok(())
    }

    /// Sends a small packet, which arrives: what is lost after it is a burst of its own.
    fn keep_alive(&mut self) {
        let number = self.next_number();
        self.search.on_acked(SpaceId::Data, number, SMALL);
    }
}
