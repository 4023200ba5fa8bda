//! Controlled delay (CoDel, RFC 8289): which packets are dropped, or marked (RFC 3168), as they leave the queue.
ghost use Rattle.std.specs.Prelude.{◌≡◌, []};
ghost use Rattle.recovery_network.specs.Sojourns.{Drops, above_since};

/// The largest packet in bytes: a queue of no more is never too long.
const LARGEST: u64 = 1_500;

/// An episode of drops within this many intervals of the last one continues at its rate (RFC 8289, 4.2).
const EPISODE: u64 = 16;

/// A packet at the time when its first bit is sent.
#[derive(Clone, Copy)]
pub struct Look {
    /// In nanoseconds.
    pub now: u64,
    /// How long it waited, in nanoseconds.
    pub sojourn: u64,
    /// How many bytes wait after it.
    pub behind: u64,
}

/// The state of the queue's manager. Times are in nanoseconds.
#[derive(Clone, Copy)]
pub struct CoDel {
    target: u64,
    interval: u64,
    /// Since when each packet has waited for the target or longer.
    since: Option<u64>,
    /// When the next packet is dropped, while packets are.
    next: u64,
    count: u64,
    last_count: u64,
    is_dropping: bool,
}

/// Returns a time one interval later, divided by the square root of a count (RFC 8289, 5.4: `control_law`).
fn spaced(at: u64, interval: u64, count: u64) -> u64 {
    let square = u128::from(interval) * u128::from(interval) / u128::from(count.max(1));
    at.saturating_add(u64::try_from(square.isqrt()).unwrap_or(interval))
}

impl CoDel {
    /// Returns a manager that has seen no packet: 5 ms and 100 ms are usual (RFC 8289, 4.3 and 4.4).
    pub fn new(target: u64, interval: u64) -> Self
        ensures target { result.target ≡ target }
        ensures interval { result.interval ≡ interval }
        ensures begun { result.since ≡ above_since target [] }
    {
        CoDel {
            target,
            interval,
            since: None,
            next: 0,
            count: 0,
            last_count: 0,
            is_dropping: false,
        }
    }

    /// Returns whether the queue was too long for an interval (RFC 8289, 5.5: `dodequeue`).
    fn is_late(&mut self, look: Look) -> bool
        ensures target { self.new.target ≡ self.old.target }
        ensures interval { self.new.interval ≡ self.old.interval }
        ensures drops { Drops look self.old.target self.old.interval
            self.old.since self.new.since result }
    {
        if look.sojourn < self.target || look.behind <= LARGEST {
            self.since = None;
            return false;
        }
        match self.since {
            None => {
                self.since = Some(look.now);
                false
            }
            Some(since) => since.saturating_add(self.interval) <= look.now,
        }
    }

    /// Returns whether a packet is dropped when its first bit would be sent (RFC 8289, 5.5).
    pub fn drops(&mut self, look: Look) -> bool
        ensures target { self.new.target ≡ self.old.target }
        ensures interval { self.new.interval ≡ self.old.interval }
        ensures drops { Drops look self.old.target self.old.interval
            self.old.since self.new.since result }
    {
        let is_late = self.is_late(look);
        if !is_late {
            self.is_dropping = false;
            return false;
        }
        if self.is_dropping {
            return self.drops_again(look.now);
        }
        self.begin(look.now);
        true
    }

    /// Begins an episode of drops.
    fn begin(&mut self, now: u64)
        ensures target { self.new.target ≡ self.old.target }
        ensures interval { self.new.interval ≡ self.old.interval }
        ensures since { self.new.since ≡ self.old.since }
    {
        let recent = now.saturating_sub(self.next) < self.interval.saturating_mul(EPISODE);
        let delta = self.count.saturating_sub(self.last_count);
        self.count = if recent && delta > 1 { delta } else { 1 };
        self.next = spaced(now, self.interval, self.count);
        self.last_count = self.count;
        self.is_dropping = true;
    }

    /// Returns whether a packet is dropped in an episode of drops.
    fn drops_again(&mut self, now: u64) -> bool
        ensures target { self.new.target ≡ self.old.target }
        ensures interval { self.new.interval ≡ self.old.interval }
        ensures since { self.new.since ≡ self.old.since }
    {
        if now < self.next {
            return false;
        }
        self.count = self.count.saturating_add(1);
        self.next = spaced(self.next, self.interval, self.count);
        true
    }
}
