//! An application that writes now and then: how many items it has written by a time, and when it writes one.
ghost use Rattle.std.specs.Prelude.{◌≡◌, ◌<◌, min};
ghost use Rattle.recovery_base.specs.Units.{last_time};
ghost use Rattle.recovery_network.specs.Writes.{AreWritten, IsItemCount, time_of};

/// What an application writes: items of the size of a packet. Times are in nanoseconds.
#[derive(Clone, Copy)]
pub struct Application {
    /// How many items it writes in all.
    items: u64,
    /// How many it writes at a time (0 counts as 1), and how long after one another; 0: all at once.
    chunk: u64,
    every: u64,
    /// When it begins.
    start: u64,
}

/// Returns how many items of this size carry these bytes; the last one may be filled up.
pub fn items_of(bytes: u64, size: u64) -> u64
    requires { 0 < size }
    ensures { IsItemCount bytes size result }
{
    bytes.div_ceil(size)
}

impl Application {
    /// Returns an application that writes this many items, `chunk` at a time.
    pub fn new(items: u64, chunk: u64, every: u64, start: u64) -> Self
        ensures items { result.items ≡ items }
        ensures chunk { result.chunk ≡ chunk }
        ensures every { result.every ≡ every }
        ensures start { result.start ≡ start }
    {
        Application {
            items,
            chunk,
            every,
            start,
        }
    }

    /// Returns how many items it writes in all.
    pub fn items(&self) -> u64
        ensures { result ≡ self.now.items }
    {
        self.items
    }

    /// Returns when it begins.
    pub fn start(&self) -> u64
        ensures { result ≡ self.now.start }
    {
        self.start
    }

    /// Returns how many items it has written by a time.
    pub fn written(&self, now: u64) -> u64
        ensures { AreWritten self.now now result }
    {
        let Application {
            items,
            chunk,
            every,
            start,
        } = *self;
        if now < start {
            return 0;
        }
        match (now - start).checked_div(every) {
            Some(times) => {
                let chunks = times.saturating_add(1);
                items.min(chunks.saturating_mul(chunk.max(1)))
            }
            None => items,
        }
    }

    /// Returns when it writes the item of this index, if it writes that many items.
    pub fn writes(&self, index: u64) -> u64
        ensures { result ≡ min last_time (time_of self.now index) }
    {
        let times = index / self.chunk.max(1);
        self.start.saturating_add(times.saturating_mul(self.every))
    }
}
