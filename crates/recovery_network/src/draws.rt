//! Random events after the queue: which packets are lost, and which are late or duplicated.
ghost use Rattle.std.specs.Prelude.{◌≡◌, ◌<◌, false};
ghost use Rattle.recovery_network.specs.RandomEvents.{happens, lost, million};

use rand_core::Rng;

/// The whole of which chances are parts.
pub const MILLION: u64 = 1_000_000;

/// The chances of random events, in parts of a million.
#[derive(Clone, Copy)]
pub struct Chances {
    pub loss: u64,
    /// How many packets are lost in a row, on average; 0: each independently.
    pub burst: u64,
    pub reorder: u64,
    pub duplicate: u64,
}

/// The random state of one direction.
#[derive(Drop)]
pub struct Draws<R> {
    rng: R,
    chances: Chances,
    /// Whether all packets are lost now, until a burst is over.
    is_bad: bool,
}

/// Returns whether an event with this chance happens, `parts` among `all`.
fn happens<R: Rng>(rng: &mut R, parts: u64, all: u64) -> bool
    requires { 0 < all }
    ensures { (result, R.stream rng.new) ≡ happens parts all (R.stream rng.old) }
{
    if parts == 0 {
        return false;
    }
    rng.next_u64() % all < parts
}

impl<R: Rng> Draws<R> {
    /// Returns the initial state, with this generator.
    pub fn new(rng: R, chances: Chances) -> Self
        ensures chances { result.chances ≡ chances }
        ensures stream { R.stream result.rng ≡ R.stream rng }
        ensures good { result.is_bad ≡ false }
    {
        Draws {
            rng,
            chances,
            is_bad: false,
        }
    }

    /// Returns whether the next packet is lost: independently, or by a two-state model of bursts (Gilbert and Elliott).
    /// Its bad state loses all packets, and ends after each with a chance of one in its average length.
    pub fn loses(&mut self) -> bool
        ensures chances { self.new.chances ≡ self.old.chances }
        ensures lost { (result, self.new.is_bad, R.stream self.new.rng)
            ≡ lost self.old.chances self.old.is_bad (R.stream self.old.rng) }
    {
        let Chances { loss, burst, .. } = self.chances;
        if burst == 0 || loss >= MILLION {
            return happens(&mut self.rng, loss, MILLION);
        }
        self.is_bad = if self.is_bad {
            !happens(&mut self.rng, 1, burst)
        } else {
            let fair = MILLION - loss;
            happens(&mut self.rng, loss, fair.saturating_mul(burst))
        };
        self.is_bad
    }

    /// Returns whether the next packet is late.
    pub fn delays(&mut self) -> bool
        ensures chances { self.new.chances ≡ self.old.chances }
        ensures bad { self.new.is_bad ≡ self.old.is_bad }
        ensures late { (result, R.stream self.new.rng)
            ≡ happens self.old.chances.reorder million (R.stream self.old.rng) }
    {
        let parts = self.chances.reorder;
        happens(&mut self.rng, parts, MILLION)
    }

    /// Returns whether the next packet arrives twice.
    pub fn doubles(&mut self) -> bool
        ensures chances { self.new.chances ≡ self.old.chances }
        ensures bad { self.new.is_bad ≡ self.old.is_bad }
        ensures twice { (result, R.stream self.new.rng)
            ≡ happens self.old.chances.duplicate million (R.stream self.old.rng) }
    {
        let parts = self.chances.duplicate;
        happens(&mut self.rng, parts, MILLION)
    }
}
