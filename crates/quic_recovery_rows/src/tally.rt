//! A queue for tests: tests of code that is generic in the queue use it.
ghost use Rattle.quic_recovery_rows.specs.Tallies.{tally_words};

use recovery_queue::queue::RetransmitQueue;
use std::alloc::Global;

/// How many bytes of one stream wait for retransmission. Tallies are joined by the exact sum, and not if that exceeds
/// `u64::MAX`: so lack of memory is simulated while there is memory.
#[derive(PartialEq, Eq, Drop)]
pub struct Tally {
    /// The bytes.
    pub bytes: u64,
}

impl RetransmitQueue for Tally {
    ghost use Rattle.std.specs.Prelude.{refl};
    ghost use Rattle.std.proofs.Math.Nat.{zero-add, add-zero};

    /// Whether the stream is open.
    type Streams = bool;

    /// The offset of the bytes in their stream.
    type Meta = u64;

    type Contents = u64;

    ghost contents = { λ tally. tally.bytes };

    ghost words = { tally_words };

    ghost blank = { 0 };

    fn empty(_alloc: Global) -> Self {
        Tally { bytes: 0 }
    }

    fn is_empty(&self, streams: &bool) -> bool {
        self.bytes == 0 || !*streams
    }

    fn append(&mut self, other: Self) -> Result<(), Self> {
        match self.bytes.checked_add(other.bytes) {
            Some(sum) => {
                self.bytes = sum;
                Ok(())
            }
            None => Err(other),
        }
    }

    ghost laws = { record {
      unit_left = zero-add;
      unit_right = add-zero;
      empty_is_empty = λ is_open. refl;
    } };

    ghost is_blank = { λ meta zero. zero };
}
