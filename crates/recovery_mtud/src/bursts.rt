//! Sizes of suspicious bursts of losses.
ghost use Rattle.std.specs.Prelude.{◌≡◌, ◌<◌, ◌≤◌, nat_lt, [], ◌∷◌, ◌++◌, filter, length};
ghost use Rattle.recovery_mtud.specs.Bursts.{with_burst, black_hole_bursts};

use std::marker::Model;

/// This many suspicious bursts are a black hole: one alone may be congestion that happened to affect only large
/// packets.
pub(crate) const BLACK_HOLE_BURSTS: usize = 4;

/// The smallest sizes of at most four bursts.
///
/// In contracts its value is the list of the sizes.
#[derive(Clone, Copy)]
pub(crate) struct Bursts {
    /// The sizes, followed by zeros.
    sizes: [u16; BLACK_HOLE_BURSTS],
    count: usize,
}

impl Model for Bursts {
    ghost use Rattle.std.specs.Prelude.{ℕ, List};

    ghost Value = { List ℕ };

    ghost use Rattle.recovery_mtud.specs.BurstsView.{sizes_in, AreBurstSizesPadded, padded, padded-sizes_in};

    ghost view = { sizes_in };

    ghost invariant = { AreBurstSizesPadded };

    ghost inverse = { padded };

    ghost inverse_ok = { padded-sizes_in };
}

impl Bursts {
    pub(crate) fn new() -> Self
        ensures { result ≡ [] }
    {
        Bursts {
            sizes: [0; BLACK_HOLE_BURSTS],
            count: 0,
        }
    }

    pub(crate) fn len(&self) -> usize
        ensures value { result ≡ length self.now }
        ensures few { length self.now ≤ black_hole_bursts }
    {
        self.count
    }

    fn push(&mut self, size: u16)
        requires { length self.old < black_hole_bursts }
        ensures { self.new ≡ self.old ++ size ∷ [] }
    {
        self.sizes[self.count] = size;
        self.count += 1;
    }

    /// Appends a size, or replaces the first of the smallest: that is the one that an acknowledgement would refute
    /// first.
    pub(crate) fn add(&mut self, size: u16)
        ensures sizes { self.new ≡ with_burst size self.old }
        ensures few { length self.new ≤ black_hole_bursts }
    {
        if self.count < BLACK_HOLE_BURSTS {
            self.push(size);
            return;
        }
        let [a, b, c, d] = self.sizes;
        let least = a.min(b).min(c).min(d);
        if least >= size {
            return;
        }
        if a == least {
            self.sizes[0] = size;
        } else if b == least {
            self.sizes[1] = size;
        } else if c == least {
            self.sizes[2] = size;
        } else {
            self.sizes[3] = size;
        }
    }

    /// Retains the sizes above this one.
    pub(crate) fn retain_above(&mut self, size: u16)
        ensures sizes { self.new ≡ filter (λ least. nat_lt size least) self.old }
        ensures few { length self.new ≤ black_hole_bursts }
    {
        let mut kept = Bursts::new();
        for place in 0..self.count {
            let least = self.sizes[place];
            if least > size {
                kept.push(least);
            }
        }
        *self = kept;
    }
}
