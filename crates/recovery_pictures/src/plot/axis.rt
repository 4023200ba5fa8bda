//! The place of a value along an axis, and the places of its marks.
ghost use Rattle.std.specs.Prelude.{◌≡◌, ◌≤◌, ◌+◌};

/// The values that an axis shows.
#[derive(Clone, Copy)]
pub struct Axis {
    /// The value at its beginning.
    pub least: u64,
    /// The value at its end.
    pub most: u64,
    /// How many of the values are one unit of its numbers: 1,000,000 if nanoseconds are shown as milliseconds. 0 counts
    /// as 1.
    pub unit: u64,
    /// The value from which its numbers count.
    pub zero: u64,
}

/// A value on each of two axes.
#[derive(Clone, Copy)]
pub struct Point {
    /// Horizontal.
    pub x: u64,
    /// Vertical.
    pub y: u64,
}

impl Axis {
    /// Returns the place of a value along a length: 0 for the smallest, the end for the largest. A value outside is
    /// placed at the end that it passes.
    pub fn place(&self, value: u64, length: u64) -> u64
        ensures { result ≤ length }
    {
        let span = self.most.saturating_sub(self.least);
        let over = value.saturating_sub(self.least);
        if over == 0 {
            return 0;
        }
        if over >= span {
            return length;
        }
        let place = u128::from(over) * u128::from(length) / u128::from(span);
        u64::try_from(place).unwrap_or(length).min(length)
    }

    /// Returns the distance of two marks, for at most this many: 1, 2 or 5 times a power of ten of its unit.
    pub fn step(&self, marks: u64) -> u64 {
        let unit = self.unit.max(1);
        let span = self.most.saturating_sub(self.least) / unit;
        round_up(span / marks.max(1)).saturating_mul(unit)
    }

    /// Returns the first mark, for marks at this distance: the smallest multiple of the distance from its zero that is
    /// within the axis.
    pub fn first_mark(&self, step: u64) -> u64 {
        let step = step.max(1);
        let over = self.least.saturating_sub(self.zero) % step;
        if over == 0 {
            self.least
        } else {
            self.least.saturating_add(step - over)
        }
    }

    /// Returns the number at a mark: its distance from the zero, in the axis' unit.
    pub fn number(&self, value: u64) -> u64 {
        value.saturating_sub(self.zero) / self.unit.max(1)
    }
}

/// Returns the smallest of 1, 2, 5, 10, 20, 50 .. that is not below a number, up to 10^19.
fn round_up(wanted: u64) -> u64 {
    let mut ten: u64 = 1;
    for _ in 0..19 {
        if let Some(found) = reaches(wanted, ten) {
            return found;
        }
        ten = ten.saturating_mul(10);
    }
    ten
}

/// Returns the smallest of a power of ten, its double and half of the next one that is not below a number.
fn reaches(wanted: u64, ten: u64) -> Option<u64> {
    [1, 2, 5]
        .into_iter()
        .map(|factor| ten.saturating_mul(factor))
        .find(|step| wanted <= *step)
}

/// A frame on a picture, with an axis along its lower edge and one along its left. All places are in units of the
/// picture.
#[derive(Clone, Copy)]
pub struct Panel {
    /// Its left edge.
    pub left: u16,
    /// Its upper edge.
    pub top: u16,
    /// How wide it is.
    pub width: u16,
    /// How high it is.
    pub height: u16,
    /// What it shows from left to right.
    pub x: Axis,
    /// What it shows from below.
    pub y: Axis,
}

impl Panel {
    /// Returns the horizontal place of a value: nothing is drawn outside the frame.
    pub fn across(&self, value: u64) -> u64
        ensures not_before { self.now.left ≤ result }
        ensures not_behind { result ≤ self.now.left + self.now.width }
    {
        u64::from(self.left) + self.x.place(value, u64::from(self.width))
    }

    /// Returns the vertical place of a value, from above: nothing is drawn outside the frame.
    pub fn down(&self, value: u64) -> u64
        ensures not_above { self.now.top ≤ result }
        ensures not_below { result ≤ self.now.top + self.now.height }
    {
        u64::from(self.top) + (u64::from(self.height) - self.y.place(value, u64::from(self.height)))
    }

    /// Returns the right edge.
    pub fn right(&self) -> u64
        ensures { result ≡ self.now.left + self.now.width }
    {
        u64::from(self.left) + u64::from(self.width)
    }

    /// Returns the lower edge.
    pub fn bottom(&self) -> u64
        ensures { result ≡ self.now.top + self.now.height }
    {
        u64::from(self.top) + u64::from(self.height)
    }
}
