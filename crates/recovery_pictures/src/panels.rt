//! What the pictures share: a high panel above a low one, and the units of their axes.

use crate::plot::axis::{Axis, Panel, Point};
use crate::plot::picture::Picture;
use recovery_base::time::Duration;
use std::alloc::Global;

/// A second in nanoseconds.
pub const SECOND: u64 = 1_000_000_000;

/// A millisecond in nanoseconds.
pub const MILLISECOND: u64 = 1_000_000;

/// A microsecond in nanoseconds.
pub const MICROSECOND: u64 = 1_000;

/// A kilobyte in bytes.
pub const KILOBYTE: u64 = 1_000;

/// Returns a picture with room for two panels.
pub fn sheet(alloc: Global, title: &str) -> Picture {
    Picture::new(alloc, 1920, 1220, title)
}

/// Returns the upper panel.
pub fn upper(x: Axis, y: Axis) -> Panel {
    panel(110, 560, x, y)
}

/// Returns the lower panel.
pub fn lower(x: Axis, y: Axis) -> Panel {
    panel(820, 280, x, y)
}

/// Returns a picture with room for a third panel below the others.
pub fn long_sheet(alloc: Global, title: &str) -> Picture {
    Picture::new(alloc, 1920, 1720, title)
}

/// Returns the third panel.
pub fn lowest(x: Axis, y: Axis) -> Panel {
    panel(1260, 340, x, y)
}

/// Returns a panel over the whole width.
fn panel(top: u16, height: u16, x: Axis, y: Axis) -> Panel {
    Panel {
        left: 130,
        top,
        width: 1740,
        height,
        x,
        y,
    }
}

/// Returns an axis that begins at zero.
pub fn up_to(most: u64, unit: u64) -> Axis {
    Axis {
        least: 0,
        most,
        unit,
        zero: 0,
    }
}

/// Returns the unit of an axis of this many nanoseconds: milliseconds, or microseconds if those would be few.
pub fn unit_for(span: u64) -> u64 {
    if span < 10 * MILLISECOND {
        MICROSECOND
    } else {
        MILLISECOND
    }
}

/// Returns the name of a unit of time.
pub fn name_of(unit: u64) -> &'static str {
    if unit == MICROSECOND { "µs" } else { "ms" }
}

/// Returns the height of the highest point, or zero.
pub fn highest(points: &[Point]) -> u64 {
    points.iter().map(|point| point.y).max().unwrap_or(0)
}

/// Returns a span in nanoseconds, at most 2^64 - 1.
pub fn nanos(span: Duration) -> u64 {
    u64::try_from(span.as_nanos()).unwrap_or(u64::MAX)
}
