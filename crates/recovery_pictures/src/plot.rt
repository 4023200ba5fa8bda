//! Charts as SVG in whole numbers: frames with axes, and in them lines, steps, bars, dots and marks.

pub mod axis;
pub mod picture;
