//! CUBIC (RFC 9438). `recovery_congestion` and the crates above it know only the traits of a controller. All values are
//! whole bytes and microseconds, without floating point. Begin at `cubic.rt`.
#![tactic(auto)]

mod cubic;
mod curve;
pub mod laws;
mod stage;

pub use cubic::{Cubic, CubicConfig};
