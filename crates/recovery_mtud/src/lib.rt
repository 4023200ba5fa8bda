//! Path MTU discovery (DPLPMTUD, RFC 8899; RFC 9000, 14.3): a binary search by probes, and the detection of black
//! holes. Begin at `mtud.rt`.
#![tactic(auto)]

mod bursts;
pub mod config;
mod detector;
pub mod laws;
pub mod mtud;
mod search;
