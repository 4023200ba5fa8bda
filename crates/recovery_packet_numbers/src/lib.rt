//! Packet numbers that a sender skips, to detect an optimistic ACK attack (RFC 9000, 21.4). Begin at `filter.rt`.
#![tactic(auto)]

mod filter;
pub mod laws;

pub use filter::{PacketNumberFilter, Skips};
