//! Tests of the parts, over their public calls. They cover IDs, ACKs, skipped numbers and what is below them. They
//! cover what controls the sending, from RTT to settings. They also cover tracked packets, a queue of item numbers,
//! responses to path challenges, and the spans of losses and probes. They are in a crate of their own so that no part
//! is proved a second time for its tests. It also has a congestion controller that is not NewReno (`halving.rt`).
#![tactic(auto)]

#[cfg(test)]
mod acks;
#[cfg(test)]
mod base;
#[cfg(test)]
mod config;
#[cfg(test)]
mod conflicts;
#[cfg(test)]
mod congestion;
#[cfg(test)]
mod cubic;
#[cfg(test)]
mod ecn;
#[cfg(test)]
mod examples;
pub mod halving;
#[cfg(test)]
mod ids;
#[cfg(test)]
mod in_flight;
#[cfg(test)]
mod items;
#[cfg(test)]
mod mtud;
#[cfg(test)]
mod pacing;
#[cfg(test)]
mod responses;
#[cfg(test)]
mod rows;
#[cfg(test)]
mod rtt;
#[cfg(test)]
mod skips;
#[cfg(test)]
mod slots;
#[cfg(test)]
mod spans;
