//! The state of a network path (begin at `paths.rt`): RTT, controller, pacer, MTU, and bytes for anti-amplification.
//! Also responses to path challenges, and the current path with the one before it (`path_pair.rt`).
#![tactic(auto)]

pub mod path_pair;
pub mod paths;
pub mod responses;
