//! The two endpoints of a connection over a network that may drop, duplicate, reorder and delay what they send. A
//! source of steps chooses what happens next: it is the callers, the clocks and the adversary in one. Begin at
//! `steps.rt` and `specs/Promises.antt`.
#![tactic(auto)]

mod calls;
mod endpoint;
pub mod laws;
mod pair;
mod runs;
mod steps;

pub use endpoint::Endpoint;
pub use pair::{EndConfig, Pair};
pub use runs::run_over;
pub use steps::{AckOutcome, End, Fate, LocalStep, PairAnswer, PairStep, SentAck, WirePacket};
