//! Loss detection (RFC 9002, 6.1, 7.6 and A.10). A pass examines packets in order. It finds which are lost, when the
//! next one is lost, which losses indicate congestion, and whether the congestion is persistent.
//!
//! The crate also has a sender's variables and the probe timeout (A.3 and 6.2.1). It holds no packets: the sender does.
//! Begin at `looks.rt` and `specs/Losses.antt`.
#![tactic(auto)]

mod due;
mod frames;
mod looks;
mod tally;
mod thresholds;
mod timeouts;
mod variables;

pub use due::{Due, sooner};
pub use frames::{Ack, are_ranges, is_unsent, largest_of};
pub use looks::{Candidate, FirstSample, LossPass};
pub use tally::{Run, Tally};
pub use thresholds::Thresholds;
pub use timeouts::{loss_delay, probe_start, probe_timeout};
pub use variables::{DueProbes, FullSince, Side, Variables};
