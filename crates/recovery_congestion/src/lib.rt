//! The RTT estimator (RFC 9002, 5), congestion control as a trait with its laws, NewReno (RFC 9002, 7), and the pacer,
//! a token bucket (RFC 9002, 7.7). Begin at `congestion.rt`.
#![tactic(auto)]

pub mod congestion;
pub mod laws;
pub mod pacing;
pub mod rtt;
