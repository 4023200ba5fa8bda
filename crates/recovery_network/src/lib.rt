//! A simulated network. The queue before a link drops or marks packets. On the way after it they are lost, late or
//! duplicated. At its ends are an application that writes and the ACK frames of an endpoint. It knows nothing of a
//! sender.
#![tactic(auto)]

pub mod ack;
pub mod application;
pub mod bottleneck;
pub mod codel;
pub mod draws;
pub mod schedule;
pub mod way;
