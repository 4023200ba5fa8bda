//! The inputs and outputs of the state machine: events of a connection, answers and errors. Begin at `event.rt`.
#![tactic(auto)]

pub mod event;
pub mod feeding;
