//! The history of a connection, and its settings. The reply to each event follows from the history
//! (`specs/Table.antt`), and so does the state (`specs/StateAfter.antt`). Begin at `specs/Reachability.antt`, which
//! states the promises of every event. Their proofs depend on no driver.
#![tactic(auto)]

pub mod config;
pub mod laws;

pub use config::RecoveryConfig;
