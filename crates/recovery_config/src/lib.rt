//! The settings of a connection. Begin at `config.rt`.
#![tactic(auto)]

pub mod config;
pub mod laws;
