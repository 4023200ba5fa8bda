//! What the tests of the driver share: rows of events and their expected replies, and runs that compare them. `proofs/`
//! has worked rows of the definitions of the history, of promises and of the table of replies, right and wrong, which
//! the check computes.
#![tactic(auto)]

pub mod config;
pub mod events;
pub mod refusals;
pub mod runs;
pub mod shown;
pub mod tally;
