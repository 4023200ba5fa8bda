//! Connection IDs (RFC 9000, 5.1): those that the peer issued (`queue.rt`), and those that the local endpoint issued
//! (`state.rt`).
#![tactic(auto)]

mod iter;
mod queue;
mod state;
mod window;

pub use iter::CidIter;
pub use queue::{CidQueue, InsertError};
pub use state::{CidState, RetireError};
