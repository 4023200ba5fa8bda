//! The sender of one endpoint (RFC 9002, Appendices A and B): which packets are lost, when to probe, and whether a
//! datagram may be sent. One call for an ACK frame, one for the timer. Begin at `sender.rt` and `specs/Timer.antt`.
#![tactic(auto)]

mod caller;
mod calls;
pub mod laws;
mod runs;
pub mod sender;

pub use caller::Caller;
pub use calls::{Asked, Asking, Call, CallRecord, CallReplyValue, Datagram, Frame};
pub use runs::{run, run_over};
pub use sender::{
    Acknowledged, EcnOutcome, Losses, NewlyAcked, Retransmitted, Sender, SenderError, Timeout,
    TimerState, Transmission, passes,
};

// For users outside this repository, as `recovery_embedding` shows: the types of another crate that its calls take
// or return.
pub use recovery_losses::{Ack, Due, Side};
