//! ACKs to send: the received numbers that are to be acknowledged, when an ACK is due (RFC 9000, 13.2), and how often
//! the peer is asked to send one (the ACK frequency extension). Begin at `pending.rt`.
#![tactic(auto)]

mod frequency;
mod pending;

pub use frequency::AckFrequencyState;
pub use pending::PendingAcks;
