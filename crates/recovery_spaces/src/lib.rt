//! The tracked packets: three packet number spaces with what each sent (begin at `spaces.rt`), and the bytes in flight
//! on a path.
#![tactic(auto)]

pub mod discarded;
pub mod paths;
pub mod sent_packets;
pub mod spaces;
