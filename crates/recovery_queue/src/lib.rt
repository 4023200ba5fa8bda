//! The contents of a packet, which are retransmitted if it is lost (RFC 9000, 13.3): the trait of a retransmission
//! queue with its laws (begin at `queue.rt`), and a queue of numbered items. Also slots under increasing numbers,
//! which are found by binary search.
#![tactic(auto)]

pub mod items;
pub mod queue;
pub mod slots;
