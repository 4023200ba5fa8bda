//! What a packet adds to what is in flight on its path, and what is left without it.
use crate::rows::holds;
use crate::slots::packet;
use recovery_spaces::paths::InFlight;

#[test]
fn a_packet_is_counted_and_leaves(rt: HostRuntime) {
    let none = InFlight::default();
    let packet = packet(rt.alloc());
    let counted = none.checked_insert(&packet).expect(&rt, "no room");
    holds(&rt, counted.bytes == 40 && counted.ack_eliciting == 1, 0);
    holds(&rt, counted.remove(&packet) == none, 1);
}
