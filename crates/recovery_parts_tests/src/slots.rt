//! Packets are acknowledged in some order, all but the first: that one is found, and few slots are left. The limit on
//! slots, and on slots read, is proved. Then packets are looked up by number and by range of numbers.
use crate::rows::holds;
use recovery_base::below::NoMemory;
use recovery_base::time::Instant;
use recovery_queue::items::ItemQueue;
use recovery_queue::queue::RetransmitQueue;
use recovery_queue::slots::SlotQueue;
use recovery_spaces::sent_packets::SentPackets;
use recovery_spaces::spaces::{PacketSpace, SentPacket};
use std::alloc::{AllocError, Global};
use std::process::Abort;

/// The order in which the packets from 1 on are acknowledged.
#[derive(Clone, Copy)]
enum Order {
    Ascending,
    Descending,
    Alternating,
}

impl Order {
    /// Returns the number that is acknowledged at a step, of `count` packets.
    fn number(self, step: u64, count: u64) -> u64 {
        let low = step.saturating_add(1);
        let high = count.saturating_sub(low);
        match self {
            Order::Ascending => low,
            Order::Descending => high,
            Order::Alternating if step % 2 == 0 => step / 2 + 1,
            Order::Alternating => count.saturating_sub(step / 2 + 1),
        }
    }
}

pub(crate) fn packet(alloc: Global) -> SentPacket<ItemQueue> {
    SentPacket {
        path_generation: 0,
        time_sent: Instant::from_nanos(0),
        size: 40,
        ack_eliciting: true,
        largest_acked: None,
        retransmits: ItemQueue::empty(alloc),
        stream_frames: (),
    }
}

/// Returns this many packets, tracked from number 0 on.
fn tracked(rt: &impl Abort, alloc: Global, count: u64) -> SentPackets<ItemQueue> {
    let mut packets = SentPackets::new(alloc);
    for number in 0..count {
        match packets.insert(number, packet(alloc)) {
            Ok(_) => {}
            Err(NoMemory) => panic!(rt; "{number}"),
        }
    }
    packets
}

/// Returns a space in which this many packets were sent.
fn sent(rt: &impl Abort, alloc: Global, count: u64) -> PacketSpace<ItemQueue> {
    let mut space = PacketSpace::new(alloc, Instant::from_nanos(0));
    space.sent_packets = tracked(rt, alloc, count);
    space
}

/// Removes a packet. Returns whether it was tracked.
fn takes(space: &mut PacketSpace<ItemQueue>, number: u64) -> bool {
    space.take(number).is_some()
}

fn assert_closed_up(rt: &impl Abort, alloc: Global, order: Order, count: u64) {
    let mut space = sent(rt, alloc, count);
    for step in 0..count.saturating_sub(1) {
        let number = order.number(step, count);
        holds(rt, takes(&mut space, number), number);
    }
    holds(rt, space.sent_packets.slots() <= 66, count);
    holds(rt, space.sent_packets.find(0).0.is_some(), count);
    holds(rt, takes(&mut space, 0), 0);
    holds(rt, space.sent_packets.find(0) == (None, 0), 0);
}

#[test]
fn acknowledged_in_ascending_order(rt: HostRuntime) {
    assert_closed_up(&rt, rt.alloc(), Order::Ascending, 1000);
    assert_closed_up(&rt, rt.alloc(), Order::Ascending, 100_000);
}

#[test]
fn acknowledged_in_descending_order(rt: HostRuntime) {
    assert_closed_up(&rt, rt.alloc(), Order::Descending, 1000);
    assert_closed_up(&rt, rt.alloc(), Order::Descending, 100_000);
}

#[test]
fn acknowledged_from_both_ends_in_turn(rt: HostRuntime) {
    assert_closed_up(&rt, rt.alloc(), Order::Alternating, 1000);
    assert_closed_up(&rt, rt.alloc(), Order::Alternating, 100_000);
}

/// Returns the number of the first packet at or above another.
fn first_from(packets: &SentPackets<ItemQueue>, number: u64) -> Option<u64> {
    match packets.tracked_from(number) {
        Some((found, _)) => Some(found),
        None => None,
    }
}

/// Returns packets 0 to 4 without 0, 2 and 3.
fn one_and_four(rt: &impl Abort, alloc: Global) -> PacketSpace<ItemQueue> {
    let mut space = sent(rt, alloc, 5);
    for number in [0, 2, 3] {
        holds(rt, takes(&mut space, number), number);
    }
    space
}

/// For packets 1 and 4: the first at or above a number.
static FROM: [(u64, Option<u64>); 6] = [
    (0, Some(1)),
    (1, Some(1)),
    (2, Some(4)),
    (4, Some(4)),
    (5, None),
    (u64::MAX, None),
];

fn assert_first(rt: &impl Abort, packets: &SentPackets<ItemQueue>) {
    for (number, first) in &FROM {
        holds(rt, first_from(packets, *number) == *first, *number);
    }
}

/// Packets are iterated over by number, and are ack-eliciting until they are removed.
#[test]
fn packets_are_gone_over_upward(rt: HostRuntime) {
    let mut space = one_and_four(&rt, rt.alloc());
    assert_first(&rt, &space.sent_packets);
    holds(&rt, space.sent_packets.has_ack_eliciting(), 1);
    holds(&rt, takes(&mut space, 1) && takes(&mut space, 4), 4);
    holds(&rt, !space.sent_packets.has_ack_eliciting(), 4);
}

/// Packets 0 to 4 without 0, 2 and 3: the first packet at or above a number and below an end.
static RANGES: [(u64, u64, Option<u64>); 10] = [
    (0, 0, None),
    (0, 1, None),
    (0, 2, Some(1)),
    (1, 2, Some(1)),
    (2, 4, None),
    (2, 5, Some(4)),
    (2, u64::MAX, Some(4)),
    (3, 2, None),
    (4, 5, Some(4)),
    (5, u64::MAX, None),
];

/// For the same packets: whether a number is one of them, and how many have lower numbers.
static NUMBERS: [(u64, bool, usize); 6] = [
    (0, false, 0),
    (1, true, 0),
    (2, false, 1),
    (4, true, 1),
    (5, false, 2),
    (u64::MAX, false, 2),
];

/// Returns whether a count covers the packets with lower numbers, and is at most the count of all packets.
fn covers(count: usize, below: usize) -> bool {
    below <= count && count <= 2
}

/// Returns the number of the first packet at or above a number and below an end.
fn first_between(packets: &SentPackets<ItemQueue>, from: u64, end: u64) -> Option<u64> {
    match packets.tracked_between(from, end) {
        Some((found, _)) => Some(found),
        None => None,
    }
}

fn assert_between(rt: &impl Abort, packets: &SentPackets<ItemQueue>) {
    for (from, end, first) in &RANGES {
        holds(rt, first_between(packets, *from, *end) == *first, *from);
    }
}

fn assert_numbers(rt: &impl Abort, packets: &SentPackets<ItemQueue>) {
    for (number, is_tracked, below) in &NUMBERS {
        holds(rt, packets.get(*number).is_some() == *is_tracked, *number);
        holds(rt, covers(packets.count_below(*number), *below), *number);
    }
}

#[test]
fn packets_are_looked_up(rt: HostRuntime) {
    let space = one_and_four(&rt, rt.alloc());
    assert_between(&rt, &space.sent_packets);
    assert_numbers(&rt, &space.sent_packets);
}

type Slots = SlotQueue<SentPacket<ItemQueue>>;

/// Returns this many packets in slots, from number 0 on.
fn queued(rt: &impl Abort, alloc: Global, count: u64) -> Slots {
    let mut slots = SlotQueue::new(alloc);
    for number in 0..count {
        match slots.push(number, packet(alloc)) {
            Ok(()) => {}
            Err(AllocError) => panic!(rt; "{number}"),
        }
    }
    slots
}

/// Returns the number of the first packet of a range, and how many slots were read.
fn first_looked_at(slots: &Slots, from: u64, end: u64) -> (Option<u64>, usize) {
    match slots.entry_between(from, end) {
        (Some((found, _)), looks) => (Some(found), looks),
        (None, looks) => (None, looks),
    }
}

#[test]
fn slots_are_looked_up(rt: HostRuntime) {
    let mut slots = queued(&rt, rt.alloc(), 5);
    for number in [0, 2, 3] {
        holds(&rt, slots.take(number).is_some(), number);
    }
    for (from, end, first) in &RANGES {
        holds(&rt, first_looked_at(&slots, *from, *end).0 == *first, *from);
    }
    for (number, _, below) in &NUMBERS {
        holds(&rt, covers(slots.filled_below(*number), *below), *number);
    }
}

/// Returns the items of a packet, none if it is not stored.
fn items_of(slots: &Slots, number: u64) -> &[u64] {
    match slots.item_of(number) {
        Some(packet) => packet.retransmits.items(),
        None => &[],
    }
}

#[test]
fn a_queue_is_exchanged_in_its_slot(rt: HostRuntime) {
    let mut slots = queued(&rt, rt.alloc(), 5);
    let Ok(mut queue) = ItemQueue::from_slice(rt.alloc(), &[7]) else {
        panic!(&rt; "NoMemory");
    };
    holds(&rt, slots.exchange(3, &mut queue), 3);
    holds(&rt, queue.is_empty(&()), 3);
    holds(&rt, items_of(&slots, 3) == [7].as_slice(), 3);
    holds(&rt, !slots.exchange(5, &mut queue), 5);
}

/// Of packets 0 to 999, those from 1 to 500 are removed, and their slots stay. A search reads at most 10 slots, as 1000
/// slots are fewer than 2^10. A range reads one slot more for each from its start up to the packet that is found, or up
/// to its end, inclusive.
#[test]
fn an_emptied_range_takes_few_looks(rt: HostRuntime) {
    static LOOKS: [(u64, u64, Option<u64>, usize); 6] = [
        (0, 1, Some(0), 11),
        (1, 2, None, 12),
        (200, 203, None, 14),
        (499, 502, Some(501), 13),
        (900, 1000, Some(900), 11),
        (1000, u64::MAX, None, 11),
    ];
    let mut slots = queued(&rt, rt.alloc(), 1000);
    for number in 1..501 {
        holds(&rt, slots.take(number).is_some(), number);
    }
    holds(&rt, slots.len() == 1000, 1000);
    for (from, end, first, most) in &LOOKS {
        let (found, looks) = first_looked_at(&slots, *from, *end);
        holds(&rt, found == *first && looks <= *most, *from);
    }
}
