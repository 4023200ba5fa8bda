//! Packet number spaces and paths. States that no run reaches, since too many numbers or bytes precede them, are proved
//! and not run.
ghost use Rattle.std.specs.Prelude.{◌≡◌, IfSome, true};

use crate::driver::holds;
use quic_recovery::Recovery;
use quic_recovery_rows::tally::Tally;
use rand_pcg::Pcg32;
use recovery_base::below::{EcnCounts, IssuedCid};
use recovery_base::time::Instant;
use recovery_congestion::congestion::{NewReno, NewRenoConfig};
use recovery_events::event::{Answer, Event, Refusal};
use recovery_paths::paths::PathData;
use recovery_spaces::paths::LedgerError;
use recovery_spaces::spaces::{NUMBER_LIMIT, PacketSpace, SentPacket};
use std::alloc::Global;

fn at(nanos: u64) -> Instant
    ensures { result ≡ nanos }
{
    Instant::from_nanos(nanos)
}

fn packet(path_generation: u64, size: u16) -> SentPacket<Tally>
    ensures path { result.path_generation ≡ path_generation }
    ensures counted { (result.size ≡ size) × (result.ack_eliciting ≡ true) }
{
    SentPacket {
        path_generation,
        time_sent: at(0),
        size,
        ack_eliciting: true,
        largest_acked: None,
        retransmits: Tally { bytes: 0 },
        stream_frames: 0,
    }
}

#[test]
fn a_space_begins_at_0(rt: HostRuntime) {
    let mut space = PacketSpace::<Tally>::new(rt.alloc(), at(0));
    let is_first = space.get_tx_number() == Some(0) && space.sent_with_keys == 1;
    let is_empty = space.take(0).is_none() && space.take_first().is_none();
    holds(&rt, is_first && is_empty, 0);
}

/// Returns what the caller stored about the one packet that was sent, as it is returned with it.
fn frames_back(alloc: Global, frames: u64, as_first: bool) -> Option<u64>
    ensures { IfSome result (λ back. back ≡ frames) }
{
    let mut space = PacketSpace::<Tally>::new(alloc, at(0));
    let mut sent = packet(0, 9);
    sent.stream_frames = frames;
    if space.sent_packets.insert(0, sent).is_err() {
        None
    } else if as_first {
        match space.take_first() {
            Some((_, packet)) => Some(packet.stream_frames),
            None => None,
        }
    } else {
        match space.take(0) {
            Some(packet) => Some(packet.stream_frames),
            None => None,
        }
    }
}

#[test]
fn frames_come_back_with_their_packet(rt: HostRuntime) {
    holds(&rt, frames_back(rt.alloc(), 7, false) == Some(7), 0);
    holds(&rt, frames_back(rt.alloc(), 7, true) == Some(7), 1);
}

/// How many packets are newly acknowledged, the counts, and the reported fault.
static FAULTS: [(u64, (u64, u64, u64), &str); 5] = [
    (9, (0, 0, 0), "peer ECT(0) count regression"),
    (9, (1, 0, 0), "peer ECT(1) count regression"),
    (9, (1, 1, 0), "peer CE count regression"),
    (9, (1, 9, 1), "ECN bleaching"),
    (8, (1, 9, 1), "ECN corruption"),
];

/// The first fault in order is reported, and rejected counts do not replace the old ones. No run has counts of ECT(1).
#[test]
fn counts_of_ecn_fail_in_order(rt: HostRuntime) {
    let last = EcnCounts {
        ect0: 1,
        ect1: 1,
        ce: 1,
    };
    let mut space = PacketSpace::<Tally>::new(rt.alloc(), at(0));
    space.ecn_feedback = last;
    for (newly_acked, counts, text) in &FAULTS {
        let (ect0, ect1, ce) = *counts;
        let found = space.detect_ecn(*newly_acked, EcnCounts { ect0, ect1, ce });
        let is_wanted = found == Err(*text) && space.ecn_feedback == last;
        holds(&rt, is_wanted, *newly_acked);
    }
}

fn the_numbers_end_at_2_to_62(space: &mut PacketSpace<Tally>) {
    if space.next_packet_number() != NUMBER_LIMIT - 1 || space.sent_with_keys != 1 {
        return;
    }
    let last = space.get_tx_number();
    prove!(last == Some(NUMBER_LIMIT - 1));
    let none = space.get_tx_number();
    prove!(none == None);
    let next = space.next_packet_number();
    prove!(next == NUMBER_LIMIT);
    prove!(space.sent_with_keys == 2);
}

fn a_sum_past_the_end_is_refused(path: &mut PathData<NewReno>, alloc: Global) {
    let full = path.in_flight();
    if full.bytes != u64::MAX - 9 || full.ack_eliciting != 0 {
        return;
    }
    let mut space = PacketSpace::<Tally>::new(alloc, at(0));
    let packet = packet(path.generation(), 10);
    let is_refused = matches!(path.sent(0, packet, &mut space), Err(LedgerError::Overflow));
    prove!(is_refused);
    let left = path.in_flight();
    prove!(left.bytes == u64::MAX - 9);
    prove!(left.ack_eliciting == 0);
}

fn a_sum_at_the_end_is_not(path: &mut PathData<NewReno>, alloc: Global) {
    let full = path.in_flight();
    if full.bytes != u64::MAX - 9 || full.ack_eliciting != 0 {
        return;
    }
    let mut space = PacketSpace::<Tally>::new(alloc, at(0));
    let packet = packet(path.generation(), 9);
    match path.sent(0, packet, &mut space) {
        Ok(_) => {
            let left = path.in_flight();
            prove!(left.bytes == u64::MAX);
            prove!(left.ack_eliciting == 1);
        }
        Err(LedgerError::Overflow) => unreachable!(),
        Err(LedgerError::NoMemory) => {}
    }
}

fn no_id_is_issued_past_2_to_62(
    recovery: &mut Recovery<NewRenoConfig, Tally, Pcg32>,
    more: Vec<IssuedCid>,
) {
    let issued = recovery.local_ids().issued();
    let count = more.len() as u64;
    let now = at(0);
    let reply = recovery.apply(Event::IssueIds { now, ids: more });
    let is_refused = matches!(&reply, Err(Refusal::NumberTooLarge));
    if issued == NUMBER_LIMIT - 2 && count == 2 {
        prove!(!is_refused);
    }
    if issued == NUMBER_LIMIT - 1 && count == 2 {
        prove!(is_refused);
    }
    if issued == NUMBER_LIMIT && count == 0 {
        prove!(!is_refused);
    }
}

fn a_total_past_the_end_is_refused(
    recovery: &mut Recovery<NewRenoConfig, Tally, Pcg32>,
    checked: bool,
) {
    let total = recovery.current().total_sent;
    if total < u64::MAX - 9 {
        return;
    }
    let now = at(0);
    let bytes = 10;
    let event = Event::Transmit {
        now,
        bytes,
        checked,
    };
    let reply = recovery.apply(event);
    let is_refused = matches!(&reply, Err(Refusal::Overflow));
    prove!(is_refused);
    prove!(recovery.current().total_sent == total);
}

fn a_total_at_the_end_is_not(recovery: &mut Recovery<NewRenoConfig, Tally, Pcg32>) {
    if recovery.current().total_sent != u64::MAX - 9 {
        return;
    }
    let event = Event::Transmit {
        now: at(0),
        bytes: 9,
        checked: false,
    };
    let reply = recovery.apply(event);
    let is_transmitted = matches!(&reply, Ok(Answer::Transmitted));
    prove!(is_transmitted);
    prove!(recovery.current().total_sent == u64::MAX);
}
