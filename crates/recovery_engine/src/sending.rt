//! A sender, and its last outcome.
ghost use Rattle.std.specs.Prelude.{◌≡◌, ◌<◌, ◌++◌, ◌∷◌, [], length, map, true, false, Decides};
ghost use Rattle.recovery_sender.specs.declared.sender.probes.Timeout.TheVariants.{Probe};
ghost use Rattle.recovery_sender.specs.Senders.{state_in};
ghost use Rattle.recovery_sender.specs.Spaces.{packets_in};
ghost use Rattle.recovery_engine.specs.Kept.{items_of, numbers_of, packets_listed, IsEmptyOutcome, HasLossesOnly};
ghost use Rattle.recovery_engine.specs.Replies.{plain};
ghost use Rattle.recovery_engine.specs.Sending.{acknowledged_spelled, confirmed, delayed_by, ecn_number, is_quiet, keyed, lost_alone, no_told, losses_spelled, range_given, refused_spelled, room_spelled, timeout_spelled, tells_more, told_shown, transmission_spelled, AckReply, ChallengeReply, DiscardReply, HasRoomFor, InitialRttReply, ProbeReply, TimeoutReply, RetransmitAllReply, UpdatesVariables, SenderCallReply, AckFrameReply, TransmitReply};

use crate::kept::ItemSender;
use crate::numbers::{
    ANSWER_ACKNOWLEDGED, ANSWER_BLOCKED, ANSWER_DELAYED, ANSWER_DONE, ANSWER_FULL, ANSWER_LOSSES,
    ANSWER_NEEDS_ROOM, ANSWER_NOTHING, ANSWER_PROBES, ANSWER_REFUSED, ANSWER_TRANSMITTED,
    ECN_FAILED, ECN_MARKED, ECN_QUIET, REFUSAL_DATA_SPACE, REFUSAL_UNSENT,
};
use crate::spelling::{EncodedReply, encode_number, encode_refusal, space_number};
use recovery_base::below::SpaceId;
use recovery_base::time::{Duration, Instant};
use recovery_losses::Ack;
use recovery_queue::items::ItemQueue;
use recovery_sender::{
    Acknowledged, EcnOutcome, Losses, NewlyAcked, Retransmitted, SenderError, Timeout, Transmission,
};
use recovery_spaces::sent_packets::SentPackets;
use std::alloc::Global;
use std::mem;

/// A range of numbers that an ACK frame acknowledges (RFC 9000, 19.3.1).
#[repr(C)]
#[derive(Clone, Copy)]
pub struct AckRange {
    /// The first number.
    pub first: u64,
    /// The last number.
    pub last: u64,
}

/// The outcome of a call, with the packets that it newly acknowledged.
#[derive(Drop)]
pub struct LastOutcome {
    pub acked: Acknowledged,
    /// For each of these packets, in increasing order: its number, its item count, and its items.
    pub packets: Vec<u64>,
}

/// A sender, and its last outcome.
#[derive(Drop)]
pub struct Sending {
    pub sender: ItemSender,
    /// The latest outcome: of an ACK frame, of a timeout that made a loss detection pass, or of a space whose packets
    /// were all declared lost. It is empty before the first.
    pub told: LastOutcome,
    /// The ranges of an ACK frame, kept for their memory.
    pub ranges: Vec<(u64, u64)>,
    /// The numbers that a frame newly acknowledges, kept for their memory.
    pub numbers_room: Vec<u64>,
    /// These packets, kept for their memory.
    pub packets_room: Vec<u64>,
}

/// The room that a caller has for what an ACK frame results in. If it is too little, nothing is done.
#[derive(Clone, Copy)]
pub struct AckRoom {
    /// How many words of newly acknowledged packets there is room for.
    pub packets: u64,
    /// How many lost numbers there is room for.
    pub lost: u64,
}

/// A received ACK frame, except its ranges, and the room that the caller has for what it results in.
#[derive(Clone, Copy)]
pub struct TakenAck {
    /// The space of the packets that it acknowledges.
    pub space: SpaceId,
    /// When it was received.
    pub now: Instant,
    /// Its fields, and what the caller knows at its arrival.
    pub ack: Ack,
    /// The room for what it results in.
    pub room: AckRoom,
}

/// A call of a sender; the ranges of an ACK frame are passed next to it.
#[derive(Clone, Copy)]
pub enum Call {
    /// Checks whether a datagram may be sent.
    Transmit {
        now: Instant,
        bytes: u16,
        space: SpaceId,
        in_flight: bool,
    },
    /// An ACK frame was received.
    TakeAck(TakenAck),
    /// The loss detection timer may be due.
    Expire(Instant),
    /// Discards a space with its keys.
    Discard {
        space: SpaceId,
        now: Instant,
    },
    /// Declares all packets of a space lost.
    RetransmitAll {
        space: SpaceId,
        now: Instant,
    },
    /// Handshake keys are available.
    HandshakeKeys,
    /// The handshake is confirmed.
    HandshakeConfirmed,
    /// The peer's max_ack_delay.
    PeerDelay(Duration),
    /// Sets the RTT that timers use before the first sample of the path in use.
    InitialRtt(Duration),
    /// The outstanding PATH_CHALLENGE frame of the path in use, if any, and whether one is to be sent.
    Challenge {
        challenge: Option<u64>,
        pending: bool,
    },
}

/// The last outcome: of an ACK frame, of a timeout that made a loss detection pass, or of a space whose packets were
/// all declared lost.
#[repr(C)]
#[derive(Clone, Copy)]
pub struct OutcomeView {
    /// How many numbers the frame newly acknowledged; else 0.
    pub acked: u64,
    /// How many numbers were declared lost, without that of the MTU probe.
    pub lost: u64,
    /// The number of the MTU probe, if it was lost: this does not indicate congestion (RFC 9000, 14.4).
    pub probe: u64,
    /// The bytes lost on the path in use, if there was congestion (RFC 9002, 7.3.2).
    pub congestion: u64,
    /// The outcome of the frame's ECN counts (RFC 9000, 13.4.2.1).
    pub ecn: u8,
    /// Whether the MTU probe was lost.
    pub has_probe: bool,
    /// Whether there was congestion.
    pub has_congestion: bool,
    /// Whether it is persistent (RFC 9002, 7.6).
    pub is_persistent: bool,
    /// Whether a black hole was reported (RFC 8899, 4.3).
    pub is_black_hole: bool,
    /// Whether allocation failed for a lost packet, which is then still tracked: the next timeout, or the same call for
    /// the space, declares it lost.
    pub is_cut: bool,
}

/// All packets of a space are lost, without congestion.
fn lost_alone(all: Retransmitted) -> Losses
    ensures { result ≡ lost_alone all }
{
    Losses {
        numbers: all.numbers,
        probe: None,
        congestion: None,
        is_persistent: false,
        is_black_hole: false,
        is_cut: all.is_cut,
    }
}

/// Returns an empty outcome. Allocates nothing.
fn no_outcome(alloc: Global) -> LastOutcome
    ensures { IsEmptyOutcome result }
{
    let none = Retransmitted {
        numbers: Vec::new(alloc),
        is_cut: false,
    };
    let acked = Acknowledged {
        numbers: Vec::new(alloc),
        losses: lost_alone(none),
        ecn: EcnOutcome::Quiet,
        rtt: None,
    };
    LastOutcome {
        acked,
        packets: Vec::new(alloc),
    }
}

fn ecn_number(ecn: EcnOutcome) -> u8
    ensures { result ≡ ecn_number ecn }
{
    match ecn {
        EcnOutcome::Quiet => ECN_QUIET,
        EcnOutcome::Marked => ECN_MARKED,
        EcnOutcome::Failed => ECN_FAILED,
    }
}

impl OutcomeView {
    /// Returns the outcome in numbers.
    pub fn of(told: &Acknowledged) -> OutcomeView
        ensures { result ≡ told_shown told.now }
    {
        let losses = &told.losses;
        OutcomeView {
            acked: told.numbers.len() as u64,
            lost: losses.numbers.len() as u64,
            probe: losses.probe.unwrap_or(0),
            congestion: losses.congestion.unwrap_or(0),
            ecn: ecn_number(told.ecn),
            has_probe: losses.probe.is_some(),
            has_congestion: losses.congestion.is_some(),
            is_persistent: losses.is_persistent,
            is_black_hole: losses.is_black_hole,
            is_cut: losses.is_cut,
        }
    }

    /// Returns the view if there is no sender or no outcome yet.
    pub fn none() -> OutcomeView
        ensures { result ≡ no_told }
    {
        OutcomeView {
            acked: 0,
            lost: 0,
            probe: 0,
            congestion: 0,
            ecn: ECN_QUIET,
            has_probe: false,
            has_congestion: false,
            is_persistent: false,
            is_black_hole: false,
            is_cut: false,
        }
    }
}

fn is_quiet(ecn: EcnOutcome) -> bool
    ensures { result ≡ is_quiet ecn }
{
    match ecn {
        EcnOutcome::Quiet => true,
        _ => false,
    }
}

/// Returns whether the outcome has more than the two counts.
fn tells_more(told: &Acknowledged) -> bool
    ensures { result ≡ tells_more told.now }
{
    let losses = &told.losses;
    losses.probe.is_some()
        || losses.congestion.is_some()
        || losses.is_black_hole
        || losses.is_cut
        || !is_quiet(told.ecn)
}

#[inline(always)]
fn spell_acknowledged(told: &Acknowledged) -> EncodedReply
    ensures { result ≡ acknowledged_spelled told.now }
{
    EncodedReply {
        first: told.numbers.len() as u64,
        second: told.losses.numbers.len() as u64,
        flag: tells_more(told),
        ..EncodedReply::plain(ANSWER_ACKNOWLEDGED)
    }
}

fn spell_refused(refused: SenderError) -> EncodedReply
    ensures { result ≡ refused_spelled refused }
{
    match refused {
        SenderError::Event(refusal) => encode_refusal(refusal),
        SenderError::Unsent => EncodedReply {
            refusal: REFUSAL_UNSENT,
            ..EncodedReply::plain(ANSWER_REFUSED)
        },
        SenderError::DataSpace => EncodedReply {
            refusal: REFUSAL_DATA_SPACE,
            ..EncodedReply::plain(ANSWER_REFUSED)
        },
    }
}

fn spell_transmission(sent: Transmission) -> EncodedReply
    ensures { result ≡ transmission_spelled sent }
{
    match sent {
        Transmission::Transmitted => EncodedReply::plain(ANSWER_TRANSMITTED),
        Transmission::Blocked => EncodedReply::plain(ANSWER_BLOCKED),
        Transmission::Full { ack } => EncodedReply {
            flag: ack,
            ..EncodedReply::plain(ANSWER_FULL)
        },
        Transmission::Delayed { until, ack } => EncodedReply {
            flag: ack,
            first: until.as_nanos(),
            ..EncodedReply::plain(ANSWER_DELAYED)
        },
    }
}

/// Encodes a loss detection pass over a space.
fn spell_losses(space: SpaceId) -> EncodedReply
    ensures { result ≡ losses_spelled space }
{
    encode_number(ANSWER_LOSSES, u64::from(space_number(space)))
}

/// Encodes that `count` probes are due in a space.
fn spell_probes(space: SpaceId, count: u8) -> EncodedReply
    ensures { result ≡ timeout_spelled (Probe space count) }
{
    EncodedReply {
        first: u64::from(space_number(space)),
        second: u64::from(count),
        ..EncodedReply::plain(ANSWER_PROBES)
    }
}

/// Fills a list with the given ranges in their order. Returns false if allocation fails.
#[inline(always)]
fn fill(ranges: &mut Vec<(u64, u64)>, given: &[AckRange]) -> bool
    ensures ranges { result ≡ true → ranges.new.items ≡ map range_given given.now }
    ensures memory { result ≡ false → 0 < length given.now }
{
    ranges.clear();
    if ranges.reserve(given.len()).is_err() {
        return false;
    }
    for range in given {
        ranges.push_reserved((range.first, range.last));
    }
    true
}

/// Returns the items of a tracked packet; none if it is not tracked.
#[inline(always)]
fn items_of(tracked: &SentPackets<ItemQueue>, number: u64) -> &[u64]
    ensures { result.now ≡ items_of tracked.now.packets number }
{
    match tracked.get(number) {
        Some(packet) => packet.retransmits.items(),
        None => &[],
    }
}

/// Appends a packet's number, item count and items to a list. Returns false if allocation fails.
#[inline(always)]
fn list_packet(number: u64, items: &[u64], packets: &mut Vec<u64>) -> bool
    ensures { result ≡ true
        → packets.new.items ≡ packets.old.items ++ number ∷ length items.now ∷ items.now }
{
    if packets.reserve(items.len() + 2).is_err() {
        return false;
    }
    packets.push_reserved(number);
    packets.push_reserved(items.len() as u64);
    for item in items {
        packets.push_reserved(*item);
    }
    true
}

/// Fills a list with these packets and their items. Returns false if allocation fails.
#[inline(always)]
fn list_packets(tracked: &SentPackets<ItemQueue>, numbers: &[u64], packets: &mut Vec<u64>) -> bool
    ensures { result ≡ true
        → packets.new.items ≡ packets_listed tracked.now.packets numbers.now }
{
    packets.clear();
    for number in numbers {
        if !list_packet(*number, items_of(tracked, *number), packets) {
            return false;
        }
    }
    true
}

/// Returns whether a caller has room for these packets, and for all numbers that may be lost then.
#[inline(always)]
fn has_room_for(room: &AckRoom, newly: &NewlyAcked, packets: &[u64]) -> bool
    ensures { Decides result (HasRoomFor room.now newly.now packets.now) }
{
    packets.len() as u64 <= room.packets && newly.lost.capacity() as u64 <= room.lost
}

/// Encodes how much room a caller needs for these packets, and for all numbers that may be lost then.
fn spell_room(newly: &NewlyAcked, packets: &[u64]) -> EncodedReply
    ensures { result ≡ room_spelled newly.now packets.now }
{
    EncodedReply {
        first: packets.len() as u64,
        second: newly.lost.capacity() as u64,
        ..EncodedReply::plain(ANSWER_NEEDS_ROOM)
    }
}

impl Sending {
    /// Returns a sender without an outcome. Allocates nothing.
    pub fn new(alloc: Global, sender: ItemSender) -> Sending
        ensures sender { result.sender ≡ sender }
        ensures told { IsEmptyOutcome result.told }
    {
        Sending {
            sender,
            told: no_outcome(alloc),
            ranges: Vec::new(alloc),
            numbers_room: Vec::new(alloc),
            packets_room: Vec::new(alloc),
        }
    }

    /// Returns the numbers that were newly acknowledged, or those that were declared lost.
    pub fn numbers(&self, lost: bool) -> &[u64]
        ensures { result.now ≡ numbers_of lost self.now.told.acked }
    {
        let acked = &self.told.acked;
        if lost {
            acked.losses.numbers.as_slice()
        } else {
            acked.numbers.as_slice()
        }
    }

    /// Makes a call.
    #[inline(always)]
    pub fn call_sender(&mut self, alloc: Global, call: Call, ranges: &[AckRange]) -> EncodedReply
        ensures { SenderCallReply call ranges.now self.old result self.new }
    {
        match call {
            Call::Transmit {
                now,
                bytes,
                space,
                in_flight,
            } => self.transmit(now, bytes, space, in_flight),
            Call::TakeAck(frame) => self.take_frame_apart(alloc, frame, ranges),
            Call::Expire(now) => self.expire(now),
            Call::Discard { space, now } => self.discard(space, now),
            Call::RetransmitAll { space, now } => self.retransmit_all(space, now),
            Call::HandshakeKeys => self.handshake_keys(),
            Call::HandshakeConfirmed => self.handshake_confirmed(),
            Call::PeerDelay(span) => self.peer_delay(span),
            Call::InitialRtt(rtt) => self.initial_rtt(rtt),
            Call::Challenge { challenge, pending } => self.challenge(challenge, pending),
        }
    }

    fn transmit(
        &mut self,
        now: Instant,
        bytes: u16,
        space: SpaceId,
        in_flight: bool,
    ) -> EncodedReply
        ensures { TransmitReply now bytes space in_flight self.old result self.new }
    {
        match self.sender.transmit(now, bytes, space, in_flight) {
            Ok(sent) => spell_transmission(sent),
            Err(refused) => spell_refused(refused),
        }
    }

    /// Processes a frame with these ranges: the call [`Call::TakeAck`]. One of 1-RTT packets is processed inline, and
    /// the compiler knows their space there.
    #[inline(always)]
    pub fn take_ack(&mut self, alloc: Global, frame: TakenAck, given: &[AckRange]) -> EncodedReply
        ensures { AckFrameReply frame given.now self.old result self.new }
    {
        match frame.space {
            SpaceId::Data => self.take_frame(alloc, frame, given),
            // Rebuilt: else every frame is written to memory for the call out of line.
            space => self.take_frame_apart(alloc, TakenAck { space, ..frame }, given),
        }
    }

    /// Processes a frame with these ranges, out of line.
    #[inline(never)]
    fn take_frame_apart(
        &mut self,
        alloc: Global,
        frame: TakenAck,
        given: &[AckRange],
    ) -> EncodedReply
        ensures { AckFrameReply frame given.now self.old result self.new }
    {
        self.take_frame(alloc, frame, given)
    }

    /// Processes a frame with these ranges. All memory is allocated before the sender changes.
    #[inline(always)]
    fn take_frame(&mut self, alloc: Global, frame: TakenAck, given: &[AckRange]) -> EncodedReply
        ensures { AckFrameReply frame given.now self.old result self.new }
    {
        if !fill(&mut self.ranges, given) {
            return EncodedReply::no_memory();
        }
        let numbers = mem::replace(&mut self.numbers_room, Vec::new(alloc));
        let newly = match self.sender.newly_acked(frame.space, &self.ranges, numbers) {
            Ok(newly) => newly,
            Err(refused) => return spell_refused(refused),
        };
        let Some(here) = self.sender.recovery().space(frame.space) else {
            unreachable!();
        };
        if !list_packets(&here.sent_packets, &newly.numbers, &mut self.packets_room) {
            self.numbers_room = newly.numbers;
            return EncodedReply::no_memory();
        }
        if !has_room_for(&frame.room, &newly, &self.packets_room) {
            let needed = spell_room(&newly, &self.packets_room);
            self.numbers_room = newly.numbers;
            return needed;
        }
        let acked = self
            .sender
            .on_newly_acked(frame.space, frame.now, &self.ranges, frame.ack, newly);
        let reply = spell_acknowledged(&acked);
        self.keep(acked);
        reply
    }

    /// Stores the outcome of an ACK frame with the packets that were listed for it, and the lists of the previous one
    /// for their memory.
    #[inline(always)]
    fn keep(&mut self, acked: Acknowledged)
        ensures acked { self.new.told.acked ≡ acked }
        ensures packets { self.new.told.packets ≡ self.old.packets_room }
        ensures sender { self.new.sender ≡ self.old.sender }
    {
        mem::swap(&mut self.told.packets, &mut self.packets_room);
        let before = mem::replace(&mut self.told.acked, acked);
        self.numbers_room = before.numbers;
    }

    /// Stores the losses of a timeout, or of a space whose packets are all declared lost. Allocates nothing.
    fn keep_losses(&mut self, losses: Losses)
        ensures told { HasLossesOnly losses self.new.told }
        ensures sender { self.new.sender ≡ self.old.sender }
    {
        self.told.acked.numbers.clear();
        self.told.acked.losses = losses;
        self.told.acked.ecn = EcnOutcome::Quiet;
        self.told.packets.clear();
    }

    fn expire(&mut self, now: Instant) -> EncodedReply
        ensures { TimeoutReply now self.old result self.new }
    {
        match self.sender.on_timeout(now) {
            Ok(Timeout::Nothing) => EncodedReply::plain(ANSWER_NOTHING),
            Ok(Timeout::Lost { space, losses }) => {
                self.keep_losses(losses);
                spell_losses(space)
            }
            Ok(Timeout::Probe { space, count }) => spell_probes(space, count),
            Err(refused) => spell_refused(refused),
        }
    }

    /// Returns the contents of a probe in a space, or the error in numbers.
    pub fn probe(&mut self, space: SpaceId, immediate_ack: bool) -> Result<ItemQueue, EncodedReply>
        ensures { ProbeReply space immediate_ack self.old result self.new }
    {
        match self.sender.probe(space, immediate_ack, ()) {
            Ok(queue) => Ok(queue),
            Err(refused) => Err(spell_refused(refused)),
        }
    }

    fn discard(&mut self, space: SpaceId, now: Instant) -> EncodedReply
        ensures { DiscardReply space now self.old result self.new }
    {
        match self.sender.discard(space, now) {
            Ok(()) => EncodedReply::plain(ANSWER_DONE),
            Err(refused) => spell_refused(refused),
        }
    }

    fn retransmit_all(&mut self, space: SpaceId, now: Instant) -> EncodedReply
        ensures { RetransmitAllReply space now self.old result self.new }
    {
        match self.sender.retransmit_all(space, now) {
            Ok(all) => {
                self.keep_losses(lost_alone(all));
                EncodedReply::plain(ANSWER_LOSSES)
            }
            Err(refused) => spell_refused(refused),
        }
    }

    fn handshake_keys(&mut self) -> EncodedReply
        ensures { UpdatesVariables keyed self.old result self.new }
    {
        self.sender.on_handshake_keys();
        EncodedReply::plain(ANSWER_DONE)
    }

    fn handshake_confirmed(&mut self) -> EncodedReply
        ensures { UpdatesVariables confirmed self.old result self.new }
    {
        self.sender.on_handshake_confirmed();
        EncodedReply::plain(ANSWER_DONE)
    }

    fn peer_delay(&mut self, span: Duration) -> EncodedReply
        ensures { UpdatesVariables (delayed_by span) self.old result self.new }
    {
        self.sender.set_peer_max_ack_delay(span);
        EncodedReply::plain(ANSWER_DONE)
    }

    fn initial_rtt(&mut self, rtt: Duration) -> EncodedReply
        ensures { InitialRttReply rtt self.old result self.new }
    {
        self.sender.set_initial_rtt(rtt);
        EncodedReply::plain(ANSWER_DONE)
    }

    fn challenge(&mut self, challenge: Option<u64>, pending: bool) -> EncodedReply
        ensures { ChallengeReply challenge pending self.old result self.new }
    {
        self.sender.set_challenge(challenge, pending);
        EncodedReply::plain(ANSWER_DONE)
    }
}
