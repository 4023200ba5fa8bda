//! The state of each packet number space (RFC 9000, 12.3): received numbers, sent numbers, tracked packets, the
//! retransmission queue, and what probes ask for.
ghost use Rattle.std.specs.Prelude.{◌≡◌, ◌≢◌, ◌<◌, ◌≤◌, ◌^◌, ◌∷◌, [], IfOk, OnOk, OnErr, IfSome, IfNone, IsSome, None, Some, MatchOption, MatchResult, false, not, ◌||◌, nat_lt, option_map};
ghost use Rattle.std.specs.Option.{is_some};
ghost use Rattle.recovery_base.specs.declared.below.SpaceId.{SpaceId};
ghost use Rattle.recovery_base.specs.Ecn.{ecn_fault};
ghost use Rattle.recovery_base.specs.Units.{number_limit};
ghost use Rattle.recovery_spaces.specs.Packets.{IsTooLarge, packet_at, with_contents};
ghost use Rattle.recovery_spaces.specs.Probes.{probe_found};
ghost use Rattle.recovery_spaces.specs.Queued.{IsSendable};
ghost use Rattle.recovery_spaces.specs.SpaceLog.{loses, probes, takes_pending, feeds_back};
ghost use Rattle.recovery_spaces.specs.Spaces.{space_of, tracking_of, with_tracking, packets_of, acks_of, queued_of, with_acks, next_number_of, IsMade, after_number, after_eliciting, after_acknowledging, space_takes, space_moves, space_probes, HasGreatestCome, SpaceStep, ReceiveReply, heard_of, arrives, SubtractsLargest};

use crate::sent_packets::SentPackets;
use recovery_acks::PendingAcks;
use recovery_base::below::{EcnCounts, NoMemory, SpaceId};
use recovery_base::dedup::Dedup;
use recovery_base::time::Instant;
use recovery_queue::queue::RetransmitQueue;
use std::alloc::Global;
use std::marker::Model;
use std::mem;
use std::ops::{Index, IndexMut};
use thiserror::Error;

/// One more than the largest packet number (RFC 9000, 12.3).
pub const NUMBER_LIMIT: u64 = 1 << 62;

/// A packet that was sent and is tracked: not yet acknowledged, lost, forgotten or discarded (RFC 9002, A.1.1).
#[derive(Drop)]
pub struct SentPacket<Q: RetransmitQueue> {
    /// The generation of the path on which it was sent.
    pub path_generation: u64,
    /// When it was sent.
    pub time_sent: Instant,
    /// Its size in bytes; 0 if congestion control does not count it.
    pub size: u16,
    /// Whether it is ack-eliciting (RFC 9002, 2).
    pub ack_eliciting: bool,
    /// The largest packet number that its ACK frame acknowledges, if it has one.
    pub largest_acked: Option<u64>,
    /// Its contents, which are retransmitted if it is lost (RFC 9000, 13.3).
    pub retransmits: Q,
    /// What the caller stores about its STREAM frames.
    pub stream_frames: Q::Meta,
}

impl<Q: RetransmitQueue> Model for SentPacket<Q> {
    ghost use Rattle.recovery_spaces.specs.Packets.{Packet};

    ghost Value = { Packet Q.Contents Q.Meta };

    ghost view = { λ packet. record {
      path_generation = packet.path_generation;
      time_sent = packet.time_sent;
      size = packet.size;
      ack_eliciting = packet.ack_eliciting;
      largest_acked = packet.largest_acked;
      retransmits = Q.contents packet.retransmits;
      stream_frames = packet.stream_frames;
    } };
}

/// The outcome of a received packet in its space.
#[derive(Clone, Copy)]
pub enum Receipt {
    /// Its number is new.
    New {
        /// Whether the ACK delay timer starts (RFC 9000, 13.2.1: max_ack_delay).
        arm: bool,
    },
    /// Its number may have been received before (RFC 9000, 12.3).
    Duplicate,
}

/// Why a received packet is rejected. Its space is then unchanged.
#[derive(Clone, Copy, Debug, Error)]
pub enum ReceiveError {
    /// The number is 2^62 or more (RFC 9000, 12.3).
    #[error("a number is 2^62 or more")]
    NumberTooLarge,
    /// An allocation failed.
    #[error("out of memory")]
    NoMemory,
}

/// What a space has to send.
#[derive(Clone, Copy, PartialEq, Eq)]
pub struct SendableFrames {
    /// An ACK is required, and some number is to be acknowledged (RFC 9000, 13.2).
    pub acks: bool,
    /// There is something else: contents to retransmit, a PING, or a request for an immediate ACK.
    pub other: bool,
}

impl SendableFrames {
    /// Returns the value for nothing to send.
    pub fn empty() -> Self
        ensures { result ≡ record { acks = false; other = false } }
    {
        SendableFrames {
            acks: false,
            other: false,
        }
    }

    /// Returns whether there is nothing to send.
    pub fn is_empty(&self) -> bool
        ensures { result ≡ not (self.now.acks || self.now.other) }
    {
        !self.acks && !self.other
    }
}

/// The state of one packet number space (RFC 9000, 12.3).
#[derive(Drop)]
pub struct PacketSpace<Q: RetransmitQueue> {
    /// The packet numbers received.
    pub dedup: Dedup,
    /// What is to be acknowledged, and when.
    pub pending_acks: PendingAcks,
    /// The largest packet number received; 0 before the first.
    pub rx_packet: u64,
    /// The largest acknowledged packet number.
    pub largest_acked_packet: Option<u64>,
    /// When that packet was sent; before any was acknowledged, when the space was made.
    pub largest_acked_packet_sent: Instant,
    /// When the last ack-eliciting packet was sent.
    pub time_of_last_ack_eliciting_packet: Option<Instant>,
    /// How many probe packets are still to be sent (RFC 9002, 6.2.4); stops at `u32::MAX`.
    pub loss_probes: u32,
    /// How many packet numbers were assigned or skipped; stops at `u64::MAX`.
    pub sent_with_keys: u64,
    /// The retransmission queue: contents of packets that were lost or found by a probe (RFC 9000, 13.3).
    pub pending: Q,
    /// Whether to send a PING, since a probe found nothing else (RFC 9002, 6.2.4).
    pub ping_pending: bool,
    /// Whether to ask the peer for an immediate ACK (draft-ietf-quic-ack-frequency-04, section 5).
    pub immediate_ack_pending: bool,
    /// How many packets were received with each ECN codepoint (RFC 9000, 13.4.1).
    pub ecn_counters: EcnCounts,
    /// The counts of the peer's last ACK frame that passed the check (RFC 9000, 13.4.2). The peer counts by space, and
    /// ACKs of two spaces are received in any order. Against one sum for all spaces, honest counts could seem to
    /// decrease.
    pub ecn_feedback: EcnCounts,
    /// When a packet is to be declared lost, if one may be (RFC 9002, 6.1.2).
    pub loss_time: Option<Instant>,
    /// How many bytes of CRYPTO frames were sent: the offset of the next one (RFC 9000, 19.6).
    pub crypto_offset: u64,
    /// The tracked packets, by number (RFC 9002, A.1).
    pub sent_packets: SentPackets<Q>,
    next_packet_number: u64,
    alloc: Global,
}

impl<Q: RetransmitQueue> Model for PacketSpace<Q> {
    ghost use Rattle.recovery_spaces.specs.Spaces.{Space};

    ghost Value = { Space Q.Contents Q.Meta };

    ghost view = { λ space. record {
      dedup = space.dedup;
      pending_acks = space.pending_acks;
      rx_packet = space.rx_packet;
      largest_acked_packet = space.largest_acked_packet;
      largest_acked_packet_sent = space.largest_acked_packet_sent;
      time_of_last_ack_eliciting_packet = space.time_of_last_ack_eliciting_packet;
      loss_probes = space.loss_probes;
      sent_with_keys = space.sent_with_keys;
      next_packet_number = space.next_packet_number;
      sent_packets = space.sent_packets;
      pending = Q.contents space.pending;
      ping_pending = space.ping_pending;
      immediate_ack_pending = space.immediate_ack_pending;
      ecn_counters = space.ecn_counters;
      ecn_feedback = space.ecn_feedback;
      loss_time = space.loss_time;
      crypto_offset = space.crypto_offset;
    } };
}

impl<Q> PacketSpace<Q>
where
    Q: RetransmitQueue,
{
    /// Returns a space in which nothing was received or sent.
    pub fn new(alloc: Global, now: Instant) -> Self
        ensures { IsMade Q.words now result }
    {
        PacketSpace {
            dedup: Dedup::new(),
            pending_acks: PendingAcks::new(alloc),
            rx_packet: 0,
            largest_acked_packet: None,
            largest_acked_packet_sent: now,
            time_of_last_ack_eliciting_packet: None,
            loss_probes: 0,
            sent_with_keys: 0,
            pending: Q::empty(alloc),
            ping_pending: false,
            immediate_ack_pending: false,
            ecn_counters: EcnCounts::ZERO,
            ecn_feedback: EcnCounts::ZERO,
            loss_time: None,
            crypto_offset: 0,
            next_packet_number: 0,
            sent_packets: SentPackets::new(alloc),
            alloc,
        }
    }

    /// Returns the number of the next packet, 0 to 2^62; at 2^62 there is none left (RFC 9000, 12.3).
    pub fn next_packet_number(&self) -> u64
        ensures { result ≡ next_number_of self.now }
    {
        self.next_packet_number
    }

    /// Assigns the next packet number, below 2^62. Returns `None` and changes nothing if it would be 2^62 (RFC 9000,
    /// 12.3).
    pub fn get_tx_number(&mut self) -> Option<u64>
        ensures number { IfSome result (λ number. number ≡ next_number_of self.old) }
        ensures limit { IfSome result (λ number. number < number_limit) }
        ensures given { IfSome result (λ number. self.new ≡ after_number number self.old) }
        ensures none { IfNone result (number_limit ≤ next_number_of self.old) }
        ensures unchanged { IfNone result (self.new ≡ self.old) }
    {
        let number = self.next_packet_number;
        if number >= NUMBER_LIMIT {
            return None;
        }
        self.give_out(number);
        Some(number)
    }

    /// Marks the numbers from the next one to this one as assigned or skipped.
    fn give_out(&mut self, number: u64)
        requires above { next_number_of self.old ≤ number }
        requires small { number < number_limit }
        ensures { self.new ≡ after_number number self.old }
    {
        let count = number + 1 - self.next_packet_number;
        self.sent_with_keys = self.sent_with_keys.saturating_add(count);
        self.next_packet_number = number + 1;
    }

    /// Records a received packet. Returns whether it is new, and whether to start the ACK delay timer (RFC 9000, 13.2).
    /// Rejected with `NumberTooLarge`, then with `NoMemory`, which never answers a duplicate. An error leaves the space
    /// unchanged.
    pub fn receive(
        &mut self,
        now: Instant,
        number: u64,
        ack_eliciting: bool,
    ) -> Result<Receipt, ReceiveError>
        requires received { HasGreatestCome self.old }
        ensures reply { ReceiveReply
            (heard_of self.old) (acks_of self.old).counts number ack_eliciting result }
        ensures step { IfOk result
            (λ receipt. SpaceStep Q.words (arrives now number ack_eliciting receipt)
            self.old self.new) }
        ensures refused { OnErr result (self.new ≡ self.old) }
    {
        if number >= NUMBER_LIMIT {
            return Err(ReceiveError::NumberTooLarge);
        }
        let before = self.dedup;
        if self.dedup.insert(number) {
            return Ok(Receipt::Duplicate);
        }
        match self.pending_acks.insert_one(number, now) {
            Ok(()) => {}
            Err(NoMemory) => {
                self.dedup = before;
                return Err(ReceiveError::NoMemory);
            }
        }
        self.rx_packet = self.rx_packet.max(number);
        let arm = self
            .pending_acks
            .packet_received(now, number, ack_eliciting, &self.dedup);
        Ok(Receipt::New { arm })
    }

    /// Removes the packet of a number, as [`SentPackets::remove`].
    #[inline(always)]
    pub fn take(&mut self, number: u64) -> Option<SentPacket<Q>>
        ensures packet { result ≡ packet_at (packets_of self.old) number }
        ensures after { self.new ≡ space_takes number self.old }
        ensures none { IfNone result (self.new ≡ self.old) }
    {
        self.sent_packets.remove(number)
    }

    /// Removes the packet with the smallest number, as [`SentPackets::pop_first`].
    pub fn take_first(&mut self) -> Option<(u64, SentPacket<Q>)>
        ensures first { MatchOption result (packets_of self.old ≡ [])
            (λ entry. packets_of self.old ≡ entry ∷ packets_of self.new) }
        ensures last { (tracking_of self.new).last_eliciting
            ≡ (tracking_of self.old).last_eliciting }
        ensures others { self.new ≡ with_tracking (tracking_of self.new) self.old }
        ensures none { IfNone result (self.new ≡ self.old) }
    {
        self.sent_packets.pop_first()
    }

    /// Records that a packet was tracked under a number and sent at this time. The number is assigned, and those from
    /// the next one up to it are skipped (RFC 9000, 21.4). An ack-eliciting packet sets the time of the last one, and
    /// counts as one of the probes still to be sent.
    #[inline(always)]
    pub fn on_sent(&mut self, number: u64, ack_eliciting: bool, now: Instant)
        requires above { next_number_of self.old ≤ number }
        requires small { number < number_limit }
        ensures { self.new ≡ after_eliciting ack_eliciting now (after_number number self.old) }
    {
        self.give_out(number);
        if ack_eliciting {
            self.time_of_last_ack_eliciting_packet = Some(now);
            self.loss_probes = self.loss_probes.saturating_sub(1);
        }
    }

    /// Records that a packet is acknowledged: stores the largest number, and drops the pending ACKs up to the largest
    /// number in the packet's own ACK frame (RFC 9000, 13.2.4).
    #[inline(always)]
    pub fn on_acked(&mut self, number: u64, packet: &SentPacket<Q>)
        requires { ¬ IsTooLarge packet.now.largest_acked }
        ensures subtracts { SubtractsLargest packet.now.largest_acked
            (acks_of self.old) (acks_of self.new) }
        ensures others { self.new
            ≡ with_acks (acks_of self.new)
            (after_acknowledging number packet.now.time_sent self.old) }
    {
        if let Some(largest) = packet.largest_acked {
            self.pending_acks.subtract_below(largest);
        }
        let is_largest = match self.largest_acked_packet {
            Some(largest) => largest < number,
            None => true,
        };
        if is_largest {
            self.largest_acked_packet = Some(number);
            self.largest_acked_packet_sent = packet.time_sent;
        }
    }

    /// Appends the contents of a tracked packet to the retransmission queue (RFC 9000, 13.3). The packet is left with
    /// an empty queue. Returns false and changes nothing if it is not tracked. `NoMemory`, which occurs only for a
    /// tracked packet, changes nothing. Cost: logarithmic in the packets tracked, plus that of the queue's `append`.
    #[inline(always)]
    pub fn queue_lost(&mut self, number: u64) -> Result<bool, NoMemory>
        ensures found { IfOk result
            (λ found. found ≡ is_some (packet_at (packets_of self.old) number)) }
        ensures tracked { OnErr result (packet_at (packets_of self.old) number ≢ None) }
        ensures after { OnOk result (self.new ≡ space_moves Q.words number self.old) }
        ensures err { OnErr result (self.new ≡ self.old) }
    {
        let mut queue = Q::empty(self.alloc);
        if !self.sent_packets.swap_queue(number, &mut queue) {
            return Ok(false);
        }
        match self.pending.append(queue) {
            Ok(()) => Ok(true),
            Err(mut queue) => {
                self.sent_packets.swap_queue(number, &mut queue);
                Err(NoMemory)
            }
        }
    }

    /// Declares a packet lost (RFC 9002, A.10): appends its contents to the retransmission queue, removes the packet
    /// and returns it with an empty queue. Returns `None` and changes nothing if it is not tracked; `NoMemory` does not
    /// occur then. `NoMemory` changes nothing. Cost: as `queue_lost`.
    #[inline(always)]
    pub fn lose(&mut self, number: u64) -> Result<Option<SentPacket<Q>>, NoMemory>
        ensures packet { IfOk result (λ packet. packet
            ≡ option_map (with_contents Q.words.empty) (packet_at (packets_of self.old) number)) }
        ensures tracked { OnErr result (packet_at (packets_of self.old) number ≢ None) }
        ensures step { OnOk result (SpaceStep Q.words (loses number) self.old self.new) }
        ensures none { IfOk result (λ packet. IfNone packet (self.new ≡ self.old)) }
        ensures err { OnErr result (self.new ≡ self.old) }
    {
        self.queue_lost(number)?;
        Ok(self.take(number))
    }

    /// Finds contents to send with a probe, if one is to be sent (RFC 9002, 6.2.4). If the retransmission queue is not
    /// empty, it serves. If it is, the contents of the first packet that has some are moved into it. If none has, a
    /// PING is requested, unless the peer is to be asked for an immediate ACK, by a frame that is ack-eliciting itself.
    /// `request_immediate_ack` requests that frame.
    ///
    /// A packet is declared lost only once the peer acknowledged a later one, so the loss of a flight's last packets
    /// does not show. A probe makes the peer answer, and what it carries should be useful (RFC 9002, 6.2). The oldest
    /// contents are the most likely to be missing. They are moved and not copied: otherwise they would be sent a third
    /// time if their first packet is declared lost after all. A PING remains for a client whose server may send no more
    /// before it receives something (RFC 9002, 6.2.2.1).
    ///
    /// `NoMemory`, which occurs only if contents are to be moved, changes nothing. Cost: that of `find`, plus the
    /// packets that are passed over: one that is known to have nothing (`RetransmitQueue::is_void`) once, another each
    /// time.
    pub fn maybe_queue_probe(
        &mut self,
        request_immediate_ack: bool,
        streams: &Q::Streams,
    ) -> Result<(), NoMemory>
        ensures none { self.old.loss_probes ≡ 0 → self.new ≡ self.old }
        ensures some { OnOk result (0 < self.old.loss_probes → self.new
            ≡ space_probes Q.words request_immediate_ack
            (probe_found Q.words streams.now self.old.pending (packets_of self.old)) self.old) }
        ensures moves { OnErr result (IsSome
            (probe_found Q.words streams.now self.old.pending (packets_of self.old)).moved) }
        ensures err { OnErr result (self.new ≡ self.old) }
    {
        if self.loss_probes == 0 {
            return Ok(());
        }
        let mut is_nothing = false;
        if self.pending.is_empty(streams) {
            match self.sent_packets.first_filled(streams) {
                Some(number) => {
                    self.queue_lost(number)?;
                }
                None => is_nothing = true,
            }
        }
        self.immediate_ack_pending = request_immediate_ack || self.immediate_ack_pending;
        self.ping_pending = self.ping_pending || (is_nothing && !self.immediate_ack_pending);
        Ok(())
    }

    /// Requests a probe (RFC 9002, 6.2.4), and an immediate ACK if asked: counts one more probe to send, up to
    /// `u32::MAX`, and finds contents for it as `maybe_queue_probe`. Returns what can be sent then. `NoMemory`, which
    /// occurs only if contents are to be moved, changes nothing.
    pub fn queue_probe(
        &mut self,
        immediate: bool,
        streams: &Q::Streams,
    ) -> Result<SendableFrames, NoMemory>
        ensures step { OnOk result (SpaceStep Q.words (probes immediate
            (probe_found Q.words streams.now self.old.pending (packets_of self.old)))
            self.old self.new) }
        ensures frames { IfOk result (λ frames.
            IsSendable Q.words streams.now (heard_of self.new) (queued_of self.new) frames) }
        ensures moves { OnErr result (IsSome
            (probe_found Q.words streams.now self.old.pending (packets_of self.old)).moved) }
        ensures err { OnErr result (self.new ≡ self.old) }
    {
        let before = self.loss_probes;
        self.loss_probes = before.saturating_add(1);
        match self.maybe_queue_probe(immediate, streams) {
            Ok(()) => Ok(self.can_send(streams)),
            Err(NoMemory) => {
                self.loss_probes = before;
                Err(NoMemory)
            }
        }
    }

    /// Returns what can be sent. `acks`: an ACK is required, and some number is to be acknowledged (RFC 9000, 13.2).
    /// `other`: the retransmission queue is not empty, or a PING or an immediate ACK is requested.
    pub fn can_send(&self, streams: &Q::Streams) -> SendableFrames
        ensures { IsSendable Q.words streams.now (heard_of self.now) (queued_of self.now) result }
    {
        SendableFrames {
            acks: self.pending_acks.can_send(),
            other: !self.pending.is_empty(streams)
                || self.ping_pending
                || self.immediate_ack_pending,
        }
    }

    /// Returns the retransmission queue (RFC 9000, 13.3) and leaves it empty. Does not allocate.
    pub fn take_pending(&mut self, alloc: Global) -> Q
        ensures pending { Q.contents result ≡ self.old.pending }
        ensures step { SpaceStep Q.words takes_pending self.old self.new }
    {
        mem::replace(&mut self.pending, Q::empty(alloc))
    }

    /// Checks the ECN counts of an ACK frame against the last that passed (RFC 9000, 13.4.2). The frame is the first to
    /// acknowledge `newly_acked` packets that were sent with ECT(0). `Ok` stores the counts and returns whether CE
    /// increased. `Err` stores nothing and returns the fault's text, as `EcnCounts::detect`.
    pub fn detect_ecn(&mut self, newly_acked: u64, counts: EcnCounts) -> Result<bool, &'static str>
        ensures result { MatchResult result
            (λ marked. (ecn_fault self.old.ecn_feedback newly_acked counts ≡ None)
            × (marked ≡ nat_lt self.old.ecn_feedback.ce counts.ce))
            (λ text. ecn_fault self.old.ecn_feedback newly_acked counts ≡ Some text.now) }
        ensures step { OnOk result (SpaceStep Q.words (feeds_back counts) self.old self.new) }
        ensures err { OnErr result (self.new ≡ self.old) }
    {
        self.ecn_feedback.detect(newly_acked, counts)
    }
}

/// The three packet number spaces (RFC 9000, 12.3).
#[derive(Drop)]
pub struct PacketSpaces<Q: RetransmitQueue> {
    /// The space of Initial packets.
    pub initial: PacketSpace<Q>,
    /// The space of Handshake packets.
    pub handshake: PacketSpace<Q>,
    /// The space of 0-RTT and 1-RTT packets.
    pub data: PacketSpace<Q>,
}

impl<Q: RetransmitQueue> Model for PacketSpaces<Q> {
    ghost use Rattle.recovery_spaces.specs.Spaces.{Spaces};

    ghost Value = { Spaces Q.Contents Q.Meta };

    ghost view = { λ spaces. record {
      initial = spaces.initial;
      handshake = spaces.handshake;
      «data» = spaces.data;
    } };
}

impl<Q> PacketSpaces<Q>
where
    Q: RetransmitQueue,
{
    /// Returns three spaces in which nothing was received or sent.
    pub fn new(alloc: Global, now: Instant) -> Self
        ensures { (space : SpaceId) → IsMade Q.words now (space_of space result) }
    {
        PacketSpaces {
            initial: PacketSpace::new(alloc, now),
            handshake: PacketSpace::new(alloc, now),
            data: PacketSpace::new(alloc, now),
        }
    }
}

impl<Q: RetransmitQueue> Index<SpaceId> for PacketSpaces<Q> {
    type Output = PacketSpace<Q>;

    ghost index_gives = { λ spaces space value. value ≡ space_of space spaces };

    fn index(&self, space: SpaceId) -> &PacketSpace<Q> {
        match space {
            SpaceId::Initial => &self.initial,
            SpaceId::Handshake => &self.handshake,
            SpaceId::Data => &self.data,
        }
    }
}

impl<Q: RetransmitQueue> IndexMut<SpaceId> for PacketSpaces<Q> {
    ghost use Rattle.std.specs.Prelude.{◌≡◌};
    ghost use Rattle.std.specs.Borrow.{sem};
    ghost use Rattle.recovery_spaces.specs.Lends.{LendsSpace};
    ghost use Rattle.recovery_spaces.specs.Spaces.{space_of};

    fn index_mut(&mut self, space: SpaceId) -> &mut PacketSpace<Q>
        ensures* writes_back { sem 𝓛 (LendsSpace Q.row Q.Streams.row Q.Meta.row Q.Contents.row
            Q.RetransmitQueue Q.Meta.Default self.entry space result) }
        ensures value { result.now ≡ space_of space self.old }
    {
        match space {
            SpaceId::Initial => &mut self.initial,
            SpaceId::Handshake => &mut self.handshake,
            SpaceId::Data => &mut self.data,
        }
    }
}
