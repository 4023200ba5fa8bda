//! The pending ACKs of one space: the packets to be acknowledged.
ghost use Rattle.std.specs.Prelude.{◌≡◌, ◌≢◌, ℕ, ◌<◌, ◌≤◌, ◌⊎◌, IsTrue, IsSome, IfSome, OnOk, OnErr, IsErr, Decides, MatchBool, nat_lt, true, false, length, [], ◌↔◌, None, Some};
ghost use Rattle.recovery_base.specs.Numbers.{InsertNumber};
ghost use Rattle.recovery_base.specs.Received.{HasReceived};
ghost use Rattle.recovery_base.specs.Ranges.{InRanges, AreApart};
ghost use Rattle.recovery_base.specs.Units.{number_limit};
ghost use Rattle.recovery_acks.specs.Acks.{IsPending, CanSend, new_acks, with_thresholds, with_required, acks_sent, ReceivesPacket, AddsPending, SubtractsBelow, delay_at, timeout_at, IsAtLeastSome, IsOutOfOrder, IsReported, IsNotAbove, AreAcksSound, largest_with, most_ranges, lazy_ack_threshold};
ghost use Rattle.recovery_acks.specs.Runs.{IsInHighest};

use recovery_base::below::{AckFrequency, ArrayRangeSet, NoMemory};
use recovery_base::dedup::Dedup;
use recovery_base::time::{Duration, Instant};
use std::alloc::Global;
use std::marker::Model;

/// The most ranges of an ACK frame: each takes at most 16 bytes (RFC 9000, 19.3.1), so they fit into a datagram of 1200
/// bytes, which every path carries.
const MAX_ACK_BLOCKS: usize = 64;

/// How many non-ack-eliciting packets may be received before an ACK is sent with other frames: the peer stores them
/// until they are acknowledged, and nothing else acknowledges them.
const LAZY_ACK_THRESHOLD: u64 = 10;

/// The packets to be acknowledged, and when an ACK is due (RFC 9000, 13.2).
///
/// ```
/// let now = Instant::from_nanos(0);
/// let mut received = Dedup::new();
/// let mut acks = PendingAcks::new(rt.alloc());
/// if !received.insert(0) && acks.insert_one(0, now).is_ok() {
///     // The first ack-eliciting packet starts the ACK delay timer.
///     assert!(&rt; acks.packet_received(now, 0, true, &received));
/// }
/// acks.on_max_ack_delay_timeout();
/// assert!(&rt; acks.can_send());
/// acks.acks_sent();
/// assert!(&rt; !acks.can_send());
/// ```
#[derive(Drop)]
pub struct PendingAcks {
    immediate_ack_required: bool,
    ack_eliciting_since_last_ack_sent: u64,
    non_ack_eliciting_since_last_ack_sent: u64,
    ack_eliciting_threshold: u64,
    reordering_threshold: u64,
    earliest_ack_eliciting_since_last_ack_sent: Option<Instant>,
    ranges: ArrayRangeSet,
    largest_packet: Option<(u64, Instant)>,
    largest_ack_eliciting_packet: Option<u64>,
    largest_acked: Option<u64>,
}

impl Model for PendingAcks {
    ghost use Rattle.recovery_acks.specs.Acks.{Acks, AreAcksSound};
    ghost use Rattle.recovery_acks.specs.PendingAcks.{acks_in};

    ghost Value = { Acks };

    ghost view = { acks_in };

    ghost invariant = { λ acks. AreAcksSound (acks_in acks) };
}

impl PendingAcks {
    /// Returns the state in which nothing is to be acknowledged. Both thresholds are 1 packet: the second ack-eliciting
    /// packet without an ACK requires one at once (RFC 9000, 13.2.2), and so does each that is out of order (13.2.1).
    /// Does not allocate.
    pub fn new(alloc: Global) -> Self
        ensures value { result ≡ new_acks [] }
        ensures sound { AreAcksSound result }
    {
        PendingAcks {
            immediate_ack_required: false,
            ack_eliciting_since_last_ack_sent: 0,
            non_ack_eliciting_since_last_ack_sent: 0,
            ack_eliciting_threshold: 1,
            reordering_threshold: 1,
            earliest_ack_eliciting_since_last_ack_sent: None,
            ranges: ArrayRangeSet::new(alloc),
            largest_packet: None,
            largest_ack_eliciting_packet: None,
            largest_acked: None,
        }
    }

    /// Sets both thresholds of an ACK_FREQUENCY frame, in packets (draft-ietf-quic-ack-frequency-04, section 4).
    /// Nothing else changes.
    pub fn set_ack_frequency_params(&mut self, frame: &AckFrequency)
        ensures takes { self.new
            ≡ with_thresholds frame.now.ack_eliciting_threshold frame.now.reordering_threshold
            self.old }
        ensures sound { AreAcksSound self.new }
    {
        self.ack_eliciting_threshold = frame.ack_eliciting_threshold.into_inner();
        self.reordering_threshold = frame.reordering_threshold.into_inner();
    }

    /// Requires an ACK at once, as an IMMEDIATE_ACK frame asks (draft-ietf-quic-ack-frequency-04, section 5).
    pub fn set_immediate_ack_required(&mut self)
        ensures required { self.new ≡ with_required true self.old }
        ensures sound { AreAcksSound self.new }
    {
        self.immediate_ack_required = true;
    }

    /// Records that the longest delay is over (RFC 9000, 13.2.1): an ACK is required at once exactly if an
    /// ack-eliciting packet was received since the last one.
    pub fn on_max_ack_delay_timeout(&mut self)
        ensures requires_one { self.new
            ≡ with_required (nat_lt 0 self.old.counts.eliciting) self.old }
        ensures sound { AreAcksSound self.new }
    {
        self.immediate_ack_required = self.ack_eliciting_since_last_ack_sent > 0;
    }

    /// Returns when a delay ends that starts with the first ack-eliciting packet since the last ACK that was received
    /// while no ACK could be sent at once. `None` before there is one (RFC 9000, 13.2.1). At most `u64::MAX`
    /// nanoseconds.
    pub fn max_ack_delay_timeout(&self, max_ack_delay: Duration) -> Option<Instant>
        ensures { result ≡ timeout_at max_ack_delay self.now.base }
    {
        match self.earliest_ack_eliciting_since_last_ack_sent {
            Some(earliest) => Some(earliest + max_ack_delay),
            None => None,
        }
    }

    /// Returns whether an ACK may be sent in a packet of its own: one is required, and a number is to be acknowledged
    /// (RFC 9000, 13.2.1).
    pub fn can_send(&self) -> bool
        ensures { Decides result (CanSend self.now) }
    {
        may_send(self.immediate_ack_required, &self.ranges)
    }

    /// Returns whether an ACK may be sent with other frames: a number is to be acknowledged (RFC 9000, 13.2.1).
    pub fn can_send_with_other_frames(&self) -> bool
        ensures { Decides result ((n : ℕ) × IsPending self.now n) }
    {
        !self.ranges.is_empty()
    }

    /// Returns how long ago the largest packet was received, which is the ACK delay of a frame (RFC 9000, 13.2.5). Zero
    /// before the first packet, and if it was received after `now`.
    pub fn ack_delay(&self, now: Instant) -> Duration
        ensures { result ≡ delay_at now self.now.counts.largest }
    {
        match self.largest_packet {
            Some((_, received)) => now - received,
            None => Duration::ZERO,
        }
    }

    /// Records a received packet, after its number was inserted into `dedup`. Returns whether to start the ACK delay
    /// timer (RFC 9000, 13.2.1).
    ///
    /// An ack-eliciting packet requires an ACK at once if more of them were received since the last one than the
    /// threshold, or if it is out of order (RFC 9000, 13.2.1 and 13.2.2; draft-ietf-quic-ack-frequency-04, section
    /// 6.1). The others are only counted.
    pub fn packet_received(
        &mut self,
        now: Instant,
        packet_number: u64,
        ack_eliciting: bool,
        dedup: &Dedup,
    ) -> bool
        requires number { IsAtLeastSome (HasReceived dedup.now) packet_number }
        requires earlier { IfSome self.old.counts.greatest (IsAtLeastSome (HasReceived dedup.now)) }
        ensures receives { ReceivesPacket (HasReceived dedup.now) self.old now packet_number
            ack_eliciting
            result self.new }
        ensures noticed { IsTrue ack_eliciting → IsSome self.new.base ⊎ IsTrue self.new.required }
        ensures within_threshold { IsTrue ack_eliciting → ¬ IsTrue self.new.required
            → self.new.counts.eliciting ≤ self.new.counts.thresholds.0 }
        ensures sound { AreAcksSound self.new }
    {
        if !ack_eliciting {
            self.non_ack_eliciting_since_last_ack_sent = self
                .non_ack_eliciting_since_last_ack_sent
                .saturating_add(1);
            return false;
        }
        let before = self.largest_ack_eliciting_packet.unwrap_or(0);
        let greatest = before.max(packet_number);
        self.largest_ack_eliciting_packet = Some(greatest);
        self.ack_eliciting_since_last_ack_sent = self
            .ack_eliciting_since_last_ack_sent
            .saturating_add(1);
        let out_of_order = is_out_of_order(
            self.reordering_threshold,
            self.largest_acked,
            before,
            greatest,
            packet_number,
            dedup,
        );
        let many = self.ack_eliciting_since_last_ack_sent > self.ack_eliciting_threshold;
        self.immediate_ack_required = is_any(self.immediate_ack_required, many, out_of_order);
        let can_send = may_send(self.immediate_ack_required, &self.ranges);
        if is_noticed(self.earliest_ack_eliciting_since_last_ack_sent, can_send) {
            return false;
        }
        self.earliest_ack_eliciting_since_last_ack_sent = Some(now);
        true
    }

    /// Records that an ACK was sent, which is assumed to hold all numbers that are to be acknowledged. They stay, for
    /// the next ACK (RFC 9000, 13.2.3). None is required any more, no delay runs, and the counts of packets start
    /// again.
    pub fn acks_sent(&mut self)
        ensures sends { self.new ≡ acks_sent self.old }
        ensures sound { AreAcksSound self.new }
    {
        self.immediate_ack_required = false;
        self.ack_eliciting_since_last_ack_sent = 0;
        self.non_ack_eliciting_since_last_ack_sent = 0;
        self.earliest_ack_eliciting_since_last_ack_sent = None;
        self.largest_acked = self.largest_ack_eliciting_packet;
    }

    /// Adds a number below 2^62 that is to be acknowledged. If there are more than 64 ranges, the lowest is dropped
    /// (RFC 9000, 13.2.3).
    ///
    /// `NoMemory` changes nothing; a number that is there allocates nothing.
    pub fn insert_one(&mut self, packet: u64, now: Instant) -> Result<(), NoMemory>
        requires { packet < number_limit }
        ensures inserts { OnOk result (AddsPending self.old packet now self.new) }
        ensures only_new_takes_memory { IsErr result → ¬ IsPending self.old packet }
        ensures err { OnErr result (self.new ≡ self.old) }
        ensures sound { AreAcksSound self.new }
    {
        insert(&mut self.ranges, packet)?;
        self.largest_packet = Some(larger(self.largest_packet, packet, now));
        Ok(())
    }

    /// Drops the numbers up to `max`, below 2^62: the peer has an ACK that went up to there (RFC 9000, 13.2.4). Does
    /// not allocate.
    pub fn subtract_below(&mut self, max: u64)
        requires { max < number_limit }
        ensures subtracts { SubtractsBelow self.old max self.new }
        ensures sound { AreAcksSound self.new }
    {
        let _ = self.ranges.remove(0..max + 1);
    }

    /// Returns the numbers that are to be acknowledged: at most 64 ranges, in ascending order (RFC 9000, 13.2.3).
    pub fn ranges(&self) -> &ArrayRangeSet
        ensures value { result.now ≡ self.now.ranges }
        ensures count { length self.now.ranges ≤ most_ranges }
    {
        &self.ranges
    }

    /// Requires an ACK at once if more than 10 non-ack-eliciting packets were received since the last one.
    ///
    /// Call it when a packet is sent anyway: such packets alone must not make one be sent (RFC 9000, 13.2.1).
    pub fn maybe_ack_non_eliciting(&mut self)
        ensures many { lazy_ack_threshold < self.old.counts.silent
            → self.new ≡ with_required true self.old }
        ensures few { self.old.counts.silent ≤ lazy_ack_threshold → self.new ≡ self.old }
        ensures sound { AreAcksSound self.new }
    {
        if self.non_ack_eliciting_since_last_ack_sent > LAZY_ACK_THRESHOLD {
            self.set_immediate_ack_required();
        }
    }
}

fn may_send(required: bool, ranges: &ArrayRangeSet) -> bool
    ensures { Decides result (IsTrue required × ((n : ℕ) × InRanges ranges.now n)) }
{
    required && !ranges.is_empty()
}

fn is_any(first: bool, second: bool, third: bool) -> bool
    ensures { Decides result (IsTrue first ⊎ (IsTrue second ⊎ IsTrue third)) }
{
    first || second || third
}

/// Returns whether an ack-eliciting packet needs no timer of its own.
fn is_noticed(base: Option<Instant>, can_send: bool) -> bool
    ensures { MatchBool result ((base ≢ None) ⊎ IsTrue can_send)
        ((base ≡ None) × ¬ IsTrue can_send) }
{
    base.is_some() || can_send
}

/// Returns the largest packet after another was received.
fn larger(largest: Option<(u64, Instant)>, packet: u64, now: Instant) -> (u64, Instant)
    ensures { Some result ≡ largest_with largest packet now }
{
    match largest {
        Some((number, received)) if number >= packet => (number, received),
        _ => (packet, now),
    }
}

/// Adds a number, and drops the lowest range if there are more than 64.
fn insert(ranges: &mut ArrayRangeSet, packet: u64) -> Result<(), NoMemory>
    requires small { packet < number_limit }
    requires count { length ranges.old ≤ most_ranges }
    ensures pending { OnOk result ((n : ℕ) → InRanges ranges.new n
        ↔ IsInHighest most_ranges (InsertNumber packet (InRanges ranges.old)) n) }
    ensures some { OnOk result ((n : ℕ) × InRanges ranges.new n) }
    ensures kept { OnOk result ((length ranges.new ≤ most_ranges) × AreApart 0 ranges.new) }
    ensures only_new_takes_memory { IsErr result → ¬ InRanges ranges.old packet }
    ensures err { OnErr result (ranges.new ≡ ranges.old) }
{
    ranges.insert_one(packet)?;
    if ranges.len() > MAX_ACK_BLOCKS {
        let _ = ranges.pop_min();
    }
    Ok(())
}

/// Returns whether an ack-eliciting packet requires an ACK at once because of its order among the others.
fn is_out_of_order(
    threshold: u64,
    acknowledged: Option<u64>,
    before: u64,
    greatest: u64,
    number: u64,
    dedup: &Dedup,
) -> bool
    requires reached { IsAtLeastSome (HasReceived dedup.now) greatest }
    requires above { number ≤ greatest }
    requires order { IsNotAbove acknowledged (Some greatest) }
    ensures { Decides result
        (IsOutOfOrder (HasReceived dedup.now) threshold acknowledged before greatest number) }
{
    if threshold == 0 {
        return false;
    }
    if threshold == 1 {
        return number < before || dedup.missing_in_interval(before, number);
    }
    is_reported(threshold, greatest, acknowledged, dedup)
}

/// Returns whether the peer would declare a packet lost if it knew what was received.
fn is_reported(threshold: u64, greatest: u64, acknowledged: Option<u64>, dedup: &Dedup) -> bool
    requires some { 1 < threshold }
    requires reached { IsAtLeastSome (HasReceived dedup.now) greatest }
    requires order { IsNotAbove acknowledged (Some greatest) }
    ensures { Decides result (IsReported (HasReceived dedup.now) threshold greatest acknowledged) }
{
    let acknowledged = match acknowledged {
        Some(acknowledged) => acknowledged,
        None => return false,
    };
    if threshold > acknowledged {
        return false;
    }
    match dedup.smallest_missing_in_interval(acknowledged - threshold + 1, greatest) {
        Some(missing) => greatest - missing >= threshold,
        None => false,
    }
}
