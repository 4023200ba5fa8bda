//! Received ACK frames (RFC 9002, A.7; RFC 9000, 13.1 and 13.4.2).
ghost use Rattle.std.specs.Prelude.{◌≡◌, ◌≢◌, ◌∷◌, [], None, ◌+◌, ◌≤◌, ◌<◌, true, false, Decides, IfSome, IfOk, IfErr, OnOk, ℕ, Err, length, get_or, option_copied};
ghost use Rattle.recovery_base.specs.Units.{u64_limit};
ghost use Rattle.recovery_events.specs.declared.event.Event.TheVariants.{CheckAck, EndAcks};
ghost use Rattle.recovery_losses.specs.Losses.{AreIncreasing, IsOneOf};
ghost use Rattle.recovery_losses.specs.Variables.{heard_in, sampled_first};
ghost use Rattle.quic_recovery.specs.State.{ReadOnlyTransition};
ghost use Rattle.recovery_losses.specs.Frames.{are_ranges, is_unsent, largest_of};
ghost use Rattle.recovery_sender.specs.Acks.{AckChecked, AreNotSkipped, AreNewlyAcked, HasAckEliciting, TrackedInRange};
ghost use Rattle.recovery_sender.specs.Losses.{largest_in};
ghost use Rattle.recovery_sender.specs.Promises.Samples.{IsMarkable};
ghost use Rattle.recovery_sender.specs.Senders.{state_in};
ghost use Rattle.recovery_sender.specs.Spaces.{packets_in, space_in};
ghost use Rattle.recovery_sender.specs.Acking.{IsNewly, AckResult, AreAcked, HasRoomForLosses, ProcessesNewlyAcked, acking, count_sent_on, first_marked, is_congestion, is_first_sample, is_limited, is_marked, is_raised, largest_sent_on, loss_end, marks_now, newly_compared, rtt_since, sent_on, unmarked, with_marks_now, Acknowledges, EcnCompared, EcnResult, SamplesRtt};
ghost use Rattle.recovery_sender.specs.Steps.{marked, occurs, CompletesCall, TakesSteps};
ghost use Rattle.recovery_spaces.specs.Packets.{packet_at};

use super::{Losses, Sender, SenderError};
use rand_core::Rng;
use recovery_base::below::{EcnCounts, SpaceId};
use recovery_base::time::{Duration, Instant};
use recovery_congestion::congestion::ControllerFactory;
use recovery_events::event::{Answer, Event, Refusal};
use recovery_losses::{Ack, are_ranges, is_unsent, largest_of};
use recovery_paths::path_pair::PathName;
use recovery_paths::paths::PathMarks;
use recovery_paths::responses::PathResponses;
use recovery_queue::queue::RetransmitQueue;
use recovery_spaces::sent_packets::SentPackets;
use recovery_spaces::spaces::SentPacket;
use std::alloc::Global;

/// The outcome of a frame's ECN counts (RFC 9000, 13.4.2.1).
#[derive(Clone, Copy)]
pub enum EcnOutcome {
    /// No congestion. If the frame increased the largest acknowledged number and has no counts, packets are no longer
    /// marked on the path.
    Quiet,
    /// More packets were marked with CE, and the largest number of the frame was sent on the path in use: congestion
    /// (RFC 9002, 7.1; RFC 9000, 9.4).
    Marked,
    /// Validation failed: packets are no longer marked on the path.
    Failed,
}

/// The result of an ACK frame.
#[derive(Drop)]
pub struct Acknowledged {
    /// The newly acknowledged numbers, increasing.
    pub numbers: Vec<u64>,
    /// The packets that were found lost.
    pub losses: Losses,
    /// The outcome of its ECN counts.
    pub ecn: EcnOutcome,
    /// The RTT sample that was taken, if any (RFC 9002, 5.1).
    pub rtt: Option<Duration>,
}

/// What a frame newly acknowledges, before any change.
#[derive(Drop)]
pub struct NewlyAcked {
    /// The numbers, increasing.
    pub numbers: Vec<u64>,
    /// Whether one of them is ack-eliciting.
    pub elicits: bool,
    /// Room for the numbers of the packets that may be lost after these ACKs.
    pub lost: Vec<u64>,
}

/// Returns whether the largest acknowledged number increases.
fn is_raised(before: Option<u64>, after: Option<u64>) -> bool
    ensures { result ≡ is_raised before after }
{
    match (before, after) {
        (_, None) => false,
        (None, Some(_)) => true,
        (Some(before), Some(after)) => before < after,
    }
}

/// Returns the exclusive end of the numbers that may be lost in a space after a frame: the largest acknowledged number
/// before, or the number after the largest of the frame.
fn loss_end(before: Option<u64>, largest: Option<u64>) -> u64
    requires small { IfSome largest (λ largest. largest + 1 < u64_limit) }
    ensures { result ≡ loss_end before largest }
{
    let known = before.unwrap_or(0);
    match largest {
        Some(largest) => known.max(largest + 1),
        None => known,
    }
}

/// Returns whether an answer reports newly marked packets.
fn is_marked<Q>(answer: &Answer<Q>) -> bool
    ensures { result ≡ is_marked answer.now }
{
    match answer {
        Answer::Flag(is_marked) => *is_marked,
        _ => false,
    }
}

/// Returns the time from sending the largest number of a frame to receiving the frame, if it is an RTT sample (RFC
/// 9002, 5.1). `sent` is when that number was sent, if that was on the path in use.
#[inline(always)]
fn rtt_since(received: Instant, sent: &Option<Instant>, elicits: bool) -> Option<Duration>
    ensures { result ≡ rtt_since received sent.now elicits }
{
    match sent {
        Some(sent) if elicits => Some(received - *sent),
        _ => None,
    }
}

/// Returns whether CE indicates congestion: an answer reports newly marked packets, and the largest number of the frame
/// was sent on the path in use.
fn is_congestion<Q>(answer: &Answer<Q>, sent: &Option<Instant>) -> bool
    ensures { result ≡ is_congestion answer.now sent.now }
{
    is_marked(answer) && sent.is_some()
}

/// Appends the numbers of the packets that are tracked in a range. Fails with `NoMemory`.
#[inline(always)]
fn take_range<Q>(
    packets: &SentPackets<Q>,
    first: u64,
    last: u64,
    newly: &mut NewlyAcked,
) -> Result<(), SenderError>
where
    Q: RetransmitQueue,
    requires whole { first ≤ last }
    requires small { last + 1 < u64_limit }
    requires rising { AreIncreasing 0 newly.old.numbers.items first }
    requires elicits { Decides newly.old.elicits
        (HasAckEliciting packets.now.packets newly.old.numbers.items) }
    ensures memory { IfErr result (λ refused. refused ≡ SenderError.Event Refusal.NoMemory) }
    ensures taken { OnOk result (TrackedInRange packets.now.packets first (last + 1)
        newly.old.numbers.items newly.new.numbers.items newly.new.elicits) }
{
    let mut from = first;
    while let Some((number, packet)) = packets.tracked_between(from, last + 1) {
        if newly.numbers.reserve(1).is_err() {
            return Err(SenderError::Event(Refusal::NoMemory));
        }
        newly.numbers.push_reserved(number);
        newly.elicits |= packet.ack_eliciting;
        from = number + 1;
    }
    Ok(())
}

/// Returns what a frame newly acknowledges, in the memory of `room`. Fails with `NoMemory`. Cost: logarithmic for each
/// range and each newly acknowledged packet.
#[inline(always)]
fn find_newly<Q>(
    alloc: Global,
    packets: &SentPackets<Q>,
    ranges: &[(u64, u64)],
    room: Vec<u64>,
) -> Result<NewlyAcked, SenderError>
where
    Q: RetransmitQueue,
    requires whole { are_ranges ranges.now ≡ true }
    requires small { IfSome (largest_of ranges.now) (λ largest. largest + 1 < u64_limit) }
    ensures memory { IfErr result (λ refused. refused ≡ SenderError.Event Refusal.NoMemory) }
    ensures newly { IfOk result (λ newly. AreNewlyAcked packets.now.packets ranges.now 0
        newly.numbers.items newly.elicits) }
{
    let mut numbers = room;
    numbers.clear();
    let mut newly = NewlyAcked {
        numbers,
        elicits: false,
        lost: Vec::new(alloc),
    };
    let mut at = ranges.len();
    while at > 0 {
        at -= 1;
        let (first, last) = ranges[at];
        if let Err(refused) = take_range(packets, first, last, &mut newly) {
            return Err(refused);
        }
    }
    Ok(newly)
}

impl<F, Q, R> Sender<F, Q, R>
where
    F: ControllerFactory,
    Q: RetransmitQueue,
    R: Rng + Drop,
{
    /// Processes a received ACK frame (RFC 9002, A.7: OnAckReceived). `ranges` has the first and last number of each
    /// range, the highest range first, as on the wire. Returns what is newly acknowledged, takes an RTT sample, and
    /// detects losses.
    ///
    /// While a PATH_CHALLENGE frame is outstanding on the path in use ([`Sender::set_challenge`]), the window does not
    /// grow, as if the caller had too little to send. Cost: logarithmic for each range, each newly acknowledged packet,
    /// and each packet tracked below the largest acknowledged.
    ///
    /// # Errors
    /// The first that applies; nothing changes. `SpaceDiscarded`. `BadRange` if there is no range, a range ends before
    /// it begins, or two have no number between them (RFC 9000, 19.3.1). `Unsent` if a number is above all that were
    /// sent (RFC 9000, 13.1). `SkippedAcked` if a range holds the number that was skipped last (RFC 9000, 21.4).
    /// `NoMemory` if there is no room for the numbers that are acknowledged or may be lost.
    pub fn on_ack(
        &mut self,
        space: SpaceId,
        now: Instant,
        ranges: &[(u64, u64)],
        ack: Ack,
    ) -> Result<Acknowledged, SenderError>
        ensures { AckResult space now ranges.now ack self.old self.new result }
    {
        let room = Vec::new(self.alloc);
        self.on_ack_into(space, now, ranges, ack, room)
    }

    /// Does the same as [`Sender::on_ack`], but reuses the memory of `room` for the acknowledged numbers and clears its
    /// contents. Allocates more only if that list has to grow.
    pub fn on_ack_into(
        &mut self,
        space: SpaceId,
        now: Instant,
        ranges: &[(u64, u64)],
        ack: Ack,
        room: Vec<u64>,
    ) -> Result<Acknowledged, SenderError>
        ensures { AckResult space now ranges.now ack self.old self.new result }
    {
        let newly = match self.newly_acked(space, ranges, room) {
            Ok(newly) => newly,
            Err(refused) => return Err(refused),
        };
        Ok(self.on_newly_acked(space, now, ranges, ack, newly))
    }

    /// Returns what a frame with these ranges would newly acknowledge, while its packets are still tracked and their
    /// contents can be read. Reuses the memory of `room`. The errors are those of [`Sender::on_ack`].
    pub fn newly_acked(
        &self,
        space: SpaceId,
        ranges: &[(u64, u64)],
        room: Vec<u64>,
    ) -> Result<NewlyAcked, SenderError>
        ensures { IsNewly space ranges.now self.now result }
    {
        if let Err(refused) = self.check_ack(space, ranges) {
            return Err(refused);
        }
        let Some(here) = self.space(space) else {
            unreachable!();
        };
        let mut newly = match find_newly(self.alloc, &here.sent_packets, ranges, room) {
            Ok(newly) => newly,
            Err(refused) => return Err(refused),
        };
        let end = loss_end(here.largest_acked_packet, largest_of(ranges));
        let others = here.sent_packets.count_below(end);
        newly.lost = match self.room_for(others.saturating_sub(newly.numbers.len())) {
            Ok(room) => room,
            Err(refused) => return Err(refused),
        };
        Ok(newly)
    }

    /// Makes the second half of [`Sender::on_ack`], with the result of [`Sender::newly_acked`] for the same frame and
    /// state.
    #[inline(always)]
    pub fn on_newly_acked(
        &mut self,
        space: SpaceId,
        now: Instant,
        ranges: &[(u64, u64)],
        ack: Ack,
        newly: NewlyAcked,
    ) -> Acknowledged
        requires newly { AreNewlyAcked (packets_in (state_in self.old) space) ranges.now 0
            newly.numbers.items newly.elicits }
        requires room { HasRoomForLosses space ranges.now self.old newly }
        ensures { ProcessesNewlyAcked space now ranges.now ack self.old self.new newly result }
    {
        if newly.numbers.is_empty() {
            self.set_loss_detection_timer();
            return Acknowledged {
                numbers: newly.numbers,
                losses: Losses::none(self.alloc),
                ecn: EcnOutcome::Quiet,
                rtt: None,
            };
        }
        self.acknowledge(space, now, ranges, ack, newly)
    }

    /// Checks a frame. Fails with `SpaceDiscarded`, `BadRange` if the ranges are invalid, `Unsent` if a number is above
    /// all that were sent, or `SkippedAcked`, in this order.
    #[inline(always)]
    fn check_ack(&self, space: SpaceId, ranges: &[(u64, u64)]) -> Result<(), SenderError>
        ensures small { OnOk result (IfSome (largest_of ranges.now)
            (λ largest. largest + 1 < u64_limit)) }
        ensures checked { AckChecked space ranges.now self.now.recovery.recovery result }
    {
        let Some(here) = self.space(space) else {
            return Err(SenderError::Event(Refusal::SpaceDiscarded));
        };
        if !are_ranges(ranges) {
            return Err(SenderError::Event(Refusal::BadRange));
        }
        if is_unsent(largest_of(ranges), here.next_packet_number()) {
            return Err(SenderError::Unsent);
        }
        match self.check_ranges(space, ranges) {
            Ok(()) => Ok(()),
            Err(refusal) => Err(SenderError::Event(refusal)),
        }
    }

    /// Fails with `SkippedAcked` if a range holds the number that was skipped last (RFC 9000, 21.4).
    #[inline(always)]
    fn check_ranges(&self, space: SpaceId, ranges: &[(u64, u64)]) -> Result<(), Refusal>
        ensures ok { OnOk result (AreNotSkipped space ranges.now self.now.recovery.recovery) }
        ensures refused { IfErr result (λ refusal. (at : ℕ) × (at < length ranges.now)
            × (let range = get_or ranges.now at (0, 0) in
            ReadOnlyTransition (CheckAck space range.0 range.1) self.now.recovery.recovery
            (Err refusal))) }
    {
        for (low, high) in ranges {
            if let Err(refusal) = self.recovery.recovery().check_ack(space, *low, *high) {
                return Err(refusal);
            }
        }
        Ok(())
    }

    /// Acknowledges each of these numbers.
    #[inline(always)]
    fn tell_acked(&mut self, space: SpaceId, now: Instant, app_limited: bool, numbers: &[u64])
        requires tracked { (number : ℕ) → IsOneOf number numbers.now
            → packet_at (packets_in (state_in self.old) space) number ≢ None }
        requires rising { (end : ℕ) × AreIncreasing 0 numbers.now end }
        ensures acks { TakesSteps (acking space now app_limited numbers.now) self.old self.new }
        ensures left { AreAcked space numbers.now self.old self.new }
    {
        for number in numbers {
            self.tell_packet_acked(space, now, *number, app_limited);
        }
    }

    /// Returns a packet that is tracked in a space, by its number. Cost: logarithmic.
    #[inline(always)]
    pub fn tracked(&self, space: SpaceId, number: u64) -> Option<&SentPacket<Q>>
        ensures { option_copied result ≡ packet_at (packets_in (state_in self.now) space) number }
    {
        let here = self.space(space)?;
        here.sent_packets.get(number)
    }

    /// Returns when a tracked packet was sent, if that was on the path in use (RFC 9000, 9.4).
    #[inline(always)]
    fn sent_on(&self, space: SpaceId, number: u64) -> Option<Instant>
        ensures { result ≡ sent_on (state_in self.now) space number }
    {
        let packet = self.tracked(space, number)?;
        if packet.path_generation != self.path().generation() {
            return None;
        }
        Some(packet.time_sent)
    }

    /// Takes an RTT sample, if any (RFC 9002, 5.1 and 5.3). In the space of 1-RTT packets the ACK delay is subtracted,
    /// up to the peer's max_ack_delay.
    #[inline(always)]
    fn sample(&mut self, space: SpaceId, delay: Duration, rtt: Option<Duration>)
        ensures { SamplesRtt space delay self.old self.new rtt }
    {
        let Some(rtt) = rtt else {
            return;
        };
        let delay = self.variables.delay_counted(space, delay);
        self.tell_sample(delay, rtt);
        self.mark_first_packet(space);
    }

    /// Marks the next packet of a space as the first one after an RTT sample, if none is marked (RFC 9002, 7.6.2). The
    /// path in use has a sample.
    #[inline(always)]
    fn mark_first_packet(&mut self, space: SpaceId)
        requires { (state_in self.old).paths.current.state.rtt.smoothed ≢ None }
        ensures { let old = state_in self.old in TakesSteps (first_marked old space
            (marks_now old).first_after_sample (space_in old space)) self.old self.new }
    {
        let path = self.path();
        if path.first_packet_after_rtt_sample.is_some() {
            return;
        }
        let sending_ecn = path.sending_ecn;
        let Some(here) = self.space(space) else {
            return;
        };
        let next = here.next_packet_number();
        self.set_marks(sending_ecn, Some((space, next)));
    }

    /// Stops ECN marking on the path in use (RFC 9000, 13.4.2.1).
    #[inline(never)]
    fn stop_ecn(&mut self)
        ensures { TakesSteps (unmarked (state_in self.old) ∷ []) self.old self.new }
    {
        let first = self.path().first_packet_after_rtt_sample;
        self.set_marks(false, first);
    }

    /// Sets whether packets are marked on the path in use, and which of them is the first one after an RTT sample.
    #[inline(never)]
    fn set_marks(&mut self, sending_ecn: bool, first: Option<(SpaceId, u64)>)
        requires { IsMarkable (state_in self.old) first }
        ensures { TakesSteps (marked (with_marks_now (state_in self.old) sending_ecn first) ∷ [])
            self.old self.new }
    {
        let path = self.path();
        let challenge = path.challenge;
        let pending = path.challenge_pending;
        self.mark(sending_ecn, challenge, pending, first);
    }

    /// Stores these marks with the path in use; its PATH_RESPONSE frames are unchanged.
    pub(super) fn mark(
        &mut self,
        sending_ecn: bool,
        challenge: Option<u64>,
        challenge_pending: bool,
        first_packet_after_rtt_sample: Option<(SpaceId, u64)>,
    )
        requires { IsMarkable (state_in self.old) first_packet_after_rtt_sample }
        ensures { TakesSteps (marked (record (marks_now (state_in self.old)) {
          sending_ecn = sending_ecn;
          challenge = challenge;
          challenge_pending = challenge_pending;
          first_after_sample = first_packet_after_rtt_sample;
        }) ∷ []) self.old self.new }
    {
        let marks = PathMarks {
            sending_ecn,
            challenge,
            challenge_pending,
            path_responses: PathResponses::new(),
            first_packet_after_rtt_sample,
        };
        self.is_timer_current = false;
        let Some(before) = self.recovery.set_marks(PathName::Current, marks) else {
            unreachable!();
        };
        self.recovery.set_marks(
            PathName::Current,
            PathMarks {
                sending_ecn,
                challenge,
                challenge_pending,
                path_responses: before.path_responses,
                first_packet_after_rtt_sample,
            },
        );
    }

    /// Processes the ECN counts of a frame, or that it has none (RFC 9002, A.7 and B.7; RFC 9000, 13.4.2.1). `sent` is
    /// when its largest number was sent, if that was on the path in use.
    #[inline(always)]
    fn process_ecn(
        &mut self,
        space: SpaceId,
        now: Instant,
        newly_acked: u64,
        sent: Option<Instant>,
        counts: Option<EcnCounts>,
        is_raised: bool,
    ) -> EcnOutcome
        ensures { EcnResult space now newly_acked sent self.old self.new
            (marks_now (state_in self.old)).sending_ecn counts is_raised result }
    {
        if !self.path().sending_ecn {
            return EcnOutcome::Quiet;
        }
        // A reordered frame must not end ECN.
        if !is_raised {
            return EcnOutcome::Quiet;
        }
        let Some(counts) = counts else {
            self.stop_ecn();
            return EcnOutcome::Quiet;
        };
        self.compare_ecn(space, now, newly_acked, sent, counts)
    }

    /// Compares the ECN counts with those before.
    #[inline(never)]
    fn compare_ecn(
        &mut self,
        space: SpaceId,
        now: Instant,
        newly_acked: u64,
        sent: Option<Instant>,
        counts: EcnCounts,
    ) -> EcnOutcome
        ensures { EcnCompared space now newly_acked sent self.old self.new counts result }
    {
        let Ok(answer) = self.apply(Event::Ecn {
            space,
            newly_acked,
            counts,
        }) else {
            self.stop_ecn();
            return EcnOutcome::Failed;
        };
        if !is_congestion(&answer, &sent) {
            return EcnOutcome::Quiet;
        }
        self.congested(now, sent, false, 0);
        EcnOutcome::Marked
    }

    /// Returns the largest number acknowledged in a space, if any.
    pub(super) fn largest_acked(&self, space: SpaceId) -> Option<u64>
        ensures { result ≡ largest_in (state_in self.now) space }
    {
        self.space(space)?.largest_acked_packet
    }

    /// Returns when the largest number of a frame was sent, if it is tracked and was sent on the path in use (RFC 9000,
    /// 9.4).
    #[inline(always)]
    fn largest_sent_on(&self, space: SpaceId, ranges: &[(u64, u64)]) -> Option<Instant>
        ensures { result ≡ largest_sent_on (state_in self.now) space ranges.now }
    {
        self.sent_on(space, largest_of(ranges)?)
    }

    /// Returns how many of these numbers are tracked and were sent on the path in use.
    fn count_sent_on(&self, space: SpaceId, numbers: &[u64]) -> u64
        ensures { result ≡ count_sent_on (state_in self.now) space numbers.now }
    {
        let mut count = 0;
        for number in numbers {
            if self.sent_on(space, *number).is_some() {
                count += 1;
            }
        }
        count
    }

    /// Returns with how many newly acknowledged packets the ECN counts of a frame are compared, if it has any: those
    /// that were sent on the path in use (RFC 9000, 13.4.2.1).
    #[inline(always)]
    fn newly_compared(&self, space: SpaceId, numbers: &[u64], counts: &Option<EcnCounts>) -> u64
        ensures { result
            ≡ newly_compared (state_in self.now) space numbers.now counts.now }
    {
        match counts {
            Some(_) => self.count_sent_on(space, numbers),
            None => 0,
        }
    }

    /// Returns whether the window must not grow: the caller had too little to send (RFC 9002, 7.8), or the path in use
    /// is being validated. An ACK may then be for a packet on the path before it (RFC 9000, 9.4).
    #[inline(always)]
    fn is_limited(&self, app_limited: bool) -> bool
        ensures { result ≡ is_limited (state_in self.now) app_limited }
    {
        app_limited || self.path().challenge.is_some()
    }

    /// Returns whether a sample is the first one of the path in use (RFC 9002, 7.6.2).
    #[inline(always)]
    fn is_first_sample(&self, rtt: &Option<Duration>) -> bool
        ensures { result ≡ is_first_sample (state_in self.now) rtt.now }
    {
        rtt.is_some() && self.path().first_packet_after_rtt_sample.is_none()
    }

    /// Ends the acknowledgements of a frame (RFC 9002, 7).
    #[inline(always)]
    fn end_acks(&mut self, space: SpaceId, now: Instant, app_limited: bool)
        ensures { TakesSteps (occurs (EndAcks now app_limited
            (largest_in (state_in self.old) space)) ∷ []) self.old self.new }
    {
        let largest = self.largest_acked(space);
        self.tell_end_acks(now, app_limited, largest);
    }

    /// Processes a frame that newly acknowledges something (RFC 9002, A.7).
    #[inline(always)]
    fn acknowledge(
        &mut self,
        space: SpaceId,
        now: Instant,
        ranges: &[(u64, u64)],
        ack: Ack,
        newly: NewlyAcked,
    ) -> Acknowledged
        requires newly { AreNewlyAcked (packets_in (state_in self.old) space) ranges.now 0
            newly.numbers.items newly.elicits }
        requires room { HasRoomForLosses space ranges.now self.old newly }
        ensures numbers { result.numbers.items ≡ newly.numbers.items }
        ensures stages { Acknowledges space now ranges.now ack newly.elicits
            self.old result self.new }
    {
        let before = self.largest_acked(space);
        let received = ack.received_at(now);
        let sent = self.largest_sent_on(space, ranges);
        let rtt = rtt_since(received, &sent, newly.elicits);
        let is_first = self.is_first_sample(&rtt);
        let is_limited = self.is_limited(ack.app_limited);
        let NewlyAcked { numbers, lost, .. } = newly;
        let compared = self.newly_compared(space, &numbers, &ack.ecn);
        self.tell_acked(space, now, is_limited, &numbers);
        self.end_acks(space, now, is_limited);
        self.sample(space, ack.delay, rtt);
        let losses = self.detect_and_remove_lost_packets(space, now, received, true, lost);
        let is_raised = is_raised(before, self.largest_acked(space));
        let ecn = self.process_ecn(space, now, compared, sent, ack.ecn, is_raised);
        self.hear(space, now, is_first);
        Acknowledged {
            numbers,
            losses,
            ecn,
            rtt,
        }
    }

    /// Records that the peer acknowledged something now, perhaps with the first RTT sample of the path, and sets the
    /// timer.
    #[inline(always)]
    fn hear(&mut self, space: SpaceId, now: Instant, is_first: bool)
        ensures { CompletesCall []
            (heard_in space now (sampled_first is_first now self.old.variables)) self.old self.new }
    {
        self.is_timer_current = false;
        self.variables.sample(is_first, now);
        self.variables.hear(space, now);
        self.set_loss_detection_timer();
    }
}
