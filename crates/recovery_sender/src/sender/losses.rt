//! Which packets are lost (RFC 9002, 6.1, 7.6 and A.10).
ghost use Rattle.std.specs.Prelude.{◌≡◌, ◌≢◌, ℕ, ◌+◌, ◌-◌, ◌*◌, min, not, ◌<◌, ◌≤◌, ◌++◌, ◌∷◌, [], true, false, None, Some, Decides, MatchOption, IfSome, IfNone, IfOk, IfErr, IsOk, ◌⊎◌, option_map, if◌then◌else◌};
ghost use Rattle.std.specs.Vec.{vec_capacity, vec_len};
ghost use Rattle.std.specs.Option.{ForSome};
ghost use Rattle.recovery_base.specs.Times.{span_limit};
ghost use Rattle.recovery_base.specs.Units.{last_time, u64_limit};
ghost use Rattle.recovery_spaces.specs.Packets.{packet_at};
ghost use Rattle.recovery_losses.specs.Losses.{count_below, cutting, IsEarliestSent, IsNextLossCandidate, NoneFrom};
ghost use Rattle.recovery_sender.specs.Senders.{state_in};
ghost use Rattle.recovery_sender.specs.Spaces.{packets_in};
ghost use Rattle.recovery_sender.specs.Attempts.{probe_attempts, trying};
ghost use Rattle.recovery_sender.specs.Calls.{RenewsLossTimes};
ghost use Rattle.recovery_sender.specs.Steps.{TakesSteps};
ghost use Rattle.recovery_sender.specs.Losses.{look_of, largest_in, HasRoomBelowLargest, IsEmptyLosses, IsNextLoss};
ghost use Rattle.recovery_sender.specs.Bounds.{latest_start};
ghost use Rattle.recovery_sender.specs.Detection.{ClassifiesPacket, HasScanned, DetectsLosses, HasNoGap, congested, ended, is_reported};

use super::{Sender, SenderError};
use rand_core::Rng;
use recovery_base::below::SpaceId;
use recovery_base::time::Instant;
use recovery_base::timer::earlier;
use recovery_congestion::congestion::ControllerFactory;
use recovery_events::event::{Answer, Event, Refusal};
use recovery_losses::{Candidate, FirstSample, LossPass, Tally, Variables, loss_delay};
use recovery_queue::queue::RetransmitQueue;
use std::alloc::Global;

/// The latest start of a recovery period, in nanoseconds: the clock's end is later than each.
const LATEST_START: u64 = u64::MAX - 1;

/// Returns the start of a recovery period that congestion at this time begins: before the clock's end.
fn start_at(now: Instant) -> Instant
    ensures { result ≡ min now latest_start }
{
    now.min(Instant::from_nanos(LATEST_START))
}

/// Returns when the packet was sent for which congestion is reported. If congestion is persistent, it is later than the
/// start of every recovery period.
fn sent_for(persistent: bool, sent: Instant) -> Instant
    ensures { result ≡ (if persistent then last_time else sent) }
{
    if persistent {
        Instant::from_nanos(u64::MAX)
    } else {
        sent
    }
}

/// Returns `count` times `once`, in nanoseconds.
fn times(count: u32, once: u128) -> u128
    requires small { once < 2 * span_limit }
    ensures { result ≡ count * once }
{
    u128::from(count) * once
}

/// The result of a loss detection pass.
#[derive(Drop)]
pub struct Losses {
    /// The numbers of the lost packets, increasing; without that of the MTU probe.
    pub numbers: Vec<u64>,
    /// The number of the MTU probe, if it is lost: this does not indicate congestion (RFC 9000, 14.4).
    pub probe: Option<u64>,
    /// The bytes lost on the path in use, if there is congestion (RFC 9002, 7.3.2).
    pub congestion: Option<u64>,
    /// Whether congestion is persistent (RFC 9002, 7.6).
    pub is_persistent: bool,
    /// Whether a black hole was reported (RFC 8899, 4.3).
    pub is_black_hole: bool,
    /// Whether allocation failed for a lost packet: its contents could not join the retransmission queue. It is still
    /// tracked, and the timer is due at once, so that the next timeout declares it lost.
    pub is_cut: bool,
}

impl Losses {
    /// Returns a result without losses. Allocates nothing.
    pub(super) fn none(alloc: Global) -> Self
        ensures { IsEmptyLosses result }
    {
        Losses {
            numbers: Vec::new(alloc),
            probe: None,
            congestion: None,
            is_persistent: false,
            is_black_hole: false,
            is_cut: false,
        }
    }

    /// Returns the same result, rebuilt field by field: the compiler copies through memory what an out-of-line call
    /// returns.
    #[inline(always)]
    fn by_field(self) -> Self
        ensures { result ≡ self }
    {
        Losses {
            numbers: self.numbers,
            probe: by_case(self.probe),
            congestion: by_case(self.congestion),
            is_persistent: self.is_persistent,
            is_black_hole: self.is_black_hole,
            is_cut: self.is_cut,
        }
    }
}

/// Returns the same value, rebuilt by its case.
#[inline(always)]
fn by_case(value: Option<u64>) -> Option<u64>
    ensures { result ≡ value }
{
    match value {
        Some(value) => Some(value),
        None => None,
    }
}

/// Returns whether an answer reports a black hole.
fn is_reported<Q>(answer: &Answer<Q>) -> bool
    ensures { result ≡ is_reported answer.now }
{
    match answer {
        Answer::BlackHole(is_reported) => *is_reported,
        _ => false,
    }
}

impl<F, Q, R> Sender<F, Q, R>
where
    F: ControllerFactory,
    Q: RetransmitQueue,
    R: Rng + Drop,
{
    /// Returns the inputs of a pass over a space with this largest acknowledged number. The pass judges age by the time
    /// `at`.
    fn look(&self, space: SpaceId, at: Instant, due_to_ack: bool, largest: u64) -> LossPass
        ensures { result
            ≡ look_of (state_in self.now) self.now.variables space at due_to_ack largest }
    {
        let path = self.path();
        let Variables {
            thresholds,
            sampled,
            ..
        } = self.variables;
        let first_sample = if due_to_ack {
            FirstSample::of(path.first_packet_after_rtt_sample, sampled, space)
        } else {
            FirstSample::Missing
        };
        let rtt = self.rtt();
        let once = rtt.pto_base().as_nanos() + self.variables.max_ack_delay.as_nanos();
        let (probe, skipped) = if space == SpaceId::Data {
            (
                path.mtud.in_flight_mtu_probe(),
                self.recovery.recovery().skipped_number(),
            )
        } else {
            (None, None)
        };
        LossPass {
            space,
            at,
            largest,
            packet_threshold: thresholds.packets,
            delay: loss_delay(thresholds.time, rtt.get(), rtt.latest()),
            probe,
            generation: path.generation(),
            first_sample,
            skipped,
            period: times(thresholds.persistent, once),
        }
    }

    /// Returns when the next packet of a space is lost by its age, with the RTT of the path in use. Cost: logarithmic
    /// for each packet tracked below the largest acknowledged.
    fn next_loss(&self, space: SpaceId) -> Option<Instant>
        ensures { IsNextLoss (state_in self.now) self.now.variables space result }
    {
        let largest = self.largest_acked(space)?;
        // No packet is judged, so the time of the pass does not matter.
        let look = self.look(space, Instant::from_nanos(0), false, largest);
        let sent = self.earliest_sent(&look)?;
        Some(sent + look.delay)
    }

    /// Returns when the first packet below the largest acknowledged was sent.
    fn earliest_sent(&self, look: &LossPass) -> Option<Instant>
        ensures { IsEarliestSent (packets_in (state_in self.now) look.now.space) look.now.largest
            result }
    {
        let mut earliest = None;
        let mut from = 0;
        while let Some(packet) = self.candidate(look, from) {
            earliest = earlier(earliest, Some(packet.time_sent));
            from = packet.number + 1;
        }
        earliest
    }

    /// Stores for each space when its next packet is lost, with the RTT of the path in use. With that of another path
    /// the time may be seconds too late, and while one is set no probe is due (RFC 9002, 6.2.1 and A.8).
    pub(super) fn renew_loss_times(&mut self)
        ensures { RenewsLossTimes self.old self.new }
    {
        let initial = self.next_loss(SpaceId::Initial);
        let handshake = self.next_loss(SpaceId::Handshake);
        let data = self.next_loss(SpaceId::Data);
        self.set_loss_time(SpaceId::Initial, initial);
        self.set_loss_time(SpaceId::Handshake, handshake);
        self.set_loss_time(SpaceId::Data, data);
    }

    /// Returns the first tracked packet at or above `from` and below the largest acknowledged.
    fn candidate(&self, look: &LossPass, from: u64) -> Option<Candidate>
        ensures fits { IfSome result (λ found. found.number + 1 < u64_limit) }
        ensures next { MatchOption result
            (NoneFrom look.now (packets_in (state_in self.now) look.now.space) from)
            (λ found. IsNextLossCandidate look.now (packets_in (state_in self.now) look.now.space)
            from found) }
    {
        let here = self.space(look.space)?;
        let (number, packet) = here.sent_packets.tracked_between(from, look.largest)?;
        Some(Candidate {
            number,
            time_sent: packet.time_sent,
            size: packet.size,
            ack_eliciting: packet.ack_eliciting,
            path_generation: packet.path_generation,
        })
    }

    /// Declares a tracked packet lost. Returns false if allocation fails: then it is still tracked, with its contents.
    fn declare_lost(&mut self, space: SpaceId, number: u64) -> bool
        requires tracked { packet_at (packets_in (state_in self.old) space) number ≢ None }
        ensures { TakesSteps (trying space ((number, not result) ∷ [])) self.old self.new }
    {
        let Ok(_answer) = self.apply(Event::Lost { space, number }) else {
            return false;
        };
        true
    }

    /// Declares a tracked packet lost, and appends its number to `numbers`. Returns false, and appends nothing, if
    /// allocation fails.
    pub(super) fn lose(&mut self, space: SpaceId, number: u64, numbers: &mut Vec<u64>) -> bool
        requires tracked { packet_at (packets_in (state_in self.old) space) number ≢ None }
        requires room { vec_len numbers.old < vec_capacity numbers.old }
        ensures tries { TakesSteps (trying space ((number, not result) ∷ [])) self.old self.new }
        ensures numbers { numbers.new.items
            ≡ (if result then numbers.old.items ++ number ∷ [] else numbers.old.items) }
        ensures room { vec_capacity numbers.new ≡ vec_capacity numbers.old }
    {
        if !self.declare_lost(space, number) {
            return false;
        }
        numbers.push_reserved(number);
        true
    }

    /// Returns room for `count` numbers.
    pub(super) fn room_for(&self, count: usize) -> Result<Vec<u64>, SenderError>
        ensures none { IfOk result (λ room. room.items ≡ []) }
        ensures room { IfOk result (λ room. count ≤ vec_capacity room) }
        ensures memory { IfErr result (λ refused. refused ≡ SenderError.Event Refusal.NoMemory) }
        ensures succeeds { count ≡ 0 → IsOk result }
    {
        match Vec::with_capacity(self.alloc, count) {
            Ok(room) => Ok(room),
            Err(_) => Err(SenderError::Event(Refusal::NoMemory)),
        }
    }

    /// Returns room for the numbers of the packets that a space tracks below `end`, less `taken` of them.
    pub(super) fn room_below(
        &self,
        space: SpaceId,
        end: u64,
        taken: usize,
    ) -> Result<Vec<u64>, SenderError>
        ensures none { IfOk result (λ room. room.items ≡ []) }
        ensures room { IfOk result (λ room.
            count_below end (packets_in (state_in self.now) space) ≤ vec_capacity room + taken) }
        ensures memory { IfErr result (λ refused. refused ≡ SenderError.Event Refusal.NoMemory) }
    {
        let count = match self.space(space) {
            Some(here) => here.sent_packets.count_below(end),
            None => 0,
        };
        self.room_for(count.saturating_sub(taken))
    }

    /// Classifies a packet below the largest acknowledged.
    fn judge(
        &mut self,
        look: &LossPass,
        packet: &Candidate,
        tally: &mut Tally,
        numbers: &mut Vec<u64>,
    )
        requires below { packet.now.number < look.now.largest }
        requires tracked { packet_at (packets_in (state_in self.old) look.now.space)
            packet.now.number ≢ None }
        requires room { vec_len numbers.old < vec_capacity numbers.old }
        ensures becomes { ClassifiesPacket look.now packet.now self.old numbers.old.items tally.old
            self.new numbers.new.items tally.new }
        ensures room { vec_capacity numbers.new ≡ vec_capacity numbers.old }
    {
        if !look.is_lost(packet) {
            tally.waits(look.lost_at(packet));
        } else if look.probe == Some(packet.number) {
            tally.finds_probe(look, packet);
        } else if self.lose(look.space, packet.number, numbers) {
            tally.counts(look, packet);
        } else {
            tally.cuts(look);
        }
    }

    /// Scans the packets of a space below the largest acknowledged, and declares each lost one so, except the MTU
    /// probe.
    fn find_lost(&mut self, look: &LossPass, numbers: &mut Vec<u64>) -> Tally
        requires none { numbers.old.items ≡ [] }
        requires room { count_below look.now.largest
            (packets_in (state_in self.old) look.now.space) ≤ vec_capacity numbers.old }
        ensures { HasScanned look.now self.old look.now.largest numbers.new.items result self.new }
    {
        let mut tally = Tally::new();
        let mut from = 0;
        while let Some(packet) = self.candidate(look, from) {
            self.judge(look, &packet, &mut tally, numbers);
            from = packet.number + 1;
        }
        tally
    }

    /// Ends the losses of a pass, if any. Returns whether a black hole is reported (RFC 8899, 4.3).
    fn losses_done(&mut self, now: Instant, numbers: &[u64]) -> bool
        ensures goes { TakesSteps (ended now result numbers.now) self.old self.new }
        ensures none { numbers.now ≡ [] → result ≡ false }
    {
        if numbers.is_empty() {
            return false;
        }
        let answer = self.tell(Event::LossesDone { now });
        is_reported(&answer)
    }

    /// Reports congestion, if the last packet that counts was sent at `sent` (RFC 9002, 7.3.2). If it is persistent, it
    /// is reported as of a packet sent after the start of every recovery period. The window then falls to its minimum
    /// during one too (7.6.2).
    pub(super) fn congested(
        &mut self,
        now: Instant,
        sent: Option<Instant>,
        persistent: bool,
        bytes: u64,
    )
        ensures { TakesSteps (congested now persistent bytes sent) self.old self.new }
    {
        if let Some(sent) = sent {
            self.tell(Event::Congestion {
                now: start_at(now),
                sent: sent_for(persistent, sent),
                persistent,
                bytes,
            });
        }
    }

    /// Declares the MTU probe lost, if it is. If allocation fails, it is still tracked, and due at once.
    fn lose_probe(&mut self, look: &LossPass, tally: &mut Tally) -> Option<u64>
        requires tracked { ForSome tally.old.probe (λ number.
            packet_at (packets_in (state_in self.old) look.now.space) number ≢ None) }
        ensures lost { IfSome result (λ number. (tally.old.probe ≡ Some number)
            × (tally.new ≡ tally.old)) }
        ensures kept { IfNone result ((tally.old.probe ≡ None) × (tally.new ≡ tally.old)
            ⊎ (tally.old.probe ≢ None) × (tally.new ≡ cutting look.now tally.old)) }
        ensures tries { TakesSteps (trying look.now.space (probe_attempts tally.old.probe result))
            self.old self.new }
    {
        let number = tally.probe?;
        if self.declare_lost(look.space, number) {
            return Some(number);
        }
        tally.cuts(look);
        None
    }

    /// Returns the largest number acknowledged in a space, if a packet is tracked below it: after most ACKs none is.
    #[inline(always)]
    fn gap(&self, space: SpaceId) -> Option<u64>
        ensures none { IfNone result (HasNoGap (state_in self.now) space) }
        ensures some { IfSome result
            (λ largest. largest_in (state_in self.now) space ≡ Some largest) }
    {
        let here = self.space(space)?;
        let largest = here.largest_acked_packet?;
        here.sent_packets.tracked_between(0, largest)?;
        Some(largest)
    }

    /// Declares the lost packets of a space so, and stores when the next one is lost (RFC 9002, A.10:
    /// DetectAndRemoveLostPackets). Age is judged by the time `at`: a packet that the peer may still acknowledge with a
    /// frame that waits to be processed is not too old. Only a pass after an ACK detects persistent congestion. Cost:
    /// logarithmic for each packet tracked below the largest acknowledged. Inlined: after most ACKs there is nothing to
    /// scan.
    #[inline(always)]
    pub(super) fn detect_and_remove_lost_packets(
        &mut self,
        space: SpaceId,
        now: Instant,
        at: Instant,
        due_to_ack: bool,
        room: Vec<u64>,
    ) -> Losses
        requires none { room.items ≡ [] }
        requires room { HasRoomBelowLargest space self.old room }
        ensures { DetectsLosses space now at due_to_ack self.old result self.new }
    {
        let Some(largest) = self.gap(space) else {
            self.set_loss_time(space, None);
            return Losses::none(self.alloc);
        };
        self.remove_lost(space, now, at, due_to_ack, room, largest)
            .by_field()
    }

    /// Does so, with the largest acknowledged number of the space.
    #[inline(never)]
    fn remove_lost(
        &mut self,
        space: SpaceId,
        now: Instant,
        at: Instant,
        due_to_ack: bool,
        room: Vec<u64>,
        largest: u64,
    ) -> Losses
        requires largest { largest_in (state_in self.old) space ≡ Some largest }
        requires none { room.items ≡ [] }
        requires room { HasRoomBelowLargest space self.old room }
        ensures { DetectsLosses space now at due_to_ack self.old result self.new }
    {
        let mut numbers = room;
        let look = self.look(space, at, due_to_ack, largest);
        let mut tally = self.find_lost(&look, &mut numbers);
        let is_black_hole = self.losses_done(now, &numbers);
        let is_persistent = tally.run.is_persistent;
        let congestion = tally.congestion();
        self.congested(now, tally.last_sent, is_persistent, tally.bytes);
        let probe = self.lose_probe(&look, &mut tally);
        self.set_loss_time(space, tally.loss_time);
        Losses {
            numbers,
            probe,
            congestion,
            is_persistent,
            is_black_hole,
            is_cut: tally.is_cut,
        }
    }
}
