//! The events of probes, of the retransmission queue, of ECN and of skipped numbers (RFC 9000, 13 and 21.4; RFC 9002,
//! 6.2.4).

use crate::driver::Recovery;
use rand_core::Rng;
use recovery_base::below::{EcnCounts, NoMemory, SpaceId};
use recovery_congestion::congestion::ControllerFactory;
use recovery_events::event::{Answer, Refusal};
use recovery_queue::queue::RetransmitQueue;
use recovery_spaces::spaces::NUMBER_LIMIT;

impl<F, Q, R> Recovery<F, Q, R>
where
    F: ControllerFactory,
    Q: RetransmitQueue,
    R: Rng + Drop,
{
    ghost use Rattle.recovery_events.specs.declared.event.Event.TheVariants.{Ecn, CheckAck, QueueProbe, TakePending};
    ghost use Rattle.quic_recovery.specs.State.{Transition, ReadOnlyTransition};

    /// The ECN counts of an ACK frame (RFC 9000, 13.4.2).
    #[inline(always)]
    pub(super) fn ecn(
        &mut self,
        space: SpaceId,
        newly_acked: u64,
        counts: EcnCounts,
    ) -> Result<Answer<Q>, Refusal>
        ensures { Transition (Ecn space newly_acked counts) self.old result self.new }
    {
        if self.discarded.contains(space) {
            return Err(Refusal::SpaceDiscarded);
        }
        match self.spaces[space].detect_ecn(newly_acked, counts) {
            Ok(is_marked) => Ok(Answer::Flag(is_marked)),
            Err(text) => Err(Refusal::Ecn(text)),
        }
    }

    /// Returns whether a range of numbers may be acknowledged, as [`Event::CheckAck`](crate::Event::CheckAck) (RFC
    /// 9000, 13.1 and 21.4). Rejected with `SpaceDiscarded`, `NumberTooLarge`, `BadRange` or `SkippedAcked`, in this
    /// order. Changes nothing.
    #[inline(always)]
    pub fn check_ack(&self, space: SpaceId, low: u64, high: u64) -> Result<Answer<Q>, Refusal>
        ensures { ReadOnlyTransition (CheckAck space low high) self.now result }
    {
        if self.discarded.contains(space) {
            return Err(Refusal::SpaceDiscarded);
        }
        if high >= NUMBER_LIMIT {
            return Err(Refusal::NumberTooLarge);
        }
        if low > high {
            return Err(Refusal::BadRange);
        }
        match self.filter.check_ack(space, low..=high) {
            Ok(()) => Ok(Answer::Done),
            Err(_) => Err(Refusal::SkippedAcked),
        }
    }

    /// A probe packet is to be sent (RFC 9002, 6.2.4).
    #[inline(always)]
    pub(super) fn queue_probe(
        &mut self,
        space: SpaceId,
        immediate_ack: bool,
        streams: Q::Streams,
    ) -> Result<Answer<Q>, Refusal>
        ensures { Transition (QueueProbe space immediate_ack streams) self.old result self.new }
    {
        if self.discarded.contains(space) {
            return Err(Refusal::SpaceDiscarded);
        }
        match self.spaces[space].queue_probe(immediate_ack, &streams) {
            Ok(frames) => Ok(Answer::Sendable(frames)),
            Err(NoMemory) => Err(Refusal::NoMemory),
        }
    }

    /// The retransmission queue is returned (RFC 9000, 13.3).
    #[inline(always)]
    pub(super) fn take_pending(&mut self, space: SpaceId) -> Result<Answer<Q>, Refusal>
        ensures { Transition (TakePending space) self.old result self.new }
    {
        let here = &mut self.spaces[space];
        if self.discarded.contains(space) {
            return Err(Refusal::SpaceDiscarded);
        }
        Ok(Answer::Queue(here.take_pending(self.alloc)))
    }
}
