//! The events of ACKs (RFC 9000, 13.2; draft-ietf-quic-ack-frequency-04).

use crate::driver::Recovery;
use rand_core::Rng;
use recovery_base::below::{AckFrequency, SpaceId};
use recovery_congestion::congestion::ControllerFactory;
use recovery_events::event::{Answer, Refusal};
use recovery_queue::queue::RetransmitQueue;

impl<F, Q, R> Recovery<F, Q, R>
where
    F: ControllerFactory,
    Q: RetransmitQueue,
    R: Rng + Drop,
{
    ghost use Rattle.recovery_events.specs.declared.event.Event.TheVariants.{AckFrequencyIn, AcksSent, AckDelayTimeout};
    ghost use Rattle.quic_recovery.specs.State.{Transition};

    /// An ACK_FREQUENCY frame was received.
    #[inline(always)]
    pub(super) fn ack_frequency_in(&mut self, frame: AckFrequency) -> Result<Answer<Q>, Refusal>
        ensures { Transition (AckFrequencyIn frame) self.old result self.new }
    {
        if self.discarded.contains(SpaceId::Data) {
            return Err(Refusal::SpaceDiscarded);
        }
        let here = &mut self.spaces[SpaceId::Data];
        match self
            .ack_frequency
            .ack_frequency_received(&frame, &mut here.pending_acks)
        {
            Ok(is_newer) => Ok(Answer::Flag(is_newer)),
            Err(_) => Err(Refusal::DelayTooSmall),
        }
    }

    /// An ACK was sent (RFC 9000, 13.2).
    #[inline(always)]
    pub(super) fn acks_sent(&mut self, space: SpaceId) -> Result<Answer<Q>, Refusal>
        ensures { Transition (AcksSent space) self.old result self.new }
    {
        if self.discarded.contains(space) {
            return Err(Refusal::SpaceDiscarded);
        }
        self.spaces[space].pending_acks.acks_sent();
        Ok(Answer::Done)
    }

    /// The ACK delay timer expired (RFC 9000, 13.2.1).
    #[inline(always)]
    pub(super) fn ack_delay_timeout(&mut self, space: SpaceId) -> Result<Answer<Q>, Refusal>
        ensures { Transition (AckDelayTimeout space) self.old result self.new }
    {
        if self.discarded.contains(space) {
            return Err(Refusal::SpaceDiscarded);
        }
        self.spaces[space].pending_acks.on_max_ack_delay_timeout();
        Ok(Answer::Done)
    }
}
