//! The events of each packet and each frame, by the recovery's own methods: without the match over all events.
ghost use Rattle.std.specs.Prelude.{◌≡◌, ◌∷◌, [], false, Ok, Err};
ghost use Rattle.recovery_events.specs.declared.event.Event.TheVariants.{Acked, EndAcks, Sample, Send, Transmit};
ghost use Rattle.recovery_events.specs.declared.event.Refusal.{Refusal};
ghost use Rattle.recovery_paths.specs.PathStates.{is_blocked};
ghost use Rattle.quic_recovery.specs.State.{ReadOnlyTransition};
ghost use Rattle.recovery_sender.specs.Senders.{state_in};
ghost use Rattle.recovery_sender.specs.Steps.{told, TakesSteps};

use super::Sender;
use rand_core::Rng;
use recovery_base::below::SpaceId;
use recovery_base::time::{Duration, Instant};
use recovery_congestion::congestion::ControllerFactory;
use recovery_events::event::{Answer, Refusal};
use recovery_queue::queue::RetransmitQueue;

impl<F, Q, R> Sender<F, Q, R>
where
    F: ControllerFactory,
    Q: RetransmitQueue,
    R: Rng + Drop,
{
    /// Records a sent packet. This may move the timer.
    #[inline(always)]
    pub(super) fn apply_send(
        &mut self,
        space: SpaceId,
        now: Instant,
        size: u16,
        ack_eliciting: bool,
        largest_acked: Option<u64>,
        queue: Q,
        stream_frames: Q::Meta,
    ) -> Result<Answer<Q>, Refusal>
        ensures { TakesSteps
            (told (Send space now size ack_eliciting largest_acked queue stream_frames) result ∷ [])
            self.old self.new }
    {
        self.is_timer_current = false;
        self.recovery.send(
            space,
            now,
            size,
            ack_eliciting,
            largest_acked,
            queue,
            stream_frames,
        )
    }

    /// Acknowledges a packet. This may move the timer.
    #[inline(always)]
    fn apply_acked(
        &mut self,
        space: SpaceId,
        now: Instant,
        number: u64,
        app_limited: bool,
    ) -> Result<Answer<Q>, Refusal>
        ensures { TakesSteps (told (Acked space now number app_limited) result ∷ [])
            self.old self.new }
    {
        self.is_timer_current = false;
        self.recovery.acked(space, now, number, app_limited)
    }

    /// Ends the acknowledgements of a frame. This may move the timer.
    #[inline(always)]
    fn apply_end_acks(
        &mut self,
        now: Instant,
        app_limited: bool,
        largest: Option<u64>,
    ) -> Result<Answer<Q>, Refusal>
        ensures { TakesSteps (told (EndAcks now app_limited largest) result ∷ [])
            self.old self.new }
    {
        self.is_timer_current = false;
        self.recovery.end_acks(now, app_limited, largest)
    }

    /// Takes an RTT sample. This may move the timer.
    #[inline(always)]
    fn apply_sample(&mut self, delay: Duration, rtt: Duration) -> Result<Answer<Q>, Refusal>
        ensures { TakesSteps (told (Sample delay rtt) result ∷ []) self.old self.new }
    {
        self.is_timer_current = false;
        self.recovery.sample(delay, rtt)
    }

    /// Asks whether a datagram may be transmitted. This may move the timer.
    #[inline(always)]
    fn apply_transmit(
        &mut self,
        now: Instant,
        bytes: u16,
        checked: bool,
    ) -> Result<Answer<Q>, Refusal>
        requires limit { is_blocked (state_in self.old).paths.current.state bytes ≡ false }
        ensures { TakesSteps (told (Transmit now bytes checked) result ∷ []) self.old self.new }
    {
        self.is_timer_current = false;
        self.recovery.transmit(now, bytes, checked)
    }

    /// Acknowledges a tracked packet, which cannot fail.
    #[inline(always)]
    pub(super) fn tell_packet_acked(
        &mut self,
        space: SpaceId,
        now: Instant,
        number: u64,
        app_limited: bool,
    ) -> Answer<Q>
        requires { (refusal : Refusal) → ¬ ReadOnlyTransition (Acked space now number app_limited)
            self.old.recovery.recovery (Err refusal) }
        ensures { TakesSteps (told (Acked space now number app_limited) (Ok result) ∷ [])
            self.old self.new }
    {
        match self.apply_acked(space, now, number, app_limited) {
            Ok(answer) => answer,
            Err(_) => unreachable!(),
        }
    }

    /// Ends the acknowledgements of a frame, which cannot fail.
    #[inline(always)]
    pub(super) fn tell_end_acks(
        &mut self,
        now: Instant,
        app_limited: bool,
        largest: Option<u64>,
    ) -> Answer<Q>
        ensures { TakesSteps (told (EndAcks now app_limited largest) (Ok result) ∷ [])
            self.old self.new }
    {
        match self.apply_end_acks(now, app_limited, largest) {
            Ok(answer) => answer,
            Err(_) => unreachable!(),
        }
    }

    /// Takes an RTT sample, which cannot fail.
    #[inline(always)]
    pub(super) fn tell_sample(&mut self, delay: Duration, rtt: Duration) -> Answer<Q>
        ensures { TakesSteps (told (Sample delay rtt) (Ok result) ∷ []) self.old self.new }
    {
        match self.apply_sample(delay, rtt) {
            Ok(answer) => answer,
            Err(_) => unreachable!(),
        }
    }

    /// Asks whether a datagram may be transmitted that the total has room for, which cannot fail.
    #[inline(always)]
    pub(super) fn tell_transmit(&mut self, now: Instant, bytes: u16, checked: bool) -> Answer<Q>
        requires answered { (refusal : Refusal) → ¬ ReadOnlyTransition (Transmit now bytes checked)
            self.old.recovery.recovery (Err refusal) }
        requires limit { is_blocked (state_in self.old).paths.current.state bytes ≡ false }
        ensures { TakesSteps (told (Transmit now bytes checked) (Ok result) ∷ [])
            self.old self.new }
    {
        match self.apply_transmit(now, bytes, checked) {
            Ok(answer) => answer,
            Err(_) => unreachable!(),
        }
    }
}
