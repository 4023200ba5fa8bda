//! The loss detection timer (RFC 9002, 6.2 and A.8).
ghost use Rattle.std.specs.Prelude.{◌≡◌, ◌∷◌, [], true, false, Decides, IfSome, None, Some, Ok, Err, option_copied, option_map};
ghost use Rattle.recovery_base.specs.declared.timer.Timer.TheVariants.{LossDetection};
ghost use Rattle.recovery_base.specs.Timers.{moment};
ghost use Rattle.recovery_congestion.specs.Rtt.{pto_base_of};
ghost use Rattle.recovery_events.specs.declared.event.Refusal.{Refusal};
ghost use Rattle.recovery_spaces.specs.Spaces.{packets_of};
ghost use Rattle.recovery_history.specs.EventBounds.{StaysInBounds};
ghost use Rattle.quic_recovery.specs.State.{ReadOnlyTransition};
ghost use Rattle.recovery_sender.specs.Bounds.{latest_start};
ghost use Rattle.recovery_sender.specs.Senders.{state_in};
ghost use Rattle.recovery_sender.specs.Spaces.{space_in};
ghost use Rattle.recovery_sender.specs.Timer.{IsOnlyPto, TimerIsSet, competes, due_of, has_eliciting, loss_due, probe_due, probe_in, deadlock_due, deadlock_space, only_pto, pto_of, rtt_in, tracks_eliciting};
ghost use Rattle.recovery_sender.specs.Steps.{told, loss_time, timer_event, TakesSteps, CompletesCall};

use super::Sender;
use rand_core::Rng;
use recovery_base::below::SpaceId;
use recovery_base::time::{Duration, Instant};
use recovery_base::timer::Timer;
use recovery_congestion::congestion::ControllerFactory;
use recovery_congestion::rtt::RttEstimator;
use recovery_events::event::{Answer, Event, Refusal};
use recovery_losses::{Due, Variables, probe_start, sooner};
use recovery_paths::paths::PathData;
use recovery_queue::queue::RetransmitQueue;
use recovery_spaces::spaces::PacketSpace;

/// A probe timeout is set only while the amplification limit permits a datagram of this size, in bytes: ack-eliciting
/// Initial packets are padded to it (RFC 9000, 14.1). Without room for a probe the timer would expire again and again.
pub(super) const LEAST_DATAGRAM: u64 = 1200;

/// Returns whether a packet tracked in a space is ack-eliciting (RFC 9002, 2).
fn has_eliciting<Q>(here: &PacketSpace<Q>) -> bool
where
    Q: RetransmitQueue,
    ensures { result ≡ has_eliciting (packets_of here.now) }
{
    here.sent_packets.has_ack_eliciting()
}

impl<F, Q, R> Sender<F, Q, R>
where
    F: ControllerFactory,
    Q: RetransmitQueue,
    R: Rng + Drop,
{
    /// Returns when the loss detection timer is due, as the last call set it (RFC 9002, A.8).
    pub fn loss_detection_timer(&self) -> Option<Instant>
        ensures { result ≡ moment LossDetection (state_in self.now).timers }
    {
        self.recovery.recovery().timers().get(Timer::LossDetection)
    }

    /// Sets or stops the timer (RFC 9002, A.8: SetLossDetectionTimer), by an event only if it changes. Out of line with
    /// what it computes, so that its callers read no result from memory.
    #[inline(never)]
    pub(super) fn set_loss_detection_timer(&mut self)
        ensures { CompletesCall [] self.old.variables self.old self.new }
    {
        let known = self.only_pto();
        let due = self.due_by(&known);
        self.set_timer_to(due, known);
    }

    /// Sets the timer. If the only probe timeout that may be due is known, it is not computed again.
    #[inline(always)]
    pub(super) fn move_timer(&mut self, known: Option<Duration>)
        requires { IsOnlyPto (state_in self.old) self.old.variables known }
        ensures { CompletesCall [] self.old.variables self.old self.new }
    {
        if known.is_none() {
            self.set_loss_detection_timer();
            return;
        }
        let moved = self.due_by(&known);
        self.set_timer_to(moved, known);
    }

    /// Sets the timer to the time of what is due, or stops it if nothing is, by an event only if it changes.
    #[inline(always)]
    fn set_timer_to(&mut self, due: Option<(Instant, Due)>, known: Option<Duration>)
        requires due { due ≡ due_of (state_in self.old) self.old.variables }
        requires known { IsOnlyPto (state_in self.old) self.old.variables known }
        ensures { CompletesCall [] self.old.variables self.old self.new }
    {
        if self.is_set_to(&due) {
            self.keep_timer(known);
            return;
        }
        self.tell_timer(due);
        self.known_pto = known;
        self.is_timer_current = true;
    }

    /// Returns the probe timeout of 1-RTT packets, if it is known and nothing else may be due.
    #[inline(always)]
    pub(super) fn known_pto(&self) -> Option<Duration>
        ensures { IsOnlyPto (state_in self.now) self.now.variables result }
    {
        if self.is_timer_current {
            self.known_pto
        } else {
            None
        }
    }

    /// Returns whether the timer is known to be set correctly.
    #[inline(always)]
    pub(super) fn is_known_timed(&self) -> bool
        ensures { result ≡ true → TimerIsSet (state_in self.now) self.now.variables }
    {
        self.is_timer_current
    }

    /// Returns whether the timer is known to be set correctly, and no amplification limit applies to the path (RFC
    /// 9000, 8.1).
    #[inline(always)]
    pub(super) fn is_timed_unlimited(&self) -> bool
        ensures timed { result ≡ true → TimerIsSet (state_in self.now) self.now.variables }
        ensures unlimited { result ≡ true
            → (state_in self.now).paths.current.state.validated ≡ true }
    {
        self.is_timer_current && self.path().validated
    }

    /// Sets the timer, unless it was known to be set and its inputs are unchanged (`was_timed`).
    #[inline(always)]
    pub(super) fn time_on(&mut self, was_timed: bool, known: Option<Duration>)
        requires timed { was_timed ≡ true → TimerIsSet (state_in self.old) self.old.variables }
        requires known { was_timed ≡ true → IsOnlyPto (state_in self.old) self.old.variables known }
        ensures { CompletesCall [] self.old.variables self.old self.new }
    {
        if was_timed {
            self.keep_timer(known);
            return;
        }
        self.set_loss_detection_timer();
    }

    /// Records that the timer is set correctly.
    #[inline(always)]
    fn keep_timer(&mut self, known: Option<Duration>)
        requires timed { TimerIsSet (state_in self.old) self.old.variables }
        requires known { IsOnlyPto (state_in self.old) self.old.variables known }
        ensures { CompletesCall [] self.old.variables self.old self.new }
    {
        self.known_pto = known;
        self.is_timer_current = true;
    }

    /// Returns whether the timer is set to the time of what is due, or stopped if nothing is.
    fn is_set_to(&self, due: &Option<(Instant, Due)>) -> bool
        ensures { Decides result (moment LossDetection (state_in self.now).timers
            ≡ option_map (λ due. due.0) due.now) }
    {
        match (self.loss_detection_timer(), due) {
            (None, None) => true,
            (Some(set), Some((time, _))) => set == *time,
            _ => false,
        }
    }

    /// Sets the timer to the time of what is due, or stops it if nothing is.
    fn tell_timer(&mut self, due: Option<(Instant, Due)>) -> Answer<Q>
        ensures { TakesSteps (told (timer_event due) (Ok result) ∷ []) self.old self.new }
    {
        let timer = Timer::LossDetection;
        match due {
            Some((time, _)) => self.tell(Event::SetTimer { timer, time }),
            None => self.tell(Event::StopTimer { timer }),
        }
    }

    /// Returns what is due next, and when.
    #[inline(always)]
    pub(super) fn due(&self) -> Option<(Instant, Due)>
        ensures { result ≡ due_of (state_in self.now) self.now.variables }
    {
        self.due_by(&self.only_pto())
    }

    /// Returns what is due next, and when, by the only probe timeout that may be due, if there is one.
    #[inline(always)]
    fn due_by(&self, known: &Option<Duration>) -> Option<(Instant, Due)>
        requires { known.now ≡ only_pto (state_in self.now) self.now.variables }
        ensures { result ≡ due_of (state_in self.now) self.now.variables }
    {
        match self.due_alone(known) {
            Some(due) => Some(due),
            None => self.due_of_all(),
        }
    }

    /// Returns whether losses or probes may be due in a space.
    #[inline(always)]
    fn competes(&self, space: SpaceId) -> bool
        ensures { result ≡ competes (state_in self.now) self.now.variables space }
    {
        match self.space(space) {
            Some(here) => here.loss_time.is_some() || has_eliciting(here),
            None => false,
        }
    }

    /// Returns the probe timeout of 1-RTT packets, if no loss and no probe of another space may be due. So it is after
    /// the handshake, while no packet is suspected lost.
    #[inline(always)]
    fn only_pto(&self) -> Option<Duration>
        ensures { result ≡ only_pto (state_in self.now) self.now.variables }
    {
        if self.competes(SpaceId::Initial) || self.competes(SpaceId::Handshake) {
            return None;
        }
        let here = self.space(SpaceId::Data)?;
        if here.loss_time.is_some()
            || self.path().anti_amplification_blocked(LEAST_DATAGRAM)
            || !self.variables.is_handshake_confirmed
        {
            return None;
        }
        Some(self.pto(SpaceId::Data))
    }

    /// Returns what is due next if that is a probe of 1-RTT packets, after this timeout, and nothing else may be due.
    #[inline(always)]
    fn due_alone(&self, known: &Option<Duration>) -> Option<(Instant, Due)>
        requires { known.now ≡ only_pto (state_in self.now) self.now.variables }
        ensures { IfSome result (λ due. due_of (state_in self.now) self.now.variables ≡ Some due) }
    {
        let Some(pto) = known else {
            return None;
        };
        let here = self.space(SpaceId::Data)?;
        if !has_eliciting(here) {
            return None;
        }
        let sent = here.time_of_last_ack_eliciting_packet?;
        Some((sent + *pto, Due::Probes(SpaceId::Data)))
    }

    /// Returns what is due next in all spaces, and when.
    #[inline(never)]
    fn due_of_all(&self) -> Option<(Instant, Due)>
        ensures { result ≡ due_of (state_in self.now) self.now.variables }
    {
        let losses = sooner(
            sooner(
                self.loss_due(SpaceId::Initial),
                self.loss_due(SpaceId::Handshake),
            ),
            self.loss_due(SpaceId::Data),
        );
        if losses.is_some() {
            return losses;
        }
        if self.path().anti_amplification_blocked(LEAST_DATAGRAM) {
            return None;
        }
        let probes = sooner(
            sooner(
                self.probe_due(SpaceId::Initial),
                self.probe_due(SpaceId::Handshake),
            ),
            self.probe_due(SpaceId::Data),
        );
        if probes.is_some() {
            return probes;
        }
        self.deadlock_due()
    }

    /// Returns when packets of a space may be lost.
    #[inline(always)]
    fn loss_due(&self, space: SpaceId) -> Option<(Instant, Due)>
        ensures { result ≡ loss_due (state_in self.now) space }
    {
        let time = self.space(space)?.loss_time?;
        Some((time, Due::Losses(space)))
    }

    /// Returns when a space is to be probed: that of 1-RTT packets only once the handshake is confirmed (RFC 9002,
    /// 6.2.1).
    #[inline(always)]
    fn probe_due(&self, space: SpaceId) -> Option<(Instant, Due)>
        ensures { result ≡ probe_due (state_in self.now) self.now.variables space }
    {
        if space == SpaceId::Data && !self.variables.is_handshake_confirmed {
            return None;
        }
        self.probe_in(space, self.space(space)?)
    }

    /// Returns when a space is to be probed, by its state: a probe timeout after its last ack-eliciting packet, or
    /// after a packet of it began to wait for room in the window.
    #[inline(always)]
    fn probe_in(&self, space: SpaceId, here: &PacketSpace<Q>) -> Option<(Instant, Due)>
        ensures { result ≡ probe_in (state_in self.now) self.now.variables space here.now }
    {
        let start = probe_start(
            has_eliciting(here),
            self.variables.waiting_since(space),
            here.time_of_last_ack_eliciting_packet,
        )?;
        Some((start + self.pto(space), Due::Probes(space)))
    }

    /// Returns whether a space tracks an ack-eliciting packet.
    pub(super) fn tracks_eliciting(&self, space: SpaceId) -> bool
        ensures { result ≡ tracks_eliciting (state_in self.now) self.now.variables space }
    {
        match self.space(space) {
            Some(here) => has_eliciting(here),
            None => false,
        }
    }

    /// Returns when a client probes that does not know its address validated: the server may have to wait for a
    /// datagram before it may send (RFC 9002, 6.2.2.1).
    fn deadlock_due(&self) -> Option<(Instant, Due)>
        ensures { result ≡ deadlock_due (state_in self.now) self.now.variables }
    {
        if self.variables.is_address_validated() {
            return None;
        }
        let space = self.deadlock_space();
        self.space(space)?;
        Some((
            self.variables.base + self.pto(space),
            Due::AntiDeadlock(space),
        ))
    }

    /// Returns the space of the anti-deadlock probe.
    fn deadlock_space(&self) -> SpaceId
        ensures { result ≡ deadlock_space (state_in self.now) self.now.variables }
    {
        if self.variables.has_handshake_keys && self.space(SpaceId::Handshake).is_some() {
            SpaceId::Handshake
        } else {
            SpaceId::Initial
        }
    }

    /// Returns the probe timeout of a space on the path in use (RFC 9002, 6.2.1).
    #[inline(always)]
    fn pto(&self, space: SpaceId) -> Duration
        ensures { result ≡ pto_of (state_in self.now) self.now.variables space }
    {
        self.variables.pto(self.timeout_base(), space)
    }

    /// Returns the probe timeout on the path in use without max_ack_delay and backoff. Copies no estimate.
    #[inline(always)]
    fn timeout_base(&self) -> Duration
        ensures { result ≡ pto_base_of (rtt_in (state_in self.now) self.now.variables) }
    {
        let rtt = &self.path().rtt;
        match self.variables.initial_rtt {
            Some(initial) if !rtt.has_sample() => RttEstimator::new(initial).pto_base(),
            _ => rtt.pto_base(),
        }
    }

    /// Returns the RTT estimate that timers use: before the first sample of the path in use, the initial RTT that the
    /// caller set, if it set one (RFC 9002, 6.2.2).
    #[inline(always)]
    pub(super) fn rtt(&self) -> RttEstimator
        ensures { result ≡ rtt_in (state_in self.now) self.now.variables }
    {
        let rtt = self.path().rtt;
        match self.variables.initial_rtt {
            Some(initial) if !rtt.has_sample() => RttEstimator::new(initial),
            _ => rtt,
        }
    }

    /// Returns the state of a space that is not discarded.
    pub(super) fn space(&self, space: SpaceId) -> Option<&PacketSpace<Q>>
        ensures { option_copied result ≡ space_in (state_in self.now) space }
    {
        self.recovery.recovery().space(space)
    }

    /// Returns the path in use.
    pub(super) fn path(&self) -> &PathData<F::Controller>
        ensures { result.now ≡ (state_in self.now).paths.current }
    {
        self.recovery.recovery().current()
    }

    /// Applies an event that cannot fail here.
    #[inline(always)]
    pub(super) fn tell(&mut self, event: Event<Q>) -> Answer<Q>
        requires answered { (refusal : Refusal)
            → ¬ ReadOnlyTransition event self.old.recovery.recovery (Err refusal) }
        requires stays { StaysInBounds latest_start (state_in self.old) event }
        ensures { TakesSteps (told event (Ok result) ∷ []) self.old self.new }
    {
        match self.apply(event) {
            Ok(answer) => answer,
            Err(_) => unreachable!(),
        }
    }

    /// Applies an event of the recovery and returns its reply. This may move the timer.
    #[inline(always)]
    pub(super) fn apply(&mut self, event: Event<Q>) -> Result<Answer<Q>, Refusal>
        requires stays { StaysInBounds latest_start (state_in self.old) event }
        ensures { TakesSteps (told event result ∷ []) self.old self.new }
    {
        self.is_timer_current = false;
        self.recovery.apply(event)
    }

    /// Stores when the next packet of a space is lost (RFC 9002, A.3: loss_time). This may move the timer.
    pub(super) fn set_loss_time(&mut self, space: SpaceId, time: Option<Instant>)
        ensures { TakesSteps (loss_time space time ∷ []) self.old self.new }
    {
        self.is_timer_current = false;
        self.recovery.set_loss_time(space, time);
    }

    /// Ends a call with these variables and sets the timer by them.
    pub(super) fn complete(&mut self, variables: Variables)
        ensures { CompletesCall [] variables self.old self.new }
    {
        self.is_timer_current = false;
        self.variables = variables;
        self.set_loss_detection_timer();
    }
}
