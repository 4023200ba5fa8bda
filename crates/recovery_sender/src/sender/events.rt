//! New senders, and the events that a sender passes to its recovery.
ghost use Rattle.std.specs.Prelude.{◌≡◌, Some, true, ◌<◌, ◌≤◌, ◌+◌, ◌-◌, ◌∷◌, [], Ok, IfOk, OnOk, OnErr, Decides};
ghost use Rattle.recovery_base.specs.Units.{number_limit, u64_limit};
ghost use Rattle.recovery_packet_numbers.specs.Skips.{IsSkips};
ghost use Rattle.recovery_sender.specs.Bounds.{latest_start, MakesPathEarly};
ghost use Rattle.recovery_sender.specs.Calls.{backdated, challenged, changes_path, config_of, datagram_reply, elicits_in, thresholds_in, to_send, IsNewSender, IsPassedThrough, EventResult, ChangesRtt};
ghost use Rattle.recovery_sender.specs.TimerUnchanged.{leaves_timer};
ghost use Rattle.recovery_sender.specs.Senders.{state_in};
ghost use Rattle.recovery_sender.specs.Steps.{marked, told, TakesSteps, CompletesCall};
ghost use Rattle.recovery_sender.specs.Timer.{TimerIsSet};
ghost use Rattle.recovery_sender.specs.Established.{IsEstablishedSender};

use super::packets::{counted_at, eliciting_in};
use super::{Sender, SenderError};
use quic_recovery::LiveRecovery;
use rand_core::Rng;
use recovery_base::below::{NoMemory, SpaceId};
use recovery_base::time::{Duration, Instant};
use recovery_base::timer::Timer;
use recovery_congestion::congestion::ControllerFactory;
use recovery_events::event::{Answer, Event, Refusal};
use recovery_history::RecoveryConfig;
use recovery_losses::{Side, Thresholds, Variables};
use recovery_paths::path_pair::PathName;
use recovery_queue::queue::RetransmitQueue;
use std::alloc::Global;

/// Returns the settings of the recovery for a side.
fn config_of<F>(side: Side, config: RecoveryConfig<F>) -> RecoveryConfig<F>
    ensures { result ≡ config_of side config }
{
    let mut config = config;
    config.validated = config.validated || side == Side::Client;
    config
}

/// Returns the thresholds of loss detection in the settings.
fn thresholds_of<F>(config: &RecoveryConfig<F>) -> Thresholds
    ensures { result ≡ thresholds_in config.now }
{
    let transport = &config.transport;
    Thresholds::new(
        transport.packet_threshold,
        transport.get_time_threshold(),
        transport.persistent_congestion_threshold,
    )
}

/// Returns a nanosecond earlier, or the epoch if that is `now`.
fn nanosecond_before(now: Instant) -> Instant
    ensures value { result ≡ now - 1 }
    ensures early { result ≤ latest_start }
{
    Instant::from_nanos(now.as_nanos().saturating_sub(1))
}

/// Moves the start of a new path a nanosecond back: a packet sent at the time of the event then counts as sent after
/// the start of the controller's recovery period (RFC 9002, 7.3).
#[inline(always)]
fn backdate<Q: RetransmitQueue>(event: &mut Event<Q>)
    ensures value { event.new ≡ backdated event.old }
    ensures early { MakesPathEarly event.new }
{
    match event {
        Event::NewPath { now, .. } => *now = nanosecond_before(*now),
        Event::ResetPath { now } => *now = nanosecond_before(*now),
        _ => {}
    }
}

/// Returns whether an event changes or resets the path in use.
#[inline(always)]
fn changes_path<Q: RetransmitQueue>(event: &Event<Q>) -> bool
    ensures { result ≡ changes_path event.now }
{
    match event {
        Event::NewPath { .. } | Event::ResetPath { .. } | Event::RevertPath => true,
        _ => false,
    }
}

/// Returns when an event is to send what counts in flight.
#[inline(always)]
fn to_send<Q: RetransmitQueue>(event: &Event<Q>) -> Option<Instant>
    ensures { result ≡ to_send event.now }
{
    match event {
        Event::Send { now, size, .. } => counted_at(*now, *size),
        Event::PollMtu { now } => Some(*now),
        _ => None,
    }
}

/// Returns the space of an ack-eliciting packet, if an event is to send one.
#[inline(always)]
fn elicits_in<Q: RetransmitQueue>(event: &Event<Q>) -> Option<SpaceId>
    ensures { result ≡ elicits_in event.now }
{
    match event {
        Event::Send {
            space,
            ack_eliciting,
            ..
        } => eliciting_in(*space, *ack_eliciting),
        _ => None,
    }
}

/// Returns whether [`Sender::on_event`] passes an event. The sender itself decides which packets are acknowledged and
/// lost, congestion, probes, transmissions, discarded spaces and the loss detection timer.
#[inline(always)]
pub fn passes<Q: RetransmitQueue>(event: &Event<Q>) -> bool
    ensures { Decides result (IsPassedThrough event.now) }
{
    match event {
        Event::Acked { .. }
        | Event::Lost { .. }
        | Event::LossesDone { .. }
        | Event::Sample { .. }
        | Event::EndAcks { .. }
        | Event::Congestion { .. }
        | Event::Ecn { .. }
        | Event::QueueProbe { .. }
        | Event::Transmit { .. }
        | Event::DiscardSpace { .. } => false,
        Event::SetTimer { timer, .. } | Event::StopTimer { timer } => match timer {
            Timer::LossDetection => false,
            _ => true,
        },
        _ => true,
    }
}

/// Returns whether an event leaves all inputs of the loss detection timer unchanged. After other events the timer is
/// computed again.
#[inline(always)]
fn leaves_timer<Q: RetransmitQueue>(event: &Event<Q>) -> bool
    ensures { result ≡ leaves_timer event.now }
{
    match event {
        Event::Received { .. }
        | Event::AcksSent { .. }
        | Event::AckDelayTimeout { .. }
        | Event::TakePending { .. }
        | Event::PacerCheck { .. }
        | Event::NewId(_)
        | Event::NextId
        | Event::InitialId(_)
        | Event::IssueIds { .. }
        | Event::IdTimeout
        | Event::PeerRetired { .. }
        | Event::NextTimeout
        | Event::InFlight { .. }
        | Event::CheckAck { .. } => true,
        _ => false,
    }
}

impl<F, Q, R> Sender<F, Q, R>
where
    F: ControllerFactory,
    Q: RetransmitQueue,
    R: Rng + Drop,
{
    /// Returns a new sender, made at time `now`. The first path of a client is validated, whatever the settings say
    /// (RFC 9000, 8.1). Its recovery begins a nanosecond earlier, so that packets sent at `now` count as sent after
    /// that (RFC 9002, 7.3). Fails with `NoMemory`, as [`LiveRecovery::new`].
    pub fn new(
        alloc: Global,
        side: Side,
        config: RecoveryConfig<F>,
        rng: R,
        now: Instant,
    ) -> Result<Self, NoMemory>
        requires issued { config.issued ≤ number_limit }
        requires skips { IsSkips config.skips }
        ensures begins { IfOk result (λ sender. IsNewSender side config now (R.stream rng) sender) }
        ensures memory { OnErr result (0 < config.issued) }
    {
        let thresholds = thresholds_of(&config);
        let recovery = LiveRecovery::new(
            alloc,
            config_of(side, config),
            rng,
            nanosecond_before(now),
        )?;
        let mut sender = Sender {
            alloc,
            recovery,
            variables: Variables::new(side, thresholds, now),
            is_timer_current: false,
            known_pto: None,
        };
        sender.set_loss_detection_timer();
        Ok(sender)
    }

    /// Returns the sender of an established connection, made at time `now`. It makes [`Sender::new`],
    /// [`Sender::on_address_validated`], [`Sender::on_handshake_confirmed`], and discards the Initial and Handshake
    /// spaces (RFC 9001, 4.1.2 and 4.9). It sends and probes for 1-RTT packets only. Fails with `NoMemory`, as
    /// [`LiveRecovery::new`].
    pub fn established(
        alloc: Global,
        side: Side,
        config: RecoveryConfig<F>,
        rng: R,
        now: Instant,
    ) -> Result<Self, NoMemory>
        requires issued { config.issued ≤ number_limit }
        requires skips { IsSkips config.skips }
        ensures begins { IfOk result
            (λ sender. IsEstablishedSender side config now (R.stream rng) sender) }
        ensures memory { OnErr result (0 < config.issued) }
    {
        let mut sender = Sender::new(alloc, side, config, rng, now)?;
        sender.on_address_validated();
        sender.on_handshake_confirmed();
        let _initial = sender.discard(SpaceId::Initial, now);
        let _handshake = sender.discard(SpaceId::Handshake, now);
        Ok(sender)
    }

    /// Applies an event, as [`LiveRecovery::apply`] does and with the same errors, for example [`Event::Send`] or
    /// [`Event::PollMtu`]. [`Event::NewPath`] and [`Event::ResetPath`] take effect a nanosecond earlier, as in
    /// [`Sender::new`]. After these and [`Event::RevertPath`] the loss times are computed again with the RTT of the
    /// path then in use. That cost is logarithmic for each packet tracked below the largest acknowledged.
    ///
    /// The last validated path is kept (RFC 9000, 9.3.2). If the path in use was never validated and the previous one
    /// was, [`Event::NewPath`] first makes the event [`Event::RevertPath`]. So [`Event::RevertPath`] always leads to a
    /// validated path, and fails with `NoSuchPath` if the previous path is not validated: close the connection then.
    /// At a client a new path is validated at once, since only servers are limited until then (RFC 9000, 8.1).
    #[inline(always)]
    pub fn on_event(&mut self, event: Event<Q>) -> Result<Answer<Q>, SenderError>
        requires passes { IsPassedThrough event }
        ensures { EventResult event self.old self.new result }
    {
        let mut event = event;
        backdate(&mut event);
        if changes_path(&event) {
            return self.change_path(event);
        }
        let was_timed = self.is_left_by(&event);
        let known = self.known_pto();
        let time = to_send(&event);
        let elicits = elicits_in(&event);
        match self.apply(event) {
            Ok(answer) => {
                self.count_sent(time, elicits, &answer);
                self.time_on(was_timed, known);
                Ok(answer)
            }
            Err(refusal) => Err(SenderError::Event(refusal)),
        }
    }

    /// Sets the RTT that timers use before the first RTT sample of the path in use, instead of the one in the settings
    /// (RFC 9002, 6.2.2). Use the RTT of an earlier connection to the same peer, or the time that a Retry took. Probe
    /// timeout, loss delay and timer follow at once; the pacer uses the settings until the first sample. If the RTT of
    /// the path is reset (by a fresh [`Event::NewPath`], or [`Event::ResetPath`]), the settings apply again. Cost:
    /// logarithmic for each packet tracked below the largest acknowledged.
    pub fn set_initial_rtt(&mut self, rtt: Duration)
        ensures { ChangesRtt (record self.old.variables { initial_rtt = Some rtt }) self.old
            self.new }
    {
        self.change_rtt(Variables {
            initial_rtt: Some(rtt),
            ..self.variables
        });
    }

    /// Stores variables with another RTT, computes the loss times again, and sets the timer.
    pub(super) fn change_rtt(&mut self, variables: Variables)
        ensures { ChangesRtt variables self.old self.new }
    {
        self.keep_variables(variables);
        self.renew_loss_times();
        self.set_loss_detection_timer();
    }

    /// Stores variables. This may move the timer.
    fn keep_variables(&mut self, variables: Variables)
        ensures same { state_in self.new ≡ state_in self.old }
        ensures variables { self.new.variables ≡ variables }
    {
        self.is_timer_current = false;
        self.variables = variables;
    }

    /// Returns an MTU probe to send, if one is due, and tracks it, as [`Event::PollMtu`] and with its errors. The
    /// window is not checked: an MTU probe may exceed it (RFC 9000, 14.4).
    pub fn poll_mtu(&mut self, now: Instant) -> Result<Answer<Q>, SenderError>
        ensures { EventResult (Event.PollMtu now) self.old self.new result }
    {
        self.on_event(Event::PollMtu { now })
    }

    /// Uses an MTU that was found elsewhere on the path in use, as [`Event::MtuFound`] and with its errors. Datagrams
    /// may be that large from now on, and the minimum window follows (RFC 9000, 14.3; RFC 9002, 7.2).
    pub fn mtu_found(&mut self, mtu: u16) -> Result<Answer<Q>, SenderError>
        ensures { EventResult (Event.MtuFound mtu) self.old self.new result }
    {
        self.on_event(Event::MtuFound { mtu })
    }

    /// Records a received datagram of this many bytes on the path in use. If its address is not validated, more may be
    /// sent, so that the timer may be due at once (RFC 9000, 8.1; RFC 9002, A.6). Fails with `Overflow`, without a
    /// change, if the bytes received on the path would exceed `u64::MAX`.
    pub fn on_datagram(&mut self, bytes: u64) -> Result<(), SenderError>
        ensures reply { result ≡ datagram_reply (state_in self.old) bytes }
        ensures steps { let event = Event.DatagramIn PathName.Current bytes in
            OnOk result (CompletesCall (told event (Ok Answer.Done) ∷ [])
            self.old.variables self.old self.new) }
        ensures refused { OnErr result (self.new ≡ self.old) }
    {
        if self.path().total_recvd.checked_add(bytes).is_none() {
            return Err(SenderError::Event(Refusal::Overflow));
        }
        let was_timed = self.is_timed_unlimited();
        let known = self.known_pto();
        self.receive(bytes);
        self.time_on(was_timed, known);
        Ok(())
    }

    /// Validates the peer's address on the path in use (RFC 9000, 8.1 and 8.2).
    pub fn on_address_validated(&mut self)
        ensures { CompletesCall (told (Event.Validated PathName.Current) (Ok Answer.Done) ∷ [])
            self.old.variables self.old self.new }
    {
        self.validate();
        self.set_loss_detection_timer();
    }

    /// Stores the data of the outstanding PATH_CHALLENGE frame on the path in use, if any, and whether a PATH_CHALLENGE
    /// is to be sent (RFC 9000, 8.2.1). While one is outstanding, the window does not grow: an acknowledged packet may
    /// have been sent on the path before it (RFC 9000, 9.4).
    pub fn set_challenge(&mut self, challenge: Option<u64>, pending: bool)
        ensures { CompletesCall (marked (challenged (state_in self.old) challenge pending) ∷ [])
            self.old.variables self.old self.new }
    {
        let was_timed = self.is_known_timed();
        let known = self.known_pto();
        self.mark_challenge(challenge, pending);
        self.time_on(was_timed, known);
    }

    /// Returns whether the timer is known to be set, and an event does not move it.
    #[inline(always)]
    fn is_left_by(&self, event: &Event<Q>) -> bool
        ensures timed { result ≡ true → TimerIsSet (state_in self.now) self.now.variables }
        ensures leaves { result ≡ true → leaves_timer event.now ≡ true }
    {
        self.is_timer_current && leaves_timer(event)
    }

    /// Stores these challenge marks with the path in use.
    fn mark_challenge(&mut self, challenge: Option<u64>, pending: bool)
        ensures { TakesSteps (marked (challenged (state_in self.old) challenge pending) ∷ [])
            self.old self.new }
    {
        let path = self.path();
        let sending_ecn = path.sending_ecn;
        let first = path.first_packet_after_rtt_sample;
        self.mark(sending_ecn, challenge, pending, first);
    }

    /// Records a received datagram that the total has room for.
    fn receive(&mut self, bytes: u64)
        requires { (state_in self.old).paths.current.state.total_recvd + bytes < u64_limit }
        ensures { TakesSteps (told (Event.DatagramIn PathName.Current bytes) (Ok Answer.Done) ∷ [])
            self.old self.new }
    {
        self.tell(Event::DatagramIn {
            path: PathName::Current,
            bytes,
        });
    }

    /// Validates the address of the path in use.
    pub(super) fn validate(&mut self)
        ensures { TakesSteps (told (Event.Validated PathName.Current) (Ok Answer.Done) ∷ [])
            self.old self.new }
    {
        self.tell(Event::Validated {
            path: PathName::Current,
        });
    }
}
