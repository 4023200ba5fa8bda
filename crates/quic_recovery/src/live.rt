//! The recovery of a running connection: events are applied one at a time, each after a past of events and replies.
ghost use Rattle.std.specs.Prelude.{◌≡◌, ◌+◌, ◌<◌, ◌≤◌, false, Ok, IfOk, OnErr, []};
ghost use Rattle.recovery_base.specs.Units.{number_limit, u64_limit};
ghost use Rattle.recovery_packet_numbers.specs.Skips.{IsSkips};
ghost use Rattle.recovery_paths.specs.PathLog.{paths_marks};
ghost use Rattle.recovery_history.specs.CallerState.{AreMarksFresh, HasNoLossTime, marks_at, with_marks_at, with_loss_time_at};
ghost use Rattle.recovery_history.specs.Reachability.{ReachedBy};
ghost use Rattle.recovery_events.specs.declared.event.Event.TheVariants.{Acked, EndAcks, NewPath, Sample, Send, Transmit};
ghost use Rattle.quic_recovery.specs.Live.{AppliesEvent, LiveStep, IsReachable, PreservesPasts, LiveStepFromSome};
ghost use Rattle.quic_recovery.specs.State.{state_of, begun, Transition};
ghost use Rattle.recovery_history.specs.Transitions.{inputs_of};
ghost use Rattle.recovery_history.specs.StateAfter.{InFlightAfter};

use crate::driver::Recovery;
use rand_core::Rng;
use recovery_base::below::{NoMemory, SpaceId};
use recovery_base::time::{Duration, Instant};
use recovery_congestion::congestion::ControllerFactory;
use recovery_events::event::{Answer, Event, Refusal};
use recovery_history::RecoveryConfig;
use recovery_paths::path_pair::PathName;
use recovery_paths::paths::PathMarks;
use recovery_queue::queue::RetransmitQueue;
use std::alloc::Global;
use std::net::SocketAddr;

/// A [`Recovery`] with a proof of its past: some beginning and some list of events with their replies led to its state,
/// and each reply follows from the events before it.
///
/// No list is stored. That one exists is proved of every value of this type, at no cost at run time. So the guarantees
/// of [`LiveRecovery::apply`] hold at each call of a connection that never ends, without a premise.
///
/// ```
/// let packet = Event::Received {
///     space: SpaceId::Handshake,
///     now: at(5),
///     number: 0,
///     ack_eliciting: true,
/// };
/// match live.apply(packet) {
///     // Process the frames of the packet.
///     Ok(Answer::New { .. }) => true,
///     // A duplicate: drop the packet.
///     Ok(_) => false,
///     // The call failed, and nothing has changed.
///     Err(_) => false,
/// }
/// ```
#[derive(Drop)]
pub struct LiveRecovery<F: ControllerFactory, Q: RetransmitQueue, R: Rng> {
    recovery: Recovery<F, Q, R>,
    ghost came: { ∥ IsReachable recovery ∥₁ },
}

impl<F, Q, R> LiveRecovery<F, Q, R>
where
    F: ControllerFactory,
    Q: RetransmitQueue,
    R: Rng + Drop,
{
    /// Returns a recovery without any event, made at time `now`. Fails as [`Recovery::new`].
    pub fn new(
        alloc: Global,
        config: RecoveryConfig<F>,
        rng: R,
        now: Instant,
    ) -> Result<Self, NoMemory>
        requires issued { config.issued ≤ number_limit }
        requires skips { IsSkips config.skips }
        ensures came { IfOk result (λ live. ReachedBy (begun live.recovery config now rng)
            [] (state_of live.recovery)) }
        ensures marks { IfOk result (λ live.
            AreMarksFresh (paths_marks (state_of live.recovery).paths)) }
        ensures loss_times { IfOk result (λ live. HasNoLossTime (state_of live.recovery).spaces) }
        ensures memory { OnErr result (0 < config.issued) }
    {
        let recovery = Recovery::new(alloc, config, rng, now)?;
        Ok(LiveRecovery { recovery })
    }

    /// Returns the recovery, to be read.
    pub fn recovery(&self) -> &Recovery<F, Q, R>
        ensures { result.now ≡ self.now.recovery }
    {
        &self.recovery
    }

    /// Applies one event as [`Recovery::apply`]. Some beginning and past led to this state. The reply follows from that
    /// past, each promise of `StepGuarantees` holds at this event, and the event and its reply extend the past.
    #[inline(always)]
    pub fn apply(&mut self, event: Event<Q>) -> Result<Answer<Q>, Refusal>
        // The reply to the event, by the state before it, and what it changes.
        ensures changes { Transition event self.old.recovery result self.new.recovery }

        // Then the bytes in flight on each path are sums over the tracked packets (RFC 9002, B.2).
        ensures in_flight { let new = state_of self.new.recovery in
            InFlightAfter (inputs_of new) new.paths }

        // From every beginning and past that led to this state, it continues.
        ensures extends { LiveStep self.old.recovery event result self.new.recovery }

        // At least one such beginning and past exists.
        ensures extended { ∥ LiveStepFromSome self.old.recovery event result self.new.recovery ∥₁ }
    {
        self.recovery.apply(event)
    }

    /// Applies [`Event::Send`], without the match over all events.
    #[inline(always)]
    pub fn send(
        &mut self,
        space: SpaceId,
        now: Instant,
        size: u16,
        ack_eliciting: bool,
        largest_acked: Option<u64>,
        queue: Q,
        stream_frames: Q::Meta,
    ) -> Result<Answer<Q>, Refusal>
        ensures { AppliesEvent self.old.recovery
            (Send space now size ack_eliciting largest_acked queue stream_frames)
            result self.new.recovery }
    {
        self.recovery.send(
            space,
            now,
            size,
            ack_eliciting,
            largest_acked,
            queue,
            stream_frames,
        )
    }

    /// Applies [`Event::Acked`], without the match over all events.
    #[inline(always)]
    pub fn acked(
        &mut self,
        space: SpaceId,
        now: Instant,
        number: u64,
        app_limited: bool,
    ) -> Result<Answer<Q>, Refusal>
        ensures { AppliesEvent self.old.recovery (Acked space now number app_limited) result
            self.new.recovery }
    {
        self.recovery.acked(space, now, number, app_limited)
    }

    /// Applies [`Event::EndAcks`], without the match over all events.
    #[inline(always)]
    pub fn end_acks(
        &mut self,
        now: Instant,
        app_limited: bool,
        largest: Option<u64>,
    ) -> Result<Answer<Q>, Refusal>
        ensures { AppliesEvent self.old.recovery (EndAcks now app_limited largest) result
            self.new.recovery }
    {
        self.recovery.end_acks(now, app_limited, largest)
    }

    /// Applies [`Event::Sample`], without the match over all events.
    #[inline(always)]
    pub fn sample(&mut self, delay: Duration, rtt: Duration) -> Result<Answer<Q>, Refusal>
        ensures { AppliesEvent self.old.recovery (Sample delay rtt) result self.new.recovery }
    {
        self.recovery.sample(delay, rtt)
    }

    /// Applies [`Event::Transmit`], without the match over all events.
    #[inline(always)]
    pub fn transmit(
        &mut self,
        now: Instant,
        bytes: u16,
        checked: bool,
    ) -> Result<Answer<Q>, Refusal>
        ensures { AppliesEvent self.old.recovery (Transmit now bytes checked) result
            self.new.recovery }
    {
        self.recovery.transmit(now, bytes, checked)
    }

    /// Applies [`Event::NewPath`] for a path that is not fresh, with a copy of the controller of the path in use
    /// (`Controller::try_clone`). Unlike [`LiveRecovery::apply`] it does not allocate and cannot fail.
    pub fn continue_path(&mut self, now: Instant, remote: SocketAddr, second: F::Controller)
        requires room { (state_of self.old.recovery).paths.made + 1 < u64_limit }
        requires copy { F.Controller.content second
            ≡ (state_of self.old.recovery).paths.current.state.controller }
        ensures { AppliesEvent self.old.recovery (NewPath now remote false) (Ok Answer.Done)
            self.new.recovery }
    {
        self.recovery.continue_path(now, remote, second);
    }

    /// Stores the caller's marks of a path, as [`Recovery::set_marks`]. This is no event.
    pub fn set_marks(&mut self, path: PathName, marks: PathMarks) -> Option<PathMarks>
        ensures before { result ≡ marks_at path (state_of self.old.recovery) }
        ensures after { state_of self.new.recovery
            ≡ with_marks_at path marks (state_of self.old.recovery) }
        ensures came { PreservesPasts self.old.recovery self.new.recovery }
    {
        self.recovery.set_marks(path, marks)
    }

    /// Stores when a packet of a space is to be declared lost, as [`Recovery::set_loss_time`]. This is no event.
    pub fn set_loss_time(&mut self, space: SpaceId, time: Option<Instant>)
        ensures after { state_of self.new.recovery
            ≡ with_loss_time_at space time (state_of self.old.recovery) }
        ensures came { PreservesPasts self.old.recovery self.new.recovery }
    {
        self.recovery.set_loss_time(space, time);
    }
}
