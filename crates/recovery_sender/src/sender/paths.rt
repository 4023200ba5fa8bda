//! Changes of the path in use (RFC 9000, 9).
ghost use Rattle.std.specs.Prelude.{◌≡◌, ◌<◌, ◌≤◌, ◌+◌, ◌∷◌, [], true, false, Ok, IfOk, IfErr, IfSome, if◌then◌else◌};
ghost use Rattle.std.specs.Option.{ForSome};
ghost use Rattle.recovery_base.specs.Units.{u64_limit};
ghost use Rattle.recovery_events.specs.declared.event.Event.TheVariants.{NewPath, RevertPath};
ghost use Rattle.recovery_history.specs.EventBounds.{StaysInBounds};
ghost use Rattle.recovery_losses.specs.Variables.{is_server};
ghost use Rattle.recovery_sender.specs.Bounds.{latest_start};
ghost use Rattle.recovery_sender.specs.Calls.{changes_path, forgets_rtt, makes_fresh_path, PathEventResult};
ghost use Rattle.recovery_sender.specs.PathChanges.{is_previous_validated, is_last_validated_previous, moving, validating, IsFailedEvent, LeavesPath, SwitchesPath};
ghost use Rattle.recovery_sender.specs.Senders.{state_in};
ghost use Rattle.recovery_sender.specs.Steps.{told, TakesSteps};

use super::{Sender, SenderError};
use rand_core::Rng;
use recovery_base::below::NoMemory;
use recovery_base::time::Instant;
use recovery_congestion::congestion::{Controller, ControllerFactory};
use recovery_events::event::{Answer, Event, Refusal};
use recovery_losses::{Side, Variables};
use recovery_queue::queue::RetransmitQueue;
use std::net::SocketAddr;

/// Returns whether an event resets the RTT of the path in use.
fn forgets_rtt<Q: RetransmitQueue>(event: &Event<Q>) -> bool
    ensures { result ≡ forgets_rtt event.now }
{
    match event {
        Event::NewPath { fresh, .. } => *fresh,
        Event::ResetPath { .. } => true,
        _ => false,
    }
}

/// Returns whether an event makes a path of which nothing is known.
fn makes_fresh_path<Q: RetransmitQueue>(event: &Event<Q>) -> bool
    ensures { result ≡ makes_fresh_path event.now }
{
    match event {
        Event::NewPath { fresh, .. } => *fresh,
        _ => false,
    }
}

/// Returns how many consecutive probe timeouts count on a path, of those before it was in use.
fn pto_count_on(is_fresh: bool, before: u32) -> u32
    ensures { result ≡ (if is_fresh then 0 else before) }
{
    if is_fresh { 0 } else { before }
}

impl<F, Q, R> Sender<F, Q, R>
where
    F: ControllerFactory,
    Q: RetransmitQueue,
    R: Rng + Drop,
{
    /// Applies an event that changes or resets the path in use. Loss times then follow from its RTT. A fresh path
    /// begins without backoff: the timeouts before were those of another path.
    pub(super) fn change_path(&mut self, event: Event<Q>) -> Result<Answer<Q>, SenderError>
        requires changes { changes_path event ≡ true }
        requires stays { StaysInBounds latest_start (state_in self.old) event }
        ensures { PathEventResult event self.old self.new result }
    {
        let forgets = forgets_rtt(&event);
        let is_fresh = makes_fresh_path(&event);
        match self.switch_path(event) {
            Ok(answer) => {
                let variables = self.variables;
                self.change_rtt(Variables {
                    initial_rtt: variables.initial_rtt_after(forgets),
                    pto_count: pto_count_on(is_fresh, variables.pto_count),
                    ..variables
                });
                Ok(answer)
            }
            Err(refusal) => Err(SenderError::Event(refusal)),
        }
    }

    /// Applies an event that changes or resets the path in use, so that the last validated path is kept (RFC 9000,
    /// 9.3.2).
    fn switch_path(&mut self, event: Event<Q>) -> Result<Answer<Q>, Refusal>
        requires stays { StaysInBounds latest_start (state_in self.old) event }
        ensures { SwitchesPath event self.old self.new result }
    {
        match event {
            Event::NewPath { now, remote, fresh } => self.move_on(now, remote, fresh),
            Event::RevertPath => self.revert(),
            event => self.apply(event),
        }
    }

    /// Uses another path. A client may send to it at once (RFC 9000, 8.1).
    fn move_on(
        &mut self,
        now: Instant,
        remote: SocketAddr,
        fresh: bool,
    ) -> Result<Answer<Q>, Refusal>
        requires early { now ≤ latest_start }
        ensures { SwitchesPath (NewPath now remote fresh) self.old self.new result }
    {
        match self.leave_path(now, remote, fresh) {
            Ok(answer) => {
                self.validate_own();
                Ok(answer)
            }
            Err(refusal) => Err(refusal),
        }
    }

    /// Uses another path, after a return to the last validated path if that is the previous one.
    fn leave_path(
        &mut self,
        now: Instant,
        remote: SocketAddr,
        fresh: bool,
    ) -> Result<Answer<Q>, Refusal>
        requires early { now ≤ latest_start }
        ensures { LeavesPath (NewPath now remote fresh) self.old self.new result }
    {
        if self.is_last_validated_previous() {
            return self.replace_path(now, remote, fresh);
        }
        self.apply(Event::NewPath { now, remote, fresh })
    }

    /// Returns to the previous path, and then uses another one. Both happen or neither: what may fail comes first.
    fn replace_path(
        &mut self,
        now: Instant,
        remote: SocketAddr,
        fresh: bool,
    ) -> Result<Answer<Q>, Refusal>
        requires validated { is_previous_validated (state_in self.old) ≡ true }
        requires early { now ≤ latest_start }
        ensures moves { IfOk result (λ answer.
            TakesSteps (moving true (NewPath now remote fresh) answer) self.old self.new) }
        ensures refused { IfErr result (λ refusal.
            IsFailedEvent (NewPath now remote fresh) self.old self.new refusal true) }
    {
        if !self.recovery.recovery().has_room_for_path() {
            return Err(Refusal::Overflow);
        }
        if fresh {
            self.go_back();
            self.start_path(now, remote);
            return Ok(Answer::Done);
        }
        let Some(second) = self.copy_previous_controller() else {
            return Err(Refusal::NoMemory);
        };
        self.go_back();
        self.continue_path(now, remote, second);
        Ok(Answer::Done)
    }

    /// Returns to the previous path if its address was validated. Fails with `NoSuchPath` otherwise.
    fn revert(&mut self) -> Result<Answer<Q>, Refusal>
        ensures { SwitchesPath RevertPath self.old self.new result }
    {
        if !self.is_previous_validated() {
            return Err(Refusal::NoSuchPath);
        }
        self.go_back();
        Ok(Answer::Done)
    }

    /// Returns whether there is a previous path, and its address was validated.
    fn is_previous_validated(&self) -> bool
        ensures { result ≡ is_previous_validated (state_in self.now) }
    {
        match self.recovery.recovery().previous() {
            Some(path) => path.validated,
            None => false,
        }
    }

    /// Returns whether the previous path is the last validated one.
    fn is_last_validated_previous(&self) -> bool
        ensures { result ≡ is_last_validated_previous (state_in self.now) }
    {
        !self.path().validated && self.is_previous_validated()
    }

    /// Returns a copy of the previous path's controller, or `None` if there is no such path, or no memory for the copy.
    fn copy_previous_controller(&self) -> Option<F::Controller>
        ensures { IfSome result (λ copy. ForSome (state_in self.now).paths.previous
            (λ path. F.Controller.content copy ≡ path.state.controller)) }
    {
        let path = self.recovery.recovery().previous()?;
        match path.congestion.try_clone() {
            Ok(copy) => Some(copy),
            Err(NoMemory) => None,
        }
    }

    /// Returns to the previous path, which cannot fail.
    fn go_back(&mut self)
        requires { is_previous_validated (state_in self.old) ≡ true }
        ensures { TakesSteps (told RevertPath (Ok Answer.Done) ∷ []) self.old self.new }
    {
        self.tell(Event::RevertPath);
    }

    /// Uses a fresh path, if there is room for it, which cannot fail.
    fn start_path(&mut self, now: Instant, remote: SocketAddr)
        requires early { now ≤ latest_start }
        requires room { (state_in self.old).paths.made + 1 < u64_limit }
        ensures { TakesSteps (told (NewPath now remote true) (Ok Answer.Done) ∷ []) self.old
            self.new }
    {
        self.tell(Event::NewPath {
            now,
            remote,
            fresh: true,
        });
    }

    /// Uses a path that continues from the current one, with a copy of its controller, which cannot fail. This may move
    /// the timer.
    fn continue_path(&mut self, now: Instant, remote: SocketAddr, second: F::Controller)
        requires early { now ≤ latest_start }
        requires room { (state_in self.old).paths.made + 1 < u64_limit }
        requires copy { F.Controller.content second
            ≡ (state_in self.old).paths.current.state.controller }
        ensures { TakesSteps (told (NewPath now remote false) (Ok Answer.Done) ∷ []) self.old
            self.new }
    {
        self.is_timer_current = false;
        self.recovery.continue_path(now, remote, second);
    }

    /// Validates the path in use at a client.
    fn validate_own(&mut self)
        ensures { TakesSteps (validating (is_server self.old.variables.side)) self.old self.new }
    {
        if self.variables.side == Side::Client {
            self.validate();
        }
    }
}
