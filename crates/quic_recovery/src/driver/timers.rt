//! The events of timers.

use crate::driver::Recovery;
use rand_core::Rng;
use recovery_base::time::Instant;
use recovery_base::timer::Timer;
use recovery_congestion::congestion::ControllerFactory;
use recovery_events::event::{Answer, Refusal};
use recovery_queue::queue::RetransmitQueue;

impl<F, Q, R> Recovery<F, Q, R>
where
    F: ControllerFactory,
    Q: RetransmitQueue,
    R: Rng + Drop,
{
    ghost use Rattle.recovery_events.specs.declared.event.Event.TheVariants.{SetTimer, StopTimer, NextTimeout};
    ghost use Rattle.quic_recovery.specs.State.{Transition, ReadOnlyTransition};

    /// A timer is set, or set to another time.
    #[inline(always)]
    pub(super) fn set_timer(&mut self, timer: Timer, time: Instant) -> Result<Answer<Q>, Refusal>
        ensures { Transition (SetTimer timer time) self.old result self.new }
    {
        self.timers.set(timer, time);
        Ok(Answer::Done)
    }

    /// A timer is stopped.
    #[inline(always)]
    pub(super) fn stop_timer(&mut self, timer: Timer) -> Result<Answer<Q>, Refusal>
        ensures { Transition (StopTimer timer) self.old result self.new }
    {
        self.timers.stop(timer);
        Ok(Answer::Done)
    }

    /// When does the next timer expire?
    #[inline(always)]
    pub(super) fn next_timeout(&self) -> Result<Answer<Q>, Refusal>
        ensures { ReadOnlyTransition NextTimeout self.now result }
    {
        Ok(Answer::Timeout(self.timers.next_timeout()))
    }
}
