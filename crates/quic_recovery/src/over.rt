//! A run over a source of events, with a sink for the replies.
ghost use Rattle.std.specs.Prelude.{◌≤◌, ◌<◌, IfOk, OnErr};
ghost use Rattle.recovery_base.specs.Units.{number_limit};
ghost use Rattle.recovery_packet_numbers.specs.Skips.{IsSkips};
ghost use Rattle.quic_recovery.specs.State.{begun, state_of};
ghost use Rattle.recovery_events.specs.Feeding.{TakesAll};
ghost use Rattle.quic_recovery.specs.Over.{StepIntoSink, RunOverSource};

use crate::driver::Recovery;
use rand_core::Rng;
use recovery_base::below::NoMemory;
use recovery_base::time::Instant;
use recovery_congestion::congestion::ControllerFactory;
use recovery_events::event::{Answer, Event, Refusal};
use recovery_events::feeding::{Sink, Source};
use recovery_history::RecoveryConfig;
use recovery_queue::queue::RetransmitQueue;
use std::alloc::Global;

/// A recovery that takes events, and the sink of its replies.
#[derive(Drop)]
struct Runner<F: ControllerFactory, Q: RetransmitQueue, R: Rng, S> {
    recovery: Recovery<F, Q, R>,
    replies: S,
}

impl<F, Q, R, S> Sink<Event<Q>> for Runner<F, Q, R, S>
where
    F: ControllerFactory,
    Q: RetransmitQueue,
    R: Rng + Drop,
    S: Sink<Result<Answer<Q>, Refusal>>,
{
    ghost takes = { λ old event new. StepIntoSink S.takes old.recovery old.replies event
        new.recovery new.replies };

    #[inline(always)]
    fn put(&mut self, event: Event<Q>) -> bool {
        let reply = self.recovery.apply(event);
        self.replies.put(reply)
    }
}

impl<F, Q, R> Recovery<F, Q, R>
where
    F: ControllerFactory,
    Q: RetransmitQueue,
    R: Rng + Drop,
{
    /// Applies every event that a source gives, in order, from a fresh start. Returns the last state and the sink. The
    /// sink takes each reply before the source gives the next event. [`Recovery::run`] makes this call with two lists.
    ///
    /// Events and replies are not stored. However the source ended, the guarantees of a run hold for the events that it
    /// gave. Fails with `NoMemory` before the first event if there is no room for the IDs that are issued at the start.
    pub fn run_over<E, S>(
        alloc: Global,
        config: RecoveryConfig<F>,
        rng: R,
        start: Instant,
        events: &mut E,
        replies: S,
    ) -> Result<(Recovery<F, Q, R>, S), NoMemory>
    where
        E: Source<Event<Q>>,
        S: Sink<Result<Answer<Q>, Refusal>> + Drop,
        requires issued { config.issued ≤ number_limit }
        requires skips { IsSkips config.skips }

        // The events given and the replies taken are those of a run, and each promise of `StepGuarantees` holds at each
        // event.
        ensures runs { IfOk result (λ run. RunOverSource (begun run.0 config start rng)
            (λ all. E.gives events.old all events.new) (λ all. TakesAll S.takes replies all run.1)
            (state_of run.0)) }
        ensures memory { OnErr result (0 < config.issued) }
    {
        let recovery = Recovery::new(alloc, config, rng, start)?;
        let mut runner = Runner { recovery, replies };
        events.feed(&mut runner);
        let Runner { recovery, replies } = runner;
        Ok((recovery, replies))
    }
}
