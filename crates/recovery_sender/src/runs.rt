//! Runs of a sender over a source of calls, with a sink for the replies.
ghost use Rattle.std.specs.Prelude.{◌≤◌, ◌<◌, ◌⊎◌, IfOk, OnErr, length};
ghost use Rattle.recovery_base.specs.declared.timer.Timer.TheVariants.{LossDetection};
ghost use Rattle.recovery_base.specs.Units.{number_limit};
ghost use Rattle.recovery_events.specs.Feeding.{TakesAll};
ghost use Rattle.recovery_packet_numbers.specs.Skips.{IsSkips};
ghost use Rattle.recovery_sender.specs.Runs.{IsRun, CallIntoSink, CallsOverSource};

use crate::caller::Caller;
use crate::calls::{Call, CallRecord};
use crate::sender::Sender;
use rand_core::Rng;
use recovery_base::below::NoMemory;
use recovery_base::time::Instant;
use recovery_congestion::congestion::ControllerFactory;
use recovery_events::feeding::{Sink, Source};
use recovery_history::RecoveryConfig;
use recovery_losses::Side;
use recovery_queue::queue::RetransmitQueue;
use std::alloc::Global;

/// A sender that takes calls, and the sink of the replies.
#[derive(Drop)]
struct Runner<F: ControllerFactory, Q: RetransmitQueue, R: Rng, S> {
    caller: Caller<F, Q, R>,
    said: S,
}

impl<F, Q, R, S> Sink<Call<Q>> for Runner<F, Q, R, S>
where
    F: ControllerFactory,
    Q: RetransmitQueue,
    R: Rng + Drop,
    S: Sink<CallRecord<Q>>,
{
    ghost takes = { λ old call new. CallIntoSink S.takes old.caller.sender old.said call
        new.caller.sender new.said };

    fn put(&mut self, call: Call<Q>) -> bool {
        let reply = self.caller.call(call);
        let timer = self.caller.sender.loss_detection_timer();
        self.said.put(CallRecord { reply, timer })
    }
}

/// Makes every call that a source gives, in order. Returns the sender and the sink. The sink takes each reply before
/// the next call is given; no call and no reply is stored. However the source ends, the promises of each call hold
/// (`CallReply`).
pub fn run_over<F, Q, R, E, S>(
    sender: Sender<F, Q, R>,
    calls: &mut E,
    said: S,
) -> (Sender<F, Q, R>, S)
where
    F: ControllerFactory,
    Q: RetransmitQueue,
    R: Rng + Drop,
    E: Source<Call<Q>>,
    S: Sink<CallRecord<Q>> + Drop,
    ensures { CallsOverSource sender (λ all. E.gives calls.old all calls.new)
        (λ all. TakesAll S.takes said all result.1) result.0 }
{
    let mut runner = Runner {
        caller: Caller { sender },
        said,
    };
    calls.feed(&mut runner);
    let Runner { caller, said } = runner;
    (caller.sender, said)
}

/// Makes every call in order, from a new sender. Returns the sender and the replies. Room for the replies is allocated
/// first. So `run` itself fails with `NoMemory` only before the first call; later allocation failures are replies.
pub fn run<F, Q, R>(
    alloc: Global,
    side: Side,
    config: RecoveryConfig<F>,
    rng: R,
    start: Instant,
    calls: Vec<Call<Q>>,
) -> Result<(Sender<F, Q, R>, Vec<CallRecord<Q>>), NoMemory>
where
    F: ControllerFactory,
    Q: RetransmitQueue,
    R: Rng + Drop,
    requires issued { config.issued ≤ number_limit }
    requires skips { IsSkips config.skips }

    // Each call has one reply, and the promises of the call hold for it: by the state before, and by the events before
    // (`CallReply`).
    ensures runs { IfOk result
        (λ ran. IsRun side config start (R.stream rng) calls.items ran.1.items ran.0) }
    ensures memory { OnErr result ((0 < config.issued) ⊎ (0 < length calls.items)) }
{
    let said = Vec::with_capacity(alloc, calls.len())?;
    let sender = Sender::new(alloc, side, config, rng, start)?;
    let mut calls = calls;
    Ok(run_over(sender, &mut calls, said))
}
