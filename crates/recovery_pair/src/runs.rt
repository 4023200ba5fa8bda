//! Runs of a pair over a source of steps, with a sink for the answers.
ghost use Rattle.recovery_pair.specs.Runs.{PairStepIntoSink, StepsOverSource};
ghost use Rattle.recovery_events.specs.Feeding.{TakesAll};

use crate::pair::Pair;
use crate::steps::{PairAnswer, PairStep};
use rand_core::Rng;
use recovery_congestion::congestion::ControllerFactory;
use recovery_events::feeding::{Sink, Source};
use recovery_sender::SenderError;

/// A pair that takes steps, and the sink of the answers.
#[derive(Drop)]
struct PairRunner<F: ControllerFactory, R: Rng, S> {
    pair: Pair<F, R>,
    said: S,
}

impl<F, R, S> Sink<PairStep> for PairRunner<F, R, S>
where
    F: ControllerFactory,
    R: Rng + Drop,
    S: Sink<Result<PairAnswer, SenderError>>,
{
    ghost takes = { λ old step new. PairStepIntoSink old.pair.client.sender
        old.pair.server.sender old.pair.wire.items old.pair.client.waiting.items
        old.pair.server.waiting.items S.takes old.said step new.pair.client.sender
        new.pair.server.sender new.pair.wire.items new.pair.client.waiting.items
        new.pair.server.waiting.items new.said };

    fn put(&mut self, step: PairStep) -> bool {
        let answer = self.pair.step(step);
        self.said.put(answer)
    }
}

/// Makes every step that a source gives, in order: the source is the layers above, the clocks and the network.
/// Returns the pair and the sink, which takes each answer before the next step is given.
pub fn run_over<F, R, E, S>(pair: Pair<F, R>, steps: &mut E, said: S) -> (Pair<F, R>, S)
where
    F: ControllerFactory,
    R: Rng + Drop,
    E: Source<PairStep>,
    S: Sink<Result<PairAnswer, SenderError>> + Drop,
    ensures { StepsOverSource pair.client.sender pair.server.sender pair.wire.items
        pair.client.waiting.items pair.server.waiting.items
        (λ all. E.gives steps.old all steps.new) (λ all. TakesAll S.takes said all result.1)
        result.0.client.sender result.0.server.sender result.0.wire.items
        result.0.client.waiting.items result.0.server.waiting.items }
{
    let mut runner = PairRunner { pair, said };
    steps.feed(&mut runner);
    let PairRunner { pair, said } = runner;
    (pair, said)
}
