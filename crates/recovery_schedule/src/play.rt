//! Reads steps and writes answers: each line is answered before the next is read.
ghost use Rattle.recovery_replay.specs.Playing.{streams_of};
ghost use Rattle.recovery_schedule.specs.Played.{PlaysSteps};
ghost use Rattle.recovery_schedule.specs.Texts.{answer_line};

use crate::answers::push_answer;
use crate::lines::StepLines;
use rand_core::Rng;
use recovery_congestion::congestion::ControllerFactory;
use recovery_pair::{Pair, PairAnswer, run_over};
use recovery_replay::answering::{AnswerLines, Answers, ending_of};
use recovery_replay::giving::Lines;
use recovery_replay::outcome::Outcome;
use recovery_sender::SenderError;
use std::alloc::{AllocError, Global};
use std::io::{Read, Write};

/// How the answers to steps are written.
#[derive(Drop)]
struct StepAnswers;

impl AnswerLines for StepAnswers {
    type Answer = Result<PairAnswer, SenderError>;

    ghost line_of = { answer_line };

    fn push_line(
        _alloc: Global,
        text: &mut String,
        answer: Result<PairAnswer, SenderError>,
    ) -> Result<(), AllocError> {
        push_answer(text, &answer)
    }
}

/// Makes the steps of an input at two endpoints, up to the first line that encodes none. That line is reported to
/// `errors`. Returns the output, with the line of each answer, and the outcome. The promises of two endpoints hold for
/// these answers.
pub fn play_schedule<F, G, R, W, E>(
    alloc: Global,
    pair: Pair<F, G>,
    input: &mut R,
    output: W,
    errors: &mut E,
) -> (W, Outcome)
where
    F: ControllerFactory,
    G: Rng + Drop,
    R: Read,
    W: Write + Drop,
    E: Write,
    ensures { PlaysSteps pair.client.sender pair.server.sender pair.wire.items
        pair.client.waiting.items pair.server.waiting.items (streams_of
        (R.remaining input.old) (R.remaining input.new) (W.contents output) (W.contents result.0)
        (E.contents errors.old) (E.contents errors.new)) result.1 }
{
    let mut steps = Lines {
        alloc,
        grammar: StepLines,
        input,
        errors,
        outcome: None,
    };
    let answers = Answers::new(alloc, StepAnswers, output);
    let (pair, answers) = run_over(pair, &mut steps, answers);
    drop(pair);
    let outcome = ending_of(answers.broken, steps.outcome);
    (answers.output, outcome)
}
