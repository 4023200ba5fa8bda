//! What is written to standard error when a trace ends.
ghost use Rattle.std.specs.Prelude.{OnOk};
ghost use Rattle.std.specs.Io.KnownBytes.{Appends};
ghost use Rattle.recovery_trace.specs.Report.{error_text};

use crate::requests::USAGE;
use recovery_replay::outcome::Outcome;
use recovery_replay::script::Ending;
use std::io;
use std::io::Write;

/// The program's name in its error texts.
const NAME: &str = "recovery-trace";

/// Writes the error text. Each line that cannot be parsed was reported already.
pub fn report<E: Write>(outcome: Outcome, errors: &mut E) -> io::Result<()>
    ensures { OnOk result
        (Appends (E.contents errors.old) (E.contents errors.new) (error_text outcome)) }
{
    match outcome {
        Outcome::Ended(Ending::BadLine(_)) => Ok(()),
        _ => outcome.report(NAME, USAGE, errors),
    }
}
