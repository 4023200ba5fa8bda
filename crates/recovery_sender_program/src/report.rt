//! What is written to standard error when the program ends.
ghost use Rattle.std.specs.Prelude.{OnOk};
ghost use Rattle.std.specs.Io.KnownBytes.{Appends};
ghost use Rattle.recovery_sender_program.specs.Report.{error_text};

use recovery_replay::outcome::Outcome;
use recovery_replay::script::Ending;
use std::io;
use std::io::Write;

/// The program's name in its error texts.
const NAME: &str = "sender";

/// The usage of the program.
const USAGE: &str = "usage: recovery-sender client|server|established \
    [SEED [cubic|WINDOW [PACKETS NUMERATOR DENOMINATOR PERIODS]]]\n";

/// Writes the error text. A line that cannot be read was reported already.
pub fn report<E: Write>(outcome: Outcome, errors: &mut E) -> io::Result<()>
    ensures { OnOk result
        (Appends (E.contents errors.old) (E.contents errors.new) (error_text outcome)) }
{
    match outcome {
        Outcome::Ended(Ending::BadLine(_)) => Ok(()),
        outcome => outcome.report(NAME, USAGE, errors),
    }
}
