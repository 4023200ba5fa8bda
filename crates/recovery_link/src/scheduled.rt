//! A schedule of two endpoints, from a file: what happens to them and on the network between them.
ghost use Rattle.std.specs.Prelude.{◌≤◌};
ghost use Rattle.recovery_base.specs.Units.{number_limit};
ghost use Rattle.recovery_packet_numbers.specs.Skips.{IsSkips};

use crate::ending::Ending;
use crate::flow::chosen;
use crate::settings::Settings;
use rand_core::SeedableRng;
use rand_pcg::Pcg32;
use recovery_base::time::Instant;
use recovery_engine::controllers::ChosenConfig;
use recovery_pair::{EndConfig, Pair};
use recovery_replay::outcome::Outcome;
use recovery_replay::replay::{FIRST_PORT, config, skips};
use recovery_replay::script;
use recovery_schedule::play_schedule;
use recovery_script_syntax::lines::peer_at;
use std::fs;
use std::io::BufReader;

/// Returns the file of a schedule, if an argument names one.
pub fn schedule_in(words: &[String]) -> Option<&str> {
    for word in words {
        if let Some(file) = word.strip_prefix("schedule=") {
            return Some(file);
        }
    }
    None
}

/// Returns the place of an argument that does not apply to a schedule, if there is one.
pub fn unused_in(words: &[String]) -> Option<usize> {
    words.iter().position(|word| !word.starts_with("schedule=") && !word.starts_with("controller="))
}

fn end_config(settings: &Settings) -> EndConfig<ChosenConfig, Pcg32>
    ensures issued { result.config.issued ≤ number_limit }
    ensures skips { IsSkips result.config.skips }
{
    EndConfig {
        config: config(chosen(settings.window), peer_at(FIRST_PORT), skips(None)),
        rng: Pcg32::seed_from_u64(0),
    }
}

/// Returns how the program ends after a schedule. A line that cannot be read was reported already.
fn ending_of(outcome: Outcome) -> Ending {
    match outcome {
        Outcome::Ended(script::Ending::Whole) => Ending::Ended,
        Outcome::Ended(script::Ending::BadLine(_)) => Ending::Refused,
        Outcome::Ended(script::Ending::ReadFailed) => Ending::ReadFailed,
        Outcome::WriteFailed => Ending::WriteFailed,
        Outcome::Closed => Ending::Closed,
        Outcome::OutOfMemory => Ending::OutOfMemory,
        Outcome::WrongArguments => Ending::WrongArguments,
    }
}

/// Plays the schedule of a file, and answers each line.
pub fn played(rt: &HostRuntime, settings: &Settings, file: &str) -> Ending {
    let Ok(file) = fs::open(rt, file) else {
        return Ending::ReadFailed;
    };
    let Ok(mut input) = BufReader::new(rt.alloc(), file) else {
        return Ending::OutOfMemory;
    };
    let start = Instant::from_nanos(0);
    let (client, server) = (end_config(settings), end_config(settings));
    match Pair::new(rt.alloc(), client, server, start) {
        Ok(pair) => {
            let (_output, outcome) = play_schedule(
                rt.alloc(),
                pair,
                &mut input,
                rt.stdout(),
                &mut rt.stderr(),
            );
            ending_of(outcome)
        }
        Err(_) => Ending::OutOfMemory,
    }
}
