//! The request that the arguments make.
use recovery_replay::fixed_window::FixedWindowConfig;
use recovery_script_syntax::words::number_in;

/// The usage of the program.
pub const USAGE: &str =
    "usage: recovery-trace [--state|--qlog] [--strict] [--controller NAME] [SEED [WINDOW]]\n";

/// What `--version` writes.
pub const VERSION: &str = "recovery-trace 0.2.0 after quinn-proto 0.11.19\n";

/// What `--help` writes after the usage.
pub const HELP: &str = "\
Answers events one at a time: reads a line, prints its answer, and reads the next line.

  SEED       the seed by which packet numbers are skipped, 0 to 18446744073709551615; - or none: no skips
  WINDOW     a constant congestion window, in bytes, above 0; none: NewReno
  --controller NAME  the controller instead of a WINDOW: newreno, or cubic (RFC 9438)
  --state    prints a JSON object after each answer: time, bytes in flight, window, RTT, MTU, pacer
  --qlog     prints qlog instead of answers, as JSON text sequences (RFC 7464)
  --strict   stops at the first line that cannot be read; else such a line is reported and skipped
  --help     prints this text
  --version  prints the version

The lines are those of recovery-replay. Empty lines and lines that begin with # are skipped.
Exit status: 0; 1 if reading, writing or allocation failed; 2 if a line or an argument could not be read.
";

/// The controllers of paths.
#[derive(Clone, Copy)]
pub enum Controllers {
    /// NewReno (RFC 9002, 7).
    NewReno,
    /// CUBIC (RFC 9438).
    Cubic,
    /// A window that never changes.
    Fixed(FixedWindowConfig),
}

/// What is written for an event.
#[derive(Clone, Copy)]
pub enum Shown {
    /// Its answer.
    Answers,
    /// Its answer, and the state after it.
    States,
    /// Its qlog records.
    Qlog,
}

/// The choices for a trace.
#[derive(Clone, Copy)]
pub struct Choice {
    /// The seed of the skipped numbers; without it none is skipped.
    pub seed: Option<u64>,
    /// The controllers of paths; NewReno's by default.
    pub controllers: Controllers,
    /// What is written for each event.
    pub shows: Shown,
    /// Whether the first line that cannot be parsed ends the trace.
    pub is_strict: bool,
}

/// The request that the arguments make.
#[derive(Clone, Copy)]
pub enum Request {
    /// A trace.
    Trace(Choice),
    /// The usage.
    Help,
    /// The version.
    Version,
    /// An invalid request.
    Unknown,
}

/// How many positional arguments were read.
#[derive(Clone, Copy, PartialEq, Eq)]
enum Place {
    Seed,
    Window,
    End,
}

/// Whether the controllers were named.
#[derive(Clone, Copy, PartialEq, Eq)]
enum Naming {
    Unnamed,
    /// The next argument is their name.
    Next,
    Named,
}

/// The arguments that were read so far.
#[derive(Drop)]
struct Arguments {
    choice: Choice,
    place: Place,
    naming: Naming,
}

impl Arguments {
    /// Adds a seed: a number, or `-` for none. Returns `None` if it is invalid.
    fn add_seed(&mut self, word: &str) -> Option<()> {
        if word != "-" {
            self.choice.seed = Some(number_in(word.as_bytes())?);
        }
        self.place = Place::Window;
        Some(())
    }

    /// Adds a window above zero, if no controllers were named. Returns `None` if it is invalid.
    fn add_window(&mut self, word: &str) -> Option<()> {
        let window = number_in(word.as_bytes())?;
        if self.naming == Naming::Named || window == 0 {
            return None;
        }
        self.choice.controllers = Controllers::Fixed(FixedWindowConfig::new(window));
        self.place = Place::End;
        Some(())
    }

    /// Adds the name of the controllers, if there is no window. Returns `None` if it is invalid.
    fn add_name(&mut self, word: &str) -> Option<()> {
        if self.place == Place::End {
            return None;
        }
        match word {
            "newreno" => self.choice.controllers = Controllers::NewReno,
            "cubic" => self.choice.controllers = Controllers::Cubic,
            _ => return None,
        }
        self.naming = Naming::Named;
        Some(())
    }

    /// Adds `--controller`, if no controllers were named. Returns `None` if they were.
    fn expect_name(&mut self) -> Option<()> {
        if self.naming == Naming::Named {
            return None;
        }
        self.naming = Naming::Next;
        Some(())
    }

    /// Adds an argument. Returns `None` if it is invalid.
    fn add(&mut self, word: &str) -> Option<()> {
        if self.naming == Naming::Next {
            return self.add_name(word);
        }
        match word {
            "--state" => self.choice.shows = Shown::States,
            "--qlog" => self.choice.shows = Shown::Qlog,
            "--strict" => self.choice.is_strict = true,
            "--controller" => return self.expect_name(),
            word => {
                return match self.place {
                    Place::Seed => self.add_seed(word),
                    Place::Window => self.add_window(word),
                    Place::End => None,
                };
            }
        }
        Some(())
    }

    /// Returns the request that the next argument makes by itself, if it does.
    fn asked_by(&self, word: &str) -> Option<Request> {
        if self.naming == Naming::Next {
            return None;
        }
        match word {
            "--help" => Some(Request::Help),
            "--version" => Some(Request::Version),
            _ => None,
        }
    }
}

/// Returns the request that the arguments make. Options may be anywhere; the first of `--help` and `--version` decides,
/// unless an argument before it is invalid.
pub fn request_of(words: &[String]) -> Request {
    let mut arguments = Arguments {
        choice: Choice {
            seed: None,
            controllers: Controllers::NewReno,
            shows: Shown::Answers,
            is_strict: false,
        },
        place: Place::Seed,
        naming: Naming::Unnamed,
    };
    for word in words {
        if let Some(request) = arguments.asked_by(word.as_str()) {
            return request;
        }
        if arguments.add(word.as_str()).is_none() {
            return Request::Unknown;
        }
    }
    if arguments.naming == Naming::Next {
        return Request::Unknown;
    }
    Request::Trace(arguments.choice)
}
