//! The request that the arguments make.

use crate::start::Window;
use recovery_script_syntax::words::number_in;

/// What `--version` writes.
pub const VERSION: &str = "recovery-pictures 0.2.0 after quinn-proto 0.11.19\n";

/// What `--help` writes.
pub const HELP: &str = "\
usage: recovery-pictures connection [from=TIME] [to=TIME] [over=WINDOW] [SEED [WINDOW]] | tunnel
Draws a connection or an MTU search: reads a text from standard input, and writes an SVG picture.

  connection  draws window, bytes in flight and round-trip time of a script of recovery-replay
    from, to  draws the script between these times, in nanoseconds; none: all of it
    over      also draws the window of a second script, after a line 'over': cubic, newreno or bytes
    SEED      the seed by which packet numbers are skipped, 0 to 18446744073709551615; - or none: no skips
    WINDOW    cubic, or a constant congestion window, in bytes, above 0; none: NewReno
  tunnel      draws the MTU search over a link; each line is a measurement, 'SIZE yes' or 'SIZE no'
  --help      prints this text
  --version   prints the version

Exit status: 0; 1 if reading, writing or allocation failed; 2 if an argument or the text could not be read.
";

/// How a connection is drawn.
#[derive(Clone, Copy)]
pub struct Choice {
    /// The seed of the skipped numbers; without it none is skipped.
    pub seed: Option<u64>,
    /// The window that limits what is in flight.
    pub window: Window,
    /// The time at which the picture begins, in nanoseconds; without it the first one of the script.
    pub from: Option<u64>,
    /// The time at which it ends, in nanoseconds; without it the last one of the script.
    pub to: Option<u64>,
    /// The window in a second script, if there is one.
    pub over: Option<Window>,
}

/// The request that the arguments make.
#[derive(Clone, Copy)]
pub enum Request {
    /// A picture of a connection.
    Connection(Choice),
    /// A picture of an MTU search, and of a paced burst.
    Tunnel,
    /// The usage.
    Help,
    /// The version.
    Version,
    /// An invalid request.
    Unknown,
}

/// How many positional arguments were read.
#[derive(Clone, Copy)]
enum Place {
    Seed,
    Window,
    End,
}

/// Returns the request that the arguments make.
pub fn request_of(words: &[String]) -> Request {
    for word in words {
        match word.as_str() {
            "--help" => return Request::Help,
            "--version" => return Request::Version,
            _ => {}
        }
    }
    match words {
        [name] if name.as_str() == "tunnel" => Request::Tunnel,
        [name, rest @ ..] if name.as_str() == "connection" => connection_of(rest),
        _ => Request::Unknown,
    }
}

/// Returns the picture of a connection that these arguments choose.
fn connection_of(words: &[String]) -> Request {
    let mut choice = Choice {
        seed: None,
        window: Window::NewReno,
        from: None,
        to: None,
        over: None,
    };
    let mut place = Place::Seed;
    for word in words {
        match add(&mut choice, place, word.as_str()) {
            Some(next) => place = next,
            None => return Request::Unknown,
        }
    }
    match (choice.from, choice.to) {
        (Some(from), Some(to)) if to <= from => Request::Unknown,
        _ => Request::Connection(choice),
    }
}

/// Adds an argument to the choices. Returns the place of the next one, or `None` if the argument is invalid.
fn add(choice: &mut Choice, place: Place, word: &str) -> Option<Place> {
    match word.split_once('=') {
        Some(("over", window)) => choice.over = Some(over_of(window)?),
        Some(("from", time)) => choice.from = Some(number_in(time.as_bytes())?),
        Some(("to", time)) => choice.to = Some(number_in(time.as_bytes())?),
        Some(_) => return None,
        None => return add_positional(choice, place, word),
    }
    Some(place)
}

/// Adds a seed to the choices, or after it a window. Returns `None` if the word is neither.
fn add_positional(choice: &mut Choice, place: Place, word: &str) -> Option<Place> {
    match place {
        Place::Seed => {
            choice.seed = seed_in(word)?;
            Some(Place::Window)
        }
        Place::Window => {
            choice.window = named(word)?;
            Some(Place::End)
        }
        Place::End => None,
    }
}

/// Parses a seed, a number, or `-` for none.
fn seed_in(word: &str) -> Option<Option<u64>> {
    match word {
        "-" => Some(None),
        _ => Some(Some(number_in(word.as_bytes())?)),
    }
}

/// Parses the window of a second script.
fn over_of(word: &str) -> Option<Window> {
    if word == "newreno" {
        return Some(Window::NewReno);
    }
    named(word)
}

/// Parses a window: CUBIC's, or one in bytes and above zero.
fn named(word: &str) -> Option<Window> {
    if word == "cubic" {
        return Some(Window::Cubic);
    }
    match number_in(word.as_bytes())? {
        0 => None,
        bytes => Some(Window::Fixed(bytes)),
    }
}
