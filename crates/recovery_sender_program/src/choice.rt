//! The choices of the arguments.
ghost use Rattle.std.specs.Prelude.{◌<◌};

use recovery_losses::Side;
use recovery_replay::fixed_window::FixedWindowConfig;
use recovery_script_syntax::words::number_in;

/// The congestion window of each controller.
#[derive(Clone, Copy)]
pub enum Window {
    /// NewReno's (RFC 9002, 7).
    NewReno,
    /// CUBIC's (RFC 9438).
    Cubic,
    /// A window that nothing changes.
    Fixed(FixedWindowConfig),
}

/// The settings of loss detection (RFC 9002, 6.1 and 7.6.1).
#[derive(Clone, Copy)]
pub struct Settings {
    /// The packet threshold.
    pub packets: u32,
    /// The numerator of the time threshold.
    pub numerator: u64,
    /// Its denominator, above zero.
    pub denominator: u64,
    /// The persistent congestion threshold, in probe timeouts.
    pub periods: u32,
    ghost positive: { 0 < denominator },
}

/// The choices of the arguments.
#[derive(Clone, Copy)]
pub struct Choice {
    /// Which endpoint sends.
    pub side: Side,
    /// Whether the handshake is complete at the start.
    pub is_established: bool,
    /// The settings of loss detection; the defaults if there are none.
    pub settings: Option<Settings>,
    /// The seed of the skipped numbers; without it none is skipped.
    pub seed: Option<u64>,
    /// The window of each controller.
    pub window: Window,
}

/// Parses a side, and whether its handshake is complete.
fn side_in(word: &str) -> Option<(Side, bool)> {
    match word {
        "client" => Some((Side::Client, false)),
        "server" => Some((Side::Server, false)),
        "established" => Some((Side::Server, true)),
        _ => None,
    }
}

/// Parses a seed, or none if the word is `-`.
fn seed_in(word: &str) -> Option<Option<u64>> {
    match word {
        "-" => Some(None),
        _ => Some(Some(number_in(word.as_bytes())?)),
    }
}

/// Parses CUBIC's window, or one above zero; NewReno's if the word is `-`.
fn window_in(word: &str) -> Option<Window> {
    match word {
        "-" => return Some(Window::NewReno),
        "cubic" => return Some(Window::Cubic),
        _ => {}
    }
    match number_in(word.as_bytes())? {
        0 => None,
        window => Some(Window::Fixed(FixedWindowConfig::new(window))),
    }
}

fn short_in(word: &String) -> Option<u32> {
    u32::try_from(number_in(word.as_bytes())?).ok()
}

/// Parses the settings of loss detection, the last four words.
fn settings_in(words: &[String]) -> Option<Settings> {
    let [packets, numerator, denominator, periods] = words else {
        return None;
    };
    let packets = short_in(packets)?;
    let numerator = number_in(numerator.as_bytes())?;
    let denominator = number_in(denominator.as_bytes())?;
    let periods = short_in(periods)?;
    if denominator == 0 {
        return None;
    }
    Some(Settings {
        packets,
        numerator,
        denominator,
        periods,
    })
}

/// Parses the arguments after the program's name: a side, then a seed, then a window, then the settings of loss
/// detection.
pub fn choice_of(words: &[String]) -> Option<Choice> {
    let (side, rest) = words.split_first()?;
    let (side, is_established) = side_in(side.as_str())?;
    let mut choice = Choice {
        side,
        is_established,
        settings: None,
        seed: None,
        window: Window::NewReno,
    };
    let Some((seed, rest)) = rest.split_first() else {
        return Some(choice);
    };
    choice.seed = seed_in(seed.as_str())?;
    let Some((window, rest)) = rest.split_first() else {
        return Some(choice);
    };
    choice.window = window_in(window.as_str())?;
    if !rest.is_empty() {
        choice.settings = Some(settings_in(rest)?);
    }
    Some(choice)
}
