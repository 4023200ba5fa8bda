//! The settings that the arguments choose.
use crate::amounts::{choice_in, count_in, share_in, span_in};
use crate::changes::is_change;
use recovery_network::draws::Chances;
use recovery_script_syntax::words::number_in;

/// The most bytes of a packet: the MTU, since no larger one is searched.
pub const LARGEST: u16 = 1200;

/// The fewest bytes of a packet.
const SMALLEST: u64 = 40;

/// The largest rate, size and span that can be chosen.
const MOST: u64 = 1_000_000_000_000;

/// The longest burst of losses, in packets.
const LONGEST_BURST: u64 = 1_000_000;

/// The most flows.
const MOST_FLOWS: u64 = 64;

// Hints that several arguments share.
const OF_WINDOW: &str = "newreno, cubic, or a window in bytes, as in controller=cubic";

const OF_CHOICE: &str = "yes or no, as in paced=no";

const OF_BYTES: &str = "1 to 1000G bytes, as in bytes=1.5M";

const OF_TIME: &str = "1 to 1000s in ns, us, ms or s, as in until=2.5s";

const OF_DELAY: &str = "0 to 1000s in ns, us, ms or s, as in delay=12.5ms";

const OF_SHARE: &str = "0 to 1000000 of a million, or 0% to 100%, as in loss=0.5%";

const OF_BURST: &str = "0 to 1M packets, as in burst=4";

/// What the value of each argument may be.
static HINTS: [(&str, &str); 29] = [
    ("controller", OF_WINDOW),
    ("rival", OF_WINDOW),
    ("paced", OF_CHOICE),
    ("ecn", OF_CHOICE),
    ("aqm", "tail or codel, as in aqm=codel"),
    ("bytes", OF_BYTES),
    ("chunk", OF_BYTES),
    ("rate", "1 to 1000G bits a second, as in rate=10M"),
    ("size", "40 to 1200 bytes, as in size=600"),
    ("queue", "1200 to 1000G bytes, as in queue=62.5k"),
    ("flows", "1 to 64, as in flows=2"),
    ("seed", "0 to 18446744073709551615, as in seed=7"),
    ("until", OF_TIME),
    ("interval", OF_TIME),
    ("delay", OF_DELAY),
    ("late", OF_DELAY),
    ("ack-delay", OF_DELAY),
    ("stagger", OF_DELAY),
    ("every", OF_DELAY),
    ("target", OF_DELAY),
    ("loss", OF_SHARE),
    ("reorder", OF_SHARE),
    ("duplicate", OF_SHARE),
    ("ack-loss", OF_SHARE),
    ("ack-reorder", OF_SHARE),
    ("ack-duplicate", OF_SHARE),
    ("burst", OF_BURST),
    ("ack-burst", OF_BURST),
    (
        "schedule",
        "with a schedule there is only controller=, as in controller=cubic",
    ),
];

/// What is written on standard output.
#[derive(Clone, Copy, PartialEq, Eq)]
pub enum Form {
    /// The line of figures.
    Figures,
    /// The calls of the sender, as lines of `recovery-sender`.
    Script,
    /// What happened, as qlog.
    Qlog,
}

/// The congestion window that limits what is in flight.
#[derive(Clone, Copy)]
pub enum Window {
    /// NewReno's (RFC 9002, 7).
    NewReno,
    /// CUBIC's (RFC 9438).
    Cubic,
    /// This many bytes, above zero.
    Fixed(u64),
}

/// The properties of a link.
#[derive(Clone, Copy)]
pub struct Shape {
    /// In bits per second, above zero.
    pub rate: u64,
    /// How long a packet takes to the peer, and an ACK back, in nanoseconds.
    pub delay: u64,
    /// How many bytes the queue has room for, including the packet that is being sent.
    pub queue: u64,
    /// What happens to packets after the queue, and to ACKs.
    pub there: Chances,
    pub back: Chances,
    /// How late is what is late, in nanoseconds.
    pub late: u64,
}

/// The settings of a transfer. Times are in nanoseconds.
#[derive(Clone, Copy)]
pub struct Settings {
    pub form: Form,
    pub window: Window,
    /// Whether datagrams wait for the pacer.
    pub is_paced: bool,
    /// How many bytes each flow transfers, above zero.
    pub bytes: u64,
    /// The bytes of each packet, above zero, all of which are payload.
    pub size: u16,
    pub link: Shape,
    /// Whether controlled delay manages the queue (RFC 8289), with its target and its interval.
    pub is_managed: bool,
    pub target: u64,
    pub interval: u64,
    /// Whether packets are marked instead of dropped by it (RFC 3168).
    pub is_ect: bool,
    /// How many flows share the queue, the controller of all but the first, and how long after one another they begin.
    pub flows: u64,
    pub rival: Option<Window>,
    pub stagger: u64,
    /// How many bytes an application writes at a time, and how often; 0: all at once.
    pub chunk: u64,
    pub every: u64,
    /// The peer's longest ACK delay.
    pub ack_delay: u64,
    /// The seed of the random losses and late packets.
    pub seed: u64,
    /// When the transfer is aborted.
    pub until: u64,
}

const CERTAIN: Chances = Chances {
    loss: 0,
    burst: 0,
    reorder: 0,
    duplicate: 0,
};

/// 10 Mbit/s, 25 ms in each direction, a queue of 62,500 bytes (one bandwidth-delay product), and a megabyte.
const USUAL: Settings = Settings {
    form: Form::Figures,
    window: Window::NewReno,
    is_paced: true,
    bytes: 1_000_000,
    size: LARGEST,
    link: Shape {
        rate: 10_000_000,
        delay: 25_000_000,
        queue: 62_500,
        there: CERTAIN,
        back: CERTAIN,
        late: 5_000_000,
    },
    is_managed: false,
    target: 5_000_000,
    interval: 100_000_000,
    is_ect: false,
    flows: 1,
    rival: None,
    stagger: 0,
    chunk: 12_000,
    every: 0,
    ack_delay: 25_000_000,
    seed: 0,
    until: MOST,
};

/// Parses the arguments after the program's name as settings. If one cannot be read, returns its place.
pub fn settings_of(words: &[String]) -> Result<Settings, usize> {
    let mut settings = USUAL;
    let mut place = 0;
    for word in words {
        if set(&mut settings, word.as_str()).is_none() {
            return Err(place);
        }
        place = place.saturating_add(1);
    }
    Ok(settings)
}

/// Sets what an argument chooses. Returns `None` if it cannot be read.
fn set(settings: &mut Settings, word: &str) -> Option<()> {
    match word {
        "--script" => settings.form = Form::Script,
        "--qlog" => settings.form = Form::Qlog,
        _ if is_change(word) => {}
        _ => {
            let (name, value) = word.split_once('=')?;
            return set_value(settings, name, value);
        }
    }
    Some(())
}

fn set_value(settings: &mut Settings, name: &str, value: &str) -> Option<()> {
    match name {
        "controller" => settings.window = window_in(value)?,
        "paced" => settings.is_paced = choice_in(value, "yes", "no")?,
        "bytes" => settings.bytes = count_in(value, 1, MOST)?,
        "size" => settings.size = size_in(value)?,
        "ack-delay" => settings.ack_delay = span_in(value, 0, MOST)?,
        "seed" => settings.seed = number_in(value.as_bytes())?,
        "until" => settings.until = span_in(value, 1, MOST)?,
        "schedule" => {}
        _ => return set_flow(settings, name, value),
    }
    Some(())
}

fn set_flow(settings: &mut Settings, name: &str, value: &str) -> Option<()> {
    match name {
        "flows" => settings.flows = count_in(value, 1, MOST_FLOWS)?,
        "rival" => settings.rival = Some(window_in(value)?),
        "stagger" => settings.stagger = span_in(value, 0, MOST)?,
        "chunk" => settings.chunk = count_in(value, 1, MOST)?,
        "every" => settings.every = span_in(value, 0, MOST)?,
        _ => return set_manager(settings, name, value),
    }
    Some(())
}

fn set_manager(settings: &mut Settings, name: &str, value: &str) -> Option<()> {
    match name {
        "aqm" => settings.is_managed = choice_in(value, "codel", "tail")?,
        "target" => settings.target = span_in(value, 0, MOST)?,
        "interval" => settings.interval = span_in(value, 1, MOST)?,
        "ecn" => settings.is_ect = choice_in(value, "yes", "no")?,
        _ => return set_shape(&mut settings.link, name, value),
    }
    Some(())
}

fn set_shape(link: &mut Shape, name: &str, value: &str) -> Option<()> {
    match name {
        "rate" => link.rate = count_in(value, 1, MOST)?,
        "delay" => link.delay = span_in(value, 0, MOST)?,
        "queue" => link.queue = count_in(value, u64::from(LARGEST), MOST)?,
        "late" => link.late = span_in(value, 0, MOST)?,
        _ => {
            return match name.strip_prefix("ack-") {
                Some(name) => set_chance(&mut link.back, name, value),
                None => set_chance(&mut link.there, name, value),
            };
        }
    }
    Some(())
}

fn set_chance(chances: &mut Chances, name: &str, value: &str) -> Option<()> {
    match name {
        "loss" => chances.loss = share_in(value)?,
        "burst" => chances.burst = count_in(value, 0, LONGEST_BURST)?,
        "reorder" => chances.reorder = share_in(value)?,
        "duplicate" => chances.duplicate = share_in(value)?,
        _ => return None,
    }
    Some(())
}

fn size_in(word: &str) -> Option<u16> {
    u16::try_from(count_in(word, SMALLEST, u64::from(LARGEST))?).ok()
}

fn window_in(word: &str) -> Option<Window> {
    match word {
        "newreno" => Some(Window::NewReno),
        "cubic" => Some(Window::Cubic),
        _ => Some(Window::Fixed(count_in(word, 1, MOST)?)),
    }
}

/// Returns what a change may be, if it cannot be read or is out of order.
fn hint_of_change(name: &str) -> &'static str {
    match name {
        "rate" => "the rate from a time on, in order of time, as in rate@2s=1M",
        "delay" => "the delay from a time on, in order of time, as in delay@2s=50ms",
        _ => "only rate and delay change, as in rate@2s=1M",
    }
}

/// Returns what an argument may be, if it cannot be read.
pub fn hint_of(word: &str) -> &'static str {
    let Some((name, _)) = word.split_once('=') else {
        return "an argument is NAME=VALUE, --script or --qlog, as in loss=0.5%; --help has the names";
    };
    if let Some((name, _)) = name.split_once('@') {
        return hint_of_change(name);
    }
    for (known, hint) in &HINTS {
        if *known == name {
            return *hint;
        }
    }
    "there is no such name; --help has all"
}
