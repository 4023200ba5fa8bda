//! The window, flight and RTT of a connection, by a script of events.

mod curves;
mod picture;

use crate::failure::Failure;
use crate::requests::Choice;
use crate::start::{Window, config};
use curves::{Curves, first_moment};
use picture::draw;
use quic_recovery::LiveRecovery;
use rand_core::SeedableRng;
use rand_pcg::Pcg32;
use recovery_base::below::NoMemory;
use recovery_base::time::Instant;
use recovery_config::config::TransportConfig;
use recovery_congestion::congestion::{ControllerFactory, NewRenoConfig};
use recovery_cubic::CubicConfig;
use recovery_events::event::Event;
use recovery_events::feeding::{Sink, Source};
use recovery_queue::items::ItemQueue;
use recovery_replay::fixed_window::FixedWindowConfig;
use recovery_replay::script::{Ending, ScriptReader};
use std::alloc::Global;
use std::io::Read;

/// Returns the picture of a script.
pub fn picture_of(alloc: Global, choice: Choice, input: &mut impl Read) -> Result<String, Failure> {
    let (name, curves) = curves_of(alloc, choice, input)?;
    Ok(draw(alloc, name, &curves, None)?)
}

/// Returns the picture of two scripts with a line `over` between them, the second one's window over the first one's.
pub fn picture_of_two(alloc: Global, choice: Choice, text: &str) -> Result<String, Failure> {
    let Some((first, second)) = text.split_once("\nover\n") else {
        return Err(Failure::NoSecond);
    };
    let (name, curves) = curves_of(alloc, choice, &mut first.as_bytes())?;
    let window = choice.over.unwrap_or(choice.window);
    let other = Choice { window, ..choice };
    let (over, others) = curves_of(alloc, other, &mut second.as_bytes())?;
    Ok(draw(alloc, name, &curves, Some((over, &others)))?)
}

/// Returns the name of a script's controllers, and its curves.
fn curves_of(
    alloc: Global,
    choice: Choice,
    input: &mut impl Read,
) -> Result<(&'static str, Curves), Failure> {
    let events = events(alloc, input)?;
    let named = match choice.window {
        Window::Fixed(bytes) if bytes > 0 => {
            let factory = FixedWindowConfig::new(bytes);
            ("a fixed window", gathered(alloc, factory, choice, events)?)
        }
        Window::Cubic => {
            let factory = CubicConfig::default();
            ("CUBIC", gathered(alloc, factory, choice, events)?)
        }
        _ => {
            let factory = NewRenoConfig::default();
            ("NewReno", gathered(alloc, factory, choice, events)?)
        }
    };
    Ok(named)
}

/// All events of a script. Once an allocation failed it asks for no more.
#[derive(Drop)]
struct EventList {
    events: Vec<Event<ItemQueue>>,
}

impl Sink<Event<ItemQueue>> for EventList {
    ghost takes = { λ old event new. Unit {0} };

    fn put(&mut self, event: Event<ItemQueue>) -> bool {
        self.events.push(event).is_ok()
    }
}

/// Returns the events of the input.
fn events(alloc: Global, input: &mut impl Read) -> Result<Vec<Event<ItemQueue>>, Failure> {
    let mut script = ScriptReader::new(alloc, input);
    let mut list = EventList {
        events: Vec::new(alloc),
    };
    script.feed(&mut list);
    match script.ending() {
        Some(Ending::Whole) => Ok(list.events),
        Some(Ending::BadLine(number)) => Err(Failure::BadLine(number)),
        Some(Ending::ReadFailed) => Err(Failure::Input),
        None => Err(Failure::from(NoMemory)),
    }
}

/// Returns the curves of a run with these controllers.
fn gathered<F>(
    alloc: Global,
    factory: F,
    choice: Choice,
    events: Vec<Event<ItemQueue>>,
) -> Result<Curves, NoMemory>
where
    F: ControllerFactory,
{
    let config = config(TransportConfig::with_factory(factory), choice.seed);
    let rng = Pcg32::seed_from_u64(choice.seed.unwrap_or(0));
    let mut recovery = LiveRecovery::new(alloc, config, rng, Instant::from_nanos(0))?;
    let mut curves = Curves::new(alloc, first_moment(&events), choice);
    let gathered = curves.gather(&mut recovery, events);
    drop(recovery);
    gathered?;
    Ok(curves)
}
