//! The output of the example: lines by their form.
use crate::connection::Connection;
use crate::failure::Failure;
use quic_recovery::below::NoMemory;
use quic_recovery::congestion::Controller;
use recovery_sender::SenderError;
use std::alloc::{AllocError, Global};
use std::fmt::Debug;

/// A text that grows by lines. If an allocation fails, the text is incomplete: `finish` reports it, so that other calls
/// need no result.
#[derive(Drop)]
pub struct Report {
    alloc: Global,
    text: String,
    /// Whether an allocation failed.
    is_cut: bool,
}

impl Report {
    /// Returns an empty report.
    pub fn new(alloc: Global) -> Self {
        Report {
            alloc,
            text: String::new(alloc),
            is_cut: false,
        }
    }

    /// Returns its allocator.
    pub fn alloc(&self) -> Global {
        self.alloc
    }

    /// Records whether an allocation failed for a line.
    fn keep(&mut self, written: Result<(), AllocError>) {
        if written.is_err() {
            self.is_cut = true;
        }
    }

    /// Returns the text, if no allocation failed.
    pub fn finish(self) -> Result<String, NoMemory> {
        if self.is_cut {
            Err(NoMemory)
        } else {
            Ok(self.text)
        }
    }

    /// Adds a line.
    pub fn line(&mut self, text: &str) {
        let written = writeln!(self.text, "{text}");
        self.keep(written);
    }

    /// Adds a question or an action, with its result.
    pub fn value(&mut self, text: &str, value: &impl Debug) {
        let written = writeln!(self.text, "{text}: {value:?}");
        self.keep(written);
    }

    /// Adds an action, with its error.
    pub fn refusal(&mut self, text: &str, refused: SenderError) {
        let failure = Failure::from(refused);
        let written = writeln!(self.text, "{text}: {failure}");
        self.keep(written);
    }

    /// Adds a value between two texts.
    pub fn between(&mut self, before: &str, value: &impl Debug, after: &str) {
        let written = writeln!(self.text, "{before}{value:?}{after}");
        self.keep(written);
    }

    /// Adds two values, each with a text before it, and a text after them.
    pub fn pair(
        &mut self,
        before: &str,
        first: &impl Debug,
        between: &str,
        second: &impl Debug,
        after: &str,
    ) {
        let written = writeln!(self.text, "{before}{first:?}{between}{second:?}{after}");
        self.keep(written);
    }

    /// Adds the outcome of a packet, by its number.
    pub fn packet(&mut self, kind: &str, number: u64, what: &str, value: &impl Debug) {
        let written = writeln!(self.text, "{kind} {number} {what}: {value:?}");
        self.keep(written);
    }

    /// Adds when the stack is to wake up.
    pub fn wake(&mut self, client: &mut Connection) -> Result<(), SenderError> {
        match client.next_timeout()? {
            Some(nanos) => self.between("wake up at ", &(nanos / 1000), " us"),
            None => self.line("sleep on"),
        }
        Ok(())
    }

    /// Adds how much room the path in use has.
    pub fn window(&mut self, client: &Connection, why: &str) {
        let path = client.state().current();
        let window = path.congestion.window();
        let bytes = path.in_flight().bytes;
        self.room(why, window, bytes);
    }

    /// Adds the smoothed RTT of the path in use.
    pub fn round_trip(&mut self, end: &Connection, text: &str) {
        let micros = end.state().current().rtt.get().as_nanos() / 1000;
        self.between(text, &micros, " us");
    }

    /// Adds a window, and how much of it is in flight.
    fn room(&mut self, why: &str, window: u64, bytes: u64) {
        let written = writeln!(
            self.text,
            "{why}: a window of {window} bytes, {bytes} in flight"
        );
        self.keep(written);
    }
}
