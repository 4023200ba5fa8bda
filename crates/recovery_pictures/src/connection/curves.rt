//! What is collected while events are applied.

use crate::panels::nanos;
use crate::plot::axis::Point;
use crate::requests::Choice;
use quic_recovery::LiveRecovery;
use rand_pcg::Pcg32;
use recovery_base::below::NoMemory;
use recovery_base::time::Instant;
use recovery_congestion::congestion::{Controller, ControllerFactory};
use recovery_events::event::Event;
use recovery_queue::items::ItemQueue;
use std::alloc::Global;

/// The effect of an event on the curves.
#[derive(Clone, Copy)]
enum Told {
    /// A packet is declared lost.
    Loss,
    /// A probe is due.
    Probe,
    /// An RTT of this many nanoseconds was measured.
    Sample(u64),
    /// None.
    Other,
}

/// The curves of the path in use. All times are nanoseconds since the clock's zero, all sizes bytes.
#[derive(Drop)]
pub struct Curves {
    /// The congestion window (RFC 9002, 7).
    pub window: Vec<Point>,
    /// The slow start threshold, from the first one on (RFC 9002, B.2).
    pub ssthresh: Vec<Point>,
    /// The bytes in flight (RFC 9002, B.2).
    pub flight: Vec<Point>,
    /// The bytes in the pacer's bucket, as of its last call (RFC 9002, 7.7).
    pub tokens: Vec<Point>,
    /// The times at which packets were declared lost.
    pub losses: Vec<u64>,
    /// The times at which probes were due (RFC 9002, 6.2.4).
    pub probes: Vec<u64>,
    /// The smoothed RTT (RFC 9002, 5.3), in nanoseconds.
    pub smoothed: Vec<Point>,
    /// The RTT samples, in nanoseconds.
    pub samples: Vec<Point>,
    /// The first time of an event.
    pub first: u64,
    /// The last time of an event.
    pub now: u64,
    /// The time from which on the curves are collected.
    pub from: u64,
    /// The time up to which they are, if it is not the last one.
    to: Option<u64>,
}

/// What is recorded of the path after an event.
#[derive(Clone, Copy)]
struct Noted {
    window: u64,
    ssthresh: Option<u64>,
    flight: u64,
    tokens: u64,
    smoothed: u64,
}

impl Curves {
    /// Returns empty curves, for events whose first time is this.
    pub fn new(alloc: Global, first: u64, choice: Choice) -> Self {
        Curves {
            window: Vec::new(alloc),
            ssthresh: Vec::new(alloc),
            flight: Vec::new(alloc),
            tokens: Vec::new(alloc),
            losses: Vec::new(alloc),
            probes: Vec::new(alloc),
            smoothed: Vec::new(alloc),
            samples: Vec::new(alloc),
            first,
            now: first,
            from: choice.from.unwrap_or(first),
            to: choice.to,
        }
    }

    /// Returns the end of the picture: the requested one, or else the last time of an event.
    pub fn end(&self) -> u64 {
        self.to.unwrap_or(self.now)
    }

    /// Applies all events, and collects after each. Rejected events change nothing.
    pub fn gather<F>(
        &mut self,
        recovery: &mut LiveRecovery<F, ItemQueue, Pcg32>,
        events: Vec<Event<ItemQueue>>,
    ) -> Result<(), NoMemory>
    where
        F: ControllerFactory,
    {
        for event in events {
            self.step(recovery, event)?;
        }
        let last = self.now.min(self.end());
        hold(&mut self.window, last)?;
        hold(&mut self.ssthresh, last)?;
        hold(&mut self.flight, last)?;
        hold(&mut self.tokens, last)?;
        hold(&mut self.smoothed, last)
    }

    fn step<F>(
        &mut self,
        recovery: &mut LiveRecovery<F, ItemQueue, Pcg32>,
        event: Event<ItemQueue>,
    ) -> Result<(), NoMemory>
    where
        F: ControllerFactory,
    {
        if let Some(now) = moment_of(&event) {
            self.now = now.as_nanos().max(self.now);
        }
        let told = news_of(&event);
        let done = recovery.apply(event).is_ok();
        let path = recovery.recovery().current();
        let noted = Noted {
            window: path.congestion.window(),
            ssthresh: path.congestion.metrics().ssthresh,
            flight: path.in_flight().bytes,
            tokens: path.pacing.tokens(),
            smoothed: nanos(path.rtt.get()),
        };
        if self.now < self.from {
            self.begin(noted, told)
        } else if self.now <= self.end() {
            self.note(done, told, noted)
        } else {
            Ok(())
        }
    }

    /// Records the values at the beginning of the picture.
    fn begin(&mut self, noted: Noted, told: Told) -> Result<(), NoMemory> {
        put_first(&mut self.window, self.from, noted.window)?;
        if let Some(y) = finite(noted.ssthresh) {
            put_first(&mut self.ssthresh, self.from, y)?;
        }
        put_first(&mut self.flight, self.from, noted.flight)?;
        put_first(&mut self.tokens, self.from, noted.tokens)?;
        match told {
            Told::Sample(_) => put_first(&mut self.smoothed, self.from, noted.smoothed),
            _ => Ok(()),
        }
    }

    fn note(&mut self, done: bool, told: Told, noted: Noted) -> Result<(), NoMemory> {
        let x = self.now;
        push_change(&mut self.window, Point { x, y: noted.window })?;
        if let Some(y) = finite(noted.ssthresh) {
            push_change(&mut self.ssthresh, Point { x, y })?;
        }
        push_change(&mut self.flight, Point { x, y: noted.flight })?;
        push_change(&mut self.tokens, Point { x, y: noted.tokens })?;
        match told {
            Told::Loss if done => self.losses.push(x)?,
            Told::Probe if done => self.probes.push(x)?,
            Told::Sample(rtt) => {
                self.samples.push(Point { x, y: rtt })?;
                let y = noted.smoothed;
                self.smoothed.push(Point { x, y })?;
            }
            _ => {}
        }
        Ok(())
    }
}

/// Returns a slow start threshold, if there is one: without one it is infinite (RFC 9002, B.3).
fn finite(ssthresh: Option<u64>) -> Option<u64> {
    match ssthresh {
        Some(bytes) if bytes < u64::MAX => Some(bytes),
        _ => None,
    }
}

/// Sets the one point of a curve that begins at a time.
fn put_first(points: &mut Vec<Point>, x: u64, y: u64) -> Result<(), NoMemory> {
    match points.last_mut() {
        Some(last) => last.y = y,
        None => points.push(Point { x, y })?,
    }
    Ok(())
}

/// Appends a point, if its height is not that of the last one.
fn push_change(points: &mut Vec<Point>, point: Point) -> Result<(), NoMemory> {
    let is_same = points.last().is_some_and(|last| last.y == point.y);
    if !is_same {
        points.push(point)?;
    }
    Ok(())
}

/// Extends the last height to a time.
fn hold(points: &mut Vec<Point>, now: u64) -> Result<(), NoMemory> {
    if let Some(last) = points.last() {
        let point = Point { x: now, y: last.y };
        points.push(point)?;
    }
    Ok(())
}

/// Returns the first time of an event, in nanoseconds, or zero.
pub fn first_moment(events: &[Event<ItemQueue>]) -> u64 {
    for event in events {
        if let Some(now) = moment_of(event) {
            return now.as_nanos();
        }
    }
    0
}

/// Returns the time of an event.
fn moment_of(event: &Event<ItemQueue>) -> Option<Instant> {
    match event {
        Event::Received { now, .. }
        | Event::Send { now, .. }
        | Event::Acked { now, .. }
        | Event::Transmit { now, .. }
        | Event::PacerCheck { now, .. }
        | Event::Congestion { now, .. }
        | Event::EndAcks { now, .. }
        | Event::IssueIds { now, .. }
        | Event::NewPath { now, .. }
        | Event::ResetPath { now }
        | Event::PollMtu { now }
        | Event::LossesDone { now } => Some(*now),
        _ => None,
    }
}

fn news_of(event: &Event<ItemQueue>) -> Told {
    match event {
        Event::Lost { .. } => Told::Loss,
        Event::QueueProbe { .. } => Told::Probe,
        Event::Sample { rtt, .. } => Told::Sample(nanos(*rtt)),
        _ => Told::Other,
    }
}
