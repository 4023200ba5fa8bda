//! Events and replies of rows, by short names.
use crate::refusals::Refusal;
use crate::tally::Tally;
use quic_recovery::Recovery;
use rand_pcg::Pcg32;
use recovery_base::below::SpaceId;
use recovery_base::time::Instant;
use recovery_base::timer::Timer;
use recovery_congestion::congestion::NewRenoConfig;
use recovery_paths::path_pair::PathName;

/// Events of packets that carry tallies.
pub type Event = recovery_events::event::Event<Tally>;

/// Answers to events of packets that carry tallies.
pub type Answer = recovery_events::event::Answer<Tally>;

/// A recovery whose controllers are NewReno, and whose skips `Pcg32` draws.
pub type Reno = Recovery<NewRenoConfig, Tally, Pcg32>;

/// The reply to an event.
pub type Given = Result<Answer, recovery_events::event::Refusal>;

/// The reply that a row expects.
pub type Reply = Result<Answer, Refusal>;

/// An allocation failed.
pub const NO_MEMORY: Reply = Err(Refusal::NoMemory);

/// The event was applied, and has no other answer.
pub const DONE: Reply = Ok(Answer::Done);

/// Duplicate, or too old to know.
pub const DUPLICATE: Reply = Ok(Answer::Duplicate);

/// A packet that is no probe was acknowledged.
pub const ACKED: Reply = Ok(Answer::Acked { probe: false });

/// An MTU probe was acknowledged.
pub const PROBE_ACKED: Reply = Ok(Answer::Acked { probe: true });

/// A packet that is no probe was lost.
pub const LOST: Reply = Ok(Answer::Lost { probe: false });

/// Yes, to what the event asks.
pub const YES: Reply = Ok(Answer::Flag(true));

/// The packet is not tracked.
pub const NOT_TRACKED: Reply = Err(Refusal::NotTracked);

/// Asks what is in flight on the path in use.
pub const CURRENT: Event = Event::InFlight {
    path: PathName::Current,
};

/// Returns the time this many nanoseconds after the first one.
pub fn at(nanos: u64) -> Instant {
    Instant::from_nanos(nanos)
}

/// A packet is received.
pub fn received(space: SpaceId, number: u64, ack_eliciting: bool) -> Event {
    Event::Received {
        space,
        now: at(0),
        number,
        ack_eliciting,
    }
}

/// A packet without contents is sent.
pub fn send(space: SpaceId, size: u16, ack_eliciting: bool) -> Event {
    Event::Send {
        space,
        now: at(7),
        size,
        ack_eliciting,
        largest_acked: None,
        queue: Tally { bytes: 0 },
        stream_frames: 0,
    }
}

/// A packet is acknowledged.
pub fn acked(space: SpaceId, number: u64) -> Event {
    Event::Acked {
        space,
        now: at(9),
        number,
        app_limited: false,
    }
}

/// A timer is set.
pub fn set(timer: Timer, nanos: u64) -> Event {
    Event::SetTimer {
        timer,
        time: at(nanos),
    }
}

/// A timer is stopped.
pub fn stop(timer: Timer) -> Event {
    Event::StopTimer { timer }
}

/// This much is in flight.
pub fn in_flight(bytes: u64, ack_eliciting: u64) -> Reply {
    Ok(Answer::InFlight {
        bytes,
        ack_eliciting,
    })
}

/// The packet was sent under this number.
pub fn sent(number: u64, forgotten: Option<u64>) -> Reply {
    Ok(Answer::Sent { number, forgotten })
}

/// The packet is new, and the ACK delay timer is to be started, or not.
pub fn new(arm: bool) -> Reply {
    Ok(Answer::New { arm })
}
