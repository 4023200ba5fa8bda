//! The script: each event that may allocate, at a point at which it does, and its answer.
use crate::scarce::{ScarceConfig, ScarceQueue};
use quic_recovery::Recovery;
use rand_pcg::Pcg32;
use recovery_base::below::{ConnectionId, IssuedCid, NoMemory, ResetToken, SpaceId};
use recovery_base::time::Instant;
use recovery_events::event::Refusal;
use std::alloc::Global;
use std::net::{IpAddr, Ipv4Addr, SocketAddr};

pub type Event = recovery_events::event::Event<ScarceQueue>;

type Answer = recovery_events::event::Answer<ScarceQueue>;

pub type Reply = Result<Answer, Refusal>;

pub type Scarce = Recovery<ScarceConfig, ScarceQueue, Pcg32>;

/// How many packets are received first, each after a gap.
const GAPS: u64 = 40;

/// How many non-ack-eliciting packets are tracked after an ack-eliciting one.
const SILENT: u64 = 1001;

/// How many non-ack-eliciting packets are sent once that many are tracked: each makes the oldest be forgotten.
const FORGETTING: u64 = 60;

/// The step at which the non-ack-eliciting packets begin.
const FLOOD: u64 = GAPS + 13;

/// How many events there are.
pub const STEPS: u64 = FLOOD + SILENT + FORGETTING + 2;

/// The contents of a reply, without what it owns.
#[derive(Clone, Copy, PartialEq, Eq)]
pub enum Said {
    NoMemory,
    New(bool),
    Sent(u64, Option<u64>),
    Acked,
    Lost,
    Probe(u64, u16),
    Sendable(bool, bool),
    /// The numbers of the items, one a digit.
    Items(u64),
    Done,
    Other,
}

pub fn said_by(reply: &Reply) -> Said {
    match reply {
        Err(Refusal::NoMemory) => Said::NoMemory,
        Ok(Answer::New { arm }) => Said::New(*arm),
        Ok(Answer::Sent { number, forgotten }) => Said::Sent(*number, *forgotten),
        Ok(Answer::Acked { probe: false }) => Said::Acked,
        Ok(Answer::Lost { probe: false }) => Said::Lost,
        Ok(Answer::Probe { number, size }) => Said::Probe(*number, *size),
        Ok(Answer::Sendable(frames)) => Said::Sendable(frames.acks, frames.other),
        Ok(Answer::Queue(queue)) => Said::Items(digits(queue.items())),
        Ok(Answer::Done) => Said::Done,
        _ => Said::Other,
    }
}

fn digits(items: &[u64]) -> u64 {
    let mut number = 0u64;
    for item in items {
        number = number.saturating_mul(10).saturating_add(*item);
    }
    number
}

fn send(
    alloc: Global,
    space: SpaceId,
    ack_eliciting: bool,
    items: &[u64],
) -> Result<Event, NoMemory> {
    Ok(Event::Send {
        space,
        now: Instant::from_nanos(7),
        size: 500,
        ack_eliciting,
        largest_acked: None,
        queue: ScarceQueue::from_items(Vec::from_slice(alloc, items)?),
        stream_frames: (),
    })
}

fn issue(alloc: Global) -> Result<Event, NoMemory> {
    let mut ids = Vec::new(alloc);
    for sequence in 1..15u64 {
        ids.push(IssuedCid {
            sequence,
            id: ConnectionId::new(&[0; 8]),
            reset_token: ResetToken::from([0; 16]),
        })?;
    }
    Ok(Event::IssueIds {
        now: Instant::from_nanos(8),
        ids,
    })
}

fn new_path(port: u16, fresh: bool) -> Event {
    Event::NewPath {
        now: Instant::from_nanos(9),
        remote: SocketAddr::new(IpAddr::V4(Ipv4Addr::new(192, 0, 2, 1)), port),
        fresh,
    }
}

fn received(number: u64) -> Event {
    Event::Received {
        space: SpaceId::Data,
        now: Instant::from_nanos(1),
        number,
        ack_eliciting: true,
    }
}

fn acked(space: SpaceId, number: u64) -> Event {
    Event::Acked {
        space,
        now: Instant::from_nanos(10),
        number,
        app_limited: false,
    }
}

fn lost(number: u64) -> Event {
    Event::Lost {
        space: SpaceId::Data,
        number,
    }
}

fn poll() -> Event {
    Event::PollMtu {
        now: Instant::from_nanos(2),
    }
}

const TAKE_PENDING: Event = Event::TakePending {
    space: SpaceId::Data,
};

const QUEUE_PROBE: Event = Event::QueueProbe {
    space: SpaceId::Data,
    immediate_ack: true,
    streams: (),
};

/// Makes the event of a step, with its name.
pub fn event_at(alloc: Global, step: u64) -> Result<(&'static str, Event), NoMemory> {
    if step < GAPS {
        Ok(("received", received(2 * step)))
    } else if step < FLOOD {
        event_of_each(alloc, step - GAPS)
    } else if step < FLOOD + SILENT {
        Ok(("send", send(alloc, SpaceId::Handshake, false, &[])?))
    } else if step < FLOOD + SILENT + FORGETTING {
        Ok((
            "send that forgets",
            send(alloc, SpaceId::Handshake, false, &[])?,
        ))
    } else if step == STEPS - 1 {
        Ok(("acked", acked(SpaceId::Handshake, 0)))
    } else {
        Ok(("acked", acked(SpaceId::Data, 1)))
    }
}

/// One event of each kind.
fn event_of_each(alloc: Global, place: u64) -> Result<(&'static str, Event), NoMemory> {
    let data = SpaceId::Data;
    Ok(match place {
        0 => ("poll-mtu", poll()),
        1 => ("send with a queue", send(alloc, data, true, &[7, 8])?),
        2 => ("queue-probe", QUEUE_PROBE),
        3 => ("take-pending", TAKE_PENDING),
        4 => ("send with a queue", send(alloc, data, true, &[9])?),
        5 => ("send with a queue", send(alloc, data, true, &[1, 2])?),
        6 => ("lost with a queue", lost(2)),
        7 => ("lost with a queue", lost(3)),
        8 => ("take-pending", TAKE_PENDING),
        9 => ("issue-ids", issue(alloc)?),
        10 => ("new-path that goes on", new_path(1, false)),
        11 => ("new-path that is fresh", new_path(2, true)),
        _ => (
            "send with a queue",
            send(alloc, SpaceId::Handshake, true, &[3])?,
        ),
    })
}

/// Returns the expected answer of a step.
pub fn wanted_at(step: u64) -> Said {
    if step < GAPS {
        Said::New(step == 0)
    } else if step < FLOOD {
        wanted_of_each(step - GAPS)
    } else if step < FLOOD + SILENT {
        Said::Sent(step - FLOOD + 1, None)
    } else if step < FLOOD + SILENT + FORGETTING {
        Said::Sent(step - FLOOD + 1, Some(step - FLOOD - SILENT + 1))
    } else {
        Said::Acked
    }
}

fn wanted_of_each(place: u64) -> Said {
    match place {
        0 => Said::Probe(0, 1326),
        1 => Said::Sent(1, None),
        2 => Said::Sendable(true, true),
        3 => Said::Items(78),
        4 => Said::Sent(2, None),
        5 => Said::Sent(3, None),
        6 | 7 => Said::Lost,
        8 => Said::Items(912),
        9 | 10 | 11 => Said::Done,
        _ => Said::Sent(0, None),
    }
}
