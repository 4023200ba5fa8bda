//! Two paths: what is each one's own, and what another one inherits (RFC 9000, 9). Also the caller's marks of each,
//! which no event changes, and which are fresh on a new path.
ghost use Rattle.std.specs.Prelude.{◌<◌};

use crate::driver::{fresh, holds, told};
use quic_recovery_rows::events::*;
use recovery_base::below::SpaceId;
use recovery_base::time::Duration;
use recovery_congestion::congestion::NewReno;
use recovery_paths::path_pair::PathName;
use recovery_paths::paths::{PathData, PathMarks};
use recovery_paths::responses::PathResponses;
use std::alloc::Global;
use std::net::{IpAddr, Ipv4Addr, SocketAddr};
use std::process::Abort;

/// Marks, in a form that can be compared.
#[derive(Clone, Copy, PartialEq, Eq)]
struct Marks {
    sending_ecn: bool,
    challenge: Option<u64>,
    challenge_pending: bool,
    responds: bool,
    first: Option<(SpaceId, u64)>,
}

/// The marks of a new path.
const FRESH: Marks = Marks {
    sending_ecn: true,
    challenge: None,
    challenge_pending: false,
    responds: false,
    first: None,
};

/// The marks of a path that inherits another one's samples.
const GOING_ON: Marks = Marks {
    sending_ecn: true,
    challenge: None,
    challenge_pending: false,
    responds: false,
    first: Some((SpaceId::Data, 3)),
};

/// The marks that are set here.
const SET: Marks = Marks {
    sending_ecn: false,
    challenge: Some(7),
    challenge_pending: true,
    responds: true,
    first: Some((SpaceId::Data, 3)),
};

/// The sample of a path (in milliseconds), whether it is validated, its totals, generation and MTU, and its marks.
#[derive(Clone, Copy, PartialEq, Eq)]
struct Path {
    port: u16,
    rtt: u64,
    validated: bool,
    total_sent: u64,
    total_recvd: u64,
    generation: u64,
    mtu: u16,
    marks: Marks,
}

/// The first path, as it is made.
const FIRST: Path = Path {
    port: 4433,
    rtt: 333,
    validated: false,
    total_sent: 0,
    total_recvd: 0,
    generation: 0,
    mtu: 1200,
    marks: FRESH,
};

/// The first path with other marks.
const MARKED: Path = Path {
    port: 4433,
    rtt: 333,
    validated: false,
    total_sent: 0,
    total_recvd: 0,
    generation: 0,
    mtu: 1200,
    marks: SET,
};

/// The first path, sampled and used, its MTU found.
const USED: Path = Path {
    port: 4433,
    rtt: 400,
    validated: true,
    total_sent: 100,
    total_recvd: 400,
    generation: 0,
    mtu: 1326,
    marks: SET,
};

/// A path to another address inherits RTT and MTU.
const OTHER: Path = Path {
    port: 4434,
    rtt: 400,
    validated: false,
    total_sent: 0,
    total_recvd: 0,
    generation: 1,
    mtu: 1326,
    marks: GOING_ON,
};

/// Returns an address of the peer: the first path has port 4433.
fn address(port: u16) -> SocketAddr {
    SocketAddr::new(IpAddr::V4(Ipv4Addr::new(192, 0, 2, 1)), port)
}

fn to_set() -> PathMarks {
    let mut path_responses = PathResponses::new();
    path_responses.push(1, 9, address(4433));
    PathMarks {
        sending_ecn: false,
        challenge: Some(7),
        challenge_pending: true,
        path_responses,
        first_packet_after_rtt_sample: Some((SpaceId::Data, 3)),
    }
}

fn of_marks(marks: PathMarks) -> Marks {
    Marks {
        sending_ecn: marks.sending_ecn,
        challenge: marks.challenge,
        challenge_pending: marks.challenge_pending,
        responds: !marks.path_responses.is_empty(),
        first: marks.first_packet_after_rtt_sample,
    }
}

/// Returns whether a path is as a row expects.
fn is_path(path: &PathData<NewReno>, want: Path) -> bool {
    let marks = Marks {
        sending_ecn: path.sending_ecn,
        challenge: path.challenge,
        challenge_pending: path.challenge_pending,
        responds: !path.path_responses.is_empty(),
        first: path.first_packet_after_rtt_sample,
    };
    let found = Path {
        port: path.remote.port(),
        rtt: want.rtt,
        validated: path.validated,
        total_sent: path.total_sent,
        total_recvd: path.total_recvd,
        generation: path.generation(),
        mtu: path.current_mtu(),
        marks,
    };
    found == want && path.rtt.get() == Duration::from_millis(want.rtt)
}

/// Asserts the path in use, and the one before it if it exists.
fn left(rt: &impl Abort, recovery: &Reno, row: u64, current: Path, previous: Option<Path>) {
    let is_previous = match (recovery.previous(), previous) {
        (Some(path), Some(want)) => is_path(path, want),
        (None, None) => true,
        _ => false,
    };
    holds(rt, is_previous && is_path(recovery.current(), current), row);
}

/// Sets marks, and asserts the previous ones.
fn replaced(rt: &impl Abort, recovery: &mut Reno, path: PathName, want: Option<Marks>) {
    let is_wanted = recovery.set_marks(path, to_set()).map(of_marks) == want;
    holds(rt, is_wanted, 0);
}

/// An event, its reply, and the paths after it.
type Row = (Event, Reply, Path, Option<Path>);

fn play<const N: usize>(rt: &impl Abort, recovery: &mut Reno, rows: [Row; N])
    requires { N < 1000 }
{
    let mut row = 0u64;
    for (event, want, current, previous) in rows {
        told(rt, recovery, row, event, want);
        left(rt, recovery, row, current, previous);
        row = row.saturating_add(1);
    }
}

fn move_to(port: u16, fresh: bool) -> Event {
    Event::NewPath {
        now: at(0),
        remote: address(port),
        fresh,
    }
}

/// Returns a recovery whose first path has marks set.
fn marked(rt: &impl Abort, alloc: Global) -> Reno {
    let mut recovery = fresh(rt, alloc);
    left(rt, &recovery, 0, FIRST, None);
    replaced(rt, &mut recovery, PathName::Previous, None);
    left(rt, &recovery, 1, FIRST, None);
    replaced(rt, &mut recovery, PathName::Current, Some(FRESH));
    left(rt, &recovery, 2, MARKED, None);
    recovery
}

/// The same after the path was used.
fn used(rt: &impl Abort, alloc: Global) -> Reno {
    let mut recovery = marked(rt, alloc);
    let path = PathName::Current;
    let sample = Event::Sample {
        delay: Duration::from_nanos(0),
        rtt: Duration::from_millis(400),
    };
    let transmit = Event::Transmit {
        now: at(0),
        bytes: 100,
        checked: false,
    };
    let probe = Ok(Answer::Probe {
        number: 0,
        size: 1326,
    });
    let sampled = Path { rtt: 400, ..MARKED };
    let validated = Path {
        validated: true,
        ..sampled
    };
    let reached = Path {
        total_recvd: 400,
        ..validated
    };
    let answered = Path {
        total_sent: 100,
        ..reached
    };
    let rows = [
        (sample, DONE, sampled, None),
        (Event::Validated { path }, DONE, validated, None),
        (Event::DatagramIn { path, bytes: 400 }, DONE, reached, None),
        (transmit, Ok(Answer::Transmitted), answered, None),
        (Event::PollMtu { now: at(0) }, probe, answered, None),
        (acked(SpaceId::Data, 0), PROBE_ACKED, USED, None),
    ];
    play(rt, &mut recovery, rows);
    recovery
}

/// A path that is reset retains its totals of bytes received and sent.
#[test]
fn a_path_begins_anew(rt: HostRuntime) {
    let mut recovery = used(&rt, rt.alloc());
    let congestion = Event::Congestion {
        now: at(2),
        sent: at(1),
        persistent: false,
        bytes: 1200,
    };
    let end_acks = Event::EndAcks {
        now: at(9),
        app_limited: false,
        largest: Some(0),
    };
    let anew = Path {
        rtt: 333,
        mtu: 1200,
        ..USED
    };
    let rows = [
        (congestion, DONE, USED, None),
        (end_acks, DONE, USED, None),
        (Event::ResetPath { now: at(0) }, DONE, anew, None),
    ];
    play(&rt, &mut recovery, rows);
    drop(recovery);
}

/// A path to another address inherits RTT and MTU, unless it is fresh, and each has its own marks.
#[test]
fn another_path(rt: HostRuntime) {
    let mut recovery = used(&rt, rt.alloc());
    let third = Path {
        port: 4435,
        generation: 2,
        ..FIRST
    };
    let rows = [
        (move_to(4434, false), DONE, OTHER, Some(USED)),
        (move_to(4435, true), DONE, third, Some(OTHER)),
    ];
    play(&rt, &mut recovery, rows);
    replaced(&rt, &mut recovery, PathName::Previous, Some(GOING_ON));
    let marked = Path {
        marks: SET,
        ..OTHER
    };
    left(&rt, &recovery, 2, third, Some(marked));
    replaced(&rt, &mut recovery, PathName::Previous, Some(SET));
    play(
        &rt,
        &mut recovery,
        [(Event::DropPrevious, DONE, third, None)],
    );
    replaced(&rt, &mut recovery, PathName::Previous, None);
    left(&rt, &recovery, 3, third, None);
    drop(recovery);
}

/// A fresh path begins as the first one did, whatever became of that.
#[test]
fn a_fresh_path(rt: HostRuntime) {
    let mut recovery = used(&rt, rt.alloc());
    let second = Path {
        port: 4434,
        generation: 1,
        ..FIRST
    };
    play(
        &rt,
        &mut recovery,
        [(move_to(4434, true), DONE, second, Some(USED))],
    );
    drop(recovery);
}
