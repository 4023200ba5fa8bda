//! Connection IDs. Rows are calls, and what is read after each.
ghost use Rattle.std.specs.Prelude.{◌≡◌};

use crate::rows::holds;
use recovery_base::below::{
    ConnectionId, IssuedCid, NewConnectionId, NoMemory, ResetToken, TransportError,
};
use recovery_base::time::{Duration, Instant};
use recovery_ids::{CidQueue, CidState, InsertError, RetireError};
use std::alloc::Global;
use std::process::Abort;

/// Returns an ID of eight equal bytes.
fn cid(byte: u8) -> ConnectionId {
    ConnectionId::new(&[byte; 8])
}

/// Returns a token whose bytes are not those of the ID.
fn token(byte: u8) -> ResetToken {
    ResetToken::from([255 - byte; 16])
}

// ---- the peer's IDs

/// A frame with this number, retire-prior-to and byte, and the other calls.
#[derive(Clone, Copy)]
enum Call {
    Insert(u64, u64, u8),
    Next,
    Replace(u8),
}

/// An answer of the queue: the numbers to retire, and the byte of the new active ID.
#[derive(Clone, Copy, PartialEq)]
enum Answer {
    Stays,
    Retires(u64, u64, u8),
    Retired,
    ExceedsLimit,
    Conflict,
}

/// Returns a range to retire, with the token of this byte.
fn retires(start: u64, end: u64, given: &ResetToken, byte: u8) -> Option<Answer> {
    if *given == token(byte) {
        Some(Answer::Retires(start, end, byte))
    } else {
        None
    }
}

fn insert(
    queue: &mut CidQueue,
    sequence: u64,
    retire_prior_to: u64,
    byte: u8,
    active: u8,
) -> Option<Answer> {
    if retire_prior_to > sequence || sequence >= 1 << 62 {
        return None;
    }
    let frame = NewConnectionId {
        sequence,
        retire_prior_to,
        id: cid(byte),
        reset_token: token(byte),
    };
    match queue.insert(frame) {
        Ok(None) => Some(Answer::Stays),
        Ok(Some((range, given))) => retires(range.start, range.end, &given, active),
        Err(InsertError::Retired) => Some(Answer::Retired),
        Err(InsertError::ExceedsLimit) => Some(Answer::ExceedsLimit),
        Err(InsertError::Conflict) => Some(Answer::Conflict),
    }
}

/// Returns the answer to a call; the byte is that of the ID which is then active.
fn apply(queue: &mut CidQueue, call: Call, active: u8) -> Option<Answer> {
    match call {
        Call::Insert(sequence, retire_prior_to, byte) => {
            insert(queue, sequence, retire_prior_to, byte, active)
        }
        Call::Next => match queue.next() {
            Some((given, range)) => retires(range.start, range.end, &given, active),
            None => Some(Answer::Stays),
        },
        Call::Replace(byte) => {
            if queue.active_seq() != 0 {
                return None;
            }
            queue.update_initial_cid(cid(byte));
            Some(Answer::Stays)
        }
    }
}

/// A call, its answer, and then the number and the byte of the active ID.
type Row = (Call, Answer, u64, u8);

/// Asserts that each row has the expected answer and leaves the expected state.
fn play(rt: &impl Abort, queue: &mut CidQueue, rows: &[Row]) {
    let mut place = 0u64;
    for (call, wanted, number, byte) in rows {
        let found = apply(queue, *call, *byte);
        let is_active = queue.active_seq() == *number && queue.active() == cid(*byte);
        holds(rt, found == Some(*wanted) && is_active, place);
        place = place.saturating_add(1);
    }
}

#[test]
fn a_frame_retires_the_initial_id(rt: HostRuntime) {
    static ROWS: [Row; 2] = [
        (Call::Insert(2, 0, 7), Answer::Stays, 0, 255),
        (Call::Insert(3, 1, 8), Answer::Retires(0, 2, 7), 2, 7),
    ];
    play(&rt, &mut CidQueue::new(cid(255)), &ROWS);
}

#[test]
fn a_range_is_cut_at_the_window(rt: HostRuntime) {
    static ROWS: [Row; 2] = [
        (Call::Insert(2, 0, 7), Answer::Stays, 0, 255),
        (
            Call::Insert(1_000_000, 1_000_000, 8),
            Answer::Retires(0, 8, 8),
            1_000_000,
            8,
        ),
    ];
    play(&rt, &mut CidQueue::new(cid(255)), &ROWS);
}

#[test]
fn the_window_ends_and_the_next_id_comes(rt: HostRuntime) {
    static ROWS: [Row; 5] = [
        (Call::Next, Answer::Stays, 0, 255),
        (Call::Insert(7, 0, 7), Answer::Stays, 0, 255),
        (Call::Insert(8, 0, 8), Answer::ExceedsLimit, 0, 255),
        (Call::Next, Answer::Retires(0, 7, 7), 7, 7),
        (Call::Insert(0, 0, 9), Answer::Retired, 7, 7),
    ];
    play(&rt, &mut CidQueue::new(cid(255)), &ROWS);
}

#[test]
fn a_frame_for_a_number_that_is_held_repeats_it(rt: HostRuntime) {
    static ROWS: [Row; 8] = [
        (Call::Insert(0, 0, 255), Answer::Stays, 0, 255),
        (Call::Insert(0, 0, 255), Answer::Stays, 0, 255),
        (Call::Insert(0, 0, 7), Answer::Conflict, 0, 255),
        (Call::Next, Answer::Stays, 0, 255),
        (Call::Insert(1, 0, 7), Answer::Stays, 0, 255),
        (Call::Insert(1, 1, 8), Answer::Conflict, 0, 255),
        (Call::Insert(1, 1, 7), Answer::Retires(0, 1, 7), 1, 7),
        (Call::Insert(0, 0, 255), Answer::Retired, 1, 7),
    ];
    play(&rt, &mut CidQueue::new(cid(255)), &ROWS);
}

#[test]
fn eight_ids_are_held(rt: HostRuntime) {
    let mut queue = CidQueue::new(cid(0));
    for number in 1..8 {
        let found = insert(&mut queue, number, 0, number as u8, 0);
        holds(&rt, found == Some(Answer::Stays), number);
    }
    let mut ids = queue.iter();
    for wanted in 0..8 {
        let is_wanted = match ids.next() {
            Some((step, (id, _))) => step == wanted && id == cid(wanted as u8),
            None => false,
        };
        holds(&rt, is_wanted, wanted as u64);
    }
    holds(&rt, ids.next().is_none(), 8);
}

#[test]
fn the_ids_held_come_in_order(rt: HostRuntime) {
    static ROWS: [Row; 2] = [
        (Call::Replace(254), Answer::Stays, 0, 254),
        (Call::Insert(3, 0, 8), Answer::Stays, 0, 254),
    ];
    let mut queue = CidQueue::new(cid(255));
    play(&rt, &mut queue, &ROWS);
    let mut ids = queue.iter();
    for wanted in [
        Some((0, (cid(254), None))),
        Some((3, (cid(8), Some(token(8))))),
        None,
    ] {
        holds(&rt, ids.next() == wanted, 0);
    }
}

// ---- the local IDs

const LIFETIME: u64 = 10_000_000_000;

/// The calls: one or two more IDs at a time, a deadline passes, a number is retired under a limit.
#[derive(Clone, Copy)]
enum LocalCall {
    IssueOne(u64),
    IssueTwo(u64),
    Timeout,
    Retire(u64, u64),
}

#[derive(Clone, Copy, PartialEq)]
enum LocalAnswer {
    Done,
    Flag(bool),
    CidsNotInUse,
    UnissuedCid,
    NoMemory,
}

fn issued(sequence: u64) -> IssuedCid
    ensures { result.sequence ≡ sequence }
{
    IssuedCid {
        sequence,
        id: cid(1),
        reset_token: token(1),
    }
}

fn done(answer: Result<(), NoMemory>) -> LocalAnswer {
    match answer {
        Ok(()) => LocalAnswer::Done,
        Err(NoMemory) => LocalAnswer::NoMemory,
    }
}

fn apply_local(state: &mut CidState, call: LocalCall) -> LocalAnswer {
    let next = state.issued();
    match call {
        LocalCall::IssueOne(now) if next < 1 << 61 => {
            done(state.new_cids(&[issued(next)], Instant::from_nanos(now)))
        }
        LocalCall::IssueTwo(now) if next < 1 << 61 => done(state.new_cids(
            &[issued(next), issued(next + 1)],
            Instant::from_nanos(now),
        )),
        LocalCall::IssueOne(_) => LocalAnswer::NoMemory,
        LocalCall::IssueTwo(_) => LocalAnswer::NoMemory,
        LocalCall::Timeout => LocalAnswer::Flag(state.on_cid_timeout()),
        LocalCall::Retire(sequence, limit) => match state.on_cid_retirement(sequence, limit) {
            Ok(more) => LocalAnswer::Flag(more),
            Err(RetireError::CidsNotInUse) => LocalAnswer::CidsNotInUse,
            Err(RetireError::UnissuedCid) => LocalAnswer::UnissuedCid,
        },
    }
}

/// A call, its answer, and then the retire-prior-to and the oldest deadline.
type LocalRow = (LocalCall, LocalAnswer, u64, Option<u64>);

/// Asserts that each row has the expected answer and leaves the expected state.
fn play_local(rt: &impl Abort, state: &mut CidState, rows: &[LocalRow]) {
    let mut place = 0u64;
    for (call, wanted, mark, timeout) in rows {
        let found = apply_local(state, *call);
        let is_left = state.retire_prior_to() == *mark
            && state.next_timeout() == timeout.map(Instant::from_nanos);
        holds(rt, found == *wanted && is_left, place);
        place = place.saturating_add(1);
    }
}

/// Plays rows on IDs that were just made. Returns how many are issued at the end.
fn play_from(rt: &impl Abort, made: Result<CidState, NoMemory>, rows: &[LocalRow]) -> u64 {
    let Ok(mut state) = made else {
        panic!(rt; "NoMemory")
    };
    play_local(rt, &mut state, rows);
    state.issued()
}

#[test]
fn deadlines_move_the_marks(rt: HostRuntime) {
    const LATER: u64 = 1_000_000_000;
    const NEXT: Option<u64> = Some(LIFETIME + LATER);
    static ROWS: [LocalRow; 6] = [
        (
            LocalCall::Retire(2, 5),
            LocalAnswer::UnissuedCid,
            0,
            Some(LIFETIME),
        ),
        (
            LocalCall::IssueTwo(LATER),
            LocalAnswer::Done,
            0,
            Some(LIFETIME),
        ),
        (LocalCall::Timeout, LocalAnswer::Flag(true), 2, NEXT),
        (LocalCall::Retire(0, 5), LocalAnswer::Flag(true), 2, NEXT),
        (LocalCall::Timeout, LocalAnswer::Flag(false), 2, None),
        (LocalCall::Retire(4, 5), LocalAnswer::UnissuedCid, 2, None),
    ];
    let lifetime = Some(Duration::from_nanos(LIFETIME));
    let made = CidState::new(rt.alloc(), 8, lifetime, Instant::from_nanos(0), 2);
    let issued = play_from(&rt, made, &ROWS);
    holds(&rt, issued == 4, 4);
}

#[test]
fn equal_deadlines_are_one(rt: HostRuntime) {
    static ROWS: [LocalRow; 4] = [
        (LocalCall::IssueTwo(0), LocalAnswer::Done, 0, Some(LIFETIME)),
        (LocalCall::IssueOne(0), LocalAnswer::Done, 0, Some(LIFETIME)),
        (LocalCall::Timeout, LocalAnswer::Flag(true), 4, None),
        (LocalCall::Timeout, LocalAnswer::Flag(false), 4, None),
    ];
    let lifetime = Some(Duration::from_nanos(LIFETIME));
    let made = CidState::new(rt.alloc(), 8, lifetime, Instant::from_nanos(0), 1);
    let issued = play_from(&rt, made, &ROWS);
    holds(&rt, issued == 4, 4);
}

#[test]
fn no_deadline_passes_the_end_of_the_clock(rt: HostRuntime) {
    static ROWS: [LocalRow; 2] = [
        (LocalCall::Retire(9, 5), LocalAnswer::UnissuedCid, 0, None),
        (
            LocalCall::IssueOne(u64::MAX - 1),
            LocalAnswer::Done,
            0,
            Some(u64::MAX),
        ),
    ];
    let lifetime = Some(Duration::from_nanos(1));
    let made = CidState::new(rt.alloc(), 8, lifetime, Instant::from_nanos(u64::MAX), 1);
    let issued = play_from(&rt, made, &ROWS);
    holds(&rt, issued == 2, 2);
}

#[test]
fn ids_of_no_bytes_are_not_retired(rt: HostRuntime) {
    static ROWS: [LocalRow; 2] = [
        (LocalCall::Retire(0, 5), LocalAnswer::CidsNotInUse, 0, None),
        (LocalCall::Retire(7, 5), LocalAnswer::CidsNotInUse, 0, None),
    ];
    let made = CidState::new(rt.alloc(), 0, None, Instant::from_nanos(0), 1);
    let has_no_bytes = matches!(&made, Ok(state) if state.cid_len() == 0);
    holds(&rt, has_no_bytes, 0);
    let issued = play_from(&rt, made, &ROWS);
    holds(&rt, issued == 1, 1);
}

#[test]
fn too_many_ids_are_answered_at_once(rt: HostRuntime) {
    let made = CidState::new(rt.alloc(), 8, None, Instant::from_nanos(0), 1 << 62);
    holds(&rt, made.is_err(), 0);
}

/// Returns whether an error closes the connection, with its text as the reason.
fn is_closing(alloc: Global, error: RetireError) -> bool {
    let closed = TransportError::from(error);
    match format!(in alloc; "{error}") {
        Ok(text) => closed.code == 10 && text.as_str() == closed.reason,
        Err(_) => false,
    }
}

#[test]
fn refused_retirements_close_the_connection(rt: HostRuntime) {
    holds(&rt, is_closing(rt.alloc(), RetireError::CidsNotInUse), 0);
    holds(&rt, is_closing(rt.alloc(), RetireError::UnissuedCid), 1);
}
