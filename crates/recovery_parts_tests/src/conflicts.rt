//! Frames for a number of the peer's IDs that is held, with IDs and tokens that script lines cannot encode.
use crate::rows::holds;
use recovery_base::below::{ConnectionId, NewConnectionId, ResetToken};
use recovery_ids::{CidQueue, InsertError};
use std::process::Abort;

/// An ID: its length, and the value of all its bytes.
type Id = (usize, u8);

/// A token: the value of all its bytes except the one at this position, which has another value.
type Token = (u8, usize);

/// A position without a byte of a token.
const NOWHERE: usize = 16;

fn id_of(id: Id) -> ConnectionId {
    let (length, byte) = id;
    ConnectionId::new(&[byte; 20][..length.min(20)])
}

fn token_of(token: Token) -> ResetToken {
    let (byte, other) = token;
    let mut bytes = [byte; 16];
    if other < bytes.len() {
        bytes[other] = 255 - byte;
    }
    ResetToken::from(bytes)
}

/// A frame is received for number 0 or 1, and is accepted or conflicts; or the initial ID is replaced.
#[derive(Clone, Copy)]
enum Call {
    Taken(u64, Id, Token),
    Conflicts(u64, Id, Token),
    Replaced(Id),
}

/// Returns whether the queue accepts a frame, or rejects it as a conflict.
fn is_told(
    queue: &mut CidQueue,
    sequence: u64,
    id: Id,
    token: Token,
    wants_conflict: bool,
) -> bool {
    if sequence > 1 {
        return false;
    }
    let frame = NewConnectionId {
        sequence,
        retire_prior_to: 0,
        id: id_of(id),
        reset_token: token_of(token),
    };
    match queue.insert(frame) {
        Ok(None) => !wants_conflict,
        Err(InsertError::Conflict) => wants_conflict,
        _ => false,
    }
}

/// Returns whether a call has the expected result.
fn is_right(queue: &mut CidQueue, call: Call) -> bool {
    match call {
        Call::Taken(sequence, id, token) => is_told(queue, sequence, id, token, false),
        Call::Conflicts(sequence, id, token) => is_told(queue, sequence, id, token, true),
        Call::Replaced(id) => {
            if queue.active_seq() != 0 {
                return false;
            }
            queue.update_initial_cid(id_of(id));
            true
        }
    }
}

/// Asserts that each call has the expected result; the initial ID has eight bytes 255.
fn play(rt: &impl Abort, calls: &[Call]) {
    let mut queue = CidQueue::new(id_of((8, 255)));
    let mut row = 0u64;
    for call in calls {
        holds(rt, is_right(&mut queue, *call), row);
        row = row.saturating_add(1);
    }
}

#[test]
fn ids_that_differ_in_length_conflict(rt: HostRuntime) {
    static ROWS: [Call; 10] = [
        Call::Conflicts(0, (7, 255), (1, NOWHERE)),
        Call::Conflicts(0, (9, 255), (1, NOWHERE)),
        Call::Conflicts(0, (0, 255), (1, NOWHERE)),
        Call::Taken(0, (8, 255), (1, NOWHERE)),
        // Bytes 0 are not those after the end of an ID.
        Call::Taken(1, (4, 0), (1, NOWHERE)),
        Call::Conflicts(1, (5, 0), (1, NOWHERE)),
        Call::Conflicts(1, (20, 0), (1, NOWHERE)),
        Call::Conflicts(1, (3, 0), (1, NOWHERE)),
        Call::Conflicts(1, (0, 0), (1, NOWHERE)),
        Call::Taken(1, (4, 0), (1, NOWHERE)),
    ];
    play(&rt, &ROWS);
}

#[test]
fn tokens_that_differ_in_one_byte_conflict(rt: HostRuntime) {
    static ROWS: [Call; 6] = [
        Call::Taken(1, (8, 7), (1, NOWHERE)),
        Call::Conflicts(1, (8, 7), (1, 0)),
        Call::Conflicts(1, (8, 7), (1, 7)),
        Call::Conflicts(1, (8, 7), (1, 15)),
        Call::Conflicts(1, (8, 8), (1, NOWHERE)),
        Call::Taken(1, (8, 7), (1, NOWHERE)),
    ];
    play(&rt, &ROWS);
}

#[test]
fn the_initial_id_gets_its_token_from_a_frame(rt: HostRuntime) {
    static ROWS: [Call; 9] = [
        Call::Taken(0, (8, 255), (1, 15)),
        Call::Conflicts(0, (8, 255), (1, NOWHERE)),
        Call::Taken(0, (8, 255), (1, 15)),
        Call::Replaced((8, 7)),
        Call::Conflicts(0, (8, 255), (1, 15)),
        Call::Taken(0, (8, 7), (2, NOWHERE)),
        Call::Conflicts(0, (8, 7), (1, 15)),
        Call::Replaced((8, 7)),
        Call::Taken(0, (8, 7), (1, 15)),
    ];
    play(&rt, &ROWS);
}

/// A token returns the bytes of which it was made.
#[test]
fn a_token_gives_its_bytes_back(rt: HostRuntime) {
    let bytes = [0, 1, 2, 3, 4, 5, 6, 7, 8, 9, 10, 11, 12, 13, 254, 255];
    holds(&rt, ResetToken::from(bytes).to_bytes() == bytes, 0);
}
