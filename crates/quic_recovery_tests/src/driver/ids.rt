//! The connection IDs of both endpoints: the tokens that lines do not have, and which IDs are left.
use super::*;
use recovery_base::below::{ConnectionId, IssuedCid, NewConnectionId, ResetToken};

const NOTHING: Reply = Ok(Answer::Retire(None));

const CONFLICT: Reply = Err(Refusal::Conflict);

/// Returns an ID of eight equal bytes.
fn cid(byte: u8) -> ConnectionId {
    ConnectionId::new(&[byte; 8])
}

fn token(byte: u8) -> ResetToken {
    ResetToken::from([byte; 16])
}

/// Returns a frame whose ID has this byte, and whose token has that one.
fn new_id(sequence: u64, retire_prior_to: u64, byte: u8, token_byte: u8) -> Event {
    Event::NewId(NewConnectionId {
        sequence,
        retire_prior_to,
        id: cid(byte),
        reset_token: token(token_byte),
    })
}

fn retire(start: u64, end: u64, byte: u8) -> Reply {
    Ok(Answer::Retire(Some((start..end, token(byte)))))
}

/// Issues local IDs with these numbers.
fn issue(rt: &impl Abort, alloc: Global, numbers: [u64; 2]) -> Event {
    let mut ids = Vec::new(alloc);
    for sequence in numbers {
        let id = IssuedCid {
            sequence,
            id: cid(0),
            reset_token: token(0),
        };
        holds(rt, ids.push(id).is_ok(), sequence);
    }
    Event::IssueIds { now: at(0), ids }
}

/// A token is not its ID, and is returned with the numbers to retire once its ID is in use.
fn peer_ids_left(rt: &impl Abort, recovery: &mut Reno) {
    let rows = [
        (new_id(1, 0, 7, 9), NOTHING),
        (new_id(1, 0, 7, 10), CONFLICT),
        (new_id(1, 1, 8, 9), CONFLICT),
        (new_id(1, 0, 7, 9), NOTHING),
        (new_id(2, 2, 8, 10), retire(0, 2, 10)),
        (new_id(3, 0, 9, 11), NOTHING),
        (Event::NextId, retire(2, 3, 11)),
        (Event::NextId, NOTHING),
        (new_id(1_000_000, 1_000_000, 9, 12), retire(3, 11, 12)),
    ];
    play(rt, recovery, rows);
    let ids = recovery.remote_ids();
    let is_left = ids.active_seq() == 1_000_000 && ids.active() == cid(9);
    holds(rt, is_left, 9);
}

fn own_ids_left(rt: &impl Abort, alloc: Global, recovery: &mut Reno) {
    let rows = [
        (issue(rt, alloc, [1, 3]), Err(Refusal::BadRange)),
        (issue(rt, alloc, [1, 2]), DONE),
        (Event::IdTimeout, YES),
    ];
    play(rt, recovery, rows);
    let ids = recovery.local_ids();
    let is_left = ids.issued() == 3 && ids.retire_prior_to() == 3;
    holds(rt, is_left, 3);
}

#[test]
fn ids_come_and_go(rt: HostRuntime) {
    let mut recovery = fresh(&rt, rt.alloc());
    peer_ids_left(&rt, &mut recovery);
    own_ids_left(&rt, rt.alloc(), &mut recovery);
    drop(recovery);
}
