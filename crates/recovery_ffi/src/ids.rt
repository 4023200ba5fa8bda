//! Connection IDs of the peer and of the local endpoint (RFC 9000, 5.1): an export for each event, and readings of
//! tokens.
ghost use Rattle.std.specs.Prelude.{◌≡◌, ◌≤◌, Decides, IsFalse, replicate};
ghost use Rattle.std.specs.List.{All};
ghost use Rattle.recovery_base.specs.Ids.{longest_cid, reset_token_size};
ghost use Rattle.recovery_stack.specs.Answers.{HandleApplies, HandleAppliesTo, IsBadArgument, IssuesIdsOrNoMemory, ReadsHandle};
ghost use Rattle.recovery_stack.specs.Codes.{cid, frame};
ghost use Rattle.recovery_events.specs.declared.event.Event.TheVariants.{IdTimeout, InitialId, NewId, NextId, PeerRetired};

use recovery_base::below::{NewConnectionId, ResetToken};
use recovery_base::time::Instant;
use recovery_engine::spelling::EncodedReply;
use recovery_events::event::Event;
use recovery_stack::codes::{Id, are_ids, cid, ids_of};
use recovery_stack::handle::Handle;
use std::alloc::Global;

/// Processes a received NEW_CONNECTION_ID frame (RFC 9000, 19.15): the event `NewId`. The ID has at most 20 bytes.
#[unsafe(no_mangle)]
pub extern "C" fn recovery_ffi_new_id(
    alloc: Global,
    handle: &mut Handle,
    sequence: u64,
    retire_prior_to: u64,
    id: &[u8],
    token: &[u8; 16],
) -> EncodedReply
    ensures { HandleAppliesTo (cid id.now)
        (λ id. NewId (frame sequence retire_prior_to id token.now))
        handle.old.slot.held result handle.new.slot.held }
{
    let Some(id) = cid(id) else {
        return EncodedReply::bad_argument();
    };
    handle.apply(
        alloc,
        Event::NewId(NewConnectionId {
            sequence,
            retire_prior_to,
            id,
            reset_token: ResetToken::from(*token),
        }),
    )
}

/// Switches to the next connection ID of the peer: the event `NextId`.
#[unsafe(no_mangle)]
pub extern "C" fn recovery_ffi_next_id(alloc: Global, handle: &mut Handle) -> EncodedReply
    ensures { HandleApplies handle.old.slot.held (NextId) result handle.new.slot.held }
{
    handle.apply(alloc, Event::NextId)
}

/// Sets the connection ID that the server chose (RFC 9000, 7.2): the event `InitialId`. It has at most 20 bytes.
#[unsafe(no_mangle)]
pub extern "C" fn recovery_ffi_initial_id(
    alloc: Global,
    handle: &mut Handle,
    id: &[u8],
) -> EncodedReply
    ensures { HandleAppliesTo (cid id.now)
        (λ id. InitialId id) handle.old.slot.held result handle.new.slot.held }
{
    match cid(id) {
        Some(id) => handle.apply(alloc, Event::InitialId(id)),
        None => EncodedReply::bad_argument(),
    }
}

/// Issues connection IDs of at most 20 bytes (RFC 9000, 5.1.1): the event `IssueIds`.
#[unsafe(no_mangle)]
pub extern "C" fn recovery_ffi_issue_ids(
    alloc: Global,
    handle: &mut Handle,
    now: u64,
    given: &[Id],
) -> EncodedReply
    ensures short { All (λ id. id.len ≤ longest_cid) given.now
        → IssuesIdsOrNoMemory handle.old.slot.held now given.now result handle.new.slot.held }
    ensures long { ¬ All (λ id. id.len ≤ longest_cid) given.now
        → IsBadArgument handle.old.slot.held result handle.new.slot.held }
{
    handle.issue_ids(alloc, now, given)
}

/// Handles the timer for new connection IDs: the event `IdTimeout`.
#[unsafe(no_mangle)]
pub extern "C" fn recovery_ffi_id_timeout(alloc: Global, handle: &mut Handle) -> EncodedReply
    ensures { HandleApplies handle.old.slot.held (IdTimeout) result handle.new.slot.held }
{
    handle.apply(alloc, Event::IdTimeout)
}

/// Processes a received RETIRE_CONNECTION_ID frame (RFC 9000, 19.16): the event `PeerRetired`.
#[unsafe(no_mangle)]
pub extern "C" fn recovery_ffi_peer_retired(
    alloc: Global,
    handle: &mut Handle,
    sequence: u64,
    limit: u64,
) -> EncodedReply
    ensures { HandleApplies handle.old.slot.held (PeerRetired sequence limit)
        result handle.new.slot.held }
{
    handle.apply(alloc, Event::PeerRetired { sequence, limit })
}

/// Writes the bytes of the token that was returned last: all zeros before the first, or if there is no recovery.
#[unsafe(no_mangle)]
pub extern "C" fn recovery_ffi_token(alloc: Global, handle: &mut Handle, out: &mut [u8; 16])
    ensures { ReadsHandle handle.old.slot.held handle.new.slot.held
        (λ stack. out.new ≡ stack.token) (out.new ≡ replicate reset_token_size 0) }
{
    handle.token(alloc, out);
}

/// Returns whether this is the token that was returned last; false if there is no recovery.
#[unsafe(no_mangle)]
pub extern "C" fn recovery_ffi_is_token(
    alloc: Global,
    handle: &mut Handle,
    token: &[u8; 16],
) -> bool
    ensures { ReadsHandle handle.old.slot.held handle.new.slot.held
        (λ stack. Decides result (stack.token ≡ token.now)) (IsFalse result) }
{
    handle.is_token(alloc, token)
}
