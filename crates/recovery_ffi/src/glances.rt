//! Readings that cost a few instructions, for a stack that reads more often than it changes. They read the path in use,
//! the connection ID in use, and the tracked packets of a space.
ghost use Rattle.std.specs.Prelude.{◌≡◌, false, Decides};
ghost use Rattle.recovery_ids.specs.CidQueue.{active_of};
ghost use Rattle.recovery_stack.specs.Answers.{ReadsHandle};
ghost use Rattle.recovery_engine.specs.Controllers.{chosen_words};
ghost use Rattle.recovery_engine.specs.Kept.{parts_kept};
ghost use Rattle.recovery_paths.specs.PathStates.{IsRoomInPacer};
ghost use Rattle.recovery_stack.specs.Views.{space_named};
ghost use Rattle.recovery_stack.specs.Stats.{no_number, no_rtt, no_tracked, no_window, pending_items_in, probe_items_in, rtt_shown, tracked_in, window_shown, HasInFlight, ShowsSmallest};

use recovery_base::time::Instant;
use recovery_stack::glances::{NumberView, RttView, TrackedView, WindowView};
use recovery_stack::handle::Handle;
use std::alloc::Global;

/// Returns the window and the bytes in flight of the path in use.
#[unsafe(no_mangle)]
pub extern "C" fn recovery_ffi_window(alloc: Global, handle: &mut Handle) -> WindowView
    ensures { ReadsHandle handle.old.slot.held handle.new.slot.held (λ stack.
        result ≡ window_shown (parts_kept stack.kept).paths.current) (result ≡ no_window) }
{
    handle.window(alloc)
}

/// Returns how many bytes the pacer permits now on the path in use: the largest datagram that is not delayed (RFC
/// 9002, 7.7). It is `u64::MAX` if nothing is paced, and 0 if there is no recovery.
#[unsafe(no_mangle)]
pub extern "C" fn recovery_ffi_pacer_room(alloc: Global, handle: &mut Handle, now: u64) -> u64
    ensures { ReadsHandle handle.old.slot.held handle.new.slot.held (λ stack.
        IsRoomInPacer chosen_words now (parts_kept stack.kept).paths.current.state result)
        (result ≡ 0) }
{
    handle.pacer_room(alloc, Instant::from_nanos(now))
}

/// Returns the round-trip time of the path in use.
#[unsafe(no_mangle)]
pub extern "C" fn recovery_ffi_rtt(alloc: Global, handle: &mut Handle) -> RttView
    ensures { ReadsHandle handle.old.slot.held handle.new.slot.held (λ stack.
        result ≡ rtt_shown (parts_kept stack.kept).paths.current) (result ≡ no_rtt) }
{
    handle.rtt(alloc)
}

/// Returns the sequence number of the peer's connection ID in use (RFC 9000, 5.1.1); 0 if there is no recovery.
#[unsafe(no_mangle)]
pub extern "C" fn recovery_ffi_active_id(alloc: Global, handle: &mut Handle) -> u64
    ensures { ReadsHandle handle.old.slot.held handle.new.slot.held (λ stack.
        result ≡ active_of (parts_kept stack.kept).remote_cids) (result ≡ 0) }
{
    handle.active_id(alloc)
}

/// Returns whether a space tracks a packet that counts in flight (RFC 9002, 2), on any path.
#[unsafe(no_mangle)]
pub extern "C" fn recovery_ffi_has_in_flight(alloc: Global, handle: &mut Handle, space: u8) -> bool
    ensures { ReadsHandle handle.old.slot.held handle.new.slot.held (λ stack.
        Decides result (HasInFlight (space_named space (parts_kept stack.kept))))
        (result ≡ false) }
{
    handle.has_in_flight(alloc, space)
}

/// Returns the smallest packet number that a space tracks: all smaller ones are acknowledged, lost, forgotten or
/// discarded. A stack may choose the length of packet numbers by it (RFC 9000, 17.1). Cost: logarithmic.
#[unsafe(no_mangle)]
pub extern "C" fn recovery_ffi_smallest_tracked(
    alloc: Global,
    handle: &mut Handle,
    space: u8,
) -> NumberView
    ensures { ReadsHandle handle.old.slot.held handle.new.slot.held (λ stack.
        ShowsSmallest (space_named space (parts_kept stack.kept)) result) (result ≡ no_number) }
{
    handle.smallest_tracked(alloc, space)
}

/// Returns how many items wait for retransmission in a space: how many `recovery_ffi_take_pending` would take. It is 0
/// if there is no such space, or if it is discarded.
#[unsafe(no_mangle)]
pub extern "C" fn recovery_ffi_pending_items(alloc: Global, handle: &mut Handle, space: u8) -> u64
    ensures { ReadsHandle handle.old.slot.held handle.new.slot.held (λ stack.
        result ≡ pending_items_in (space_named space (parts_kept stack.kept))) (result ≡ 0) }
{
    handle.pending_items(alloc, space)
}

/// Returns how many items `recovery_ffi_sender_probe` would take in a space: those that wait for retransmission, or
/// else those of the first packet in flight that has any (RFC 9002, 6.2.4). It is 0 if there is no such space, or if it
/// is discarded. Cost: logarithmic, plus the packets without items before that one.
#[unsafe(no_mangle)]
pub extern "C" fn recovery_ffi_probe_items(alloc: Global, handle: &mut Handle, space: u8) -> u64
    ensures { ReadsHandle handle.old.slot.held handle.new.slot.held (λ stack.
        result ≡ probe_items_in (space_named space (parts_kept stack.kept))) (result ≡ 0) }
{
    handle.probe_items(alloc, space)
}

/// Returns how many packets a space tracks, and when a sender declares the next of them lost by its age.
#[unsafe(no_mangle)]
pub extern "C" fn recovery_ffi_tracked(alloc: Global, handle: &mut Handle, space: u8) -> TrackedView
    ensures { ReadsHandle handle.old.slot.held handle.new.slot.held (λ stack.
        result ≡ tracked_in (space_named space (parts_kept stack.kept))) (result ≡ no_tracked) }
{
    handle.tracked(alloc, space)
}
