//! Readings of a recovery: paths, spaces, ranges to be acknowledged, timers and connection IDs. If the handle holds
//! none, each returns its empty value.
ghost use Rattle.std.specs.Prelude.{◌≡◌, slice_get, None};
ghost use Rattle.recovery_ids.specs.LocalIds.{first_moment};
ghost use Rattle.recovery_paths.specs.PathLog.{path_of};
ghost use Rattle.recovery_stack.specs.Answers.{ReadsHandle};
ghost use Rattle.recovery_stack.specs.Codes.{path_coded};
ghost use Rattle.recovery_engine.specs.Kept.{parts_kept};
ghost use Rattle.recovery_stack.specs.Views.{path_view, no_path, moment_shown, moment_named, ack_delay_named, ids_shown, no_ids, range_shown, ranges_in, no_space, space_named, IsSpaceShown};

use recovery_base::time::Instant;
use recovery_stack::handle::Handle;
use recovery_stack::views::{IdsView, PathView, RangeView, SpaceView, TimeView};
use std::alloc::Global;

/// Returns the state of a path.
#[unsafe(no_mangle)]
pub extern "C" fn recovery_ffi_path(alloc: Global, handle: &mut Handle, previous: bool) -> PathView
    ensures { ReadsHandle handle.old.slot.held handle.new.slot.held (λ stack.
        let paths = (parts_kept stack.kept).paths in
        result ≡ path_view (path_of (path_coded previous) paths)) (result ≡ no_path) }
{
    handle.path(alloc, previous)
}

/// Returns what a space has to send. A space that does not exist is read as a discarded one.
#[unsafe(no_mangle)]
pub extern "C" fn recovery_ffi_space(alloc: Global, handle: &mut Handle, space: u8) -> SpaceView
    ensures { ReadsHandle handle.old.slot.held handle.new.slot.held (λ stack.
        IsSpaceShown (space_named space (parts_kept stack.kept)) result)
        (result ≡ no_space) }
{
    handle.space(alloc, space)
}

/// Returns one of the ranges of packet numbers to be acknowledged in a space, in ascending order.
#[unsafe(no_mangle)]
pub extern "C" fn recovery_ffi_range(
    alloc: Global,
    handle: &mut Handle,
    space: u8,
    index: usize,
) -> RangeView
    ensures { ReadsHandle handle.old.slot.held handle.new.slot.held (λ stack.
        let kept = space_named space (parts_kept stack.kept) in
        result ≡ range_shown (slice_get (ranges_in kept) index)) (result ≡ range_shown None) }
{
    handle.range(alloc, space, index)
}

/// Returns how long ago the largest packet of a space was received, for the ACK Delay of an ACK frame (RFC 9000,
/// 13.2.5). It is zero before the first, and none if there is no such space or it is discarded.
#[unsafe(no_mangle)]
pub extern "C" fn recovery_ffi_ack_delay(
    alloc: Global,
    handle: &mut Handle,
    space: u8,
    now: u64,
) -> TimeView
    ensures { ReadsHandle handle.old.slot.held handle.new.slot.held (λ stack.
        result ≡ ack_delay_named space now (parts_kept stack.kept))
        (result ≡ moment_shown None) }
{
    handle.ack_delay(alloc, space, now)
}

/// Returns when a timer expires.
#[unsafe(no_mangle)]
pub extern "C" fn recovery_ffi_timer(alloc: Global, handle: &mut Handle, timer: u8) -> TimeView
    ensures { ReadsHandle handle.old.slot.held handle.new.slot.held (λ stack.
        let timers = (parts_kept stack.kept).timers in
        result ≡ moment_named timer timers) (result ≡ moment_shown None) }
{
    handle.timer(alloc, timer)
}

/// Returns the connection IDs of both endpoints, and their max_ack_delay.
#[unsafe(no_mangle)]
pub extern "C" fn recovery_ffi_ids(alloc: Global, handle: &mut Handle) -> IdsView
    ensures { ReadsHandle handle.old.slot.held handle.new.slot.held (λ stack.
        result ≡ ids_shown (parts_kept stack.kept)) (result ≡ no_ids) }
{
    handle.ids(alloc)
}

/// Returns when the oldest of the local connection IDs is to be retired (RFC 9000, 5.1.2), if they expire. Set
/// `TIMER_PUSH_NEW_CID` to it.
#[unsafe(no_mangle)]
pub extern "C" fn recovery_ffi_next_id_timeout(alloc: Global, handle: &mut Handle) -> TimeView
    ensures { ReadsHandle handle.old.slot.held handle.new.slot.held (λ stack.
        let ids = (parts_kept stack.kept).local_ids in
        result ≡ moment_shown (first_moment ids.deadlines)) (result ≡ moment_shown None) }
{
    handle.next_id_timeout(alloc)
}
