//! Paths, congestion and pacing (RFC 9000, 8.1 and 9; RFC 9002, 5 and 7): an export for each event.
ghost use Rattle.recovery_stack.specs.Answers.{HandleApplies, HandleAppliesTo, MovesTo};
ghost use Rattle.recovery_stack.specs.Codes.{path_coded, maybe, spans};
ghost use Rattle.recovery_events.specs.declared.event.Event.TheVariants.{Congestion, DatagramIn, DropPrevious, EndAcks, InFlight, PacerCheck, ResetPath, RevertPath, Sample, Transmit, Validated};

use recovery_base::time::Instant;
use recovery_engine::spelling::EncodedReply;
use recovery_events::event::Event;
use recovery_stack::codes::{Address, maybe, path_coded, socket_of, spans};
use recovery_stack::handle::Handle;
use std::alloc::Global;

/// Returns what is in flight on a path: the event `InFlight`.
#[unsafe(no_mangle)]
pub extern "C" fn recovery_ffi_in_flight(
    alloc: Global,
    handle: &mut Handle,
    previous: bool,
) -> EncodedReply
    ensures { HandleApplies handle.old.slot.held (InFlight (path_coded previous))
        result handle.new.slot.held }
{
    handle.apply(
        alloc,
        Event::InFlight {
            path: path_coded(previous),
        },
    )
}

/// Takes an RTT sample (RFC 9002, 5): the event `Sample`. Nanoseconds are below 10^9.
#[unsafe(no_mangle)]
pub extern "C" fn recovery_ffi_sample(
    alloc: Global,
    handle: &mut Handle,
    delay_secs: u64,
    delay_nanos: u32,
    rtt_secs: u64,
    rtt_nanos: u32,
) -> EncodedReply
    ensures { HandleAppliesTo (spans delay_secs delay_nanos rtt_secs rtt_nanos)
        (λ spans. Sample spans.0 spans.1) handle.old.slot.held result handle.new.slot.held }
{
    match spans(delay_secs, delay_nanos, rtt_secs, rtt_nanos) {
        Some((delay, rtt)) => handle.apply(alloc, Event::Sample { delay, rtt }),
        None => EncodedReply::bad_argument(),
    }
}

/// Records a received datagram on a path (RFC 9000, 8.1): the event `DatagramIn`.
#[unsafe(no_mangle)]
pub extern "C" fn recovery_ffi_datagram_in(
    alloc: Global,
    handle: &mut Handle,
    previous: bool,
    bytes: u64,
) -> EncodedReply
    ensures { HandleApplies handle.old.slot.held
        (DatagramIn (path_coded previous) bytes) result handle.new.slot.held }
{
    handle.apply(
        alloc,
        Event::DatagramIn {
            path: path_coded(previous),
            bytes,
        },
    )
}

/// Validates the peer's address on a path (RFC 9000, 8): the event `Validated`.
#[unsafe(no_mangle)]
pub extern "C" fn recovery_ffi_validated(
    alloc: Global,
    handle: &mut Handle,
    previous: bool,
) -> EncodedReply
    ensures { HandleApplies handle.old.slot.held (Validated (path_coded previous))
        result handle.new.slot.held }
{
    handle.apply(
        alloc,
        Event::Validated {
            path: path_coded(previous),
        },
    )
}

/// Counts a datagram on the path in use; if it is checked, only if limit and pacer permit. The event `Transmit`.
#[unsafe(no_mangle)]
pub extern "C" fn recovery_ffi_transmit(
    alloc: Global,
    handle: &mut Handle,
    now: u64,
    bytes: u16,
    checked: bool,
) -> EncodedReply
    ensures { HandleApplies handle.old.slot.held (Transmit now bytes checked)
        result handle.new.slot.held }
{
    handle.apply(
        alloc,
        Event::Transmit {
            now: Instant::from_nanos(now),
            bytes,
            checked,
        },
    )
}

/// Checks whether the pacer permits this many bytes (RFC 9002, 7.7): the event `PacerCheck`.
#[unsafe(no_mangle)]
pub extern "C" fn recovery_ffi_pacer_check(
    alloc: Global,
    handle: &mut Handle,
    now: u64,
    bytes: u64,
) -> EncodedReply
    ensures { HandleApplies handle.old.slot.held (PacerCheck now bytes) result
        handle.new.slot.held }
{
    handle.apply(
        alloc,
        Event::PacerCheck {
            now: Instant::from_nanos(now),
            bytes,
        },
    )
}

/// Reports congestion on the path in use: packets were lost, or marked (RFC 9002, 7.3). The event `Congestion`.
#[unsafe(no_mangle)]
pub extern "C" fn recovery_ffi_congestion(
    alloc: Global,
    handle: &mut Handle,
    now: u64,
    sent: u64,
    persistent: bool,
    bytes: u64,
) -> EncodedReply
    ensures { HandleApplies handle.old.slot.held
        (Congestion now sent persistent bytes) result handle.new.slot.held }
{
    handle.apply(
        alloc,
        Event::Congestion {
            now: Instant::from_nanos(now),
            sent: Instant::from_nanos(sent),
            persistent,
            bytes,
        },
    )
}

/// Ends the acknowledgements of one ACK frame: the event `EndAcks`.
#[unsafe(no_mangle)]
pub extern "C" fn recovery_ffi_end_acks(
    alloc: Global,
    handle: &mut Handle,
    now: u64,
    app_limited: bool,
    has_largest: bool,
    largest: u64,
) -> EncodedReply
    ensures { HandleApplies handle.old.slot.held
        (EndAcks now app_limited (maybe has_largest largest)) result handle.new.slot.held }
{
    handle.apply(
        alloc,
        Event::EndAcks {
            now: Instant::from_nanos(now),
            app_limited,
            largest: maybe(has_largest, largest),
        },
    )
}

/// Changes to another path (RFC 9000, 9.3): the event `NewPath`.
#[unsafe(no_mangle)]
pub extern "C" fn recovery_ffi_new_path(
    alloc: Global,
    handle: &mut Handle,
    now: u64,
    remote: &Address,
    fresh: bool,
) -> EncodedReply
    ensures { MovesTo handle.old.slot.held now remote.now fresh result handle.new.slot.held }
{
    handle.apply(
        alloc,
        Event::NewPath {
            now: Instant::from_nanos(now),
            remote: socket_of(remote),
            fresh,
        },
    )
}

/// Resets the path in use (RFC 9000, 9.4): the event `ResetPath`.
#[unsafe(no_mangle)]
pub extern "C" fn recovery_ffi_reset_path(
    alloc: Global,
    handle: &mut Handle,
    now: u64,
) -> EncodedReply
    ensures { HandleApplies handle.old.slot.held (ResetPath now) result handle.new.slot.held }
{
    handle.apply(
        alloc,
        Event::ResetPath {
            now: Instant::from_nanos(now),
        },
    )
}

/// Drops the previous path (RFC 9000, 9.3.3): the event `DropPrevious`.
#[unsafe(no_mangle)]
pub extern "C" fn recovery_ffi_drop_previous(alloc: Global, handle: &mut Handle) -> EncodedReply
    ensures { HandleApplies handle.old.slot.held (DropPrevious) result handle.new.slot.held }
{
    handle.apply(alloc, Event::DropPrevious)
}

/// Returns to the previous path, and drops the current one (RFC 9000, 9.3.2): the event `RevertPath`.
#[unsafe(no_mangle)]
pub extern "C" fn recovery_ffi_revert_path(alloc: Global, handle: &mut Handle) -> EncodedReply
    ensures { HandleApplies handle.old.slot.held (RevertPath) result handle.new.slot.held }
{
    handle.apply(alloc, Event::RevertPath)
}
