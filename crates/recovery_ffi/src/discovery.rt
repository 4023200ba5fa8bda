//! MTU discovery (RFC 9000, 14.3; RFC 8899): an export for each event.
ghost use Rattle.recovery_stack.specs.Answers.{HandleApplies};
ghost use Rattle.recovery_events.specs.declared.event.Event.TheVariants.{LossesDone, MtuFound, PeerLimit, PollMtu};

use recovery_base::time::Instant;
use recovery_engine::spelling::EncodedReply;
use recovery_events::event::Event;
use recovery_stack::handle::Handle;
use std::alloc::Global;

/// Returns an MTU probe to send, if one is due (RFC 9000, 14.3), and tracks it: the event `PollMtu`.
#[unsafe(no_mangle)]
pub extern "C" fn recovery_ffi_poll_mtu(
    alloc: Global,
    handle: &mut Handle,
    now: u64,
) -> EncodedReply
    ensures { HandleApplies handle.old.slot.held (PollMtu now) result handle.new.slot.held }
{
    handle.apply(
        alloc,
        Event::PollMtu {
            now: Instant::from_nanos(now),
        },
    )
}

/// Sets the largest datagram that the peer accepts (RFC 9000, 18.2): the event `PeerLimit`.
#[unsafe(no_mangle)]
pub extern "C" fn recovery_ffi_peer_limit(
    alloc: Global,
    handle: &mut Handle,
    size: u16,
) -> EncodedReply
    ensures { HandleApplies handle.old.slot.held (PeerLimit size) result handle.new.slot.held }
{
    handle.apply(alloc, Event::PeerLimit { size })
}

/// Uses an MTU that was found elsewhere, by a search of the caller's or the configuration of a tunnel, on the path in
/// use (RFC 8899, 5; RFC 9000, 14.3): the event `MtuFound`. MTU discovery must be disabled in the settings.
#[unsafe(no_mangle)]
pub extern "C" fn recovery_ffi_mtu_found(
    alloc: Global,
    handle: &mut Handle,
    mtu: u16,
) -> EncodedReply
    ensures { HandleApplies handle.old.slot.held (MtuFound mtu) result handle.new.slot.held }
{
    handle.apply(alloc, Event::MtuFound { mtu })
}

/// Ends the losses of packets that were lost together: the event `LossesDone`.
#[unsafe(no_mangle)]
pub extern "C" fn recovery_ffi_losses_done(
    alloc: Global,
    handle: &mut Handle,
    now: u64,
) -> EncodedReply
    ensures { HandleApplies handle.old.slot.held (LossesDone now) result handle.new.slot.held }
{
    handle.apply(
        alloc,
        Event::LossesDone {
            now: Instant::from_nanos(now),
        },
    )
}
