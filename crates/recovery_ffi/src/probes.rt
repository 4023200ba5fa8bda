//! ECN counts, checks of ACK ranges, probes and retransmissions (RFC 9000, 13.4; RFC 9002, 6.2.4).
ghost use Rattle.recovery_stack.specs.Answers.{HandleAppliesTo};
ghost use Rattle.recovery_stack.specs.Codes.{counts, space_coded};
ghost use Rattle.recovery_events.specs.declared.event.Event.TheVariants.{CheckAck, Ecn, QueueProbe, TakePending};

use recovery_base::below::EcnCounts;
use recovery_engine::spelling::EncodedReply;
use recovery_events::event::Event;
use recovery_stack::codes::space_coded;
use recovery_stack::handle::Handle;
use std::alloc::Global;

/// Processes the ECN counts of an ACK frame (RFC 9000, 13.4.2): the event `Ecn`.
#[unsafe(no_mangle)]
pub extern "C" fn recovery_ffi_ecn(
    alloc: Global,
    handle: &mut Handle,
    space: u8,
    newly_acked: u64,
    ect0: u64,
    ect1: u64,
    ce: u64,
) -> EncodedReply
    ensures { HandleAppliesTo (space_coded space)
        (λ space. Ecn space newly_acked (counts ect0 ect1 ce))
        handle.old.slot.held result handle.new.slot.held }
{
    let Some(space) = space_coded(space) else {
        return EncodedReply::bad_argument();
    };
    handle.apply(
        alloc,
        Event::Ecn {
            space,
            newly_acked,
            counts: EcnCounts { ect0, ect1, ce },
        },
    )
}

/// Checks a range of packet numbers of an ACK frame (RFC 9000, 13.1): the event `CheckAck`.
#[unsafe(no_mangle)]
pub extern "C" fn recovery_ffi_check_ack(
    alloc: Global,
    handle: &mut Handle,
    space: u8,
    low: u64,
    high: u64,
) -> EncodedReply
    ensures { HandleAppliesTo (space_coded space)
        (λ space. CheckAck space low high)
        handle.old.slot.held result handle.new.slot.held }
{
    let Some(space) = space_coded(space) else {
        return EncodedReply::bad_argument();
    };
    handle.apply(alloc, Event::CheckAck { space, low, high })
}

/// Queues the contents of a probe packet (RFC 9002, 6.2.4): the event `QueueProbe`.
#[unsafe(no_mangle)]
pub extern "C" fn recovery_ffi_queue_probe(
    alloc: Global,
    handle: &mut Handle,
    space: u8,
    immediate_ack: bool,
) -> EncodedReply
    ensures { HandleAppliesTo (space_coded space)
        (λ space. QueueProbe space immediate_ack tt)
        handle.old.slot.held result handle.new.slot.held }
{
    let Some(space) = space_coded(space) else {
        return EncodedReply::bad_argument();
    };
    handle.apply(
        alloc,
        Event::QueueProbe {
            space,
            immediate_ack,
            streams: (),
        },
    )
}

/// Takes the retransmission queue, to be read by `recovery_ffi_last_items`: the event `TakePending`.
#[unsafe(no_mangle)]
pub extern "C" fn recovery_ffi_take_pending(
    alloc: Global,
    handle: &mut Handle,
    space: u8,
) -> EncodedReply
    ensures { HandleAppliesTo (space_coded space)
        (λ space. TakePending space)
        handle.old.slot.held result handle.new.slot.held }
{
    let Some(space) = space_coded(space) else {
        return EncodedReply::bad_argument();
    };
    handle.apply(alloc, Event::TakePending { space })
}
