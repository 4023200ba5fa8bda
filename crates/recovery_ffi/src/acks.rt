//! When and how late the local endpoint sends ACKs (RFC 9000, 13.2): an export for each event.
ghost use Rattle.recovery_stack.specs.Answers.{HandleAppliesTo};
ghost use Rattle.recovery_stack.specs.Codes.{request, space_coded};
ghost use Rattle.recovery_events.specs.declared.event.Event.TheVariants.{AckDelayTimeout, AckFrequencyIn, AcksSent};

use recovery_engine::spelling::EncodedReply;
use recovery_events::event::Event;
use recovery_stack::codes::{request, space_coded};
use recovery_stack::handle::Handle;
use std::alloc::Global;

/// Processes a received ACK_FREQUENCY frame: the event `AckFrequencyIn`. Its numbers are below 2^62.
#[unsafe(no_mangle)]
pub extern "C" fn recovery_ffi_ack_frequency(
    alloc: Global,
    handle: &mut Handle,
    sequence: u64,
    threshold: u64,
    micros: u64,
    reordering: u64,
) -> EncodedReply
    ensures { HandleAppliesTo (request sequence threshold micros reordering)
        (λ frame. AckFrequencyIn frame) handle.old.slot.held result handle.new.slot.held }
{
    match request(sequence, threshold, micros, reordering) {
        Some(frame) => handle.apply(alloc, Event::AckFrequencyIn(frame)),
        None => EncodedReply::bad_argument(),
    }
}

/// Records that an ACK frame was sent (RFC 9000, 13.2.1): the event `AcksSent`.
#[unsafe(no_mangle)]
pub extern "C" fn recovery_ffi_acks_sent(
    alloc: Global,
    handle: &mut Handle,
    space: u8,
) -> EncodedReply
    ensures { HandleAppliesTo (space_coded space)
        (λ space. AcksSent space)
        handle.old.slot.held result handle.new.slot.held }
{
    let Some(space) = space_coded(space) else {
        return EncodedReply::bad_argument();
    };
    handle.apply(alloc, Event::AcksSent { space })
}

/// Handles the ACK delay timer: the event `AckDelayTimeout`.
#[unsafe(no_mangle)]
pub extern "C" fn recovery_ffi_ack_delay_timeout(
    alloc: Global,
    handle: &mut Handle,
    space: u8,
) -> EncodedReply
    ensures { HandleAppliesTo (space_coded space)
        (λ space. AckDelayTimeout space)
        handle.old.slot.held result handle.new.slot.held }
{
    let Some(space) = space_coded(space) else {
        return EncodedReply::bad_argument();
    };
    handle.apply(alloc, Event::AckDelayTimeout { space })
}
