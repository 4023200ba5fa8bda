//! Received and sent packets (RFC 9000, 12; RFC 9002, A.5 and A.7): an export for each event.
ghost use Rattle.std.specs.Prelude.{◌≡◌};
ghost use Rattle.recovery_stack.specs.Answers.{HandleAppliesTo, AnswersWith, ReadsHandle};
ghost use Rattle.recovery_stack.specs.Codes.{space_coded, maybe};
ghost use Rattle.recovery_engine.specs.Replies.{IsWritten};
ghost use Rattle.recovery_events.specs.declared.event.Event.TheVariants.{Acked, DiscardSpace, Lost, Received, Send};

use recovery_base::time::Instant;
use recovery_engine::kept::ItemPacket;
use recovery_engine::spelling::EncodedReply;
use recovery_events::event::Event;
use recovery_stack::codes::{copy_items, maybe, queue_of, space_coded};
use recovery_stack::handle::Handle;
use std::alloc::Global;

/// Records a received packet (RFC 9000, 12.3): the event `Received`.
#[unsafe(no_mangle)]
pub extern "C" fn recovery_ffi_received(
    alloc: Global,
    handle: &mut Handle,
    space: u8,
    now: u64,
    number: u64,
    ack_eliciting: bool,
) -> EncodedReply
    ensures { HandleAppliesTo (space_coded space)
        (λ space. Received space now number ack_eliciting)
        handle.old.slot.held result handle.new.slot.held }
{
    let Some(space) = space_coded(space) else {
        return EncodedReply::bad_argument();
    };
    handle.apply(
        alloc,
        Event::Received {
            space,
            now: Instant::from_nanos(now),
            number,
            ack_eliciting,
        },
    )
}

/// Records a sent packet with these items (RFC 9002, A.5): the event `Send`.
#[unsafe(no_mangle)]
pub extern "C" fn recovery_ffi_send(
    alloc: Global,
    handle: &mut Handle,
    space: u8,
    now: u64,
    size: u16,
    ack_eliciting: bool,
    has_largest: bool,
    largest: u64,
    items: &[u64],
) -> EncodedReply
    ensures { AnswersWith items.now (space_coded space)
        (λ space. Send space now size ack_eliciting (maybe has_largest largest) items.now tt)
        handle.old.slot.held result handle.new.slot.held }
{
    let Some(space) = space_coded(space) else {
        return EncodedReply::bad_argument();
    };
    match queue_of(alloc, items) {
        Ok(queue) => handle.send(
            alloc,
            ItemPacket {
                space,
                now: Instant::from_nanos(now),
                size,
                ack_eliciting,
                largest_acked: maybe(has_largest, largest),
                queue,
            },
        ),
        Err(_) => EncodedReply::no_memory(),
    }
}

/// Records that a sent packet was acknowledged (RFC 9002, A.7): the event `Acked`.
#[unsafe(no_mangle)]
pub extern "C" fn recovery_ffi_acked(
    alloc: Global,
    handle: &mut Handle,
    space: u8,
    now: u64,
    number: u64,
    app_limited: bool,
) -> EncodedReply
    ensures { HandleAppliesTo (space_coded space)
        (λ space. Acked space now number app_limited)
        handle.old.slot.held result handle.new.slot.held }
{
    let Some(space) = space_coded(space) else {
        return EncodedReply::bad_argument();
    };
    handle.apply(
        alloc,
        Event::Acked {
            space,
            now: Instant::from_nanos(now),
            number,
            app_limited,
        },
    )
}

/// Declares a sent packet lost (RFC 9002, A.10): the event `Lost`.
#[unsafe(no_mangle)]
pub extern "C" fn recovery_ffi_lost(
    alloc: Global,
    handle: &mut Handle,
    space: u8,
    number: u64,
) -> EncodedReply
    ensures { HandleAppliesTo (space_coded space)
        (λ space. Lost space number)
        handle.old.slot.held result handle.new.slot.held }
{
    let Some(space) = space_coded(space) else {
        return EncodedReply::bad_argument();
    };
    handle.apply(alloc, Event::Lost { space, number })
}

/// Discards a space with its keys (RFC 9002, 6.4): the event `DiscardSpace`.
#[unsafe(no_mangle)]
pub extern "C" fn recovery_ffi_discard(
    alloc: Global,
    handle: &mut Handle,
    space: u8,
) -> EncodedReply
    ensures { HandleAppliesTo (space_coded space)
        (λ space. DiscardSpace space)
        handle.old.slot.held result handle.new.slot.held }
{
    let Some(space) = space_coded(space) else {
        return EncodedReply::bad_argument();
    };
    handle.apply(alloc, Event::DiscardSpace { space })
}

/// Returns the item count of the queue that was taken last, and writes the items if there is room for all. None
/// before the first.
#[unsafe(no_mangle)]
pub extern "C" fn recovery_ffi_last_items(
    alloc: Global,
    handle: &mut Handle,
    out: &mut [u64],
) -> usize
    ensures { ReadsHandle handle.old.slot.held handle.new.slot.held
        (λ stack. IsWritten stack.taken out.old result out.new)
        ((result ≡ 0) × (out.new ≡ out.old)) }
{
    handle.taken(alloc, out)
}
