//! Timers (RFC 9002, 6.2): an export for each event.
ghost use Rattle.recovery_stack.specs.Answers.{HandleApplies, HandleAppliesTo};
ghost use Rattle.recovery_stack.specs.Codes.{timer_coded};
ghost use Rattle.recovery_events.specs.declared.event.Event.TheVariants.{NextTimeout, SetTimer, StopTimer};

use recovery_base::time::Instant;
use recovery_engine::spelling::EncodedReply;
use recovery_events::event::Event;
use recovery_stack::codes::timer_coded;
use recovery_stack::handle::Handle;
use std::alloc::Global;

/// Sets a timer to a time in nanoseconds: the event `SetTimer`.
#[unsafe(no_mangle)]
pub extern "C" fn recovery_ffi_set_timer(
    alloc: Global,
    handle: &mut Handle,
    timer: u8,
    time: u64,
) -> EncodedReply
    ensures { HandleAppliesTo (timer_coded timer)
        (λ timer. SetTimer timer time)
        handle.old.slot.held result handle.new.slot.held }
{
    let Some(timer) = timer_coded(timer) else {
        return EncodedReply::bad_argument();
    };
    handle.apply(
        alloc,
        Event::SetTimer {
            timer,
            time: Instant::from_nanos(time),
        },
    )
}

/// Stops a timer: the event `StopTimer`.
#[unsafe(no_mangle)]
pub extern "C" fn recovery_ffi_stop_timer(
    alloc: Global,
    handle: &mut Handle,
    timer: u8,
) -> EncodedReply
    ensures { HandleAppliesTo (timer_coded timer)
        (λ timer. StopTimer timer)
        handle.old.slot.held result handle.new.slot.held }
{
    let Some(timer) = timer_coded(timer) else {
        return EncodedReply::bad_argument();
    };
    handle.apply(alloc, Event::StopTimer { timer })
}

/// Returns when the next timer expires: the event `NextTimeout`.
#[unsafe(no_mangle)]
pub extern "C" fn recovery_ffi_next_timeout(alloc: Global, handle: &mut Handle) -> EncodedReply
    ensures { HandleApplies handle.old.slot.held (NextTimeout) result handle.new.slot.held }
{
    handle.apply(alloc, Event::NextTimeout)
}
