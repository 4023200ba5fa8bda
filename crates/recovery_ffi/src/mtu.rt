//! MTU discovery without a recovery, for a tunnel or another datagram protocol (RFC 8899). The caller numbers all
//! packets in increasing order, probes included.
ghost use Rattle.std.specs.Prelude.{◌≡◌, None};
ghost use Rattle.recovery_stack.specs.Answers.{ReadsHandle};
ghost use Rattle.recovery_stack.specs.Discoveries.{DiscoveryAnswers, NewDiscovery, mtu_shown, no_mtu};
ghost use Rattle.recovery_stack.specs.declared.mtu_handle.Call.TheVariants.{Poll, Limit, Acked, ProbeLost, Lost, LossesDone, Reset};

use recovery_base::time::Instant;
use recovery_engine::spelling::EncodedReply;
use recovery_stack::mtu::MtuView;
use recovery_stack::mtu_handle::{Call, MtuHandle};
use recovery_stack::settings::Settings;
use std::alloc::Global;

/// Makes an MTU discovery from `initial_mtu`, `min_mtu`, `allow_mtud` and the settings of the search, as a path has
/// it. The peer accepts datagrams of at most `limit` bytes, or 0 if it stated no limit. Returns `NEW_MADE`, or
/// the number of what is wrong, which leaves the handle unchanged.
#[unsafe(no_mangle)]
pub extern "C" fn recovery_ffi_mtu_new(
    alloc: Global,
    mtu: &mut MtuHandle,
    settings: &Settings,
    limit: u16,
) -> u8
    ensures { NewDiscovery result settings.now limit mtu.old.slot.held mtu.new.slot.held }
{
    mtu.begin(alloc, settings, limit)
}

/// Frees a discovery. The handle then holds none. A handle that holds none is unchanged.
#[unsafe(no_mangle)]
pub extern "C" fn recovery_ffi_mtu_drop(alloc: Global, mtu: &mut MtuHandle)
    ensures { mtu.new.slot.held ≡ None }
{
    mtu.free(alloc);
}

/// Returns the state of the discovery.
#[unsafe(no_mangle)]
pub extern "C" fn recovery_ffi_mtu(alloc: Global, mtu: &mut MtuHandle) -> MtuView
    ensures { ReadsHandle mtu.old.slot.held mtu.new.slot.held
        (λ discovery. result ≡ mtu_shown discovery) (result ≡ no_mtu) }
{
    mtu.view(alloc)
}

/// Checks whether a probe is due. The reply is `ANSWER_PROBE` with its size, or `ANSWER_NO_PROBE`. The
/// caller sends the probe as the packet of this number.
#[unsafe(no_mangle)]
pub extern "C" fn recovery_ffi_mtu_poll(
    alloc: Global,
    mtu: &mut MtuHandle,
    now: u64,
    number: u64,
) -> EncodedReply
    ensures { DiscoveryAnswers mtu.old.slot.held (Poll now number) result mtu.new.slot.held }
{
    mtu.call(
        alloc,
        Call::Poll {
            now: Instant::from_nanos(now),
            number,
        },
    )
}

/// Sets the largest datagram that the peer accepts, in bytes. An error if it is 0, or while a search is running:
/// set the limit before the first poll.
#[unsafe(no_mangle)]
pub extern "C" fn recovery_ffi_mtu_limit(
    alloc: Global,
    mtu: &mut MtuHandle,
    size: u16,
) -> EncodedReply
    ensures { DiscoveryAnswers mtu.old.slot.held (Limit size) result mtu.new.slot.held }
{
    mtu.call(alloc, Call::Limit { size })
}

/// Records that a packet of this many bytes was acknowledged (`ANSWER_ACKED`). The flag is true if it was the
/// probe in flight, whose size is then the MTU.
#[unsafe(no_mangle)]
pub extern "C" fn recovery_ffi_mtu_acked(
    alloc: Global,
    mtu: &mut MtuHandle,
    number: u64,
    bytes: u16,
) -> EncodedReply
    ensures { DiscoveryAnswers mtu.old.slot.held (Acked number bytes) result mtu.new.slot.held }
{
    mtu.call(alloc, Call::Acked { number, bytes })
}

/// Records that the probe in flight was lost. Changes nothing if there is none.
#[unsafe(no_mangle)]
pub extern "C" fn recovery_ffi_mtu_probe_lost(alloc: Global, mtu: &mut MtuHandle) -> EncodedReply
    ensures { DiscoveryAnswers mtu.old.slot.held ProbeLost result mtu.new.slot.held }
{
    mtu.call(alloc, Call::ProbeLost)
}

/// Records that a packet other than the probe in flight was lost. Report packets that are lost together in
/// increasing order, then call `recovery_ffi_mtu_losses_done`.
#[unsafe(no_mangle)]
pub extern "C" fn recovery_ffi_mtu_lost(
    alloc: Global,
    mtu: &mut MtuHandle,
    number: u64,
    bytes: u16,
) -> EncodedReply
    ensures { DiscoveryAnswers mtu.old.slot.held (Lost number bytes) result mtu.new.slot.held }
{
    mtu.call(alloc, Call::Lost { number, bytes })
}

/// Ends the losses of packets that were lost together. The flag is true if they are a black hole, which resets the
/// MTU to the minimum.
#[unsafe(no_mangle)]
pub extern "C" fn recovery_ffi_mtu_losses_done(
    alloc: Global,
    mtu: &mut MtuHandle,
    now: u64,
) -> EncodedReply
    ensures { DiscoveryAnswers mtu.old.slot.held (LossesDone now) result mtu.new.slot.held }
{
    mtu.call(
        alloc,
        Call::LossesDone {
            now: Instant::from_nanos(now),
        },
    )
}

/// Resets the discovery with these sizes; an error if one is zero. The peer's limit is unchanged.
#[unsafe(no_mangle)]
pub extern "C" fn recovery_ffi_mtu_reset(
    alloc: Global,
    mtu: &mut MtuHandle,
    size: u16,
    least: u16,
) -> EncodedReply
    ensures { DiscoveryAnswers mtu.old.slot.held (Reset size least) result mtu.new.slot.held }
{
    mtu.call(
        alloc,
        Call::Reset {
            mtu: size,
            min_mtu: least,
        },
    )
}
