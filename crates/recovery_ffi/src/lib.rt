//! A recovery for C and Rust: an exported function for each event, and for each reading. Each guarantees what the live
//! recovery's `apply` guarantees for its event, for every past, and returns an error if the arguments are invalid.
//! docs/RUST.md states what a caller must ensure.
//!
//! A reader guarantees that the handle holds the same recovery after it (`ReadsHandle`). It takes the recovery out of
//! the handle, borrows it as shared, and puts it back. So it writes to the handle's bytes, and to nothing that they
//! lead to: several readers may run at once, each on a copy of these bytes (rust/c/readers.c).
#![tactic(auto)]

mod acks;
mod discovery;
mod glances;
mod ids;
mod layout;
mod marks;
mod mtu;
mod pacer;
mod packets;
mod paths;
mod probes;
mod readers;
mod sender;
mod settings;
mod timers;

ghost use Rattle.std.specs.Prelude.{◌≡◌, None};
ghost use Rattle.recovery_engine.specs.declared.kept.Form.TheVariants.{Bare};
ghost use Rattle.recovery_stack.specs.Made.{NewOr};

use recovery_engine::kept::Form;
use recovery_stack::codes::Address;
use recovery_stack::handle::Handle;
use recovery_stack::making::begin;
use recovery_stack::settings::Settings;
use std::alloc::Global;

/// Makes a recovery, whose peer is at this address and has this connection ID of at most 20 bytes. Returns
/// `NEW_MADE`, or the number of what is wrong, which leaves the handle unchanged.
#[unsafe(no_mangle)]
pub extern "C" fn recovery_ffi_new(
    alloc: Global,
    handle: &mut Handle,
    settings: &Settings,
    remote: &Address,
    initial_cid: &[u8],
    now: u64,
) -> u8
    ensures { NewOr Bare result settings.now remote.now initial_cid.now now
        handle.old.slot.held handle.new.slot.held }
{
    begin(
        alloc,
        handle,
        Form::Bare,
        settings,
        remote,
        initial_cid,
        now,
    )
}

/// Frees a recovery. The handle then holds none. A handle that holds none is unchanged.
#[unsafe(no_mangle)]
pub extern "C" fn recovery_ffi_drop(alloc: Global, handle: &mut Handle)
    ensures { handle.new.slot.held ≡ None }
{
    handle.free(alloc);
}
