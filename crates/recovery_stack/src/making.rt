//! Makes a recovery from settings and the peer's address and connection ID.
ghost use Rattle.std.specs.Prelude.{◌≡◌, None};
ghost use Rattle.recovery_stack.specs.Made.{MadeOrNoMemory, NewOr};
ghost use Rattle.recovery_stack.specs.Settings.{AreSettingsSound};

use crate::codes::{Address, cid, socket_of};
use crate::handle::Handle;
use crate::settings::{Settings, config, fault};
use crate::stack::Stack;
use rand_core::SeedableRng;
use rand_pcg::Pcg32;
use recovery_base::below::ConnectionId;
use recovery_base::time::Instant;
use recovery_engine::kept::Form;
use recovery_engine::numbers::{NEW_CID_TOO_LONG, NEW_HELD, NEW_MADE, NEW_NO_MEMORY};
use std::alloc::Global;

/// Makes a recovery of this form in a handle that holds none. Returns `NEW_MADE`, or the number of what is
/// wrong.
pub fn begin(
    alloc: Global,
    handle: &mut Handle,
    form: Form,
    settings: &Settings,
    remote: &Address,
    initial_cid: &[u8],
    now: u64,
) -> u8
    ensures { NewOr form result settings.now remote.now initial_cid.now now
        handle.old.slot.held handle.new.slot.held }
{
    if handle.holds() {
        return NEW_HELD;
    }
    let Some(id) = cid(initial_cid) else {
        return NEW_CID_TOO_LONG;
    };
    let fault = fault(settings);
    if fault != NEW_MADE {
        return fault;
    }
    if make(alloc, handle, form, settings, remote, id, now) {
        NEW_MADE
    } else {
        NEW_NO_MEMORY
    }
}

/// Stores a recovery with valid settings. Returns false if allocation fails.
///
/// Never inlined: its frame is large. If it is inlined, clang puts the probe of that frame after the tests of the
/// caller's arguments, and the probe overwrites a register that a test has set.
#[inline(never)]
fn make(
    alloc: Global,
    handle: &mut Handle,
    form: Form,
    settings: &Settings,
    remote: &Address,
    id: ConnectionId,
    now: u64,
) -> bool
    requires none { handle.old.slot.held ≡ None }
    requires sound { AreSettingsSound settings.now }
    ensures { MadeOrNoMemory form result settings.now remote.now id now handle.new.slot.held }
{
    let peer = socket_of(remote);
    let config = config(settings, id, peer);
    let rng = Pcg32::seed_from_u64(settings.seed);
    match Stack::new(alloc, form, config, rng, Instant::from_nanos(now)) {
        Ok(stack) => handle.make(alloc, stack),
        Err(_) => false,
    }
}
