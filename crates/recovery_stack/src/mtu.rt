//! Makes an MTU discovery from settings, and reads it (RFC 8899).
ghost use Rattle.std.specs.Prelude.{◌≡◌};
ghost use Rattle.recovery_stack.specs.Answers.{ReadsHandle};
ghost use Rattle.recovery_stack.specs.Discoveries.{NewDiscovery, discovery_by, mtu_shown, no_mtu};
ghost use Rattle.recovery_stack.specs.Settings.{AreSettingsSound};

use crate::mtu_handle::MtuHandle;
use crate::settings::{Settings, discovery, fault};
use recovery_engine::numbers::{NEW_HELD, NEW_MADE, NEW_NO_MEMORY};
use recovery_mtud::mtud::MtuDiscovery;
use std::alloc::Global;

/// The state of an MTU discovery.
#[repr(C)]
#[derive(Clone, Copy)]
pub struct MtuView {
    /// The number of the probe in flight, if any; otherwise 0.
    pub probe: u64,
    /// The MTU in use, in bytes.
    pub mtu: u16,
    /// Whether a probe is in flight.
    pub probes: bool,
    /// Whether a search is running.
    pub searches: bool,
    /// Whether the handle holds a discovery; if not, all else is 0.
    pub some: bool,
}

fn begun(settings: &Settings, limit: u16) -> MtuDiscovery
    requires { AreSettingsSound settings.now }
    ensures { result ≡ discovery_by settings.now limit }
{
    let initial = settings.initial_mtu.max(settings.min_mtu);
    let limit = if limit == 0 { None } else { Some(limit) };
    let searched = if settings.allow_mtud {
        discovery(settings)
    } else {
        None
    };
    match searched {
        Some(searched) => MtuDiscovery::new(initial, settings.min_mtu, limit, searched),
        None => MtuDiscovery::disabled(initial, settings.min_mtu),
    }
}

fn show(discovery: &MtuDiscovery) -> MtuView
    ensures { result ≡ mtu_shown discovery.now }
{
    let probe = discovery.in_flight_mtu_probe();
    MtuView {
        probe: probe.unwrap_or(0),
        mtu: discovery.current_mtu(),
        probes: probe.is_some(),
        searches: discovery.is_searching(),
        some: true,
    }
}

impl MtuHandle {
    /// Makes a discovery in a handle that holds none. The peer accepts datagrams of at most `limit` bytes, or 0 if it
    /// stated no limit. Returns `NEW_MADE`, or the number of what is wrong.
    pub fn begin(&mut self, alloc: Global, settings: &Settings, limit: u16) -> u8
        ensures { NewDiscovery result settings.now limit self.old.slot.held self.new.slot.held }
    {
        if self.holds() {
            return NEW_HELD;
        }
        let fault = fault(settings);
        if fault != NEW_MADE {
            return fault;
        }
        if self.make(alloc, begun(settings, limit)) {
            NEW_MADE
        } else {
            NEW_NO_MEMORY
        }
    }

    /// Returns the state of the discovery.
    pub fn view(&mut self, alloc: Global) -> MtuView
        ensures { ReadsHandle self.old.slot.held self.new.slot.held
            (λ discovery. result ≡ mtu_shown discovery) (result ≡ no_mtu) }
    {
        let Some(discovery) = self.take(alloc) else {
            return MtuView {
                probe: 0,
                mtu: 0,
                probes: false,
                searches: false,
                some: false,
            };
        };
        let view = show(&discovery);
        self.put(discovery);
        view
    }
}
