//! A place for a discovery, or none.
ghost use Rattle.std.specs.Prelude.{◌≡◌, Some, None};
ghost use Rattle.std.specs.declared.option.Option.{Option};
ghost use Rattle.recovery_mtud.specs.Discovery.{Discovery};
ghost use Rattle.recovery_stack.specs.Held.{discovery_owns, discovery_coded, IsHeld};

use crate::parts::Parts;
use recovery_mtud::mtud::MtuDiscovery;
use std::alloc::Global;
use std::marker::Model;
use std::mem::replace;
use std::ptr::null_mut;

/// A pointer that owns the contents of a box, or nothing.
#[repr(C)]
pub struct MtuSlot {
    ptr: *mut u8,
    alloc: Global,
    pub ghost held: { Option Discovery } by { discovery_coded },
}

impl Model for MtuSlot {
    ghost also_owns = { λ s. discovery_owns s.alloc s.ptr s.held };
}

impl MtuSlot {
    #[inline(always)]
    fn empty(alloc: Global) -> MtuSlot
        ensures { result.held ≡ None }
    {
        MtuSlot {
            ptr: null_mut(),
            alloc,
        }
    }

    #[inline(always)]
    fn forget(self)
        requires { self.held ≡ None }
    {
        let MtuSlot { ptr: _, alloc: _ } = self;
    }

    #[inline(always)]
    fn of_parts(parts: Parts<MtuDiscovery, Global>) -> MtuSlot
        ensures { result.held ≡ Some parts.value }
    {
        let Parts { ptr, alloc } = parts;
        MtuSlot {
            ptr: ptr as *mut u8,
            alloc,
        }
    }

    #[inline(always)]
    fn into_parts(self) -> Parts<MtuDiscovery, Global>
        requires { IsHeld self.held }
        ensures { self.held ≡ Some result.value }
    {
        let MtuSlot { ptr, alloc } = self;
        Parts {
            ptr: ptr as *mut MtuDiscovery,
            alloc,
        }
    }

    #[inline(always)]
    fn swap(&mut self, empty: MtuSlot) -> MtuSlot
        requires { empty.held ≡ None }
        ensures old { result.held ≡ self.old.held }
        ensures new { self.new.held ≡ None }
    {
        replace(self, empty)
    }

    #[inline(always)]
    fn into_box(self) -> Box<MtuDiscovery>
        requires { IsHeld self.held }
        ensures { self.held ≡ Some result.value }
    {
        let parts = self.into_parts();
        parts.into_box()
    }

    /// Takes the discovery out of the slot; the slot then holds none.
    #[inline(always)]
    pub fn take(&mut self, alloc: Global) -> Box<MtuDiscovery>
        requires { IsHeld self.old.held }
        ensures value { self.old.held ≡ Some result.value }
        ensures held { self.new.held ≡ None }
    {
        let full = self.swap(MtuSlot::empty(alloc));
        full.into_box()
    }

    /// Stores a discovery in a slot that holds none. Allocates nothing.
    #[inline(always)]
    pub fn put(&mut self, discovery: Box<MtuDiscovery>)
        requires { self.old.held ≡ None }
        ensures { self.new.held ≡ Some discovery.value }
    {
        replace(self, MtuSlot::of_parts(Parts::of(discovery))).forget();
    }
}
