//! A place for a stack, or none.
ghost use Rattle.std.specs.Prelude.{◌≡◌, Some, None};
ghost use Rattle.std.specs.declared.option.Option.{Option};
ghost use Rattle.recovery_stack.specs.declared.stack.Stack.{Stack};
ghost use Rattle.recovery_stack.specs.Held.{stack_owns, stack_coded, IsHeld};

use crate::parts::Parts;
use crate::stack::Stack;
use std::alloc::Global;
use std::marker::Model;
use std::mem::replace;
use std::ptr::null_mut;

/// A pointer that owns the contents of a box, or nothing.
#[repr(C)]
pub struct Slot {
    ptr: *mut u8,
    alloc: Global,
    pub ghost held: { Option Stack } by { stack_coded },
}

impl Model for Slot {
    ghost also_owns = { λ s. stack_owns s.alloc s.ptr s.held };
}

impl Slot {
    #[inline(always)]
    fn empty(alloc: Global) -> Slot
        ensures { result.held ≡ None }
    {
        Slot {
            ptr: null_mut(),
            alloc,
        }
    }

    #[inline(always)]
    fn forget(self)
        requires { self.held ≡ None }
    {
        let Slot { ptr: _, alloc: _ } = self;
    }

    #[inline(always)]
    fn of_parts(parts: Parts<Stack, Global>) -> Slot
        ensures { result.held ≡ Some parts.value }
    {
        let Parts { ptr, alloc } = parts;
        Slot {
            ptr: ptr as *mut u8,
            alloc,
        }
    }

    #[inline(always)]
    fn into_parts(self) -> Parts<Stack, Global>
        requires { IsHeld self.held }
        ensures { self.held ≡ Some result.value }
    {
        let Slot { ptr, alloc } = self;
        Parts {
            ptr: ptr as *mut Stack,
            alloc,
        }
    }

    #[inline(always)]
    fn swap(&mut self, empty: Slot) -> Slot
        requires { empty.held ≡ None }
        ensures old { result.held ≡ self.old.held }
        ensures new { self.new.held ≡ None }
    {
        replace(self, empty)
    }

    #[inline(always)]
    fn into_box(self) -> Box<Stack>
        requires { IsHeld self.held }
        ensures { self.held ≡ Some result.value }
    {
        let parts = self.into_parts();
        parts.into_box()
    }

    /// Takes the stack out of the slot; the slot then holds none.
    #[inline(always)]
    pub fn take(&mut self, alloc: Global) -> Box<Stack>
        requires { IsHeld self.old.held }
        ensures value { self.old.held ≡ Some result.value }
        ensures held { self.new.held ≡ None }
    {
        let full = self.swap(Slot::empty(alloc));
        full.into_box()
    }

    /// Stores a stack in a slot that holds none. Allocates nothing.
    #[inline(always)]
    pub fn put(&mut self, stack: Box<Stack>)
        requires { self.old.held ≡ None }
        ensures { self.new.held ≡ Some stack.value }
    {
        replace(self, Slot::of_parts(Parts::of(stack))).forget();
    }
}
