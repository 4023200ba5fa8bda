//! The handle by which C holds a stack.
ghost use Rattle.std.specs.Prelude.{◌≡◌, ◌≤◌, Some, None, is_some, IfSome, MatchOption};
ghost use Rattle.std.specs.List.{All};
ghost use Rattle.recovery_base.specs.Ids.{longest_cid};
ghost use Rattle.recovery_engine.specs.Kept.{sends, PassesEvent};
ghost use Rattle.recovery_engine.specs.declared.sending.Call.TheVariants.{TakeAck};
ghost use Rattle.recovery_stack.specs.Answers.{AppliesToHeld, HandleApplies, IsBadArgument, IssuesIdsOrNoMemory};
ghost use Rattle.recovery_stack.specs.Held.{HoldsIf};
ghost use Rattle.recovery_stack.specs.SenderCalls.{CallsSender, AsksWith, ProbesHandle};

use crate::codes::{Id, are_ids, ids_of};
use crate::slot::Slot;
use crate::stack::Stack;
use recovery_base::below::SpaceId;
use recovery_base::time::Instant;
use recovery_engine::kept::ItemPacket;
use recovery_engine::sending::{AckRange, Call, TakenAck};
use recovery_engine::spelling::EncodedReply;
use recovery_events::event::Event;
use recovery_queue::items::ItemQueue;
use std::alloc::Global;

/// The handle of a recovery. It begins as all zeros, which holds none; from then on only the library changes it.
#[repr(C)]
pub struct Handle {
    pub slot: Slot,
    holds: bool,
    ghost tells: { holds ≡ is_some slot.held },
}

impl Handle {
    /// Takes the stack out of the handle, if any; the handle then holds none.
    #[inline(always)]
    pub fn take(&mut self, alloc: Global) -> Option<Box<Stack>>
        ensures taken { MatchOption result (self.old.slot.held ≡ None)
            (λ stack. self.old.slot.held ≡ Some stack.value) }
        ensures none { self.new.slot.held ≡ None }
    {
        if !self.holds {
            return None;
        }
        self.holds = false;
        Some(self.slot.take(alloc))
    }

    /// Stores a stack in a handle that holds none. Allocates nothing.
    #[inline(always)]
    pub fn put(&mut self, stack: Box<Stack>)
        requires { self.old.slot.held ≡ None }
        ensures { self.new.slot.held ≡ Some stack.value }
    {
        self.slot.put(stack);
        self.holds = true;
    }

    /// Frees the stack, if any; the handle then holds none.
    pub fn free(&mut self, alloc: Global)
        ensures { self.new.slot.held ≡ None }
    {
        drop(self.take(alloc));
    }

    /// Returns whether the handle holds a stack.
    pub fn holds(&self) -> bool
        ensures { result ≡ is_some self.now.slot.held }
    {
        self.holds
    }

    /// Applies an event; an error if no stack is held.
    #[inline(always)]
    pub fn apply(&mut self, alloc: Global, event: Event<ItemQueue>) -> EncodedReply
        ensures { HandleApplies self.old.slot.held event result self.new.slot.held }
    {
        if !self.holds {
            return EncodedReply::no_recovery();
        }
        let mut stack = self.slot.take(alloc);
        if stack.kept.is_passed(&event) {
            let passed = pass(&mut self.slot, stack, event);
            return passed.by_field();
        }
        let reply = stack.apply(event);
        self.slot.put(stack);
        reply
    }

    /// Records a sent packet: the event `Send`, without the match over all events; an error if no stack is held.
    #[inline(always)]
    pub fn send(&mut self, alloc: Global, packet: ItemPacket) -> EncodedReply
        ensures { HandleApplies self.old.slot.held (sends packet) result self.new.slot.held }
    {
        if !self.holds {
            return EncodedReply::no_recovery();
        }
        let mut stack = self.slot.take(alloc);
        let reply = stack.send(packet);
        self.slot.put(stack);
        reply.by_field()
    }

    /// Processes an ACK frame of a sender; an error if no stack is held.
    #[inline(always)]
    pub fn take_frame(
        &mut self,
        alloc: Global,
        frame: TakenAck,
        ranges: &[AckRange],
    ) -> EncodedReply
        ensures { AsksWith self.old.slot.held (TakeAck frame) ranges.now result self.new.slot.held }
    {
        if !self.holds {
            return EncodedReply::no_recovery();
        }
        let mut stack = self.slot.take(alloc);
        let reply = stack.take_ack(alloc, frame, ranges);
        self.slot.put(stack);
        reply.by_field()
    }

    /// Makes a call of a sender other than an ACK frame; an error if no stack is held. Inlined, so that no export has
    /// the code of another call.
    #[inline(always)]
    pub fn call_sender(&mut self, alloc: Global, call: Call) -> EncodedReply
        ensures { CallsSender self.old.slot.held call result self.new.slot.held }
    {
        if !self.holds {
            return EncodedReply::no_recovery();
        }
        let mut stack = self.slot.take(alloc);
        let reply = stack.call_sender(alloc, call, &[]);
        self.slot.put(stack);
        reply
    }

    /// Takes the contents of a sender's probe; an error if no stack is held.
    pub fn probe(&mut self, alloc: Global, space: SpaceId, immediate_ack: bool) -> EncodedReply
        ensures { ProbesHandle self.old.slot.held space immediate_ack result self.new.slot.held }
    {
        let Some(mut stack) = self.take(alloc) else {
            return EncodedReply::no_recovery();
        };
        let reply = stack.probe(space, immediate_ack);
        self.put(stack);
        reply
    }

    /// Stores a stack. Returns false if allocation fails.
    pub fn make(&mut self, alloc: Global, stack: Stack) -> bool
        requires { self.old.slot.held ≡ None }
        ensures { HoldsIf result stack self.new.slot.held }
    {
        match boxed(alloc, stack) {
            Some(stack) => {
                self.put(stack);
                true
            }
            None => false,
        }
    }

    /// Issues connection IDs of at most 20 bytes (RFC 9000, 5.1.1): the event `IssueIds`.
    pub fn issue_ids(&mut self, alloc: Global, now: u64, given: &[Id]) -> EncodedReply
        ensures short { All (λ id. id.len ≤ longest_cid) given.now
            → IssuesIdsOrNoMemory self.old.slot.held now given.now result self.new.slot.held }
        ensures long { ¬ All (λ id. id.len ≤ longest_cid) given.now
            → IsBadArgument self.old.slot.held result self.new.slot.held }
    {
        if !are_ids(given) {
            return EncodedReply::bad_argument();
        }
        match ids_of(alloc, given) {
            Ok(ids) => self.apply(
                alloc,
                Event::IssueIds {
                    now: Instant::from_nanos(now),
                    ids,
                },
            ),
            Err(_) => EncodedReply::no_memory(),
        }
    }
}

/// Applies an event that a sender passes, and stores the stack. It is out of line, so that an event of a bare recovery
/// needs no room for its reply.
#[inline(never)]
fn pass(slot: &mut Slot, stack: Box<Stack>, event: Event<ItemQueue>) -> EncodedReply
    requires empty { slot.old.held ≡ None }
    requires passes { PassesEvent stack.value.kept event }
    ensures { AppliesToHeld stack.value event result slot.new.held }
{
    let mut stack = stack;
    let reply = stack.pass(event);
    slot.put(stack);
    reply
}

/// Returns a value in a box, or nothing if allocation fails.
fn boxed<T: Drop>(alloc: Global, value: T) -> Option<Box<T>>
    ensures { IfSome result (λ held. held.value ≡ value) }
{
    Box::new(alloc, value).ok()
}
