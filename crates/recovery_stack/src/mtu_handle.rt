//! The handle by which C holds an MTU discovery.
ghost use Rattle.std.specs.Prelude.{◌≡◌, Some, None, is_some, MatchOption, true};
ghost use Rattle.recovery_stack.specs.Discoveries.{DiscoveryAnswers, discovery_told, is_allowed, told_to, probe_spelled};
ghost use Rattle.recovery_stack.specs.Held.{HoldsIf};

use crate::mtu_slot::MtuSlot;
use recovery_base::below::SpaceId;
use recovery_base::time::Instant;
use recovery_engine::numbers::{
    ANSWER_ACKED, ANSWER_BLACK_HOLE, ANSWER_DONE, ANSWER_NO_PROBE, ANSWER_PROBE,
};
use recovery_engine::spelling::{EncodedReply, encode_flag};
use recovery_mtud::mtud::MtuDiscovery;
use std::alloc::Global;

/// The handle of an MTU discovery. It begins as all zeros, which holds none; from then on only the library changes it.
#[repr(C)]
pub struct MtuHandle {
    pub slot: MtuSlot,
    holds: bool,
    ghost tells: { holds ≡ is_some slot.held },
}

/// A call of a discovery.
#[derive(Clone, Copy)]
pub enum Call {
    /// Checks whether a probe is due. It would be the packet of this number.
    Poll { now: Instant, number: u64 },
    /// The peer accepts no larger packets.
    Limit { size: u16 },
    /// A packet was acknowledged.
    Acked { number: u64, bytes: u16 },
    /// The probe in flight was lost.
    ProbeLost,
    /// Another packet was lost.
    Lost { number: u64, bytes: u16 },
    /// All packets that were lost together were reported.
    LossesDone { now: Instant },
    /// Resets the discovery with these sizes.
    Reset { mtu: u16, min_mtu: u16 },
}

impl MtuHandle {
    /// Takes the discovery out of the handle, if any; the handle then holds none.
    #[inline(always)]
    pub fn take(&mut self, alloc: Global) -> Option<Box<MtuDiscovery>>
        ensures taken { MatchOption result (self.old.slot.held ≡ None)
            (λ discovery. self.old.slot.held ≡ Some discovery.value) }
        ensures none { self.new.slot.held ≡ None }
    {
        if !self.holds {
            return None;
        }
        self.holds = false;
        Some(self.slot.take(alloc))
    }

    /// Stores a discovery in a handle that holds none. Allocates nothing.
    #[inline(always)]
    pub fn put(&mut self, discovery: Box<MtuDiscovery>)
        requires { self.old.slot.held ≡ None }
        ensures { self.new.slot.held ≡ Some discovery.value }
    {
        self.slot.put(discovery);
        self.holds = true;
    }

    /// Frees the discovery, if any; the handle then holds none.
    pub fn free(&mut self, alloc: Global)
        ensures { self.new.slot.held ≡ None }
    {
        drop(self.take(alloc));
    }

    /// Returns whether the handle holds a discovery.
    pub fn holds(&self) -> bool
        ensures { result ≡ is_some self.now.slot.held }
    {
        self.holds
    }

    /// Stores a discovery. Returns false if allocation fails.
    pub fn make(&mut self, alloc: Global, discovery: MtuDiscovery) -> bool
        requires { self.old.slot.held ≡ None }
        ensures { HoldsIf result discovery self.new.slot.held }
    {
        match Box::new(alloc, discovery) {
            Ok(discovery) => {
                self.put(discovery);
                true
            }
            Err(_) => false,
        }
    }

    /// Makes a call; an error if no discovery is held, or if the call is not allowed then.
    pub fn call(&mut self, alloc: Global, call: Call) -> EncodedReply
        ensures { DiscoveryAnswers self.old.slot.held call result self.new.slot.held }
    {
        let Some(mut discovery) = self.take(alloc) else {
            return EncodedReply::no_recovery();
        };
        let reply = hand_in(&mut discovery, call);
        self.put(discovery);
        reply
    }
}

/// Returns whether a call is allowed: sizes are above zero, and the peer's limit is set while no search is running.
fn allows(discovery: &MtuDiscovery, call: &Call) -> bool
    ensures { result ≡ is_allowed call.now discovery.now }
{
    match call {
        Call::Limit { size } => *size > 0 && !discovery.is_searching(),
        Call::Reset { mtu, min_mtu } => *mtu > 0 && *min_mtu > 0,
        _ => true,
    }
}

/// Makes a call of the discovery that is held; an error if it is not allowed.
fn hand_in(discovery: &mut MtuDiscovery, call: Call) -> EncodedReply
    ensures { DiscoveryAnswers (Some discovery.old) call result (Some discovery.new) }
{
    if allows(discovery, &call) {
        answer(discovery, call)
    } else {
        EncodedReply::bad_argument()
    }
}

fn answer(discovery: &mut MtuDiscovery, call: Call) -> EncodedReply
    requires { is_allowed call discovery.old ≡ true }
    ensures told { result ≡ discovery_told call discovery.old }
    ensures after { discovery.new ≡ told_to call discovery.old }
{
    match call {
        Call::Poll { now, number } => spell_poll(discovery.poll_transmit(now, number), number),
        Call::Limit { size } => {
            discovery.on_peer_max_udp_payload_size_received(size);
            EncodedReply::plain(ANSWER_DONE)
        }
        Call::Acked { number, bytes } => {
            let probe = discovery.on_acked(SpaceId::Data, number, bytes);
            encode_flag(ANSWER_ACKED, probe)
        }
        Call::ProbeLost => {
            discovery.on_probe_lost();
            EncodedReply::plain(ANSWER_DONE)
        }
        Call::Lost { number, bytes } => {
            discovery.on_non_probe_lost(number, bytes);
            EncodedReply::plain(ANSWER_DONE)
        }
        Call::LossesDone { now } => {
            encode_flag(ANSWER_BLACK_HOLE, discovery.black_hole_detected(now))
        }
        Call::Reset { mtu, min_mtu } => {
            discovery.reset(mtu, min_mtu);
            EncodedReply::plain(ANSWER_DONE)
        }
    }
}

fn spell_poll(size: Option<u16>, number: u64) -> EncodedReply
    ensures { result ≡ probe_spelled size number }
{
    match size {
        Some(size) => EncodedReply {
            first: number,
            size,
            ..EncodedReply::plain(ANSWER_PROBE)
        },
        None => EncodedReply::plain(ANSWER_NO_PROBE),
    }
}
