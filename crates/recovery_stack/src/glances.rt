//! Readings that cost a few instructions, for a stack that reads more often than it changes. They read the path in use,
//! the connection ID in use, and the tracked packets of a space.
ghost use Rattle.std.specs.Prelude.{◌≡◌, false, Some, Decides};
ghost use Rattle.recovery_ids.specs.CidQueue.{active_of};
ghost use Rattle.recovery_stack.specs.Answers.{ReadsHandle};
ghost use Rattle.recovery_engine.specs.Controllers.{chosen_words};
ghost use Rattle.recovery_engine.specs.Kept.{parts_kept};
ghost use Rattle.recovery_paths.specs.PathStates.{IsRoomInPacer};
ghost use Rattle.recovery_stack.specs.Views.{space_named};
ghost use Rattle.recovery_stack.specs.Stats.{no_number, no_rtt, no_tracked, no_window, number_shown, items_at, pending_items_in, probe_items_in, rtt_shown, tracked_in, window_shown, HasInFlight, IsSmallestIn, ShowsSmallest};

use crate::codes::nanos_shown;
use crate::handle::Handle;
use crate::stack::{ItemSpace, Stack};
use recovery_base::time::Instant;
use recovery_congestion::congestion::Controller;
use recovery_queue::items::ItemQueue;
use recovery_queue::queue::RetransmitQueue;
use recovery_spaces::sent_packets::SentPackets;
use std::alloc::Global;

/// The congestion window of the path in use, in bytes.
#[repr(C)]
#[derive(Clone, Copy)]
pub struct WindowView {
    /// How many bytes may be in flight (RFC 9002, 7); 0 if there is no recovery.
    pub window: u64,
    /// How many bytes are in flight (RFC 9002, B.2).
    pub in_flight: u64,
}

/// The round-trip time of the path in use, in nanoseconds, at most `u64::MAX`.
#[repr(C)]
#[derive(Clone, Copy)]
pub struct RttView {
    /// The RTT estimate: the smoothed one, or the initial one before the first sample (RFC 9002, 5.3); 0 if there is no
    /// recovery.
    pub rtt: u64,
    /// The probe timeout without the peer's max_ack_delay (RFC 9002, 6.2.1).
    pub pto_base: u64,
}

/// The tracked packets of a packet number space.
#[repr(C)]
#[derive(Clone, Copy)]
pub struct TrackedView {
    /// How many packets; 0 if there is no such space, or if it is discarded.
    pub packets: u64,
    /// When a sender declares the next of them lost by its age, in nanoseconds (RFC 9002, 6.1.2 and A.3); 0 if there is
    /// no such time.
    pub loss_time: u64,
    /// Whether there is such a time.
    pub has_loss_time: bool,
}

/// A packet number, if there is one.
#[repr(C)]
#[derive(Clone, Copy)]
pub struct NumberView {
    /// The number; 0 if there is none.
    pub number: u64,
    /// Whether there is one.
    pub is_some: bool,
}

impl NumberView {
    fn of(number: Option<u64>) -> NumberView
        ensures { result ≡ number_shown number }
    {
        NumberView {
            number: number.unwrap_or(0),
            is_some: number.is_some(),
        }
    }
}

impl TrackedView {
    fn none() -> TrackedView
        ensures { result ≡ no_tracked }
    {
        TrackedView {
            packets: 0,
            loss_time: 0,
            has_loss_time: false,
        }
    }

    fn of(space: &ItemSpace) -> TrackedView
        ensures { result ≡ tracked_in (Some space.now) }
    {
        let packets = space.sent_packets.len() as u64;
        match space.loss_time {
            Some(time) => TrackedView {
                packets,
                loss_time: time.as_nanos(),
                has_loss_time: true,
            },
            None => TrackedView {
                packets,
                ..TrackedView::none()
            },
        }
    }
}

/// Returns how many items a packet has; 0 if it is not tracked.
fn items_at(packets: &SentPackets<ItemQueue>, number: u64) -> u64
    ensures { result ≡ items_at packets.now.packets number }
{
    match packets.get(number) {
        Some(packet) => packet.retransmits.items().len() as u64,
        None => 0,
    }
}

/// Returns how many items a probe in a space carries.
fn probe_items(space: &ItemSpace) -> u64
    ensures { result ≡ probe_items_in (Some space.now) }
{
    let waiting = space.pending.items().len() as u64;
    if !space.pending.is_empty(&()) {
        return waiting;
    }
    match space.sent_packets.filled(&()) {
        Some(number) => items_at(&space.sent_packets, number),
        None => waiting,
    }
}

impl Stack {
    fn window(&self) -> WindowView
        ensures { result ≡ window_shown (parts_kept self.now.kept).paths.current }
    {
        let path = self.recovery().current();
        WindowView {
            window: path.congestion.window(),
            in_flight: path.in_flight().bytes,
        }
    }

    fn rtt(&self) -> RttView
        ensures { result ≡ rtt_shown (parts_kept self.now.kept).paths.current }
    {
        let path = self.recovery().current();
        RttView {
            rtt: nanos_shown(path.rtt.get()),
            pto_base: nanos_shown(path.rtt.pto_base()),
        }
    }

    fn pacer_room(&self, now: Instant) -> u64
        ensures { IsRoomInPacer chosen_words now (parts_kept self.now.kept).paths.current.state
            result }
    {
        self.recovery().current().pacer_room(now)
    }

    fn active_id(&self) -> u64
        ensures { result ≡ active_of (parts_kept self.now.kept).remote_cids }
    {
        self.recovery().remote_ids().active_seq()
    }

    fn has_in_flight(&self, space: u8) -> bool
        ensures { Decides result (HasInFlight (space_named space (parts_kept self.now.kept))) }
    {
        match self.named(space) {
            Some(space) => space.sent_packets.has_size(),
            None => false,
        }
    }

    fn smallest_tracked(&self, space: u8) -> Option<u64>
        ensures { IsSmallestIn (space_named space (parts_kept self.now.kept)) result }
    {
        let space = self.named(space)?;
        let (number, _) = space.sent_packets.tracked_from(0)?;
        Some(number)
    }

    fn pending_items(&self, space: u8) -> u64
        ensures { result ≡ pending_items_in (space_named space (parts_kept self.now.kept)) }
    {
        match self.named(space) {
            Some(space) => space.pending.items().len() as u64,
            None => 0,
        }
    }

    fn probe_items(&self, space: u8) -> u64
        ensures { result ≡ probe_items_in (space_named space (parts_kept self.now.kept)) }
    {
        match self.named(space) {
            Some(space) => probe_items(space),
            None => 0,
        }
    }

    fn tracked(&self, space: u8) -> TrackedView
        ensures { result ≡ tracked_in (space_named space (parts_kept self.now.kept)) }
    {
        match self.named(space) {
            Some(space) => TrackedView::of(space),
            None => TrackedView::none(),
        }
    }
}

impl Handle {
    /// Returns the window and the bytes in flight of the path in use.
    pub fn window(&mut self, alloc: Global) -> WindowView
        ensures { ReadsHandle self.old.slot.held self.new.slot.held (λ stack.
            result ≡ window_shown (parts_kept stack.kept).paths.current) (result ≡ no_window) }
    {
        let Some(stack) = self.take(alloc) else {
            return WindowView {
                window: 0,
                in_flight: 0,
            };
        };
        let view = stack.window();
        self.put(stack);
        view
    }

    /// Returns how many bytes the pacer permits now on the path in use; 0 if there is no recovery.
    pub fn pacer_room(&mut self, alloc: Global, now: Instant) -> u64
        ensures { ReadsHandle self.old.slot.held self.new.slot.held (λ stack.
            IsRoomInPacer chosen_words now (parts_kept stack.kept).paths.current.state result)
            (result ≡ 0) }
    {
        let Some(stack) = self.take(alloc) else {
            return 0;
        };
        let room = stack.pacer_room(now);
        self.put(stack);
        room
    }

    /// Returns the round-trip time of the path in use.
    pub fn rtt(&mut self, alloc: Global) -> RttView
        ensures { ReadsHandle self.old.slot.held self.new.slot.held (λ stack.
            result ≡ rtt_shown (parts_kept stack.kept).paths.current) (result ≡ no_rtt) }
    {
        let Some(stack) = self.take(alloc) else {
            return RttView {
                rtt: 0,
                pto_base: 0,
            };
        };
        let view = stack.rtt();
        self.put(stack);
        view
    }

    /// Returns the sequence number of the peer's connection ID in use (RFC 9000, 5.1.1); 0 if there is no recovery.
    pub fn active_id(&mut self, alloc: Global) -> u64
        ensures { ReadsHandle self.old.slot.held self.new.slot.held (λ stack.
            result ≡ active_of (parts_kept stack.kept).remote_cids) (result ≡ 0) }
    {
        let Some(stack) = self.take(alloc) else {
            return 0;
        };
        let active = stack.active_id();
        self.put(stack);
        active
    }

    /// Returns whether a space tracks a packet that counts in flight (RFC 9002, 2), on any path.
    pub fn has_in_flight(&mut self, alloc: Global, space: u8) -> bool
        ensures { ReadsHandle self.old.slot.held self.new.slot.held (λ stack.
            Decides result (HasInFlight (space_named space (parts_kept stack.kept))))
            (result ≡ false) }
    {
        let Some(stack) = self.take(alloc) else {
            return false;
        };
        let has = stack.has_in_flight(space);
        self.put(stack);
        has
    }

    /// Returns the smallest packet number that a space tracks; none if there is no such space, or if it is discarded.
    pub fn smallest_tracked(&mut self, alloc: Global, space: u8) -> NumberView
        ensures { ReadsHandle self.old.slot.held self.new.slot.held (λ stack.
            ShowsSmallest (space_named space (parts_kept stack.kept)) result)
            (result ≡ no_number) }
    {
        let Some(stack) = self.take(alloc) else {
            return NumberView::of(None);
        };
        let number = stack.smallest_tracked(space);
        self.put(stack);
        NumberView::of(number)
    }

    /// Returns how many items wait for retransmission in a space; 0 if there is no such space, or if it is discarded.
    pub fn pending_items(&mut self, alloc: Global, space: u8) -> u64
        ensures { ReadsHandle self.old.slot.held self.new.slot.held (λ stack.
            result ≡ pending_items_in (space_named space (parts_kept stack.kept))) (result ≡ 0) }
    {
        let Some(stack) = self.take(alloc) else {
            return 0;
        };
        let items = stack.pending_items(space);
        self.put(stack);
        items
    }

    /// Returns how many items a probe in a space would carry; 0 if there is no such space, or if it is discarded.
    pub fn probe_items(&mut self, alloc: Global, space: u8) -> u64
        ensures { ReadsHandle self.old.slot.held self.new.slot.held (λ stack.
            result ≡ probe_items_in (space_named space (parts_kept stack.kept))) (result ≡ 0) }
    {
        let Some(stack) = self.take(alloc) else {
            return 0;
        };
        let items = stack.probe_items(space);
        self.put(stack);
        items
    }

    /// Returns how many packets a space tracks, and when the next is lost.
    pub fn tracked(&mut self, alloc: Global, space: u8) -> TrackedView
        ensures { ReadsHandle self.old.slot.held self.new.slot.held (λ stack.
            result ≡ tracked_in (space_named space (parts_kept stack.kept))) (result ≡ no_tracked) }
    {
        let Some(stack) = self.take(alloc) else {
            return TrackedView::none();
        };
        let view = stack.tracked(space);
        self.put(stack);
        view
    }
}
