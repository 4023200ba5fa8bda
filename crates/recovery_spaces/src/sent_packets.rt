//! The packets that a packet number space tracks (RFC 9002, A.1), by number.
ghost use Rattle.std.specs.Prelude.{◌≡◌, Decides, ◌<◌, ◌≤◌, [], ◌∷◌, None, Some, IfSome, IfOk, OnOk, OnErr, IfNone, MatchOption, length, filter};
ghost use Rattle.std.specs.Option.{is_some, option_copied};
ghost use Rattle.recovery_base.specs.Units.{u64_limit};
ghost use Rattle.recovery_spaces.specs.Packets.{Tracking, no_packets, packet_at, AreBelow, IsAboveLast, HasSize, HasEliciting, first_from, most_silent, is_above, least_number, silent_in, forgotten_number, forgotten_entry, after_sending, after_taking, after_carrying, contents_or};
ghost use Rattle.recovery_queue.specs.Queues.{IsVoid};
ghost use Rattle.recovery_queue.specs.Slots.{entries_in, is_below, is_from, AreFrom};
ghost use Rattle.recovery_spaces.specs.Places.{HasSlots, FindsPacket};
ghost use Rattle.recovery_spaces.specs.Probes.{first_filled};
ghost use Rattle.recovery_spaces.specs.Counts.{silent_count, size_count, elicits_count, AreAboveFrom, AreVoidBelow};

use crate::spaces::SentPacket;
use recovery_base::below::NoMemory;
use recovery_queue::queue::RetransmitQueue;
use recovery_queue::slots::{Exchange, SlotQueue};
use std::alloc::Global;
use std::marker::Model;
use std::mem;

/// How many non-ack-eliciting packets (RFC 9002, 2) are tracked after the last ack-eliciting one. A peer need not
/// acknowledge them (RFC 9000, 13.2.1), so without a limit they would be stored forever. quinn-proto stores 1000 and
/// the newest.
pub const MAX_SILENT: u64 = 1001;

/// Tracked packets in the order of their numbers, with counts over all of them.
///
/// The search for the first non-ack-eliciting packet after the last ack-eliciting one starts at `silent_from`: none is
/// below it, so each emptied slot is passed over once. The search for packets with contents starts at `filled_from`.
/// Those below it have no contents, whatever streams the test is passed, so each is passed over once.
///
/// ```
/// let mut packets = SentPackets::new(rt.alloc());
/// let packet = SentPacket {
///     path_generation: 0,
///     time_sent: Instant::from_nanos(0),
///     size: 1200,
///     ack_eliciting: true,
///     largest_acked: None,
///     retransmits: ItemQueue::empty(rt.alloc()),
///     stream_frames: (),
/// };
/// assert!(&rt; packets.insert(0, packet).is_ok());
/// assert!(&rt; packets.get(0).map_or(0, |it| it.size) == 1200);
/// // An acknowledged or lost packet is removed.
/// assert!(&rt; packets.remove(0).is_some());
/// assert!(&rt; packets.len() == 0);
/// ```
#[derive(Drop)]
pub struct SentPackets<Q: RetransmitQueue> {
    packets: SlotQueue<SentPacket<Q>>,
    last_eliciting: Option<u64>,
    silent: u64,
    sized: u64,
    eliciting: u64,
    silent_from: u64,
    filled_from: u64,
}

impl<Q: RetransmitQueue> Model for SentPackets<Q> {
    ghost use Rattle.recovery_queue.specs.Slots.{entries_in};
    ghost use Rattle.recovery_spaces.specs.Packets.{Tracking};
    ghost use Rattle.recovery_spaces.specs.Counts.{AreTracked};

    ghost Value = { Tracking Q.Contents Q.Meta };

    ghost view = { λ a.
        record { packets = entries_in a.packets; last_eliciting = a.last_eliciting } };

    ghost invariant = { λ a.
        AreTracked Q.words a.packets a.last_eliciting
        a.silent a.sized a.eliciting a.silent_from a.filled_from };
}

impl<Q> SentPackets<Q>
where
    Q: RetransmitQueue,
{
    /// Returns the state in which no packet was sent. It allocates nothing before the first packet.
    pub fn new(alloc: Global) -> Self
        ensures { result ≡ no_packets }
    {
        SentPackets {
            packets: SlotQueue::new(alloc),
            last_eliciting: None,
            silent: 0,
            sized: 0,
            eliciting: 0,
            silent_from: 0,
            filled_from: 0,
        }
    }

    /// Returns how many slots the packets use. A removed packet leaves its slot empty. At most 64 slots more than there
    /// are packets are empty: beyond that they are closed up in place. Constant cost.
    pub fn slots(&self) -> usize
        ensures { HasSlots self.now.packets result }
    {
        self.packets.len()
    }

    /// Returns how many packets are tracked. Their numbers fit 64 bits. Constant cost.
    pub fn len(&self) -> usize
        ensures count { result ≡ length self.now.packets }
        ensures small { AreBelow self.now.packets u64_limit }
    {
        self.packets.filled()
    }

    /// Returns the position of a packet among the slots, `None` if it is not tracked, and how many slots were read.
    /// These are at most as many as the count of slots has binary digits.
    pub fn find(&self, number: u64) -> (Option<usize>, u32)
        ensures { FindsPacket self.now.packets number result }
    {
        self.packets.find(number)
    }

    /// Returns the tracked packet of a number. Cost: that of `find`.
    #[inline(always)]
    pub fn get(&self, number: u64) -> Option<&SentPacket<Q>>
        ensures { option_copied result ≡ packet_at self.now.packets number }
    {
        self.packets.item_of(number)
    }

    /// Returns the number of the last ack-eliciting packet sent, tracked or not.
    pub fn last_eliciting(&self) -> Option<u64>
        ensures { result ≡ self.now.last_eliciting }
    {
        self.last_eliciting
    }

    /// Returns the number that is forgotten when this packet is sent.
    #[inline(always)]
    fn forgotten(&self, packet: &SentPacket<Q>) -> Option<u64>
        ensures number { result
            ≡ forgotten_number self.now.last_eliciting packet.now self.now.packets }
        ensures least { IfSome result
            (λ least. AreAboveFrom self.now.last_eliciting least self.now.packets) }
    {
        if packet.ack_eliciting || self.silent < MAX_SILENT {
            return None;
        }
        first_silent(&self.packets, self.last_eliciting, self.silent_from)
    }

    /// Tracks a packet under a number above all that were sent. If it is non-ack-eliciting (RFC 9002, 2) and 1001 such
    /// packets are tracked after the last ack-eliciting one, the smallest of these is forgotten and returned with its
    /// number. `NoMemory`, which occurs only if a slot could not be allocated, drops the packet and changes nothing
    /// else. Cost: amortized constant, plus that of `remove` for a forgotten packet.
    #[inline(always)]
    pub fn insert(
        &mut self,
        number: u64,
        packet: SentPacket<Q>,
    ) -> Result<Option<(u64, SentPacket<Q>)>, NoMemory>
        requires above { AreBelow self.old.packets number }
        requires above_last { IsAboveLast self.old.last_eliciting number }
        ensures ok { OnOk result (self.new ≡ after_sending number packet self.old) }
        ensures forgotten { IfOk result (λ gone. gone ≡ forgotten_entry packet self.old) }
        ensures bound { length (silent_in self.new) ≤ most_silent }
        ensures err { OnErr result (self.new ≡ self.old) }
    {
        let least = self.forgotten(&packet);
        let is_eliciting = packet.ack_eliciting;
        let count = size_count(&packet);
        // For the prover: reading one count bounds the others, which are not larger.
        let _filled = self.packets.filled();
        self.packets.push(number, packet)?;
        self.sized += count;
        self.filled_from = self.filled_from.min(number);
        if is_eliciting {
            self.last_eliciting = Some(number);
            self.eliciting += 1;
            self.silent = 0;
            return Ok(None);
        }
        let Some(least) = least else {
            self.silent += 1;
            self.silent_from = self.silent_from.min(number);
            return Ok(None);
        };
        let Some(gone) = self.packets.take(least) else {
            unreachable!();
        };
        self.silent_from = least;
        self.sized -= size_count(&gone);
        Ok(Some((least, gone)))
    }

    /// Removes and returns the packet of a number. Returns `None` and changes nothing if it is not tracked. Does not
    /// allocate. Cost: that of `find`, plus an amortized constant: empty slots are closed up once there are over 64
    /// more than packets. By then the packets removed since the last time are half the slots scanned, or more.
    #[inline(always)]
    pub fn remove(&mut self, number: u64) -> Option<SentPacket<Q>>
        ensures value { result ≡ packet_at self.old.packets number }
        ensures after { self.new ≡ after_taking number self.old }
        ensures none { IfNone result (self.new ≡ self.old) }
    {
        let packet = self.packets.take(number)?;
        self.silent -= silent_count(self.last_eliciting, number, &packet);
        self.sized -= size_count(&packet);
        self.eliciting -= elicits_count(&packet);
        Some(packet)
    }

    /// Removes and returns the packet with the smallest number. Returns `None` and changes nothing if none is tracked.
    /// Cost: as `remove`.
    pub fn pop_first(&mut self) -> Option<(u64, SentPacket<Q>)>
        ensures packets { MatchOption result (self.old.packets ≡ [])
            (λ entry. self.old.packets ≡ entry ∷ self.new.packets) }
        ensures none { IfNone result (self.new ≡ self.old) }
        ensures last { self.new.last_eliciting ≡ self.old.last_eliciting }
    {
        let (number, packet) = self.packets.pop_first()?;
        self.silent -= silent_count(self.last_eliciting, number, &packet);
        self.sized -= size_count(&packet);
        self.eliciting -= elicits_count(&packet);
        Some((number, packet))
    }

    /// Exchanges the queue of a tracked packet for another. Returns false and changes nothing if the packet is not
    /// tracked.
    pub fn swap_queue(&mut self, number: u64, queue: &mut Q) -> bool
        ensures found { result ≡ is_some (packet_at self.old.packets number) }
        ensures after { self.new ≡ after_carrying number (Q.contents queue.old) self.old }
        ensures queue { Q.contents queue.new
            ≡ contents_or (Q.contents queue.old) (packet_at self.old.packets number) }
    {
        let from = filled_with(self.filled_from, number, queue);
        if !self.packets.exchange(number, queue) {
            return false;
        }
        self.filled_from = from;
        true
    }

    /// Returns the smallest number of a packet whose queue has something to send. Cost: logarithmic in the packets
    /// tracked, plus those that are passed over: a packet that is known to have nothing is passed over once.
    pub fn first_filled(&mut self, streams: &Q::Streams) -> Option<u64>
        ensures number { result ≡ first_filled Q.words streams.now self.old.packets }
        ensures unchanged { self.new ≡ self.old }
    {
        let (found, from) = first_filled(&self.packets, self.filled_from, streams);
        self.filled_from = from;
        found
    }

    /// Returns what `first_filled` returns, and changes nothing, at its cost. What it passes over is not remembered.
    pub fn filled(&self, streams: &Q::Streams) -> Option<u64>
        ensures { result ≡ first_filled Q.words streams.now self.now.packets }
    {
        first_filled(&self.packets, self.filled_from, streams).0
    }

    /// Returns the first tracked packet at or above a number, with its number, so that callers can iterate over the
    /// packets in increasing order (RFC 9002, 6.1). Cost: that of `find`, plus the empty slots from the number to that
    /// packet, or to the last slot. `tracked_between` stops at an end.
    pub fn tracked_from(&self, number: u64) -> Option<(u64, &SentPacket<Q>)>
        ensures first { MatchOption result (first_from number self.now.packets ≡ None)
            (λ found. first_from number self.now.packets ≡ Some (found.0, found.1.now)) }
        ensures lowest { IfSome result
            (λ found. AreFrom found.0 (filter (is_from number) self.now.packets)) }
    {
        self.packets.entry_from(number)
    }

    /// Returns the first tracked packet at or above a number and below an end, with its number. Cost: that of `find`,
    /// plus the slots between the two numbers.
    #[inline(always)]
    pub fn tracked_between(&self, from: u64, end: u64) -> Option<(u64, &SentPacket<Q>)>
        ensures none { IfNone result (AreFrom end (filter (is_from from) self.now.packets)) }
        ensures first { IfSome result (λ found. (found.0 < end)
            × (first_from from self.now.packets ≡ Some (found.0, found.1.now))) }
        ensures lowest { IfSome result
            (λ found. AreFrom found.0 (filter (is_from from) self.now.packets)) }
    {
        self.packets.entry_between(from, end).0
    }

    /// Returns an upper bound on how many packets with smaller numbers are tracked. It is at most the count of all
    /// tracked packets. Cost: that of `find`.
    #[inline(always)]
    pub fn count_below(&self, number: u64) -> usize
        ensures enough { length (filter (is_below number) self.now.packets) ≤ result }
        ensures most { result ≤ length self.now.packets }
    {
        self.packets.filled_below(number)
    }

    /// Returns whether some tracked packet is ack-eliciting (RFC 9002, 2). Constant cost.
    pub fn has_ack_eliciting(&self) -> bool
        ensures { Decides result (HasEliciting self.now.packets) }
    {
        self.eliciting != 0
    }

    /// Returns whether some tracked packet has a size other than 0. Constant cost.
    pub fn has_size(&self) -> bool
        ensures { Decides result (HasSize self.now.packets) }
    {
        self.sized != 0
    }
}

/// Its queue is the part of a packet that is exchanged.
impl<Q: RetransmitQueue> Exchange<Q> for SentPacket<Q> {
    ghost use Rattle.recovery_spaces.specs.Packets.{ExchangesContents};

    ghost exchanged = { ExchangesContents Q.contents };

    #[inline(always)]
    fn exchange(&mut self, queue: &mut Q) {
        mem::swap(&mut self.retransmits, queue);
    }
}

/// Returns 1 for a packet with a size, else 0.
fn size_count<Q: RetransmitQueue>(packet: &SentPacket<Q>) -> u64
    ensures { result ≡ size_count packet.now }
{
    if packet.size == 0 { 0 } else { 1 }
}

/// Returns 1 for an ack-eliciting packet, else 0.
fn elicits_count<Q: RetransmitQueue>(packet: &SentPacket<Q>) -> u64
    ensures { result ≡ elicits_count packet.now }
{
    if packet.ack_eliciting { 1 } else { 0 }
}

/// Returns 1 for a non-ack-eliciting packet with a number above `last`, or any number if that is `None`, else 0.
fn silent_count<Q: RetransmitQueue>(last: Option<u64>, number: u64, packet: &SentPacket<Q>) -> u64
    ensures { result ≡ silent_count last (number, packet.now) }
{
    let is_above = match last {
        Some(last) => last < number,
        None => true,
    };
    if is_above && !packet.ack_eliciting {
        1
    } else {
        0
    }
}

/// Returns the smallest number above another, or of all if there is no other. None of those is below `from`.
fn first_silent<Q>(packets: &SlotQueue<SentPacket<Q>>, last: Option<u64>, from: u64) -> Option<u64>
where
    Q: RetransmitQueue,
    requires found { AreAboveFrom last from (entries_in packets.now) }
    requires small { AreBelow (entries_in packets.now) u64_limit }
    ensures first { result
        ≡ least_number (filter (λ entry. is_above last entry.0) (entries_in packets.now)) }
    ensures least { IfSome result (λ least. AreAboveFrom last least (entries_in packets.now)) }
{
    match last {
        Some(last) => packets.first_from(last.checked_add(1)?.max(from)),
        None => packets.first_from(from),
    }
}

/// Returns a number below which no packet has contents, once the packet of a number has these.
fn filled_with<Q: RetransmitQueue>(from: u64, number: u64, queue: &Q) -> u64
    ensures below { result ≤ from }
    ensures void { number < result → IsVoid Q.words (Q.contents queue.now) }
{
    if queue.is_void() {
        from
    } else {
        from.min(number)
    }
}

/// Returns the smallest number of a packet whose queue has something to send, and a number below which no packet has
/// contents, whatever streams the test is passed. None has any below `from`.
fn first_filled<Q>(
    packets: &SlotQueue<SentPacket<Q>>,
    mut from: u64,
    streams: &Q::Streams,
) -> (Option<u64>, u64)
where
    Q: RetransmitQueue,
    requires { AreVoidBelow Q.words from (entries_in packets.now) }
    ensures number { result.0 ≡ first_filled Q.words streams.now (entries_in packets.now) }
    ensures void { AreVoidBelow Q.words result.1 (entries_in packets.now) }
{
    let mut are_void = true;
    for place in packets.place_from(from)..packets.len() {
        let Some((number, packet)) = packets.get(place) else {
            continue;
        };
        if are_void {
            from = number;
            are_void = packet.retransmits.is_void();
        }
        if !packet.retransmits.is_empty(streams) {
            return (Some(number), from);
        }
    }
    (None, from)
}
