//! What arrives at an endpoint, when an ACK is due, and its frame: the numbers that loss recovery has pending, and the
//! counts of marks (RFC 9000, 13.2, 13.4.1 and 19.3).
ghost use Rattle.std.specs.Prelude.{◌≡◌, ◌+◌, ◌↔◌, ◌∷◌, ℕ, [], IfOk, List, Some, if◌then◌else◌, min};
ghost use Rattle.recovery_base.specs.Ranges.{InRanges};
ghost use Rattle.recovery_base.specs.Units.{last_time};
ghost use Rattle.recovery_acks.specs.Acks.{IsPending, delay_at};
ghost use Rattle.recovery_network.specs.AckFrames.{AreCounts, AreMarksOf, IsFrameFrom, IsInAck};
ghost use Rattle.recovery_network.specs.declared.ack.Arrival.{Arrival};

use crate::bottleneck::QueuedPacket;
use recovery_acks::PendingAcks;
use recovery_base::below::{ArrayRangeSet, EcnCounts};
use recovery_base::time::{Duration, Instant};
use std::alloc::{AllocError, Global};

/// A packet that arrives.
#[derive(Clone, Copy)]
pub struct Arrival {
    pub packet: QueuedPacket,
    /// Whether the queue marked it (RFC 3168).
    pub is_marked: bool,
}

/// An ACK frame.
#[derive(Clone, Drop)]
pub struct Frame {
    /// The ACK delay, in nanoseconds.
    pub delay: u64,
    /// The first and last number of each of its ranges, the highest range first.
    pub ranges: Vec<(u64, u64)>,
    /// How many packets were received with each mark, if packets are marked (RFC 9000, 19.3.2).
    pub ecn: Option<EcnCounts>,
}

/// The ACK frame of a packet.
#[derive(Clone, Drop)]
pub struct AckPacket {
    /// The number of the packet.
    pub number: u64,
    pub frame: Frame,
}

/// How many packets were received that may be marked, and how many of them are (RFC 3168).
#[derive(Clone, Copy)]
pub struct EcnMarks {
    unmarked: u64,
    marked: u64,
}

impl EcnMarks {
    /// Returns the counts before any packet.
    pub fn new() -> Self
        ensures { AreMarksOf [] result }
    {
        EcnMarks {
            unmarked: 0,
            marked: 0,
        }
    }

    /// Counts a packet.
    pub fn count(&mut self, arrival: Arrival)
        ensures { (received : List Arrival) → AreMarksOf received self.old
            → AreMarksOf (arrival ∷ received) self.new }
    {
        self.marked = self.marked.saturating_add(u64::from(arrival.is_marked));
        let is_unmarked = arrival.packet.is_ect && !arrival.is_marked;
        self.unmarked = self.unmarked.saturating_add(u64::from(is_unmarked));
    }

    /// Returns the counts of an ACK frame, if any packet could be marked.
    pub fn counts(&self) -> Option<EcnCounts>
        ensures { (received : List Arrival) → AreMarksOf received self.now
            → AreCounts received result }
    {
        if self.marked == 0 && self.unmarked == 0 {
            return None;
        }
        Some(EcnCounts {
            ect0: self.unmarked,
            ect1: 0,
            ce: self.marked,
        })
    }
}

/// Returns when an ACK is due after a packet was received (RFC 9000, 13.2.1): at once if one is required, or after this
/// delay if the ACK delay timer starts, else as before.
pub fn due_after(
    due: Option<u64>,
    is_required: bool,
    starts: bool,
    now: u64,
    delay: Duration,
) -> Option<u64>
    ensures { result ≡ (if is_required then Some now
        else if starts then Some (min last_time (now + delay)) else due) }
{
    if is_required {
        Some(now)
    } else if starts {
        Some((Instant::from_nanos(now) + delay).as_nanos())
    } else {
        due
    }
}

/// Returns the ACK frame of all numbers that are pending.
pub fn frame_from(
    alloc: Global,
    acks: &PendingAcks,
    marks: &EcnMarks,
    now: u64,
) -> Result<Frame, AllocError>
    ensures { IfOk result (IsFrameFrom now acks.now marks.now) }
{
    let ranges = ranges_of(alloc, acks.ranges())?;
    Ok(Frame {
        delay: delay_of(acks, now),
        ranges,
        ecn: marks.counts(),
    })
}

/// Returns how long ago the largest number was received (RFC 9000, 13.2.5).
fn delay_of(acks: &PendingAcks, now: u64) -> u64
    ensures { result ≡ delay_at now acks.now.counts.largest }
{
    let delay = acks.ack_delay(Instant::from_nanos(now));
    u64::try_from(delay.as_nanos()).unwrap_or(now)
}

/// Returns the first and last number of each range, the highest range first.
fn ranges_of(alloc: Global, pending: &ArrayRangeSet) -> Result<Vec<(u64, u64)>, AllocError>
    ensures { IfOk result
        (λ ranges. (n : ℕ) → IsInAck n ranges.items ↔ InRanges pending.now n) }
{
    let all = pending.iter().as_slice();
    let mut ranges = Vec::new(alloc);
    let mut at = all.len();
    while at > 0 {
        at -= 1;
        if let Some(last) = all[at].end.checked_sub(1) {
            ranges.push((all[at].start, last))?;
        }
    }
    Ok(ranges)
}
