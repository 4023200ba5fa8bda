//! Received ACK frames (RFC 9000, 19.3).
ghost use Rattle.std.specs.Prelude.{◌≡◌};
ghost use Rattle.recovery_losses.specs.Frames.{are_ranges, is_apart, is_unsent, largest_of, received_at};

use recovery_base::below::EcnCounts;
use recovery_base::time::{Duration, Instant};

/// The fields of an ACK frame, except its ranges, and what the caller knows at its arrival.
#[derive(Clone, Copy)]
pub struct Ack {
    /// The ACK delay that the peer reports.
    pub delay: Duration,
    /// The ECN counts, if the frame has them.
    pub ecn: Option<EcnCounts>,
    /// Whether the sender had too little to send to fill its window (RFC 9002, 7.8).
    pub app_limited: bool,
    /// When the frame was received, if earlier than it is processed (RFC 9002, 5.3). A later time counts as the time
    /// at which it is processed.
    pub received: Option<Instant>,
}

impl Ack {
    /// Returns when the frame was received, if it is processed at `now`.
    #[inline(always)]
    pub fn received_at(&self, now: Instant) -> Instant
        ensures { result ≡ received_at self.now now }
    {
        match self.received {
            Some(received) => received.min(now),
            None => now,
        }
    }
}

/// Returns whether there is a range, none ends before it begins, and two neighbours have at least one number between
/// them (RFC 9000, 19.3.1).
#[inline(always)]
pub fn are_ranges(ranges: &[(u64, u64)]) -> bool
    ensures { result ≡ are_ranges ranges.now }
{
    let mut above: Option<u64> = None;
    for (first, last) in ranges {
        if *first > *last || !is_apart(*last, above) {
            return false;
        }
        above = Some(*first);
    }
    above.is_some()
}

/// Returns whether a range that ends at `last` has a gap to the one above it, if any.
fn is_apart(last: u64, above: Option<u64>) -> bool
    ensures { result ≡ is_apart last above }
{
    match above {
        Some(first) => last < first && first - last >= 2,
        None => true,
    }
}

/// Returns the largest number of the ranges, if any.
pub fn largest_of(ranges: &[(u64, u64)]) -> Option<u64>
    ensures { result ≡ largest_of ranges.now }
{
    match ranges {
        [(_, last), ..] => Some(*last),
        [] => None,
    }
}

/// Returns whether the largest number of a frame was not sent; `next` is the next number to be sent.
pub fn is_unsent(largest: Option<u64>, next: u64) -> bool
    ensures { result ≡ is_unsent largest next }
{
    match largest {
        Some(largest) => largest >= next,
        None => false,
    }
}
