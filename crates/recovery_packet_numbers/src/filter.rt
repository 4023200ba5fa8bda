//! The filter of packet numbers: the next one to skip, and the last one that was skipped.
ghost use Rattle.std.specs.Prelude.{◌≡◌, ◌+◌, ◌<◌, ◌≤◌, ◌^◌, None, Some, MatchResult, IfNone, OnSome};
ghost use Rattle.std.specs.Option.{SomeIff, ForSome};
ghost use Rattle.rand_core.specs.Stream.{Stream};
ghost use Rattle.recovery_base.specs.Units.{number_limit};
ghost use Rattle.recovery_packet_numbers.specs.Skips.{IsSkips, draw, first_skip_limit, first_exponent};
ghost use Rattle.recovery_packet_numbers.specs.Filters.{skipping_at, number_by, skipped, passed, IsFilterSound, AcksSkippedNumber, IsUnsentAcked};

use rand::RngExt;
use rand_core::Rng;
use recovery_base::below::{SpaceId, TransportError};
use std::marker::Model;
use std::ops::RangeInclusive;

/// The first skip is below 2 to this power, and each further one below twice the bound of the one before it.
const FIRST_EXPONENT: u32 = 6;

/// Packet numbers are below 2^62 (RFC 9000, 12.3).
const NUMBER_BOUND: u64 = 1 << 62;

/// How skips begin.
#[derive(Clone, Copy)]
pub enum Skips {
    /// The first skip is drawn from 0 to 63.
    Drawn,
    /// The first skip is this number, which is below 64.
    Starting(u64),
    /// No number is skipped.
    Disabled,
}

/// Decides which packet numbers a sender skips (RFC 9000, 21.4), and whether a peer acknowledges one that was skipped.
///
/// In contracts its value is the next skip, the last one, and the exponent of 2 from which the skip after the next one
/// is drawn.
///
/// ```
/// let mut rng = Pcg32::seed_from_u64(7);
/// let mut filter = PacketNumberFilter::starting(1);
/// assert!(&rt; filter.allocate(&mut rng, 0) == Some(0));
/// // Number 1 is skipped. A peer that acknowledges it acknowledges what it cannot have received.
/// assert!(&rt; filter.allocate(&mut rng, 1) == Some(2));
/// assert!(&rt; filter.check_ack(SpaceId::Data, 0..=2).is_err());
/// ```
#[derive(Clone, Copy)]
pub struct PacketNumberFilter {
    next_skipped_packet_number: Option<u64>,
    prev_skipped_packet_number: Option<u64>,
    /// The skip after the next one is drawn from 2 to this power up to below twice that.
    exponent: u32,
}

impl Model for PacketNumberFilter {
    ghost use Rattle.recovery_packet_numbers.specs.Filters.{Filter, IsFilterSound};

    ghost Value = { Filter };

    ghost use Rattle.recovery_packet_numbers.specs.FilterView.{filter_in, filter_back};

    ghost view = { filter_in };

    ghost invariant = { λ filter. IsFilterSound (filter_in filter) };

    ghost inverse = { filter_back };
}

/// Returns a number from `low` up to below `end`.
fn draw_between<R: Rng>(rng: &mut R, low: u64, end: u64) -> u64
    requires { low < end }
    ensures low { low ≤ result }
    ensures end { result < end }
    ensures drawn { (result, R.stream rng.new) ≡ draw low end (R.stream rng.old) }
{
    rng.random_range(low..end)
}

impl PacketNumberFilter {
    /// Returns a filter whose first skip is drawn from 0 to 63.
    pub fn new<R: Rng>(rng: &mut R) -> Self
        ensures { record { filter = result; words = R.stream rng.new }
            ≡ skipping_at Skips.Drawn (R.stream rng.old) 0 }
    {
        PacketNumberFilter::beginning(Some(draw_between(rng, 0, 1 << FIRST_EXPONENT)))
    }

    /// Returns a filter whose first skip is `next`, which is below 64.
    pub fn starting(next: u64) -> Self
        requires { next < first_skip_limit }
        ensures { (words : Stream) → record { filter = result; words = words }
            ≡ skipping_at (Skips.Starting next) words 0 }
    {
        PacketNumberFilter::beginning(Some(next))
    }

    /// Returns a filter that skips no number.
    pub fn disabled() -> Self
        ensures { (words : Stream) → record { filter = result; words = words }
            ≡ skipping_at Skips.Disabled words 0 }
    {
        PacketNumberFilter::beginning(None)
    }

    /// Returns the filter for these settings. A random word is drawn only for `Drawn`.
    pub fn with_skips<R: Rng>(skips: Skips, rng: &mut R) -> Self
        requires { IsSkips skips }
        ensures { record { filter = result; words = R.stream rng.new }
            ≡ skipping_at skips (R.stream rng.old) 0 }
    {
        match skips {
            Skips::Drawn => PacketNumberFilter::new(rng),
            Skips::Starting(next) => PacketNumberFilter::starting(next),
            Skips::Disabled => PacketNumberFilter::disabled(),
        }
    }

    /// Returns a filter before the first skip.
    fn beginning(skip: Option<u64>) -> Self
        requires { ForSome skip (λ s. s < first_skip_limit) }
        ensures { result ≡ record { skip = skip; last = None; exponent = first_exponent } }
    {
        PacketNumberFilter {
            next_skipped_packet_number: skip,
            prev_skipped_packet_number: None,
            exponent: FIRST_EXPONENT,
        }
    }

    /// Returns the number that is assigned next. `next` is one above the last one assigned, or 0 before the first. The
    /// result is `next`, or one more if `next` is to be skipped. If numbers have run out it is 2^62 or more.
    pub fn peek(&self, next: u64) -> u64
        ensures number { result ≡ number_by self.now next }
        ensures sound { IsFilterSound self.now }
    {
        match self.next_skipped_packet_number {
            Some(skip) if skip == next => next + 1,
            _ => next,
        }
    }

    /// Returns the number that was skipped last, if any.
    pub fn skipped(&self) -> Option<u64>
        ensures { result ≡ self.now.last }
    {
        self.prev_skipped_packet_number
    }

    /// Records that the number was skipped, and draws the next skip.
    #[tactic(auto, using(crate::proofs::DrawRangeLaws::powers))]
    fn pass<R: Rng>(&mut self, rng: &mut R, skip: u64)
        requires first { first_exponent ≤ self.old.exponent }
        requires last { self.old.exponent ≤ 62 }
        requires below { skip < 2 ^ self.old.exponent }
        ensures skipped { record { filter = self.new; words = R.stream rng.new }
            ≡ skipped skip (record { filter = self.old; words = R.stream rng.old }) }
        ensures sound { IsFilterSound self.new }
    {
        let low = (1u64 << self.exponent).max(skip + 2);
        let end = 1u64 << (self.exponent + 1);
        *self = PacketNumberFilter {
            next_skipped_packet_number: Some(draw_between(rng, low, end)),
            prev_skipped_packet_number: Some(skip),
            exponent: self.exponent + 1,
        };
    }

    /// Assigns the number that `peek` returns. `next` is one above the last one assigned, or 0 before the first. If a
    /// number was skipped, the next skip is drawn from `max(2^e, number + 1)..2^(e + 1)`. The exponent `e` is 6 at
    /// first and increases by one each time. So the number just assigned is never skipped.
    ///
    /// Returns `None` and changes nothing if `peek` returns 2^62 or more (RFC 9000, 12.3); no random word is drawn
    /// then.
    #[inline(always)]
    pub fn allocate<R: Rng>(&mut self, rng: &mut R, next: u64) -> Option<u64>
        ensures answer { SomeIff result (number_by self.old next < number_limit)
            (number_by self.old next) }
        ensures kept { IfNone result (self.new ≡ self.old) }
        ensures rng_kept { IfNone result (rng.new ≡ rng.old) }
        ensures passed { OnSome result (record { filter = self.new; words = R.stream rng.new }
            ≡ passed next (record { filter = self.old; words = R.stream rng.old })) }
        ensures sound { IsFilterSound self.new }
    {
        let number = self.peek(next);
        if number >= NUMBER_BOUND {
            return None;
        }
        if number != next {
            self.pass(rng, next);
        }
        Some(number)
    }

    /// Rejects an acknowledgement of the last number that was skipped: `PROTOCOL_VIOLATION` if the space is Application
    /// Data and the range has that number (RFC 9000, 13.1 and 21.4). Numbers skipped before it are not remembered.
    pub fn check_ack(
        &self,
        space: SpaceId,
        range: RangeInclusive<u64>,
    ) -> Result<(), TransportError>
        ensures { MatchResult result (λ _. ¬ AcksSkippedNumber space range self.now.last)
            (λ error. AcksSkippedNumber space range self.now.last × IsUnsentAcked error) }
    {
        let Some(skip) = self.prev_skipped_packet_number else {
            return Ok(());
        };
        if space == SpaceId::Data && range.contains(&skip) {
            return Err(TransportError::PROTOCOL_VIOLATION("unsent packet acked"));
        }
        Ok(())
    }
}
