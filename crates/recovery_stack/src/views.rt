//! What can be read of a recovery.
ghost use Rattle.std.specs.Prelude.{◌≡◌, Some, Decides, option_copied, slice_get};
ghost use Rattle.recovery_ids.specs.LocalIds.{first_moment};
ghost use Rattle.recovery_paths.specs.PathLog.{path_of};
ghost use Rattle.recovery_stack.specs.Codes.{path_coded};
ghost use Rattle.recovery_engine.specs.Kept.{parts_kept};
ghost use Rattle.recovery_stack.specs.Views.{path_shown, no_path, path_view, moment_shown, moment_named, ack_delay_named, ids_shown, no_ids, range_shown, ranges_in, no_space, space_named, IsSpaceShown};

use crate::codes::{nanos_shown, path_coded, space_coded, timer_coded};
use crate::stack::{ItemPath, ItemSpace, Stack};
use recovery_base::below::ResetToken;
use recovery_base::time::Instant;
use recovery_congestion::congestion::Controller;
use recovery_paths::path_pair::PathName;
use std::ops::Range;

/// The state of a path: times in nanoseconds, at most `u64::MAX`, and sizes in bytes.
#[repr(C)]
#[derive(Clone, Copy)]
pub struct PathView {
    /// How many bytes may be in flight (RFC 9002, 7).
    pub window: u64,
    /// The bytes in flight (RFC 9002, B.2).
    pub in_flight: u64,
    /// How many packets in flight are ack-eliciting.
    pub ack_eliciting: u64,
    /// The bytes of the datagrams transmitted.
    pub total_sent: u64,
    /// The bytes of the datagrams received.
    pub total_recvd: u64,
    /// The RTT estimate: the smoothed one, or the initial one before the first sample (RFC 9002, 5.3).
    pub rtt: u64,
    /// The larger of that estimate and the last sample, for loss detection (RFC 9002, 6.1.2).
    pub rtt_conservative: u64,
    /// The smallest sample (RFC 9002, 5.2).
    pub rtt_min: u64,
    /// The last sample, or the initial RTT before the first one (RFC 9002, 5.1).
    pub rtt_latest: u64,
    /// The mean deviation of the samples, or half of the initial RTT before the first one (RFC 9002, 5.3).
    pub rtt_variance: u64,
    /// The probe timeout without the peer's max_ack_delay (RFC 9002, 6.2.1).
    pub pto_base: u64,
    /// The most bytes that the pacer's bucket holds (RFC 9002, 7.7).
    pub pacer_capacity: u64,
    /// The bytes in that bucket after the last datagram or check, without those of the time since.
    pub pacer_tokens: u64,
    /// The slow start threshold, if any: `u64::MAX` before the first loss (RFC 9002, 7.3.1).
    pub ssthresh: u64,
    /// The MTU in use (RFC 9000, 14.3).
    pub mtu: u16,
    /// Whether there is a slow start threshold: a fixed window has none.
    pub has_ssthresh: bool,
    /// Whether there is such a path; if not, all else is 0.
    pub lives: bool,
    /// Whether the peer's address is validated (RFC 9000, 8).
    pub validated: bool,
}

/// What a packet number space has to send, and which of its packet numbers are to be acknowledged.
#[repr(C)]
#[derive(Clone, Copy)]
pub struct SpaceView {
    /// The largest packet number received; 0 before the first.
    pub largest_received: u64,
    /// How many ranges of packet numbers are to be acknowledged.
    pub ranges: u64,
    /// The number of the next packet, unless it is skipped.
    pub next_packet_number: u64,
    /// Whether the space is not discarded; if it is, all else is 0.
    pub lives: bool,
    /// Whether an ACK is required, and some packet number is to be acknowledged.
    pub acks: bool,
    /// Whether there is something else to send.
    pub other: bool,
}

/// A range of packet numbers.
#[repr(C)]
#[derive(Clone, Copy)]
pub struct RangeView {
    /// The first number.
    pub start: u64,
    /// One above the last number.
    pub end: u64,
    /// Whether there is such a range; if not, all else is 0.
    pub some: bool,
}

/// A time or a duration, if there is one.
#[repr(C)]
#[derive(Clone, Copy)]
pub struct TimeView {
    /// In nanoseconds.
    pub nanos: u64,
    /// Whether there is one; if not, all else is 0.
    pub some: bool,
}

/// The connection IDs of both endpoints, and their max_ack_delay.
#[repr(C)]
#[derive(Clone, Copy)]
pub struct IdsView {
    /// The sequence number of the peer's connection ID in use.
    pub active: u64,
    /// How many connection IDs the local endpoint has issued.
    pub issued: u64,
    /// The peer is asked to retire the local connection IDs below this sequence number.
    pub retire_prior_to: u64,
    /// The local max_ack_delay, in nanoseconds, at most `u64::MAX`.
    pub max_ack_delay: u64,
    /// The peer's max_ack_delay, in nanoseconds, at most `u64::MAX`.
    pub peer_max_ack_delay: u64,
}

fn show_path(path: &ItemPath) -> PathView
    ensures { result ≡ path_shown path.now }
{
    let in_flight = path.in_flight();
    let ssthresh = path.congestion.metrics().ssthresh;
    PathView {
        window: path.congestion.window(),
        in_flight: in_flight.bytes,
        ack_eliciting: in_flight.ack_eliciting,
        total_sent: path.total_sent,
        total_recvd: path.total_recvd,
        rtt: nanos_shown(path.rtt.get()),
        rtt_conservative: nanos_shown(path.rtt.conservative()),
        rtt_min: nanos_shown(path.rtt.min()),
        rtt_latest: nanos_shown(path.rtt.latest()),
        rtt_variance: nanos_shown(path.rtt.variance()),
        pto_base: nanos_shown(path.rtt.pto_base()),
        pacer_capacity: path.pacing.capacity(),
        pacer_tokens: path.pacing.tokens(),
        ssthresh: ssthresh.unwrap_or(0),
        mtu: path.current_mtu(),
        has_ssthresh: ssthresh.is_some(),
        lives: true,
        validated: path.validated,
    }
}

impl PathView {
    /// Returns the view if there is no such path.
    pub fn none() -> PathView
        ensures { result ≡ no_path }
    {
        PathView {
            window: 0,
            in_flight: 0,
            ack_eliciting: 0,
            total_sent: 0,
            total_recvd: 0,
            rtt: 0,
            rtt_conservative: 0,
            rtt_min: 0,
            rtt_latest: 0,
            rtt_variance: 0,
            pto_base: 0,
            pacer_capacity: 0,
            pacer_tokens: 0,
            ssthresh: 0,
            mtu: 0,
            has_ssthresh: false,
            lives: false,
            validated: false,
        }
    }
}

impl SpaceView {
    /// Returns the view if there is no such space, or it is discarded.
    pub fn none() -> SpaceView
        ensures { result ≡ no_space }
    {
        SpaceView {
            largest_received: 0,
            ranges: 0,
            next_packet_number: 0,
            lives: false,
            acks: false,
            other: false,
        }
    }
}

impl RangeView {
    /// Returns the view of a range, if there is one.
    pub fn of(range: Option<&Range<u64>>) -> RangeView
        ensures { result ≡ range_shown (option_copied range.entry) }
    {
        match range {
            Some(range) => RangeView {
                start: range.start,
                end: range.end,
                some: true,
            },
            None => RangeView {
                start: 0,
                end: 0,
                some: false,
            },
        }
    }
}

impl TimeView {
    /// Returns the view of a time, if there is one.
    pub fn of(nanos: Option<u64>) -> TimeView
        ensures { result ≡ moment_shown nanos }
    {
        match nanos {
            Some(nanos) => TimeView { nanos, some: true },
            None => TimeView {
                nanos: 0,
                some: false,
            },
        }
    }
}

impl IdsView {
    /// Returns the view if there is no recovery.
    pub fn none() -> IdsView
        ensures { result ≡ no_ids }
    {
        IdsView {
            active: 0,
            issued: 0,
            retire_prior_to: 0,
            max_ack_delay: 0,
            peer_max_ack_delay: 0,
        }
    }
}

fn show_space(space: &ItemSpace) -> SpaceView
    ensures { IsSpaceShown (Some space.now) result }
{
    let frames = space.can_send(&());
    SpaceView {
        largest_received: space.rx_packet,
        ranges: space.pending_acks.ranges().len() as u64,
        next_packet_number: space.next_packet_number(),
        lives: true,
        acks: frames.acks,
        other: frames.other,
    }
}

impl Stack {
    /// Returns the state of a path.
    pub fn path(&self, previous: bool) -> PathView
        ensures { let paths = (parts_kept self.now.kept).paths in
            result ≡ path_view (path_of (path_coded previous) paths) }
    {
        match path_coded(previous) {
            PathName::Current => show_path(self.recovery().current()),
            PathName::Previous => match self.recovery().previous() {
                Some(path) => show_path(path),
                None => PathView::none(),
            },
        }
    }

    /// Returns the space with a number, if there is one that is not discarded.
    pub fn named(&self, space: u8) -> Option<&ItemSpace>
        ensures { option_copied result
            ≡ space_named space (parts_kept self.now.kept) }
    {
        self.recovery().space(space_coded(space)?)
    }

    /// Returns what a space has to send.
    pub fn space(&self, space: u8) -> SpaceView
        ensures { let parts = parts_kept self.now.kept in
            IsSpaceShown (space_named space parts) result }
    {
        match self.named(space) {
            Some(space) => show_space(space),
            None => SpaceView::none(),
        }
    }

    /// Returns one of the ranges of packet numbers to be acknowledged in a space, in ascending order.
    pub fn range(&self, space: u8, index: usize) -> RangeView
        ensures { let kept = space_named space (parts_kept self.now.kept) in
            result ≡ range_shown (slice_get (ranges_in kept) index) }
    {
        match self.named(space) {
            Some(space) => RangeView::of(space.pending_acks.ranges().iter().as_slice().get(index)),
            None => RangeView::of(None),
        }
    }

    /// Returns how long ago the largest packet was received, for the ACK Delay of an ACK frame (RFC 9000, 13.2.5).
    pub fn ack_delay(&self, space: u8, now: Instant) -> TimeView
        ensures { result
            ≡ ack_delay_named space now (parts_kept self.now.kept) }
    {
        match self.named(space) {
            Some(space) => TimeView::of(Some(nanos_shown(space.pending_acks.ack_delay(now)))),
            None => TimeView::of(None),
        }
    }

    /// Returns when a timer expires.
    pub fn timer(&self, timer: u8) -> TimeView
        ensures { let timers = (parts_kept self.now.kept).timers in
            result ≡ moment_named timer timers }
    {
        let Some(timer) = timer_coded(timer) else {
            return TimeView::of(None);
        };
        match self.recovery().timers().get(timer) {
            Some(moment) => TimeView::of(Some(moment.as_nanos())),
            None => TimeView::of(None),
        }
    }

    /// Returns the connection IDs of both endpoints.
    pub fn ids(&self) -> IdsView
        ensures { result ≡ ids_shown (parts_kept self.now.kept) }
    {
        let recovery = self.recovery();
        IdsView {
            active: recovery.remote_ids().active_seq(),
            issued: recovery.local_ids().issued(),
            retire_prior_to: recovery.local_ids().retire_prior_to(),
            max_ack_delay: nanos_shown(recovery.ack_frequency().max_ack_delay),
            peer_max_ack_delay: nanos_shown(recovery.ack_frequency().peer_max_ack_delay),
        }
    }

    /// Returns when the oldest of the local connection IDs is to be retired, if they expire.
    pub fn next_id_timeout(&self) -> TimeView
        ensures { let ids = (parts_kept self.now.kept).local_ids in
            result ≡ moment_shown (first_moment ids.deadlines) }
    {
        match self.recovery().local_ids().next_timeout() {
            Some(moment) => TimeView::of(Some(moment.as_nanos())),
            None => TimeView::of(None),
        }
    }

    /// Returns the bytes of the token that was returned last.
    pub fn token_bytes(&self) -> [u8; 16]
        ensures { result ≡ self.now.token }
    {
        self.token.to_bytes()
    }

    /// Returns whether this is the token that was returned last.
    pub fn is_token(&self, token: &[u8; 16]) -> bool
        ensures { Decides result (self.now.token ≡ token.now) }
    {
        self.token == ResetToken::from(*token)
    }
}
