//! Congestion controllers and their factories, with their laws (RFC 9002, 7).
ghost use Rattle.std.specs.Prelude.{◌≡◌, ℕ, ◌<◌, ◌≤◌, IfOk};
ghost use Rattle.recovery_congestion.specs.Calls.{sends, acks, ends_acks, congests, takes_mtu};
ghost use Rattle.recovery_congestion.specs.Controllers.{ControllerSemantics, ControllerLaws};

use crate::rtt::RttEstimator;
use recovery_base::below::NoMemory;
use recovery_base::time::Instant;

mod new_reno;

pub use new_reno::{NewReno, NewRenoConfig};

/// The values that a controller reports.
#[derive(Default, Drop)]
pub struct ControllerMetrics {
    /// Congestion window, in bytes.
    pub congestion_window: u64,
    /// Slow start threshold, in bytes.
    pub ssthresh: Option<u64>,
    /// Pacing rate, in bits per second.
    pub pacing_rate: Option<u64>,
}

/// A congestion controller: how much may be in flight on a path (RFC 9002, 7).
///
/// An implementation defines by functions of its own (`words`) what each call does to its value in contracts
/// (`content`), and proves the laws (`ControllerLaws`). Sound contents stay sound while MTUs are above zero, and their
/// window is above zero. No call moves the start of the recovery past its own time. Persistent congestion after that
/// start leaves the minimum window, and further congestion leaves it there (RFC 9002, 7.6.2).
pub trait Controller: Sized {
    /// The type of a controller in contracts. No code makes a value of it.
    type Content;

    ghost content: { Self → Self.Content };

    /// What each call does to the contents.
    ghost words: { ControllerSemantics Self.Content };

    /// Holds for all contents that were built with an MTU above zero.
    ghost is_sound: { Self.Content → Type 0 };

    /// Reports that packets were sent: how many bytes, up to which number.
    fn on_sent(&mut self, now: Instant, bytes: u64, last_packet_number: u64)
        ensures { content self.new
            ≡ words.after (sends now bytes last_packet_number) (content self.old) };

    /// Reports that a packet was acknowledged: when it was sent, its bytes, and whether the sender was limited by the
    /// application and not by the window (RFC 9002, 7.8).
    fn on_ack(
        &mut self,
        now: Instant,
        sent: Instant,
        bytes: u64,
        app_limited: bool,
        rtt: &RttEstimator,
    )
        ensures { content self.new
            ≡ words.after (acks now sent bytes app_limited rtt.now) (content self.old) };

    /// Reports that all packets of one ACK were reported, with the bytes still in flight and the largest acknowledged
    /// number.
    fn on_end_acks(
        &mut self,
        now: Instant,
        in_flight: u64,
        app_limited: bool,
        largest_packet_num_acked: Option<u64>,
    )
        ensures { content self.new
            ≡ words.after (ends_acks now in_flight app_limited largest_packet_num_acked)
            (content self.old) };

    /// Reports that packets were lost, or marked by ECN: when the last of them was sent, whether the congestion is
    /// persistent (RFC 9002, 7.6), and the bytes lost, 0 for ECN.
    fn on_congestion_event(
        &mut self,
        now: Instant,
        sent: Instant,
        is_persistent_congestion: bool,
        lost_bytes: u64,
    )
        ensures { content self.new
            ≡ words.after (congests now sent is_persistent_congestion lost_bytes)
            (content self.old) };

    /// Reports that the path's MTU changed, in bytes.
    fn on_mtu_update(&mut self, new_mtu: u16)
        ensures { content self.new ≡ words.after (takes_mtu new_mtu) (content self.old) };

    /// Returns the congestion window: how many bytes may be in flight (RFC 9002, 7 and 7.2). It is above zero if the
    /// contents are sound.
    fn window(&self) -> u64
        ensures { result ≡ words.window (content self.now) };

    /// Returns the values that the controller reports.
    fn metrics(&self) -> ControllerMetrics
        ensures { result ≡ words.metrics (content self.now) };

    /// Returns the initial window in bytes: `window` of a controller just built (RFC 9002, 7.2).
    fn initial_window(&self) -> u64
        ensures { result ≡ words.initial (content self.now) };

    /// Returns a second controller with the same contents. An implementation that allocates may fail.
    fn try_clone(&self) -> Result<Self, NoMemory>
        ensures { IfOk result (λ clone. content clone ≡ content self.now) };

    /// Sound contents, the start of the recovery, and the minimum window.
    ghost laws: { ControllerLaws words is_sound };
}

/// Makes the controllers of paths.
pub trait ControllerFactory: Drop {
    type Controller: Controller + Drop;

    /// The contents of a controller that is made at a time, with an MTU in bytes.
    ghost built: { Self → ℕ → ℕ → Self.Controller.Content };

    /// Returns a controller for a path, made at this time, with this MTU in bytes.
    fn build(&self, now: Instant, current_mtu: u16) -> Self::Controller
        ensures content { Self.Controller.content result ≡ built self.now now current_mtu }
        ensures sound { 0 < current_mtu
            → Self.Controller.is_sound (Self.Controller.content result) };

    /// The window starts as the initial one.
    ghost starts_at_initial: { (factory : Self) (now mtu : ℕ) →
        let built_content = built factory now mtu in
        Self.Controller.words.window built_content ≡ Self.Controller.words.initial built_content };

    /// No recovery starts after the controller is made.
    ghost starts_by_now: { (factory : Self) (now mtu : ℕ) →
        Self.Controller.words.recovery_start (built factory now mtu) ≤ now };
}
