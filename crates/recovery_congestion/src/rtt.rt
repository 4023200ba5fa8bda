//! The RTT estimate (RFC 9002, 5).
ghost use Rattle.std.specs.Prelude.{◌≡◌, ◌<◌, ◌≤◌, ◌*◌, min, max, IsSomeAnd, is_some};
ghost use Rattle.recovery_base.specs.Times.{span_limit};
ghost use Rattle.recovery_congestion.specs.Rtt.{rtt_made, rtt_updated, rtt_get, rtt_conservative, pto_base_of, adjusted_rtt, greatest_of, IsAboveLeast, KeepsLeast};

use recovery_base::time::Duration;
use std::marker::Model;

/// The timer granularity (RFC 9002, 6.1.2).
const TIMER_GRANULARITY_NANOS: u128 = 1_000_000;

/// The RTT estimate of one path, from the samples that its ACKs give (RFC 9002, 5).
///
/// All values are whole nanoseconds, exact; halves are rounded down. Samples and delays may be any span, including zero
/// and the longest.
///
/// ```
/// let mut rtt = RttEstimator::new(Duration::from_millis(333));
/// rtt.update(Duration::from_millis(5), Duration::from_millis(40));
/// assert!(&rt; rtt.get() == Duration::from_millis(40));
/// // 40 ms, and four times the deviation of 20 ms.
/// assert!(&rt; rtt.pto_base() == Duration::from_millis(120));
/// ```
#[derive(Clone, Copy)]
pub struct RttEstimator {
    latest: Duration,
    smoothed: Option<Duration>,
    variance: Duration,
    min: Duration,
}

impl Model for RttEstimator {
    ghost use Rattle.recovery_congestion.specs.Rtt.{Rtt, IsAboveLeast};

    ghost Value = { Rtt };

    ghost use Rattle.recovery_congestion.specs.EstimatorView.{rtt_in, rtt_back};

    ghost view = { rtt_in };

    ghost invariant = { λ rtt. IsAboveLeast (rtt_in rtt) };

    ghost inverse = { rtt_back };
}

impl RttEstimator {
    /// Returns the estimate before the first sample: the initial RTT, with half of it as the RTT variation (RFC 9002,
    /// 6.2.2).
    pub fn new(initial_rtt: Duration) -> Self
        ensures value { result ≡ rtt_made initial_rtt }
        ensures above_least { IsAboveLeast result }
    {
        RttEstimator {
            latest: initial_rtt,
            smoothed: None,
            variance: span(initial_rtt.as_nanos() / 2),
            min: initial_rtt,
        }
    }

    /// Returns the smoothed RTT, or the initial RTT before the first sample.
    pub fn get(&self) -> Duration
        ensures value { result ≡ rtt_get self.now }
        ensures above_least { self.now.least ≤ result }
    {
        match self.smoothed {
            Some(smoothed) => smoothed,
            None => self.latest,
        }
    }

    /// Whether a sample was taken.
    pub fn has_sample(&self) -> bool
        ensures { result ≡ is_some self.now.smoothed }
    {
        self.smoothed.is_some()
    }

    /// Returns the last sample, without subtracting any delay, or the initial RTT before the first one (RFC 9002, 5.1).
    pub fn latest(&self) -> Duration
        ensures { result ≡ self.now.latest }
    {
        self.latest
    }

    /// Returns the mean deviation of the samples, exact and with no minimum, or half of the initial RTT before the
    /// first one (RFC 9002, 5.3: `rttvar`).
    pub fn variance(&self) -> Duration
        ensures { result ≡ self.now.variance }
    {
        self.variance
    }

    /// Returns the larger of `get` and the last sample, which is used to declare losses (RFC 9002, 6.1.2).
    pub fn conservative(&self) -> Duration
        ensures { result ≡ rtt_conservative self.now }
    {
        self.get().max(self.latest)
    }

    /// Returns the smallest sample, or the initial RTT before the first one.
    pub fn min(&self) -> Duration
        ensures { result ≡ self.now.least }
    {
        self.min
    }

    /// Returns the probe timeout without the max_ack_delay (RFC 9002, 6.2.1): `get` plus four times the RTT variation,
    /// or plus 1 ms if that is more. It is at most the longest span.
    pub fn pto_base(&self) -> Duration
        ensures { result ≡ pto_base_of self.now }
    {
        let deviation = (4 * self.variance.as_nanos()).max(TIMER_GRANULARITY_NANOS);
        match Duration::checked_from_nanos(self.get().as_nanos() + deviation) {
            Some(timeout) => timeout,
            None => Duration::MAX,
        }
    }

    /// Updates the estimate by a sample: the time from the sending of a packet to the ACK that newly acknowledges it,
    /// and the delay of that ACK that the peer reported (RFC 9002, 5.3).
    ///
    /// The first sample replaces the estimate, whatever the initial RTT was. From a later one the delay is subtracted,
    /// unless it would then be below the smallest RTT.
    #[inline(always)]
    pub fn update(&mut self, ack_delay: Duration, rtt: Duration)
        ensures value { self.new ≡ rtt_updated ack_delay rtt self.old }
        ensures between { IsSomeAnd self.new.smoothed (λ smoothed.
            (self.new.least ≤ smoothed) × (smoothed ≤ greatest_of self.old.smoothed rtt)) }
        ensures above_least { IsAboveLeast self.new }
        ensures least { KeepsLeast self.old (ack_delay, rtt) self.new }
    {
        self.latest = rtt;
        match self.smoothed {
            None => {
                self.min = rtt;
                self.smoothed = Some(rtt);
                self.variance = span(rtt.as_nanos() / 2);
            }
            Some(smoothed) => {
                self.min = self.min.min(rtt);
                let adjusted = without_delay(self.min, ack_delay, rtt);
                let apart = smoothed.saturating_sub(adjusted).as_nanos()
                    + adjusted.saturating_sub(smoothed).as_nanos();
                self.variance = span((3 * self.variance.as_nanos() + apart) / 4);
                self.smoothed = Some(span((7 * smoothed.as_nanos() + adjusted.as_nanos()) / 8));
            }
        }
    }
}

/// Returns a sample minus the delay of its ACK, unless that would be below the smallest RTT.
fn without_delay(least: Duration, ack_delay: Duration, rtt: Duration) -> Duration
    ensures { result ≡ adjusted_rtt least ack_delay rtt }
{
    if least.as_nanos() + ack_delay.as_nanos() <= rtt.as_nanos() {
        rtt.saturating_sub(ack_delay)
    } else {
        rtt
    }
}

fn span(nanos: u128) -> Duration
    requires { nanos < span_limit }
    ensures { result ≡ nanos }
{
    match Duration::checked_from_nanos(nanos) {
        Some(span) => span,
        None => unreachable!(),
    }
}
