//! How long to wait before a packet is lost and before a probe is sent (RFC 9002, 6.1.2 and 6.2.1).
ghost use Rattle.std.specs.Prelude.{◌≡◌};
ghost use Rattle.recovery_losses.specs.Timeouts.{scaled_by, loss_delay_of, probe_start_of, probe_timeout_of, up_to_longest};

use recovery_base::time::{Duration, Instant};

/// The timer granularity: a millisecond (RFC 9002, 6.1.2: kGranularity), in nanoseconds.
const GRANULARITY: u128 = 1_000_000;

/// Returns nanoseconds times a fraction, rounded down. The product is capped at `u128::MAX`. A fraction with
/// denominator 0 counts as 1.
fn scaled_by(fraction: (u64, u64), nanos: u128) -> u128
    ensures { result ≡ scaled_by fraction nanos }
{
    let (numerator, denominator) = fraction;
    if denominator == 0 {
        return nanos;
    }
    nanos.saturating_mul(u128::from(numerator)) / u128::from(denominator)
}

/// Returns how long after its transmission a packet is lost, if a later one is acknowledged. This is the larger RTT
/// times the time threshold, a fraction: at least that RTT and a millisecond, at most `Duration::MAX` (RFC 9002,
/// 6.1.2).
pub fn loss_delay(threshold: (u64, u64), smoothed: Duration, latest: Duration) -> Duration
    ensures { result ≡ loss_delay_of threshold smoothed latest }
{
    let rtt = smoothed.max(latest).as_nanos();
    up_to_longest(rtt.max(scaled_by(threshold, rtt)).max(GRANULARITY))
}

/// Returns how long after the last ack-eliciting packet a probe is sent (RFC 9002, 6.2.1), at most `Duration::MAX`.
/// `base` is the smoothed RTT plus four times its variation: `rtt.pto_base()`. `max_ack_delay` is the peer's in the
/// space of 1-RTT packets, and zero in the others. Each of the `count` consecutive timeouts doubles the result.
#[inline(always)]
pub fn probe_timeout(base: Duration, max_ack_delay: Duration, count: u32) -> Duration
    ensures { result ≡ probe_timeout_of base max_ack_delay count }
{
    let once = base.as_nanos() + max_ack_delay.as_nanos();
    if count == 0 {
        return up_to_longest(once);
    }
    up_to_longest(once.saturating_mul(2u128.saturating_pow(count)))
}

/// Returns from when a probe timeout of a space is measured, if it has one (RFC 9002, 6.2.1). That is `sent`, when the
/// last ack-eliciting packet was sent, if such a packet is tracked. If none is, but a packet waits for room in the
/// window since `waiting`, it is the later of the two times.
#[inline(always)]
pub fn probe_start(
    is_tracked: bool,
    waiting: Option<Instant>,
    sent: Option<Instant>,
) -> Option<Instant>
    ensures { result ≡ probe_start_of is_tracked waiting sent }
{
    if is_tracked {
        return sent;
    }
    let since = waiting?;
    let last = sent.unwrap_or(since);
    Some(if since < last { last } else { since })
}

/// Returns a duration of `nanos` nanoseconds, at most `Duration::MAX`.
#[inline(always)]
fn up_to_longest(nanos: u128) -> Duration
    ensures { result ≡ up_to_longest nanos }
{
    match Duration::checked_from_nanos(nanos) {
        Some(span) => span,
        None => Duration::MAX,
    }
}
