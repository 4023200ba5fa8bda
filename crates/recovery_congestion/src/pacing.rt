//! Spreads packets over time, so that a window is not sent in one burst (RFC 9002, 7.7).
ghost use Rattle.std.specs.Prelude.{◌≡◌, ◌+◌, ◌-◌, ◌*◌, ◌/◌, ◌^◌, ◌<◌, ◌≤◌, min, max, None, IfSome};
ghost use Rattle.recovery_base.specs.Times.{span_limit};
ghost use Rattle.recovery_base.specs.Units.{last_time, u32_limit};
ghost use Rattle.recovery_congestion.specs.PacerView.{bucket_of};
ghost use Rattle.recovery_congestion.specs.Pacing.{capacity_of, credit_of, wait_of, bucket_made, resized, refilled, paced, pacer_delay, less_tokens, IsBucketSound, IsPacerRoom};

use recovery_base::time::{Duration, Instant};
use std::marker::Model;

/// A full bucket lasts this long: user-space timers are accurate to a millisecond, and longer bursts would undo the
/// pacing.
const BURST_INTERVAL_NANOS: u128 = 2_000_000;

/// A burst of this many packets is allowed at any rate: the first flight is not delayed, and one call passes several
/// packets to the kernel.
const MIN_BURST_SIZE: u128 = 10;

/// No larger burst is allowed: nothing else is done while it is made.
const MAX_BURST_SIZE: u128 = 256;

/// A token bucket, one token a byte: sending removes tokens, and time adds them at 5/4 of a window in each RTT (RFC
/// 9002, 7.7).
///
/// In contracts its value is a `Bucket`. It holds at most its capacity, which is 10 to 256 times the MTU of the last
/// call.
///
/// ```
/// let (now, rtt) = (Instant::from_nanos(0), Duration::from_millis(100));
/// let mut pacer = Pacer::new(rtt, 12_000, 1200, now);
/// pacer.on_transmit(12_000);
/// // The bucket is empty: ask again at the time that is returned.
/// assert!(&rt; pacer.delay(rtt, 1200, 1200, 12_000, now).is_some());
/// ```
#[derive(Drop)]
pub struct Pacer {
    capacity: u64,
    last_window: u64,
    last_mtu: u16,
    tokens: u64,
    prev: Instant,
}

/// The state of a pacer in plain numbers, for a caller that stores it itself: bytes, and `prev` in nanoseconds.
#[derive(Clone, Copy)]
pub struct PacerState {
    /// The capacity of the bucket in bytes.
    pub capacity: u64,
    /// The congestion window of the last call of `delay`, or the first one.
    pub last_window: u64,
    /// The MTU of the last call of `delay`, or the first one.
    pub last_mtu: u16,
    /// The bytes in the bucket.
    pub tokens: u64,
    /// The latest time at which it was refilled, or made.
    pub prev: Instant,
}

impl Model for Pacer {
    ghost use Rattle.recovery_congestion.specs.Pacing.{Bucket, IsBucketSound};
    ghost use Rattle.recovery_congestion.specs.PacerView.{bucket_in};

    ghost Value = { Bucket };

    ghost view = { bucket_in };

    ghost invariant = { λ pacer. IsBucketSound (bucket_in pacer) };
}

impl Pacer {
    /// Returns a full bucket at time `now`. The congestion window and the MTU are in bytes, and neither is 0.
    pub fn new(rtt: Duration, window: u64, mtu: u16, now: Instant) -> Self
        requires window { 0 < window }
        requires mtu { 0 < mtu }
        ensures made { result ≡ bucket_made rtt window mtu now }
        ensures sound { IsBucketSound result }
    {
        let capacity = optimal_capacity(rtt, window, mtu);
        Pacer {
            capacity,
            last_window: window,
            last_mtu: mtu,
            tokens: capacity,
            prev: now,
        }
    }

    /// Returns a pacer with this state, or `None` if no pacer can have it. Then there are more tokens than the
    /// capacity, the capacity is not 10 to 256 times the MTU, or the window or the MTU is 0.
    pub fn from_state(state: PacerState) -> Option<Self>
        ensures none { result ≡ None → ¬ IsBucketSound (bucket_of state) }
        ensures some { IfSome result (λ pacer. pacer ≡ bucket_of state) }
    {
        let mtu = u64::from(state.last_mtu);
        if state.tokens > state.capacity || state.last_window == 0 || mtu == 0 {
            return None;
        }
        if state.capacity < 10 * mtu || state.capacity > 256 * mtu {
            return None;
        }
        Some(Pacer {
            capacity: state.capacity,
            last_window: state.last_window,
            last_mtu: state.last_mtu,
            tokens: state.tokens,
            prev: state.prev,
        })
    }

    /// Returns its state.
    pub fn state(&self) -> PacerState
        ensures state { bucket_of result ≡ self.now }
        ensures sound { IsBucketSound (bucket_of result) }
    {
        PacerState {
            capacity: self.capacity,
            last_window: self.last_window,
            last_mtu: self.last_mtu,
            tokens: self.tokens,
            prev: self.prev,
        }
    }

    /// Returns the largest burst in bytes, as of the last call of `delay`: 10 to 256 times its MTU.
    pub fn capacity(&self) -> u64
        ensures { result ≡ self.now.capacity }
    {
        self.capacity
    }

    /// Returns the bytes in the bucket as of the last call, without the tokens of the time since.
    pub fn tokens(&self) -> u64
        ensures value { result ≡ self.now.tokens }
        ensures within { result ≤ self.now.capacity }
    {
        self.tokens
    }

    /// Removes the tokens of a packet of this size. If there are fewer, none are left.
    pub fn on_transmit(&mut self, packet_length: u16)
        ensures leaves { self.new ≡ less_tokens packet_length self.old }
        ensures sound { IsBucketSound self.new }
    {
        self.tokens = self.tokens.saturating_sub(u64::from(packet_length));
    }

    /// Returns when to ask again whether these bytes may be sent, or `None` if they may be sent now.
    ///
    /// The RTT, the MTU and the congestion window (bytes, neither is 0) are those of the time `now`. If that is earlier
    /// than the time of a previous call, no time has passed. Nothing is delayed at an RTT of 0 or a window above
    /// `u32::MAX`. The answer is at most `u64::MAX` nanoseconds.
    #[inline(always)]
    pub fn delay(
        &mut self,
        rtt: Duration,
        bytes: u64,
        mtu: u16,
        window: u64,
        now: Instant,
    ) -> Option<Instant>
        requires window { 0 < window }
        requires mtu { 0 < mtu }
        ensures leaves { self.new
            ≡ paced (record { bytes = bytes; rtt = rtt; mtu = mtu; window = window; now = now })
            self.old }
        ensures delays { result
            ≡ pacer_delay
            (record { bytes = bytes; rtt = rtt; mtu = mtu; window = window; now = now })
            self.new }
        ensures sound { IsBucketSound self.new }
    {
        if window == self.last_window && mtu == self.last_mtu && self.tokens >= bytes {
            return None;
        }
        self.delay_in_full(rtt, bytes, mtu, window, now)
    }

    /// Returns what `delay` returns, which answers most calls by itself.
    #[inline(never)]
    fn delay_in_full(
        &mut self,
        rtt: Duration,
        bytes: u64,
        mtu: u16,
        window: u64,
        now: Instant,
    ) -> Option<Instant>
        requires window { 0 < window }
        requires mtu { 0 < mtu }
        ensures leaves { self.new
            ≡ paced (record { bytes = bytes; rtt = rtt; mtu = mtu; window = window; now = now })
            self.old }
        ensures delays { result
            ≡ pacer_delay
            (record { bytes = bytes; rtt = rtt; mtu = mtu; window = window; now = now })
            self.new }
    {
        self.resize(rtt, window, mtu);
        if self.tokens >= bytes || window > u64::from(u32::MAX) || rtt.as_nanos() == 0 {
            return None;
        }
        self.refill(rtt, window, now);
        if self.tokens >= bytes {
            return None;
        }
        let short = bytes.max(self.capacity) - self.tokens;
        Some(later_by(self.prev, wait(rtt, window, short)))
    }

    /// Returns how many bytes may be sent now: the largest count that `delay` does not delay, at most `u64::MAX`. The
    /// RTT, the MTU and the window are those of the time `now`, as for `delay`.
    pub fn room(&self, rtt: Duration, mtu: u16, window: u64, now: Instant) -> u64
        requires window { 0 < window }
        requires mtu { 0 < mtu }
        ensures { IsPacerRoom rtt mtu window now self.now result }
    {
        if window > u64::from(u32::MAX) || rtt.as_nanos() == 0 {
            return u64::MAX;
        }
        let mut then = Pacer {
            capacity: self.capacity,
            last_window: self.last_window,
            last_mtu: self.last_mtu,
            tokens: self.tokens,
            prev: self.prev,
        };
        then.resize(rtt, window, mtu);
        then.refill(rtt, window, now);
        then.tokens
    }

    fn resize(&mut self, rtt: Duration, window: u64, mtu: u16)
        requires window { 0 < window }
        requires mtu { 0 < mtu }
        ensures { self.new ≡ resized rtt window mtu self.old }
    {
        if window != self.last_window || mtu != self.last_mtu {
            self.capacity = optimal_capacity(rtt, window, mtu);
            self.tokens = self.tokens.min(self.capacity);
            self.last_window = window;
            self.last_mtu = mtu;
        }
    }

    fn refill(&mut self, rtt: Duration, window: u64, now: Instant)
        requires window { window < u32_limit }
        requires rtt { 0 < rtt }
        ensures { self.new ≡ refilled rtt window now self.old }
    {
        let elapsed = now.as_nanos().saturating_sub(self.prev.as_nanos());
        let tokens = u128::from(self.tokens) + credit(rtt, window, elapsed);
        self.tokens = tokens.min(u128::from(self.capacity)) as u64;
        if self.prev < now {
            self.prev = now;
        }
    }
}

fn optimal_capacity(rtt: Duration, window: u64, mtu: u16) -> u64
    ensures { result ≡ capacity_of rtt window mtu }
{
    let capacity = quotient(
        u128::from(window) * BURST_INTERVAL_NANOS,
        rtt.as_nanos().max(1),
    );
    let mtu = u128::from(mtu);
    capacity.clamp(MIN_BURST_SIZE * mtu, MAX_BURST_SIZE * mtu) as u64
}

/// Returns the bytes that time adds. They may exceed 64 bits.
fn credit(rtt: Duration, window: u64, elapsed: u64) -> u128
    requires window { window < u32_limit }
    requires rtt { 0 < rtt }
    ensures value { result ≡ credit_of rtt window elapsed }
    ensures bound { result < 2 ^ 99 }
{
    quotient(
        5 * u128::from(window) * u128::from(elapsed),
        4 * rtt.as_nanos(),
    )
}

/// Returns the nanoseconds until these bytes are added. The division by 5 comes before the multiplication by 4, so that
/// no product wraps.
fn wait(rtt: Duration, window: u64, short: u64) -> u128
    requires { 0 < window }
    ensures value { result ≡ wait_of rtt window short }
    ensures bound { result < span_limit }
{
    let product = rtt.as_nanos().saturating_mul(u128::from(short));
    let product = product.min(Duration::MAX.as_nanos());
    4 * (quotient(product, u128::from(window)) / 5)
}

fn later_by(moment: Instant, nanos: u128) -> Instant
    requires { nanos < span_limit }
    ensures { result ≡ min (moment + nanos) last_time }
{
    let sum = u128::from(moment.as_nanos()) + nanos;
    Instant::from_nanos(sum.min(u128::from(u64::MAX)) as u64)
}

/// Divides operands of 64 bits as such, since a division of 128 bits is a call.
fn quotient(dividend: u128, divisor: u128) -> u128
    requires { 0 < divisor }
    ensures { result ≡ dividend / divisor }
{
    match (u64::try_from(dividend), u64::try_from(divisor)) {
        (Ok(dividend), Ok(divisor)) => u128::from(dividend / divisor),
        _ => dividend / divisor,
    }
}
