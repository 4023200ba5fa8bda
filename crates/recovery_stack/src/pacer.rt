//! A pacer without a recovery (RFC 9002, 7.7). The caller owns the bucket; the library allocates nothing for it.
ghost use Rattle.std.specs.Prelude.{◌≡◌, None, MatchOption};
ghost use Rattle.recovery_congestion.specs.Pacing.{IsBucketSound};
ghost use Rattle.recovery_stack.specs.Buckets.{Delays, PacerTransmits, bucket_first, bucket_in, bucket_shown};

use recovery_base::time::{Duration, Instant};
use recovery_congestion::pacing::{Pacer, PacerState};
use recovery_engine::numbers::{ANSWER_DELAYED, ANSWER_READY, ANSWER_TRANSMITTED};
use recovery_engine::spelling::{EncodedReply, encode_number};

/// A bucket of tokens, one per byte. All zeros is no bucket, and an error.
#[repr(C)]
#[derive(Clone, Copy)]
pub struct Bucket {
    /// The most bytes that it holds.
    pub capacity: u64,
    /// The congestion window, in bytes, for which the capacity was computed.
    pub window: u64,
    /// The bytes in it.
    pub tokens: u64,
    /// When it was last refilled, or made, in nanoseconds.
    pub last: u64,
    /// The MTU, in bytes, for which the capacity was computed.
    pub mtu: u16,
}

fn pacer_in(bucket: &Bucket) -> Option<Pacer>
    ensures { MatchOption result (¬ IsBucketSound (bucket_in bucket.now))
        (λ pacer. pacer ≡ bucket_in bucket.now) }
{
    Pacer::from_state(PacerState {
        capacity: bucket.capacity,
        last_window: bucket.window,
        last_mtu: bucket.mtu,
        tokens: bucket.tokens,
        prev: Instant::from_nanos(bucket.last),
    })
}

fn bucket_of(pacer: &Pacer) -> Bucket
    ensures { result ≡ bucket_shown pacer.now }
{
    let state = pacer.state();
    Bucket {
        capacity: state.capacity,
        window: state.last_window,
        tokens: state.tokens,
        last: state.prev.as_nanos(),
        mtu: state.last_mtu,
    }
}

impl Bucket {
    /// Returns a full bucket at time `now`. If the window or the MTU is 0, it is all zeros, which is no bucket.
    pub fn full(rtt: u64, window: u64, mtu: u16, now: u64) -> Bucket
        ensures { result ≡ bucket_first rtt window mtu now }
    {
        if window == 0 || mtu == 0 {
            return Bucket {
                capacity: 0,
                window: 0,
                tokens: 0,
                last: 0,
                mtu: 0,
            };
        }
        bucket_of(&Pacer::new(
            Duration::from_nanos(rtt),
            window,
            mtu,
            Instant::from_nanos(now),
        ))
    }

    /// Takes the tokens of a sent packet. An error if there is no bucket.
    pub fn transmit(&mut self, bytes: u16) -> EncodedReply
        ensures { PacerTransmits bytes self.old result self.new }
    {
        let Some(mut paced) = pacer_in(self) else {
            return EncodedReply::bad_argument();
        };
        paced.on_transmit(bytes);
        *self = bucket_of(&paced);
        EncodedReply::plain(ANSWER_TRANSMITTED)
    }

    /// Returns whether this many bytes may be sent. An error if the window or the MTU is 0, or if there is no bucket.
    pub fn delay(&mut self, rtt: u64, bytes: u64, mtu: u16, window: u64, now: u64) -> EncodedReply
        ensures { Delays
            (record { bytes = bytes; rtt = rtt; mtu = mtu; window = window; now = now })
            self.old result self.new }
    {
        if window == 0 || mtu == 0 {
            return EncodedReply::bad_argument();
        }
        let Some(mut paced) = pacer_in(self) else {
            return EncodedReply::bad_argument();
        };
        let until = paced.delay(
            Duration::from_nanos(rtt),
            bytes,
            mtu,
            window,
            Instant::from_nanos(now),
        );
        *self = bucket_of(&paced);
        match until {
            Some(until) => encode_number(ANSWER_DELAYED, until.as_nanos()),
            None => EncodedReply::plain(ANSWER_READY),
        }
    }
}
