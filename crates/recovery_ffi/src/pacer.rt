//! Pacing without a recovery, for a tunnel or another datagram protocol (RFC 9002, 7.7). The caller owns the bucket;
//! the library allocates nothing for it.
ghost use Rattle.std.specs.Prelude.{◌≡◌};
ghost use Rattle.recovery_stack.specs.Buckets.{Delays, PacerTransmits, bucket_first};

use recovery_engine::spelling::EncodedReply;
use recovery_stack::pacer::Bucket;

/// Returns a full bucket at time `now`, from the RTT (nanoseconds), the congestion window and the MTU (bytes). If
/// the window or the MTU is 0, it is all zeros, which is no bucket.
#[unsafe(no_mangle)]
pub extern "C" fn recovery_ffi_pacer(rtt: u64, window: u64, mtu: u16, now: u64) -> Bucket
    ensures { result ≡ bucket_first rtt window mtu now }
{
    Bucket::full(rtt, window, mtu, now)
}

/// Takes the tokens of a sent packet (`ANSWER_TRANSMITTED`), at most all. An error if there is no bucket.
#[unsafe(no_mangle)]
pub extern "C" fn recovery_ffi_pacer_transmit(bucket: &mut Bucket, bytes: u16) -> EncodedReply
    ensures { PacerTransmits bytes bucket.old result bucket.new }
{
    bucket.transmit(bytes)
}

/// Checks whether this many bytes may be sent at time `now` (`ANSWER_READY`), or when to ask again
/// (`ANSWER_DELAYED`). The RTT (nanoseconds), the MTU and the congestion window (bytes) are those of that time.
/// An error if the window or the MTU is 0, or if there is no bucket.
#[unsafe(no_mangle)]
pub extern "C" fn recovery_ffi_pacer_delay(
    bucket: &mut Bucket,
    rtt: u64,
    bytes: u64,
    mtu: u16,
    window: u64,
    now: u64,
) -> EncodedReply
    ensures { Delays (record { bytes = bytes; rtt = rtt; mtu = mtu; window = window; now = now })
        bucket.old result bucket.new }
{
    bucket.delay(rtt, bytes, mtu, window, now)
}
