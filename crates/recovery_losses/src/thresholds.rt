//! The thresholds of loss detection, from the settings (RFC 9002, 6.1 and 7.6.1).
ghost use Rattle.std.specs.Prelude.{◌≡◌};
ghost use Rattle.recovery_losses.specs.Variables.{thresholds_of};

/// The thresholds of loss detection.
#[derive(Clone, Copy)]
pub struct Thresholds {
    /// How many numbers below the largest acknowledged one a packet is lost: at least 1 (RFC 9002, 6.1.1:
    /// kPacketThreshold).
    pub packets: u64,
    /// How many RTTs after its transmission a packet is lost, as numerator and denominator (RFC 9002, 6.1.2:
    /// kTimeThreshold).
    pub time: (u64, u64),
    /// How many probe timeouts persistent congestion lasts: at least 1 (RFC 9002, 7.6.1:
    /// kPersistentCongestionThreshold).
    pub persistent: u32,
}

impl Thresholds {
    /// Returns the thresholds of these settings. A packet threshold of 0, with which a packet would be lost with its
    /// own ACK, counts as 1. So does a persistent congestion threshold of 0, with which any two packets would do.
    pub fn new(packets: u32, time: (u64, u64), persistent: u32) -> Self
        ensures { result ≡ thresholds_of packets time persistent }
    {
        Thresholds {
            packets: u64::from(packets.max(1)),
            time,
            persistent: persistent.max(1),
        }
    }
}
