//! What is in flight on a network path (RFC 9002, B.2), and why a packet could not be sent there.
ghost use Rattle.std.specs.Prelude.{◌≡◌};
ghost use Rattle.std.specs.Option.{SomeIff};
ghost use Rattle.recovery_spaces.specs.InFlight.{with_packet, without_packet, IsCounted, Overflows};

use crate::spaces::SentPacket;
use recovery_queue::queue::RetransmitQueue;
use thiserror::Error;

/// Counters of what is in flight on a path: the packets that were sent on it and are tracked.
#[derive(Clone, Copy, Default, PartialEq, Eq)]
pub struct InFlight {
    /// The sum of their sizes, in bytes.
    pub bytes: u64,
    /// How many of them are ack-eliciting.
    pub ack_eliciting: u64,
}

impl InFlight {
    /// Returns the counters with one more packet (RFC 9002, B.2), or `None` if one would exceed `u64::MAX`.
    pub fn checked_insert<Q: RetransmitQueue>(self, packet: &SentPacket<Q>) -> Option<InFlight>
        ensures { SomeIff result (¬ Overflows self packet.now) (with_packet self packet.now) }
    {
        Some(InFlight {
            bytes: self.bytes.checked_add(u64::from(packet.size))?,
            ack_eliciting: self
                .ack_eliciting
                .checked_add(u64::from(packet.ack_eliciting))?,
        })
    }

    /// Returns the counters without a packet that is counted (RFC 9002, B.2).
    pub fn remove<Q: RetransmitQueue>(self, packet: &SentPacket<Q>) -> InFlight
        requires { IsCounted self packet.now }
        ensures { result ≡ without_packet self packet.now }
    {
        InFlight {
            bytes: self.bytes - u64::from(packet.size),
            ack_eliciting: self.ack_eliciting - u64::from(packet.ack_eliciting),
        }
    }
}

/// Why a packet could not be sent on a path. It is dropped then, and nothing else has changed.
#[derive(Clone, Copy, Debug, Error)]
pub enum LedgerError {
    /// An allocation failed.
    #[error("out of memory")]
    NoMemory,
    /// The bytes in flight, or the count of ack-eliciting packets, would exceed `u64::MAX`.
    #[error("the bytes in flight would exceed 2^64 - 1")]
    Overflow,
}
