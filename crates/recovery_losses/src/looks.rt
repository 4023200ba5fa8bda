//! The inputs of a loss detection pass, and when a packet is lost (RFC 9002, 6.1).
ghost use Rattle.std.specs.Prelude.{◌≡◌, ◌<◌, Decides};
ghost use Rattle.recovery_losses.specs.Losses.{first_sample_in, lost_at, is_after_sample, is_end, packets_after, IsLost};

use recovery_base::below::SpaceId;
use recovery_base::time::{Duration, Instant};

/// Which packets of a space were sent after the first RTT sample of the path (RFC 9002, 7.6.2).
#[derive(Clone, Copy)]
pub enum FirstSample {
    /// None: there was no sample, or this pass does not detect persistent congestion.
    Missing,
    /// The sample was taken in this space: the packets from this number on.
    InSpace(u64),
    /// The sample was taken in another space: the packets that were sent later than this time.
    Elsewhere(Instant),
}

/// The inputs of a loss detection pass.
#[derive(Clone, Copy)]
pub struct LossPass {
    /// The space whose packets are examined.
    pub space: SpaceId,
    /// The time by which the age of packets is judged: when the ACK frame was received, or the time of the call.
    pub at: Instant,
    /// The largest number that was acknowledged in the space.
    pub largest: u64,
    /// A packet is lost if so many packets were sent after it, up to the largest acknowledged one (RFC 9002, 6.1.1:
    /// kPacketThreshold).
    pub packet_threshold: u64,
    /// How long after its transmission a packet is lost (RFC 9002, 6.1.2).
    pub delay: Duration,
    /// The number of the MTU probe in flight, if this is the space of 1-RTT packets.
    pub probe: Option<u64>,
    /// The generation of the path in use. Packets of another path do not indicate congestion (RFC 9000, 9.4).
    pub generation: u64,
    /// Which packets may begin or end persistent congestion (RFC 9002, 7.6.2).
    pub first_sample: FirstSample,
    /// The number that was skipped last in the space. No packet has it: it does not end a run, and the packet threshold
    /// leaves it out (RFC 9000, 21.4).
    pub skipped: Option<u64>,
    /// The duration of persistent congestion, in nanoseconds (RFC 9002, 7.6.1).
    pub period: u128,
}

/// The fields of a tracked packet that a pass needs.
#[derive(Clone, Copy)]
pub struct Candidate {
    /// Its number.
    pub number: u64,
    /// When it was sent.
    pub time_sent: Instant,
    /// Its bytes in flight; 0 if it holds ACKs only.
    pub size: u16,
    /// Whether it is ack-eliciting (RFC 9002, 2).
    pub ack_eliciting: bool,
    /// The generation of the path on which it was sent.
    pub path_generation: u64,
}

impl LossPass {
    /// Returns when a packet is lost by its age (RFC 9002, 6.1.2).
    pub fn lost_at(&self, packet: &Candidate) -> Instant
        ensures { result ≡ lost_at self.now packet.now.time_sent }
    {
        packet.time_sent + self.delay
    }

    /// Returns how many packets were sent after the one with a number, up to the largest acknowledged one. The number
    /// that was skipped last is left out.
    fn packets_after(&self, number: u64) -> u64
        requires below { number < self.now.largest }
        ensures { result ≡ packets_after self.now number }
    {
        let numbers = self.largest - number;
        match self.skipped {
            Some(skipped) if number < skipped && skipped < self.largest => numbers - 1,
            _ => numbers,
        }
    }

    /// Returns whether a packet is lost: by its number or by its age (RFC 9002, 6.1).
    pub fn is_lost(&self, packet: &Candidate) -> bool
        requires below { packet.now.number < self.now.largest }
        ensures { Decides result (IsLost self.now packet.now.number packet.now.time_sent) }
    {
        self.packets_after(packet.number) >= self.packet_threshold
            || self.lost_at(packet) <= self.at
    }

    /// Returns whether persistent congestion may begin or end with a packet that counts (RFC 9002, 7.6.2).
    pub(crate) fn is_end(&self, packet: &Candidate) -> bool
        ensures { result ≡ is_end self.now packet.now.number packet.now.time_sent
            packet.now.ack_eliciting }
    {
        packet.ack_eliciting && self.first_sample.precedes(packet)
    }
}

impl FirstSample {
    /// Returns how a path's mark, the first packet after an RTT sample, divides a space. `sampled` is the time of that
    /// sample.
    pub fn of(mark: Option<(SpaceId, u64)>, sampled: Instant, space: SpaceId) -> Self
        ensures { result ≡ first_sample_in mark sampled space }
    {
        match mark {
            Some((marked, number)) if marked == space => FirstSample::InSpace(number),
            Some(_) => FirstSample::Elsewhere(sampled),
            None => FirstSample::Missing,
        }
    }

    /// Returns whether a packet was sent after the sample.
    fn precedes(&self, packet: &Candidate) -> bool
        ensures { result ≡ is_after_sample self.now packet.now.number packet.now.time_sent }
    {
        match self {
            FirstSample::Missing => false,
            FirstSample::InSpace(first) => *first <= packet.number,
            FirstSample::Elsewhere(sampled) => *sampled < packet.time_sent,
        }
    }
}
