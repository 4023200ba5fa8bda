//! What may happen next to two ends, and what is answered.
ghost use Rattle.std.specs.Prelude.{◌≡◌};
ghost use Rattle.recovery_pair.specs.Logs.{ack_of, other_end};

use recovery_base::below::SpaceId;
use recovery_base::time::{Duration, Instant};
use recovery_losses::largest_of;
use recovery_sender::{Acknowledged, SenderError, Timeout, Transmission};

/// One of the two ends of a connection.
#[derive(Clone, Copy, PartialEq, Eq, Debug)]
pub enum End {
    Client,
    Server,
}

impl End {
    /// Returns the other endpoint.
    pub fn other(self) -> End
        ensures { result ≡ other_end self }
    {
        match self {
            End::Client => End::Server,
            End::Server => End::Client,
        }
    }
}

/// A packet on the wire, alone in its datagram.
#[derive(Drop)]
pub struct WirePacket {
    /// Who sent it.
    pub from: End,
    /// Its packet number space.
    pub space: SpaceId,
    /// Its packet number.
    pub number: u64,
    /// The size of its datagram in bytes.
    pub size: u16,
    /// Whether it is ack-eliciting (RFC 9002, 2).
    pub eliciting: bool,
    /// The items that it carries.
    pub items: Vec<u64>,
    /// The first and last number of each range of its ACK frame, the highest range first; empty if it has no ACK frame.
    pub ranges: Vec<(u64, u64)>,
    /// The ACK delay of that frame (RFC 9000, 13.2.5).
    pub delay: Duration,
}

/// What happens at an endpoint, without the network.
#[derive(Drop)]
pub enum LocalStep {
    /// The caller wants these items delivered, in one packet of the space.
    Hand {
        /// The packet number space.
        space: SpaceId,
        /// The items.
        items: Vec<u64>,
    },
    /// The loss detection timer may be due.
    Expire {
        /// When.
        now: Instant,
    },
    /// The ACK delay timer may be due.
    Late {
        /// When.
        now: Instant,
    },
    /// The peer's address is validated (RFC 9000, 8).
    AddressValidated,
    /// Handshake keys are available (RFC 9002, A.8).
    HandshakeKeys,
    /// The handshake is confirmed (RFC 9001, 4.1.2).
    HandshakeConfirmed,
    /// The keys of a space are dropped (RFC 9001, 4.9).
    Discard {
        /// The packet number space.
        space: SpaceId,
        /// When.
        now: Instant,
    },
}

/// What happens next.
#[derive(Drop)]
pub enum PairStep {
    /// An endpoint sends one datagram, if it has something to send and may. The packet has items that wait, those to
    /// be retransmitted first, or a PING for a probe, and an ACK of all pending numbers. If an ACK is required, it may
    /// have nothing else.
    Send {
        /// The endpoint.
        end: End,
        /// The packet number space.
        space: SpaceId,
        /// When.
        now: Instant,
        /// The size of the datagram in bytes.
        size: u16,
    },
    /// A copy of a packet arrives at the other endpoint. A packet that no step names was dropped. One that several
    /// steps name was duplicated.
    Arrive {
        /// Its position on the wire.
        at: usize,
        /// When.
        now: Instant,
    },
    /// Something happens at an endpoint.
    Local {
        /// The end.
        end: End,
        /// What.
        step: LocalStep,
    },
}

/// What becomes of the ACK frame of a packet.
#[derive(Drop)]
pub enum AckOutcome {
    /// The packet has none.
    NoFrame,
    /// It is processed.
    Taken(Acknowledged),
    /// It is rejected, and changes nothing.
    Refused(SenderError),
}

/// What becomes of a packet that arrives.
#[derive(Drop)]
pub enum Fate {
    /// It is dropped: its space is discarded, or memory runs out.
    Dropped(SenderError),
    /// It came before, or is so old that it may have.
    Duplicate,
    /// It is new.
    New {
        /// The items that are delivered to the caller.
        items: Vec<u64>,
        /// What becomes of its ACK frame.
        acked: AckOutcome,
    },
}

/// What is reported of the ACK frame of a packet that is sent.
#[derive(Drop)]
pub struct SentAck {
    /// The largest number that it acknowledges. `None` if the packet has no ACK frame.
    pub largest: Option<u64>,
    /// Its ACK delay (RFC 9000, 13.2.5).
    pub delay: Duration,
}

/// Returns what is reported of the ACK frame of a packet.
pub(crate) fn sent_ack(packet: &WirePacket) -> SentAck
    ensures { result ≡ ack_of packet.now }
{
    SentAck {
        largest: largest_of(&packet.ranges),
        delay: packet.delay,
    }
}

/// The answer to a step.
#[derive(Drop)]
pub enum PairAnswer {
    /// It is done.
    Done,
    /// There is nothing to send, no such packet, or no timer is due.
    Nothing,
    /// The amplification limit, the window or the pacer does not permit the datagram.
    Held(Transmission),
    /// The datagram was permitted, but its packet cannot be tracked: it is not sent, and its items wait again.
    Failed(SenderError),
    /// The packet is sent.
    Sent {
        /// Its packet number.
        number: u64,
        /// The items that it carries.
        items: Vec<u64>,
        /// Whether it is ack-eliciting, so that it counts in flight (RFC 9002, 2).
        eliciting: bool,
        /// The congestion window in bytes for which it was checked. `None` if none was: it does not count in flight, or
        /// a probe was due in its space (RFC 9002, 7 and 7.5).
        window: Option<u64>,
        /// Its ACK frame.
        ack: SentAck,
    },
    /// A packet arrived.
    Arrived {
        /// The end that received it.
        to: End,
        /// Its packet number space.
        space: SpaceId,
        /// Its packet number.
        number: u64,
        /// The size of its datagram in bytes.
        size: u16,
        /// What becomes of it.
        fate: Fate,
    },
    /// The loss detection timer was handled.
    Expired(Timeout),
}
