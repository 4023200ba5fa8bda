//! Calls of a sender as values, and their replies.
use crate::sender::{Acknowledged, NewlyAcked, Retransmitted, SenderError, Timeout, Transmission};
use recovery_base::below::SpaceId;
use recovery_base::time::{Duration, Instant};
use recovery_events::event::{Answer, Event};
use recovery_losses::Ack;
use recovery_queue::queue::RetransmitQueue;

/// A datagram to be sent.
#[derive(Clone, Copy)]
pub struct Datagram {
    /// The space of its packets.
    pub space: SpaceId,
    /// The time of transmission.
    pub now: Instant,
    /// Its size in bytes.
    pub bytes: u16,
    /// Whether the datagram counts in flight.
    pub in_flight: bool,
}

/// A received ACK frame.
#[derive(Drop)]
pub struct Frame {
    /// The space of the packet that held it.
    pub space: SpaceId,
    /// When it was received.
    pub now: Instant,
    /// The first and last number of each of its ranges, the highest range first.
    pub ranges: Vec<(u64, u64)>,
    /// Its other fields.
    pub ack: Ack,
}

/// A query of what an ACK frame would newly acknowledge.
#[derive(Drop)]
pub struct Asked {
    /// The space of the packet that held it.
    pub space: SpaceId,
    /// The first and last number of each of its ranges, the highest range first.
    pub ranges: Vec<(u64, u64)>,
    /// An empty or used list, whose memory is reused for the numbers.
    pub room: Vec<u64>,
}

/// A probe to be sent.
#[derive(Drop)]
pub struct Asking<Q: RetransmitQueue> {
    /// The space of its packet.
    pub space: SpaceId,
    /// Whether it asks for an immediate ACK.
    pub immediate_ack: bool,
    /// What queues take as `streams`.
    pub streams: Q::Streams,
}

/// A call of a sender.
#[derive(Drop)]
pub enum Call<Q: RetransmitQueue> {
    /// Checks whether a datagram may be sent.
    Transmit(Datagram),
    /// An ACK frame was received.
    Ack(Frame),
    /// The loss detection timer may be due.
    Timeout(Instant),
    /// Takes the contents of a probe.
    Probe(Asking<Q>),
    /// A datagram of this many bytes was received.
    Datagram(u64),
    /// Handshake keys are available.
    HandshakeKeys,
    /// The handshake is confirmed.
    HandshakeConfirmed,
    /// The peer's address is validated.
    AddressValidated,
    /// The peer's max_ack_delay.
    PeerDelay(Duration),
    /// Sets the RTT that timers use before the first sample of the path in use.
    InitialRtt(Duration),
    /// Stores the data of the outstanding PATH_CHALLENGE frame, if any, and whether a PATH_CHALLENGE is to be sent.
    Challenge(Option<u64>, bool),
    /// Returns what an ACK frame would newly acknowledge; `Ack` begins with this.
    NewlyAcked(Asked),
    /// Discards a space with its keys.
    Discard(SpaceId, Instant),
    /// Declares all packets of a space lost.
    Abandon(SpaceId, Instant),
    /// An event, for example a packet that is sent, or a check for an MTU probe.
    Event(Event<Q>),
}

/// The reply to a call.
#[derive(Drop)]
pub enum CallReplyValue<Q> {
    /// Whether a datagram may be sent.
    Transmission(Transmission),
    /// The result of an ACK frame.
    Acknowledged(Acknowledged),
    /// What an ACK frame would newly acknowledge.
    Newly(NewlyAcked),
    /// The result of a timeout.
    Timeout(Timeout),
    /// The contents of a probe.
    Probe(Q),
    /// The packets of a space that were declared lost.
    Retransmitted(Retransmitted),
    /// The answer to an event.
    Answer(Answer<Q>),
    /// Only the sender itself makes this event; nothing is done.
    Decided,
    /// The call is done.
    Done,
}

/// The reply to a call, with the timer.
#[derive(Drop)]
pub struct CallRecord<Q> {
    /// The reply, or the error.
    pub reply: Result<CallReplyValue<Q>, SenderError>,
    /// When the loss detection timer is due after the call.
    pub timer: Option<Instant>,
}
