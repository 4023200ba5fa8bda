//! The results of a flow, in a line.
use std::alloc::{AllocError, Global};

/// A second in nanoseconds.
const SECOND: u128 = 1_000_000_000;

/// The results of a flow.
#[derive(Clone, Copy)]
pub struct Figures {
    /// How long after the flow began the last byte was acknowledged, or, if it was aborted, the last thing happened, in
    /// nanoseconds.
    pub time: u64,
    /// How many bytes were to be transferred, in packets of this size.
    pub bytes: u64,
    pub size: u16,
    /// How many packets were sent.
    pub sent: u64,
    /// How many were acknowledged.
    pub acked: u64,
    /// How many were declared lost.
    pub lost: u64,
    /// How many the queue dropped.
    pub dropped: u64,
    /// How many probes timeouts caused (RFC 9002, 6.2.4).
    pub probes: u64,
    /// How often congestion was persistent (RFC 9002, 7.6).
    pub persistent: u64,
    /// The most bytes that were queued, of all flows.
    pub queue: u64,
    /// How many packets the queue marked (RFC 3168).
    pub marked: u64,
    /// How many ACKs were lost.
    pub acks_lost: u64,
    /// How long a packet was in the queue on average, in nanoseconds.
    pub wait: u64,
}

impl Figures {
    /// Returns the figures before anything was sent.
    pub fn new(bytes: u64, size: u16) -> Self {
        Figures {
            time: 0,
            bytes,
            size,
            sent: 0,
            acked: 0,
            lost: 0,
            dropped: 0,
            probes: 0,
            persistent: 0,
            queue: 0,
            marked: 0,
            acks_lost: 0,
            wait: 0,
        }
    }

    /// Returns how many bits per second of the payload were acknowledged, rounded down.
    fn goodput(&self) -> u128 {
        let bytes = self
            .acked
            .saturating_mul(u64::from(self.size))
            .min(self.bytes);
        let time = u128::from(self.time).max(1);
        u128::from(bytes) * 8 * SECOND / time
    }

    /// Returns the line.
    pub fn line(&self, alloc: Global) -> Result<String, AllocError> {
        let goodput = self.goodput();
        let Figures {
            time,
            sent,
            acked,
            lost,
            dropped,
            probes,
            persistent,
            queue,
            marked,
            acks_lost,
            wait,
            ..
        } = *self;
        format!(in alloc;
            "time={time} goodput={goodput} sent={sent} acked={acked} lost={lost} dropped={dropped} \
            probes={probes} persistent={persistent} queue={queue} marked={marked} \
            acks-lost={acks_lost} wait={wait}\n"
        )
    }
}
