//! ACKs received, the loss detection timer, and discarded keys (RFC 9002, A.7, A.9 and A.11).
use crate::connection::Connection;
use quic_recovery::below::{EcnCounts, SpaceId};
use quic_recovery::time::{Duration, Instant};
use recovery_queue::items::ItemQueue;
use recovery_sender::{Ack, Acknowledged, Retransmitted, SenderError, Timeout};

impl Connection {
    /// Processes a received ACK frame: its ranges, the largest first (RFC 9000, 19.3), the ACK delay that the peer
    /// reported, and its ECN counts. What it newly acknowledges arrived; what it shows to be lost waits for
    /// retransmission. If a number was skipped or not sent, the call fails and changes nothing: then close the
    /// connection (RFC 9000, 13.1).
    pub fn hear_ack(
        &mut self,
        now: Instant,
        space: SpaceId,
        ranges: &[(u64, u64)],
        delay: Duration,
        ecn: Option<EcnCounts>,
    ) -> Result<Acknowledged, SenderError> {
        let ack = Ack {
            delay,
            ecn,
            app_limited: self.app_limited,
            received: None,
        };
        self.sender.on_ack(space, now, ranges, ack)
    }

    /// Processes the loss detection timer. Returns the space and the count of the probes to send. If there are none,
    /// packets were declared lost, and their contents wait for retransmission. If allocation failed for some, the timer
    /// is due at once.
    pub fn loss_timer_expired(
        &mut self,
        now: Instant,
    ) -> Result<Option<(SpaceId, u8)>, SenderError> {
        match self.sender.on_timeout(now) {
            Ok(Timeout::Probe { space, count }) => Ok(Some((space, count))),
            Ok(_) => Ok(None),
            Err(refused) => Err(refused),
        }
    }

    /// Returns the contents of a probe in a space: what waits there, or the contents of the first packet in flight that
    /// has any.
    pub fn probe(&mut self, space: SpaceId) -> Result<ItemQueue, SenderError> {
        self.sender.probe(space, false, ())
    }

    /// Declares all packets of a space lost, since a Retry was received, the server rejected 0-RTT (RFC 9002, 6.3 and
    /// 6.4), or the connection closes. Their contents wait for retransmission. If allocation failed for some, `is_cut`
    /// is true, and the same call continues with them.
    pub fn sent_in_vain(
        &mut self,
        space: SpaceId,
        now: Instant,
    ) -> Result<Retransmitted, SenderError> {
        self.sender.retransmit_all(space, now)
    }

    /// Records that the handshake is confirmed, and discards the Handshake keys (RFC 9001, 4.9.2).
    pub fn confirm(&mut self, now: Instant) -> Result<(), SenderError> {
        self.sender.on_handshake_confirmed();
        self.sender.discard(SpaceId::Handshake, now)
    }
}
