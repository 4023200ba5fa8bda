//! The size of datagrams (RFC 8899; RFC 9000, 14).
use crate::connection::Connection;
use quic_recovery::below::SpaceId;
use quic_recovery::time::{Duration, Instant};
use quic_recovery::{Answer, Event};
use recovery_sender::SenderError;

impl Connection {
    /// Processes the peer's transport parameters: max_udp_payload_size and max_ack_delay (RFC 9000, 18.2).
    pub fn peer_parameters(
        &mut self,
        size: u16,
        max_ack_delay: Duration,
    ) -> Result<(), SenderError> {
        self.sender.set_peer_max_ack_delay(max_ack_delay);
        self.tell(Event::PeerLimit { size })
    }

    /// Uses the MTU of the tunnel that the connection runs through, in place of a search (RFC 9000, 14.3).
    pub fn use_tunnel(&mut self, mtu: u16) -> Result<(), SenderError> {
        self.tell(Event::MtuFound { mtu })
    }

    /// Returns number and size of an MTU probe to send now, if any; the packet fills its datagram. It is tracked
    /// already, and acknowledged or lost as any other. Window and pacer do not apply (RFC 9000, 14.4).
    pub fn probe_mtu(&mut self, now: Instant) -> Result<Option<(u64, u16)>, SenderError> {
        let (number, size) = match self.sender.poll_mtu(now) {
            Ok(Answer::Probe { number, size }) => (number, size),
            Ok(_) => return Ok(None),
            Err(refused) => return Err(refused),
        };
        match self.sender.transmit(now, size, SpaceId::Data, false) {
            Ok(_) => Ok(Some((number, size))),
            Err(refused) => Err(refused),
        }
    }
}
