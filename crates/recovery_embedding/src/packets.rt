//! Packets to send, and the retransmission queue (RFC 9002, A.5).
use crate::connection::Connection;
use quic_recovery::below::SpaceId;
use quic_recovery::time::Instant;
use quic_recovery::{Answer, Event};
use recovery_queue::items::ItemQueue;
use recovery_sender::SenderError;

impl Connection {
    /// Sends an ack-eliciting packet with these items, in a datagram that was asked for. Returns its number. The table
    /// of replies states that the answer is `Sent`: no other arm is reached.
    pub fn send(
        &mut self,
        space: SpaceId,
        now: Instant,
        size: u16,
        items: ItemQueue,
    ) -> Result<u64, SenderError> {
        match self.sender.send(space, now, size, true, None, items, ()) {
            Ok(Answer::Sent { number, .. }) => Ok(number),
            Ok(_) => unreachable!(),
            Err(refused) => Err(refused),
        }
    }

    /// Returns the items that wait for retransmission.
    pub fn pending(&mut self, space: SpaceId) -> Result<ItemQueue, SenderError> {
        match self.sender.on_event(Event::TakePending { space }) {
            Ok(Answer::Queue(items)) => Ok(items),
            Ok(_) => unreachable!(),
            Err(refused) => Err(refused),
        }
    }
}
