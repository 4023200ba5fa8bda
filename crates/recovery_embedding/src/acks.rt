//! ACKs that the local endpoint sends (RFC 9000, 13.2).
use crate::connection::Connection;
use quic_recovery::below::{AckFrequency, SpaceId};
use quic_recovery::time::Instant;
use quic_recovery::timer::Timer;
use quic_recovery::{Answer, Event};
use recovery_queue::items::ItemQueue;
use recovery_sender::SenderError;
use std::alloc::Global;

/// What a received packet asks for.
#[derive(Clone, Copy, Debug)]
pub enum Heard {
    /// Duplicate, or too old to know: drop the packet.
    Duplicate,
    /// Send an ACK at once.
    AckNow,
    /// The ACK delay timer runs.
    AckLater,
    /// Nothing, or the timer runs already.
    Nothing,
}

impl Connection {
    /// Processes a received ack-eliciting packet, before its frames.
    pub fn hear(
        &mut self,
        space: SpaceId,
        now: Instant,
        number: u64,
    ) -> Result<Heard, SenderError> {
        let packet = Event::Received {
            space,
            now,
            number,
            ack_eliciting: true,
        };
        match self.sender.on_event(packet) {
            Ok(Answer::New { arm }) => self.plan_ack(space, now, arm),
            Ok(_) => Ok(Heard::Duplicate),
            Err(refused) => Err(refused),
        }
    }

    /// Starts the ACK delay timer: of 1-RTT packets, for the delay that the peer last asked for. An ACK of Initial and
    /// Handshake packets is sent at once (RFC 9000, 13.2.1).
    fn plan_ack(&mut self, space: SpaceId, now: Instant, arm: bool) -> Result<Heard, SenderError> {
        if arm && space == SpaceId::Data {
            let delay = self.state().ack_frequency().max_ack_delay;
            self.set_timer(Timer::MaxAckDelay, now + delay)?;
            return Ok(Heard::AckLater);
        }
        if arm {
            self.tell(Event::AckDelayTimeout { space })?;
        }
        Ok(if self.must_acknowledge(space) {
            Heard::AckNow
        } else {
            Heard::Nothing
        })
    }

    /// Returns whether to send an ACK in a packet of its own.
    fn must_acknowledge(&self, space: SpaceId) -> bool {
        match self.state().space(space) {
            Some(here) => here.pending_acks.can_send(),
            None => false,
        }
    }

    /// Processes the expiry of the ACK delay timer. Returns whether to send an ACK.
    pub fn ack_timer_expired(&mut self) -> Result<bool, SenderError> {
        self.stop_timer(Timer::MaxAckDelay)?;
        self.tell(Event::AckDelayTimeout {
            space: SpaceId::Data,
        })?;
        Ok(self.must_acknowledge(SpaceId::Data))
    }

    /// Sends an ACK of all numbers in a packet of its own, which congestion control does not count (RFC 9002, 7).
    /// Returns the largest number in it.
    pub fn acknowledge(
        &mut self,
        alloc: Global,
        space: SpaceId,
        now: Instant,
    ) -> Result<Option<u64>, SenderError> {
        let largest = self.largest_heard(space);
        let empty = ItemQueue::from_items(Vec::new(alloc));
        if let Err(refused) = self.sender.send(space, now, 0, false, largest, empty, ()) {
            return Err(refused);
        }
        self.tell(Event::AcksSent { space })?;
        if space == SpaceId::Data {
            self.stop_timer(Timer::MaxAckDelay)?;
        }
        Ok(largest)
    }

    /// Returns the largest number that is to be acknowledged. An ACK frame has all `ranges`, and `ack_delay(now)`.
    fn largest_heard(&self, space: SpaceId) -> Option<u64> {
        let here = self.state().space(space)?;
        let mut largest = None;
        for range in here.pending_acks.ranges().iter() {
            largest = Some(range.end.saturating_sub(1));
        }
        largest
    }

    /// Processes an ACK_FREQUENCY frame. Returns whether it is newer than the last one, and accepted.
    pub fn ask_fewer_acks(&mut self, frame: AckFrequency) -> Result<bool, SenderError> {
        match self.sender.on_event(Event::AckFrequencyIn(frame)) {
            Ok(Answer::Flag(is_newer)) => Ok(is_newer),
            Ok(_) => unreachable!(),
            Err(refused) => Err(refused),
        }
    }
}
