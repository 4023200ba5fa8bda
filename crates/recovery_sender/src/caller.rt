//! A sender that takes calls as values.
ghost use Rattle.std.specs.Prelude.{◌≡◌};
ghost use Rattle.recovery_sender.specs.CallReplies.{is_done, CallReply};

use crate::calls::{Asked, Asking, Call, CallReplyValue, Datagram, Frame};
use crate::sender::{Sender, SenderError, passes};
use rand_core::Rng;
use recovery_base::below::SpaceId;
use recovery_base::time::{Duration, Instant};
use recovery_congestion::congestion::ControllerFactory;
use recovery_events::event::Event;
use recovery_queue::queue::RetransmitQueue;

/// A sender that takes calls as values.
#[derive(Drop)]
pub struct Caller<F: ControllerFactory, Q: RetransmitQueue, R: Rng> {
    pub sender: Sender<F, Q, R>,
}

/// Returns `Done` or the error.
fn done<Q>(done: Result<(), SenderError>) -> Result<CallReplyValue<Q>, SenderError>
    ensures { result ≡ is_done done }
{
    match done {
        Ok(()) => Ok(CallReplyValue::Done),
        Err(refused) => Err(refused),
    }
}

impl<F, Q, R> Caller<F, Q, R>
where
    F: ControllerFactory,
    Q: RetransmitQueue,
    R: Rng + Drop,
{
    /// Makes one call with the method of its name.
    pub fn call(&mut self, call: Call<Q>) -> Result<CallReplyValue<Q>, SenderError>
        ensures { CallReply call self.old.sender self.new.sender result }
    {
        match call {
            Call::Transmit(datagram) => self.transmit(datagram),
            Call::Ack(frame) => self.take_ack(frame),
            Call::Timeout(now) => self.expire(now),
            Call::Probe(asking) => self.probe(asking),
            Call::Datagram(bytes) => self.receive(bytes),
            Call::HandshakeKeys => self.handshake_keys(),
            Call::HandshakeConfirmed => self.handshake_confirmed(),
            Call::AddressValidated => self.address_validated(),
            Call::PeerDelay(span) => self.peer_delay(span),
            Call::InitialRtt(rtt) => self.set_initial_rtt(rtt),
            Call::Challenge(challenge, pending) => self.challenge(challenge, pending),
            Call::NewlyAcked(asked) => self.newly_acked(asked),
            Call::Discard(space, now) => self.discard(space, now),
            Call::Abandon(space, now) => self.retransmit_all(space, now),
            Call::Event(event) => self.pass(event),
        }
    }

    fn transmit(&mut self, datagram: Datagram) -> Result<CallReplyValue<Q>, SenderError>
        ensures { CallReply (Call.Transmit datagram) self.old.sender self.new.sender result }
    {
        let Datagram {
            space,
            now,
            bytes,
            in_flight,
        } = datagram;
        match self.sender.transmit(now, bytes, space, in_flight) {
            Ok(sent) => Ok(CallReplyValue::Transmission(sent)),
            Err(refused) => Err(refused),
        }
    }

    fn take_ack(&mut self, frame: Frame) -> Result<CallReplyValue<Q>, SenderError>
        ensures { CallReply (Call.Ack frame) self.old.sender self.new.sender result }
    {
        match self
            .sender
            .on_ack(frame.space, frame.now, &frame.ranges, frame.ack)
        {
            Ok(acknowledged) => Ok(CallReplyValue::Acknowledged(acknowledged)),
            Err(refused) => Err(refused),
        }
    }

    fn expire(&mut self, now: Instant) -> Result<CallReplyValue<Q>, SenderError>
        ensures { CallReply (Call.Timeout now) self.old.sender self.new.sender result }
    {
        match self.sender.on_timeout(now) {
            Ok(timeout) => Ok(CallReplyValue::Timeout(timeout)),
            Err(refused) => Err(refused),
        }
    }

    fn probe(&mut self, asking: Asking<Q>) -> Result<CallReplyValue<Q>, SenderError>
        ensures { CallReply (Call.Probe asking) self.old.sender self.new.sender result }
    {
        let Asking {
            space,
            immediate_ack,
            streams,
        } = asking;
        match self.sender.probe(space, immediate_ack, streams) {
            Ok(queue) => Ok(CallReplyValue::Probe(queue)),
            Err(refused) => Err(refused),
        }
    }

    fn receive(&mut self, bytes: u64) -> Result<CallReplyValue<Q>, SenderError>
        ensures { CallReply (Call.Datagram bytes) self.old.sender self.new.sender result }
    {
        done(self.sender.on_datagram(bytes))
    }

    fn handshake_keys(&mut self) -> Result<CallReplyValue<Q>, SenderError>
        ensures { CallReply Call.HandshakeKeys self.old.sender self.new.sender result }
    {
        self.sender.on_handshake_keys();
        Ok(CallReplyValue::Done)
    }

    fn handshake_confirmed(&mut self) -> Result<CallReplyValue<Q>, SenderError>
        ensures { CallReply Call.HandshakeConfirmed self.old.sender self.new.sender result }
    {
        self.sender.on_handshake_confirmed();
        Ok(CallReplyValue::Done)
    }

    fn address_validated(&mut self) -> Result<CallReplyValue<Q>, SenderError>
        ensures { CallReply Call.AddressValidated self.old.sender self.new.sender result }
    {
        self.sender.on_address_validated();
        Ok(CallReplyValue::Done)
    }

    fn peer_delay(&mut self, span: Duration) -> Result<CallReplyValue<Q>, SenderError>
        ensures { CallReply (Call.PeerDelay span) self.old.sender self.new.sender result }
    {
        self.sender.set_peer_max_ack_delay(span);
        Ok(CallReplyValue::Done)
    }

    fn set_initial_rtt(&mut self, rtt: Duration) -> Result<CallReplyValue<Q>, SenderError>
        ensures { CallReply (Call.InitialRtt rtt) self.old.sender self.new.sender result }
    {
        self.sender.set_initial_rtt(rtt);
        Ok(CallReplyValue::Done)
    }

    fn challenge(
        &mut self,
        challenge: Option<u64>,
        pending: bool,
    ) -> Result<CallReplyValue<Q>, SenderError>
        ensures { CallReply (Call.Challenge challenge pending) self.old.sender self.new.sender
            result }
    {
        self.sender.set_challenge(challenge, pending);
        Ok(CallReplyValue::Done)
    }

    fn newly_acked(&mut self, asked: Asked) -> Result<CallReplyValue<Q>, SenderError>
        ensures { CallReply (Call.NewlyAcked asked) self.old.sender self.new.sender result }
    {
        let Asked {
            space,
            ranges,
            room,
        } = asked;
        match self.sender.newly_acked(space, &ranges, room) {
            Ok(newly) => Ok(CallReplyValue::Newly(newly)),
            Err(refused) => Err(refused),
        }
    }

    fn discard(&mut self, space: SpaceId, now: Instant) -> Result<CallReplyValue<Q>, SenderError>
        ensures { CallReply (Call.Discard space now) self.old.sender self.new.sender result }
    {
        done(self.sender.discard(space, now))
    }

    fn retransmit_all(
        &mut self,
        space: SpaceId,
        now: Instant,
    ) -> Result<CallReplyValue<Q>, SenderError>
        ensures { CallReply (Call.Abandon space now) self.old.sender self.new.sender result }
    {
        match self.sender.retransmit_all(space, now) {
            Ok(retransmitted) => Ok(CallReplyValue::Retransmitted(retransmitted)),
            Err(refused) => Err(refused),
        }
    }

    fn pass(&mut self, event: Event<Q>) -> Result<CallReplyValue<Q>, SenderError>
        ensures { CallReply (Call.Event event) self.old.sender self.new.sender result }
    {
        if !passes(&event) {
            return Ok(CallReplyValue::Decided);
        }
        match self.sender.on_event(event) {
            Ok(answer) => Ok(CallReplyValue::Answer(answer)),
            Err(refused) => Err(refused),
        }
    }
}
