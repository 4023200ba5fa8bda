//! Datagrams, and the paths on which they are sent (RFC 9000, 8 and 9; RFC 9002, 7 and 7.7).
use crate::connection::Connection;
use quic_recovery::below::SpaceId;
use quic_recovery::time::Instant;
use quic_recovery::timer::Timer;
use quic_recovery::{Answer, Event, PathName};
use recovery_queue::items::ItemQueue;
use recovery_sender::{SenderError, Transmission};
use std::net::SocketAddr;

/// Whether a datagram may be sent.
#[derive(Clone, Copy, Debug)]
pub enum Departure {
    /// It is sent.
    Now,
    /// It waits for the pacer's timer, which expires at this time, in nanoseconds.
    Later(u64),
    /// It waits for an ACK or a loss: the window has no room for it.
    Full,
    /// It waits for the peer: for a datagram, or for the address to be validated.
    Blocked,
}

/// Returns the departure for the answer to a datagram.
fn departure_of(sent: &Transmission) -> Departure {
    match sent {
        Transmission::Transmitted => Departure::Now,
        Transmission::Delayed { until, .. } => Departure::Later(until.as_nanos()),
        Transmission::Full { .. } => Departure::Full,
        Transmission::Blocked => Departure::Blocked,
    }
}

/// Returns the departure for the answer to a burst.
fn burst_by(answer: &Answer<ItemQueue>) -> Departure {
    match answer {
        Answer::Delayed(moment) => Departure::Later(moment.as_nanos()),
        _ => Departure::Now,
    }
}

/// Returns the bytes in flight in an answer.
fn bytes_by(answer: &Answer<ItemQueue>) -> u64 {
    match answer {
        Answer::InFlight { bytes, .. } => *bytes,
        _ => 0,
    }
}

impl Connection {
    /// Processes a received datagram, before its packets.
    pub fn datagram_in(&mut self, path: PathName, bytes: u64) -> Result<(), SenderError> {
        match path {
            PathName::Current => self.sender.on_datagram(bytes),
            PathName::Previous => self.tell(Event::DatagramIn { path, bytes }),
        }
    }

    /// Asks for a datagram, with packets of a space that count in flight. If it is delayed, try again when the pacer's
    /// timer expires.
    pub fn transmit(
        &mut self,
        now: Instant,
        bytes: u16,
        space: SpaceId,
    ) -> Result<Departure, SenderError> {
        let departure = match self.sender.transmit(now, bytes, space, true) {
            Ok(sent) => departure_of(&sent),
            Err(refused) => return Err(refused),
        };
        self.wait_for_pacer(departure)
    }

    fn wait_for_pacer(&mut self, departure: Departure) -> Result<Departure, SenderError> {
        if let Departure::Later(nanos) = departure {
            self.set_timer(Timer::Pacing, Instant::from_nanos(nanos))?;
        }
        Ok(departure)
    }

    /// Asks the pacer whether a burst may be sent.
    pub fn may_burst(&mut self, now: Instant, bytes: u64) -> Result<Departure, SenderError> {
        let departure = match self.sender.on_event(Event::PacerCheck { now, bytes }) {
            Ok(answer) => burst_by(&answer),
            Err(refused) => return Err(refused),
        };
        self.wait_for_pacer(departure)
    }

    /// Returns what is in flight on a path, in bytes.
    pub fn in_flight(&mut self, path: PathName) -> Result<u64, SenderError> {
        match self.sender.on_event(Event::InFlight { path }) {
            Ok(answer) => Ok(bytes_by(&answer)),
            Err(refused) => Err(refused),
        }
    }

    /// Processes a change of the peer's address. If only a port changed, the network path is most likely the same (a
    /// NAT rebinding), and its state is inherited; otherwise all starts again (RFC 9000, 9.4). A challenge validates
    /// the address (RFC 9000, 8.2).
    pub fn peer_moved(
        &mut self,
        now: Instant,
        remote: SocketAddr,
        challenge: u64,
    ) -> Result<(), SenderError> {
        let fresh = self.state().current().remote.ip() != remote.ip();
        self.tell(Event::NewPath { now, remote, fresh })?;
        self.challenge = Some(challenge);
        self.sender.set_challenge(Some(challenge), false);
        let patience = self.three_timeouts();
        self.set_timer(Timer::PathValidation, now + patience)
    }

    /// Processes a PATH_RESPONSE. Returns whether it answers the challenge, so that the address of the current path is
    /// validated. The previous path is then dropped.
    pub fn path_response(&mut self, answered: u64) -> Result<bool, SenderError> {
        if self.challenge != Some(answered) {
            return Ok(false);
        }
        self.challenge = None;
        self.sender.set_challenge(None, false);
        self.stop_timer(Timer::PathValidation)?;
        self.sender.on_address_validated();
        self.tell(Event::DropPrevious)?;
        Ok(true)
    }

    /// Processes the timer of path validation: the challenge was not answered, for example because the address was
    /// spoofed. The previous path is in use again (RFC 9000, 9.3.2).
    pub fn path_failed(&mut self) -> Result<(), SenderError> {
        self.challenge = None;
        self.sender.set_challenge(None, false);
        self.stop_timer(Timer::PathValidation)?;
        self.tell(Event::RevertPath)
    }

    /// The network of the current path is another one, though the addresses stay, for example if the local endpoint
    /// changes networks under a tunnel.
    pub fn network_changed(&mut self, now: Instant) -> Result<(), SenderError> {
        self.tell(Event::ResetPath { now })
    }
}
