//! Connection IDs of both endpoints (RFC 9000, 5.1).
ghost use Rattle.recovery_sender.specs.Calls.{IsPassedThrough};

use crate::connection::Connection;
use quic_recovery::below::{ConnectionId, IssuedCid, NewConnectionId, ResetToken};
use quic_recovery::time::Instant;
use quic_recovery::timer::Timer;
use quic_recovery::{Answer, Event, Refusal};
use recovery_queue::items::ItemQueue;
use recovery_sender::SenderError;
use std::alloc::Global;

impl Connection {
    /// Stores the ID that the server chose in its first packet, to which all later packets are sent (RFC 9000, 7.2).
    pub fn server_id(&mut self, id: ConnectionId) -> Result<(), SenderError> {
        self.tell(Event::InitialId(id))
    }

    /// Processes an ID that the peer issues, which may ask for the retirement of others. Returns the numbers for which
    /// to send RETIRE_CONNECTION_ID, from the first to below the second.
    pub fn new_id(&mut self, frame: NewConnectionId) -> Result<Option<(u64, u64)>, SenderError> {
        self.retire(Event::NewId(frame))
    }

    /// Uses another ID of the peer, as on another path (RFC 9000, 9.5). Returns `None` if no other is held.
    pub fn next_id(&mut self) -> Result<Option<(u64, u64)>, SenderError> {
        self.retire(Event::NextId)
    }

    /// Stores the token of the new ID, with which the peer resets a connection (RFC 9000, 10.3).
    fn retire(&mut self, event: Event<ItemQueue>) -> Result<Option<(u64, u64)>, SenderError>
        requires { IsPassedThrough event }
    {
        match self.sender.on_event(event) {
            Ok(Answer::Retire(Some((numbers, token)))) => {
                self.peer_token = Some(token);
                Ok(Some((numbers.start, numbers.end)))
            }
            Ok(_) => Ok(None),
            Err(refused) => Err(refused),
        }
    }

    /// Returns whether a datagram that ends with these bytes resets the connection.
    pub fn is_reset(&self, last: [u8; 16]) -> bool {
        match &self.peer_token {
            Some(token) => *token == ResetToken::from(last),
            None => false,
        }
    }

    /// Issues one more local ID, by a NEW_CONNECTION_ID frame. Returns its number.
    pub fn issue_id(&mut self, alloc: Global, now: Instant, byte: u8) -> Result<u64, SenderError> {
        let sequence = self.state().local_ids().issued();
        let mut ids = Vec::new(alloc);
        let issued = IssuedCid {
            sequence,
            id: ConnectionId::new(&[byte; 8]),
            reset_token: ResetToken::from([byte; 16]),
        };
        if ids.push(issued).is_err() {
            return Err(SenderError::Event(Refusal::NoMemory));
        }
        self.tell(Event::IssueIds { now, ids })?;
        self.arm_id_timer()?;
        Ok(sequence)
    }

    /// Sets the timer for new IDs to the oldest deadline, or stops it if there is none.
    fn arm_id_timer(&mut self) -> Result<(), SenderError> {
        match self.state().local_ids().next_timeout() {
            Some(moment) => self.set_timer(Timer::PushNewCid, moment),
            None => self.stop_timer(Timer::PushNewCid),
        }
    }

    /// Processes that timer. Returns whether to issue IDs with `retire_prior_to` in their frames.
    pub fn id_timer_expired(&mut self) -> Result<bool, SenderError> {
        let is_asked = match self.sender.on_event(Event::IdTimeout) {
            Ok(Answer::Flag(is_asked)) => is_asked,
            Ok(_) => unreachable!(),
            Err(refused) => return Err(refused),
        };
        self.arm_id_timer()?;
        Ok(is_asked)
    }

    /// Processes a local ID that the peer retires. Returns whether the peer has room for one more (`limit`: its
    /// active_connection_id_limit).
    pub fn peer_retired(&mut self, sequence: u64, limit: u64) -> Result<bool, SenderError> {
        match self.sender.on_event(Event::PeerRetired { sequence, limit }) {
            Ok(Answer::Flag(has_room)) => Ok(has_room),
            Ok(_) => unreachable!(),
            Err(refused) => Err(refused),
        }
    }
}
