//! Timers: the recovery stores their times, and the stack has one clock (RFC 9002, A.8).
use crate::connection::Connection;
use quic_recovery::below::SpaceId;
use quic_recovery::time::{Duration, Instant};
use quic_recovery::timer::Timer;
use quic_recovery::{Answer, Event};
use recovery_sender::{SenderError, passes};

impl Connection {
    /// Sets one of the stack's own timers. The sender sets the loss detection timer, which is unchanged.
    pub fn set_timer(&mut self, timer: Timer, time: Instant) -> Result<(), SenderError> {
        let event = Event::SetTimer { timer, time };
        if !passes(&event) {
            return Ok(());
        }
        self.tell(event)
    }

    /// Stops a timer.
    pub fn stop_timer(&mut self, timer: Timer) -> Result<(), SenderError> {
        let event = Event::StopTimer { timer };
        if !passes(&event) {
            return Ok(());
        }
        self.tell(event)
    }

    /// Returns when the stack is to wake up, in nanoseconds, if at all.
    pub fn next_timeout(&mut self) -> Result<Option<u64>, SenderError> {
        match self.sender.on_event(Event::NextTimeout) {
            Ok(Answer::Timeout(Some(moment))) => Ok(Some(moment.as_nanos())),
            Ok(Answer::Timeout(None)) => Ok(None),
            Ok(_) => unreachable!(),
            Err(refused) => Err(refused),
        }
    }

    /// Returns whether a timer has expired when the stack wakes up. It stays set until it is set again or stopped.
    pub fn has_expired(&self, timer: Timer, now: Instant) -> bool {
        self.state().timers().is_expired(timer, now)
    }

    /// Returns three probe timeouts, the larger of both paths' (RFC 9000, 8.2.4 and 10.2; RFC 9002, 6.2.1).
    pub fn three_timeouts(&self) -> Duration {
        let base = self.state().current().rtt.pto_base();
        let base = match self.state().previous() {
            Some(path) => base.max(path.rtt.pto_base()),
            None => base,
        };
        let timeout = base + self.sender.variables().max_ack_delay;
        timeout + timeout + timeout
    }

    /// Closes the connection: only its end remains, in three probe timeouts (RFC 9000, 10.2). What is in flight is
    /// given up, so that the sender sets no timer any more.
    pub fn close(&mut self, now: Instant) -> Result<(), SenderError> {
        for timer in Timer::VALUES {
            self.stop_timer(timer)?;
        }
        let patience = self.three_timeouts();
        self.set_timer(Timer::Close, now + patience)?;
        self.sent_in_vain(SpaceId::Data, now)?;
        Ok(())
    }
}
