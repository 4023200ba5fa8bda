//! Transmissions (RFC 9002, 7; RFC 9000, 8.1).
ghost use Rattle.std.specs.Prelude.{◌≡◌, ◌<◌, ◌≤◌, ◌+◌, ◌&&◌, not, ◌∷◌, [], true, false, None, Some, if◌then◌else◌, nat_lt, Ok, IfOk, OnOk, OnErr, IfSome};
ghost use Rattle.recovery_base.specs.declared.below.SpaceId.TheVariants.{Data};
ghost use Rattle.recovery_base.specs.Spaces.{same_space};
ghost use Rattle.recovery_base.specs.Units.{u64_limit};
ghost use Rattle.recovery_events.specs.declared.event.Event.TheVariants.{Send};
ghost use Rattle.recovery_spaces.specs.Discarded.{is_discarded};
ghost use Rattle.recovery_paths.specs.PathStates.{is_blocked};
ghost use Rattle.recovery_losses.specs.Variables.{based, is_probe_due, probed};
ghost use Rattle.recovery_sender.specs.Promises.Pasts.{ForEveryRun};
ghost use Rattle.recovery_sender.specs.Promises.Window.{FitsWindow, IsByRoom};
ghost use Rattle.recovery_sender.specs.Senders.{state_in};
ghost use Rattle.recovery_sender.specs.Calls.{after_transmit, bytes_in_flight, is_checked, is_full, sent_at, sent_in, transmission, transmit_steps, window_of, EventResult, IsTransmissionReply, PermitsAckAlone};
ghost use Rattle.recovery_sender.specs.Steps.{told, TakesSteps, CompletesCall};
ghost use Rattle.recovery_sender.specs.Timer.{IsOnlyPto, TimerIsSet};

use super::{Sender, SenderError};
use rand_core::Rng;
use recovery_base::below::SpaceId;
use recovery_base::time::{Duration, Instant};
use recovery_congestion::congestion::{Controller, ControllerFactory};
use recovery_events::event::{Answer, Refusal};
use recovery_queue::queue::RetransmitQueue;

/// Whether a datagram may be sent.
#[derive(Clone, Copy)]
pub enum Transmission {
    /// It may, and is counted.
    Transmitted,
    /// The amplification limit forbids it (RFC 9000, 8.1).
    Blocked,
    /// The window has no room for it (RFC 9002, 7).
    Full {
        /// Whether an ACK of the space is required at once (RFC 9000, 13.2.1). An ACK needs no room: ask again for a
        /// packet that holds it alone and does not count in flight.
        ack: bool,
    },
    /// The pacer delays it (RFC 9002, 7.7).
    Delayed {
        /// The time to ask again.
        until: Instant,
        /// Whether an ACK of the space is required at once, which is not paced (RFC 9000, 13.2.1).
        ack: bool,
    },
}

/// Returns `now` if a packet counts in flight: if it has a size (RFC 9002, 2).
pub(super) fn counted_at(now: Instant, size: u16) -> Option<Instant>
    ensures { result ≡ (if nat_lt 0 size then Some now else None) }
{
    if size > 0 { Some(now) } else { None }
}

/// Returns whether packets may wait for room in the window: those that count in flight, of a handshake space.
fn may_wait(space: SpaceId, in_flight: bool) -> bool
    ensures { result ≡ (in_flight && not (same_space space Data)) }
{
    in_flight && space != SpaceId::Data
}

/// Returns the space of a packet if it is ack-eliciting.
pub(super) fn eliciting_in(space: SpaceId, ack_eliciting: bool) -> Option<SpaceId>
    ensures { result ≡ (if ack_eliciting then Some space else None) }
{
    if ack_eliciting { Some(space) } else { None }
}

/// Returns the space of an ack-eliciting packet, if the answer reports that it was sent.
fn sent_in<Q>(space: Option<SpaceId>, answer: &Answer<Q>) -> Option<SpaceId>
    ensures { result ≡ sent_in space answer.now }
{
    match answer {
        Answer::Sent { .. } | Answer::Probe { .. } => space,
        _ => None,
    }
}

/// Returns when a packet was sent, if the answer reports so.
fn sent_at<Q>(time: Option<Instant>, answer: &Answer<Q>) -> Option<Instant>
    ensures { result ≡ sent_at time answer.now }
{
    match answer {
        Answer::Sent { .. } | Answer::Probe { .. } => time,
        _ => None,
    }
}

impl<F, Q, R> Sender<F, Q, R>
where
    F: ControllerFactory,
    Q: RetransmitQueue,
    R: Rng + Drop,
{
    /// Returns whether a datagram with packets of a space may be sent now, and counts it if so. The caller reports its
    /// packets by `send` before the next datagram. If nothing in it counts in flight, or a probe is due in the space,
    /// only the amplification limit is checked (RFC 9002, 7, 7.5 and 7.7). Fails, without a change, with
    /// `SpaceDiscarded`, then with `Overflow` if the bytes transmitted on the path would exceed `u64::MAX`.
    ///
    /// Before the handshake is confirmed, 1-RTT packets that the peer cannot read yet may fill the window. So ask for
    /// each handshake packet that waits, even if [`Sender::window_room`] has no room for it: from the first `Full` on
    /// the space has a probe timeout, and its probes pass the window (RFC 9002, 6.2.4 and 7.5).
    #[inline(always)]
    pub fn transmit(
        &mut self,
        now: Instant,
        bytes: u16,
        space: SpaceId,
        in_flight: bool,
    ) -> Result<Transmission, SenderError>
        // By the state before it,
        ensures reply { IsTransmissionReply F.Controller.words (state_in self.old)
            self.old.variables now bytes space in_flight result }

        // so that what counts in flight fits into the window, if no probe is due (RFC 9002, 7).
        ensures window { result ≡ Ok Transmission.Transmitted → in_flight ≡ true
            → is_probe_due self.old.variables space ≡ false
            → bytes_in_flight (state_in self.old) + bytes
            ≤ window_of F.Controller.words (state_in self.old) }

        // By the events before it: a datagram for which the window is checked is sent or delayed only if it fits, and
        // is `Full` only if it does not.
        ensures fits { IfOk result (λ sent. ForEveryRun self.old (λ beginning past. IsByRoom
            (is_checked self.old.variables space in_flight) (FitsWindow beginning past bytes)
            sent)) }

        // The recovery takes an event for what limit and window permit. A handshake space waits
        // while there is no room.
        ensures steps { IfOk result (λ sent. let old = state_in self.old in
            CompletesCall (transmit_steps now bytes
            (is_checked self.old.variables space in_flight) sent)
            (after_transmit now space in_flight sent self.old.variables) self.old self.new) }

        // If the window or the pacer holds it back, a datagram of its size that does not count in flight, as an ACK
        // alone, may be sent at once.
        ensures alone { IfOk result (λ sent. PermitsAckAlone (state_in self.new) space bytes sent) }
        ensures refused { OnErr result (self.new ≡ self.old) }
    {
        let Some(is_checked) = self.is_checked(space, in_flight) else {
            return Err(SenderError::Event(Refusal::SpaceDiscarded));
        };
        let ack = self.ack_required(space);
        if !self.path().has_room(bytes) {
            return Err(SenderError::Event(Refusal::Overflow));
        }
        let was_timed = self.is_timed_unlimited();
        let known = self.known_pto();
        let sent = self.transmit_where_it_may(now, bytes, is_checked, ack);
        self.end_transmit(space, now, in_flight, &sent, was_timed, known);
        Ok(sent)
    }

    /// Ends a call that asks for a datagram. If it counts in flight in a handshake space, its packet may wait for room
    /// now, or no longer.
    #[inline(always)]
    fn end_transmit(
        &mut self,
        space: SpaceId,
        now: Instant,
        in_flight: bool,
        sent: &Transmission,
        was_timed: bool,
        known: Option<Duration>,
    )
        requires timed { was_timed ≡ true → TimerIsSet (state_in self.old) self.old.variables }
        requires known { was_timed ≡ true → IsOnlyPto (state_in self.old) self.old.variables known }
        ensures { CompletesCall [] (after_transmit now space in_flight sent.now self.old.variables)
            self.old self.new }
    {
        if !may_wait(space, in_flight) {
            self.time_on(was_timed, known);
            return;
        }
        self.note_room(space, now, in_flight, sent);
        self.set_loss_detection_timer();
    }

    /// Records whether a packet of a space waits for room in the window. This may move the timer.
    fn note_room(&mut self, space: SpaceId, now: Instant, in_flight: bool, sent: &Transmission)
        ensures state { state_in self.new ≡ state_in self.old }
        ensures variables { self.new.variables
            ≡ after_transmit now space in_flight sent.now self.old.variables }
    {
        self.is_timer_current = false;
        if !in_flight {
            return;
        }
        match sent {
            Transmission::Full { .. } => self.variables.find_full(space, now),
            Transmission::Transmitted | Transmission::Delayed { .. } => {
                self.variables.find_room(space)
            }
            Transmission::Blocked => {}
        }
    }

    /// Records a sent packet, as [`Event::Send`] and with its errors. The probe timeout of its space is measured from
    /// the last ack-eliciting packet (RFC 9002, 6.2.1 and A.5).
    #[inline(always)]
    pub fn send(
        &mut self,
        space: SpaceId,
        now: Instant,
        size: u16,
        ack_eliciting: bool,
        largest_acked: Option<u64>,
        queue: Q,
        stream_frames: Q::Meta,
    ) -> Result<Answer<Q>, SenderError>
        ensures { EventResult
            (Send space now size ack_eliciting largest_acked queue stream_frames)
            self.old self.new result }
    {
        let known = self.known_pto_in(space);
        let sent = self.apply_send(
            space,
            now,
            size,
            ack_eliciting,
            largest_acked,
            queue,
            stream_frames,
        );
        match sent {
            Ok(answer) => {
                let time = counted_at(now, size);
                self.count_sent(time, eliciting_in(space, ack_eliciting), &answer);
                self.move_timer(known);
                Ok(answer)
            }
            Err(refusal) => Err(SenderError::Event(refusal)),
        }
    }

    /// Returns the only probe timeout that may be due, if it is known and the space is that of 1-RTT packets.
    #[inline(always)]
    fn known_pto_in(&self, space: SpaceId) -> Option<Duration>
        ensures known { IsOnlyPto (state_in self.now) self.now.variables result }
        ensures there { IfSome result (λ pto. space ≡ Data) }
    {
        if space == SpaceId::Data {
            self.known_pto()
        } else {
            None
        }
    }

    /// Records a transmission: at `time` if it counts in flight, in `space` if it is ack-eliciting (RFC 9002, 6.2.4 and
    /// A.5). This may move the timer.
    #[inline(always)]
    pub(super) fn count_sent(
        &mut self,
        time: Option<Instant>,
        elicits: Option<SpaceId>,
        answer: &Answer<Q>,
    )
        ensures state { state_in self.new ≡ state_in self.old }
        ensures variables { self.new.variables ≡ probed (sent_in elicits answer.now)
            (based (sent_at time answer.now) self.old.variables) }
    {
        self.is_timer_current = false;
        self.variables.restart(sent_at(time, answer));
        self.variables.count_probe(sent_in(elicits, answer));
    }

    /// Returns whether window and pacer are checked for a datagram with packets of a space; `None` if that is
    /// discarded.
    #[inline(always)]
    fn is_checked(&self, space: SpaceId, in_flight: bool) -> Option<bool>
        ensures { result ≡ (if is_discarded space (state_in self.now).discarded then None
            else Some (is_checked self.now.variables space in_flight)) }
    {
        self.space(space)?;
        Some(in_flight && !self.variables.is_probe_due(space))
    }

    /// Sends the datagram, if limit, window and pacer permit.
    #[inline(always)]
    fn transmit_where_it_may(
        &mut self,
        now: Instant,
        bytes: u16,
        is_checked: bool,
        ack: bool,
    ) -> Transmission
        requires total { (state_in self.old).paths.current.state.total_sent + bytes < u64_limit }
        ensures value { result
            ≡ transmission F.Controller.words (state_in self.old) now bytes is_checked ack }
        ensures steps { TakesSteps (transmit_steps now bytes is_checked result) self.old self.new }
    {
        if self.path().anti_amplification_blocked(u64::from(bytes)) {
            Transmission::Blocked
        } else if is_checked && self.is_full(bytes) {
            Transmission::Full { ack }
        } else {
            self.transmit_now(now, bytes, is_checked, ack)
        }
    }

    /// Returns whether the window has no room for `bytes` more (RFC 9002, 7).
    #[inline(always)]
    fn is_full(&self, bytes: u16) -> bool
        ensures { result ≡ is_full F.Controller.words (state_in self.now) bytes }
    {
        let path = self.path();
        let after = u128::from(path.in_flight().bytes) + u128::from(bytes);
        after > u128::from(path.congestion.window())
    }

    /// Sends the datagram, if the pacer permits.
    #[inline(always)]
    fn transmit_now(
        &mut self,
        now: Instant,
        bytes: u16,
        is_checked: bool,
        ack: bool,
    ) -> Transmission
        requires total { (state_in self.old).paths.current.state.total_sent + bytes < u64_limit }
        requires limit { is_blocked (state_in self.old).paths.current.state bytes ≡ false }
        requires window { is_checked ≡ true
            → is_full F.Controller.words (state_in self.old) bytes ≡ false }
        ensures value { result
            ≡ transmission F.Controller.words (state_in self.old) now bytes is_checked ack }
        ensures steps { TakesSteps (transmit_steps now bytes is_checked result) self.old self.new }
    {
        match self.tell_transmit(now, bytes, is_checked) {
            Answer::Transmitted => Transmission::Transmitted,
            Answer::Delayed(until) => Transmission::Delayed { until, ack },
            _ => unreachable!(),
        }
    }
}
