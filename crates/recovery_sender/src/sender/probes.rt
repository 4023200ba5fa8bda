//! Timeouts of the loss detection timer, and the contents of probes (RFC 9002, 6.2 and A.9).
ghost use Rattle.std.specs.Prelude.{◌≡◌, ◌∷◌, [], false, IfSome, Ok};
ghost use Rattle.recovery_events.specs.declared.event.Answer.{Answer};
ghost use Rattle.recovery_events.specs.declared.event.Event.TheVariants.{TakePending};
ghost use Rattle.recovery_spaces.specs.Discarded.{is_discarded};
ghost use Rattle.recovery_sender.specs.Calls.{done_of, due_now, space_due, ProbeResult, QueuesProbe};
ghost use Rattle.recovery_losses.specs.Variables.{timed_out};
ghost use Rattle.recovery_sender.specs.Senders.{state_in};
ghost use Rattle.recovery_sender.specs.Steps.{told, TakesSteps, CompletesCall};
ghost use Rattle.recovery_sender.specs.Losses.{HasRoomBelowLargest};
ghost use Rattle.recovery_sender.specs.Timeouts.{DetectsByTime, SearchesByTime, TimeoutResult, WaitsForItsTime};

use super::{Losses, Sender, SenderError};
use rand_core::Rng;
use recovery_base::below::SpaceId;
use recovery_base::time::Instant;
use recovery_congestion::congestion::ControllerFactory;
use recovery_events::event::{Answer, Event, Refusal};
use recovery_losses::{Due, Variables};
use recovery_queue::queue::RetransmitQueue;

/// The result of a timeout.
#[derive(Drop)]
pub enum Timeout {
    /// The timer is not due.
    Nothing,
    /// A loss detection pass was made over a space.
    Lost {
        /// The space.
        space: SpaceId,
        /// The packets that were found lost.
        losses: Losses,
    },
    /// Probes are due in a space (RFC 9002, 6.2.4).
    Probe {
        /// The space.
        space: SpaceId,
        /// How many: 2, or 1 against a deadlock.
        count: u8,
    },
}

/// Returns done or the error, without the answer.
fn done<Q: Drop>(reply: Result<Answer<Q>, Refusal>) -> Result<(), SenderError>
    ensures { result ≡ done_of reply }
{
    match reply {
        Ok(_) => Ok(()),
        Err(refusal) => Err(SenderError::Event(refusal)),
    }
}

impl<F, Q, R> Sender<F, Q, R>
where
    F: ControllerFactory,
    Q: RetransmitQueue,
    R: Rng + Drop,
{
    /// Handles the loss detection timer, which may be due (RFC 9002, A.9: OnLossDetectionTimeout). Before its time
    /// nothing happens. If a space may have lost packets, they are declared lost. Otherwise two probes are due in the
    /// space whose timer expired, or one against a deadlock; they replace those that were due before. For each the
    /// caller asks [`Sender::transmit`], takes its contents by [`Sender::probe`] and sends it by [`Sender::send`].
    /// Cost: logarithmic for each packet tracked below the largest acknowledged.
    ///
    /// # Errors
    /// `NoMemory` if there is no room for the numbers of the packets that may be lost. Then nothing has changed. A
    /// timeout that asks for probes allocates nothing.
    pub fn on_timeout(&mut self, now: Instant) -> Result<Timeout, SenderError>
        ensures comes { TimeoutResult now self.old self.new result }
        ensures early { WaitsForItsTime now self.old self.new result }
    {
        let due = self.due_now(now);
        self.act_on(due, now)
    }

    /// Does what is due at this time: a loss detection pass, or a request for probes.
    fn act_on(&mut self, due: Option<Due>, now: Instant) -> Result<Timeout, SenderError>
        requires due { due ≡ due_now now (state_in self.old) self.old.variables }
        ensures { TimeoutResult now self.old self.new result }
    {
        match due {
            None => Ok(Timeout::Nothing),
            Some(Due::Losses(space)) => self.time_losses_out(space, now),
            Some(Due::Probes(space)) => {
                self.time_out(space, 2, now);
                Ok(Timeout::Probe { space, count: 2 })
            }
            Some(Due::AntiDeadlock(space)) => {
                self.time_out(space, 1, now);
                Ok(Timeout::Probe { space, count: 1 })
            }
        }
    }

    /// Returns the contents of a probe in a space (RFC 9002, 6.2.4): what is queued for retransmission, or else the
    /// contents of the first packet in flight that has any. If called for both probes of a timeout, each carries the
    /// contents of another packet; an empty queue calls for a PING frame. `immediate_ack` asks the peer for an
    /// immediate ACK, and `streams` is passed to the queues.
    ///
    /// # Errors
    /// `SpaceDiscarded`, or `NoMemory` if the queues cannot be joined. Then nothing has changed.
    pub fn probe(
        &mut self,
        space: SpaceId,
        immediate_ack: bool,
        streams: Q::Streams,
    ) -> Result<Q, SenderError>
        ensures { ProbeResult space immediate_ack streams self.old self.new result }
    {
        if self.is_discarded(space) {
            return Err(SenderError::Event(Refusal::SpaceDiscarded));
        }
        if let Err(refused) = self.queue_probe(space, immediate_ack, streams) {
            return Err(refused);
        }
        let queue = self.take_pending(space);
        self.set_loss_detection_timer();
        Ok(queue)
    }

    /// Makes a loss detection pass over a space, if there is room for the numbers.
    fn time_losses_out(&mut self, space: SpaceId, now: Instant) -> Result<Timeout, SenderError>
        ensures { SearchesByTime space now self.old self.new result }
    {
        let end = self.largest_acked(space).unwrap_or(0);
        let room = match self.room_below(space, end, 0) {
            Ok(room) => room,
            Err(refused) => return Err(refused),
        };
        let losses = self.find_losses(space, now, room);
        Ok(Timeout::Lost { space, losses })
    }

    /// Makes a loss detection pass over a space. Restarts the anti-deadlock timer.
    fn find_losses(&mut self, space: SpaceId, now: Instant, room: Vec<u64>) -> Losses
        requires none { room.items ≡ [] }
        requires room { HasRoomBelowLargest space self.old room }
        ensures { DetectsByTime space now self.old result self.new }
    {
        let losses = self.detect_and_remove_lost_packets(space, now, now, false, room);
        self.complete(Variables {
            base: now,
            ..self.variables
        });
        losses
    }

    /// Returns what is due now, if anything.
    fn due_now(&self, now: Instant) -> Option<Due>
        ensures value { result ≡ due_now now (state_in self.now) self.now.variables }
        ensures there { IfSome result (λ due.
            is_discarded (space_due due) (state_in self.now).discarded ≡ false) }
    {
        match self.due() {
            Some((time, due)) if time <= now => Some(due),
            _ => None,
        }
    }

    /// Queues the contents of a probe in a space that is not discarded. Fails with `NoMemory`.
    fn queue_probe(
        &mut self,
        space: SpaceId,
        immediate_ack: bool,
        streams: Q::Streams,
    ) -> Result<(), SenderError>
        requires there { is_discarded space (state_in self.old).discarded ≡ false }
        ensures { QueuesProbe space immediate_ack streams self.old self.new result }
    {
        done(self.apply(Event::QueueProbe {
            space,
            immediate_ack,
            streams,
        }))
    }

    /// Returns the retransmission queue of a space that is not discarded.
    fn take_pending(&mut self, space: SpaceId) -> Q
        requires there { is_discarded space (state_in self.old).discarded ≡ false }
        ensures { TakesSteps (told (TakePending space) (Ok (Answer.Queue result)) ∷ []) self.old
            self.new }
    {
        match self.tell(Event::TakePending { space }) {
            Answer::Queue(queue) => queue,
            _ => unreachable!(),
        }
    }

    /// Records a probe timeout that asks for `count` probes in a space (RFC 9002, 6.2.1 and 6.2.4).
    fn time_out(&mut self, space: SpaceId, count: u8, now: Instant)
        ensures { CompletesCall [] (timed_out space count now self.old.variables) self.old
            self.new }
    {
        self.complete(self.variables.timed_out(space, count, now));
    }
}
