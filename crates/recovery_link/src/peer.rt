//! The peer of a flow: the other endpoint of its connection, which receives its packets and acknowledges them. It is a
//! sender of the library. This decides when an ACK is required, and which numbers are in it (RFC 9000, 13.2).
ghost use Rattle.recovery_sender.specs.Calls.{IsPassedThrough};

use crate::ending::Ending;
use crate::link::sooner;
use crate::settings::Settings;
use rand_core::SeedableRng;
use rand_pcg::Pcg32;
use recovery_base::below::{NoMemory, SpaceId};
use recovery_base::time::{Duration, Instant};
use recovery_congestion::congestion::NewRenoConfig;
use recovery_engine::controllers::ChosenConfig;
use recovery_events::event::{Answer, Event};
use recovery_losses::{Ack, Side, largest_of};
use recovery_network::ack::{AckPacket, Arrival, EcnMarks, Frame, due_after, frame_from};
use recovery_queue::items::ItemQueue;
use recovery_replay::replay::{FIRST_PORT, config, skips};
use recovery_script_syntax::lines::peer_at;
use recovery_sender::{Sender, Timeout};
use std::alloc::Global;

/// The peer. Times are in nanoseconds.
#[derive(Drop)]
pub struct Peer {
    alloc: Global,
    sender: Sender<ChosenConfig, ItemQueue, Pcg32>,
    marks: EcnMarks,
    /// When an ACK is due: at once, or when the ACK delay timer expires.
    due: Option<u64>,
}

/// Returns whether a time has come.
pub fn is_due(moment: Option<u64>, now: u64) -> bool {
    match moment {
        Some(moment) => moment <= now,
        None => false,
    }
}

impl Peer {
    /// Returns a peer that received nothing: the server of an established connection.
    pub fn new(alloc: Global, settings: &Settings) -> Result<Self, NoMemory> {
        let factory = ChosenConfig::Reno(NewRenoConfig::default());
        let mut config = config(factory, peer_at(FIRST_PORT), skips(None));
        config.max_ack_delay = Duration::from_nanos(settings.ack_delay);
        let rng = Pcg32::seed_from_u64(0);
        let begin = Instant::from_nanos(0);
        let sender = Sender::established(alloc, Side::Server, config, rng, begin)?;
        Ok(Peer {
            alloc,
            sender,
            marks: EcnMarks::new(),
            due: None,
        })
    }

    /// Returns when something happens next: an ACK is due, or the timer for losses among the ACKs expires.
    pub fn next(&self) -> Option<u64> {
        sooner(self.due, self.timer())
    }

    fn timer(&self) -> Option<u64> {
        let moment = self.sender.loss_detection_timer()?;
        Some(moment.as_nanos())
    }

    /// Processes a packet, with the ACK frame that it carries, if any. A duplicate is dropped.
    pub fn receive(
        &mut self,
        now: u64,
        arrival: Arrival,
        frame: Option<&Frame>,
    ) -> Result<(), Ending> {
        let Some(starts) = self.hear(now, arrival.packet.number)? else {
            return Ok(());
        };
        self.marks.count(arrival);
        if let Some(frame) = frame {
            self.hear_ack(now, frame)?;
        }
        if arrival.is_marked {
            self.require()?;
        }
        let delay = self.sender.recovery().ack_frequency().max_ack_delay;
        self.due = due_after(self.due, self.must_acknowledge(), starts, now, delay);
        Ok(())
    }

    /// Records a packet that arrived. If it is new, returns whether the ACK delay timer starts.
    fn hear(&mut self, now: u64, number: u64) -> Result<Option<bool>, Ending> {
        let received = Event::Received {
            space: SpaceId::Data,
            now: Instant::from_nanos(now),
            number,
            ack_eliciting: true,
        };
        match self.sender.on_event(received) {
            Ok(Answer::New { arm }) => Ok(Some(arm)),
            Ok(_) => Ok(None),
            Err(refused) => Err(Ending::from(refused)),
        }
    }

    /// Processes an ACK of ACKs: the numbers that these had are forgotten (RFC 9000, 13.2.4).
    fn hear_ack(&mut self, now: u64, frame: &Frame) -> Result<(), Ending> {
        let ack = Ack {
            delay: Duration::from_nanos(frame.delay),
            ecn: frame.ecn,
            app_limited: true,
            received: None,
        };
        let at = Instant::from_nanos(now);
        match self.sender.on_ack(SpaceId::Data, at, &frame.ranges, ack) {
            Ok(acknowledged) if acknowledged.losses.is_cut => Err(Ending::OutOfMemory),
            Ok(_) => Ok(()),
            Err(refused) => Err(Ending::from(refused)),
        }
    }

    /// Requires an ACK at once: the ACK delay is over, or a packet was marked (RFC 9000, 13.2.1).
    fn require(&mut self) -> Result<(), Ending> {
        self.tell(Event::AckDelayTimeout {
            space: SpaceId::Data,
        })
    }

    /// Passes an event whose answer asks for nothing.
    fn tell(&mut self, event: Event<ItemQueue>) -> Result<(), Ending>
        requires { IsPassedThrough event }
    {
        match self.sender.on_event(event) {
            Ok(_) => Ok(()),
            Err(refused) => Err(Ending::from(refused)),
        }
    }

    /// Returns whether to send an ACK in a packet of its own.
    fn must_acknowledge(&self) -> bool {
        match self.sender.recovery().space(SpaceId::Data) {
            Some(here) => here.pending_acks.can_send(),
            None => false,
        }
    }

    /// Sends the ACK that is due, if one is, in a packet of its own, which congestion control does not count (RFC 9002,
    /// 7).
    pub fn acknowledge(&mut self, now: u64) -> Result<Option<AckPacket>, Ending> {
        if !is_due(self.due, now) {
            return Ok(None);
        }
        self.due = None;
        if !self.must_acknowledge() {
            self.require()?;
        }
        let frame = self.frame(now)?;
        let number = self.track(now, &frame)?;
        self.tell(Event::AcksSent {
            space: SpaceId::Data,
        })?;
        Ok(Some(AckPacket { number, frame }))
    }

    /// Returns the ACK frame of all numbers that are pending.
    fn frame(&self, now: u64) -> Result<Frame, Ending> {
        match self.sender.recovery().space(SpaceId::Data) {
            Some(here) => Ok(frame_from(self.alloc, &here.pending_acks, &self.marks, now)?),
            None => Err(Ending::SenderError),
        }
    }

    /// Records a packet that has this frame alone. Returns its number.
    fn track(&mut self, now: u64, frame: &Frame) -> Result<u64, Ending> {
        let largest = largest_of(&frame.ranges);
        let empty = ItemQueue::from_items(Vec::new(self.alloc));
        let at = Instant::from_nanos(now);
        match self
            .sender
            .send(SpaceId::Data, at, 0, false, largest, empty, ())
        {
            Ok(Answer::Sent { number, .. }) => Ok(number),
            Ok(_) => Err(Ending::SenderError),
            Err(refused) => Err(Ending::from(refused)),
        }
    }

    /// Processes the loss detection timer, if it expired. An ACK that is lost is not retransmitted (RFC 9000, 13.3).
    pub fn expire(&mut self, now: u64) -> Result<(), Ending> {
        if !is_due(self.timer(), now) {
            return Ok(());
        }
        match self.sender.on_timeout(Instant::from_nanos(now)) {
            Ok(Timeout::Lost { losses, .. }) if losses.is_cut => Err(Ending::OutOfMemory),
            Ok(_) => Ok(()),
            Err(refused) => Err(Ending::from(refused)),
        }
    }
}
