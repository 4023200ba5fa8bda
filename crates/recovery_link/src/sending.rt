//! The sender, with records of its calls.
ghost use Rattle.std.specs.Prelude.{◌≡◌};

use crate::ending::Ending;
use crate::figures::Figures;
use crate::settings::Settings;
use crate::telling::{Metrics, Teller};
use rand_core::SeedableRng;
use rand_pcg::Pcg32;
use recovery_base::below::{NoMemory, SpaceId};
use recovery_base::time::{Duration, Instant};
use recovery_congestion::congestion::Controller;
use recovery_engine::controllers::ChosenConfig;
use recovery_events::event::{Answer, Event};
use recovery_losses::{Ack, Side, largest_of};
use recovery_network::ack::{AckPacket, EcnMarks, Frame, frame_from};
use recovery_queue::items::ItemQueue;
use recovery_replay::replay::{FIRST_PORT, config, skips};
use recovery_script_syntax::lines::peer_at;
use recovery_sender::{EcnOutcome, Losses, Sender, SenderError, Timeout, Transmission};
use std::alloc::Global;
use std::collections::VecDeque;

/// The sender, with records of its calls. Times are in nanoseconds.
#[derive(Drop)]
pub struct Sending {
    alloc: Global,
    sender: Sender<ChosenConfig, ItemQueue, Pcg32>,
    pub teller: Teller,
    is_paced: bool,
    /// The bytes of each packet.
    size: u16,
    /// How many packets in flight carry an item, and the numbers of those that carry none.
    carrying: u64,
    silent: Vec<u64>,
    pub figures: Figures,
}

/// Removes a number from a list. Returns whether it was there.
fn take_out(numbers: &mut Vec<u64>, number: u64) -> bool {
    if !numbers.contains(&number) {
        return false;
    }
    numbers.retain(|it| *it != number);
    true
}

/// Returns a span in whole nanoseconds.
fn nanos(span: Duration) -> u64 {
    u64::try_from(span.as_nanos()).unwrap_or(u64::MAX)
}

/// Returns the largest number that an ACK frame acknowledges, if there is one.
fn largest_in(frame: Option<&Frame>) -> Option<u64> {
    largest_of(&frame?.ranges)
}

/// Returns when to ask for a datagram again: never if the window has no room, which was tested before.
fn again_at(sent: &Transmission) -> Option<u64> {
    match sent {
        Transmission::Transmitted => None,
        Transmission::Delayed { until, .. } => Some(until.as_nanos()),
        Transmission::Blocked | Transmission::Full { .. } => Some(u64::MAX),
    }
}

impl Sending {
    /// Returns a sender as in `recovery-sender client`, which has sent nothing.
    pub fn new(
        alloc: Global,
        factory: ChosenConfig,
        settings: &Settings,
        teller: Teller,
    ) -> Result<Self, NoMemory> {
        let config = config(factory, peer_at(FIRST_PORT), skips(None));
        let rng = Pcg32::seed_from_u64(0);
        let sender = Sender::new(alloc, Side::Client, config, rng, Instant::from_nanos(0))?;
        Ok(Sending {
            alloc,
            sender,
            teller,
            is_paced: settings.is_paced,
            size: settings.size,
            carrying: 0,
            silent: Vec::new(alloc),
            figures: Figures::new(settings.bytes, settings.size),
        })
    }

    /// Ends the handshake, with a peer that delays its ACKs by at most this much.
    pub fn begin(&mut self, max_ack_delay: u64) {
        self.sender
            .set_peer_max_ack_delay(Duration::from_nanos(max_ack_delay));
        self.sender.on_handshake_confirmed();
        self.teller.begins(max_ack_delay);
    }

    /// Returns whether some packet in flight carries an item.
    pub fn is_carrying(&self) -> bool {
        self.carrying > 0
    }

    /// Records that these packets are no longer in flight.
    fn settle(&mut self, numbers: &[u64]) {
        for number in numbers {
            if !take_out(&mut self.silent, *number) {
                self.carrying = self.carrying.saturating_sub(1);
            }
        }
    }

    /// Returns how many bytes are in flight (RFC 9002, B.2).
    fn in_flight(&self) -> u64 {
        self.sender.recovery().current().in_flight().bytes
    }

    /// Returns whether the window has room for a packet (RFC 9002, 7), or a probe is due, which may exceed it (7.5).
    pub fn may_send(&self) -> bool {
        let window = self.sender.recovery().current().congestion.window();
        let with = self.in_flight().saturating_add(u64::from(self.size));
        with <= window || self.is_probing()
    }

    /// Returns whether packets may be marked: the peer's counts were right so far (RFC 9000, 13.4.2).
    pub fn may_mark(&self) -> bool {
        self.sender.recovery().current().sending_ecn
    }

    /// Returns whether a probe is due.
    pub fn is_probing(&self) -> bool {
        self.sender.variables().is_probe_due(SpaceId::Data)
    }

    /// Returns when the loss detection timer expires, if it runs.
    pub fn timer(&self) -> Option<u64> {
        let moment = self.sender.loss_detection_timer()?;
        Some(moment.as_nanos())
    }

    /// Asks for a datagram. Returns the time at which to ask again, if it may not be sent now.
    pub fn transmit(&mut self, now: u64) -> Result<Option<u64>, Ending> {
        self.teller.asks(now, self.is_paced);
        let again = self.ask(now)?;
        if let Some(until) = again {
            self.teller.delayed(now, until);
        }
        Ok(again)
    }

    fn ask(&mut self, now: u64) -> Result<Option<u64>, SenderError> {
        let at = Instant::from_nanos(now);
        match self
            .sender
            .transmit(at, self.size, SpaceId::Data, self.is_paced)
        {
            Ok(sent) => Ok(again_at(&sent)),
            Err(refused) => Err(refused),
        }
    }

    /// Returns the ACK frame of the next packet, if there is a number to acknowledge. What is received are ACKs alone,
    /// which never require one (RFC 9000, 13.2.1). So all its packets have a frame until such a number is known to be
    /// acknowledged, and there is nothing that `AcksSent` would end.
    pub fn ack_frame(&self, now: u64) -> Result<Option<Frame>, NoMemory> {
        let Some(here) = self.sender.recovery().space(SpaceId::Data) else {
            return Ok(None);
        };
        if !here.pending_acks.can_send_with_other_frames() {
            return Ok(None);
        }
        let frame = frame_from(self.alloc, &here.pending_acks, &EcnMarks::new(), now)?;
        Ok(Some(frame))
    }

    /// Sends a packet with this item and this ACK frame. Returns its number.
    pub fn send(
        &mut self,
        now: u64,
        item: Option<u64>,
        frame: Option<&Frame>,
    ) -> Result<u64, Ending> {
        let largest = largest_in(frame);
        self.teller.sends(now, largest, item);
        let number = self.track(now, largest, item)?;
        match item {
            Some(_) => self.carrying = self.carrying.saturating_add(1),
            None => self.silent.push(number)?,
        }
        self.figures.sent = self.figures.sent.saturating_add(1);
        self.teller.sent(now, number, frame, item, self.is_paced);
        self.tell_flight(now);
        Ok(number)
    }

    fn track(&mut self, now: u64, largest: Option<u64>, item: Option<u64>) -> Result<u64, Ending> {
        let mut items = Vec::new(self.alloc);
        if let Some(item) = item {
            items.push(item)?;
        }
        let queue = ItemQueue::from_items(items);
        let at = Instant::from_nanos(now);
        match self
            .sender
            .send(SpaceId::Data, at, self.size, true, largest, queue, ())
        {
            Ok(Answer::Sent { number, .. }) => Ok(number),
            Ok(_) => Err(Ending::SenderError),
            Err(refused) => Err(Ending::from(refused)),
        }
    }

    /// Processes a packet that has an ACK frame alone; a duplicate is dropped. Returns whether something is to be
    /// retransmitted.
    pub fn received(
        &mut self,
        now: u64,
        packet: &AckPacket,
        app_limited: bool,
    ) -> Result<bool, Ending> {
        self.teller.hears(now, packet.number);
        if self.hear(now, packet.number)? {
            self.acknowledged(now, packet, app_limited)
        } else {
            self.teller.dropped(now, packet.number);
            Ok(false)
        }
    }

    /// Records a packet that arrived and elicits no ACK. Returns whether it is new.
    fn hear(&mut self, now: u64, number: u64) -> Result<bool, Ending> {
        let received = Event::Received {
            space: SpaceId::Data,
            now: Instant::from_nanos(now),
            number,
            ack_eliciting: false,
        };
        match self.sender.on_event(received) {
            Ok(Answer::New { .. }) => Ok(true),
            Ok(_) => Ok(false),
            Err(refused) => Err(Ending::from(refused)),
        }
    }

    /// Processes the ACK of a packet. Returns whether something is to be retransmitted.
    fn acknowledged(
        &mut self,
        now: u64,
        packet: &AckPacket,
        app_limited: bool,
    ) -> Result<bool, Ending> {
        let frame = &packet.frame;
        self.teller.received(now, packet, app_limited);
        let ack = Ack {
            delay: Duration::from_nanos(frame.delay),
            ecn: frame.ecn,
            app_limited,
            received: None,
        };
        let at = Instant::from_nanos(now);
        match self.sender.on_ack(SpaceId::Data, at, &frame.ranges, ack) {
            Ok(acknowledged) => {
                let count = acknowledged.numbers.len() as u64;
                self.figures.acked = self.figures.acked.saturating_add(count);
                self.settle(&acknowledged.numbers);
                if matches!(acknowledged.ecn, EcnOutcome::Marked) {
                    self.teller.marked(now);
                }
                self.look(now, &acknowledged.losses)
            }
            Err(refused) => Err(Ending::from(refused)),
        }
    }

    /// Processes the timer. Returns whether something is to be retransmitted.
    pub fn expire(&mut self, now: u64) -> Result<bool, Ending> {
        self.teller.expires(now);
        let at = Instant::from_nanos(now);
        match self.sender.on_timeout(at) {
            Ok(Timeout::Lost { losses, .. }) => self.look(now, &losses),
            Ok(Timeout::Probe { count, .. }) => {
                self.figures.probes = self.figures.probes.saturating_add(u64::from(count));
                self.tell_state(now);
                Ok(false)
            }
            Ok(Timeout::Nothing) => Ok(false),
            Err(refused) => Err(Ending::from(refused)),
        }
    }

    /// Counts and records the losses of a pass. Returns whether there are any. If allocation failed for a packet, the
    /// transfer ends.
    fn look(&mut self, now: u64, losses: &Losses) -> Result<bool, Ending> {
        if losses.is_cut {
            return Err(Ending::OutOfMemory);
        }
        self.settle(&losses.numbers);
        let count = losses.numbers.len() as u64;
        self.figures.lost = self.figures.lost.saturating_add(count);
        if losses.is_persistent {
            self.figures.persistent = self.figures.persistent.saturating_add(1);
        }
        let largest = self.largest_acked();
        self.teller.lost(now, losses, largest);
        self.tell_state(now);
        Ok(count > 0)
    }

    /// Appends the contents of a probe to the items to retransmit.
    pub fn probe(&mut self, now: u64, again: &mut VecDeque<u64>) -> Result<(), Ending> {
        self.teller.probes();
        let items = match self.sender.probe(SpaceId::Data, false, ()) {
            Ok(items) => items,
            Err(refused) => return Err(Ending::from(refused)),
        };
        for item in items.items() {
            again.push_back(*item)?;
        }
        self.teller.taken(now, items.items());
        Ok(())
    }

    /// Appends the retransmission queue to the items to retransmit.
    pub fn take_pending(&mut self, now: u64, again: &mut VecDeque<u64>) -> Result<(), Ending> {
        self.teller.takes();
        let taken = Event::TakePending {
            space: SpaceId::Data,
        };
        let items = match self.sender.on_event(taken) {
            Ok(Answer::Queue(items)) => items,
            Ok(_) => return Err(Ending::SenderError),
            Err(refused) => return Err(Ending::from(refused)),
        };
        for item in items.items() {
            again.push_back(*item)?;
        }
        self.teller.taken(now, items.items());
        Ok(())
    }

    fn largest_acked(&self) -> u64 {
        match self.sender.recovery().space(SpaceId::Data) {
            Some(here) => here.largest_acked_packet.unwrap_or(0),
            None => 0,
        }
    }

    fn waits_for_losses(&self) -> bool {
        match self.sender.recovery().space(SpaceId::Data) {
            Some(here) => here.loss_time.is_some(),
            None => false,
        }
    }

    fn metrics(&self) -> Metrics {
        let path = self.sender.recovery().current();
        let controller = path.congestion.metrics();
        let flight = path.in_flight();
        let rtt = [
            nanos(path.rtt.get()),
            nanos(path.rtt.variance()),
            nanos(path.rtt.min()),
            nanos(path.rtt.latest()),
        ];
        Metrics {
            flight: (flight.bytes, flight.ack_eliciting),
            window: controller.congestion_window,
            ssthresh: controller.ssthresh.unwrap_or(u64::MAX),
            rtt,
            pto_count: u64::from(self.sender.variables().pto_count),
        }
    }

    /// Records what is in flight, and the timer.
    fn tell_flight(&mut self, now: u64) {
        if self.teller.is_qlog() {
            let metrics = self.metrics();
            self.teller.flies(now, &metrics);
            self.tell_timer(now);
        }
    }

    /// Records the state of the path, and the timer.
    fn tell_state(&mut self, now: u64) {
        if self.teller.is_qlog() {
            let metrics = self.metrics();
            self.teller.stands(now, &metrics);
            self.tell_timer(now);
        }
    }

    fn tell_timer(&mut self, now: u64) {
        let timer = self.timer();
        let is_loss = self.waits_for_losses();
        self.teller.timed(now, timer, is_loss);
    }
}
