//! A flow: an application, a sender, its peer, and the way back. Sender and peer are the endpoints of a connection.
use crate::changes::Changes;
use crate::ending::Ending;
use crate::figures::Figures;
use crate::link::{Link, sooner};
use crate::peer::{Peer, is_due};
use crate::sending::Sending;
use crate::settings::{Form, Settings, Window};
use crate::telling::Teller;
use rand_core::SeedableRng;
use rand_pcg::Pcg32;
use recovery_base::below::NoMemory;
use recovery_congestion::congestion::NewRenoConfig;
use recovery_cubic::CubicConfig;
use recovery_engine::controllers::{ChosenConfig, FixedConfig};
use recovery_network::ack::{AckPacket, Arrival, Frame};
use recovery_network::application::{Application, items_of};
use recovery_network::bottleneck::QueuedPacket;
use recovery_network::draws::Draws;
use recovery_network::schedule::Schedule;
use recovery_network::way::Way;
use std::alloc::Global;
use std::collections::VecDeque;

/// A packet is dropped if its number is further below the largest one received (RFC 9000, 12.3).
const REACH: u64 = 128;

/// A flow. Times are in nanoseconds.
#[derive(Drop)]
pub struct Flow {
    index: u64,
    sending: Sending,
    application: Application,
    /// The bytes of each packet.
    size: u16,
    is_ect: bool,
    /// How many items were sent for the first time.
    begun: u64,
    /// Items to retransmit.
    again: VecDeque<u64>,
    /// Until when the sender waits for the pacer or the application, if it does.
    wake: Option<u64>,
    peer: Peer,
    /// The ACK frames of the packets sent, by number, as far as they may be received.
    frames: VecDeque<AckPacket>,
    draws: Draws<Pcg32>,
    back: Way<AckPacket>,
    late: u64,
}

/// Returns the controllers of a setting.
pub fn chosen(window: Window) -> ChosenConfig {
    match window {
        Window::Fixed(bytes) if bytes > 0 => ChosenConfig::Fixed(FixedConfig::new(bytes)),
        Window::Cubic => ChosenConfig::Cubic(CubicConfig::default()),
        _ => ChosenConfig::Reno(NewRenoConfig::default()),
    }
}

/// Returns the application of a flow that begins at this time: its items have the size of a packet.
fn application(settings: &Settings, start: u64) -> Application {
    let size = u64::from(settings.size.max(1));
    let items = items_of(settings.bytes, size);
    Application::new(items, items_of(settings.chunk, size), settings.every, start)
}

/// Returns the ACK frame of the packet of this number, if it has one.
fn frame_of(frames: &VecDeque<AckPacket>, number: u64) -> Option<&Frame> {
    let place = frames.partition_point(|it| it.number < number);
    match frames.get(place) {
        Some(packet) if packet.number == number => Some(&packet.frame),
        _ => None,
    }
}

/// Removes the frames of packets that the peer will not receive any more, after it received this one.
fn forget(frames: &mut VecDeque<AckPacket>, number: u64) {
    for _ in 0..frames.len() {
        match frames.front() {
            Some(packet) if packet.number.saturating_add(REACH) < number => {}
            _ => return,
        }
        let _forgotten = frames.pop_front();
    }
}

impl Flow {
    /// Returns a flow that has sent nothing. The first one has the records, the others have the rivals' controller and
    /// begin later.
    pub fn new(
        alloc: Global,
        settings: &Settings,
        changes: &Changes,
        index: u64,
    ) -> Result<Self, NoMemory> {
        let (form, window) = if index == 0 {
            (settings.form, settings.window)
        } else {
            (Form::Figures, settings.rival.unwrap_or(settings.window))
        };
        let teller = Teller::new(alloc, form, settings.size);
        let sending = Sending::new(alloc, chosen(window), settings, teller)?;
        let delays = Schedule::new(alloc, settings.link.delay, &changes.delays)?;
        let start = settings.stagger.saturating_mul(index);
        let seed = settings.seed.wrapping_add(index).wrapping_add(1);
        Ok(Flow {
            index,
            sending,
            application: application(settings, start),
            size: settings.size,
            is_ect: settings.is_ect,
            begun: 0,
            again: VecDeque::new(alloc),
            wake: Some(start),
            peer: Peer::new(alloc, settings)?,
            frames: VecDeque::new(alloc),
            draws: Draws::new(Pcg32::seed_from_u64(seed), settings.link.back),
            back: Way::new(alloc, delays),
            late: settings.link.late,
        })
    }

    /// Ends the handshake.
    pub fn begin(&mut self, settings: &Settings) {
        self.sending.begin(settings.ack_delay);
    }

    /// Returns the records.
    pub fn teller(&mut self) -> &mut Teller {
        &mut self.sending.teller
    }

    /// Returns whether nothing waits to be sent.
    fn has_nothing(&self, now: u64) -> bool {
        self.begun >= self.application.written(now) && self.again.is_empty()
    }

    /// Returns whether all items are acknowledged.
    pub fn is_done(&self) -> bool {
        self.begun >= self.application.items()
            && self.again.is_empty()
            && !self.sending.is_carrying()
    }

    /// Returns when something happens next, unless all is done.
    pub fn next(&self) -> Option<u64> {
        if self.is_done() {
            return None;
        }
        let peer = sooner(self.peer.next(), self.back.next());
        sooner(peer, sooner(self.wake, self.sending.timer()))
    }

    /// Removes and returns the item to send next, if any.
    fn take_item(&mut self, now: u64) -> Option<u64> {
        if let Some(item) = self.again.pop_front() {
            return Some(item);
        }
        let item = self.begun;
        if item >= self.application.written(now) {
            return None;
        }
        self.begun = item.saturating_add(1);
        Some(item)
    }

    /// Passes a packet to the peer.
    pub fn receive(&mut self, now: u64, arrival: Arrival) -> Result<(), Ending> {
        let number = arrival.packet.number;
        self.peer
            .receive(now, arrival, frame_of(&self.frames, number))?;
        forget(&mut self.frames, number);
        Ok(())
    }

    /// Sends the ACK that is due.
    fn acknowledge(&mut self, now: u64) -> Result<(), Ending> {
        let Some(packet) = self.peer.acknowledge(now)? else {
            return Ok(());
        };
        if self.draws.loses() {
            let lost = self.sending.figures.acks_lost;
            self.sending.figures.acks_lost = lost.saturating_add(1);
            return Ok(());
        }
        let late = if self.draws.delays() { self.late } else { 0 };
        if self.draws.doubles() {
            let twin = packet.clone()?;
            self.back.send(now, late, twin)?;
        }
        self.back.send(now, late, packet)?;
        Ok(())
    }

    /// Does one thing that happens at this time, at the peer or at the sender.
    pub fn step(&mut self, now: u64, link: &mut Link) -> Result<(), Ending> {
        self.peer.expire(now)?;
        self.acknowledge(now)?;
        if self.is_done() {
            return Ok(());
        }
        let changes = if let Some(packet) = self.back.take(now) {
            let app_limited = self.has_nothing(now);
            self.sending.received(now, &packet, app_limited)?
        } else if is_due(self.sending.timer(), now) {
            self.sending.expire(now)?
        } else if is_due(self.wake, now) {
            false
        } else {
            return Ok(());
        };
        if changes {
            self.sending.take_pending(now, &mut self.again)?;
        }
        self.sending.figures.time = now;
        self.send(now, link)
    }

    /// Sends packets, as window and pacer allow.
    fn send(&mut self, now: u64, link: &mut Link) -> Result<(), Ending> {
        self.wake = None;
        // Bounded as in `transfer.rt`.
        for _ in 0..u64::MAX {
            if !self.goes_on(now) {
                break;
            }
            if let Some(until) = self.sending.transmit(now)? {
                self.wake = Some(until.max(now.saturating_add(1)));
                return Ok(());
            }
            if self.sending.is_probing() {
                self.sending.probe(now, &mut self.again)?;
            }
            let number = self.send_one(now)?;
            link.enter(self.packet(now, number))?;
        }
        if self.has_nothing(now) && self.begun < self.application.items() {
            self.wake = Some(
                self.application
                    .writes(self.begun)
                    .max(now.saturating_add(1)),
            );
        }
        Ok(())
    }

    /// Sends a packet, with the next item if there is one. Returns its number.
    fn send_one(&mut self, now: u64) -> Result<u64, Ending> {
        let item = self.take_item(now);
        let Some(frame) = self.sending.ack_frame(now)? else {
            return self.sending.send(now, item, None);
        };
        let number = self.sending.send(now, item, Some(&frame))?;
        self.frames.push_back(AckPacket { number, frame })?;
        Ok(number)
    }

    fn packet(&self, now: u64, number: u64) -> QueuedPacket {
        QueuedPacket {
            flow: self.index,
            number,
            size: self.size,
            came: now,
            is_ect: self.is_ect && self.sending.may_mark(),
        }
    }

    /// Returns whether a packet is to be sent: something waits, or a probe is due.
    fn goes_on(&self, now: u64) -> bool {
        self.sending.may_send() && (self.sending.is_probing() || !self.has_nothing(now))
    }

    /// Returns the figures, at the end of a run.
    pub fn figures(&self, now: u64, link: &Link) -> Figures {
        let passage = link.passage(self.index);
        let mut figures = self.sending.figures;
        if !self.is_done() {
            figures.time = now;
        }
        figures.time = figures.time.saturating_sub(self.application.start());
        figures.queue = link.most();
        figures.dropped = passage.dropped;
        figures.marked = passage.marked;
        figures.wait = match passage.waited.checked_div(passage.left) {
            Some(mean) => mean,
            None => 0,
        };
        figures
    }
}
