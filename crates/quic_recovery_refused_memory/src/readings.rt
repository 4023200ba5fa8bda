//! All that readers of a recovery return, as one number. Two states that differ in a reading differ in it, except with
//! a chance of one in 2^100. Nothing here allocates.
use crate::scarce::{ScarceHalving, ScarceQueue};
use crate::script::Scarce;
use recovery_acks::PendingAcks;
use recovery_base::below::{ConnectionId, EcnCounts, SpaceId};
use recovery_base::dedup::Dedup;
use recovery_base::time::{Duration, Instant};
use recovery_base::timer::Timer;
use recovery_congestion::congestion::Controller;
use recovery_congestion::rtt::RttEstimator;
use recovery_paths::paths::PathData;
use recovery_spaces::spaces::PacketSpace;
use std::net::{IpAddr, SocketAddr};

/// What was read so far.
#[derive(Clone, Copy, PartialEq, Eq)]
pub struct Readings {
    sum: u128,
}

/// Returns what all readers of the recovery return.
pub fn readings_of(recovery: &Scarce) -> Readings {
    let mut read = Readings { sum: 0 };
    read.path(recovery.current());
    read.flag(recovery.previous().is_some());
    if let Some(path) = recovery.previous() {
        read.path(path);
    }
    read.option(recovery.peer_limit().map(u64::from));
    for space in [SpaceId::Initial, SpaceId::Handshake, SpaceId::Data] {
        read.flag(recovery.space(space).is_some());
        if let Some(here) = recovery.space(space) {
            read.space(here);
        }
    }
    read.requests(recovery);
    read.timers(recovery);
    read.ids(recovery);
    read
}

impl Readings {
    fn note(&mut self, value: u128) {
        let mixed = (self.sum.rotate_left(41) ^ value).wrapping_add(1);
        self.sum = mixed.wrapping_mul(0xDA94_2042_E4DD_58B5_9E37_79B9_7F4A_7C15);
    }

    fn number(&mut self, value: u64) {
        self.note(u128::from(value));
    }

    fn flag(&mut self, value: bool) {
        self.note(u128::from(value));
    }

    fn option(&mut self, value: Option<u64>) {
        self.flag(value.is_some());
        self.number(value.unwrap_or(0));
    }

    fn span(&mut self, value: Duration) {
        self.note(value.as_nanos());
    }

    fn moment(&mut self, value: Option<Instant>) {
        self.option(value.map(Instant::as_nanos));
    }

    fn id(&mut self, value: ConnectionId) {
        self.flag(value == ConnectionId::new(&[0xFF; 8]));
    }

    fn address(&mut self, value: SocketAddr) {
        self.number(u64::from(value.port()));
        match value.ip() {
            IpAddr::V4(ip) => self.number(u64::from(u32::from_be_bytes(ip.octets()))),
            IpAddr::V6(ip) => self.note(u128::from_be_bytes(ip.octets())),
        }
    }

    fn path(&mut self, path: &PathData<ScarceHalving>) {
        self.address(path.remote);
        self.rtt(&path.rtt);
        self.controller(&path.congestion);
        self.flag(path.validated);
        self.number(path.total_sent);
        self.number(path.total_recvd);
        self.number(u64::from(path.mtud.current_mtu()));
        self.option(path.mtud.in_flight_mtu_probe());
        self.flag(path.mtud.is_searching());
        self.flag(path.sending_ecn);
        self.option(path.challenge);
        self.flag(path.challenge_pending);
        self.flag(path.first_packet_after_rtt_sample.is_some());
        if let Some((_, number)) = path.first_packet_after_rtt_sample {
            self.number(number);
        }
        self.number(path.generation());
        self.number(path.in_flight().bytes);
        self.number(path.in_flight().ack_eliciting);
        self.number(u64::from(path.current_mtu()));
        self.flag(path.anti_amplification_blocked(1));
        self.flag(path.has_room(u16::MAX));
    }

    fn rtt(&mut self, rtt: &RttEstimator) {
        self.span(rtt.get());
        self.span(rtt.conservative());
        self.span(rtt.min());
        self.span(rtt.pto_base());
    }

    fn controller(&mut self, controller: &ScarceHalving) {
        let metrics = controller.metrics();
        self.number(metrics.congestion_window);
        self.option(metrics.ssthresh);
        self.option(metrics.pacing_rate);
        self.number(controller.window());
        self.number(controller.initial_window());
    }

    fn space(&mut self, here: &PacketSpace<ScarceQueue>) {
        self.received(here.dedup);
        self.acks(&here.pending_acks);
        self.number(here.rx_packet);
        self.option(here.largest_acked_packet);
        self.moment(Some(here.largest_acked_packet_sent));
        self.moment(here.time_of_last_ack_eliciting_packet);
        self.number(u64::from(here.loss_probes));
        self.number(here.sent_with_keys);
        self.items(&here.pending);
        self.flag(here.ping_pending);
        self.flag(here.immediate_ack_pending);
        self.counts(here.ecn_counters);
        self.counts(here.ecn_feedback);
        self.moment(here.loss_time);
        self.number(here.crypto_offset);
        self.number(here.next_packet_number());
        self.option(here.sent_packets.last_eliciting());
        self.flag(here.sent_packets.has_size());
        let frames = here.can_send(&());
        self.flag(frames.acks);
        self.flag(frames.other);
    }

    fn received(&mut self, dedup: Dedup) {
        for number in 60..84 {
            let mut copy = dedup;
            self.flag(copy.insert(number));
        }
    }

    fn items(&mut self, queue: &ScarceQueue) {
        self.number(queue.items().len() as u64);
        for item in queue.items() {
            self.number(*item);
        }
    }

    fn counts(&mut self, counts: EcnCounts) {
        self.number(counts.ect0);
        self.number(counts.ect1);
        self.number(counts.ce);
    }

    fn acks(&mut self, acks: &PendingAcks) {
        self.moment(acks.max_ack_delay_timeout(Duration::from_millis(25)));
        self.flag(acks.can_send());
        self.flag(acks.can_send_with_other_frames());
        self.span(acks.ack_delay(Instant::from_nanos(100)));
        self.number(acks.ranges().len() as u64);
        for range in acks.ranges().iter() {
            self.number(range.start);
            self.number(range.end);
        }
    }

    fn requests(&mut self, recovery: &Scarce) {
        let requests = recovery.ack_frequency();
        self.span(requests.peer_max_ack_delay);
        self.span(requests.max_ack_delay);
        self.span(requests.max_ack_delay_for_pto());
    }

    fn timers(&mut self, recovery: &Scarce) {
        let timers = recovery.timers();
        for timer in Timer::VALUES {
            self.moment(timers.get(timer));
            self.flag(timers.is_expired(timer, Instant::from_nanos(10)));
        }
        self.moment(timers.next_timeout());
    }

    fn ids(&mut self, recovery: &Scarce) {
        let theirs = recovery.remote_ids();
        self.number(theirs.active_seq());
        self.id(theirs.active());
        for (step, (id, token)) in theirs.iter() {
            self.number(step as u64);
            self.id(id);
            self.flag(token.is_some());
        }
        let ours = recovery.local_ids();
        self.moment(ours.next_timeout());
        self.number(ours.cid_len() as u64);
        self.number(ours.retire_prior_to());
        self.number(ours.issued());
    }
}
