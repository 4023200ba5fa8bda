//! The state of each network path: its RTT, controller and pacer, the bytes sent and received, and what is in flight on
//! it (RFC 9000, 8 and 9; RFC 9002).
ghost use Rattle.std.specs.Prelude.{◌≡◌, Decides, ◌↔◌, ◌<◌, ◌+◌, ◌^◌, ◌≤◌, Bool, None, true, false, OnOk, OnErr, IfOk, IsErrOf};
ghost use Rattle.std.specs.Option.{IfSome};
ghost use Rattle.recovery_base.specs.Units.{u64_limit};
ghost use Rattle.recovery_congestion.specs.Calls.{sends, ends_acks, congests};
ghost use Rattle.recovery_spaces.specs.InFlight.{Overflows};
ghost use Rattle.recovery_spaces.specs.Packets.{forgotten_entry, after_sending};
ghost use Rattle.recovery_spaces.specs.Paths.{generation_of, counters_of, fresh_ledger, after_leaving, path_after_sending, IsCountedOn, CanTrack};
ghost use Rattle.recovery_spaces.specs.Spaces.{tracking_of, with_tracking};
ghost use Rattle.recovery_mtud.specs.Discovery.{is_probe, is_enabled_of, is_searching_of, reports};
ghost use Rattle.recovery_mtud.specs.DiscoveryLog.{losses_end, is_found, is_limited};
ghost use Rattle.recovery_paths.specs.PathMaking.{marks_made, path_settings, state_fresh, state_going_on, state_reset, state_resumed, first_discovery};
ghost use Rattle.recovery_paths.specs.PathStates.{Path, on_state, with_discovery, with_marks, is_blocked, after_receiving, after_validation, after_sample, after_searching, after_transmitting, loss_call};
ghost use Rattle.recovery_paths.specs.PathStates.{after_telling, after_search, path_acked, is_path_probe, path_lost, after_asking, path_delay, IsRoomInPacer};

use crate::responses::PathResponses;
use recovery_base::below::{NoMemory, SpaceId};
use recovery_base::time::{Duration, Instant};
use recovery_config::config::TransportConfig;
use recovery_congestion::congestion::{Controller, ControllerFactory};
use recovery_congestion::pacing::Pacer;
use recovery_congestion::rtt::RttEstimator;
use recovery_mtud::mtud::MtuDiscovery;
use recovery_queue::queue::RetransmitQueue;
use recovery_spaces::paths::{InFlight, LedgerError};
use recovery_spaces::spaces::{PacketSpace, SentPacket};
use std::marker::Model;
use std::mem;
use std::net::SocketAddr;
use thiserror::Error;

/// A total would exceed `u64::MAX` bytes. It is unchanged.
#[derive(Clone, Copy, Debug, PartialEq, Eq, Error)]
#[error("the total would exceed 2^64 - 1 bytes")]
pub struct TotalOverflow;

/// The caller's marks of a path: no event changes them.
#[derive(Drop)]
pub struct PathMarks {
    /// Whether packets on the path are marked with an ECT codepoint (RFC 9000, 13.4).
    pub sending_ecn: bool,
    /// The data of its PATH_CHALLENGE frame, if one was sent (RFC 9000, 8.2.1).
    pub challenge: Option<u64>,
    /// Whether to send a PATH_CHALLENGE frame.
    pub challenge_pending: bool,
    /// The PATH_RESPONSE frames to send (RFC 9000, 8.2.2).
    pub path_responses: PathResponses,
    /// Space and number of the first packet that was sent after an RTT sample (RFC 9002, 7.6.2).
    pub first_packet_after_rtt_sample: Option<(SpaceId, u64)>,
}

impl Model for PathMarks {
    ghost use Rattle.recovery_paths.specs.PathStates.{PathMarks};

    ghost Value = { PathMarks };

    ghost view = { λ marks. record {
      challenge = marks.challenge;
      challenge_pending = marks.challenge_pending;
      responses = marks.path_responses;
      sending_ecn = marks.sending_ecn;
      first_after_sample = marks.first_packet_after_rtt_sample;
    } };
}

/// The state of one path, with a congestion controller `C`.
///
/// In contracts its value is its ledger, its state and its marks. The MTU and the controller's window are above zero.
#[derive(Drop)]
pub struct PathData<C: Controller> {
    /// The address of the peer.
    pub remote: SocketAddr,
    /// The RTT estimate (RFC 9002, 5).
    pub rtt: RttEstimator,
    /// The congestion controller (RFC 9002, 7).
    pub congestion: C,
    /// The pacer (RFC 9002, 7.7).
    pub pacing: Pacer,
    /// Whether the peer's address was validated (RFC 9000, 8).
    pub validated: bool,
    /// The bytes of all datagrams transmitted on the path.
    pub total_sent: u64,
    /// The bytes of all datagrams received on the path.
    pub total_recvd: u64,
    /// The MTU in use, and the search for a larger one (RFC 9000, 14.3).
    pub mtud: MtuDiscovery,
    /// Whether packets on the path are marked with an ECT codepoint (RFC 9000, 13.4). This and the four fields below
    /// are the caller's ([`PathMarks`]).
    pub sending_ecn: bool,
    /// The data of its PATH_CHALLENGE frame, if one was sent (RFC 9000, 8.2.1).
    pub challenge: Option<u64>,
    /// Whether to send a PATH_CHALLENGE frame.
    pub challenge_pending: bool,
    /// The PATH_RESPONSE frames to send (RFC 9000, 8.2.2).
    pub path_responses: PathResponses,
    /// Space and number of the first packet that was sent after an RTT sample (RFC 9002, 7.6.2).
    pub first_packet_after_rtt_sample: Option<(SpaceId, u64)>,
    generation: u64,
    in_flight: InFlight,
}

impl<C: Controller> Model for PathData<C> {
    ghost use Rattle.recovery_paths.specs.PathStates.{Path};

    ghost Value = { Path C.Content };

    ghost view = { λ path. record {
      ledger = record { generation = path.generation; in_flight = path.in_flight };
      state = record {
        remote = path.remote;
        validated = path.validated;
        total_recvd = path.total_recvd;
        total_sent = path.total_sent;
        discovery = path.mtud;
        rtt = path.rtt;
        controller = C.content path.congestion;
        pacer = path.pacing;
      };
      marks = record {
        challenge = path.challenge;
        challenge_pending = path.challenge_pending;
        responses = path.path_responses;
        sending_ecn = path.sending_ecn;
        first_after_sample = path.first_packet_after_rtt_sample;
      };
    } };

    ghost invariant = { λ path. C.is_sound (C.content path.congestion) };
}

impl<C: Controller + Drop> PathData<C> {
    /// Returns a path on which nothing was sent, to an address that is not validated. Its controller is built and its
    /// pacer is full, for the initial MTU and RTT of the settings. If allowed and configured, it searches for a larger
    /// MTU, up to the peer's limit (bytes, above zero) if there is one.
    pub fn new<F: ControllerFactory<Controller = C>>(
        remote: SocketAddr,
        allow_mtud: bool,
        peer_max_udp_payload_size: Option<u16>,
        generation: u64,
        now: Instant,
        config: &TransportConfig<F>,
    ) -> Self
        requires limit { IfSome peer_max_udp_payload_size (λ limit. 0 < limit) }
        ensures ledger { result.ledger ≡ fresh_ledger generation }
        ensures state { let settings = path_settings F.built C.words allow_mtud config.now in
            result.state ≡ state_fresh settings remote false peer_max_udp_payload_size now }
        ensures marks { result.marks ≡ marks_made None }
    {
        let mtu = config.get_initial_mtu();
        let congestion = config.congestion_controller_factory.build(now, mtu);
        PathData {
            remote,
            rtt: RttEstimator::new(config.initial_rtt),
            pacing: Pacer::new(config.initial_rtt, congestion.initial_window(), mtu, now),
            congestion,
            validated: false,
            total_sent: 0,
            total_recvd: 0,
            mtud: discovery_for(allow_mtud, peer_max_udp_payload_size, config),
            sending_ecn: true,
            challenge: None,
            challenge_pending: false,
            path_responses: PathResponses::new(),
            first_packet_after_rtt_sample: None,
            generation,
            in_flight: InFlight::default(),
        }
    }

    /// Returns a path to another address that inherits RTT, controller and MTU search from another path. It is for a
    /// peer of which only the port changed, most likely because of a NAT, so that the network path is the same (RFC
    /// 9000, 9.4). The address must be validated again (RFC 9000, 9.3). All else is as on a new path; its pacer is
    /// full, for the RTT, window and MTU of the other path. `congestion` is a copy of the other path's controller.
    pub fn from_previous(
        remote: SocketAddr,
        previous: &Self,
        congestion: C,
        generation: u64,
        now: Instant,
    ) -> Self
        requires copy { C.content congestion ≡ previous.now.state.controller }
        ensures ledger { result.ledger ≡ fresh_ledger generation }
        ensures state { result.state ≡ state_going_on C.words remote now previous.now.state }
        ensures marks { result.marks ≡ marks_made previous.now.marks.first_after_sample }
    {
        let mtu = previous.current_mtu();
        PathData {
            remote,
            rtt: previous.rtt,
            pacing: Pacer::new(previous.rtt.get(), congestion.window(), mtu, now),
            congestion,
            validated: false,
            total_sent: 0,
            total_recvd: 0,
            mtud: previous.mtud,
            sending_ecn: true,
            challenge: None,
            challenge_pending: false,
            path_responses: PathResponses::new(),
            first_packet_after_rtt_sample: previous.first_packet_after_rtt_sample,
            generation,
            in_flight: InFlight::default(),
        }
    }

    /// Resets RTT, controller, MTU search and pacer to the settings, within the peer's limit; the pacer is made for the
    /// resulting MTU. All else stays: these describe the network path, which changed, and not the address (RFC 9000,
    /// 9.4).
    pub fn reset<F: ControllerFactory<Controller = C>>(
        &mut self,
        now: Instant,
        config: &TransportConfig<F>,
    )
        ensures { (allowed : Bool)
            → let settings = path_settings F.built C.words allowed config.now in
            self.new ≡ on_state (state_reset settings now) self.old }
    {
        let mtu = config.get_initial_mtu();
        self.rtt = RttEstimator::new(config.initial_rtt);
        self.congestion = config.congestion_controller_factory.build(now, mtu);
        self.mtud.reset(mtu, config.get_min_mtu());
        self.pacing = Pacer::new(
            config.initial_rtt,
            self.congestion.initial_window(),
            self.mtud.current_mtu(),
            now,
        );
    }

    /// Prepares the path for being used again. Its MTU stays, within the peer's limit (bytes, above zero) if there is
    /// one. If allowed and configured, its search starts again from there (RFC 8899, 5): the outcome of its probe, and
    /// limits, were not reported to it while another path was in use. All else stays as it was left.
    pub fn resume<F: ControllerFactory<Controller = C>>(
        &mut self,
        allow_mtud: bool,
        peer_max_udp_payload_size: Option<u16>,
        config: &TransportConfig<F>,
    )
        requires limit { IfSome peer_max_udp_payload_size (λ limit. 0 < limit) }
        ensures { let settings = path_settings F.built C.words allow_mtud config.now in
            self.new ≡ on_state (state_resumed settings peer_max_udp_payload_size) self.old }
    {
        let mtu = match peer_max_udp_payload_size {
            Some(limit) => self.mtud.current_mtu().min(limit),
            None => self.mtud.current_mtu(),
        };
        self.mtud = discovery_for(allow_mtud, peer_max_udp_payload_size, config).with_mtu(mtu);
    }

    /// Returns the generation of the path, counted from 0.
    pub fn generation(&self) -> u64
        ensures { result ≡ generation_of self.now.ledger }
    {
        self.generation
    }

    /// Returns what is in flight on the path (RFC 9002, B.2).
    pub fn in_flight(&self) -> InFlight
        ensures { result ≡ counters_of self.now.ledger }
    {
        self.in_flight
    }

    /// Returns the MTU in use: the bytes of a datagram, above zero.
    pub fn current_mtu(&self) -> u16
        ensures value { result ≡ self.now.state.discovery.mtu }
        ensures positive { 0 < result }
    {
        self.mtud.current_mtu()
    }

    /// Returns whether this many bytes may not be sent, since the address is not validated and with them more than
    /// three times the bytes received from it would be sent (RFC 9000, 8.1). An attacker that spoofs an address must
    /// not direct much more traffic to it than it sends itself. Exact for all totals.
    pub fn anti_amplification_blocked(&self, bytes_to_send: u64) -> bool
        ensures { result ≡ is_blocked self.now.state bytes_to_send }
    {
        let sent = u128::from(self.total_sent) + u128::from(bytes_to_send);
        !self.validated && 3 * u128::from(self.total_recvd) < sent
    }

    /// Tracks a packet of this path in a space, and counts it (RFC 9002, B.2). A packet that the space forgets for it
    /// is returned with its number, and is no longer counted if it is of this path. `Overflow` is tested before
    /// anything is forgotten. An error drops the packet and changes nothing else. Cost: amortized constant, plus that
    /// of `take` for a forgotten packet.
    #[inline(always)]
    pub fn sent<Q>(
        &mut self,
        number: u64,
        packet: SentPacket<Q>,
        space: &mut PacketSpace<Q>,
    ) -> Result<Option<(u64, SentPacket<Q>)>, LedgerError>
    where
        Q: RetransmitQueue,
        requires { CanTrack self.old.ledger number packet space.old }
        ensures space { OnOk result (space.new
            ≡ with_tracking (after_sending number packet (tracking_of space.old)) space.old) }
        ensures path { IfOk result (λ gone. self.new
            ≡ record self.old { ledger = path_after_sending self.old.ledger packet gone }) }
        ensures forgotten { IfOk result
            (λ gone. gone ≡ forgotten_entry packet (tracking_of space.old)) }
        ensures overflow { IsErrOf result LedgerError.Overflow
            ↔ Overflows (counters_of self.old.ledger) packet }
        ensures err_path { OnErr result (self.new ≡ self.old) }
        ensures err_space { OnErr result (space.new ≡ space.old) }
    {
        let Some(in_flight) = self.in_flight.checked_insert(&packet) else {
            return Err(LedgerError::Overflow);
        };
        let forgotten = match space.sent_packets.insert(number, packet) {
            Ok(forgotten) => forgotten,
            Err(NoMemory) => return Err(LedgerError::NoMemory),
        };
        self.in_flight = in_flight;
        if let Some((_, packet)) = &forgotten {
            self.remove_in_flight(packet);
        }
        Ok(forgotten)
    }

    /// Stops counting a packet (RFC 9002, B.2). Returns false and changes nothing for a packet of another path.
    pub fn remove_in_flight<Q: RetransmitQueue>(&mut self, packet: &SentPacket<Q>) -> bool
        requires { IsCountedOn self.old.ledger packet.now }
        ensures own { Decides result (packet.now.path_generation ≡ generation_of self.old.ledger) }
        ensures after { self.new
            ≡ record self.old { ledger = after_leaving self.old.ledger packet.now } }
    {
        if packet.path_generation != self.generation {
            return false;
        }
        self.in_flight = self.in_flight.remove(packet);
        true
    }

    /// Counts a datagram of this many bytes received on the path (RFC 9000, 8.1). `TotalOverflow`, if the total would
    /// exceed `u64::MAX`, changes nothing.
    pub fn receive_datagram(&mut self, bytes: u64) -> Result<(), TotalOverflow>
        ensures ok { OnOk result (self.new ≡ on_state (after_receiving bytes) self.old) }
        ensures overflow { OnErr result (u64_limit ≤ self.old.state.total_recvd + bytes) }
        ensures fits { OnOk result (self.old.state.total_recvd + bytes < u64_limit) }
        ensures err { OnErr result (self.new ≡ self.old) }
    {
        let Some(total) = self.total_recvd.checked_add(bytes) else {
            return Err(TotalOverflow);
        };
        self.total_recvd = total;
        Ok(())
    }

    /// Marks the path's address as validated (RFC 9000, 8.2).
    pub fn validate(&mut self)
        ensures { self.new ≡ on_state after_validation self.old }
    {
        self.validated = true;
    }

    /// Updates the RTT by a sample and the ACK delay that the peer reported (RFC 9002, 5).
    #[inline(always)]
    pub fn sample(&mut self, ack_delay: Duration, rtt: Duration)
        ensures { self.new ≡ on_state (after_sample ack_delay rtt) self.old }
    {
        self.rtt.update(ack_delay, rtt);
    }

    /// Reports to the controller that a packet of this size was sent under this number (RFC 9002, B.4).
    #[inline(always)]
    pub fn on_sent(&mut self, now: Instant, bytes: u64, number: u64)
        ensures { self.new ≡ on_state (after_telling C.words (sends now bytes number)) self.old }
    {
        self.congestion.on_sent(now, bytes, number);
    }

    /// Records that a packet of a space was acknowledged. Returns whether it was the MTU probe in flight, whose size
    /// then is the MTU in use (RFC 8899, 5). If the packet is of this path it is no longer counted, and if it is also
    /// ack-eliciting, it is reported to the controller, after a new MTU. The search comes first, since it identifies a
    /// probe by its number, on whatever path the packet was sent.
    #[inline(always)]
    pub fn on_packet_acked<Q: RetransmitQueue>(
        &mut self,
        space: SpaceId,
        number: u64,
        now: Instant,
        packet: &SentPacket<Q>,
        app_limited: bool,
    ) -> bool
        requires { IsCountedOn self.old.ledger packet.now }
        ensures probe { result ≡ is_path_probe space number self.old.state }
        ensures after { self.new
            ≡ path_acked C.words space number now app_limited packet.now self.old }
    {
        let is_probe = self.mtud.on_acked(space, number, packet.size);
        if is_probe {
            self.congestion.on_mtu_update(self.mtud.current_mtu());
        }
        if self.remove_in_flight(packet) && packet.ack_eliciting {
            let bytes = u64::from(packet.size);
            self.congestion
                .on_ack(now, packet.time_sent, bytes, app_limited, &self.rtt);
        }
        is_probe
    }

    /// Records that a packet of a space was lost. Returns whether it was the MTU probe in flight, whose loss says only
    /// that its size may be too large (RFC 8899, 3; RFC 9000, 14.4). Any other 1-RTT packet counts as a sign of a black
    /// hole (RFC 8899, 4.3). If the packet is of this path it is no longer counted.
    pub fn on_packet_lost<Q: RetransmitQueue>(
        &mut self,
        space: SpaceId,
        number: u64,
        packet: &SentPacket<Q>,
    ) -> bool
        requires { IsCountedOn self.old.ledger packet.now }
        ensures probe { result ≡ is_path_probe space number self.old.state }
        ensures after { self.new ≡ path_lost space number packet.now self.old }
    {
        self.remove_in_flight(packet);
        space == SpaceId::Data && self.on_data_lost(number, packet.size)
    }

    /// Reports the end of an ACK to the controller, with the bytes still in flight on the path and the largest
    /// acknowledged number, if any. `app_limited` states that the sender had too little to send to fill its window (RFC
    /// 9002, 7.8).
    pub fn on_end_acks(&mut self, now: Instant, app_limited: bool, largest: Option<u64>)
        ensures { let bytes = (counters_of self.old.ledger).bytes in
            self.new
            ≡ on_state (after_telling C.words (ends_acks now bytes app_limited largest)) self.old }
    {
        self.congestion
            .on_end_acks(now, self.in_flight.bytes, app_limited, largest);
    }

    /// Reports to the controller that packets were lost or marked (RFC 9002, 7.3), the last of them sent at `sent`:
    /// whether the congestion is persistent (RFC 9002, 7.6), and how many bytes were lost.
    pub fn on_congestion_event(
        &mut self,
        now: Instant,
        sent: Instant,
        is_persistent: bool,
        lost_bytes: u64,
    )
        ensures { self.new ≡ on_state
            (after_telling C.words (congests now sent is_persistent lost_bytes)) self.old }
    {
        self.congestion
            .on_congestion_event(now, sent, is_persistent, lost_bytes);
    }

    /// Returns when to ask the pacer again for this many bytes, or `None` if they may be sent now. The pacer is asked
    /// with the path's RTT, MTU and window (RFC 9002, 7.7).
    pub fn delay(&mut self, now: Instant, bytes_to_send: u64) -> Option<Instant>
        ensures answer { result ≡ path_delay C.words now bytes_to_send self.old.state }
        ensures asked { self.new ≡ on_state (after_asking C.words now bytes_to_send) self.old }
    {
        let window = self.congestion.window();
        let mtu = self.mtud.current_mtu();
        self.pacing
            .delay(self.rtt.get(), bytes_to_send, mtu, window, now)
    }

    /// Returns how many bytes the pacer permits now: the largest count that `delay` does not delay, at most `u64::MAX`
    /// (RFC 9002, 7.7).
    pub fn pacer_room(&self, now: Instant) -> u64
        ensures { IsRoomInPacer C.words now self.now.state result }
    {
        let window = self.congestion.window();
        let mtu = self.mtud.current_mtu();
        self.pacing.room(self.rtt.get(), mtu, window, now)
    }

    /// Returns whether the total sent has room for this many bytes more, up to `u64::MAX`.
    pub fn has_room(&self, bytes: u16) -> bool
        ensures { Decides result (self.now.state.total_sent + bytes < u64_limit) }
    {
        self.total_sent.checked_add(u64::from(bytes)).is_some()
    }

    /// Counts a datagram that is transmitted (RFC 9000, 8.1), and removes its tokens from the pacer (RFC 9002, 7.7).
    pub fn transmit(&mut self, bytes: u16)
        requires { self.old.state.total_sent + bytes < u64_limit }
        ensures { self.new ≡ on_state (after_transmitting bytes) self.old }
    {
        self.total_sent += u64::from(bytes);
        self.pacing.on_transmit(bytes);
    }

    /// Records that a 1-RTT packet of this size was lost. Returns whether it was the MTU probe in flight. Any other
    /// counts as a sign of a black hole (RFC 8899, 4.3).
    fn on_data_lost(&mut self, number: u64, bytes: u16) -> bool
        ensures probe { result ≡ is_probe number self.old.state.discovery }
        ensures state { let call = loss_call number bytes self.old.state.discovery in
            self.new ≡ on_state (after_searching call) self.old }
    {
        let is_probe = self.mtud.in_flight_mtu_probe() == Some(number);
        if is_probe {
            self.mtud.on_probe_lost();
        } else {
            self.mtud.on_non_probe_lost(number, bytes);
        }
        is_probe
    }

    /// Ends a loss detection pass. Returns whether there was a black hole. If so, the minimum MTU is in use, and the
    /// controller is notified (RFC 8899, 4.3).
    pub fn on_losses_done(&mut self, now: Instant) -> bool
        ensures report { result ≡ reports self.old.state.discovery }
        ensures state { let changes = reports self.old.state.discovery in
            self.new ≡ on_state (after_search C.words changes (losses_end now)) self.old }
    {
        let is_black_hole = self.mtud.black_hole_detected(now);
        if is_black_hole {
            self.congestion.on_mtu_update(self.mtud.current_mtu());
        }
        is_black_hole
    }

    /// Sets the largest datagram that the peer accepts: in bytes, above zero (RFC 9000, 18.2). No search may run. The
    /// MTU in use is at most this from now on; the controller is not notified.
    pub fn limit_by_peer(&mut self, size: u16)
        requires size { 0 < size }
        requires no_search { is_searching_of self.old.state.discovery ≡ false }
        ensures { self.new ≡ on_state (after_searching (is_limited size)) self.old }
    {
        self.mtud.on_peer_max_udp_payload_size_received(size);
    }

    /// Sets the MTU that was found elsewhere, in bytes, above zero (RFC 8899, 5; RFC 9000, 14.3). MTU discovery must be
    /// disabled. The controller is notified, so that its minimum window follows (RFC 9002, 7.2).
    pub fn on_mtu_found(&mut self, mtu: u16)
        requires size { 0 < mtu }
        requires disabled { is_enabled_of self.old.state.discovery ≡ false }
        ensures { self.new ≡ on_state (after_search C.words true (is_found mtu)) self.old }
    {
        self.mtud.on_mtu_found(mtu);
        let current = self.mtud.current_mtu();
        self.congestion.on_mtu_update(current);
    }

    /// Stores the caller's marks of the path and returns the previous ones. Nothing else changes.
    pub fn set_marks(&mut self, marks: PathMarks) -> PathMarks
        ensures before { result ≡ self.old.marks }
        ensures after { self.new ≡ with_marks marks self.old }
    {
        PathMarks {
            sending_ecn: mem::replace(&mut self.sending_ecn, marks.sending_ecn),
            challenge: mem::replace(&mut self.challenge, marks.challenge),
            challenge_pending: mem::replace(&mut self.challenge_pending, marks.challenge_pending),
            path_responses: mem::replace(&mut self.path_responses, marks.path_responses),
            first_packet_after_rtt_sample: mem::replace(
                &mut self.first_packet_after_rtt_sample,
                marks.first_packet_after_rtt_sample,
            ),
        }
    }

    /// Replaces the state of the MTU search (RFC 9000, 14.3). Nothing else changes.
    pub fn search_on(&mut self, mtud: MtuDiscovery)
        ensures { self.new ≡ on_state (with_discovery mtud) self.old }
    {
        self.mtud = mtud;
    }
}

/// Returns the MTU search of a new path.
fn discovery_for<F>(
    allow_mtud: bool,
    limit: Option<u16>,
    config: &TransportConfig<F>,
) -> MtuDiscovery
    requires { IfSome limit (λ size. 0 < size) }
    ensures { result ≡ first_discovery allow_mtud limit config.now }
{
    let mtu = config.get_initial_mtu();
    let min_mtu = config.get_min_mtu();
    match config.mtu_discovery_config {
        Some(settings) if allow_mtud => MtuDiscovery::new(mtu, min_mtu, limit, settings),
        _ => MtuDiscovery::disabled(mtu, min_mtu),
    }
}
