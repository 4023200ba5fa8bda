//! MTU discovery of a path, and detection of black holes (RFC 8899; RFC 9000, 14.3).
ghost use Rattle.std.specs.Prelude.{◌≡◌, ◌<◌, ◌≤◌, false, ◌&&◌, Some, None, if◌then◌else◌};
ghost use Rattle.std.specs.Option.{IfSome};
ghost use Rattle.recovery_base.specs.declared.below.SpaceId.TheVariants.{Data};
ghost use Rattle.recovery_base.specs.Spaces.{same_space};
ghost use Rattle.recovery_mtud.specs.Discovery.{discovery_made, poll_of, probe_of, is_probe, is_enabled_of, is_searching_of, reports};
ghost use Rattle.recovery_mtud.specs.DiscoveryLog.{discovery_after, polls, is_limited, acks, loses_probe, loses, losses_end, is_found, resets};

use crate::config::{MAX_UDP_PAYLOAD, MtuDiscoveryConfig};
use crate::detector::Detector;
use crate::search::Search;
use recovery_base::below::SpaceId;
use recovery_base::time::Instant;
use std::marker::Model;

/// The MTU discovery of one path: the MTU in use, a search for a larger one, and the losses that may mean that the
/// path's MTU decreased.
///
/// A search probes sizes in the middle of its bounds, each at most three times, and starts again after an interval.
/// Four suspicious bursts of losses are a black hole: the minimum MTU is then in use again (RFC 8899, 4.3).
///
/// In contracts its value is a `Discovery`. Its MTU is above zero, and it stores at most four bursts. Sizes are in
/// bytes.
///
/// ```
/// let now = Instant::from_nanos(0);
/// let mut discovery = MtuDiscovery::new(1200, 1200, None, MtuDiscoveryConfig::default());
/// // Packet 5 is sent in a datagram of the size that is returned.
/// assert!(&rt; discovery.poll_transmit(now, 5) == Some(1326));
/// assert!(&rt; discovery.on_acked(SpaceId::Data, 5, 1326));
/// assert!(&rt; discovery.current_mtu() == 1326);
/// ```
#[derive(Clone, Copy)]
pub struct MtuDiscovery {
    current_mtu: u16,
    /// None if discovery is disabled.
    search: Option<Search>,
    detector: Detector,
}

impl Model for MtuDiscovery {
    ghost use Rattle.recovery_mtud.specs.Discovery.{Discovery, IsDiscoverySound};

    ghost Value = { Discovery };

    ghost use Rattle.recovery_mtud.specs.DiscoveryView.{discovery_in, discovery_back};

    ghost view = { discovery_in };

    ghost invariant = { λ discovery. IsDiscoverySound (discovery_in discovery) };

    ghost inverse = { discovery_back };
}

impl MtuDiscovery {
    /// Returns a discovery that begins to search at the first poll.
    ///
    /// It begins with `initial_plpmtu`, or with the peer's limit if that is smaller. No size above the limit is probed;
    /// on a new path of a connection the limit is known from the beginning. The path is known to carry `min_mtu`. All
    /// are above zero.
    pub fn new(
        initial_plpmtu: u16,
        min_mtu: u16,
        peer_max_udp_payload_size: Option<u16>,
        config: MtuDiscoveryConfig,
    ) -> Self
        requires least { 0 < min_mtu }
        requires initial { min_mtu ≤ initial_plpmtu }
        requires limit { IfSome peer_max_udp_payload_size (λ limit. 0 < limit) }
        ensures { result
            ≡ discovery_made initial_plpmtu min_mtu peer_max_udp_payload_size (Some config) }
    {
        let (current_mtu, limit) = match peer_max_udp_payload_size {
            Some(limit) => (initial_plpmtu.min(limit), limit),
            None => (initial_plpmtu, MAX_UDP_PAYLOAD),
        };
        MtuDiscovery {
            current_mtu,
            search: Some(Search::new(limit, config)),
            detector: Detector::new(min_mtu),
        }
    }

    /// Returns a discovery that never probes. It still detects black holes: the MTU then becomes `min_mtu` instead of
    /// `plpmtu`. Both are above zero.
    pub fn disabled(plpmtu: u16, min_mtu: u16) -> Self
        requires mtu { 0 < plpmtu }
        requires least { 0 < min_mtu }
        ensures { result ≡ discovery_made plpmtu min_mtu None None }
    {
        MtuDiscovery {
            current_mtu: plpmtu,
            search: None,
            detector: Detector::new(min_mtu),
        }
    }

    /// Starts again with these sizes, both above zero. The peer's limit stays, also for the MTU in use. A disabled
    /// discovery has no limit, and stays disabled.
    pub fn reset(&mut self, current_mtu: u16, min_mtu: u16)
        requires mtu { 0 < current_mtu }
        requires least { 0 < min_mtu }
        ensures { self.new ≡ discovery_after (resets current_mtu min_mtu) self.old }
    {
        self.detector = Detector::new(min_mtu);
        self.current_mtu = match &mut self.search {
            Some(search) => {
                search.restart();
                current_mtu.min(search.limit())
            }
            None => current_mtu,
        };
    }

    /// Returns the discovery with this MTU in use, above zero: that of a path that is used again.
    pub fn with_mtu(mut self, current_mtu: u16) -> Self
        requires { 0 < current_mtu }
        ensures { result ≡ record self { mtu = current_mtu } }
    {
        self.current_mtu = current_mtu;
        self
    }

    /// Returns the MTU in use.
    pub fn current_mtu(&self) -> u16
        ensures value { result ≡ self.now.mtu }
        ensures positive { 0 < result }
    {
        self.current_mtu
    }

    /// Returns the size of the probe to send now, if any, as the packet of number `next_packet_number`.
    ///
    /// `None` while a probe is in flight, before the next search is due, and if discovery is disabled.
    pub fn poll_transmit(&mut self, now: Instant, next_packet_number: u64) -> Option<u16>
        ensures answer { result ≡ poll_of now self.old }
        ensures after { self.new ≡ discovery_after (polls now next_packet_number) self.old }
    {
        match &mut self.search {
            Some(search) => search.poll(self.current_mtu, now, next_packet_number),
            None => None,
        }
    }

    /// Sets the largest datagram that the peer accepts, above zero (RFC 9000, 18.2: max_udp_payload_size). No search
    /// may run: none should begin before the handshake delivered this size.
    pub fn on_peer_max_udp_payload_size_received(&mut self, peer_max_udp_payload_size: u16)
        requires size { 0 < peer_max_udp_payload_size }
        requires no_search { is_searching_of self.old ≡ false }
        ensures { self.new ≡ discovery_after (is_limited peer_max_udp_payload_size) self.old }
    {
        self.current_mtu = self.current_mtu.min(peer_max_udp_payload_size);
        if let Some(search) = &mut self.search {
            search.set_limit(peer_max_udp_payload_size);
        }
    }

    /// Records that a packet of this size was acknowledged. Returns whether it was the probe in flight. If so, its size
    /// is the MTU in use. Outside the Application Data space nothing changes: probes are 1-RTT packets, and other
    /// spaces reuse the numbers (RFC 9000, 12.3).
    #[inline(always)]
    #[tactic(auto, using(crate::proofs::BurstCallLaws::bursts_acked_sound))]
    pub fn on_acked(&mut self, space: SpaceId, packet_number: u64, packet_bytes: u16) -> bool
        ensures answer { result ≡ same_space space Data && is_probe packet_number self.old }
        ensures after { self.new
            ≡ (if same_space space Data
            then discovery_after (acks packet_number packet_bytes) self.old else self.old) }
    {
        if space != SpaceId::Data {
            return false;
        }
        let probed = match &mut self.search {
            Some(search) => search.on_acked(packet_number),
            None => None,
        };
        match probed {
            Some(size) => {
                self.current_mtu = size;
                self.detector.on_probe_acked(packet_number, packet_bytes);
                true
            }
            None => {
                self.detector
                    .on_non_probe_acked(packet_number, packet_bytes);
                false
            }
        }
    }

    /// Returns the number of the probe in flight.
    pub fn in_flight_mtu_probe(&self) -> Option<u64>
        ensures { result ≡ probe_of self.now }
    {
        match &self.search {
            Some(search) => search.in_flight(),
            None => None,
        }
    }

    /// Records that the probe in flight was lost. If none is in flight nothing changes.
    pub fn on_probe_lost(&mut self)
        ensures { self.new ≡ discovery_after loses_probe self.old }
    {
        if let Some(search) = &mut self.search {
            search.on_probe_lost();
        }
    }

    /// Records that a 1-RTT packet of this size was lost that is not the probe in flight. It joins the burst whose last
    /// number is the one before it; if there is none, the open burst closes and another begins.
    ///
    /// Call `black_hole_detected` when all losses of a pass were reported: only then is the last burst complete.
    pub fn on_non_probe_lost(&mut self, packet_number: u64, packet_bytes: u16)
        ensures { self.new ≡ discovery_after (loses packet_number packet_bytes) self.old }
    {
        self.detector.on_non_probe_lost(packet_number, packet_bytes);
    }

    /// Closes the open burst. Returns whether four suspicious bursts have closed, which is a black hole. If so, the
    /// minimum MTU is in use, even above the peer's limit, since it alone is sure to get through (RFC 8899, 4.3; RFC
    /// 9000, 14). A search ends, and none begins before the cooldown is over.
    pub fn black_hole_detected(&mut self, now: Instant) -> bool
        ensures answer { result ≡ reports self.old }
        ensures after { self.new ≡ discovery_after (losses_end now) self.old }
    {
        if !self.detector.black_hole_detected() {
            return false;
        }
        self.current_mtu = self.detector.min_mtu();
        if let Some(search) = &mut self.search {
            search.on_black_hole(now);
        }
        true
    }

    /// Sets the MTU that was found elsewhere, above zero: by a search of the caller's, or by the configuration of a
    /// tunnel (RFC 8899, 5; RFC 9000, 14.3). Discovery must be disabled: its own search would replace this MTU.
    pub fn on_mtu_found(&mut self, mtu: u16)
        requires size { 0 < mtu }
        requires disabled { is_enabled_of self.old ≡ false }
        ensures { self.new ≡ discovery_after (is_found mtu) self.old }
    {
        self.current_mtu = mtu;
    }

    /// Returns whether discovery is enabled: whether a search runs, or a poll begins one once it is due.
    pub fn is_enabled(&self) -> bool
        ensures { result ≡ is_enabled_of self.now }
    {
        self.search.is_some()
    }

    /// Returns whether a search runs.
    pub fn is_searching(&self) -> bool
        ensures { result ≡ is_searching_of self.now }
    {
        match &self.search {
            Some(search) => search.is_running(),
            None => false,
        }
    }
}
