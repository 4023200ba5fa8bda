//! Examples, one for each part: the comment of the part's type quotes its example (`tests/embedding.py` compares them).
use rand_core::SeedableRng;
use rand_pcg::Pcg32;
use recovery_acks::PendingAcks;
use recovery_base::below::{ConnectionId, NewConnectionId, ResetToken, SpaceId};
use recovery_base::dedup::Dedup;
use recovery_base::time::{Duration, Instant};
use recovery_congestion::congestion::{Controller, ControllerFactory, NewRenoConfig};
use recovery_congestion::pacing::Pacer;
use recovery_congestion::rtt::RttEstimator;
use recovery_cubic::CubicConfig;
use recovery_ids::{CidQueue, CidState};
use recovery_mtud::config::MtuDiscoveryConfig;
use recovery_mtud::mtud::MtuDiscovery;
use recovery_packet_numbers::PacketNumberFilter;
use recovery_queue::items::ItemQueue;
use recovery_queue::queue::RetransmitQueue;
use recovery_spaces::sent_packets::SentPackets;
use recovery_spaces::spaces::SentPacket;

#[test]
fn received_numbers(rt: HostRuntime) {
    let mut received = Dedup::new();
    assert!(&rt; !received.insert(7));
    // The same number again, or one that is too old to know: drop the packet.
    assert!(&rt; received.insert(7));
}

#[test]
fn pending_acks(rt: HostRuntime) {
    let now = Instant::from_nanos(0);
    let mut received = Dedup::new();
    let mut acks = PendingAcks::new(rt.alloc());
    if !received.insert(0) && acks.insert_one(0, now).is_ok() {
        // The first ack-eliciting packet starts the ACK delay timer.
        assert!(&rt; acks.packet_received(now, 0, true, &received));
    }
    acks.on_max_ack_delay_timeout();
    assert!(&rt; acks.can_send());
    acks.acks_sent();
    assert!(&rt; !acks.can_send());
}

#[test]
fn rtt_estimate(rt: HostRuntime) {
    let mut rtt = RttEstimator::new(Duration::from_millis(333));
    rtt.update(Duration::from_millis(5), Duration::from_millis(40));
    assert!(&rt; rtt.get() == Duration::from_millis(40));
    // 40 ms, and four times the deviation of 20 ms.
    assert!(&rt; rtt.pto_base() == Duration::from_millis(120));
}

#[test]
fn pacer(rt: HostRuntime) {
    let (now, rtt) = (Instant::from_nanos(0), Duration::from_millis(100));
    let mut pacer = Pacer::new(rtt, 12_000, 1200, now);
    pacer.on_transmit(12_000);
    // The bucket is empty: ask again at the time that is returned.
    assert!(&rt; pacer.delay(rtt, 1200, 1200, 12_000, now).is_some());
}

#[test]
fn new_reno(rt: HostRuntime) {
    let now = Instant::from_nanos(1);
    let mut controller = NewRenoConfig::default().build(Instant::from_nanos(0), 1200);
    assert!(&rt; controller.window() == 12_000);
    // A packet of 1200 bytes, sent at the same time, is lost: the window is halved.
    controller.on_congestion_event(now, now, false, 1200);
    assert!(&rt; controller.window() == 6000);
}

#[test]
fn cubic(rt: HostRuntime) {
    let now = Instant::from_nanos(1);
    let mut controller = CubicConfig::default().build(Instant::from_nanos(0), 1200);
    assert!(&rt; controller.window() == 12_000);
    // A packet of 1200 bytes, sent at the same time, is lost: the window is reduced to 70%.
    controller.on_congestion_event(now, now, false, 1200);
    assert!(&rt; controller.window() == 8400);
}

#[test]
fn mtu_discovery(rt: HostRuntime) {
    let now = Instant::from_nanos(0);
    let mut discovery = MtuDiscovery::new(1200, 1200, None, MtuDiscoveryConfig::default());
    // Packet 5 is sent in a datagram of the size that is returned.
    assert!(&rt; discovery.poll_transmit(now, 5) == Some(1326));
    assert!(&rt; discovery.on_acked(SpaceId::Data, 5, 1326));
    assert!(&rt; discovery.current_mtu() == 1326);
}

#[test]
fn ids_of_the_peer(rt: HostRuntime) {
    let mut queue = CidQueue::new(ConnectionId::new(&[0; 8]));
    let frame = NewConnectionId {
        sequence: 1,
        retire_prior_to: 0,
        id: ConnectionId::new(&[1; 8]),
        reset_token: ResetToken::from([1; 16]),
    };
    assert!(&rt; matches!(queue.insert(frame), Ok(None)));
    // Another ID is used from now on: send RETIRE_CONNECTION_ID for number 0.
    match queue.next() {
        Some((_, range)) => assert!(&rt; range.start == 0 && range.end == 1),
        None => panic!(&rt; "no ID is held"),
    }
    assert!(&rt; queue.active_seq() == 1);
}

#[test]
fn ids_that_were_issued(rt: HostRuntime) {
    let (now, life) = (Instant::from_nanos(0), Duration::from_secs(10));
    let Ok(mut ids) = CidState::new(rt.alloc(), 8, Some(life), now, 2) else {
        panic!(&rt; "NoMemory");
    };
    assert!(&rt; ids.next_timeout() == Some(Instant::from_nanos(10_000_000_000)));
    // The peer retires number 0, and accepts 2 IDs: one more may be issued.
    assert!(&rt; matches!(ids.on_cid_retirement(0, 2), Ok(true)));
}

#[test]
fn packet_numbers(rt: HostRuntime) {
    let mut rng = Pcg32::seed_from_u64(7);
    let mut filter = PacketNumberFilter::starting(1);
    assert!(&rt; filter.allocate(&mut rng, 0) == Some(0));
    // Number 1 is skipped. A peer that acknowledges it acknowledges what it cannot have received.
    assert!(&rt; filter.allocate(&mut rng, 1) == Some(2));
    assert!(&rt; filter.check_ack(SpaceId::Data, 0..=2).is_err());
}

#[test]
fn tracked_packets(rt: HostRuntime) {
    let mut packets = SentPackets::new(rt.alloc());
    let packet = SentPacket {
        path_generation: 0,
        time_sent: Instant::from_nanos(0),
        size: 1200,
        ack_eliciting: true,
        largest_acked: None,
        retransmits: ItemQueue::empty(rt.alloc()),
        stream_frames: (),
    };
    assert!(&rt; packets.insert(0, packet).is_ok());
    assert!(&rt; packets.get(0).map_or(0, |it| it.size) == 1200);
    // An acknowledged or lost packet is removed.
    assert!(&rt; packets.remove(0).is_some());
    assert!(&rt; packets.len() == 0);
}

#[test]
fn queue_of_items(rt: HostRuntime) {
    let lost = ItemQueue::from_slice(rt.alloc(), &[3]);
    let waiting = ItemQueue::from_slice(rt.alloc(), &[1, 2]);
    let (Ok(mut lost), Ok(waiting)) = (lost, waiting) else {
        panic!(&rt; "NoMemory");
    };
    // What was lost is sent again first.
    assert!(&rt; lost.append(waiting).is_ok());
    assert!(&rt; lost.items() == [3, 1, 2].as_slice());
}
