//! Settings, controllers and generators that no script has.
use super::*;
use rand_core::SeedableRng;
use rand_pcg::Pcg64;
use recovery_congestion::congestion::Controller;
use recovery_parts_tests::halving::HalvingConfig;

fn poll(nanos: u64) -> Event {
    Event::PollMtu { now: at(nanos) }
}

fn limit(size: u16) -> Event {
    Event::PeerLimit { size }
}

fn found(mtu: u16) -> Event {
    Event::MtuFound { mtu }
}

fn pacer_check() -> Event {
    Event::PacerCheck {
        now: at(0),
        bytes: 12_001,
    }
}

fn congestion() -> Event {
    Event::Congestion {
        now: at(2),
        sent: at(1),
        persistent: false,
        bytes: 1200,
    }
}

fn delayed(nanos: u64) -> Reply {
    Ok(Answer::Delayed(at(nanos)))
}

/// If the MTU is not to be searched, no probe is ever due.
#[test]
fn no_search(rt: HostRuntime) {
    let mut config = settings(8);
    config.allow_mtud = false;
    let mut recovery = made(&rt, rt.alloc(), config, words());
    let rows = [
        (poll(0), Ok(Answer::NoProbe)),
        (limit(1400), DONE),
        (poll(u64::MAX), Ok(Answer::NoProbe)),
        (limit(1000), DONE),
        (poll(u64::MAX), Ok(Answer::NoProbe)),
        (
            Event::LossesDone { now: at(0) },
            Ok(Answer::BlackHole(false)),
        ),
        (send(SpaceId::Data, 1200, true), sent(0, None)),
    ];
    play(&rt, &mut recovery, rows);
    let mtu = recovery.current().current_mtu();
    holds(&rt, mtu == 1000 && recovery.peer_limit() == Some(1000), 7);
    drop(recovery);
}

/// If the MTU is not to be searched, the one found elsewhere last is in use. The minimum window, of two datagrams,
/// follows (RFC 9002, 7.2).
#[test]
fn an_mtu_found_elsewhere(rt: HostRuntime) {
    let mut config = settings(8);
    config.allow_mtud = false;
    let mut recovery = made(&rt, rt.alloc(), config, words());
    let rows = [
        (found(0), Err(Refusal::ZeroMtu)),
        (found(9000), DONE),
        (found(0), Err(Refusal::ZeroMtu)),
        (poll(u64::MAX), Ok(Answer::NoProbe)),
    ];
    play(&rt, &mut recovery, rows);
    let path = recovery.current();
    let is_left = path.current_mtu() == 9000 && path.congestion.window() == 18_000;
    holds(&rt, is_left, 1);
    play(&rt, &mut recovery, [(found(1400), DONE)]);
    holds(&rt, recovery.current().current_mtu() == 1400, 2);
    drop(recovery);
}

#[test]
fn ids_of_no_bytes_are_not_retired(rt: HostRuntime) {
    let mut recovery = made(&rt, rt.alloc(), settings(0), words());
    for sequence in [0, 9] {
        let event = Event::PeerRetired { sequence, limit: 5 };
        told(
            &rt,
            &mut recovery,
            sequence,
            event,
            Err(Refusal::CidsNotInUse),
        );
    }
    drop(recovery);
}

/// What is stated for every controller holds for another one: its window, initially 24,000 bytes, halves at each
/// congestion event, and no acknowledgement increases it.
#[test]
fn a_controller_that_halves(rt: HostRuntime) {
    let transport = TransportConfig::with_factory(HalvingConfig::new(24_000));
    let config = settings_with(transport, 8, Skips::Drawn);
    let mut recovery = made(&rt, rt.alloc(), config, Pcg64::seed_from_u64(1));
    let rows = [
        (pacer_check(), delayed(11_100)),
        (congestion(), DONE),
        (pacer_check(), delayed(22_200)),
        (send(SpaceId::Data, 1200, true), sent(0, None)),
        (acked(SpaceId::Data, 0), ACKED),
        (pacer_check(), delayed(22_200)),
        (congestion(), DONE),
        (pacer_check(), delayed(44_400)),
    ];
    play(&rt, &mut recovery, rows);
    drop(recovery);
}
