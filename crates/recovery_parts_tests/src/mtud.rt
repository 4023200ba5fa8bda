//! MTU discovery. Rows are calls, their answers, and the MTU in use after each.
use crate::rows::holds;
use recovery_base::below::SpaceId;
use recovery_base::time::{Duration, Instant};
use recovery_mtud::config::MtuDiscoveryConfig;
use recovery_mtud::mtud::MtuDiscovery;
use std::process::Abort;

const SECOND: u64 = 1_000_000_000;

/// A call of a discovery, with numbers of 1-RTT packets.
#[derive(Clone, Copy)]
enum Call {
    /// At this time, with the next packet number.
    Polls(u64, u64),
    Limit(u16),
    Found(u16),
    /// The number and size of a packet.
    Acked(u64, u16),
    /// The same in another space.
    AckedIn(SpaceId, u64, u16),
    ProbeLost,
    Lost(u64, u16),
    LossesEnd(u64),
    /// The MTU and the minimum MTU.
    Reset(u16, u16),
}

use Call::{Acked, AckedIn, Found, Limit, LossesEnd, Lost, Polls, ProbeLost, Reset};

#[derive(Clone, Copy, PartialEq)]
enum Answer {
    Probe(u16),
    NoProbe,
    Yes,
    No,
    Done,
    /// A search runs, or may run.
    Refused,
}

use Answer::{Done, No, NoProbe, Probe, Refused, Yes};

type Row = (Call, Answer, u16);

fn flag(value: bool) -> Answer {
    if value { Yes } else { No }
}

fn limit(rt: &impl Abort, discovery: &mut MtuDiscovery, size: u16) -> Answer {
    assert!(rt; size > 0);
    if discovery.is_searching() {
        return Refused;
    }
    discovery.on_peer_max_udp_payload_size_received(size);
    Done
}

fn found(rt: &impl Abort, discovery: &mut MtuDiscovery, mtu: u16) -> Answer {
    assert!(rt; mtu > 0);
    if discovery.is_enabled() {
        return Refused;
    }
    discovery.on_mtu_found(mtu);
    Done
}

fn apply(rt: &impl Abort, discovery: &mut MtuDiscovery, call: Call) -> Answer {
    match call {
        Polls(now, number) => match discovery.poll_transmit(Instant::from_nanos(now), number) {
            Some(size) => Probe(size),
            None => NoProbe,
        },
        Limit(size) => limit(rt, discovery, size),
        Found(mtu) => found(rt, discovery, mtu),
        Acked(number, size) => flag(discovery.on_acked(SpaceId::Data, number, size)),
        AckedIn(space, number, size) => flag(discovery.on_acked(space, number, size)),
        ProbeLost => {
            discovery.on_probe_lost();
            Done
        }
        Lost(number, size) => {
            discovery.on_non_probe_lost(number, size);
            Done
        }
        LossesEnd(now) => flag(discovery.black_hole_detected(Instant::from_nanos(now))),
        Reset(mtu, min_mtu) => {
            assert!(rt; mtu > 0 && min_mtu > 0);
            discovery.reset(mtu, min_mtu);
            Done
        }
    }
}

/// Asserts that each row has the expected answer, and leaves the expected MTU.
fn play(rt: &impl Abort, discovery: &mut MtuDiscovery, rows: &[Row]) {
    let mut place = 0u64;
    for (call, answer, mtu) in rows {
        let found = apply(rt, discovery, *call);
        holds(
            rt,
            found == *answer && discovery.current_mtu() == *mtu,
            place,
        );
        place = place.saturating_add(1);
    }
}

/// The initial MTU, the minimum, the peer's limit, the upper bound and the minimum change.
type Setting = (u16, u16, Option<u16>, u16, u16);

const DEFAULT: Setting = (1200, 1200, None, 1452, 20);

fn made(rt: &impl Abort, setting: &Setting) -> MtuDiscovery {
    let (start, min_mtu, limit, upper_bound, minimum_change) = *setting;
    let mut config = MtuDiscoveryConfig::default();
    config
        .upper_bound(upper_bound)
        .minimum_change(minimum_change);
    assert!(rt; min_mtu > 0 && min_mtu <= start);
    match limit {
        Some(limit) => {
            assert!(rt; limit > 0);
            MtuDiscovery::new(start, min_mtu, Some(limit), config)
        }
        None => MtuDiscovery::new(start, min_mtu, None, config),
    }
}

fn play_default(rt: &impl Abort, rows: &[Row]) {
    let mut discovery = made(rt, &DEFAULT);
    play(rt, &mut discovery, rows);
}

/// A search over a link that carries this many bytes: the sizes that it probes, and the MTU at its end. A size that the
/// link carries is acknowledged, and any other is lost three times.
type Search = (Setting, u16, &'static [u16], u16);

/// Returns how often a size is probed over a link.
fn times(size: u16, link: u16) -> u64 {
    if size <= link { 1 } else { 3 }
}

/// Asserts that a probe of this size is sent under this number, and reports it acknowledged, or lost.
fn probe(rt: &impl Abort, discovery: &mut MtuDiscovery, number: u64, size: u16, link: u16) {
    let probed = discovery.poll_transmit(Instant::from_nanos(0), number);
    let is_out = probed == Some(size) && discovery.in_flight_mtu_probe() == Some(number);
    holds(rt, is_out, u64::from(size));
    if size <= link {
        let is_probe = discovery.on_acked(SpaceId::Data, number, size);
        holds(rt, is_probe, u64::from(size));
    } else {
        discovery.on_probe_lost();
    }
}

/// Probes this size as often as the link requires. Returns the next packet number.
fn probe_size(
    rt: &impl Abort,
    discovery: &mut MtuDiscovery,
    first: u64,
    size: u16,
    link: u16,
) -> u64 {
    let mut number = first;
    for _ in 0..times(size, link) {
        probe(rt, discovery, number, size, link);
        number = number.saturating_add(1);
    }
    number
}

/// Probes these sizes over a link. Returns the next packet number.
fn probe_all(rt: &impl Abort, discovery: &mut MtuDiscovery, sizes: &[u16], link: u16) -> u64 {
    let mut number = 0u64;
    for size in sizes {
        number = probe_size(rt, discovery, number, *size, link);
    }
    number
}

/// Asserts that each search sends the probes of its row, and ends with its MTU.
fn play_searches(rt: &impl Abort, searches: &[Search]) {
    let mut place = 0u64;
    for (setting, link, sizes, end) in searches {
        let mut discovery = made(rt, setting);
        let next = probe_all(rt, &mut discovery, sizes, *link);
        let last = discovery.poll_transmit(Instant::from_nanos(0), next);
        let is_over = last.is_none() && !discovery.is_searching();
        holds(rt, is_over && discovery.current_mtu() == *end, place);
        place = place.saturating_add(1);
    }
}

#[test]
fn a_search_halves_its_bounds(rt: HostRuntime) {
    static SEARCHES: [Search; 5] = [
        (DEFAULT, 1500, &[1326, 1389, 1420, 1452], 1452),
        (
            (1200, 1200, Some(1300), 1452, 20),
            1500,
            &[1250, 1275, 1300],
            1300,
        ),
        (
            (1200, 1200, None, 10_000, 20),
            1500,
            &[5600, 3399, 2299, 1749, 1474, 1611, 1542, 1507],
            1474,
        ),
        (DEFAULT, 1400, &[1326, 1389, 1420], 1389),
        (DEFAULT, 1200, &[1326, 1262, 1230], 1200),
    ];
    play_searches(&rt, &SEARCHES);
}

/// From 1 byte to the largest size, in steps of 3.
const WIDEST: Setting = (1, 1, None, 65_527, 3);

#[test]
fn the_widest_searches(rt: HostRuntime) {
    static SEARCHES: [Search; 3] = [
        (
            WIDEST,
            1,
            &[
                32_764, 16_382, 8191, 4095, 2047, 1023, 511, 255, 127, 63, 31, 15, 7, 3,
            ],
            1,
        ),
        (
            WIDEST,
            65_527,
            &[
                32_764, 49_145, 57_336, 61_431, 63_479, 64_503, 65_015, 65_271, 65_399, 65_463,
                65_495, 65_511, 65_519, 65_523, 65_527,
            ],
            65_527,
        ),
        (
            WIDEST,
            65_526,
            &[
                32_764, 49_145, 57_336, 61_431, 63_479, 64_503, 65_015, 65_271, 65_399, 65_463,
                65_495, 65_511, 65_519, 65_523, 65_527, 65_524,
            ],
            65_524,
        ),
    ];
    play_searches(&rt, &SEARCHES);
}

#[test]
fn the_least_changes_probe_the_lower_bound_again(rt: HostRuntime) {
    static SEARCHES: [Search; 5] = [
        ((1, 1, None, 2, 1), 0, &[2, 1], 1),
        ((1200, 1200, None, 1201, 1), 1, &[1201, 1200, 1199], 1200),
        ((1200, 1200, None, 1202, 2), 1, &[1202, 1200], 1200),
        ((1200, 1200, None, 1202, 2), 1200, &[1202, 1200], 1200),
        (
            (1200, 1200, None, 1300, 0),
            1500,
            &[1250, 1275, 1287, 1293, 1296, 1298, 1299, 1300],
            1300,
        ),
    ];
    play_searches(&rt, &SEARCHES);
}

#[test]
fn no_size_above_the_greatest_is_probed(rt: HostRuntime) {
    static SEARCHES: [Search; 3] = [
        ((65_500, 1200, None, 65_535, 20), 65_535, &[65_527], 65_527),
        (
            (65_500, 1200, Some(65_535), 65_535, 20),
            65_535,
            &[65_527],
            65_527,
        ),
        ((65_535, 1200, None, 65_535, 20), 65_535, &[], 65_535),
    ];
    static ROWS: [Row; 3] = [
        (Reset(65_535, 1200), Done, 65_527),
        (Limit(65_535), Done, 65_527),
        (Reset(65_535, 1200), Done, 65_535),
    ];
    play_searches(&rt, &SEARCHES);
    let mut discovery = made(&rt, &(65_535, 1200, None, 65_535, 20));
    play(&rt, &mut discovery, &ROWS);
}

#[test]
fn one_probe_is_in_flight(rt: HostRuntime) {
    static FIRST_ROWS: [Row; 15] = [
        (Limit(1300), Done, 1200),
        (Polls(0, 0), Probe(1250), 1200),
        (Polls(0, 1), NoProbe, 1200),
        (AckedIn(SpaceId::Initial, 0, 1250), No, 1200),
        (AckedIn(SpaceId::Handshake, 0, 1250), No, 1200),
        (Acked(1, 1250), No, 1200),
        (Acked(0, 1250), Yes, 1250),
        (Acked(0, 1250), No, 1250),
        (Polls(0, 1), Probe(1275), 1250),
        (Limit(1400), Refused, 1250),
        (ProbeLost, Done, 1250),
        (Polls(0, 2), Probe(1275), 1250),
        (Acked(2, 1275), Yes, 1275),
        (ProbeLost, Done, 1275),
        (Polls(0, 3), Probe(1300), 1275),
    ];
    static SECOND_ROWS: [Row; 4] = [
        (Polls(0, 0), Probe(1326), 1200),
        (Acked(0, 1326), Yes, 1326),
        (ProbeLost, Done, 1326),
        (Polls(0, 1), Probe(1389), 1326),
    ];
    play_default(&rt, &FIRST_ROWS);
    play_default(&rt, &SECOND_ROWS);
}

#[test]
fn a_poll_may_begin_and_end_a_search(rt: HostRuntime) {
    static FIRST_ROWS: [Row; 5] = [
        (Limit(1200), Done, 1200),
        (Polls(0, 0), NoProbe, 1200),
        (Limit(1300), Done, 1200),
        (Polls(600 * SECOND - 1, 0), NoProbe, 1200),
        (Polls(600 * SECOND, 0), Probe(1250), 1200),
    ];
    static SECOND_ROWS: [Row; 5] = [
        (Limit(1200), Done, 1200),
        (Polls(u64::MAX - 1, 0), NoProbe, 1200),
        (Limit(1300), Done, 1200),
        (Polls(u64::MAX - 1, 0), NoProbe, 1200),
        (Polls(u64::MAX, 0), Probe(1250), 1200),
    ];
    play_default(&rt, &FIRST_ROWS);
    play_default(&rt, &SECOND_ROWS);
}

#[test]
fn limits_may_lie_below_the_least_mtu(rt: HostRuntime) {
    static FIRST_ROWS: [Row; 3] = [
        (Limit(600), Done, 600),
        (Limit(1400), Done, 600),
        (Polls(0, 0), Probe(1000), 600),
    ];
    static SECOND_ROWS: [Row; 9] = [
        (Limit(600), Done, 600),
        (Lost(0, 1300), Done, 600),
        (Lost(2, 1300), Done, 600),
        (Lost(4, 1300), Done, 600),
        (Lost(6, 1300), Done, 600),
        (LossesEnd(0), Yes, 1200),
        (Polls(60 * SECOND, 0), NoProbe, 1200),
        (Reset(1200, 1200), Done, 600),
        (Polls(0, 0), NoProbe, 600),
    ];
    play_default(&rt, &FIRST_ROWS);
    play_default(&rt, &SECOND_ROWS);
}

#[test]
fn four_bursts_are_a_black_hole(rt: HostRuntime) {
    static FIRST_ROWS: [Row; 9] = [
        (Lost(0, 1300), Done, 1200),
        (Lost(2, 1300), Done, 1200),
        (Lost(4, 1300), Done, 1200),
        (LossesEnd(0), No, 1200),
        (Lost(6, 1300), Done, 1200),
        (LossesEnd(0), Yes, 1200),
        (LossesEnd(0), No, 1200),
        (Polls(0, 7), NoProbe, 1200),
        (Polls(60 * SECOND, 7), Probe(1326), 1200),
    ];
    static SECOND_ROWS: [Row; 7] = [
        (Lost(0, 1300), Done, 1200),
        (Lost(2, 1300), Done, 1200),
        (Lost(4, 1300), Done, 1200),
        (LossesEnd(0), No, 1200),
        (Acked(5, 1300), No, 1200),
        (Lost(6, 1300), Done, 1200),
        (LossesEnd(0), No, 1200),
    ];
    static THIRD_ROWS: [Row; 7] = [
        (Lost(0, 1300), Done, 1200),
        (Lost(2, 1300), Done, 1200),
        (Lost(4, 1300), Done, 1200),
        (Lost(6, 1200), Done, 1200),
        (LossesEnd(0), No, 1200),
        (Lost(8, 1201), Done, 1200),
        (LossesEnd(0), Yes, 1200),
    ];
    play_default(&rt, &FIRST_ROWS);
    play_default(&rt, &SECOND_ROWS);
    play_default(&rt, &THIRD_ROWS);
}

#[test]
fn a_report_ends_a_search(rt: HostRuntime) {
    static FIRST_ROWS: [Row; 11] = [
        (Polls(0, 0), Probe(1326), 1200),
        (Acked(0, 1326), Yes, 1326),
        (Polls(0, 1), Probe(1389), 1326),
        (Lost(2, 1326), Done, 1326),
        (Lost(4, 1326), Done, 1326),
        (Lost(6, 1326), Done, 1326),
        (Lost(8, 1326), Done, 1326),
        (LossesEnd(5), Yes, 1200),
        (Acked(1, 1389), No, 1200),
        (Polls(60 * SECOND + 4, 9), NoProbe, 1200),
        (Polls(60 * SECOND + 5, 9), Probe(1326), 1200),
    ];
    static SECOND_ROWS: [Row; 7] = [
        (Lost(0, 1300), Done, 1200),
        (Lost(2, 1300), Done, 1200),
        (Lost(4, 1300), Done, 1200),
        (Lost(6, 1300), Done, 1200),
        (LossesEnd(u64::MAX - 1), Yes, 1200),
        (Polls(u64::MAX - 1, 7), NoProbe, 1200),
        (Polls(u64::MAX, 7), Probe(1326), 1200),
    ];
    play_default(&rt, &FIRST_ROWS);
    play_default(&rt, &SECOND_ROWS);
}

#[test]
fn a_lost_probe_parts_no_numbers_and_joins_none(rt: HostRuntime) {
    static ROWS: [Row; 7] = [
        (Polls(0, 4), Probe(1326), 1200),
        (Lost(0, 1300), Done, 1200),
        (Lost(3, 1300), Done, 1200),
        (ProbeLost, Done, 1200),
        (Lost(5, 1300), Done, 1200),
        (Lost(7, 1300), Done, 1200),
        (LossesEnd(0), Yes, 1200),
    ];
    play_default(&rt, &ROWS);
}

#[test]
fn a_burst_is_joined_by_the_next_number_alone(rt: HostRuntime) {
    static FIRST_ROWS: [Row; 5] = [
        (Lost(u64::MAX, 1300), Done, 1200),
        (Lost(0, 1300), Done, 1200),
        (Lost(2, 1300), Done, 1200),
        (Lost(4, 1300), Done, 1200),
        (LossesEnd(0), Yes, 1200),
    ];
    static SECOND_ROWS: [Row; 7] = [
        (Lost(u64::MAX - 1, 1300), Done, 1200),
        (Lost(u64::MAX, 1300), Done, 1200),
        (Lost(0, 1300), Done, 1200),
        (Lost(2, 1300), Done, 1200),
        (LossesEnd(0), No, 1200),
        (Lost(4, 1300), Done, 1200),
        (LossesEnd(0), Yes, 1200),
    ];
    static THIRD_ROWS: [Row; 5] = [
        (Lost(5, 1300), Done, 1200),
        (Lost(3, 1300), Done, 1200),
        (Lost(1, 1300), Done, 1200),
        (Lost(7, 1300), Done, 1200),
        (LossesEnd(0), Yes, 1200),
    ];
    play_default(&rt, &FIRST_ROWS);
    play_default(&rt, &SECOND_ROWS);
    play_default(&rt, &THIRD_ROWS);
}

#[test]
fn a_disabled_discovery_detects_black_holes(rt: HostRuntime) {
    static ROWS: [Row; 17] = [
        (Polls(0, 0), NoProbe, 1400),
        (Acked(0, 1400), No, 1400),
        (Acked(8, 1400), No, 1400),
        (Lost(1, 1400), Done, 1400),
        (Lost(3, 1400), Done, 1400),
        (Lost(5, 1400), Done, 1400),
        (Lost(7, 1400), Done, 1400),
        (LossesEnd(0), No, 1400),
        (Lost(9, 1400), Done, 1400),
        (Lost(11, 1400), Done, 1400),
        (Lost(13, 1400), Done, 1400),
        (Lost(15, 1400), Done, 1400),
        (LossesEnd(0), Yes, 1200),
        (ProbeLost, Done, 1200),
        (Polls(u64::MAX, 16), NoProbe, 1200),
        (Limit(600), Done, 600),
        (Reset(1400, 1200), Done, 1400),
    ];
    let mut discovery = MtuDiscovery::disabled(1400, 1200);
    play(&rt, &mut discovery, &ROWS);
    let is_idle = discovery.in_flight_mtu_probe().is_none() && !discovery.is_searching();
    holds(&rt, is_idle, 17);
}

/// An MTU that was found elsewhere is in use only if discovery is disabled. It changes neither bursts nor the minimum.
#[test]
fn an_mtu_found_elsewhere(rt: HostRuntime) {
    static ENABLED_ROWS: [Row; 4] = [
        (Found(1400), Refused, 1200),
        (Polls(0, 0), Probe(1326), 1200),
        (Found(1400), Refused, 1200),
        (Acked(0, 1326), Yes, 1326),
    ];
    static ROWS: [Row; 10] = [
        (Found(9000), Done, 9000),
        (Lost(1, 9000), Done, 9000),
        (Lost(3, 9000), Done, 9000),
        (Lost(5, 9000), Done, 9000),
        (Found(1400), Done, 1400),
        (Lost(7, 1400), Done, 1400),
        (LossesEnd(0), Yes, 1200),
        (Found(1300), Done, 1300),
        (Limit(1250), Done, 1250),
        (Found(1400), Done, 1400),
    ];
    play_default(&rt, &ENABLED_ROWS);
    let mut discovery = MtuDiscovery::disabled(1500, 1200);
    play(&rt, &mut discovery, &ROWS);
}

#[test]
fn the_settings_count(rt: HostRuntime) {
    static ROWS: [Row; 17] = [
        (Polls(10, 0), Probe(1300), 1200),
        (ProbeLost, Done, 1200),
        (Polls(10, 1), Probe(1300), 1200),
        (ProbeLost, Done, 1200),
        (Polls(10, 2), Probe(1300), 1200),
        (ProbeLost, Done, 1200),
        (Polls(10, 3), NoProbe, 1200),
        (Polls(14, 3), NoProbe, 1200),
        (Polls(15, 3), Probe(1300), 1200),
        (Acked(3, 1300), Yes, 1300),
        (Lost(4, 1300), Done, 1300),
        (Lost(6, 1300), Done, 1300),
        (Lost(8, 1300), Done, 1300),
        (Lost(10, 1300), Done, 1300),
        (LossesEnd(20), Yes, 1200),
        (Polls(26, 11), NoProbe, 1200),
        (Polls(27, 11), Probe(1300), 1200),
    ];
    let mut config = MtuDiscoveryConfig::default();
    config
        .interval(Duration::from_nanos(5))
        .black_hole_cooldown(Duration::from_nanos(7))
        .upper_bound(1300)
        .minimum_change(100);
    let mut discovery = MtuDiscovery::new(1200, 1200, None, config);
    play(&rt, &mut discovery, &ROWS);
}
