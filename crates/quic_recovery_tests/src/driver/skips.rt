//! Packet numbers that are skipped (RFC 9000, 21.4), and how many a space has assigned or skipped.
use super::*;
use rand_core::SeedableRng;
use rand_pcg::Pcg64;

const SKIPPED: Reply = Err(Refusal::SkippedAcked);

fn check_ack(space: SpaceId, low: u64, high: u64) -> Event {
    Event::CheckAck { space, low, high }
}

/// Asserts how many numbers a space has assigned or skipped, which is also the next one.
fn count<R: Rng + Drop>(
    rt: &impl Abort,
    recovery: &Recovery<NewRenoConfig, Tally, R>,
    space: SpaceId,
    given_out: u64,
) {
    let here = kept(rt, recovery, space);
    let is_next = here.next_packet_number() == given_out;
    holds(rt, here.sent_with_keys == given_out && is_next, given_out);
}

/// Only numbers of 1-RTT packets are skipped. An MTU probe skips too.
#[test]
fn number_0_is_skipped(rt: HostRuntime) {
    let (initial, data) = (SpaceId::Initial, SpaceId::Data);
    let config = settings_with(TransportConfig::default(), 8, Skips::Starting(0));
    let mut recovery = made(&rt, rt.alloc(), config, words());
    let probe = Ok(Answer::Probe {
        number: 1,
        size: 1326,
    });
    let rows = [
        (check_ack(data, 0, 0), DONE),
        (check_ack(initial, 0, 0), DONE),
        (send(initial, 1, true), sent(0, None)),
        (Event::PollMtu { now: at(0) }, probe),
        (check_ack(data, 0, 0), SKIPPED),
        (check_ack(data, 0, 9), SKIPPED),
        (check_ack(data, 1, 9), DONE),
        (check_ack(initial, 0, 0), DONE),
        (acked(data, 0), NOT_TRACKED),
        (acked(data, 1), PROBE_ACKED),
    ];
    play(&rt, &mut recovery, rows);
    count(&rt, &recovery, data, 2);
    count(&rt, &recovery, initial, 1);
    drop(recovery);
}

/// Asserts that of the numbers below the third of three skips the first two are not assigned. The ACK of the first is
/// rejected from the number after it up to the one after the second.
fn go_on<R: Rng + Drop>(
    rt: &impl Abort,
    recovery: &mut Recovery<NewRenoConfig, Tally, R>,
    skips: (u64, u64, u64),
) {
    let (first, second, end) = skips;
    for number in 0..end {
        if number != first && number != second {
            let event = send(SpaceId::Data, 1, true);
            told(rt, recovery, number, event, sent(number, None));
            let is_last = first < number && number < second;
            let want = if is_last { SKIPPED } else { DONE };
            let event = check_ack(SpaceId::Data, first, first);
            told(rt, recovery, number, event, want);
        }
    }
    let next = end.saturating_add(1);
    told(
        rt,
        recovery,
        end,
        send(SpaceId::Data, 1, true),
        sent(next, None),
    );
    count(rt, recovery, SpaceId::Data, end.saturating_add(2));
}

/// Seeds of another generator than the program's, and the first three skips.
static DRAWN: [(u64, (u64, u64, u64)); 3] = [
    (0, (8, 86, 218)),
    (1, (53, 65, 142)),
    (7, (0, 78, 243)),
];

/// The skips are those of the table of known random words.
#[test]
fn skips_are_drawn(rt: HostRuntime) {
    for (seed, skips) in &DRAWN {
        let config = settings_with(TransportConfig::default(), 8, Skips::Drawn);
        let rng = Pcg64::seed_from_u64(*seed);
        let mut recovery = made(&rt, rt.alloc(), config, rng);
        go_on(&rt, &mut recovery, *skips);
        drop(recovery);
    }
}
