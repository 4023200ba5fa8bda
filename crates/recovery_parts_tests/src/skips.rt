//! Which numbers a filter skips, and which acknowledgements it rejects.
use crate::rows::holds;
use rand_core::{Rng, SeedableRng};
use rand_pcg::{Pcg32, Pcg64};
use recovery_base::below::{SpaceId, TransportError};
use recovery_packet_numbers::{PacketNumberFilter, Skips};
use std::process::Abort;

/// The numbers that are skipped, from a number on up to below another.
type LeftOut = (u64, u64, &'static [u64]);

/// Asserts that from number 0 on exactly these numbers of a row's span are skipped.
fn play<R: Rng>(rt: &impl Abort, filter: &mut PacketNumberFilter, rng: &mut R, row: &LeftOut) {
    let (from, end, skips) = *row;
    let mut next = 0u64;
    let mut place = 0usize;
    for _ in 0..end {
        if next >= end {
            break;
        }
        let told = filter.peek(next);
        let number = filter.allocate(rng, next);
        holds(rt, number == Some(told), next);
        if told != next && next >= from {
            holds(rt, skips.get(place) == Some(&next), next);
            place = place.saturating_add(1);
        }
        next = told.saturating_add(1);
    }
    holds(rt, place == skips.len(), next);
}

/// Asserts that the skips drawn from a seed are those of its row.
fn play_seeds(rt: &impl Abort, rows: &[(u64, LeftOut)]) {
    for (seed, row) in rows {
        let mut rng = Pcg32::seed_from_u64(*seed);
        let mut filter = PacketNumberFilter::new(&mut rng);
        play(rt, &mut filter, &mut rng, row);
    }
}

/// Seeds, and what is skipped.
static SEEDS: [(u64, LeftOut); 17] = [
    (0, (0, 9000, &[63, 80, 176, 426, 793, 1051, 2992, 5116])),
    (1, (0, 9000, &[31, 68, 148, 282, 538, 1327, 2065, 7540])),
    (7, (0, 9000, &[6, 116, 168, 482, 908, 1341, 3802, 4189])),
    (
        u64::MAX,
        (0, 9000, &[20, 114, 159, 314, 763, 1992, 2497, 4158]),
    ),
    (56, (0, 64, &[0])),
    (260, (0, 64, &[0])),
    (450, (0, 64, &[0])),
    (0, (0, 64, &[63])),
    (125, (0, 64, &[63])),
    (215, (0, 64, &[63])),
    (265, (0, 64, &[63])),
    (19, (64, 128, &[127])),
    (299, (64, 128, &[127])),
    (305, (64, 128, &[127])),
    (7731, (0, 128, &[63, 65])),
    (13_171, (0, 128, &[63, 65])),
    (17_348, (0, 128, &[63, 65])),
];

#[test]
fn skips_drawn_from_a_seed(rt: HostRuntime) {
    play_seeds(&rt, &SEEDS);
}

/// Asserts that with a generator skips begin as expected, and are those of a row.
fn play_begun<R: Rng>(rt: &impl Abort, skips: Skips, rng: &mut R, row: &LeftOut) {
    if let Skips::Starting(next) = skips {
        assert!(rt; next < 64);
    }
    let mut filter = PacketNumberFilter::with_skips(skips, rng);
    play(rt, &mut filter, rng, row);
}

/// Seeds of another generator, and what is skipped.
static OTHER_SEEDS: [(u64, LeftOut); 4] = [
    (0, (0, 9000, &[8, 86, 218, 265, 950, 1190, 2455, 6168])),
    (1, (0, 9000, &[53, 65, 142, 507, 966, 1511, 2432, 5686])),
    (7, (0, 9000, &[0, 78, 243, 469, 763, 1630, 2231, 5422])),
    (
        u64::MAX,
        (0, 9000, &[53, 111, 250, 271, 1016, 1445, 2207, 4108]),
    ),
];

#[test]
fn skips_drawn_by_other_generators(rt: HostRuntime) {
    for (seed, row) in &OTHER_SEEDS {
        play_begun(&rt, Skips::Drawn, &mut Pcg64::seed_from_u64(*seed), row);
    }
    play_begun(
        &rt,
        Skips::Drawn,
        &mut Pcg32::new(42, 54),
        &(0, 9000, &[30, 96, 229, 385, 1010, 1143, 2497, 4549]),
    );
}

/// How skips begin, and what is skipped.
static BEGINNINGS: [(Skips, LeftOut); 5] = [
    (Skips::Drawn, (0, 128, &[63, 80])),
    (Skips::Starting(0), (0, 64, &[0])),
    (Skips::Starting(5), (0, 64, &[5])),
    (Skips::Starting(63), (0, 64, &[63])),
    (Skips::Disabled, (0, 9000, &[])),
];

#[test]
fn skips_begin_as_they_are_to(rt: HostRuntime) {
    for (skips, row) in &BEGINNINGS {
        play_begun(&rt, *skips, &mut Pcg32::seed_from_u64(0), row);
    }
}

/// Returns the first number from one on up to below another that a filter would skip.
fn next_skip(filter: &PacketNumberFilter, from: u64, end: u64) -> Option<u64> {
    for number in from..end {
        if filter.peek(number) != number {
            return Some(number);
        }
    }
    None
}

/// A space and the ends of a range in it, and whether its acknowledgement is rejected.
type Ack = (SpaceId, u64, u64, bool);

/// Asserts for each acknowledgement whether it is rejected.
fn check(rt: &impl Abort, filter: &PacketNumberFilter, acks: &[Ack]) {
    for (space, low, high, is_refused) in acks {
        let answer = filter.check_ack(*space, *low..=*high);
        let wanted = if *is_refused {
            Err(TransportError::PROTOCOL_VIOLATION("unsent packet acked"))
        } else {
            Ok(())
        };
        holds(rt, answer == wanted, *low);
    }
}

/// The start of skips, the number then, the bounds of the next skip, and acknowledgements.
type Start = (u64, u64, u64, u64, &'static [Ack]);

fn play_start<R: Rng>(rt: &impl Abort, rng: &mut R, row: &Start) {
    let (start, number, from, end, acks) = *row;
    assert!(rt; start < 64);
    let mut filter = PacketNumberFilter::starting(start);
    holds(rt, filter.allocate(rng, start) == Some(number), start);
    let is_within = next_skip(&filter, 0, from).is_none()
        && next_skip(&filter, from, end).is_some();
    holds(rt, is_within, start);
    check(rt, &filter, acks);
}

/// The smallest and the largest start.
static STARTS: [Start; 2] = [
    (
        63,
        64,
        65,
        128,
        &[
            (SpaceId::Data, 60, 63, true),
            (SpaceId::Data, 63, 63, true),
            (SpaceId::Data, 63, 70, true),
            (SpaceId::Data, 64, 70, false),
            (SpaceId::Data, 60, 62, false),
            (SpaceId::Data, 70, 60, false),
        ],
    ),
    (
        0,
        1,
        64,
        128,
        &[
            (SpaceId::Data, 0, 0, true),
            (SpaceId::Data, 1, 1, false),
            (SpaceId::Initial, 0, 0, false),
            (SpaceId::Handshake, 0, 0, false),
        ],
    ),
];

#[test]
fn skips_start_at_either_end(rt: HostRuntime) {
    for row in &STARTS {
        for seed in 0..50u64 {
            play_start(&rt, &mut Pcg32::seed_from_u64(seed), row);
        }
    }
}

/// How many numbers are assigned; a skip, the first number after which its acknowledgement is rejected, and the first
/// after which it no longer is.
type Remembered = (u64, u64, u64, u64);

fn play_remembered<R: Rng>(rt: &impl Abort, rng: &mut R, row: &Remembered) {
    let (end, skip, first, last) = *row;
    let mut filter = PacketNumberFilter::with_skips(Skips::Drawn, rng);
    let mut next = 0u64;
    check(rt, &filter, &[(SpaceId::Data, skip, skip, false)]);
    for _ in 0..end {
        let number = filter.allocate(rng, next);
        holds(rt, number.is_some(), next);
        if let Some(number) = number {
            let is_refused = number >= first && number < last;
            check(rt, &filter, &[(SpaceId::Data, skip, skip, is_refused)]);
            next = number.saturating_add(1);
        }
    }
}

#[test]
fn the_last_skip_is_remembered(rt: HostRuntime) {
    static ROWS: [Remembered; 3] = [
        (120, 63, 64, 81),
        (200, 80, 81, 177),
        (100, 60, u64::MAX, u64::MAX),
    ];
    for row in &ROWS {
        play_remembered(&rt, &mut Pcg32::seed_from_u64(0), row);
    }
}

#[test]
fn numbers_end_below_2_to_62(rt: HostRuntime) {
    const END: u64 = 1 << 62;
    static ROWS: [(u64, Option<u64>); 5] = [
        (END - 2, Some(END - 2)),
        (END - 1, Some(END - 1)),
        (END, None),
        (END + 1, None),
        (u64::MAX, None),
    ];
    let mut rng = Pcg32::seed_from_u64(0);
    let before = Pcg32::seed_from_u64(0);
    let mut filter = PacketNumberFilter::disabled();
    for (next, wanted) in &ROWS {
        holds(&rt, filter.peek(*next) == *next, *next);
        let number = filter.allocate(&mut rng, *next);
        let is_left = rng == before && next_skip(&filter, 0, 100).is_none();
        holds(&rt, number == *wanted && is_left, *next);
    }
}
