//! ECN counts. A row is how many packets an ACK frame newly acknowledges, its counts, and the answer.
use crate::rows::holds;
use recovery_base::below::EcnCounts;
use std::process::Abort;

#[derive(Clone, Copy)]
enum Answer {
    /// Nothing was marked.
    Clear,
    /// CE increased.
    Marked,
    Fails(&'static str),
}

use Answer::{Clear, Fails, Marked};

/// Packets newly acknowledged, the counts of ECT(0), ECT(1) and CE, and the answer.
type Row = (u64, (u64, u64, u64), Answer);

const ECT0_FALLS: Answer = Fails("peer ECT(0) count regression");

const ECT1_FALLS: Answer = Fails("peer ECT(1) count regression");

const CE_FALLS: Answer = Fails("peer CE count regression");

const BLEACHED: Answer = Fails("ECN bleaching");

const CORRUPTED: Answer = Fails("ECN corruption");

const MAX: u64 = u64::MAX;

fn counts(of: (u64, u64, u64)) -> EcnCounts {
    let (ect0, ect1, ce) = of;
    EcnCounts { ect0, ect1, ce }
}

fn is_wanted(found: Result<bool, &'static str>, wanted: Answer) -> bool {
    match (found, wanted) {
        (Ok(marked), Clear) => !marked,
        (Ok(marked), Marked) => marked,
        (Err(text), Fails(cause)) => text == cause,
        _ => false,
    }
}

/// Asserts that each row has the expected answer, and that an error leaves the counts unchanged.
fn play(rt: &impl Abort, mut last: EcnCounts, rows: &[Row]) {
    let mut place = 0u64;
    for (newly_acked, new, wanted) in rows {
        let old = last;
        let found = last.detect(*newly_acked, counts(*new));
        let kept = if found.is_ok() { counts(*new) } else { old };
        holds(rt, is_wanted(found, *wanted) && last == kept, place);
        place = place.saturating_add(1);
    }
}

#[test]
fn counts_are_checked_against_the_last(rt: HostRuntime) {
    static ROWS: [Row; 7] = [
        (2, (2, 0, 0), Clear),
        (1, (2, 0, 1), Marked),
        (0, (1, 0, 1), ECT0_FALLS),
        (0, (2, 0, 0), CE_FALLS),
        (5, (3, 0, 1), BLEACHED),
        (1, (2, 1, 1), CORRUPTED),
        (0, (2, 1, 1), CORRUPTED),
    ];
    play(&rt, EcnCounts::ZERO, &ROWS);
}

#[test]
fn counts_rise_to_the_last_number(rt: HostRuntime) {
    static ROWS: [Row; 2] = [(0, (MAX, 0, MAX), Marked), (0, (MAX, 0, 0), CE_FALLS)];
    play(&rt, EcnCounts::ZERO, &ROWS);
}

#[test]
fn ect1_neither_rises_nor_falls(rt: HostRuntime) {
    play(&rt, EcnCounts::default(), &[(0, (0, 3, 0), CORRUPTED)]);
    let one = EcnCounts {
        ect0: 0,
        ect1: 1,
        ce: 0,
    };
    play(&rt, one, &[(0, (0, 0, 0), ECT1_FALLS)]);
}
