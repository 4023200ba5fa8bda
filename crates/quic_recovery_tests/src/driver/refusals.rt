//! The numbers, names and texts of errors.
use super::holds;
use recovery_events::event::Refusal;
use std::alloc::Global;

/// Errors with their numbers, names and texts.
static TEXTS: [(Refusal, u8, &str, &str); 20] = [
    (Refusal::NoMemory, 1, "NoMemory", "out of memory"),
    (
        Refusal::NumberTooLarge,
        2,
        "NumberTooLarge",
        "a number is 2^62 or more",
    ),
    (
        Refusal::NumbersExhausted,
        3,
        "NumbersExhausted",
        "no packet numbers are left",
    ),
    (
        Refusal::NotTracked,
        4,
        "NotTracked",
        "the packet is not tracked",
    ),
    (
        Refusal::SpaceDiscarded,
        5,
        "SpaceDiscarded",
        "the space is discarded",
    ),
    (
        Refusal::NoSuchPath,
        6,
        "NoSuchPath",
        "there is no such path",
    ),
    (
        Refusal::Searching,
        7,
        "Searching",
        "an MTU search is running",
    ),
    (Refusal::ZeroMtu, 8, "ZeroMtu", "the size is zero"),
    (
        Refusal::Overflow,
        9,
        "Overflow",
        "a counter would exceed 2^64 - 1",
    ),
    (
        Refusal::Retired,
        10,
        "Retired",
        "the connection ID is already retired",
    ),
    (
        Refusal::ExceedsLimit,
        11,
        "ExceedsLimit",
        "the connection ID exceeds the limit",
    ),
    (
        Refusal::BadRetirePriorTo,
        12,
        "BadRetirePriorTo",
        "retire-prior-to exceeds the frame's sequence number",
    ),
    (
        Refusal::CidsNotInUse,
        13,
        "CidsNotInUse",
        "connection IDs are not in use",
    ),
    (
        Refusal::UnissuedCid,
        14,
        "UnissuedCid",
        "the connection ID was not issued",
    ),
    (
        Refusal::DelayTooSmall,
        15,
        "DelayTooSmall",
        "the requested delay is too small",
    ),
    (
        Refusal::SkippedAcked,
        16,
        "SkippedAcked",
        "a skipped packet number is acknowledged",
    ),
    (Refusal::Ecn("ECN bleaching"), 17, "Ecn", "ECN bleaching"),
    (
        Refusal::NotInitialId,
        18,
        "NotInitialId",
        "the initial connection ID is not active",
    ),
    (
        Refusal::BadRange,
        19,
        "BadRange",
        "invalid range of packet numbers",
    ),
    (
        Refusal::Conflict,
        20,
        "Conflict",
        "the connection ID conflicts with the stored one",
    ),
];

/// Returns whether an error is printed so.
fn is_printed(alloc: Global, refusal: &Refusal, text: &str) -> bool {
    match format!(in alloc; "{refusal}") {
        Ok(printed) => printed.as_str() == text,
        Err(_) => false,
    }
}

/// Asserts the number, the name and the text of each error.
#[test]
fn refusals_have_numbers_names_and_texts(rt: HostRuntime) {
    for (refusal, number, name, text) in &TEXTS {
        let is_named = refusal.number() == *number && refusal.name() == *name;
        let is_right = is_named && is_printed(rt.alloc(), refusal, text);
        holds(&rt, is_right, u64::from(*number));
    }
}
