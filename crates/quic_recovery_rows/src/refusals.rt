//! The errors that rows expect, by their numbers: rows are passed by value, and have no references.
use crate::events::{Given, Reply};
use recovery_events::event::Refusal as Cause;

/// An error, in the order of the library's numbers.
#[derive(Clone, Copy, PartialEq, Eq)]
pub enum Refusal {
    /// An allocation failed.
    NoMemory,
    /// A number is 2^62 or more.
    NumberTooLarge,
    /// No packet number is left.
    NumbersExhausted,
    /// The packet is not tracked.
    NotTracked,
    /// The space is discarded.
    SpaceDiscarded,
    /// There is no such path.
    NoSuchPath,
    /// An MTU search is running.
    Searching,
    /// The size is zero.
    ZeroMtu,
    /// A counter exceeds `u64::MAX`.
    Overflow,
    /// The connection ID was already retired.
    Retired,
    /// The connection ID exceeds the limit.
    ExceedsLimit,
    /// The frame's retire-prior-to exceeds its own number.
    BadRetirePriorTo,
    /// Connection IDs are not in use.
    CidsNotInUse,
    /// The connection ID was not issued.
    UnissuedCid,
    /// The requested delay is too small.
    DelayTooSmall,
    /// A skipped number is acknowledged.
    SkippedAcked,
    /// The ECN counts fail the check.
    Ecn,
    /// The initial ID is not active.
    NotInitialId,
    /// The numbers are not the expected ones, or no range.
    BadRange,
    /// The connection ID conflicts with the one that is held.
    Conflict,
}

/// Returns whether a reply is the expected one.
pub fn is(reply: &Given, want: &Reply) -> bool {
    match (reply, want) {
        (Ok(answer), Ok(wanted)) => answer == wanted,
        (Err(refusal), Err(wanted)) => number_given(refusal) == number_wanted(*wanted),
        _ => false,
    }
}

/// Returns the number of an expected error.
pub fn number_wanted(refusal: Refusal) -> u64 {
    u64::from(refusal as u8) + 1
}

/// Returns the number of an error.
pub fn number_given(refusal: &Cause) -> u64 {
    u64::from(refusal.number())
}
