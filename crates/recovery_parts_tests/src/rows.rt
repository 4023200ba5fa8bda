//! What the rows of these tests share.
use recovery_base::below::{VarInt, VarIntBoundsExceeded};
use recovery_base::time::{Duration, Instant};
use std::process::Abort;

/// The number by which a failed row shows a value, if it has one.
pub(crate) trait Told {
    fn told(&self) -> Option<u128>;
}

impl Told for u128 {
    fn told(&self) -> Option<u128> {
        Some(*self)
    }
}

impl Told for u64 {
    fn told(&self) -> Option<u128> {
        Some(u128::from(*self))
    }
}

impl Told for VarInt {
    fn told(&self) -> Option<u128> {
        Some(u128::from(self.into_inner()))
    }
}

impl Told for bool {
    fn told(&self) -> Option<u128> {
        Some(u128::from(*self))
    }
}

impl Told for Instant {
    fn told(&self) -> Option<u128> {
        Some(u128::from(self.as_nanos()))
    }
}

impl Told for Duration {
    fn told(&self) -> Option<u128> {
        Some(self.as_nanos())
    }
}

impl<T: Told> Told for Option<T> {
    fn told(&self) -> Option<u128> {
        match self {
            Some(value) => value.told(),
            None => None,
        }
    }
}

impl Told for Result<VarInt, VarIntBoundsExceeded> {
    fn told(&self) -> Option<u128> {
        match self {
            Ok(number) => number.told(),
            Err(_) => None,
        }
    }
}

/// Asserts that a row holds.
pub(crate) fn holds(rt: &impl Abort, is_right: bool, row: u64) {
    assert!(rt; is_right, "row {row}");
}

/// Asserts that each of these holds.
pub(crate) fn all_hold(rt: &impl Abort, are_right: &[bool]) {
    let mut row = 0u64;
    for is_right in are_right {
        holds(rt, *is_right, row);
        row = row.saturating_add(1);
    }
}

/// Asserts that a row finds the expected value.
pub(crate) fn finds<T: PartialEq + Told>(rt: &impl Abort, row: u64, found: &T, wanted: &T) {
    if found != wanted {
        let (found, wanted) = (found.told(), wanted.told());
        panic!(rt; "row {row}: {found:?}, and not {wanted:?}");
    }
}

/// Asserts that each row finds the expected value.
pub(crate) fn same<T: PartialEq + Told>(rt: &impl Abort, rows: &[(T, T)]) {
    let mut row = 0u64;
    for (found, wanted) in rows {
        finds(rt, row, found, wanted);
        row = row.saturating_add(1);
    }
}
