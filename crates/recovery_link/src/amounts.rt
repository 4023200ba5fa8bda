//! Amounts that arguments write: whole or with a fraction, and with a unit.
use recovery_network::draws::MILLION;
use recovery_script_syntax::words::number_in;

/// Parses one of two names: true if it is the first.
pub fn choice_in(word: &str, yes: &str, no: &str) -> Option<bool> {
    if word == yes {
        return Some(true);
    }
    if word == no {
        return Some(false);
    }
    None
}

/// Returns a number if it is within these bounds.
fn within(least: u64, number: u64, most: u64) -> Option<u64> {
    if least <= number && number <= most {
        Some(number)
    } else {
        None
    }
}

/// Parses a number of nanoseconds, or of `ns`, `us`, `ms` or `s`, within these bounds.
pub fn span_in(word: &str, least: u64, most: u64) -> Option<u64> {
    let (number, unit) = split_span(word);
    within(least, times(number, unit)?, most)
}

/// Splits a span into its number and its unit, in nanoseconds: 1 if it has none.
fn split_span(word: &str) -> (&str, u64) {
    if let Some(number) = word.strip_suffix("ns") {
        return (number, 1);
    }
    if let Some(number) = word.strip_suffix("us") {
        return (number, 1_000);
    }
    if let Some(number) = word.strip_suffix("ms") {
        return (number, 1_000_000);
    }
    match word.strip_suffix("s") {
        Some(number) => (number, 1_000_000_000),
        None => (word, 1),
    }
}

/// Parses a number, or one of `k`, `M` or `G`, within these bounds.
pub fn count_in(word: &str, least: u64, most: u64) -> Option<u64> {
    let (number, factor) = split_count(word);
    within(least, times(number, factor)?, most)
}

/// Splits a count into its number and its factor: 1 if it has none.
fn split_count(word: &str) -> (&str, u64) {
    if let Some(number) = word.strip_suffix("k") {
        return (number, 1_000);
    }
    if let Some(number) = word.strip_suffix("M") {
        return (number, 1_000_000);
    }
    match word.strip_suffix("G") {
        Some(number) => (number, 1_000_000_000),
        None => (word, 1),
    }
}

/// Parses parts of a million, or `%`.
pub fn share_in(word: &str) -> Option<u64> {
    let (number, unit) = match word.strip_suffix("%") {
        Some(number) => (number, 10_000),
        None => (word, 1),
    };
    within(0, times(number, unit)?, MILLION)
}

/// Parses a number of units, each a power of ten, with a fraction or without: none if it is not a whole number of the
/// smallest one.
fn times(number: &str, unit: u64) -> Option<u64> {
    match number.split_once('.') {
        Some((whole, part)) => number_in(whole.as_bytes())?
            .checked_mul(unit)?
            .checked_add(part_in(part.as_bytes(), unit)?),
        None => number_in(number.as_bytes())?.checked_mul(unit),
    }
}

/// Parses the digits after the point.
fn part_in(digits: &[u8], unit: u64) -> Option<u64> {
    if digits.is_empty() {
        return None;
    }
    let mut place = unit;
    let mut sum: u64 = 0;
    for byte in digits {
        let digit = byte.wrapping_sub(b'0');
        if digit > 9 || (digit > 0 && place < 10) {
            return None;
        }
        place /= 10;
        sum = sum.saturating_add(u64::from(digit).saturating_mul(place));
    }
    Some(sum)
}
