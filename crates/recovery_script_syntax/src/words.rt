//! The words of a line, read one after another.
ghost use Rattle.std.specs.Prelude.{◌≡◌, ◌*◌, ◌<◌, ◌≤◌, ◌^◌, ◌==◌, [], Some, length, take, slice_index, ◌+◌};
ghost use Rattle.std.specs.Prelude.{bytes_eq, Decides, IfOk, IfSome, OnErr, IsSome, IsSomeAnd};
ghost use Rattle.std.specs.List.{position_or_len, before_first};
ghost use Rattle.recovery_base.specs.Timers.{timer_named};
ghost use Rattle.recovery_base.specs.Times.{span_limit};
ghost use Rattle.recovery_base.specs.Units.{byte_limit, number_limit, u16_limit, u64_limit};
ghost use Rattle.recovery_script_syntax.specs.Words.{words_of, most_ids};
ghost use Rattle.recovery_script_syntax.specs.Reading.{IsFirstNumber, ParsesTo, ReadsBy, words_left, first_word, field, flag_of, space_of, path_of, largest_of, number_of};
ghost use Rattle.recovery_script_syntax.specs.Reading.{items_read, AreItemsRead, IsPlainName, TakesName};

use crate::blanks::word_len;
use crate::digits::{half_at, leading_digits, word_at};
use recovery_base::below::{NoMemory, SpaceId, VarInt};
use recovery_base::time::{Duration, Instant};
use recovery_base::timer::Timer;
use recovery_paths::path_pair::PathName;
use std::alloc::Global;

/// The most ids that a line issues.
const MOST_IDS: u64 = 64;

/// Returns whether a word is this name.
#[inline(always)]
pub fn is_name(word: &[u8], name: &str) -> bool
    ensures { result ≡ bytes_eq word.now name.now }
{
    are_same(word, name.as_bytes())
}

/// Returns whether these are the same bytes. Eight are compared as one word, then four, so that no byte is read twice:
/// if the others are known at compile time, they are numbers.
#[inline(always)]
fn are_same(bytes: &[u8], others: &[u8]) -> bool
    ensures { result ≡ bytes_eq bytes.now others.now }
{
    let count = others.len();
    if bytes.len() != count {
        return false;
    }
    if count < 8 {
        return are_short_same(bytes, others);
    }
    word_at(bytes, 0) == word_at(others, 0) && are_short_same(&bytes[8..], &others[8..])
}

/// Does the same for few bytes, by words of four.
#[inline(always)]
fn are_short_same(bytes: &[u8], others: &[u8]) -> bool
    requires { length bytes.now ≡ length others.now }
    ensures { result ≡ bytes_eq bytes.now others.now }
{
    let count = others.len();
    if count < 4 {
        return are_few_same(bytes, others);
    }
    half_at(bytes, 0) == half_at(others, 0) && are_few_same(&bytes[4..], &others[4..])
}

/// Does the same for up to three bytes, one by one.
#[inline(always)]
fn are_few_same(bytes: &[u8], others: &[u8]) -> bool
    requires { length bytes.now ≡ length others.now }
    ensures { result ≡ bytes_eq bytes.now others.now }
{
    match others.len() {
        0 => true,
        1 => bytes[0] == others[0],
        2 => bytes[0] == others[0] && bytes[1] == others[1],
        3 => bytes[0] == others[0] && bytes[1] == others[1] && bytes[2] == others[2],
        _ => bytes == others,
    }
}

/// Returns whether a word of bytes ends at a place: there is nothing or a space.
#[inline(always)]
fn ends_at(bytes: &[u8], end: usize) -> bool
    ensures { Decides result (end < length bytes.now → slice_index bytes.now end ≡ 32) }
{
    end >= bytes.len() || bytes[end] == b' '
}

/// Returns whether the first word of bytes is this name.
#[inline(always)]
fn begins_with(bytes: &[u8], name: &str) -> bool
    requires { IsPlainName name.now }
    ensures { result ≡ bytes_eq (before_first (λ b. b == 32) bytes.now) name.now }
{
    let end = name.len();
    if end > bytes.len() {
        return false;
    }
    if !ends_at(bytes, end) {
        return false;
    }
    is_name(&bytes[..end], name)
}

/// Returns the number that digits write, 0 to `u128::MAX`: without a sign and without leading zeros.
fn long_number_in(digits: &[u8]) -> Option<u128>
    ensures { result ≡ number_of (2 ^ 128) digits.now }
{
    if digits.is_empty() || (digits.len() > 1 && digits[0] == b'0') {
        return None;
    }
    let mut value = 0u128;
    for byte in digits {
        let digit = byte.wrapping_sub(b'0');
        if digit > 9 {
            return None;
        }
        value = value.checked_mul(10)?.checked_add(u128::from(digit))?;
    }
    Some(value)
}

/// Returns the number that a word writes, 0 to `u64::MAX`: digits without a sign and without leading zeros.
#[tactic(auto, unfolding(crate::specs::Reading::number_of))]
pub fn number_in(word: &[u8]) -> Option<u64>
    ensures { result ≡ number_of u64_limit word.now }
{
    match long_number_in(word) {
        Some(number) => u64::try_from(number).ok(),
        None => None,
    }
}

/// Returns the span that a word writes: nanoseconds, 0 to 2^64 · 10^9 - 1, in the form of a number.
#[tactic(auto, unfolding(crate::specs::Reading::number_of))]
fn span_in(word: &[u8]) -> Option<Duration>
    ensures { result ≡ number_of span_limit word.now }
{
    match long_number_in(word) {
        Some(nanos) => Duration::checked_from_nanos(nanos),
        None => None,
    }
}

/// Returns the number that the first word of bytes writes, 0 to `u64::MAX`, and the length of that word, in one pass,
/// if it has at most 19 digits; else `None`.
#[inline(always)]
fn first_short_number(bytes: &[u8]) -> Option<(u64, usize)>
    ensures { IfSome result (λ found. IsFirstNumber u64_limit bytes.now (Some found)) }
{
    let (value, end) = leading_digits(bytes);
    if end == 0 || end > 19 || (end > 1 && bytes[0] == b'0') {
        return None;
    }
    if end < bytes.len() && bytes[end] != b' ' {
        return None;
    }
    Some((value, end))
}

/// The remaining words of a line.
#[derive(Drop)]
pub struct Words<'a> {
    rest: Option<&'a [u8]>,
}

impl<'a> Words<'a> {
    /// Returns the words of a line, which are separated by spaces. An empty line has one word, the empty one.
    pub fn new(line: &'a [u8]) -> Self
        ensures { words_left result ≡ words_of line.now }
    {
        Words { rest: Some(line) }
    }

    /// Skips the first word, which has this length, and the space after it.
    fn pass(&mut self, rest: &'a [u8], end: usize)
        requires { end ≡ position_or_len (λ b. b == 32) rest.now }
        ensures { first_word (words_of rest.now) ≡ Some (take end rest.now, words_left self.new) }
    {
        if end < rest.len() {
            self.rest = Some(&rest[end + 1..]);
        } else {
            self.rest = None;
        }
    }

    /// Returns the next word, or `None` after the last one.
    pub fn next(&mut self) -> Option<&'a [u8]>
        ensures { ParsesTo (λ s. s.now) result
            (words_left self.new) (first_word (words_left self.old)) }
    {
        let rest = self.rest?;
        let end = word_len(rest);
        self.pass(rest, end);
        Some(&rest[..end])
    }

    /// Skips the next word if it is this name. Returns whether it is.
    #[inline(always)]
    fn take_name(&mut self, name: &str) -> bool
        requires { IsPlainName name.now }
        ensures { TakesName name.now result (words_left self.old) (words_left self.new) }
    {
        let Some(rest) = self.rest else {
            return false;
        };
        if !begins_with(rest, name) {
            return false;
        }
        self.pass(rest, name.len());
        true
    }

    /// Parses the next word as a number, 0 to `u64::MAX`.
    #[inline(never)]
    #[tactic(auto, unfolding(crate::specs::Reading::field))]
    pub fn number(&mut self) -> Option<u64>
        ensures { ReadsBy (field (number_of u64_limit)) self.old self.new result }
    {
        let rest = self.rest?;
        let Some((number, end)) = first_short_number(rest) else {
            return self.number_of_any_length();
        };
        self.pass(rest, end);
        Some(number)
    }

    /// Does the same if the word has more than 19 digits, or is no number.
    #[cold]
    #[inline(never)]
    #[tactic(auto, unfolding(crate::specs::Reading::field))]
    fn number_of_any_length(&mut self) -> Option<u64>
        ensures { ReadsBy (field (number_of u64_limit)) self.old self.new result }
    {
        number_in(self.next()?)
    }

    /// Parses the next word as a time: nanoseconds, 0 to `u64::MAX`.
    #[tactic(auto, unfolding(crate::specs::Reading::field))]
    pub fn moment(&mut self) -> Option<Instant>
        ensures { ReadsBy (field (number_of u64_limit)) self.old self.new result }
    {
        Some(Instant::from_nanos(self.number()?))
    }

    /// Parses the next word as a span: nanoseconds, 0 to 2^64 · 10^9 - 1.
    #[inline(never)]
    #[tactic(auto, unfolding(crate::specs::Reading::field, crate::specs::Reading::number_of))]
    pub fn span(&mut self) -> Option<Duration>
        ensures { ReadsBy (field (number_of span_limit)) self.old self.new result }
    {
        let rest = self.rest?;
        let Some((nanos, end)) = first_short_number(rest) else {
            return self.span_of_any_length();
        };
        self.pass(rest, end);
        Some(Duration::from_nanos(nanos))
    }

    /// Does the same if the word has more than 19 digits, or is no span.
    #[inline(never)]
    #[tactic(auto, unfolding(crate::specs::Reading::field))]
    fn span_of_any_length(&mut self) -> Option<Duration>
        ensures { ReadsBy (field (number_of span_limit)) self.old self.new result }
    {
        span_in(self.next()?)
    }

    /// Parses the next word as a number, 0 to `u16::MAX`: a size in bytes, or a port.
    #[tactic(auto, unfolding(crate::specs::Reading::field))]
    pub fn short(&mut self) -> Option<u16>
        ensures { ReadsBy (field (number_of u16_limit)) self.old self.new result }
    {
        let number = self.number()?;
        u16::try_from(number).ok()
    }

    /// Parses the next word as a byte, 0 to 255.
    #[tactic(auto, unfolding(crate::specs::Reading::field))]
    pub fn byte(&mut self) -> Option<u8>
        ensures { ReadsBy (field (number_of byte_limit)) self.old self.new result }
    {
        let number = self.number()?;
        u8::try_from(number).ok()
    }

    /// Parses the next word as a count of IDs, 0 to 64.
    #[tactic(auto, unfolding(crate::specs::Reading::field))]
    pub fn count(&mut self) -> Option<u64>
        ensures { ReadsBy (field (number_of (most_ids + 1))) self.old self.new result }
    {
        let number = self.number()?;
        if number > MOST_IDS {
            return None;
        }
        Some(number)
    }

    /// Parses the next word as a number below 2^62.
    #[tactic(auto, unfolding(crate::specs::Reading::field))]
    pub fn var_int(&mut self) -> Option<VarInt>
        ensures { ReadsBy (field (number_of number_limit)) self.old self.new result }
    {
        let number = self.number()?;
        VarInt::from_u64(number).ok()
    }

    /// Parses the next word as a packet number, 0 to `u64::MAX`, or as none, which is written `-`.
    #[tactic(auto, unfolding(crate::specs::Reading::field))]
    pub fn largest(&mut self) -> Option<Option<u64>>
        ensures { ReadsBy (field largest_of) self.old self.new result }
    {
        if self.take_name("-") {
            return Some(None);
        }
        Some(Some(self.number()?))
    }

    /// Parses the next word as a path: `current` or `previous`.
    #[tactic(auto, unfolding(crate::specs::Reading::field))]
    pub fn path(&mut self) -> Option<PathName>
        ensures { ReadsBy (field path_of) self.old self.new result }
    {
        if self.take_name("current") {
            return Some(PathName::Current);
        }
        if self.take_name("previous") {
            return Some(PathName::Previous);
        }
        None
    }

    /// Parses the next word as a flag: 0 or 1.
    #[tactic(auto, unfolding(crate::specs::Reading::field))]
    pub fn flag(&mut self) -> Option<bool>
        ensures { ReadsBy (field flag_of) self.old self.new result }
    {
        if self.take_name("0") {
            return Some(false);
        }
        if self.take_name("1") {
            return Some(true);
        }
        None
    }

    /// Parses the next word as a packet number space: `initial`, `handshake` or `data`.
    #[tactic(auto, unfolding(crate::specs::Reading::field))]
    pub fn space(&mut self) -> Option<SpaceId>
        ensures { ReadsBy (field space_of) self.old self.new result }
    {
        if self.take_name("data") {
            return Some(SpaceId::Data);
        }
        if self.take_name("initial") {
            return Some(SpaceId::Initial);
        }
        if self.take_name("handshake") {
            return Some(SpaceId::Handshake);
        }
        None
    }

    /// Parses the next word as a timer, by its name in small letters with hyphens.
    #[tactic(auto, unfolding(crate::specs::Reading::field))]
    pub fn timer(&mut self) -> Option<Timer>
        ensures { ReadsBy (field timer_named) self.old self.new result }
    {
        Timer::named(self.next()?)
    }

    /// Returns whether no word is left.
    pub fn is_empty(&self) -> bool
        ensures { Decides result (words_left self.now ≡ []) }
    {
        self.rest.is_none()
    }

    /// Returns whether all remaining words are items. It reads none.
    fn are_items(&self) -> bool
        ensures { Decides result (IsSome (items_read (words_left self.now))) }
    {
        let mut words = Words { rest: self.rest };
        while !words.is_empty() {
            let Some(_) = words.number() else {
                return false;
            };
        }
        true
    }

    /// Parses all remaining words as items, 0 to `u64::MAX` each. Nothing is allocated unless all of them are, and
    /// there is one.
    #[inline(never)]
    pub fn items(&mut self, alloc: Global) -> Result<Option<Vec<u64>>, NoMemory>
        ensures found { IfOk result (AreItemsRead self.old self.new) }
        ensures memory { OnErr result
            (IsSomeAnd (items_read (words_left self.old)) (λ items. 0 < length items)) }
    {
        if !self.are_items() {
            return Ok(None);
        }
        let mut items = Vec::new(alloc);
        while !self.is_empty() {
            let Some(item) = self.number() else {
                return Ok(None);
            };
            items.push(item)?;
        }
        Ok(Some(items))
    }
}
