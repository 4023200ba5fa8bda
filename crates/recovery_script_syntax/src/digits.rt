//! Leading digits, eight at a time.
ghost use Rattle.std.specs.Prelude.{◌≡◌, ℕ, ◌*◌, ◌%◌, ◌-◌, ◌+◌, ◌<◌, ◌≤◌, ◌^◌, List, length, take, nat_le, slice_index};
ghost use Rattle.std.specs.Str.Parse.{digits_value};
ghost use lib.Lanes.{number_l};
ghost use Rattle.recovery_base.specs.Units.{u64_limit};
ghost use Rattle.core.specs.Slice.Scan.{digits_from, flag_word, little_endian};
ghost use Rattle.core.specs.Dec2flt.Digits.{IsEightBytes, IsEightDigits};
ghost use Rattle.core.specs.Float.Numeral.{digits_len};
ghost use Rattle.core.specs.Int.Digits.{number_from_digits};
ghost use Rattle.recovery_script_syntax.specs.Reading.{AreDigits, four_at};

use core::dec2flt::ten_to;

/// Returns eight bytes as a word, the first of them the lowest.
#[inline(always)]
pub fn word_at(bytes: &[u8], at: usize) -> u64
    requires { at + 8 ≤ length bytes.now }
    ensures word { result ≡ little_endian bytes.now at }
    ensures bytes { (k : ℕ) → slice_index bytes.now k < 256 }
{
    u64::from_le_bytes([
        bytes[at],
        bytes[at + 1],
        bytes[at + 2],
        bytes[at + 3],
        bytes[at + 4],
        bytes[at + 5],
        bytes[at + 6],
        bytes[at + 7],
    ])
}

/// Returns four bytes as a word, the first of them the lowest.
#[inline(always)]
pub fn half_at(bytes: &[u8], at: usize) -> u32
    requires { at + 4 ≤ length bytes.now }
    ensures word { result ≡ four_at bytes.now at }
    ensures bytes { (k : ℕ) → slice_index bytes.now k < 256 }
{
    u32::from_le_bytes([bytes[at], bytes[at + 1], bytes[at + 2], bytes[at + 3]])
}

/// Returns the number that eight digits write, the first of them in the lowest byte.
#[inline(always)]
fn value_of_eight(word: u64) -> u64
    ensures { (ds : List ℕ) → IsEightDigits ds → word ≡ number_l 256 ds
        → result ≡ number_from_digits 10 ds }
{
    let pairs = word.wrapping_mul(10).wrapping_add(word >> 8);
    let first = (pairs & 0x0000_00ff_0000_00ff).wrapping_mul(100 + (1_000_000 << 32));
    let second = ((pairs >> 16) & 0x0000_00ff_0000_00ff).wrapping_mul(1 + (10_000 << 32));
    first.wrapping_add(second) >> 32
}

/// Returns the high bit of each byte that is 10 or more. No sum carries into the next byte.
#[inline(always)]
fn flags_from_ten(word: u64) -> u64
    ensures { (byte : ℕ → ℕ) → ((k : ℕ) → byte k < 256) → word ≡ digits_from byte 0 8
        → result ≡ flag_word (λ k. nat_le 10 (byte k)) }
{
    ((word & 0x7f7f_7f7f_7f7f_7f7f) + 0x7676_7676_7676_7676 | word) & 0x8080_8080_8080_8080
}

/// Returns the word with its first bytes moved up to the end.
#[inline(always)]
fn keep_first(word: u64, count: u32) -> u64
    requires { count < 8 }
    ensures { result ≡ word * 256 ^ (8 - count) % u64_limit }
{
    // Two shifts, since a shift by 64 is not defined.
    word << (56 - 8 * count) << 8
}

/// Returns how many of a word's bytes are digits from the lowest on, and the number that they write.
#[inline(always)]
fn up_to_eight(word: u64) -> (usize, u64)
    ensures most { result.0 ≤ 8 }
    ensures read { (xs : List ℕ) → IsEightBytes xs → word ≡ number_l 256 xs
        → (result.0 ≡ digits_len xs) × (result.1 ≡ digits_value 10 (take result.0 xs)) }
{
    let lanes = word ^ 0x3030_3030_3030_3030;
    let others = flags_from_ten(lanes);
    if others == 0 {
        return (8, value_of_eight(lanes));
    }
    let count = others.trailing_zeros() / 8;
    (count as usize, value_of_eight(keep_first(lanes, count)))
}

/// Returns the number that leading digits write, and their count. More than 19 of them can overflow.
#[inline(always)]
pub fn leading_digits(bytes: &[u8]) -> (u64, usize)
    ensures value { result.1 ≤ 19 → result.0 ≡ digits_value 10 (take result.1 bytes.now) }
    ensures digits { AreDigits bytes.now result.1 }
    ensures within { result.1 ≤ length bytes.now }
    ensures fits { result.0 < u64_limit }
{
    let mut value = 0u64;
    let mut count = 0;
    if bytes.len() >= 8 {
        let (front, first) = up_to_eight(word_at(bytes, 0));
        if front < 8 {
            return (first, front);
        }
        value = first;
        count = 8;
        if bytes.len() >= 16 {
            let (more, next) = up_to_eight(word_at(bytes, 8));
            value = first.wrapping_mul(ten_to(more as u64)).wrapping_add(next);
            count = 8 + more;
            if more < 8 {
                return (value, count);
            }
        }
    }
    while count < bytes.len() {
        let digit = u64::from(bytes[count]).wrapping_sub(48);
        if digit > 9 {
            break;
        }
        value = value.wrapping_mul(10).wrapping_add(digit);
        count += 1;
    }
    (value, count)
}
