//! The first word of bytes, up to a space: eight bytes at a time.
ghost use Rattle.std.specs.Prelude.{◌≡◌, ◌+◌, ◌<◌, ◌≤◌, ◌^◌, ◌==◌, length, slice_index};
ghost use Rattle.std.specs.List.{position_or_len};
ghost use Rattle.core.specs.Slice.Scan.{Flags, HoldsNowhere};

use crate::digits::word_at;

/// Returns the high bit of each of eight bytes that is a space. No sum carries into the next byte.
#[inline(always)]
fn spaces_at(bytes: &[u8], at: usize) -> u64
    requires { at + 8 ≤ length bytes.now }
    ensures { Flags (λ k. slice_index bytes.now k == 32) at result }
{
    let others = word_at(bytes, at) ^ 0x2020_2020_2020_2020;
    let low = others & 0x7f7f_7f7f_7f7f_7f7f;
    ((low + 0x7f7f_7f7f_7f7f_7f7f | others) & 0x8080_8080_8080_8080) ^ 0x8080_8080_8080_8080
}

/// Returns the length of the first word; the first `from` bytes have no space.
#[inline(always)]
fn word_len_from(bytes: &[u8], from: usize) -> usize
    requires { (from ≤ length bytes.now)
        × HoldsNowhere (λ k. slice_index bytes.now k == 32) 0 from }
    ensures place { result ≡ position_or_len (λ b. b == 32) bytes.now }
    ensures fits { result < 2 ^ 63 }
{
    let mut end = from;
    while end < bytes.len() && bytes[end] != b' ' {
        end += 1;
    }
    end
}

/// Returns the length of the first word.
pub fn word_len(bytes: &[u8]) -> usize
    ensures place { result ≡ position_or_len (λ b. b == 32) bytes.now }
    ensures fits { result < 2 ^ 63 }
{
    let mut end = 0;
    while bytes.len() - end >= 8 {
        let spaces = spaces_at(bytes, end);
        if spaces != 0 {
            return end + (spaces.trailing_zeros() / 8) as usize;
        }
        end += 8;
    }
    word_len_from(bytes, end)
}
