//! Laws of skipped packet numbers that no call states.
ghost use Rattle.std.specs.Prelude.{◌≡◌, ◌↔◌, ◌+◌, ◌<◌, ◌≤◌, ◌^◌, ℕ, suc, Some, true, false};
ghost use Rattle.rand_core.specs.Stream.{Stream};
ghost use Rattle.recovery_packet_numbers.specs.Skips.{IsSkips, AreWords, skip_at, skips_below, is_skipped, number_from, skip_before, IsGreatestBelow, first_exponent};
ghost use Rattle.recovery_packet_numbers.specs.Filters.{skipping_at, passed};
ghost use Rattle.recovery_packet_numbers.specs.declared.filter.Skips.{Skips};

/// Proves that after a number was assigned, the filter and its random words are those of the next number.
#[tactic(auto, using(crate::proofs::SkipLaws::passed_step))]
pub fn filters_follow_numbers()
    ensures { (skips : Skips) (words : Stream) (n : ℕ) →
        passed n (skipping_at skips words n)
        ≡ skipping_at skips words (number_from skips words n + 1) }
{}

/// Proves that no number that is assigned is a skip, and each is above those before it.
#[tactic(auto, using(crate::proofs::SkipLaws::number_not_skipped, crate::proofs::SkipLaws::number_from_above))]
pub fn numbers_are_not_skipped()
    ensures not_skipped { (skips : Skips) (words : Stream) (n : ℕ) →
        is_skipped skips words (number_from skips words n) ≡ false }
    ensures ascend { (skips : Skips) (words : Stream) (n : ℕ) →
        n ≤ number_from skips words n }
{}

/// Proves that consecutive skips are two or more apart.
#[tactic(auto, using(crate::proofs::SkipLaws::skips_ascend))]
pub fn skips_ascend()
    ensures { (skips : Skips) (words : Stream) (k s t : ℕ) →
        (skip_at skips words k).0 ≡ Some s →
        (skip_at skips words (suc k)).0 ≡ Some t → s + 2 ≤ t }
{}

/// Proves that the first skip is below 64, and the one after k others is from `2^(5 + k)` up to below `2^(6 + k)`. A
/// filter has at most 58 skips.
#[tactic(auto, using(crate::proofs::DrawLaws::skip_below_power, crate::proofs::SkipLaws::skip_from_power))]
pub fn skips_lie_between_powers()
    ensures below { (skips : Skips) (words : Stream) → IsSkips skips → AreWords words →
        (k s : ℕ) → k ≤ 57 →
        (skip_at skips words k).0 ≡ Some s → s < 2 ^ (first_exponent + k) }
    ensures above { (skips : Skips) (words : Stream) (k s : ℕ) →
        (skip_at skips words (suc k)).0 ≡ Some s → 2 ^ (first_exponent + k) ≤ s }
{}

/// Proves that a number is skipped exactly if it is in the sequence of skips, and that those below a number are
/// counted.
#[tactic(auto, using(crate::proofs::SkipCountLaws::skipped_in_sequence, crate::proofs::SkipCountLaws::below_counts))]
pub fn sequence_is_skipped()
    ensures skipped { (skips : Skips) (words : Stream) (n : ℕ) →
        (is_skipped skips words n ≡ true)
        ↔ ((k : ℕ) × ((skip_at skips words k).0 ≡ Some n)) }
    ensures counted { (skips : Skips) (words : Stream) (n k s : ℕ) →
        (skip_at skips words k).0 ≡ Some s →
        (s < n) ↔ (k < skips_below skips words n) }
{}

/// Proves that a filter remembers the largest skip below the next number.
#[tactic(auto, using(crate::proofs::SkipCountLaws::skip_before_greatest))]
pub fn greatest_skip_is_remembered()
    ensures { (skips : Skips) (words : Stream) (n : ℕ) →
        IsGreatestBelow skips words n (skip_before skips words n) }
{}
