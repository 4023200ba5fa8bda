//! Laws of CUBIC that no call states: after any calls of one that is made with any window, time and MTU. Lists are
//! newest first.
ghost use Rattle.std.specs.Prelude.{◌≡◌, ℕ, List, ◌∷◌, ◌++◌};
ghost use Rattle.recovery_congestion.specs.Calls.{ControllerCall};
ghost use Rattle.recovery_congestion.specs.Rounds.{AreInOrder, ReducesOncePerRound};
ghost use Rattle.recovery_cubic.specs.Cubic.{cubic_made, cubic_words};
ghost use Rattle.recovery_cubic.specs.Epochs.{BeginsEpoch, IsBelowCurve, IsReal, MovesTowardCurve, IsReachedAtK};
ghost use Rattle.recovery_cubic.specs.Growth.{ContinuesEpochThrough, GrowsByHalf};
ghost use Rattle.recovery_cubic.specs.History.{grows, turn_at};
ghost use Rattle.recovery_cubic.specs.Reno.{NeverBelowReno};

/// Proves that only congestion reduces the window, and only for a packet that was sent after each earlier reduction:
/// once a round trip. Premise: congestion is reported in order of time (RFC 9002, 7.3.2; RFC 9438, 4.6).
pub fn cubic_falls_once()
    ensures { (window made mtu : ℕ) (call : ControllerCall) (calls : List ControllerCall)
        → AreInOrder calls
        → ReducesOncePerRound cubic_words (cubic_made window made mtu) call calls }
{}

/// Proves that while congestion avoidance continues, the window grows by at most half of the bytes acknowledged, so by
/// at most half a window in a round trip (RFC 9438, 4.2). If an MTU that was set since has a larger minimum window, the
/// growth counts from that.
#[tactic(auto, using(crate::proofs::GrowthLaws::grows_by_half))]
pub fn cubic_grows_by_half()
    ensures { (window made mtu : ℕ) (later earlier : List ControllerCall)
        → ContinuesEpochThrough window made mtu later earlier
        → GrowsByHalf window made mtu later earlier }
{}

/// Proves that the window is never below what Reno's would be (RFC 9438, 4.3).
#[tactic(auto, using(crate::proofs::GrowthLaws::never_below_reno))]
pub fn cubic_is_never_below_reno()
    ensures { (window made mtu : ℕ) (calls : List ControllerCall)
        → NeverBelowReno window made mtu calls }
{}

/// Proves an upper bound after a reduction, while congestion avoidance continues: the maximum of the curve, of Reno's
/// window, of what the reduction left, and of the minimum windows of MTUs set since. While the curve moves by less than
/// a datagram in a microsecond, it is within one datagram of the real curve. At 1200 bytes that is 15 minutes to both
/// sides of K (RFC 9438, 4.2).
#[tactic(auto, using(crate::proofs::FollowingLaws::below_curve, crate::proofs::FollowingLaws::real_curve))]
pub fn cubic_stays_below_the_curve()
    ensures below { (window made mtu : ℕ) (later : List ControllerCall) (reduction : ControllerCall)
        (earlier : List ControllerCall) (k : ℕ)
        → BeginsEpoch window made mtu reduction earlier k
        → ContinuesEpochThrough window made mtu later (reduction ∷ earlier)
        → IsBelowCurve window made mtu later reduction earlier k }
    ensures real { (window made mtu : ℕ) (later : List ControllerCall) (reduction : ControllerCall)
        (earlier : List ControllerCall) (k : ℕ)
        → BeginsEpoch window made mtu reduction earlier k
        → IsReal window made mtu later reduction earlier k }
{}

/// Proves that an acknowledgement that counts raises the window to the curve's value at that time or higher, or by half
/// of its bytes if that is less. It becomes exactly the curve's value if half of the bytes reach that far, and no lower
/// limit is above it. These limits are Reno's window, what the reduction left, and the minimum window of an MTU set
/// since.
pub fn cubic_goes_to_the_curve()
    ensures { (window made mtu : ℕ) (call : ControllerCall) (later : List ControllerCall)
        (reduction : ControllerCall) (earlier : List ControllerCall) (k at bytes : ℕ)
        → BeginsEpoch window made mtu reduction earlier k
        → ContinuesEpochThrough window made mtu later (reduction ∷ earlier)
        → turn_at window made mtu call (later ++ reduction ∷ earlier) ≡ grows at bytes
        → MovesTowardCurve window made mtu call later reduction earlier k bytes }
{}

/// Proves that the window before a reduction is reached again at K, the largest whole microsecond with `C · K^3` at
/// most the distance. The curve does not reach it earlier. From then on it is reached as soon as half of the
/// acknowledged bytes make up for the gap, which is at most 3/10.
pub fn cubic_is_back_at_k()
    ensures { (window made mtu : ℕ) (later until : List ControllerCall)
        (reduction : ControllerCall) (earlier : List ControllerCall) (k : ℕ)
        → BeginsEpoch window made mtu reduction earlier k
        → ContinuesEpochThrough window made mtu until (reduction ∷ earlier)
        → ContinuesEpochThrough window made mtu later (until ++ reduction ∷ earlier)
        → IsReachedAtK window made mtu later until reduction earlier k }
{}
