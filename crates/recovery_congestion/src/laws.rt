//! Laws of congestion control that no call states.
ghost use Rattle.std.specs.Prelude.{◌≤◌, ℕ, List};
ghost use Rattle.recovery_congestion.specs.Calls.{ControllerCall};
ghost use Rattle.recovery_congestion.specs.NewReno.{reno_words};
ghost use Rattle.recovery_congestion.specs.Rounds.{AreInOrder, ReducesOncePerRound};
ghost use Rattle.recovery_congestion.specs.declared.congestion.new_reno.NewReno.{NewReno};

/// Proves that if congestion is reported in order of time, only congestion reduces the window, and only for a packet
/// that was sent after each earlier reduction: once a round trip (RFC 9002, 7.3.2).
pub fn new_reno_falls_once()
    ensures { (built : NewReno) (call : ControllerCall) (calls : List ControllerCall)
        → AreInOrder calls → ReducesOncePerRound reno_words built call calls }
{}
