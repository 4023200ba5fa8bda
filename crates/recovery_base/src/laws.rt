//! Laws that no call states: the order of spaces and of timers.
ghost use Rattle.std.specs.Prelude.{◌≡◌};
ghost use Rattle.std.specs.Ordering.{nat_cmp};
ghost use Rattle.recovery_base.specs.Spaces.{space_index};
ghost use Rattle.recovery_base.specs.Timers.{timer_index};
ghost use Rattle.recovery_base.specs.declared.below.SpaceId.{SpaceId};
ghost use Rattle.recovery_base.specs.declared.below.SpaceId.TheVariants.{Initial, Handshake, Data};
ghost use Rattle.recovery_base.specs.declared.timer.Timer.{Timer};

use crate::below::SpaceId;
use crate::timer::Timer;

/// Proves that spaces are ordered as a handshake uses them: Initial, Handshake, Data.
pub fn spaces_in_order()
    ensures places { (space_index Initial ≡ 0) × (space_index Handshake ≡ 1)
        × (space_index Data ≡ 2) }
    ensures order { (space other : SpaceId) →
        ⟦<SpaceId as Ord>⟧.cmp space other ≡ nat_cmp (space_index space) (space_index other) }
{}

/// Proves that timers are ordered as in `Timer::VALUES`.
pub fn timers_in_order()
    ensures { (timer other : Timer) →
        ⟦<Timer as Ord>⟧.cmp timer other ≡ nat_cmp (timer_index timer) (timer_index other) }
{}
