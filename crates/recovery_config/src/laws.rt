//! Laws that no call states: equality, order and hash of idle timeouts.
ghost use Rattle.std.specs.Prelude.{◌≡◌, ◌==◌};
ghost use Rattle.std.specs.Hash as fed;
ghost use Rattle.std.specs.Ordering.{nat_cmp};
ghost use Rattle.recovery_config.specs.declared.config.idle.IdleTimeout.{IdleTimeout};

use crate::config::IdleTimeout;
use std::hash::Hash;

/// Proves that idle timeouts are equal, ordered and hashed as their milliseconds: so the three agree.
pub fn idle_timeouts_agree()
    ensures equality { (timeout other : IdleTimeout) →
        ⟦<IdleTimeout as PartialEq>⟧.eq timeout other ≡ (timeout == other) }
    ensures order { (timeout other : IdleTimeout) →
        ⟦<IdleTimeout as Ord>⟧.cmp timeout other ≡ nat_cmp timeout other }
    ensures hash { (timeout : IdleTimeout) →
        ⟦<IdleTimeout as Hash>⟧.hash_input timeout ≡ fed.u64 timeout }
{}
