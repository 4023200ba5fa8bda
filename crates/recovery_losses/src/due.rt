//! The purposes of the loss detection timer (RFC 9002, 6.2 and A.8).
ghost use Rattle.std.specs.Prelude.{◌≡◌, option_map};
ghost use Rattle.recovery_losses.specs.Due.{sooner};

use recovery_base::below::SpaceId;
use recovery_base::time::Instant;

/// The purpose of the loss detection timer.
#[derive(Clone, Copy)]
pub enum Due {
    /// Packets of a space may be lost.
    Losses(SpaceId),
    /// A probe timeout of a space expires.
    Probes(SpaceId),
    /// A client that does not know its address validated is to send (RFC 9002, 6.2.2.1).
    AntiDeadlock(SpaceId),
}

/// Returns the time at which something is due, if any.
#[inline(always)]
fn time_of(due: &Option<(Instant, Due)>) -> Option<Instant>
    ensures { result ≡ option_map (λ due. due.0) due.now }
{
    match due {
        Some((time, _)) => Some(*time),
        None => None,
    }
}

/// Returns the earlier of two times with what is due at it; the first, if both are equal.
#[inline(always)]
pub fn sooner(
    first: Option<(Instant, Due)>,
    second: Option<(Instant, Due)>,
) -> Option<(Instant, Due)>
    ensures { result ≡ sooner first second }
{
    let is_first = match (time_of(&first), time_of(&second)) {
        (Some(one), Some(other)) => one <= other,
        (Some(_), None) => true,
        _ => false,
    };
    if is_first { first } else { second }
}
