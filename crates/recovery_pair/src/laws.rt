//! Laws of controllers that the promises of two endpoints have as a premise, and what follows from several promises.
ghost use Rattle.recovery_congestion.specs.NewReno.{reno_words};
ghost use Rattle.recovery_pair.specs.Falls.{FallsByRecovery};
ghost use Rattle.recovery_pair.specs.Unprobed.{ProbesUnprobed};

/// Proves that NewReno's window falls only if congestion begins a recovery period, for a packet that was sent after the
/// last one began (RFC 9002, 7.3.2).
pub fn new_reno_recovers()
    ensures { FallsByRecovery reno_words }
{}

/// Proves that `Send` right after a probe timeout of its space sends items, and only such as were passed, unless the
/// amplification limit blocks it (RFC 9000, 8.1) or it fails. Premise: the space has keys, each packet there was
/// tracked, one in flight has items, and no probe there had any (RFC 9002, 6.2.4).
pub fn unprobed_items_are_sent()
    ensures { ProbesUnprobed }
{}
