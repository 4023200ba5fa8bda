//! The events of the MTU search (RFC 8899, 5; RFC 9000, 14.3).

use crate::driver::Recovery;
use rand_core::Rng;
use recovery_base::below::SpaceId;
use recovery_base::time::Instant;
use recovery_congestion::congestion::ControllerFactory;
use recovery_events::event::{Answer, Refusal};
use recovery_queue::queue::RetransmitQueue;
use recovery_spaces::spaces::NUMBER_LIMIT;

impl<F, Q, R> Recovery<F, Q, R>
where
    F: ControllerFactory,
    Q: RetransmitQueue,
    R: Rng + Drop,
{
    ghost use Rattle.recovery_events.specs.declared.event.Event.TheVariants.{PollMtu, PeerLimit, MtuFound, LossesDone};
    ghost use Rattle.quic_recovery.specs.State.{Transition};

    /// Is a probe of the MTU due? The new state of the search is stored once the probe is tracked, so that an error
    /// leaves the search unchanged.
    #[inline(never)]
    pub(super) fn poll_mtu(&mut self, now: Instant) -> Result<Answer<Q>, Refusal>
        ensures { Transition (PollMtu now) self.old result self.new }
    {
        if self.discarded.contains(SpaceId::Data) {
            return Err(Refusal::SpaceDiscarded);
        }
        let number = self.number_in(SpaceId::Data);
        if number >= NUMBER_LIMIT {
            return Err(Refusal::NumbersExhausted);
        }
        let mut discovery = self.paths.current.mtud;
        let Some(size) = discovery.poll_transmit(now, number) else {
            self.paths.current.search_on(discovery);
            return Ok(Answer::NoProbe);
        };
        let queue = Q::empty(self.alloc);
        let frames = Q::Meta::default();
        match self.send(SpaceId::Data, now, size, true, None, queue, frames) {
            Ok(_) => {
                self.paths.current.search_on(discovery);
                Ok(Answer::Probe { number, size })
            }
            Err(refusal) => Err(refusal),
        }
    }

    /// The peer stated the largest datagram that it accepts.
    #[inline(always)]
    pub(super) fn limit_by_peer(&mut self, size: u16) -> Result<Answer<Q>, Refusal>
        ensures { Transition (PeerLimit size) self.old result self.new }
    {
        if size == 0 {
            return Err(Refusal::ZeroMtu);
        }
        if self.paths.current.mtud.is_searching() {
            return Err(Refusal::Searching);
        }
        self.paths.current.limit_by_peer(size);
        self.peer_limit = Some(size);
        Ok(Answer::Done)
    }

    /// An MTU was found elsewhere.
    #[inline(always)]
    pub(super) fn mtu_found(&mut self, mtu: u16) -> Result<Answer<Q>, Refusal>
        ensures { Transition (MtuFound mtu) self.old result self.new }
    {
        if mtu == 0 {
            return Err(Refusal::ZeroMtu);
        }
        if self.paths.current.mtud.is_enabled() {
            return Err(Refusal::Searching);
        }
        self.paths.current.on_mtu_found(mtu);
        Ok(Answer::Done)
    }

    /// All losses of a pass were reported: was there a black hole?
    #[inline(always)]
    pub(super) fn losses_done(&mut self, now: Instant) -> Result<Answer<Q>, Refusal>
        ensures { Transition (LossesDone now) self.old result self.new }
    {
        Ok(Answer::BlackHole(self.paths.current.on_losses_done(now)))
    }
}
