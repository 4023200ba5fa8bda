//! Discarded spaces, and packets that will not be acknowledged (RFC 9002, 6.2.2, 6.3 and 6.4).
ghost use Rattle.std.specs.Prelude.{◌≡◌, ◌≤◌, ◌∷◌, [], true, false, length, Ok, IfOk, IfErr, OnOk, OnErr, MatchOption};
ghost use Rattle.std.specs.Vec.{vec_capacity};
ghost use Rattle.recovery_base.specs.Units.{u64_limit};
ghost use Rattle.recovery_spaces.specs.Discarded.{is_discarded};
ghost use Rattle.recovery_spaces.specs.Packets.{AreBelow};
ghost use Rattle.recovery_losses.specs.Variables.{begun_anew};
ghost use Rattle.recovery_sender.specs.Calls.{discard_reply};
ghost use Rattle.recovery_sender.specs.RetransmitAll.{DeclaresAllLost, HasNoneFrom, IsLeastFrom, TriesAllTracked};
ghost use Rattle.recovery_sender.specs.Senders.{state_in};
ghost use Rattle.recovery_sender.specs.Spaces.{packets_in};
ghost use Rattle.recovery_sender.specs.Steps.{told, TakesSteps, CompletesCall};

use super::{Sender, SenderError};
use rand_core::Rng;
use recovery_base::below::SpaceId;
use recovery_base::time::Instant;
use recovery_congestion::congestion::ControllerFactory;
use recovery_events::event::{Answer, Event, Refusal};
use recovery_queue::queue::RetransmitQueue;

/// The packets of a space that were declared lost together.
#[derive(Drop)]
pub struct Retransmitted {
    /// The numbers of the packets that are lost, increasing.
    pub numbers: Vec<u64>,
    /// Whether allocation failed for a packet, which is then still tracked.
    pub is_cut: bool,
}

impl<F, Q, R> Sender<F, Q, R>
where
    F: ControllerFactory,
    Q: RetransmitQueue,
    R: Rng + Drop,
{
    /// Discards a space with its keys and its tracked packets, and resets the count of probe timeouts (RFC 9002, 6.2.2,
    /// 6.4 and A.11). Fails without a change: with `DataSpace` for the space of 1-RTT packets, which is never discarded
    /// (RFC 9001, 4.9), and with `SpaceDiscarded` if the space is discarded already.
    pub fn discard(&mut self, space: SpaceId, now: Instant) -> Result<(), SenderError>
        ensures reply { result ≡ discard_reply (state_in self.old) space }
        ensures steps { OnOk result
            (CompletesCall (told (Event.DiscardSpace space) (Ok Answer.Done) ∷ [])
            (begun_anew space now self.old.variables) self.old self.new) }
        ensures refused { OnErr result (self.new ≡ self.old) }
    {
        if space == SpaceId::Data {
            return Err(SenderError::DataSpace);
        }
        if self.is_discarded(space) {
            return Err(SenderError::Event(Refusal::SpaceDiscarded));
        }
        self.drop_keys(space);
        self.begin_anew(space, now);
        Ok(())
    }

    /// Returns whether a space is discarded.
    pub(super) fn is_discarded(&self, space: SpaceId) -> bool
        ensures { result ≡ is_discarded space (state_in self.now).discarded }
    {
        self.space(space).is_none()
    }

    /// Discards a space that is not discarded yet.
    fn drop_keys(&mut self, space: SpaceId)
        requires { is_discarded space (state_in self.old).discarded ≡ false }
        ensures { TakesSteps (told (Event.DiscardSpace space) (Ok Answer.Done) ∷ []) self.old
            self.new }
    {
        self.tell(Event::DiscardSpace { space });
    }

    /// Resets the count of probe timeouts, and drops the probes due in a discarded space (RFC 9002, 6.2.2).
    pub(super) fn begin_anew(&mut self, space: SpaceId, now: Instant)
        ensures { CompletesCall [] (begun_anew space now self.old.variables) self.old self.new }
    {
        self.complete(self.variables.begun_anew(space, now));
    }

    /// Declares all packets of a space lost, because they will not be acknowledged: after a Retry (RFC 9002, 6.3), or
    /// if 0-RTT is rejected (RFC 9002, 6.4). Their contents are queued for retransmission. This does not indicate
    /// congestion. Resets the count of probe timeouts.
    ///
    /// If a retransmission queue cannot take the contents of a packet, that packet is still tracked, the others are
    /// lost, and `is_cut` is true: the same call continues with the rest. Cost: logarithmic for each tracked packet.
    ///
    /// # Errors
    /// `SpaceDiscarded`, or `NoMemory` if there is no room for the numbers. Then nothing has changed.
    pub fn retransmit_all(
        &mut self,
        space: SpaceId,
        now: Instant,
    ) -> Result<Retransmitted, SenderError>
        ensures { DeclaresAllLost space self.old now self.new result }
    {
        if self.is_discarded(space) {
            return Err(SenderError::Event(Refusal::SpaceDiscarded));
        }
        let mut numbers = match self.room_for_all(space) {
            Ok(room) => room,
            Err(refused) => return Err(refused),
        };
        let is_cut = self.lose_all(space, &mut numbers);
        self.set_loss_time(space, None);
        self.begin_anew(space, now);
        Ok(Retransmitted { numbers, is_cut })
    }

    /// Returns room for the numbers of all packets that a space tracks.
    fn room_for_all(&self, space: SpaceId) -> Result<Vec<u64>, SenderError>
        ensures none { IfOk result (λ room. room.items ≡ []) }
        ensures room { IfOk result (λ room.
            length (packets_in (state_in self.now) space) ≤ vec_capacity room) }
        ensures small { AreBelow (packets_in (state_in self.now) space) u64_limit }
        ensures memory { IfErr result (λ refused. refused ≡ SenderError.Event Refusal.NoMemory) }
    {
        let count = match self.space(space) {
            Some(here) => here.sent_packets.len(),
            None => 0,
        };
        self.room_for(count)
    }

    /// Declares each packet of a space lost, the smallest number first. Returns whether allocation failed for one.
    fn lose_all(&mut self, space: SpaceId, numbers: &mut Vec<u64>) -> bool
        requires none { numbers.old.items ≡ [] }
        requires room { length (packets_in (state_in self.old) space) ≤ vec_capacity numbers.old }
        requires small { AreBelow (packets_in (state_in self.old) space) u64_limit }
        ensures { TriesAllTracked space self.old numbers.new.items result self.new }
    {
        let mut is_cut = false;
        let mut from = 0;
        while let Some(number) = self.first_tracked(space, from) {
            is_cut |= !self.lose(space, number, numbers);
            let Some(next) = number.checked_add(1) else {
                break;
            };
            from = next;
        }
        is_cut
    }

    /// Returns the smallest number that a space tracks at or above `from`.
    pub(super) fn first_tracked(&self, space: SpaceId, from: u64) -> Option<u64>
        ensures { MatchOption result
            (HasNoneFrom (packets_in (state_in self.now) space) from)
            (IsLeastFrom (packets_in (state_in self.now) space) from) }
    {
        let here = self.space(space)?;
        let (number, _) = here.sent_packets.tracked_from(from)?;
        Some(number)
    }
}
