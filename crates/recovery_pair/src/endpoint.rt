//! An endpoint of a connection: a sender with its caller.
ghost use Rattle.std.specs.Prelude.{◌≡◌, ◌⊎◌, ◌+◌, ◌<◌, ◌≤◌, ℕ, List, IfOk, MatchResult, None, Ok, false, length, [], ◌∷◌, ◌++◌};
ghost use Rattle.std.specs.Vec.{vec_len, vec_capacity};
ghost use Rattle.recovery_pair.specs.AddressKnown.{known_by_fate, known_by_step};
ghost use Rattle.recovery_pair.specs.Carried.{CarriesNone, Exchanges, IsNoProbe, MovesBack, MovesItems, MovesSent, TakesItems, hands_by, lost_by_fate, lost_by_local, none_lost};
ghost use Rattle.recovery_pair.specs.Expires.{AsksAt, ExpiresInTime};
ghost use Rattle.recovery_pair.specs.Filled.{FillsOutcome, IsFilled, IsNextAt, next_in};
ghost use Rattle.recovery_pair.specs.LeastWindows.{IsLeastIf, KeepsLeastWindow, persists_by_fate, persists_by_timer};
ghost use Rattle.recovery_pair.specs.Pasts.{Continues, GoesOn, GoesOnQuietly};
ghost use Rattle.recovery_pair.specs.Turns.{FindsByTimer, HearTurn, PackTurn, SendTurn, local_turn};
ghost use Rattle.recovery_pair.specs.Permits.{IsIdle, PermitsOutcome, WaitsIfFull};
ghost use Rattle.recovery_pair.specs.Timed.{KeepsTimer, KeepsTimerAs};
ghost use Rattle.recovery_pair.specs.Promises.Locals.{IsDone, IsDoneOrNothing, IsLocalAnswer};
ghost use Rattle.recovery_pair.specs.Waits.{GainsOne, HandWaits, IsPlaceInQueue, LocalWaits, LosesNone, LosesOne, PackWaits, SendWaits, waiting_in};

use crate::calls::{
    AckToSend, NO_MEMORY, Permission, confirm, contents, copied, datagram, discard, end_acks,
    end_delay, expire, frame, get_keys, hear, hear_ack, is_probe, permit, track, validate,
    window_checked,
};
use crate::steps::{End, Fate, LocalStep, PairAnswer, WirePacket};
use rand_core::Rng;
use recovery_base::below::SpaceId;
use recovery_base::time::Instant;
use recovery_congestion::congestion::ControllerFactory;
use recovery_losses::largest_of;
use recovery_queue::items::ItemQueue;
use recovery_sender::{Sender, SenderError, Transmission};
use std::alloc::Global;

/// Items that wait to be sent in one packet.
#[derive(Drop)]
pub struct Waiting {
    space: SpaceId,
    queue: ItemQueue,
}

/// The items of one packet, with two copies.
#[derive(Drop)]
struct TakenItems {
    queue: ItemQueue,
    items: Vec<u64>,
    told: Vec<u64>,
}

/// An endpoint of a connection: a sender with its caller.
#[derive(Drop)]
pub struct Endpoint<F: ControllerFactory, R: Rng> {
    /// Its sender.
    pub sender: Sender<F, ItemQueue, R>,
    /// What the caller wants delivered and has not been sent yet.
    pub waiting: Vec<Waiting>,
    /// When its ACK delay timer is due.
    pub late: Option<Instant>,
}

/// What an end sends.
#[derive(Drop)]
pub enum Outgoing {
    /// There is nothing to send.
    Nothing,
    /// The datagram may not be sent now.
    Held(Transmission),
    /// Its packet cannot be tracked.
    Failed(SenderError),
    /// The packet is sent, with a copy of its items, and with the window for which it was checked, if any.
    Sent(WirePacket, Vec<u64>, Option<u64>),
}

/// Returns the place of the items that wait longest to be sent in a space, if any.
fn place_of(waiting: &[Waiting], space: SpaceId) -> Option<usize>
    ensures place { IsPlaceInQueue space waiting.now result }
    ensures next { IsNextAt space waiting.now result }
{
    let mut at = 0;
    while at < waiting.len() {
        if waiting[at].space == space {
            return Some(at);
        }
        at += 1;
    }
    None
}

/// Returns the items that are to be repeated, or if there are none, those that wait longest in the space, if any.
#[tactic(auto, using(crate::proofs::WaitLaws::lost_one))]
fn take_waiting(waiting: &mut Vec<Waiting>, space: SpaceId, repeated: ItemQueue) -> ItemQueue
    ensures loses { LosesOne waiting.old.items waiting.new.items space result }
    ensures len { vec_len waiting.new ≤ vec_len waiting.old }
    ensures capacity { vec_capacity waiting.new ≡ vec_capacity waiting.old }
    ensures items { Exchanges waiting.old.items waiting.new.items space repeated result }
    ensures first { (repeated ≡ []) ⊎ (result ≡ repeated) }
    ensures next { result ≡ [] → next_in space waiting.old.items ≡ [] }
{
    if !repeated.items().is_empty() {
        return repeated;
    }
    match place_of(waiting, space) {
        Some(at) => waiting.remove(at).queue,
        None => repeated,
    }
}

impl<F, R> Endpoint<F, R>
where
    F: ControllerFactory,
    R: Rng + Drop,
{
    /// Returns an endpoint to which no items were passed.
    pub fn new(alloc: Global, sender: Sender<F, ItemQueue, R>) -> Self
        ensures sender { result.sender ≡ sender }
        ensures waits { result.waiting.items ≡ [] }
    {
        Endpoint {
            sender,
            waiting: Vec::new(alloc),
            late: None,
        }
    }

    /// Returns whether an ack-eliciting packet is to be sent in a space: a probe is due, or items wait.
    fn has_items(&self, space: SpaceId) -> bool
        ensures idle { result ≡ false → IsIdle self.now.sender space }
        ensures waits { result ≡ false
            → (measure : List ℕ → ℕ) → waiting_in measure space self.now.waiting.items ≡ 0 }
    {
        if self.sender.variables().is_probe_due(space) || place_of(&self.waiting, space).is_some() {
            return true;
        }
        match self.sender.recovery().space(space) {
            Some(here) => !here.pending.items().is_empty(),
            None => false,
        }
    }

    /// Sends one datagram, if there is something to send and it may be sent. An `Err` changes nothing.
    #[tactic(auto, using(crate::proofs::QuietLaws::same_quietly, crate::proofs::ItemMoves::same_moves))]
    pub(crate) fn send(
        &mut self,
        alloc: Global,
        from: End,
        space: SpaceId,
        now: Instant,
        size: u16,
    ) -> Result<Outgoing, SenderError>
        ensures goes { SendTurn self.old.sender self.new.sender from space now size result }
        ensures waits { SendWaits self.old.waiting.items self.new.waiting.items space result }
        ensures permits { PermitsOutcome space now size result self.old.sender }
        ensures timer { KeepsTimer self.old.sender self.new.sender }
        ensures items { MovesSent space result (self.old.sender, self.old.waiting.items)
            (self.new.sender, self.new.waiting.items) }
        ensures filled { FillsOutcome space result (self.old.sender, self.old.waiting.items) }
        ensures held { WaitsIfFull space result self.new.sender }
    {
        let eliciting = self.has_items(space);
        let ack = match frame(alloc, &self.sender, space, now) {
            Ok(ack) => ack,
            Err(refused) => return Err(refused),
        };
        if !eliciting && !ack.required {
            return Ok(Outgoing::Nothing);
        }
        match self.waiting.reserve(1) {
            Ok(()) => {}
            Err(_) => return Err(NO_MEMORY),
        }
        let window = window_checked(&self.sender, space, eliciting);
        match permit(&mut self.sender, space, now, size, eliciting) {
            Ok(Permission::Whole) => {
                Ok(self.pack(alloc, from, space, now, size, eliciting, window, ack))
            }
            Ok(Permission::AckAlone) => Ok(self.pack_ack(alloc, from, space, now, size, None, ack)),
            Ok(Permission::Held(held)) => Ok(Outgoing::Held(held)),
            Err(refused) => Err(refused),
        }
    }

    /// Packs and records the packet of a datagram that is permitted.
    #[tactic(auto, using(crate::proofs::WaitLaws::kept_again, crate::proofs::WaitLaws::lost_then))]
    fn pack(
        &mut self,
        alloc: Global,
        from: End,
        space: SpaceId,
        now: Instant,
        size: u16,
        eliciting: bool,
        window: Option<u64>,
        ack: AckToSend,
    ) -> Outgoing
        requires room { vec_len self.old.waiting < vec_capacity self.old.waiting }
        ensures goes { PackTurn self.old.sender self.new.sender from space now size eliciting
            window ack.ranges.items ack.delay result }
        ensures waits { PackWaits self.old.waiting.items self.new.waiting.items space result }
        ensures timer { KeepsTimer self.old.sender self.new.sender }
        ensures items { MovesSent space (Ok result) (self.old.sender, self.old.waiting.items)
            (self.new.sender, self.new.waiting.items) }
        ensures filled { FillsOutcome space (Ok result)
            (self.old.sender, self.old.waiting.items) }
    {
        if !eliciting {
            return self.pack_ack(alloc, from, space, now, size, window, ack);
        }
        let probe = is_probe(eliciting, &window);
        let TakenItems { queue, items, told } = match self.take_items(alloc, space, probe) {
            Ok(taken) => taken,
            Err(refused) => return Outgoing::Failed(refused),
        };
        let largest = largest_of(&ack.ranges);
        match track(
            &mut self.sender,
            space,
            now,
            size,
            eliciting,
            largest,
            queue,
        ) {
            Ok(number) => {
                self.end_acks(space);
                let packet = WirePacket {
                    from,
                    space,
                    number,
                    size,
                    eliciting,
                    items,
                    ranges: ack.ranges,
                    delay: ack.delay,
                };
                Outgoing::Sent(packet, told, window)
            }
            Err(refused) => {
                self.keep(space, ItemQueue::from_items(items));
                Outgoing::Failed(refused)
            }
        }
    }

    /// Packs and records a packet that holds an ACK alone. It does not count in flight.
    fn pack_ack(
        &mut self,
        alloc: Global,
        from: End,
        space: SpaceId,
        now: Instant,
        size: u16,
        window: Option<u64>,
        ack: AckToSend,
    ) -> Outgoing
        ensures goes { PackTurn self.old.sender self.new.sender from space now size false window
            ack.ranges.items ack.delay result }
        ensures waits { PackWaits self.old.waiting.items self.new.waiting.items space result }
        ensures timer { KeepsTimer self.old.sender self.new.sender }
        ensures items { MovesSent space (Ok result) (self.old.sender, self.old.waiting.items)
            (self.new.sender, self.new.waiting.items) }
        ensures filled { FillsOutcome space (Ok result)
            (self.old.sender, self.old.waiting.items) }
    {
        let AckToSend { ranges, delay, .. } = ack;
        let largest = largest_of(&ranges);
        let none = ItemQueue::from_items(Vec::new(alloc));
        match track(&mut self.sender, space, now, size, false, largest, none) {
            Ok(number) => {
                self.end_acks(space);
                let packet = WirePacket {
                    from,
                    space,
                    number,
                    size,
                    eliciting: false,
                    items: Vec::new(alloc),
                    ranges,
                    delay,
                };
                Outgoing::Sent(packet, Vec::new(alloc), window)
            }
            Err(refused) => Outgoing::Failed(refused),
        }
    }

    /// Takes the items of the next packet of a space, with two copies. If that fails, they wait to be sent.
    #[tactic(auto, using(crate::proofs::WaitLaws::kept_again))]
    fn take_items(
        &mut self,
        alloc: Global,
        space: SpaceId,
        probe: bool,
    ) -> Result<TakenItems, SenderError>
        requires room { vec_len self.old.waiting < vec_capacity self.old.waiting }
        ensures room { IfOk result
            (λ taken. vec_len self.new.waiting < vec_capacity self.new.waiting) }
        ensures copies { IfOk result
            (λ taken. (taken.items.items ≡ taken.queue) × (taken.told.items ≡ taken.queue)) }
        ensures goes { Continues GoesOnQuietly self.old.sender self.new.sender }
        ensures waits { MatchResult result
            (λ taken. LosesOne self.old.waiting.items self.new.waiting.items space taken.queue)
            (λ refused. LosesNone self.old.waiting.items self.new.waiting.items) }
        ensures timer { KeepsTimer self.old.sender self.new.sender }
        ensures items { MatchResult result
            (λ taken. TakesItems probe space taken.queue (self.old.sender, self.old.waiting.items)
            (self.new.sender, self.new.waiting.items))
            (λ refused. MovesBack space (self.old.sender, self.old.waiting.items)
            (self.new.sender, self.new.waiting.items)) }
        ensures filled { IfOk result (λ taken.
            IsFilled probe space taken.queue (self.old.sender, self.old.waiting.items)) }
    {
        let repeated = match contents(&mut self.sender, space, probe) {
            Ok(queue) => queue,
            Err(refused) => return Err(refused),
        };
        let queue = take_waiting(&mut self.waiting, space, repeated);
        let items = match copied(alloc, queue.items()) {
            Ok(items) => items,
            Err(refused) => {
                self.keep(space, queue);
                return Err(refused);
            }
        };
        let told = match copied(alloc, queue.items()) {
            Ok(told) => told,
            Err(refused) => {
                self.keep(space, queue);
                return Err(refused);
            }
        };
        Ok(TakenItems { queue, items, told })
    }

    /// Items wait to be sent. There is room for them.
    fn keep(&mut self, space: SpaceId, queue: ItemQueue)
        requires room { vec_len self.old.waiting < vec_capacity self.old.waiting }
        ensures goes { self.new.sender ≡ self.old.sender }
        ensures waits { GainsOne self.old.waiting.items self.new.waiting.items space queue }
        ensures items { Exchanges self.old.waiting.items self.new.waiting.items space queue [] }
    {
        self.waiting.push_reserved(Waiting { space, queue });
    }

    /// Records that all pending numbers were sent in an ACK, if there are any.
    fn end_acks(&mut self, space: SpaceId)
        ensures goes { Continues GoesOnQuietly self.old.sender self.new.sender }
        ensures timer { KeepsTimer self.old.sender self.new.sender }
        ensures items { CarriesNone self.old.sender self.new.sender }
        ensures waits { self.new.waiting.items ≡ self.old.waiting.items }
    {
        end_acks(&mut self.sender, space);
        if space == SpaceId::Data {
            self.late = None;
        }
    }

    /// Takes a packet that arrives. An `Err` changes nothing.
    #[tactic(auto, using(crate::proofs::QuietLaws::same_quietly, crate::proofs::ItemMoves::same_moves))]
    pub(crate) fn hear(
        &mut self,
        alloc: Global,
        packet: &WirePacket,
        now: Instant,
    ) -> Result<Fate, SenderError>
        ensures goes { HearTurn self.old.sender self.new.sender packet.now now result }
        ensures waits { LosesNone self.old.waiting.items self.new.waiting.items }
        ensures timer { KeepsTimerAs (known_by_fate packet.now.space result) self.old.sender
            self.new.sender }
        ensures items { MovesItems None None (lost_by_fate packet.now.space result) IsNoProbe
            (self.old.sender, self.old.waiting.items)
            (self.new.sender, self.new.waiting.items) }
        ensures least { IsLeastIf (persists_by_fate result) self.new.sender }
    {
        let items = match copied(alloc, &packet.items) {
            Ok(items) => items,
            Err(refused) => return Err(refused),
        };
        match datagram(&mut self.sender, packet.size) {
            Ok(()) => {}
            Err(refused) => return Err(refused),
        }
        match hear(
            &mut self.sender,
            packet.space,
            now,
            packet.number,
            packet.eliciting,
        ) {
            Ok(Some(arm)) => {
                let acked = hear_ack(&mut self.sender, packet, now);
                self.plan_ack(packet.space, now, arm);
                Ok(Fate::New { items, acked })
            }
            Ok(None) => Ok(Fate::Duplicate),
            Err(refused) => Ok(Fate::Dropped(refused)),
        }
    }

    /// Starts the ACK delay timer. Initial and Handshake packets are acknowledged at once (RFC 9000, 13.2.1).
    fn plan_ack(&mut self, space: SpaceId, now: Instant, arm: bool)
        ensures goes { Continues GoesOnQuietly self.old.sender self.new.sender }
        ensures timer { KeepsTimer self.old.sender self.new.sender }
        ensures items { CarriesNone self.old.sender self.new.sender }
        ensures waits { self.new.waiting.items ≡ self.old.waiting.items }
        ensures least { KeepsLeastWindow self.old.sender self.new.sender }
    {
        if arm && space == SpaceId::Data {
            let delay = self.sender.recovery().ack_frequency().max_ack_delay;
            self.late = Some(now + delay);
        } else if arm {
            end_delay(&mut self.sender, space);
        }
    }

    /// Takes items that are to be delivered in one packet.
    fn hand(&mut self, space: SpaceId, items: Vec<u64>) -> Result<PairAnswer, SenderError>
        ensures goes { self.new.sender ≡ self.old.sender }
        ensures answer { IfOk result IsDone }
        ensures items { MovesItems (hands_by (LocalStep.Hand space items) result) None none_lost
            IsNoProbe (self.old.sender, self.old.waiting.items)
            (self.new.sender, self.new.waiting.items) }
        ensures waits { HandWaits self.old.waiting.items self.new.waiting.items space items.items
            result }
    {
        match self.waiting.reserve(1) {
            Ok(()) => {}
            Err(_) => return Err(NO_MEMORY),
        }
        let handed = ItemQueue::from_items(items);
        self.keep(space, handed);
        Ok(PairAnswer::Done)
    }

    /// Makes a step of this endpoint.
    #[tactic(auto, using(crate::proofs::QuietLaws::same_quietly, crate::proofs::ItemMoves::same_moves))]
    pub(crate) fn local(&mut self, step: LocalStep) -> Result<PairAnswer, SenderError>
        ensures goes { Continues (GoesOn (local_turn step result)) self.old.sender
            self.new.sender }
        ensures answer { IfOk result (IsLocalAnswer step) }
        ensures waits { LocalWaits self.old.waiting.items self.new.waiting.items step result }
        ensures timer { KeepsTimerAs (known_by_step step result) self.old.sender self.new.sender }
        ensures items { MovesItems (hands_by step result) None (lost_by_local step result) IsNoProbe
            (self.old.sender, self.old.waiting.items)
            (self.new.sender, self.new.waiting.items) }
        ensures least { IsLeastIf (persists_by_timer result) self.new.sender }
        ensures finds { FindsByTimer step result self.old.sender self.new.sender }
        ensures acts { ExpiresInTime step result self.old.sender self.new.sender }
        ensures asks { AsksAt step result self.new.sender }
    {
        match step {
            LocalStep::Hand { space, items } => self.hand(space, items),
            LocalStep::Expire { now } => match expire(&mut self.sender, now) {
                Ok(timeout) => Ok(PairAnswer::Expired(timeout)),
                Err(refused) => Err(refused),
            },
            LocalStep::Late { now } => Ok(self.end_delay(now)),
            LocalStep::AddressValidated => {
                validate(&mut self.sender);
                Ok(PairAnswer::Done)
            }
            LocalStep::HandshakeKeys => {
                get_keys(&mut self.sender);
                Ok(PairAnswer::Done)
            }
            LocalStep::HandshakeConfirmed => {
                confirm(&mut self.sender);
                Ok(PairAnswer::Done)
            }
            LocalStep::Discard { space, now } => match discard(&mut self.sender, space, now) {
                Ok(()) => Ok(PairAnswer::Done),
                Err(refused) => Err(refused),
            },
        }
    }

    /// Requires an ACK at once if the ACK delay timer is due.
    #[tactic(auto, using(crate::proofs::QuietLaws::same_quietly, crate::proofs::ItemMoves::same_moves))]
    fn end_delay(&mut self, now: Instant) -> PairAnswer
        ensures goes { Continues GoesOnQuietly self.old.sender self.new.sender }
        ensures timer { KeepsTimer self.old.sender self.new.sender }
        ensures items { CarriesNone self.old.sender self.new.sender }
        ensures answer { IsDoneOrNothing result }
        ensures waits { self.new.waiting.items ≡ self.old.waiting.items }
    {
        let is_due = match self.late {
            Some(due) => due <= now,
            None => false,
        };
        if !is_due {
            return PairAnswer::Nothing;
        }
        self.late = None;
        end_delay(&mut self.sender, SpaceId::Data);
        PairAnswer::Done
    }
}
