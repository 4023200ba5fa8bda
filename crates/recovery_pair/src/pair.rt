//! Two ends of a connection, and the wire between them.
ghost use Rattle.std.specs.Prelude.{◌≡◌, ◌≤◌, [], ◌∷◌, IfOk, None};
ghost use Rattle.recovery_base.specs.Units.{number_limit};
ghost use Rattle.recovery_packet_numbers.specs.Skips.{IsSkips};
ghost use Rattle.recovery_pair.specs.AddressKnown.{known_at, known_by_fate, known_by_step};
ghost use Rattle.recovery_pair.specs.Carried.{IsNoProbe, MovesItems, MovesSent, hands_by, lost_by_fate, lost_by_local};
ghost use Rattle.recovery_pair.specs.Expires.{AsksAt, ExpiresAtEnd, ExpiresInTime};
ghost use Rattle.recovery_pair.specs.Filled.{AtEnd, FillsAnswer, FillsOutcome, FillsProbes};
ghost use Rattle.recovery_pair.specs.LeastWindows.{AreLeastAfter, IsLeastIf, persists_by_fate, persists_by_timer};
ghost use Rattle.recovery_pair.specs.NoDeadlock.{HoldsWithCause, IfTied, NeverStuck};
ghost use Rattle.recovery_pair.specs.Pasts.{Continues, GoesOn};
ghost use Rattle.recovery_pair.specs.Permits.{HoldsAt, PermitsAnswer, PermitsOutcome, SendsAsPermitted, WaitsIfFull};
ghost use Rattle.recovery_pair.specs.Promises.Locals.{IsLocalAnswer};
ghost use Rattle.recovery_pair.specs.Runs.{StepKeeps};
ghost use Rattle.recovery_pair.specs.Tied.{IsTied};
ghost use Rattle.recovery_pair.specs.Timed.{AreTimedAs, KeepsTimer, KeepsTimerAs, KeepsTimers};
ghost use Rattle.recovery_pair.specs.Waits.{LocalWaits, LosesNone, SendWaits};
ghost use Rattle.recovery_pair.specs.Turns.{FindsByTimer, HearTurn, SendTurn, TurnsAt, local_turn};

use crate::calls::NO_MEMORY;
use crate::endpoint::{Endpoint, Outgoing};
use crate::steps::{End, Fate, LocalStep, PairAnswer, PairStep, WirePacket, sent_ack};
use rand_core::Rng;
use recovery_base::below::{NoMemory, SpaceId};
use recovery_base::time::Instant;
use recovery_congestion::congestion::ControllerFactory;
use recovery_history::RecoveryConfig;
use recovery_losses::Side;
use recovery_sender::{Sender, SenderError};
use std::alloc::Global;

/// Two ends of a connection, and the wire between them. The wire is a list that only grows: whoever chooses the steps
/// is the network.
#[derive(Drop)]
pub struct Pair<F: ControllerFactory, R: Rng> {
    alloc: Global,
    /// The client.
    pub client: Endpoint<F, R>,
    /// The server.
    pub server: Endpoint<F, R>,
    /// All packets that were sent, in the order of sending.
    pub wire: Vec<WirePacket>,
}

/// The settings of an endpoint, and the random words with which it skips packet numbers.
#[derive(Drop)]
pub struct EndConfig<F, R> {
    /// The settings.
    pub config: RecoveryConfig<F>,
    /// The random words.
    pub rng: R,
}

/// An endpoint sends one datagram, if it has something to send and may.
fn send_from<F, R>(
    client: &mut Endpoint<F, R>,
    server: &mut Endpoint<F, R>,
    alloc: Global,
    end: End,
    space: SpaceId,
    now: Instant,
    size: u16,
) -> Result<Outgoing, SenderError>
where
    F: ControllerFactory,
    R: Rng + Drop,
    ensures goes { TurnsAt end (λ old new. SendTurn old new end space now size result)
        client.old.sender server.old.sender client.new.sender server.new.sender }
    ensures waits { TurnsAt end (λ old new. SendWaits old new space result)
        client.old.waiting.items server.old.waiting.items client.new.waiting.items
        server.new.waiting.items }
    ensures permits { HoldsAt end (PermitsOutcome space now size result) client.old.sender
        server.old.sender }
    ensures timer { TurnsAt end KeepsTimer client.old.sender server.old.sender client.new.sender
        server.new.sender }
    ensures items { TurnsAt end (MovesSent space result)
        (client.old.sender, client.old.waiting.items)
        (server.old.sender, server.old.waiting.items)
        (client.new.sender, client.new.waiting.items)
        (server.new.sender, server.new.waiting.items) }
    ensures filled { AtEnd end (FillsOutcome space result)
        (client.old.sender, client.old.waiting.items)
        (server.old.sender, server.old.waiting.items) }
    ensures held { HoldsAt end (WaitsIfFull space result) client.new.sender server.new.sender }
{
    match end {
        End::Client => client.send(alloc, end, space, now, size),
        End::Server => server.send(alloc, end, space, now, size),
    }
}

/// An endpoint processes a packet that arrives.
fn hear_at<F, R>(
    client: &mut Endpoint<F, R>,
    server: &mut Endpoint<F, R>,
    alloc: Global,
    to: End,
    packet: &WirePacket,
    now: Instant,
) -> Result<Fate, SenderError>
where
    F: ControllerFactory,
    R: Rng + Drop,
    ensures goes { TurnsAt to (λ old new. HearTurn old new packet.now now result)
        client.old.sender server.old.sender client.new.sender server.new.sender }
    ensures waits { TurnsAt to (λ old new. LosesNone old new)
        client.old.waiting.items server.old.waiting.items client.new.waiting.items
        server.new.waiting.items }
    ensures timer { TurnsAt to (KeepsTimerAs (known_by_fate packet.now.space result))
        client.old.sender server.old.sender client.new.sender server.new.sender }
    ensures items { TurnsAt to
        (MovesItems None None (lost_by_fate packet.now.space result) IsNoProbe)
        (client.old.sender, client.old.waiting.items)
        (server.old.sender, server.old.waiting.items)
        (client.new.sender, client.new.waiting.items)
        (server.new.sender, server.new.waiting.items) }
    ensures least { TurnsAt to (λ old new. IsLeastIf (persists_by_fate result) new)
        client.old.sender server.old.sender client.new.sender server.new.sender }
{
    match to {
        End::Client => client.hear(alloc, packet, now),
        End::Server => server.hear(alloc, packet, now),
    }
}

/// Something happens at an endpoint.
fn local_at<F, R>(
    client: &mut Endpoint<F, R>,
    server: &mut Endpoint<F, R>,
    end: End,
    step: LocalStep,
) -> Result<PairAnswer, SenderError>
where
    F: ControllerFactory,
    R: Rng + Drop,
    ensures goes { TurnsAt end (λ old new. Continues (GoesOn (local_turn step result)) old new)
        client.old.sender server.old.sender client.new.sender server.new.sender }
    ensures answer { IfOk result (IsLocalAnswer step) }
    ensures waits { TurnsAt end (λ old new. LocalWaits old new step result)
        client.old.waiting.items server.old.waiting.items client.new.waiting.items
        server.new.waiting.items }
    ensures timer { TurnsAt end (KeepsTimerAs (known_by_step step result)) client.old.sender
        server.old.sender client.new.sender server.new.sender }
    ensures items { TurnsAt end
        (MovesItems (hands_by step result) None (lost_by_local step result) IsNoProbe)
        (client.old.sender, client.old.waiting.items)
        (server.old.sender, server.old.waiting.items)
        (client.new.sender, client.new.waiting.items)
        (server.new.sender, server.new.waiting.items) }
    ensures least { TurnsAt end (λ old new. IsLeastIf (persists_by_timer result) new)
        client.old.sender server.old.sender client.new.sender server.new.sender }
    ensures finds { TurnsAt end (FindsByTimer step result) client.old.sender server.old.sender
        client.new.sender server.new.sender }
    ensures acts { TurnsAt end (ExpiresInTime step result) client.old.sender server.old.sender
        client.new.sender server.new.sender }
    ensures asks { AtEnd end (AsksAt step result) client.new.sender server.new.sender }
{
    match end {
        End::Client => client.local(step),
        End::Server => server.local(step),
    }
}

impl<F, R> Pair<F, R>
where
    F: ControllerFactory,
    R: Rng + Drop,
{
    /// Returns two ends that are made at time `start`, with an empty wire. Fails with `NoMemory`, as [`Sender::new`].
    pub fn new(
        alloc: Global,
        client: EndConfig<F, R>,
        server: EndConfig<F, R>,
        start: Instant,
    ) -> Result<Self, NoMemory>
        requires client_issued { client.config.issued ≤ number_limit }
        requires client_skips { IsSkips client.config.skips }
        requires server_issued { server.config.issued ≤ number_limit }
        requires server_skips { IsSkips server.config.skips }
        ensures tied { IfOk result (λ pair.
            IsTied server.config.validated [] pair.client.sender pair.server.sender
            pair.wire.items pair.client.waiting.items pair.server.waiting.items) }
        ensures timer_set { IfOk result
            (λ pair. AreTimedAs (λ end. known_at end []) pair.client.sender pair.server.sender) }
    {
        let client = Sender::new(alloc, Side::Client, client.config, client.rng, start)?;
        let server = Sender::new(alloc, Side::Server, server.config, server.rng, start)?;
        Ok(Pair {
            alloc,
            client: Endpoint::new(alloc, client),
            server: Endpoint::new(alloc, server),
            wire: Vec::new(alloc),
        })
    }

    /// Makes a step. However the steps are chosen, the promises of `KeepsPromises` hold for its answer, by the steps
    /// and answers before it.
    pub fn step(&mut self, step: PairStep) -> Result<PairAnswer, SenderError>
        ensures keeps { StepKeeps self.old.client.sender self.old.server.sender
            self.old.wire.items self.old.client.waiting.items self.old.server.waiting.items step
            result self.new.client.sender self.new.server.sender self.new.wire.items
            self.new.client.waiting.items self.new.server.waiting.items }

        // A datagram is sent only if the sender of its endpoint permits it (RFC 9000, 8.1; RFC 9002, 7).
        ensures permits { SendsAsPermitted step result self.old.client.sender
            self.old.server.sender }

        // The timer of each endpoint follows the events, and what it knows of the handshake the steps and answers (RFC
        // 9002, 6.2.1, 6.2.2.1 and A.8).
        ensures timer_set { KeepsTimers (step, result) self.old.client.sender
            self.old.server.sender self.new.client.sender self.new.server.sender }

        // No endpoint is stuck. Its timer is set while bytes are in flight that it probes for, and if the window holds
        // back a packet of the handshake (RFC 9002, 6.2 and 7). If callers follow the handshake, the client's timer is
        // set until the server validates the client's address (RFC 9000, 8.1).
        ensures unstuck { NeverStuck self.old.client.sender self.old.server.sender
            self.old.wire.items self.old.client.waiting.items self.old.server.waiting.items step
            result self.new.client.sender self.new.server.sender }

        // The loss detection timer acts at its time, and not before, as `on_timeout` of the sender
        // promises (RFC 9002, 6.2 and A.9).
        ensures expires { ExpiresAtEnd step result self.old.client.sender self.old.server.sender
            self.new.client.sender self.new.server.sender }

        // A probe has items if the retransmission queue, a packet in flight whose items no probe
        // took, or what waits longest has (RFC 9002, 6.2.4).
        ensures filled { FillsProbes step result
            (self.old.client.sender, self.old.client.waiting.items)
            (self.old.server.sender, self.old.server.waiting.items) }

        // Persistent congestion leaves the smallest window (RFC 9002, 7.6.2).
        ensures least { AreLeastAfter (step, result) self.new.client.sender self.new.server.sender }
    {
        match step {
            PairStep::Send {
                end,
                space,
                now,
                size,
            } => self.send(end, space, now, size),
            PairStep::Arrive { at, now } => self.arrive(at, now),
            PairStep::Local { end, step } => self.local(end, step),
        }
    }

    /// An endpoint sends a datagram.
    fn send(
        &mut self,
        end: End,
        space: SpaceId,
        now: Instant,
        size: u16,
    ) -> Result<PairAnswer, SenderError>
        ensures keeps { StepKeeps self.old.client.sender self.old.server.sender
            self.old.wire.items self.old.client.waiting.items self.old.server.waiting.items
            (PairStep.Send end space now size) result self.new.client.sender
            self.new.server.sender self.new.wire.items self.new.client.waiting.items
            self.new.server.waiting.items }
        ensures permits { HoldsAt end (PermitsAnswer space now size result)
            self.old.client.sender self.old.server.sender }
        ensures filled { AtEnd end (FillsAnswer space result)
            (self.old.client.sender, self.old.client.waiting.items)
            (self.old.server.sender, self.old.server.waiting.items) }
        ensures timer_set { KeepsTimers (PairStep.Send end space now size, result)
            self.old.client.sender self.old.server.sender self.new.client.sender
            self.new.server.sender }
        ensures held { IfTied self.old.client.sender self.old.server.sender self.old.wire.items
            self.old.client.waiting.items self.old.server.waiting.items
            (λ validated log. HoldsWithCause self.old.client.sender self.old.server.sender
            self.new.client.sender self.new.server.sender validated log
            (PairStep.Send end space now size, result)) }
    {
        match self.wire.reserve(1) {
            Ok(()) => {}
            Err(_) => return Err(NO_MEMORY),
        }
        match send_from(
            &mut self.client,
            &mut self.server,
            self.alloc,
            end,
            space,
            now,
            size,
        ) {
            Ok(Outgoing::Sent(packet, items, window)) => {
                let number = packet.number;
                let eliciting = packet.eliciting;
                let ack = sent_ack(&packet);
                self.wire.push_reserved(packet);
                Ok(PairAnswer::Sent {
                    number,
                    items,
                    eliciting,
                    window,
                    ack,
                })
            }
            Ok(Outgoing::Nothing) => Ok(PairAnswer::Nothing),
            Ok(Outgoing::Held(held)) => Ok(PairAnswer::Held(held)),
            Ok(Outgoing::Failed(refused)) => Ok(PairAnswer::Failed(refused)),
            Err(refused) => Err(refused),
        }
    }

    /// A copy of a packet arrives.
    fn arrive(&mut self, at: usize, now: Instant) -> Result<PairAnswer, SenderError>
        ensures keeps { StepKeeps self.old.client.sender self.old.server.sender self.old.wire.items
            self.old.client.waiting.items self.old.server.waiting.items
            (PairStep.Arrive at now) result self.new.client.sender self.new.server.sender
            self.new.wire.items self.new.client.waiting.items self.new.server.waiting.items }
        ensures timer_set { KeepsTimers (PairStep.Arrive at now, result) self.old.client.sender
            self.old.server.sender self.new.client.sender self.new.server.sender }
        ensures least { AreLeastAfter (PairStep.Arrive at now, result) self.new.client.sender
            self.new.server.sender }
    {
        let Some(packet) = self.wire.get(at) else {
            return Ok(PairAnswer::Nothing);
        };
        let to = packet.from.other();
        match hear_at(
            &mut self.client,
            &mut self.server,
            self.alloc,
            to,
            packet,
            now,
        ) {
            Ok(fate) => Ok(PairAnswer::Arrived {
                to,
                space: packet.space,
                number: packet.number,
                size: packet.size,
                fate,
            }),
            Err(refused) => Err(refused),
        }
    }

    /// Something happens at an endpoint.
    fn local(&mut self, end: End, step: LocalStep) -> Result<PairAnswer, SenderError>
        ensures keeps { StepKeeps self.old.client.sender self.old.server.sender self.old.wire.items
            self.old.client.waiting.items self.old.server.waiting.items
            (PairStep.Local end step) result self.new.client.sender self.new.server.sender
            self.new.wire.items self.new.client.waiting.items self.new.server.waiting.items }
        ensures timer_set { KeepsTimers (PairStep.Local end step, result) self.old.client.sender
            self.old.server.sender self.new.client.sender self.new.server.sender }
        ensures expires { TurnsAt end (ExpiresInTime step result) self.old.client.sender
            self.old.server.sender self.new.client.sender self.new.server.sender }
        ensures least { AreLeastAfter (PairStep.Local end step, result) self.new.client.sender
            self.new.server.sender }
    {
        local_at(&mut self.client, &mut self.server, end, step)
    }
}
