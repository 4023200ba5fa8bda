//! The calls of a sender that an end makes, and how each continues the sender's past.
ghost use Rattle.std.specs.Prelude.{◌≡◌, ◌≢◌, [], ◌∷◌, true, IfOk, MatchResult, Some};
ghost use Rattle.recovery_pair.specs.AddressKnown.{known_by_ack, with_confirmation, with_keys};
ghost use Rattle.recovery_pair.specs.Carried.{Carries, CarriesNone, losing, lost_by_ack, lost_by_timeout, sending_with, taking};
ghost use Rattle.recovery_pair.specs.Expires.{AsksIn, ExpiresBy, expired};
ghost use Rattle.recovery_pair.specs.Falls.{FindsWithCause};
ghost use Rattle.recovery_pair.specs.Filled.{KeepsSpaces, RepeatsNone};
ghost use Rattle.recovery_pair.specs.Flights.{counted_if};
ghost use Rattle.recovery_pair.specs.Frames.{FailsFrame, IsFrameFor};
ghost use Rattle.recovery_losses.specs.Frames.{largest_of};
ghost use Rattle.recovery_pair.specs.LeastWindows.{IsLeastIf, KeepsLeastWindow, persists_by_ack, persists_by_timeout};
ghost use Rattle.recovery_pair.specs.Newly.{AcksFlightBy};
ghost use Rattle.recovery_pair.specs.Pasts.{Continues, GoesOn, GoesOnQuietly, HasPast, HearsNumber, NoAccusation, SampledBy, SendsNumber, AcksWithin, arm_told, arriving, discarding, ending, endings_by_ack, heard_of, leaving, no_endings, validating, with_congestion};
ghost use Rattle.recovery_pair.specs.Promises.Framed.{HasFrame};
ghost use Rattle.recovery_pair.specs.Permits.{FitsChecked, IsPermission, SaysOf, WaitsFor, WaitsIfHeld, requires_ack, window_checked};
ghost use Rattle.recovery_pair.specs.Promises.Repeats.{is_probe};
ghost use Rattle.recovery_pair.specs.Timed.{KeepsTimer, KeepsTimerAs};
ghost use Rattle.recovery_pair.specs.Turns.{FitsIfPermitted, PermissionFits, PermissionTurn, TransmitTurn, TriesTurn, timeout_turn};
ghost use Rattle.recovery_sender.specs.Calls.{PermitsAckAlone, PermitsAlone};
ghost use Rattle.recovery_sender.specs.Senders.{state_in};

use crate::steps::{AckOutcome, WirePacket};
use rand_core::Rng;
use recovery_base::below::SpaceId;
use recovery_base::time::{Duration, Instant};
use recovery_congestion::congestion::{Controller, ControllerFactory};
use recovery_events::event::{Answer, Event, Refusal};
use recovery_losses::Ack;
use recovery_queue::items::ItemQueue;
use recovery_sender::{Sender, SenderError, Timeout, Transmission};
use std::alloc::Global;

/// The error of an allocation that failed.
pub(crate) const NO_MEMORY: SenderError = SenderError::Event(Refusal::NoMemory);

/// Returns a copy of some items. Fails with `NoMemory`.
pub(crate) fn copied(alloc: Global, items: &[u64]) -> Result<Vec<u64>, SenderError>
    ensures { IfOk result (λ copy. copy.items ≡ items.now) }
{
    let mut copy = Vec::new(alloc);
    match copy.extend_from_slice(items) {
        Ok(()) => Ok(copy),
        Err(_) => Err(NO_MEMORY),
    }
}

/// An ACK frame that may be sent.
#[derive(Drop)]
pub(crate) struct AckToSend {
    /// The first and last number of each range, the highest range first.
    pub ranges: Vec<(u64, u64)>,
    /// How long ago the largest number was received.
    pub delay: Duration,
    /// Whether it is to be sent in a packet of its own (RFC 9000, 13.2.1).
    pub required: bool,
}

/// Returns the ACK of all numbers of a space that are to be acknowledged, without ranges if there are none. Fails with
/// `NoMemory`.
pub(crate) fn frame<F, R>(
    alloc: Global,
    sender: &Sender<F, ItemQueue, R>,
    space: SpaceId,
    now: Instant,
) -> Result<AckToSend, SenderError>
where
    F: ControllerFactory,
    R: Rng + Drop,
    ensures { MatchResult result
        (λ frame. IsFrameFor space now sender.now frame.ranges.items frame.delay)
        (λ refusal. FailsFrame space sender.now refusal) }
{
    let Some(here) = sender.recovery().space(space) else {
        return Err(SenderError::Event(Refusal::SpaceDiscarded));
    };
    let acks = &here.pending_acks;
    let all = acks.ranges().iter().as_slice();
    let mut ranges = Vec::new(alloc);
    let mut at = all.len();
    while at > 0 {
        at -= 1;
        let start = all[at].start;
        let end = all[at].end;
        if ranges.push((start, end - 1)).is_err() {
            return Err(NO_MEMORY);
        }
    }
    Ok(AckToSend {
        ranges,
        delay: acks.ack_delay(now),
        required: acks.can_send(),
    })
}

/// Returns the window for which a datagram is checked, if it counts in flight and no probe is due in its space.
pub(crate) fn window_checked<F, R>(
    sender: &Sender<F, ItemQueue, R>,
    space: SpaceId,
    eliciting: bool,
) -> Option<u64>
where
    F: ControllerFactory,
    R: Rng + Drop,
    ensures { result ≡ window_checked sender.now space eliciting }
{
    if eliciting && !sender.variables().is_probe_due(space) {
        Some(sender.recovery().current().congestion.window())
    } else {
        None
    }
}

/// Asks whether a datagram may be sent.
pub(crate) fn transmit<F, R>(
    sender: &mut Sender<F, ItemQueue, R>,
    space: SpaceId,
    now: Instant,
    size: u16,
    eliciting: bool,
) -> Result<Transmission, SenderError>
where
    F: ControllerFactory,
    R: Rng + Drop,
    ensures goes { TransmitTurn sender.old sender.new size result }
    ensures said { SaysOf sender.old space now size eliciting result }
    ensures fits { FitsIfPermitted sender.old space size eliciting result }
    ensures alone { IfOk result (λ sent. PermitsAckAlone (state_in sender.new) space size sent) }
    ensures waits { IfOk result (λ sent. WaitsFor space sent sender.new) }
    ensures spaces { KeepsSpaces sender.old sender.new }
    ensures timer { KeepsTimer sender.old sender.new }
    ensures items { CarriesNone sender.old sender.new }
{
    sender.transmit(now, size, space, eliciting)
}

/// What a sender permits of a datagram.
pub(crate) enum Permission {
    /// All of it.
    Whole,
    /// An ACK alone: the window or the pacer holds the rest back (RFC 9002, 7 and 7.7).
    AckAlone,
    /// Nothing now.
    Held(Transmission),
}

/// Asks whether a datagram may be sent. If the window or the pacer holds it back, and an ACK is required, asks for the
/// ACK alone (RFC 9000, 13.2.1).
pub(crate) fn permit<F, R>(
    sender: &mut Sender<F, ItemQueue, R>,
    space: SpaceId,
    now: Instant,
    size: u16,
    eliciting: bool,
) -> Result<Permission, SenderError>
where
    F: ControllerFactory,
    R: Rng + Drop,
    ensures goes { PermissionTurn sender.old sender.new size result }
    ensures said { IsPermission (SaysOf sender.old space now size eliciting) result }
    ensures fits { PermissionFits sender.old space size eliciting result }
    ensures waits { WaitsIfHeld space result sender.new }
    ensures spaces { KeepsSpaces sender.old sender.new }
    ensures timer { KeepsTimer sender.old sender.new }
    ensures items { CarriesNone sender.old sender.new }
{
    let said = match transmit(sender, space, now, size, eliciting) {
        Ok(said) => said,
        Err(refused) => return Err(refused),
    };
    if requires_ack(&said) {
        count_ack(sender, space, now, size);
        return Ok(Permission::AckAlone);
    }
    match said {
        Transmission::Transmitted => Ok(Permission::Whole),
        held => Ok(Permission::Held(held)),
    }
}

/// Returns whether the window or the pacer holds a datagram back while an ACK is required (RFC 9000, 13.2.1).
fn requires_ack(said: &Transmission) -> bool
    ensures { result ≡ requires_ack said.now }
{
    match said {
        Transmission::Full { ack } | Transmission::Delayed { ack, .. } => *ack,
        _ => false,
    }
}

/// Counts the datagram of an ACK alone, which the sender permits.
fn count_ack<F, R>(sender: &mut Sender<F, ItemQueue, R>, space: SpaceId, now: Instant, size: u16)
where
    F: ControllerFactory,
    R: Rng + Drop,
    requires permits { PermitsAlone (state_in sender.old) space size }
    ensures goes { Continues (GoesOn (leaving size)) sender.old sender.new }
    ensures spaces { KeepsSpaces sender.old sender.new }
    ensures timer { KeepsTimer sender.old sender.new }
    ensures items { CarriesNone sender.old sender.new }
{
    match transmit(sender, space, now, size, false) {
        Ok(Transmission::Transmitted) => {}
        _ => unreachable!(),
    }
}

/// Returns whether a packet is a probe: it counts in flight, and no window was checked for it.
pub(crate) fn is_probe(eliciting: bool, window: &Option<u64>) -> bool
    ensures { result ≡ is_probe eliciting window.now }
{
    eliciting && window.is_none()
}

/// Takes what waits to be repeated in a space. For a probe, takes the contents of a packet in flight if nothing waits.
pub(crate) fn contents<F, R>(
    sender: &mut Sender<F, ItemQueue, R>,
    space: SpaceId,
    probe: bool,
) -> Result<ItemQueue, SenderError>
where
    F: ControllerFactory,
    R: Rng + Drop,
    ensures goes { Continues GoesOnQuietly sender.old sender.new }
    ensures timer { KeepsTimer sender.old sender.new }
    ensures items { MatchResult result
        (λ queue. Carries (taking probe space queue) sender.old sender.new)
        (λ refused. CarriesNone sender.old sender.new) }
    ensures filled { IfOk result (λ queue. probe ≡ true → queue ≡ []
        → HasPast sender.old → RepeatsNone space sender.old) }
{
    if probe {
        return sender.probe(space, false, ());
    }
    match sender.on_event(Event::TakePending { space }) {
        Ok(Answer::Queue(queue)) => Ok(queue),
        Ok(_) => unreachable!(),
        Err(refused) => Err(refused),
    }
}

/// Returns how many bytes of a packet count in flight (RFC 9002, 2).
fn counted_if(eliciting: bool, size: u16) -> u16
    ensures { result ≡ counted_if eliciting size }
{
    if eliciting { size } else { 0 }
}

/// Records a sent packet. Returns its number.
pub(crate) fn track<F, R>(
    sender: &mut Sender<F, ItemQueue, R>,
    space: SpaceId,
    now: Instant,
    size: u16,
    eliciting: bool,
    largest: Option<u64>,
    queue: ItemQueue,
) -> Result<u64, SenderError>
where
    F: ControllerFactory,
    R: Rng + Drop,
    ensures goes { MatchResult result
        (λ number. Continues (SendsNumber 0 (counted_if eliciting size) eliciting space number
        largest now) sender.old sender.new)
        (λ refused. Continues GoesOnQuietly sender.old sender.new) }
    ensures timer { KeepsTimer sender.old sender.new }
    ensures items { MatchResult result
        (λ number. Carries (sending_with space number queue) sender.old sender.new)
        (λ refused. CarriesNone sender.old sender.new) }
{
    let counted = counted_if(eliciting, size);
    match sender.send(space, now, counted, eliciting, largest, queue, ()) {
        Ok(Answer::Sent { number, .. }) => return Ok(number),
        Ok(_) => unreachable!(),
        Err(refused) => return Err(refused),
    }
}

/// Records that an ACK of all pending numbers was sent.
pub(crate) fn end_acks<F, R>(sender: &mut Sender<F, ItemQueue, R>, space: SpaceId)
where
    F: ControllerFactory,
    R: Rng + Drop,
    ensures goes { Continues GoesOnQuietly sender.old sender.new }
    ensures timer { KeepsTimer sender.old sender.new }
    ensures items { CarriesNone sender.old sender.new }
{
    let _ = sender.on_event(Event::AcksSent { space });
}

/// Records that the ACK delay timer expired.
pub(crate) fn end_delay<F, R>(sender: &mut Sender<F, ItemQueue, R>, space: SpaceId)
where
    F: ControllerFactory,
    R: Rng + Drop,
    ensures goes { Continues GoesOnQuietly sender.old sender.new }
    ensures timer { KeepsTimer sender.old sender.new }
    ensures items { CarriesNone sender.old sender.new }
    ensures least { KeepsLeastWindow sender.old sender.new }
{
    let _ = sender.on_event(Event::AckDelayTimeout { space });
}

/// Records a received datagram (RFC 9000, 8.1).
pub(crate) fn datagram<F, R>(
    sender: &mut Sender<F, ItemQueue, R>,
    size: u16,
) -> Result<(), SenderError>
where
    F: ControllerFactory,
    R: Rng + Drop,
    ensures goes { TriesTurn (arriving size) sender.old sender.new result }
    ensures timer { KeepsTimer sender.old sender.new }
    ensures items { CarriesNone sender.old sender.new }
{
    sender.on_datagram(u64::from(size))
}

/// Returns whether to start the ACK delay timer, if a received packet is new.
fn arm_of(answer: &Answer<ItemQueue>) -> Option<bool>
    ensures { result ≡ arm_told answer.now }
{
    match answer {
        Answer::New { arm } => Some(*arm),
        _ => None,
    }
}

/// Records a received packet. If it is new, returns whether to start the ACK delay timer.
pub(crate) fn hear<F, R>(
    sender: &mut Sender<F, ItemQueue, R>,
    space: SpaceId,
    now: Instant,
    number: u64,
    eliciting: bool,
) -> Result<Option<bool>, SenderError>
where
    F: ControllerFactory,
    R: Rng + Drop,
    ensures goes { Continues (HearsNumber now 0 space number (heard_of result) no_endings)
        sender.old sender.new }
    ensures timer { KeepsTimer sender.old sender.new }
    ensures items { CarriesNone sender.old sender.new }
{
    let received = Event::Received {
        space,
        now,
        number,
        ack_eliciting: eliciting,
    };
    match sender.on_event(received) {
        Ok(answer) => Ok(arm_of(&answer)),
        Err(refused) => Err(refused),
    }
}

/// Processes the ACK frame of a packet, if it has one. If memory runs out, the frame is dropped as if it were lost.
pub(crate) fn hear_ack<F, R>(
    sender: &mut Sender<F, ItemQueue, R>,
    packet: &WirePacket,
    now: Instant,
) -> AckOutcome
where
    F: ControllerFactory,
    R: Rng + Drop,
    ensures goes { Continues (GoesOn (ending (endings_by_ack packet.now.space result)))
        sender.old sender.new }
    ensures honest { NoAccusation packet.now.space packet.now.ranges.items sender.old result }
    ensures within { AcksWithin packet.now.ranges.items result }
    ensures framed { HasFrame (largest_of packet.now.ranges.items) result }
    ensures sampled { SampledBy packet.now.space now packet.now.ranges.items sender.old result }
    ensures newly { AcksFlightBy packet.now.space packet.now.ranges.items sender.old result }
    ensures timer { KeepsTimerAs (known_by_ack packet.now.space result) sender.old sender.new }
    ensures items { Carries (losing (lost_by_ack packet.now.space result)) sender.old sender.new }
    ensures least { IsLeastIf (persists_by_ack result) sender.new }
    ensures finds { FindsWithCause (persists_by_ack result) (lost_by_ack packet.now.space result)
        now (λ congests. GoesOn (ending (with_congestion congests
        (endings_by_ack packet.now.space result)))) sender.old sender.new }
{
    if packet.ranges.is_empty() {
        return AckOutcome::NoFrame;
    }
    let ack = Ack {
        delay: packet.delay,
        ecn: None,
        app_limited: false,
        received: None,
    };
    match sender.on_ack(packet.space, now, &packet.ranges, ack) {
        Ok(acknowledged) => AckOutcome::Taken(acknowledged),
        Err(refused) => AckOutcome::Refused(refused),
    }
}

/// Handles the loss detection timer.
pub(crate) fn expire<F, R>(
    sender: &mut Sender<F, ItemQueue, R>,
    now: Instant,
) -> Result<Timeout, SenderError>
where
    F: ControllerFactory,
    R: Rng + Drop,
    ensures goes { Continues (GoesOn (timeout_turn result)) sender.old sender.new }
    ensures timer { KeepsTimer sender.old sender.new }
    ensures items { Carries (losing (lost_by_timeout result)) sender.old sender.new }
    ensures acts { ExpiresBy now (expired result) sender.old sender.new }
    ensures asks { AsksIn (expired result) sender.new }
    ensures least { IsLeastIf (persists_by_timeout result) sender.new }
    ensures finds { FindsWithCause (persists_by_timeout result) (lost_by_timeout result) now
        (λ congests. GoesOn (record (timeout_turn result) { congests = congests }))
        sender.old sender.new }
{
    sender.on_timeout(now)
}

/// Records that the peer's address is validated.
pub(crate) fn validate<F, R>(sender: &mut Sender<F, ItemQueue, R>)
where
    F: ControllerFactory,
    R: Rng + Drop,
    ensures goes { Continues (GoesOn validating) sender.old sender.new }
    ensures timer { KeepsTimer sender.old sender.new }
    ensures items { CarriesNone sender.old sender.new }
{
    sender.on_address_validated();
}

/// Records that Handshake keys are available.
pub(crate) fn get_keys<F, R>(sender: &mut Sender<F, ItemQueue, R>)
where
    F: ControllerFactory,
    R: Rng + Drop,
    ensures goes { Continues GoesOnQuietly sender.old sender.new }
    ensures timer { KeepsTimerAs with_keys sender.old sender.new }
    ensures items { CarriesNone sender.old sender.new }
{
    sender.on_handshake_keys();
}

/// Records that the handshake is confirmed.
pub(crate) fn confirm<F, R>(sender: &mut Sender<F, ItemQueue, R>)
where
    F: ControllerFactory,
    R: Rng + Drop,
    ensures goes { Continues GoesOnQuietly sender.old sender.new }
    ensures timer { KeepsTimerAs with_confirmation sender.old sender.new }
    ensures items { CarriesNone sender.old sender.new }
{
    sender.on_handshake_confirmed();
}

/// Discards a space with its keys.
pub(crate) fn discard<F, R>(
    sender: &mut Sender<F, ItemQueue, R>,
    space: SpaceId,
    now: Instant,
) -> Result<(), SenderError>
where
    F: ControllerFactory,
    R: Rng + Drop,
    ensures goes { TriesTurn (discarding space) sender.old sender.new result }
    ensures timer { KeepsTimer sender.old sender.new }
    ensures items { CarriesNone sender.old sender.new }
{
    sender.discard(space, now)
}
