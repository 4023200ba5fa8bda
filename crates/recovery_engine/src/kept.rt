//! The engine of a stack: a bare recovery, or one of a sender.
ghost use Rattle.std.specs.Prelude.{◌≡◌, ◌≤◌, true, Decides, IfOk};
ghost use Rattle.rand_core.specs.Steps.{stream_of, steps_u32};
ghost use Rattle.recovery_base.specs.Units.{number_limit};
ghost use Rattle.rand_pcg.specs.Pcg.{pcg32};
ghost use Rattle.quic_recovery.specs.State.{state_of};
ghost use Rattle.recovery_packet_numbers.specs.Skips.{IsSkips};
ghost use Rattle.recovery_sender.specs.Calls.{IsPassedThrough, EventResult};
ghost use Rattle.recovery_engine.specs.Kept.{by_sender, numbers_told, packets_told, parts_kept, pto_count_of, sends, EventOutcome, IsFreshAlone, IsFreshEstablished, IsFreshSender, IsFresh, AcceptsEvent, PassesEvent, MarksKept};
ghost use Rattle.recovery_engine.specs.Sending.{told_view, ProbeUnlessNoSender, UnlessNoSender};
ghost use Rattle.recovery_engine.specs.declared.sending.Call.TheVariants.{TakeAck};
ghost use Rattle.recovery_engine.specs.Replies.{IsWritten};
ghost use Rattle.recovery_engine.specs.SenderViews.{sender_view_of};

use crate::controllers::ChosenConfig;
use crate::sending::{AckRange, Call, OutcomeView, Sending, TakenAck};
use crate::spelling::{EncodedReply, copy_numbers};
use crate::views::SenderView;
use quic_recovery::{LiveRecovery, Recovery};
use rand_pcg::Pcg32;
use recovery_base::below::{NoMemory, SpaceId};
use recovery_base::time::Instant;
use recovery_events::event::{Answer, Event, Refusal};
use recovery_history::RecoveryConfig;
use recovery_losses::Side;
use recovery_paths::path_pair::PathName;
use recovery_paths::paths::PathMarks;
use recovery_queue::items::ItemQueue;
use recovery_sender::{Sender, SenderError, passes};
use std::alloc::Global;

/// A recovery with a chosen controller, whose packets carry numbered items and whose skips are drawn by PCG32.
pub type ItemRecovery = LiveRecovery<ChosenConfig, ItemQueue, Pcg32>;

/// A sender of such a recovery.
pub type ItemSender = Sender<ChosenConfig, ItemQueue, Pcg32>;

/// The initial form of an engine.
#[derive(Clone, Copy)]
pub enum Form {
    /// A bare recovery: its caller decides what is lost.
    Bare,
    /// A sender of this side, from the start of the handshake.
    Handshaking(Side),
    /// A sender of this side, once the handshake is confirmed.
    Established(Side),
}

/// A packet that was sent, with its items: the fields of the event `Send` (RFC 9002, A.1).
#[derive(Drop)]
pub struct ItemPacket {
    /// The packet number space.
    pub space: SpaceId,
    /// When it is sent.
    pub now: Instant,
    /// Its size in bytes; 0 if congestion control does not count it.
    pub size: u16,
    /// Whether it is ack-eliciting (RFC 9002, 2).
    pub ack_eliciting: bool,
    /// The largest packet number that its ACK frame acknowledges, if it has one.
    pub largest_acked: Option<u64>,
    /// Its items, which are retransmitted if it is lost (RFC 9000, 13.3).
    pub queue: ItemQueue,
}

/// The engine of a stack.
#[derive(Drop)]
pub enum Engine {
    /// A bare recovery. It accepts each event.
    Alone(ItemRecovery),
    /// A sender. It accepts the events that the sender passes, and makes those of the sender's calls.
    Sends(Sending),
}

/// Applies an event that a sender passes. It is out of line, so that events of a bare recovery are inlined.
#[inline(never)]
fn passed(sending: &mut Sending, event: Event<ItemQueue>) -> Result<Answer<ItemQueue>, Refusal>
    requires { IsPassedThrough event }
    ensures takes { EventResult event sending.old.sender sending.new.sender (by_sender result) }
    ensures told { sending.new.told ≡ sending.old.told }
{
    match sending.sender.on_event(event) {
        Ok(answer) => Ok(answer),
        Err(SenderError::Event(refusal)) => Err(refusal),
        Err(_) => unreachable!(),
    }
}

/// Records a sent packet: the event `Send`. Unlike [`passed`], whose frame has room for every event, it is quick.
#[inline(always)]
fn sent(sending: &mut Sending, packet: ItemPacket) -> Result<Answer<ItemQueue>, Refusal>
    ensures takes { EventResult (sends packet)
        sending.old.sender sending.new.sender (by_sender result) }
    ensures told { sending.new.told ≡ sending.old.told }
{
    let sent = sending.sender.send(
        packet.space,
        packet.now,
        packet.size,
        packet.ack_eliciting,
        packet.largest_acked,
        packet.queue,
        (),
    );
    match sent {
        Ok(answer) => Ok(answer),
        Err(SenderError::Event(refusal)) => Err(refusal),
        Err(_) => unreachable!(),
    }
}

impl Engine {
    /// Returns an engine of this form, without any event.
    pub fn new(
        alloc: Global,
        form: Form,
        config: RecoveryConfig<ChosenConfig>,
        rng: Pcg32,
        now: Instant,
    ) -> Result<Engine, NoMemory>
        requires issued { config.issued ≤ number_limit }
        requires skips { IsSkips config.skips }
        ensures { IfOk result
            (λ kept. IsFresh form config now (stream_of (steps_u32 pcg32) rng) kept) }
    {
        match form {
            Form::Bare => Engine::alone(alloc, config, rng, now),
            Form::Handshaking(side) => Engine::sends(alloc, side, config, rng, now),
            Form::Established(side) => Engine::established(alloc, side, config, rng, now),
        }
    }

    fn alone(
        alloc: Global,
        config: RecoveryConfig<ChosenConfig>,
        rng: Pcg32,
        now: Instant,
    ) -> Result<Engine, NoMemory>
        requires issued { config.issued ≤ number_limit }
        requires skips { IsSkips config.skips }
        ensures { IfOk result
            (λ kept. IsFreshAlone config now (stream_of (steps_u32 pcg32) rng) kept) }
    {
        let recovery = LiveRecovery::new(alloc, config, rng, now)?;
        Ok(Engine::Alone(recovery))
    }

    fn sends(
        alloc: Global,
        side: Side,
        config: RecoveryConfig<ChosenConfig>,
        rng: Pcg32,
        now: Instant,
    ) -> Result<Engine, NoMemory>
        requires issued { config.issued ≤ number_limit }
        requires skips { IsSkips config.skips }
        ensures { IfOk result
            (λ kept. IsFreshSender side config now (stream_of (steps_u32 pcg32) rng) kept) }
    {
        let sender = Sender::new(alloc, side, config, rng, now)?;
        Ok(Engine::Sends(Sending::new(alloc, sender)))
    }

    fn established(
        alloc: Global,
        side: Side,
        config: RecoveryConfig<ChosenConfig>,
        rng: Pcg32,
        now: Instant,
    ) -> Result<Engine, NoMemory>
        requires issued { config.issued ≤ number_limit }
        requires skips { IsSkips config.skips }
        ensures { IfOk result
            (λ kept. IsFreshEstablished side config now (stream_of (steps_u32 pcg32) rng) kept) }
    {
        let sender = Sender::established(alloc, side, config, rng, now)?;
        Ok(Engine::Sends(Sending::new(alloc, sender)))
    }

    /// Returns the recovery, for reading.
    pub fn recovery(&self) -> &Recovery<ChosenConfig, ItemQueue, Pcg32>
        ensures { state_of result.now ≡ parts_kept self.now }
    {
        match self {
            Engine::Alone(recovery) => recovery.recovery(),
            Engine::Sends(sending) => sending.sender.recovery(),
        }
    }

    /// Returns whether the engine accepts an event: a sender itself makes some.
    #[inline(always)]
    pub fn accepts(&self, event: &Event<ItemQueue>) -> bool
        ensures { Decides result (AcceptsEvent self.now event.now) }
    {
        match self {
            Engine::Alone(_) => true,
            Engine::Sends(_) => passes(event),
        }
    }

    /// Returns whether this is a sender that passes an event.
    #[inline(always)]
    pub fn is_passed(&self, event: &Event<ItemQueue>) -> bool
        ensures { result ≡ true → PassesEvent self.now event.now }
    {
        match self {
            Engine::Alone(_) => false,
            Engine::Sends(_) => passes(event),
        }
    }

    /// Applies an event that a sender passes.
    #[inline(always)]
    pub fn pass(&mut self, event: Event<ItemQueue>) -> Result<Answer<ItemQueue>, Refusal>
        requires { PassesEvent self.old event }
        ensures { EventOutcome self.old event result self.new }
    {
        match self {
            Engine::Alone(_) => unreachable!(),
            Engine::Sends(sending) => passed(sending, event),
        }
    }

    /// Applies an event that the engine accepts.
    #[inline(always)]
    pub fn apply(&mut self, event: Event<ItemQueue>) -> Result<Answer<ItemQueue>, Refusal>
        requires { AcceptsEvent self.old event }
        ensures { EventOutcome self.old event result self.new }
    {
        match self {
            Engine::Alone(recovery) => recovery.apply(event),
            Engine::Sends(sending) => passed(sending, event),
        }
    }

    /// Records a sent packet: the event `Send`, without the match over all events.
    #[inline(always)]
    pub fn send(&mut self, packet: ItemPacket) -> Result<Answer<ItemQueue>, Refusal>
        ensures { EventOutcome self.old (sends packet) result self.new }
    {
        match self {
            Engine::Alone(recovery) => recovery.send(
                packet.space,
                packet.now,
                packet.size,
                packet.ack_eliciting,
                packet.largest_acked,
                packet.queue,
                (),
            ),
            Engine::Sends(sending) => sent(sending, packet),
        }
    }

    /// Returns the number of a sender's consecutive probe timeouts.
    pub fn pto_count(&self) -> u32
        ensures { result ≡ pto_count_of self.now }
    {
        match self {
            Engine::Alone(_) => 0,
            Engine::Sends(sending) => sending.sender.variables().pto_count,
        }
    }

    /// Returns the purpose of a sender's timer, and the room that is left.
    pub fn sender_view(&self) -> SenderView
        ensures { result ≡ sender_view_of self.now }
    {
        match self {
            Engine::Alone(_) => SenderView::none(),
            Engine::Sends(sending) => SenderView::of(&sending.sender),
        }
    }

    /// Returns the numbers that the last outcome newly acknowledged, or those that it found lost.
    fn numbers(&self, lost: bool) -> &[u64]
        ensures { result.now ≡ numbers_told lost self.now }
    {
        match self {
            Engine::Alone(_) => &[],
            Engine::Sends(sending) => sending.numbers(lost),
        }
    }

    /// Returns the count of these numbers, and writes them if there is room for all.
    pub fn copy_numbers(&self, lost: bool, out: &mut [u64]) -> usize
        ensures { IsWritten (numbers_told lost self.now) out.old result out.new }
    {
        copy_numbers(self.numbers(lost), out)
    }

    /// Returns the packets that the last ACK frame newly acknowledged, with their items.
    fn packets(&self) -> &[u64]
        ensures { result.now ≡ packets_told self.now }
    {
        match self {
            Engine::Alone(_) => &[],
            Engine::Sends(sending) => sending.told.packets.as_slice(),
        }
    }

    /// Returns the count of these words, and writes them if there is room for all.
    pub fn copy_packets(&self, out: &mut [u64]) -> usize
        ensures { IsWritten (packets_told self.now) out.old result out.new }
    {
        copy_numbers(self.packets(), out)
    }

    /// Returns the last outcome of a sender.
    pub fn last_outcome(&self) -> OutcomeView
        ensures { result ≡ told_view self.now }
    {
        match self {
            Engine::Alone(_) => OutcomeView::none(),
            Engine::Sends(sending) => OutcomeView::of(&sending.told.acked),
        }
    }

    /// Makes a call of a sender; an error if there is none.
    #[inline(always)]
    pub fn call_sender(&mut self, alloc: Global, call: Call, ranges: &[AckRange]) -> EncodedReply
        ensures { UnlessNoSender call ranges.now self.old result self.new }
    {
        match self {
            Engine::Alone(_) => EncodedReply::no_sender(),
            Engine::Sends(sending) => sending.call_sender(alloc, call, ranges),
        }
    }

    /// Processes an ACK frame: the call [`Call::TakeAck`], without the match over all calls.
    #[inline(always)]
    pub fn take_ack(&mut self, alloc: Global, frame: TakenAck, ranges: &[AckRange]) -> EncodedReply
        ensures { UnlessNoSender (TakeAck frame) ranges.now self.old result self.new }
    {
        match self {
            Engine::Alone(_) => EncodedReply::no_sender(),
            Engine::Sends(sending) => sending.take_ack(alloc, frame, ranges),
        }
    }

    /// Returns the contents of a sender's probe, or the error in numbers; an error if there is no sender.
    pub fn probe(&mut self, space: SpaceId, immediate_ack: bool) -> Result<ItemQueue, EncodedReply>
        ensures { ProbeUnlessNoSender space immediate_ack self.old result self.new }
    {
        match self {
            Engine::Alone(_) => Err(EncodedReply::no_sender()),
            Engine::Sends(sending) => sending.probe(space, immediate_ack),
        }
    }

    /// Stores the caller's marks of a path of a bare recovery. A sender sets its marks itself.
    pub fn set_marks(&mut self, path: PathName, marks: PathMarks) -> bool
        ensures { MarksKept path marks result self.old self.new }
    {
        match self {
            Engine::Alone(recovery) => recovery.set_marks(path, marks).is_some(),
            Engine::Sends(_) => false,
        }
    }
}
