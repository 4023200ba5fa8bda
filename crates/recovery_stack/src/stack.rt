//! A stack: a recovery, and those of its last results that are not numbers.
ghost use Rattle.std.specs.Prelude.{◌≡◌, ◌≤◌, IfOk};
ghost use Rattle.rand_core.specs.Steps.{stream_of, steps_u32};
ghost use Rattle.recovery_base.specs.Units.{number_limit};
ghost use Rattle.rand_pcg.specs.Pcg.{pcg32};
ghost use Rattle.recovery_packet_numbers.specs.Skips.{IsSkips};
ghost use Rattle.quic_recovery.specs.State.{state_of};
ghost use Rattle.recovery_engine.specs.Kept.{parts_kept, sends, AcceptsEvent, PassesEvent};
ghost use Rattle.recovery_engine.specs.Replies.{taken_after, token_after};
ghost use Rattle.recovery_engine.specs.declared.sending.Call.TheVariants.{TakeAck};
ghost use Rattle.recovery_stack.specs.Made.{IsNewHandle};
ghost use Rattle.recovery_stack.specs.Answers.{EventReply, AppliesOrRejects};
ghost use Rattle.recovery_stack.specs.SenderCalls.{AsksStack, ProbesStack};

use quic_recovery::Recovery;
use rand_pcg::Pcg32;
use recovery_base::below::{NoMemory, ResetToken, SpaceId};
use recovery_base::time::Instant;
use recovery_engine::controllers::{Chosen, ChosenConfig};
use recovery_engine::kept::{Engine, Form, ItemPacket};
use recovery_engine::numbers::ANSWER_QUEUE;
use recovery_engine::sending::{AckRange, Call, TakenAck};
use recovery_engine::spelling::{EncodedReply, encode_reply};
use recovery_events::event::{Answer, Event, Refusal};
use recovery_history::RecoveryConfig;
use recovery_paths::paths::PathData;
use recovery_queue::items::ItemQueue;
use recovery_spaces::spaces::PacketSpace;
use std::alloc::Global;

/// A path of a recovery.
pub type ItemPath = PathData<Chosen>;

/// A packet number space of a recovery.
pub type ItemSpace = PacketSpace<ItemQueue>;

/// A recovery, and those of its results that are not numbers.
#[derive(Drop)]
pub struct Stack {
    pub kept: Engine,
    /// The queue that was taken last; empty before the first.
    pub taken: ItemQueue,
    /// The token that was returned last; all zeros before the first.
    pub token: ResetToken,
}

impl Stack {
    /// Returns a recovery of this form, without any event.
    pub fn new(
        alloc: Global,
        form: Form,
        config: RecoveryConfig<ChosenConfig>,
        rng: Pcg32,
        now: Instant,
    ) -> Result<Stack, NoMemory>
        requires issued { config.issued ≤ number_limit }
        requires skips { IsSkips config.skips }
        ensures { IfOk result
            (λ stack. IsNewHandle form config now (stream_of (steps_u32 pcg32) rng) stack) }
    {
        let kept = Engine::new(alloc, form, config, rng, now)?;
        Ok(Stack {
            kept,
            taken: ItemQueue::from_items(Vec::new(alloc)),
            token: ResetToken::from([0; 16]),
        })
    }

    /// Returns the recovery, for reading.
    pub fn recovery(&self) -> &Recovery<ChosenConfig, ItemQueue, Pcg32>
        ensures { state_of result.now ≡ parts_kept self.now.kept }
    {
        self.kept.recovery()
    }

    /// Applies an event; an error if only a sender itself makes it.
    #[inline(always)]
    pub fn apply(&mut self, event: Event<ItemQueue>) -> EncodedReply
        ensures { AppliesOrRejects self.old event result self.new }
    {
        if !self.kept.accepts(&event) {
            return EncodedReply::decided();
        }
        self.hand_in(event)
    }

    /// Applies an event that a sender passes.
    #[inline(always)]
    pub fn pass(&mut self, event: Event<ItemQueue>) -> EncodedReply
        requires { PassesEvent self.old.kept event }
        ensures { EventReply self.old event result self.new }
    {
        let reply = self.kept.pass(event);
        let spelling = encode_reply(&reply);
        self.keep(reply);
        spelling
    }

    /// Applies an event that the engine accepts.
    #[inline(always)]
    fn hand_in(&mut self, event: Event<ItemQueue>) -> EncodedReply
        requires { AcceptsEvent self.old.kept event }
        ensures { EventReply self.old event result self.new }
    {
        let reply = self.kept.apply(event);
        let spelling = encode_reply(&reply);
        self.keep(reply);
        spelling
    }

    /// Records a sent packet: the event `Send`, without the match over all events. A 1-RTT packet is recorded inline,
    /// and the compiler knows its space there.
    #[inline(always)]
    pub fn send(&mut self, packet: ItemPacket) -> EncodedReply
        ensures { EventReply self.old (sends packet) result self.new }
    {
        match packet.space {
            SpaceId::Data => self.sent(packet),
            _ => self.sent_apart(packet),
        }
    }

    /// Records a sent packet, out of line.
    #[inline(never)]
    fn sent_apart(&mut self, packet: ItemPacket) -> EncodedReply
        ensures { EventReply self.old (sends packet) result self.new }
    {
        self.sent(packet)
    }

    /// Records a sent packet.
    #[inline(always)]
    fn sent(&mut self, packet: ItemPacket) -> EncodedReply
        ensures { EventReply self.old (sends packet) result self.new }
    {
        match self.kept.send(packet) {
            // The most frequent reply: it is not looked up among all.
            Ok(Answer::Sent { number, forgotten }) => {
                encode_reply(&Ok(Answer::Sent { number, forgotten }))
            }
            reply => {
                let spelling = encode_reply(&reply);
                self.keep(reply);
                spelling
            }
        }
    }

    /// Stores the part of a reply that is not a number.
    #[inline(always)]
    fn keep(&mut self, reply: Result<Answer<ItemQueue>, Refusal>)
        ensures kept { self.new.kept ≡ self.old.kept }
        ensures taken { self.new.taken ≡ taken_after reply self.old.taken }
        ensures token { self.new.token ≡ token_after reply self.old.token }
    {
        match reply {
            Ok(Answer::Queue(queue)) => self.taken = queue,
            Ok(Answer::Retire(Some((_, token)))) => self.token = token,
            _ => {}
        }
    }

    /// Makes a call of a sender; an error if there is none.
    #[inline(always)]
    pub fn call_sender(&mut self, alloc: Global, call: Call, ranges: &[AckRange]) -> EncodedReply
        ensures { AsksStack call ranges.now self.old result self.new }
    {
        self.kept.call_sender(alloc, call, ranges)
    }

    /// Processes an ACK frame of a sender; an error if there is none.
    #[inline(always)]
    pub fn take_ack(&mut self, alloc: Global, frame: TakenAck, ranges: &[AckRange]) -> EncodedReply
        ensures { AsksStack (TakeAck frame) ranges.now self.old result self.new }
    {
        self.kept.take_ack(alloc, frame, ranges)
    }

    /// Takes the contents of a sender's probe; an error if there is no sender.
    pub fn probe(&mut self, space: SpaceId, immediate_ack: bool) -> EncodedReply
        ensures { ProbesStack space immediate_ack self.old result self.new }
    {
        match self.kept.probe(space, immediate_ack) {
            Ok(queue) => {
                self.taken = queue;
                EncodedReply::plain(ANSWER_QUEUE)
            }
            Err(refused) => refused,
        }
    }
}
