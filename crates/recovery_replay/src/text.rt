//! The lines of the replies, as replies are given.
ghost use Rattle.std.specs.Prelude.{◌≡◌, [], true, IfOk, string_bytes};
ghost use Rattle.recovery_replay.specs.Text.{TakesLine};

use recovery_base::below::NoMemory;
use recovery_events::event::{Answer, Refusal};
use recovery_events::feeding::Sink;
use recovery_queue::items::ItemQueue;
use recovery_script_syntax::answers::write_reply;
use std::alloc::Global;

/// The lines of the replies so far. Once an allocation failed for one it asks for no more.
#[derive(Drop)]
pub struct AnswerText {
    text: String,
    /// Whether every line could be allocated.
    whole: bool,
}

impl AnswerText {
    /// Returns an empty text.
    pub fn new(alloc: Global) -> Self
        ensures text { string_bytes result.text ≡ [] }
    {
        AnswerText {
            text: String::new(alloc),
            whole: true,
        }
    }

    /// Returns the lines of all replies, or `NoMemory` if an allocation failed for one.
    pub fn into_text(self) -> Result<String, NoMemory>
        ensures { IfOk result (λ text.
            (self.whole ≡ true) × (string_bytes text ≡ string_bytes self.text)) }
    {
        if !self.whole {
            return Err(NoMemory);
        }
        Ok(self.text)
    }
}

impl Sink<Result<Answer<ItemQueue>, Refusal>> for AnswerText {
    ghost takes = { λ old reply new. TakesLine old.text old.whole reply new.text new.whole };

    #[inline(always)]
    fn put(&mut self, item: Result<Answer<ItemQueue>, Refusal>) -> bool {
        let whole = self.whole && write_reply(&mut self.text, &item).is_ok();
        self.whole = whole;
        whole
    }
}
