//! Laws of lines that no call states: an event is encoded in one way.
ghost use Rattle.std.specs.Prelude.{◌≤◌, ℕ, List, length};
ghost use Rattle.std.specs.List.{join_with_byte};
ghost use Rattle.recovery_script_syntax.specs.Lines.{ItemEvent, encoding_of, IsWithinTypes, EncodesEvent, IsSameEvent};

/// Proves that a line encodes at most one event.
pub fn one_event()
    ensures { (line : List ℕ) (first second : ItemEvent)
        → EncodesEvent line first → EncodesEvent line second → IsSameEvent first second }
{}

/// Proves that the words that encode an event, joined by single spaces, are a line that encodes it.
pub fn one_line()
    ensures { (unkept : ℕ) (event : ItemEvent) →
        let line = join_with_byte 32 (encoding_of unkept event) in
        IsWithinTypes unkept event → length line ≤ 4096 → EncodesEvent line event }
{}
