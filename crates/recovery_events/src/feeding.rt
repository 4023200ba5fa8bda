//! Traits for a source and a sink of items, one at a time, so that a run stores no list of them.
//!
//! A source gives events to a run, which passes its replies to a sink. The run itself is a sink of events. A list is
//! both a source and a sink.
ghost use Rattle.std.specs.Prelude.{◌≡◌, List};
ghost use Rattle.recovery_events.specs.Feeding.{Feeds, PushesInto};

use std::mem;

/// Takes items, one at a time.
pub trait Sink<T> {
    /// Relates the sink before, an item that it takes, and the sink after.
    ghost takes: { Self → T → Self → Type 0 };

    /// Takes an item. Returns whether it asks for another one.
    fn put(&mut self, item: T) -> bool
        ensures { takes self.old item self.new };
}

/// What gives items, one at a time.
pub trait Source<T> {
    /// Relates the source before, the items that it gives, in order, and the source after, which also records how it
    /// ended.
    ghost gives: { Self → List T → Self → Type 0 };

    /// Passes items to the sink, each before it makes the next one. May stop if the sink asks for no more.
    fn feed<S: Sink<T>>(&mut self, sink: &mut S)
        ensures { Feeds gives S.takes self.old self.new sink.old sink.new };
}

/// A list gives all its items, whatever the sink asks for.
impl<T: Drop> Source<T> for Vec<T> {
    ghost gives = { λ old items new. items ≡ old.items };

    fn feed<S: Sink<T>>(&mut self, sink: &mut S) {
        let empty = Vec::new(*self.allocator());
        let items = mem::replace(self, empty);
        for item in items {
            sink.put(item);
        }
    }
}

/// A list takes items within its capacity, and drops the others. It does not allocate.
impl<T: Drop> Sink<T> for Vec<T> {
    ghost takes = { λ old item new. PushesInto old item new };

    fn put(&mut self, item: T) -> bool {
        if self.len() == self.capacity() {
            return false;
        }
        self.push_reserved(item);
        true
    }
}
