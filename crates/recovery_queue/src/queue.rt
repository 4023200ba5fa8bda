//! Retransmission queues.
ghost use Rattle.std.specs.Prelude.{◌≡◌, IsTrue, OnOk, OnErr, IfErr};
ghost use Rattle.recovery_queue.specs.Queues.{QueueSemantics, QueueLaws, IsVoid};

use std::alloc::Global;

/// The contents of a packet, which are retransmitted if it is lost (RFC 9000, 13.3). An application writes its own
/// queue.
///
/// An implementation defines by functions of its own (`words`) what each call does to its value in contracts
/// (`contents`), and proves the laws. Joining the empty contents on either side changes nothing, and `is_empty` is true
/// of them.
pub trait RetransmitQueue: Sized + Drop {
    /// What `is_empty` is passed in addition to the queue, such as the streams whose data it has.
    type Streams: Drop;

    /// What the caller stores about a packet in addition to its contents.
    type Meta: Default + Drop;

    /// The type of a queue in contracts. No code makes a value of it.
    type Contents;

    ghost contents: { Self → Self.Contents };

    /// What each call does to the contents.
    ghost words: { QueueSemantics Self.Contents Self.Streams };

    /// What is stored about a packet if the caller stores nothing: every default value is this one.
    ghost blank: { Self.Meta };

    /// Returns an empty queue. It does not allocate; the allocator is for later items.
    fn empty(alloc: Global) -> Self
        ensures { contents result ≡ words.empty };

    /// Returns whether nothing is to be sent.
    fn is_empty(&self, streams: &Self::Streams) -> bool
        ensures { result ≡ words.is_empty (contents self.now) streams.now };

    /// Returns whether nothing is to be sent, whatever streams `is_empty` is passed. An implementation may always
    /// return `false`: then each probe examines the queue again, while one that is known to be void is passed over
    /// once.
    fn is_void(&self) -> bool
        ensures { IsTrue result → IsVoid words (contents self.now) }
    {
        false
    }

    /// Appends the contents of another queue, such as that of a lost packet.
    ///
    /// If an allocation fails, `Err` returns the other queue unchanged, and leaves this one unchanged.
    fn append(&mut self, other: Self) -> Result<(), Self>
        ensures ok { OnOk result
            (contents self.new ≡ words.joined (contents self.old) (contents other)) }
        ensures err { OnErr result (contents self.new ≡ contents self.old) }
        ensures back { IfErr result (λ queue. contents queue ≡ contents other) };

    /// Joining the empty contents changes nothing, and they are empty for all streams.
    ghost laws: { QueueLaws words };

    /// Every default value is `blank`.
    ghost is_blank: { (meta : Self.Meta) → Self.Meta.is_default meta → meta ≡ blank };
}
