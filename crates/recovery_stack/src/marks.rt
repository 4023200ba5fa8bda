//! The caller's marks of a path (RFC 9000, 8.2 and 13.4; RFC 9002, 7.6). The caller reads and sets them; no event
//! changes them.
ghost use Rattle.std.specs.Prelude.{◌≡◌, None};
ghost use Rattle.recovery_history.specs.CallerState.{marks_at};
ghost use Rattle.recovery_stack.specs.Answers.{ReadsHandle};
ghost use Rattle.recovery_stack.specs.Codes.{path_coded};
ghost use Rattle.recovery_engine.specs.Kept.{parts_kept};
ghost use Rattle.recovery_stack.specs.Marks.{first_of, marks_given, marks_shown, MarksStack, SetsMarks};

use crate::codes::{maybe, path_coded, space_coded};
use crate::handle::Handle;
use crate::stack::{ItemPath, Stack};
use recovery_base::below::SpaceId;
use recovery_engine::spelling::space_number;
use recovery_paths::path_pair::PathName;
use recovery_paths::paths::PathMarks;
use recovery_paths::responses::PathResponses;
use std::alloc::Global;

/// The caller's marks of a path, except its PATH_RESPONSE frames.
#[repr(C)]
#[derive(Clone, Copy)]
pub struct Marks {
    /// The data of its PATH_CHALLENGE frame, if one was sent (RFC 9000, 8.2.1).
    pub challenge: u64,
    /// The number of the first packet that was sent after an RTT sample (RFC 9002, 7.6.2), if any.
    pub first_number: u64,
    /// The space of that packet.
    pub first_space: u8,
    /// Whether a PATH_CHALLENGE frame was sent.
    pub has_challenge: bool,
    /// Whether a packet was sent after an RTT sample.
    pub has_first: bool,
    /// Whether a PATH_CHALLENGE frame is to be sent.
    pub challenge_pending: bool,
    /// Whether packets are marked on the path (RFC 9000, 13.4).
    pub sending_ecn: bool,
    /// Whether there is such a path; if not, all else is 0. Ignored if marks are set.
    pub lives: bool,
}

/// Returns the first packet that was sent after an RTT sample, if any. Marks whose packet has no valid space are
/// invalid.
fn first_of(given: &Marks) -> Option<Option<(SpaceId, u64)>>
    ensures { result ≡ first_of given.now }
{
    if !given.has_first {
        return Some(None);
    }
    let space = space_coded(given.first_space)?;
    Some(Some((space, given.first_number)))
}

fn marks_of(given: &Marks) -> Option<PathMarks>
    ensures { result ≡ marks_given given.now }
{
    let first_packet_after_rtt_sample = first_of(given)?;
    Some(PathMarks {
        sending_ecn: given.sending_ecn,
        challenge: maybe(given.has_challenge, given.challenge),
        challenge_pending: given.challenge_pending,
        path_responses: PathResponses::new(),
        first_packet_after_rtt_sample,
    })
}

impl Marks {
    /// Returns the marks if there is no such path.
    fn none() -> Marks
        ensures { result ≡ marks_shown None }
    {
        Marks {
            challenge: 0,
            first_number: 0,
            first_space: 0,
            has_challenge: false,
            has_first: false,
            challenge_pending: false,
            sending_ecn: false,
            lives: false,
        }
    }

    fn of(path: &ItemPath) -> Marks
        ensures { result ≡ marks_shown (Some path.now.marks) }
    {
        let (first_space, first_number) = match path.first_packet_after_rtt_sample {
            Some((space, number)) => (space_number(space), number),
            None => (0, 0),
        };
        Marks {
            challenge: path.challenge.unwrap_or(0),
            first_number,
            first_space,
            has_challenge: path.challenge.is_some(),
            has_first: path.first_packet_after_rtt_sample.is_some(),
            challenge_pending: path.challenge_pending,
            sending_ecn: path.sending_ecn,
            lives: true,
        }
    }
}

impl Stack {
    fn marks(&self, previous: bool) -> Marks
        ensures { let parts = parts_kept self.now.kept in
            result ≡ marks_shown (marks_at (path_coded previous) parts) }
    {
        match path_coded(previous) {
            PathName::Current => Marks::of(self.recovery().current()),
            PathName::Previous => match self.recovery().previous() {
                Some(path) => Marks::of(path),
                None => Marks::none(),
            },
        }
    }

    fn set_marks(&mut self, previous: bool, marks: PathMarks) -> bool
        ensures { MarksStack (path_coded previous) marks result self.old self.new }
    {
        self.kept.set_marks(path_coded(previous), marks)
    }
}

impl Handle {
    /// Returns the caller's marks of a path.
    pub fn marks(&mut self, alloc: Global, previous: bool) -> Marks
        ensures { ReadsHandle self.old.slot.held self.new.slot.held (λ stack.
            let parts = parts_kept stack.kept in
            result ≡ marks_shown (marks_at (path_coded previous) parts))
            (result ≡ marks_shown None) }
    {
        let Some(stack) = self.take(alloc) else {
            return Marks::none();
        };
        let marks = stack.marks(previous);
        self.put(stack);
        marks
    }

    /// Stores the caller's marks of a path. Returns false and changes nothing if there is no such path or no such
    /// space, or if a sender is held: a sender sets its marks itself.
    pub fn set_marks(&mut self, alloc: Global, previous: bool, marks: &Marks) -> bool
        ensures { SetsMarks (path_coded previous) (marks_given marks.now) result
            self.old.slot.held self.new.slot.held }
    {
        let Some(marks) = marks_of(marks) else {
            return false;
        };
        let Some(mut stack) = self.take(alloc) else {
            return false;
        };
        let is_set = stack.set_marks(previous, marks);
        self.put(stack);
        is_set
    }
}
