//! The caller's marks of a path (RFC 9000, 8.2 and 13.4; RFC 9002, 7.6). The caller reads and sets them; no event
//! changes them.
ghost use Rattle.std.specs.Prelude.{◌≡◌, None};
ghost use Rattle.recovery_history.specs.CallerState.{marks_at};
ghost use Rattle.recovery_stack.specs.Answers.{ReadsHandle};
ghost use Rattle.recovery_stack.specs.Codes.{path_coded};
ghost use Rattle.recovery_engine.specs.Kept.{parts_kept};
ghost use Rattle.recovery_stack.specs.Marks.{marks_given, marks_shown, SetsMarks};

use recovery_stack::handle::Handle;
use recovery_stack::marks::Marks;
use std::alloc::Global;

/// Returns the caller's marks of a path.
#[unsafe(no_mangle)]
pub extern "C" fn recovery_ffi_marks(alloc: Global, handle: &mut Handle, previous: bool) -> Marks
    ensures { ReadsHandle handle.old.slot.held handle.new.slot.held (λ stack.
        let parts = parts_kept stack.kept in
        result ≡ marks_shown (marks_at (path_coded previous) parts)) (result ≡ marks_shown None) }
{
    handle.marks(alloc, previous)
}

/// Stores the caller's marks of a path. Returns false and changes nothing if there is no such path or no such
/// space, or if a sender is held: a sender sets its marks itself.
#[unsafe(no_mangle)]
pub extern "C" fn recovery_ffi_set_marks(
    alloc: Global,
    handle: &mut Handle,
    previous: bool,
    marks: &Marks,
) -> bool
    ensures { SetsMarks (path_coded previous) (marks_given marks.now) result
        handle.old.slot.held handle.new.slot.held }
{
    handle.set_marks(alloc, previous, marks)
}
