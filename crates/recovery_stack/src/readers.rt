//! Readings of a handle: paths, spaces, ranges to be acknowledged, timers, connection IDs, and the last results. If the
//! handle holds none, each returns its empty value.
ghost use Rattle.std.specs.Prelude.{◌≡◌, slice_get, replicate, Decides, IsFalse, None};
ghost use Rattle.recovery_base.specs.Ids.{reset_token_size};
ghost use Rattle.recovery_ids.specs.LocalIds.{first_moment};
ghost use Rattle.recovery_paths.specs.PathLog.{path_of};
ghost use Rattle.recovery_stack.specs.Answers.{ReadsHandle};
ghost use Rattle.recovery_stack.specs.Codes.{path_coded};
ghost use Rattle.recovery_engine.specs.Kept.{parts_kept};
ghost use Rattle.recovery_engine.specs.Replies.{IsWritten};
ghost use Rattle.recovery_stack.specs.Views.{path_view, no_path, moment_shown, moment_named, ack_delay_named, ids_shown, no_ids, range_shown, ranges_in, no_space, space_named, IsSpaceShown};

use crate::codes::copy_items;
use crate::handle::Handle;
use crate::views::{IdsView, PathView, RangeView, SpaceView, TimeView};
use recovery_base::time::Instant;
use std::alloc::Global;

impl Handle {
    /// Returns the state of a path.
    pub fn path(&mut self, alloc: Global, previous: bool) -> PathView
        ensures { ReadsHandle self.old.slot.held self.new.slot.held (λ stack.
            let paths = (parts_kept stack.kept).paths in
            result ≡ path_view (path_of (path_coded previous) paths)) (result ≡ no_path) }
    {
        let Some(stack) = self.take(alloc) else {
            return PathView::none();
        };
        let view = stack.path(previous);
        self.put(stack);
        view
    }

    /// Returns what a space has to send. A space that does not exist is read as a discarded one.
    pub fn space(&mut self, alloc: Global, space: u8) -> SpaceView
        ensures { ReadsHandle self.old.slot.held self.new.slot.held (λ stack.
            IsSpaceShown (space_named space (parts_kept stack.kept)) result)
            (result ≡ no_space) }
    {
        let Some(stack) = self.take(alloc) else {
            return SpaceView::none();
        };
        let view = stack.space(space);
        self.put(stack);
        view
    }

    /// Returns one of the ranges of packet numbers to be acknowledged in a space, in ascending order.
    pub fn range(&mut self, alloc: Global, space: u8, index: usize) -> RangeView
        ensures { ReadsHandle self.old.slot.held self.new.slot.held (λ stack.
            let kept = space_named space (parts_kept stack.kept) in
            result ≡ range_shown (slice_get (ranges_in kept) index)) (result ≡ range_shown None) }
    {
        let Some(stack) = self.take(alloc) else {
            return RangeView::of(None);
        };
        let view = stack.range(space, index);
        self.put(stack);
        view
    }

    /// Returns how long ago the largest packet of a space was received, for the ACK Delay of an ACK frame (RFC 9000,
    /// 13.2.5).
    pub fn ack_delay(&mut self, alloc: Global, space: u8, now: u64) -> TimeView
        ensures { ReadsHandle self.old.slot.held self.new.slot.held (λ stack.
            result ≡ ack_delay_named space now (parts_kept stack.kept))
            (result ≡ moment_shown None) }
    {
        let Some(stack) = self.take(alloc) else {
            return TimeView::of(None);
        };
        let view = stack.ack_delay(space, Instant::from_nanos(now));
        self.put(stack);
        view
    }

    /// Returns when a timer expires.
    pub fn timer(&mut self, alloc: Global, timer: u8) -> TimeView
        ensures { ReadsHandle self.old.slot.held self.new.slot.held (λ stack.
            let timers = (parts_kept stack.kept).timers in
            result ≡ moment_named timer timers) (result ≡ moment_shown None) }
    {
        let Some(stack) = self.take(alloc) else {
            return TimeView::of(None);
        };
        let view = stack.timer(timer);
        self.put(stack);
        view
    }

    /// Returns the connection IDs of both endpoints, and their max_ack_delay.
    pub fn ids(&mut self, alloc: Global) -> IdsView
        ensures { ReadsHandle self.old.slot.held self.new.slot.held (λ stack.
            result ≡ ids_shown (parts_kept stack.kept)) (result ≡ no_ids) }
    {
        let Some(stack) = self.take(alloc) else {
            return IdsView::none();
        };
        let view = stack.ids();
        self.put(stack);
        view
    }

    /// Returns when the oldest of the local connection IDs is to be retired (RFC 9000, 5.1.2), if they expire.
    pub fn next_id_timeout(&mut self, alloc: Global) -> TimeView
        ensures { ReadsHandle self.old.slot.held self.new.slot.held (λ stack.
            let ids = (parts_kept stack.kept).local_ids in
            result ≡ moment_shown (first_moment ids.deadlines)) (result ≡ moment_shown None) }
    {
        let Some(stack) = self.take(alloc) else {
            return TimeView::of(None);
        };
        let view = stack.next_id_timeout();
        self.put(stack);
        view
    }

    /// Returns the item count of the queue that was taken last, and writes the items if there is room for all.
    pub fn taken(&mut self, alloc: Global, out: &mut [u64]) -> usize
        ensures { ReadsHandle self.old.slot.held self.new.slot.held
            (λ stack. IsWritten stack.taken out.old result out.new)
            ((result ≡ 0) × (out.new ≡ out.old)) }
    {
        let Some(stack) = self.take(alloc) else {
            return 0;
        };
        let count = copy_items(&stack.taken, out);
        self.put(stack);
        count
    }

    /// Writes the bytes of the token that was returned last; all zeros before the first.
    pub fn token(&mut self, alloc: Global, out: &mut [u8; 16])
        ensures { ReadsHandle self.old.slot.held self.new.slot.held
            (λ stack. out.new ≡ stack.token) (out.new ≡ replicate reset_token_size 0) }
    {
        let Some(stack) = self.take(alloc) else {
            *out = [0; 16];
            return;
        };
        let bytes = stack.token_bytes();
        *out = bytes;
        self.put(stack);
    }

    /// Returns whether this is the token that was returned last.
    pub fn is_token(&mut self, alloc: Global, token: &[u8; 16]) -> bool
        ensures { ReadsHandle self.old.slot.held self.new.slot.held
            (λ stack. Decides result (stack.token ≡ token.now)) (IsFalse result) }
    {
        let Some(stack) = self.take(alloc) else {
            return false;
        };
        let is = stack.is_token(token);
        self.put(stack);
        is
    }
}
