//! The peer's IDs, to which packets may be sent.
ghost use Rattle.std.specs.Prelude.{◌≡◌, ℕ, ◌+◌, ◌<◌, ◌≤◌, ◌==◌, Some, None, IsSome, IfSome, IfOk, OnOk, OnErr, IfNone, IsSomeAnd, MatchOption, MatchResult, Decides, length, if◌then◌else◌};
ghost use Rattle.recovery_base.specs.Units.{number_limit};
ghost use Rattle.recovery_ids.specs.CidQueue.{held, active_of, remote_ids};
ghost use Rattle.recovery_ids.specs.RemoteIds.{AcceptsFrame, RefusesFrame, RepeatsFrame, MovesToNext, IsRetirement, AreInWindow, with_id, items_from, active_connection_id_limit};
ghost use Rattle.recovery_ids.specs.RemoteStep.{RemoteStep, given, used, replaced, initial_ids};
ghost use Rattle.recovery_ids.specs.Window.{held_at, Advances, IsWindowSound};

use crate::iter::{self, CidIter};
use crate::window::{self, CidData, Window};
use recovery_base::below::{ConnectionId, NewConnectionId, ResetToken};
use std::marker::Model;
use std::ops::Range;
use thiserror::Error;

/// The IDs that the peer issued and that are held, at most `LEN`. The one with the smallest number is active (RFC 9000,
/// 5.1.1). The initial ID has number 0 and no token.
///
/// In contracts its value is the entry of each number, and the active number.
///
/// ```
/// let mut queue = CidQueue::new(ConnectionId::new(&[0; 8]));
/// let frame = NewConnectionId {
///     sequence: 1,
///     retire_prior_to: 0,
///     id: ConnectionId::new(&[1; 8]),
///     reset_token: ResetToken::from([1; 16]),
/// };
/// assert!(&rt; matches!(queue.insert(frame), Ok(None)));
/// // Another ID is used from now on: send RETIRE_CONNECTION_ID for number 0.
/// match queue.next() {
///     Some((_, range)) => assert!(&rt; range.start == 0 && range.end == 1),
///     None => panic!(&rt; "no ID is held"),
/// }
/// assert!(&rt; queue.active_seq() == 1);
/// ```
#[derive(Drop)]
pub struct CidQueue {
    window: Window,
}

impl Model for CidQueue {
    ghost use Rattle.recovery_ids.specs.declared.window.Window.{Window};
    ghost use Rattle.recovery_ids.specs.Window.{IsWindowSound};

    ghost Value = { Window };

    ghost view = { λ queue. queue.window };

    ghost invariant = { λ queue. IsWindowSound queue.window };

    ghost inverse = { λ window. record { window = window } };
}

/// Why an ID of the peer is rejected.
#[derive(Clone, Copy, Debug, PartialEq, Eq, Error)]
pub enum InsertError {
    /// The number is below the active one.
    #[error("the connection ID is already retired")]
    Retired,
    /// The number is above the window.
    #[error("the connection ID exceeds the limit")]
    ExceedsLimit,
    /// The number is held with another ID, or with another token.
    #[error("the connection ID conflicts with the stored one")]
    Conflict,
}

impl CidQueue {
    /// The most IDs that are held.
    pub const LEN: usize = window::LEN;

    /// Returns a queue that holds only the initial ID, as number 0 and without a token.
    pub fn new(cid: ConnectionId) -> Self
        ensures active { active_of result ≡ 0 }
        ensures ids { (n : ℕ) → held result n ≡ (if n == 0 then Some (cid, None) else None) }
        ensures window { AreInWindow (remote_ids result) }
        ensures limit { Self.LEN ≡ active_connection_id_limit }
        ensures first { remote_ids result ≡ initial_ids cid }
    {
        CidQueue {
            window: Window::new((cid, None)),
        }
    }

    /// Adds the ID of a NEW_CONNECTION_ID frame (RFC 9000, 19.15). It is accepted if its number is in the window, and
    /// if the frame repeats what is held for its number, if anything. The window has the `LEN` numbers that begin at
    /// the active number, or at the frame's retire-prior-to if that is larger. The frame must repeat the ID, and the
    /// token if one is held. The initial ID has none, so a frame for it brings one, which is stored. If the frame
    /// retires the active ID, the smallest number held becomes active. The answer then is the range of numbers to
    /// retire, at most `LEN` of them, with the new active ID's token.
    ///
    /// An error changes nothing: `Retired` below the active number, `ExceedsLimit` above the window, `Conflict` if the
    /// number is held with another ID or another token.
    #[inline(always)]
    pub fn insert(
        &mut self,
        cid: NewConnectionId,
    ) -> Result<Option<(Range<u64>, ResetToken)>, InsertError>
        requires ordered { cid.retire_prior_to ≤ cid.sequence }
        requires small { cid.sequence < number_limit }
        ensures reply { MatchResult result
            (λ answer. AcceptsFrame (remote_ids self.old) cid answer (remote_ids self.new))
            (RefusesFrame (remote_ids self.old) cid) }
        ensures err { OnErr result (self.new ≡ self.old) }
        ensures range { IfOk result (λ answer. IfSome answer
            (λ told. IsRetirement (remote_ids self.old) told.0 (remote_ids self.new))) }
        ensures step { OnOk result
            (RemoteStep (given cid) (remote_ids self.old) (remote_ids self.new)) }
        ensures window { AreInWindow (remote_ids self.new) }
    {
        let active = self.window.start();
        let low = active.max(cid.retire_prior_to);
        if cid.sequence < active {
            return Err(InsertError::Retired);
        }
        if cid.sequence - low >= Self::LEN as u64 {
            return Err(InsertError::ExceedsLimit);
        }
        if !repeats(&cid, self.window.get(cid.sequence)) {
            return Err(InsertError::Conflict);
        }
        self.window.drop_below(low);
        self.window
            .set(cid.sequence, (cid.id, Some(cid.reset_token)));
        if low == active {
            return Ok(None);
        }
        match advance(&mut self.window, low) {
            // Numbers above the old window were never held. A frame that brings one later is rejected, and its number
            // retired then, so that no frame makes the local endpoint retire more than a window at once.
            Some(token) => {
                let end = self.window.start().min(active + Self::LEN as u64);
                Ok(Some((active..end, token)))
            }
            None => unreachable!(),
        }
    }

    /// Drops the active ID and moves to the next one that is held. Returns its token, and the numbers to retire.
    /// Returns `None` and changes nothing if no other ID is held.
    #[inline(always)]
    pub fn next(&mut self) -> Option<(ResetToken, Range<u64>)>
        ensures moves { MatchOption result
            ((n : ℕ) → active_of self.old < n → held self.old n ≡ None)
            (λ told. MovesToNext (remote_ids self.old) told.0 told.1 (remote_ids self.new)) }
        ensures none { IfNone result (self.new ≡ self.old) }
        ensures range { IfSome result
            (λ told. IsRetirement (remote_ids self.old) told.1 (remote_ids self.new)) }
        ensures step { RemoteStep used (remote_ids self.old) (remote_ids self.new) }
        ensures window { AreInWindow (remote_ids self.new) }
    {
        let retired = self.window.start();
        let token = advance(&mut self.window, retired + 1)?;
        Some((token, retired..self.window.start()))
    }

    /// Replaces the initial ID while it is active, as a server may (RFC 9000, 7.2). It has no token.
    pub fn update_initial_cid(&mut self, cid: ConnectionId)
        requires { active_of self.old ≡ 0 }
        ensures active { active_of self.new ≡ 0 }
        ensures ids { (n : ℕ) → held self.new n ≡ with_id 0 (cid, None) (held self.old) n }
        ensures step { RemoteStep (replaced cid) (remote_ids self.old) (remote_ids self.new) }
        ensures window { AreInWindow (remote_ids self.new) }
    {
        self.window.set(0, (cid, None));
    }

    /// Returns the IDs held, each with its distance from the active number: the active one first, at most `LEN`.
    pub fn iter(&self) -> CidIter<'_>
        ensures items { result ≡ items_from 0 (remote_ids self.now) }
        ensures few { length result ≤ Self.LEN }
    {
        iter::items(&self.window)
    }

    /// Returns the active ID.
    pub fn active(&self) -> ConnectionId
        ensures id { IsSomeAnd (held self.now (active_of self.now)) (λ entry. entry.0 ≡ result) }
    {
        match self.window.get(self.window.start()) {
            Some((cid, _token)) => cid,
            None => unreachable!(),
        }
    }

    /// Returns the number of the active ID.
    pub fn active_seq(&self) -> u64
        ensures number { result ≡ active_of self.now }
        ensures bound { result < number_limit }
        ensures window { AreInWindow (remote_ids self.now) }
    {
        self.window.start()
    }
}

/// Returns whether a frame repeats what is held for its number, if anything: the ID, and the token if one is held.
fn repeats(frame: &NewConnectionId, held: Option<CidData>) -> bool
    ensures { Decides result (RepeatsFrame frame.now (λ n. held)) }
{
    match held {
        Some((id, token)) => is_same_id(&frame.id, &id) && is_same_token(&frame.reset_token, token),
        None => true,
    }
}

/// Returns whether two IDs have the same bytes.
fn is_same_id(one: &ConnectionId, other: &ConnectionId) -> bool
    ensures { Decides result (one.now ≡ other.now) }
{
    one == other
}

/// Returns whether a token is the one held, if one is held.
fn is_same_token(given: &ResetToken, held: Option<ResetToken>) -> bool
    ensures { Decides result (IfSome held (λ token. given.now ≡ token)) }
{
    held.is_none_or(|token| *given == token)
}

/// Moves to the smallest number held, not below another, if there is one, and returns its token.
fn advance(window: &mut Window, low: u64) -> Option<ResetToken>
    requires ahead { window.old.start ≤ low }
    requires small { window.old.start < number_limit }
    requires tokens { (n : ℕ) → low ≤ n → IfSome (held_at window.old n) (λ entry. IsSome entry.1) }
    requires numbers { (n : ℕ) → IsSome (held_at window.old n) → n < number_limit }
    ensures sound { IfSome result (λ _. IsWindowSound window.new) }
    ensures moves { MatchOption result ((n : ℕ) → low ≤ n → held_at window.old n ≡ None)
        (λ token. Advances window.old low token window.new) }
    ensures none { IfNone result (window.new ≡ window.old) }
{
    let number = window.least_from(low)?;
    let (_cid, token) = window.get(number).unwrap();
    window.drop_below(number);
    token
}
