//! The IDs that the local endpoint issued.
ghost use Rattle.std.specs.Prelude.{◌≡◌, ℕ, List, ◌+◌, ◌-◌, ◌<◌, ◌≤◌, ◌==◌, nat_lt, [], ◌++◌, length, map, filter, drop, not, IsOk, IfOk, OnOk, OnErr, MatchResult};
ghost use Rattle.std.specs.List.{list_any, range_with_len};
ghost use Rattle.std.specs.VecDeque.{deque_len, deque_capacity};
ghost use Rattle.recovery_base.specs.Units.{number_limit};
ghost use Rattle.recovery_ids.specs.LocalIds.{without_last_at, with_deadline, deadlines_with_last, next_mark, no_ids, with_issued, holds_unretired, timed_out, first_moment, RefusesRetirement, AcceptsRetirement, AreIncreasingWithin, AreSoundIds};
ghost use Rattle.recovery_ids.specs.CidState.{numbers_in};

use recovery_base::below::{IssuedCid, NoMemory, TransportError};
use recovery_base::time::{Duration, Instant};
use recovery_queue::slots::SlotQueue;
use std::alloc::Global;
use std::collections::VecDeque;
use std::marker::Model;
use thiserror::Error;

/// A deadline at which the numbers up to one are to be retired.
#[derive(Clone, Copy)]
struct CidTimestamp {
    sequence: u64,
    timestamp: Instant,
}

/// The IDs that the local endpoint issued: which of them the peer did not retire, and when to ask it to (RFC 9000,
/// 5.1.2). The numbers begin at 0 and have no gaps.
///
/// The memory grows with the numbers that are not retired, however far they are apart, and with the deadlines, of which
/// each batch with the same time has one. A number has a slot of 16 bytes; there are at most two slots for each number
/// and 64 more.
///
/// ```
/// let (now, life) = (Instant::from_nanos(0), Duration::from_secs(10));
/// let Ok(mut ids) = CidState::new(rt.alloc(), 8, Some(life), now, 2) else {
///     panic!(&rt; "NoMemory");
/// };
/// assert!(&rt; ids.next_timeout() == Some(Instant::from_nanos(10_000_000_000)));
/// // The peer retires number 0, and accepts 2 IDs: one more may be issued.
/// assert!(&rt; matches!(ids.on_cid_retirement(0, 2), Ok(true)));
/// ```
#[derive(Drop)]
pub struct CidState {
    /// Deadlines, the oldest first.
    retire_timestamp: VecDeque<CidTimestamp>,
    /// How many IDs were issued.
    issued: u64,
    /// The numbers that the peer did not retire.
    active_seq: SlotQueue<()>,
    /// The peer retired all numbers below.
    prev_retire_seq: u64,
    /// The peer is asked to retire all numbers below.
    retire_seq: u64,
    cid_len: usize,
    cid_lifetime: Option<Duration>,
}

impl Model for CidState {
    ghost use Rattle.recovery_ids.specs.LocalIds.{LocalIds, AreSoundIds};

    ghost Value = { LocalIds };

    ghost use Rattle.recovery_ids.specs.CidState.{local_ids};

    ghost view = { local_ids };

    ghost invariant = { λ state. AreSoundIds (local_ids state) };
}

/// Why a retirement by the peer is rejected (RFC 9000, 19.16).
#[derive(Clone, Copy, Debug, Error)]
pub enum RetireError {
    /// The local endpoint uses zero-length IDs, which cannot be retired.
    #[error("RETIRE_CONNECTION_ID when CIDs aren't in use")]
    CidsNotInUse,
    /// The number was not issued.
    #[error("RETIRE_CONNECTION_ID for unissued sequence number")]
    UnissuedCid,
}

impl From<RetireError> for TransportError {
    ghost use Rattle.std.specs.Prelude.{◌≡◌};
    ghost use Rattle.recovery_base.specs.Errors.{protocol_violation};
    ghost use Rattle.recovery_ids.specs.LocalIds.{retire_text};

    // It is a protocol violation, with the error's text.
    ghost from_gives = { λ error transport. (transport.code ≡ protocol_violation)
        × (transport.reason.now ≡ retire_text error) };

    fn from(error: RetireError) -> Self {
        match error {
            RetireError::CidsNotInUse => TransportError::PROTOCOL_VIOLATION(
                "RETIRE_CONNECTION_ID when CIDs aren't in use",
            ),
            RetireError::UnissuedCid => TransportError::PROTOCOL_VIOLATION(
                "RETIRE_CONNECTION_ID for unissued sequence number",
            ),
        }
    }
}

impl CidState {
    /// Returns a state in which the numbers 0 to `issued - 1` are issued and not retired, with a deadline one lifetime
    /// from `now`. Without a lifetime, or if the deadline would exceed the clock's range, no deadline is stored.
    ///
    /// Fails with `NoMemory` if there is no room, which is requested at once: 16 bytes a number, so nothing is
    /// allocated for a count that exceeds the memory. If none is issued, nothing is allocated. Cost: linear in the
    /// count.
    pub fn new(
        alloc: Global,
        cid_len: usize,
        cid_lifetime: Option<Duration>,
        now: Instant,
        issued: u64,
    ) -> Result<Self, NoMemory>
        requires { issued ≤ number_limit }
        ensures ids { IfOk result
            (λ ids. ids ≡ with_issued issued now (no_ids cid_len cid_lifetime)) }
        ensures memory { OnErr result (0 < issued) }
        ensures sound { IfOk result AreSoundIds }
    {
        let mut active_seq = SlotQueue::new(alloc);
        let mut retire_timestamp = VecDeque::with_capacity(alloc, issued.min(1) as usize)?;
        issue(&mut active_seq, 0, issued)?;
        let lifetime = cid_lifetime;
        track_lifetime(&mut retire_timestamp, lifetime, issued, now);
        Ok(CidState {
            retire_timestamp,
            issued,
            active_seq,
            prev_retire_seq: 0,
            retire_seq: 0,
            cid_len,
            cid_lifetime,
        })
    }

    /// Returns the time of the oldest deadline, even if a later one has an earlier time.
    pub fn next_timeout(&self) -> Option<Instant>
        ensures { result ≡ first_moment self.now.deadlines }
    {
        self.retire_timestamp.front().map(|oldest| oldest.timestamp)
    }

    /// Removes the oldest deadline. If the peer retired all numbers below the last retire-prior-to, that becomes the
    /// deadline's number plus one. Returns whether the new one covers a number that is not retired yet, so that a
    /// NEW_CONNECTION_ID frame should be sent (RFC 9000, 5.1.2). Does not allocate. Constant cost.
    pub fn on_cid_timeout(&mut self) -> bool
        ensures after { self.new ≡ timed_out self.old }
        ensures answer { result
            ≡ holds_unretired self.old.retire_prior_to self.new.retire_prior_to self.new }
        ensures never_falls { self.old.retire_prior_to ≤ self.new.retire_prior_to }
        ensures sound { AreSoundIds self.new }
    {
        let next = pop_mark(&mut self.retire_timestamp, self.retire_seq);
        if is_any_below(&self.active_seq, self.retire_seq) {
            return false;
        }
        self.prev_retire_seq = self.retire_seq;
        self.retire_seq = next;
        is_any_below(&self.active_seq, next)
    }

    /// Records that these IDs are issued, and stores a deadline for the last of them, one lifetime from `now`. An empty
    /// list changes and allocates nothing.
    ///
    /// `NoMemory` changes nothing. Cost: linear in the IDs.
    pub fn new_cids(&mut self, ids: &[IssuedCid], now: Instant) -> Result<(), NoMemory>
        requires numbers { map (λ id. id.sequence) ids.now
            ≡ range_with_len self.old.issued (length ids.now) }
        requires small { self.old.issued + length ids.now ≤ number_limit }
        ensures ok { OnOk result (self.new ≡ with_issued (length ids.now) now self.old) }
        ensures err { OnErr result (self.new ≡ self.old) }
        ensures empty { ids.now ≡ [] → IsOk result }
        ensures sound { AreSoundIds self.new }
    {
        let issued = self.issued + ids.len() as u64;
        if ids.is_empty() {
            return Ok(());
        }
        self.retire_timestamp.reserve(1)?;
        issue(&mut self.active_seq, self.issued, issued)?;
        track_lifetime(&mut self.retire_timestamp, self.cid_lifetime, issued, now);
        self.issued = issued;
        Ok(())
    }

    /// Retires a number, as a RETIRE_CONNECTION_ID frame of the peer asks (RFC 9000, 19.16). Returns whether one more
    /// ID may be issued: whether `limit` exceeds the count of unretired numbers. A number that was retired before
    /// changes nothing.
    ///
    /// An error changes nothing: `CidsNotInUse` if the IDs have zero length, else `UnissuedCid` if the number was not
    /// issued.
    ///
    /// Does not allocate. Cost: logarithmic in the unretired numbers, amortized: slots are closed up once over 64 more
    /// of them are empty than filled.
    pub fn on_cid_retirement(&mut self, sequence: u64, limit: u64) -> Result<bool, RetireError>
        ensures reply { MatchResult result
            (λ more. AcceptsRetirement self.old sequence limit more self.new)
            (RefusesRetirement self.old sequence) }
        ensures err { OnErr result (self.new ≡ self.old) }
        ensures sound { AreSoundIds self.new }
    {
        if self.cid_len == 0 {
            return Err(RetireError::CidsNotInUse);
        }
        if sequence >= self.issued {
            return Err(RetireError::UnissuedCid);
        }
        remove(&mut self.active_seq, sequence);
        Ok(limit > self.active_seq.filled() as u64)
    }

    /// Returns the length of the local IDs in bytes.
    pub fn cid_len(&self) -> usize
        ensures { result ≡ self.now.cid_len }
    {
        self.cid_len
    }

    /// Returns the number below which the peer is asked to retire all IDs: the retire-prior-to of NEW_CONNECTION_ID
    /// frames.
    pub fn retire_prior_to(&self) -> u64
        ensures value { result ≡ self.now.retire_prior_to }
        ensures bound { result ≤ self.now.issued }
    {
        self.retire_seq
    }

    /// Returns how many IDs were issued.
    pub fn issued(&self) -> u64
        ensures value { result ≡ self.now.issued }
        ensures bound { result ≤ number_limit }
        ensures sound { AreSoundIds self.now }
    {
        self.issued
    }
}

/// Adds the numbers from `first` up to `end`, above all that are there. Room for all is requested at once, so that
/// nothing is allocated for a count that exceeds the memory. `NoMemory` changes nothing.
fn issue(numbers: &mut SlotQueue<()>, first: u64, end: u64) -> Result<(), NoMemory>
    requires ahead { first ≤ end }
    requires above { AreIncreasingWithin 0 first (numbers_in numbers.old) }
    ensures ok { OnOk result
        (numbers_in numbers.new ≡ numbers_in numbers.old ++ range_with_len first (end - first)) }
    ensures err { OnErr result (numbers_in numbers.new ≡ numbers_in numbers.old) }
    ensures memory { OnErr result (first < end) }
{
    numbers.reserve((end - first) as usize)?;
    for number in first..end {
        match numbers.push(number, ()) {
            Ok(()) => {}
            Err(_refused) => {
                take_back(numbers, first, number);
                return Err(NoMemory);
            }
        }
    }
    Ok(())
}

/// Removes the numbers from `first` up to `end`, which are the last.
fn take_back(numbers: &mut SlotQueue<()>, first: u64, end: u64)
    requires { first ≤ end }
    ensures { (before : List ℕ) → AreIncreasingWithin 0 first before
        → numbers_in numbers.old ≡ before ++ range_with_len first (end - first)
        → numbers_in numbers.new ≡ before }
{
    for number in first..end {
        let _taken = numbers.take(number);
    }
}

/// Stores a deadline for the last number issued, if there is one and a lifetime, and the deadline is in the clock's
/// range.
fn track_lifetime(
    deadlines: &mut VecDeque<CidTimestamp>,
    cid_lifetime: Option<Duration>,
    issued: u64,
    now: Instant,
)
    requires room { 0 < issued → deque_len deadlines.old < deque_capacity deadlines.old }
    ensures { deadlines.new.items
        ≡ deadlines_with_last cid_lifetime now issued deadlines.old.items }
{
    let Some(sequence) = issued.checked_sub(1) else {
        return;
    };
    let Some(lifetime) = cid_lifetime else {
        return;
    };
    let Some(timestamp) = now.checked_add(lifetime) else {
        return;
    };
    store(
        deadlines,
        CidTimestamp {
            sequence,
            timestamp,
        },
    );
}

/// Stores a deadline. It replaces the last one if their times are equal.
fn store(deadlines: &mut VecDeque<CidTimestamp>, deadline: CidTimestamp)
    requires room { deque_len deadlines.old < deque_capacity deadlines.old }
    ensures { deadlines.new.items ≡ with_deadline deadline deadlines.old.items }
{
    drop_last_at(deadlines, deadline.timestamp);
    deadlines.push_back_reserved(deadline);
}

/// Drops the last deadline if it has this time.
fn drop_last_at(deadlines: &mut VecDeque<CidTimestamp>, timestamp: Instant)
    ensures items { deadlines.new.items ≡ without_last_at timestamp deadlines.old.items }
    ensures len { deque_len deadlines.new ≤ deque_len deadlines.old }
    ensures capacity { deque_capacity deadlines.new ≡ deque_capacity deadlines.old }
{
    let Some(last) = deadlines.back() else {
        return;
    };
    if last.timestamp == timestamp {
        let _replaced = deadlines.pop_back();
    }
}

/// Removes the oldest deadline, and returns the mark after its number. Without a deadline the mark is unchanged.
fn pop_mark(deadlines: &mut VecDeque<CidTimestamp>, mark: u64) -> u64
    requires { AreIncreasingWithin 0 number_limit
        (map (λ deadline. deadline.sequence) deadlines.old.items) }
    ensures mark { result ≡ next_mark mark deadlines.old.items }
    ensures items { deadlines.new.items ≡ drop 1 deadlines.old.items }
{
    match deadlines.pop_front() {
        Some(oldest) => oldest.sequence + 1,
        None => mark,
    }
}

/// Returns whether one of the numbers is below another.
fn is_any_below(numbers: &SlotQueue<()>, end: u64) -> bool
    requires { AreIncreasingWithin 0 number_limit (numbers_in numbers.now) }
    ensures { result ≡ list_any (λ n. nat_lt n end) (numbers_in numbers.now) }
{
    match numbers.first_from(0) {
        Some(least) => least < end,
        None => false,
    }
}

/// Removes a number, if it is there.
fn remove(numbers: &mut SlotQueue<()>, number: u64)
    requires { AreIncreasingWithin 0 number_limit (numbers_in numbers.old) }
    ensures { numbers_in numbers.new ≡ filter (λ n. not (n == number)) (numbers_in numbers.old) }
{
    let _removed = numbers.take(number);
}
