//! Parses a line of a script as an event, and puts it into a sink.
ghost use Rattle.std.specs.Prelude.{◌≡◌, ◌+◌, ◌<◌, ◌≤◌, Some, IfOk, OnErr, vec_len, vec_capacity};
ghost use Rattle.recovery_base.specs.Units.{u64_limit};
ghost use Rattle.recovery_script_syntax.specs.Lines.{zero_ids, IsDocumentationAddress, HoldsList, EncodesEvent, forms_without_items, send};
ghost use Rattle.recovery_script_syntax.specs.Forms.{IsItemOf};
ghost use Rattle.recovery_script_syntax.specs.Reading.{reading, line_behind, words_left};
ghost use Rattle.recovery_script_syntax.specs.Reading.{ConstructsEvent, PushesToSink, PutsRead, PutsSpelled, all_of, whole};

use crate::forms::{
    AckDelayTimeoutLine, AckFrequencyLine, AckedLine, AcksSentLine, CheckAckLine, CongestionLine,
    DatagramInLine, DiscardLine, DropPreviousLine, EcnLine, EndAcksLine, IdTimeoutLine,
    InFlightLine, InitialIdLine, IssueIdsLine, Line, LineForm, LossesDoneLine, LostLine,
    MtuFoundLine, NewIdLine, NewPathLine, NextIdLine, NextTimeoutLine, PacerCheckLine,
    PeerLimitLine, PeerRetiredLine, PollMtuLine, QueueProbeLine, ReceivedLine, ResetPathLine,
    RevertPathLine, SampleLine, SetTimerLine, StopTimerLine, TakePendingLine, TransmitLine,
    ValidatedLine, id_of, send, token_of,
};
use crate::words::{Words, is_name};
use recovery_base::below::{IssuedCid, NoMemory};
use recovery_events::event::Event;
use recovery_events::feeding::Sink;
use recovery_queue::items::ItemQueue;
use std::alloc::Global;
use std::net::{IpAddr, Ipv4Addr, SocketAddr};

/// The most bytes of a line, without its line feed.
pub const LINE_LIMIT: usize = 4096;

/// Returns the peer's address, 192.0.2.1, with this port (RFC 5737, 3).
pub fn peer_at(port: u16) -> SocketAddr
    ensures { IsDocumentationAddress port result }
{
    SocketAddr::new(IpAddr::V4(Ipv4Addr::new(192, 0, 2, 1)), port)
}

/// Returns the IDs of a line that issues them, all with zero bytes.
fn zero_ids(alloc: Global, first: u64, count: u64) -> Result<Vec<IssuedCid>, NoMemory>
    requires { first + count ≤ u64_limit }
    ensures made { IfOk result (λ ids. ids.items ≡ zero_ids first count) }
    ensures memory { OnErr result (0 < count) }
{
    let mut ids = Vec::with_capacity(alloc, count as usize)?;
    let (id, reset_token) = (id_of(0), token_of(0));
    for index in 0..count {
        ids.push_reserved(IssuedCid {
            sequence: first + index,
            id,
            reset_token,
        });
    }
    Ok(ids)
}

/// Returns the event of a parsed line, or `None` if an ID's number would exceed `u64::MAX`.
#[inline(always)]
fn event_of(alloc: Global, line: Line) -> Result<Option<Event<ItemQueue>>, NoMemory>
    ensures { ConstructsEvent line result }
{
    match line {
        Line::Said(event) => Ok(Some(event)),
        Line::Ids { now, first, count } => {
            if count.saturating_sub(1) > u64::MAX - first {
                return Ok(None);
            }
            let ids = zero_ids(alloc, first, count)?;
            Ok(Some(Event::IssueIds { now, ids }))
        }
        Line::Path { now, port, fresh } => {
            let remote = peer_at(port);
            Ok(Some(Event::NewPath { now, remote, fresh }))
        }
    }
}

/// Puts the event of a parsed line into the sink. Returns `None` and puts nothing if an ID's number would exceed
/// `u64::MAX`. The sink is called at this one place, so that it can be inlined.
#[inline(always)]
fn put_meant<S: Sink<Event<ItemQueue>>>(
    alloc: Global,
    line: Line,
    sink: &mut S,
) -> Result<Option<bool>, NoMemory>
    ensures { PushesToSink S.takes (Some line) sink.old result sink.new }
{
    let Some(event) = event_of(alloc, line)? else {
        return Ok(None);
    };
    Ok(Some(sink.put(event)))
}

/// Does the same after the line was read, if no word is left.
#[inline(always)]
fn put_read<S: Sink<Event<ItemQueue>>>(
    alloc: Global,
    line: Option<Line>,
    words: &Words<'_>,
    sink: &mut S,
) -> Result<Option<bool>, NoMemory>
    ensures { PushesToSink S.takes (all_of line (words_left words.now)) sink.old result sink.new }
{
    match line {
        Some(line) if words.is_empty() => put_meant(alloc, line, sink),
        _ => Ok(None),
    }
}

/// Puts the event of a line of this form into the sink. Each form has its own code, out of line: only its own variables
/// are cleared, and the sink knows which event it takes.
#[inline(never)]
fn put_form<F: LineForm, S: Sink<Event<ItemQueue>>>(
    alloc: Global,
    words: &mut Words<'_>,
    sink: &mut S,
) -> Result<Option<bool>, NoMemory>
    ensures { PushesToSink S.takes (whole (reading F.form (words_left words.old)))
        sink.old result sink.new }
{
    let line = F::read(words);
    put_read(alloc, line, words, sink)
}

/// Puts the event of the one form with items into the sink.
#[inline(never)]
fn put_send<S: Sink<Event<ItemQueue>>>(
    alloc: Global,
    words: &mut Words<'_>,
    sink: &mut S,
) -> Result<Option<bool>, NoMemory>
    ensures { PutsRead S.takes (reading send (words_left words.old)) sink.old result sink.new }
{
    let line = send(alloc, words)?;
    put_read(alloc, line, words, sink)
}

/// Puts the event of a line without items into the sink, by the line's name and the words after it. Names of other
/// lengths are not compared.
#[tactic(auto, unfolding(crate::specs::Reading::line_behind))]
fn put_behind<S: Sink<Event<ItemQueue>>>(
    alloc: Global,
    name: &[u8],
    words: &mut Words<'_>,
    sink: &mut S,
) -> Result<Option<bool>, NoMemory>
    ensures { PushesToSink S.takes
        (whole (line_behind forms_without_items name.now (words_left words.old)))
        sink.old result sink.new }
{
    match name.len() {
        3 if is_name(name, "ecn") => put_form::<EcnLine, S>(alloc, words, sink),
        4 if is_name(name, "lost") => put_form::<LostLine, S>(alloc, words, sink),
        5 if is_name(name, "acked") => put_form::<AckedLine, S>(alloc, words, sink),
        6 if is_name(name, "new-id") => put_form::<NewIdLine, S>(alloc, words, sink),
        6 if is_name(name, "sample") => put_form::<SampleLine, S>(alloc, words, sink),
        7 if is_name(name, "next-id") => put_form::<NextIdLine, S>(alloc, words, sink),
        7 if is_name(name, "discard") => put_form::<DiscardLine, S>(alloc, words, sink),
        8 if is_name(name, "received") => put_form::<ReceivedLine, S>(alloc, words, sink),
        8 if is_name(name, "transmit") => put_form::<TransmitLine, S>(alloc, words, sink),
        8 if is_name(name, "end-acks") => put_form::<EndAcksLine, S>(alloc, words, sink),
        8 if is_name(name, "poll-mtu") => put_form::<PollMtuLine, S>(alloc, words, sink),
        8 if is_name(name, "new-path") => put_form::<NewPathLine, S>(alloc, words, sink),
        9 if is_name(name, "issue-ids") => put_form::<IssueIdsLine, S>(alloc, words, sink),
        9 if is_name(name, "acks-sent") => put_form::<AcksSentLine, S>(alloc, words, sink),
        9 if is_name(name, "set-timer") => put_form::<SetTimerLine, S>(alloc, words, sink),
        9 if is_name(name, "in-flight") => put_form::<InFlightLine, S>(alloc, words, sink),
        9 if is_name(name, "mtu-found") => put_form::<MtuFoundLine, S>(alloc, words, sink),
        9 if is_name(name, "validated") => put_form::<ValidatedLine, S>(alloc, words, sink),
        9 if is_name(name, "check-ack") => put_form::<CheckAckLine, S>(alloc, words, sink),
        10 if is_name(name, "initial-id") => put_form::<InitialIdLine, S>(alloc, words, sink),
        10 if is_name(name, "id-timeout") => put_form::<IdTimeoutLine, S>(alloc, words, sink),
        10 if is_name(name, "stop-timer") => put_form::<StopTimerLine, S>(alloc, words, sink),
        10 if is_name(name, "congestion") => put_form::<CongestionLine, S>(alloc, words, sink),
        10 if is_name(name, "peer-limit") => put_form::<PeerLimitLine, S>(alloc, words, sink),
        10 if is_name(name, "reset-path") => put_form::<ResetPathLine, S>(alloc, words, sink),
        11 if is_name(name, "datagram-in") => put_form::<DatagramInLine, S>(alloc, words, sink),
        11 if is_name(name, "pacer-check") => put_form::<PacerCheckLine, S>(alloc, words, sink),
        11 if is_name(name, "losses-done") => put_form::<LossesDoneLine, S>(alloc, words, sink),
        11 if is_name(name, "queue-probe") => put_form::<QueueProbeLine, S>(alloc, words, sink),
        11 if is_name(name, "revert-path") => put_form::<RevertPathLine, S>(alloc, words, sink),
        12 if is_name(name, "peer-retired") => put_form::<PeerRetiredLine, S>(alloc, words, sink),
        12 if is_name(name, "next-timeout") => put_form::<NextTimeoutLine, S>(alloc, words, sink),
        12 if is_name(name, "take-pending") => put_form::<TakePendingLine, S>(alloc, words, sink),
        13 if is_name(name, "ack-frequency") => put_form::<AckFrequencyLine, S>(alloc, words, sink),
        13 if is_name(name, "drop-previous") => put_form::<DropPreviousLine, S>(alloc, words, sink),
        17 if is_name(name, "ack-delay-timeout") => put_form::<AckDelayTimeoutLine, S>(
            alloc, words, sink,
        ),
        _ => Ok(None),
    }
}

/// Puts the event of a line, given without its line feed, into the sink. Returns whether the sink asks for another one,
/// or `None` if the line is no event. In that case, and after an error, nothing is put. The only error is `NoMemory`.
pub fn put_event<S: Sink<Event<ItemQueue>>>(
    alloc: Global,
    line: &[u8],
    sink: &mut S,
) -> Result<Option<bool>, NoMemory>
    // A line is read exactly if it encodes an event, and encodes at most one.
    ensures found { IfOk result (λ more. PutsSpelled S.takes line.now sink.old more sink.new) }
    // An allocation fails only for a line that issues IDs or has items.
    ensures memory { OnErr result (HoldsList line.now) }
    ensures kept { OnErr result (sink.new ≡ sink.old) }
{
    if line.len() > LINE_LIMIT {
        return Ok(None);
    }
    let mut words = Words::new(line);
    let Some(name) = words.next() else {
        return Ok(None);
    };
    if is_name(name, "send") {
        return put_send(alloc, &mut words, sink);
    }
    put_behind(alloc, name, &mut words, sink)
}

/// The event of a line, if it has one.
#[derive(Drop)]
struct Found {
    event: Option<Event<ItemQueue>>,
}

impl Sink<Event<ItemQueue>> for Found {
    ghost takes = { λ old event new. new.event ≡ Some event };

    fn put(&mut self, event: Event<ItemQueue>) -> bool {
        self.event = Some(event);
        false
    }
}

/// Returns the event of a line, given without its line feed, or `None` if the line is no event. The only error is
/// `NoMemory`.
pub fn event_in(alloc: Global, line: &[u8]) -> Result<Option<Event<ItemQueue>>, NoMemory>
    ensures found { IfOk result (IsItemOf EncodesEvent line.now) }
    ensures memory { OnErr result (HoldsList line.now) }
{
    let mut found = Found { event: None };
    put_event(alloc, line, &mut found)?;
    Ok(found.event)
}
