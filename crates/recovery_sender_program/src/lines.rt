//! Parses a line as a call.
ghost use Rattle.std.specs.Prelude.{◌≡◌, [], IfOk, MatchOption};
ghost use Rattle.recovery_script_syntax.specs.Forms.{IsItemOf};
ghost use Rattle.recovery_script_syntax.specs.Reading.{ReadsBy, line_behind, reading, words_left};
ghost use Rattle.recovery_sender.specs.Calls.{IsPassedThrough};
ghost use Rattle.recovery_sender_program.specs.CallLines.{EncodesCall, abandon, call_forms, connection_forms, datagram, discard, peer_delay, probe, timeout, transmit};
ghost use Rattle.recovery_sender_program.specs.CallReading.{AreRangesRead, IsAckRead, IsPassedRead, counts_read, end_read, front_read, is_end_name, range_read, received_read, time_read};

use recovery_base::below::{EcnCounts, NoMemory, SpaceId};
use recovery_base::time::{Duration, Instant};
use recovery_events::event::Event;
use recovery_losses::Ack;
use recovery_queue::items::ItemQueue;
use recovery_replay::faults::{Grammar, line_named};
use recovery_script_syntax::lines::{LINE_LIMIT, event_in};
use recovery_script_syntax::words::{Words, is_name, number_in};
use recovery_sender::{Asking, Call, Datagram, Frame, passes};
use std::alloc::Global;

/// The ECN counts of an ACK frame, and when it was received, if these are given.
type FrameEnd = (Option<EcnCounts>, Option<Instant>);

/// A line for each call, with words that fit.
const EXAMPLES: [&str; 37] = [
    "transmit data 0 0 1",
    "ack data 0 0 0 0 0",
    "timeout 0",
    "probe data",
    "datagram 0",
    "keys",
    "confirmed",
    "validated",
    "peer-delay 0",
    "discard data 0",
    "abandon data 0",
    "received data 0 0 1",
    "send data 0 0 1 -",
    "new-id 0 0 0",
    "next-id",
    "initial-id 0",
    "issue-ids 0 0 0",
    "id-timeout",
    "peer-retired 0 0",
    "ack-frequency 0 0 0 0",
    "acks-sent data",
    "ack-delay-timeout data",
    "set-timer idle 0",
    "stop-timer idle",
    "next-timeout",
    "in-flight current",
    "datagram-in current 0",
    "pacer-check 0 0",
    "poll-mtu 0",
    "peer-limit 0",
    "mtu-found 0",
    "check-ack data 0 0",
    "take-pending data",
    "new-path 0 0 0",
    "reset-path 0",
    "drop-previous",
    "revert-path",
];

/// Returns the call of a line, given without its line feed, if it is one.
pub fn call_in(alloc: Global, line: &[u8]) -> Result<Option<Call<ItemQueue>>, NoMemory>
    ensures { IfOk result (IsItemOf EncodesCall line.now) }
{
    if line.len() > LINE_LIMIT {
        return Ok(None);
    }
    let mut words = Words::new(line);
    let Some(name) = words.next() else {
        return Ok(None);
    };
    if is_name(name, "ack") {
        return ack(alloc, &mut words);
    }
    match short_call(name, &mut words) {
        Some(call) if words.is_empty() => Ok(Some(call)),
        _ => passed(alloc, line),
    }
}

/// Parses a call that does not allocate, by its name and the words after it.
#[tactic(auto, unfolding(recovery_script_syntax::specs::Reading::line_behind))]
fn short_call(name: &[u8], words: &mut Words<'_>) -> Option<Call<ItemQueue>>
    ensures { ReadsBy (line_behind call_forms name.now) words.old words.new result }
{
    match name {
        name if is_name(name, "transmit") => transmit(words),
        name if is_name(name, "timeout") => timeout(words),
        name if is_name(name, "probe") => probe(words),
        name => said(name, words),
    }
}

#[tactic(auto, unfolding(recovery_script_syntax::specs::Reading::fields_read))]
fn transmit(words: &mut Words<'_>) -> Option<Call<ItemQueue>>
    ensures { ReadsBy (reading transmit) words.old words.new result }
{
    Some(Call::Transmit(Datagram {
        space: words.space()?,
        now: words.moment()?,
        bytes: words.short()?,
        in_flight: words.flag()?,
    }))
}

#[tactic(auto, unfolding(recovery_script_syntax::specs::Reading::fields_read))]
fn timeout(words: &mut Words<'_>) -> Option<Call<ItemQueue>>
    ensures { ReadsBy (reading timeout) words.old words.new result }
{
    Some(Call::Timeout(words.moment()?))
}

#[tactic(auto, unfolding(recovery_script_syntax::specs::Reading::fields_read))]
fn probe(words: &mut Words<'_>) -> Option<Call<ItemQueue>>
    ensures { ReadsBy (reading probe) words.old words.new result }
{
    Some(Call::Probe(Asking {
        space: words.space()?,
        immediate_ack: false,
        streams: (),
    }))
}

/// Parses calls about the connection and its spaces.
#[tactic(auto, unfolding(recovery_script_syntax::specs::Reading::line_behind))]
fn said(name: &[u8], words: &mut Words<'_>) -> Option<Call<ItemQueue>>
    ensures { ReadsBy (line_behind connection_forms name.now) words.old words.new result }
{
    match name {
        name if is_name(name, "datagram") => datagram(words),
        name if is_name(name, "keys") => Some(Call::HandshakeKeys),
        name if is_name(name, "confirmed") => Some(Call::HandshakeConfirmed),
        name if is_name(name, "validated") => Some(Call::AddressValidated),
        name if is_name(name, "peer-delay") => peer_delay(words),
        name if is_name(name, "discard") => discard(words),
        name if is_name(name, "abandon") => abandon(words),
        _ => None,
    }
}

#[tactic(auto, unfolding(recovery_script_syntax::specs::Reading::fields_read))]
fn datagram(words: &mut Words<'_>) -> Option<Call<ItemQueue>>
    ensures { ReadsBy (reading datagram) words.old words.new result }
{
    Some(Call::Datagram(words.number()?))
}

#[tactic(auto, unfolding(recovery_script_syntax::specs::Reading::fields_read))]
fn peer_delay(words: &mut Words<'_>) -> Option<Call<ItemQueue>>
    ensures { ReadsBy (reading peer_delay) words.old words.new result }
{
    Some(Call::PeerDelay(words.span()?))
}

#[tactic(auto, unfolding(recovery_script_syntax::specs::Reading::fields_read))]
fn discard(words: &mut Words<'_>) -> Option<Call<ItemQueue>>
    ensures { ReadsBy (reading discard) words.old words.new result }
{
    Some(Call::Discard(words.space()?, words.moment()?))
}

#[tactic(auto, unfolding(recovery_script_syntax::specs::Reading::fields_read))]
fn abandon(words: &mut Words<'_>) -> Option<Call<ItemQueue>>
    ensures { ReadsBy (reading abandon) words.old words.new result }
{
    Some(Call::Abandon(words.space()?, words.moment()?))
}

/// Returns the call that passes an event, if the sender passes it.
fn passing(event: Event<ItemQueue>) -> Option<Call<ItemQueue>>
    ensures { MatchOption result (¬ IsPassedThrough event)
        (λ call. (call ≡ Call.Event event) × IsPassedThrough event) }
{
    if passes(&event) {
        Some(Call::Event(event))
    } else {
        None
    }
}

/// Returns the call that passes the event of a line, if the line has an event that the sender passes.
fn passed(alloc: Global, line: &[u8]) -> Result<Option<Call<ItemQueue>>, NoMemory>
    ensures { IfOk result (IsPassedRead line.now) }
{
    match event_in(alloc, line)? {
        Some(event) => Ok(passing(event)),
        None => Ok(None),
    }
}

/// Parses the fields of an ACK frame before its ranges.
#[tactic(auto, unfolding(recovery_script_syntax::specs::Reading::fields_read))]
fn ack_front(words: &mut Words<'_>) -> Option<(SpaceId, Instant, Duration, bool)>
    ensures { ReadsBy front_read words.old words.new result }
{
    Some((
        words.space()?,
        words.moment()?,
        words.span()?,
        words.flag()?,
    ))
}

/// Parses an ACK frame: its ranges, followed by the ECN counts and the time of receipt.
fn ack(alloc: Global, words: &mut Words<'_>) -> Result<Option<Call<ItemQueue>>, NoMemory>
    ensures { IfOk result (IsAckRead (words_left words.old)) }
{
    let Some((space, now, delay, app_limited)) = ack_front(words) else {
        return Ok(None);
    };
    let mut ranges = Vec::new(alloc);
    let Some((ecn, received)) = read_ranges(words, &mut ranges)? else {
        return Ok(None);
    };
    if ranges.is_empty() {
        return Ok(None);
    }
    let ack = Ack {
        delay,
        ecn,
        app_limited,
        received,
    };
    Ok(Some(Call::Ack(Frame {
        space,
        now,
        ranges,
        ack,
    })))
}

/// Parses a range: a word is its first number, the next word its last one.
#[tactic(auto, unfolding(recovery_script_syntax::specs::Reading::field))]
fn range_in(word: &[u8], words: &mut Words<'_>) -> Option<(u64, u64)>
    ensures { ReadsBy (range_read word.now) words.old words.new result }
{
    let first = number_in(word)?;
    let last = words.number()?;
    Some((first, last))
}

/// Parses ranges to the end of the line, or to a name. Returns the ECN counts and the time of receipt that follow.
fn read_ranges(
    words: &mut Words<'_>,
    ranges: &mut Vec<(u64, u64)>,
) -> Result<Option<FrameEnd>, NoMemory>
    requires { ranges.old.items ≡ [] }
    ensures { IfOk result (AreRangesRead (words_left words.old) ranges.new.items) }
{
    while let Some(word) = words.next() {
        if is_end_name(word) {
            return Ok(frame_end(word, words));
        }
        let Some(range) = range_in(word, words) else {
            return Ok(None);
        };
        ranges.push(range)?;
    }
    Ok(Some((None, None)))
}

/// Returns whether a word is the name of what follows the ranges.
fn is_end_name(word: &[u8]) -> bool
    ensures { result ≡ is_end_name word.now }
{
    is_name(word, "ecn") || is_name(word, "received")
}

/// Parses what follows the ranges, after its name.
fn frame_end(name: &[u8], words: &mut Words<'_>) -> Option<FrameEnd>
    ensures { result ≡ end_read name.now (words_left words.old) }
{
    if is_name(name, "ecn") {
        let counts = counts(words)?;
        let received = received_in(words)?;
        return Some((Some(counts), received));
    }
    match last_time(words) {
        Some(time) => Some((None, Some(time))),
        None => None,
    }
}

/// Parses ECN counts.
#[tactic(auto, unfolding(recovery_script_syntax::specs::Reading::fields_read))]
fn counts(words: &mut Words<'_>) -> Option<EcnCounts>
    ensures { ReadsBy counts_read words.old words.new result }
{
    Some(EcnCounts {
        ect0: words.number()?,
        ect1: words.number()?,
        ce: words.number()?,
    })
}

/// Parses the time of receipt, if a line goes on.
fn received_in(words: &mut Words<'_>) -> Option<Option<Instant>>
    ensures { result ≡ received_read (words_left words.old) }
{
    let Some(word) = words.next() else {
        return Some(None);
    };
    if !is_name(word, "received") {
        return None;
    }
    match last_time(words) {
        Some(time) => Some(Some(time)),
        None => None,
    }
}

/// Parses a time that ends a line.
fn last_time(words: &mut Words<'_>) -> Option<Instant>
    ensures { result ≡ time_read (words_left words.old) }
{
    let Some(time) = words.moment() else {
        return None;
    };
    if words.is_empty() { Some(time) } else { None }
}

/// The lines that are calls.
#[derive(Drop)]
pub struct CallLines;

impl Grammar for CallLines {
    type Item = Call<ItemQueue>;

    ghost encodes = { EncodesCall };

    ghost are_short = { λ line call encoded. encoded.short };

    fn example_of(name: &[u8]) -> Option<&'static [u8]> {
        line_named(&EXAMPLES, name)
    }

    fn item_in(alloc: Global, line: &[u8]) -> Result<Option<Call<ItemQueue>>, NoMemory> {
        call_in(alloc, line)
    }
}
