//! The sender of one endpoint (RFC 9002, Appendices A and B): which packets are lost, when to probe, and whether a
//! datagram may be sent. An export for each of its calls that is no event; it takes the events that pass as a recovery
//! does.
ghost use Rattle.std.specs.Prelude.{◌≡◌};
ghost use Rattle.recovery_stack.specs.Answers.{ReadsHandle};
ghost use Rattle.recovery_stack.specs.Codes.{maybe, side_coded, space_coded, span};
ghost use Rattle.recovery_engine.specs.Kept.{numbers_told, packets_told, pto_count_of};
ghost use Rattle.recovery_stack.specs.Made.{NewOr};
ghost use Rattle.recovery_stack.specs.SenderCalls.{frame_given, CallsSender, AsksAck, CallsSenderTo, ProbesIn};
ghost use Rattle.recovery_engine.specs.declared.kept.Form.TheVariants.{Handshaking, Established};
ghost use Rattle.recovery_engine.specs.Sending.{no_told, told_view};
ghost use Rattle.recovery_engine.specs.Replies.{IsWritten};
ghost use Rattle.recovery_engine.specs.SenderViews.{no_sender_view, sender_view_of};
ghost use Rattle.recovery_engine.specs.declared.sending.Call.TheVariants.{Transmit, Expire, Discard, RetransmitAll, HandshakeKeys, HandshakeConfirmed, PeerDelay, InitialRtt, Challenge};

use recovery_base::time::Instant;
use recovery_engine::kept::Form;
use recovery_engine::sending::{AckRange, Call, OutcomeView};
use recovery_engine::spelling::EncodedReply;
use recovery_engine::views::SenderView;
use recovery_stack::codes::{Address, maybe, space_coded, span};
use recovery_stack::handle::Handle;
use recovery_stack::making::begin;
use recovery_stack::sender::{AckFrame, side_of};
use recovery_stack::settings::Settings;
use std::alloc::Global;

/// Makes a recovery of a sender, of a client if `client`, else of a server. Its peer is at this address and has
/// this connection ID of at most 20 bytes. A client's first path is validated, whatever the settings say (RFC 9000,
/// 8.1). Returns `NEW_MADE`, or the number of what is wrong, which leaves the handle unchanged.
#[unsafe(no_mangle)]
pub extern "C" fn recovery_ffi_sender_new(
    alloc: Global,
    handle: &mut Handle,
    client: bool,
    settings: &Settings,
    remote: &Address,
    initial_cid: &[u8],
    now: u64,
) -> u8
    ensures { NewOr (Handshaking (side_coded client)) result settings.now remote.now initial_cid.now
        now handle.old.slot.held handle.new.slot.held }
{
    begin(
        alloc,
        handle,
        Form::Handshaking(side_of(client)),
        settings,
        remote,
        initial_cid,
        now,
    )
}

/// Makes a recovery of a sender whose handshake is confirmed (RFC 9001, 4.1.2 and 4.9). It calls
/// `recovery_ffi_sender_new`, `recovery_ffi_validated`, `recovery_ffi_sender_handshake_confirmed`, and
/// `recovery_ffi_sender_discard` for the Initial and the Handshake space. Only 1-RTT packets are then sent and
/// probed for. The results are those of `recovery_ffi_sender_new`.
#[unsafe(no_mangle)]
pub extern "C" fn recovery_ffi_sender_established(
    alloc: Global,
    handle: &mut Handle,
    client: bool,
    settings: &Settings,
    remote: &Address,
    initial_cid: &[u8],
    now: u64,
) -> u8
    ensures { NewOr (Established (side_coded client)) result settings.now remote.now initial_cid.now
        now handle.old.slot.held handle.new.slot.held }
{
    begin(
        alloc,
        handle,
        Form::Established(side_of(client)),
        settings,
        remote,
        initial_cid,
        now,
    )
}

/// Checks whether a datagram with packets of a space may be sent now. The reply is `ANSWER_TRANSMITTED`, and
/// the datagram is counted; `ANSWER_BLOCKED` by the amplification limit (RFC 9000, 8.1); `ANSWER_FULL`
/// if the window has no room (RFC 9002, 7); or `ANSWER_DELAYED` by the pacer, until `first` (RFC 9002, 7.7). If
/// nothing in it counts in flight, or a probe is due in the space, only the amplification limit is checked. Report
/// its packets by `recovery_ffi_send` before the next datagram. If the window or the pacer holds it back, `flag` is
/// whether an ACK is required in the space. Then send an ACK alone: ask again with `in_flight` false (RFC 9000,
/// 13.2.1). Call it for whatever waits to be sent, also if the window is full: until the handshake is confirmed, the
/// sender probes for an Initial or Handshake datagram that finds no room. Errors: `REFUSAL_SPACE_DISCARDED`, then
/// `REFUSAL_OVERFLOW`.
#[unsafe(no_mangle)]
pub extern "C" fn recovery_ffi_sender_transmit(
    alloc: Global,
    handle: &mut Handle,
    now: u64,
    bytes: u16,
    space: u8,
    in_flight: bool,
) -> EncodedReply
    ensures { CallsSenderTo (space_coded space) (λ space. Transmit now bytes space in_flight)
        handle.old.slot.held result handle.new.slot.held }
{
    let Some(space) = space_coded(space) else {
        return EncodedReply::bad_argument();
    };
    handle.call_sender(
        alloc,
        Call::Transmit {
            now: Instant::from_nanos(now),
            bytes,
            space,
            in_flight,
        },
    )
}

/// Processes a received ACK frame (RFC 9002, A.7), with its ranges, the highest first, as on the wire. The reply
/// `ANSWER_ACKNOWLEDGED` has in `first` how many packets are newly acknowledged, in `second` how many are
/// declared lost, and in `flag` whether `recovery_ffi_last_outcome` has more than that. Read the packets by
/// `recovery_ffi_told_numbers` and `recovery_ffi_told_packets`. Errors, which change nothing:
/// `REFUSAL_SPACE_DISCARDED`; `REFUSAL_BAD_RANGE` if there is no range, a range ends before it begins, or
/// two have no number between them (RFC 9000, 19.3.1); `REFUSAL_UNSENT`; `REFUSAL_SKIPPED_ACKED` (RFC
/// 9000, 21.4); `REFUSAL_NO_MEMORY`. If the caller limits its room (`is_limited`) and has too little, the reply
/// is `ANSWER_NEEDS_ROOM`, and nothing changes. `first` is then how many words of packets, and `second` how
/// many lost numbers, it needs room for.
#[unsafe(no_mangle)]
pub extern "C" fn recovery_ffi_sender_ack(
    alloc: Global,
    handle: &mut Handle,
    space: u8,
    now: u64,
    frame: &AckFrame,
    ranges: &[AckRange],
) -> EncodedReply
    ensures { AsksAck (frame_given space now frame.now) ranges.now
        handle.old.slot.held result handle.new.slot.held }
{
    handle.take_ack(alloc, space, now, frame, ranges)
}

/// Handles the loss detection timer, which may be due (RFC 9002, A.9). The reply is `ANSWER_NOTHING` if it is
/// not. It is `ANSWER_LOSSES` after a loss detection pass over the space in `first`: read the losses by
/// `recovery_ffi_last_outcome` and `recovery_ffi_told_numbers`. It is `ANSWER_PROBES` if probes are due in the
/// space in `first`; `second` is how many, 1 or 2. For each, call `recovery_ffi_sender_transmit`, take its contents
/// by `recovery_ffi_sender_probe`, and send it by `recovery_ffi_send`. The error is `REFUSAL_NO_MEMORY` if
/// there is no room for the numbers of the packets that may be lost; then nothing has changed. A timeout that asks
/// for probes allocates nothing.
#[unsafe(no_mangle)]
pub extern "C" fn recovery_ffi_sender_on_timeout(
    alloc: Global,
    handle: &mut Handle,
    now: u64,
) -> EncodedReply
    ensures { CallsSender handle.old.slot.held (Expire now) result handle.new.slot.held }
{
    handle.call_sender(alloc, Call::Expire(Instant::from_nanos(now)))
}

/// Takes the contents of a probe in a space (RFC 9002, 6.2.4), to be read by `recovery_ffi_last_items`:
/// `ANSWER_QUEUE`. They are what is queued for retransmission, or else the contents of the first packet in
/// flight that has any. If there are no items, send a PING frame. `immediate_ack` asks for an IMMEDIATE_ACK frame
/// in it. Errors, which change nothing: `REFUSAL_SPACE_DISCARDED`, then `REFUSAL_NO_MEMORY`.
#[unsafe(no_mangle)]
pub extern "C" fn recovery_ffi_sender_probe(
    alloc: Global,
    handle: &mut Handle,
    space: u8,
    immediate_ack: bool,
) -> EncodedReply
    ensures { ProbesIn (space_coded space) immediate_ack handle.old.slot.held result
        handle.new.slot.held }
{
    match space_coded(space) {
        Some(space) => handle.probe(alloc, space, immediate_ack),
        None => EncodedReply::bad_argument(),
    }
}

/// Discards a space with its keys and its tracked packets, and resets the count of probe timeouts (RFC 9002, 6.2.2,
/// 6.4 and A.11): `ANSWER_DONE`. Errors: `REFUSAL_DATA_SPACE` for the space of 1-RTT packets, which is never
/// discarded (RFC 9001, 4.9); `REFUSAL_SPACE_DISCARDED`.
#[unsafe(no_mangle)]
pub extern "C" fn recovery_ffi_sender_discard(
    alloc: Global,
    handle: &mut Handle,
    space: u8,
    now: u64,
) -> EncodedReply
    ensures { CallsSenderTo (space_coded space) (λ space. Discard space now)
        handle.old.slot.held result handle.new.slot.held }
{
    let Some(space) = space_coded(space) else {
        return EncodedReply::bad_argument();
    };
    handle.call_sender(
        alloc,
        Call::Discard {
            space,
            now: Instant::from_nanos(now),
        },
    )
}

/// Declares all packets of a space lost, because they will not be acknowledged: after a Retry, or if 0-RTT is
/// rejected (RFC 9002, 6.3 and 6.4). This does not indicate congestion. Resets the count of probe timeouts. The
/// reply is `ANSWER_LOSSES`; read the packets by `recovery_ffi_told_numbers`. If `is_cut` in
/// `recovery_ffi_last_outcome`, allocation failed for some packets, which are still tracked: the same call
/// continues with them. Errors, which change nothing: `REFUSAL_SPACE_DISCARDED`, `REFUSAL_NO_MEMORY`.
#[unsafe(no_mangle)]
pub extern "C" fn recovery_ffi_sender_retransmit_all(
    alloc: Global,
    handle: &mut Handle,
    space: u8,
    now: u64,
) -> EncodedReply
    ensures { CallsSenderTo (space_coded space) (λ space. RetransmitAll space now)
        handle.old.slot.held result handle.new.slot.held }
{
    let Some(space) = space_coded(space) else {
        return EncodedReply::bad_argument();
    };
    handle.call_sender(
        alloc,
        Call::RetransmitAll {
            space,
            now: Instant::from_nanos(now),
        },
    )
}

/// Records that Handshake keys are available (RFC 9002, A.8): `ANSWER_DONE`.
#[unsafe(no_mangle)]
pub extern "C" fn recovery_ffi_sender_handshake_keys(
    alloc: Global,
    handle: &mut Handle,
) -> EncodedReply
    ensures { CallsSender handle.old.slot.held HandshakeKeys result handle.new.slot.held }
{
    handle.call_sender(alloc, Call::HandshakeKeys)
}

/// Records that the handshake is confirmed (RFC 9001, 4.1.2): `ANSWER_DONE`. From then on 1-RTT packets are
/// probed for, and a client knows its address validated (RFC 9002, 6.2.1 and 6.2.2.1).
#[unsafe(no_mangle)]
pub extern "C" fn recovery_ffi_sender_handshake_confirmed(
    alloc: Global,
    handle: &mut Handle,
) -> EncodedReply
    ensures { CallsSender handle.old.slot.held HandshakeConfirmed result handle.new.slot.held }
{
    handle.call_sender(alloc, Call::HandshakeConfirmed)
}

/// Sets the peer's max_ack_delay, for 1-RTT packets (RFC 9000, 18.2): `ANSWER_DONE`. Nanoseconds are below
/// 10^9.
#[unsafe(no_mangle)]
pub extern "C" fn recovery_ffi_sender_peer_delay(
    alloc: Global,
    handle: &mut Handle,
    secs: u64,
    nanos: u32,
) -> EncodedReply
    ensures { CallsSenderTo (span secs nanos) (λ span. PeerDelay span)
        handle.old.slot.held result handle.new.slot.held }
{
    match span(secs, nanos) {
        Some(span) => handle.call_sender(alloc, Call::PeerDelay(span)),
        None => EncodedReply::bad_argument(),
    }
}

/// Sets the RTT that timers use before the first RTT sample of the path in use, instead of the one in the settings
/// (RFC 9002, 6.2.2): `ANSWER_DONE`. If the RTT of the path is reset, the settings apply again. Nanoseconds are
/// below 10^9.
#[unsafe(no_mangle)]
pub extern "C" fn recovery_ffi_sender_initial_rtt(
    alloc: Global,
    handle: &mut Handle,
    secs: u64,
    nanos: u32,
) -> EncodedReply
    ensures { CallsSenderTo (span secs nanos) (λ span. InitialRtt span)
        handle.old.slot.held result handle.new.slot.held }
{
    match span(secs, nanos) {
        Some(span) => handle.call_sender(alloc, Call::InitialRtt(span)),
        None => EncodedReply::bad_argument(),
    }
}

/// Returns the purpose of the loss detection timer, or why it is not set, and how many more bytes the window and
/// the amplification limit permit on the path in use. All is 0 if there is no sender.
#[unsafe(no_mangle)]
pub extern "C" fn recovery_ffi_sender_view(alloc: Global, handle: &mut Handle) -> SenderView
    ensures { ReadsHandle handle.old.slot.held handle.new.slot.held (λ stack.
        result ≡ sender_view_of stack.kept) (result ≡ no_sender_view) }
{
    handle.sender_view(alloc)
}

/// Stores whether a PATH_CHALLENGE frame with this data is outstanding on the path in use (`is_open`), and whether
/// one is to be sent (`pending`) (RFC 9000, 8.2.1): `ANSWER_DONE`. While one is outstanding, the window does
/// not grow: an acknowledged packet may have been sent on the path before it (RFC 9000, 9.4).
#[unsafe(no_mangle)]
pub extern "C" fn recovery_ffi_sender_challenge(
    alloc: Global,
    handle: &mut Handle,
    content: u64,
    is_open: bool,
    pending: bool,
) -> EncodedReply
    ensures { CallsSender handle.old.slot.held (Challenge (maybe is_open content) pending)
        result handle.new.slot.held }
{
    let challenge = maybe(is_open, content);
    handle.call_sender(alloc, Call::Challenge { challenge, pending })
}

/// Returns the number of consecutive probe timeouts, each of which doubles the next (RFC 9002, 6.2.1); 0 if there
/// is no sender.
#[unsafe(no_mangle)]
pub extern "C" fn recovery_ffi_pto_count(alloc: Global, handle: &mut Handle) -> u32
    ensures { ReadsHandle handle.old.slot.held handle.new.slot.held (λ stack.
        result ≡ pto_count_of stack.kept) (result ≡ 0) }
{
    handle.pto_count(alloc)
}

/// Returns the last outcome: of an ACK frame, of a timeout that made a loss detection pass, or of a space whose
/// packets were all declared lost. It is empty before the first, and if there is no sender.
#[unsafe(no_mangle)]
pub extern "C" fn recovery_ffi_last_outcome(alloc: Global, handle: &mut Handle) -> OutcomeView
    ensures { ReadsHandle handle.old.slot.held handle.new.slot.held (λ stack.
        result ≡ told_view stack.kept) (result ≡ no_told) }
{
    handle.last_outcome(alloc)
}

/// Returns how many packets the last outcome newly acknowledged or, with `lost`, declared lost, without the MTU
/// probe. Writes their numbers in increasing order, if there is room for all.
#[unsafe(no_mangle)]
pub extern "C" fn recovery_ffi_told_numbers(
    alloc: Global,
    handle: &mut Handle,
    lost: bool,
    out: &mut [u64],
) -> usize
    ensures { ReadsHandle handle.old.slot.held handle.new.slot.held (λ stack.
        IsWritten (numbers_told lost stack.kept) out.old result out.new)
        ((result ≡ 0) × (out.new ≡ out.old)) }
{
    handle.told_numbers(alloc, lost, out)
}

/// Returns how many words the packets take that the last outcome newly acknowledged, and writes these if there is
/// room for all. For each packet, in increasing order: its number, its item count, and its items.
#[unsafe(no_mangle)]
pub extern "C" fn recovery_ffi_told_packets(
    alloc: Global,
    handle: &mut Handle,
    out: &mut [u64],
) -> usize
    ensures { ReadsHandle handle.old.slot.held handle.new.slot.held (λ stack.
        IsWritten (packets_told stack.kept) out.old result out.new)
        ((result ≡ 0) × (out.new ≡ out.old)) }
{
    handle.told_packets(alloc, out)
}
