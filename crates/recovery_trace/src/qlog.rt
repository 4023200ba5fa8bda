//! The qlog records of an event, as JSON text sequences (RFC 7464; draft-ietf-quic-qlog-quic-events).
ghost use Rattle.std.specs.Prelude.{◌≡◌, ◌++◌, OnOk, string_bytes};
ghost use Rattle.recovery_trace.specs.Qlog.{note_of, type_text, frame_text, trigger_text, sent_text, received_text, lost_text};
ghost use Rattle.recovery_trace.specs.Qlog.{congestion_text, set_text, stopped_text, note_text, metrics_named, metrics_text};

use crate::states::{write_flight, write_rtt, write_window};
use recovery_base::below::SpaceId;
use recovery_base::timer::Timer;
use recovery_congestion::congestion::Controller;
use recovery_events::event::{Answer, Event, Refusal};
use recovery_paths::paths::PathData;
use recovery_queue::items::ItemQueue;
use std::alloc::AllocError;

/// The header record.
pub const HEADER: &str =
    "\u{1e}{\"qlog_version\":\"0.3\",\"qlog_format\":\"JSON-SEQ\",\"title\":\"recovery-trace\",\
\"trace\":{\"vantage_point\":{\"type\":\"unknown\"},\"common_fields\":{\"time_format\":\"relative\",\
\"reference_time\":0}}}\n";

/// What qlog can express of an event.
#[derive(Clone, Copy)]
pub enum Note {
    /// A packet is sent: its space, its size in bytes, and whether it is ack-eliciting.
    Sent(SpaceId, u16, bool),
    /// An MTU probe is sent if one is due.
    Probing,
    /// A packet was received: its space, its number, and whether it is ack-eliciting.
    Received(SpaceId, u64, bool),
    /// A packet is declared lost: its space and its number.
    Lost(SpaceId, u64),
    /// There is congestion, which may be persistent.
    Congestion(bool),
    /// The loss detection timer is set to a time, in nanoseconds.
    Set(u64),
    /// That timer is stopped.
    Stopped,
    /// Nothing.
    Nothing,
}

/// Returns what qlog can express of an event.
pub fn note_of(event: &Event<ItemQueue>) -> Note
    ensures { result ≡ note_of event.now }
{
    match event {
        Event::Send {
            space,
            size,
            ack_eliciting,
            ..
        } => Note::Sent(*space, *size, *ack_eliciting),
        Event::PollMtu { .. } => Note::Probing,
        Event::Received {
            space,
            number,
            ack_eliciting,
            ..
        } => Note::Received(*space, *number, *ack_eliciting),
        Event::Lost { space, number } => Note::Lost(*space, *number),
        Event::Congestion { persistent, .. } => Note::Congestion(*persistent),
        Event::SetTimer {
            timer: Timer::LossDetection,
            time,
        } => Note::Set(time.as_nanos()),
        Event::StopTimer {
            timer: Timer::LossDetection,
        } => Note::Stopped,
        _ => Note::Nothing,
    }
}

/// Returns the packet type of a space.
fn type_of(space: SpaceId) -> &'static str
    ensures { result.now ≡ type_text space }
{
    match space {
        SpaceId::Initial => "initial",
        SpaceId::Handshake => "handshake",
        SpaceId::Data => "1RTT",
    }
}

/// Returns the one frame that is recorded of a packet.
fn frame_of(eliciting: bool) -> &'static str
    ensures { result.now ≡ frame_text eliciting }
{
    if eliciting { "ping" } else { "padding" }
}

/// Returns the trigger for persistent congestion.
fn trigger_of(persistent: bool) -> &'static str
    ensures { result.now ≡ trigger_text persistent }
{
    if persistent {
        ",\"trigger\":\"persistent_congestion\""
    } else {
        ""
    }
}

#[tactic(auto, unfolding(crate::specs::Qlog::sent_text))]
fn write_sent(
    text: &mut String,
    time: u64,
    kind: &str,
    number: u64,
    size: u16,
    frame: &str,
) -> Result<(), AllocError>
    ensures { OnOk result (string_bytes text.new
        ≡ string_bytes text.old ++ sent_text time kind.now number size frame.now) }
{
    writeln!(
        text,
        "\u{1e}{{\"time\":{time}e-6,\"name\":\"transport:packet_sent\",\"data\":{{\"header\":{{\
        \"packet_type\":\"{kind}\",\"packet_number\":{number}}},\"raw\":{{\"length\":{size}}},\
        \"frames\":[{{\"frame_type\":\"{frame}\"}}]}}}}"
    )
}

#[tactic(auto, unfolding(crate::specs::Qlog::received_text))]
fn write_received(
    text: &mut String,
    time: u64,
    kind: &str,
    number: u64,
    frame: &str,
) -> Result<(), AllocError>
    ensures { OnOk result (string_bytes text.new
        ≡ string_bytes text.old ++ received_text time kind.now number frame.now) }
{
    writeln!(
        text,
        "\u{1e}{{\"time\":{time}e-6,\"name\":\"transport:packet_received\",\"data\":{{\"header\":{{\
        \"packet_type\":\"{kind}\",\"packet_number\":{number}}},\
        \"frames\":[{{\"frame_type\":\"{frame}\"}}]}}}}"
    )
}

#[tactic(auto, unfolding(crate::specs::Qlog::lost_text))]
fn write_lost(text: &mut String, time: u64, kind: &str, number: u64) -> Result<(), AllocError>
    ensures { OnOk result
        (string_bytes text.new ≡ string_bytes text.old ++ lost_text time kind.now number) }
{
    writeln!(
        text,
        "\u{1e}{{\"time\":{time}e-6,\"name\":\"recovery:packet_lost\",\"data\":{{\"header\":{{\
        \"packet_type\":\"{kind}\",\"packet_number\":{number}}}}}}}"
    )
}

#[tactic(auto, unfolding(crate::specs::Qlog::congestion_text))]
fn write_congestion(text: &mut String, time: u64, trigger: &str) -> Result<(), AllocError>
    ensures { OnOk result
        (string_bytes text.new ≡ string_bytes text.old ++ congestion_text time trigger.now) }
{
    writeln!(
        text,
        "\u{1e}{{\"time\":{time}e-6,\"name\":\"recovery:congestion_state_updated\",\"data\":{{\
        \"new\":\"recovery\"{trigger}}}}}"
    )
}

#[tactic(auto, unfolding(crate::specs::Qlog::set_text))]
fn write_set(text: &mut String, time: u64, delta: u64) -> Result<(), AllocError>
    ensures { OnOk result (string_bytes text.new ≡ string_bytes text.old ++ set_text time delta) }
{
    writeln!(
        text,
        "\u{1e}{{\"time\":{time}e-6,\"name\":\"recovery:timer_updated\",\"data\":{{\
        \"timer_type\":\"pto\",\"event_type\":\"set\",\"delta\":{delta}e-6}}}}"
    )
}

#[tactic(auto, unfolding(crate::specs::Qlog::stopped_text))]
fn write_stopped(text: &mut String, time: u64) -> Result<(), AllocError>
    ensures { OnOk result (string_bytes text.new ≡ string_bytes text.old ++ stopped_text time) }
{
    writeln!(
        text,
        "\u{1e}{{\"time\":{time}e-6,\"name\":\"recovery:timer_updated\",\"data\":{{\
        \"event_type\":\"cancelled\"}}}}"
    )
}

/// Appends the record of an event, if qlog has one and it was not rejected.
pub fn write_note(
    text: &mut String,
    time: u64,
    note: Note,
    reply: &Result<Answer<ItemQueue>, Refusal>,
) -> Result<(), AllocError>
    ensures { OnOk result
        (string_bytes text.new ≡ string_bytes text.old ++ note_text time note reply.now) }
{
    match (note, reply) {
        (Note::Sent(space, size, eliciting), Ok(Answer::Sent { number, .. })) => {
            write_sent(
                text,
                time,
                type_of(space),
                *number,
                size,
                frame_of(eliciting),
            )
        }
        (Note::Probing, Ok(Answer::Probe { number, size })) => {
            write_sent(text, time, "1RTT", *number, *size, "ping")
        }
        (Note::Received(space, number, eliciting), Ok(Answer::New { .. })) => {
            write_received(text, time, type_of(space), number, frame_of(eliciting))
        }
        (Note::Lost(space, number), Ok(_)) => write_lost(text, time, type_of(space), number),
        (Note::Congestion(persistent), Ok(_)) => {
            write_congestion(text, time, trigger_of(persistent))
        }
        (Note::Set(moment), Ok(_)) => write_set(text, time, moment.saturating_sub(time)),
        (Note::Stopped, Ok(_)) => write_stopped(text, time),
        _ => Ok(()),
    }
}

#[tactic(auto, unfolding(crate::specs::Qlog::metrics_named))]
fn write_metrics_name(text: &mut String, time: u64) -> Result<(), AllocError>
    ensures { OnOk result (string_bytes text.new ≡ string_bytes text.old ++ metrics_named time) }
{
    write!(
        text,
        "\u{1e}{{\"time\":{time}e-6,\"name\":\"recovery:metrics_updated\",\"data\":{{"
    )
}

/// Appends the record of a path's metrics.
pub fn write_metrics<C: Controller + Drop>(
    text: &mut String,
    time: u64,
    path: &PathData<C>,
) -> Result<(), AllocError>
    ensures { OnOk result
        (string_bytes text.new ≡ string_bytes text.old ++ metrics_text C.words time path.now) }
{
    write_metrics_name(text, time)?;
    write_flight(text, path.in_flight())?;
    write_window(text, &path.congestion.metrics())?;
    write_rtt(text, &path.rtt)?;
    text.push_str("}}\n")
}
