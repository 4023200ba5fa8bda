//! The state of a path at a time as one JSON object, with the names that qlog gives to recovery metrics.
ghost use Rattle.std.specs.Prelude.{◌≡◌, ◌++◌, OnOk, string_bytes};
ghost use Rattle.recovery_trace.specs.States.{time_text, flight_text, window_text, spans_text, rtt_text, room_text, state_text};

use recovery_congestion::congestion::{Controller, ControllerMetrics};
use recovery_congestion::rtt::RttEstimator;
use recovery_paths::paths::PathData;
use recovery_spaces::paths::InFlight;
use std::alloc::AllocError;

/// Appends the time, in milliseconds: the beginning of the line.
#[tactic(auto, unfolding(crate::specs::States::time_text))]
fn write_time(text: &mut String, time: u64) -> Result<(), AllocError>
    ensures { OnOk result (string_bytes text.new ≡ string_bytes text.old ++ time_text time) }
{
    write!(text, "{{\"time\":{time}e-6,")
}

/// Appends the bytes and ack-eliciting packets in flight (RFC 9002, B.2).
pub fn write_flight(text: &mut String, flight: InFlight) -> Result<(), AllocError>
    ensures { OnOk result (string_bytes text.new ≡ string_bytes text.old ++ flight_text flight) }
{
    let bytes = flight.bytes;
    let packets = flight.ack_eliciting;
    write!(
        text,
        "\"bytes_in_flight\":{bytes},\"packets_in_flight\":{packets}"
    )
}

/// Appends the window and the slow start threshold, in bytes; no threshold while it is infinite (RFC 9002, B.3).
pub fn write_window(text: &mut String, metrics: &ControllerMetrics) -> Result<(), AllocError>
    ensures { OnOk result
        (string_bytes text.new ≡ string_bytes text.old ++ window_text metrics.now) }
{
    let window = metrics.congestion_window;
    match metrics.ssthresh {
        Some(ssthresh) if ssthresh < u64::MAX => write!(
            text,
            ",\"congestion_window\":{window},\"ssthresh\":{ssthresh}"
        ),
        _ => write!(text, ",\"congestion_window\":{window}"),
    }
}

/// Appends spans in milliseconds, exact: whole nanoseconds with the exponent of a JSON number.
#[tactic(auto, unfolding(crate::specs::States::spans_text))]
fn write_spans(
    text: &mut String,
    smoothed: u128,
    variance: u128,
    least: u128,
    latest: u128,
) -> Result<(), AllocError>
    ensures { OnOk result (string_bytes text.new
        ≡ string_bytes text.old ++ spans_text smoothed variance least latest) }
{
    write!(
        text,
        ",\"smoothed_rtt\":{smoothed}e-6,\"rtt_variance\":{variance}e-6,\
        \"min_rtt\":{least}e-6,\"latest_rtt\":{latest}e-6"
    )
}

/// Appends the RTT (RFC 9002, 5): smoothed, variation, smallest sample and last one.
pub fn write_rtt(text: &mut String, rtt: &RttEstimator) -> Result<(), AllocError>
    ensures { OnOk result (string_bytes text.new ≡ string_bytes text.old ++ rtt_text rtt.now) }
{
    write_spans(
        text,
        rtt.get().as_nanos(),
        rtt.variance().as_nanos(),
        rtt.min().as_nanos(),
        rtt.latest().as_nanos(),
    )
}

/// Appends the MTU in use, and the bytes in the pacer's bucket: the end of the line.
#[tactic(auto, unfolding(crate::specs::States::room_text))]
fn write_room(text: &mut String, mtu: u16, tokens: u64) -> Result<(), AllocError>
    ensures { OnOk result
        (string_bytes text.new ≡ string_bytes text.old ++ room_text mtu tokens) }
{
    writeln!(text, ",\"mtu\":{mtu},\"pacer_tokens\":{tokens}}}")
}

/// Appends the line of a path's state at a time, in nanoseconds. The only error is lack of memory; nothing is
/// guaranteed about the text then.
pub fn write_state<C: Controller + Drop>(
    text: &mut String,
    time: u64,
    path: &PathData<C>,
) -> Result<(), AllocError>
    ensures { OnOk result
        (string_bytes text.new ≡ string_bytes text.old ++ state_text C.words time path.now) }
{
    write_time(text, time)?;
    write_flight(text, path.in_flight())?;
    write_window(text, &path.congestion.metrics())?;
    write_rtt(text, &path.rtt)?;
    write_room(text, path.current_mtu(), path.pacing.tokens())
}
