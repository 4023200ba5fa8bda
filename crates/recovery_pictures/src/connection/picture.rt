//! Three panels: window and flight, RTT, the pacer's bucket.

use super::curves::Curves;
use crate::panels::{
    KILOBYTE, highest, long_sheet, lower, lowest, name_of, unit_for, up_to, upper,
};
use crate::plot::axis::{Axis, Panel, Point};
use crate::plot::picture::{Mark, Picture, Style};
use std::alloc::{AllocError, Global};

/// Returns the picture of the curves of a run with controllers of this name, and of the window of another one over it.
pub fn draw(
    alloc: Global,
    controller: &str,
    curves: &Curves,
    second: Option<(&str, &Curves)>,
) -> Result<String, AllocError> {
    let mut picture = long_sheet(alloc, "Window, flight and round-trip time");
    let time = time(curves);
    let across = name_across(alloc, &time)?;
    let tallest = second.map_or(0, |(_, others)| highest(&others.window));
    let bytes = over(&curves.window, &curves.flight, KILOBYTE);
    let most = bytes.most.max(tallest);
    let flight = upper(time, Axis { most, ..bytes });
    picture.axes(&flight, across.as_str(), "kB");
    draw_flight(&mut picture, &flight, controller, curves);
    if let Some((other, others)) = second {
        picture.steps(&flight, &others.window, Style::Dashed);
        picture.legend(&flight, 3, other, Mark::Line, Style::Dashed);
    } else {
        picture.steps(&flight, &curves.ssthresh, Style::Dotted);
        picture.legend(&flight, 3, "ssthresh", Mark::Line, Style::Dotted);
    }
    let longest = highest(&curves.samples).max(highest(&curves.smoothed));
    let unit = unit_for(longest);
    let spans = lower(time, over(&curves.samples, &curves.smoothed, unit));
    picture.axes(&spans, across.as_str(), name_of(unit));
    draw_rtt(&mut picture, &spans, curves);
    let bucket = lowest(time, over(&curves.tokens, &[], KILOBYTE));
    picture.axes(&bucket, across.as_str(), "kB");
    picture.steps(&bucket, &curves.tokens, Style::Solid);
    picture.legend(&bucket, 0, "the pacer's bucket", Mark::Line, Style::Solid);
    picture.finish()
}

/// Returns the axis of time, whose numbers count from the first time of the script.
fn time(curves: &Curves) -> Axis {
    let end = curves.end();
    Axis {
        least: curves.from,
        most: end,
        unit: unit_for(end.saturating_sub(curves.from)),
        zero: curves.first,
    }
}

/// Returns the unit of the axis of time.
fn name_across(alloc: Global, time: &Axis) -> Result<String, AllocError> {
    let unit = name_of(time.unit);
    match time.zero {
        0 => format!(in alloc; "time, {unit}"),
        zero => format!(in alloc; "time from {zero} ns on, {unit}"),
    }
}

/// Returns an axis up to a tenth above the highest of these points.
fn over(points: &[Point], others: &[Point], unit: u64) -> Axis {
    let highest = highest(points).max(highest(others));
    up_to(highest.saturating_add(highest / 10).max(unit), unit)
}

fn draw_flight(picture: &mut Picture, panel: &Panel, controller: &str, curves: &Curves) {
    picture.steps(panel, &curves.flight, Style::Thin);
    picture.steps(panel, &curves.window, Style::Solid);
    picture.ticks(panel, &curves.probes, Style::Solid);
    picture.ticks(panel, &curves.losses, Style::Dashed);
    picture.legend(panel, 4, controller, Mark::Line, Style::Solid);
    picture.legend(panel, 2, "bytes in flight", Mark::Line, Style::Thin);
    picture.legend(panel, 1, "a probe is due", Mark::Tick, Style::Solid);
    picture.legend(panel, 0, "a packet is lost", Mark::Tick, Style::Dashed);
}

fn draw_rtt(picture: &mut Picture, panel: &Panel, curves: &Curves) {
    picture.dots(panel, &curves.samples, Style::Thin);
    picture.steps(panel, &curves.smoothed, Style::Solid);
    picture.legend(panel, 1, "smoothed", Mark::Line, Style::Solid);
    picture.legend(panel, 0, "measured", Mark::Dot, Style::Thin);
}
