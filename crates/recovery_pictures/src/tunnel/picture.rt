//! Two panels: the MTU search above, the first burst below.

use super::rounds::{LARGEST, Tunnel};
use crate::panels::{MILLISECOND, SECOND, highest, lower, sheet, up_to, upper};
use crate::plot::axis::Axis;
use crate::plot::picture::{Mark, Picture, Style};
use std::alloc::{AllocError, Global};

/// Returns the picture of what happened in a tunnel.
pub fn draw(alloc: Global, tunnel: &Tunnel) -> Result<String, AllocError> {
    let mut picture = sheet(alloc, "The MTU of a path, and a burst that is paced");
    draw_search(&mut picture, tunnel);
    draw_burst(&mut picture, tunnel);
    picture.finish()
}

fn draw_search(picture: &mut Picture, tunnel: &Tunnel) {
    let sizes = Axis {
        least: 1180,
        most: u64::from(LARGEST) + 20,
        unit: 1,
        zero: 0,
    };
    let panel = upper(up_to(tunnel.now(), SECOND), sizes);
    picture.axes(&panel, "time, s", "bytes");
    picture.steps(&panel, &tunnel.bound, Style::Thin);
    picture.steps(&panel, &tunnel.mtu, Style::Solid);
    picture.dots(&panel, &tunnel.arrived, Style::Dotted);
    picture.rings(&panel, &tunnel.lost, Style::Dashed);
    picture.ticks(&panel, &tunnel.holes, Style::Dashed);
    picture.legend(&panel, 4, "MTU in use", Mark::Line, Style::Solid);
    picture.legend(&panel, 3, "not ruled out", Mark::Line, Style::Thin);
    picture.legend(&panel, 2, "arrives", Mark::Dot, Style::Dotted);
    picture.legend(&panel, 1, "is lost", Mark::Ring, Style::Dashed);
    picture.legend(&panel, 0, "a black hole", Mark::Tick, Style::Dashed);
}

fn draw_burst(picture: &mut Picture, tunnel: &Tunnel) {
    let last = tunnel.burst.last().map_or(0, |last| last.x);
    let time = up_to(last.saturating_add(MILLISECOND), MILLISECOND);
    let panel = lower(time, up_to(highest(&tunnel.burst), 1));
    picture.axes(
        &panel,
        "time, ms",
        "bytes of the first burst, moment by moment",
    );
    picture.bars(&panel, &tunnel.burst, Style::Solid);
}
