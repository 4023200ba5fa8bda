//! A datagram protocol other than QUIC: it searches for the MTU of its path, and paces what it sends, over a measured
//! link.

mod link;
mod picture;
mod rounds;

use crate::failure::Failure;
use link::{Link, Measured};
use picture::draw;
use rounds::Tunnel;
use std::alloc::Global;

/// Returns the picture of a tunnel over a link with these measurements.
pub fn picture_of(alloc: Global, text: &str) -> Result<String, Failure> {
    let measured = measurements(alloc, text)?;
    let mut tunnel = Tunnel::new(alloc);
    let mut link = Link::new();
    for it in &measured {
        link.learn(*it);
        tunnel.round(link)?;
    }
    Ok(draw(alloc, &tunnel)?)
}

/// Parses measurements, one a line.
fn measurements(alloc: Global, text: &str) -> Result<Vec<Measured>, Failure> {
    let mut found = Vec::new(alloc);
    let mut number: u64 = 0;
    for line in text.lines() {
        number = number.saturating_add(1);
        match Measured::read(line) {
            Some(measured) => found.push(measured).map_err(|_| Failure::NoMemory)?,
            None => return Err(Failure::BadMeasurement(number)),
        }
    }
    Ok(found)
}
