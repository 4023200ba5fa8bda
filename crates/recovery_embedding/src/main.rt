//! An example of a QUIC stack over the sender: which calls it makes, and what it does with the answers.
//! docs/EMBEDDING.md explains it.
#![tactic(auto)]

mod acks;
mod arrivals;
mod client;
mod connection;
mod failure;
mod ids;
mod mtu;
mod packets;
mod paths;
mod report;
mod server;
mod timers;

use connection::Connection;
use failure::Failure;
use quic_recovery::Refusal;
use quic_recovery::below::NoMemory;
use quic_recovery::time::{Duration, Instant};
use rand_core::SeedableRng;
use rand_pcg::Pcg32;
use recovery_sender::{Sender, SenderError, Side};
use report::Report;
use std::alloc::Global;
use std::net::{IpAddr, Ipv4Addr, SocketAddr};

/// Returns the time this many milliseconds after the beginning.
fn at(millis: u64) -> Instant {
    Instant::from_nanos(0) + Duration::from_millis(millis)
}

/// Returns an address of the peer.
fn address(host: u8, port: u16) -> SocketAddr {
    SocketAddr::new(IpAddr::V4(Ipv4Addr::new(192, 0, 2, host)), port)
}

/// Returns one endpoint of a connection without any event, which may search for a larger MTU.
fn begin(alloc: Global, side: Side, searches: bool) -> Result<Connection, SenderError> {
    let mut config = connection::config(address(1, 4433));
    config.allow_mtud(searches);
    // A program that prints the same each time: a stack seeds a generator that its peers cannot guess.
    let rng = Pcg32::seed_from_u64(0);
    match Sender::new(alloc, side, config, rng, at(0)) {
        Ok(sender) => Ok(Connection::new(sender)),
        Err(NoMemory) => Err(SenderError::Event(Refusal::NoMemory)),
    }
}

fn live_as_client(report: &mut Report) -> Result<(), SenderError> {
    let mut client = begin(report.alloc(), Side::Client, true)?;
    let lived = client::live(report, &mut client);
    drop(client);
    lived
}

fn live_as_server(report: &mut Report) -> Result<(), SenderError> {
    let mut server = begin(report.alloc(), Side::Server, true)?;
    let lived = server::live(report, &mut server);
    drop(server);
    lived
}

/// A client in a tunnel, whose server first validates its address.
fn live_behind_retry(report: &mut Report) -> Result<(), SenderError> {
    let mut client = begin(report.alloc(), Side::Client, false)?;
    let lived = client::try_again(report, &mut client);
    drop(client);
    lived
}

/// Runs all of them. Returns what they print, as far as they ran.
fn live(report: &mut Report) -> Result<(), SenderError> {
    live_as_client(report)?;
    live_as_server(report)?;
    live_behind_retry(report)
}

fn main(rt: HostRuntime) -> Result<(), Failure> {
    let mut report = Report::new(rt.alloc());
    let lived = live(&mut report);
    let text = report.finish()?;
    print!(rt; "{text}")?;
    lived?;
    Ok(())
}
