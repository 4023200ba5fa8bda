//! A server whose client's address is validated, and changes.
use crate::connection::Connection;
use crate::report::Report;
use crate::{address, at};
use quic_recovery::PathName;
use quic_recovery::below::SpaceId;
use quic_recovery::time::Duration;
use recovery_queue::items::ItemQueue;
use recovery_sender::SenderError;

/// Runs all steps, in order.
pub fn live(report: &mut Report, server: &mut Connection) -> Result<(), SenderError> {
    validate(report, server)?;
    follow(report, server)
}

/// Until the client's address is validated, at most three times the bytes received from it are sent (RFC 9000, 8.1).
fn validate(report: &mut Report, server: &mut Connection) -> Result<(), SenderError> {
    server.datagram_in(PathName::Current, 1200)?;
    for _ in 0..4 {
        let departure = server.transmit(at(0), 1200, SpaceId::Initial)?;
        report.value("the server's datagram", &departure);
    }
    server.sender.on_address_validated();
    let departure = server.transmit(at(0), 1200, SpaceId::Initial)?;
    report.value("with the address validated", &departure);
    Ok(())
}

/// The client's port changes, and then its address (RFC 9000, 9.3 and 9.4).
fn follow(report: &mut Report, server: &mut Connection) -> Result<(), SenderError> {
    hear_client(report, server)?;
    change_port(report, server)?;
    server.datagram_in(PathName::Current, 100)?;
    let is_right = server.path_response(55)?;
    report.value("a response that is right", &is_right);
    server.peer_moved(at(2_000), address(2, 4434), 56)?;
    let is_right = server.path_response(55)?;
    report.value("another address; the old response", &is_right);
    report.round_trip(server, "another address: smoothed ");
    server.network_changed(at(3_000))?;
    server.path_failed()?;
    report.round_trip(server, "no response, so the path before: smoothed ");
    Ok(())
}

fn empty(report: &Report) -> ItemQueue {
    ItemQueue::from_items(Vec::new(report.alloc()))
}

/// A packet is acknowledged within 40 ms.
fn hear_client(report: &mut Report, server: &mut Connection) -> Result<(), SenderError> {
    let number = server.send(SpaceId::Data, at(800), 1000, empty(report))?;
    let ranges = [(number, number)];
    match server.hear_ack(at(840), SpaceId::Data, &ranges, Duration::ZERO, None) {
        Ok(_) => Ok(()),
        Err(refused) => Err(refused),
    }
}

/// A packet is in flight when the client's port changes: the state of the network path is inherited.
fn change_port(report: &mut Report, server: &mut Connection) -> Result<(), SenderError> {
    server.send(SpaceId::Data, at(900), 1000, empty(report))?;
    server.peer_moved(at(1_000), address(1, 4434), 55)?;
    let before = server.in_flight(PathName::Previous)?;
    let after = server.in_flight(PathName::Current)?;
    report.pair(
        "another port: ",
        &before,
        " bytes in flight on the previous path, ",
        &after,
        " here",
    );
    report.round_trip(server, "another port: smoothed ");
    Ok(())
}
