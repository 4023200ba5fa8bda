//! A client's connection from start to end, over a path with an RTT of 40 ms.
use crate::acks::Heard;
use crate::at;
use crate::connection::Connection;
use crate::paths::Departure;
use crate::report::Report;
use quic_recovery::below::{
    AckFrequency, ConnectionId, EcnCounts, NewConnectionId, ResetToken, SpaceId, VarInt,
};
use quic_recovery::time::Duration;
use quic_recovery::timer::Timer;
use quic_recovery::{PathName, Refusal};
use recovery_queue::items::ItemQueue;
use recovery_sender::{Acknowledged, EcnOutcome, SenderError};
use std::alloc::Global;

/// Returns a queue of one item.
fn item(alloc: Global, number: u64) -> Result<ItemQueue, SenderError> {
    let mut items = Vec::new(alloc);
    match items.push(number) {
        Ok(()) => Ok(ItemQueue::from_items(items)),
        Err(_) => Err(SenderError::Event(Refusal::NoMemory)),
    }
}

/// Runs all steps, in order.
pub fn live(report: &mut Report, client: &mut Connection) -> Result<(), SenderError> {
    handshake(report, client)?;
    end_handshake(report, client)?;
    peer_ids(report, client)?;
    own_ids(report, client)?;
    acknowledge(report, client)?;
    if let Some(first) = fill_window(report, client)? {
        lose(report, client, first)?;
    }
    send_again(report, client)?;
    count_less(report, client)?;
    mistrust(report, client)?;
    probe(report, client)?;
    grow(report, client)?;
    vanish(report, client)?;
    close(report, client)
}

/// The first packet is sent, and the server answers.
fn handshake(report: &mut Report, client: &mut Connection) -> Result<(), SenderError> {
    let hello = say_hello(report, client)?;
    report.wake(client)?;
    let heard = hear_server(client)?;
    report.value("Initial 0 comes in", &heard);
    ack(client, SpaceId::Initial, 40, (hello, hello), counts(1, 0))?;
    client.acknowledge(report.alloc(), SpaceId::Initial, at(40))?;
    Ok(())
}

/// Sends the first packet. Returns its number.
fn say_hello(report: &mut Report, client: &mut Connection) -> Result<u64, SenderError> {
    let gone = client.transmit(at(0), 1200, SpaceId::Initial)?;
    let hello = client.send(SpaceId::Initial, at(0), 1200, item(report.alloc(), 1)?)?;
    report.packet("Initial", hello, "goes out", &gone);
    Ok(hello)
}

/// Another connection, through a tunnel whose MTU is known: the first packet is sent, and a Retry is received (RFC
/// 9000, 8.1.2).
pub fn try_again(report: &mut Report, client: &mut Connection) -> Result<(), SenderError> {
    client.use_tunnel(1400)?;
    let mtu = client.state().current().current_mtu();
    report.value("through a tunnel, bytes of a datagram", &mtu);
    say_hello(report, client)?;
    let packets = client.sent_in_vain(SpaceId::Initial, at(40))?.numbers.len();
    let items = client.pending(SpaceId::Initial)?;
    report.pair(
        "a Retry: ",
        &packets,
        " packet was sent in vain; the items ",
        &items.items(),
        " wait to be sent again",
    );
    Ok(())
}

/// The server's first datagram is received, with its ID and the Handshake keys.
fn hear_server(client: &mut Connection) -> Result<Heard, SenderError> {
    client.datagram_in(PathName::Current, 1200)?;
    client.server_id(ConnectionId::new(&[7; 8]))?;
    client.sender.on_handshake_keys();
    client.hear(SpaceId::Initial, at(40), 0)
}

/// An ACK frame with one range and these ECN counts is received, `millis` after the beginning.
fn ack(
    client: &mut Connection,
    space: SpaceId,
    millis: u64,
    range: (u64, u64),
    ecn: Option<EcnCounts>,
) -> Result<Acknowledged, SenderError> {
    client.hear_ack(at(millis), space, &[range], Duration::ZERO, ecn)
}

/// Returns counts of packets received with ECT(0), and with CE.
fn counts(ect0: u64, ce: u64) -> Option<EcnCounts> {
    Some(EcnCounts { ect0, ect1: 0, ce })
}

/// Handshake packets, the discarding of the Initial and Handshake keys, and the peer's transport parameters.
fn end_handshake(report: &mut Report, client: &mut Connection) -> Result<(), SenderError> {
    confirm(client, item(report.alloc(), 2)?)?;
    if let Err(refused) = client.hear(SpaceId::Handshake, at(82), 1) {
        report.refusal("Handshake 1 comes late", refused);
    }
    Ok(())
}

/// The handshake is confirmed.
fn confirm(client: &mut Connection, items: ItemQueue) -> Result<(), SenderError> {
    client.hear(SpaceId::Handshake, at(41), 0)?;
    client.peer_parameters(1400, Duration::from_millis(25))?;
    let finished = client.send(SpaceId::Handshake, at(41), 300, items)?;
    client.sender.discard(SpaceId::Initial, at(41))?;
    ack(
        client,
        SpaceId::Handshake,
        81,
        (finished, finished),
        counts(1, 0),
    )?;
    client.confirm(at(81))
}

/// A NEW_CONNECTION_ID frame of the server.
fn new_id(sequence: u64) -> NewConnectionId {
    NewConnectionId {
        sequence,
        retire_prior_to: 0,
        id: ConnectionId::new(&[1; 8]),
        reset_token: ResetToken::from([1; 16]),
    }
}

/// The server issues an ID, and the client uses it.
fn peer_ids(report: &mut Report, client: &mut Connection) -> Result<(), SenderError> {
    if client.new_id(new_id(1))?.is_none() {
        report.line("the server's id 1 is held");
    }
    if let Some((first, end)) = client.next_id()? {
        report.pair("RETIRE_CONNECTION_ID from ", &first, " to below ", &end, "");
    }
    report.value(
        "a datagram with its token resets",
        &client.is_reset([1; 16]),
    );
    Ok(())
}

/// The client issues an ID; its first one has a lifetime of ten seconds, and the server retires it.
fn own_ids(report: &mut Report, client: &mut Connection) -> Result<(), SenderError> {
    let number = client.issue_id(report.alloc(), at(9_000), 9)?;
    report.between("id ", &number, " is issued");
    report.wake(client)?;
    if client.has_expired(Timer::PushNewCid, at(10_000)) && client.id_timer_expired()? {
        let before = client.state().local_ids().retire_prior_to();
        report.between("ids below ", &before, " are to be retired");
    }
    let has_room = client.peer_retired(0, 2)?;
    report.value("id 0 is retired; room for one more", &has_room);
    Ok(())
}

/// Packets are received: immediate ACKs, and delayed ones.
fn acknowledge(report: &mut Report, client: &mut Connection) -> Result<(), SenderError> {
    for number in 0..3 {
        let heard = client.hear(SpaceId::Data, at(11_000), number / 2 * 2)?;
        report.packet("packet", number / 2 * 2, "comes in", &heard);
    }
    let largest = client.acknowledge(report.alloc(), SpaceId::Data, at(11_000))?;
    report.between("an ACK up to ", &largest, " goes out");
    let is_taken = client.ask_fewer_acks(fewer_acks())?;
    let heard = client.hear(SpaceId::Data, at(11_010), 3)?;
    report.pair(
        "fewer ACKs: ",
        &is_taken,
        "; packet 3 comes in: ",
        &heard,
        "",
    );
    wait_for_ack(report, client)?;
    client.acknowledge(report.alloc(), SpaceId::Data, at(11_050))?;
    Ok(())
}

/// The ACK delay timer runs for 40 ms.
fn wait_for_ack(report: &mut Report, client: &mut Connection) -> Result<(), SenderError> {
    let is_due = client.has_expired(Timer::MaxAckDelay, at(11_049));
    report.value("an ACK after 39 ms", &is_due);
    let is_sent = client.ack_timer_expired()?;
    report.value("after 40 ms", &is_sent);
    Ok(())
}

/// An ACK_FREQUENCY frame: an ACK for every tenth packet, at most 40 ms late.
fn fewer_acks() -> AckFrequency {
    AckFrequency {
        sequence: VarInt::from_u32(0),
        ack_eliciting_threshold: VarInt::from_u32(9),
        request_max_ack_delay: VarInt::from_u32(40_000),
        reordering_threshold: VarInt::from_u32(1),
    }
}

/// Sends packets, marked with ECT(0), until the window is full. Returns the number of the first. Then the pacer has no
/// tokens left.
fn fill_window(report: &mut Report, client: &mut Connection) -> Result<Option<u64>, SenderError> {
    client.app_limited = false;
    let burst = client.may_burst(at(11_100), 12_000)?;
    report.value("ten packets in a burst", &burst);
    let first = send_all(report.alloc(), client)?;
    let in_flight = client.in_flight(PathName::Current)?;
    let more = client.may_burst(at(11_100), 1200)?;
    report.pair(
        "",
        &in_flight,
        " bytes are in flight; one more packet: ",
        &more,
        "",
    );
    report.wake(client)?;
    client.stop_timer(Timer::Pacing)?;
    Ok(first)
}

/// Sends what the window has room for. Returns the number of the first packet.
fn send_all(alloc: Global, client: &mut Connection) -> Result<Option<u64>, SenderError> {
    let mut first = None;
    for number in 100..120 {
        match client.transmit(at(11_100), 1200, SpaceId::Data)? {
            Departure::Now => {}
            _ => break,
        }
        let sent = client.send(SpaceId::Data, at(11_100), 1200, item(alloc, number)?)?;
        first = Some(first.unwrap_or(sent));
    }
    Ok(first)
}

/// One ACK of nine packets after the first one is received, which is declared lost (RFC 9002, 6.1.1).
fn lose(report: &mut Report, client: &mut Connection, first: u64) -> Result<(), SenderError> {
    let range = (first.saturating_add(1), first.saturating_add(9));
    let heard = ack(client, SpaceId::Data, 11_140, range, counts(9, 0))?;
    report.between("", &heard.numbers.len(), " of ten packets arrive");
    report.window(client, "one is lost");
    Ok(())
}

/// What was lost is retransmitted, and arrives marked with CE.
fn send_again(report: &mut Report, client: &mut Connection) -> Result<(), SenderError> {
    let items = client.pending(SpaceId::Data)?;
    report.between("the items ", &items.items(), " wait to be sent again");
    let again = client.send(SpaceId::Data, at(11_150), 1200, items)?;
    client.app_limited = true;
    let heard = ack(client, SpaceId::Data, 11_190, (again, again), counts(9, 1))?;
    report.value("packets are marked", &is_marked(&heard));
    report.window(client, "one is marked");
    let heard = ack(client, SpaceId::Data, 11_195, (again, again), counts(9, 1))?;
    report.between(
        "the same ACK again: ",
        &heard.numbers.len(),
        " packets arrive",
    );
    Ok(())
}

/// Returns whether more packets were marked.
fn is_marked(heard: &Acknowledged) -> bool {
    match heard.ecn {
        EcnOutcome::Marked => true,
        _ => false,
    }
}

/// A packet arrives, and the server reports smaller counts than before.
fn count_less(report: &mut Report, client: &mut Connection) -> Result<(), SenderError> {
    let sent = client.send(SpaceId::Data, at(11_156), 1200, item(report.alloc(), 101)?)?;
    ack(client, SpaceId::Data, 11_196, (sent, sent), counts(8, 1))?;
    let sending_ecn = client.state().current().sending_ecn;
    report.value(
        "the server counts fewer; packets go out with ECT(0)",
        &sending_ecn,
    );
    Ok(())
}

/// An ACK of a packet that was not sent: a stack closes the connection (RFC 9000, 13.1).
fn mistrust(report: &mut Report, client: &mut Connection) -> Result<(), SenderError> {
    if let Err(refused) = ack(client, SpaceId::Data, 11_198, (1_000, 1_000), None) {
        report.refusal("an ACK of number 1000: refused", refused);
    }
    Ok(())
}

/// No ACK is received for a packet: probes are sent, the first with what is to be retransmitted. Their ACK shows that
/// the packet is lost.
fn probe(report: &mut Report, client: &mut Connection) -> Result<(), SenderError> {
    client.send(SpaceId::Data, at(11_200), 600, item(report.alloc(), 200)?)?;
    report.wake(client)?;
    let is_over = client.has_expired(Timer::LossDetection, at(12_000));
    report.value("the timer expired", &is_over);
    if let Some((space, count)) = client.loss_timer_expired(at(12_000))? {
        send_probes(report, client, space, count)?;
    }
    report.window(client, "the probes arrive, and the other packet is lost");
    let items = client.pending(SpaceId::Data)?;
    report.between("the items ", &items.items(), " wait to be sent again");
    Ok(())
}

/// This many probes are sent at once, and arrive.
fn send_probes(
    report: &mut Report,
    client: &mut Connection,
    space: SpaceId,
    count: u8,
) -> Result<(), SenderError> {
    let first = send_probe(report, client, space)?;
    let mut last = first;
    for _ in 1..count {
        last = send_probe(report, client, space)?;
    }
    report.wake(client)?;
    ack(client, space, 12_040, (first, last), None)?;
    Ok(())
}

/// Sends a probe, with what waits for retransmission, or else as a PING (RFC 9002, 6.2.4). Returns its number. Since a
/// probe is due, window and pacer do not apply.
fn send_probe(
    report: &mut Report,
    client: &mut Connection,
    space: SpaceId,
) -> Result<u64, SenderError> {
    client.transmit(at(12_000), 600, space)?;
    let items = client.probe(space)?;
    report.between("a probe goes out with the items ", &items.items(), "");
    client.send(space, at(12_000), 600, items)
}

/// Adds the size of datagrams on the path in use.
fn show_mtu(report: &mut Report, client: &Connection, text: &str) {
    let size = client.state().current().current_mtu();
    report.between(text, &size, " bytes");
}

/// A larger MTU is found; the probe of the next size is lost, which is no sign of congestion.
fn grow(report: &mut Report, client: &mut Connection) -> Result<(), SenderError> {
    if let Some(size) = arrive_large(client)? {
        report.between("a probe of ", &size, " bytes arrives");
    }
    if let Some(size) = lose_large(client, item(report.alloc(), 300)?)? {
        report.between("a probe of ", &size, " bytes is lost");
        report.window(client, "the window stays");
    }
    show_mtu(report, client, "datagrams have ");
    Ok(())
}

/// An MTU probe is sent, and arrives. Returns its size.
fn arrive_large(client: &mut Connection) -> Result<Option<u16>, SenderError> {
    let Some((number, size)) = client.probe_mtu(at(13_000))? else {
        return Ok(None);
    };
    ack(client, SpaceId::Data, 13_040, (number, number), None)?;
    Ok(Some(size))
}

/// An MTU probe is sent and lost, while a small packet after it arrives. Returns the size of the probe.
fn lose_large(client: &mut Connection, items: ItemQueue) -> Result<Option<u16>, SenderError> {
    let Some((probe, size)) = client.probe_mtu(at(13_100))? else {
        return Ok(None);
    };
    let small = client.send(SpaceId::Data, at(13_110), 100, items)?;
    let heard = ack(client, SpaceId::Data, 13_150, (small, small), None)?;
    Ok(if heard.losses.probe == Some(probe) {
        Some(size)
    } else {
        None
    })
}

/// Large packets are lost, and small ones arrive.
fn vanish(report: &mut Report, client: &mut Connection) -> Result<(), SenderError> {
    for round in 140..144 {
        let large = item(report.alloc(), round)?;
        let small = item(report.alloc(), round)?;
        send_both(client, round * 100, large, small)?;
        show_mtu(
            report,
            client,
            "a packet of 1300 bytes is lost; datagrams have ",
        );
    }
    Ok(())
}

/// A large and a small packet are sent, `millis` after the beginning, and only the small one arrives.
fn send_both(
    client: &mut Connection,
    millis: u64,
    large: ItemQueue,
    small: ItemQueue,
) -> Result<(), SenderError> {
    client.send(SpaceId::Data, at(millis), 1300, large)?;
    let arrived = client.send(SpaceId::Data, at(millis), 1200, small)?;
    let back = millis.saturating_add(40);
    ack(client, SpaceId::Data, back, (arrived, arrived), None)?;
    client.loss_timer_expired(at(millis.saturating_add(46)))?;
    Ok(())
}

/// The end.
fn close(report: &mut Report, client: &mut Connection) -> Result<(), SenderError> {
    client.close(at(15_000))?;
    let ends = client.next_timeout()?;
    report.value("closing, until a timer expires", &ends.is_some());
    let bytes = client.in_flight(PathName::Current)?;
    report.value("closing, bytes in flight", &bytes);
    Ok(())
}
