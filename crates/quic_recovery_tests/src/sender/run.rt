//! A run of a sender over a list of calls.
use quic_recovery_rows::config::{settings, words};
use quic_recovery_rows::events::at;
use quic_recovery_rows::tally::Tally;
use rand_pcg::Pcg32;
use recovery_base::below::SpaceId;
use recovery_base::time::Duration;
use recovery_congestion::congestion::NewRenoConfig;
use recovery_events::event::Event;
use recovery_losses::{Ack, Side};
use recovery_sender::{Call, CallRecord, CallReplyValue, Frame, Sender, run};
use std::alloc::Global;

/// A 1-RTT packet is sent.
fn send(now: u64) -> Call<Tally> {
    Call::Event(Event::Send {
        space: SpaceId::Data,
        now: at(now),
        size: 1000,
        ack_eliciting: true,
        largest_acked: None,
        queue: Tally { bytes: 0 },
        stream_frames: 0,
    })
}

/// It alone is acknowledged.
fn ack(alloc: Global, now: u64) -> Call<Tally> {
    let mut ranges = Vec::new(alloc);
    let _room = ranges.push((0, 0));
    Call::Ack(Frame {
        space: SpaceId::Data,
        now: at(now),
        ranges,
        ack: Ack {
            delay: Duration::ZERO,
            ecn: None,
            app_limited: false,
            received: None,
        },
    })
}

/// Returns whether a record has this timer and this count of acknowledged packets.
fn is_said(said: &[CallRecord<Tally>], place: usize, wanted: Option<u64>, acked: usize) -> bool {
    match said.get(place) {
        Some(CallRecord { reply, timer }) => {
            let found = match reply {
                Ok(CallReplyValue::Acknowledged(acknowledged)) => acknowledged.numbers.len(),
                _ => 0,
            };
            *timer == wanted.map(at) && found == acked
        }
        None => false,
    }
}

/// Returns whether each call has the expected answer, and no timer is left.
fn is_right(sender: &Sender<NewRenoConfig, Tally, Pcg32>, said: &[CallRecord<Tally>]) -> bool {
    said.len() == 4
        && is_said(said, 1, None, 0)
        && is_said(said, 2, Some(1_024_000_000), 0)
        && is_said(said, 3, None, 1)
        && sender.loss_detection_timer().is_none()
}

/// A server whose handshake is confirmed sends a packet. The timer is a probe timeout later: 333 ms, four times half of
/// that, and the peer's 25 ms (RFC 9002, 6.2.1 and 6.2.2). The packet is acknowledged, and no timer is left.
#[test]
fn calls_one_after_another(rt: HostRuntime) {
    let alloc = rt.alloc();
    let mut calls = Vec::new(alloc);
    let _room = calls.push(Call::AddressValidated);
    let _room = calls.push(Call::HandshakeConfirmed);
    let _room = calls.push(send(0));
    let _room = calls.push(ack(alloc, 100_000_000));
    let ran = run(alloc, Side::Server, settings(8), words(), at(0), calls);
    let is_right = match ran {
        Ok((sender, said)) => {
            let is_right = is_right(&sender, &said);
            drop((sender, said));
            is_right
        }
        Err(_) => false,
    };
    assert!(rt; is_right, "a run");
}
