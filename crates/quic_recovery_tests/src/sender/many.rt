//! Frames, passes and spaces with 200 packets.
use quic_recovery_rows::config::{settings, words};
use quic_recovery_rows::events::at;
use quic_recovery_rows::tally::Tally;
use rand_pcg::Pcg32;
use recovery_base::below::SpaceId;
use recovery_base::time::Duration;
use recovery_congestion::congestion::NewRenoConfig;
use recovery_losses::{Ack, Side};
use recovery_sender::{Acknowledged, Retransmitted, Sender, SenderError};

type Reno = Sender<NewRenoConfig, Tally, Pcg32>;

/// Sends this many 1-RTT packets at once. Returns whether all are sent.
fn send(sender: &mut Reno, count: u64) -> bool {
    let mut all = true;
    for _ in 0..count {
        let nothing = Tally { bytes: 0 };
        let reply = sender.send(SpaceId::Data, at(0), 100, true, None, nothing, 0);
        all &= reply.is_ok();
    }
    all
}

/// A frame with one range.
fn on_ack(sender: &mut Reno, first: u64, last: u64) -> Result<Acknowledged, SenderError> {
    let ack = Ack {
        delay: Duration::ZERO,
        ecn: None,
        app_limited: false,
        received: None,
    };
    sender.on_ack(SpaceId::Data, at(100_000_000), &[(first, last)], ack)
}

/// Returns whether these are 200 consecutive numbers from `first` on.
fn are_200(numbers: &[u64], first: u64) -> bool {
    let mut next = first;
    for number in numbers {
        if *number != next {
            return false;
        }
        next = next.saturating_add(1);
    }
    numbers.len() == 200
}

/// A frame acknowledges 200 packets.
fn are_acked(reply: &Result<Acknowledged, SenderError>, first: u64) -> bool {
    match reply {
        Ok(acked) => are_200(&acked.numbers, first) && acked.losses.numbers.is_empty(),
        Err(_) => false,
    }
}

/// A frame acknowledges one packet, by which 200 are lost.
fn are_lost(reply: &Result<Acknowledged, SenderError>, first: u64) -> bool {
    match reply {
        Ok(acked) => acked.numbers.len() == 1 && are_200(&acked.losses.numbers, first),
        Err(_) => false,
    }
}

/// The packets of a space are 200, and all are declared lost.
fn are_retransmitted(reply: &Result<Retransmitted, SenderError>) -> bool {
    match reply {
        Ok(all) => all.numbers.len() == 200 && !all.is_cut,
        Err(_) => false,
    }
}

/// A frame acknowledges 200 packets. Another acknowledges the last of 203, by which 200 are lost (RFC 9002, 6.1.1). The
/// two that are left, and 198 more, are then all declared lost.
fn are_right(sender: &mut Reno) -> bool {
    if !send(sender, 200) {
        return false;
    }
    let acked = on_ack(sender, 0, 199);
    if !send(sender, 203) {
        return false;
    }
    let lost = on_ack(sender, 402, 402);
    if !send(sender, 198) {
        return false;
    }
    let rest = sender.retransmit_all(SpaceId::Data, at(100_000_000));
    are_acked(&acked, 0) && are_lost(&lost, 200) && are_retransmitted(&rest)
}

#[test]
fn two_hundred_packets(rt: HostRuntime) {
    let is_right = match Sender::new(rt.alloc(), Side::Server, settings(8), words(), at(0)) {
        Ok(mut sender) => {
            let is_right = are_right(&mut sender);
            drop(sender);
            is_right
        }
        Err(_) => false,
    };
    assert!(rt; is_right, "200 packets");
}
