//! The recovery of a running connection.
use super::*;
use quic_recovery::LiveRecovery;
use rand_pcg::Pcg32;
use recovery_paths::path_pair::PathName;
use recovery_paths::paths::PathMarks;
use recovery_paths::responses::PathResponses;

type Live = LiveRecovery<NewRenoConfig, Tally, Pcg32>;

fn apply(rt: &impl Abort, live: &mut Live) {
    let rows = [
        (received(SpaceId::Data, 0, true), new(true)),
        (received(SpaceId::Data, 0, true), DUPLICATE),
        (send(SpaceId::Data, 500, true), sent(0, None)),
    ];
    for (event, want) in rows {
        let reply = live.apply(event);
        right(rt, runs::same(0, &reply, &want));
    }
}

/// Asserts which marks were set, and replaces them by these.
fn marked(rt: &impl Abort, live: &mut Live) {
    let marks = PathMarks {
        sending_ecn: false,
        challenge: Some(7),
        challenge_pending: true,
        path_responses: PathResponses::new(),
        first_packet_after_rtt_sample: Some((SpaceId::Data, 0)),
    };
    let is_fresh = match live.set_marks(PathName::Current, marks) {
        Some(before) => before.sending_ecn && before.challenge == None,
        None => false,
    };
    holds(rt, is_fresh, 1);
}

/// A 1-RTT packet is to be declared lost at 9.
fn leaves_marks(rt: &impl Abort, left: &Reno) {
    let data = kept(rt, left, SpaceId::Data);
    holds(rt, data.loss_time == Some(at(9)), 2);
    let initial = kept(rt, left, SpaceId::Initial);
    holds(rt, initial.loss_time == None, 3);
    let path = left.current();
    let is_marked = path.in_flight().bytes == 500
        && !path.sending_ecn
        && path.challenge == Some(7)
        && path.challenge_pending
        && path.first_packet_after_rtt_sample == Some((SpaceId::Data, 0));
    holds(rt, is_marked, 4);
}

/// The example in the comment of `LiveRecovery`. Returns whether the packet is new.
fn hear(live: &mut Live) -> bool {
    let packet = Event::Received {
        space: SpaceId::Handshake,
        now: at(5),
        number: 0,
        ack_eliciting: true,
    };
    match live.apply(packet) {
        // Process the frames of the packet.
        Ok(Answer::New { .. }) => true,
        // A duplicate: drop the packet.
        Ok(_) => false,
        // The call failed, and nothing has changed.
        Err(_) => false,
    }
}

fn play(rt: &impl Abort, live: &mut Live) {
    holds(rt, hear(live), 0);
    apply(rt, live);
    marked(rt, live);
    live.set_loss_time(SpaceId::Data, Some(at(9)));
    leaves_marks(rt, live.recovery());
}

#[test]
fn events_come_one_at_a_time(rt: HostRuntime) {
    match LiveRecovery::new(rt.alloc(), settings(8), words(), at(0)) {
        Ok(mut live) => {
            play(&rt, &mut live);
            drop(live);
        }
        Err(_) => panic!(&rt; "NoMemory"),
    }
}
