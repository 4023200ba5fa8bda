//! Responses to path challenges. A row is a call and its result.
use recovery_paths::responses::PathResponses;
use std::net::{IpAddr, Ipv4Addr, SocketAddr};
use std::process::Abort;

#[derive(Clone, Copy)]
enum Call {
    /// A challenge was received: its packet, its token, and the last octet of its address.
    Pushes(u64, u64, u8),
    /// A response is to be sent to another address than this.
    OffPath(u8),
    /// One is to be sent to this address.
    OnPath(u8),
}

use Call::{OffPath, OnPath, Pushes};

/// The token that is returned, and its address.
type Sent = Option<(u64, u8)>;

fn address(octet: u8) -> SocketAddr {
    SocketAddr::new(IpAddr::V4(Ipv4Addr::new(192, 0, 2, octet)), 4433)
}

fn last_octet(address: SocketAddr) -> u8 {
    match address.ip() {
        IpAddr::V4(ip) => ip.octets()[3],
        IpAddr::V6(_) => 0,
    }
}

fn apply(responses: &mut PathResponses, call: Call) -> Sent {
    match call {
        Pushes(packet, token, remote) => {
            responses.push(packet, token, address(remote));
            None
        }
        OffPath(remote) => {
            let (token, to) = responses.pop_off_path(address(remote))?;
            Some((token, last_octet(to)))
        }
        OnPath(remote) => Some((responses.pop_on_path(address(remote))?, remote)),
    }
}

/// Asserts that each row returns the expected response.
fn play(rt: &impl Abort, responses: &mut PathResponses, rows: &[(Call, Sent)]) {
    let mut place = 0u64;
    for (call, wanted) in rows {
        let sent = apply(responses, *call);
        assert!(rt; sent == *wanted, "row {place}");
        place = place.saturating_add(1);
    }
}

const A: u8 = 1;

const B: u8 = 2;

#[test]
fn one_an_address_and_the_last_goes_first(rt: HostRuntime) {
    let mut responses = PathResponses::default();
    assert!(rt; responses.is_empty());
    play(
        &rt,
        &mut responses,
        &[
            (Pushes(5, 1, A), None),
            (Pushes(7, 2, B), None),
            (Pushes(4, 3, A), None),
            (Pushes(7, 9, B), None),
            (OnPath(A), None),
            (OffPath(A), Some((9, B))),
            (OffPath(A), None),
        ],
    );
    assert!(rt; !responses.is_empty());
    play(
        &rt,
        &mut responses,
        &[(OnPath(A), Some((1, A))), (OnPath(A), None)],
    );
    assert!(rt; responses.is_empty());
}

#[test]
fn the_seventeenth_address_is_ignored(rt: HostRuntime) {
    let mut responses = PathResponses::new();
    for octet in 1..=17u8 {
        responses.push(0, u64::from(octet), address(octet));
    }
    play(
        &rt,
        &mut responses,
        &[
            (OnPath(17), None),
            (OnPath(16), Some((16, 16))),
            (Pushes(0, 17, 17), None),
            (OffPath(A), Some((17, 17))),
            (OffPath(A), Some((15, 15))),
        ],
    );
}
