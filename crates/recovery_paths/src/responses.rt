//! PATH_RESPONSE frames to send (RFC 9000, 8.2.2).
ghost use Rattle.std.specs.Prelude.{◌≡◌, ⊤, length, map, [], ◌==◌};
ghost use Rattle.std.specs.List.{list_any};
ghost use Rattle.recovery_paths.specs.Responses.{goes_to, renewed, with_response, last_of, sent_off_path, sent_on_path, responses_left, AreSoundResponses};

use arrayvec::ArrayVec;
use std::marker::Model;
use std::net::{IpAddr, Ipv4Addr, SocketAddr};

/// The response to a PATH_CHALLENGE frame.
#[derive(Clone, Copy)]
struct PathResponse {
    /// Number of the packet that had the challenge.
    packet: u64,
    /// The challenge's data, which is sent back.
    token: u64,
    /// The address from which the challenge was received.
    remote: SocketAddr,
}

/// The value of unused positions.
impl Default for PathResponse {
    ghost is_default = { λ _. ⊤ };

    fn default() -> Self {
        PathResponse {
            packet: 0,
            token: 0,
            remote: SocketAddr::new(IpAddr::V4(Ipv4Addr::new(0, 0, 0, 0)), 0),
        }
    }
}

/// The PATH_RESPONSE frames to send (RFC 9000, 8.2.2): at most 16, one for each address. They allocate nothing.
///
/// In contracts its value is the list of the packets, tokens and addresses, in the order in which the addresses were
/// first received.
#[derive(Drop)]
pub struct PathResponses {
    pending: ArrayVec<PathResponse, 16>,
}

impl Model for PathResponses {
    ghost use Rattle.std.specs.Prelude.{List};
    ghost use Rattle.recovery_paths.specs.declared.responses.PathResponse.{PathResponse};
    ghost use Rattle.recovery_paths.specs.Responses.{AreSoundResponses};

    ghost Value = { List PathResponse };

    ghost view = { λ responses. responses.pending.items };

    ghost invariant = { λ responses. AreSoundResponses responses.pending.items };
}

impl Default for PathResponses {
    ghost is_default = { λ responses. responses ≡ [] };

    fn default() -> Self {
        Self::new()
    }
}

impl PathResponses {
    /// Returns an empty list.
    #[tactic(auto, using(crate::proofs::ResponseLaws::none_sound))]
    pub fn new() -> Self
        ensures none { result ≡ [] }
        ensures sound { AreSoundResponses result }
    {
        PathResponses {
            pending: ArrayVec::new(),
        }
    }

    /// Adds the response to a challenge that was received in this packet, with this data, from this address.
    ///
    /// The response replaces the one to the same address, unless the challenge of that one was received in a newer
    /// packet. A response to a new address is the last. If 16 already wait it is dropped, since no well-behaved peer
    /// probes from that many addresses.
    pub fn push(&mut self, packet: u64, token: u64, remote: SocketAddr)
        ensures kept { self.new
            ≡ with_response (record { packet = packet; token = token; remote = remote }) self.old }
        ensures sound { AreSoundResponses self.new }
    {
        let response = PathResponse {
            packet,
            token,
            remote,
        };
        put(&mut self.pending, response);
    }

    /// Removes the last response, if it is for another address than `remote`, and returns its token and address.
    /// Returns `None` and changes nothing if there is none, or the last one is for `remote`.
    ///
    /// Only the last one is examined, since one for `remote` is soon sent on the path.
    #[tactic(auto, using(crate::proofs::ResponseLaws::take_sound))]
    pub fn pop_off_path(&mut self, remote: SocketAddr) -> Option<(u64, SocketAddr)>
        ensures answer { result ≡ sent_off_path remote (last_of self.old) }
        ensures rest { self.new ≡ responses_left result self.old }
        ensures sound { AreSoundResponses self.new }
    {
        let response = *self.pending.last()?;
        if response.remote == remote {
            return None;
        }
        self.pending.pop();
        Some((response.token, response.remote))
    }

    /// Removes the last response, if it is for `remote`, and returns its token. Returns `None` and changes nothing if
    /// there is none, or the last one is for another address.
    ///
    /// Only the last one is examined, since one for another address is soon sent off the path.
    #[tactic(auto, using(crate::proofs::ResponseLaws::take_sound))]
    pub fn pop_on_path(&mut self, remote: SocketAddr) -> Option<u64>
        ensures answer { result ≡ sent_on_path remote (last_of self.old) }
        ensures rest { self.new ≡ responses_left result self.old }
        ensures sound { AreSoundResponses self.new }
    {
        let response = *self.pending.last()?;
        if response.remote != remote {
            return None;
        }
        self.pending.pop();
        Some(response.token)
    }

    /// Returns whether there is none to send.
    pub fn is_empty(&self) -> bool
        ensures { result ≡ (length self.now == 0) }
    {
        self.pending.is_empty()
    }
}

/// Replaces the response to the same address, or appends a response if there is room.
fn put(pending: &mut ArrayVec<PathResponse, 16>, new: PathResponse)
    ensures { pending.new.items ≡ with_response new pending.old.items }
{
    if has_response(pending.as_slice(), new.remote) {
        renew_among(pending.as_mut_slice(), new);
    } else if !pending.is_full() {
        pending.push(new);
    }
}

fn has_response(responses: &[PathResponse], remote: SocketAddr) -> bool
    ensures { result ≡ list_any (goes_to remote) responses.now }
{
    responses.iter().any(|response| response.remote == remote)
}

fn renew_among(responses: &mut [PathResponse], new: PathResponse)
    ensures { responses.new ≡ map (renewed new) responses.old }
{
    for kept in responses.iter_mut() {
        renew(kept, new);
    }
}

fn renew(kept: &mut PathResponse, new: PathResponse)
    ensures { kept.new ≡ renewed new kept.old }
{
    if kept.remote == new.remote && kept.packet <= new.packet {
        kept.packet = new.packet;
        kept.token = new.token;
    }
}
