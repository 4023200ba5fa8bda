//! Enums by their numbers, and other values of the interface.
ghost use Rattle.std.specs.Prelude.{◌≡◌, ◌≤◌, ◌<◌, Decides, IfOk, OnErr, length, map};
ghost use Rattle.std.specs.List.{All};
ghost use Rattle.recovery_base.specs.Ids.{longest_cid};
ghost use Rattle.recovery_engine.specs.Replies.{IsWritten};
ghost use Rattle.recovery_stack.specs.Codes.{space_coded, timer_coded, path_coded, maybe, nanos_shown, issued_of, cid, request, span, spans, IsSocketAddress};

use recovery_base::below::{
    AckFrequency, ConnectionId, IssuedCid, NoMemory, ResetToken, SpaceId, VarInt,
};
use recovery_base::time::Duration;
use recovery_base::timer::Timer;
use recovery_engine::spelling::copy_numbers;
use recovery_paths::path_pair::PathName;
use recovery_queue::items::ItemQueue;
use recovery_queue::queue::RetransmitQueue;
use std::alloc::Global;
use std::net::{Ipv4Addr, Ipv6Addr, SocketAddr, SocketAddrV4, SocketAddrV6};

/// An address and a port.
#[repr(C)]
#[derive(Clone, Copy)]
pub struct Address {
    /// The octets of an IPv6 address; for an IPv4 address, the first four.
    pub octets: [u8; 16],
    /// The flow information of an IPv6 address.
    pub flowinfo: u32,
    /// The scope of an IPv6 address.
    pub scope_id: u32,
    /// The port.
    pub port: u16,
    /// Whether it is an IPv6 address.
    pub v6: bool,
}

/// A connection ID that the local endpoint issues (RFC 9000, 19.15).
#[repr(C)]
#[derive(Clone, Copy)]
pub struct Id {
    /// Its sequence number.
    pub sequence: u64,
    /// Its bytes, of which the first `len` count.
    pub bytes: [u8; 20],
    /// Its stateless reset token.
    pub token: [u8; 16],
    /// How many bytes it has, at most 20.
    pub len: u8,
}

/// Returns the packet number space with a number, if any (RFC 9000, 12.3).
pub fn space_coded(code: u8) -> Option<SpaceId>
    ensures { result ≡ space_coded code }
{
    match code {
        0 => Some(SpaceId::Initial),
        1 => Some(SpaceId::Handshake),
        2 => Some(SpaceId::Data),
        _ => None,
    }
}

/// Returns the timer with a number, if any: its index in the enum, from 0.
pub fn timer_coded(code: u8) -> Option<Timer>
    ensures { result ≡ timer_coded code }
{
    Timer::VALUES.get(usize::from(code)).copied()
}

/// Returns which of the two paths: the previous one, or else the one in use.
pub fn path_coded(previous: bool) -> PathName
    ensures { result ≡ path_coded previous }
{
    if previous {
        PathName::Previous
    } else {
        PathName::Current
    }
}

/// Returns the number if `some`. Otherwise the number is ignored.
pub fn maybe(some: bool, number: u64) -> Option<u64>
    ensures { result ≡ maybe some number }
{
    if some { Some(number) } else { None }
}

/// Returns the contents of an ACK_FREQUENCY frame, if each of its numbers is below 2^62.
pub fn request(sequence: u64, threshold: u64, micros: u64, reordering: u64) -> Option<AckFrequency>
    ensures { result ≡ request sequence threshold micros reordering }
{
    Some(AckFrequency {
        sequence: VarInt::from_u64(sequence).ok()?,
        ack_eliciting_threshold: VarInt::from_u64(threshold).ok()?,
        request_max_ack_delay: VarInt::from_u64(micros).ok()?,
        reordering_threshold: VarInt::from_u64(reordering).ok()?,
    })
}

/// Returns a connection ID, if it has at most 20 bytes.
pub fn cid(bytes: &[u8]) -> Option<ConnectionId>
    ensures { result ≡ cid bytes.now }
{
    if bytes.len() <= 20 {
        Some(ConnectionId::new(bytes))
    } else {
        None
    }
}

/// Returns a queue of these items. Allocates nothing for two or fewer.
pub fn queue_of(alloc: Global, items: &[u64]) -> Result<ItemQueue, NoMemory>
    ensures items { IfOk result (λ queue. queue ≡ items.now) }
    ensures memory { OnErr result (2 < length items.now) }
{
    if items.is_empty() {
        return Ok(ItemQueue::empty(alloc));
    }
    Ok(ItemQueue::from_slice(alloc, items)?)
}

/// Returns the count of the items, and writes them if there is room for all.
pub fn copy_items(queue: &ItemQueue, out: &mut [u64]) -> usize
    ensures { IsWritten queue.now out.old result out.new }
{
    copy_numbers(queue.items(), out)
}

/// Returns an ID in the form in which it is issued.
fn issued_of(given: &Id) -> IssuedCid
    requires { given.now.len ≤ longest_cid }
    ensures { result ≡ issued_of given.now }
{
    IssuedCid {
        sequence: given.sequence,
        id: ConnectionId::new(&given.bytes[..usize::from(given.len)]),
        reset_token: ResetToken::from(given.token),
    }
}

/// Returns whether each ID has at most 20 bytes.
pub fn are_ids(given: &[Id]) -> bool
    ensures { Decides result (All (λ id. id.len ≤ longest_cid) given.now) }
{
    given.iter().all(|id| id.len <= 20)
}

/// Returns IDs in the form in which they are issued, in the same order. Allocates nothing if there are none.
pub fn ids_of(alloc: Global, given: &[Id]) -> Result<Vec<IssuedCid>, NoMemory>
    requires { All (λ id. id.len ≤ longest_cid) given.now }
    ensures ids { IfOk result (λ ids. ids.items ≡ map issued_of given.now) }
    ensures memory { OnErr result (0 < length given.now) }
{
    let mut ids = Vec::new(alloc);
    ids.reserve_exact(given.len())?;
    for id in given {
        ids.push_reserved(issued_of(id));
    }
    Ok(ids)
}

/// Returns the given address.
pub fn socket_of(given: &Address) -> SocketAddr
    ensures { IsSocketAddress given.now result }
{
    let octets = given.octets;
    if given.v6 {
        SocketAddr::V6(SocketAddrV6::new(
            Ipv6Addr::from_octets(octets),
            given.port,
            given.flowinfo,
            given.scope_id,
        ))
    } else {
        let ip = Ipv4Addr::new(octets[0], octets[1], octets[2], octets[3]);
        SocketAddr::V4(SocketAddrV4::new(ip, given.port))
    }
}

/// Returns a duration of seconds and nanoseconds, if these are below 10^9.
pub fn span(secs: u64, nanos: u32) -> Option<Duration>
    ensures { result ≡ span secs nanos }
{
    if nanos < 1_000_000_000 {
        Duration::checked_from_nanos(u128::from(secs) * 1_000_000_000 + u128::from(nanos))
    } else {
        None
    }
}

/// Returns two durations.
pub fn spans(
    delay_secs: u64,
    delay_nanos: u32,
    rtt_secs: u64,
    rtt_nanos: u32,
) -> Option<(Duration, Duration)>
    ensures { result ≡ spans delay_secs delay_nanos rtt_secs rtt_nanos }
{
    Some((span(delay_secs, delay_nanos)?, span(rtt_secs, rtt_nanos)?))
}

/// Returns the nanoseconds of a duration, at most `u64::MAX`.
pub fn nanos_shown(span: Duration) -> u64
    ensures { result ≡ nanos_shown span }
{
    u64::try_from(span.as_nanos()).unwrap_or(u64::MAX)
}
