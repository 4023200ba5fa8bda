//! The paths of a connection: the one in use, and the one that was in use before it (RFC 9000, 9).
ghost use Rattle.std.specs.Prelude.{◌≡◌, ◌↔◌, ◌<◌, ◌≤◌, ◌+◌, ◌^◌, None, OnOk, OnErr, IfOk, IsErrOf, IsSomeAnd, is_some, option_map, option_copied};
ghost use Rattle.std.specs.Option.{ForSome, IfSome, SomeIff};
ghost use Rattle.recovery_base.specs.Units.{u64_limit};
ghost use Rattle.recovery_congestion.specs.Calls.{sends};
ghost use Rattle.recovery_spaces.specs.InFlight.{Overflows};
ghost use Rattle.recovery_spaces.specs.Packets.{forgotten_entry, after_sending};
ghost use Rattle.recovery_spaces.specs.Paths.{generation_of, counters_of, IsCountedOn};
ghost use Rattle.recovery_spaces.specs.Spaces.{tracking_of, with_tracking, packets_of, space_empties};
ghost use Rattle.recovery_paths.specs.PathPair.{IsCountedOnEach, AreCountedOnEach, CanTrackOn, paths_after_sending, paths_without, paths_losing, paths_acking, path_left_by};
ghost use Rattle.recovery_paths.specs.PathLog.{path_of, on_path_of, moved_to, reverted, each_path};
ghost use Rattle.recovery_paths.specs.PathMaking.{path_settings, state_resumed};
ghost use Rattle.recovery_paths.specs.declared.path_pair.PathName.TheVariants.{Current};
ghost use Rattle.recovery_paths.specs.PathStates.{on_state, with_marks, after_receiving, after_telling, after_validation, is_path_probe};

use crate::paths::{PathData, PathMarks, TotalOverflow};
use recovery_base::below::SpaceId;
use recovery_base::time::Instant;
use recovery_config::config::TransportConfig;
use recovery_congestion::congestion::{Controller, ControllerFactory};
use recovery_queue::queue::RetransmitQueue;
use recovery_spaces::paths::{InFlight, LedgerError};
use recovery_spaces::spaces::{PacketSpace, SentPacket};
use std::marker::Model;
use std::mem;
use thiserror::Error;

/// The name of a path.
#[derive(Clone, Copy)]
pub enum PathName {
    /// The path in use.
    Current,
    /// The path in use before it, until it is dropped.
    Previous,
}

/// Why a received datagram is not counted. The paths are unchanged.
#[derive(Clone, Copy, Debug, PartialEq, Eq, Error)]
pub enum DatagramError {
    /// The path does not exist.
    #[error("there is no such path")]
    NoSuchPath,
    /// The bytes received on the path would exceed `u64::MAX`.
    #[error("the total would exceed 2^64 - 1 bytes")]
    Overflow,
}

/// At most two paths. A packet is counted on the path on which it was sent, as long as that exists.
#[derive(Drop)]
pub struct PathPair<C: Controller> {
    /// The path in use.
    pub current: PathData<C>,
    previous: Option<PathData<C>>,
    made: u64,
}

impl<C: Controller> Model for PathPair<C> {
    ghost use Rattle.recovery_paths.specs.PathLog.{PerPath};
    ghost use Rattle.recovery_paths.specs.PathStates.{Path};

    ghost Value = { PerPath (Path C.Content) };

    ghost view = { λ paths. record {
      current = paths.current;
      previous = paths.previous;
      made = paths.made;
    } };
}

impl<C: Controller + Drop> PathPair<C> {
    /// Returns a pair with the first path only.
    pub fn new(current: PathData<C>) -> Self
        ensures { result
            ≡ record { current = current; previous = None; made = generation_of current.ledger } }
    {
        let made = current.generation();
        PathPair {
            current,
            previous: None,
            made,
        }
    }

    /// Returns the path in use before the current one, unless it was dropped.
    pub fn previous(&self) -> Option<&PathData<C>>
        ensures { option_copied result ≡ self.now.previous }
    {
        self.previous.as_ref()
    }

    /// Returns the generation of the next path, above those of all paths made so far. Packets of dropped paths may
    /// still be tracked, so their generations are not reused. `None` if 2^64 paths were made.
    pub fn next_generation(&self) -> Option<u64>
        ensures { SomeIff result (self.now.made + 1 < u64_limit) (self.now.made + 1) }
    {
        self.made.checked_add(1)
    }

    /// Returns how many paths were made before the one in use: the generation of packets that are sent.
    pub fn generation(&self) -> u64
        ensures { result ≡ generation_of self.now.current.ledger }
    {
        self.current.generation()
    }

    /// Returns what is in flight on a path (RFC 9002, B.2), if it exists.
    pub fn in_flight(&self, name: PathName) -> Option<InFlight>
        ensures { result ≡ option_map (λ path. counters_of path.ledger) (path_of name self.now) }
    {
        match name {
            PathName::Current => Some(self.current.in_flight()),
            PathName::Previous => Some(self.previous.as_ref()?.in_flight()),
        }
    }

    /// Counts a datagram of this many bytes received on a path (RFC 9000, 8.1). Rejected with `NoSuchPath`, then with
    /// `Overflow`; an error changes nothing.
    pub fn receive_datagram(&mut self, name: PathName, bytes: u64) -> Result<(), DatagramError>
        ensures ok { OnOk result
            (self.new ≡ on_path_of name (on_state (after_receiving bytes)) self.old) }
        ensures no_path { IsErrOf result DatagramError.NoSuchPath ↔ (path_of name self.old ≡ None) }
        ensures overflow { IsErrOf result DatagramError.Overflow
            ↔ IsSomeAnd (path_of name self.old)
            (λ path. u64_limit ≤ path.state.total_recvd + bytes) }
        ensures err { OnErr result (self.new ≡ self.old) }
    {
        match name {
            PathName::Current => self.current.receive_datagram(bytes).map_err(overflow),
            PathName::Previous => match &mut self.previous {
                Some(path) => path.receive_datagram(bytes).map_err(overflow),
                None => Err(DatagramError::NoSuchPath),
            },
        }
    }

    /// Marks a path's address as validated (RFC 9000, 8.2). Returns false and changes nothing if the path does not
    /// exist.
    pub fn validate(&mut self, name: PathName) -> bool
        ensures lives { result ≡ is_some (path_of name self.old) }
        ensures after { self.new ≡ on_path_of name (on_state after_validation) self.old }
    {
        match name {
            PathName::Current => {
                self.current.validate();
                true
            }
            PathName::Previous => match &mut self.previous {
                Some(path) => {
                    path.validate();
                    true
                }
                None => false,
            },
        }
    }

    /// Stores the caller's marks of a path and returns the previous ones. Returns `None` and changes nothing if the
    /// path does not exist.
    pub fn set_marks(&mut self, name: PathName, marks: PathMarks) -> Option<PathMarks>
        ensures before { result ≡ option_map (λ path. path.marks) (path_of name self.old) }
        ensures after { self.new ≡ on_path_of name (with_marks marks) self.old }
    {
        match name {
            PathName::Current => Some(self.current.set_marks(marks)),
            PathName::Previous => Some(self.previous.as_mut()?.set_marks(marks)),
        }
    }

    /// Tracks a packet of the path in use in a space, and counts it there (RFC 9002, B.2). A packet that the space
    /// forgets for it is returned with its number, and is no longer counted on its path. `Overflow` is tested before
    /// anything is forgotten. An error drops the packet and changes nothing else. Cost: amortized constant, plus that
    /// of `take` for a forgotten packet.
    #[inline(always)]
    pub fn sent<Q>(
        &mut self,
        number: u64,
        packet: SentPacket<Q>,
        space: &mut PacketSpace<Q>,
    ) -> Result<Option<(u64, SentPacket<Q>)>, LedgerError>
    where
        Q: RetransmitQueue,
        requires { CanTrackOn self.old number packet space.old }
        ensures space { OnOk result (space.new
            ≡ with_tracking (after_sending number packet (tracking_of space.old)) space.old) }
        ensures paths { IfOk result (λ gone. self.new ≡ paths_after_sending packet gone self.old) }
        ensures forgotten { IfOk result
            (λ gone. gone ≡ forgotten_entry packet (tracking_of space.old)) }
        ensures overflow { IsErrOf result LedgerError.Overflow
            ↔ Overflows (counters_of self.old.current.ledger) packet }
        ensures err_paths { OnErr result (self.new ≡ self.old) }
        ensures err_space { OnErr result (space.new ≡ space.old) }
    {
        let forgotten = self.current.sent(number, packet, space)?;
        if let Some((_, packet)) = &forgotten {
            self.remove_from_previous(packet);
        }
        Ok(forgotten)
    }

    /// Reports to the controller of the path in use that a packet of this size is sent (RFC 9002, B.4).
    #[inline(always)]
    pub fn on_sent(&mut self, now: Instant, bytes: u64, number: u64)
        ensures { self.new
            ≡ on_path_of Current
            (on_state (after_telling C.words (sends now bytes number))) self.old }
    {
        self.current.on_sent(now, bytes, number);
    }

    /// Records that a packet of a space was acknowledged. Returns whether it was the MTU probe in flight. The packet is
    /// no longer counted on its path, and is reported to the path in use, as [`PathData::on_packet_acked`].
    #[inline(always)]
    pub fn on_packet_acked<Q: RetransmitQueue>(
        &mut self,
        space: SpaceId,
        number: u64,
        now: Instant,
        packet: &SentPacket<Q>,
        app_limited: bool,
    ) -> bool
        requires { IsCountedOnEach self.old packet.now }
        ensures probe { result ≡ is_path_probe space number self.old.current.state }
        ensures after { self.new
            ≡ paths_acking C.words space number now app_limited packet.now self.old }
    {
        self.remove_from_previous(packet);
        self.current
            .on_packet_acked(space, number, now, packet, app_limited)
    }

    /// Records that a packet of a space was lost. Returns whether it was the MTU probe in flight. The packet is no
    /// longer counted on its path, and is reported to the path in use, as [`PathData::on_packet_lost`].
    pub fn on_packet_lost<Q: RetransmitQueue>(
        &mut self,
        space: SpaceId,
        number: u64,
        packet: &SentPacket<Q>,
    ) -> bool
        requires { IsCountedOnEach self.old packet.now }
        ensures probe { result ≡ is_path_probe space number self.old.current.state }
        ensures after { self.new ≡ paths_losing space number packet.now self.old }
    {
        self.remove_from_previous(packet);
        self.current.on_packet_lost(space, number, packet)
    }

    /// Removes every packet of a space; none of them is counted on its path any more (RFC 9002, 6.4). Cost: linear in
    /// the packets that the space tracks.
    pub fn forget_all<Q>(&mut self, space: &mut PacketSpace<Q>)
    where
        Q: RetransmitQueue,
        requires { AreCountedOnEach self.old (packets_of space.old) }
        ensures space { space.new ≡ space_empties space.old }
        ensures paths { self.new ≡ paths_without (packets_of space.old) self.old }
    {
        while let Some((_, packet)) = space.take_first() {
            self.remove_in_flight(&packet);
        }
    }

    /// Uses another path from now on (RFC 9000, 9.3). The path in use becomes the previous one, and an older previous
    /// one is dropped. The new path has the next generation.
    pub fn move_to(&mut self, path: PathData<C>)
        requires { generation_of path.ledger ≡ self.old.made + 1 }
        ensures { self.new ≡ moved_to path self.old }
    {
        self.made = path.generation();
        let left = mem::replace(&mut self.current, path);
        self.previous = Some(left);
    }

    /// Uses the previous path again as it was left, and drops the one in use, since its address was not validated (RFC
    /// 9000, 9.3.2). Returns false and changes nothing if there is no previous path. The MTU stays, within the peer's
    /// limit (bytes, above zero) if there is one. Its search starts again, as [`PathData::resume`]. The packets of the
    /// dropped path stay tracked.
    pub fn revert<F: ControllerFactory<Controller = C>>(
        &mut self,
        allow_mtud: bool,
        peer_max_udp_payload_size: Option<u16>,
        config: &TransportConfig<F>,
    ) -> bool
        requires limit { IfSome peer_max_udp_payload_size (λ limit. 0 < limit) }
        ensures lived { result ≡ is_some self.old.previous }
        ensures after { let settings = path_settings F.built C.words allow_mtud config.now in
            self.new
            ≡ reverted (on_state (state_resumed settings peer_max_udp_payload_size)) self.old }
    {
        let Some(mut path) = self.previous.take() else {
            return false;
        };
        path.resume(allow_mtud, peer_max_udp_payload_size, config);
        self.current = path;
        true
    }

    /// Drops the previous path (RFC 9000, 9.3.3). Returns false and changes nothing if there is none. Its packets stay
    /// tracked.
    pub fn drop_previous(&mut self) -> bool
        ensures lived { result ≡ is_some self.old.previous }
        ensures after { self.new ≡ record self.old { previous = None } }
    {
        let lived = self.previous.is_some();
        self.previous = None;
        lived
    }

    /// Stops counting a packet on its path.
    fn remove_in_flight<Q: RetransmitQueue>(&mut self, packet: &SentPacket<Q>)
        requires { IsCountedOnEach self.old packet.now }
        ensures { self.new ≡ each_path (path_left_by packet.now) self.old }
    {
        self.current.remove_in_flight(packet);
        self.remove_from_previous(packet);
    }

    /// Stops counting a packet on the previous path, if it was sent there.
    fn remove_from_previous<Q: RetransmitQueue>(&mut self, packet: &SentPacket<Q>)
        requires { ForSome self.old.previous (λ path. IsCountedOn path.ledger packet.now) }
        ensures { self.new ≡ record self.old
            { previous = option_map (path_left_by packet.now) self.old.previous } }
    {
        if let Some(path) = &mut self.previous {
            path.remove_in_flight(packet);
        }
    }
}

/// Returns the error for a total without room for a datagram.
fn overflow(_: TotalOverflow) -> DatagramError
    ensures { result ≡ DatagramError.Overflow }
{
    DatagramError::Overflow
}
