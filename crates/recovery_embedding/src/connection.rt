//! One endpoint of a connection, as its loss recovery sees it.
ghost use Rattle.std.specs.Prelude.{◌≡◌};
ghost use Rattle.recovery_sender.specs.Calls.{IsPassedThrough};
ghost use Rattle.recovery_packet_numbers.specs.Skips.{IsSkips};

use quic_recovery::below::{ConnectionId, ResetToken};
use quic_recovery::config::TransportConfig;
use quic_recovery::congestion::NewRenoConfig;
use quic_recovery::{Event, Recovery, RecoveryConfig};
use rand_pcg::Pcg32;
use recovery_packet_numbers::Skips;
use recovery_queue::items::ItemQueue;
use recovery_sender::{Sender, SenderError};
use std::net::SocketAddr;

/// Returns the settings: the defaults, with NewReno, except that some packet numbers are skipped (RFC 9000, 21.4). For
/// a client the peer is validated, whatever the settings are. For a server it is not until its address was validated
/// (RFC 9000, 8.1).
pub fn config(remote: SocketAddr) -> RecoveryConfig<NewRenoConfig>
    ensures issued { result.issued ≡ 1 }
    ensures skips { IsSkips result.skips }
{
    let id = ConnectionId::new(&[0xff; 8]);
    let mut config = RecoveryConfig::new(TransportConfig::default(), remote, id);
    config.skips(Skips::Drawn);
    config
}

/// The sender of this stack: its controllers are NewReno's, its packets carry numbered items, and `Pcg32` draws the
/// skipped numbers.
pub type StackSender = Sender<NewRenoConfig, ItemQueue, Pcg32>;

/// One endpoint of a connection.
#[derive(Drop)]
pub struct Connection {
    pub sender: StackSender,
    /// The token with which the peer resets the connection (RFC 9000, 10.3), if it was issued with the ID in use.
    pub peer_token: Option<ResetToken>,
    /// The challenge that was sent on the path in use and not answered yet (RFC 9000, 8.2).
    pub challenge: Option<u64>,
    /// Whether there was nothing more to send, though the window had room: then the window does not grow (RFC 9002,
    /// 7.8).
    pub app_limited: bool,
}

impl Connection {
    pub fn new(sender: StackSender) -> Self {
        Connection {
            sender,
            peer_token: None,
            challenge: None,
            app_limited: true,
        }
    }

    /// Returns the recovery, to be read.
    pub fn state(&self) -> &Recovery<NewRenoConfig, ItemQueue, Pcg32> {
        self.sender.recovery()
    }

    /// Passes an event whose answer asks for nothing.
    pub fn tell(&mut self, event: Event<ItemQueue>) -> Result<(), SenderError>
        requires { IsPassedThrough event }
    {
        match self.sender.on_event(event) {
            Ok(_) => Ok(()),
            Err(refused) => Err(refused),
        }
    }
}
