//! How a connection starts: the window of its controllers, and its settings.
ghost use Rattle.std.specs.Prelude.{◌≡◌};
ghost use Rattle.recovery_packet_numbers.specs.Skips.{IsSkips};

use recovery_base::below::ConnectionId;
use recovery_config::config::TransportConfig;
use recovery_history::RecoveryConfig;
use recovery_replay::replay::skips;
use std::net::{IpAddr, Ipv4Addr, SocketAddr};

/// The congestion window that limits what is in flight.
#[derive(Clone, Copy)]
pub enum Window {
    /// NewReno's (RFC 9002, 7).
    NewReno,
    /// CUBIC's (RFC 9438).
    Cubic,
    /// This many bytes, above zero.
    Fixed(u64),
}

/// Returns the settings that `recovery-replay` has with a seed or with none, except for those of paths.
pub fn config<F>(transport: TransportConfig<F>, seed: Option<u64>) -> RecoveryConfig<F>
    ensures issued { result.issued ≡ 1 }
    ensures skips { IsSkips result.skips }
{
    let remote = SocketAddr::new(IpAddr::V4(Ipv4Addr::new(127, 0, 0, 1)), 4433);
    let mut config = RecoveryConfig::new(transport, remote, ConnectionId::new(&[0xff; 8]));
    config.skips(skips(seed));
    config
}
