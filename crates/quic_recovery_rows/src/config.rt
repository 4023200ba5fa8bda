//! The settings of runs.
ghost use Rattle.std.specs.Prelude.{◌≡◌};
ghost use Rattle.recovery_packet_numbers.specs.Skips.{IsSkips};

use rand_core::SeedableRng;
use rand_pcg::Pcg32;
use recovery_base::below::ConnectionId;
use recovery_config::config::TransportConfig;
use recovery_congestion::congestion::NewRenoConfig;
use recovery_history::RecoveryConfig;
use recovery_packet_numbers::Skips;
use std::net::{IpAddr, Ipv4Addr, SocketAddr};

/// Returns the settings of the replay program, except for the length of local IDs, and without skips.
pub fn settings(cid_len: usize) -> RecoveryConfig<NewRenoConfig>
    ensures issued { result.issued ≡ 1 }
    ensures skips { IsSkips result.skips }
{
    settings_with(TransportConfig::default(), cid_len, Skips::Disabled)
}

/// The same for any settings of paths and any skips.
pub fn settings_with<F: Drop>(
    transport: TransportConfig<F>,
    cid_len: usize,
    skips: Skips,
) -> RecoveryConfig<F>
    requires { IsSkips skips }
    ensures issued { result.issued ≡ 1 }
    ensures skips { IsSkips result.skips }
{
    let remote = SocketAddr::new(IpAddr::V4(Ipv4Addr::new(192, 0, 2, 1)), 4433);
    let mut config = RecoveryConfig::new(transport, remote, ConnectionId::new(&[0xFF; 8]));
    config.cid_len(cid_len);
    config.skips(skips);
    config
}

/// Returns the random words from which skips are drawn, if they are.
pub fn words() -> Pcg32 {
    Pcg32::seed_from_u64(0)
}
