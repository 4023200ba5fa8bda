//! The congestion controllers that a setting chooses between.
ghost use Rattle.std.specs.Prelude.{◌≡◌, ◌<◌};
ghost use Rattle.recovery_engine.specs.Controllers.{chosen_made, chosen_words, chosen_laws, chosen_starts, chosen_starts_by_now, IsChosenSound};

use recovery_base::below::NoMemory;
use recovery_base::time::Instant;
use recovery_congestion::congestion::{
    Controller, ControllerFactory, ControllerMetrics, NewReno, NewRenoConfig,
};
use recovery_congestion::rtt::RttEstimator;
use recovery_cubic::{Cubic, CubicConfig};
use std::marker::Model;

/// A fixed window in bytes, above zero.
#[derive(Clone, Copy)]
pub struct FixedConfig {
    window: u64,
}

impl Model for FixedConfig {
    ghost use Rattle.std.specs.Prelude.{ℕ, ◌<◌};

    ghost Value = { ℕ };

    ghost view = { λ config. config.window };

    ghost invariant = { λ config. 0 < config.window };

    ghost inverse = { λ window. record { window = window } };
}

impl FixedConfig {
    /// Returns a fixed window, in bytes and above zero.
    pub fn new(window: u64) -> Self
        requires { 0 < window }
        ensures { result ≡ window }
    {
        FixedConfig { window }
    }

    fn get(self) -> u64
        ensures value { result ≡ self }
        ensures positive { 0 < result }
    {
        self.window
    }
}

/// Which controller paths have.
#[derive(Clone, Copy)]
pub enum ChosenConfig {
    /// NewReno (RFC 9002, 7).
    Reno(NewRenoConfig),
    /// A fixed window.
    Fixed(FixedConfig),
    /// CUBIC (RFC 9438).
    Cubic(CubicConfig),
}

/// The controller of a path: each call is that of the chosen one.
#[derive(Drop)]
pub enum Chosen {
    /// NewReno (RFC 9002, 7).
    Reno(NewReno),
    /// A fixed window in bytes.
    Fixed(u64),
    /// CUBIC (RFC 9438).
    Cubic(Cubic),
}

impl ControllerFactory for ChosenConfig {
    type Controller = Chosen;

    ghost built = { chosen_made };

    fn build(&self, now: Instant, current_mtu: u16) -> Chosen {
        match self {
            ChosenConfig::Reno(config) => Chosen::Reno(NewReno::new(*config, now, current_mtu)),
            ChosenConfig::Fixed(config) => Chosen::Fixed(config.get()),
            ChosenConfig::Cubic(config) => Chosen::Cubic(Cubic::new(*config, now, current_mtu)),
        }
    }

    ghost starts_at_initial = { chosen_starts };

    ghost starts_by_now = { chosen_starts_by_now };
}

impl Controller for Chosen {
    type Content = Chosen;

    ghost content = { λ chosen. chosen };

    ghost words = { chosen_words };

    ghost is_sound = { IsChosenSound };

    #[inline(always)]
    fn on_sent(&mut self, now: Instant, bytes: u64, last_packet_number: u64) {
        match self {
            Chosen::Reno(reno) => reno.on_sent(now, bytes, last_packet_number),
            Chosen::Fixed(_) => {}
            Chosen::Cubic(cubic) => cubic.on_sent(now, bytes, last_packet_number),
        }
    }

    #[inline(always)]
    fn on_ack(
        &mut self,
        now: Instant,
        sent: Instant,
        bytes: u64,
        app_limited: bool,
        rtt: &RttEstimator,
    ) {
        match self {
            Chosen::Reno(reno) => reno.on_ack(now, sent, bytes, app_limited, rtt),
            Chosen::Fixed(_) => {}
            Chosen::Cubic(cubic) => cubic.on_ack(now, sent, bytes, app_limited, rtt),
        }
    }

    fn on_end_acks(
        &mut self,
        now: Instant,
        in_flight: u64,
        app_limited: bool,
        largest_packet_num_acked: Option<u64>,
    ) {
        match self {
            Chosen::Reno(reno) => {
                reno.on_end_acks(now, in_flight, app_limited, largest_packet_num_acked)
            }
            Chosen::Fixed(_) => {}
            Chosen::Cubic(cubic) => {
                cubic.on_end_acks(now, in_flight, app_limited, largest_packet_num_acked)
            }
        }
    }

    fn on_congestion_event(
        &mut self,
        now: Instant,
        sent: Instant,
        is_persistent_congestion: bool,
        lost_bytes: u64,
    ) {
        match self {
            Chosen::Reno(reno) => {
                reno.on_congestion_event(now, sent, is_persistent_congestion, lost_bytes)
            }
            Chosen::Fixed(_) => {}
            Chosen::Cubic(cubic) => {
                cubic.on_congestion_event(now, sent, is_persistent_congestion, lost_bytes)
            }
        }
    }

    fn on_mtu_update(&mut self, new_mtu: u16) {
        match self {
            Chosen::Reno(reno) => reno.on_mtu_update(new_mtu),
            Chosen::Fixed(_) => {}
            Chosen::Cubic(cubic) => cubic.on_mtu_update(new_mtu),
        }
    }

    fn window(&self) -> u64 {
        match self {
            Chosen::Reno(reno) => reno.window(),
            Chosen::Fixed(window) => *window,
            Chosen::Cubic(cubic) => cubic.window(),
        }
    }

    fn metrics(&self) -> ControllerMetrics {
        match self {
            Chosen::Reno(reno) => reno.metrics(),
            Chosen::Fixed(window) => ControllerMetrics {
                congestion_window: *window,
                ssthresh: None,
                pacing_rate: None,
            },
            Chosen::Cubic(cubic) => cubic.metrics(),
        }
    }

    fn initial_window(&self) -> u64 {
        match self {
            Chosen::Reno(reno) => reno.initial_window(),
            Chosen::Fixed(window) => *window,
            Chosen::Cubic(cubic) => cubic.initial_window(),
        }
    }

    /// Allocates nothing, and never fails.
    fn try_clone(&self) -> Result<Self, NoMemory>
        ensures { result ≡ Ok self.now }
    {
        match self {
            Chosen::Reno(reno) => Ok(Chosen::Reno(reno.try_clone()?)),
            Chosen::Fixed(window) => Ok(Chosen::Fixed(*window)),
            Chosen::Cubic(cubic) => Ok(Chosen::Cubic(cubic.try_clone()?)),
        }
    }

    ghost laws = { chosen_laws };
}
