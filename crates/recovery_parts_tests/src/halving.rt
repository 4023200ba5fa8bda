//! A congestion controller that is not NewReno: tests of code that is generic in the controller use it.

ghost use Rattle.std.specs.Prelude.{◌≡◌, ◌<◌, Ok, refl};
ghost use Rattle.std.proofs.Common.{zero-le};
ghost use Rattle.recovery_parts_tests.specs.Halving.{halving_made, halving_words, IsHalvingSound, halving_laws};

use recovery_base::below::NoMemory;
use recovery_base::time::Instant;
use recovery_congestion::congestion::{Controller, ControllerFactory, ControllerMetrics};
use recovery_congestion::rtt::RttEstimator;

/// The initial window of a [`Halving`].
#[derive(Clone, Copy)]
pub struct HalvingConfig {
    initial_window: u64,
    ghost positive: { 0 < initial_window },
}

impl HalvingConfig {
    /// Returns an initial window, in bytes, above zero.
    pub fn new(initial_window: u64) -> Self
        requires { 0 < initial_window }
        ensures { result.initial_window ≡ initial_window }
    {
        HalvingConfig { initial_window }
    }
}

impl ControllerFactory for HalvingConfig {
    type Controller = Halving;

    ghost built = { λ factory now mtu. halving_made factory.initial_window mtu };

    fn build(&self, _now: Instant, current_mtu: u16) -> Halving {
        Halving {
            initial: self.initial_window,
            window: self.initial_window,
            current_mtu,
        }
    }

    ghost starts_at_initial = { λ factory now mtu. refl };

    ghost starts_by_now = { λ factory now mtu. zero-le };
}

/// A window that each congestion event halves, down to two MTUs, and that nothing else changes. Persistent congestion
/// leaves two MTUs.
#[derive(Drop)]
pub struct Halving {
    initial: u64,
    window: u64,
    current_mtu: u16,
}

impl Controller for Halving {
    type Content = Halving;

    ghost content = { λ halving. halving };

    ghost words = { halving_words };

    ghost is_sound = { IsHalvingSound };

    fn on_sent(&mut self, _now: Instant, _bytes: u64, _last_packet_number: u64) {}

    fn on_ack(
        &mut self,
        _now: Instant,
        _sent: Instant,
        _bytes: u64,
        _app_limited: bool,
        _rtt: &RttEstimator,
    ) {}

    fn on_end_acks(
        &mut self,
        _now: Instant,
        _in_flight: u64,
        _app_limited: bool,
        _largest_packet_num_acked: Option<u64>,
    ) {}

    fn on_congestion_event(
        &mut self,
        _now: Instant,
        _sent: Instant,
        is_persistent_congestion: bool,
        _lost_bytes: u64,
    ) {
        let least = 2 * u64::from(self.current_mtu);
        self.window = if is_persistent_congestion {
            least
        } else {
            (self.window / 2).max(least)
        };
    }

    fn on_mtu_update(&mut self, new_mtu: u16) {
        self.current_mtu = new_mtu;
    }

    fn window(&self) -> u64 {
        self.window
    }

    fn metrics(&self) -> ControllerMetrics {
        ControllerMetrics {
            congestion_window: self.window,
            ssthresh: None,
            pacing_rate: None,
        }
    }

    fn initial_window(&self) -> u64 {
        self.initial
    }

    fn try_clone(&self) -> Result<Self, NoMemory>
        ensures { result ≡ Ok self.now }
    {
        Ok(Halving {
            initial: self.initial,
            window: self.window,
            current_mtu: self.current_mtu,
        })
    }

    ghost laws = { halving_laws };
}
