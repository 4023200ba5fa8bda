//! The MTU search of a path (RFC 8899, 5; RFC 9000, 14.3).
ghost use Rattle.std.specs.Prelude.{◌≡◌, ◌<◌, None, is_some, IfSome, if◌then◌else◌};
ghost use Rattle.std.specs.Option.{option_and_then};
ghost use Rattle.recovery_mtud.specs.Search.{search_begun, narrowed, next_size, size_to_probe, probing_at, search_poll, search_polled};
ghost use Rattle.recovery_mtud.specs.Search.{later, probed_size, probing_acked, probing_lost, search_with, IsProbingSound};

use crate::config::MtuDiscoveryConfig;
use recovery_base::time::Instant;
use std::marker::Model;

/// A size that was lost this often is too large: a single loss may be due to congestion (RFC 8899, 5.1.2).
const MAX_PROBES: u8 = 3;

/// A search that runs.
#[derive(Clone, Copy)]
pub(crate) struct Probing {
    /// A size that gets through, unless the path changed.
    pub(crate) lower: u16,
    /// The largest size that may get through.
    pub(crate) upper: u16,
    /// The last size probed, or the lower bound before the first probe.
    pub(crate) last: u16,
    /// The number of the probe in flight.
    pub(crate) in_flight: Option<u64>,
    /// How many probes of the last size were lost, one after another.
    pub(crate) losses: u8,
}

/// The search state of a discovery that is enabled.
#[derive(Clone, Copy)]
pub(crate) struct Search {
    /// The search that runs.
    probing: Option<Probing>,
    /// If none runs, the next one may begin from this time on.
    activation: Instant,
    /// The largest size that the peer accepts.
    limit: u16,
    config: MtuDiscoveryConfig,
}

impl Model for Search {
    ghost use Rattle.recovery_mtud.specs.Search.{MtuSearch, IsSearchSound};

    ghost Value = { MtuSearch };

    ghost use Rattle.recovery_mtud.specs.SearchView.{search_in, search_back};

    ghost view = { search_in };

    ghost invariant = { λ search. IsSearchSound (search_in search) };

    ghost inverse = { search_back };
}

impl Probing {
    /// Narrows the bounds by the outcome of the last size. Returns the size to probe next: the same, until it was lost
    /// often enough to be too large.
    fn advance(&mut self, minimum_change: u16) -> Option<u16>
        ensures size { result ≡ size_to_probe minimum_change self.old }
        ensures bounds { self.new ≡ narrowed self.old }
    {
        if self.losses == 0 {
            self.lower = self.last;
        } else if self.losses < MAX_PROBES {
            return Some(self.last);
        } else {
            self.upper = self.last.saturating_sub(1);
            self.losses = 0;
        }
        self.next_size(minimum_change)
    }

    /// Returns the middle of the bounds; at the end the upper bound itself, which no middle reaches.
    fn next_size(&self, minimum_change: u16) -> Option<u16>
        ensures { result ≡ next_size minimum_change self.now }
    {
        let middle = ((u32::from(self.lower) + u32::from(self.upper)) / 2) as u16;
        if middle.abs_diff(self.last) >= minimum_change {
            return if middle == 0 { None } else { Some(middle) };
        }
        if self.upper.saturating_sub(self.last) >= minimum_change {
            return Some(self.upper);
        }
        None
    }
}

impl Search {
    pub(crate) fn new(limit: u16, config: MtuDiscoveryConfig) -> Self
        requires { 0 < limit }
        ensures { result
            ≡ record { limit = limit; probing = None; activation = 0; settings = config } }
    {
        Search {
            probing: None,
            activation: Instant::from_nanos(0),
            limit,
            config,
        }
    }

    pub(crate) fn is_running(&self) -> bool
        ensures { result ≡ is_some self.now.probing }
    {
        self.probing.is_some()
    }

    /// Returns the number of the probe in flight.
    pub(crate) fn in_flight(&self) -> Option<u64>
        ensures { result ≡ option_and_then (λ p. p.in_flight) self.now.probing }
    {
        match self.probing {
            Some(probing) => probing.in_flight,
            None => None,
        }
    }

    /// Returns the largest size that the peer accepts.
    pub(crate) fn limit(&self) -> u16
        ensures value { result ≡ self.now.limit }
        ensures positive { 0 < result }
    {
        self.limit
    }

    /// Starts again; the peer's limit stays.
    pub(crate) fn restart(&mut self)
        ensures { self.new ≡ record self.old { probing = None; activation = 0 } }
    {
        self.probing = None;
        self.activation = Instant::from_nanos(0);
    }

    pub(crate) fn set_limit(&mut self, limit: u16)
        requires { 0 < limit }
        ensures { self.new ≡ record self.old { limit = limit } }
    {
        self.limit = limit;
    }

    /// Returns a new search. The MTU in use counts as an acknowledged probe: the first probe is above it.
    fn begin(&self, mtu: u16) -> Probing
        requires { 0 < mtu }
        ensures value { result ≡ search_begun mtu self.now }
        ensures sound { IsProbingSound result }
    {
        let lower = mtu.min(self.limit);
        Probing {
            lower,
            upper: self.config.upper_bound.max(lower).min(self.limit),
            last: lower,
            in_flight: None,
            losses: 0,
        }
    }

    /// Returns the search that a poll continues or begins. There is none while a probe is in flight, since its outcome
    /// decides the next size, and a lost one costs a whole packet. Another search begins after a while, since a path
    /// may carry more later (RFC 8899, 5.1.1).
    fn probing_at(&self, mtu: u16, now: Instant) -> Option<Probing>
        requires { 0 < mtu }
        ensures value { result ≡ probing_at mtu now self.now }
        ensures sound { IfSome result IsProbingSound }
    {
        match self.probing {
            Some(probing) => {
                if probing.in_flight.is_some() {
                    return None;
                }
                Some(probing)
            }
            None => {
                if now < self.activation {
                    return None;
                }
                Some(self.begin(mtu))
            }
        }
    }

    /// Returns the size to probe now, if any, with a packet of this number.
    pub(crate) fn poll(&mut self, mtu: u16, now: Instant, number: u64) -> Option<u16>
        requires { 0 < mtu }
        ensures answer { result ≡ search_poll mtu now self.old }
        ensures after { self.new ≡ search_polled mtu now number self.old }
    {
        let mut probing = self.probing_at(mtu, now)?;
        let next = probing.advance(self.config.minimum_change);
        match next {
            Some(size) => {
                probing.in_flight = Some(number);
                probing.last = size;
                self.probing = Some(probing);
            }
            None => {
                self.probing = None;
                self.activation = now + self.config.interval;
            }
        }
        next
    }

    /// Returns the size of the packet if it is the probe in flight, which it no longer is.
    pub(crate) fn on_acked(&mut self, number: u64) -> Option<u16>
        ensures size { result ≡ probed_size number self.old }
        ensures positive { IfSome result (λ size. 0 < size) }
        ensures after { self.new
            ≡ (if is_some result then search_with probing_acked self.old else self.old) }
    {
        let Some(probing) = &mut self.probing else {
            return None;
        };
        if probing.in_flight != Some(number) {
            return None;
        }
        probing.in_flight = None;
        probing.losses = 0;
        Some(probing.last)
    }

    /// Records that the probe in flight was lost, if there is one: a black hole ends a search, whose probe may be
    /// declared lost afterwards.
    pub(crate) fn on_probe_lost(&mut self)
        ensures { self.new ≡ search_with probing_lost self.old }
    {
        if let Some(probing) = &mut self.probing
            && probing.in_flight.is_some()
        {
            probing.in_flight = None;
            probing.losses += 1;
        }
    }

    /// Records that a black hole was detected at this time. For a while nothing is probed: larger sizes were just seen
    /// to fail.
    pub(crate) fn on_black_hole(&mut self, now: Instant)
        ensures { self.new
            ≡ record self.old {
              probing = None;
              activation = later now self.old.settings.black_hole_cooldown;
            } }
    {
        self.probing = None;
        self.activation = now + self.config.black_hole_cooldown;
    }
}
