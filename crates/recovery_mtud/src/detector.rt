//! The detection of black holes by bursts of losses (RFC 8899, 4.3).
//!
//! A path whose MTU decreased loses every packet above a size, and no smaller one because of its size. Congestion loses
//! packets of any size. So a burst of losses counts only if all its packets are above the minimum MTU, and no packet as
//! large as the smallest of them was acknowledged after them.
ghost use Rattle.std.specs.Prelude.{◌≡◌, ◌<◌, nat_le, [], length, if◌then◌else◌};
ghost use Rattle.recovery_mtud.specs.Bursts.{bursts_made, bursts_acked, bursts_closed, bursts_lost, black_hole_bursts};

use crate::bursts::{BLACK_HOLE_BURSTS, Bursts};
use std::marker::Model;

/// Packets with consecutive numbers that were lost: most likely for one cause, so that they count once.
#[derive(Clone, Copy)]
pub(crate) struct Burst {
    /// The size of the smallest.
    pub(crate) least: u16,
    /// The number of the last.
    pub(crate) last: u64,
}

/// The evidence of losses and acknowledgements about the path's MTU.
#[derive(Clone, Copy)]
pub(crate) struct Detector {
    bursts: Bursts,
    /// The burst that the next lost packet may join.
    current: Option<Burst>,
    /// The largest size acknowledged since the newest suspicious burst, or the minimum MTU.
    acked_mtu: u16,
    /// The number of the newest packet of that size.
    newest: u64,
    min_mtu: u16,
}

impl Model for Detector {
    ghost use Rattle.recovery_mtud.specs.Bursts.{LossBursts, AreBurstsSound};

    ghost Value = { LossBursts };

    ghost use Rattle.recovery_mtud.specs.DetectorView.{bursts_in, bursts_back};

    ghost view = { bursts_in };

    ghost invariant = { λ detector. AreBurstsSound (bursts_in detector) };

    ghost inverse = { bursts_back };
}

impl Detector {
    pub(crate) fn new(min_mtu: u16) -> Self
        requires { 0 < min_mtu }
        ensures { result ≡ bursts_made min_mtu }
    {
        Detector {
            bursts: Bursts::new(),
            current: None,
            acked_mtu: min_mtu,
            newest: 0,
            min_mtu,
        }
    }

    /// Returns the size that the path is known to carry.
    pub(crate) fn min_mtu(&self) -> u16
        ensures value { result ≡ self.now.min_mtu }
        ensures positive { 0 < result }
    {
        self.min_mtu
    }

    /// Records that the probe in flight was acknowledged. Other packets have at most the MTU in use, and so are smaller
    /// (unless the minimum change is below 3): none of them was lost because of its size. `newest` may decrease: what
    /// counts is what arrived since the last loss.
    pub(crate) fn on_probe_acked(&mut self, number: u64, size: u16)
        ensures { self.new ≡ record self.old { kept = []; acked = size; newest = number } }
    {
        self.bursts = Bursts::new();
        self.acked_mtu = size;
        self.newest = number;
    }

    /// Records that another packet was acknowledged. A path that carries its size carries all smaller ones: bursts in
    /// which a packet of at most that size was lost had another cause.
    #[inline(always)]
    pub(crate) fn on_non_probe_acked(&mut self, number: u64, size: u16)
        ensures { self.new ≡ bursts_acked number size self.old }
    {
        if size < self.acked_mtu {
            return;
        }
        if size == self.acked_mtu {
            self.newest = self.newest.max(number);
            return;
        }
        self.acked_mtu = size;
        self.newest = number;
        self.bursts.retain_above(size);
    }

    /// Closes a burst. It is suspicious, unless one of its packets has a size that every path carries, or a packet sent
    /// after it and no smaller than its smallest arrived (RFC 8899, 4.3; RFC 9000, 14).
    fn close(&mut self)
        ensures { self.new ≡ bursts_closed self.old }
    {
        let Some(burst) = self.current else {
            return;
        };
        self.current = None;
        let is_refuted = burst.last < self.newest && burst.least <= self.acked_mtu;
        if burst.least <= self.min_mtu || is_refuted {
            return;
        }
        // What arrived was sent before the losses, and is no evidence about the path since. The sizes of what arrived
        // later are not stored, so the minimum MTU is assumed: a wrong report costs smaller packets, a missed one costs
        // the connection.
        if burst.last > self.newest {
            self.acked_mtu = self.min_mtu;
        }
        self.bursts.add(burst.least);
    }

    /// Records that a packet was lost that is not the probe in flight. (The loss of a probe answers its own question.)
    pub(crate) fn on_non_probe_lost(&mut self, number: u64, size: u16)
        ensures { self.new ≡ bursts_lost number size self.old }
    {
        if let Some(burst) = self.current
            && burst.last.checked_add(1) == Some(number)
        {
            self.current = Some(Burst {
                least: burst.least.min(size),
                last: number,
            });
            return;
        }
        self.close();
        self.current = Some(Burst {
            least: size,
            last: number,
        });
    }

    /// Ends a loss detection pass. Returns whether there is a black hole. The open burst closes here, since a black
    /// hole lets nothing through that would close it.
    pub(crate) fn black_hole_detected(&mut self) -> bool
        ensures answer { result ≡ nat_le black_hole_bursts (length (bursts_closed self.old).kept) }
        ensures after { self.new
            ≡ (if result then record (bursts_closed self.old) { kept = [] }
            else bursts_closed self.old) }
    {
        self.close();
        if self.bursts.len() < BLACK_HOLE_BURSTS {
            return false;
        }
        self.bursts = Bursts::new();
        true
    }
}
