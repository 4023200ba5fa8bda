//! The variables that a sender has next to its tracked packets, and their consequences (RFC 9002, A.3).
ghost use Rattle.std.specs.Prelude.{◌≡◌, min, None, if◌then◌else◌};
ghost use Rattle.recovery_losses.specs.Variables.{ack_delay_in, based, begun_anew, due_after_end, due_after_packet, found_full, found_room, fresh, heard_in, is_address_validated, is_probe_due, probed, pto_by, restarted, sampled_first, since_in, timed_out, waiting_since, with_since};

use crate::thresholds::Thresholds;
use crate::timeouts::probe_timeout;
use recovery_base::below::SpaceId;
use recovery_base::time::{Duration, Instant};

/// The peer's max_ack_delay until it is reported, in milliseconds (RFC 9000, 18.2).
const DEFAULT_MAX_ACK_DELAY: u64 = 25;

/// The maximum number of times that a probe timeout doubles.
const MOST_DOUBLINGS: u32 = 16;

/// The role of the local endpoint.
#[derive(Clone, Copy, PartialEq, Eq)]
pub enum Side {
    /// The endpoint that opened the connection.
    Client,
    /// The other endpoint.
    Server,
}

/// The probes that the last probe timeout asked for and that were not sent yet (RFC 9002, 6.2.4).
#[derive(Clone, Copy)]
pub struct DueProbes {
    /// The space of their packets.
    pub space: SpaceId,
    /// How many: 1 or 2.
    pub count: u8,
}

impl DueProbes {
    /// Returns the probes that are left after an ack-eliciting packet of a space was sent: one fewer, if it is their
    /// space.
    fn after_packet(self, space: SpaceId) -> Option<Self>
        ensures { result ≡ due_after_packet space self }
    {
        if self.space != space {
            return Some(self);
        }
        if self.count <= 1 {
            return None;
        }
        Some(DueProbes {
            space: self.space,
            count: self.count - 1,
        })
    }

    /// Returns the probes that are left after a space was discarded.
    fn after_end(self, space: SpaceId) -> Option<Self>
        ensures { result ≡ due_after_end space self }
    {
        if self.space == space {
            None
        } else {
            Some(self)
        }
    }
}

/// Since when packets of the Initial and the Handshake space wait for room in the window. 1-RTT packets may fill it,
/// which the peer cannot read before the handshake completes. So the space that waits has a probe timeout: probes are
/// not limited by the window (RFC 9002, 6.2.4 and 7.5).
#[derive(Clone, Copy)]
pub struct FullSince {
    /// The Initial space, if it waits.
    pub initial: Option<Instant>,
    /// The Handshake space, if it waits.
    pub handshake: Option<Instant>,
}

impl FullSince {
    /// Returns since when packets of a space wait, if they do: never those of the space of 1-RTT packets.
    fn of(&self, space: SpaceId) -> Option<Instant>
        ensures { result ≡ since_in space self.now }
    {
        match space {
            SpaceId::Initial => self.initial,
            SpaceId::Handshake => self.handshake,
            SpaceId::Data => None,
        }
    }

    /// Returns the times with another one for a space.
    fn with(self, space: SpaceId, time: Option<Instant>) -> Self
        ensures { result ≡ with_since space time self }
    {
        match space {
            SpaceId::Initial => FullSince {
                initial: time,
                ..self
            },
            SpaceId::Handshake => FullSince {
                handshake: time,
                ..self
            },
            SpaceId::Data => self,
        }
    }

    /// Returns the times after a probe timeout: a space that waits does so from now on.
    fn restarted(self, now: Instant) -> Self
        ensures { result ≡ restarted now self }
    {
        FullSince {
            initial: self.initial.map(|_since| now),
            handshake: self.handshake.map(|_since| now),
        }
    }
}

/// The variables that a sender has next to its recovery (RFC 9002, A.3).
#[derive(Clone, Copy)]
pub struct Variables {
    /// The role of the local endpoint.
    pub side: Side,
    /// The peer's max_ack_delay, for the space of 1-RTT packets (RFC 9000, 18.2).
    pub max_ack_delay: Duration,
    /// The number of consecutive probe timeouts, at most `u32::MAX`.
    pub pto_count: u32,
    /// Whether the handshake is confirmed (RFC 9001, 4.1.2).
    pub is_handshake_confirmed: bool,
    /// Whether a client knows that the server validated its address (RFC 9002, 6.2.2.1).
    pub is_address_known: bool,
    /// Whether Handshake keys are available.
    pub has_handshake_keys: bool,
    /// When the anti-deadlock timer was started (RFC 9002, 6.2.2.1).
    pub base: Instant,
    /// The thresholds of loss detection, from the settings.
    pub thresholds: Thresholds,
    /// When a path last got its first RTT sample; initially the start (RFC 9002, 7.6.2 and B.8: first_rtt_sample).
    pub sampled: Instant,
    /// The probes that are due, if any (RFC 9002, 6.2.4).
    pub due_probes: Option<DueProbes>,
    /// The RTT that timers use before the first sample of the path in use, instead of the one in the settings (RFC
    /// 9002, 6.2.2).
    pub initial_rtt: Option<Duration>,
    /// Since when packets of the handshake spaces wait for room in the window.
    pub full_since: FullSince,
}

impl Variables {
    /// Returns the variables of a new sender. The peer's max_ack_delay is 25 ms until the sender learns another one.
    pub fn new(side: Side, thresholds: Thresholds, now: Instant) -> Self
        ensures { result ≡ fresh side thresholds now }
    {
        Variables {
            side,
            max_ack_delay: Duration::from_millis(DEFAULT_MAX_ACK_DELAY),
            pto_count: 0,
            is_handshake_confirmed: false,
            is_address_known: false,
            has_handshake_keys: false,
            base: now,
            thresholds,
            sampled: now,
            due_probes: None,
            initial_rtt: None,
            full_since: FullSince {
                initial: None,
                handshake: None,
            },
        }
    }

    /// Returns whether the peer is known to have validated the local address: always at a server (RFC 9002, A.8:
    /// PeerCompletedAddressValidation).
    pub fn is_address_validated(&self) -> bool
        ensures { result ≡ is_address_validated self.now }
    {
        self.side == Side::Server || self.is_address_known
    }

    /// Returns the peer's max_ack_delay in a space: zero except for 1-RTT packets (RFC 9002, 5.3 and 6.2.1).
    pub fn ack_delay_in(&self, space: SpaceId) -> Duration
        ensures { result ≡ ack_delay_in self.now space }
    {
        match space {
            SpaceId::Data => self.max_ack_delay,
            _ => Duration::ZERO,
        }
    }

    /// Returns how much of a reported ACK delay counts: at most the peer's max_ack_delay (RFC 9002, 5.3).
    pub fn delay_counted(&self, space: SpaceId, delay: Duration) -> Duration
        ensures { result ≡ min delay (ack_delay_in self.now space) }
    {
        let longest = self.ack_delay_in(space);
        if longest < delay { longest } else { delay }
    }

    /// Returns the probe timeout of a space, twice as long for each consecutive timeout, 16 times at most (RFC 9002,
    /// 6.2.1). `base` is the smoothed RTT plus four times its variation: `rtt.pto_base()`.
    #[inline(always)]
    pub fn pto(&self, base: Duration, space: SpaceId) -> Duration
        ensures { result ≡ pto_by base self.now space }
    {
        let count = self.pto_count.min(MOST_DOUBLINGS);
        probe_timeout(base, self.ack_delay_in(space), count)
    }

    /// Records that a packet of a space was newly acknowledged. Resets the count of probe timeouts, except at a client
    /// that does not know its address validated (RFC 9002, 6.2.1). An ACK of a Handshake packet validates the address
    /// (6.2.2.1).
    pub fn hear(&mut self, space: SpaceId, now: Instant)
        ensures { self.new ≡ heard_in space now self.old }
    {
        self.is_address_known = self.is_address_known || space == SpaceId::Handshake;
        self.base = now;
        if self.is_address_validated() {
            self.pto_count = 0;
        }
    }

    /// Returns the initial RTT that the caller set, unless the RTT of the path in use is reset (RFC 9002, 6.2.2).
    pub fn initial_rtt_after(&self, forgets: bool) -> Option<Duration>
        ensures { result ≡ (if forgets then None else self.now.initial_rtt) }
    {
        if forgets { None } else { self.initial_rtt }
    }

    /// Records `now` as the time of the first RTT sample, if it is the first of the path in use (RFC 9002, 7.6.2).
    pub fn sample(&mut self, is_first: bool, now: Instant)
        ensures { self.new ≡ sampled_first is_first now self.old }
    {
        if is_first {
            self.sampled = now;
        }
    }

    /// Restarts the anti-deadlock timer at a time, if any (RFC 9002, 6.2.2.1).
    pub fn restart(&mut self, time: Option<Instant>)
        ensures { self.new ≡ based time self.old }
    {
        if let Some(base) = time {
            self.base = base;
        }
    }

    /// Returns since when a packet of a handshake space waits for room in the window, if one does and the handshake is
    /// not confirmed.
    pub fn waiting_since(&self, space: SpaceId) -> Option<Instant>
        ensures { result ≡ waiting_since self.now space }
    {
        if self.is_handshake_confirmed {
            None
        } else {
            self.full_since.of(space)
        }
    }

    /// Records that a packet of a space found no room in the window. It waits since the first time.
    pub fn find_full(&mut self, space: SpaceId, now: Instant)
        ensures { self.new ≡ found_full space now self.old }
    {
        let since = self.full_since.of(space).unwrap_or(now);
        self.full_since = self.full_since.with(space, Some(since));
    }

    /// Records that a packet of a space found room in the window: none waits for it.
    pub fn find_room(&mut self, space: SpaceId)
        ensures { self.new ≡ found_room space self.old }
    {
        self.full_since = self.full_since.with(space, None);
    }

    /// Records that a space was discarded, or that all its packets were declared lost. Resets the count of probe
    /// timeouts; no probe is due there, and no packet waits for room (RFC 9002, 6.2.2 and A.11).
    pub fn begun_anew(self, space: SpaceId, now: Instant) -> Self
        ensures { result ≡ begun_anew space now self }
    {
        let due_probes = match self.due_probes {
            Some(due) => due.after_end(space),
            None => None,
        };
        Variables {
            pto_count: 0,
            base: now,
            due_probes,
            full_since: self.full_since.with(space, None),
            ..self
        }
    }

    /// Records a probe timeout: `count` probes are due in a space and replace those that were due (RFC 9002, 6.2.1 and
    /// 6.2.4). Each space that waits for room does so from now on.
    pub fn timed_out(self, space: SpaceId, count: u8, now: Instant) -> Self
        ensures { result ≡ timed_out space count now self }
    {
        Variables {
            pto_count: self.pto_count.saturating_add(1),
            base: now,
            due_probes: Some(DueProbes { space, count }),
            full_since: self.full_since.restarted(now),
            ..self
        }
    }

    /// Records that an ack-eliciting packet of a space was sent, if any. It counts as one of the probes due there (RFC
    /// 9002, 6.2.4).
    pub fn count_probe(&mut self, space: Option<SpaceId>)
        ensures { self.new ≡ probed space self.old }
    {
        if let (Some(space), Some(due)) = (space, self.due_probes) {
            self.due_probes = due.after_packet(space);
        }
    }

    /// Returns whether a probe is due in a space (RFC 9002, 6.2.4).
    pub fn is_probe_due(&self, space: SpaceId) -> bool
        ensures { result ≡ is_probe_due self.now space }
    {
        match self.due_probes {
            Some(due) => due.space == space,
            None => false,
        }
    }
}
