//! How often the peer is asked to acknowledge, and how often it asks for ACKs (draft-ietf-quic-ack-frequency-04).
ghost use Rattle.std.specs.Prelude.{◌≡◌, ◌<◌, ◌≤◌, ◌+◌, min, max, Decides, MatchOption, Some, None};
ghost use Rattle.recovery_base.specs.Units.{number_limit};
ghost use Rattle.recovery_acks.specs.AckFrequencies.{frequency_made, pending_of, next_of, candidate_delay, current_delay, longest_delay, IsWorthSending, FrequencyReceived, AcksRequest, with_next, with_pending};

use crate::PendingAcks;
use recovery_base::below::{AckFrequency, TransportError, TransportParameters, VarInt};
use recovery_base::config::AckFrequencyConfig;
use recovery_base::time::Duration;

/// The smallest delay that a peer may ask for: the timer granularity (RFC 9002, 6.1.2).
const TIMER_GRANULARITY_NANOS: u128 = 1_000_000;

/// A smaller RTT counts as this, the default of `max_ack_delay` (RFC 9000, 18.2): otherwise more ACKs would be
/// requested on a short path than are sent without a request.
const MIN_AUTOMATIC_ACK_DELAY_MILLIS: u64 = 25;

/// The delays of ACKs, as requested from the peer and by it (draft-ietf-quic-ack-frequency-04, sections 4 and 7).
#[derive(Drop)]
pub struct AckFrequencyState {
    in_flight_ack_frequency_frame: Option<(u64, Duration)>,
    next_outgoing_sequence_number: u64,
    /// The longest ACK delay that the peer is known to use.
    pub peer_max_ack_delay: Duration,
    last_ack_frequency_frame: Option<u64>,
    /// The longest local ACK delay.
    pub max_ack_delay: Duration,
}

impl AckFrequencyState {
    /// Returns the state before any request. Both delays are this one (RFC 9000, 18.2: max_ack_delay).
    pub fn new(default_max_ack_delay: Duration) -> Self
        ensures { result ≡ frequency_made default_max_ack_delay }
    {
        AckFrequencyState {
            in_flight_ack_frequency_frame: None,
            next_outgoing_sequence_number: 0,
            peer_max_ack_delay: default_max_ack_delay,
            last_ack_frequency_frame: None,
            max_ack_delay: default_max_ack_delay,
        }
    }

    /// Returns the delay to request from the peer: the configured one, or else the peer's. It is at most the RTT (25 ms
    /// if that is smaller), but not below the peer's `min_ack_delay`, which is in microseconds
    /// (draft-ietf-quic-ack-frequency-04, sections 3 and 4).
    pub fn candidate_max_ack_delay(
        &self,
        rtt: Duration,
        config: &AckFrequencyConfig,
        peer_params: &TransportParameters,
    ) -> Duration
        ensures { result ≡ candidate_delay config.now.max_ack_delay
            self.now.peer_max_ack_delay rtt peer_params.now.min_ack_delay }
    {
        let wanted = match config.max_ack_delay {
            Some(configured) => configured,
            None => self.peer_max_ack_delay,
        };
        let least = match peer_params.min_ack_delay {
            Some(micros) => Duration::from_micros(micros.into_inner()),
            None => Duration::ZERO,
        };
        let most = rtt.max(Duration::from_millis(MIN_AUTOMATIC_ACK_DELAY_MILLIS));
        wanted.min(most).max(least)
    }

    /// Returns the longest delay that the peer may use, which a probe timeout allows for: its own, or the one in a
    /// request in flight, if that is longer (RFC 9002, 6.2.1; draft-ietf-quic-ack-frequency-04, section 7).
    pub fn max_ack_delay_for_pto(&self) -> Duration
        ensures { result ≡ longest_delay (pending_of self.now) self.now.peer_max_ack_delay }
    {
        match self.in_flight_ack_frequency_frame {
            Some((_, requested)) => self.peer_max_ack_delay.max(requested),
            None => self.peer_max_ack_delay,
        }
    }

    /// Returns the number of the next request, counted from 0 (draft-ietf-quic-ack-frequency-04, section 4). Returns
    /// `None` and changes nothing above 2^62 - 1.
    pub fn next_sequence_number(&mut self) -> Option<VarInt>
        ensures number { MatchOption result (number_limit ≤ next_of self.old)
            (λ number. number ≡ next_of self.old) }
        ensures next { MatchOption result (self.new ≡ self.old)
            (λ number. self.new ≡ with_next (number + 1) self.old) }
    {
        match VarInt::from_u64(self.next_outgoing_sequence_number) {
            Ok(number) => {
                self.next_outgoing_sequence_number += 1;
                Some(number)
            }
            Err(_) => None,
        }
    }

    /// Returns whether a request is worth sending (draft-ietf-quic-ack-frequency-04, section 4): none was made yet, or
    /// the wanted delay differs by more than a fifth from the last one requested.
    pub fn should_send_ack_frequency(
        &self,
        rtt: Duration,
        config: &AckFrequencyConfig,
        peer_params: &TransportParameters,
    ) -> bool
        ensures { let desired = candidate_delay config.now.max_ack_delay
            self.now.peer_max_ack_delay rtt peer_params.now.min_ack_delay in
            let current = current_delay (pending_of self.now) self.now.peer_max_ack_delay in
            Decides result (IsWorthSending (next_of self.now) desired current) }
    {
        if self.next_outgoing_sequence_number == 0 {
            return true;
        }
        let current = match self.in_flight_ack_frequency_frame {
            Some((_, requested)) => requested.as_nanos(),
            None => self.peer_max_ack_delay.as_nanos(),
        };
        let desired = self
            .candidate_max_ack_delay(rtt, config, peer_params)
            .as_nanos();
        5 * (desired.saturating_sub(current) + current.saturating_sub(desired)) > current
    }

    /// Records that the packet `pn` was sent with a request of this delay (draft-ietf-quic-ack-frequency-04, section
    /// 4). An earlier request in flight is forgotten.
    pub fn ack_frequency_sent(&mut self, pn: u64, requested_max_ack_delay: Duration)
        ensures { self.new ≡ with_pending (pn, requested_max_ack_delay) self.old }
    {
        self.in_flight_ack_frequency_frame = Some((pn, requested_max_ack_delay));
    }

    /// Records that the packet `pn` was acknowledged. If it had the request in flight, the peer uses that delay from
    /// now on (RFC 9002, 6.2.1; draft-ietf-quic-ack-frequency-04, section 7). Otherwise nothing changes.
    pub fn on_acked(&mut self, pn: u64)
        ensures { AcksRequest pn self.old self.new }
    {
        if let Some((number, requested)) = self.in_flight_ack_frequency_frame {
            if number == pn {
                self.in_flight_ack_frequency_frame = None;
                self.peer_max_ack_delay = requested;
            }
        }
    }

    /// Records a received ACK_FREQUENCY frame. Returns whether it is newer than the last and was accepted
    /// (draft-ietf-quic-ack-frequency-04, section 4). `false` changes nothing.
    ///
    /// A delay below 1 ms (the frame is in microseconds) is rejected as a PROTOCOL_VIOLATION: the number of the frame
    /// is stored, and nothing else changes.
    pub fn ack_frequency_received(
        &mut self,
        frame: &AckFrequency,
        pending_acks: &mut PendingAcks,
    ) -> Result<bool, TransportError>
        ensures { FrequencyReceived self.old pending_acks.old frame.now result
            self.new pending_acks.new }
    {
        let sequence = frame.sequence.into_inner();
        if let Some(last) = self.last_ack_frequency_frame {
            if sequence <= last {
                return Ok(false);
            }
        }
        self.last_ack_frequency_frame = Some(sequence);
        let max_ack_delay = Duration::from_micros(frame.request_max_ack_delay.into_inner());
        if max_ack_delay.as_nanos() < TIMER_GRANULARITY_NANOS {
            return Err(TransportError::PROTOCOL_VIOLATION(
                "Requested Max Ack Delay in ACK_FREQUENCY frame is less than min_ack_delay",
            ));
        }
        self.max_ack_delay = max_ack_delay;
        pending_acks.set_ack_frequency_params(frame);
        Ok(true)
    }
}
