//! Settings.
ghost use Rattle.std.specs.Prelude.{◌≡◌, None};

use crate::below::VarInt;
use crate::time::Duration;

/// The values that ACK_FREQUENCY frames request from the peer (draft-ietf-quic-ack-frequency-04, section 4).
#[derive(Clone, Copy)]
pub struct AckFrequencyConfig {
    /// How many ack-eliciting packets the peer may leave without an immediate ACK.
    pub ack_eliciting_threshold: VarInt,
    /// The longest delay of the peer's ACKs; `None` requests the peer's own.
    pub max_ack_delay: Option<Duration>,
    /// How far out of order a packet may be before the peer acknowledges immediately; 0 turns this off.
    pub reordering_threshold: VarInt,
}

impl AckFrequencyConfig {
    /// Sets how many ack-eliciting packets the peer may leave without an immediate ACK. Default 1.
    pub fn ack_eliciting_threshold(&mut self, value: VarInt) -> &mut Self
        ensures same { result.ghost_name ≡ self.entry.ghost_name }
        ensures value { result.now ≡ record self.old { ack_eliciting_threshold = value } }
    {
        self.ack_eliciting_threshold = value;
        self
    }

    /// Sets the longest delay of the peer's ACKs; `None` requests the peer's own. Default `None`.
    pub fn max_ack_delay(&mut self, value: Option<Duration>) -> &mut Self
        ensures same { result.ghost_name ≡ self.entry.ghost_name }
        ensures value { result.now ≡ record self.old { max_ack_delay = value } }
    {
        self.max_ack_delay = value;
        self
    }

    /// Sets how far out of order a packet may be before the peer acknowledges immediately; 0 turns this off. Default 2.
    pub fn reordering_threshold(&mut self, value: VarInt) -> &mut Self
        ensures same { result.ghost_name ≡ self.entry.ghost_name }
        ensures value { result.now ≡ record self.old { reordering_threshold = value } }
    {
        self.reordering_threshold = value;
        self
    }
}

impl Default for AckFrequencyConfig {
    ghost is_default = { λ config. config ≡ record {
      ack_eliciting_threshold = 1;
      max_ack_delay = None;
      reordering_threshold = 2;
    } };

    fn default() -> Self {
        AckFrequencyConfig {
            ack_eliciting_threshold: VarInt::from_u32(1),
            max_ack_delay: None,
            reordering_threshold: VarInt::from_u32(2),
        }
    }
}
