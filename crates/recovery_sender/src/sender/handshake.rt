//! What the handshake reports (RFC 9001, 4.1.2; RFC 9002, A.8).
ghost use Rattle.std.specs.Prelude.{true, []};
ghost use Rattle.recovery_sender.specs.Steps.{CompletesCall};

use super::Sender;
use rand_core::Rng;
use recovery_base::time::Duration;
use recovery_congestion::congestion::ControllerFactory;
use recovery_losses::Variables;
use recovery_queue::queue::RetransmitQueue;

impl<F, Q, R> Sender<F, Q, R>
where
    F: ControllerFactory,
    Q: RetransmitQueue,
    R: Rng + Drop,
{
    /// Records that Handshake keys are available (RFC 9002, A.8).
    pub fn on_handshake_keys(&mut self)
        ensures { CompletesCall [] (record self.old.variables { has_handshake_keys = true })
            self.old self.new }
    {
        self.complete(Variables {
            has_handshake_keys: true,
            ..self.variables
        });
    }

    /// Records that the handshake is confirmed (RFC 9001, 4.1.2). From then on 1-RTT packets are probed for, and a
    /// client knows its address validated (RFC 9002, 6.2.1 and 6.2.2.1).
    pub fn on_handshake_confirmed(&mut self)
        ensures { CompletesCall [] (record self.old.variables {
          is_handshake_confirmed = true;
          is_address_known = true;
        }) self.old self.new }
    {
        self.complete(Variables {
            is_handshake_confirmed: true,
            is_address_known: true,
            ..self.variables
        });
    }

    /// Sets the peer's max_ack_delay, for 1-RTT packets (RFC 9000, 18.2).
    pub fn set_peer_max_ack_delay(&mut self, span: Duration)
        ensures { CompletesCall [] (record self.old.variables { max_ack_delay = span })
            self.old self.new }
    {
        self.complete(Variables {
            max_ack_delay: span,
            ..self.variables
        });
    }
}
