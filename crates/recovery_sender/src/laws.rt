//! Laws of a sender that no call states.
ghost use Rattle.recovery_history.specs.History.{queue_model};
ghost use Rattle.recovery_sender.specs.Promises.Extended.{StepsExtendPasts};

use recovery_congestion::congestion::ControllerFactory;
use recovery_queue::queue::RetransmitQueue;

/// Proves that the steps of a sender extend each past that explains its marks. A new sender has no mark, so all events
/// that led to a sender explain its marks, and its promises on persistent congestion hold of them (RFC 9002, 7.6.2).
pub fn past_explains_marks<F: ControllerFactory, Q: RetransmitQueue>()
    ensures { StepsExtendPasts F.built F.Controller.words (queue_model Q.contents Q.words Q.blank) }
{}
