//! Laws of the definitions, which no call states: a history determines every reply and the state.
ghost use Rattle.recovery_history.specs.History.{queue_model};
ghost use Rattle.recovery_history.specs.Equality.{DecidesReplies, DecidesStates};

use recovery_congestion::congestion::ControllerFactory;
use recovery_queue::queue::RetransmitQueue;

/// Proves that two replies to one event after one history are equal, unless an allocation failed. Queues are compared
/// by their contents, texts by their characters.
pub fn one_reply<F: ControllerFactory, Q: RetransmitQueue>()
    ensures { DecidesReplies F.built F.Controller.words (queue_model Q.contents Q.words Q.blank) }
{}

/// Proves that no reader can distinguish two states after one history, except by the marks of paths, which the caller
/// sets.
pub fn one_state<F: ControllerFactory, Q: RetransmitQueue>()
    ensures { DecidesStates F.built F.Controller.words (queue_model Q.contents Q.words Q.blank) }
{}
