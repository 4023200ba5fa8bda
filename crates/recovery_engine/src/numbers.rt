//! The numbers of the interface: answers, errors of a call, ECN faults and outcomes, results of making a recovery, and
//! settings. `tests/rust.py --write` writes them for Rust and for C.

/// The packet is new.
pub const ANSWER_NEW: u8 = 0;
/// The packet is a duplicate, or so old that it may be one: drop it.
pub const ANSWER_DUPLICATE: u8 = 1;
/// The packet is sent.
pub const ANSWER_SENT: u8 = 2;
/// The packet is acknowledged, and no longer tracked.
pub const ANSWER_ACKED: u8 = 3;
/// The packet is lost, and no longer tracked.
pub const ANSWER_LOST: u8 = 4;
/// Which of the peer's connection IDs to retire.
pub const ANSWER_RETIRE: u8 = 5;
/// Yes or no, as the event asks.
pub const ANSWER_FLAG: u8 = 6;
/// The earliest running timer, if any.
pub const ANSWER_TIMEOUT: u8 = 7;
/// What is in flight on a path.
pub const ANSWER_IN_FLIGHT: u8 = 8;
/// The datagram is transmitted.
pub const ANSWER_TRANSMITTED: u8 = 9;
/// The datagram is not transmitted, by the amplification limit.
pub const ANSWER_BLOCKED: u8 = 10;
/// The pacer delays the bytes.
pub const ANSWER_DELAYED: u8 = 11;
/// The pacer permits the bytes now.
pub const ANSWER_READY: u8 = 12;
/// An MTU probe of the path is sent.
pub const ANSWER_PROBE: u8 = 13;
/// No MTU probe of the path is due.
pub const ANSWER_NO_PROBE: u8 = 14;
/// Whether a black hole was reported.
pub const ANSWER_BLACK_HOLE: u8 = 15;
/// What can be sent.
pub const ANSWER_SENDABLE: u8 = 16;
/// A retransmission queue.
pub const ANSWER_QUEUE: u8 = 17;
/// The event has no other answer.
pub const ANSWER_DONE: u8 = 18;
/// The window has no room for a sender's datagram. The answers of senders alone are above those of events, so that
/// new answers of events do not move them.
pub const ANSWER_FULL: u8 = 128;
/// A sender processed an ACK frame.
pub const ANSWER_ACKNOWLEDGED: u8 = 129;
/// No timer of the sender is due.
pub const ANSWER_NOTHING: u8 = 130;
/// Packets were declared lost, if any. For a timeout, `first` is their space.
pub const ANSWER_LOSSES: u8 = 131;
/// Probes are due.
pub const ANSWER_PROBES: u8 = 132;
/// The caller has too little room for what an ACK frame results in: nothing is done.
pub const ANSWER_NEEDS_ROOM: u8 = 133;
/// The call fails. The number is far from the answers, so that new ones do not move it.
pub const ANSWER_REFUSED: u8 = 255;

/// A number was acknowledged that was never sent (RFC 9000, 13.1): of a sender alone. The errors of senders are
/// above those of events, so that new errors of events do not meet them.
pub const REFUSAL_UNSENT: u8 = 128;
/// The space of 1-RTT packets is never discarded (RFC 9001, 4.9): of a sender alone.
pub const REFUSAL_DATA_SPACE: u8 = 129;
/// Only the sender itself makes this event; a caller cannot.
pub const REFUSAL_DECIDED: u8 = 252;
/// The handle holds a bare recovery, without a sender.
pub const REFUSAL_NO_SENDER: u8 = 253;
/// The handle holds no recovery.
pub const REFUSAL_NO_RECOVERY: u8 = 254;
/// An argument is out of range. A space or timer does not exist, a connection ID has more than 20 bytes, a number of
/// a frame is 2^62 or more, or nanoseconds are 10^9 or more.
pub const REFUSAL_BAD_ARGUMENT: u8 = 255;

/// The count of ECT(0) decreased.
pub const FAULT_ECT0_FALLS: u64 = 0;
/// The count of ECT(1) decreased.
pub const FAULT_ECT1_FALLS: u64 = 1;
/// The count of ECN-CE decreased.
pub const FAULT_CE_FALLS: u64 = 2;
/// The three counts increased by less than the newly acknowledged packets.
pub const FAULT_BLEACHED: u64 = 3;
/// ECT(0) and ECN-CE increased by less than the newly acknowledged packets, or ECT(1) increased.
pub const FAULT_CORRUPTED: u64 = 4;

/// No congestion. If the frame newly acknowledges packets and has no ECN counts, packets are no longer marked on the
/// path.
pub const ECN_QUIET: u8 = 0;
/// More packets were marked with CE: congestion (RFC 9002, 7.1).
pub const ECN_MARKED: u8 = 1;
/// Validation failed: packets are no longer marked on the path.
pub const ECN_FAILED: u8 = 2;

/// Nothing: no ack-eliciting packet is in flight that is probed for, or there is no sender.
pub const AWAITS_NOTHING: u8 = 0;
/// The time at which packets of a space may be lost.
pub const AWAITS_LOSSES: u8 = 1;
/// The probe timeout of a space.
pub const AWAITS_PROBES: u8 = 2;
/// The probe timeout that ends a deadlock of the handshake (RFC 9002, 6.2.2.1).
pub const AWAITS_DEADLOCK_PROBE: u8 = 3;
/// The next datagram from the peer: the amplification limit permits no 1200 bytes (RFC 9000, 8.1).
pub const AWAITS_PEER: u8 = 4;
/// The confirmation of the handshake: only 1-RTT packets are in flight (RFC 9002, 6.2.1).
pub const AWAITS_CONFIRMATION: u8 = 5;

/// A recovery was made.
pub const NEW_MADE: u8 = 0;
/// Allocation failed.
pub const NEW_NO_MEMORY: u8 = 1;
/// The handle holds a recovery already.
pub const NEW_HELD: u8 = 2;
/// The peer's connection ID has more than 20 bytes.
pub const NEW_CID_TOO_LONG: u8 = 3;
/// More than 2^62 connection IDs were issued at the start.
pub const NEW_TOO_MANY_ISSUED: u8 = 4;
/// The first skip is 64 or more.
pub const NEW_SKIP_TOO_LARGE: u8 = 5;
/// An MTU is zero.
pub const NEW_ZERO_MTU: u8 = 6;
/// The initial window is zero.
pub const NEW_ZERO_WINDOW: u8 = 7;
/// The denominator of the loss reduction factor, or of the time threshold, is zero.
pub const NEW_ZERO_DENOMINATOR: u8 = 8;
/// The controller does not exist.
pub const NEW_UNKNOWN_CONTROLLER: u8 = 9;
/// The kind of skips does not exist.
pub const NEW_UNKNOWN_SKIPS: u8 = 10;

/// NewReno (RFC 9002, 7).
pub const CONTROLLER_NEW_RENO: u8 = 0;
/// A fixed window: always the initial one.
pub const CONTROLLER_FIXED: u8 = 1;
/// CUBIC (RFC 9438).
pub const CONTROLLER_CUBIC: u8 = 2;

/// No number is skipped.
pub const SKIPS_DISABLED: u8 = 0;
/// Skips are drawn with the seed.
pub const SKIPS_DRAWN: u8 = 1;
/// The first skip is given, and the following ones are drawn with the seed.
pub const SKIPS_STARTING: u8 = 2;
