//! The forms of lines: the fields after the name of each, and their meaning. Each event has one.
ghost use Rattle.std.specs.Prelude.{◌≡◌, IfOk, OnErr, IsSomeAnd};
ghost use Rattle.recovery_script_syntax.specs.Lines.{EventForm, id_of, token_of};
ghost use Rattle.recovery_script_syntax.specs.Lines.{next_id, id_timeout, next_timeout, drop_previous, revert_path};
ghost use Rattle.recovery_script_syntax.specs.Lines.{received, send, acked, lost};
ghost use Rattle.recovery_script_syntax.specs.Lines.{new_id, initial_id, issue_ids, peer_retired};
ghost use Rattle.recovery_script_syntax.specs.Lines.{ack_frequency, acks_sent, ack_delay_timeout};
ghost use Rattle.recovery_script_syntax.specs.Lines.{set_timer, stop_timer, discard, in_flight, sample};
ghost use Rattle.recovery_script_syntax.specs.Lines.{datagram_in, validated, transmit, pacer_check};
ghost use Rattle.recovery_script_syntax.specs.Lines.{congestion, end_acks, poll_mtu, peer_limit, mtu_found, losses_done};
ghost use Rattle.recovery_script_syntax.specs.Lines.{ecn, check_ack, queue_probe, take_pending};
ghost use Rattle.recovery_script_syntax.specs.Lines.{new_path, reset_path};
ghost use Rattle.recovery_script_syntax.specs.Reading.{ReadsBy, reading, words_left, TookAll};

use crate::words::Words;
use recovery_base::below::{
    AckFrequency, ConnectionId, EcnCounts, NewConnectionId, NoMemory, ResetToken,
};
use recovery_base::time::Instant;
use recovery_events::event::Event;
use recovery_queue::items::ItemQueue;
use std::alloc::Global;

/// A parsed line, before memory is allocated for IDs.
#[derive(Drop)]
pub(crate) enum Line {
    /// An event.
    Said(Event<ItemQueue>),
    /// The local endpoint issues this many IDs from a number on.
    Ids {
        now: Instant,
        first: u64,
        count: u64,
    },
    /// Another path is used from now on, to a port of the peer's address.
    Path {
        now: Instant,
        port: u16,
        fresh: bool,
    },
}

/// Returns the ID of eight bytes that a line names by one of them.
pub(crate) fn id_of(byte: u8) -> ConnectionId
    ensures { result ≡ id_of byte }
{
    ConnectionId::new(&[byte; 8])
}

/// Returns the token that belongs to such an ID.
pub(crate) fn token_of(byte: u8) -> ResetToken
    ensures { result ≡ token_of byte }
{
    ResetToken::from([byte; 16])
}

/// A form of a line without items: the fields after its name, and their meaning.
pub(crate) trait LineForm {
    ghost form: { EventForm };

    /// Parses words from the left. Returns `None` if they are no fields of this form.
    fn read(words: &mut Words<'_>) -> Option<Line>
        ensures { ReadsBy (reading form) words.old words.new result };
}

pub(crate) struct ReceivedLine;

impl LineForm for ReceivedLine {
    ghost form = { received };

    #[inline(always)]
    #[tactic(auto, unfolding(crate::specs::Reading::fields_read))]
    fn read(words: &mut Words<'_>) -> Option<Line> {
        Some(Line::Said(Event::Received {
            space: words.space()?,
            now: words.moment()?,
            number: words.number()?,
            ack_eliciting: words.flag()?,
        }))
    }
}

/// Parses the one form with items after its fields. Only a line with items allocates.
#[inline(always)]
#[tactic(auto, unfolding(crate::specs::Reading::fields_read))]
pub(crate) fn send(alloc: Global, words: &mut Words<'_>) -> Result<Option<Line>, NoMemory>
    ensures found { IfOk result (ReadsBy (reading send) words.old words.new) }
    ensures memory { OnErr result (IsSomeAnd (reading send (words_left words.old)) TookAll) }
{
    let Some(space) = words.space() else {
        return Ok(None);
    };
    let Some(now) = words.moment() else {
        return Ok(None);
    };
    let Some(size) = words.short() else {
        return Ok(None);
    };
    let Some(ack_eliciting) = words.flag() else {
        return Ok(None);
    };
    let Some(largest_acked) = words.largest() else {
        return Ok(None);
    };
    if words.is_empty() {
        return Ok(Some(Line::Said(Event::Send {
            space,
            now,
            size,
            ack_eliciting,
            largest_acked,
            queue: ItemQueue::from_items(Vec::new(alloc)),
            stream_frames: (),
        })));
    }
    let Some(items) = words.items(alloc)? else {
        return Ok(None);
    };
    Ok(Some(Line::Said(Event::Send {
        space,
        now,
        size,
        ack_eliciting,
        largest_acked,
        queue: ItemQueue::from_items(items),
        stream_frames: (),
    })))
}

pub(crate) struct AckedLine;

impl LineForm for AckedLine {
    ghost form = { acked };

    #[inline(always)]
    #[tactic(auto, unfolding(crate::specs::Reading::fields_read))]
    fn read(words: &mut Words<'_>) -> Option<Line> {
        Some(Line::Said(Event::Acked {
            space: words.space()?,
            now: words.moment()?,
            number: words.number()?,
            app_limited: words.flag()?,
        }))
    }
}

pub(crate) struct LostLine;

impl LineForm for LostLine {
    ghost form = { lost };

    #[inline(always)]
    #[tactic(auto, unfolding(crate::specs::Reading::fields_read))]
    fn read(words: &mut Words<'_>) -> Option<Line> {
        Some(Line::Said(Event::Lost {
            space: words.space()?,
            number: words.number()?,
        }))
    }
}

pub(crate) struct NewIdLine;

impl LineForm for NewIdLine {
    ghost form = { new_id };

    #[inline(always)]
    #[tactic(auto, unfolding(crate::specs::Reading::fields_read))]
    fn read(words: &mut Words<'_>) -> Option<Line> {
        let sequence = words.number()?;
        let retire_prior_to = words.number()?;
        let byte = words.byte()?;
        Some(Line::Said(Event::NewId(NewConnectionId {
            sequence,
            retire_prior_to,
            id: id_of(byte),
            reset_token: token_of(byte),
        })))
    }
}

pub(crate) struct InitialIdLine;

impl LineForm for InitialIdLine {
    ghost form = { initial_id };

    #[inline(always)]
    #[tactic(auto, unfolding(crate::specs::Reading::fields_read))]
    fn read(words: &mut Words<'_>) -> Option<Line> {
        Some(Line::Said(Event::InitialId(id_of(words.byte()?))))
    }
}

pub(crate) struct PeerRetiredLine;

impl LineForm for PeerRetiredLine {
    ghost form = { peer_retired };

    #[inline(always)]
    #[tactic(auto, unfolding(crate::specs::Reading::fields_read))]
    fn read(words: &mut Words<'_>) -> Option<Line> {
        Some(Line::Said(Event::PeerRetired {
            sequence: words.number()?,
            limit: words.number()?,
        }))
    }
}

pub(crate) struct AckFrequencyLine;

impl LineForm for AckFrequencyLine {
    ghost form = { ack_frequency };

    #[inline(always)]
    #[tactic(auto, unfolding(crate::specs::Reading::fields_read))]
    fn read(words: &mut Words<'_>) -> Option<Line> {
        Some(Line::Said(Event::AckFrequencyIn(AckFrequency {
            sequence: words.var_int()?,
            ack_eliciting_threshold: words.var_int()?,
            request_max_ack_delay: words.var_int()?,
            reordering_threshold: words.var_int()?,
        })))
    }
}

pub(crate) struct AcksSentLine;

impl LineForm for AcksSentLine {
    ghost form = { acks_sent };

    #[inline(always)]
    #[tactic(auto, unfolding(crate::specs::Reading::fields_read))]
    fn read(words: &mut Words<'_>) -> Option<Line> {
        Some(Line::Said(Event::AcksSent {
            space: words.space()?,
        }))
    }
}

pub(crate) struct AckDelayTimeoutLine;

impl LineForm for AckDelayTimeoutLine {
    ghost form = { ack_delay_timeout };

    #[inline(always)]
    #[tactic(auto, unfolding(crate::specs::Reading::fields_read))]
    fn read(words: &mut Words<'_>) -> Option<Line> {
        Some(Line::Said(Event::AckDelayTimeout {
            space: words.space()?,
        }))
    }
}

pub(crate) struct SetTimerLine;

impl LineForm for SetTimerLine {
    ghost form = { set_timer };

    #[inline(always)]
    #[tactic(auto, unfolding(crate::specs::Reading::fields_read))]
    fn read(words: &mut Words<'_>) -> Option<Line> {
        Some(Line::Said(Event::SetTimer {
            timer: words.timer()?,
            time: words.moment()?,
        }))
    }
}

pub(crate) struct StopTimerLine;

impl LineForm for StopTimerLine {
    ghost form = { stop_timer };

    #[inline(always)]
    #[tactic(auto, unfolding(crate::specs::Reading::fields_read))]
    fn read(words: &mut Words<'_>) -> Option<Line> {
        Some(Line::Said(Event::StopTimer {
            timer: words.timer()?,
        }))
    }
}

pub(crate) struct DiscardLine;

impl LineForm for DiscardLine {
    ghost form = { discard };

    #[inline(always)]
    #[tactic(auto, unfolding(crate::specs::Reading::fields_read))]
    fn read(words: &mut Words<'_>) -> Option<Line> {
        Some(Line::Said(Event::DiscardSpace {
            space: words.space()?,
        }))
    }
}

pub(crate) struct InFlightLine;

impl LineForm for InFlightLine {
    ghost form = { in_flight };

    #[inline(always)]
    #[tactic(auto, unfolding(crate::specs::Reading::fields_read))]
    fn read(words: &mut Words<'_>) -> Option<Line> {
        Some(Line::Said(Event::InFlight {
            path: words.path()?,
        }))
    }
}

pub(crate) struct SampleLine;

impl LineForm for SampleLine {
    ghost form = { sample };

    #[inline(always)]
    #[tactic(auto, unfolding(crate::specs::Reading::fields_read))]
    fn read(words: &mut Words<'_>) -> Option<Line> {
        Some(Line::Said(Event::Sample {
            delay: words.span()?,
            rtt: words.span()?,
        }))
    }
}

pub(crate) struct DatagramInLine;

impl LineForm for DatagramInLine {
    ghost form = { datagram_in };

    #[inline(always)]
    #[tactic(auto, unfolding(crate::specs::Reading::fields_read))]
    fn read(words: &mut Words<'_>) -> Option<Line> {
        Some(Line::Said(Event::DatagramIn {
            path: words.path()?,
            bytes: words.number()?,
        }))
    }
}

pub(crate) struct ValidatedLine;

impl LineForm for ValidatedLine {
    ghost form = { validated };

    #[inline(always)]
    #[tactic(auto, unfolding(crate::specs::Reading::fields_read))]
    fn read(words: &mut Words<'_>) -> Option<Line> {
        Some(Line::Said(Event::Validated {
            path: words.path()?,
        }))
    }
}

pub(crate) struct TransmitLine;

impl LineForm for TransmitLine {
    ghost form = { transmit };

    #[inline(always)]
    #[tactic(auto, unfolding(crate::specs::Reading::fields_read))]
    fn read(words: &mut Words<'_>) -> Option<Line> {
        Some(Line::Said(Event::Transmit {
            now: words.moment()?,
            bytes: words.short()?,
            checked: words.flag()?,
        }))
    }
}

pub(crate) struct PacerCheckLine;

impl LineForm for PacerCheckLine {
    ghost form = { pacer_check };

    #[inline(always)]
    #[tactic(auto, unfolding(crate::specs::Reading::fields_read))]
    fn read(words: &mut Words<'_>) -> Option<Line> {
        Some(Line::Said(Event::PacerCheck {
            now: words.moment()?,
            bytes: words.number()?,
        }))
    }
}

pub(crate) struct CongestionLine;

impl LineForm for CongestionLine {
    ghost form = { congestion };

    #[inline(always)]
    #[tactic(auto, unfolding(crate::specs::Reading::fields_read))]
    fn read(words: &mut Words<'_>) -> Option<Line> {
        Some(Line::Said(Event::Congestion {
            now: words.moment()?,
            sent: words.moment()?,
            persistent: words.flag()?,
            bytes: words.number()?,
        }))
    }
}

pub(crate) struct EndAcksLine;

impl LineForm for EndAcksLine {
    ghost form = { end_acks };

    #[inline(always)]
    #[tactic(auto, unfolding(crate::specs::Reading::fields_read))]
    fn read(words: &mut Words<'_>) -> Option<Line> {
        Some(Line::Said(Event::EndAcks {
            now: words.moment()?,
            app_limited: words.flag()?,
            largest: words.largest()?,
        }))
    }
}

pub(crate) struct PollMtuLine;

impl LineForm for PollMtuLine {
    ghost form = { poll_mtu };

    #[inline(always)]
    #[tactic(auto, unfolding(crate::specs::Reading::fields_read))]
    fn read(words: &mut Words<'_>) -> Option<Line> {
        Some(Line::Said(Event::PollMtu {
            now: words.moment()?,
        }))
    }
}

pub(crate) struct PeerLimitLine;

impl LineForm for PeerLimitLine {
    ghost form = { peer_limit };

    #[inline(always)]
    #[tactic(auto, unfolding(crate::specs::Reading::fields_read))]
    fn read(words: &mut Words<'_>) -> Option<Line> {
        Some(Line::Said(Event::PeerLimit {
            size: words.short()?,
        }))
    }
}

pub(crate) struct MtuFoundLine;

impl LineForm for MtuFoundLine {
    ghost form = { mtu_found };

    #[inline(always)]
    #[tactic(auto, unfolding(crate::specs::Reading::fields_read))]
    fn read(words: &mut Words<'_>) -> Option<Line> {
        Some(Line::Said(Event::MtuFound {
            mtu: words.short()?,
        }))
    }
}

pub(crate) struct LossesDoneLine;

impl LineForm for LossesDoneLine {
    ghost form = { losses_done };

    #[inline(always)]
    #[tactic(auto, unfolding(crate::specs::Reading::fields_read))]
    fn read(words: &mut Words<'_>) -> Option<Line> {
        Some(Line::Said(Event::LossesDone {
            now: words.moment()?,
        }))
    }
}

pub(crate) struct EcnLine;

impl LineForm for EcnLine {
    ghost form = { ecn };

    #[inline(always)]
    #[tactic(auto, unfolding(crate::specs::Reading::fields_read))]
    fn read(words: &mut Words<'_>) -> Option<Line> {
        Some(Line::Said(Event::Ecn {
            space: words.space()?,
            newly_acked: words.number()?,
            counts: EcnCounts {
                ect0: words.number()?,
                ect1: words.number()?,
                ce: words.number()?,
            },
        }))
    }
}

pub(crate) struct CheckAckLine;

impl LineForm for CheckAckLine {
    ghost form = { check_ack };

    #[inline(always)]
    #[tactic(auto, unfolding(crate::specs::Reading::fields_read))]
    fn read(words: &mut Words<'_>) -> Option<Line> {
        Some(Line::Said(Event::CheckAck {
            space: words.space()?,
            low: words.number()?,
            high: words.number()?,
        }))
    }
}

pub(crate) struct QueueProbeLine;

impl LineForm for QueueProbeLine {
    ghost form = { queue_probe };

    #[inline(always)]
    #[tactic(auto, unfolding(crate::specs::Reading::fields_read))]
    fn read(words: &mut Words<'_>) -> Option<Line> {
        Some(Line::Said(Event::QueueProbe {
            space: words.space()?,
            immediate_ack: words.flag()?,
            streams: (),
        }))
    }
}

pub(crate) struct TakePendingLine;

impl LineForm for TakePendingLine {
    ghost form = { take_pending };

    #[inline(always)]
    #[tactic(auto, unfolding(crate::specs::Reading::fields_read))]
    fn read(words: &mut Words<'_>) -> Option<Line> {
        Some(Line::Said(Event::TakePending {
            space: words.space()?,
        }))
    }
}

pub(crate) struct NewPathLine;

impl LineForm for NewPathLine {
    ghost form = { new_path };

    #[inline(always)]
    #[tactic(auto, unfolding(crate::specs::Reading::fields_read))]
    fn read(words: &mut Words<'_>) -> Option<Line> {
        Some(Line::Path {
            now: words.moment()?,
            port: words.short()?,
            fresh: words.flag()?,
        })
    }
}

pub(crate) struct ResetPathLine;

impl LineForm for ResetPathLine {
    ghost form = { reset_path };

    #[inline(always)]
    #[tactic(auto, unfolding(crate::specs::Reading::fields_read))]
    fn read(words: &mut Words<'_>) -> Option<Line> {
        Some(Line::Said(Event::ResetPath {
            now: words.moment()?,
        }))
    }
}

pub(crate) struct IssueIdsLine;

impl LineForm for IssueIdsLine {
    ghost form = { issue_ids };

    #[inline(always)]
    #[tactic(auto, unfolding(crate::specs::Reading::fields_read))]
    fn read(words: &mut Words<'_>) -> Option<Line> {
        Some(Line::Ids {
            now: words.moment()?,
            first: words.number()?,
            count: words.count()?,
        })
    }
}

pub(crate) struct NextIdLine;

impl LineForm for NextIdLine {
    ghost form = { next_id };

    #[inline(always)]
    #[tactic(auto, unfolding(crate::specs::Reading::fields_read))]
    fn read(_words: &mut Words<'_>) -> Option<Line> {
        Some(Line::Said(Event::NextId))
    }
}

pub(crate) struct IdTimeoutLine;

impl LineForm for IdTimeoutLine {
    ghost form = { id_timeout };

    #[inline(always)]
    #[tactic(auto, unfolding(crate::specs::Reading::fields_read))]
    fn read(_words: &mut Words<'_>) -> Option<Line> {
        Some(Line::Said(Event::IdTimeout))
    }
}

pub(crate) struct NextTimeoutLine;

impl LineForm for NextTimeoutLine {
    ghost form = { next_timeout };

    #[inline(always)]
    #[tactic(auto, unfolding(crate::specs::Reading::fields_read))]
    fn read(_words: &mut Words<'_>) -> Option<Line> {
        Some(Line::Said(Event::NextTimeout))
    }
}

pub(crate) struct DropPreviousLine;

impl LineForm for DropPreviousLine {
    ghost form = { drop_previous };

    #[inline(always)]
    #[tactic(auto, unfolding(crate::specs::Reading::fields_read))]
    fn read(_words: &mut Words<'_>) -> Option<Line> {
        Some(Line::Said(Event::DropPrevious))
    }
}

pub(crate) struct RevertPathLine;

impl LineForm for RevertPathLine {
    ghost form = { revert_path };

    #[inline(always)]
    #[tactic(auto, unfolding(crate::specs::Reading::fields_read))]
    fn read(_words: &mut Words<'_>) -> Option<Line> {
        Some(Line::Said(Event::RevertPath))
    }
}
