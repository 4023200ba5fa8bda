//! Runs of rows, and their failures.
ghost use Rattle.std.specs.Prelude.{◌≡◌, ◌<◌};
ghost use Rattle.recovery_packet_numbers.specs.Skips.{IsSkips};

use crate::events::{Event, Given, Reply, at};
use crate::refusals::is;
use crate::shown::{Shown, given, wanted};
use crate::tally::Tally;
use quic_recovery::Recovery;
use rand_core::Rng;
use recovery_congestion::congestion::ControllerFactory;
use recovery_history::RecoveryConfig;
use std::alloc::Global;
use thiserror::Error;

/// What is wrong with the replies to rows.
#[derive(Clone, Copy, Debug, Error)]
pub enum Wrong {
    /// An allocation failed, outside of any event.
    #[error("NoMemory")]
    NoMemory,
    /// The reply to an event is not what its row expects.
    #[error("row {row}: {found}, and not {wanted}")]
    Row {
        /// The row, from 0 on.
        row: u64,
        /// The reply.
        found: Shown,
        /// The expected reply.
        wanted: Shown,
    },
    /// There are more replies than rows, or fewer.
    #[error("not one reply for each row")]
    Count,
}

/// Compares a reply with what its row expects.
pub fn same(row: u64, reply: &Given, want: &Reply) -> Result<(), Wrong> {
    if is(reply, want) {
        return Ok(());
    }
    Err(Wrong::Row {
        row,
        found: given(reply),
        wanted: wanted(want),
    })
}

/// Compares replies with what their rows expect, from row 0 on.
pub fn compare(replies: &[Given], wanted: &[Reply]) -> Result<(), Wrong> {
    if replies.len() != wanted.len() {
        return Err(Wrong::Count);
    }
    let mut row = 0u64;
    for (reply, want) in replies.iter().zip(wanted) {
        same(row, reply, want)?;
        row = row.saturating_add(1);
    }
    Ok(())
}

/// Runs the events of rows, and compares the replies with what the rows expect. Returns the recovery.
pub fn walk<const N: usize, F, R>(
    alloc: Global,
    config: RecoveryConfig<F>,
    rng: R,
    rows: [(Event, Reply); N],
) -> Result<Recovery<F, Tally, R>, Wrong>
where
    F: ControllerFactory,
    R: Rng + Drop,
    requires rows { N < 1000 }
    requires issued { config.issued ≡ 1 }
    requires skips { IsSkips config.skips }
{
    let mut events = Vec::new(alloc);
    let mut wanted = Vec::new(alloc);
    for (event, want) in rows {
        if events.push(event).is_err() || wanted.push(want).is_err() {
            return Err(Wrong::NoMemory);
        }
    }
    match Recovery::run(alloc, config, rng, at(0), events) {
        Ok((recovery, replies)) => match compare(replies.as_slice(), wanted.as_slice()) {
            Ok(()) => Ok(recovery),
            Err(wrong) => {
                drop(recovery);
                Err(wrong)
            }
        },
        Err(_) => Err(Wrong::NoMemory),
    }
}
