//! Queues of item numbers. A row is two queues, and the first one after the second was joined to it.
use crate::rows::holds;
use recovery_queue::items::ItemQueue;
use recovery_queue::queue::RetransmitQueue;
use std::alloc::{AllocError, Global};
use std::process::Abort;

/// Returns a queue of these items, without a vector if there is no list.
fn queue(alloc: Global, items: Option<&[u64]>) -> Result<ItemQueue, AllocError> {
    match items {
        None => Ok(ItemQueue::empty(alloc)),
        Some(items) => {
            let mut list = Vec::new(alloc);
            list.extend_from_slice(items)?;
            Ok(ItemQueue::from_items(list))
        }
    }
}

/// Joins one queue to another by the trait's call only.
fn joined<Q: RetransmitQueue>(rt: &impl Abort, mut queue: Q, other: Q) -> Q {
    assert!(rt; queue.append(other).is_ok(), "NoMemory");
    queue
}

type Row<'a> = (Option<&'a [u64]>, Option<&'a [u64]>, &'a [u64]);

/// Returns whether the first queue of a row has the expected items after the second was joined to it.
fn is_right(rt: &impl Abort, alloc: Global, row: &Row<'_>) -> Result<bool, AllocError> {
    let (items, others, wanted) = *row;
    let found = joined(rt, queue(alloc, items)?, queue(alloc, others)?);
    Ok(found.items() == wanted && found.is_empty(&()) == wanted.is_empty())
}

fn assert_rows(rt: &impl Abort, alloc: Global, rows: &[Row<'_>]) {
    let mut place = 0u64;
    for row in rows {
        holds(rt, is_right(rt, alloc, row).unwrap_or(false), place);
        place = place.saturating_add(1);
    }
}

#[test]
fn lost_items_go_behind(rt: HostRuntime) {
    assert_rows(
        &rt,
        rt.alloc(),
        &[
            (None, None, &[]),
            (None, Some(&[]), &[]),
            (Some(&[]), None, &[]),
            (None, Some(&[7, 8]), &[7, 8]),
            (Some(&[7, 8]), None, &[7, 8]),
            (Some(&[7, 8]), Some(&[]), &[7, 8]),
            (Some(&[7, 8]), Some(&[3, 7]), &[7, 8, 3, 7]),
            (Some(&[]), Some(&[1]), &[1]),
        ],
    );
}
