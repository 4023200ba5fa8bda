//! An iterator over the IDs that a queue holds.
ghost use Rattle.std.specs.Prelude.{◌≡◌, ◌<◌};
ghost use Rattle.std.specs.Iterator.{YieldsFirst, item_count};
ghost use Rattle.recovery_base.specs.Units.{number_limit};
ghost use Rattle.recovery_ids.specs.RemoteIds.{items_from};
ghost use Rattle.recovery_ids.specs.Window.{ids_in};

use crate::window::{CidData, LEN, Window};
use std::marker::Model;

/// The IDs that a `CidQueue` holds, the active one first, each with its distance from the active number: at most
/// `CidQueue::LEN`.
///
/// In contracts its value is the list of those that are left.
#[derive(Drop)]
pub struct CidIter<'a> {
    window: &'a Window,
    step: usize,
}

impl<'a> Model for CidIter<'a> {
    ghost use Rattle.std.specs.Prelude.{ℕ, List, ◌<◌};
    ghost use Rattle.recovery_base.specs.Units.{number_limit};
    ghost use Rattle.recovery_ids.specs.RemoteIds.{HeldId, items_from};
    ghost use Rattle.recovery_ids.specs.Window.{ids_in};

    ghost Value = { List (ℕ × HeldId) };

    ghost view = { λ it. items_from it.step (ids_in it.window.now) };

    ghost invariant = { λ it. it.window.now.start < number_limit };
}

/// Returns the IDs that a window holds, from its start on.
pub fn items(window: &Window) -> CidIter<'_>
    requires { window.now.start < number_limit }
    ensures { result ≡ items_from 0 (ids_in window.now) }
{
    CidIter { window, step: 0 }
}

impl<'a> Iterator for CidIter<'a> {
    type Item = (usize, CidData);

    ghost next_gives = { YieldsFirst (λ rest. rest) };

    ghost remaining = { item_count (λ rest. rest) };

    fn next(&mut self) -> Option<(usize, CidData)> {
        while self.step < LEN {
            let step = self.step;
            self.step += 1;
            if let Some(entry) = self.window.get(self.window.start() + step as u64) {
                return Some((step, entry));
            }
        }
        None
    }
}
