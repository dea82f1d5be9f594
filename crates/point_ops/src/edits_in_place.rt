//! In-place edits of the operations of one key, which `cow_map` runs within their chunk.
//!
//! Invariant: each leaves at least one operation. On allocation failure the operations are unchanged, and `PushOp` returns
//! its update.
ghost use Rattle.std.specs.Prelude.{◌≡◌, ◌<◌, drop, length, MatchOption};
ghost use Rattle.point_ops.specs.KeyOps.{IsAppended, IsInserted, IsJoined};

use crate::key_op_ref::KeyOpRef;
use crate::key_ops::KeyOps;
use cow_map::Edit;
use message::{Update, UpdateTarget};
use std::alloc::Global;

/// Appends an update to the operations. The answer is how many there were and how many there are now, or the update on
/// allocation failure.
#[derive(Drop)]
pub(crate) struct PushOp<U> {
    pub(crate) alloc: Global,
    pub(crate) update: U,
}

impl<U: Update> Edit<KeyOps<U>> for PushOp<U> {
    type Answer = Result<(usize, usize), U>;

    ghost does = { λ l cs ds r. IsInserted U.means l.update cs ds r };

    fn edit(self, run: &mut KeyOps<U>) -> Result<(usize, usize), U> {
        run.edit(self.alloc, self.update)
    }
}

/// Joins an update to the only operation of a key. The answer is whether it did.
#[derive(Drop)]
pub(crate) struct JoinOp<'a, U> {
    pub(crate) alloc: Global,
    pub(crate) update: &'a U,
}

impl<'a, U: Update> Edit<KeyOps<U>> for JoinOp<'a, U> {
    type Answer = bool;

    ghost does = { λ l cs ds r. IsJoined U.means l.update.now cs ds r };

    fn edit(self, run: &mut KeyOps<U>) -> bool {
        run.join(self.alloc, self.update)
    }
}

/// Appends the only update of other operations. The answer is how many operations there were and how many there are now; none if the
/// others are not one update, or an allocation failed.
#[derive(Drop)]
pub(crate) struct AppendOps<'a, U: UpdateTarget> {
    pub(crate) alloc: Global,
    pub(crate) newer: &'a KeyOps<U>,
}

impl<'a, U: Update> Edit<KeyOps<U>> for AppendOps<'a, U> {
    type Answer = Option<(usize, usize)>;

    ghost does = { λ l cs ds r. MatchOption r (ds ≡ cs) (IsAppended U.means l.newer.now cs ds) };

    fn edit(self, run: &mut KeyOps<U>) -> Option<(usize, usize)> {
        let AppendOps { alloc, newer } = self;
        if newer.len() != 1 {
            return None;
        }
        let KeyOpRef::Edit(update) = newer.op_at(0) else {
            return None;
        };
        run.append(alloc, update)
    }
}

/// Removes the `consumed` oldest operations of a key that has more.
#[derive(Drop)]
pub(crate) struct DropOldestOps {
    pub(crate) consumed: usize,
}

impl<U: Update> Edit<KeyOps<U>> for DropOldestOps {
    type Answer = ();

    ghost does = { λ s cs ds r. s.consumed < length cs → ds ≡ drop s.consumed cs };

    fn edit(self, run: &mut KeyOps<U>) {
        run.drop_oldest(self.consumed);
    }
}
