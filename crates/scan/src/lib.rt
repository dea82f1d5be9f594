//! The first pairs of a range of keys, in key order, with the messages pending on the paths to the leaves applied.
//!
//! A search advances from one segment of keys to the next. A segment ends at the next pivot, or at the next end of a message, so
//! each message affects all of its keys or none. A segment under a range-delete is skipped at once, with all older messages for
//! its keys; in any other the first pair of the child decides. A scan of more pairs is one walk: it reads the pairs of a child in
//! batches, and applies the messages of the slot to them.
#![tactic(auto)]

ghost use Rattle.std.specs.Prelude.{IfOk};
ghost use Rattle.node.specs.Meaning.{value as value_at};
ghost use Rattle.scan.specs.Pairs.{IsFirst, IsScan};

use crate::search::first;
use crate::walk::walk;
use message::Update;
use node::Tree;
use pathkey::{Key, KeyRange, NoMemory};
use std::alloc::Global;

mod apply_pass;
pub mod laws;
mod leaf;
pub mod readahead;
mod search;
mod slot;
mod walk;

/// The first pair of the range; `None` if the range has no value.
pub fn first_in<U: Update>(
    alloc: Global,
    tree: &Tree<U>,
    range: &KeyRange,
) -> Result<Option<(Key, U::Value)>, NoMemory>
    ensures { IfOk result (λ r. IsFirst (value_at U.means tree.now.root) range.now.lo range.now.hi r) }
{
    first(alloc, tree.root(), &range.lo, range.hi.as_ref())
}

/// The first `limit` pairs of the range, or all if there are fewer, in key order.
pub fn scan<U: Update>(
    alloc: Global,
    tree: &Tree<U>,
    range: &KeyRange,
    limit: usize,
) -> Result<Vec<(Key, U::Value)>, NoMemory>
    ensures { IfOk result (λ v. IsScan (value_at U.means tree.now.root) range.now.lo range.now.hi limit v.items) }
{
    let mut pairs = Vec::new(alloc);
    walk(
        alloc,
        tree.root(),
        &range.lo,
        range.hi.as_ref(),
        limit,
        &mut pairs,
    )?;
    Ok(pairs)
}
