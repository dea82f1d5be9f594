//! Messages that move everything at or below a path: each pair is put under the key that it has below the new path.
ghost use Rattle.std.specs.Prelude.{◌≡◌, IfOk};
ghost use Rattle.call_compiler.specs.Moves.{Puts, is_key_too_long};
ghost use Rattle.node.specs.Meaning.{value as value_at};
ghost use Rattle.std.specs.List.{list_any};

use message::{Msg, Update};
use node::Tree;
use pathkey::{NoMemory, Path, rekey, subtree};
use scan::readahead::Readahead;
use std::alloc::Global;

/// The maximum length of a path's text, in bytes, and of its key.
const LONGEST_TEXT: usize = 1_023;

/// The messages, followed by one `Put` for each pair at or below `old`, in key order, under the key that it has when `old` is
/// moved to `new`.
///
/// It reads the pairs from the tree in batches, and has no list of all of them besides the messages. A value is shared if its
/// copies share (`Update::copy_value`), so that a block's bytes are not copied.
pub(crate) fn rekeyed_msgs<U: Update>(
    alloc: Global,
    tree: &Tree<U>,
    old: &Path,
    new: &Path,
    first: Vec<Msg<U>>,
) -> Result<Vec<Msg<U>>, NoMemory>
    ensures { IfOk result (λ msgs. Puts (value_at U.means tree.now.root) old.now new.now first.items msgs.items) }
{
    let mut msgs = first;
    let mut rest = subtree(alloc, old)?;
    let mut pieces = Readahead::new(alloc);
    'pairs: while let Some((key, value)) = pieces.first(alloc, tree, &rest)? {
        let Some(moved) = rekey(alloc, &key, old, new)? else {
            // Unreachable, since each key of the range begins with the old path's.
            return Ok(msgs);
        };
        msgs.push(Msg::Put(moved, value))?;
        rest.lo = key.next(alloc)?;
    }
    Ok(msgs)
}

/// Whether one of the messages has a key that is too long for a path's.
pub(crate) fn has_too_long_key<U: Update>(msgs: &[Msg<U>]) -> bool
    ensures { result ≡ list_any is_key_too_long msgs.now }
{
    msgs.iter().any(|msg| is_too_long(msg))
}

/// Whether the message has a key that is too long for a path's; no range-delete has one.
fn is_too_long<U: Update>(msg: &Msg<U>) -> bool
    ensures { result ≡ is_key_too_long msg.now }
{
    match msg.point_key() {
        Some(key) => key.as_bytes().len() > LONGEST_TEXT,
        None => false,
    }
}
