//! The lengths of the texts below a tree.
//!
//! A rename makes the text of every path below the moved entry longer or shorter, and fails if one would exceed the limit.
ghost use Rattle.std.specs.Prelude.{◌≡◌, nat_le};
ghost use Rattle.reference.specs.Calls.{deepest, deepest_of};
ghost use Rattle.reference.specs.Plain.{tree_of, entries_of};

use super::tree::{Entries, Tree};

/// Whether no text from the tree down to an entry below it is longer than the limit.
#[cycle(depth)]
pub fn is_within(tree: &Tree, room: usize) -> bool
    ensures { result ≡ nat_le (deepest (tree_of tree.now)) room }
{
    match tree {
        Tree::File(_, _) => true,
        Tree::Dir(_, entries) => are_within(entries, room),
    }
}

/// Whether no text from the entries down to an entry below them, each with its leading slash, is longer than the limit.
#[cycle(depth)]
fn are_within(entries: &Entries, room: usize) -> bool
    ensures { result ≡ nat_le (deepest_of (entries_of entries.now)) room }
{
    match entries {
        Entries::Nothing => true,
        Entries::Entry(name, tree, rest) => {
            name.len() < room && is_within(tree, room - 1 - name.len()) && are_within(rest, room)
        }
    }
}
