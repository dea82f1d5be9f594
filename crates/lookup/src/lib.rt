//! The value at a key, with the messages pending on the path to its leaf applied.
//!
//! Invariant of the loop: the node reached means at the key what the first one means, since no slot passed had messages (`IsOnWay`).
#![tactic(auto)]

ghost use Rattle.std.specs.Prelude.{◌≡◌, IfOk, [], None};
ghost use Rattle.message.specs.Effects.{effects};
ghost use Rattle.node.specs.Lawful.{Rises};
ghost use Rattle.node.specs.Meaning.{lookup, value as value_at};
ghost use Rattle.node.specs.Searchable.{IsSearchable};

use message::{Resolution, Update};
use node::leaf::position;
use node::search::slot_of;
use node::{Body, Node, Slot, Tree};
use pathkey::{Key, NoMemory};
use std::alloc::Global;

/// The value at the key: its leaf's entry with the messages pending on the path applied, oldest first (Bender et al., ;login:
/// 2015). The descent ends early at a message that determines the value.
pub fn get<U: Update>(
    alloc: Global,
    tree: &Tree<U>,
    key: &Key,
) -> Result<Option<U::Value>, NoMemory>
    ensures { IfOk result (λ v. v ≡ value_at U.means tree.now.root key.now) }
{
    find(alloc, tree.root(), key)
}

/// The value at the key below a node. A slot without pending messages is passed at once.
#[cycle(find)]
fn find<U: Update>(alloc: Global, node: &Node<U>, key: &Key) -> Result<Option<U::Value>, NoMemory>
    requires { IsSearchable node.now }
    ensures { IfOk result (λ v. v ≡ value_at U.means node.now key.now) }
{
    let mut node = node;
    loop {
        match node.body() {
            Body::Leaf(entries) => return find_entry::<U>(alloc, entries.as_slice(), key),
            Body::Inner(slots) => {
                if slots.is_empty() {
                    // Does not occur in a lawful tree, whose inner nodes have slots.
                    return Ok(None);
                }
                let slot = &slots[slot_of(slots.as_slice(), key)];
                if slot.pending.len() > 0 {
                    return find_in(alloc, slot, key);
                }
                node = &slot.child;
            }
        }
    }
}

/// The value at the key in a slot: what the pending messages make of the value below.
#[cycle(find)]
#[inline(never)]
fn find_in<U: Update>(
    alloc: Global,
    slot: &Slot<U>,
    key: &Key,
) -> Result<Option<U::Value>, NoMemory>
    requires { IsSearchable slot.now.child.value }
    ensures { IfOk result (λ v. v ≡ effects U.means slot.now.pending.0 key.now (value_at U.means slot.now.child.value key.now)) }
{
    match slot.pending.resolve(alloc, key)? {
        Resolution::Value(value) => Ok(value),
        Resolution::Untouched => find(alloc, &slot.child, key),
        Resolution::NeedsBase => {
            let below = find(alloc, &slot.child, key)?;
            slot.pending.value_after(alloc, key, below)
        }
    }
}

/// The value of the entry at the key, found by a search in strides.
fn find_entry<U: Update>(
    alloc: Global,
    entries: &[(Key, U::Value)],
    key: &Key,
) -> Result<Option<U::Value>, NoMemory>
    requires { Rises [] None entries.now }
    ensures { IfOk result (λ v. v ≡ lookup entries.now key.now) }
{
    match position(entries, key) {
        Ok(i) => Ok(Some(U::copy_value(alloc, &entries[i].1)?)),
        Err(_) => Ok(None),
    }
}
