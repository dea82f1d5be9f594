//! New nodes: an empty leaf, and the root of an empty tree, which is one slot over an empty leaf.
ghost use Rattle.std.specs.Prelude.{◌≡◌, IfOk, []};
ghost use Rattle.node.specs.Pure.{empty_root, leaf as pure_leaf};
ghost use Rattle.node.specs.Searchable.{IsRoot};
ghost use Rattle.node.specs.See.{see_slot};

use super::{Body, Node, Slot};
use message::Update;
use pathkey::{Key, NoMemory};
use pending::Pending;
use std::alloc::Global;
use std::sync::Arc;

impl<U: Update> Node<U> {
    /// A leaf without entries. It does not allocate.
    pub fn empty_leaf(alloc: Global) -> Node<U>
        ensures { result ≡ pure_leaf [] }
    {
        Node::of(Body::Leaf(Vec::new(alloc)))
    }

    /// A slot that begins at the key, over an empty leaf.
    fn empty_slot(alloc: Global, lo: Key) -> Result<Slot<U>, NoMemory>
        ensures { IfOk result (λ s. see_slot s ≡ record { lo = lo; msgs = []; child = pure_leaf [] }) }
    {
        let child = Arc::new(alloc, Node::empty_leaf(alloc))?;
        let pending = Pending::new(alloc);
        Ok(Slot { lo, pending, child })
    }

    /// A node with one slot over one empty leaf.
    pub fn root(alloc: Global) -> Result<Node<U>, NoMemory>
        ensures { IfOk result (λ n. n ≡ empty_root) }
    {
        let mut slots = Vec::with_capacity(alloc, 1)?;
        slots.push(Node::empty_slot(alloc, Key::new(alloc))?)?;
        Ok(Node::of(Body::Inner(slots)))
    }
}
