//! Draws a whole tree.
use crate::dot_writer::DotWriter;
use crate::node_box::{BoxLabel, put_name, put_node};
use crate::pivot::put_bytes;
use message::Update;
use node::{Body, Node, Tree};
use pathkey::NoMemory;
use std::sync::Arc;

/// Draws a tree within a frame that has the name. Returns the number of the root's box. Fails only if an allocation fails.
pub fn put_tree<U: Update>(
    sketch: &mut DotWriter,
    name: &[u8],
    tree: &Tree<U>,
) -> Result<u64, NoMemory> {
    sketch.put(b"subgraph \"cluster_")?;
    put_bytes(sketch, name)?;
    sketch.put(b"\" {\nlabel=\"")?;
    put_bytes(sketch, name)?;
    sketch.put(b"\";\n")?;
    let number = put_below(sketch, tree.root(), frame_of(tree))?;
    sketch.put(b"}\n")?;
    Ok(number)
}

/// Draws the box of a snapshot, with its name. Returns the box's number. Fails only if an allocation fails.
pub fn put_snapshot(sketch: &mut DotWriter, name: &[u8]) -> Result<u64, NoMemory> {
    let number = sketch.next_box();
    put_name(sketch, number)?;
    sketch.put(b" [label=\"snapshot ")?;
    put_bytes(sketch, name)?;
    sketch.put(b"\", shape=note, fillcolor=gold];\n")?;
    Ok(number)
}

/// Draws the arrow from a snapshot's box to the root of its tree. If this is the live root, the arrow points to its box,
/// which is drawn already, and otherwise to a box of its own. Fails only if an allocation fails.
pub fn point_to_root<U: Update>(
    sketch: &mut DotWriter,
    snapshot: u64,
    tree: &Tree<U>,
    live: &Tree<U>,
    drawn: u64,
) -> Result<(), NoMemory> {
    let root = if tree.has_root_of(live)? {
        drawn
    } else {
        put_node(sketch, tree.root(), frame_of(tree))?
    };
    put_name(sketch, snapshot)?;
    put_to(sketch, root)
}

/// What the box of a root shows besides the contents of the node.
fn frame_of<U: Update>(tree: &Tree<U>) -> BoxLabel {
    BoxLabel {
        shape: tree.shape(),
        is_root: true,
        is_shared: tree.owners() > 1,
    }
}

/// Draws a node and all nodes below it. Returns the number of the node's box.
fn put_below<U: Update>(
    sketch: &mut DotWriter,
    node: &Node<U>,
    frame: BoxLabel,
) -> Result<u64, NoMemory> {
    let number = put_node(sketch, node, frame)?;
    let mut field: u64 = 0;
    if let Body::Inner(slots) = node.body() {
        for slot in slots.as_slice() {
            let below = BoxLabel {
                shape: frame.shape,
                is_root: false,
                is_shared: frame.is_shared || Arc::strong_count(&slot.child) > 1,
            };
            let child = put_below(sketch, &slot.child, below)?;
            put_arrow(sketch, number, field, child)?;
            field = field.wrapping_add(1);
        }
    }
    Ok(number)
}

/// Draws the arrow from a field of a box to another box.
fn put_arrow(sketch: &mut DotWriter, from: u64, field: u64, to: u64) -> Result<(), NoMemory> {
    put_name(sketch, from)?;
    sketch.put(b":s")?;
    sketch.put_number(field as u128)?;
    put_to(sketch, to)
}

/// Draws the end of an arrow.
fn put_to(sketch: &mut DotWriter, to: u64) -> Result<(), NoMemory> {
    sketch.put(b" -> ")?;
    put_name(sketch, to)?;
    sketch.put(b";\n")
}
