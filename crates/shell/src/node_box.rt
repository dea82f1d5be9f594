//! Draws the box of one node.
use crate::dot_writer::DotWriter;
use crate::pivot::put_key;
use message::Update;
use node::node::count::pending_len;
use node::{Body, Node, Shape, Slot};
use pathkey::NoMemory;

/// What a box shows of its node besides its contents.
#[derive(Clone, Copy)]
pub struct BoxLabel {
    /// The shape of the node's tree.
    pub shape: Shape,
    /// Whether it is the root, in which any number of messages may be pending.
    pub is_root: bool,
    /// Whether another tree shares it.
    pub is_shared: bool,
}

/// Draws the box of a node. Returns the box's number.
pub fn put_node<U: Update>(
    sketch: &mut DotWriter,
    node: &Node<U>,
    frame: BoxLabel,
) -> Result<u64, NoMemory> {
    let number = sketch.next_box();
    put_name(sketch, number)?;
    sketch.put(b" [label=\"")?;
    match node.body() {
        Body::Leaf(entries) => {
            put_part(sketch, entries.len() as u128, frame.shape.leaf, b" entries")?;
        }
        Body::Inner(slots) => put_slots(sketch, slots.as_slice(), frame)?,
    }
    sketch.put(if frame.is_shared {
        b"\", fillcolor=gold];\n"
    } else {
        b"\"];\n"
    })?;
    Ok(number)
}

/// Appends the name of a box.
pub fn put_name(sketch: &mut DotWriter, number: u64) -> Result<(), NoMemory> {
    sketch.put(b"n")?;
    sketch.put_number(number as u128)
}

/// Appends a count and its maximum.
fn put_part(sketch: &mut DotWriter, count: u128, most: u16, what: &[u8]) -> Result<(), NoMemory> {
    sketch.put_number(count)?;
    sketch.put(b" of ")?;
    sketch.put_number(most as u128)?;
    sketch.put(what)
}

/// Appends what the box of an inner node shows: how full it is, and below that a field for each slot.
fn put_slots<U: Update>(
    sketch: &mut DotWriter,
    slots: &[Slot<U>],
    frame: BoxLabel,
) -> Result<(), NoMemory> {
    sketch.put(b"{")?;
    put_part(sketch, slots.len() as u128, frame.shape.fanout, b" slots, ")?;
    put_waiting(sketch, pending_len(slots), frame)?;
    sketch.put(b"|{")?;
    put_fields(sketch, slots)?;
    sketch.put(b"}}")
}

/// Appends the number of messages that are pending in a node.
fn put_waiting(sketch: &mut DotWriter, count: u128, frame: BoxLabel) -> Result<(), NoMemory> {
    if frame.is_root {
        sketch.put_number(count)?;
        return sketch.put(b" messages");
    }
    put_part(sketch, count, frame.shape.pending, b" messages")
}

/// Appends a field for each slot.
fn put_fields<U: Update>(sketch: &mut DotWriter, slots: &[Slot<U>]) -> Result<(), NoMemory> {
    let mut number: u64 = 0;
    for slot in slots {
        if number > 0 {
            sketch.put(b"|")?;
        }
        put_field(sketch, number, slot)?;
        number = number.wrapping_add(1);
    }
    Ok(())
}

/// Appends the field of a slot: its pivot, and the number of pending messages.
fn put_field<U: Update>(
    sketch: &mut DotWriter,
    number: u64,
    slot: &Slot<U>,
) -> Result<(), NoMemory> {
    sketch.put(b"<s")?;
    sketch.put_number(number as u128)?;
    sketch.put(b"> ")?;
    put_key(sketch, &slot.lo)?;
    sketch.put(b"\\n")?;
    sketch.put_number(slot.pending.len() as u128)
}
