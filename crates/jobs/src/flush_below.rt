//! How far messages are flushed in a subtree that is not part of a tree.
//!
//! No claim depends on the choices that are made here: every flush preserves what the subtree means, and is proved to.
ghost use Rattle.std.specs.Prelude.{IsTrue};
ghost use Rattle.std.specs.Option.{option_copied};
ghost use Rattle.node.specs.Shapes.{is_shape};
ghost use Rattle.node.specs.Subtrees.{StaysSubtree};
ghost use Rattle.jobs.specs.Job.{EndsLawfully};

use flush::inner::InnerFlush;
use flush::leaf::LeafFlush;
use message::Update;
use node::shape::GREATEST_FANOUT;
use node::{Node, Place, Shape, StepReply, step_subtree};
use pathkey::Key;
use std::alloc::Global;
use std::sync::Arc;

/// Flushes a slot of the node at a place, and returns whether an inner node is below it, which may have got messages.
fn flush_slot<U: Update>(
    alloc: Global,
    shape: Shape,
    top: &mut Arc<Node<U>>,
    hi: Option<&Key>,
    at: Place,
    slot: u8,
) -> bool
    requires shape { IsTrue (is_shape shape) }
    requires lawful { EndsLawfully shape (option_copied hi) top.old.value }
    ensures { StaysSubtree U.means shape (option_copied hi.entry) top.old.value top.new.value }
{
    match step_subtree(alloc, &InnerFlush, shape, top, hi, at, slot) {
        StepReply::NotThere => {
            // A leaf may be below. If nothing is pending or there is no such slot, this does nothing either.
            step_subtree(alloc, &LeafFlush, shape, top, hi, at, slot);
            false
        }
        StepReply::NoMemory => false,
        StepReply::Did(_) | StepReply::NoRoom => true,
    }
}

/// Flushes the slots of the node at a place, and those of the nodes below that got messages, down to `levels` levels deeper. If
/// a node has no room, or an allocation fails, the messages stay pending.
pub fn flush_below<U: Update>(
    alloc: Global,
    shape: Shape,
    top: &mut Arc<Node<U>>,
    hi: Option<&Key>,
    at: Place,
    levels: u8,
)
    requires shape { IsTrue (is_shape shape) }
    requires lawful { EndsLawfully shape (option_copied hi) top.old.value }
    ensures { StaysSubtree U.means shape (option_copied hi.entry) top.old.value top.new.value }
{
    for slot in 0..GREATEST_FANOUT as u8 {
        if !flush_slot(alloc, shape, top, hi, at, slot) || levels == 0 {
            continue;
        }
        // There always is one: `build` begins at the root with 15 levels.
        if let Some(under) = at.under(slot) {
            flush_below(alloc, shape, top, hi, under, levels - 1);
        }
    }
}
