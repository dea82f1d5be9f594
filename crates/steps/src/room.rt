//! Steps that make room for a step that has none.
//!
//! No claim depends on the choices that are made here: every step preserves what the tree means, and is proved to.
use message::Update;
use node::count::pending_len;
use node::{Body, Node, Place, Shape, Slot, StepKind, Tree, TreeStep};

/// The slots of the node that the indexes lead to; `None` if no inner node is there.
fn slots_at<'a, U: Update>(root: &'a Node<U>, numbers: &[u8]) -> Option<&'a [Slot<U>]> {
    let mut node = root;
    for number in numbers {
        node = &node.slots()?.get(*number as usize)?.child;
    }
    node.slots()
}

/// The place that these indexes lead to; `None` if they are more than 15.
fn place_from(numbers: &[u8]) -> Option<Place> {
    let mut at = Place::root();
    for number in numbers {
        at = at.under(*number)?;
    }
    Some(at)
}

/// The index of the slot with the most messages, the first of equals; `None` if no message is pending.
fn fullest<U: Update>(slots: &[Slot<U>]) -> Option<usize> {
    let mut number = None;
    let mut most = 0;
    for (i, slot) in slots.iter().enumerate() {
        if slot.pending.len() > most {
            most = slot.pending.len();
            number = Some(i);
        }
    }
    number
}

/// The flush of a slot of the node at a place.
fn flush_of<U: Update>(slots: &[Slot<U>], at: Place, number: usize) -> Option<TreeStep> {
    let kind = if slots.get(number)?.child.is_leaf() {
        StepKind::FlushLeaf
    } else {
        StepKind::FlushInner
    };
    // Always succeeds: a node of a tree has at most 64 slots.
    let slot = u8::try_from(number).ok()?;
    Some(TreeStep { kind, at, slot })
}

/// The flush of the fullest slot of the node at a place.
fn flush_fullest<U: Update>(tree: &Tree<U>, at: Place) -> Option<TreeStep> {
    let slots = slots_at(tree.root(), at.numbers())?;
    flush_of(slots, at, fullest(slots)?)
}

/// A step of the root.
fn of_root(kind: StepKind) -> TreeStep {
    TreeStep {
        kind,
        at: Place::root(),
        slot: 0,
    }
}

/// The step that splits the node at a place: at the root a new root is put above it first.
fn split_node(at: Place) -> Option<TreeStep> {
    let Some((last, above)) = at.numbers().split_last() else {
        return Some(of_root(StepKind::RootUp));
    };
    Some(TreeStep {
        kind: StepKind::SplitInner,
        // Always a place: these are the indexes of one without the last.
        at: place_from(above)?,
        slot: *last,
    })
}

/// How the children of two neighbouring slots are merged; `None` if one node with what both hold would be over half full.
///
/// A node that was split in two is over half full when its parts are merged again, so a split is not undone by a merge.
fn merge_of<U: Update>(shape: Shape, slot: &Slot<U>, next: &Slot<U>) -> Option<StepKind> {
    match (slot.child.body(), next.child.body()) {
        (Body::Leaf(entries), Body::Leaf(later)) => {
            // Each message counts as the entry that it may add, so that flushing them does not split the merged leaf again.
            let waiting = slot.pending.len().saturating_add(next.pending.len());
            let all = entries.len().saturating_add(later.len());
            if all.saturating_add(waiting) > shape.leaf as usize / 2 {
                return None;
            }
            Some(StepKind::MergeLeaves)
        }
        (Body::Inner(slots), Body::Inner(later)) => {
            let waiting = slot
                .child
                .weight()
                .pending
                .saturating_add(next.child.weight().pending);
            let all = slots.len().saturating_add(later.len());
            if all > shape.fanout as usize / 2 || waiting > shape.pending as u128 / 2 {
                return None;
            }
            Some(StepKind::MergeInner)
        }
        // Unreachable: the leaves of a tree are at equal depth.
        _ => None,
    }
}

/// The first merge of two children of the node at a place; `None` if no two neighbours are small enough.
fn merge_in<U: Update>(shape: Shape, slots: &[Slot<U>], at: Place) -> Option<TreeStep> {
    let (mut left, later) = slots.split_first()?;
    let mut slot: u8 = 0;
    for next in later {
        if let Some(kind) = merge_of(shape, left, next) {
            return Some(TreeStep { kind, at, slot });
        }
        left = next;
        // No node of a tree has so many slots that the index saturates.
        slot = slot.saturating_add(1);
    }
    None
}

/// Whether a node is at most a quarter full. Of two nodes that fit into half a node, one is.
fn is_small<U: Update>(shape: Shape, node: &Node<U>) -> bool {
    match node.body() {
        Body::Leaf(entries) => entries.len() <= shape.leaf as usize / 4,
        Body::Inner(slots) => slots.len() <= shape.fanout as usize / 4,
    }
}

/// Whether the child of the slot with this index, or of a slot beside it, is small.
fn is_near_small<U: Update>(shape: Shape, slots: &[Slot<U>], number: usize) -> bool {
    for i in number.saturating_sub(1)..number.saturating_add(2) {
        if let Some(slot) = slots.get(i) {
            if is_small(shape, &slot.child) {
                return true;
            }
        }
    }
    false
}

/// The first merge of two children of the node at a place, if a path goes through the slot with this index and a child
/// there is small.
fn merge_near<U: Update>(
    shape: Shape,
    slots: &[Slot<U>],
    at: Place,
    number: usize,
) -> Option<TreeStep> {
    if is_near_small(shape, slots, number) {
        merge_in(shape, slots, at)
    } else {
        None
    }
}

/// The first merge in the nodes on the path from the root to the slot of a flush.
fn merge_on_path<U: Update>(tree: &Tree<U>, flush: TreeStep) -> Option<TreeStep> {
    let mut node: &Node<U> = tree.root();
    let mut at = Place::root();
    for number in flush.at.numbers() {
        let slots = node.slots()?;
        if let Some(step) = merge_near(tree.shape(), slots, at, *number as usize) {
            return Some(step);
        }
        node = &slots.get(*number as usize)?.child;
        at = at.under(*number)?;
    }
    merge_near(tree.shape(), node.slots()?, at, flush.slot as usize)
}

/// The step that removes a root with one slot whose child has few slots; `None` if the root is not so.
///
/// A root is raised only over a node with all slots that it may have, so that the two steps do not alternate.
fn lower<U: Update>(tree: &Tree<U>) -> Option<TreeStep> {
    let slots = tree.root().slots()?;
    if slots.len() != 1 {
        return None;
    }
    let below = slots.first()?.child.slots()?;
    if below.len() > tree.shape().fanout as usize / 2 {
        return None;
    }
    Some(of_root(StepKind::RootDown))
}

/// The step that removes a root with one slot, or merges two neighbours on the path to a flush.
fn shrink<U: Update>(tree: &Tree<U>, flush: TreeStep) -> Option<TreeStep> {
    match lower(tree) {
        Some(step) => Some(step),
        None => merge_on_path(tree, flush),
    }
}

/// The step that splits the node of a flush, if the flush is into a full leaf and the node has all slots that it may have.
///
/// A full leaf is split for what a flush brings, but not below such a node: there a flush takes no more than the messages
/// that add no entry. If more of these arrive again and again, those after them would never move.
fn split_if_full<U: Update>(tree: &Tree<U>, flush: TreeStep) -> Option<TreeStep> {
    let slots = slots_at(tree.root(), flush.at.numbers())?;
    let slot = slots.get(flush.slot as usize)?;
    let Body::Leaf(entries) = slot.child.body() else {
        return None;
    };
    let shape = tree.shape();
    let are_full = slots.len() >= shape.fanout as usize && entries.len() >= shape.leaf as usize;
    if are_full && slot.pending.len() > 1 {
        split_node(flush.at)
    } else {
        None
    }
}

/// The step that reshapes the nodes on the path to a flush before the flush is tried: a merge of nodes that removals have
/// left nearly empty, or else a split of the flush's node. `None` if the flush is to be tried at once.
pub fn preemptive_split<U: Update>(tree: &Tree<U>, flush: TreeStep) -> Option<TreeStep> {
    match shrink(tree, flush) {
        Some(step) => Some(step),
        None => split_if_full(tree, flush),
    }
}

/// Whether the children of two neighbouring slots fit in one node.
fn fit<U: Update>(shape: Shape, slot: &Slot<U>, next: &Slot<U>) -> bool {
    match (slot.child.body(), next.child.body()) {
        (Body::Leaf(entries), Body::Leaf(later)) => {
            entries.len().saturating_add(later.len()) <= shape.leaf as usize
        }
        _ => false,
    }
}

/// The first merge of two leaves of the node at a place that fit in one.
fn merge_fitting<U: Update>(tree: &Tree<U>, at: Place) -> Option<TreeStep> {
    let (mut left, later) = slots_at(tree.root(), at.numbers())?.split_first()?;
    let mut slot: u8 = 0;
    for next in later {
        if fit(tree.shape(), left, next) {
            let kind = StepKind::MergeLeaves;
            return Some(TreeStep { kind, at, slot });
        }
        left = next;
        slot = slot.saturating_add(1);
    }
    None
}

/// Whether a flush of the slot into an inner node has room, whatever its oldest message is.
fn takes_any<U: Update>(shape: Shape, slot: &Slot<U>) -> bool {
    match slot.child.slots() {
        // A message has at most one piece for each slot.
        Some(below) => pending_len(below).saturating_add(below.len() as u128)
            <= shape.pending as u128,
        None => false,
    }
}

/// The index of the slot with the most messages, the first of equals, of those whose flush has room in any case.
fn fullest_with_room<U: Update>(shape: Shape, slots: &[Slot<U>]) -> Option<usize> {
    let mut number = None;
    let mut most = 0;
    for (i, slot) in slots.iter().enumerate() {
        if slot.pending.len() > most && takes_any(shape, slot) {
            most = slot.pending.len();
            number = Some(i);
        }
    }
    number
}

/// What makes room if a node has too many messages for one of its children to be split: a flush of a slot whose child has
/// room. If there is none, two leaves of the child that was to be split are merged, so that it has a free slot itself.
fn unload<U: Update>(tree: &Tree<U>, slots: &[Slot<U>], split: TreeStep) -> Option<TreeStep> {
    if let Some(number) = fullest_with_room(tree.shape(), slots) {
        return flush_of(slots, split.at, number);
    }
    match merge_fitting(tree, split.at.under(split.slot)?) {
        Some(merge) => Some(merge),
        None => flush_of(slots, split.at, fullest(slots)?),
    }
}

/// What makes room if a node has too many messages for one of its leaves to be split: a flush of its fullest slot.
fn flush_or_split<U: Update>(slots: &[Slot<U>], flush: TreeStep) -> Option<TreeStep> {
    let other = flush_of(slots, flush.at, fullest(slots)?)?;
    if other.slot != flush.slot {
        return Some(other);
    }
    // The flush's own slot is the fullest, and it has no room: the node is split.
    split_node(flush.at)
}

/// What gives the step's node room for one more slot, or makes that needless.
fn widen_parent<U: Update>(tree: &Tree<U>, step: TreeStep) -> Option<TreeStep> {
    let slots = slots_at(tree.root(), step.at.numbers())?;
    if slots.len() >= tree.shape().fanout as usize {
        return split_node(step.at);
    }
    match step.kind {
        StepKind::SplitInner => unload(tree, slots, step),
        _ => flush_or_split(slots, step),
    }
}

/// A step to do if this one has no room; `None` if none is known. That step may have no room either, and then a step to do
/// in its place is found by the next call.
///
/// A flush into an inner node waits for that node's fullest slot. A flush into a leaf and a split wait for their node to
/// have one more slot: if it has all that it may have, it is split itself, the root below a new one; if its pending pieces
/// are too many, one of its slots is flushed, or leaves below are merged.
pub fn make_room<U: Update>(tree: &Tree<U>, step: TreeStep) -> Option<TreeStep> {
    match step.kind {
        StepKind::FlushInner => flush_fullest(tree, step.at.under(step.slot)?),
        StepKind::FlushLeaf | StepKind::SplitInner => widen_parent(tree, step),
        // For a merge and for a new root none is known; a drop and a root down always have room.
        _ => None,
    }
}
