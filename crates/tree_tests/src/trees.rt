//! Trees of numbers, and the messages and look-ups of the tests.
//!
//! The checks are functions without postconditions, each with at most one value with a destructor, so that their proofs and those of the
//! tests remain short. They return `false` if an allocation fails.
use lookup::get;
use node::{Shape, Tree};
use pathkey::{Key, NoMemory};
use std::alloc::Global;
use test_support::{Digit, Plain, batch, key};

/// A shape of few slots, messages and entries.
pub const SMALL: Shape = Shape {
    fanout: 4,
    pending: 8,
    leaf: 4,
};

/// The smallest shape.
pub const SMALLEST: Shape = Shape {
    fanout: 4,
    pending: 4,
    leaf: 4,
};

/// Small nodes with space for many messages: in the smallest shape a few range-deletes leave no space for any step.
pub const ROOMY: Shape = Shape {
    fanout: 4,
    pending: 64,
    leaf: 4,
};

/// A new tree of a shape; it fails if the shape is not valid.
pub fn new_tree(alloc: Global, shape: Shape) -> Result<Tree<Digit>, NoMemory> {
    if !shape.ok() {
        return Err(NoMemory);
    }
    Tree::new(alloc, shape)
}

/// A test that runs on a new tree.
pub trait TreeTest {
    /// Whether it passes; `false` if an allocation fails.
    fn passes(&self, alloc: Global, tree: &mut Tree<Digit>) -> bool;
}

/// Whether a test passes on a new tree of a shape.
pub fn passes_on_new_tree<C: TreeTest>(alloc: Global, shape: Shape, course: &C) -> bool {
    match new_tree(alloc, shape) {
        Ok(mut tree) => course.passes(alloc, &mut tree),
        Err(_) => false,
    }
}

/// Whether each test passes on a new tree; otherwise the index of the first that fails.
pub fn all_pass<C: TreeTest>(alloc: Global, shape: Shape, courses: &[C]) -> Result<(), usize> {
    let mut number = 0usize;
    for course in courses {
        if !passes_on_new_tree(alloc, shape, course) {
            return Err(number);
        }
        number = number.saturating_add(1);
    }
    Ok(())
}

/// Appends messages to a tree.
pub fn append(alloc: Global, tree: &mut Tree<Digit>, msgs: &[Plain]) -> bool {
    match batch(alloc, msgs) {
        Ok(batch) => tree.append(alloc, batch).is_ok(),
        Err(_) => false,
    }
}

/// Whether a tree has this value at a key; `None` if an allocation fails.
pub fn has_at(alloc: Global, tree: &Tree<Digit>, at: &Key, wanted: Option<u64>) -> Option<bool> {
    match get(alloc, tree, at) {
        Ok(found) => Some(found == wanted),
        Err(_) => None,
    }
}

/// Whether a tree has this value at the key of a number; `None` if an allocation fails.
pub fn has_if_read(alloc: Global, tree: &Tree<Digit>, at: u8, wanted: Option<u64>) -> Option<bool> {
    match key(alloc, at) {
        Ok(at) => has_at(alloc, tree, &at, wanted),
        Err(_) => None,
    }
}

/// Whether a tree has this value at the key of a number.
pub fn has(alloc: Global, tree: &Tree<Digit>, at: u8, wanted: Option<u64>) -> bool {
    has_if_read(alloc, tree, at, wanted) == Some(true)
}
