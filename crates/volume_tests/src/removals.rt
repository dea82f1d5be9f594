//! Tests of the number of nodes of a volume's trees after files were removed: compaction merges the nodes that removals leave nearly
//! empty.
//!
//! The measure is a new volume with the same entries. No function here has a postcondition, so that the proofs of the tests do not
//! unfold the contract of a volume.
use crate::requests::{answers, new_volume};
use node::Shape;
use std::alloc::Global;
use test_support::{ExpectedReply, SampleCall};
use volume::{Index, Volume};

/// The number of files.
const FILES: u32 = 4_000;

/// The maximal number of nodes for each node of a new tree with the same entries.
const MOST: u128 = 4;

/// The number of files that are removed last.
const FEW: usize = 40;

/// The distance between two consecutive numbers in the pseudo-random order. It is a prime.
const STRIDE: usize = 7_919;

/// A change of the file with a number.
#[derive(Clone, Copy)]
enum Change {
    Create,
    Write,
    Unlink,
    Mkdir,
    Rmdir,
    /// It is renamed to the next number.
    Rename,
}

/// The path of the file with a number.
fn text_of(alloc: Global, number: u32) -> Option<String> {
    format!(in alloc; "/d/f{number:05}").ok()
}

/// Renames what is at a path to the file with a number.
fn moves(alloc: Global, volume: &mut Volume, text: &str, to: u32) -> bool {
    match text_of(alloc, to) {
        Some(to) => answers(
            alloc,
            volume,
            SampleCall::Rename(text, to.as_str()),
            ExpectedReply::Done,
        ),
        None => false,
    }
}

/// Makes a change at the path of a number, and returns whether it is done.
fn does(alloc: Global, volume: &mut Volume, text: &str, number: u32, change: Change) -> bool {
    let (ask, reported) = match change {
        Change::Create => (SampleCall::Create(text), ExpectedReply::Done),
        Change::Write => (SampleCall::Write(text, 0, b"x"), ExpectedReply::Count(1)),
        Change::Unlink => (SampleCall::Unlink(text), ExpectedReply::Done),
        Change::Mkdir => (SampleCall::Mkdir(text), ExpectedReply::Done),
        Change::Rmdir => (SampleCall::Rmdir(text), ExpectedReply::Done),
        Change::Rename => return moves(alloc, volume, text, number.saturating_add(1)),
    };
    answers(alloc, volume, ask, reported)
}

/// Makes a change of the file with a number, and a compaction step for each tree.
fn make_change(alloc: Global, volume: &mut Volume, number: u32, change: Change) -> bool {
    let is_done = match text_of(alloc, number) {
        Some(text) => does(alloc, volume, text.as_str(), number, change),
        None => false,
    };
    volume.compact_step(alloc);
    volume.compact_step(alloc);
    is_done
}

/// Makes a change of each of these files.
fn change_all(alloc: Global, volume: &mut Volume, numbers: &[u32], of_each: Change) -> bool {
    for number in numbers {
        if !make_change(alloc, volume, *number, of_each) {
            return false;
        }
    }
    true
}

/// Compacts until nothing is pending.
fn settle(alloc: Global, volume: &mut Volume) -> bool {
    for _ in 0..1_000_000 {
        if volume.compact_step(alloc).is_none() {
            return true;
        }
    }
    false
}

/// The number of nodes of an index's tree: the root, and the child in each slot.
fn nodes(volume: &Volume, index: Index) -> u128 {
    volume.shape_report(index).slots.saturating_add(1)
}

/// Creates the directory and these files, each with a block.
fn make(alloc: Global, volume: &mut Volume, numbers: &[u32]) -> bool {
    answers(alloc, volume, SampleCall::Mkdir("/d"), ExpectedReply::Done)
        && change_all(alloc, volume, numbers, Change::Create)
        && change_all(alloc, volume, numbers, Change::Write)
}

/// Whether no tree of the volume has many more nodes than that of the other one.
fn are_few(volume: &Volume, fresh: &Volume) -> bool {
    nodes(volume, Index::Meta) <= nodes(fresh, Index::Meta).saturating_mul(MOST)
        && nodes(volume, Index::Block) <= nodes(fresh, Index::Block).saturating_mul(MOST)
}

/// Whether a volume with these files has few nodes for them once nothing is pending.
fn is_small(alloc: Global, volume: &mut Volume, shape: Shape, numbers: &[u32]) -> bool {
    match new_volume(alloc, shape) {
        Ok(mut fresh) => {
            make(alloc, &mut fresh, numbers)
                && settle(alloc, &mut fresh)
                && settle(alloc, volume)
                && are_few(volume, &fresh)
        }
        Err(_) => false,
    }
}

/// Half of the numbers: every second one from this on.
fn every_second(alloc: Global, from: u32) -> Option<Vec<u32>> {
    let mut numbers = Vec::new(alloc);
    for i in 0..FILES / 2 {
        numbers.push(i.saturating_mul(2).saturating_add(from)).ok()?;
    }
    Some(numbers)
}

/// The numbers in a pseudo-random order: each is a fixed distance after the one before, in a ring.
fn mixed(alloc: Global, numbers: &[u32]) -> Option<Vec<u32>> {
    let mut order = Vec::new(alloc);
    let mut at = 0usize;
    for _ in 0..numbers.len() {
        order.push(*numbers.get(at)?).ok()?;
        at = at.wrapping_add(STRIDE).checked_rem(numbers.len())?;
    }
    Some(order)
}

/// Removes these files except for a few, and then those, and counts the nodes each time.
fn remove_all(alloc: Global, volume: &mut Volume, shape: Shape, files: &[u32]) -> bool {
    let (most, last) = files.split_at(files.len().saturating_sub(FEW));
    change_all(alloc, volume, most, Change::Unlink)
        && is_small(alloc, volume, shape, last)
        && change_all(alloc, volume, last, Change::Unlink)
        && is_small(alloc, volume, shape, &[])
}

/// Removes the files of the first half in order, and then the others in a pseudo-random order.
fn remove(alloc: Global, volume: &mut Volume, shape: Shape, files: &[u32]) -> bool {
    let (first, others) = files.split_at(files.len() / 2);
    if !change_all(alloc, volume, first, Change::Unlink)
        || !is_small(alloc, volume, shape, others)
    {
        return false;
    }
    match mixed(alloc, others) {
        Some(order) => remove_all(alloc, volume, shape, order.as_slice()),
        None => false,
    }
}

/// Creates files, renames every second one to the next, and removes them all.
fn create_and_remove(alloc: Global, volume: &mut Volume, shape: Shape) -> bool {
    match (every_second(alloc, 0), every_second(alloc, 1)) {
        (Some(moved), Some(left)) => {
            make(alloc, volume, moved.as_slice())
                && change_all(alloc, volume, left.as_slice(), Change::Create)
                && change_all(alloc, volume, moved.as_slice(), Change::Rename)
                && is_small(alloc, volume, shape, left.as_slice())
                && remove(alloc, volume, shape, left.as_slice())
        }
        _ => false,
    }
}

/// Creates directories, and then removes them in order.
fn remove_directories(alloc: Global, volume: &mut Volume, shape: Shape) -> bool {
    match every_second(alloc, 0) {
        Some(numbers) => {
            change_all(alloc, volume, numbers.as_slice(), Change::Mkdir)
                && change_all(alloc, volume, numbers.as_slice(), Change::Rmdir)
                && is_small(alloc, volume, shape, &[])
        }
        None => false,
    }
}

/// Whether a new volume of the shape stays small through all of it.
fn stays_small(alloc: Global, shape: Shape) -> bool {
    match new_volume(alloc, shape) {
        Ok(mut volume) => {
            create_and_remove(alloc, &mut volume, shape)
                && remove_directories(alloc, &mut volume, shape)
        }
        Err(_) => false,
    }
}

#[test]
fn removals_leave_few_nodes(rt: HostRuntime) {
    let shape = Shape {
        fanout: 8,
        pending: 32,
        leaf: 16,
    };
    assert!(rt; stays_small(rt.alloc(), shape));
}

#[test]
fn removals_leave_few_nodes_in_the_usual_shape(rt: HostRuntime) {
    assert!(rt; stays_small(rt.alloc(), Shape::USUAL));
}
