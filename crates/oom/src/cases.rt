//! Pending lists that are split, merged, flushed or copied, or of which some messages are removed, each between the two lines.
//! Each key is so long that a copy of it is an allocation, so a copy of a message shows among the requests.
use crate::lists::{List, apart, eight, middle_of_apart, middle_of_nested, nested, puts, updates};
use crate::window;
use pathkey::{Key, NoMemory};
use std::alloc::Global;
use std::io::Write;

/// Runs the case of this name, on lists of as many messages of a kind. Prints how many messages each list then has, and how many of
/// them are range-deletes.
pub fn scene<R: Print>(
    rt: &R,
    alloc: Global,
    name: &str,
    count: u32,
    out: &mut Vec<u8>,
) -> Result<(), NoMemory> {
    match name {
        "cut" => cut(rt, alloc, Halved::Apart, count, out),
        "cut_tail" => cut(rt, alloc, Halved::Nested, count, out),
        "join" => join(rt, alloc, Halved::Apart, count, out),
        "join_tails" => join(rt, alloc, Halved::Nested, count, out),
        "sink" => sink_apart(rt, alloc, count, out),
        "take" => take_updates(rt, alloc, count, out),
        _ => copy_puts(rt, alloc, count, out),
    }
}

/// Prints a word, how many messages a list has, and how many of them are range-deletes.
fn print_outcome(out: &mut Vec<u8>, word: &str, list: &List) {
    let _ = writeln!(out, "{word} {} {}", list.len(), list.range_deletes(0));
}

/// The lists that are split and merged in their middle.
#[derive(Clone, Copy)]
enum Halved {
    /// The messages are apart.
    Apart,
    /// The messages are not condensed.
    Nested,
}

impl Halved {
    /// The list with as many messages of a kind.
    fn list(self, alloc: Global, count: u32) -> Result<List, NoMemory> {
        match self {
            Halved::Apart => apart(alloc, count),
            Halved::Nested => nested(alloc, count),
        }
    }

    /// The key in the middle of this list.
    fn middle(self, alloc: Global, count: u32) -> Result<Key, NoMemory> {
        match self {
            Halved::Apart => middle_of_apart(alloc, count),
            Halved::Nested => middle_of_nested(alloc, count),
        }
    }
}

/// Splits a list in its middle.
fn cut<R: Print>(
    rt: &R,
    alloc: Global,
    halved: Halved,
    count: u32,
    out: &mut Vec<u8>,
) -> Result<(), NoMemory> {
    let pivot = halved.middle(alloc, count)?;
    let mut front = halved.list(alloc, count)?;
    let first = Key::new(alloc);
    window::open(rt);
    let back = front.split_off(alloc, 0, &first, &pivot);
    window::close(rt);
    print_outcome(out, "front", &front);
    print_outcome(out, "back", &back?);
    Ok(())
}

/// Merges the halves of a list.
fn join<R: Print>(
    rt: &R,
    alloc: Global,
    halved: Halved,
    count: u32,
    out: &mut Vec<u8>,
) -> Result<(), NoMemory> {
    let pivot = halved.middle(alloc, count)?;
    let mut front = halved.list(alloc, count)?;
    let back = front.split_off(alloc, 0, &Key::new(alloc), &pivot)?;
    window::open(rt);
    let joined = front.merged(alloc, back, &pivot);
    window::close(rt);
    print_outcome(out, "joined", &joined?);
    Ok(())
}

/// Flushes all messages of a list into another.
fn sink<R: Print>(rt: &R, list: List, to: List, out: &mut Vec<u8>) -> Result<(), NoMemory> {
    let mut list = list;
    let mut to = to;
    window::open(rt);
    let sunk = list.flush_all(&mut to);
    window::close(rt);
    print_outcome(out, "left", &list);
    print_outcome(out, "to", &to);
    sunk
}

/// Flushes all messages of a list, which are apart, into one that they overlap.
fn sink_apart<R: Print>(
    rt: &R,
    alloc: Global,
    count: u32,
    out: &mut Vec<u8>,
) -> Result<(), NoMemory> {
    let to = eight(alloc)?;
    sink(rt, apart(alloc, count)?, to, out)
}

/// How many messages are copied from the front of a list.
const COPIED: usize = 7;

/// Copies the oldest messages of a list, and flushes one of them into another list.
fn take<R: Print>(
    rt: &R,
    alloc: Global,
    list: List,
    to: List,
    out: &mut Vec<u8>,
) -> Result<(), NoMemory> {
    let mut list = list;
    let mut to = to;
    let count = list.len().min(COPIED);
    window::open(rt);
    let copied = list.copy_front(alloc, count);
    let sunk = list.flush_oldest(&mut to, 1);
    window::close(rt);
    let _ = writeln!(out, "copied {} sunk {}", copied?.len(), sunk?);
    print_outcome(out, "left", &list);
    print_outcome(out, "to", &to);
    Ok(())
}

/// Copies the oldest of `count` updates in a list, and flushes one of them into another such list.
fn take_updates<R: Print>(
    rt: &R,
    alloc: Global,
    count: u32,
    out: &mut Vec<u8>,
) -> Result<(), NoMemory> {
    let to = updates(alloc, count)?;
    take(rt, alloc, updates(alloc, count)?, to, out)
}

/// Copies a list of puts.
fn copy_puts<R: Print>(
    rt: &R,
    alloc: Global,
    count: u32,
    out: &mut Vec<u8>,
) -> Result<(), NoMemory> {
    let list = puts(alloc, count)?;
    window::open(rt);
    let copy = list.copy(alloc);
    window::close(rt);
    print_outcome(out, "copy", &copy?);
    Ok(())
}
