//! Times the work on a tree and on a map of std.
use crate::tree::number::Set;
use crate::tree::work::{
    Appended, Numbers, append, insert, look_up, look_up_map, new_tree, settle,
};
use node::Tree;
use pathkey::Key;
use std::alloc::Global;
use std::collections::BTreeMap;
use std::rt::Clock;
use std::time::{Duration, Instant};

/// The maximal number of pending messages in the root of a tree that is flushed.
pub const LIMIT: usize = 4_096;

/// As many keys as messages.
pub const ALL: Numbers = Numbers {
    first: 0,
    keys: 1_000_000,
    count: 1_000_000,
};

/// The keys of a settled tree, each once.
const SETTLED: Numbers = Numbers {
    first: 0,
    keys: 100_000,
    count: 100_000,
};

/// Some of these keys, each once.
const WAITING: Numbers = Numbers {
    count: 4_096,
    ..SETTLED
};

/// These keys, ten times each.
const LOOKED_UP: Numbers = Numbers {
    count: 1_000_000,
    ..SETTLED
};

/// Other keys, few of them, a thousand times each.
const EDITED: Numbers = Numbers {
    first: 100_000,
    keys: 1_000,
    count: 1_000_000,
};

/// The maximal numbers of pending messages in the root while keys are appended.
const LIMITS: &[usize] = &[0, LIMIT];

/// The numbers of pending messages of other keys while few keys are updated.
const COUNTS: &[u64] = &[0, WAITING.count];

/// Nanoseconds for each of that many operations.
fn each(time: Duration, numbers: Numbers) -> u128 {
    time.as_nanos()
        .checked_div(numbers.count as u128)
        .unwrap_or(0)
}

/// Look-ups in a settled tree and then with messages pending in its root, and in a map of the same keys.
pub fn look_ups(rt: &(impl Clock + Print), alloc: Global) -> anyhow::Result<()> {
    let mut tree = new_tree(alloc)?;
    look_ups_in(rt, alloc, &mut tree)
}

/// Look-ups in this tree, settled and then with messages pending in its root, and in a map of the same keys.
fn look_ups_in(
    rt: &(impl Clock + Print),
    alloc: Global,
    tree: &mut Tree<Set>,
) -> anyhow::Result<()> {
    append(alloc, tree, Appended::Put, SETTLED, LIMIT)?;
    let steps = settle(alloc, tree);
    println!(rt; "settled in {steps} steps")?;
    look_ups_beside(rt, alloc, tree, &mut BTreeMap::new(alloc))
}

/// Look-ups in this settled tree and then with messages pending in its root, and in this map, which gets the same keys.
fn look_ups_beside(
    rt: &(impl Clock + Print),
    alloc: Global,
    tree: &mut Tree<Set>,
    map: &mut BTreeMap<Key, u64>,
) -> anyhow::Result<()> {
    insert(alloc, map, SETTLED)?;
    time_look_ups(rt, alloc, tree, map)?;
    append(alloc, tree, Appended::Put, WAITING, LIMIT)?;
    time_look_ups(rt, alloc, tree, map)
}

/// Look-ups in a tree and in a map of the same keys.
fn time_look_ups(
    rt: &(impl Clock + Print),
    alloc: Global,
    tree: &Tree<Set>,
    map: &BTreeMap<Key, u64>,
) -> anyhow::Result<()> {
    let pending = tree.shape_report().pending;
    let start = Instant::now(rt)?;
    let found = look_up(alloc, tree, LOOKED_UP)?;
    let tree_time = each(start.elapsed(rt)?, LOOKED_UP);
    let start = Instant::now(rt)?;
    let there = look_up_map(alloc, map, LOOKED_UP)?;
    let map_time = each(start.elapsed(rt)?, LOOKED_UP);
    println!(rt;
        "look-up, {pending} pending: tree {tree_time} ns, map {map_time} ns; found {found} and {there}"
    )?;
    Ok(())
}

/// Appends with flushes, with no or many messages pending in the root, and inserts into a map of the same keys.
pub fn appends(rt: &(impl Clock + Print), alloc: Global) -> anyhow::Result<()> {
    for limit in LIMITS {
        appends_to(rt, alloc, &mut new_tree(alloc)?, *limit)?;
    }
    Ok(())
}

/// Appends to this tree.
fn appends_to(
    rt: &(impl Clock + Print),
    alloc: Global,
    tree: &mut Tree<Set>,
    limit: usize,
) -> anyhow::Result<()> {
    let time = time_appends(rt, alloc, tree, Appended::Put, ALL, limit)?;
    let map_time = time_inserts(rt, alloc, ALL)?;
    let report = tree.shape_report();
    let (levels, entries, pending) = (report.levels, report.entries, report.pending);
    println!(rt; "{levels} levels, {entries} entries, {pending} pending")?;
    println!(rt; "append, at most {limit} waiting: tree {time} ns, map {map_time} ns")?;
    Ok(())
}

/// Updates of few keys, which join, with no or many messages of other keys pending, and inserts into a map of the same
/// keys.
pub fn edits(rt: &(impl Clock + Print), alloc: Global) -> anyhow::Result<()> {
    for count in COUNTS {
        edits_in(rt, alloc, &mut new_tree(alloc)?, *count)?;
    }
    Ok(())
}

/// Updates in this tree.
fn edits_in(
    rt: &(impl Clock + Print),
    alloc: Global,
    tree: &mut Tree<Set>,
    count: u64,
) -> anyhow::Result<()> {
    let others = Numbers { count, ..WAITING };
    append(alloc, tree, Appended::Put, others, LIMIT)?;
    let time = time_appends(rt, alloc, tree, Appended::Edit, EDITED, usize::MAX)?;
    let map_time = time_inserts(rt, alloc, EDITED)?;
    let pending = tree.shape_report().pending;
    println!(rt; "edit, {pending} pending: tree {time} ns, map {map_time} ns")?;
    Ok(())
}

/// The time of an append to a tree.
fn time_appends(
    rt: &impl Clock,
    alloc: Global,
    tree: &mut Tree<Set>,
    what: Appended,
    numbers: Numbers,
    limit: usize,
) -> anyhow::Result<u128> {
    let start = Instant::now(rt)?;
    append(alloc, tree, what, numbers, limit)?;
    Ok(each(start.elapsed(rt)?, numbers))
}

/// The time of an insert into a new map.
fn time_inserts(rt: &impl Clock, alloc: Global, numbers: Numbers) -> anyhow::Result<u128> {
    time_inserts_into(rt, alloc, &mut BTreeMap::new(alloc), numbers)
}

/// The time of an insert into this map.
fn time_inserts_into(
    rt: &impl Clock,
    alloc: Global,
    map: &mut BTreeMap<Key, u64>,
    numbers: Numbers,
) -> anyhow::Result<u128> {
    let start = Instant::now(rt)?;
    insert(alloc, map, numbers)?;
    Ok(each(start.elapsed(rt)?, numbers))
}
