//! Measures a tree against a map of std.
//!
//! `benches tree measure` does all of it and prints nanoseconds an operation; `benches tree tree` and `benches tree map` do only the
//! appends, for an external measurement of memory.
use crate::tree::measure::{ALL, LIMIT, appends, edits, look_ups};
use crate::tree::work::{Appended, append, insert, new_tree};
use pathkey::NoMemory;
use std::alloc::Global;
use std::collections::BTreeMap;
use std::rt::Clock;

pub mod measure;
pub mod number;
pub mod work;

/// Does the work that a word chooses.
pub fn do_work(
    rt: &(impl Clock + Print + Eprint),
    alloc: Global,
    word: &str,
) -> anyhow::Result<()> {
    match word {
        "measure" => {
            look_ups(rt, alloc)?;
            appends(rt, alloc)?;
            edits(rt, alloc)?
        }
        "tree" => append_all(alloc)?,
        "map" => insert(alloc, &mut BTreeMap::new(alloc), ALL)?,
        _ => eprintln!(rt; "benches tree: no such work: {word}")?,
    }
    Ok(())
}

/// The appends alone, to a new tree.
fn append_all(alloc: Global) -> Result<(), NoMemory> {
    match new_tree(alloc) {
        Ok(mut tree) => append(alloc, &mut tree, Appended::Put, ALL, LIMIT),
        Err(refused) => Err(refused),
    }
}
