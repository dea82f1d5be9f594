//! The entries of one directory: lookup, insertion, removal and listing.
//!
//! Entries are in byte order of their names: an insertion keeps this order, and replaces an entry of the same name.
ghost use Rattle.std.specs.Prelude.{◌≡◌, ◌++◌, IfOk};
ghost use Rattle.reference.specs.Tree.{named, put, take_out};
ghost use Rattle.reference.specs.Calls.{listing};
ghost use Rattle.reference.specs.Pairs.{pairs_of};
ghost use Rattle.reference.specs.Plain.{tree_of, entries_of, tree_found};

use super::tree::{Entries, Tree, copy_entries, copy_tree};
use crate::reply::{Kind, Listing};
use pathkey::NoMemory;
use std::alloc::Global;
use std::cmp::Ordering;

/// Looks up an entry by its name.
pub fn entry_named<'a>(entries: &'a Entries, name: &[u8]) -> Option<&'a Tree>
    ensures { tree_found result ≡ named name.now (entries_of entries.now) }
{
    match entries {
        Entries::Nothing => None,
        Entries::Entry(first, tree, rest) => {
            if name.cmp(first.as_slice()).is_eq() {
                Some(tree)
            } else {
                entry_named(rest, name)
            }
        }
    }
}

/// The entries with the tree at the name, in byte order; it replaces an entry of that name.
pub fn put_entry(
    alloc: Global,
    entries: &Entries,
    name: &[u8],
    tree: Tree,
) -> Result<Entries, NoMemory>
    ensures { IfOk result (λ es. entries_of es ≡ put name.now (tree_of tree) (entries_of entries.now)) }
{
    match entries {
        Entries::Nothing => Entries::with_first(alloc, name, tree, Entries::Nothing),
        Entries::Entry(first, held, rest) => match name.cmp(first.as_slice()) {
            Ordering::Less => {
                let after = copy_entries(alloc, entries)?;
                Entries::with_first(alloc, name, tree, after)
            }
            Ordering::Equal => {
                let after = copy_entries(alloc, rest)?;
                Entries::with_first(alloc, name, tree, after)
            }
            Ordering::Greater => {
                let held = copy_tree(alloc, held)?;
                let after = put_entry(alloc, rest, name, tree)?;
                Entries::with_first(alloc, first.as_slice(), held, after)
            }
        },
    }
}

/// The entries without that of the name.
pub fn without_entry(alloc: Global, entries: &Entries, name: &[u8]) -> Result<Entries, NoMemory>
    ensures { IfOk result (λ es. entries_of es ≡ take_out name.now (entries_of entries.now)) }
{
    match entries {
        Entries::Nothing => Ok(Entries::Nothing),
        Entries::Entry(first, held, rest) => {
            let after = without_entry(alloc, rest, name)?;
            if name.cmp(first.as_slice()).is_eq() {
                Ok(after)
            } else {
                let held = copy_tree(alloc, held)?;
                Entries::with_first(alloc, first.as_slice(), held, after)
            }
        }
    }
}

/// Appends the kind and name of each entry to the list.
fn put_names(
    entries: &Entries,
    names: &mut Vec<(Kind, Vec<u8>)>,
    alloc: Global,
) -> Result<(), NoMemory>
    ensures { IfOk result (λ _. pairs_of names.new.items ≡ pairs_of names.old.items ++ listing (entries_of entries.now)) }
{
    match entries {
        Entries::Nothing => Ok(()),
        Entries::Entry(name, tree, rest) => {
            let copy = Vec::from_slice(alloc, name.as_slice())?;
            names.push((tree.kind(), copy))?;
            put_names(rest, names, alloc)
        }
    }
}

/// The kinds and names of the entries, in their order.
pub fn list_entries(alloc: Global, entries: &Entries) -> Result<Listing, NoMemory>
    ensures { IfOk result (λ l. l ≡ listing (entries_of entries.now)) }
{
    let mut names = Vec::new(alloc);
    put_names(entries, &mut names, alloc)?;
    Ok(Listing::from_vec(names))
}
