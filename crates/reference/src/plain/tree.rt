//! The plain program's tree.
//!
//! A directory's entries are a linked list, not a vector or a map, because the definition's are: the two then correspond
//! constructor by constructor, and each function below is the definition's recursion written in Rust.
ghost use Rattle.std.specs.Prelude.{◌≡◌, IfOk};
ghost use Rattle.reference.specs.Tree.{Dir, entry, dated};
ghost use Rattle.reference.specs.Calls.{kind_of};
ghost use Rattle.reference.specs.Plain.{tree_of, entries_of};

use crate::reply::Kind;
use pathkey::NoMemory;
use std::alloc::Global;

/// A directory of entries, or a file of bytes, each with its mtime.
#[derive(Drop)]
#[cycle(tree)]
pub enum Tree {
    /// A directory.
    Dir(u64, Box<Entries>),
    /// A file.
    File(u64, Vec<u8>),
}

/// The entries of a directory, in byte order of their names.
#[derive(Drop)]
#[cycle(tree)]
pub enum Entries {
    /// No entries.
    Nothing,
    /// A name, the tree of that name, and the entries after it.
    Entry(Vec<u8>, Box<Tree>, Box<Entries>),
}

impl Tree {
    /// A directory of these entries, with that mtime.
    pub fn directory(alloc: Global, date: u64, entries: Entries) -> Result<Tree, NoMemory>
        ensures { IfOk result (λ t. tree_of t ≡ Dir date (entries_of entries)) }
    {
        Ok(Tree::Dir(date, Box::new(alloc, entries)?))
    }

    /// Whether the tree is a directory or a file.
    pub fn kind(&self) -> Kind
        ensures { result ≡ kind_of (tree_of self.now) }
    {
        match self {
            Tree::Dir(_, _) => Kind::Dir,
            Tree::File(_, _) => Kind::File,
        }
    }
}

/// Clones the tree.
#[cycle(copy)]
pub fn copy_tree(alloc: Global, tree: &Tree) -> Result<Tree, NoMemory>
    ensures { IfOk result (λ t. tree_of t ≡ tree_of tree.now) }
{
    match tree {
        Tree::File(date, bytes) => Ok(Tree::File(*date, Vec::from_slice(alloc, bytes.as_slice())?)),
        Tree::Dir(date, entries) => {
            let entries = copy_entries(alloc, entries)?;
            Tree::directory(alloc, *date, entries)
        }
    }
}

/// Clones the entries.
#[cycle(copy)]
pub fn copy_entries(alloc: Global, entries: &Entries) -> Result<Entries, NoMemory>
    ensures { IfOk result (λ es. entries_of es ≡ entries_of entries.now) }
{
    match entries {
        Entries::Nothing => Ok(Entries::Nothing),
        Entries::Entry(name, tree, rest) => {
            let tree = copy_tree(alloc, tree)?;
            let rest = copy_entries(alloc, rest)?;
            Entries::with_first(alloc, name.as_slice(), tree, rest)
        }
    }
}

/// Clones the tree, with another mtime.
pub fn copy_dated(alloc: Global, tree: &Tree, at: u64) -> Result<Tree, NoMemory>
    ensures { IfOk result (λ t. tree_of t ≡ dated at (tree_of tree.now)) }
{
    match tree {
        Tree::File(_, bytes) => Ok(Tree::File(at, Vec::from_slice(alloc, bytes.as_slice())?)),
        Tree::Dir(_, entries) => {
            let entries = copy_entries(alloc, entries)?;
            Tree::directory(alloc, at, entries)
        }
    }
}

impl Entries {
    /// An entry followed by other entries.
    pub fn with_first(
        alloc: Global,
        name: &[u8],
        tree: Tree,
        rest: Entries,
    ) -> Result<Entries, NoMemory>
        ensures { IfOk result (λ es. entries_of es ≡ entry name.now (tree_of tree) (entries_of rest)) }
    {
        let name = Vec::from_slice(alloc, name)?;
        let tree = Box::new(alloc, tree)?;
        let rest = Box::new(alloc, rest)?;
        Ok(Entries::Entry(name, tree, rest))
    }
}
