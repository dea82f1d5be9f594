//! Tests of walks through a frozen tree: its entries from a path on and the blocks of a file from a number on, with a limit, and the
//! blocks of one file after the other, in the order of paths and in other orders.
use crate::requests::{Timed, USUAL, all_answer, freeze, new_volume};
use pathkey::NoMemory;
use std::alloc::Global;
use test_support::ask::path;
use test_support::{ExpectedReply, SampleCall};
use volume::{Block, BlockWalk, Frozen, Meta, Path, Volume};

/// Files of three blocks, of which the second is a hole, of no block, and of one behind a hole; an empty file next to a directory, and an
/// empty directory.
const FILLED: &[Timed] = &[
    (1, SampleCall::Mkdir("/a"), ExpectedReply::Done),
    (2, SampleCall::Create("/a/f"), ExpectedReply::Done),
    (3, SampleCall::Create("/a/g"), ExpectedReply::Done),
    (4, SampleCall::Mkdir("/b"), ExpectedReply::Done),
    (5, SampleCall::Create("/c"), ExpectedReply::Done),
    (
        6,
        SampleCall::Write("/a/f", 0, b"one"),
        ExpectedReply::Count(3),
    ),
    (
        7,
        SampleCall::Write("/a/f", 8192, b"three"),
        ExpectedReply::Count(5),
    ),
    (
        8,
        SampleCall::Write("/c", 4096, b"four"),
        ExpectedReply::Count(4),
    ),
    (9, SampleCall::Create("/a-"), ExpectedReply::Done),
];

/// The first directory is removed, with everything below it.
const EMPTIED: &[Timed] = &[(10, SampleCall::Rmtree("/a"), ExpectedReply::Done)];

/// An entry: the text of its path, and its metadata.
type Entry = (&'static str, Meta);

const ROOT: Entry = ("/", Meta::Dir { modified: 9 });

const DIRECTORY: Entry = ("/a", Meta::Dir { modified: 3 });

const FILE: Entry = (
    "/a/f",
    Meta::File {
        len: 8197,
        modified: 7,
    },
);

const NO_BLOCK: Entry = (
    "/a/g",
    Meta::File {
        len: 0,
        modified: 3,
    },
);

const EMPTY: Entry = (
    "/a-",
    Meta::File {
        len: 0,
        modified: 9,
    },
);

const NO_ENTRY: Entry = ("/b", Meta::Dir { modified: 4 });

const ONE_BLOCK: Entry = (
    "/c",
    Meta::File {
        len: 4100,
        modified: 8,
    },
);

/// The path where a walk begins, its limit, and its entries.
type Walk = (&'static str, usize, &'static [Entry]);

const WALKS: &[Walk] = &[
    (
        "/",
        usize::MAX,
        &[ROOT, DIRECTORY, FILE, NO_BLOCK, EMPTY, NO_ENTRY, ONE_BLOCK],
    ),
    ("/", 2, &[ROOT, DIRECTORY]),
    ("/", 0, &[]),
    ("/a/f", 9, &[FILE, NO_BLOCK, EMPTY, NO_ENTRY, ONE_BLOCK]),
    ("/a/b", 1, &[FILE]),
    ("/a/h", 1, &[EMPTY]),
    ("/d", 4, &[]),
];

/// Whether these are the entries.
fn are_entries(alloc: Global, entries: &[(Path, Meta)], wanted: &[Entry]) -> bool {
    if entries.len() != wanted.len() {
        return false;
    }
    for (entry, wanted) in entries.iter().zip(wanted) {
        let is_there = match path(alloc, wanted.0) {
            Ok(at) => *at.key() == *entry.0.key(),
            Err(_) => false,
        };
        if !is_there || entry.1 != wanted.1 {
            return false;
        }
    }
    true
}

/// The entries from a path on. It has no postcondition, so that the proofs of the tests do not unfold what a tree is; nor do the next
/// functions.
fn entries(
    alloc: Global,
    tree: &Frozen,
    from: &Path,
    limit: usize,
) -> Result<Vec<(Path, Meta)>, NoMemory> {
    tree.entries(alloc, from, limit)
}

/// Whether a walk has its entries.
fn is_walked(alloc: Global, tree: &Frozen, from: &Path, walk: Walk) -> bool {
    match entries(alloc, tree, from, walk.1) {
        Ok(listed) => are_entries(alloc, listed.as_slice(), walk.2),
        Err(_) => false,
    }
}

/// Whether all walks have their entries.
fn are_walked(alloc: Global, tree: &Frozen) -> bool {
    for walk in WALKS {
        let is_there = match path(alloc, walk.0) {
            Ok(from) => is_walked(alloc, tree, &from, *walk),
            Err(_) => false,
        };
        if !is_there {
            return false;
        }
    }
    true
}

/// A block: its number, and its stored bytes.
type Stored = (u32, &'static str);

/// Whether this is the block.
fn is_block(block: &(u32, Block), wanted: Stored) -> bool {
    block.0 == wanted.0 && block.1.as_slice() == wanted.1.as_bytes()
}

/// Whether these are the blocks.
fn are_blocks(blocks: &[(u32, Block)], wanted: &[Stored]) -> bool {
    for (block, wanted) in blocks.iter().zip(wanted) {
        if !is_block(block, *wanted) {
            return false;
        }
    }
    blocks.len() == wanted.len()
}

/// The blocks of a file from a number on.
fn blocks(
    alloc: Global,
    tree: &Frozen,
    of: &Path,
    from: u32,
    limit: usize,
) -> Result<Vec<(u32, Block)>, NoMemory> {
    tree.blocks(alloc, of, from, limit)
}

/// The file whose blocks are listed, the number from which on, the limit, and the blocks.
type Listing = (&'static str, u32, usize, &'static [Stored]);

const FIRST: Stored = (0, "one");

const THIRD: Stored = (2, "three");

const FOURTH: Stored = (1, "four");

const LISTINGS: &[Listing] = &[
    ("/a/f", 0, usize::MAX, &[FIRST, THIRD]),
    ("/a/f", 0, 1, &[FIRST]),
    ("/a/f", 1, 1, &[THIRD]),
    ("/a/f", 2, 9, &[THIRD]),
    ("/a/f", 3, 9, &[]),
    ("/a/f", u32::MAX, 9, &[]),
    ("/a-", 0, 9, &[]),
    ("/a", 0, 9, &[]),
    ("/", 0, 9, &[]),
];

/// Whether a file has the blocks of its listing.
fn is_listed(alloc: Global, tree: &Frozen, of: &Path, listing: Listing) -> bool {
    match blocks(alloc, tree, of, listing.1, listing.2) {
        Ok(listed) => are_blocks(listed.as_slice(), listing.3),
        Err(_) => false,
    }
}

/// Whether all files have the blocks of their listings.
fn are_listed(alloc: Global, tree: &Frozen) -> bool {
    for listing in LISTINGS {
        let is_there = match path(alloc, listing.0) {
            Ok(of) => is_listed(alloc, tree, &of, *listing),
            Err(_) => false,
        };
        if !is_there {
            return false;
        }
    }
    true
}

/// The file of which a walk gives a block, the number from which on, and the block, if there is one.
type Step = (&'static str, u32, Option<Stored>);

/// One walk in the order of paths and numbers, and then back and forth, and the same again.
const STEPS: &[Step] = &[
    ("/", 0, None),
    ("/a", 0, None),
    ("/a/f", 0, Some(FIRST)),
    ("/a/f", 1, Some(THIRD)),
    ("/a/f", 3, None),
    ("/a/g", 0, None),
    ("/b", 0, None),
    ("/c", 0, Some(FOURTH)),
    ("/c", 2, None),
    ("/c", 0, Some(FOURTH)),
    ("/c", 1, Some(FOURTH)),
    ("/a/f", 2, Some(THIRD)),
    ("/a/f", 0, Some(FIRST)),
    ("/d", 0, None),
    ("/a/g", 0, None),
    ("/a/f", u32::MAX, None),
    ("/c", 1, Some(FOURTH)),
];

/// The next block of a file.
fn next(
    alloc: Global,
    walk: &mut BlockWalk,
    of: &Path,
    from: u32,
) -> Result<Option<(u32, Block)>, NoMemory> {
    walk.next(alloc, of, from)
}

/// Whether a walk gives the block of a step.
fn gives(alloc: Global, walk: &mut BlockWalk, of: &Path, step: Step) -> bool {
    match (next(alloc, walk, of, step.1), step.2) {
        (Ok(Some(block)), Some(wanted)) => is_block(&block, wanted),
        (Ok(None), None) => true,
        _ => false,
    }
}

/// Whether a walk gives the block of each step.
fn gives_all(alloc: Global, tree: &Frozen) -> bool {
    let mut walk = BlockWalk::new(alloc, tree);
    for step in STEPS {
        let is_there = match path(alloc, step.0) {
            Ok(of) => gives(alloc, &mut walk, &of, *step),
            Err(_) => false,
        };
        if !is_there {
            return false;
        }
    }
    true
}

/// Whether walks of the live tree are as expected after it is frozen, though its volume changes.
fn stays(alloc: Global, volume: &mut Volume) -> bool {
    match freeze(volume) {
        Ok(tree) => {
            all_answer(alloc, volume, EMPTIED)
                && are_walked(alloc, &tree)
                && are_listed(alloc, &tree)
                && gives_all(alloc, &tree)
        }
        Err(_) => false,
    }
}

/// Whether the files are created in a volume, and walks of its tree are as expected after it is frozen.
fn is_reported_in_new(alloc: Global) -> bool {
    match new_volume(alloc, USUAL) {
        Ok(mut volume) => all_answer(alloc, &mut volume, FILLED) && stays(alloc, &mut volume),
        Err(_) => false,
    }
}

#[test]
fn walks_through_a_frozen_tree(rt: HostRuntime) {
    assert!(rt; is_reported_in_new(rt.alloc()));
}
