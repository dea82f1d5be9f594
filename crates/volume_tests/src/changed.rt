//! What may differ from a snapshot: how many keys and ranges of both indexes were touched since.
use crate::requests::{Timed, USUAL, all_answer, freeze, new_volume, snap_name};
use pathkey::{Errno, SnapName};
use std::alloc::Global;
use test_support::{ExpectedReply, SampleCall};
use volume::{Changes, Frozen, Volume};

/// The number of keys and of ranges of the metadata index, and of both of the block index.
type Counts = [usize; 4];

/// One call that changes what may differ.
#[derive(Clone, Copy)]
enum Deed {
    Call(Timed),
    Keep(&'static str),
    Drop(&'static str),
    Restore(&'static str),
    RestoreFrozen,
}

/// A snapshot, and the counts since it was taken: of keys, or all keys, or that there is no such snapshot.
type Since = (&'static str, Result<Option<Counts>, Errno>);

/// What is done, and what may then differ.
type Row = (Deed, &'static [Since]);

const ROWS: &[Row] = &[
    (
        Deed::Call((1, SampleCall::Mkdir("/a"), ExpectedReply::Done)),
        &[("s", Err(Errno::ENOENT))],
    ),
    (Deed::Keep("s"), &[("s", Ok(Some([0, 0, 0, 0])))]),
    // The new entry, and the directory that gets it.
    (
        Deed::Call((2, SampleCall::Create("/a/x"), ExpectedReply::Done)),
        &[("s", Ok(Some([2, 0, 0, 0])))],
    ),
    (
        Deed::Keep("t"),
        &[("s", Ok(Some([2, 0, 0, 0]))), ("t", Ok(Some([0, 0, 0, 0])))],
    ),
    // The entry of the file, and its block.
    (
        Deed::Call((
            3,
            SampleCall::Write("/a/x", 0, b"one"),
            ExpectedReply::Count(3),
        )),
        &[("s", Ok(Some([3, 0, 1, 0]))), ("t", Ok(Some([1, 0, 1, 0])))],
    ),
    // The subtree in both indexes, and the root as the directory that loses it.
    (
        Deed::Call((4, SampleCall::Rmtree("/a"), ExpectedReply::Done)),
        &[("t", Ok(Some([2, 1, 1, 1])))],
    ),
    // Of a call that fails nothing is noted.
    (
        Deed::Call((
            5,
            SampleCall::Create("/a/x"),
            ExpectedReply::Fault(Errno::ENOENT),
        )),
        &[("t", Ok(Some([2, 1, 1, 1])))],
    ),
    (
        Deed::Drop("t"),
        &[("s", Ok(Some([4, 1, 1, 1]))), ("t", Err(Errno::ENOENT))],
    ),
    (Deed::Keep("u"), &[("u", Ok(Some([0, 0, 0, 0])))]),
    (
        Deed::Call((6, SampleCall::Create("/b"), ExpectedReply::Done)),
        &[("s", Ok(Some([6, 1, 1, 1]))), ("u", Ok(Some([2, 0, 0, 0])))],
    ),
    // What was touched before the later snapshot may now differ from it.
    (
        Deed::Restore("s"),
        &[("s", Ok(Some([6, 1, 1, 1]))), ("u", Ok(Some([6, 1, 1, 1])))],
    ),
    (Deed::RestoreFrozen, &[("s", Ok(None)), ("u", Ok(None))]),
    (
        Deed::Keep("v"),
        &[("u", Ok(None)), ("v", Ok(Some([0, 0, 0, 0])))],
    ),
];

/// What may differ. It ensures nothing, so that no proof of a test reads what a volume means; nor do the next functions.
fn changed_since(alloc: Global, volume: &Volume, name: &SnapName) -> Result<Changes, Errno> {
    volume.changed_since(alloc, name)
}

/// Takes a snapshot.
fn keep(alloc: Global, volume: &mut Volume, name: &SnapName) -> bool {
    volume.snapshot(alloc, name).is_ok()
}

/// Drops a snapshot.
fn drop_snapshot(volume: &mut Volume, name: &SnapName) -> bool {
    volume.drop_snapshot(name).is_ok()
}

/// Restores a snapshot.
fn restore(volume: &mut Volume, name: &SnapName) -> bool {
    volume.restore(name).is_ok()
}

/// Restores a frozen tree.
fn restore_frozen(volume: &mut Volume, tree: &Frozen) -> bool {
    volume.restore_frozen(tree).is_ok()
}

/// The name of a row's deed.
fn text_of(deed: Deed) -> &'static str {
    match deed {
        Deed::Keep(text) | Deed::Drop(text) | Deed::Restore(text) => text,
        _ => "none",
    }
}

/// Whether what a row does succeeds.
fn does(alloc: Global, volume: &mut Volume, deed: Deed) -> bool {
    let Ok(name) = snap_name(alloc, text_of(deed)) else {
        return false;
    };
    match deed {
        Deed::Call(timed) => all_answer(alloc, volume, &[timed]),
        Deed::Keep(_) => keep(alloc, volume, &name),
        Deed::Drop(_) => drop_snapshot(volume, &name),
        Deed::Restore(_) => restore(volume, &name),
        Deed::RestoreFrozen => restores_itself(volume),
    }
}

/// Whether the live tree is restored from a frozen one.
fn restores_itself(volume: &mut Volume) -> bool {
    match freeze(volume) {
        Ok(tree) => restore_frozen(volume, &tree),
        Err(_) => false,
    }
}

/// How many keys and ranges an answer has; `None` for all keys.
fn counts(changes: &Changes) -> Option<Counts> {
    match changes {
        Changes::All => None,
        Changes::Within(meta, block) => Some([
            meta.keys.len(),
            meta.ranges.len(),
            block.keys.len(),
            block.ranges.len(),
        ]),
    }
}

/// Whether this may differ from a snapshot.
fn is_since(alloc: Global, volume: &Volume, since: Since) -> bool {
    let Ok(name) = snap_name(alloc, since.0) else {
        return false;
    };
    match changed_since(alloc, volume, &name) {
        Ok(changes) => since.1 == Ok(counts(&changes)),
        Err(errno) => since.1 == Err(errno),
    }
}

/// How many rows are done, with what may differ after each.
fn count_rows(alloc: Global) -> usize {
    let Ok(mut volume) = new_volume(alloc, USUAL) else {
        return 0;
    };
    let mut count = 0usize;
    for (deed, all) in ROWS {
        if !does(alloc, &mut volume, *deed) {
            return count;
        }
        for since in *all {
            if !is_since(alloc, &volume, *since) {
                return count;
            }
        }
        count = count.saturating_add(1);
    }
    count
}

#[test]
fn what_may_differ_is_told(rt: HostRuntime) {
    assert_eq!(rt; count_rows(rt.alloc()), ROWS.len());
}
