//! Tests of paths, keys and names of snapshots: texts, bytes and order, in tables with the values written out.
//!
//! The checks are functions without postconditions, so that the proofs of the tests do not unfold what a text parses as; each has at
//! most one value with a destructor. They return a `bool` or an `Option`, which is `false` or `None` if an allocation fails.
use pathkey::{
    Errno, Key, KeyRange, NoMemory, Path, SnapName, block_key, blocks_from, dec, enc, rekey,
    subtree,
};
use std::alloc::{AllocError, Global};
use std::cmp::Ordering;
use test_support::{Holds, all_hold};

fn path(alloc: Global, text: &[u8]) -> Result<Path, Errno> {
    Path::parse(alloc, text)
}

fn refusal(alloc: Global, text: &[u8]) -> Option<Errno> {
    Path::parse(alloc, text).err()
}

fn key(alloc: Global, bytes: &[u8]) -> Result<Key, NoMemory> {
    Key::from_bytes(alloc, bytes)
}

fn decoded(alloc: Global, key: &Key) -> Result<Option<Path>, NoMemory> {
    dec(alloc, key)
}

/// The text `front`, then `unit` that many times, then `end`.
fn long_text(
    alloc: Global,
    front: &[u8],
    unit: &[u8],
    count: usize,
    end: &[u8],
) -> Result<Vec<u8>, AllocError> {
    let mut text = Vec::from_slice(alloc, front)?;
    for _ in 0..count {
        text.extend_from_slice(unit)?;
    }
    text.extend_from_slice(end)?;
    Ok(text)
}

/// Whether the key has these bytes, or neither exists.
fn is_key(key: &Option<Key>, want: Option<&[u8]>) -> bool {
    match (key, want) {
        (Some(key), Some(want)) => has_bytes(key, want),
        (None, None) => true,
        _ => false,
    }
}

/// Whether a key has these bytes.
fn has_bytes(key: &Key, want: &[u8]) -> bool {
    key.as_bytes() == want
}

/// Whether a key was created and has these bytes.
fn is_made(made: Result<Key, NoMemory>, want: &[u8]) -> bool {
    match made {
        Ok(key) => has_bytes(&key, want),
        Err(_) => false,
    }
}

/// Whether a path has this key, or neither exists.
fn is_path(path: &Option<Path>, want: Option<&[u8]>) -> bool {
    match (path, want) {
        (Some(path), Some(want)) => has_bytes(path.key(), want),
        (None, None) => true,
        _ => false,
    }
}

/// Whether the path of the key has this key again; or the key has no path.
fn leads_to(alloc: Global, key: &Key, want: Option<&[u8]>) -> bool {
    match decoded(alloc, key) {
        Ok(path) => is_path(&path, want),
        Err(_) => false,
    }
}

/// Whether a key was created, and its path has this key; or it has no path.
fn made_leads_to(alloc: Global, made: Result<Key, NoMemory>, want: Option<&[u8]>) -> bool {
    match made {
        Ok(key) => leads_to(alloc, &key, want),
        Err(_) => false,
    }
}

/// Whether a range was created and has these ends.
fn has_ends(made: Result<KeyRange, NoMemory>, lo: &[u8], hi: Option<&[u8]>) -> bool {
    match made {
        Ok(range) => has_bytes(&range.lo, lo) && is_key(&range.hi, hi),
        Err(_) => false,
    }
}

/// Whether the path's parent has this key; without a key, that there is no parent.
fn has_parent(alloc: Global, path: &Path, want: Option<&[u8]>) -> bool {
    match path.parent(alloc) {
        Ok(up) => is_path(&up, want),
        Err(_) => false,
    }
}

/// Whether these are the names of the path, from the root on.
fn has_names(path: &Path, want: &[&[u8]]) -> bool {
    let mut left = path.names();
    for name in want {
        match left.split_first() {
            Some((first, others)) if first == *name => left = others,
            _ => return false,
        }
    }
    left.split_first().is_none()
}

/// Whether a path is below that of a text, and the order of their keys.
fn place_by(alloc: Global, first: &Path, other: &[u8]) -> Option<(bool, Ordering)> {
    match path(alloc, other) {
        Ok(other) => Some((first.is_under(&other), first.key().cmp(other.key()))),
        Err(_) => None,
    }
}

/// A property of a path, with its expected value.
#[derive(Clone, Copy)]
enum Check {
    /// Its key, both encoded directly and decoded again.
    Key(&'static [u8]),
    /// The key of this block; the root has no blocks.
    Block(u32, &'static [u8]),
    /// The two ends of its subtree.
    Ends(&'static [u8], Option<&'static [u8]>),
    /// The two ends of its blocks from this one on.
    EndsFrom(u32, &'static [u8], Option<&'static [u8]>),
    /// The key of its parent, and its last name.
    Parent(&'static [u8], &'static [u8]),
    /// Its names, from the root on.
    Names(&'static [&'static [u8]]),
    /// Whether it is below the path of this text.
    Under(&'static [u8], bool),
    /// The order of its key and that of the path of this text.
    Order(&'static [u8], Ordering),
}

/// Whether a path has the property.
fn answers(alloc: Global, path: &Path, check: Check) -> bool {
    match check {
        Check::Key(want) => {
            has_bytes(path.key(), want)
                && is_made(enc(alloc, path), want)
                && made_leads_to(alloc, enc(alloc, path), Some(want))
        }
        Check::Block(index, want) => {
            !path.is_root() && is_made(block_key(alloc, path, index), want)
        }
        Check::Ends(lo, hi) => has_ends(subtree(alloc, path), lo, hi),
        Check::EndsFrom(from, lo, hi) => {
            !path.is_root() && has_ends(blocks_from(alloc, path, from), lo, hi)
        }
        Check::Parent(parent, last) => {
            path.last() == Some(last) && has_parent(alloc, path, Some(parent))
        }
        Check::Names(want) => has_names(path, want),
        Check::Under(other, want) => {
            matches!(place_by(alloc, path, other), Some((under, _)) if under == want)
        }
        Check::Order(other, want) => {
            matches!(place_by(alloc, path, other), Some((_, order)) if order == want)
        }
    }
}

/// A path's text, and a property of the path.
struct Reported(&'static [u8], Check);

impl Holds for Reported {
    fn holds(&self, alloc: Global) -> bool {
        match path(alloc, self.0) {
            Ok(path) => answers(alloc, &path, self.1),
            Err(_) => false,
        }
    }
}

const KEYS: &[Reported] = &[
    Reported(b"/", Check::Key(b"")),
    Reported(b"/a", Check::Key(b"\x61\x00")),
    Reported(b"/a/x", Check::Key(b"\x61\x00\x78\x00")),
    Reported(b"/a-b", Check::Key(b"\x61\x2d\x62\x00")),
];

#[test]
fn keys_of_paths(rt: HostRuntime) -> Result<(), usize> {
    all_hold(rt.alloc(), KEYS)
}

/// Bytes that are the key of no path.
struct OfNone(&'static [u8]);

impl Holds for OfNone {
    fn holds(&self, alloc: Global) -> bool {
        made_leads_to(alloc, key(alloc, self.0), None)
    }
}

const NO_KEYS: &[OfNone] = &[
    OfNone(b"\x61"),
    OfNone(b"\x00"),
    OfNone(b"\x61\x01"),
    OfNone(b"\x61\x00\x00\x00\x00\x00\x01"),
    OfNone(b"\x2e\x00"),
    OfNone(b"\x2e\x2e\x00"),
    OfNone(b"\x61\x2f\x62\x00"),
];

#[test]
fn keys_of_no_path(rt: HostRuntime) -> Result<(), usize> {
    all_hold(rt.alloc(), NO_KEYS)
}

const BLOCKS: &[Reported] = &[
    Reported(b"/a", Check::Block(1, b"\x61\x00\x00\x00\x00\x00\x01")),
    Reported(
        b"/a",
        Check::Block(268_435_455, b"\x61\x00\x00\x0f\xff\xff\xff"),
    ),
];

#[test]
fn keys_of_blocks(rt: HostRuntime) -> Result<(), usize> {
    all_hold(rt.alloc(), BLOCKS)
}

const ENDS: &[Reported] = &[
    Reported(b"/", Check::Ends(b"", None)),
    Reported(b"/a", Check::Ends(b"\x61\x00", Some(b"\x61\x01"))),
    Reported(
        b"/a",
        Check::EndsFrom(1, b"\x61\x00\x00\x00\x00\x00\x01", Some(b"\x61\x00\x01")),
    ),
];

#[test]
fn ends_of_ranges(rt: HostRuntime) -> Result<(), usize> {
    all_hold(rt.alloc(), ENDS)
}

/// A text, and why it is not a path; `None` if it is one.
struct Short(&'static [u8], Option<Errno>);

impl Holds for Short {
    fn holds(&self, alloc: Global) -> bool {
        refusal(alloc, self.0) == self.1
    }
}

const SHORT: &[Short] = &[
    Short(b"", Some(Errno::ENOENT)),
    Short(b"/", None),
    Short(b"a", Some(Errno::EINVAL)),
    Short(b"//", Some(Errno::EINVAL)),
    Short(b"/a/", Some(Errno::EINVAL)),
    Short(b"/a//b", Some(Errno::EINVAL)),
    Short(b"/.", Some(Errno::EINVAL)),
    Short(b"/a/..", Some(Errno::EINVAL)),
    Short(b"/...", None),
    Short(b"/.a/a.", None),
    Short(b"/a\x00b", Some(Errno::EINVAL)),
    Short(b"/\xff", None),
];

#[test]
fn short_texts(rt: HostRuntime) -> Result<(), usize> {
    all_hold(rt.alloc(), SHORT)
}

/// The parts of a long text, and why it is not a path, or not the name of a snapshot; `None` if it is one.
struct Long(
    &'static [u8],
    &'static [u8],
    usize,
    &'static [u8],
    Option<Errno>,
);

/// Whether parsing a text as a path fails as the row says.
fn is_refused(alloc: Global, row: &Long) -> bool {
    match long_text(alloc, row.0, row.1, row.2, row.3) {
        Ok(text) => refusal(alloc, &text) == row.4,
        Err(_) => false,
    }
}

impl Holds for Long {
    fn holds(&self, alloc: Global) -> bool {
        is_refused(alloc, self)
    }
}

const LONG: &[Long] = &[
    Long(b"/", b"n", 255, b"", None),
    Long(b"/", b"n", 256, b"", Some(Errno::ENAMETOOLONG)),
    Long(b"", b"/a", 510, b"/ab", None),
    Long(b"", b"/a", 511, b"", None),
    Long(b"", b"/a", 512, b"", Some(Errno::ENAMETOOLONG)),
    Long(b"/", b"n", 256, b"/..", Some(Errno::EINVAL)),
    Long(b"/a\x00/", b"n", 256, b"", Some(Errno::EINVAL)),
    Long(b"", b"/a", 1000, b"/", Some(Errno::EINVAL)),
    Long(b"", b"a/", 1000, b"a", Some(Errno::EINVAL)),
    Long(b"", b"/a", 1000, b"", Some(Errno::ENAMETOOLONG)),
];

#[test]
fn long_texts(rt: HostRuntime) -> Result<(), usize> {
    all_hold(rt.alloc(), LONG)
}

const BELOW: &[Reported] = &[
    Reported(b"/a/x", Check::Under(b"/a", true)),
    Reported(b"/a", Check::Under(b"/a", true)),
    Reported(b"/a-b", Check::Under(b"/", true)),
    Reported(b"/a", Check::Under(b"/a/x", false)),
    Reported(b"/a-b", Check::Under(b"/a", false)),
    Reported(b"/", Check::Under(b"/a", false)),
];

#[test]
fn paths_below_others(rt: HostRuntime) -> Result<(), usize> {
    all_hold(rt.alloc(), BELOW)
}

const ORDER: &[Reported] = &[
    Reported(b"/", Check::Order(b"/a", Ordering::Less)),
    Reported(b"/a", Check::Order(b"/a/x", Ordering::Less)),
    Reported(b"/a/x", Check::Order(b"/a-b", Ordering::Less)),
    Reported(b"/ab", Check::Order(b"/a-b", Ordering::Greater)),
    Reported(b"/a", Check::Order(b"/a", Ordering::Equal)),
];

#[test]
fn keys_in_order(rt: HostRuntime) -> Result<(), usize> {
    all_hold(rt.alloc(), ORDER)
}

/// Whether two keys are in this order, and their equality agrees.
fn are_ordered(key: &Key, other: &Key, want: Ordering) -> bool {
    key.cmp(other) == want && (*key == *other) == (want == Ordering::Equal)
}

/// Whether a key and one that was created are in this order, and their equality agrees.
fn is_ordered(key: &Key, made: Result<Key, NoMemory>, want: Ordering) -> bool {
    match made {
        Ok(other) => are_ordered(key, &other, want),
        Err(_) => false,
    }
}

/// The bytes of two keys, and their order.
struct Bytes(&'static [u8], &'static [u8], Ordering);

impl Holds for Bytes {
    fn holds(&self, alloc: Global) -> bool {
        match key(alloc, self.0) {
            Ok(first) => is_ordered(&first, key(alloc, self.1), self.2),
            Err(_) => false,
        }
    }
}

// keys that differ within their first eight bytes, keys that differ after them, and keys that continue with zeros
const BYTES: &[Bytes] = &[
    Bytes(b"", b"", Ordering::Equal),
    Bytes(b"", b"\x00", Ordering::Less),
    Bytes(b"a", b"a\x00", Ordering::Less),
    Bytes(b"a\x00\x00\x00\x00\x00\x00\x00", b"a", Ordering::Greater),
    Bytes(
        b"a\x00",
        b"a\x00\x00\x00\x00\x00\x00\x00\x00",
        Ordering::Less,
    ),
    Bytes(b"ab", b"b", Ordering::Less),
    Bytes(b"b", b"ab", Ordering::Greater),
    Bytes(b"\x7f", b"\x80", Ordering::Less),
    Bytes(b"\xff", b"\x01\xff", Ordering::Greater),
    Bytes(b"abcdefg\x80", b"abcdefg\x7f", Ordering::Greater),
    Bytes(b"abcdefgh", b"abcdefgh", Ordering::Equal),
    Bytes(b"abcdefgh", b"abcdefgh\x00", Ordering::Less),
    Bytes(b"abcdefgha", b"abcdefghb", Ordering::Less),
    Bytes(b"abcdefghij", b"abcdefghij", Ordering::Equal),
    Bytes(b"abcdefgh\xff", b"abcdefgh\x7f\xff", Ordering::Greater),
];

#[test]
fn keys_of_bytes_in_order(rt: HostRuntime) -> Result<(), usize> {
    all_hold(rt.alloc(), BYTES)
}

const PARENTS: &[Reported] = &[
    Reported(b"/a/x", Check::Parent(b"a\x00", b"x")),
    Reported(b"/a", Check::Parent(b"", b"a")),
    Reported(b"/a/b-c/de", Check::Parent(b"a\x00b-c\x00", b"de")),
];

/// Whether a path has neither a name nor a parent.
fn is_top(alloc: Global, path: &Path) -> bool {
    path.last().is_none() && has_parent(alloc, path, None)
}

#[test]
fn parents_and_last_names(rt: HostRuntime) -> Result<(), usize> {
    assert!(rt; is_top(rt.alloc(), &Path::root(rt.alloc())));
    all_hold(rt.alloc(), PARENTS)
}

const NAMES: &[Reported] = &[
    Reported(b"/a/xy", Check::Names(&[b"a", b"xy"])),
    Reported(b"/", Check::Names(&[])),
];

#[test]
fn names_from_the_root(rt: HostRuntime) -> Result<(), usize> {
    all_hold(rt.alloc(), NAMES)
}

/// Whether a key becomes this one if one path is replaced by another; it is unchanged if it is not below the first.
fn is_rekeyed(alloc: Global, key: &Key, old: &Path, new: &Path, want: Option<&[u8]>) -> bool {
    match rekey(alloc, key, old, new) {
        Ok(moved) => is_key(&moved, want),
        Err(_) => false,
    }
}

/// Whether a key becomes this one if a path is replaced by that of a text; it is unchanged if it is not below the
/// first.
fn is_rekeyed_to(alloc: Global, key: &Key, old: &Path, new: &[u8], want: Option<&[u8]>) -> bool {
    match path(alloc, new) {
        Ok(new) => is_rekeyed(alloc, key, old, &new, want),
        Err(_) => false,
    }
}

/// An old and a new path, and the new key of one below the old path.
struct Moved(&'static [u8], &'static [u8], Option<&'static [u8]>);

/// Whether a key is re-keyed as the row says.
fn moves_so(alloc: Global, key: &Key, row: &Moved) -> bool {
    match path(alloc, row.0) {
        Ok(old) => is_rekeyed_to(alloc, key, &old, row.1, row.2),
        Err(_) => false,
    }
}

impl Holds for Moved {
    fn holds(&self, alloc: Global) -> bool {
        match key(alloc, b"a\x00x\x00") {
            Ok(key) => moves_so(alloc, &key, self),
            Err(_) => false,
        }
    }
}

const MOVED: &[Moved] = &[
    Moved(b"/a", b"/a-b", Some(b"a-b\x00x\x00")),
    Moved(b"/a/x", b"/y", Some(b"y\x00")),
    Moved(b"/b", b"/a", None),
];

#[test]
fn keys_moved(rt: HostRuntime) -> Result<(), usize> {
    all_hold(rt.alloc(), MOVED)
}

fn snap_refusal(alloc: Global, text: &[u8]) -> Option<Errno> {
    SnapName::parse(alloc, text).err()
}

fn snap(alloc: Global, text: &[u8]) -> Result<SnapName, Errno> {
    SnapName::parse(alloc, text)
}

/// The number of letters of a name, and why it is not the name of a snapshot.
struct Lettered(usize, Option<Errno>);

impl Holds for Lettered {
    fn holds(&self, alloc: Global) -> bool {
        match long_text(alloc, b"", b"s", self.0, b"") {
            Ok(text) => snap_refusal(alloc, &text) == self.1,
            Err(_) => false,
        }
    }
}

const SNAPSHOTS: &[Lettered] = &[
    Lettered(0, Some(Errno::EINVAL)),
    Lettered(1, None),
    Lettered(64, None),
    Lettered(65, Some(Errno::EINVAL)),
];

#[test]
fn names_of_snapshots(rt: HostRuntime) -> Result<(), usize> {
    all_hold(rt.alloc(), SNAPSHOTS)
}

/// The order of a name and a text; `None` if that is not a name.
fn snap_order(alloc: Global, name: &SnapName, other: &[u8]) -> Option<Ordering> {
    match snap(alloc, other) {
        Ok(other) => Some(name.cmp(&other)),
        Err(_) => None,
    }
}

/// Two names, of which the first has its bytes, and their order.
struct Snaps(&'static [u8], &'static [u8], Ordering);

impl Holds for Snaps {
    fn holds(&self, alloc: Global) -> bool {
        match snap(alloc, self.0) {
            Ok(name) => {
                name.as_bytes() == self.0 && snap_order(alloc, &name, self.1) == Some(self.2)
            }
            Err(_) => false,
        }
    }
}

const SNAPSHOT_ORDER: &[Snaps] = &[
    Snaps(b"Az.09_-Za", b"a", Ordering::Less),
    Snaps(b"b", b"a", Ordering::Greater),
    Snaps(b"a", b"a", Ordering::Equal),
];

#[test]
fn snapshot_names_in_order(rt: HostRuntime) -> Result<(), usize> {
    all_hold(rt.alloc(), SNAPSHOT_ORDER)
}

/// A byte that no name of a snapshot contains.
struct NoLetter(u8);

impl Holds for NoLetter {
    fn holds(&self, alloc: Global) -> bool {
        snap_refusal(alloc, &[b'a', self.0]) == Some(Errno::EINVAL)
    }
}

const NO_LETTERS: &[NoLetter] = &[
    NoLetter(b'`'),
    NoLetter(b'{'),
    NoLetter(b'@'),
    NoLetter(b'['),
    NoLetter(b'/'),
    NoLetter(b':'),
    NoLetter(b','),
    NoLetter(b' '),
    NoLetter(b'\0'),
    NoLetter(b'\x80'),
    NoLetter(b'\xff'),
];

#[test]
fn bytes_of_no_snapshot(rt: HostRuntime) -> Result<(), usize> {
    all_hold(rt.alloc(), NO_LETTERS)
}

/// An errno, its number and its name.
struct Numbered(Errno, u8, &'static str);

impl Holds for Numbered {
    fn holds(&self, _alloc: Global) -> bool {
        self.0.number() == self.1 && self.0.name() == self.2
    }
}

const REFUSALS: &[Numbered] = &[
    Numbered(Errno::ENOENT, 1, "ENOENT"),
    Numbered(Errno::ENOTDIR, 2, "ENOTDIR"),
    Numbered(Errno::EISDIR, 3, "EISDIR"),
    Numbered(Errno::EEXIST, 4, "EEXIST"),
    Numbered(Errno::ENOTEMPTY, 5, "ENOTEMPTY"),
    Numbered(Errno::EPERM, 6, "EPERM"),
    Numbered(Errno::EINVAL, 7, "EINVAL"),
    Numbered(Errno::ENAMETOOLONG, 8, "ENAMETOOLONG"),
    Numbered(Errno::EFBIG, 9, "EFBIG"),
    Numbered(Errno::EBUSY, 10, "EBUSY"),
    Numbered(Errno::ENOMEM, 11, "ENOMEM"),
    Numbered(Errno::ENOSPC, 12, "ENOSPC"),
];

#[test]
fn numbers_of_refusals(rt: HostRuntime) -> Result<(), usize> {
    all_hold(rt.alloc(), REFUSALS)
}
