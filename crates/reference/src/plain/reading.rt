//! The calls that only read: `read`, `stat`, `readdir`. The tree stays as it is.
ghost use Rattle.std.specs.Prelude.{◌≡◌, IfOk};
ghost use Rattle.reference.specs.Calls.{Outcome, read, asked, listed};
ghost use Rattle.reference.specs.Plain.{tree_of};

use super::contents::copy_part;
use super::entries::list_entries;
use super::tree::Tree;
use super::walk::{At, find};
use crate::limits::GREATEST_READ;
use crate::reply::{FileBytes, Kind, Reply};
use pathkey::{Errno, NoMemory, Path};
use std::alloc::Global;

/// `read`: at most `count` bytes at the offset, none past the end.
pub fn read_file(
    alloc: Global,
    tree: &Tree,
    path: &Path,
    offset: u64,
    count: u64,
) -> Result<Reply, NoMemory>
    ensures { IfOk result (λ r. ◌≡◌ {A = Outcome} (tree_of tree.now, r) (read (tree_of tree.now) path.now offset count)) }
{
    match find(tree, path) {
        At::Missing => Ok(Reply::Fault(Errno::ENOENT)),
        At::Blocked => Ok(Reply::Fault(Errno::ENOTDIR)),
        At::Found(found) => match found {
            Tree::Dir(_, _) => Ok(Reply::Fault(Errno::EISDIR)),
            Tree::File(_, bytes) => {
                if count > GREATEST_READ {
                    return Ok(Reply::Fault(Errno::EINVAL));
                }
                let part = copy_part(alloc, bytes.as_slice(), offset as usize, count as usize)?;
                Ok(Reply::Data(FileBytes::from_vec(part)))
            }
        },
    }
}

/// `stat`: the kind of the entry, a file's length, and the mtime.
pub fn stat(tree: &Tree, path: &Path) -> Reply
    ensures { ◌≡◌ {A = Outcome} (tree_of tree.now, result) (asked (tree_of tree.now) path.now) }
{
    match find(tree, path) {
        At::Missing => Reply::Fault(Errno::ENOENT),
        At::Blocked => Reply::Fault(Errno::ENOTDIR),
        At::Found(found) => match found {
            Tree::Dir(date, _) => Reply::Stat(Kind::Dir, 0, *date),
            Tree::File(date, bytes) => Reply::Stat(Kind::File, bytes.len() as u64, *date),
        },
    }
}

/// `readdir`: the kinds and names of a directory's entries, in byte order of the names.
pub fn list_directory(alloc: Global, tree: &Tree, path: &Path) -> Result<Reply, NoMemory>
    ensures { IfOk result (λ r. ◌≡◌ {A = Outcome} (tree_of tree.now, r) (listed (tree_of tree.now) path.now)) }
{
    match find(tree, path) {
        At::Missing => Ok(Reply::Fault(Errno::ENOENT)),
        At::Blocked => Ok(Reply::Fault(Errno::ENOTDIR)),
        At::Found(found) => match found {
            Tree::File(_, _) => Ok(Reply::Fault(Errno::ENOTDIR)),
            Tree::Dir(_, entries) => Ok(Reply::Names(list_entries(alloc, entries)?)),
        },
    }
}
