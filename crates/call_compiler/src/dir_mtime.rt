//! The mtimes of directories: the messages that set them, and whether that of the root is set.
//!
//! A call that adds or removes an entry sets the mtime of its directory to its timestamp. The message is left out only
//! if the directory is known to have that mtime.
ghost use Rattle.std.specs.Prelude.{◌≡◌, ◌∷◌, [], ◌++◌, IfOk, None, OnOk};
ghost use Rattle.std.specs.List.{list_any};
ghost use Rattle.call_compiler.specs.Compiled.{touches, touches_root};
ghost use Rattle.call_compiler.specs.Touches.{has_moment, needed_touches};
ghost use Rattle.reference.specs.Calls.{is_root, once, parent};

use message::Msg;
use meta_index::MetaUpdate;
use pathkey::{NoMemory, Path};
use reference::Call;
use std::alloc::Global;

/// A directory in which a call adds or removes an entry.
#[derive(Drop)]
pub(crate) struct ParentDir {
    /// Its path.
    pub(crate) path: Path,
    /// Its mtime, if the call has looked it up.
    pub(crate) modified: Option<u64>,
}

impl ParentDir {
    /// Whether the directory is known to have this mtime.
    fn has_moment(&self, at: u64) -> bool
        ensures { result ≡ has_moment at self.now }
    {
        match self.modified {
            Some(modified) => modified == at,
            None => false,
        }
    }
}

/// The parent directory of a path, which is not looked up; the root is its own.
pub(crate) fn directory_of(alloc: Global, path: &Path) -> Result<ParentDir, NoMemory>
    ensures path { IfOk result (λ d. d.path ≡ parent path.now) }
    ensures moment { IfOk result (λ d. d.modified ≡ None) }
{
    let directory = match path.parent(alloc)? {
        Some(parent) => parent,
        None => Path::root(alloc),
    };
    Ok(ParentDir {
        path: directory,
        modified: None,
    })
}

/// Appends the message that sets the directory's mtime, unless the directory is known to have it. The message takes the key out
/// of the directory's path.
pub(crate) fn touch(
    alloc: Global,
    msgs: &mut Vec<Msg<MetaUpdate>>,
    directory: ParentDir,
    at: u64,
) -> Result<(), NoMemory>
    ensures { OnOk result (msgs.new.items ≡ msgs.old.items ++ needed_touches at directory) }
{
    if directory.has_moment(at) {
        return Ok(());
    }
    msgs.push(Msg::Edit(directory.path.into_key(), MetaUpdate::Touch(at)))?;
    Ok(())
}

/// Appends the messages for the directories of two paths, only one if they are the same.
pub(crate) fn touch_directories(
    alloc: Global,
    msgs: &mut Vec<Msg<MetaUpdate>>,
    old: &Path,
    new: &Path,
    at: u64,
) -> Result<(), NoMemory>
    ensures { OnOk result (msgs.new.items ≡ msgs.old.items ++ touches at (once (parent old.now) (parent new.now))) }
{
    let from = directory_of(alloc, old)?;
    let to = directory_of(alloc, new)?;
    let is_one = from.path.is_same(&to.path);
    touch(alloc, msgs, from, at)?;
    if is_one {
        return Ok(());
    }
    touch(alloc, msgs, to, at)
}

/// Whether the call, if it succeeds, sets the root's mtime: it adds or removes an entry of it. It allocates no memory.
pub fn touches_root(call: &Call) -> bool
    ensures { result ≡ touches_root call.now }
{
    match call {
        Call::Mkdir(path)
        | Call::Create(path)
        | Call::Unlink(path)
        | Call::Rmdir(path)
        | Call::Rmtree(path) => is_root_child(path),
        Call::Rename(old, new) => renames_root_child(old, new),
        Call::Write(_, _, _)
        | Call::Truncate(_, _)
        | Call::Read(_, _, _)
        | Call::Stat(_)
        | Call::Readdir(_) => false,
    }
}

/// Whether a call that adds or removes the path's entry sets the root's mtime. It allocates no memory.
pub fn is_root_child(path: &Path) -> bool
    ensures { result ≡ list_any is_root (parent path.now ∷ []) }
{
    let Some((_, rest)) = path.names().split_first() else {
        // The root is its own directory.
        return true;
    };
    rest.split_first().is_none()
}

/// Whether a rename sets the root's mtime. It allocates no memory.
pub fn renames_root_child(old: &Path, new: &Path) -> bool
    ensures { result ≡ touches_root (Call.Rename old.now new.now) }
{
    !old.is_same(new) && (is_root_child(old) || is_root_child(new))
}
