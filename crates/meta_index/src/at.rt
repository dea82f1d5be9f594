//! The entry at a path, according to the metadata: a directory, a file, or why there is none.
ghost use Rattle.std.specs.Prelude.{◌≡◌, None};
ghost use Rattle.meta_index.specs.Means.{beyond, found_meta, moment_reported, lookup_answer};
ghost use Rattle.reference.specs.Calls.{no_directory_fault, path_fault};
ghost use Rattle.reference.specs.Tree as trees;

use pathkey::Errno;
use reference::Meta;

/// What is at a path.
#[derive(Clone, Copy, Debug, PartialEq, Eq)]
pub enum At {
    /// An entry with this metadata.
    Found(Meta),
    /// Nothing: the first name that decides is absent from its directory.
    Missing,
    /// Nothing: a name before the last is that of a file.
    Blocked,
}

impl At {
    /// What is at a name below an entry with this metadata, if no entry has that name.
    pub(crate) fn below(above: Meta) -> At
        ensures reported { (here : trees.At) → At.Found above ≡ lookup_answer here → result ≡ lookup_answer (beyond here) }
        ensures nothing { found_meta result ≡ None }
    {
        match above {
            Meta::Dir { .. } => At::Missing,
            Meta::File { .. } => At::Blocked,
        }
    }

    /// Why the path does not exist; `None` if it does.
    pub fn fault_of_path(self) -> Option<Errno>
        ensures { (here : trees.At) → self ≡ lookup_answer here → result ≡ path_fault here }
    {
        match self {
            At::Found(_) => None,
            At::Missing => Some(Errno::ENOENT),
            At::Blocked => Some(Errno::ENOTDIR),
        }
    }

    /// Why the path names no directory; `None` if it does.
    pub fn fault_of_directory(self) -> Option<Errno>
        ensures { (here : trees.At) → self ≡ lookup_answer here → result ≡ no_directory_fault here }
    {
        self.directory_mtime().err()
    }

    /// The mtime of the directory at the path; or why there is none.
    pub(crate) fn directory_mtime(self) -> Result<u64, Errno>
        ensures { (here : trees.At) → self ≡ lookup_answer here → result ≡ moment_reported here }
    {
        match self {
            At::Found(Meta::Dir { modified }) => Ok(modified),
            At::Found(Meta::File { .. }) => Err(Errno::ENOTDIR),
            At::Missing => Err(Errno::ENOENT),
            At::Blocked => Err(Errno::ENOTDIR),
        }
    }
}
