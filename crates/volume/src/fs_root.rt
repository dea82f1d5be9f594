//! Indexes, and the mtime of the root of the tree to which they abstract. It is stored beside them, so it needs no
//! look-up.
ghost use Rattle.std.specs.Prelude.{◌≡◌, IfOk};
ghost use Rattle.pathkey.specs.Names.{is_root};
ghost use Rattle.reference.specs.Calls.{is_done};
ghost use Rattle.reference.specs.Plant.{modified_of};
ghost use Rattle.reference.specs.Shape.{IsMoment};
ghost use Rattle.volume.specs.FsRoot.{after_call, after_planting};

use call_compiler::{Indexes, Reply};
use pathkey::{Errno, NoMemory, Path};
use reference::Meta;

/// Indexes, and the mtime of the root of the tree to which they abstract.
#[derive(Drop)]
pub struct FsRoot {
    /// The indexes.
    pub indexes: Indexes,
    /// The mtime of the root.
    pub modified: u64,
}

impl FsRoot {
    /// These indexes and the mtime, as another reference to both trees. It fails only if a node already has 2^64 - 1
    /// references.
    pub fn share(&self) -> Result<FsRoot, NoMemory>
        ensures { IfOk result (λ r. r ≡ self.now) }
    {
        share(&self.indexes, self.modified)
    }
}

/// These indexes, as another reference to both trees, with the mtime of the root.
pub(crate) fn share(indexes: &Indexes, modified: u64) -> Result<FsRoot, NoMemory>
    ensures { IfOk result (λ r. r ≡ record { indexes = indexes.now; modified = modified }) }
{
    let indexes = indexes.share()?;
    Ok(FsRoot { indexes, modified })
}

/// The mtime of the root after a call with the timestamp `at`; `in_root` says whether it adds an entry to the root or removes
/// one. It allocates nothing.
pub(crate) fn after_call(reply: &Reply, in_root: bool, at: u64, modified: u64) -> u64
    ensures { result ≡ after_call in_root reply.now at modified }
{
    if is_done(reply) && in_root {
        at
    } else {
        modified
    }
}

/// Whether the reply is that of a call that succeeded and returns nothing.
fn is_done(reply: &Reply) -> bool
    ensures { result ≡ is_done reply.now }
{
    matches!(reply, Reply::Done)
}

/// The mtime of the root after an attempt to plant an entry. It allocates nothing.
pub(crate) fn after_planting(
    answer: &Result<(), Errno>,
    path: &Path,
    meta: Meta,
    modified: u64,
) -> u64
    ensures { result ≡ after_planting answer.now path.now meta modified }
{
    if answer.is_ok() && path.is_root() {
        mtime_of(meta)
    } else {
        modified
    }
}

/// The mtime in metadata.
pub(crate) fn mtime_of(meta: Meta) -> u64
    ensures value { result ≡ modified_of meta }
    ensures early { IsMoment (modified_of meta) }
{
    match meta {
        Meta::Dir { modified } => modified,
        Meta::File { len: _, modified } => modified,
    }
}
