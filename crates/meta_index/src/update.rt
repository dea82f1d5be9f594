//! Updates of the metadata at one path: the length of a file set or raised, and the mtime. An update creates no entry.
ghost use Rattle.std.specs.Prelude.{◌≡◌, Some, Option, IfOk, IfSome, is_some};
ghost use Rattle.meta_index.specs.Updates.{joins, means as meant};
ghost use Rattle.reference.specs.declared.reply.Meta.{Meta as MetaValue};

use message::{Update, UpdateTarget};
use pathkey::NoMemory;
use reference::Meta;
use std::alloc::Global;

/// A change of the metadata at a path. It has no effect if the path does not exist.
#[derive(Clone, Copy, Debug, PartialEq, Eq)]
pub enum MetaUpdate {
    /// Sets the length and the mtime of a file. A directory stays as it is.
    SetLen(u64, u64),
    /// Raises the length of a file to at least this, and sets its mtime. A directory stays as it is.
    Grow(u64, u64),
    /// Sets the mtime of the directory or file.
    Touch(u64),
}

impl MetaUpdate {
    /// The metadata after the update.
    pub fn after(self, old: Meta) -> Meta
        ensures { Some result ≡ meant self (Some old) }
    {
        match self {
            MetaUpdate::SetLen(n, at) => match old {
                Meta::Dir { modified } => Meta::Dir { modified },
                Meta::File { .. } => Meta::File {
                    len: n,
                    modified: at,
                },
            },
            MetaUpdate::Grow(n, at) => match old {
                Meta::Dir { modified } => Meta::Dir { modified },
                Meta::File { len, .. } => Meta::File {
                    len: len.max(n),
                    modified: at,
                },
            },
            MetaUpdate::Touch(at) => match old {
                Meta::Dir { .. } => Meta::Dir { modified: at },
                Meta::File { len, .. } => Meta::File { len, modified: at },
            },
        }
    }

    /// The update with the effect of this one followed by `later`, if both change a file, or both set only the mtime. Its
    /// mtime is that of `later`.
    pub fn joined(self, later: MetaUpdate) -> Option<MetaUpdate>
        ensures means { IfSome result (λ one. (old : Option MetaValue) → meant one old ≡ meant later (meant self old)) }
        ensures some { is_some result ≡ joins self later }
    {
        match self {
            MetaUpdate::SetLen(m, _) => match later {
                MetaUpdate::SetLen(n, at) => Some(MetaUpdate::SetLen(n, at)),
                MetaUpdate::Grow(n, at) => Some(MetaUpdate::SetLen(m.max(n), at)),
                MetaUpdate::Touch(_) => None,
            },
            MetaUpdate::Grow(m, _) => match later {
                MetaUpdate::SetLen(n, at) => Some(MetaUpdate::SetLen(n, at)),
                MetaUpdate::Grow(n, at) => Some(MetaUpdate::Grow(m.max(n), at)),
                MetaUpdate::Touch(_) => None,
            },
            MetaUpdate::Touch(_) => match later {
                MetaUpdate::Touch(at) => Some(MetaUpdate::Touch(at)),
                _ => None,
            },
        }
    }
}

impl UpdateTarget for MetaUpdate {
    type Value = Meta;
}

impl Update for MetaUpdate {
    ghost use Rattle.meta_index.specs.Updates.{means as meant};

    ghost means = { meant };

    fn apply(&self, _alloc: Global, old: Option<&Meta>) -> Result<Option<Meta>, NoMemory> {
        match old {
            None => Ok(None),
            Some(meta) => Ok(Some(self.after(*meta))),
        }
    }

    fn join(&self, _alloc: Global, later: &MetaUpdate) -> Result<Option<MetaUpdate>, NoMemory>
        ensures means { IfOk result (λ r. IfSome r (λ one. (old : Option MetaValue) → meant one old ≡ meant later.now (meant self.now old))) }
        ensures some { IfOk result (λ r. is_some r ≡ joins self.now later.now) }
    {
        Ok(self.joined(*later))
    }

    fn copy(&self, _alloc: Global) -> Result<MetaUpdate, NoMemory> {
        Ok(*self)
    }

    fn copy_value(_alloc: Global, value: &Meta) -> Result<Meta, NoMemory> {
        Ok(*value)
    }
}
