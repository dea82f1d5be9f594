//! Calls that create an entry: `mkdir` and `create`. Each sends one message, and one for the mtime of the parent unless
//! that is known to be the call's timestamp.
ghost use Rattle.std.specs.Prelude.{◌≡◌, IfOk};
ghost use Rattle.std.specs.Result.{result_err};
ghost use Rattle.call_compiler.specs.Compiled.{IsCompiled, messages};
ghost use Rattle.call_compiler.specs.Touches.{IsDated};
ghost use Rattle.meta_index.specs.Means.{IsMeantBy};
ghost use Rattle.reference.specs.Calls.{faults_of_new, first_fault, parent};
ghost use Rattle.reference.specs.Tree.{Tree, entry_at};

use crate::batch::{Batch, done_in, refused};
use crate::dir_mtime::ParentDir;
use crate::indexes::Indexes;
use message::Msg;
use meta_index::Meta;
use pathkey::{Errno, NoMemory, Path};
use reference::{Call, Reply};
use std::alloc::Global;

/// Creates an empty directory (POSIX.1-2017, mkdir).
pub fn mkdir(
    alloc: Global,
    indexes: &Indexes,
    path: &Path,
    at: u64,
) -> Result<(Reply, Batch), NoMemory>
    ensures { IfOk result (λ c. IsCompiled indexes.now (Call.Mkdir path.now) at c.0 (messages c.1)) }
{
    let key = path.key();
    let directory = match directory_of_new(alloc, indexes, path)? {
        Ok(directory) => directory,
        Err(fault) => return Ok(refused(alloc, fault)),
    };
    let put = Msg::Put(key.copy(alloc)?, Meta::Dir { modified: at });
    done_in(alloc, directory, at, put, Vec::new(alloc))
}

/// Creates an empty file (open with O_CREAT and O_EXCL, without a descriptor).
pub fn create(
    alloc: Global,
    indexes: &Indexes,
    path: &Path,
    at: u64,
) -> Result<(Reply, Batch), NoMemory>
    ensures { IfOk result (λ c. IsCompiled indexes.now (Call.Create path.now) at c.0 (messages c.1)) }
{
    let key = path.key();
    let directory = match directory_of_new(alloc, indexes, path)? {
        Ok(directory) => directory,
        Err(fault) => return Ok(refused(alloc, fault)),
    };
    let put = Msg::Put(
        key.copy(alloc)?,
        Meta::File {
            len: 0,
            modified: at,
        },
    );
    done_in(alloc, directory, at, put, Vec::new(alloc))
}

/// The parent directory of the path, if a new entry can be created there; or why none can.
fn directory_of_new(
    alloc: Global,
    indexes: &Indexes,
    path: &Path,
) -> Result<Result<ParentDir, Errno>, NoMemory>
    ensures directory { IfOk result (λ found. IfOk found (λ d. d.path ≡ parent path.now)) }
    ensures moment { IfOk result (λ found. IfOk found (λ d. (t : Tree) → IsMeantBy t indexes.now.meta → IsDated (entry_at t (parent path.now)) d)) }
    ensures fault { IfOk result (λ found. (t : Tree) → IsMeantBy t indexes.now.meta → result_err found ≡ first_fault (faults_of_new t path.now)) }
{
    let (parent, modified) = match indexes.meta.find_parent_mtime(alloc, path)? {
        Ok(dated) => dated,
        Err(fault) => return Ok(Err(fault)),
    };
    if indexes.meta.has(alloc, path)? {
        return Ok(Err(Errno::EEXIST));
    }
    Ok(Ok(ParentDir {
        path: parent,
        modified: Some(modified),
    }))
}
