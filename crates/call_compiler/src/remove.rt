//! Calls that remove an entry: `unlink`, `rmdir` and `rmtree`. A removal sends a constant number of messages: a subtree
//! is removed by one range-delete in each index.
ghost use Rattle.std.specs.Prelude.{◌≡◌, [], ◌∷◌, IfOk, not};
ghost use Rattle.call_compiler.specs.Compiled.{IsCompiled, messages};
ghost use Rattle.meta_index.specs.Means.{IsMeantBy, lookup_answer};
ghost use Rattle.reference.specs.Calls.{faults_of_rmdir, faults_of_rmtree, first_fault, is_full};
ghost use Rattle.reference.specs.Tree.{Tree, entry_at};

use crate::batch::{Batch, done_in, refused};
use crate::dir_mtime::directory_of;
use crate::files::{find_file, without_blocks};
use crate::indexes::Indexes;
use message::Msg;
use meta_index::At;
use pathkey::{Errno, NoMemory, Path, subtree};
use reference::{Call, Reply};
use std::alloc::Global;

/// Removes a file, with all its blocks (POSIX.1-2017, unlink). It fails with EPERM for a directory.
pub fn unlink(
    alloc: Global,
    indexes: &Indexes,
    path: &Path,
    at: u64,
) -> Result<(Reply, Batch), NoMemory>
    ensures { IfOk result (λ c. IsCompiled indexes.now (Call.Unlink path.now) at c.0 (messages c.1)) }
{
    let key = path.key();
    let file = match find_file(alloc, indexes, path, Errno::EPERM)? {
        Ok(file) => file,
        Err(fault) => return Ok(refused(alloc, fault)),
    };
    let block = without_blocks(alloc, indexes, path, file)?;
    let directory = directory_of(alloc, path)?;
    done_in(alloc, directory, at, Msg::Del(key.copy(alloc)?), block)
}

/// Removes an empty directory (rmdir).
pub fn rmdir(
    alloc: Global,
    indexes: &Indexes,
    path: &Path,
    at: u64,
) -> Result<(Reply, Batch), NoMemory>
    ensures { IfOk result (λ c. IsCompiled indexes.now (Call.Rmdir path.now) at c.0 (messages c.1)) }
{
    let key = path.key();
    if let Some(fault) = fault_of_rmdir(alloc, indexes, path)? {
        return Ok(refused(alloc, fault));
    }
    let del = Msg::Del(key.copy(alloc)?);
    let directory = directory_of(alloc, path)?;
    done_in(alloc, directory, at, del, Vec::new(alloc))
}

/// Why no empty directory can be removed at the path; `None` if one can.
fn fault_of_rmdir(alloc: Global, indexes: &Indexes, path: &Path) -> Result<Option<Errno>, NoMemory>
    ensures { IfOk result (λ fault. (t : Tree) → IsMeantBy t indexes.now.meta → fault ≡ first_fault (faults_of_rmdir t path.now)) }
{
    if path.is_root() {
        return Ok(Some(Errno::EBUSY));
    }
    let at = indexes.meta.find(alloc, path)?;
    if let Some(fault) = at.fault_of_directory() {
        return Ok(Some(fault));
    }
    if is_empty_dir(alloc, indexes, path)? {
        return Ok(None);
    }
    Ok(Some(Errno::ENOTEMPTY))
}

/// Whether nothing exists below the path.
///
/// Likely names are looked up first: only if none is found does the search for the first pair run, which passes every removed
/// name.
pub(crate) fn is_empty_dir(alloc: Global, indexes: &Indexes, path: &Path) -> Result<bool, NoMemory>
    ensures { IfOk result (λ empty. (t : Tree) → IsMeantBy t indexes.now.meta → empty ≡ not (is_full (entry_at t path.now))) }
{
    let is_nonempty = indexes.meta.probe_nonempty(alloc, path)?;
    if is_nonempty {
        return Ok(false);
    }
    indexes.meta.is_empty_dir(alloc, path)
}

/// Removes the entry at the path, with everything below it.
///
/// It sends one range-delete to each index, whatever is below.
pub fn rmtree(
    alloc: Global,
    indexes: &Indexes,
    path: &Path,
    at: u64,
) -> Result<(Reply, Batch), NoMemory>
    ensures { IfOk result (λ c. IsCompiled indexes.now (Call.Rmtree path.now) at c.0 (messages c.1)) }
{
    // The postcondition of `key` states that the path is valid.
    let _key = path.key();
    let here = indexes.meta.find(alloc, path)?;
    if let Some(fault) = fault_of_taking(path, here) {
        return Ok(refused(alloc, fault));
    }
    let range = subtree(alloc, path)?;
    let mut block = Vec::with_capacity(alloc, 1)?;
    block.push(Msg::DelRange(range.copy(alloc)?))?;
    let directory = directory_of(alloc, path)?;
    done_in(alloc, directory, at, Msg::DelRange(range), block)
}

/// Why the entry found at the path cannot be removed with everything below it, or renamed; `None` if it can.
pub(crate) fn fault_of_taking(path: &Path, here: At) -> Option<Errno>
    ensures { (t : Tree) → here ≡ lookup_answer (entry_at t path.now) → result ≡ first_fault (faults_of_rmtree t path.now) }
{
    if path.is_root() {
        Some(Errno::EBUSY)
    } else {
        here.fault_of_path()
    }
}
