//! Looks up the length of a file.
ghost use Rattle.std.specs.Prelude.{◌≢◌, ◌≤◌, ◌^◌, [], IfOk};
ghost use Rattle.call_compiler.specs.Compiled.{MeanTree};
ghost use Rattle.call_compiler.specs.Measured.{TellsLength};
ghost use Rattle.reference.specs.Tree.{Tree, entry_at};

use crate::files::find_file;
use crate::indexes::Indexes;
use pathkey::{Errno, NoMemory, Path};
use std::alloc::Global;

/// The length of the file at the path in bytes, at most 2^40; or why there is none, EISDIR if a directory is there.
pub fn file_length(
    alloc: Global,
    indexes: &Indexes,
    path: &Path,
) -> Result<Result<u64, Errno>, NoMemory>
    ensures reported { IfOk result (λ length. (t : Tree) → MeanTree indexes.now t → TellsLength (entry_at t path.now) length) }
    ensures path { IfOk result (λ length. IfOk length (λ _. path.now ≢ [])) }
    ensures short { IfOk result (λ length. IfOk length (λ n. n ≤ 2 ^ 40)) }
{
    match find_file(alloc, indexes, path, Errno::EISDIR)? {
        Ok(file) => Ok(Ok(file.len)),
        Err(fault) => Ok(Err(fault)),
    }
}
