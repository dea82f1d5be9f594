//! File calls compiled to their replies and to messages.
//!
//! A call reads from the indexes what it needs, and returns its reply and a few messages; appending these to the indexes executes
//! the call. The indexes abstract to a directory tree: the reply is that of the table of calls for this tree, and after the
//! messages the indexes abstract to the tree after the call. A call that fails has no messages.
#![tactic(auto)]

ghost use Rattle.std.specs.Prelude.{IfOk};
ghost use Rattle.call_compiler.specs.Compiled.{IsCompiled, messages};

use pathkey::NoMemory;
use std::alloc::Global;

pub mod batch;
pub mod copy_range;
pub mod create;
pub mod dir_mtime;
pub mod file_length;
mod files;
pub mod indexes;
pub mod laws;
pub mod mtime;
pub mod punch;
pub mod read;
pub mod remove;
pub mod rename;
mod subtrees;
pub mod write;

pub use batch::Batch;
pub use indexes::Indexes;
pub use reference::{Call, Reply};

/// The reply to a file call at a timestamp, and the messages that execute it. It changes nothing, and fails only if an
/// allocation fails.
pub fn compile(
    alloc: Global,
    indexes: &Indexes,
    call: &Call,
    at: u64,
) -> Result<(Reply, Batch), NoMemory>
    ensures { IfOk result (λ c. IsCompiled indexes.now call.now at c.0 (messages c.1)) }
{
    match call {
        Call::Mkdir(path) => create::mkdir(alloc, indexes, path, at),
        Call::Create(path) => create::create(alloc, indexes, path, at),
        Call::Write(path, offset, bytes) => write::write(alloc, indexes, path, *offset, bytes, at),
        Call::Truncate(path, len) => write::truncate(alloc, indexes, path, *len, at),
        Call::Unlink(path) => remove::unlink(alloc, indexes, path, at),
        Call::Rmdir(path) => remove::rmdir(alloc, indexes, path, at),
        Call::Rename(old, new) => rename::rename(alloc, indexes, old, new, at),
        Call::Rmtree(path) => remove::rmtree(alloc, indexes, path, at),
        Call::Read(path, offset, count) => read::read(alloc, indexes, path, *offset, *count),
        Call::Stat(path) => read::stat(alloc, indexes, path),
        Call::Readdir(path) => read::readdir(alloc, indexes, path),
    }
}
