//! Sets the mtime of a file or directory explicitly. It sends at most one message, and changes nothing else.
ghost use Rattle.std.specs.Prelude.{IfOk};
ghost use Rattle.call_compiler.specs.Compiled.{messages};
ghost use Rattle.call_compiler.specs.Mtimes.{SetsMtime};

use crate::batch::{Batch, done, refused};
use crate::indexes::Indexes;
use message::Msg;
use meta_index::MetaUpdate;
use pathkey::{NoMemory, Path};
use reference::Reply;
use std::alloc::Global;

/// Sets the mtime of the file or directory at the path, or of the root (POSIX.1-2017, utimensat). It sends at most one message.
pub fn set_mtime(
    alloc: Global,
    indexes: &Indexes,
    path: &Path,
    at: u64,
) -> Result<(Reply, Batch), NoMemory>
    ensures { IfOk result (λ c. SetsMtime indexes.now path.now at c.0 (messages c.1)) }
{
    let key = path.key();
    let found = indexes.meta.find(alloc, path)?;
    if let Some(fault) = found.fault_of_path() {
        return Ok(refused(alloc, fault));
    }
    let touch = Msg::Edit(key.copy(alloc)?, MetaUpdate::Touch(at));
    done(alloc, Reply::Done, touch, Vec::new(alloc))
}
