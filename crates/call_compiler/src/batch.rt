//! The messages that a call is compiled to, for each of the two indexes. A call that fails or only reads has none.
ghost use Rattle.std.specs.Prelude.{◌≡◌, [], ◌∷◌, IfOk};
ghost use Rattle.call_compiler.specs.Compiled.{messages, no_messages};
ghost use Rattle.call_compiler.specs.Touches.{needed_touches};

use crate::dir_mtime::{ParentDir, touch};
use block_index::BlockUpdate;
use message::Msg;
use meta_index::MetaUpdate;
use pathkey::{Errno, NoMemory};
use reference::Reply;
use std::alloc::Global;

/// Messages for the indexes, the oldest first.
#[derive(Drop)]
pub struct Batch {
    /// Those for the metadata.
    pub meta: Vec<Msg<MetaUpdate>>,
    /// Those for the blocks.
    pub block: Vec<Msg<BlockUpdate>>,
}

/// A reply without messages.
pub(crate) fn without_messages(alloc: Global, reply: Reply) -> (Reply, Batch)
    ensures reply { result.0 ≡ reply }
    ensures messages { messages result.1 ≡ no_messages }
{
    let meta = Vec::new(alloc);
    let block = Vec::new(alloc);
    (reply, Batch { meta, block })
}

/// The result of a call that fails.
pub(crate) fn refused(alloc: Global, fault: Errno) -> (Reply, Batch)
    ensures reply { result.0 ≡ Reply.Fault fault }
    ensures messages { messages result.1 ≡ no_messages }
{
    without_messages(alloc, Reply::Fault(fault))
}

/// The result of a call that succeeds, with a message for the metadata and messages for blocks.
pub(crate) fn done(
    alloc: Global,
    reply: Reply,
    msg: Msg<MetaUpdate>,
    block: Vec<Msg<BlockUpdate>>,
) -> Result<(Reply, Batch), NoMemory>
    ensures reply { IfOk result (λ c. c.0 ≡ reply) }
    ensures messages { IfOk result (λ c. messages c.1 ≡ record { meta = msg ∷ []; block = block.items }) }
{
    let mut meta = Vec::with_capacity(alloc, 1)?;
    meta.push(msg)?;
    Ok((reply, Batch { meta, block }))
}

/// The result of a call that adds an entry to a directory, or removes one, with a message for the metadata and messages for
/// blocks: it succeeds, and the directory gets the mtime `at`.
pub(crate) fn done_in(
    alloc: Global,
    directory: ParentDir,
    at: u64,
    msg: Msg<MetaUpdate>,
    block: Vec<Msg<BlockUpdate>>,
) -> Result<(Reply, Batch), NoMemory>
    ensures reply { IfOk result (λ c. c.0 ≡ Reply.Done) }
    ensures messages { IfOk result (λ c. messages c.1 ≡ record { meta = msg ∷ needed_touches at directory; block = block.items }) }
{
    let mut meta = Vec::with_capacity(alloc, 2)?;
    meta.push(msg)?;
    touch(alloc, &mut meta, directory, at)?;
    Ok((Reply::Done, Batch { meta, block }))
}
