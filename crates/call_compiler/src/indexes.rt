//! The two indexes of a file system, from which a call reads and to which its messages are appended.
//!
//! A batch is appended to both indexes or to neither, so they always abstract to the same directory tree.
ghost use Rattle.std.specs.Prelude.{◌≡◌, [], IfOk, IsTrue, OnErr, OnOk};
ghost use Rattle.call_compiler.specs.Compiled.{MeanTree, messages};
ghost use Rattle.call_compiler.specs.Laws.{HaveTaken};
ghost use Rattle.node.specs.Shapes.{is_shape};
ghost use Rattle.reference.specs.Tree.{Dir, nothing};

use crate::batch::Batch;
use block_index::BlockIndex;
use meta_index::MetaIndex;
use node::{Shape, append_both};
use pathkey::NoMemory;
use std::alloc::Global;

/// The indexes of a file system.
#[derive(Drop)]
pub struct Indexes {
    /// The metadata of each path.
    pub meta: MetaIndex,
    /// The bytes of each file.
    pub block: BlockIndex,
}

impl Indexes {
    /// The indexes of the empty root directory, with mtime 0, in new trees of this shape. It fails only if an allocation fails.
    pub fn new(alloc: Global, shape: Shape) -> Result<Indexes, NoMemory>
        requires { IsTrue (is_shape shape) }
        ensures meta_shape { IfOk result (λ i. i.meta.tree.shape ≡ shape) }
        ensures block_shape { IfOk result (λ i. i.block.tree.shape ≡ shape) }
        ensures empty { IfOk result (λ i. MeanTree i (Dir 0 nothing)) }
    {
        let meta = MetaIndex::new(alloc, shape)?;
        let block = BlockIndex::new(alloc, shape)?;
        Ok(Indexes { meta, block })
    }

    /// The same indexes, as another reference to both trees. Later changes of either do not affect the other.
    pub fn share(&self) -> Result<Indexes, NoMemory>
        ensures { IfOk result (λ i. i ≡ self.now) }
    {
        let meta = self.meta.tree.share()?;
        let block = self.block.tree.share()?;
        Ok(Indexes {
            meta: MetaIndex { tree: meta },
            block: BlockIndex { tree: block },
        })
    }

    /// Appends the messages of a batch to both trees atomically. It fails only if an allocation fails; a tree that gets no
    /// message is not changed.
    pub fn append(&mut self, alloc: Global, batch: Batch) -> Result<(), NoMemory>
        ensures done { OnOk result (HaveTaken (messages batch) self.old self.new) }
        ensures no_meta { batch.meta.items ≡ [] → self.new.meta ≡ self.old.meta }
        ensures no_block { batch.block.items ≡ [] → self.new.block ≡ self.old.block }
        ensures err { OnErr result (self.new ≡ self.old) }
    {
        let Batch { meta, block } = batch;
        append_both(
            alloc,
            &mut self.meta.tree,
            meta,
            &mut self.block.tree,
            block,
        )
    }
}
