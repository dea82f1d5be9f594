//! The keys at which the indexes of two trees differ, found among those that were touched: only touched ranges are walked, or both
//! trees whole if it is not known what was touched (`Changes::All`).
ghost use Rattle.std.specs.Prelude.{◌≡◌, ℕ, List, IfOk, true};
ghost use Rattle.call_compiler.specs.declared.indexes.Indexes.{Indexes};
ghost use Rattle.change_log.specs.KeyLogs.{touched_of};
ghost use Rattle.change_log.specs.Touched.{is_touched};
ghost use Rattle.volume.specs.Differences.{AgreeBeside, AgreeOutside};
ghost use Rattle.delta.specs.Changed.{AreBlocksDiffering, AreMetasDiffering, is_in_either};

use crate::differing::differing;
use change_log::{Changes, TouchedKeys};
use pathkey::{Key, KeyRange, NoMemory};
use std::alloc::Global;
use volume::Frozen;

/// The keys at which two indexes differ, in no order, some perhaps several times.
#[derive(Drop)]
pub(crate) struct DifferingKeys {
    /// Those of the metadata.
    pub metas: Vec<Key>,
    /// Those of the blocks.
    pub blocks: Vec<Key>,
}

/// The keys at which the indexes of two trees differ. `before` has all keys at which the old tree may differ from some third one, and
/// `after` those at which the new tree may (`Volume::changed_since`).
pub(crate) fn differing_keys(
    alloc: Global,
    old: &Frozen,
    new: &Frozen,
    before: &Changes,
    after: &Changes,
) -> Result<DifferingKeys, NoMemory>
    requires { (i : Indexes) × AgreeBeside before.now old.now.indexes i × AgreeBeside after.now new.now.indexes i }
    ensures metas { IfOk result (λ keys. AreMetasDiffering old.now.indexes new.now.indexes keys.metas.items) }
    ensures blocks { IfOk result (λ keys. AreBlocksDiffering old.now.indexes new.now.indexes keys.blocks.items) }
{
    match (before, after) {
        (Changes::Within(meta, block), Changes::Within(other_meta, other_block)) => {
            keys_within(alloc, old, new, (meta, other_meta), (block, other_block))
        }
        _ => {
            let every = every_key(alloc)?;
            keys_within(alloc, old, new, (&every, &every), (&every, &every))
        }
    }
}

/// All keys.
fn every_key(alloc: Global) -> Result<TouchedKeys, NoMemory>
    ensures { IfOk result (λ every. (k : List ℕ) → is_touched (touched_of every) k ≡ true) }
{
    let mut ranges = Vec::new(alloc);
    ranges.push(KeyRange {
        lo: Key::new(alloc),
        hi: None,
    })?;
    Ok(TouchedKeys {
        keys: Vec::new(alloc),
        ranges,
    })
}

/// The keys at which two indexes differ, if they may differ only at these.
fn keys_within(
    alloc: Global,
    old: &Frozen,
    new: &Frozen,
    meta: (&TouchedKeys, &TouchedKeys),
    block: (&TouchedKeys, &TouchedKeys),
) -> Result<DifferingKeys, NoMemory>
    requires { AgreeOutside (is_in_either meta.0.now meta.1.now) (is_in_either block.0.now block.1.now) old.now.indexes new.now.indexes }
    ensures metas { IfOk result (λ keys. AreMetasDiffering old.now.indexes new.now.indexes keys.metas.items) }
    ensures blocks { IfOk result (λ keys. AreBlocksDiffering old.now.indexes new.now.indexes keys.blocks.items) }
{
    let (before, after) = (old.indexes(), new.indexes());
    let metas = differing(alloc, &before.meta.tree, &after.meta.tree, meta.0, meta.1)?;
    let blocks = differing(
        alloc,
        &before.block.tree,
        &after.block.tree,
        block.0,
        block.1,
    )?;
    Ok(DifferingKeys { metas, blocks })
}
