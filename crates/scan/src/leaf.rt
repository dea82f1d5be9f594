//! The entries of a range in a leaf: the first one, or up to a limit. It relies on the leaf's order: keys are sorted
//! and unique.
ghost use Rattle.std.specs.Prelude.{IfOk, OnOk, [], None};
ghost use Rattle.std.specs.Option.{option_copied};
ghost use Rattle.node.specs.Lawful.{Rises};
ghost use Rattle.node.specs.Meaning.{lookup};
ghost use Rattle.scan.specs.Pairs.{AddsScan, IsFirst};

use message::Update;
use message::ends::is_before_end;
use node::leaf::count_before;
use pathkey::{Key, NoMemory};
use std::alloc::Global;

/// The first entry from `lo` up to but excluding `hi`, found by a search in strides.
pub fn first_entry<U: Update>(
    alloc: Global,
    entries: &[(Key, U::Value)],
    lo: &Key,
    hi: Option<&Key>,
) -> Result<Option<(Key, U::Value)>, NoMemory>
    requires { Rises [] None entries.now }
    ensures { IfOk result (λ r. IsFirst (lookup entries.now) lo.now (option_copied hi.entry) r) }
{
    let i = count_before(entries, lo);
    if i == entries.len() {
        return Ok(None);
    }
    let entry = &entries[i];
    if !is_before_end(&entry.0, hi) {
        return Ok(None);
    }
    let key = entry.0.copy(alloc)?;
    Ok(Some((key, U::copy_value(alloc, &entry.1)?)))
}

/// Pushes the entries from `lo` up to but excluding `hi`, until there are `limit` pairs.
pub fn push_entries<U: Update>(
    alloc: Global,
    entries: &[(Key, U::Value)],
    lo: &Key,
    hi: Option<&Key>,
    limit: usize,
    pairs: &mut Vec<(Key, U::Value)>,
) -> Result<(), NoMemory>
    requires { Rises [] None entries.now }
    ensures { OnOk result (AddsScan (lookup entries.now) lo.now (option_copied hi.entry) limit pairs.old.items pairs.new.items) }
{
    let start = count_before(entries, lo);
    'entries: for i in start..entries.len() {
        if pairs.len() >= limit {
            return Ok(());
        }
        let pair = &entries[i];
        if !is_before_end(&pair.0, hi) {
            return Ok(());
        }
        let key = pair.0.copy(alloc)?;
        pairs.push((key, U::copy_value(alloc, &pair.1)?))?;
    }
    Ok(())
}
