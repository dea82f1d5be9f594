//! The effect of a slot's messages on a segment of its child. Within a segment each message affects all keys or none,
//! so the first pair of the child decides for all of it.
ghost use Rattle.std.specs.Prelude.{◌≡◌, ◌<◌, IfOk, None, length};
ghost use Rattle.std.specs.Option.{option_copied};
ghost use Rattle.message.specs.Ranges.{earlier_end};
ghost use Rattle.node.specs.See.{seen_slots};
ghost use Rattle.node.specs.Site.{end_of};
ghost use Rattle.scan.specs.Stretches.{changed, pair_of};

use message::Update;
use message::ends::earlier;
use node::Slot;
use node::search::end_of;
use pathkey::{Key, NoMemory};
use pending::Pending;
use std::alloc::Global;

/// The end of the slot with this index, or `hi` if that is earlier.
pub fn slot_end<'a, U: Update>(
    slots: &'a [Slot<U>],
    i: usize,
    hi: Option<&'a Key>,
) -> Option<&'a Key>
    requires { i < length slots.now }
    ensures { option_copied result ≡ earlier_end (option_copied hi.entry) (end_of None (seen_slots slots.now) i) }
{
    earlier(hi, end_of(slots, i, None))
}

/// The key with the value, if there is one.
pub fn pair_at<V: Drop>(
    alloc: Global,
    key: &Key,
    value: Option<V>,
) -> Result<Option<(Key, V)>, NoMemory>
    ensures { IfOk result (λ r. r ≡ pair_of key.now value) }
{
    match value {
        None => Ok(None),
        Some(value) => Ok(Some((key.copy(alloc)?, value))),
    }
}

/// What the messages, which act on all keys of a segment as on its first, make of the segment's first pair below.
pub fn changed<U: Update>(
    alloc: Global,
    list: &Pending<U>,
    from: &Key,
    below: Option<(Key, U::Value)>,
) -> Result<Option<(Key, U::Value)>, NoMemory>
    ensures { IfOk result (λ r. r ≡ changed U.means list.now.0 from.now below) }
{
    let Some((key, old)) = below else {
        let value = list.value_after(alloc, from, None)?;
        return pair_at(alloc, from, value);
    };
    match list.value_after(alloc, from, Some(old))? {
        None => Ok(None),
        Some(value) => Ok(Some((key, value))),
    }
}
