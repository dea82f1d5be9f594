//! Changes of a list of chunks that has one owner: an entry is put, edited or moved, and the first entries are dropped.
ghost use Rattle.std.specs.Prelude.{◌≡◌, ◌<◌, ◌≤◌, [], length, drop, OnOk, OnErr, IfOk};
ghost use Rattle.std.specs.BTreeMap.{insert_entry};
ghost use Rattle.pathkey.specs.Order.{by_bytes};
ghost use Rattle.cow_map.specs.Places.{at_key};
ghost use Rattle.cow_map.specs.CowMap.{joined, AreRows};
ghost use Rattle.cow_map.specs.Changes.{IsPut, IsEdited, IsEditedOrPut};
ghost use Rattle.cow_map.specs.Moves.{IsFirstMoved};

use crate::chunk::Chunk;
use crate::chunk_edit::{EditEntry, EditOrShare, Put, PutEntry};
use crate::chunks::{
    begin, begin_item, chunk_index, drop_front_of_first, edit_chunk, split_long, whole_rows,
};
use crate::cursor::Cursor;
use crate::edit::{Edit, Edited};
use crate::shared_entry::SharedEntry;
use crate::stored::CopyValue;
use pathkey::{Key, NoMemory};

/// Puts a value at the key in chunks, and returns the previous one. If an allocation fails the key and the value are returned, and
/// the entries are unchanged.
#[inline(always)]
pub(crate) fn put_among<T: CopyValue>(
    rows: &mut Vec<Chunk<T>>,
    key: Key,
    value: T,
) -> Result<Option<T>, (Key, T)>
    requires { AreRows rows.old.items }
    ensures rows { AreRows rows.new.items }
    ensures put { IsPut key value (joined rows.old.items) (joined rows.new.items) result }
{
    if rows.is_empty() {
        begin(rows, key, value)?;
        return Ok(None);
    }
    let Some(n) = split_long(rows, &key) else {
        return Err((key, value));
    };
    match edit_chunk(rows, n, Put { key, value }) {
        Ok(answer) => answer,
        Err(Put { key, value }) => Err((key, value)),
    }
}

/// Edits the value at the key in chunks in place.
#[inline(always)]
pub(crate) fn edit_among<T: CopyValue, E: Edit<T>>(
    rows: &mut Vec<Chunk<T>>,
    key: &Key,
    edit: E,
) -> Edited<E::Answer, E>
    requires { AreRows rows.old.items }
    ensures rows { AreRows rows.new.items }
    ensures edited { IsEdited (E.does edit) key.now edit (joined rows.old.items) (joined rows.new.items) result }
{
    let n = chunk_index(rows.as_slice(), key);
    if n >= rows.len() {
        return Edited::Absent(edit);
    }
    match edit_chunk(rows, n, EditEntry { key, edit }) {
        Ok(answer) => answer,
        Err(EditEntry { key: _, edit }) => Edited::Refused(edit),
    }
}

/// Moves the first entry of other chunks into these, and returns the previous value at its key.
pub(crate) fn move_first_among<T: CopyValue>(
    rows: &mut Vec<Chunk<T>>,
    from: &mut Vec<Chunk<T>>,
) -> Result<Option<T>, NoMemory>
    requires rows { AreRows rows.old.items }
    requires from { AreRows from.old.items }
    requires some { 0 < length (joined from.old.items) }
    ensures rows { AreRows rows.new.items }
    ensures from { AreRows from.new.items }
    ensures moved { IfOk result (λ was. IsFirstMoved was (joined from.old.items) (joined rows.old.items) (joined from.new.items) (joined rows.new.items)) }
    ensures err { OnErr result (joined rows.new.items ≡ joined rows.old.items) }
    ensures kept { OnErr result (joined from.new.items ≡ joined from.old.items) }
{
    let Some(item) = Cursor::of(&[], from.as_slice()).first() else {
        unreachable!()
    };
    let was = put_shared_among(rows, item)?;
    drop_among(from, 1);
    Ok(was)
}

/// Edits the value in chunks at the key of an entry of another map in place, or puts that entry, which both maps then share, if the
/// key is absent. If an allocation fails the entries are unchanged.
pub(crate) fn edit_or_share_among<T: CopyValue, E: Edit<T>>(
    rows: &mut Vec<Chunk<T>>,
    item: &SharedEntry<T>,
    edit: E,
) -> Result<Option<E::Answer>, NoMemory>
    requires { AreRows rows.old.items }
    ensures rows { AreRows rows.new.items }
    ensures done { IsEditedOrPut (E.does edit) item.now.0 item.now.1 (joined rows.old.items) (joined rows.new.items) result }
{
    if rows.is_empty() {
        let Ok(()) = begin_item(rows, item.share()?) else {
            return Err(NoMemory);
        };
        return Ok(None);
    }
    let Some(n) = split_long(rows, item.key()) else {
        return Err(NoMemory);
    };
    match edit_chunk(rows, n, EditOrShare { item, edit }) {
        Ok(answer) => answer,
        Err(_) => Err(NoMemory),
    }
}

/// Puts a shared entry at its key in chunks, and returns the previous value. If an allocation fails the entry is returned.
pub(crate) fn put_item_among<T: CopyValue>(
    rows: &mut Vec<Chunk<T>>,
    item: SharedEntry<T>,
) -> Result<Option<T>, SharedEntry<T>>
    requires { AreRows rows.old.items }
    ensures rows { AreRows rows.new.items }
    ensures put { IsPut item.0 item.1 (joined rows.old.items) (joined rows.new.items) result }
{
    if rows.is_empty() {
        begin_item(rows, item)?;
        return Ok(None);
    }
    let Some(n) = split_long(rows, item.key()) else {
        return Err(item);
    };
    match edit_chunk(rows, n, PutEntry { item }) {
        Ok(answer) => answer,
        Err(PutEntry { item }) => Err(item),
    }
}

/// Puts an entry of another map at its key in chunks, and returns the previous value. Both maps then share the entry. If an
/// allocation fails the entries are unchanged.
pub(crate) fn put_shared_among<T: CopyValue>(
    rows: &mut Vec<Chunk<T>>,
    item: &SharedEntry<T>,
) -> Result<Option<T>, NoMemory>
    requires { AreRows rows.old.items }
    ensures rows { AreRows rows.new.items }
    ensures put { OnOk result (joined rows.new.items ≡ insert_entry by_bytes (joined rows.old.items) item.now.0 item.now.1) }
    ensures was { IfOk result (λ was. was ≡ at_key item.now.0 (joined rows.old.items)) }
    ensures err { OnErr result (joined rows.new.items ≡ joined rows.old.items) }
{
    match put_item_among(rows, item.share()?) {
        Ok(was) => Ok(was),
        Err(_) => Err(NoMemory),
    }
}

/// Drops the first entries of chunks.
pub(crate) fn drop_among<T: CopyValue>(rows: &mut Vec<Chunk<T>>, count: usize)
    requires rows { AreRows rows.old.items }
    requires count { count ≤ length (joined rows.old.items) }
    ensures rows { AreRows rows.new.items }
    ensures entries { joined rows.new.items ≡ drop count (joined rows.old.items) }
{
    let (whole, left) = whole_rows(rows.as_slice(), count);
    skip(rows, whole);
    if left > 0 {
        drop_front_of_first(rows, left);
    }
}

/// Drops the first chunks.
pub(crate) fn skip<T: CopyValue>(rows: &mut Vec<Chunk<T>>, count: usize)
    requires { count ≤ length rows.old.items }
    ensures { rows.new.items ≡ drop count rows.old.items }
{
    rows.drain(..count);
}
