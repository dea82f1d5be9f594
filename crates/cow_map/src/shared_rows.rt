//! A list of chunks that several maps share.
//!
//! Invariant (`IsKept`): the list is never changed. A map that shares it drops entries at the front by skipping whole chunks, and
//! leaving out fewer entries than the next chunk has.
ghost use Rattle.std.specs.Prelude.{◌≡◌, ◌≤◌, length, drop, IfOk, IfErr};
ghost use Rattle.cow_map.specs.CowMap.{joined, behind, AreRows, IsBehind};

use crate::changes::skip;
use crate::chunk::Chunk;
use crate::chunks::{drop_front_of_first, share_rows, whole_rows};
use crate::stored::CopyValue;
use pathkey::NoMemory;
use std::alloc::Global;
use std::marker::Model;
use std::sync::Arc;

/// A shared list of chunks, of which the first entries may be dropped. Contracts see the chunks that remain.
#[derive(Drop)]
pub struct SharedRows<T> {
    rows: Arc<Vec<Chunk<T>>>,
    /// How many whole chunks are dropped.
    skipped: usize,
    /// How many entries of the next chunk are dropped.
    left_out: usize,
}

impl<T> Model for SharedRows<T> {
    ghost use Rattle.std.specs.Prelude.{List, ℕ, drop};
    ghost use Rattle.cow_map.specs.CowMap.{behind, IsKept};

    ghost Value = { List (List (List ℕ × T)) };

    ghost view = { λ s. behind s.left_out (drop s.skipped s.rows.value.items) };

    ghost invariant = { λ s. IsKept s.skipped s.left_out s.rows.value.items };
}

impl<T: CopyValue> SharedRows<T> {
    /// A list of these chunks, which as yet has one owner. If an allocation fails they are returned.
    pub(crate) fn of(alloc: Global, rows: Vec<Chunk<T>>) -> Result<SharedRows<T>, Vec<Chunk<T>>>
        requires { AreRows rows.items }
        ensures ok { IfOk result (λ s. s ≡ rows.items) }
        ensures back { IfErr result (λ v. v.items ≡ rows.items) }
    {
        match Arc::new(alloc, rows) {
            Ok(rows) => Ok(SharedRows {
                rows,
                skipped: 0,
                left_out: 0,
            }),
            Err(refused) => Err(refused.value),
        }
    }

    /// The chunks, and how many entries of the first are dropped.
    #[inline(always)]
    pub(crate) fn parts(&self) -> (&[Chunk<T>], usize)
        ensures rows { AreRows result.0.now }
        ensures left { IsBehind result.1 result.0.now }
        ensures remain { behind result.1 result.0.now ≡ self.now }
    {
        (&self.rows.as_slice()[self.skipped..], self.left_out)
    }

    /// Whether it has another owner. No claim depends on it.
    #[inline(always)]
    pub(crate) fn is_shared(&self) -> bool {
        Arc::strong_count(&self.rows) > 1
    }

    /// The same list, with another owner.
    pub(crate) fn share(&self) -> Result<SharedRows<T>, NoMemory>
        ensures { IfOk result (λ s. s ≡ self.now) }
    {
        let rows = Arc::try_clone(&self.rows)?;
        Ok(SharedRows {
            rows,
            skipped: self.skipped,
            left_out: self.left_out,
        })
    }

    /// Drops the first entries. It allocates nothing.
    pub(crate) fn drop_front(&mut self, count: usize)
        requires { count ≤ length (joined self.old) }
        ensures rows { AreRows self.new }
        ensures entries { joined self.new ≡ drop count (joined self.old) }
    {
        let (skipped, left_out) = passed(
            &self.rows.as_slice()[self.skipped..],
            self.left_out,
            count,
        );
        self.skipped += skipped;
        self.left_out = left_out;
    }

    /// The chunks that remain, without another owner: these if there is none, and otherwise copies, which share the entries. If an
    /// allocation fails the list is returned.
    pub(crate) fn into_own(self, alloc: Global) -> Result<Vec<Chunk<T>>, SharedRows<T>>
        ensures rows { IfOk result (λ v. AreRows v.items) }
        ensures same { IfOk result (λ v. joined v.items ≡ joined self) }
        ensures back { IfErr result (λ s. s ≡ self) }
    {
        let SharedRows {
            rows,
            skipped,
            left_out,
        } = self;
        match Arc::try_unwrap(rows) {
            Ok(all) => Ok(without(all, skipped, left_out)),
            Err(rows) => match share_rows(&rows.as_slice()[skipped..], alloc) {
                Ok(rest) => Ok(without(rest, 0, left_out)),
                Err(_) => Err(SharedRows {
                    rows,
                    skipped,
                    left_out,
                }),
            },
        }
    }
}

/// How many more chunks are passed, and how many entries of the next, if from chunks without the first `left_out` entries so many
/// more are dropped.
fn passed<T: CopyValue>(rows: &[Chunk<T>], left_out: usize, count: usize) -> (usize, usize)
    requires rows { AreRows rows.now }
    requires left { IsBehind left_out rows.now }
    requires count { count ≤ length (joined (behind left_out rows.now)) }
    ensures bound { result.0 ≤ length rows.now }
    ensures left { IsBehind result.1 (drop result.0 rows.now) }
    ensures entries { joined (behind result.1 (drop result.0 rows.now)) ≡ drop count (joined (behind left_out rows.now)) }
{
    let Some((first, later)) = rows.split_first() else {
        return (0, 0);
    };
    let rest = first.entries().len() - left_out;
    if count < rest {
        return (0, left_out + count);
    }
    let (whole, left_out) = whole_rows(later, count - rest);
    (whole + 1, left_out)
}

/// The chunks without the first ones, and without entries of the next.
fn without<T: CopyValue>(rows: Vec<Chunk<T>>, skipped: usize, left_out: usize) -> Vec<Chunk<T>>
    requires rows { AreRows (drop skipped rows.items) }
    requires skipped { skipped ≤ length rows.items }
    requires left { IsBehind left_out (drop skipped rows.items) }
    ensures rows { AreRows result.items }
    ensures entries { joined result.items ≡ joined (behind left_out (drop skipped rows.items)) }
{
    let mut rows = rows;
    skip(&mut rows, skipped);
    if left_out > 0 {
        drop_front_of_first(&mut rows, left_out);
    }
    rows
}
