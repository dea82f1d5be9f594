//! Passes over the map, key by key, that count or copy messages.
//!
//! Invariant: the oldest messages come first, and only those of the first key may be consumed in part.
ghost use Rattle.std.specs.Prelude.{◌≡◌, ◌+◌, ◌<◌, ◌≤◌, ◌^◌, ◌++◌, length, take, drop, OnOk};
ghost use Rattle.point_ops.specs.PointOps.{left, point_count, point_msgs, AreRuns, IsLeft};

use crate::key_ops::KeyOps;
use cow_map::CowMap;
use message::{Msg, Update};
use pathkey::NoMemory;
use std::alloc::Global;

/// How many messages there are.
pub(crate) fn count_of<U: Update>(rows: &CowMap<KeyOps<U>>) -> usize
    requires { point_count rows.now < 2 ^ 63 }
    ensures { result ≡ point_count rows.now }
{
    let mut count = 0;
    let mut walk = rows.cursor();
    while let Some((_, run)) = walk.next() {
        count += run.len();
    }
    count
}

/// How many of the first keys have all their messages among the `count` oldest, and how many of these `count` belong to the
/// next key.
pub(crate) fn whole_keys<U: Update>(rows: &CowMap<KeyOps<U>>, count: usize) -> (usize, usize)
    requires { count ≤ point_count rows.now }
    ensures keys { result.0 ≤ length rows.now }
    ensures counted { point_count (take result.0 rows.now) + result.1 ≡ count }
    ensures left { IsLeft result.1 (drop result.0 rows.now) }
{
    let mut keys = 0;
    let mut left = count;
    let mut walk = rows.cursor();
    while let Some((_, run)) = walk.next() {
        let len = run.len();
        if left < len {
            return (keys, left);
        }
        left -= len;
        keys += 1;
    }
    (keys, left)
}

/// Appends copies of the messages, without the `consumed` oldest of the first key, to `front` until it holds `count` messages.
pub(crate) fn copy_msgs<U: Update>(
    rows: &CowMap<KeyOps<U>>,
    alloc: Global,
    consumed: usize,
    count: usize,
    front: &mut Vec<Msg<U>>,
) -> Result<(), NoMemory>
    requires runs { AreRuns rows.now }
    requires left { IsLeft consumed rows.now }
    ensures { OnOk result (take count front.new.items ≡ take count (front.old.items ++ point_msgs (left consumed rows.now))) }
{
    let mut consumed = consumed;
    let mut walk = rows.cursor();
    while let Some((key, run)) = walk.next() {
        if front.len() >= count {
            return Ok(());
        }
        run.copy_into(alloc, key, consumed, count, front)?;
        consumed = 0;
    }
    Ok(())
}
