//! Exports of the calls that only read: the volume or the tree is unchanged. On an error each other result is set to 0.
ghost use Rattle.std.specs.Prelude.{◌≡◌, ◌↔◌, IfErr, slice_get};
ghost use Rattle.ffi_calls.specs.Images.{Prints};
ghost use Rattle.ffi_calls.specs.Reads.{Fills};
ghost use Rattle.ffi_calls.specs.Snapshots.{TellsName};
ghost use Rattle.reference.specs.Image.{Second, image};
ghost use Rattle.reference.specs.Tree.{Tree};
ghost use Rattle.volume.specs.Volumes.{AreNames, MeanRooted, names_in};
ghost use Rattle.doorvervain.specs.Reads.{ListsAt, ReadsAt, StatsAt};
ghost use Rattle.doorvervain.specs.Numbers.{Gives, IsNumber, IsShort, IsSizeNumber, short, sized_by, stat_reported, reported_by};

use crate::handle::{FrozenHandle, VolumeHandle};
use crate::numbers::{count, kind, sized};
use std::alloc::Global;

/// Reads a file of the live tree from the offset into the buffer, and stores the number of bytes in `got`.
#[unsafe(no_mangle)]
pub extern "C" fn doorvervain_raw_read(
    alloc: Global,
    fs: &mut VolumeHandle,
    path: &[u8],
    offset: u64,
    out: &mut [u8],
    got: &mut usize,
) -> u8
    ensures reply { ReadsAt path.now offset fs.old.volume.live (reported_by result got.new) out.old out.new }
    ensures buffer { Fills (reported_by result got.new) out.old out.new }
    ensures number { IsNumber result }
    ensures refused { IfErr (reported_by result got.new) (λ _. got.new ≡ 0) }
    ensures kept { fs.new.volume ≡ fs.old.volume }
{
    count(ffi_calls::read(alloc, fs.volume(), path, offset, out), got)
}

/// Returns the attributes of the file or directory at a path of the live tree: stores 1 for a directory or 2 for a file in
/// `kind_of`, its length in bytes in `length_of`, and its mtime in `moment_of`.
#[unsafe(no_mangle)]
pub extern "C" fn doorvervain_raw_stat(
    alloc: Global,
    fs: &mut VolumeHandle,
    path: &[u8],
    kind_of: &mut u8,
    length_of: &mut u64,
    moment_of: &mut u64,
) -> u8
    ensures reply { StatsAt path.now fs.old.volume.live (stat_reported result kind_of.new length_of.new moment_of.new) }
    ensures number { IsNumber result }
    ensures gives { Gives (stat_reported result kind_of.new length_of.new moment_of.new) kind_of.new length_of.new moment_of.new }
    ensures kept { fs.new.volume ≡ fs.old.volume }
{
    kind(
        ffi_calls::stat(alloc, fs.volume(), path),
        kind_of,
        length_of,
        moment_of,
    )
}

/// Lists a directory of the live tree: for each entry the letter `d` or `f`, its name and a zero byte. Stores the length of
/// the listing in bytes in `size`, and writes it only if the buffer is large enough for all of it. The result is that of a
/// short buffer if the capacity is smaller but not 0. Capacity 0 only requests the size.
#[unsafe(no_mangle)]
pub extern "C" fn doorvervain_raw_readdir(
    alloc: Global,
    fs: &mut VolumeHandle,
    path: &[u8],
    out: &mut [u8],
    size: &mut usize,
) -> u8
    ensures reply { ListsAt path.now fs.old.volume.live (sized_by result size.new) out.old out.new }
    ensures short { (result ≡ short) ↔ IsShort size.new out.old }
    ensures number { IsSizeNumber result }
    ensures refused { IfErr (sized_by result size.new) (λ _. size.new ≡ 0) }
    ensures untouched { IfErr (sized_by result size.new) (λ _. out.new ≡ out.old) }
    ensures kept { fs.new.volume ≡ fs.old.volume }
{
    let listed = ffi_calls::readdir(alloc, fs.volume(), path, out);
    sized(listed, out.len(), size)
}

/// Reads a file of a frozen tree from the offset into the buffer, and stores the number of bytes in `got`.
#[unsafe(no_mangle)]
pub extern "C" fn doorvervain_raw_frozen_read(
    alloc: Global,
    tree: &mut FrozenHandle,
    path: &[u8],
    offset: u64,
    out: &mut [u8],
    got: &mut usize,
) -> u8
    ensures reply { ReadsAt path.now offset tree.old.tree (reported_by result got.new) out.old out.new }
    ensures buffer { Fills (reported_by result got.new) out.old out.new }
    ensures number { IsNumber result }
    ensures refused { IfErr (reported_by result got.new) (λ _. got.new ≡ 0) }
    ensures kept { tree.new.tree ≡ tree.old.tree }
{
    count(
        ffi_calls::frozen_read(alloc, tree.tree(), path, offset, out),
        got,
    )
}

/// Returns the attributes of the file or directory at a path of a frozen tree: stores 1 for a directory or 2 for a file in
/// `kind_of`, its length in bytes in `length_of`, and its mtime in `moment_of`.
#[unsafe(no_mangle)]
pub extern "C" fn doorvervain_raw_frozen_stat(
    alloc: Global,
    tree: &mut FrozenHandle,
    path: &[u8],
    kind_of: &mut u8,
    length_of: &mut u64,
    moment_of: &mut u64,
) -> u8
    ensures reply { StatsAt path.now tree.old.tree (stat_reported result kind_of.new length_of.new moment_of.new) }
    ensures number { IsNumber result }
    ensures gives { Gives (stat_reported result kind_of.new length_of.new moment_of.new) kind_of.new length_of.new moment_of.new }
    ensures kept { tree.new.tree ≡ tree.old.tree }
{
    kind(
        ffi_calls::frozen_stat(alloc, tree.tree(), path),
        kind_of,
        length_of,
        moment_of,
    )
}

/// Lists a directory of a frozen tree: for each entry the letter `d` or `f`, its name and a zero byte. Stores the length of
/// the listing in bytes in `size`, and writes it only if the buffer is large enough for all of it. The result is that of a
/// short buffer if the capacity is smaller but not 0. Capacity 0 only requests the size.
#[unsafe(no_mangle)]
pub extern "C" fn doorvervain_raw_frozen_readdir(
    alloc: Global,
    tree: &mut FrozenHandle,
    path: &[u8],
    out: &mut [u8],
    size: &mut usize,
) -> u8
    ensures reply { ListsAt path.now tree.old.tree (sized_by result size.new) out.old out.new }
    ensures short { (result ≡ short) ↔ IsShort size.new out.old }
    ensures number { IsSizeNumber result }
    ensures refused { IfErr (sized_by result size.new) (λ _. size.new ≡ 0) }
    ensures untouched { IfErr (sized_by result size.new) (λ _. out.new ≡ out.old) }
    ensures kept { tree.new.tree ≡ tree.old.tree }
{
    let listed = ffi_calls::frozen_readdir(alloc, tree.tree(), path, out);
    sized(listed, out.len(), size)
}

/// Prints the image of a frozen tree. Stores its length in bytes in `size`, and writes it only if the buffer is large enough
/// for all of it. The result is that of a short buffer if the capacity is smaller but not 0. Capacity 0 only requests the
/// size.
#[unsafe(no_mangle)]
pub extern "C" fn doorvervain_raw_image(
    alloc: Global,
    tree: &mut FrozenHandle,
    out: &mut [u8],
    size: &mut usize,
) -> u8
    ensures image { (t : Tree) → MeanRooted tree.old.tree t → Prints (image Second t) (sized_by result size.new) out.old out.new }
    ensures short { (result ≡ short) ↔ IsShort size.new out.old }
    ensures number { IsSizeNumber result }
    ensures refused { IfErr (sized_by result size.new) (λ _. size.new ≡ 0) }
    ensures kept { tree.new.tree ≡ tree.old.tree }
{
    let printed = ffi_calls::print(alloc, tree.tree(), out);
    sized(printed, out.len(), size)
}

/// Returns the name of the snapshot with this index, counted from 0 in ascending order of names. Stores its length in bytes
/// in `size`, and writes it only if the buffer is large enough for all of it. The result is that of a short buffer if the
/// capacity is smaller but not 0. Capacity 0 only requests the size.
#[unsafe(no_mangle)]
pub extern "C" fn doorvervain_raw_snapshot_name(
    fs: &mut VolumeHandle,
    index: usize,
    out: &mut [u8],
    size: &mut usize,
) -> u8
    ensures name { TellsName (slice_get (names_in fs.old.volume.snapshots) index) (sized_by result size.new) out.old out.new }
    ensures names { AreNames fs.old.volume.snapshots (names_in fs.old.volume.snapshots) }
    ensures short { (result ≡ short) ↔ IsShort size.new out.old }
    ensures number { IsSizeNumber result }
    ensures refused { IfErr (sized_by result size.new) (λ _. size.new ≡ 0) }
    ensures kept { fs.new.volume ≡ fs.old.volume }
{
    let reported = ffi_calls::snapshot_name(fs.volume(), index, out);
    sized(reported, out.len(), size)
}
