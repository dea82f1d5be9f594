//! Calls that only read, either the live tree of a volume or a frozen tree. A listing is written only if the whole of
//! it fits into the buffer; its length is returned in either case.
ghost use Rattle.std.specs.Prelude.{◌≡◌, ◌≤◌, ◌++◌, [], drop, length, IfErr};
ghost use Rattle.call_compiler.specs.Compiled.{stat_at as stat_of};
ghost use Rattle.meta_index.specs.Means.{lookup_answer};
ghost use Rattle.pathkey.specs.Texts.{parsed};
ghost use Rattle.reference.specs.Tree as trees;
ghost use Rattle.volume.specs.HistoryOf.{Tells};
ghost use Rattle.ffi_calls.specs.Reads.{Fills, Lists, ListsIn, OnPath, TellsIn, copied, letter_of, listing_bytes, read_reply, stat_reply};

use crate::read_into::{blocks_between, copy_blocks};
use call_compiler::Indexes;
use call_compiler::file_length::file_length;
use call_compiler::read::list;
use meta_index::{At, EntrySink};
use pathkey::{Errno, NoMemory, Path};
use reference::{Call, GREATEST_READ, Kind, Meta};
use std::alloc::Global;
use volume::{Frozen, Volume};

/// Reads a file of the live tree from the offset into the buffer, at most as many bytes as the buffer has and none past the
/// file's end. Returns how many were written. Fails with EINVAL if the buffer has more than 1,048,576 bytes.
pub fn read(
    alloc: Global,
    volume: &Volume,
    path: &[u8],
    offset: u64,
    out: &mut [u8],
) -> Result<usize, Errno>
    ensures reply { OnPath (parsed path.now) result (λ p. Tells (Call.Read p offset (length out.old)) (read_reply result out.new) volume.now.live) }
    ensures buffer { Fills result out.old out.new }
{
    let path = Path::parse(alloc, path)?;
    read_at(alloc, volume.indexes(), &path, offset, out)
}

/// Reads a file of a frozen tree, as `read` does for the live tree.
pub fn frozen_read(
    alloc: Global,
    tree: &Frozen,
    path: &[u8],
    offset: u64,
    out: &mut [u8],
) -> Result<usize, Errno>
    ensures reply { OnPath (parsed path.now) result (λ p. Tells (Call.Read p offset (length out.old)) (read_reply result out.new) tree.now) }
    ensures buffer { Fills result out.old out.new }
{
    let path = Path::parse(alloc, path)?;
    read_at(alloc, tree.indexes(), &path, offset, out)
}

/// Returns the attributes of the file or directory at a path of the live tree.
pub fn stat(alloc: Global, volume: &Volume, path: &[u8]) -> Result<Meta, Errno>
    ensures { OnPath (parsed path.now) result (λ p. Tells (Call.Stat p) (stat_reply result) volume.now.live) }
{
    let path = Path::parse(alloc, path)?;
    stat_at(alloc, volume.indexes(), &path)
}

/// Returns the attributes of the file or directory at a path of a frozen tree.
pub fn frozen_stat(alloc: Global, tree: &Frozen, path: &[u8]) -> Result<Meta, Errno>
    ensures { OnPath (parsed path.now) result (λ p. Tells (Call.Stat p) (stat_reply result) tree.now) }
{
    let path = Path::parse(alloc, path)?;
    stat_at(alloc, tree.indexes(), &path)
}

/// Lists a directory of the live tree: for each entry the letter `d` or `f`, its name and a zero byte, in byte order of
/// names. Returns the length of the listing in bytes. It is written only if the buffer is large enough for all of it, and
/// otherwise the buffer is unchanged.
pub fn readdir(alloc: Global, volume: &Volume, path: &[u8], out: &mut [u8]) -> Result<usize, Errno>
    ensures reply { OnPath (parsed path.now) result (λ p. Lists p volume.now.live result out.old out.new) }
    ensures refused { IfErr result (λ _. out.new ≡ out.old) }
{
    let path = Path::parse(alloc, path)?;
    readdir_at(alloc, volume.indexes(), &path, out)
}

/// Lists a directory of a frozen tree, as `readdir` does for the live tree.
pub fn frozen_readdir(
    alloc: Global,
    tree: &Frozen,
    path: &[u8],
    out: &mut [u8],
) -> Result<usize, Errno>
    ensures reply { OnPath (parsed path.now) result (λ p. Lists p tree.now result out.old out.new) }
    ensures refused { IfErr result (λ _. out.new ≡ out.old) }
{
    let path = Path::parse(alloc, path)?;
    readdir_at(alloc, tree.indexes(), &path, out)
}

// Reads the file at a path directly from its blocks. All of them are found first, so an error leaves the buffer unchanged.
fn read_at(
    alloc: Global,
    indexes: &Indexes,
    path: &Path,
    offset: u64,
    out: &mut [u8],
) -> Result<usize, Errno>
    ensures reply { TellsIn (Call.Read path.now offset (length out.old)) (read_reply result out.new) indexes.now }
    ensures buffer { Fills result out.old out.new }
{
    let len = file_length(alloc, indexes, path)??;
    let count = out.len() as u64;
    if count > GREATEST_READ {
        return Err(Errno::EINVAL);
    }
    // A sum that saturates is past the file's end all the same.
    let end = offset.saturating_add(count).min(len);
    if end <= offset {
        return Ok(0);
    }
    let blocks = blocks_between(alloc, &indexes.block, path, offset, end)?;
    copy_blocks(blocks.as_slice(), offset, end, out);
    Ok((end - offset) as usize)
}

// Returns the attributes of the file or directory at a path.
fn stat_at(alloc: Global, indexes: &Indexes, path: &Path) -> Result<Meta, Errno>
    ensures { TellsIn (Call.Stat path.now) (stat_reply result) indexes.now }
{
    let at = indexes.meta.find(alloc, path)?;
    meta_at(at)
}

// The attributes that a look-up found, or why there are none.
fn meta_at(at: At) -> Result<Meta, Errno>
    ensures { (here : trees.At) → at ≡ lookup_answer here → stat_reply result ≡ stat_of here }
{
    match at {
        At::Found(meta) => Ok(meta),
        At::Missing => Err(Errno::ENOENT),
        At::Blocked => Err(Errno::ENOTDIR),
    }
}

// Lists the directory at a path.
fn readdir_at(alloc: Global, indexes: &Indexes, path: &Path, out: &mut [u8]) -> Result<usize, Errno>
    ensures { ListsIn path.now indexes.now result out.old out.new }
{
    let mut listing = ListingText::new(alloc);
    list(alloc, indexes, path, &mut listing)??;
    Ok(copy_if_fits(listing.text.as_slice(), out))
}

// Copies bytes to the start of a buffer, if it is large enough for all of them. Returns their number.
pub(crate) fn copy_if_fits(bytes: &[u8], out: &mut [u8]) -> usize
    ensures size { result ≡ length bytes.now }
    ensures buffer { out.new ≡ copied bytes.now out.old }
{
    if bytes.len() <= out.len() {
        lay(bytes, out);
    }
    bytes.len()
}

// Copies bytes to the start of a buffer.
fn lay(bytes: &[u8], out: &mut [u8])
    requires { length bytes.now ≤ length out.old }
    ensures { out.new ≡ bytes.now ++ drop (length bytes.now) out.old }
{
    out[..bytes.len()].copy_from_slice(bytes);
}

// The text of a listing.
#[derive(Drop)]
struct ListingText {
    text: Vec<u8>,
}

impl ListingText {
    // The text of no entries.
    fn new(alloc: Global) -> ListingText
        ensures { result.text.items ≡ [] }
    {
        let text = Vec::new(alloc);
        ListingText { text }
    }
}

impl EntrySink for ListingText {
    ghost has = { λ l es. l.text.items ≡ listing_bytes es };

    ghost size = { λ l. length l.text.items };

    fn receive(&mut self, alloc: Global, kind: Kind, name: &[u8]) -> Result<(), NoMemory> {
        self.text.push(letter_of(kind))?;
        self.text.extend_from_slice(name)?;
        self.text.push(0)?;
        Ok(())
    }
}

// The letter of a kind.
fn letter_of(kind: Kind) -> u8
    ensures { result ≡ letter_of kind }
{
    match kind {
        Kind::Dir => b'd',
        Kind::File => b'f',
    }
}
