//! Loads an image line by line into a new volume: what one line does, and how a whole text and a reader are loaded.
//! `docs/FORMATS.md` has the format of images.
//!
//! A line is valid if it may follow those before it: keys rise, the parent of an entry is a directory, and blocks rise and
//! are within their file. The volume always abstracts to the tree of the lines so far. One line is buffered at a time, and
//! no block of a file outside the volume. Of the lines before, only what decides which line may follow is kept. The first
//! line has the version. In version 1 each mtime is 0.
ghost use Rattle.std.specs.Prelude.{◌≡◌, ◌≢◌, ◌↔◌, Ok, All, ◌≤◌, ◌<◌, ◌+◌, ◌^◌, ◌++◌, ◌∷◌, [], ℕ, List, Some, None, Err, false, true, length, IfSome, MatchOption, vec_capacity, IfOk, OnOk, OnErr, codes};
ghost use Rattle.std.specs.declared.cmp.Ordering.TheVariants.{Less};
ghost use Rattle.pathkey.specs.Enc.{enc};
ghost use Rattle.pathkey.specs.Order.{by_bytes};
ghost use Rattle.node.specs.Shapes.{is_shape};
ghost use Rattle.node.specs.declared.shape.Shape.{Shape as TreeShape};
ghost use Rattle.reference.specs.Plant.{modified_of};
ghost use Rattle.reference.specs.declared.reply.Meta.{Meta as MetaValue};
ghost use Rattle.volume.specs.Plants.{Plants};
ghost use Rattle.reference.specs.declared.call.Call.TheVariants.{Write};
ghost use Rattle.reference.specs.ImageLines.{IsBadAt, IsBlock, IsLine, IsReported, Line};
ghost use Rattle.reference.specs.ImageLines.{BlockLine, DirectoryLine, FileLine};
ghost use Rattle.images.specs.Image.{version_of};
ghost use Rattle.images.specs.ImageLines.{line_of};
ghost use Rattle.images.specs.Loads.{Counts, FitsAt, HasBegun, IsBadIn, IsNoRoot, Loaded, LoadsAll, LoadsEnd, LoadsLine, LoadsNext, LoadsPiece, LoadsRoot, MayNotFollow, RefusesEnd, RefusesLine, RefusesPiece, entry_line, form_of, len_of, new_form};
ghost use Rattle.images.specs.Taken.{IsFresh, LoadedIn, TakesAll};

use crate::image_line::{ImageLine, read_image_line, read_root};
use crate::loader::ImageLoader;
use crate::version::ImageVersion;
use block_index::block::BLOCK;
use bytes::Bytes;
use node::Shape;
use pathkey::{Errno, NoMemory, Path};
use reference::Meta;
use std::alloc::Global;
use std::cmp::Ordering;
use std::io::Read;
use textio::input::read_some;
use textio::line_buffer::{LONGEST_LINE, READ_SIZE, push_limited};
use textio::words::split_line;
use thiserror::Error;
use volume::Volume;

/// Why an image was not loaded.
#[derive(Debug, Drop, PartialEq, Eq, Error)]
pub enum LoadFault {
    /// The shape is invalid. Nothing was read.
    #[error("betr: bad shape")]
    Shape,
    /// An allocation failed.
    #[error("betr: no memory")]
    Memory,
    /// The reader failed.
    #[error("betr: read failed")]
    Read,
    /// The text is not an image from the line with this number on, counted from 1.
    #[error("betr: bad image at line {0}")]
    Bad(u64),
}

/// Loads the image that the reader gives, and returns a volume with its tree, in trees of this shape, without snapshots and
/// marks. Fails with `Shape` if the shape is invalid, with `Memory` if an allocation fails, with `Read` if a read fails, and
/// with `Bad` if the text is not an image: this has the number of the first bad line. If a read fails, no line that was read
/// before was bad.
pub fn load_image<R: Read>(alloc: Global, shape: Shape, reader: &mut R) -> Result<Volume, LoadFault>
    ensures loaded { IfOk result (LoadsAll (R.remaining reader.old) (R.remaining reader.new)) }
    ensures form { IfOk result (λ v. form_of v ≡ new_form shape) }
    ensures bad { (n : ℕ) → result ≡ Err (LoadFault.Bad n) → IsBadIn (R.remaining reader.old) n }
    ensures shape { (result ≡ Err LoadFault.Shape) ↔ (is_shape shape ≡ false) }
    ensures read { result ≡ Err LoadFault.Read → HasBegun (R.remaining reader.old) (R.remaining reader.new) }
{
    match ImageLoader::new(alloc, shape) {
        Ok(loader) => load_pieces(alloc, loader, reader),
        Err(fault) => Err(fault),
    }
}

/// Loads the image that the text is, as `load_image` does. Nothing is read, so it never fails with `Read`, and no line is
/// copied except one without an end.
pub fn load_text(alloc: Global, shape: Shape, text: &[u8]) -> Result<Volume, LoadFault>
    ensures loaded { IfOk result (Loaded text.now) }
    ensures form { IfOk result (λ v. form_of v ≡ new_form shape) }
    ensures bad { (n : ℕ) → result ≡ Err (LoadFault.Bad n) → IsBadAt n text.now }
    ensures shape { (result ≡ Err LoadFault.Shape) ↔ (is_shape shape ≡ false) }
    ensures read { result ≢ Err LoadFault.Read }
{
    match ImageLoader::new(alloc, shape) {
        Ok(loader) => load_whole(alloc, loader, text),
        Err(fault) => Err(fault),
    }
}

/// Loads a text with a new loader.
fn load_whole(alloc: Global, mut loader: ImageLoader, text: &[u8]) -> Result<Volume, LoadFault>
    ensures loaded { (s : TreeShape) → IsFresh s loader → IfOk result (LoadedIn s text.now) }
    ensures bad { (s : TreeShape) (n : ℕ) → IsFresh s loader → result ≡ Err (LoadFault.Bad n) → IsBadAt n text.now }
    ensures shape { result ≢ Err LoadFault.Shape }
    ensures read { result ≢ Err LoadFault.Read }
{
    if let Err(fault) = loader.feed(alloc, text) {
        // Dropped by a call, so that the proof costs less.
        drop(loader);
        return Err(fault);
    }
    loader.end()
}

/// Loads what a reader gives with a new loader.
fn load_pieces<R: Read>(
    alloc: Global,
    mut loader: ImageLoader,
    reader: &mut R,
) -> Result<Volume, LoadFault>
    ensures loaded { (s : TreeShape) → IsFresh s loader → IfOk result (λ v. LoadsAll (R.remaining reader.old) (R.remaining reader.new) v × (form_of v ≡ new_form s)) }
    ensures bad { (s : TreeShape) (n : ℕ) → IsFresh s loader → result ≡ Err (LoadFault.Bad n) → IsBadIn (R.remaining reader.old) n }
    ensures shape { result ≢ Err LoadFault.Shape }
    ensures read { (s : TreeShape) → IsFresh s loader → result ≡ Err LoadFault.Read → HasBegun (R.remaining reader.old) (R.remaining reader.new) }
{
    // What is not returned is dropped by calls, so that the proof costs less.
    let Ok(mut piece) = Vec::from_elem(alloc, 0u8, READ_SIZE) else {
        drop(loader);
        return Err(LoadFault::Memory);
    };
    if let Err(fault) = take_all(alloc, &mut loader, reader, piece.as_mut_slice()) {
        drop(loader);
        drop(piece);
        return Err(fault);
    }
    drop(piece);
    loader.end()
}

/// Reads piece after piece into the given buffer and feeds them to the loader, until the end of the reader.
fn take_all<R: Read>(
    alloc: Global,
    loader: &mut ImageLoader,
    reader: &mut R,
    piece: &mut [u8],
) -> Result<(), LoadFault>
    requires { 0 < length piece.old }
    ensures ok { (s : TreeShape) → IsFresh s loader.old → OnOk result (TakesAll s (R.remaining reader.old) (R.remaining reader.new) loader.new) }
    ensures bad { (s : TreeShape) (n : ℕ) → IsFresh s loader.old → result ≡ Err (LoadFault.Bad n) → IsBadIn (R.remaining reader.old) n }
    ensures shape { result ≢ Err LoadFault.Shape }
    ensures read { (s : TreeShape) → IsFresh s loader.old → result ≡ Err LoadFault.Read → HasBegun (R.remaining reader.old) (R.remaining reader.new) }
{
    // No input has more pieces than this.
    for _ in 0..u64::MAX {
        let Ok(n) = read_some(reader, piece) else {
            return Err(LoadFault::Read);
        };
        if n == 0 {
            return Ok(());
        }
        if let Err(fault) = loader.feed(alloc, &piece[..n]) {
            return Err(fault);
        }
    }
    Err(LoadFault::Read)
}

/// A volume that is loaded line by line, and what decides which line may follow.
#[derive(Drop)]
pub struct LoadState {
    /// The tree of the lines so far.
    pub volume: Volume,
    /// The version of the image, once its first line was loaded.
    pub version: ImageVersion,
    /// The number of lines that were loaded.
    pub lines: u64,
    /// The path of the last entry.
    pub last: Path,
    /// The mtime of the last entry.
    pub modified: u64,
    /// The length of the last entry in bytes, if it is a file.
    pub len: Option<u64>,
    /// The least index of a block that the next line may have.
    pub next: u64,
}

impl LoadState {
    /// Starts to load into a new volume.
    pub fn new(alloc: Global, volume: Volume) -> LoadState
        ensures volume { result.volume ≡ volume }
        ensures nothing { (result.lines ≡ 0) × (result.last ≡ []) × (result.modified ≡ 0) × (result.len ≡ None) × (result.next ≡ 0) }
    {
        LoadState {
            volume,
            version: ImageVersion::Second,
            lines: 0,
            last: Path::root(alloc),
            modified: 0,
            len: None,
            next: 0,
        }
    }

    /// Loads each line that ends in a piece of the text, and holds what follows the last of them.
    pub(crate) fn take_piece(
        &mut self,
        alloc: Global,
        held: &mut Vec<u8>,
        piece: &[u8],
    ) -> Result<(), LoadFault>
        requires room { 65536 < vec_capacity held.old }
        ensures room { 65536 < vec_capacity held.new }
        ensures ok { OnOk result (LoadsPiece held.old.items piece.now held.new.items self.old self.new) }
        ensures form { OnOk result (form_of self.new.volume ≡ form_of self.old.volume) }
        ensures bad { (n : ℕ) → result ≡ Err (LoadFault.Bad n) → RefusesPiece held.old.items piece.now n self.old }
        ensures shape { result ≢ Err LoadFault.Shape }
        ensures read { result ≢ Err LoadFault.Read }
    {
        let mut rest = piece;
        while let Some((end, after)) = split_line(rest) {
            if let Err(fault) = self.end_line(alloc, held, end) {
                return Err(fault);
            }
            rest = after;
        }
        push_limited(held, rest);
        Ok(())
    }

    /// Loads the line that begins with what is held and ends with `end`. The line is only copied if something is held.
    fn end_line(&mut self, alloc: Global, held: &mut Vec<u8>, end: &[u8]) -> Result<(), LoadFault>
        requires room { 65536 < vec_capacity held.old }
        requires free { All (λ b. b ≢ 10) end.now }
        ensures room { 65536 < vec_capacity held.new }
        ensures ok { OnOk result (LoadsPiece held.old.items (end.now ++ 10 ∷ []) held.new.items self.old self.new) }
        ensures form { OnOk result (form_of self.new.volume ≡ form_of self.old.volume) }
        ensures bad { (n : ℕ) → result ≡ Err (LoadFault.Bad n) → RefusesPiece held.old.items (end.now ++ 10 ∷ []) n self.old }
        ensures shape { result ≢ Err LoadFault.Shape }
        ensures read { result ≢ Err LoadFault.Read }
    {
        let number = self.next_number()?;
        if held.is_empty() {
            return self.take_line(alloc, end, number);
        }
        push_limited(held, end);
        if let Err(fault) = self.take_line(alloc, held.as_slice(), number) {
            return Err(fault);
        }
        held.clear();
        Ok(())
    }

    /// Ends the image. Fails with `Bad` if a line without a line feed is left, or if there was no line at all.
    pub(crate) fn end(&self, held: &[u8]) -> Result<(), LoadFault>
        ensures ok { OnOk result (LoadsEnd held.now self.now) }
        ensures bad { (n : ℕ) → result ≡ Err (LoadFault.Bad n) → RefusesEnd held.now n self.now }
        ensures shape { result ≢ Err LoadFault.Shape }
        ensures read { result ≢ Err LoadFault.Read }
        ensures memory { result ≡ Err LoadFault.Memory → 2 ^ 64 ≤ self.now.lines + 1 }
    {
        let number = self.next_number()?;
        if !held.is_empty() {
            return Err(LoadFault::Bad(number));
        }
        if self.lines == 0 {
            return Err(LoadFault::Bad(number));
        }
        Ok(())
    }

    /// The number of the next line. No image has so many lines that the number overflows.
    fn next_number(&self) -> Result<u64, LoadFault>
        ensures ok { IfOk result (λ n. n ≡ self.now.lines + 1) }
        ensures err { OnErr result (result ≡ Err LoadFault.Memory) }
        ensures many { OnErr result (2 ^ 64 ≤ self.now.lines + 1) }
    {
        match self.lines.checked_add(1) {
            Some(number) => Ok(number),
            None => Err(LoadFault::Memory),
        }
    }

    /// Loads the line with this number, without its line feed.
    pub fn take_line(&mut self, alloc: Global, line: &[u8], number: u64) -> Result<(), LoadFault>
        requires { number ≡ self.old.lines + 1 }
        ensures ok { OnOk result (LoadsLine line.now self.old self.new) }
        ensures short { OnOk result (length line.now ≤ 65536) }
        ensures form { OnOk result (form_of self.new.volume ≡ form_of self.old.volume) }
        ensures bad { (n : ℕ) → result ≡ Err (LoadFault.Bad n) → (n ≡ number) × RefusesLine line.now self.old }
        ensures shape { result ≢ Err LoadFault.Shape }
        ensures read { result ≢ Err LoadFault.Read }
        ensures long { 65536 < length line.now → result ≡ Err (LoadFault.Bad number) }
        ensures root { self.old.lines ≡ 0 → IsNoRoot line.now → result ≡ Err (LoadFault.Bad number) }
    {
        if line.len() > LONGEST_LINE {
            return Err(LoadFault::Bad(number));
        }
        if self.lines == 0 {
            return self.take_root(alloc, line, number);
        }
        match read_image_line(alloc, self.version, line) {
            Ok(read) => self.take_read(alloc, read, number),
            Err(NoMemory) => Err(LoadFault::Memory),
        }
    }

    /// Loads a parsed line after the root's. Fails with `Bad` if the text was not a line.
    fn take_read(
        &mut self,
        alloc: Global,
        reported: Option<ImageLine>,
        number: u64,
    ) -> Result<(), LoadFault>
        requires line { IfSome reported (λ l. IsLine (version_of self.old.version) (line_of l)) }
        requires number { number ≡ self.old.lines + 1 }
        ensures ok { OnOk result (MatchOption reported ⊥ (λ l. LoadsNext (line_of l) self.old self.new)) }
        ensures form { OnOk result (form_of self.new.volume ≡ form_of self.old.volume) }
        ensures bad { (n : ℕ) → result ≡ Err (LoadFault.Bad n) → (n ≡ number) × IfSome reported (λ l. MayNotFollow (line_of l) self.old) }
        ensures none { reported ≡ None → result ≡ Err (LoadFault.Bad number) }
        ensures shape { result ≢ Err LoadFault.Shape }
        ensures read { result ≢ Err LoadFault.Read }
    {
        match reported {
            Some(line) => self.take_next(alloc, line, number),
            None => Err(LoadFault::Bad(number)),
        }
    }

    /// Loads the first line, which is the root's and has the version.
    fn take_root(&mut self, alloc: Global, line: &[u8], number: u64) -> Result<(), LoadFault>
        requires { number ≡ self.old.lines + 1 }
        ensures ok { OnOk result (LoadsRoot line.now self.old self.new) }
        ensures form { OnOk result (form_of self.new.volume ≡ form_of self.old.volume) }
        ensures bad { (n : ℕ) → result ≡ Err (LoadFault.Bad n) → (n ≡ number) × IsNoRoot line.now }
        ensures root { IsNoRoot line.now → result ≡ Err (LoadFault.Bad number) }
        ensures shape { result ≢ Err LoadFault.Shape }
        ensures read { result ≢ Err LoadFault.Read }
    {
        let Some((version, modified)) = read_root(line) else {
            return Err(LoadFault::Bad(number));
        };
        if !plant_root(alloc, &mut self.volume, modified) {
            return Err(LoadFault::Memory);
        }
        self.version = version;
        self.modified = modified;
        self.lines = number;
        Ok(())
    }

    /// Loads a line after the root's.
    fn take_next(&mut self, alloc: Global, line: ImageLine, number: u64) -> Result<(), LoadFault>
        requires line { IsLine (version_of self.old.version) (line_of line) }
        requires number { number ≡ self.old.lines + 1 }
        ensures ok { OnOk result (LoadsNext (line_of line) self.old self.new) }
        ensures form { OnOk result (form_of self.new.volume ≡ form_of self.old.volume) }
        ensures bad { (n : ℕ) → result ≡ Err (LoadFault.Bad n) → (n ≡ number) × MayNotFollow (line_of line) self.old }
        ensures shape { result ≢ Err LoadFault.Shape }
        ensures read { result ≢ Err LoadFault.Read }
    {
        match line {
            ImageLine::Directory(path, modified) => {
                self.take_entry(alloc, path, Meta::Dir { modified }, number)
            }
            ImageLine::File(path, len, modified) => {
                self.take_entry(alloc, path, Meta::File { len, modified }, number)
            }
            ImageLine::Block(index, bytes) => self.take_block(alloc, index, bytes, number),
        }
    }

    /// Loads the line of an entry.
    fn take_entry(
        &mut self,
        alloc: Global,
        path: Path,
        meta: Meta,
        number: u64,
    ) -> Result<(), LoadFault>
        requires number { number ≡ self.old.lines + 1 }
        requires path { path ≢ [] }
        requires reported { IsReported (version_of self.old.version) (modified_of meta) }
        ensures ok { OnOk result (LoadsNext (entry_line path meta) self.old self.new) }
        ensures form { OnOk result (form_of self.new.volume ≡ form_of self.old.volume) }
        ensures bad { (n : ℕ) → result ≡ Err (LoadFault.Bad n) → (n ≡ number) × MayNotFollow (entry_line path meta) self.old }
        ensures order { by_bytes (enc self.old.last) (enc path) ≢ Less → result ≡ Err (LoadFault.Bad number) }
        ensures shape { result ≢ Err LoadFault.Shape }
        ensures read { result ≢ Err LoadFault.Read }
    {
        if self.last.key().cmp(path.key()) != Ordering::Less {
            // Dropped by a call, so that the proof costs less.
            drop(path);
            return Err(LoadFault::Bad(number));
        }
        if let Err(fault) = self.volume.plant_entry(alloc, &path, meta) {
            let refused = entry_fault(fault, number);
            // Dropped by a call, so that the proof costs less.
            drop(path);
            return Err(refused);
        }
        self.len = len_of(meta);
        self.last = path;
        self.modified = moment_of(meta);
        self.next = 0;
        self.lines = number;
        Ok(())
    }

    /// Loads the line of a block.
    fn take_block(
        &mut self,
        alloc: Global,
        index: u32,
        bytes: Bytes,
        number: u64,
    ) -> Result<(), LoadFault>
        requires block { IsBlock bytes }
        requires number { number ≡ self.old.lines + 1 }
        ensures ok { OnOk result (LoadsNext (BlockLine index bytes) self.old self.new) }
        ensures form { OnOk result (form_of self.new.volume ≡ form_of self.old.volume) }
        ensures bad { (n : ℕ) → result ≡ Err (LoadFault.Bad n) → (n ≡ number) × MayNotFollow (BlockLine index bytes) self.old }
        ensures place { ((offset : ℕ) → ¬ (FitsAt index (length bytes) self.old offset)) → result ≡ Err (LoadFault.Bad number) }
        ensures shape { result ≢ Err LoadFault.Shape }
        ensures read { result ≢ Err LoadFault.Read }
    {
        let Some(offset) = self.offset_of(index, bytes.len() as u64) else {
            return Err(LoadFault::Bad(number));
        };
        if !write_bytes(
            alloc,
            &mut self.volume,
            &self.last,
            offset,
            bytes,
            self.modified,
        ) {
            return Err(LoadFault::Memory);
        }
        self.next = u64::from(index) + 1;
        self.lines = number;
        Ok(())
    }

    /// The offset in the last file of a block with this index and of `len` bytes, or `None` if it may not follow.
    fn offset_of(&self, index: u32, len: u64) -> Option<u64>
        requires { len ≤ 4096 }
        ensures fits { IfSome result (FitsAt index len self.now) }
        ensures none { result ≡ None → (b : List ℕ) → length b ≡ len → MayNotFollow (BlockLine index b) self.now }
    {
        let Some(file) = self.len else {
            return None;
        };
        let index = u64::from(index);
        if index < self.next {
            return None;
        }
        let offset = BLOCK * index;
        let end = offset + len;
        if file < end {
            return None;
        }
        Some(offset)
    }
}

/// Sets the mtime of the volume's root. Returns `false` if an allocation fails.
fn plant_root(alloc: Global, volume: &mut Volume, modified: u64) -> bool
    ensures { result ≡ true → Plants [] (MetaValue.Dir modified) (Ok tt) volume.old volume.new }
{
    let planted = volume.plant_entry(alloc, &Path::root(alloc), Meta::Dir { modified });
    planted.is_ok()
}

/// Writes bytes to a file of the volume, with the file's mtime as the timestamp. Returns `false` if an allocation fails.
fn write_bytes(
    alloc: Global,
    volume: &mut Volume,
    path: &Path,
    offset: u64,
    bytes: Bytes,
    at: u64,
) -> bool
    ensures { result ≡ true → Counts (Write path.now offset bytes) at volume.old volume.new }
{
    let counted = volume.write_shared(alloc, path, offset, &bytes, at);
    // Dropped by a call, so that the proof costs less.
    drop(bytes);
    // A write to a file that is long enough fails only if an allocation fails.
    counted.is_ok()
}

/// The error of a load for an entry that could not be planted.
fn entry_fault(fault: Errno, number: u64) -> LoadFault
    ensures memory { (result ≡ LoadFault.Memory) ↔ (fault ≡ Errno.ENOMEM) }
    ensures bad { (n : ℕ) → result ≡ LoadFault.Bad n → (n ≡ number) × (fault ≢ Errno.ENOMEM) }
    ensures shape { result ≢ LoadFault.Shape }
    ensures read { result ≢ LoadFault.Read }
{
    if fault == Errno::ENOMEM {
        LoadFault::Memory
    } else {
        LoadFault::Bad(number)
    }
}

/// The length of a file in bytes, or `None` for a directory.
fn len_of(meta: Meta) -> Option<u64>
    ensures { result ≡ len_of meta }
{
    match meta {
        Meta::Dir { modified: _ } => None,
        Meta::File { len, modified: _ } => Some(len),
    }
}

/// The mtime of an entry.
fn moment_of(meta: Meta) -> u64
    ensures { result ≡ modified_of meta }
{
    match meta {
        Meta::Dir { modified } => modified,
        Meta::File { len: _, modified } => modified,
    }
}
