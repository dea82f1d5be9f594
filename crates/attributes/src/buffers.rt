//! The C form of this crate: records and their paths are written to buffers of the caller, and
//! attributes are plain fields.
//!
//! A buffer is written only if the whole text fits; the result is the length of the text in either
//! case, so a caller learns how much it needs.
ghost use Rattle.std.specs.Prelude.{◌≡◌, ◌≤◌, ◌++◌, drop, length};
ghost use Rattle.pathkey.specs.Texts.{parsed};
ghost use Rattle.attributes.specs.Buffers.{Parses, Prints, Writes, laid, place_of};
ghost use Rattle.attributes.specs.Places.{record_dir, record_path};

use crate::printing::print;
use crate::raw_attributes::RawAttributes;
use crate::reading::parse;
use crate::record::Attributes;
use crate::record_paths::{self, text_of};
use crate::xattr_codec::{decode_xattrs, encode_xattrs};
use pathkey::{Errno, Path};
use std::alloc::Global;

/// Writes the text of a path's record directory to the front of the buffer if it fits, and returns its length.
pub fn write_record_dir(alloc: Global, path: &[u8], out: &mut [u8]) -> Result<usize, Errno>
    ensures { Writes (place_of record_dir (parsed path.now)) result out.old out.new }
{
    let path = Path::parse(alloc, path)?;
    let place = record_paths::record_dir(alloc, &path)?;
    write_path(alloc, &place, out)
}

/// Writes the text of the path of a path's record to the front of the buffer if it fits, and
/// returns its length.
pub fn write_record_path(alloc: Global, path: &[u8], out: &mut [u8]) -> Result<usize, Errno>
    ensures { Writes (place_of record_path (parsed path.now)) result out.old out.new }
{
    let path = Path::parse(alloc, path)?;
    let place = record_paths::record_path(alloc, &path)?;
    write_path(alloc, &place, out)
}

// Writes the text of a path to the front of the buffer if it fits, and returns its length.
fn write_path(alloc: Global, path: &Path, out: &mut [u8]) -> Result<usize, Errno>
    ensures { Writes (Ok path.now) result out.old out.new }
{
    let text = text_of(alloc, path)?;
    Ok(copy_out(text.as_slice(), out))
}

// Copies the bytes to the front of the buffer if they fit, and returns how many they are.
fn copy_out(bytes: &[u8], out: &mut [u8]) -> usize
    ensures count { result ≡ length bytes.now }
    ensures buffer { out.new ≡ laid bytes.now out.old }
{
    if bytes.len() <= out.len() {
        out[..bytes.len()].copy_from_slice(bytes);
    }
    bytes.len()
}

/// Writes the record of the given fields and packed extended attributes to the front of the buffer if it fits, and returns its length.
/// Fails with `EINVAL` if the attributes are not valid, and with `ENOMEM` if an allocation fails.
pub fn write_record(
    alloc: Global,
    fields: &RawAttributes,
    extended: &[u8],
    out: &mut [u8],
) -> Result<usize, Errno>
    ensures { Prints fields.now extended.now result out.old out.new }
{
    let Some(basic) = fields.basic() else {
        return Err(Errno::EINVAL);
    };
    let extended = decode_xattrs(alloc, extended)?;
    let attributes = Attributes { basic, extended };
    let text = print(alloc, &attributes)?;
    Ok(copy_out(text.as_slice(), out))
}

/// Reads a record into the fields, and its packed extended attributes into the front of the buffer if they fit. Returns the length of
/// the packed attributes. Fails with `EINVAL` if the text is not a record, and with `ENOMEM` if an allocation fails; then all fields
/// are 0.
pub fn read_record(
    alloc: Global,
    text: &[u8],
    fields: &mut RawAttributes,
    out: &mut [u8],
) -> Result<usize, Errno>
    ensures { Parses text.now result fields.new out.old out.new }
{
    *fields = RawAttributes::none();
    let attributes = parse(alloc, text)?;
    let packed = encode_xattrs(alloc, &attributes.extended)?;
    *fields = RawAttributes::of(&attributes.basic);
    Ok(copy_out(packed.as_slice(), out))
}
