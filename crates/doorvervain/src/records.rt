//! Exports of attribute records and of their paths. They need no volume. On an error each other result is set to 0.
ghost use Rattle.std.specs.Prelude.{◌≡◌, ◌↔◌, IfErr};
ghost use Rattle.attributes.specs.Buffers.{Parses, Prints, Writes, place_of};
ghost use Rattle.attributes.specs.Places.{record_dir, record_path};
ghost use Rattle.pathkey.specs.Texts.{parsed};
ghost use Rattle.doorvervain.specs.Numbers.{IsShort, IsSizeNumber, short, sized_by};

use crate::numbers::sized;
use attributes::RawAttributes;
use attributes::buffers::{read_record, write_record, write_record_dir, write_record_path};
use std::alloc::Global;

/// Computes the path below the reserved name that mirrors a path. Stores the length of its text in bytes in `size`, and
/// writes it only if the buffer is large enough for all of it.
#[unsafe(no_mangle)]
pub extern "C" fn doorvervain_raw_attr_dir(
    alloc: Global,
    path: &[u8],
    out: &mut [u8],
    size: &mut usize,
) -> u8
    ensures place { Writes (place_of record_dir (parsed path.now)) (sized_by result size.new) out.old out.new }
    ensures short { (result ≡ short) ↔ IsShort size.new out.old }
    ensures number { IsSizeNumber result }
    ensures refused { IfErr (sized_by result size.new) (λ _. size.new ≡ 0) }
{
    let written = write_record_dir(alloc, path, out);
    sized(written, out.len(), size)
}

/// Computes the path of a path's record. Stores the length of its text in bytes in `size`, and writes it only if the buffer
/// is large enough for all of it.
#[unsafe(no_mangle)]
pub extern "C" fn doorvervain_raw_attr_path(
    alloc: Global,
    path: &[u8],
    out: &mut [u8],
    size: &mut usize,
) -> u8
    ensures place { Writes (place_of record_path (parsed path.now)) (sized_by result size.new) out.old out.new }
    ensures short { (result ≡ short) ↔ IsShort size.new out.old }
    ensures number { IsSizeNumber result }
    ensures refused { IfErr (sized_by result size.new) (λ _. size.new ≡ 0) }
{
    let written = write_record_path(alloc, path, out);
    sized(written, out.len(), size)
}

/// Encodes a record of attributes: the fields, and the extended attributes in sequence. Stores its length in bytes in `size`,
/// and writes it only if the buffer is large enough for all of it.
#[unsafe(no_mangle)]
pub extern "C" fn doorvervain_raw_attr_encode(
    alloc: Global,
    fields: &RawAttributes,
    extended: &[u8],
    out: &mut [u8],
    size: &mut usize,
) -> u8
    ensures record { Prints fields.now extended.now (sized_by result size.new) out.old out.new }
    ensures short { (result ≡ short) ↔ IsShort size.new out.old }
    ensures number { IsSizeNumber result }
    ensures refused { IfErr (sized_by result size.new) (λ _. size.new ≡ 0) }
{
    let written = write_record(alloc, fields, extended, out);
    sized(written, out.len(), size)
}

/// Decodes a record of attributes: the fields, and the extended attributes in sequence. Stores the length of the latter in
/// bytes in `size`, and writes them only if the buffer is large enough for all of them.
#[unsafe(no_mangle)]
pub extern "C" fn doorvervain_raw_attr_decode(
    alloc: Global,
    text: &[u8],
    fields: &mut RawAttributes,
    out: &mut [u8],
    size: &mut usize,
) -> u8
    ensures reported { Parses text.now (sized_by result size.new) fields.new out.old out.new }
    ensures short { (result ≡ short) ↔ IsShort size.new out.old }
    ensures number { IsSizeNumber result }
    ensures refused { IfErr (sized_by result size.new) (λ _. size.new ≡ 0) }
{
    let written = read_record(alloc, text, fields, out);
    sized(written, out.len(), size)
}
