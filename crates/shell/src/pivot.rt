//! Keys as text.
use crate::dot_writer::DotWriter;
use pathkey::{Key, NoMemory};

/// The maximum number of bytes of a path that are shown.
const LONGEST: usize = 32;

/// The number of bytes that are shown from the beginning of a longer path.
const FRONT: usize = 12;

/// The number of bytes that are shown from its end.
const BACK: usize = 17;

/// The digits of the percent form.
const DIGITS: &[u8; 16] = b"0123456789ABCDEF";

/// Appends a key: a path, and after `#` the index of its block if the key has one.
pub fn put_key(sketch: &mut DotWriter, key: &Key) -> Result<(), NoMemory> {
    match key.as_bytes() {
        // No path has an empty name, so two zeros are adjacent only before a block's index.
        [path @ .., 0, 0, a, b, c, d] => {
            put_path(sketch, path)?;
            sketch.put(b"#")?;
            sketch.put_number(u32::from_be_bytes([*a, *b, *c, *d]) as u128)
        }
        [path @ .., 0] => put_path(sketch, path),
        bytes => put_path(sketch, bytes),
    }
}

/// Appends a path, given as its names separated by zeros. Of a long path only its beginning and its end are appended.
fn put_path(sketch: &mut DotWriter, names: &[u8]) -> Result<(), NoMemory> {
    sketch.put(b"/")?;
    if names.len() <= LONGEST {
        return put_bytes(sketch, names);
    }
    put_bytes(sketch, &names[..FRONT])?;
    sketch.put(b"...")?;
    put_bytes(sketch, &names[names.len() - BACK..])
}

/// Appends a part of a path, or a name.
pub fn put_bytes(sketch: &mut DotWriter, bytes: &[u8]) -> Result<(), NoMemory> {
    for &byte in bytes {
        put_byte(sketch, byte)?;
    }
    Ok(())
}

/// Appends a byte: a slash for the end of a name, letters, digits, `.`, `_` and `-` unchanged, and all others in percent
/// form. So nothing that is appended has a meaning to `dot`.
fn put_byte(sketch: &mut DotWriter, byte: u8) -> Result<(), NoMemory> {
    if byte == 0 {
        return sketch.put(b"/");
    }
    if byte.is_ascii_alphanumeric() || byte == b'.' || byte == b'_' || byte == b'-' {
        return sketch.put(&[byte]);
    }
    sketch.put(&[
        b'%',
        DIGITS[(byte / 16) as usize],
        DIGITS[(byte % 16) as usize],
    ])
}
