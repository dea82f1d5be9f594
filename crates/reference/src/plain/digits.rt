//! Numbers and bytes as text.
ghost use Rattle.std.specs.Prelude.{◌≡◌, ◌++◌, OnOk, decimal, flat_map};
ghost use Rattle.reference.specs.Image.{two_digits, percent};

use crate::digits::{escape, lower_digits};
use pathkey::NoMemory;
use std::alloc::Global;

/// A byte of a name, percent-encoded if it must be.
fn put_percent(out: &mut Vec<u8>, byte: u8) -> Result<(), NoMemory>
    ensures { OnOk result (out.new.items ≡ out.old.items ++ percent byte) }
{
    match escape(byte) {
        Some(form) => out.extend_from_slice(&form)?,
        None => out.push(byte)?,
    }
    Ok(())
}

/// A name, byte by byte.
pub fn put_name(out: &mut Vec<u8>, name: &[u8]) -> Result<(), NoMemory>
    ensures { OnOk result (out.new.items ≡ out.old.items ++ flat_map percent name.now) }
{
    for byte in name {
        put_percent(out, *byte)?;
    }
    Ok(())
}

/// Bytes in lower-case hexadecimal digits.
pub fn put_bytes(out: &mut Vec<u8>, bytes: &[u8]) -> Result<(), NoMemory>
    ensures { OnOk result (out.new.items ≡ out.old.items ++ flat_map (two_digits 87) bytes.now) }
{
    for byte in bytes {
        out.extend_from_slice(&lower_digits(*byte))?;
    }
    Ok(())
}

/// A number in decimal digits.
pub fn put_number(alloc: Global, out: &mut Vec<u8>, number: u64) -> Result<(), NoMemory>
    ensures { OnOk result (out.new.items ≡ out.old.items ++ decimal number) }
{
    let text = format!(in alloc; "{number}")?;
    out.extend_from_slice(text.as_bytes())?;
    Ok(())
}
