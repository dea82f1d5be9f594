//! Writes numbers, and bytes in hexadecimal and in percent form. `docs/FORMATS.md` defines these forms.
ghost use Rattle.std.specs.Prelude.{◌≡◌, ◌*◌, ◌≤◌, ◌<◌, ◌↔◌, All, MatchOption, OnOk, OnErr, decimal, flat_map, length, slice_index, take, true};
ghost use Rattle.std.specs.Io.KnownBytes.{Appends};
ghost use Rattle.reference.specs.Image.{path_text, percent, trimmed, two_digits};
ghost use Rattle.textio.specs.Parts.{AppendsPart};
ghost use Rattle.textio.specs.Texts.{IsPlain, hex_text, number_line};

use crate::output::{WriteFailed, put};
use crate::short_line::{append, append_number};
use arrayvec::ArrayVec;
use itoa::Buffer;
use pathkey::Path;
use reference::digits::{escape, lower_digits};
use std::io::Write;

/// The number of bytes whose digits are written at once.
const AT_ONCE: usize = 512;

/// Writes a line of a short word and a number, or a beginning of it.
pub fn put_number_line<W: Write>(writer: &mut W, word: &[u8], n: u64) -> Result<(), WriteFailed>
    requires { length word.now ≤ 40 }
    ensures ok { OnOk result (Appends (W.contents writer.old) (W.contents writer.new) (number_line word.now n)) }
    ensures err { OnErr result (AppendsPart (W.contents writer.old) (W.contents writer.new) (number_line word.now n)) }
{
    let mut line = ArrayVec::new();
    append(&mut line, word);
    append_number(&mut line, n);
    line.push(b'\n');
    put(writer, line.as_slice())
}

/// Writes a number in decimal, or a beginning of it.
pub fn put_number<W: Write>(writer: &mut W, n: u64) -> Result<(), WriteFailed>
    ensures ok { OnOk result (Appends (W.contents writer.old) (W.contents writer.new) (decimal n)) }
    ensures err { OnErr result (AppendsPart (W.contents writer.old) (W.contents writer.new) (decimal n)) }
{
    let mut digits = Buffer::new();
    put(writer, digits.format(n).as_bytes())
}

/// Writes bytes in hexadecimal, or a beginning of it.
pub fn put_hex<W: Write>(writer: &mut W, bytes: &[u8]) -> Result<(), WriteFailed>
    ensures ok { OnOk result (Appends (W.contents writer.old) (W.contents writer.new) (hex_text bytes.now)) }
    ensures err { OnErr result (AppendsPart (W.contents writer.old) (W.contents writer.new) (hex_text bytes.now)) }
{
    if bytes.is_empty() {
        return put(writer, b"-");
    }
    put_digits(writer, bytes)
}

/// Writes two digits for each byte, or a beginning of them.
fn put_digits<W: Write>(writer: &mut W, bytes: &[u8]) -> Result<(), WriteFailed>
    ensures ok { OnOk result (Appends (W.contents writer.old) (W.contents writer.new) (flat_map (two_digits 87) bytes.now)) }
    ensures err { OnErr result (AppendsPart (W.contents writer.old) (W.contents writer.new) (flat_map (two_digits 87) bytes.now)) }
{
    let mut rest = bytes;
    // No slice has more bytes.
    for _ in 0..u64::MAX {
        if rest.is_empty() {
            return Ok(());
        }
        let (piece, behind) = rest.split_at(rest.len().min(AT_ONCE));
        put_piece(writer, piece)?;
        rest = behind;
    }
    Err(WriteFailed)
}

/// Writes the digits of a few bytes at once.
fn put_piece<W: Write>(writer: &mut W, bytes: &[u8]) -> Result<(), WriteFailed>
    requires { length bytes.now ≤ 512 }
    ensures ok { OnOk result (Appends (W.contents writer.old) (W.contents writer.new) (flat_map (two_digits 87) bytes.now)) }
    ensures err { OnErr result (AppendsPart (W.contents writer.old) (W.contents writer.new) (flat_map (two_digits 87) bytes.now)) }
{
    let mut room = [0u8; 2 * AT_ONCE];
    let digits = &mut room[..2 * bytes.len()];
    lay_digits(bytes, digits);
    put(writer, digits)
}

/// Writes the two digits of each byte into a buffer that is large enough.
fn lay_digits(bytes: &[u8], digits: &mut [u8])
    requires { length digits.old ≡ 2 * length bytes.now }
    ensures { digits.new ≡ flat_map (two_digits 87) bytes.now }
{
    for number in 0..bytes.len() {
        let [high, low] = lower_digits(bytes[number]);
        digits[2 * number] = high;
        digits[2 * number + 1] = low;
    }
}

/// Writes a name in percent form, or a beginning of it.
pub fn put_percent<W: Write>(writer: &mut W, name: &[u8]) -> Result<(), WriteFailed>
    ensures ok { OnOk result (Appends (W.contents writer.old) (W.contents writer.new) (flat_map percent name.now)) }
    ensures err { OnErr result (AppendsPart (W.contents writer.old) (W.contents writer.new) (flat_map percent name.now)) }
{
    let mut rest = name;
    // No name has more bytes.
    for _ in 0..u64::MAX {
        let (plain, behind) = rest.split_at(plain_len(rest));
        put(writer, plain)?;
        let Some((byte, after)) = behind.split_first() else {
            return Ok(());
        };
        put_percent_byte(writer, *byte)?;
        rest = after;
    }
    Err(WriteFailed)
}

/// Writes a slash and a name in percent form for each name of a path, or a beginning of that; nothing for the root.
pub fn put_path<W: Write>(writer: &mut W, path: &Path) -> Result<(), WriteFailed>
    ensures ok { OnOk result (Appends (W.contents writer.old) (W.contents writer.new) (path_text path.now)) }
    ensures err { OnErr result (AppendsPart (W.contents writer.old) (W.contents writer.new) (path_text path.now)) }
{
    let mut left = path.names();
    'names: while let Some((name, rest)) = left.split_first() {
        put(writer, b"/")?;
        put_percent(writer, name)?;
        left = rest;
    }
    Ok(())
}

/// Whether the percent form of the name is the name itself, since no byte is escaped.
pub fn is_plain(name: &[u8]) -> bool
    ensures { (result ≡ true) ↔ All IsPlain name.now }
{
    first_escaped(name).is_none()
}

// The number of bytes before the first that is escaped.
fn plain_len(bytes: &[u8]) -> usize
    ensures bound { result ≤ length bytes.now }
    ensures plain { All IsPlain (take result bytes.now) }
{
    first_escaped(bytes).unwrap_or(bytes.len())
}

// The index of the first byte that is escaped in percent form.
fn first_escaped(bytes: &[u8]) -> Option<usize>
    ensures { MatchOption result (All IsPlain bytes.now)
        (λ i. (i < length bytes.now) × ¬ (IsPlain (slice_index bytes.now i)) × All IsPlain (take i bytes.now)) }
{
    bytes.iter().position(|byte| escape(*byte).is_some())
}

// Writes a byte in percent form, or a beginning of it.
fn put_percent_byte<W: Write>(writer: &mut W, byte: u8) -> Result<(), WriteFailed>
    ensures ok { OnOk result (Appends (W.contents writer.old) (W.contents writer.new) (percent byte)) }
    ensures err { OnErr result (AppendsPart (W.contents writer.old) (W.contents writer.new) (percent byte)) }
{
    match escape(byte) {
        Some(form) => put(writer, &form),
        None => put(writer, &[byte]),
    }
}

/// The length of the bytes up to the last that is not zero.
pub fn trimmed_len(bytes: &[u8]) -> usize
    ensures kept { take result bytes.now ≡ trimmed bytes.now }
    ensures fits { result ≤ length bytes.now }
{
    let mut kept = bytes.len();
    while kept > 0 && bytes[kept - 1] == 0 {
        kept -= 1;
    }
    kept
}
