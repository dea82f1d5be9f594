//! Decodes words of a line as numbers, bytes and paths. `docs/FORMATS.md` defines their forms.
//!
//! Decimal and hexadecimal words have one spelling for each value.
ghost use Rattle.std.specs.Prelude.{◌≡◌, ◌<◌, ◌≤◌, ◌⊎◌, length, Err, IsTrue, IfOk, OnErr, is_some};
ghost use Rattle.std.specs.List.{list_all};
ghost use Rattle.std.specs.Char.{is_ascii_digit, is_ascii_hexdigit};
ghost use Rattle.textio.specs.Values.{bytes_of, is_hex, number_of, number_of_digits, path_of};
ghost use Rattle.pathkey.specs.declared.errno.Errno.TheVariants.{ENOMEM};

use bytes::Bytes;
use hex::FromHexError;
use pathkey::{Errno, NoMemory, Path};
use percent_encoding::percent_decode;
use std::alloc::Global;

/// A number with at most this many digits is below 2^64.
const SAFE_DIGITS: usize = 19;

/// The number that a word writes in decimal: `0`, or digits without a leading zero, below 2^64.
pub fn read_number(word: &[u8]) -> Option<u64>
    ensures { result ≡ number_of word.now }
{
    match word.first() {
        None => None,
        Some(b'0') if word.len() == 1 => Some(0),
        Some(b'0') => None,
        Some(_) if word.len() <= SAFE_DIGITS => read_digits(word),
        Some(_) => read_long_number(word),
    }
}

// The number that a few decimal digits write; none if a byte is no digit. It reads them in one pass, as no sum can be too large.
fn read_digits(digits: &[u8]) -> Option<u64>
    requires { length digits.now ≤ 19 }
    ensures { result ≡ number_of_digits digits.now }
{
    let mut number = 0;
    for &byte in digits {
        if !byte.is_ascii_digit() {
            return None;
        }
        number = number * 10 + (byte - b'0') as u64;
    }
    Some(number)
}

// The number that any decimal digits write, which may be too large; none if a byte is no digit.
fn read_long_number(digits: &[u8]) -> Option<u64>
    requires { 0 < length digits.now }
    ensures { result ≡ number_of_digits digits.now }
{
    if !has_digits(digits) {
        return None;
    }
    match str::from_utf8(digits) {
        Ok(text) => text.parse::<u64>().ok(),
        Err(_) => None,
    }
}

// Whether each byte is a decimal digit.
fn has_digits(word: &[u8]) -> bool
    ensures { result ≡ list_all is_ascii_digit word.now }
{
    word.iter().all(|byte| byte.is_ascii_digit())
}

// Whether a word is an even number of hexadecimal digits, and not none.
fn is_hex(word: &[u8]) -> bool
    ensures { result ≡ is_hex word.now }
{
    !word.is_empty() && word.len() % 2 == 0 && has_hex_digits(word)
}

// Whether each byte is a hexadecimal digit.
fn has_hex_digits(word: &[u8]) -> bool
    ensures { result ≡ list_all is_ascii_hexdigit word.now }
{
    word.iter().all(|byte| byte.is_ascii_hexdigit())
}

/// Decodes a word in hexadecimal: an even number of digits, at least two, or a dash for no bytes. `None` for any other word.
/// Fails only if an allocation fails, and only for a valid word.
pub fn read_bytes(alloc: Global, word: &[u8]) -> Result<Option<Bytes>, NoMemory>
    ensures read { IfOk result (λ bytes. bytes ≡ bytes_of word.now) }
    ensures written { OnErr result (IsTrue (is_some (bytes_of word.now))) }
{
    if word == b"-".as_slice() {
        return Ok(Some(Bytes::from_vec(Vec::new(alloc))?));
    }
    if word.is_empty() {
        return Ok(None);
    }
    match hex::decode(alloc, word) {
        Ok(bytes) => Ok(Some(Bytes::from_vec(bytes)?)),
        Err(FromHexError::OutOfMemory) if is_hex(word) => Err(NoMemory),
        Err(_) => Ok(None),
    }
}

/// Parses a path in percent form. A plain word is parsed without decoding, and a word without escapes is not copied.
pub fn read_path(alloc: Global, word: &[u8]) -> Result<Path, Errno>
    ensures { (result ≡ path_of word.now) ⊎ (result ≡ Err ENOMEM) }
{
    match Path::parse_plain(alloc, word) {
        Ok(Some(path)) => return Ok(path),
        Ok(None) => {}
        Err(_) => return Err(Errno::ENOMEM),
    }
    let Ok(text) = percent_decode(word).into_cow(alloc) else {
        return Err(Errno::ENOMEM);
    };
    Path::parse(alloc, text.as_slice())
}
