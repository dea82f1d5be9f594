//! Encodes extended attributes as packed bytes, the form in which C programs pass them, and decodes them.
//!
//! Valid extended attributes have one packed form: a decoder's result is encoded again and compared.
ghost use Rattle.std.specs.Prelude.{◌≡◌, ◌≢◌, ◌↔◌, ◌++◌, ◌∷◌, ◌<◌, ◌≤◌, [], List, ℕ, All, Ok, IfOk, IfSome, MatchOption, OnOk, length, slice_index, take, true};
ghost use Rattle.std.specs.List.{AllByRecursion};
ghost use Rattle.attributes.specs.Attributes.{AreBytesOf, may_stand, assert_invariant};
ghost use Rattle.attributes.specs.Packed.{Unpacks, four_bytes, packed, packed_one};
ghost use Rattle.attributes.specs.Places.{IsOrNoMemory};
ghost use Rattle.attributes.specs.declared.record.ExtendedAttribute.{ExtendedAttribute as PExtended};

use crate::record::{ExtendedAttribute, ExtendedAttributes, assert_invariant};
use bytes::Bytes;
use pathkey::{Errno, NoMemory};
use std::alloc::Global;

/// Packs extended attributes: for each its name, a byte 0, the value's length in four bytes in little-endian order, and the value.
pub fn encode_xattrs(alloc: Global, extended: &ExtendedAttributes) -> Result<Vec<u8>, NoMemory>
    requires { assert_invariant [] extended.now ≡ true }
    ensures { IfOk result (λ bytes. bytes.items ≡ packed extended.now) }
{
    let mut bytes = Vec::new(alloc);
    for one in extended.as_slice() {
        push_packed(&mut bytes, one)?;
    }
    Ok(bytes)
}

// Packs one attribute.
#[tactic(auto, unfolding(crate::specs::Packed::packed_one))]
fn push_packed(bytes: &mut Vec<u8>, one: &ExtendedAttribute) -> Result<(), NoMemory>
    requires { may_stand one.now ≡ true }
    ensures { OnOk result (bytes.new.items ≡ bytes.old.items ++ packed_one one.now) }
{
    let value = one.value.as_slice();
    bytes.extend_from_slice(one.name.as_slice())?;
    bytes.push(0)?;
    bytes.extend_from_slice(&four_bytes(value.len()))?;
    bytes.extend_from_slice(value)?;
    Ok(())
}

// A number as four bytes in little-endian order.
#[tactic(auto, unfolding(crate::specs::Packed::four_bytes))]
fn four_bytes(number: usize) -> [u8; 4]
    requires { number ≤ 65536 }
    ensures { result ≡ four_bytes number }
{
    [
        (number % 256) as u8,
        (number / 256 % 256) as u8,
        (number / 65_536 % 256) as u8,
        (number / 16_777_216) as u8,
    ]
}

/// Unpacks extended attributes. Fails with `EINVAL` if the bytes are not the packed form of valid attributes, and with
/// `ENOMEM` if an allocation fails.
pub fn decode_xattrs(alloc: Global, bytes: &[u8]) -> Result<ExtendedAttributes, Errno>
    ensures reported { Unpacks bytes.now result }
    ensures read_back { (es : List PExtended) → assert_invariant [] es ≡ true → AllByRecursion AreBytesOf es → bytes.now ≡ packed es → IsOrNoMemory result (Ok es) }
{
    let extended = parse_unchecked(alloc, bytes)?;
    if !assert_invariant(extended.as_slice()) {
        return Err(Errno::EINVAL);
    }
    if !is_packed(alloc, &extended, bytes)? {
        return Err(Errno::EINVAL);
    }
    Ok(extended)
}

// Whether the bytes are the packed form of these extended attributes.
fn is_packed(alloc: Global, extended: &ExtendedAttributes, bytes: &[u8]) -> Result<bool, NoMemory>
    requires { assert_invariant [] extended.now ≡ true }
    ensures { IfOk result (λ outcome. outcome ≡ true ↔ (bytes.now ≡ packed extended.now)) }
{
    let written = encode_xattrs(alloc, extended)?;
    Ok(written.as_slice() == bytes)
}

// Unpacks extended attributes. The result is right if the bytes are packed attributes, and
// arbitrary otherwise.
fn parse_unchecked(alloc: Global, bytes: &[u8]) -> Result<ExtendedAttributes, NoMemory>
    ensures { IfOk result (λ v. (es : List PExtended) → assert_invariant [] es ≡ true → bytes.now ≡ packed es → v ≡ es) }
{
    let mut extended = ExtendedAttributes::new(alloc);
    let mut rest = bytes;
    while let Some((name, value, after)) = cut_one(rest) {
        let one = copied(alloc, name, value)?;
        extended.push(one)?;
        rest = after;
    }
    Ok(extended)
}

// An extended attribute with copies of this name and value.
fn copied(alloc: Global, name: &[u8], value: &[u8]) -> Result<ExtendedAttribute, NoMemory>
    ensures { IfOk result (λ one. (one.name ≡ name.now) × (one.value ≡ value.now)) }
{
    let name = Bytes::copy_from_slice(alloc, name)?;
    let value = Bytes::copy_from_slice(alloc, value)?;
    Ok(ExtendedAttribute { name, value })
}

// The first name, its value, and the bytes after both; `None` if there is no whole attribute.
fn cut_one(bytes: &[u8]) -> Option<(&[u8], &[u8], &[u8])>
    ensures shorter { IfSome result (λ r. length r.2.now < length bytes.now) }
    ensures reported { (e : PExtended) (rest : List ℕ) → may_stand e ≡ true → bytes.now ≡ packed_one e ++ rest
        → MatchOption result ⊥ (λ r. (r.0.now ≡ e.name) × (r.1.now ≡ e.value) × (r.2.now ≡ rest)) }
{
    let Some((name, behind)) = cut_null(bytes) else {
        return None;
    };
    let Some((value, rest)) = cut_value(behind) else {
        return None;
    };
    Some((name, value, rest))
}

// The value after its length, and the bytes after it; `None` if the value is cut off.
fn cut_value(bytes: &[u8]) -> Option<(&[u8], &[u8])>
    ensures shorter { IfSome result (λ r. length r.1.now ≤ length bytes.now) }
    ensures reported { (value rest : List ℕ) → length value ≤ 65536 → bytes.now ≡ four_bytes (length value) ++ (value ++ rest)
        → MatchOption result ⊥ (λ r. (r.0.now ≡ value) × (r.1.now ≡ rest)) }
{
    if bytes.len() < 4 {
        return None;
    }
    let (digits, behind) = bytes.split_at(4);
    let len = number_of(digits);
    if len > behind.len() {
        return None;
    }
    Some(behind.split_at(len))
}

// The number with these four bytes.
fn number_of(digits: &[u8]) -> usize
    requires { length digits.now ≡ 4 }
    ensures { (n : ℕ) → n ≤ 65536 → digits.now ≡ four_bytes n → result ≡ n }
{
    usize::from(digits[0])
        + usize::from(digits[1]) * 256
        + usize::from(digits[2]) * 65_536
        + usize::from(digits[3]) * 16_777_216
}

// The bytes before and after the first byte 0; `None` if there is no byte 0.
fn cut_null(bytes: &[u8]) -> Option<(&[u8], &[u8])>
    ensures { MatchOption result (All (λ b. b ≢ 0) bytes.now) (λ cut. (bytes.now ≡ cut.0.now ++ 0 ∷ cut.1.now) × All (λ b. b ≢ 0) cut.0.now) }
{
    let end = position(bytes)?;
    let (front, rest) = bytes.split_at(end);
    Some((front, &rest[1..]))
}

// The index of the first byte 0.
fn position(bytes: &[u8]) -> Option<usize>
    ensures { MatchOption result (All (λ b. b ≢ 0) bytes.now)
        (λ i. (i < length bytes.now) × (slice_index bytes.now i ≡ 0) × All (λ b. b ≢ 0) (take i bytes.now)) }
{
    bytes.iter().position(|byte| *byte == 0)
}
