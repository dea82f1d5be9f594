//! Parses the text of an attribute record. `docs/FORMATS.md` has its format.
//!
//! A text is valid if and only if it is what the printer prints for the attributes: so the parser guesses without
//! checking, prints its guess again, and compares.
ghost use Rattle.std.specs.Prelude.{◌≡◌, ◌≢◌, ◌↔◌, Option, Some, ◌++◌, ◌∷◌, ◌+◌, ◌<◌, ◌^◌, List, ℕ, Ok, IfOk, IfSome, codes, flat_map, slice_index, true};
ghost use Rattle.std.specs.List.{AllByRecursion};
ghost use Rattle.textio.specs.Held.{IsFree};
ghost use Rattle.textio.specs.Texts.{hex_text, number_line};
ghost use Rattle.pathkey.specs.Heads.{AreBytes};
ghost use Rattle.percent_encoding.specs.Percent.{percent_decode};
ghost use Rattle.attributes.specs.Attributes.{AreBytesOf, IsAttributes, IsBasic, IsTime, is_valid, number_of};
ghost use Rattle.attributes.specs.Places.{IsOrNoMemory};
ghost use Rattle.attributes.specs.Text.{Reads, basic_lines, extended_line, extended_words, kind_text, kind_word, octal, printed, time_lines};
ghost use Rattle.attributes.specs.declared.record.Attributes.{Attributes as PAttributes};
ghost use Rattle.attributes.specs.declared.record.BasicAttributes.{BasicAttributes as PBasic};
ghost use Rattle.attributes.specs.declared.record.ExtendedAttribute.{ExtendedAttribute as PExtended};
ghost use Rattle.attributes.specs.declared.record.MtimeOverride.{MtimeOverride as PTime};
ghost use Rattle.attributes.specs.declared.record.Kind.{Kind as PKind};
ghost use Rattle.reference.specs.Image.{percent};

use crate::printing::print;
use crate::record::{
    Attributes, BasicAttributes, ExtendedAttribute, ExtendedAttributes, Kind, MtimeOverride,
};
use bytes::Bytes;
use pathkey::{Errno, NoMemory};
use percent_encoding::percent_decode;
use std::alloc::Global;
use textio::values::{read_bytes, read_number};
use textio::words::{split_line, split_space};

/// The first line of every record.
const HEADING: &[u8] = b"doorvervain record 1\n";

/// Parses a record. Fails with `EINVAL` if the text is not a record, and with `ENOMEM` if an
/// allocation fails.
pub fn parse(alloc: Global, text: &[u8]) -> Result<Attributes, Errno>
    ensures reported { Reads text.now result }
    ensures read_back { (a : PAttributes) → IsAttributes a → text.now ≡ printed a → IsOrNoMemory result (Ok a) }
{
    let attributes = parse_unchecked(alloc, text)?;
    if !attributes.is_valid() {
        return Err(Errno::EINVAL);
    }
    if !is_record(alloc, &attributes, text)? {
        return Err(Errno::EINVAL);
    }
    Ok(attributes)
}

// Whether the text is the record of these attributes.
fn is_record(alloc: Global, attributes: &Attributes, text: &[u8]) -> Result<bool, NoMemory>
    requires { is_valid attributes.now ≡ true }
    ensures { IfOk result (λ outcome. outcome ≡ true ↔ (text.now ≡ printed attributes.now)) }
{
    let written = print(alloc, attributes)?;
    Ok(written.as_slice() == text)
}

// The attributes of a text. The result is right if the text is a record, and arbitrary otherwise.
fn parse_unchecked(alloc: Global, text: &[u8]) -> Result<Attributes, NoMemory>
    ensures { IfOk result (λ a. (b : PAttributes) → IsAttributes b → text.now ≡ printed b → a ≡ b) }
{
    let (basic, rest) = guess_basic(text);
    let extended = guess_extended(alloc, rest)?;
    Ok(Attributes { basic, extended })
}

// The attributes on the lines that every record has, and the text after these lines, which does not
// begin with `m`.
fn guess_basic(text: &[u8]) -> (BasicAttributes, &[u8])
    ensures { (b : PBasic) (rest : List ℕ) → IsBasic b → slice_index rest 0 ≢ 109 → text.now ≡ basic_lines b ++ rest
        → (result.0 ≡ b) × (result.1.now ≡ rest) }
{
    let (kind, rest) = guess_kind(behind(text, HEADING));
    let (mode, rest) = guess_mode(rest);
    let (user, rest) = guess_owner(rest, b"user ");
    let (group, rest) = guess_owner(rest, b"group ");
    let (names, rest) = guess_number(rest, b"names ");
    let (modified, rest) = guess_time(rest);
    let basic = BasicAttributes {
        kind,
        mode,
        user,
        group,
        names,
        modified,
    };
    (basic, rest)
}

// The text after the prefix `front`, or the whole text if it does not begin with that.
fn behind<'a>(text: &'a [u8], front: &[u8]) -> &'a [u8]
    ensures { (rest : List ℕ) → text.now ≡ front.now ++ rest → result.now ≡ rest }
{
    match text.strip_prefix(front) {
        Some(rest) => rest,
        None => text,
    }
}

// The value after a word on the first line, and the text after the line.
fn value_of<'a>(text: &'a [u8], word: &[u8]) -> (&'a [u8], &'a [u8])
    ensures { (value rest : List ℕ) → IsFree value → text.now ≡ word.now ++ (value ++ 10 ∷ rest)
        → (result.0.now ≡ value) × (result.1.now ≡ rest) }
{
    match split_line(behind(text, word)) {
        Some(cut) => cut,
        None => (text, text),
    }
}

// The number after a word on the first line, and the text after the line.
fn guess_number<'a>(text: &'a [u8], word: &[u8]) -> (u64, &'a [u8])
    ensures { (n : ℕ) (rest : List ℕ) → n < 2 ^ 64 → text.now ≡ number_line word.now n ++ rest
        → (result.0 ≡ n) × (result.1.now ≡ rest) }
{
    let (value, rest) = value_of(text, word);
    match read_number(value) {
        Some(number) => (number, rest),
        None => (0, rest),
    }
}

// The user or group number after a word on the first line, and the text after the line.
fn guess_owner<'a>(text: &'a [u8], word: &[u8]) -> (u32, &'a [u8])
    ensures { (n : ℕ) (rest : List ℕ) → n < 2 ^ 32 → text.now ≡ number_line word.now n ++ rest
        → (result.0 ≡ n) × (result.1.now ≡ rest) }
{
    let (number, rest) = guess_number(text, word);
    if number > u64::from(u32::MAX) {
        return (0, rest);
    }
    (number as u32, rest)
}

// The mode on the first line, and the text after the line.
fn guess_mode(text: &[u8]) -> (u16, &[u8])
    ensures { (mode : ℕ) (rest : List ℕ) → mode < 4096 → text.now ≡ (codes "mode " ++ octal mode ++ codes "\n") ++ rest
        → (result.0 ≡ mode) × (result.1.now ≡ rest) }
{
    let (value, rest) = value_of(text, b"mode ");
    (read_octal(value), rest)
}

// The number that has these four octal digits.
fn read_octal(word: &[u8]) -> u16
    ensures { (mode : ℕ) → mode < 4096 → word.now ≡ octal mode → result ≡ mode }
{
    if word.len() != 4 {
        return 0;
    }
    digit(word[0]) * 512 + digit(word[1]) * 64 + digit(word[2]) * 8 + digit(word[3])
}

// The value of an octal digit.
fn digit(byte: u8) -> u16
    ensures small { result < 8 }
    ensures value { (d : ℕ) → d < 8 → byte ≡ 48 + d → result ≡ d }
{
    u16::from(byte.saturating_sub(b'0').min(7))
}

// The kind on the first line, and the text after the line.
fn guess_kind(text: &[u8]) -> (Kind, &[u8])
    ensures { (k : PKind) (rest : List ℕ) → IfSome (number_of k) (λ n. n < 2 ^ 64) → text.now ≡ (codes "kind " ++ kind_text k ++ codes "\n") ++ rest
        → (result.0 ≡ k) × (result.1.now ≡ rest) }
{
    let (value, rest) = value_of(text, b"kind ");
    let (word, number) = split_kind(value);
    (kind_of(word, number), rest)
}

// The first word, and the number after it if there is one.
fn split_kind(words: &[u8]) -> (&[u8], Option<u64>)
    ensures { (k : PKind) → IfSome (number_of k) (λ n. n < 2 ^ 64) → words.now ≡ kind_text k
        → (result.0.now ≡ kind_word k) × (result.1 ≡ number_of k) }
{
    match split_space(words) {
        Some((word, number)) => (word, read_number(number)),
        None => (words, None),
    }
}

// The kind with this word and number.
fn kind_of(word: &[u8], number: Option<u64>) -> Kind
    ensures { (k : PKind) → word.now ≡ kind_word k → number ≡ number_of k → result ≡ k }
{
    if word == b"directory".as_slice() {
        return Kind::Directory;
    }
    if word == b"file".as_slice() {
        return Kind::File;
    }
    if word == b"symbolic-link".as_slice() {
        return Kind::SymbolicLink;
    }
    if word == b"fifo".as_slice() {
        return Kind::Fifo;
    }
    if word == b"socket".as_slice() {
        return Kind::Socket;
    }
    numbered_kind(word, number.unwrap_or(0))
}

// The kind of a word that is followed by a number.
fn numbered_kind(word: &[u8], number: u64) -> Kind
    ensures { (k : PKind) → word.now ≡ kind_word k → Some number ≡ number_of k → result ≡ k }
{
    if word == b"character-device".as_slice() {
        return Kind::CharacterDevice(number);
    }
    if word == b"block-device".as_slice() {
        return Kind::BlockDevice(number);
    }
    Kind::NameOf(number)
}

// The explicitly set mtime, if the text begins with one, and the text after its lines.
fn guess_time(text: &[u8]) -> (Option<MtimeOverride>, &[u8])
    ensures { (t : Option PTime) (rest : List ℕ) → IfSome t IsTime → slice_index rest 0 ≢ 109 → text.now ≡ time_lines t ++ rest
        → (result.0 ≡ t) × (result.1.now ≡ rest) }
{
    if !begins_with_m(text) {
        return (None, text);
    }
    let (modified, rest) = guess_number(text, b"modified ");
    let (until, rest) = guess_number(rest, b"until ");
    (Some(MtimeOverride { modified, until }), rest)
}

fn begins_with_m(text: &[u8]) -> bool
    ensures { result ≡ true ↔ (slice_index text.now 0 ≡ 109) }
{
    match text.first() {
        Some(byte) => *byte == b'm',
        None => false,
    }
}

// The extended attributes on the lines of a text, without checking.
fn guess_extended(alloc: Global, text: &[u8]) -> Result<ExtendedAttributes, NoMemory>
    ensures { IfOk result (λ v. (es : List PExtended) → AllByRecursion AreBytesOf es → text.now ≡ flat_map extended_line es → v ≡ es) }
{
    let mut extended = ExtendedAttributes::new(alloc);
    let mut rest = text;
    while let Some((line, after)) = split_line(rest) {
        let one = guess_one(alloc, line)?;
        extended.push(one)?;
        rest = after;
    }
    Ok(extended)
}

// The extended attribute on a line, without checking.
fn guess_one(alloc: Global, line: &[u8]) -> Result<ExtendedAttribute, NoMemory>
    ensures { IfOk result (λ one. (e : PExtended) → AreBytesOf e → line.now ≡ extended_words e → one ≡ e) }
{
    let (name, value) = words_of(line);
    let name = name_of(alloc, name)?;
    let value = bytes_of(alloc, value)?;
    Ok(ExtendedAttribute { name, value })
}

// The words of the name and of the value on the line of an extended attribute.
fn words_of(line: &[u8]) -> (&[u8], &[u8])
    ensures { (e : PExtended) → line.now ≡ extended_words e → (result.0.now ≡ flat_map percent e.name) × (result.1.now ≡ hex_text e.value) }
{
    match split_space(behind(line, b"extended ")) {
        Some(cut) => cut,
        None => (line, line),
    }
}

// Decodes a name in percent form.
fn name_of(alloc: Global, word: &[u8]) -> Result<Bytes, NoMemory>
    ensures { IfOk result (λ name. name ≡ percent_decode word.now) }
{
    let mut name = Vec::new(alloc);
    percent_decode(word).append_to(&mut name)?;
    Ok(Bytes::from_vec(name)?)
}

// Decodes bytes in hexadecimal.
fn bytes_of(alloc: Global, word: &[u8]) -> Result<Bytes, NoMemory>
    ensures { IfOk result (λ bytes. (v : List ℕ) → AreBytes v → word.now ≡ hex_text v → bytes ≡ v) }
{
    match read_bytes(alloc, word)? {
        Some(bytes) => Ok(bytes),
        None => Ok(Bytes::copy_from_slice(alloc, word)?),
    }
}
