//! Prints the text of an attribute record. `docs/FORMATS.md` has its format.
//!
//! Valid attributes have exactly one text, so the reader can check a text by printing what it read.
ghost use Rattle.std.specs.Prelude.{◌≡◌, ◌≤◌, ◌++◌, codes, flat_map, IfOk, OnOk, true};
ghost use Rattle.attributes.specs.Attributes.{is_valid};
ghost use Rattle.attributes.specs.Text.{basic_lines, extended_line, kind_text, octal, printed, time_lines};

use crate::record::{Attributes, BasicAttributes, ExtendedAttribute, Kind, MtimeOverride};
use pathkey::NoMemory;
use std::alloc::Global;
use textio::output::{WriteFailed, put};
use textio::text::{put_hex, put_number, put_number_line, put_percent};

/// Most records have at most this many bytes.
const USUAL: usize = 192;

/// The text of a record. Fails only if an allocation fails.
pub fn print(alloc: Global, attributes: &Attributes) -> Result<Vec<u8>, NoMemory>
    requires { is_valid attributes.now ≡ true }
    ensures { IfOk result (λ text. text.items ≡ printed attributes.now) }
{
    let mut text = Vec::with_capacity(alloc, USUAL)?;
    match put_all(&mut text, attributes) {
        Ok(()) => Ok(text),
        Err(WriteFailed) => Err(NoMemory),
    }
}

// Adds all lines.
fn put_all(text: &mut Vec<u8>, attributes: &Attributes) -> Result<(), WriteFailed>
    requires { is_valid attributes.now ≡ true }
    ensures { OnOk result (text.new.items ≡ text.old.items ++ printed attributes.now) }
{
    put_basic(text, &attributes.basic)?;
    for one in attributes.extended.as_slice() {
        put_extended(text, one)?;
    }
    Ok(())
}

// Adds the lines that every record has.
fn put_basic(text: &mut Vec<u8>, basic: &BasicAttributes) -> Result<(), WriteFailed>
    requires { basic.now.mode ≤ 4095 }
    ensures { OnOk result (text.new.items ≡ text.old.items ++ basic_lines basic.now) }
{
    put(text, b"doorvervain record 1\n")?;
    put_kind(text, basic.kind)?;
    put_mode(text, basic.mode)?;
    put_number_line(text, b"user ", u64::from(basic.user))?;
    put_number_line(text, b"group ", u64::from(basic.group))?;
    put_number_line(text, b"names ", basic.names)?;
    put_time(text, basic.modified)?;
    Ok(())
}

// Adds the line of the kind.
fn put_kind(text: &mut Vec<u8>, kind: Kind) -> Result<(), WriteFailed>
    ensures { OnOk result (text.new.items ≡ text.old.items ++ (codes "kind " ++ kind_text kind ++ codes "\n")) }
{
    put(text, b"kind ")?;
    put_kind_words(text, kind)?;
    put(text, b"\n")
}

// Adds the words of a kind.
#[tactic(auto, unfolding(crate::specs::Text::kind_text))]
fn put_kind_words(text: &mut Vec<u8>, kind: Kind) -> Result<(), WriteFailed>
    ensures { OnOk result (text.new.items ≡ text.old.items ++ kind_text kind) }
{
    put(text, kind.word())?;
    let Some(number) = kind.number() else {
        return Ok(());
    };
    put(text, b" ")?;
    put_number(text, number)
}

// Adds the line of the mode.
fn put_mode(text: &mut Vec<u8>, mode: u16) -> Result<(), WriteFailed>
    requires { mode ≤ 4095 }
    ensures { OnOk result (text.new.items ≡ text.old.items ++ (codes "mode " ++ octal mode ++ codes "\n")) }
{
    put(text, b"mode ")?;
    put(text, &octal_digits(mode))?;
    put(text, b"\n")
}

// Adds a mode in octal digits.
#[tactic(auto, unfolding(crate::specs::Text::octal))]
fn octal_digits(mode: u16) -> [u8; 4]
    requires { mode ≤ 4095 }
    ensures { result ≡ octal mode }
{
    [
        b'0' + (mode / 512) as u8,
        b'0' + (mode / 64 % 8) as u8,
        b'0' + (mode / 8 % 8) as u8,
        b'0' + (mode % 8) as u8,
    ]
}

// Adds the two lines of an explicitly set mtime, if there is one.
#[tactic(auto, unfolding(crate::specs::Text::time_lines))]
fn put_time(text: &mut Vec<u8>, mtime_override: Option<MtimeOverride>) -> Result<(), WriteFailed>
    ensures { OnOk result (text.new.items ≡ text.old.items ++ time_lines mtime_override) }
{
    let Some(mtime_override) = mtime_override else {
        return Ok(());
    };
    put_number_line(text, b"modified ", mtime_override.modified)?;
    put_number_line(text, b"until ", mtime_override.until)
}

// Adds the line of an extended attribute.
#[tactic(auto, unfolding(crate::specs::Text::extended_words))]
fn put_extended(text: &mut Vec<u8>, one: &ExtendedAttribute) -> Result<(), WriteFailed>
    ensures { OnOk result (text.new.items ≡ text.old.items ++ extended_line one.now) }
{
    put(text, b"extended ")?;
    put_percent(text, one.name.as_slice())?;
    put(text, b" ")?;
    put_hex(text, one.value.as_slice())?;
    put(text, b"\n")
}
