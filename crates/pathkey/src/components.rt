//! The components between the separators of a text or of a key, and the first error among them.
//!
//! Texts are separated by `/`, and keys by a byte 0. A component that is not a file name is reported before one that is too long,
//! wherever they are.
ghost use Rattle.std.specs.Prelude.{◌≡◌, ◌≢◌, ◌<◌, [], ◌∷◌, ◌++◌, All, MatchOption, length, take, slice_index};
ghost use Rattle.std.specs.List.{list_any};
ghost use Rattle.pathkey.specs.Texts.{is_dots, is_forbidden, is_malformed, is_long, component_faults};
ghost use Rattle.pathkey.specs.Outcomes.{unless};
ghost use Rattle.pathkey.specs.PlainTexts.{are_plain, is_plain_after};
ghost use Rattle.pathkey.specs.PathKeys.{IsAfterLast};

use crate::errno::Errno;

/// The maximum length of a name in bytes.
pub(crate) const LONGEST_NAME: usize = 255;

/// Validates the components of the bytes: each must be a file name, and none may be too long.
pub(crate) fn check_components(bytes: &[u8], separator: u8) -> Result<(), Errno>
    ensures { result ≡ unless (component_faults separator bytes.now) tt }
{
    let mut rest = bytes;
    let mut has_long = false;
    while let Some((component, after)) = split_at_byte(rest, separator) {
        if is_malformed(component) {
            return Err(Errno::EINVAL);
        }
        has_long |= is_long(component);
        rest = after;
    }
    if is_malformed(rest) {
        return Err(Errno::EINVAL);
    }
    if has_long | is_long(rest) {
        return Err(Errno::ENAMETOOLONG);
    }
    Ok(())
}

/// The bytes before the first separator, and those after it; `None` if there is no separator.
pub(crate) fn split_at_byte(bytes: &[u8], separator: u8) -> Option<(&[u8], &[u8])>
    ensures { MatchOption result (All (λ b. b ≢ separator) bytes.now) (λ parts. (bytes.now ≡ parts.0.now ++ separator ∷ parts.1.now) × All (λ b. b ≢ separator) parts.0.now) }
{
    let end = place_of(bytes, separator)?;
    let (front, back) = bytes.split_at(end);
    Some((front, &back[1..]))
}

/// The bytes after the last separator; all of them if there is no separator.
pub(crate) fn after_last(bytes: &[u8], separator: u8) -> &[u8]
    ensures { IsAfterLast separator bytes.now result.now }
{
    let mut start = bytes.len();
    while start > 0 && bytes[start - 1] != separator {
        start -= 1;
    }
    &bytes[start..]
}

/// Whether the bytes are plain names between single slashes.
pub(crate) fn are_plain(names: &[u8]) -> bool
    ensures { result ≡ are_plain names.now }
{
    let mut begins = true;
    for &byte in names {
        if !is_plain_after(begins, byte) {
            return false;
        }
        begins = byte == b'/';
    }
    !begins
}

// Whether the byte may come next in plain names, at the start of a name or within one.
fn is_plain_after(begins: bool, byte: u8) -> bool
    ensures { result ≡ is_plain_after begins byte }
{
    match byte {
        b'/' | b'.' => !begins,
        0 | b'%' => false,
        _ => true,
    }
}

// The index of the first separator.
fn place_of(bytes: &[u8], separator: u8) -> Option<usize>
    ensures { MatchOption result (All (λ b. b ≢ separator) bytes.now) (λ i. (i < length bytes.now) × (slice_index bytes.now i ≡ separator) × All (λ b. b ≢ separator) (take i bytes.now)) }
{
    bytes.iter().position(|byte| *byte == separator)
}

// Whether a component is not a file name, whatever its length.
fn is_malformed(component: &[u8]) -> bool
    ensures { result ≡ is_malformed component.now }
{
    component.is_empty() || is_dots(component) || has_forbidden_byte(component)
}

// Whether a component contains a byte that no name may contain.
fn has_forbidden_byte(component: &[u8]) -> bool
    ensures { result ≡ list_any is_forbidden component.now }
{
    component.iter().any(|byte| *byte == 0 || *byte == b'/')
}

// Whether a component is `.` or `..`.
fn is_dots(component: &[u8]) -> bool
    ensures { result ≡ is_dots component.now }
{
    matches!(component, [b'.'] | [b'.', b'.'])
}

fn is_long(component: &[u8]) -> bool
    ensures { result ≡ is_long component.now }
{
    component.len() > LONGEST_NAME
}
