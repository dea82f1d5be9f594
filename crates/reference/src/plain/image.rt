//! The image of a tree as text: one line for each entry in byte order of its key, and for a file the blocks that contain a
//! nonzero byte.
ghost use Rattle.std.specs.Prelude.{◌≡◌, ◌≤◌, ◌∷◌, [], ◌++◌, ◌+◌, ◌/◌, length, take, flat_map, IfOk, OnOk};
ghost use Rattle.reference.specs.Tree.{Path};
ghost use Rattle.reference.specs.Image.{percent, path_text, trimmed, block_line, block_lines, Second, directory_line, file_line, lines, lines_of, image};
ghost use Rattle.reference.specs.Plain.{tree_of, entries_of};

use super::contents::{bytes_from, bytes_up_to};
use super::digits::{put_bytes, put_name, put_number};
use super::tree::{Entries, Tree};
use pathkey::NoMemory;
use std::alloc::Global;

/// The block size in bytes.
const BLOCK: usize = 4_096;

/// The length of the bytes without trailing zeros.
fn kept_len(bytes: &[u8]) -> usize
    ensures kept { take result bytes.now ≡ trimmed bytes.now }
    ensures fits { result ≤ length bytes.now }
{
    match bytes.split_first() {
        None => 0,
        Some((first, rest)) => {
            let after = kept_len(rest);
            if after == 0 && *first == 0 {
                0
            } else {
                after + 1
            }
        }
    }
}

/// The line of a block; `None` if all its bytes are zero.
fn put_block(alloc: Global, out: &mut Vec<u8>, index: usize, block: &[u8]) -> Result<(), NoMemory>
    ensures { OnOk result (out.new.items ≡ out.old.items ++ block_line index (trimmed block.now)) }
{
    let kept = bytes_up_to(block, kept_len(block));
    if kept.is_empty() {
        return Ok(());
    }
    out.extend_from_slice(b"b ")?;
    put_number(alloc, out, index as u64)?;
    out.push(32)?;
    put_bytes(out, kept)?;
    out.push(10)?;
    Ok(())
}

/// The lines of a file's blocks.
fn put_blocks(alloc: Global, out: &mut Vec<u8>, bytes: &[u8]) -> Result<(), NoMemory>
    ensures { OnOk result (out.new.items ≡ out.old.items ++ block_lines bytes.now (length bytes.now / 4096 + 1)) }
{
    for index in 0..bytes.len() / BLOCK + 1 {
        let block = bytes_up_to(bytes_from(bytes, BLOCK * index), BLOCK);
        put_block(alloc, out, index, block)?;
    }
    Ok(())
}

/// The line of a file of that length, and those of its blocks.
fn put_file(
    alloc: Global,
    out: &mut Vec<u8>,
    text: &[u8],
    date: u64,
    bytes: &[u8],
) -> Result<(), NoMemory>
    ensures { OnOk result (out.new.items ≡ out.old.items ++ ((file_line Second text.now (length bytes.now) date ++ 10 ∷ []) ++ block_lines bytes.now (length bytes.now / 4096 + 1))) }
{
    out.extend_from_slice(b"F ")?;
    out.extend_from_slice(text)?;
    out.push(32)?;
    put_number(alloc, out, bytes.len() as u64)?;
    out.push(32)?;
    put_number(alloc, out, date)?;
    out.push(10)?;
    put_blocks(alloc, out, bytes)
}

/// The line of a directory.
fn put_directory(alloc: Global, out: &mut Vec<u8>, text: &[u8], date: u64) -> Result<(), NoMemory>
    ensures { OnOk result (out.new.items ≡ out.old.items ++ (directory_line Second text.now date ++ 10 ∷ [])) }
{
    out.extend_from_slice(b"D ")?;
    out.extend_from_slice(text)?;
    out.push(32)?;
    put_number(alloc, out, date)?;
    out.push(10)?;
    Ok(())
}

/// The text of an entry's path, from that of its directory.
fn text_below(alloc: Global, text: &[u8], name: &[u8]) -> Result<Vec<u8>, NoMemory>
    ensures { IfOk result (λ t. t.items ≡ text.now ++ 47 ∷ flat_map percent name.now) }
{
    let mut below = Vec::from_slice(alloc, text)?;
    below.push(47)?;
    put_name(&mut below, name)?;
    Ok(below)
}

/// The lines of a tree at the path with this text.
#[cycle(image)]
fn put_tree(alloc: Global, out: &mut Vec<u8>, text: &[u8], tree: &Tree) -> Result<(), NoMemory>
    ensures { (p : Path) → text.now ≡ path_text p → OnOk result (out.new.items ≡ out.old.items ++ lines Second p (tree_of tree.now)) }
{
    match tree {
        Tree::File(date, bytes) => put_file(alloc, out, text, *date, bytes.as_slice()),
        Tree::Dir(date, entries) => {
            put_directory(alloc, out, text, *date)?;
            put_entries(alloc, out, text, entries)
        }
    }
}

/// The lines of the entries of a directory at the path with this text.
#[cycle(image)]
fn put_entries(
    alloc: Global,
    out: &mut Vec<u8>,
    text: &[u8],
    entries: &Entries,
) -> Result<(), NoMemory>
    ensures { (p : Path) → text.now ≡ path_text p → OnOk result (out.new.items ≡ out.old.items ++ lines_of Second p (entries_of entries.now)) }
{
    match entries {
        Entries::Nothing => Ok(()),
        Entries::Entry(name, tree, rest) => {
            let below = text_below(alloc, text, name.as_slice())?;
            put_tree(alloc, out, below.as_slice(), tree)?;
            put_entries(alloc, out, text, rest)
        }
    }
}

/// The image of a tree whose root is a directory, in version 2.
pub fn image_of(alloc: Global, tree: &Tree) -> Result<Vec<u8>, NoMemory>
    ensures { IfOk result (λ v. v.items ≡ image Second (tree_of tree.now)) }
{
    let mut out = Vec::new(alloc);
    if let Tree::Dir(date, entries) = tree {
        put_directory(alloc, &mut out, b"/", *date)?;
        put_entries(alloc, &mut out, &[], entries)?;
    }
    Ok(out)
}
