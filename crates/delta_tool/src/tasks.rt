//! What the commands do.
use crate::failure::{Failure, Named, of_delta, of_edits, of_image, of_load, of_print};
use change_log::Changes;
use delta::{apply_delta, image_digest, print_delta, print_edits};
use edits::apply_edits;
use images::{LoadFault, load_image, print_image};
use node::Shape;
use std::alloc::Global;
use std::fs::Files;
use std::io::{Read, Write};
use std::{fs, io};
use volume::{Frozen, Volume};

/// Prints what makes the image of one file of that of another.
pub(crate) fn print_between<F: Files, W: Write>(
    rt: &F,
    alloc: Global,
    old: &str,
    new: &str,
    writer: &mut W,
) -> Result<(), Failure> {
    let before = load(rt, alloc, Named::First, old)?;
    let ended = print_from(rt, alloc, &before, new, writer);
    drop(before);
    ended
}

/// Prints what makes the image of a file out of the tree of a volume.
fn print_from<F: Files, W: Write>(
    rt: &F,
    alloc: Global,
    before: &Volume,
    new: &str,
    writer: &mut W,
) -> Result<(), Failure> {
    let after = load(rt, alloc, Named::Second, new)?;
    let ended = print_both(alloc, before, &after, writer);
    drop(after);
    ended
}

/// Prints the edits that make the tree of one file of that of another.
pub(crate) fn print_edits_between<F: Files, W: Write>(
    rt: &F,
    alloc: Global,
    old: &str,
    new: &str,
    writer: &mut W,
) -> Result<(), Failure> {
    let before = load(rt, alloc, Named::First, old)?;
    let ended = print_edits_from(rt, alloc, &before, new, writer);
    drop(before);
    ended
}

/// Prints the edits that make the tree of a file of that of a volume.
fn print_edits_from<F: Files, W: Write>(
    rt: &F,
    alloc: Global,
    before: &Volume,
    new: &str,
    writer: &mut W,
) -> Result<(), Failure> {
    let after = load(rt, alloc, Named::Second, new)?;
    let made = edits_of(alloc, before, &after);
    drop(after);
    let text = made?;
    let ended = put_text(text.as_slice(), writer);
    drop(text);
    ended
}

/// The text of the edits that make the tree of one volume of that of another.
fn edits_of(alloc: Global, before: &Volume, after: &Volume) -> Result<Vec<u8>, Failure> {
    let old = freeze(before)?;
    match freeze(after) {
        Ok(new) => {
            let made = edits_between(alloc, &old, &new);
            drop(new);
            drop(old);
            made
        }
        Err(failure) => {
            drop(old);
            Err(failure)
        }
    }
}

/// The edits that make one tree of another, of which nothing is known: both are walked. It ensures nothing, so that no other proof reads
/// what edits are.
fn edits_between(alloc: Global, old: &Frozen, new: &Frozen) -> Result<Vec<u8>, Failure> {
    print_edits(alloc, old, new, &Changes::All, &Changes::All).map_err(|_| Failure::Memory)
}

/// Prints a text.
fn put_text<W: Write>(text: &[u8], writer: &mut W) -> Result<(), Failure> {
    writer.write_all(text).map_err(|_| Failure::Write)
}

/// Prints the image that the difference of one file makes of the image of another.
pub(crate) fn print_applied<F: Files, W: Write>(
    rt: &F,
    alloc: Global,
    tree: &str,
    delta: &str,
    writer: &mut W,
) -> Result<(), Failure> {
    let mut volume = load(rt, alloc, Named::First, tree)?;
    let ended = print_applied_to(rt, alloc, &mut volume, delta, writer);
    drop(volume);
    ended
}

/// Prints the image that the difference in a file makes of the tree of a volume.
fn print_applied_to<F: Files, W: Write>(
    rt: &F,
    alloc: Global,
    volume: &mut Volume,
    delta: &str,
    writer: &mut W,
) -> Result<(), Failure> {
    let text = text_of(rt, alloc, delta)?;
    let applied = apply(alloc, volume, text.as_slice());
    drop(text);
    match applied {
        Ok(()) => print_tree(alloc, volume, writer),
        Err(failure) => Err(failure),
    }
}

/// Prints what makes the tree of one volume of that of another.
fn print_both<W: Write>(
    alloc: Global,
    before: &Volume,
    after: &Volume,
    writer: &mut W,
) -> Result<(), Failure> {
    let digest = digest_of(alloc, freeze(before)?)?;
    print_trees(alloc, &digest, freeze(before)?, after, writer)
}

/// Prints what makes the tree of a volume out of an older tree, whose image has this digest.
fn print_trees<W: Write>(
    alloc: Global,
    digest: &[u8; 32],
    old: Frozen,
    after: &Volume,
    writer: &mut W,
) -> Result<(), Failure> {
    match freeze(after) {
        Ok(new) => put(alloc, digest, old, new, writer),
        Err(failure) => {
            drop(old);
            Err(failure)
        }
    }
}

/// The digest of a tree's image. It ensures nothing, so that no other proof reads what an image is; nor do the next four.
fn digest_of(alloc: Global, tree: Frozen) -> Result<[u8; 32], Failure> {
    image_digest(alloc, tree).map_err(|_| Failure::Memory)
}

/// Prints what makes one tree of another.
fn put<W: Write>(
    alloc: Global,
    digest: &[u8; 32],
    old: Frozen,
    new: Frozen,
    writer: &mut W,
) -> Result<(), Failure> {
    print_delta(alloc, digest, old, new, writer).map_err(of_print)
}

/// Applies a difference of either format.
fn apply(alloc: Global, volume: &mut Volume, text: &[u8]) -> Result<(), Failure> {
    if text.starts_with(b"delta 2\n") {
        return apply_edits(alloc, volume, text).map_err(of_edits);
    }
    apply_delta(alloc, volume, text).map_err(of_delta)
}

/// Prints the image of a tree.
fn put_image<W: Write>(alloc: Global, tree: &Frozen, writer: &mut W) -> Result<(), Failure> {
    print_image(alloc, tree, writer).map_err(of_image)
}

/// The volume of an image.
fn load_from<R: Read>(alloc: Global, reader: &mut R) -> Result<Volume, LoadFault> {
    load_image(alloc, Shape::USUAL, reader)
}

/// Prints the image of a volume's tree.
fn print_tree<W: Write>(alloc: Global, volume: &Volume, writer: &mut W) -> Result<(), Failure> {
    let tree = freeze(volume)?;
    let ended = put_image(alloc, &tree, writer);
    drop(tree);
    ended
}

/// The tree of a volume.
fn freeze(volume: &Volume) -> Result<Frozen, Failure> {
    volume.freeze().map_err(|_| Failure::Memory)
}

/// The volume of the image that a file has.
fn load<F: Files>(rt: &F, alloc: Global, file: Named, path: &str) -> Result<Volume, Failure> {
    let mut reader = open(rt, file, path)?;
    match load_from(alloc, &mut reader) {
        Ok(volume) => Ok(volume),
        Err(fault) => Err(of_load(file, fault)),
    }
}

/// All that the second file has.
fn text_of<F: Files>(rt: &F, alloc: Global, path: &str) -> Result<Vec<u8>, Failure> {
    let mut reader = open(rt, Named::Second, path)?;
    text_in(alloc, &mut reader)
}

/// All that a reader of it gives.
fn text_in<R: Read>(alloc: Global, reader: &mut R) -> Result<Vec<u8>, Failure> {
    let mut text = Vec::new(alloc);
    match read_all(reader, &mut text) {
        Ok(()) => Ok(text),
        Err(failure) => {
            drop(text);
            Err(failure)
        }
    }
}

/// Puts that behind other bytes.
fn read_all<R: Read>(reader: &mut R, text: &mut Vec<u8>) -> Result<(), Failure> {
    match reader.read_to_end(text) {
        Ok(_) => Ok(()),
        Err(error) => Err(refused(error.kind(), Failure::Read(Named::Second))),
    }
}

/// Opens a file.
fn open<F: Files>(rt: &F, file: Named, path: &str) -> Result<F::File, Failure> {
    match fs::open(rt, path) {
        Ok(reader) => Ok(reader),
        Err(error) => Err(refused(error.kind(), Failure::Open(file))),
    }
}

/// Want of memory, or another failure.
fn refused(kind: io::ErrorKind, other: Failure) -> Failure {
    if kind == io::ErrorKind::OutOfMemory {
        drop(other);
        return Failure::Memory;
    }
    other
}
