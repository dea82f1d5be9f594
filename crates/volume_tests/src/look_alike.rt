//! Whether a volume and the reference program have the same tree: whether both have the same image, in which each entry, mtime and byte
//! is.
use crate::requests::freeze;
use images::print_image;
use reference::plain::{World, image_of};
use reference::{Listing, Reply};
use std::alloc::Global;
use volume::{Frozen, Volume};

/// Whether two listings are equal.
fn are_one(names: &Listing, wanted: &Listing) -> bool {
    let (names, wanted) = (names.as_slice(), wanted.as_slice());
    for (entry, other) in names.iter().zip(wanted.iter()) {
        if entry.0 != other.0 || entry.1.as_slice() != other.1.as_slice() {
            return false;
        }
    }
    names.len() == wanted.len()
}

/// Whether two replies are equal.
pub fn is_reply(reply: &Reply, wanted: &Reply) -> bool {
    match (reply, wanted) {
        (Reply::Done, Reply::Done) => true,
        (Reply::Count(count), Reply::Count(wanted)) => count == wanted,
        (Reply::Data(bytes), Reply::Data(wanted)) => bytes.as_slice() == wanted.as_slice(),
        (Reply::Stat(kind, length, modified), Reply::Stat(other, wanted, mtime)) => {
            kind == other && length == wanted && modified == mtime
        }
        (Reply::Names(names), Reply::Names(wanted)) => are_one(names, wanted),
        (Reply::Fault(fault), Reply::Fault(wanted)) => fault == wanted,
        _ => false,
    }
}

/// Prints the image of a frozen tree; `false` if an allocation fails. It has no postcondition, so that the proofs of the tests do not
/// unfold what a tree is; nor does the next function.
fn prints(alloc: Global, tree: &Frozen, image: &mut Vec<u8>) -> bool {
    print_image(alloc, tree, image).is_ok()
}

/// Whether the live tree of the reference program has this image.
fn has_image(alloc: Global, plain: &World, image: &[u8]) -> bool {
    match image_of(alloc, plain.live()) {
        Ok(wanted) => image == wanted.as_slice(),
        Err(_) => false,
    }
}

/// Whether the live trees of a volume and of the reference program are equal.
pub fn look_alike(alloc: Global, volume: &Volume, plain: &World) -> bool {
    match freeze(volume) {
        Ok(tree) => {
            let mut image = Vec::new(alloc);
            prints(alloc, &tree, &mut image) && has_image(alloc, plain, image.as_slice())
        }
        Err(_) => false,
    }
}
