//! Calls that allocate nothing.
use crate::harness::put;
use crate::opening::SMALL;
use crate::window;
use jobs::Ticket;
use message::{Msg, touches};
use meta_index::MetaUpdate;
use node::Place;
use pathkey::{Errno, Path};
use std::alloc::Global;
use std::io::Write;
use test_support::ask::path;

/// The root's path, places, a ticket, a shape and the name of a fault.
fn words<R: Print>(rt: &R, alloc: Global, out: &mut Vec<u8>) {
    window::open(rt);
    let is_root = Path::root(alloc).is_root();
    let root = Place::root();
    let under = root.under(3);
    let number = Ticket::of(7).number;
    let is_shape = SMALL.ok();
    let name = Errno::ENOMEM.name();
    window::close(rt);
    let count = root.numbers().len();
    let more = match under {
        Some(under) => under.numbers().len(),
        None => 9,
    };
    let _ = writeln!(out, "{is_root} {count} {more} {number} {is_shape} {name}");
}

/// What a path and a message say of the long path above.
fn paths<R: Print>(rt: &R, path: &Path, above: &Path, msg: &Msg<MetaUpdate>, out: &mut Vec<u8>) {
    window::open(rt);
    let is_under = path.is_under(above);
    let last = path.last();
    let is_touched = touches(msg, path.key());
    window::close(rt);
    let length = match last {
        Some(name) => name.len(),
        None => 0,
    };
    let _ = writeln!(out, "{is_under} {length} {is_touched}");
}

/// What the path of a message says of the one above; whether both were found.
fn long_paths<R: Print>(rt: &R, alloc: Global, path: &Path, out: &mut Vec<u8>) -> bool {
    let Ok(key) = path.key().copy(alloc) else {
        return false;
    };
    match path.parent(alloc) {
        Ok(Some(above)) => {
            paths(rt, path, &above, &Msg::Del(key), out);
            true
        }
        _ => false,
    }
}

/// A path of more than forty bytes, which are not stored inline in its key.
const LONG: &str = "/a-name-of-more-than-forty-bytes-in-all-its-parts/b";

/// All of these calls.
pub fn scene<R: Print>(rt: &R, alloc: Global, out: &mut Vec<u8>) -> bool {
    put(out, "== answer\n");
    words(rt, alloc, out);
    match path(alloc, LONG) {
        Ok(path) => long_paths(rt, alloc, &path, out),
        Err(_) => false,
    }
}
