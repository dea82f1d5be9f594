//! The harness of a scene: the state before a call, the call between the two lines, its answer, and the state after it.
use crate::window;
use std::alloc::Global;

/// Adds a text to what is printed once the scene has ended.
pub fn put(out: &mut Vec<u8>, text: &str) {
    let _ = out.extend_from_slice(text.as_bytes());
}

/// Adds the line for an allocation failure.
pub fn put_no_memory(out: &mut Vec<u8>) {
    put(out, "no memory\n");
}

/// A call, and what it is made on.
pub trait OomCase {
    /// Prints its size, in lines that begin with `count`, and its contents.
    fn show(&mut self, alloc: Global, out: &mut Vec<u8>);

    /// Makes the call between the two lines, and prints its answer.
    fn ask<R: Print>(&mut self, rt: &R, alloc: Global, out: &mut Vec<u8>);
}

/// Makes a call between the two lines, and once more without a failure. Prints each answer, and the state before and after.
pub fn ask<R: Print, C: OomCase>(rt: &R, alloc: Global, case: &mut C, out: &mut Vec<u8>) {
    put(out, "== before\n");
    case.show(alloc, out);
    put(out, "== answer\n");
    case.ask(rt, alloc, out);
    put(out, "== after\n");
    case.show(alloc, out);
    window::end(rt);
    put(out, "== answer again\n");
    case.ask(rt, alloc, out);
    put(out, "== after again\n");
    case.show(alloc, out);
}
