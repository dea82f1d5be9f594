//! The lines on standard output between which a call makes its allocations, and the line behind which none is counted.

/// Prints the line after which the call begins.
pub fn open<R: Print>(rt: &R) {
    let _ = print!(rt; "asked\n");
}

/// Prints the line before which the call has ended.
pub fn close<R: Print>(rt: &R) {
    let _ = print!(rt; "told\n");
}

/// Prints the line behind which no allocation fails.
pub fn end<R: Print>(rt: &R) {
    let _ = print!(rt; "again\n");
}
