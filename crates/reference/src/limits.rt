//! The limits of files and of reads.
//!
//! They bound every length and offset that a call can reach, so that the layers above compute with them without overflow.
ghost use Rattle.std.specs.Prelude.{◌≡◌, ◌+◌, nat_le};
ghost use Rattle.reference.specs.Calls.{greatest_file};

/// The maximum length of a file in bytes.
pub const GREATEST_FILE: u64 = 1_099_511_627_776;

/// The maximum number of bytes of one read.
pub const GREATEST_READ: u64 = 1_048_576;

/// Whether a file may have that many bytes from the offset on.
pub fn fits_file(offset: u64, count: usize) -> bool
    ensures { result ≡ nat_le (offset + count) greatest_file }
{
    match offset.checked_add(count as u64) {
        None => false,
        Some(end) => end <= GREATEST_FILE,
    }
}
