//! Buffers the current line.
//!
//! A line that is too long is kept only up to one byte more than the limit, which is enough to know that it is too
//! long.
ghost use Rattle.std.specs.Prelude.{◌≡◌, ◌<◌, ◌≤◌, ◌+◌, ◌++◌, length, vec_capacity};

/// The most bytes of a line that is looked at.
pub const LONGEST_LINE: usize = 65_536;

/// How many bytes are read at a time.
pub const READ_SIZE: usize = 65_536;

/// Appends bytes to the line; if it becomes too long, only as many as show that.
pub fn push_limited(line: &mut Vec<u8>, bytes: &[u8])
    requires room { 65536 < vec_capacity line.old }
    ensures short { length line.old.items + length bytes.now ≤ 65536 → line.new.items ≡ line.old.items ++ bytes.now }
    ensures long { 65536 < length line.old.items + length bytes.now → 65536 < length line.new.items }
    ensures room { 65536 < vec_capacity line.new }
{
    if line.len() <= LONGEST_LINE {
        let most = LONGEST_LINE + 1 - line.len();
        let bytes = &bytes[..bytes.len().min(most)];
        line.extend_from_slice(bytes).unwrap();
    }
}
