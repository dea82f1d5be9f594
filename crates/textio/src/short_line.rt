//! Short lines, which are made in whole before they are written, since a write costs more than a copy of their words.
ghost use Rattle.std.specs.Prelude.{◌≡◌, ◌++◌, ◌+◌, ◌≤◌, decimal, length};

use arrayvec::ArrayVec;
use itoa::Buffer;

/// Appends bytes to a line that has room for them.
#[inline(always)]
pub fn append(line: &mut ArrayVec<u8, 64>, bytes: &[u8])
    requires { length line.old.items + length bytes.now ≤ 64 }
    ensures { line.new.items ≡ line.old.items ++ bytes.now }
{
    let Ok(()) = line.try_extend_from_slice(bytes) else {
        // There is room.
        unreachable!()
    };
}

/// Appends a number in decimal to a line that has room for 20 digits.
#[inline(always)]
pub fn append_number(line: &mut ArrayVec<u8, 64>, n: u64)
    requires { length line.old.items + 20 ≤ 64 }
    ensures value { line.new.items ≡ line.old.items ++ decimal n }
    ensures short { length line.new.items ≤ length line.old.items + 20 }
{
    let mut digits = Buffer::new();
    append(line, digits.format(n).as_bytes());
}
