//! Searches for an image after other lines, as in a file that also has the replies to a script.
use std::io::Read;
use textio::input::read_some;

/// The beginning of an image's first line, as `--image` prints it.
const ROOT: &[u8] = b"D / ";

/// The number of bytes that are read at a time.
const PIECE: usize = 4_096;

/// Searches the bytes of a text, one after the other.
#[derive(Drop)]
struct ImageSearch {
    /// The number of the line, counted from 1.
    line: u64,
    /// The number of bytes of the line that match `ROOT`, or `None` if one did not match.
    agree: Option<usize>,
}

impl ImageSearch {
    /// Takes the next byte. Returns whether its line begins an image.
    fn take(&mut self, byte: u8) -> bool {
        if byte == b'\n' {
            self.line = self.line.saturating_add(1);
            self.agree = Some(0);
            return false;
        }
        self.agree = match self.agree {
            Some(at) if ROOT.get(at) == Some(&byte) => Some(at.saturating_add(1)),
            _ => None,
        };
        self.agree == Some(ROOT.len())
    }

    /// Takes the next bytes, up to those that begin an image. Returns whether there are some.
    fn take_all(&mut self, bytes: &[u8]) -> bool {
        for &byte in bytes {
            if self.take(byte) {
                return true;
            }
        }
        false
    }
}

/// Returns the number of the first line that begins an image, or `None` if there is none, or if a read fails before it.
pub(crate) fn image_line<R: Read>(reader: &mut R) -> Option<u64> {
    let mut piece = [0u8; PIECE];
    let mut search = ImageSearch {
        line: 1,
        agree: Some(0),
    };
    // No input has more pieces than this.
    for _ in 0..u64::MAX {
        let Ok(n) = read_some(reader, &mut piece) else {
            return None;
        };
        if n == 0 {
            return None;
        }
        if search.take_all(&piece[..n]) {
            return Some(search.line);
        }
    }
    None
}
