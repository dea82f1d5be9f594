//! Writes bytes. If a write fails, the contract says that a prefix was written.
ghost use Rattle.std.specs.Prelude.{◌≡◌, ℕ, take, length, ◌≤◌, OnOk, OnErr, IfOk};
ghost use Rattle.std.specs.Io.KnownBytes.{Appends, Keeps};
ghost use Rattle.textio.specs.Parts.{AppendsPart};

use std::io::{ErrorKind, Write};

/// The writer failed, or accepted no byte.
#[derive(Debug, Drop)]
pub struct WriteFailed;

// Writes once, and again if a signal interrupted the write.
fn write_some<W: Write>(writer: &mut W, bytes: &[u8]) -> Result<usize, WriteFailed>
    ensures bound { IfOk result (λ n. n ≤ length bytes.now) }
    ensures ok { IfOk result (λ n. Appends (W.contents writer.old) (W.contents writer.new) (take n bytes.now)) }
    ensures err { OnErr result (Keeps (W.contents writer.old) (W.contents writer.new)) }
{
    // As often as signals interrupt it.
    for _ in 0..u64::MAX {
        match writer.write(bytes) {
            Ok(n) => return Ok(n),
            Err(e) => {
                if e.kind() != ErrorKind::Interrupted {
                    return Err(WriteFailed);
                }
            }
        }
    }
    Err(WriteFailed)
}

/// Writes all the bytes, or a beginning of them.
pub fn put<W: Write>(writer: &mut W, bytes: &[u8]) -> Result<(), WriteFailed>
    ensures ok { OnOk result (Appends (W.contents writer.old) (W.contents writer.new) bytes.now) }
    ensures err { OnErr result (AppendsPart (W.contents writer.old) (W.contents writer.new) bytes.now) }
{
    let mut rest = bytes;
    // No slice has more bytes.
    for _ in 0..u64::MAX {
        if rest.is_empty() {
            return Ok(());
        }
        let n = write_some(writer, rest)?;
        if n == 0 {
            return Err(WriteFailed);
        }
        rest = &rest[n..];
    }
    Err(WriteFailed)
}

/// Flushes the writer.
pub fn flush<W: Write>(writer: &mut W) -> Result<(), WriteFailed>
    ensures { Keeps (W.contents writer.old) (W.contents writer.new) }
{
    match writer.flush() {
        Ok(()) => Ok(()),
        Err(_) => Err(WriteFailed),
    }
}
