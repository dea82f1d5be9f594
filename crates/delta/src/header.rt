//! The first line of a delta, which has the SHA-256 digest of the old image in hexadecimal (`docs/FORMATS.md`). Any
//! other first line is not valid.
ghost use Rattle.std.specs.Prelude.{◌≡◌, ◌≢◌, ◌∷◌, [], List, ℕ, MatchOption, OnErr, OnOk};
ghost use Rattle.std.specs.Io.KnownBytes.{Appends};
ghost use Rattle.textio.specs.Parts.{AppendsPart};
ghost use Rattle.delta.specs.Deltas.{IsDigest, heading, text_of};
ghost use Rattle.hex.specs.Hex.{encode_lower};

use std::io::Write;
use textio::output::{WriteFailed, put};

/// Parses the first line of a delta. Returns its digest, or `None` if this is not such a line.
pub fn read_header(line: &[u8]) -> Option<[u8; 32]>
    ensures { MatchOption result ((digest : List ℕ) → IsDigest digest → line.now ≢ heading digest) (λ digest. IsDigest digest × (line.now ≡ heading digest)) }
{
    let Some(word) = line.strip_prefix(b"delta 1 ") else {
        return None;
    };
    read_digest(word)
}

// Parses a digest of 32 bytes in its one spelling.
fn read_digest(word: &[u8]) -> Option<[u8; 32]>
    ensures { MatchOption result ((digest : List ℕ) → IsDigest digest → word.now ≢ encode_lower digest) (λ digest. IsDigest digest × (word.now ≡ encode_lower digest)) }
{
    let mut digest = [0u8; 32];
    let Ok(()) = hex::decode_to_slice(word, &mut digest) else {
        return None;
    };
    if word != digits_of(&digest).as_slice() {
        return None;
    }
    Some(digest)
}

// The hexadecimal digits of a digest.
fn digits_of(digest: &[u8; 32]) -> [u8; 64]
    ensures { result ≡ encode_lower digest.now }
{
    let mut digits = [0u8; 64];
    hex::encode_to_slice(digest.as_slice(), &mut digits).unwrap();
    digits
}

/// Writes the first line, or a prefix of it.
pub(crate) fn put_heading<W: Write>(writer: &mut W, digest: &[u8; 32]) -> Result<(), WriteFailed>
    ensures ok { OnOk result (Appends (W.contents writer.old) (W.contents writer.new) (text_of (heading digest.now ∷ []))) }
    ensures err { OnErr result (AppendsPart (W.contents writer.old) (W.contents writer.new) (text_of (heading digest.now ∷ []))) }
{
    put(writer, b"delta 1 ")?;
    put(writer, digits_of(digest).as_slice())?;
    put(writer, b"\n")?;
    Ok(())
}
