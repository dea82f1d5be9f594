//! Numbers of eight bytes in little-endian order, as all numbers of a log are. Each number below 2^64 has one encoding.
ghost use Rattle.std.specs.Prelude.{◌≡◌, ◌++◌, ◌<◌, MatchOption, OnOk, length};
ghost use Rattle.wal.specs.Entries.{IsWord, word};

use pathkey::NoMemory;

/// The length of a number in bytes.
pub(crate) const U64_LEN: usize = 8;

// Splits a number off the bytes. Returns `None` if there are too few bytes.
pub(crate) fn split_u64(bytes: &[u8]) -> Option<(u64, &[u8])>
    ensures { MatchOption result (length bytes.now < 8) (λ cut. (bytes.now ≡ word cut.0 ++ cut.1.now) × IsWord cut.0) }
{
    let Some((front, rest)) = bytes.split_first_chunk::<U64_LEN>() else {
        return None;
    };
    Some((u64::from_le_bytes(*front), rest))
}

// Appends a number.
#[tactic(auto, unfolding(crate::specs::Entries::word))]
pub(crate) fn push_u64(out: &mut Vec<u8>, n: u64) -> Result<(), NoMemory>
    ensures { OnOk result (out.new.items ≡ out.old.items ++ word n) }
{
    out.extend_from_slice(&n.to_le_bytes())?;
    Ok(())
}
