//! The lines of a directory's entries. Of a volume and of a snapshot they are made as the entries are found, so that no entry has a
//! vector of its own.
ghost use Rattle.std.specs.Prelude.{◌≡◌, ◌++◌, [], IfOk, OnOk, length};
ghost use Rattle.reference.specs.Pairs.{pairs_of};
ghost use Rattle.shell.specs.Listings.{AreLines, TellsLines};
ghost use Rattle.shell.specs.Replies.{entry_line};

use crate::reply::{name_word, put_entry};
use call_compiler::Indexes;
use call_compiler::read::list;
use meta_index::EntrySink;
use pathkey::{Errno, NoMemory, Path};
use reference::Kind;
use std::alloc::Global;
use textio::text::is_plain;

/// The lines of entries, and their number.
#[derive(Drop)]
pub struct EntryLines {
    /// The lines.
    pub text: Vec<u8>,
    /// How many there are.
    pub count: u64,
}

impl EntryLines {
    // None yet. It has room for the lines of a small directory.
    fn new(alloc: Global) -> Result<EntryLines, NoMemory>
        ensures { IfOk result (λ lines. AreLines lines []) }
    {
        let text = Vec::with_capacity(alloc, 256)?;
        Ok(EntryLines { text, count: 0 })
    }
}

impl EntrySink for EntryLines {
    ghost has = { λ l es. AreLines l es };

    ghost size = { λ l. length l.text.items };

    fn receive(&mut self, _alloc: Global, kind: Kind, name: &[u8]) -> Result<(), NoMemory> {
        put_line(&mut self.text, kind, name)?;
        // There are fewer lines than bytes.
        self.count = self.count.saturating_add(1);
        Ok(())
    }
}

// Appends the line of an entry. If it fails, the text may have a part of it.
fn put_line(text: &mut Vec<u8>, kind: Kind, name: &[u8]) -> Result<(), NoMemory>
    ensures { OnOk result (text.new.items ≡ text.old.items ++ entry_line (kind, name.now)) }
{
    if is_plain(name) {
        text.extend_from_slice(name_word(kind))?;
        text.extend_from_slice(name)?;
        text.push(b'\n')?;
        return Ok(());
    }
    let Ok(()) = put_entry(text, kind, name) else {
        return Err(NoMemory);
    };
    Ok(())
}

/// The lines of the entries of the directory at the path, or why there is none.
pub(crate) fn read_lines(alloc: Global, indexes: &Indexes, path: &Path) -> Result<EntryLines, Errno>
    ensures { TellsLines indexes.now path.now result }
{
    let mut lines = EntryLines::new(alloc)?;
    list(alloc, indexes, path, &mut lines)??;
    Ok(lines)
}

/// The lines of entries.
pub(crate) fn lines_of(alloc: Global, entries: &[(Kind, Vec<u8>)]) -> Result<EntryLines, NoMemory>
    ensures { IfOk result (λ lines. AreLines lines (pairs_of entries.now)) }
{
    let mut lines = EntryLines::new(alloc)?;
    for (kind, name) in entries {
        lines.receive(alloc, *kind, name.as_slice())?;
    }
    Ok(lines)
}
