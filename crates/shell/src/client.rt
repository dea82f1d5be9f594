//! Scripts over a client of an engine: the same lines, on a volume that is shared with others.
use crate::entry_lines::{EntryLines, lines_of, read_lines};
use crate::pace::Pace;
use crate::request::ReadCall;
use crate::script::{Ending, ScriptFault, run_lines};
use crate::session::{Session, read_frozen};
use crate::tidy::Tidy;
use crate::watch::{Unwatched, Watch};
use engine::{Client, EngineId};
use pathkey::{Errno, Path, SnapName};
use reference::{Call, Reply};
use std::alloc::Global;
use std::io::{Read, Write};
use std::sync::Wait;

/// A client, with the runtime by which it waits for the lock. The lock is held for one call, and never while a line is read,
/// parsed or answered.
#[derive(Drop)]
struct ClientSession<'a, J: EngineId, H: Wait> {
    rt: &'a H,
    client: &'a mut Client<J>,
}

/// No world can be named for a volume that is shared with others. What is promised of a client's calls is its history.
impl<'a, J: EngineId, H: Wait> Session for ClientSession<'a, J, H> {
    ghost means = { λ s w. ⊥ };

    fn call(&mut self, alloc: Global, call: &Call, at: u64) -> Reply {
        self.client.call(self.rt, alloc, call, at)
    }

    fn list(&mut self, alloc: Global, path: &Path, at: u64) -> Result<EntryLines, Errno> {
        let call = Call::Readdir(path.copy(alloc)?);
        let reply = self.client.call(self.rt, alloc, &call, at);
        match &reply {
            Reply::Names(entries) => Ok(lines_of(alloc, entries.as_slice())?),
            Reply::Fault(fault) => Err(*fault),
            // Unreachable: no other reply is one to a listing.
            _ => Err(Errno::EINVAL),
        }
    }

    fn snapshot(&mut self, alloc: Global, name: &SnapName) -> Result<(), Errno> {
        self.client.snapshot(self.rt, alloc, name)
    }

    fn drop_snapshot(&mut self, name: &SnapName) -> Result<(), Errno> {
        self.client.drop_snapshot(self.rt, name)
    }

    fn restore(&mut self, name: &SnapName) -> Result<(), Errno> {
        self.client.restore(self.rt, name)
    }

    fn read_snapshot(&mut self, alloc: Global, name: &SnapName, look: &ReadCall) -> Reply {
        match self.client.frozen(self.rt, name) {
            Ok(frozen) => {
                let reply = read_frozen(alloc, &frozen, look);
                // Dropped by a call, so that the proof costs less.
                drop(frozen);
                reply
            }
            Err(fault) => Reply::Fault(fault),
        }
    }

    fn list_snapshot(
        &mut self,
        alloc: Global,
        name: &SnapName,
        path: &Path,
    ) -> Result<EntryLines, Errno> {
        let frozen = self.client.frozen(self.rt, name)?;
        let lines = read_lines(alloc, frozen.indexes(), path);
        // Dropped by a call, so that the proof costs less.
        drop(frozen);
        lines
    }

    fn run_steps<P: Pace>(&mut self, _alloc: Global, _pace: &mut P) {}
}

/// Runs all lines of the reader through a client of an engine, and writes the reply to each when it is done, as `run_script`
/// does on a volume. Flushers compact the trees.
pub fn run_client<J: EngineId, H: Wait, R: Read, W: Write>(
    rt: &H,
    alloc: Global,
    client: &mut Client<J>,
    reader: &mut R,
    writer: &mut W,
) -> Result<(), ScriptFault> {
    match run_watched(rt, alloc, client, reader, writer, &mut Unwatched) {
        Ok(()) => Ok(()),
        Err(Ending::Failed(fault)) => Err(fault),
        // Unreachable: nothing requests that.
        Err(Ending::Fault(_)) => Err(ScriptFault::Write),
    }
}

/// Runs the lines as `run_client` does, with a watch that sees how each line is answered and may end the run.
pub(crate) fn run_watched<J: EngineId, H: Wait, R: Read, W: Write, V: Watch>(
    rt: &H,
    alloc: Global,
    client: &mut Client<J>,
    reader: &mut R,
    writer: &mut W,
    watch: &mut V,
) -> Result<(), Ending> {
    let mut served = ClientSession { rt, client };
    run_lines(
        alloc,
        &mut served,
        &mut 0,
        reader,
        writer,
        &mut Tidy::new(0),
        watch,
    )
}
