//! The type `Volume`, its calls, steps and jobs.
//!
//! Invariant (`IsVolume`): it abstracts to a world, has at most 64 snapshots and at most 64 marks, and its live trees
//! are lawful. Each call preserves it, also if an allocation fails: then the call changes nothing.
ghost use Rattle.std.specs.Prelude.{◌≡◌, ◌⊎◌, ◌↔◌, ℕ, false, MatchResult, IfErr, IfOk, IfNone, IfSome, None, Some, slice_get};
ghost use Rattle.node.specs.Shapes.{is_shape};
ghost use Rattle.pathkey.specs.Names.{Path as Names};
ghost use Rattle.std.specs.FinMap as finite;
ghost use Rattle.reference.specs.declared.call.Call.{Call as FileCall};
ghost use Rattle.std.specs.Option.{option_copied};
ghost use Rattle.reference.specs.Worlds.{World, TakeSnapshot, DropSnapshot, RestoreSnapshot};
ghost use Rattle.volume.specs.Changes.{Called, Settles, KeptAs, Dropped, Restored, Stepped};
ghost use Rattle.volume.specs.Forks.{IsForkOf, RestoresTree};
ghost use Rattle.volume.specs.Plants.{Plants};
ghost use Rattle.volume.specs.Differences.{AgreeBeside};
ghost use Rattle.volume.specs.Copies.{Compiles as CopyCompiles, Copies};
ghost use Rattle.volume.specs.Holes.{Compiles as HoleCompiles, Punches};
ghost use Rattle.volume.specs.Mtimes.{Asks as AsksMtime, SetsMtime};
ghost use Rattle.volume.specs.FsRoot.{reply_to};
ghost use Rattle.volume.specs.Jobs.{AnswersInstalling, AnswersTaking, BacklogIn, DoneFits};
ghost use Rattle.volume.specs.Marked.{KeepsMarks, no_marks, without_mark};
ghost use Rattle.volume.specs.Volumes.{AreNames, IsNew, IsVolume, MeanRooted, MeanSome, Means, live_of, names_in};
ghost use Rattle.volume.specs.Typed.{Asks, Compiles, IsCount, IsOfKind, IsSettled};
ghost use Rattle.volume.specs.HistoryOf.{Finds, HeaviestIn, busier, pending_in, report_in};

use crate::append_noted::append_noted;
use crate::event::{CompactStep, Index, Step, in_tree};
use crate::frozen::Frozen;
use crate::fs_root::{FsRoot, after_call, after_planting, share};
use crate::job::{Done, InstallReply, TakeReply};
use crate::live_indexes::LiveIndexes;
use crate::plant::plant;
use crate::snapshots::Snapshots;
use call_compiler::dir_mtime::touches_root;
use call_compiler::{Batch, Call, Indexes, Reply, compile};
use change_log::{ChangeLog, Changes};
use jobs::{Backlog, Ticket};
use node::{Shape, ShapeReport, StepReply, TreeStep};
use pathkey::{Errno, NoMemory, Path, SnapName};
use reference::Meta;
use std::alloc::Global;
use std::marker::Model;

/// The live indexes of a file system with the mtime of the root, and those of its named snapshots.
pub struct Volume {
    live: LiveIndexes,
    modified: u64,
    snapshots: Snapshots,
    changes: ChangeLog,
}

// Written out, as that of `pathkey::Key`.
impl Drop for Volume {
    fn drop(self) {
        let Volume {
            live: _,
            modified: _,
            snapshots: _,
            changes: _,
        } = self;
    }
}

impl Model for Volume {
    ghost use Rattle.volume.specs.Codes.{coded_volume};
    ghost use Rattle.volume.specs.Differences.{Tracks};
    ghost use Rattle.volume.specs.Volumes.{PVolume, IsVolume};

    ghost Value = { PVolume };

    ghost coded = { coded_volume };

    ghost view = { λ v. record { live = record { indexes = v.live.indexes; modified = v.modified }; snapshots = v.snapshots; marks = v.live.marks } };

    ghost invariant = { λ v. IsVolume (record { live = record { indexes = v.live.indexes; modified = v.modified }; snapshots = v.snapshots; marks = v.live.marks }) × Tracks v.changes v.snapshots v.live.indexes };
}

/// The reply of a call whose messages were to be appended; ENOMEM if an allocation failed.
fn reply_to(appended: Result<(), NoMemory>, reply: Reply) -> Reply
    ensures { result ≡ reply_to appended reply }
{
    match appended {
        Ok(()) => reply,
        Err(NoMemory) => Reply::Fault(Errno::ENOMEM),
    }
}

impl Volume {
    /// A new volume with an empty root directory of mtime 0, without snapshots, in trees of this shape. EINVAL if the
    /// shape is not valid (`Shape::ok`), ENOMEM if an allocation fails.
    pub fn new(alloc: Global, shape: Shape) -> Result<Volume, Errno>
        ensures new { MatchResult result (IsNew shape) (λ e. (e ≡ Errno.EINVAL) ⊎ (e ≡ Errno.ENOMEM)) }
        ensures shape { (result ≡ Err Errno.EINVAL) ↔ (is_shape shape ≡ false) }
    {
        if !shape.ok() {
            return Err(Errno::EINVAL);
        }
        let indexes = Indexes::new(alloc, shape)?;
        let live = LiveIndexes::new(alloc, indexes);
        live.assert_invariant();
        Ok(Volume {
            live,
            modified: 0,
            snapshots: Snapshots::new(alloc),
            changes: ChangeLog::new(alloc),
        })
    }

    /// Does a file call with a timestamp, which becomes the mtime of a new entry, of a file whose bytes are set, and of each
    /// directory that gets or loses an entry. Timestamps need not increase. A call that fails changes nothing; ENOMEM is
    /// returned only if an allocation fails.
    ///
    /// Whatever is in the trees, a call only appends messages to their roots: steps flush them down (Jannen et al., FAST 2015).
    pub fn call(&mut self, alloc: Global, call: &Call, at: u64) -> Reply
        ensures { Called call.now at result self.old self.new }
    {
        let compiled = compile(alloc, self.indexes(), call, at);
        self.send(alloc, compiled, at, touches_root(call))
    }

    /// Does a compiled file call with a timestamp. If the call succeeds and adds an entry to the root or removes one, the
    /// timestamp becomes the mtime of the root.
    pub(crate) fn send(
        &mut self,
        alloc: Global,
        compiled: Result<(Reply, Batch), NoMemory>,
        at: u64,
        in_root: bool,
    ) -> Reply
        requires { (c : FileCall) × Asks self.old.live.indexes c at compiled in_root }
        ensures called { (c : FileCall) → Asks self.old.live.indexes c at compiled in_root → Called c at result self.old self.new }
        ensures kind { (c : FileCall) → Compiles self.old.live.indexes c at compiled → IsOfKind c result }
    {
        let Ok((reply, batch)) = compiled else {
            return Reply::Fault(Errno::ENOMEM);
        };
        let appended = append_noted(alloc, &mut self.live, &mut self.changes, batch);
        self.live.assert_invariant();
        let reply = reply_to(appended, reply);
        self.modified = after_call(&reply, in_root, at, self.modified);
        reply
    }

    /// Sets a part of a file to zero, as compiled.
    pub(crate) fn send_zeros(
        &mut self,
        alloc: Global,
        compiled: Result<(Reply, Batch), NoMemory>,
    ) -> Reply
        requires { (p : Names) × (off : ℕ) × (n : ℕ) × (at : ℕ) × HoleCompiles self.old.live.indexes p off n at compiled }
        ensures punches { (p : Names) (off n at : ℕ) → HoleCompiles self.old.live.indexes p off n at compiled → Punches p off n at result self.old self.new }
        ensures count { (p : Names) (off n at : ℕ) → HoleCompiles self.old.live.indexes p off n at compiled → IsCount result }
    {
        let Ok((reply, batch)) = compiled else {
            return Reply::Fault(Errno::ENOMEM);
        };
        let punched = append_noted(alloc, &mut self.live, &mut self.changes, batch);
        self.live.assert_invariant();
        reply_to(punched, reply)
    }

    /// Copies bytes from file to file, as compiled.
    pub(crate) fn send_copied(
        &mut self,
        alloc: Global,
        compiled: Result<(Reply, Batch), NoMemory>,
    ) -> Reply
        requires { (p : Names) × (off : ℕ) × (q : Names) × (target : ℕ) × (n : ℕ) × (at : ℕ) × CopyCompiles self.old.live.indexes p off q target n at compiled }
        ensures copies { (p : Names) (off : ℕ) (q : Names) (target n at : ℕ) → CopyCompiles self.old.live.indexes p off q target n at compiled → Copies p off q target n at result self.old self.new }
        ensures count { (p : Names) (off : ℕ) (q : Names) (target n at : ℕ) → CopyCompiles self.old.live.indexes p off q target n at compiled → IsCount result }
    {
        let Ok((reply, batch)) = compiled else {
            return Reply::Fault(Errno::ENOMEM);
        };
        let copied = append_noted(alloc, &mut self.live, &mut self.changes, batch);
        self.live.assert_invariant();
        reply_to(copied, reply)
    }

    /// Sets an mtime, as compiled; it is also the root's if the path is the root.
    pub(crate) fn send_mtime(
        &mut self,
        alloc: Global,
        compiled: Result<(Reply, Batch), NoMemory>,
        at: u64,
        is_root: bool,
    ) -> Reply
        requires { (p : Names) × AsksMtime self.old.live.indexes p at compiled is_root }
        ensures sets { (p : Names) → AsksMtime self.old.live.indexes p at compiled is_root → SetsMtime p at result self.old self.new }
        ensures settled { IsSettled result }
    {
        let Ok((reply, batch)) = compiled else {
            return Reply::Fault(Errno::ENOMEM);
        };
        let sent = append_noted(alloc, &mut self.live, &mut self.changes, batch);
        self.live.assert_invariant();
        let reply = reply_to(sent, reply);
        self.modified = after_call(&reply, is_root, at, self.modified);
        reply
    }

    /// Creates an entry with its mtime, as the loader of an image does: an empty directory, or a file of as many zeros. A
    /// directory at the root sets the mtime of the root, which keeps its entries. EEXIST for a file at the root, ENOENT or
    /// ENOTDIR if the parent is not a directory, EEXIST if the path exists, EFBIG if the file would have more than 2^40
    /// bytes, ENOMEM if an allocation fails. If it fails, nothing changes.
    pub fn plant_entry(&mut self, alloc: Global, path: &Path, meta: Meta) -> Result<(), Errno>
        ensures { Plants path.now meta result self.old self.new }
    {
        let answer = plant(alloc, &mut self.live, &mut self.changes, path, meta);
        self.live.assert_invariant();
        self.modified = after_planting(&answer, path, meta, self.modified);
        answer
    }

    /// Takes a snapshot of the live tree under the name, by a reference to its root nodes: no node is copied (Rodeh, ACM
    /// Transactions on Storage 2008). EEXIST if the name is taken, ENOSPC if there are 64 snapshots, ENOMEM if an allocation
    /// fails.
    pub fn snapshot(&mut self, alloc: Global, name: &SnapName) -> Result<(), Errno>
        ensures { Settles (TakeSnapshot name.now) (KeptAs name.now) result self.old self.new }
    {
        if self.snapshots.has(name) {
            return Err(Errno::EEXIST);
        }
        if self.snapshots.is_full() {
            return Err(Errno::ENOSPC);
        }
        let copy = share(self.live.indexes(), self.modified)?;
        self.snapshots.add(alloc, name, copy)?;
        self.changes.begin(alloc, name);
        Ok(())
    }

    /// Removes the snapshot of that name; ENOENT if there is none. It allocates nothing.
    pub fn drop_snapshot(&mut self, name: &SnapName) -> Result<(), Errno>
        ensures { Settles (DropSnapshot name.now) (Dropped name.now) result self.old self.new }
    {
        if !self.snapshots.has(name) {
            return Err(Errno::ENOENT);
        }
        self.snapshots.remove(name);
        self.changes.forget(name);
        Ok(())
    }

    /// Restores a snapshot: the live tree becomes that of the snapshot, which stays. ENOENT if there is none of that name,
    /// ENOMEM if a node already has 2^64 - 1 references.
    pub fn restore(&mut self, name: &SnapName) -> Result<(), Errno>
        ensures { Settles (RestoreSnapshot name.now) (Restored name.now) result self.old self.new }
    {
        let Some(snapshot_root) = self.snapshots.get(name) else {
            return Err(Errno::ENOENT);
        };
        let modified = snapshot_root.modified;
        let copy = snapshot_root.indexes.share()?;
        self.live.replace(copy);
        self.live.assert_invariant();
        self.modified = modified;
        self.changes.restore(name);
        Ok(())
    }

    /// Restores a frozen tree, also of another volume, as `restore` does with a snapshot of that tree; the live trees then have
    /// its shape. All marks are removed, no ticket is given again, and snapshots stay. It fails only if a node already has 2^64
    /// - 1 references, and changes nothing then.
    pub fn restore_frozen(&mut self, tree: &Frozen) -> Result<(), NoMemory>
        ensures { RestoresTree tree.now result self.old self.new }
    {
        tree.assert_invariant();
        let restored = tree.indexes().share()?;
        self.live.replace(restored);
        self.live.assert_invariant();
        self.modified = tree.modified();
        self.changes.forget_all();
        Ok(())
    }

    /// Tries a tree step in the live index that it names. Whatever the reply, the volume abstracts to the same world; it is
    /// unchanged unless the reply is `Did`.
    pub fn step(&mut self, alloc: Global, step: Step) -> StepReply
        ensures { Stepped step result self.old self.new }
    {
        let reply = self.live.step(alloc, step);
        self.live.assert_invariant();
        reply
    }

    /// States the invariant of the type: a volume abstracts to a world, has at most 64 snapshots, its live trees are lawful,
    /// and it has at most 64 marks, each of a slot of its own in a live root. Does nothing at run time.
    pub fn assert_invariant(&self)
        ensures { IsVolume self.now }
    {
        let _ = &self.live;
    }

    /// The live tree as it is now. It fails only if a node already has 2^64 - 1 references.
    pub fn freeze(&self) -> Result<Frozen, NoMemory>
        ensures same { IfOk result (λ f. f ≡ self.now.live) }
        ensures means { IfOk result (λ f. (w : World) → Means self.now w → MeanRooted f w.live) }
    {
        let rooted = share(self.live.indexes(), self.modified)?;
        Ok(Frozen::new(rooted))
    }

    /// The live tree as it is now, for `put_back`. It fails only if a node already has 2^64 - 1 references.
    pub fn live_root(&self) -> Result<FsRoot, NoMemory>
        ensures { IfOk result (λ r. r ≡ self.now.live) }
    {
        let indexes = self.live.indexes();
        share(indexes, self.modified)
    }

    /// Makes a tree the live one that was it when the marks were those that there are now. It allocates nothing.
    pub fn put_back(&mut self, before: FsRoot)
        requires { IsVolume (record (self.old) { live = before }) }
        ensures { self.new ≡ record (self.old) { live = before } }
    {
        let FsRoot {
            indexes,
            modified: mtime,
        } = before;
        self.live.put_back(indexes);
        self.modified = mtime;
        self.changes.forget_all();
    }

    /// The tree of the snapshot of that name; ENOENT if there is none, ENOMEM if a node already has 2^64 - 1 references.
    pub fn frozen(&self, name: &SnapName) -> Result<Frozen, Errno>
        ensures same { IfOk result (λ f. finite.get self.now.snapshots name.now ≡ Some f) }
        ensures means { (w : World) → Means self.now w → Finds name.now result w }
    {
        let Some(snapshot_root) = self.snapshots.get(name) else {
            return Err(Errno::ENOENT);
        };
        Ok(Frozen::new(snapshot_root.share()?))
    }

    /// An independent volume with the live tree as it is now and this volume's shape, in constant time, without snapshots,
    /// marks or jobs. Later changes of either do not affect the other. It fails only if a node already has 2^64 - 1 references.
    pub fn fork(&self, alloc: Global) -> Result<Volume, NoMemory>
        ensures { IfOk result (IsForkOf self.now.live) }
    {
        let root = share(self.live.indexes(), self.modified)?;
        Ok(Volume::from_root(alloc, root))
    }

    /// A volume with this live tree alone. It allocates nothing.
    pub(crate) fn from_root(alloc: Global, root: FsRoot) -> Volume
        requires { MeanSome root }
        ensures { IsForkOf root result }
    {
        let FsRoot { indexes, modified } = root;
        let live = LiveIndexes::new(alloc, indexes);
        live.assert_invariant();
        let snapshots = Snapshots::new(alloc);
        Volume {
            live,
            modified,
            snapshots,
            changes: ChangeLog::new(alloc),
        }
    }

    /// Its live indexes, for iterating over the whole live tree.
    pub fn indexes(&self) -> &Indexes
        ensures { result.now ≡ self.now.live.indexes }
    {
        self.live.indexes()
    }

    /// The snapshot of that name, for iterating over its whole tree; `None` if there is none.
    pub fn snapshot_root(&self, name: &SnapName) -> Option<&FsRoot>
        ensures { option_copied result ≡ finite.get self.now.snapshots name.now }
    {
        self.snapshots.get(name)
    }

    /// The keys at which the live tree may have other values than the snapshot of that name: all keys, or those that were
    /// touched since it was taken. ENOENT if there is none of that name, ENOMEM if an allocation fails.
    pub fn changed_since(&self, alloc: Global, name: &SnapName) -> Result<Changes, Errno>
        ensures agree { IfOk result (λ changes. (r : FsRoot) → finite.get self.now.snapshots name.now ≡ Some r → AgreeBeside changes r.indexes self.now.live.indexes) }
        ensures none { (result ≡ Err Errno.ENOENT) ↔ (finite.get self.now.snapshots name.now ≡ None) }
        ensures refused { IfErr result (λ e. (e ≡ Errno.ENOENT) ⊎ (e ≡ Errno.ENOMEM)) }
    {
        if !self.snapshots.has(name) {
            return Err(Errno::ENOENT);
        }
        let changes = self.changes.since(alloc, name)?;
        Ok(changes)
    }

    /// The name of a snapshot by its number, which counts from 0 in byte order of names; `None` past the last. It allocates
    /// nothing.
    pub fn snapshot_name(&self, number: usize) -> Option<&SnapName>
        ensures number { option_copied result ≡ slice_get (names_in self.now.snapshots) number }
        ensures names { AreNames self.now.snapshots (names_in self.now.snapshots) }
    {
        self.snapshots.name(number)
    }

    /// The flush of the fullest slot of a live index; `None` if no message is pending. It allocates nothing.
    pub fn heaviest(&self, index: Index) -> Option<TreeStep>
        ensures { HeaviestIn index result self.now.live.indexes }
    {
        self.live.heaviest(index)
    }

    /// The size of the tree of a live index: levels, nodes, pending pieces and entries. It allocates nothing.
    pub fn shape_report(&self, index: Index) -> ShapeReport
        ensures { result ≡ report_in index self.now.live.indexes }
    {
        in_tree!(self.live.indexes(), index, tree => tree.shape_report())
    }

    /// The number of pending pieces in a live index. It reads the slots of the root, and allocates nothing.
    pub fn pending(&self, index: Index) -> u128
        ensures { result ≡ pending_in index self.now.live.indexes }
    {
        in_tree!(self.live.indexes(), index, tree => tree.pending())
    }

    /// Does a tree step in the index with more pending pieces (messages, each range-delete counted once in each of its
    /// slots), or in the metadata index if both have as many: the fullest flush or, if that does not fit, a step that makes
    /// space for it. `None` exactly if no message is pending in either.
    pub fn compact_step(&mut self, alloc: Global) -> Option<CompactStep>
        ensures nothing { (result ≡ None) ↔ ((pending_in Index.Meta self.old.live.indexes ≡ 0) × (pending_in Index.Block self.old.live.indexes ≡ 0)) }
        ensures unchanged { IfNone result (self.new ≡ self.old) }
        ensures busier { IfSome result (λ r. r.step.index ≡ busier self.old.live.indexes) }
        ensures stepped { IfSome result (λ r. Stepped r.step r.reply self.old self.new) }
        ensures means { (w : World) → Means self.old w → Means self.new w }
    {
        let index = self.busier();
        let relief = self.live.compact_step(alloc, index);
        self.live.assert_invariant();
        relief
    }

    /// Prepares for a share of the live tree by `snapshot`, `freeze` or `transact`: while it exists, up to 64 new messages wait in
    /// each list of a root, so that the first changes copy no list.
    pub fn make_sharable(&mut self)
        ensures { self.new ≡ self.old }
    {
        self.live.make_sharable();
    }

    /// Sorts in the messages that waited while the live tree was shared, unless it still is. Searches pass such messages one by one.
    /// The volume abstracts to the same world.
    ///
    /// Without it, the next call that appends to the list while it is not shared does the same.
    pub fn condense(&mut self, alloc: Global)
        ensures means { (w : World) → Means self.old w → Means self.new w }
        ensures root { self.new.live.modified ≡ self.old.live.modified }
        ensures snapshots { self.new.snapshots ≡ self.old.snapshots }
        ensures marks { self.new.marks ≡ self.old.marks }
        ensures kept { KeepsMarks (live_of self.old) (live_of self.new) }
    {
        self.live.condense(alloc);
        self.live.assert_invariant();
    }

    /// The index with more pending pieces, or the metadata index if both have as many. It allocates nothing.
    pub fn busier(&self) -> Index
        ensures index { result ≡ busier self.now.live.indexes }
        ensures nothing { (pending_in result self.now.live.indexes ≡ 0) → (pending_in Index.Meta self.now.live.indexes ≡ 0) × (pending_in Index.Block self.now.live.indexes ≡ 0) }
    {
        let meta = self.pending(Index::Meta);
        let block = self.pending(Index::Block);
        if meta >= block {
            Index::Meta
        } else {
            Index::Block
        }
    }

    /// Another step of the same index to try if this one does not fit; `None` if none is known. It allocates nothing, and
    /// no claim depends on its choice.
    pub fn make_room(&self, step: Step) -> Option<Step>
        ensures { IfSome result (λ other. other.index ≡ step.index) }
    {
        self.live.make_room(step)
    }

    /// The slot of an index's root of which a job would move the most messages, the first of several, and how many it would
    /// move at most. A job can be taken of it. `None` means that no job of the index would move a message. It allocates
    /// nothing.
    pub fn backlog(&self, index: Index) -> Option<Backlog>
        ensures { BacklogIn index result (live_of self.now) }
    {
        self.live.backlog(index)
    }

    /// Takes a job of the slot with this index in the root of a tree: a reference to the slot's child, and as many of the
    /// slot's oldest messages as fit into the child. Its mark stays until the job is installed or cancelled, a snapshot is
    /// restored, or a step replaces the root or changes the slot or a node below it. Tickets count from 0, over both
    /// indexes.
    ///
    /// `NotThere`, without an allocation, if the slot does not exist, its child is a leaf, no message is pending there or it
    /// has a mark; `NoRoom` if the first message does not fit into the child, there are 64 marks, or no ticket is left.
    pub fn take_job(&mut self, alloc: Global, index: Index, slot: u8) -> TakeReply
        ensures answers { AnswersTaking index slot result (live_of self.old) (live_of self.new) }
        ensures root { self.new.live.modified ≡ self.old.live.modified }
        ensures snapshots { self.new.snapshots ≡ self.old.snapshots }
        ensures means { (w : World) → Means self.old w → Means self.new w }
    {
        let reply = self.live.take_job(alloc, index, slot);
        self.live.assert_invariant();
        reply
    }

    /// Installs a built job: its subtree replaces the child of the marked slot, and the messages that it includes are
    /// removed from the slot, with the mark. Messages that were appended since stay in the slot. Whatever the reply, the
    /// volume abstracts to the same world.
    ///
    /// `Stale`, without an allocation, if the mark was removed.
    pub fn install(&mut self, done: Done) -> InstallReply
        requires { DoneFits done (live_of self.old) }
        ensures answers { AnswersInstalling done result (live_of self.old) (live_of self.new) }
        ensures root { self.new.live.modified ≡ self.old.live.modified }
        ensures snapshots { self.new.snapshots ≡ self.old.snapshots }
        ensures means { (w : World) → Means self.old w → Means self.new w }
    {
        let reply = self.live.install(done);
        self.live.assert_invariant();
        reply
    }

    /// Removes the mark with the ticket, if there is one: the job is not to be installed. It allocates nothing.
    pub fn cancel(&mut self, ticket: Ticket)
        ensures volume { self.new ≡ record (self.old) { marks = without_mark ticket.number self.old.marks } }
        ensures kept { KeepsMarks (live_of self.old) (live_of self.new) }
    {
        self.live.cancel(ticket);
        self.live.assert_invariant();
    }

    /// Removes all marks. It allocates nothing.
    pub fn cancel_all(&mut self)
        ensures volume { self.new ≡ record (self.old) { marks = no_marks self.old.marks.given } }
        ensures kept { KeepsMarks (live_of self.old) (live_of self.new) }
    {
        self.live.cancel_all();
        self.live.assert_invariant();
    }
}
