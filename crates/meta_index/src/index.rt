//! The type `MetaIndex`: look-ups, listings and messages of the metadata.
//!
//! If the index abstracts to a directory tree, each result is the one for that tree, and the messages change the tree
//! as their contracts say.
ghost use Rattle.std.specs.Prelude.{◌≡◌, ◌+◌, ◌*◌, ◌<◌, ◌≤◌, ◌∷◌, ◌++◌, ℕ, List, [], IfOk, OnOk, IsTrue, None, length, not, true};
ghost use Rattle.std.specs.Result.{result_err};
ghost use Rattle.meta_index.specs.Asked.{AsksFor, IsFrugal};
ghost use Rattle.meta_index.specs.Listing.{IsListing};
ghost use Rattle.meta_index.specs.Below.{HasPair};
ghost use Rattle.meta_index.specs.Means.{IsMeantBy, found_meta, metadata, moment_in, moment_reported, lookup_answer};
ghost use Rattle.node.specs.Shapes.{is_shape};
ghost use Rattle.pathkey.specs.Keys.{enc, next_key, subtree};
ghost use Rattle.pathkey.specs.Names.{IsPath, Name};
ghost use Rattle.reference.specs.Calls.{is_found, is_full, names_of, parent, parent_fault};
ghost use Rattle.reference.specs.Reads.{look};
ghost use Rattle.reference.specs.Pairs.{pairs_of};
ghost use Rattle.reference.specs.Tree.{Dir, Tree as DirectoryTree, entry_at, nothing};
ghost use Rattle.reference.specs.declared.reply.Kind.{Kind as EntryKind};
ghost use Rattle.scan.specs.Pairs.{AreFrom, IsGiven, IsScan};

use crate::at::At;
use crate::entries::{end_below, keys_below, kind_of, name_behind};
use crate::entry_sink::EntrySink;
use crate::likely::{given_in_root, last_of_leaf};
use crate::update::MetaUpdate;
use lookup::get;
use message::Msg;
use node::{Shape, Tree};
use pathkey::{Errno, Key, KeyRange, NoMemory, Path, subtree};
use reference::{Kind, Meta};
use scan::readahead::Readahead;
use scan::scan;
use std::alloc::Global;

/// How many pairs a test for emptiness asks for. A walk for one pair would go down anew for each entry that was flushed and whose
/// removal was not.
const FEW: usize = 4;

/// The metadata of each path that exists, including the root, under the path's key.
#[derive(Drop)]
pub struct MetaIndex {
    /// The buffered tree that holds them.
    pub tree: Tree<MetaUpdate>,
}

impl MetaIndex {
    /// The index of the empty root directory, with mtime 0, whose entry is one pending message in a new tree. It fails only if an
    /// allocation fails.
    pub fn new(alloc: Global, shape: Shape) -> Result<MetaIndex, NoMemory>
        requires { IsTrue (is_shape shape) }
        ensures shape { IfOk result (λ m. m.tree.shape ≡ shape) }
        ensures empty { IfOk result (λ m. IsMeantBy (Dir 0 nothing) m) }
    {
        let mut tree = Tree::new(alloc, shape)?;
        let mut msgs = Vec::with_capacity(alloc, 1)?;
        msgs.push(Msg::Put(Key::new(alloc), Meta::Dir { modified: 0 }))?;
        tree.append(alloc, msgs)?;
        Ok(MetaIndex { tree })
    }

    /// The metadata of the entry at the path, by one lookup; `None` if there is none. It fails only if an allocation fails.
    pub fn entry(&self, alloc: Global, path: &Path) -> Result<Option<Meta>, NoMemory>
        ensures value { IfOk result (λ meta. meta ≡ metadata self.now (enc path.now)) }
        ensures valid { IfOk result (λ _. IsPath path.now) }
    {
        get(alloc, &self.tree, path.key())
    }

    /// The entry at the path, or why there is none. It fails only if an allocation fails.
    ///
    /// It returns what the metadata under the keys of the path and of its ancestors say, also if the index abstracts to no
    /// tree.
    pub fn find(&self, alloc: Global, path: &Path) -> Result<At, NoMemory>
        ensures reported { IfOk result (λ at. (t : DirectoryTree) → IsMeantBy t self.now → at ≡ lookup_answer (entry_at t path.now)) }
        ensures value { IfOk result (λ at. found_meta at ≡ metadata self.now (enc path.now)) }
    {
        match self.entry(alloc, path)? {
            Some(meta) => Ok(At::Found(meta)),
            None => self.find_obstacle(alloc, path),
        }
    }

    /// Whether the path exists, by one lookup. It fails only if an allocation fails.
    pub fn has(&self, alloc: Global, path: &Path) -> Result<bool, NoMemory>
        ensures { IfOk result (λ there. (t : DirectoryTree) → IsMeantBy t self.now → there ≡ is_found (entry_at t path.now)) }
    {
        let meta = self.entry(alloc, path)?;
        Ok(meta.is_some())
    }

    /// Why the path does not exist: the nearest existing path above is a directory, or a file.
    fn find_obstacle(&self, alloc: Global, path: &Path) -> Result<At, NoMemory>
        ensures reported { IfOk result (λ at. (t : DirectoryTree) → IsMeantBy t self.now → look t path.now ≡ None → at ≡ lookup_answer (entry_at t path.now)) }
        ensures nothing { IfOk result (λ at. found_meta at ≡ None) }
    {
        let mut ancestor = path.parent(alloc)?;
        'climb: while let Some(above) = ancestor {
            if let Some(meta) = self.entry(alloc, &above)? {
                return Ok(At::below(meta));
            }
            ancestor = above.parent(alloc)?;
        }
        // Unreachable if the index abstracts to a tree, since the root exists.
        Ok(At::Missing)
    }

    /// The parent of the path, if a directory is there, or why no entry can be created at the path; the root is its own parent.
    /// It fails only if an allocation fails.
    pub fn find_parent(&self, alloc: Global, path: &Path) -> Result<Result<Path, Errno>, NoMemory>
        ensures parent { IfOk result (λ found. IfOk found (λ p. p ≡ parent path.now)) }
        ensures fault { IfOk result (λ found. (t : DirectoryTree) → IsMeantBy t self.now → result_err found ≡ parent_fault t path.now) }
    {
        match self.find_parent_mtime(alloc, path)? {
            Ok((parent, _)) => Ok(Ok(parent)),
            Err(fault) => Ok(Err(fault)),
        }
    }

    /// The parent of the path with its mtime, if a directory is there, or why no entry can be created at the path; the root is
    /// its own parent. It fails only if an allocation fails.
    pub fn find_parent_mtime(
        &self,
        alloc: Global,
        path: &Path,
    ) -> Result<Result<(Path, u64), Errno>, NoMemory>
        ensures parent { IfOk result (λ found. IfOk found (λ dated. dated.0 ≡ parent path.now)) }
        ensures moment { IfOk result (λ found. (t : DirectoryTree) → IsMeantBy t self.now → moment_in found ≡ moment_reported (entry_at t (parent path.now))) }
    {
        let parent = match path.parent(alloc)? {
            Some(parent) => parent,
            None => Path::root(alloc),
        };
        match self.find(alloc, &parent)?.directory_mtime() {
            Ok(modified) => Ok(Ok((parent, modified))),
            Err(fault) => Ok(Err(fault)),
        }
    }

    /// Why no entry can be created at the path: its parent is not a directory; `None` if it is one, and at the root. It fails
    /// only if an allocation fails.
    pub fn fault_of_parent(&self, alloc: Global, path: &Path) -> Result<Option<Errno>, NoMemory>
        ensures { IfOk result (λ fault. (t : DirectoryTree) → IsMeantBy t self.now → fault ≡ parent_fault t path.now) }
    {
        Ok(self.find_parent(alloc, path)?.err())
    }

    /// Whether nothing exists below the path: true for an empty directory, and if there is no directory at the path. It fails
    /// only if an allocation fails.
    pub fn is_empty_dir(&self, alloc: Global, path: &Path) -> Result<bool, NoMemory>
        ensures { IfOk result (λ empty. (t : DirectoryTree) → IsMeantBy t self.now → empty ≡ not (is_full (entry_at t path.now))) }
    {
        let mut searches = 0;
        self.is_empty_dir_counted(alloc, path, &mut searches)
    }

    /// Whether nothing exists below the path, as `is_empty_dir` reports it. It stores in `searches` how often it walked the tree:
    /// once.
    pub fn is_empty_dir_counted(
        &self,
        alloc: Global,
        path: &Path,
        searches: &mut u64,
    ) -> Result<bool, NoMemory>
        ensures empty { IfOk result (λ empty. (t : DirectoryTree) → IsMeantBy t self.now → empty ≡ not (is_full (entry_at t path.now))) }
        ensures counted { OnOk result (searches.new ≡ 1) }
    {
        let below = keys_below(alloc, path)?;
        *searches = 1;
        let pairs = scan(alloc, &self.tree, &below, FEW)?;
        Ok(pairs.as_slice().is_empty())
    }

    /// Whether something exists below the path, by looking up keys at which an entry probably exists. `true` is certain; `false`
    /// says nothing.
    ///
    /// A walk to the first pair passes every removed name, which this does not: call it first if a directory is probably not
    /// empty. It fails only if an allocation fails.
    pub fn probe_nonempty(&self, alloc: Global, path: &Path) -> Result<bool, NoMemory>
        ensures { IfOk result (λ there. there ≡ true → (t : DirectoryTree) → IsMeantBy t self.now → is_full (entry_at t path.now) ≡ true) }
    {
        let range = keys_below(alloc, path)?;
        self.has_likely(alloc, &range)
    }

    /// Whether the range has a pair at a guessed key; `false` says nothing about the range.
    fn has_likely(&self, alloc: Global, range: &KeyRange) -> Result<bool, NoMemory>
        ensures { IfOk result (λ there. there ≡ true → HasPair (metadata self.now) range.now.lo range.now.hi) }
    {
        let is_last = self.has_last(alloc, range)?;
        if is_last {
            return Ok(true);
        }
        self.has_given(alloc, range)
    }

    /// Whether the range has a pair at the last entry of the leaf in which it ends.
    fn has_last(&self, alloc: Global, range: &KeyRange) -> Result<bool, NoMemory>
        ensures { IfOk result (λ there. there ≡ true → HasPair (metadata self.now) range.now.lo range.now.hi) }
    {
        match last_of_leaf(&self.tree, range) {
            None => Ok(false),
            Some(key) => self.has_in(alloc, range, key),
        }
    }

    /// Whether the range has a pair at a key to which a message of the root gives a value.
    fn has_given(&self, alloc: Global, range: &KeyRange) -> Result<bool, NoMemory>
        ensures { IfOk result (λ there. there ≡ true → HasPair (metadata self.now) range.now.lo range.now.hi) }
    {
        match given_in_root(alloc, &self.tree, range)? {
            None => Ok(false),
            Some(key) => self.has_in(alloc, range, key),
        }
    }

    /// Whether the key is in the range and has a value.
    fn has_in(&self, alloc: Global, range: &KeyRange, key: &Key) -> Result<bool, NoMemory>
        ensures { IfOk result (λ there. there ≡ true → HasPair (metadata self.now) range.now.lo range.now.hi) }
    {
        if !range.contains(key) {
            return Ok(false);
        }
        let meta = get(alloc, &self.tree, key)?;
        Ok(meta.is_some())
    }

    /// The entries of the directory at the path, kind and name of each, in byte order of names; none if no directory is there. It
    /// fails only if an allocation fails.
    ///
    /// It reads one entry after the other, and skips what is below each.
    pub fn children(&self, alloc: Global, path: &Path) -> Result<Vec<(Kind, Vec<u8>)>, NoMemory>
        ensures { IfOk result (λ v. (t : DirectoryTree) → IsMeantBy t self.now → pairs_of v.items ≡ names_of (entry_at t path.now)) }
    {
        let mut searches = 0;
        self.children_counted(alloc, path, &mut searches)
    }

    /// The entries of the directory at the path, as `children` lists them. It stores in `searches` how often it walked the tree:
    /// at most once for each entry, and once more. No walk requests more than 256 pairs.
    pub fn children_counted(
        &self,
        alloc: Global,
        path: &Path,
        searches: &mut u64,
    ) -> Result<Vec<(Kind, Vec<u8>)>, NoMemory>
        ensures listed { IfOk result (λ v. (t : DirectoryTree) → IsMeantBy t self.now → pairs_of v.items ≡ names_of (entry_at t path.now)) }
        ensures counted { IfOk result (λ v. (0 < searches.new) × (searches.new ≤ length v.items + 1) × (length v.items ≤ 256 * searches.new)) }
    {
        let mut entries = Vec::new(alloc);
        let mut pairs = 0;
        self.list(alloc, path, &mut entries, searches, &mut pairs)?;
        Ok(entries)
    }

    /// Passes the entries of the directory at the path to the sink, in byte order of names; none if no directory is there. If an
    /// allocation fails, the sink may have some of them.
    ///
    /// It stores in `walks` how often it walked the tree: at most once for each entry, and once more. It stores in `pairs` how many
    /// pairs these walks requested in total: at most two for each entry, and 32 more, whatever is below the entries.
    pub fn list<S: EntrySink>(
        &self,
        alloc: Global,
        path: &Path,
        sink: &mut S,
        walks: &mut u64,
        pairs: &mut u64,
    ) -> Result<(), NoMemory>
        ensures { S.has sink.old [] → OnOk result ((es : List (EntryKind × Name)) × S.has sink.new es × IsListing self.now path.now es walks.new pairs.new) }
    {
        let mut rest = keys_below(alloc, path)?;
        let mut pieces = Readahead::new(alloc);
        let mut next = pieces.first(alloc, &self.tree, &rest)?;
        'entries: while let Some((key, meta)) = next {
            sink.receive(alloc, kind_of(meta), name_behind(path.key(), &key))?;
            next = self.first_past(alloc, &key, &mut rest, &mut pieces)?;
        }
        *walks = pieces.walks;
        *pairs = pieces.asked;
        Ok(())
    }

    /// The first pair of the range after everything at or below the path with this key.
    ///
    /// The keys below it are skipped by their prefix; their end is built as a key only for a new batch.
    fn first_past(
        &self,
        alloc: Global,
        key: &Key,
        rest: &mut KeyRange,
        pieces: &mut Readahead<MetaUpdate>,
    ) -> Result<Option<(Key, Meta)>, NoMemory>
        ensures hi { rest.new.hi ≡ rest.old.hi }
        ensures asked { IfOk result (λ r. (g : ℕ) → IsFrugal g (length pieces.old.pairs.items) pieces.old.most pieces.old.walks pieces.old.asked pieces.old.all → AsksFor g r (length pieces.new.pairs.items) pieces.new.most pieces.new.walks pieces.new.asked pieces.new.all) }
        ensures given { IfOk result (λ r. (s : List ℕ) → key.now ≡ s ++ 0 ∷ [] → AreFrom (metadata self.now) (next_key key.now) rest.old.hi pieces.old.all pieces.old.pairs.items → IsGiven (metadata self.now) (s ++ 1 ∷ []) rest.old.hi r pieces.new.all pieces.new.pairs.items) }
    {
        if let Some(pair) = pieces.next_past(key) {
            return Ok(Some(pair));
        }
        if pieces.all {
            return Ok(None);
        }
        rest.lo = end_below(alloc, key)?;
        pieces.first(alloc, &self.tree, rest)
    }

    /// The first `limit` pairs of the path's subtree, including its own, in key order, or all if there are fewer. It fails only
    /// if an allocation fails.
    pub fn below(
        &self,
        alloc: Global,
        path: &Path,
        limit: usize,
    ) -> Result<Vec<(Key, Meta)>, NoMemory>
        ensures { IfOk result (λ v. IsScan (metadata self.now) (subtree path.now).lo (subtree path.now).hi limit v.items) }
    {
        scan(alloc, &self.tree, &subtree(alloc, path)?, limit)
    }
}
