//! Chooses the calls of a client, by pseudo-random numbers.
use crate::history::call::{PathRequest, Request};
use crate::history::names::{AREAS, DIRECTORIES, FIRST_OFFSET, PLACES, ROOT, SNAPSHOTS};
use test_support::Random;

/// The number of areas that have half of the calls, so that clients often use the same one.
const BUSY: u32 = 4;

/// The number of offsets of a write, and the distance between them. A mark is longer than the distance, so neighbours overlap, and
/// two of them cross the end of a block.
const OFFSETS: u32 = 5;

const OFFSETS_APART: u64 = 5;

/// The number of lengths of a truncate besides 0, and the distance between them.
const LENGTHS: u32 = 11;

const LENGTHS_APART: u64 = 3;

/// The average number of calls after which a client sleeps.
const REST_AFTER: u32 = 4;

/// The client's number plus one is above this in a mark.
const CLIENT: u64 = 1 << 32;

/// The generator of a client's calls.
#[derive(Drop)]
pub struct Draw {
    random: Random,
    client: u64,
    marks: u64,
    /// The next call, if it follows from the last: a read of a snapshot that was taken, a scan of a tree that was restored, a read of
    /// what was changed.
    then: Option<Request>,
}

impl Draw {
    /// The first call is chosen by the seed and the client's number.
    pub fn new(seed: u32, client: usize) -> Draw {
        let number = (client % 64) as u32;
        let first = seed.wrapping_mul(64).wrapping_add(number);
        Draw {
            random: Random(first.wrapping_mul(2_654_435_761)),
            client: u64::from(number).wrapping_add(1),
            marks: 0,
            then: None,
        }
    }

    /// The number of an area's first path.
    fn area(&mut self) -> usize {
        let areas = if self.random.below(2) == 0 {
            BUSY
        } else {
            AREAS as u32
        };
        (self.random.below(areas) as usize).wrapping_mul(PLACES)
    }

    /// The number of a path in an area at which there is mostly a directory.
    fn directory(&mut self) -> usize {
        self.random.below(DIRECTORIES) as usize
    }

    /// The number of a path in an area at which there is mostly a file.
    fn leaf(&mut self) -> usize {
        let leaves = (PLACES as u32).wrapping_sub(DIRECTORIES);
        (self.random.below(leaves) as usize).wrapping_add(DIRECTORIES as usize)
    }

    /// The path of a directory, rarely of a leaf.
    fn directory_path(&mut self) -> usize {
        let place = if self.random.below(8) == 0 {
            self.leaf()
        } else {
            self.directory()
        };
        self.area().wrapping_add(place)
    }

    /// The path of a leaf, rarely of a directory.
    fn leaf_path(&mut self) -> usize {
        let place = if self.random.below(16) == 0 {
            self.directory()
        } else {
            self.leaf()
        };
        self.area().wrapping_add(place)
    }

    /// The path of a directory or the root.
    fn listed_path(&mut self) -> usize {
        if self.random.below(16) == 0 {
            ROOT
        } else {
            self.directory_path()
        }
    }

    /// Two paths of one area for a rename. Nothing is renamed to a path that has fewer places below it: a leaf has none, and
    /// the directories 1 and 2 have the same. The first of all is never renamed, since the other path is below it.
    fn moved(&mut self) -> (usize, usize) {
        match self.random.below(16) {
            0..=8 => (self.leaf(), self.leaf()),
            9..=10 => (1, 2),
            11..=12 => (2, 1),
            13..=14 => (self.leaf(), self.directory()),
            _ => (0, self.leaf()),
        }
    }

    /// A write to a file of a mark that no client has written: the client's number in its first half, and a count in its second.
    fn patch(&mut self, path: usize) -> PathRequest {
        let offset = u64::from(self.random.below(OFFSETS)).wrapping_mul(OFFSETS_APART);
        self.marks = self.marks.wrapping_add(1);
        let mark = self.client.wrapping_mul(CLIENT).wrapping_add(self.marks);
        PathRequest::Write(path, FIRST_OFFSET.wrapping_add(offset), mark)
    }

    /// A truncate, one in four of them to length 0.
    fn truncate(&mut self) -> PathRequest {
        let path = self.leaf_path();
        if self.random.below(4) == 0 {
            return PathRequest::Truncate(path, 0);
        }
        let more = u64::from(self.random.below(LENGTHS)).wrapping_mul(LENGTHS_APART);
        PathRequest::Truncate(path, FIRST_OFFSET.wrapping_add(more))
    }

    /// The number of a snapshot's name.
    fn name(&mut self) -> usize {
        self.random.below(SNAPSHOTS as u32) as usize
    }

    /// Whether the client sleeps before its next call.
    pub fn rests(&mut self) -> bool {
        self.random.below(REST_AFTER) == 0
    }

    /// A call on paths that changes something.
    fn change(&mut self) -> PathRequest {
        match self.random.below(100) {
            0..=35 => {
                let path = self.leaf_path();
                self.patch(path)
            }
            36..=45 => self.truncate(),
            46..=64 => PathRequest::Create(self.leaf_path()),
            65..=82 => PathRequest::Mkdir(self.directory_path()),
            83..=85 => PathRequest::Unlink(self.leaf_path()),
            86..=90 => PathRequest::Rmdir(self.directory_path()),
            91 => PathRequest::Rmtree(self.directory_path()),
            _ => {
                let area = self.area();
                let (from, to) = self.moved();
                PathRequest::Rename(area.wrapping_add(from), area.wrapping_add(to))
            }
        }
    }

    /// A call on paths that only reads.
    fn look(&mut self) -> PathRequest {
        match self.random.below(8) {
            0 => PathRequest::Stat(self.directory_path()),
            1 => PathRequest::Stat(self.leaf_path()),
            2..=3 => PathRequest::Readdir(self.listed_path()),
            _ => PathRequest::Read(self.leaf_path()),
        }
    }

    /// A random call.
    fn chosen(&mut self) -> Request {
        match self.random.below(1_000) {
            0..=489 => Request::Path(self.look()),
            490..=985 => Request::Path(self.change()),
            986..=988 => Request::Keep(self.name()),
            989..=991 => Request::Drop(self.name()),
            992..=995 => Request::Restore(self.name()),
            996..=997 => Request::Look(self.name()),
            _ => Request::Scan,
        }
    }

    /// The call after a write: another patch of the file, or a read of it.
    fn behind_write(&mut self, path: usize) -> Option<Request> {
        match self.random.below(8) {
            0..=1 => Some(Request::Path(self.patch(path))),
            2..=3 => Some(Request::Path(PathRequest::Read(path))),
            4 => Some(Request::Path(PathRequest::Stat(path))),
            _ => None,
        }
    }

    /// The call after a call on paths: a read of what was changed.
    fn behind_path_call(&mut self, request: PathRequest) -> Option<Request> {
        match request {
            PathRequest::Write(path, _, _) => self.behind_write(path),
            PathRequest::Mkdir(path)
            | PathRequest::Create(path)
            | PathRequest::Truncate(path, _)
            | PathRequest::Unlink(path)
            | PathRequest::Rmdir(path)
            | PathRequest::Rename(path, _)
            | PathRequest::Rmtree(path) => match self.random.below(4) {
                0 => Some(Request::Path(PathRequest::Stat(path))),
                _ => None,
            },
            PathRequest::Read(_) | PathRequest::Stat(_) | PathRequest::Readdir(_) => None,
        }
    }

    /// The next call. A call that takes or restores a snapshot is followed by one that reads all paths of it.
    pub fn next(&mut self) -> Request {
        let request = match self.then {
            Some(request) => request,
            None => self.chosen(),
        };
        self.then = match request {
            Request::Keep(name) => Some(Request::Look(name)),
            Request::Restore(_) => Some(Request::Scan),
            Request::Path(request) => self.behind_path_call(request),
            _ => None,
        };
        request
    }
}
