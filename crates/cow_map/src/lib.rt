//! A sorted map in shared chunks.
//!
//! What it means: a list of pairs of a key and a value, sorted by key without duplicates. Contracts see that list alone, as for
//! any sorted map.
//!
//! Its invariants:
//!
//! - the entries of all chunks, concatenated, are that list;
//! - no chunk is empty, and none has more than 128 entries;
//! - a chunk is changed only by its sole owner: a shared chunk is copied first. Only the first entries of a chunk can be
//! dropped without a copy: the chunk then begins after them;
//! - the same holds of the list of chunks of a long map.
//!
//! `stored` says what a value must support, and `edit` what an edit of one in place is. `shared_entry` is one entry, which several
//! chunks may share, `chunk` is one chunk, `chunk_edit` has the changes of its entries, and `search` finds a key among them.
//! `strides` is a search for any sorted slice, which the crates above use. `chunks` has the list of chunks: which of them has a
//! key, the only way to change one, and how chunks are split and merged. `changes` puts, edits, moves and drops entries of the
//! list, `extract` extracts a range, and `neighbours` finds the entries next to a key. `shared_rows` is a list that several maps
//! share. `map` is the public interface, and `cursor` iterates over a map.
#![tactic(auto)]

pub(crate) mod changes;
pub(crate) mod chunk;
pub(crate) mod chunk_edit;
pub(crate) mod chunks;
pub mod cursor;
pub mod edit;
pub(crate) mod extract;
pub mod map;
pub(crate) mod neighbours;
pub(crate) mod search;
pub(crate) mod shared_entry;
pub(crate) mod shared_rows;
pub mod stored;
pub mod strides;

pub use cursor::Cursor;
pub use edit::{Edit, Edited};
pub use map::CowMap;
pub use stored::CopyValue;
