//! The write-ahead log (WAL) of a store: each request that changes a volume is a record, whose body is a list of changes. The
//! crate finds the valid records in the bytes of a log, also if the log is cut or damaged. It replays them on a volume, and
//! prints them as lines of a script. `docs/FORMATS.md` has the format of logs, records and entries.
//!
//! The valid records are the longest prefix of the log that consists of whole records with consecutive numbers and right
//! digests. They depend on the bytes alone; whatever follows them is ignored.
#![tactic(auto)]

mod apply;
mod decode;
pub mod dump;
pub mod encode;
mod entry;
pub mod laws;
mod print;
mod print_entry;
pub mod record;
pub mod replay_error;
pub mod replays;
pub mod run;
mod u64_le;
pub mod wal_entry;

pub use decode::decode_entries;
pub use dump::{wal_dump, wal_dump_into};
pub use record::{next_record, record_frame};
pub use reference::PathCall;
pub use replay_error::ReplayError;
pub use replays::{ReplayReport, replay};
pub use run::{replay_body, replay_entries};
pub use wal_entry::{SnapshotCall, WalEntry};
