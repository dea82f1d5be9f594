//! Support for the tests of several crates: an update, messages in plain numbers, a reference map under the same messages,
//! file calls and replies that constant tables can contain, tables that are checked row by row, and pseudo-random numbers and
//! steps.
#![tactic(auto)]

pub mod ask;
pub mod digit;
pub mod files;
pub mod plain;
pub mod random;
pub mod row;
pub mod some_steps;
pub mod table_rows;

pub use ask::{ExpectedReply, SampleCall};
pub use digit::Digit;
pub use files::file_name;
pub use plain::{Plain, are, are_numbered, batch, key, number, range, waits};
pub use random::Random;
pub use row::Row;
pub use some_steps::some_tree_step;
pub use table_rows::{Holds, all_hold};
