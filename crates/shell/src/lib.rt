//! Scripts are lines of text from a reader. Each is executed as a call, and its reply is written. The crate also has the command
//! line of the program that runs scripts, and drawings of trees for Graphviz's `dot`.
//!
//! A script runs on a volume. Its contract says which replies are written and what the world is after them, also if the
//! reader or the writer fails in between, and whatever tree steps are done between its lines (`Pace`).
#![tactic(auto)]

pub mod client;
mod command;
mod command_line;
mod dot_trees;
mod dot_writer;
mod draw;
pub mod entry_lines;
mod flushers;
mod help;
mod image_search;
pub mod laws;
mod monitor;
mod node_box;
mod noted;
pub mod pace;
mod pivot;
mod program;
mod reply;
mod request;
mod script;
pub mod session;
mod tidy;
mod verdict;
mod watch;

pub use client::run_client;
pub use command::read_request;
pub use command_line::{Options, read_words};
pub use draw::{draw_alone, draw_volume};
pub use images::{ImageFault, LoadFault, load_image, print_image};
pub use pace::Pace;
pub use program::run_words;
pub use reply::write_reply;
pub use request::{ReadCall, Request};
pub use script::{ScriptFault, run_script};
pub use session::Session;
pub use textio::output::WriteFailed;
pub use tidy::Tidy;
