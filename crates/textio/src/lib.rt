//! Text formats line by line, as scripts and images have them: text is read in pieces, split into lines and words, and written
//! with numbers, bytes in hexadecimal and names in percent form. `docs/FORMATS.md` defines numbers, hexadecimal and percent
//! form.
//!
//! If a reader or a writer fails, contracts say which prefix was read or written before: what was written is always a prefix of
//! the text.
#![tactic(auto)]

pub mod input;
pub mod line_buffer;
pub mod output;
pub mod short_line;
pub mod text;
pub mod values;
pub mod words;
