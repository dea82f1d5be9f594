//! The attributes that an entry has beside its bytes: kind, mode, owner, an explicitly set mtime, and extended
//! attributes.
//!
//! They are kept in the *attribute record* of the entry: a small text file of the same volume, below a reserved
//! name of the root. This crate defines a record's path and its text; `docs/FORMATS.md` has the format of both. It
//! knows no volumes.
//!
//! Each path has at most one record, no record's path is a path of a user, and valid attributes have exactly one
//! text.
#![tactic(auto)]

pub mod buffers;
pub mod laws;
mod printing;
pub mod raw_attributes;
mod reading;
pub mod record;
pub mod record_paths;
pub mod xattr_codec;

pub use printing::print;
pub use raw_attributes::RawAttributes;
pub use reading::parse;
pub use record::{
    Attributes, BasicAttributes, ExtendedAttribute, ExtendedAttributes, Kind, MtimeOverride,
};
pub use record_paths::{is_reserved, record_dir, record_path, text_of};
pub use xattr_codec::{decode_xattrs, encode_xattrs};
