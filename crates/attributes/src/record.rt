//! The contents of an attribute record as Rust types.
//!
//! Valid attributes (`is_valid`) have a mode of twelve bits, and extended attributes in strictly
//! rising order of names, within the limits of Linux. Only valid attributes have a record.
ghost use Rattle.std.specs.Prelude.{◌≡◌, ◌==◌, [], ◌∷◌, ◌++◌, OnOk, not};
ghost use Rattle.std.specs.List.{list_all};
ghost use Rattle.attributes.specs.Attributes.{is_valid, may_stand, number_of, assert_invariant};
ghost use Rattle.attributes.specs.Text.{kind_word};

use bytes::Bytes;
use pathkey::NoMemory;
use std::alloc::Global;
use std::marker::Model;

/// What an entry is.
#[derive(Clone, Copy, Debug, PartialEq, Eq)]
pub enum Kind {
    /// A directory.
    Directory,
    /// A file.
    File,
    /// A symbolic link: the bytes of the file are its target.
    SymbolicLink,
    /// A named pipe.
    Fifo,
    /// A socket.
    Socket,
    /// A character device of this number.
    CharacterDevice(u64),
    /// A block device of this number.
    BlockDevice(u64),
    /// One of several names of the shared file of this number.
    NameOf(u64),
}

impl Kind {
    /// The word for the kind, as `file`.
    pub fn word(self) -> &'static [u8]
        ensures { result.now ≡ kind_word self }
    {
        match self {
            Kind::Directory => b"directory",
            Kind::File => b"file",
            Kind::SymbolicLink => b"symbolic-link",
            Kind::Fifo => b"fifo",
            Kind::Socket => b"socket",
            Kind::CharacterDevice(_) => b"character-device",
            Kind::BlockDevice(_) => b"block-device",
            Kind::NameOf(_) => b"name-of",
        }
    }

    /// The number that the kind has, if it has one.
    pub fn number(self) -> Option<u64>
        ensures { result ≡ number_of self }
    {
        match self {
            Kind::CharacterDevice(number) | Kind::BlockDevice(number) | Kind::NameOf(number) =>
                Some(number),
            _ => None,
        }
    }
}

/// An explicitly set mtime (utimensat).
#[derive(Clone, Copy, Debug, PartialEq, Eq)]
pub struct MtimeOverride {
    /// The mtime, in nanoseconds since 1970.
    pub modified: u64,
    /// The entry's own mtime when this override was set. The override is ignored once the entry's mtime
    /// is newer.
    pub until: u64,
}

/// The attributes that every entry has.
#[derive(Clone, Copy, Debug, PartialEq, Eq)]
pub struct BasicAttributes {
    /// What the entry is.
    pub kind: Kind,
    /// The twelve bits of permissions, set-user, set-group and sticky; in a record all higher bits
    /// are 0.
    pub mode: u16,
    /// The owner.
    pub user: u32,
    /// The owner's group.
    pub group: u32,
    /// The number of names of the entry (its link count).
    pub names: u64,
    /// The explicitly set mtime, if there is one.
    pub modified: Option<MtimeOverride>,
}

/// An extended attribute. In contracts, name and value are lists of bytes.
#[derive(Drop)]
pub struct ExtendedAttribute {
    /// The name, for example `user.comment`.
    pub name: Bytes,
    /// The value.
    pub value: Bytes,
}

/// A list of extended attributes. In contracts it is a plain list.
pub struct ExtendedAttributes {
    items: Vec<ExtendedAttribute>,
}

impl Drop for ExtendedAttributes {
    fn drop(self) {
        let ExtendedAttributes { items: _ } = self;
    }
}

impl Model for ExtendedAttributes {
    ghost use Rattle.std.specs.Prelude.{List};
    ghost use Rattle.attributes.specs.declared.record.ExtendedAttribute.{ExtendedAttribute};

    ghost Value = { List ExtendedAttribute };

    ghost view = { λ e. e.items.items };
}

impl ExtendedAttributes {
    /// The empty list.
    pub fn new(alloc: Global) -> ExtendedAttributes
        ensures { result ≡ [] }
    {
        ExtendedAttributes {
            items: Vec::new(alloc),
        }
    }

    /// Appends an attribute.
    pub fn push(&mut self, one: ExtendedAttribute) -> Result<(), NoMemory>
        ensures { OnOk result (self.new ≡ self.old ++ one ∷ []) }
    {
        self.items.push(one)?;
        Ok(())
    }

    /// All attributes, in the order in which they were added.
    pub fn as_slice(&self) -> &[ExtendedAttribute]
        ensures { result.now ≡ self.now }
    {
        self.items.as_slice()
    }
}

/// Everything that a record contains.
#[derive(Drop)]
pub struct Attributes {
    /// The attributes that every entry has.
    pub basic: BasicAttributes,
    /// The extended attributes.
    pub extended: ExtendedAttributes,
}

/// The greatest mode: twelve bits.
const GREATEST_MODE: u16 = 0o7777;

/// The maximal length of the name of an extended attribute.
const LONGEST_NAME: usize = 255;

/// The maximal length of its value.
const LONGEST_VALUE: usize = 65_536;

impl Attributes {
    /// Whether the attributes have a record: the mode has twelve bits, and the extended attributes are in rising order of
    /// names, with names of 1 to 255 bytes without a byte 0, and values of at most 65,536 bytes.
    pub fn is_valid(&self) -> bool
        ensures { result ≡ is_valid self.now }
    {
        self.basic.mode <= GREATEST_MODE && assert_invariant(self.extended.as_slice())
    }
}

/// Whether a record can have these extended attributes, in this order.
pub(crate) fn assert_invariant(attributes: &[ExtendedAttribute]) -> bool
    ensures { result ≡ assert_invariant [] attributes.now }
{
    let mut last = b"".as_slice();
    for one in attributes {
        let name = one.name.as_slice();
        if !last.cmp(&name).is_lt() || !may_stand(one) {
            return false;
        }
        last = name;
    }
    true
}

// Whether the name and the value are within the limits of Linux.
fn may_stand(one: &ExtendedAttribute) -> bool
    ensures { result ≡ may_stand one.now }
{
    let name = one.name.as_slice();
    name.len() <= LONGEST_NAME && has_no_null(name) && one.value.as_slice().len() <= LONGEST_VALUE
}

fn has_no_null(name: &[u8]) -> bool
    ensures { result ≡ list_all (λ b. not (b == 0)) name.now }
{
    name.iter().all(|byte| *byte != 0)
}
