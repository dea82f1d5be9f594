//! Attributes as plain numbers, for C. An absent attribute is 0. Converting valid attributes to fields and back gives
//! the same attributes.
ghost use Rattle.std.specs.Prelude.{◌≡◌};
ghost use Rattle.attributes.specs.RawAttributes.{basic_of, device_of, fields_of, kind_number, kind_of, link_of, no_fields, time_of};

use crate::record::{BasicAttributes, Kind, MtimeOverride};

/// The attributes that every entry has, as plain numbers. An absent attribute is 0.
#[derive(Clone, Copy)]
#[repr(C)]
pub struct RawAttributes {
    /// The twelve bits of the mode.
    pub mode: u32,
    /// The owner.
    pub user: u32,
    /// The owner's group.
    pub group: u32,
    /// The kind: 1 for a directory, then file, symbolic link, FIFO, socket, character device, block device, and 8 for one of
    /// several names of a file.
    pub kind: u8,
    /// The number of names of the entry (its link count).
    pub names: u64,
    /// The number of the file with several names, if this is one of its names.
    pub link: u64,
    /// The number of the device, if this is one.
    pub device: u64,
    /// The explicitly set mtime, in nanoseconds since 1970.
    pub modified: u64,
    /// The entry's own mtime up to which `modified` is valid.
    pub valid_until: u64,
    /// 1 if an mtime was set explicitly, otherwise 0.
    pub has_modified: u8,
}

impl RawAttributes {
    /// All fields 0, which are not valid attributes.
    pub fn none() -> RawAttributes
        ensures { result ≡ no_fields }
    {
        RawAttributes {
            mode: 0,
            user: 0,
            group: 0,
            kind: 0,
            names: 0,
            link: 0,
            device: 0,
            modified: 0,
            valid_until: 0,
            has_modified: 0,
        }
    }

    /// Converts attributes to fields.
    pub fn of(basic: &BasicAttributes) -> RawAttributes
        ensures { result ≡ fields_of basic.now }
    {
        let fields = RawAttributes {
            mode: u32::from(basic.mode),
            user: basic.user,
            group: basic.group,
            kind: kind_number(basic.kind),
            names: basic.names,
            link: link_of(basic.kind),
            device: device_of(basic.kind),
            modified: 0,
            valid_until: 0,
            has_modified: 0,
        };
        match basic.modified {
            None => fields,
            Some(mtime_override) => RawAttributes {
                modified: mtime_override.modified,
                valid_until: mtime_override.until,
                has_modified: 1,
                ..fields
            },
        }
    }

    /// Converts fields to attributes. `None` if the kind is unknown or the mode has more than twelve bits. Fields that the kind does
    /// not use are ignored.
    pub fn basic(&self) -> Option<BasicAttributes>
        ensures { result ≡ basic_of self.now }
    {
        if self.mode > 4095 {
            return None;
        }
        let kind = self.kind()?;
        Some(BasicAttributes {
            kind,
            mode: self.mode as u16,
            user: self.user,
            group: self.group,
            names: self.names,
            modified: self.mtime_override(),
        })
    }

    // The kind.
    fn kind(&self) -> Option<Kind>
        ensures { result ≡ kind_of self.now }
    {
        match self.kind {
            1 => Some(Kind::Directory),
            2 => Some(Kind::File),
            3 => Some(Kind::SymbolicLink),
            4 => Some(Kind::Fifo),
            5 => Some(Kind::Socket),
            6 => Some(Kind::CharacterDevice(self.device)),
            7 => Some(Kind::BlockDevice(self.device)),
            8 => Some(Kind::NameOf(self.link)),
            _ => None,
        }
    }

    // The explicitly set mtime, if there is one.
    fn mtime_override(&self) -> Option<MtimeOverride>
        ensures { result ≡ time_of self.now }
    {
        if self.has_modified == 0 {
            return None;
        }
        Some(MtimeOverride {
            modified: self.modified,
            until: self.valid_until,
        })
    }
}

// The number of a kind in the field `kind`.
fn kind_number(kind: Kind) -> u8
    ensures { result ≡ kind_number kind }
{
    match kind {
        Kind::Directory => 1,
        Kind::File => 2,
        Kind::SymbolicLink => 3,
        Kind::Fifo => 4,
        Kind::Socket => 5,
        Kind::CharacterDevice(_) => 6,
        Kind::BlockDevice(_) => 7,
        Kind::NameOf(_) => 8,
    }
}

// The number of a device, and 0 for any other kind.
fn device_of(kind: Kind) -> u64
    ensures { result ≡ device_of kind }
{
    match kind {
        Kind::CharacterDevice(number) | Kind::BlockDevice(number) => number,
        _ => 0,
    }
}

// The number of a file with several names, and 0 for any other kind.
fn link_of(kind: Kind) -> u64
    ensures { result ≡ link_of kind }
{
    match kind {
        Kind::NameOf(number) => number,
        _ => 0,
    }
}
