//! The two versions of an image's text (`docs/FORMATS.md`). They differ in the letters of lines, and in whether lines
//! have mtimes.
ghost use Rattle.std.specs.Prelude.{◌≡◌, ◌∷◌, []};
ghost use Rattle.reference.specs.Image.{directory_letter, file_letter};
ghost use Rattle.images.specs.Image.{version_of};

/// A version of an image's text.
#[derive(Clone, Copy, Debug, PartialEq, Eq)]
pub enum ImageVersion {
    /// Version 1, without mtimes.
    First,
    /// Version 2, in which each line of an entry ends with its mtime.
    Second,
}

/// The first letter of a directory's line.
pub(crate) fn directory_letter(version: ImageVersion) -> &'static [u8]
    ensures { result.now ≡ directory_letter (version_of version) ∷ [] }
{
    match version {
        ImageVersion::First => b"d",
        ImageVersion::Second => b"D",
    }
}

/// The first letter of a file's line.
pub(crate) fn file_letter(version: ImageVersion) -> &'static [u8]
    ensures { result.now ≡ file_letter (version_of version) ∷ [] }
{
    match version {
        ImageVersion::First => b"f",
        ImageVersion::Second => b"F",
    }
}

/// What precedes the path of a directory.
pub(crate) fn directory_word(version: ImageVersion) -> &'static [u8]
    ensures { result.now ≡ directory_letter (version_of version) ∷ 32 ∷ [] }
{
    match version {
        ImageVersion::First => b"d ",
        ImageVersion::Second => b"D ",
    }
}

/// What precedes the path of a file.
pub(crate) fn file_word(version: ImageVersion) -> &'static [u8]
    ensures { result.now ≡ file_letter (version_of version) ∷ 32 ∷ [] }
{
    match version {
        ImageVersion::First => b"f ",
        ImageVersion::Second => b"F ",
    }
}
