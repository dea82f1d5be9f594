//! Laws of images, line by line.

ghost use Rattle.reference.specs.ImageLines.{BeginningLaw, ImageLaw, LinesLaw, OneLineLaw, OneVersionLaw};

/// Lines of which each may follow those before it make a directory tree, and are its image; its mtimes are those that the
/// version records.
pub fn lines()
    ensures { LinesLaw }
{}

/// A text is an image, line by line, if and only if it is that of a directory tree. An image of version 2 has exactly one tree,
/// by `laws::trees::one_image`; version 1 records no mtimes.
pub fn images()
    ensures { ImageLaw }
{}

/// Lines, and the root's mtime, are determined by their text; a text has one version; and the first lines of an image, one or
/// more, are an image.
pub fn one_line()
    ensures version { OneVersionLaw }
    ensures known { OneLineLaw }
    ensures beginnings { BeginningLaw }
{}
