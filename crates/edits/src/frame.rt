//! The first and the last line of a text of edits.
ghost use Rattle.std.specs.Prelude.{◌≡◌, ◌++◌, ◌∷◌, MatchOption};
ghost use Rattle.textio.specs.Lines.{IsFirstBad};
ghost use Rattle.edits.specs.Lines.{AreSomeEdits, heading};

use textio::words::split_line;

/// The text behind the first line, `delta 2`. `None` if the text has another first line, or none.
pub(crate) fn behind_heading(text: &[u8]) -> Option<&[u8]>
    ensures { MatchOption result (IsFirstBad AreSomeEdits 1 text.now) (λ lines. text.now ≡ heading ++ 10 ∷ lines.now) }
{
    let Some((line, behind)) = split_line(text) else {
        return None;
    };
    if line == b"delta 2".as_slice() {
        Some(behind)
    } else {
        None
    }
}
