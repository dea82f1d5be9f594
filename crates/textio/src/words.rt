//! The lines of a text and the words of a line, as slices. A line ends with a line feed, and one space separates words.
ghost use Rattle.std.specs.Prelude.{◌≡◌, ◌≢◌, ◌++◌, ◌<◌, [], ◌∷◌, All, MatchOption, length, take, option_map, slice_index};
ghost use Rattle.textio.specs.Lines.{at_sign, words_of};

use memchr::memchr;

/// The first word of a line, and the text after its space; `None` if the line is one word.
pub fn split_word(line: &[u8]) -> Option<(&[u8], &[u8])>
    ensures { MatchOption result (words_of line.now ≡ line.now ∷ [])
        (λ cut. words_of line.now ≡ cut.0.now ∷ words_of cut.1.now) }
{
    let end = position(line, b' ')?;
    let (word, rest) = line.split_at(end);
    Some((word, &rest[1..]))
}

/// The first line of a text, and the text after its line feed; `None` if the text has none.
pub fn split_line(text: &[u8]) -> Option<(&[u8], &[u8])>
    ensures { MatchOption result (All (λ b. b ≢ 10) text.now)
        (λ cut. (text.now ≡ cut.0.now ++ 10 ∷ cut.1.now) × All (λ b. b ≢ 10) cut.0.now) }
{
    cut_at(text, b'\n')
}

/// The text before and after its first space; `None` if it has none.
pub fn split_space(text: &[u8]) -> Option<(&[u8], &[u8])>
    ensures { MatchOption result (All (λ b. b ≢ 32) text.now)
        (λ cut. (text.now ≡ cut.0.now ++ 32 ∷ cut.1.now) × All (λ b. b ≢ 32) cut.0.now) }
{
    cut_at(text, b' ')
}

// The text before and after the first byte `wanted`; `None` if it has none.
fn cut_at(text: &[u8], wanted: u8) -> Option<(&[u8], &[u8])>
    ensures { MatchOption result (All (λ b. b ≢ wanted) text.now)
        (λ cut. (text.now ≡ cut.0.now ++ wanted ∷ cut.1.now) × All (λ b. b ≢ wanted) cut.0.now) }
{
    let end = position(text, wanted)?;
    let (front, rest) = text.split_at(end);
    Some((front, &rest[1..]))
}

/// The word before and after its first `@`; `None` if it has none.
pub fn split_at_sign(word: &[u8]) -> Option<(&[u8], &[u8])>
    ensures { option_map (λ cut. (cut.0.now, cut.1.now)) result ≡ at_sign word.now }
{
    let end = position(word, b'@')?;
    let (front, rest) = word.split_at(end);
    Some((front, &rest[1..]))
}

// The place of the first byte that is this one.
fn position(text: &[u8], wanted: u8) -> Option<usize>
    ensures { MatchOption result (All (λ b. b ≢ wanted) text.now)
        (λ i. (i < length text.now) × (slice_index text.now i ≡ wanted) × All (λ b. b ≢ wanted) (take i text.now)) }
{
    memchr(wanted, text)
}
