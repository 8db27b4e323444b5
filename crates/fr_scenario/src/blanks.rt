//! The words of a line of version 3.
ghost use Rattle.std.specs.Prelude.{◌≡◌, ◌<◌, ◌∷◌, IfNone, IfSome, length, map, option_map};
ghost use Rattle.std.specs.List.{position, slice_split};
ghost use Rattle.fr_scenario.specs.BlankWords.{before_comment, blank_words, is_blank, is_mark, split_rest};

use arrayvec::ArrayVec;
use memchr::{memchr, memchr2};

/// The largest number of words of a line (project-defined).
pub(crate) const MOST_WORDS: usize = 6;

/// The words of a line.
pub(crate) type LineWords<'a> = ArrayVec<&'a [u8], MOST_WORDS>;

/// Returns the place of the first blank.
fn blank_in(bytes: &[u8]) -> Option<usize>
    ensures { result ≡ position is_blank bytes.now }
{
    memchr2(b' ', b'\t', bytes)
}

/// Returns the place of the mark that begins a comment.
fn mark_in(line: &[u8]) -> Option<usize>
    ensures { result ≡ position is_mark line.now }
{
    memchr(b'#', line)
}

/// Returns the line without its comment.
fn before_comment(line: &[u8]) -> &[u8]
    ensures { result.now ≡ before_comment line.now }
{
    match mark_in(line) {
        Some(at) => &line[..at],
        None => line,
    }
}

/// Returns the bytes before the first blank, and those after it if there is one.
fn cut_at_blank(bytes: &[u8]) -> (&[u8], Option<&[u8]>)
    ensures { slice_split is_blank bytes.now ≡ result.0.now ∷ split_rest (option_map (λ rest. rest.now) result.1) }
{
    match blank_in(bytes) {
        Some(at) => (&bytes[..at], Some(&bytes[at + 1..])),
        None => (bytes, None),
    }
}

/// Returns the words of a line: what stands between blanks, before the comment (project-defined).
///
/// `None` if there are more than six.
pub(crate) fn words_in(line: &[u8]) -> Option<LineWords<'_>>
    ensures words { IfSome result (λ words. map (λ word. word.now) words.items ≡ blank_words line.now) }
    ensures more { IfNone result (MOST_WORDS < length (blank_words line.now)) }
{
    let mut words = ArrayVec::new();
    let mut left = Some(before_comment(line));
    while let Some(bytes) = left {
        let (word, after) = cut_at_blank(bytes);
        if !word.is_empty() && words.try_push(word).is_err() {
            return None;
        }
        left = after;
    }
    Some(words)
}
