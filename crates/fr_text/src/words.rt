//! The words of a line.
ghost use Rattle.std.specs.Prelude.{◌≡◌};
ghost use Rattle.std.specs.List.{position};
ghost use Rattle.fr_text.specs.Spaces.{is_space};

use crate::hexes::{MOST_BYTES, bytes_in_front, bytes_into, twins_into};
use crate::numbers::{number_in_front, number_of};
use arrayvec::ArrayVec;
use memchr::memchr;
use std::marker::Model;

/// The words that a line has left.
///
/// The line is cut at each space. An empty line has one word, the empty one. A word is also empty between two spaces,
/// and between a space and an end of the line.
#[derive(Drop)]
pub struct Words<'a> {
    rest: &'a [u8],
    done: bool,
}

impl<'a> Model for Words<'a> {
    ghost use Rattle.std.specs.Prelude.{List, ℕ};

    ghost Value = { List (List ℕ) };

    ghost use Rattle.fr_text.specs.Words.{left_of};

    ghost view = { left_of };
}

impl<'a> Words<'a> {
    ghost use Rattle.std.specs.Prelude.{◌≡◌, ◌≢◌, ◌<◌, ◌≤◌, ◌∷◌, [], ◌++◌, length, drop, true, false};
    ghost use Rattle.std.specs.Prelude.{option_to_list, option_copied, Some, None, IfNone, IfSome, IfOk, IfErr};
    ghost use Rattle.fr_text.specs.Reading.{number_in, bytes_in, first_in};
    ghost use Rattle.fr_text.specs.Spaces.{words_of};
    ghost use Rattle.fr_text.specs.Words.{ended};

    /// Returns the words of a line, which is given without its line feed.
    pub fn new(line: &'a [u8]) -> Words<'a>
        ensures { result ≡ words_of line.entry.now }
    {
        Words {
            rest: line,
            done: false,
        }
    }

    /// Takes the next word, from left to right. Returns `None` once all words are taken.
    pub fn next_word(&mut self) -> Option<&'a [u8]>
        ensures words { self.old ≡ option_to_list (option_copied result) ++ self.new }
        ensures end { IfNone result (self.old ≡ []) }
    {
        if self.done {
            return None;
        }
        let rest = self.rest;
        match space_in(rest) {
            Some(at) => {
                self.rest = &rest[at + 1..];
                Some(&rest[..at])
            }
            None => {
                self.done = true;
                Some(rest)
            }
        }
    }

    /// Takes the next word, and gives the number below `bound` that it spells, or otherwise the word.
    ///
    /// The number is the one that `number_of` reads. `None` once all words are taken.
    ///
    /// A number of few digits is read while the end of its word is sought, and a dash means "none" in lines. So both
    /// are found without a search for the next space.
    #[inline(always)]
    pub fn next_number_or(&mut self, bound: u64) -> Option<Result<u64, &'a [u8]>>
        ensures number { IfSome result (λ r. IfOk r (λ n. first_in (number_in bound) self.old ≡ Some n)) }
        ensures below { IfSome result (λ r. IfOk r (λ n. n < bound)) }
        ensures word { IfSome result (λ r. IfErr r (λ w. first_in Some self.old ≡ Some w.now)) }
        ensures none { IfSome result (λ r. IfErr r (λ w. number_in bound w.now ≡ None)) }
        ensures end { IfNone result (self.old ≡ []) }
        ensures left { self.new ≡ drop 1 self.old }
    {
        if self.done {
            return None;
        }
        let rest = self.rest;
        // Numbers that are read as their digits come save 3 % of an audit. Any other word goes the common way, so no
        // second reading is proved.
        if let Some((len, number)) = number_in_front(rest, bound) {
            if len == rest.len() {
                self.done = true;
                return Some(Ok(number));
            }
            if rest[len] == b' ' {
                self.rest = &rest[len + 1..];
                return Some(Ok(number));
            }
        }
        if rest.len() > 1 && rest[0] == b'-' && rest[1] == b' ' {
            self.rest = &rest[2..];
            return Some(Err(&rest[..1]));
        }
        let word = self.next_word()?;
        match number_of(word, bound) {
            Some(number) => Some(Ok(number)),
            None => Some(Err(word)),
        }
    }

    /// Takes the next word, and gives the number below `bound` that it spells.
    ///
    /// The number is the one that `number_of` reads. `None` if the word spells none, and once all words are taken.
    #[inline(always)]
    pub fn next_number(&mut self, bound: u64) -> Option<u64>
        ensures number { result ≡ first_in (number_in bound) self.old }
        ensures below { IfSome result (λ n. n < bound) }
        ensures left { self.new ≡ drop 1 self.old }
    {
        match self.next_number_or(bound) {
            Some(Ok(number)) => Some(number),
            Some(Err(_)) | None => None,
        }
    }

    // Bytes that are read as their digits come save 2 to 4 % of an audit. A payload of a commit that was read like this
    // took 1 % more, so the word of a payload is found by `memchr` first.
    /// Takes the next word and replaces the bytes by those that it spells, or otherwise gives the word.
    ///
    /// At most `N` bytes are read, as `bytes_into` reads them. If the word is given, the bytes are unspecified. `None`
    /// once all words are taken.
    ///
    /// Digits are read while the end of their word is sought, so a word of digits is found without a search.
    #[inline(always)]
    pub fn next_bytes_or<const N: usize>(
        &mut self,
        bytes: &mut ArrayVec<u8, N>,
    ) -> Option<Result<(), &'a [u8]>>
        requires { N ≤ MOST_BYTES }
        ensures bytes { IfSome result (λ r. IfOk r (λ _. first_in (bytes_in N) self.old ≡ Some bytes.new.items)) }
        ensures word { IfSome result (λ r. IfErr r (λ w. first_in Some self.old ≡ Some w.now)) }
        ensures none { IfSome result (λ r. IfErr r (λ w. bytes_in N w.now ≡ None)) }
        ensures end { IfNone result (self.old ≡ []) }
        ensures left { self.new ≡ drop 1 self.old }
    {
        if self.done {
            return None;
        }
        let rest = self.rest;
        if let Some(len) = bytes_in_front(rest, bytes) {
            if len == rest.len() {
                self.done = true;
                return Some(Ok(()));
            }
            if rest[len] == b' ' {
                self.rest = &rest[len + 1..];
                return Some(Ok(()));
            }
        }
        let word = self.next_word()?;
        if bytes_into(word, bytes) {
            Some(Ok(()))
        } else {
            Some(Err(word))
        }
    }

    /// Takes the two words that are left, and replaces the bytes by theirs, if these words are twins.
    ///
    /// Twins have the same length, at least 65, and spell at most `N` bytes each: the same ones but for the last three.
    /// Returns false for any other words; all words are then left, and the bytes are unspecified.
    pub fn take_twins<const N: usize>(
        &mut self,
        first: &mut ArrayVec<u8, N>,
        second: &mut ArrayVec<u8, N>,
    ) -> bool
        requires { N ≤ MOST_BYTES }
        ensures first { result ≡ true → first_in (bytes_in N) self.old ≡ Some first.new.items }
        ensures second { result ≡ true → first_in (bytes_in N) (drop 1 self.old) ≡ Some second.new.items }
        ensures two { result ≡ true → drop 2 self.old ≡ [] }
        ensures end { result ≡ true → self.new ≡ [] }
        ensures left { result ≡ false → self.new ≡ self.old }
    {
        let rest = self.rest;
        let half = rest.len() / 2;
        if self.done || rest.len() % 2 == 0 || rest[half] != b' ' {
            return false;
        }
        if !twins_into(&rest[..half], &rest[half + 1..], first, second) {
            return false;
        }
        self.done = true;
        true
    }

    /// Takes the next three words, from left to right. `None` if fewer are left; these are then taken.
    pub fn next_three(&mut self) -> Option<(&'a [u8], &'a [u8], &'a [u8])>
        ensures found { IfSome result (λ words. self.old ≡ words.0.now ∷ words.1.now ∷ words.2.now ∷ self.new) }
        ensures fewer { IfNone result (length self.old < 3) }
    {
        let first = self.next_word()?;
        let second = self.next_word()?;
        let third = self.next_word()?;
        Some((first, second, third))
    }

    /// Takes the next four words, from left to right. `None` if fewer are left; these are then taken.
    pub fn next_four(&mut self) -> Option<(&'a [u8], &'a [u8], &'a [u8], &'a [u8])>
        ensures found { IfSome result (λ words.
            self.old ≡ words.0.now ∷ words.1.now ∷ words.2.now ∷ words.3.now ∷ self.new) }
        ensures fewer { IfNone result (length self.old < 4) }
    {
        let (first, second, third) = self.next_three()?;
        let fourth = self.next_word()?;
        Some((first, second, third, fourth))
    }

    /// Takes the next five words, from left to right. `None` if fewer are left; these are then taken.
    pub fn next_five(&mut self) -> Option<(&'a [u8], &'a [u8], &'a [u8], &'a [u8], &'a [u8])>
        ensures found { IfSome result (λ words.
            self.old ≡ words.0.now ∷ words.1.now ∷ words.2.now ∷ words.3.now ∷ words.4.now ∷ self.new) }
        ensures fewer { IfNone result (length self.old < 5) }
    {
        let (first, second, third, fourth) = self.next_four()?;
        let fifth = self.next_word()?;
        Some((first, second, third, fourth, fifth))
    }

    /// Returns the two words that are left, from left to right. `None` if there are more or fewer.
    pub fn two(&mut self) -> Option<(&'a [u8], &'a [u8])>
        ensures found { IfSome result (λ words. self.old ≡ words.0.now ∷ words.1.now ∷ []) }
        ensures left { IfSome result (λ _. self.new ≡ []) }
        ensures other { IfNone result (length self.old ≢ 2) }
    {
        let first = self.next_word()?;
        let second = self.next_word()?;
        self.end()?;
        Some((first, second))
    }

    /// Returns the three words that are left, from left to right. `None` if there are more or fewer.
    pub fn three(&mut self) -> Option<(&'a [u8], &'a [u8], &'a [u8])>
        ensures found { IfSome result (λ words. self.old ≡ words.0.now ∷ words.1.now ∷ words.2.now ∷ []) }
        ensures left { IfSome result (λ _. self.new ≡ []) }
        ensures other { IfNone result (length self.old ≢ 3) }
    {
        let words = self.next_three()?;
        self.end()?;
        Some(words)
    }

    /// Returns the four words that are left, from left to right. `None` if there are more or fewer.
    pub fn four(&mut self) -> Option<(&'a [u8], &'a [u8], &'a [u8], &'a [u8])>
        ensures found { IfSome result (λ words. self.old ≡ words.0.now ∷ words.1.now ∷ words.2.now ∷ words.3.now ∷ []) }
        ensures left { IfSome result (λ _. self.new ≡ []) }
        ensures other { IfNone result (length self.old ≢ 4) }
    {
        let words = self.next_four()?;
        self.end()?;
        Some(words)
    }

    /// Returns the five words that are left, from left to right. `None` if there are more or fewer.
    pub fn five(&mut self) -> Option<(&'a [u8], &'a [u8], &'a [u8], &'a [u8], &'a [u8])>
        ensures found { IfSome result (λ words.
            self.old ≡ words.0.now ∷ words.1.now ∷ words.2.now ∷ words.3.now ∷ words.4.now ∷ []) }
        ensures left { IfSome result (λ _. self.new ≡ []) }
        ensures other { IfNone result (length self.old ≢ 5) }
    {
        let words = self.next_five()?;
        self.end()?;
        Some(words)
    }

    /// Checks that all words are taken: `None` if the line has another one.
    pub fn end(&self) -> Option<()>
        ensures none { IfSome result (λ _. self.now ≡ []) }
        ensures more { result ≡ ended self.now }
    {
        if self.done { Some(()) } else { None }
    }
}

/// Returns the place of the first space.
fn space_in(line: &[u8]) -> Option<usize>
    ensures { result ≡ position is_space line.now }
{
    memchr(b' ', line)
}
