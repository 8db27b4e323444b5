//! The lines that a text has left.
ghost use Rattle.std.specs.Prelude.{◌≡◌};
ghost use Rattle.std.specs.List.{position};
ghost use Rattle.fr_text.specs.Plain.{is_feed};

use crate::error::ScenarioError;
use memchr::memchr;
use std::marker::Model;

/// The number of the last line that a scenario can have (project-defined).
pub(crate) const LAST_LINE: u32 = 4096;

/// The largest number of bytes of a line, without its line feed (project-defined).
const LONGEST_LINE: usize = 1200;

/// The lines that a text has left: its whole lines, and the bytes after its last line feed.
#[derive(Drop)]
pub(crate) struct Left<'a> {
    rest: &'a [u8],
}

impl<'a> Model for Left<'a> {
    ghost use Rattle.std.specs.Prelude.{List, ℕ};

    ghost Value = { List (List ℕ) };

    ghost use Rattle.fr_scenario.specs.LeftFields.{left_of};

    ghost view = { left_of };
}

/// Returns the place of the first line feed.
fn feed_in(text: &[u8]) -> Option<usize>
    ensures { result ≡ position is_feed text.now }
{
    memchr(b'\n', text)
}

impl<'a> Left<'a> {
    ghost use Rattle.std.specs.Prelude.{◌≡◌, Ok, Err, IfOk, IfErr, OnOk, drop};
    ghost use Rattle.fr_scenario.specs.Reading.{lines_in, next_line, is_at_end};

    /// Returns the lines of a text.
    pub(crate) fn new(text: &'a [u8]) -> Left<'a>
        ensures { result ≡ lines_in text.entry.now }
    {
        Left { rest: text }
    }

    /// Returns whether no line is left, and no byte stands after the last line feed.
    pub(crate) fn is_empty(&self) -> bool
        ensures { result ≡ is_at_end self.now }
    {
        self.rest.is_empty()
    }

    /// Takes the next line, which has this number, and returns it without its line feed.
    ///
    /// Returns `BadLine` if it has too many bytes, with or without a line feed, and otherwise `Truncated` if it has no
    /// line feed.
    pub(crate) fn next_line(&mut self, number: u32) -> Result<&'a [u8], ScenarioError>
        ensures line { IfOk result (λ line. next_line number self.old ≡ Ok line.now) }
        ensures left { OnOk result (self.new ≡ drop 1 self.old) }
        ensures refused { IfErr result (λ e. next_line number self.old ≡ Err e) }
    {
        let rest = self.rest;
        match feed_in(rest) {
            Some(at) => {
                if at > LONGEST_LINE {
                    return Err(ScenarioError::BadLine(number));
                }
                self.rest = &rest[at + 1..];
                Ok(&rest[..at])
            }
            None => {
                if rest.len() > LONGEST_LINE {
                    return Err(ScenarioError::BadLine(number));
                }
                Err(ScenarioError::Truncated)
            }
        }
    }
}
