//! Reasons why a session ends before its input does.

use std::error::Error;
use std::fmt;

/// Reasons why a session ends before its input does (project-defined).
#[derive(Clone, Copy, Debug, PartialEq, Eq)]
pub enum SessionError {
    /// The requests couldn't be read.
    Read,
    /// A reply couldn't be written, or its end couldn't be handed on.
    Write,
    /// An allocation for the session failed, before anything was read or written.
    Memory,
}

impl fmt::Display for SessionError {
    ghost use Rattle.std.specs.Prelude.{Some};
    ghost use Rattle.fr_session.specs.ErrorNames.{session_error_name};

    ghost output = { λ error. Some (session_error_name error) };

    /// Writes the name.
    fn fmt<W: fmt::Write>(&self, f: &mut fmt::Formatter<W>) -> fmt::Result {
        match self {
            SessionError::Read => write!(f, "Read"),
            SessionError::Write => write!(f, "Write"),
            SessionError::Memory => write!(f, "Memory"),
        }
    }
}

impl Error for SessionError {}
