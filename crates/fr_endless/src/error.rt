//! Reasons why an endless session ends before its input does.

use crate::taps::Tap;
use fr_session::error::SessionError;

/// Reasons why an endless session ends before its input does (project-defined).
#[derive(Clone, Copy, Debug, PartialEq, Eq)]
pub enum EndlessError {
    /// A stream of the session failed, or an allocation before its first line.
    Session(SessionError),
    /// A file couldn't be written.
    Tap(Tap),
}
