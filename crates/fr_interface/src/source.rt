//! The source of a buffer's content.

use fr_journal::entry::Origin;

/// The source of a buffer's content.
#[derive(Clone, Copy, PartialEq, Eq)]
pub enum Source {
    /// The commit of this number, in a transmit buffer.
    Commit(u32),
    /// A frame of this origin, in a receive buffer.
    Observed(Origin),
}
