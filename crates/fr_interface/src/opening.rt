//! The state of the windows of a journal.

use fr_slots::window::Window;

/// The state of the windows after some entries.
#[derive(Clone, Copy, PartialEq, Eq)]
pub(crate) struct Opening {
    /// The open window.
    pub window: Option<Window>,
    /// The number of the last window that was fetched.
    pub last: Option<u32>,
}

impl Opening {
    /// The state before any entry.
    pub(crate) const NONE: Opening = Opening {
        window: None,
        last: None,
    };
}
