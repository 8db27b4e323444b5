//! The forms in which observations are shown.

/// The form in which observations are shown (project-defined).
#[derive(Clone, Copy, PartialEq, Eq)]
pub enum Form {
    /// A capture in the classic format of `libpcap`, with a record for all bytes that came.
    ///
    /// Its link type is 210 (FlexRay).
    Capture {
        /// The frames that the controller observed as its own also have records.
        own: bool,
    },
    /// A table with a line for all bytes that came, under the names of its columns.
    Table {
        /// All other observations also have lines.
        ///
        /// They are own frames, conflicts, noise, overruns, and silence if the channel had a slot.
        all: bool,
    },
}
