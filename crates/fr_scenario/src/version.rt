//! The versions 1 and 2 of a scenario's format.

/// Version 1 or 2 of the format, which the first line of a text names (project-defined).
#[derive(Clone, Copy, PartialEq, Eq)]
pub(crate) enum Version {
    /// Version 1, which has no line for a withdraw.
    One,
    /// Version 2, which has one. It keeps the lines of version 1.
    Two,
}
