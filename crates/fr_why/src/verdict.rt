//! The result of an audit of a whole trace.

/// The result of an audit of a trace that was read whole (project-defined).
#[derive(Clone, Copy, Debug, PartialEq, Eq)]
pub enum Verdict {
    /// An audit accepts it.
    Accepted,
    /// An audit refuses it.
    Refused,
}
