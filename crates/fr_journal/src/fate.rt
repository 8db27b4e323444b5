//! The fates of commits.

/// The fate of a commit (project-defined).
#[derive(Clone, Copy, PartialEq, Eq)]
pub enum Fate {
    /// A later fetch handed it to the bus.
    Sent,
    /// It wasn't sent, and a later withdraw removed it.
    Withdrawn,
    /// It was neither sent nor withdrawn, and a later commit on its buffer replaced it.
    Overwritten,
    /// None of these.
    Pending,
}

/// The number of commits on a transmit buffer with each fate (project-defined).
#[derive(Clone, Copy, PartialEq, Eq)]
pub struct Tally {
    /// All commits on the buffer.
    pub committed: u32,
    /// Commits that a fetch handed to the bus. The bus may still have muted or blocked them.
    pub sent: u32,
    /// Commits that were neither sent nor withdrawn, and that a later commit replaced.
    pub overwritten: u32,
    /// Commits of no other fate: the last commit, or none.
    pub pending: u32,
    /// Commits that a task withdrew before they were sent.
    pub withdrawn: u32,
}
