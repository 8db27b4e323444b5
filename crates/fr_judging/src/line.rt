//! What is told of a recording, line by line.

use fr_logged::finding::{Finding, Place};
use fr_recording::numbers::Moment;

/// The record that shows something.
#[derive(Clone, Copy)]
pub struct At {
    /// The number of the record, from 1.
    pub number: u64,
    pub time: Option<Moment>,
}

/// A line that is told (project-defined).
#[derive(Clone, Copy)]
pub enum Line {
    /// A finding. The end of the input shows it if there is no record.
    Finding(Option<At>, Place, Finding),
    /// A slot that was missing for a node, and how often, before it came back.
    Back(At, Place, u8, u64),
}
