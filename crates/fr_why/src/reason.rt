//! The reasons of a line's refusal.

use fr_interface::errors::{HostError, SlotError};
use fr_journal::entry::Entry;
use fr_lines::forms::WordPlace;
use fr_slots::fault::PlanFault;
use fr_slots::params::RangeError;

/// Reasons why a line can't stand in its place (project-defined).
#[derive(Clone, Copy, PartialEq, Eq)]
pub enum Misfit {
    /// No line that begins with its first word may stand here.
    Word,
    /// The words after the first don't have the form of such a line, or a number is out of its range.
    Form,
    /// It is an ownership line after a buffer or the receive FIFO, or a buffer after the receive FIFO.
    Late,
    /// The plan already has the largest number of lines of this kind.
    Full,
    /// It comes after `end`.
    After,
}

/// The reason of the refusal of a line of a trace (project-defined).
#[derive(Drop)]
pub enum Reason {
    /// The error of the line is the whole reason.
    Plain,
    /// The line can't stand in its place. This word of it is wrong, if it is a single one.
    Line(Misfit, Option<WordPlace>),
    /// Only the line feed after the last line is missing.
    Feed,
    /// The numbers of the line `params` are not parameters.
    Params(RangeError),
    /// The plan that ends with the line `begin` has this fault for its parameters.
    Plan(PlanFault),
    /// The interface refuses the call of a task.
    Host(HostError),
    /// The interface refuses the call of its controller.
    Slot(SlotError),
    /// The call has another answer than the line: it makes this entry.
    Due(Entry),
}
