//! The lines of a plan after its first, told apart by their first words.
ghost use Rattle.std.specs.Prelude.{◌≡◌};
ghost use Rattle.fr_text.specs.Spaces.{words_of};
ghost use Rattle.fr_lines.specs.Reading.{plan_line_in};

use crate::buffers::{receive_of, transmit_of};
use crate::owned::ownership_of;
use crate::queues::reception_of;
use crate::versions::Version;
use fr_slots::plan::{Buffer, Own, Queue};
use fr_text::words::Words;

/// A line of a plan after the line of its numbers (project-defined).
#[derive(Clone, Copy, PartialEq, Eq)]
pub enum PlanLine {
    /// A line `own`.
    Own(Own),
    /// A line `tx` or `rx`.
    Buffer(Buffer),
    /// A line `queue`.
    Queue(Queue),
}

/// Returns the ownership line, the buffer or the receive FIFO that the line spells in this version.
///
/// Each is read as its own function reads it. `None` for a line of another form, or with a number out of its range.
#[tactic(auto, unfolding(crate::specs::Reading::plan_line_in))]
pub fn plan_line_of(version: Version, line: &[u8]) -> Option<PlanLine>
    ensures { result ≡ plan_line_in version (words_of line.now) }
{
    // The line is read once; the auditor then tests whether its kind may stand in this place.
    let mut words = Words::new(line);
    match words.next_word()? {
        b"own" => ownership_of(version, &mut words).map(PlanLine::Own),
        b"tx" => transmit_of(&mut words).map(PlanLine::Buffer),
        b"rx" => receive_of(&mut words).map(PlanLine::Buffer),
        b"queue" => reception_of(&mut words).map(PlanLine::Queue),
        _ => None,
    }
}
