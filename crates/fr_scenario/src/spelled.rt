//! The value of a line of a scenario.

use fr_core::script::Line;
use fr_runs::fault_line::FaultLine;
use fr_slots::numbers::{NodeId, TaskId};

/// The value of a line between the first one and `end` (project-defined).
#[derive(Drop)]
pub(crate) enum SpelledLine {
    /// The call of a task of the node.
    Host {
        node: NodeId,
        task: TaskId,
        line: Line,
    },
    /// A fault of the run.
    Fault(FaultLine),
}
