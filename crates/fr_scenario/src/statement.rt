//! The value of a line of version 3.

use fr_frame::payload::Payload;
use fr_interface::call::Call;
use fr_runs::cycles::RunCycles;
use fr_runs::fault_line::FaultLine;
use fr_slots::numbers::{NodeId, TaskId};

/// The value of a line of version 3, before the line `end` (project-defined).
#[derive(Drop)]
pub(crate) enum Statement {
    /// Nothing. The line has no words.
    Nothing,
    /// The same call of a task of the node in each of these cycles.
    Calls {
        node: NodeId,
        task: TaskId,
        cycles: RunCycles,
        call: Call,
    },
    /// A fault on one channel.
    Fault(FaultLine),
    /// A fault on both channels, as the line of channel A and that of channel B.
    Faults {
        a: FaultLine,
        b: FaultLine,
    },
    /// What a receive buffer of the node must hold at the end of each of these cycles: a payload, or `None` for no
    /// frame.
    Expected {
        node: NodeId,
        cycles: RunCycles,
        buffer: u8,
        payload: Option<Payload>,
    },
}
