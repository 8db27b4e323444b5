//! The requests of a session.

use fr_core::event::Event;
use fr_runs::fault_line::FaultLine;
use fr_slots::channel::Channel;
use fr_slots::numbers::{NodeId, TaskId};

/// A request (project-defined).
#[derive(Drop, PartialEq, Eq)]
pub enum Request {
    /// One event of the world.
    Event(Event),
    /// The task reads the node's receive buffer of this number. The reply has the frame's channel and cycle of the run,
    /// and whether it is new.
    Receive {
        node: NodeId,
        task: TaskId,
        buffer: u8,
    },
    /// The task pops the oldest frame of the node's receive FIFO. The reply has the same.
    Next {
        node: NodeId,
        task: TaskId,
    },
    /// The line of a fault, which takes effect from now on in the windows that the line names.
    Fault(FaultLine),
    /// The lines of a fault on both channels: that of channel A, and that of channel B.
    Faults {
        a: FaultLine,
        b: FaultLine,
    },
    /// The end of all fault lines.
    Forget,
    /// The faults of the open window, and all events that are still due in it, up to the bus's advance.
    Window,
    /// Windows up to the start of the next cycle, this number of times.
    Run(u16),
    /// The state of the bus.
    Now,
    /// The time of the open window in the run.
    At,
    /// The report of the node's interface.
    Report(NodeId),
    /// The status counters of the node on the channel.
    Status(NodeId, Channel),
    /// The trace of the node's interface.
    Trace(NodeId),
    /// The origin of the frame of the node's last entry, if it is a read or a pop.
    Origin(NodeId),
    /// The window of this number in the bus's record.
    Record(u32),
}
