//! Events, and their replies.

use fr_bus::fault::Fault;
use fr_frame::frame::Frame;
use fr_frame::payload::Payload;
use fr_interface::call::{Answer, Call};
use fr_interface::interface::Receipt;
use fr_slots::numbers::{NodeId, TaskId};
use fr_slots::window::Window;

/// One atomic step of a cluster: one call of one node's interface, or one of the bus (project-defined).
#[derive(Drop, PartialEq, Eq)]
pub enum Event {
    /// The task writes the payload to the node's transmit buffer of this number (chapter 9).
    Commit {
        node: NodeId,
        task: TaskId,
        buffer: u8,
        payload: Payload,
    },
    /// The task withdraws the last commit on the node's transmit buffer of this number, if it is pending.
    Withdraw {
        node: NodeId,
        task: TaskId,
        buffer: u8,
    },
    /// The task reads the node's receive buffer of this number (chapter 9).
    Read {
        node: NodeId,
        task: TaskId,
        buffer: u8,
    },
    /// The task pops the oldest frame of the node's receive FIFO.
    Pop {
        node: NodeId,
        task: TaskId,
    },
    /// The node's controller gets the open window from the bus.
    Look(NodeId),
    /// The node's controller opens that window at its interface, which hands out the node's offer.
    Fetch(NodeId),
    /// The node's controller puts that offer on the bus.
    Put(NodeId),
    /// The node's controller takes its observation from the bus.
    Take(NodeId),
    /// The node's controller closes the window at its interface, with its observation.
    Observe(NodeId),
    /// A fault is injected in the open window.
    Inject(Fault),
    /// The bus decides the outcome of each transmission of the open window.
    Seal,
    /// The bus opens the next window, or ends the run.
    Advance,
}

impl Event {
    ghost use Rattle.std.specs.Prelude.{◌≡◌};
    ghost use Rattle.fr_core.specs.Steps.{event_of};

    /// Returns the event of a call of a task of the node.
    pub fn of_call(node: NodeId, task: TaskId, call: Call) -> Event
        ensures { result ≡ event_of node task call }
    {
        match call {
            Call::Commit { buffer, payload } => Event::Commit {
                node,
                task,
                buffer,
                payload,
            },
            Call::Withdraw { buffer } => Event::Withdraw { node, task, buffer },
            Call::Read { buffer } => Event::Read { node, task, buffer },
            Call::Pop => Event::Pop { node, task },
        }
    }
}

/// The reply to an accepted event (project-defined).
#[derive(Drop, PartialEq, Eq)]
pub enum Reply {
    /// The commit's task, and its entry in the interface's journal.
    Committed(Receipt),
    /// The withdrawn commit's entry in the interface's journal, or none if no commit was pending.
    Withdrawn(Option<u32>),
    /// The frame that was read or popped, or none if the buffer or the receive FIFO is empty.
    Frame(Option<Frame>),
    /// The window that was open.
    Window(Window),
    /// The reply to all other events.
    Done,
}

impl From<Answer> for Reply {
    ghost use Rattle.std.specs.Prelude.{◌≡◌};
    ghost use Rattle.fr_core.specs.Steps.{reply_of};

    /// Returns the reply of the world that has the answer of the interface.
    fn from(answer: Answer) -> Reply
        ensures { result ≡ reply_of answer }
    {
        match answer {
            Answer::Committed(receipt) => Reply::Committed(receipt),
            Answer::Withdrawn(of) => Reply::Withdrawn(of),
            Answer::Frame(Some(arrival)) => Reply::Frame(Some(arrival.frame)),
            Answer::Frame(None) => Reply::Frame(None),
        }
    }
}
