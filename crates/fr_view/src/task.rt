//! What each command does. All choices of the program are made here.

ghost use Rattle.std.specs.Prelude.{◌≡◌};
ghost use Rattle.fr_view.specs.Tasks.{run_status, shown_of, status_told, streamed_of, task_of};

use fr_capture::form::Form;
use fr_cli::view::{Asked, StreamAsked, ViewOrder};
use fr_matrix::view::View;
use fr_showing::shown::Shown;
use fr_slots::channel::Channel;
use fr_slots::numbers::{Cycle, NodeId, SlotId};
use fr_streaming::stream::Streamed;
use fr_why::verdict::Verdict;

/// What a command does (project-defined).
#[derive(Clone, Copy)]
pub enum Task<'a> {
    /// Draw a cycle of the cluster in the file.
    Cycle {
        /// The name of the file.
        file: &'a str,
        /// The cycle.
        cycle: Cycle,
    },
    /// Print the worst latencies of the cluster in the file.
    Latencies {
        /// The name of the file.
        file: &'a str,
    },
    /// Print the frames before the latest start of a slot.
    Way {
        /// The name of the cluster file.
        file: &'a str,
        /// The slot.
        slot: SlotId,
        /// The channel.
        channel: Channel,
    },
    /// Print the senders of each slot in the file's cluster, with their receivers.
    Links {
        /// The name of the file.
        file: &'a str,
    },
    /// Print the observations of a controller.
    Seen {
        /// The form.
        form: Form,
        /// For a rejected trace, print the observations before the faulty line.
        until_fault: bool,
    },
    /// Print the reason why an audit rejects a trace.
    Why,
    /// Print what becomes of the frames of a receive FIFO, from its node's trace.
    Fifo,
    /// Run a cluster with a scenario, and print a view of the run.
    Run {
        /// The view.
        shown: Shown,
        /// The name of the cluster file.
        cluster: &'a str,
        /// The name of the scenario file.
        scenario: &'a str,
        /// The number of cycles.
        cycles: u16,
    },
    /// Run a cluster with a scenario without history, and print a view as the run goes.
    Stream {
        /// The view.
        streamed: Streamed,
        /// The name of the cluster file.
        cluster: &'a str,
        /// The name of the scenario file.
        scenario: &'a str,
        /// The number of cycles.
        cycles: u32,
    },
    /// Print the commands of the program.
    Help,
}

/// Returns the view of a run that a command names. None if it names a node that no cluster has.
fn shown_of(asked: Asked) -> Option<Shown>
    ensures { result ≡ shown_of asked }
{
    match asked {
        Asked::Outcome => Some(Shown::Outcome),
        Asked::Answers => Some(Shown::Answers),
        Asked::Commits => Some(Shown::Commits),
        Asked::Record => Some(Shown::Record),
        Asked::Windows => Some(Shown::Windows),
        // These are written as the run goes.
        Asked::Reasons | Asked::Origins | Asked::Received => None,
        Asked::Heard => Some(Shown::Heard),
        Asked::Trace(node) => Some(Shown::Trace(NodeId::new(node)?)),
        Asked::Matrix {
            channel,
            node: None,
            from,
            from_window,
        } => Some(Shown::Matrix(View {
            channel,
            node: None,
            from,
            from_window,
        })),
        Asked::Matrix {
            channel,
            node: Some(node),
            from,
            from_window,
        } => Some(Shown::Matrix(View {
            channel,
            node: Some(NodeId::new(node)?),
            from,
            from_window,
        })),
    }
}

/// Returns the view that a command writes as the run goes.
fn streamed_of(asked: StreamAsked) -> Streamed
    ensures { result ≡ streamed_of asked }
{
    match asked {
        StreamAsked::Outcome => Streamed::Outcome,
        StreamAsked::Answers => Streamed::Answers,
        StreamAsked::Commits => Streamed::Commits,
        StreamAsked::Record => Streamed::Record,
        StreamAsked::Windows => Streamed::Windows,
        StreamAsked::Reasons => Streamed::Reasons,
        StreamAsked::Origins => Streamed::Origins,
        StreamAsked::Received => Streamed::Received,
        StreamAsked::Heard => Streamed::Heard,
    }
}

/// Returns what the command does. None if one of its numbers is out of its range.
pub fn task_of(order: ViewOrder<'_>) -> Option<Task<'_>>
    ensures { result ≡ task_of order.entry }
{
    match order {
        ViewOrder::Schedule { file, cycle } => Some(Task::Cycle {
            file,
            cycle: Cycle::new(cycle)?,
        }),
        ViewOrder::Latency { file, way: None } => Some(Task::Latencies { file }),
        ViewOrder::Latency {
            file,
            way: Some(asked),
        } => Some(Task::Way {
            file,
            slot: SlotId::new(asked.slot)?,
            channel: asked.channel,
        }),
        ViewOrder::Links { file } => Some(Task::Links { file }),
        ViewOrder::Capture { until_fault, own } => Some(Task::Seen {
            form: Form::Capture { own },
            until_fault,
        }),
        ViewOrder::Frames { until_fault, all } => Some(Task::Seen {
            form: Form::Table { all },
            until_fault,
        }),
        ViewOrder::Why => Some(Task::Why),
        ViewOrder::Fifo => Some(Task::Fifo),
        ViewOrder::Show {
            asked: Asked::Reasons,
            cluster,
            scenario,
            cycles,
        } => Some(Task::Stream {
            streamed: Streamed::Reasons,
            cluster,
            scenario,
            cycles: u32::from(cycles),
        }),
        ViewOrder::Show {
            asked: Asked::Origins,
            cluster,
            scenario,
            cycles,
        } => Some(Task::Stream {
            streamed: Streamed::Origins,
            cluster,
            scenario,
            cycles: u32::from(cycles),
        }),
        ViewOrder::Show {
            asked: Asked::Received,
            cluster,
            scenario,
            cycles,
        } => Some(Task::Stream {
            streamed: Streamed::Received,
            cluster,
            scenario,
            cycles: u32::from(cycles),
        }),
        ViewOrder::Show {
            asked,
            cluster,
            scenario,
            cycles,
        } => Some(Task::Run {
            shown: shown_of(asked)?,
            cluster,
            scenario,
            cycles,
        }),
        ViewOrder::Stream {
            asked,
            cluster,
            scenario,
            cycles,
        } => Some(Task::Stream {
            streamed: streamed_of(asked),
            cluster,
            scenario,
            cycles,
        }),
        ViewOrder::Help => Some(Task::Help),
    }
}

/// Returns the exit status after a run that missed so many expectations, and in which so many weren't judged: 3 if one
/// was missed, otherwise 5 if one wasn't judged, and otherwise 0.
pub fn run_status(missed: usize, unjudged: usize) -> u8
    ensures { result ≡ run_status missed unjudged }
{
    if missed != 0 {
        3
    } else if unjudged != 0 {
        5
    } else {
        0
    }
}

/// Returns the exit status after a trace was audited: 0 if it is accepted, 1 if it is rejected.
pub fn status_told(verdict: Verdict) -> u8
    ensures { result ≡ status_told verdict }
{
    match verdict {
        Verdict::Accepted => 0,
        Verdict::Refused => 1,
    }
}
