//! Tests of receive buffers and receive FIFOs for the frames of a window.

ghost use Rattle.std.specs.Prelude.{◌≡◌};
ghost use Rattle.std.specs.List.{list_any};
ghost use Rattle.fr_capture.specs.TakingSteps.{came_in, queue_takes_by, takes_by};
ghost use Rattle.fr_journal.specs.Arrivals.{is_for_queue, takes_window};

use fr_slots::channel::Channel;
use fr_slots::plan::{Buffer, NodePlan, Queue};
use fr_slots::window::Window;

/// The presence of a valid data frame on each channel of a window.
#[derive(Clone, Copy)]
pub struct Came {
    /// True if one came on channel A.
    pub a: bool,
    /// True if one came on channel B.
    pub b: bool,
}

/// Returns whether this line is a receive buffer that stores the frame of the channel.
///
/// The rule is that of chapter 9; channel A before B is project-defined.
pub fn takes(window: &Window, came: Came, channel: Channel, line: &Buffer) -> bool
    ensures { result ≡ takes_by window.now came.a came.b channel line.now }
{
    let takes_a = came.a && line.filter.admits_window(window, Channel::A);
    let takes_b = !takes_a && came.b && line.filter.admits_window(window, Channel::B);
    match channel {
        Channel::A => line.mode.is_receive() && takes_a,
        Channel::B => line.mode.is_receive() && takes_b,
    }
}

/// Returns whether this is a receive buffer that admits the window on the channel.
fn takes_window(window: &Window, channel: Channel, line: &Buffer) -> bool
    ensures { result ≡ takes_window window.now channel line.now }
{
    line.mode.is_receive() && line.filter.admits_window(window, channel)
}

/// Returns whether one of the buffers is a receive buffer that admits the window on the channel.
fn is_taken(lines: &[Buffer], window: &Window, channel: Channel) -> bool
    ensures { result ≡ list_any (takes_window window.now channel) lines.now }
{
    lines.iter().any(|line| takes_window(window, channel, line))
}

/// Returns whether the receive FIFO, and no receive buffer, is for the window on the channel.
fn is_for_queue(plan: &NodePlan, queue: &Queue, window: &Window, channel: Channel) -> bool
    ensures { result ≡ is_for_queue plan.now queue.now window.now channel }
{
    match window.slot(channel) {
        Some(slot) => {
            queue.admits(window.cycle, slot, channel) && !is_taken(plan.buffers(), window, channel)
        }
        None => false,
    }
}

/// Returns whether a valid data frame came on the channel.
fn came_in(came: Came, channel: Channel) -> bool
    ensures { result ≡ came_in came.a came.b channel }
{
    match channel {
        Channel::A => came.a,
        Channel::B => came.b,
    }
}

/// Returns whether the node has a receive FIFO that stores the frame of the channel (project-defined).
///
/// It admits the slot there, and no receive buffer does.
pub fn queue_takes(plan: &NodePlan, window: &Window, came: Came, channel: Channel) -> bool
    ensures { result ≡ queue_takes_by plan.now window.now came.a came.b channel plan.now.queue }
{
    match plan.queue() {
        Some(queue) => is_for_queue(plan, &queue, window, channel) && came_in(came, channel),
        None => false,
    }
}
