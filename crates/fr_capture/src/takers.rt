//! The receivers of a frame.

ghost use Rattle.std.specs.Prelude.{◌≡◌, ◌||◌, ◌∷◌, [], IfOk};
ghost use Rattle.fr_capture.specs.Takers.{after_commas, taker_if, takers_word};
ghost use Rattle.fr_capture.specs.TakerSteps.{buffers_by, is_any, takers_by};
ghost use Rattle.fr_text.specs.Writing.{Writes};

use crate::taking::{Came, queue_takes, takes};
use fr_slots::channel::Channel;
use fr_slots::numbers::NodeId;
use fr_slots::plan::{Buffer, NodePlan};
use fr_slots::window::Window;
use std::io;
use std::io::Write;
use std::marker::Model;

/// A receiver of a frame: a receive buffer, or a receive FIFO (project-defined).
#[derive(Clone, Copy)]
pub struct Taker {
    /// The node, or none if only one node is shown.
    pub node: Option<NodeId>,
    /// The number of the receive buffer, or none for the receive FIFO.
    pub buffer: Option<usize>,
}

/// A channel of a window, as a node observed it (project-defined).
#[derive(Clone, Copy)]
pub struct Observed<'a> {
    /// The window.
    pub window: &'a Window,
    /// The presence of data frames in the window.
    pub came: Came,
    /// The channel of the frame.
    pub channel: Channel,
    /// The node, or none if only one node is shown.
    pub node: Option<NodeId>,
}

/// The receivers of a frame at a node (project-defined). They are found when they are written.
#[derive(Drop)]
pub struct Takers<'a> {
    /// The plan of the node.
    pub plan: &'a NodePlan,
    /// The frame's channel and window.
    pub observed: Observed<'a>,
}

impl<'a> Model for Takers<'a> {
    ghost use Rattle.std.specs.Prelude.{List};
    ghost use Rattle.fr_capture.specs.declared.takers.Taker.{Taker};
    ghost use Rattle.fr_capture.specs.TakerSteps.{takers_by};

    ghost Value = { List Taker };

    ghost view = { λ t. takers_by t.plan.now t.observed.window.now t.observed.came.a t.observed.came.b
        t.observed.channel t.observed.node };
}

/// Writes a receiver, after a comma if one was written before.
#[tactic(auto, unfolding(crate::specs::Takers::after_commas))]
fn write_taker<W: Write>(writer: &mut W, any: bool, taker: Taker) -> io::Result<()>
    ensures { Writes W.contents writer.old writer.new result (after_commas any (taker ∷ [])) }
{
    let comma = if any { "," } else { "" };
    match (taker.node, taker.buffer) {
        (None, None) => write!(writer, "{comma}queue"),
        (None, Some(buffer)) => write!(writer, "{comma}b{buffer}"),
        (Some(node), None) => write!(writer, "{comma}{}:queue", node.number()),
        (Some(node), Some(buffer)) => write!(writer, "{comma}{}:b{buffer}", node.number()),
    }
}

/// Writes a receiver, if it is one, and returns whether any was written by then.
#[tactic(auto, unfolding(crate::specs::Takers::after_commas))]
fn write_if<W: Write>(writer: &mut W, any: bool, takes: bool, taker: Taker) -> io::Result<bool>
    ensures text { Writes W.contents writer.old writer.new result
        (after_commas any (taker_if takes taker.node taker.buffer)) }
    ensures any { IfOk result (λ now. now ≡ (any || is_any (taker_if takes taker.node taker.buffer))) }
{
    if takes {
        write_taker(writer, any, taker)?;
        Ok(true)
    } else {
        Ok(any)
    }
}

/// Writes the buffers that store the frame, and returns whether any receiver was written by then.
fn write_buffers<W: Write>(
    writer: &mut W,
    any: bool,
    observed: &Observed<'_>,
    lines: &[Buffer],
) -> io::Result<bool>
    ensures text { Writes W.contents writer.old writer.new result (after_commas any (buffers_by
        observed.now.window.now observed.now.came.a observed.now.came.b observed.now.channel observed.now.node
        0 lines.now)) }
    ensures any { IfOk result (λ now. now ≡ (any || is_any (buffers_by
        observed.now.window.now observed.now.came.a observed.now.came.b observed.now.channel observed.now.node
        0 lines.now))) }
{
    let mut any = any;
    for (number, line) in lines.iter().enumerate() {
        let takes = takes(observed.window, observed.came, observed.channel, line);
        let taker = Taker {
            node: observed.node,
            buffer: Some(number),
        };
        any = write_if(writer, any, takes, taker)?;
    }
    Ok(any)
}

/// Writes the buffers that store the frame, and the receive FIFO if it does. Returns whether any receiver was written
/// by then.
fn write_any<W: Write>(
    writer: &mut W,
    any: bool,
    plan: &NodePlan,
    observed: &Observed<'_>,
) -> io::Result<bool>
    ensures text { Writes W.contents writer.old writer.new result (after_commas any (takers_by plan.now
        observed.now.window.now observed.now.came.a observed.now.came.b observed.now.channel observed.now.node)) }
    ensures any { IfOk result (λ now. now ≡ (any || is_any (takers_by plan.now
        observed.now.window.now observed.now.came.a observed.now.came.b observed.now.channel observed.now.node))) }
{
    let any = write_buffers(writer, any, observed, plan.buffers())?;
    let takes = queue_takes(plan, observed.window, observed.came, observed.channel);
    let taker = Taker {
        node: observed.node,
        buffer: None,
    };
    write_if(writer, any, takes, taker)
}

/// Writes the receivers of the frame, each after a comma if one was written before. Returns whether any was written by
/// then (project-defined).
///
/// They are the buffers of the node, and then its receive FIFO. Fails where the writer fails.
pub fn write_more<W: Write>(writer: &mut W, any: bool, takers: &Takers<'_>) -> io::Result<bool>
    ensures text { Writes W.contents writer.old writer.new result (after_commas any takers.now) }
    ensures any { IfOk result (λ now. now ≡ (any || is_any takers.now)) }
{
    write_any(writer, any, takers.plan, &takers.observed)
}

/// Writes the receivers of the frame with commas between them, or a dash.
///
/// They are the buffers and the receive FIFO.
pub(crate) fn write_takers<W: Write>(writer: &mut W, takers: &Takers<'_>) -> io::Result<()>
    ensures { Writes W.contents writer.old writer.new result (takers_word takers.now) }
{
    if write_more(writer, false, takers)? {
        Ok(())
    } else {
        write!(writer, "-")
    }
}
