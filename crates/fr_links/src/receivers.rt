//! The receivers of a link.

ghost use Rattle.std.specs.Prelude.{◌≡◌, ◌++◌, IfOk, OnOk};
ghost use Rattle.std.specs.List.{list_any};
ghost use Rattle.fr_slots.specs.Faults.{cycles};
ghost use Rattle.fr_links.specs.Receivers.{buffer_receiver, node_receivers, plan_receivers, queues, queues_in};
ghost use Rattle.fr_links.specs.Receivers.{receiver_if, receivers, receives, receives_at, receives_in};
ghost use Rattle.fr_links.specs.Links.{numbered};

use crate::links::Link;
use fr_slots::numbers::{CYCLES, Cycle};
use fr_slots::plan::{Buffer, NodePlan, Queue};
use std::alloc::{AllocError, Global};

/// A receiver of a link: a receive buffer, or a receive FIFO (project-defined).
#[derive(Clone, Copy)]
pub struct Receiver {
    /// The number of the node.
    pub node: usize,
    /// The number of the receive buffer, or `None` for the receive FIFO.
    pub buffer: Option<usize>,
}

/// Returns whether this is a receive buffer that admits the slot and the channel of the link in the cycle.
fn receives_at(link: &Link, cycle: Cycle, buffer: &Buffer) -> bool
    ensures { result ≡ receives_at link.now cycle buffer.now }
{
    buffer.mode.is_receive() && buffer.filter.admits(cycle, link.slot, link.channel)
}

/// Returns the same for a cycle of the link, and false for another cycle.
fn receives_in(link: &Link, buffer: &Buffer, cycle: Cycle) -> bool
    ensures { result ≡ receives_in link.now buffer.now cycle }
{
    link.cycles.admits(cycle) && receives_at(link, cycle, buffer)
}

/// Returns whether this is a receive buffer that admits a frame of the link in one of its cycles.
fn receives(link: &Link, buffer: &Buffer) -> bool
    ensures { result ≡ receives link.now buffer.now }
{
    for number in 0..CYCLES {
        if receives_in(link, buffer, Cycle::from_bits(number)) {
            return true;
        }
    }
    false
}

/// Returns whether one of these is a receive buffer that admits the slot and the channel of the link in the cycle.
fn any_receives(link: &Link, cycle: Cycle, buffers: &[Buffer]) -> bool
    ensures { result ≡ list_any (receives_at link.now cycle) buffers.now }
{
    for buffer in buffers {
        if receives_at(link, cycle, buffer) {
            return true;
        }
    }
    false
}

/// Returns whether the cycle is one of the link in which a frame of it comes to the receive FIFO beside these buffers.
fn queues_in(link: &Link, buffers: &[Buffer], queue: &Queue, cycle: Cycle) -> bool
    ensures { result ≡ queues_in link.now buffers.now queue.now cycle }
{
    link.cycles.admits(cycle)
        && queue.admits(cycle, link.slot, link.channel)
        && !any_receives(link, cycle, buffers)
}

/// Returns whether a frame of the link comes to the receive FIFO beside these buffers in one of the link's cycles.
fn is_queued(link: &Link, buffers: &[Buffer], queue: &Queue) -> bool
    ensures { result ≡ list_any (queues_in link.now buffers.now queue.now) cycles }
{
    for number in 0..CYCLES {
        if queues_in(link, buffers, queue, Cycle::from_bits(number)) {
            return true;
        }
    }
    false
}

/// Returns whether there is a receive FIFO to which a frame of the link comes.
fn queues(link: &Link, buffers: &[Buffer], queue: Option<Queue>) -> bool
    ensures { result ≡ queues link.now buffers.now queue }
{
    match queue {
        Some(queue) => is_queued(link, buffers, &queue),
        None => false,
    }
}

/// Appends a receiver, if it is one.
fn push_if(
    receivers: &mut Vec<Receiver>,
    is_one: bool,
    node: usize,
    buffer: Option<usize>,
) -> Result<(), AllocError>
    ensures { OnOk result (receivers.new.items ≡ receivers.old.items ++ receiver_if is_one node buffer) }
{
    if is_one {
        receivers.push(Receiver { node, buffer })?;
    }
    Ok(())
}

/// Appends the receive buffers of a node that receive the link.
fn push_buffers(
    receivers: &mut Vec<Receiver>,
    link: &Link,
    node: usize,
    buffers: &[Buffer],
) -> Result<(), AllocError>
    ensures { OnOk result
        (receivers.new.items ≡ receivers.old.items ++ numbered (buffer_receiver link.now node) 0 buffers.now) }
{
    for (number, buffer) in buffers.iter().enumerate() {
        push_if(receivers, receives(link, buffer), node, Some(number))?;
    }
    Ok(())
}

/// Appends the receive buffers of a node, and then its FIFO.
fn push_plan(
    receivers: &mut Vec<Receiver>,
    link: &Link,
    node: usize,
    plan: &NodePlan,
) -> Result<(), AllocError>
    ensures { OnOk result
        (receivers.new.items ≡ receivers.old.items ++ plan_receivers link.now node plan.now) }
{
    push_buffers(receivers, link, node, plan.buffers())?;
    let comes = queues(link, plan.buffers(), plan.queue());
    push_if(receivers, comes, node, None)
}

/// Appends the receivers of a node, which has none of its own link.
fn push_node(
    receivers: &mut Vec<Receiver>,
    link: &Link,
    node: usize,
    plan: &NodePlan,
) -> Result<(), AllocError>
    ensures { OnOk result
        (receivers.new.items ≡ receivers.old.items ++ node_receivers link.now node plan.now) }
{
    if node == link.node {
        return Ok(());
    }
    push_plan(receivers, link, node, plan)
}

/// Returns the receivers of a link of a transmit buffer among these nodes.
fn receivers_among(
    alloc: Global,
    plans: &[NodePlan],
    link: &Link,
) -> Result<Vec<Receiver>, AllocError>
    ensures { IfOk result (λ found. found.items ≡ numbered (node_receivers link.now) 0 plans.now) }
{
    let mut receivers = Vec::new(alloc);
    for (node, plan) in plans.iter().enumerate() {
        push_node(&mut receivers, link, node, plan)?;
    }
    Ok(receivers)
}

/// Returns the receivers of a link among these nodes (project-defined).
///
/// They are the receive buffers of the other nodes that admit its slot and channel in one of its cycles, and the FIFOs
/// that do so in a cycle in which no receive buffer of their node does. Null frames have no receivers.
///
/// Fails if an allocation fails.
#[tactic(auto, unfolding(crate::specs::Receivers::receivers))]
pub fn receivers_of(
    alloc: Global,
    plans: &[NodePlan],
    link: &Link,
) -> Result<Vec<Receiver>, AllocError>
    ensures { IfOk result (λ found. found.items ≡ receivers plans.now link.now) }
{
    match link.buffer {
        Some(_) => receivers_among(alloc, plans, link),
        None => Ok(Vec::new(alloc)),
    }
}
