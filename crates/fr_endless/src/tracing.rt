//! Events in a world without history, with the entry that each adds written to the trace of its node.
ghost use Rattle.std.specs.Prelude.{◌≡◌, [], None, OnOk, false, option_map, true};
ghost use Rattle.fr_core.specs.Steps.{Applies, Steps, event_of};
ghost use Rattle.fr_core.specs.Worlds.{carried_at, has_node, interface_at};
ghost use Rattle.fr_endless.specs.Taps.{IsLine, ToldAlike, with_taps};
ghost use Rattle.fr_endless.specs.Tracing.{adds_entry, call_in, entry_by, entry_told, fetched_entry, line_in, node_of};
ghost use Rattle.fr_endless.specs.Tracing.{observed_entry, origin_in, withdrawn_in};
ghost use Rattle.fr_interface.specs.Standing.{ForEachHistory};
ghost use Rattle.fr_live.specs.LiveWorlds.{ForEachWorld};
ghost use Rattle.fr_trace.specs.TraceText.{entry_line};

use crate::taps::Taps;
use crate::world::EndlessWorld;
use fr_core::controller::{Controller, Due};
use fr_core::error::StepError;
use fr_core::event::{Event, Reply};
use fr_interface::call::{Answer, Call};
use fr_interface::state::InterfaceState;
use fr_journal::entry::{Entry, Origin};
use fr_lines::writing::{write_entry, write_fetch, write_observe};
use fr_slots::channel::Channel;
use fr_slots::numbers::{NodeId, TaskId};
use std::alloc::Global;
use std::io;
use std::io::Write;

/// A call of a task at the interface of its node.
#[derive(Drop)]
pub(crate) struct HostCall {
    pub(crate) node: NodeId,
    pub(crate) task: TaskId,
    pub(crate) call: Call,
}

/// Returns the call of the event, if it is one of a host.
fn call_in(event: &Event) -> Option<HostCall>
    ensures { result ≡ call_in event.now }
{
    let (node, task, call) = match event {
        Event::Commit {
            node,
            task,
            buffer,
            payload,
        } => (
            *node,
            *task,
            Call::Commit {
                buffer: *buffer,
                payload: payload.duplicate(),
            },
        ),
        Event::Withdraw { node, task, buffer } => {
            (*node, *task, Call::Withdraw { buffer: *buffer })
        }
        Event::Read { node, task, buffer } => (*node, *task, Call::Read { buffer: *buffer }),
        Event::Pop { node, task } => (*node, *task, Call::Pop),
        Event::Look(_) | Event::Fetch(_) | Event::Put(_) | Event::Take(_) | Event::Observe(_) => {
            return None;
        }
        Event::Inject(_) | Event::Seal | Event::Advance => return None,
    };
    Some(HostCall { node, task, call })
}

/// Returns whether the event is a call of a host.
pub(crate) fn is_call(event: &Event) -> bool
    ensures { result ≡ false → call_in event.now ≡ None }
{
    match event {
        Event::Commit { .. } | Event::Withdraw { .. } | Event::Read { .. } | Event::Pop { .. } =>
            true,
        Event::Look(_) | Event::Fetch(_) | Event::Put(_) | Event::Take(_) | Event::Observe(_) =>
            false,
        Event::Inject(_) | Event::Seal | Event::Advance => false,
    }
}

/// Returns the node of the event, and node 0 for an event of the bus.
pub(crate) fn node_of(event: &Event) -> NodeId
    ensures { result ≡ node_of event.now }
{
    match event {
        Event::Commit { node, .. }
        | Event::Withdraw { node, .. }
        | Event::Read { node, .. }
        | Event::Pop { node, .. }
        | Event::Look(node)
        | Event::Fetch(node)
        | Event::Put(node)
        | Event::Take(node)
        | Event::Observe(node) => *node,
        Event::Inject(_) | Event::Seal | Event::Advance => NodeId::from_number(0),
    }
}

/// Returns whether the event adds an entry to a journal, if it is accepted.
pub(crate) fn adds_entry(event: &Event) -> bool
    ensures { result ≡ adds_entry event.now }
{
    match event {
        Event::Commit { .. } | Event::Withdraw { .. } | Event::Read { .. } | Event::Pop { .. } =>
            true,
        Event::Fetch(_) | Event::Observe(_) => true,
        Event::Look(_) | Event::Put(_) | Event::Take(_) => false,
        Event::Inject(_) | Event::Seal | Event::Advance => false,
    }
}

/// Returns the commit that the answer names as withdrawn.
fn withdrawn_in(answer: &Answer) -> Option<u32>
    ensures { result ≡ withdrawn_in answer.now }
{
    match answer {
        Answer::Withdrawn(of) => *of,
        Answer::Committed(_) | Answer::Frame(_) => None,
    }
}

/// Returns the origin of the frame that the answer has.
fn origin_in(answer: &Answer) -> Option<Origin>
    ensures { result ≡ origin_in answer.now }
{
    match answer {
        Answer::Frame(Some(arrival)) => Some(arrival.origin),
        Answer::Frame(None) | Answer::Committed(_) | Answer::Withdrawn(_) => None,
    }
}

/// Returns the entry of an accepted call, by its answer.
fn entry_told(task: TaskId, call: &Call, answer: &Answer) -> Entry
    ensures { result ≡ entry_told task call.now answer.now }
{
    match call {
        Call::Commit { buffer, payload } => Entry::Commit {
            task,
            buffer: *buffer,
            payload: payload.duplicate(),
        },
        Call::Withdraw { buffer } => Entry::Withdraw {
            task,
            buffer: *buffer,
            of: withdrawn_in(answer),
        },
        Call::Read { buffer } => Entry::Read {
            task,
            buffer: *buffer,
            from: origin_in(answer),
        },
        Call::Pop => Entry::Pop {
            task,
            from: origin_in(answer),
        },
    }
}

/// The room of a line that a frame of 262 bytes on each channel fills.
const ROOM: usize = 1_200;

/// Returns the line of the entry, or none if an allocation fails.
fn line_of(alloc: Global, entry: &Entry) -> Option<Vec<u8>>
    ensures { IsLine (option_map (λ l. l.items) result) (entry_line entry.now) }
{
    let mut line = Vec::new(alloc);
    match write_entry(&mut line, entry) {
        Ok(()) => Some(line),
        Err(_) => None,
    }
}

/// Makes the call, and writes the line of its entry. Fails as `EndlessWorld::call` does.
fn call_traced<F: Write + Drop>(
    world: &mut EndlessWorld,
    taps: &mut Taps<F>,
    asked: &HostCall,
) -> Result<Reply, StepError>
    ensures { ToldAlike (with_taps world.old taps.old)
        (λ w v. Steps w (event_of asked.now.node asked.now.task asked.now.call) result v)
        (with_taps world.new taps.new) }
{
    match world.call(asked.node, asked.task, &asked.call) {
        Ok(answer) => {
            let entry = entry_told(asked.task, &asked.call, &answer);
            let line = line_of(taps.alloc(), &entry);
            taps.add_line(asked.node, &line);
            Ok(Reply::from(answer))
        }
        Err(error) => Err(error),
    }
}

/// Writes the line of a fetch, if one is due. Fails if an allocation does.
fn write_fetched(
    line: &mut Vec<u8>,
    interface: &InterfaceState,
    controller: &Controller,
) -> io::Result<()>
    requires { line.old.items ≡ [] }
    ensures { ForEachHistory interface.now (λ s. OnOk result
        (line.new.items ≡ line_in (fetched_entry s controller.now))) }
{
    let Due::Fetch(window) = &controller.due else {
        return Ok(());
    };
    let a = interface.offered(window, Channel::A);
    let b = interface.offered(window, Channel::B);
    write_fetch(line, window, a, b)
}

/// Writes the line of an observation, if one is due. Fails if an allocation does.
fn write_observed(line: &mut Vec<u8>, controller: &Controller) -> io::Result<()>
    requires { line.old.items ≡ [] }
    ensures { OnOk result (line.new.items ≡ line_in (observed_entry controller.now)) }
{
    let Due::Observe(window) = &controller.due else {
        return Ok(());
    };
    write_observe(line, window.number, &controller.a, &controller.b)
}

/// Writes the line of a fetch of the node, if one is due. Fails if an allocation does.
fn write_fetched_at(line: &mut Vec<u8>, world: &EndlessWorld, node: NodeId) -> io::Result<()>
    requires { line.old.items ≡ [] }
    ensures { ForEachWorld world.now (λ w. has_node w node ≡ true → OnOk result
        (line.new.items ≡ line_in (fetched_entry (interface_at w node) (carried_at w node)))) }
{
    let place = usize::from(node.number());
    let (interfaces, controllers) = (world.interfaces(), world.controllers());
    if place >= interfaces.len() {
        return Ok(());
    }
    if place >= controllers.len() {
        return Ok(());
    }
    write_fetched(line, &interfaces[place], &controllers[place])
}

/// Writes the line of an observation of the node, if one is due. Fails if an allocation does.
fn write_observed_at(line: &mut Vec<u8>, world: &EndlessWorld, node: NodeId) -> io::Result<()>
    requires { line.old.items ≡ [] }
    ensures { ForEachWorld world.now (λ w. OnOk result
        (line.new.items ≡ line_in (observed_entry (carried_at w node)))) }
{
    let place = usize::from(node.number());
    let controllers = world.controllers();
    if place < controllers.len() {
        write_observed(line, &controllers[place])
    } else {
        Ok(())
    }
}

/// Writes the line of the entry that an event of a controller or of the bus adds, if it is accepted. Fails if an
/// allocation does.
fn write_slot(line: &mut Vec<u8>, world: &EndlessWorld, event: &Event) -> io::Result<()>
    requires slot { call_in event.now ≡ None }
    requires empty { line.old.items ≡ [] }
    ensures { ForEachWorld world.now (λ w. has_node w (node_of event.now) ≡ true → OnOk result
        (line.new.items ≡ line_in (entry_by w event.now))) }
{
    match event {
        Event::Fetch(node) => write_fetched_at(line, world, *node),
        Event::Observe(node) => write_observed_at(line, world, *node),
        Event::Commit { .. } | Event::Withdraw { .. } | Event::Read { .. } | Event::Pop { .. } =>
            Ok(()),
        Event::Look(_) | Event::Put(_) | Event::Take(_) => Ok(()),
        Event::Inject(_) | Event::Seal | Event::Advance => Ok(()),
    }
}

/// Returns the line of the entry that an event of a controller or of the bus adds, if it is accepted. Returns none if
/// an allocation fails.
fn slot_line(alloc: Global, world: &EndlessWorld, event: &Event) -> Option<Vec<u8>>
    requires { call_in event.now ≡ None }
    ensures { ForEachWorld world.now (λ w. has_node w (node_of event.now) ≡ true
        → IsLine (option_map (λ l. l.items) result) (line_in (entry_by w event.now))) }
{
    let Ok(mut line) = Vec::with_capacity(alloc, ROOM) else {
        return None;
    };
    match write_slot(&mut line, world, event) {
        Ok(()) => Some(line),
        Err(_) => None,
    }
}

// The line is written before the event, as the observations that it has are lent by the controller only until then.
/// Executes an event of a controller that adds an entry, without its answer, and writes its line. Fails as
/// `EndlessWorld::apply` does.
pub(crate) fn apply_slot<F: Write + Drop>(
    world: &mut EndlessWorld,
    taps: &mut Taps<F>,
    event: &Event,
) -> Result<(), StepError>
    requires adds { adds_entry event.now ≡ true }
    requires slot { call_in event.now ≡ None }
    ensures { ToldAlike (with_taps world.old taps.old) (λ w v. Applies w event.now result v)
        (with_taps world.new taps.new) }
{
    let line = slot_line(taps.alloc(), world, event);
    match world.apply(event) {
        Ok(()) => {
            taps.add_line(node_of(event), &line);
            Ok(())
        }
        Err(error) => Err(error),
    }
}

/// Executes an event of a controller that adds an entry, and writes its line. Fails as `EndlessWorld::step` does.
fn step_slot<F: Write + Drop>(
    world: &mut EndlessWorld,
    taps: &mut Taps<F>,
    event: &Event,
) -> Result<Reply, StepError>
    requires adds { adds_entry event.now ≡ true }
    requires slot { call_in event.now ≡ None }
    ensures { ToldAlike (with_taps world.old taps.old) (λ w v. Steps w event.now result v)
        (with_taps world.new taps.new) }
{
    match apply_slot(world, taps, event) {
        Ok(()) => Ok(Reply::Done),
        Err(error) => Err(error),
    }
}

/// Executes an event that adds an entry if it is accepted, and writes the line of the entry. Fails as
/// `EndlessWorld::step` does.
///
/// It isn't inlined, so a session without traces doesn't pay for the room of a reply.
#[inline(never)]
pub(crate) fn step_traced<F: Write + Drop>(
    world: &mut EndlessWorld,
    taps: &mut Taps<F>,
    event: &Event,
) -> Result<Reply, StepError>
    requires { adds_entry event.now ≡ true }
    ensures { ToldAlike (with_taps world.old taps.old) (λ w v. Steps w event.now result v)
        (with_taps world.new taps.new) }
{
    match call_in(event) {
        Some(asked) => call_traced(world, taps, &asked),
        None => step_slot(world, taps, event),
    }
}
