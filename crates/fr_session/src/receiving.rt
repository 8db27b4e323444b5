//! Frames that tasks receive, with the channel on which they came, the cycle of the run, and whether they are new.
ghost use Rattle.std.specs.Prelude.{◌≡◌};
ghost use Rattle.fr_core.specs.Worlds.{interface_at};
ghost use Rattle.fr_interface.specs.State.{oldest_of, received_by};
ghost use Rattle.fr_session.specs.Queries.{Replies};
ghost use Rattle.fr_session.specs.Sessions.{Receives, TakesNext, state_of};

use crate::noted::Noted;
use crate::replies::{write_received, write_refusal};
use fr_core::event::Event;
use fr_core::world::World;
use fr_journal::entry::Arrival;
use fr_slots::numbers::{NodeId, TaskId};
use std::io;
use std::io::Write;

/// Returns the frame that the node's receive buffer holds.
fn held_at(world: &World, node: NodeId, buffer: u8) -> Option<Arrival>
    ensures { result ≡ received_by (interface_at world.now node) buffer }
{
    let place = usize::from(node.number());
    let interfaces = world.interfaces();
    if place < interfaces.len() {
        interfaces[place].received(buffer)
    } else {
        None
    }
}

/// Returns the oldest frame of the node's receive FIFO.
fn oldest_at(world: &World, node: NodeId) -> Option<Arrival>
    ensures { result ≡ oldest_of (interface_at world.now node) }
{
    let place = usize::from(node.number());
    let interfaces = world.interfaces();
    if place < interfaces.len() {
        interfaces[place].oldest()
    } else {
        None
    }
}

/// Makes the step that reads the receive buffer, and writes the frame that it held.
pub(crate) fn receive<W: Write>(
    world: &mut World,
    noted: &mut Noted,
    node: NodeId,
    task: TaskId,
    buffer: u8,
    writer: &mut W,
) -> io::Result<()>
    ensures { Replies W.contents writer.old writer.new result (λ reply. Receives (state_of world.old noted.old)
        node task buffer reply (state_of world.new noted.new)) }
{
    let arrival = held_at(world, node, buffer);
    match world.step(&Event::Read { node, task, buffer }) {
        Ok(_) => {
            let fresh = noted.latest.note(node, buffer, &arrival);
            write_received(writer, &arrival, fresh)
        }
        Err(error) => write_refusal(writer, error),
    }
}

/// Makes the step that pops the receive FIFO, and writes the frame that was its oldest.
pub(crate) fn take_next<W: Write>(
    world: &mut World,
    noted: &mut Noted,
    node: NodeId,
    task: TaskId,
    writer: &mut W,
) -> io::Result<()>
    ensures { Replies W.contents writer.old writer.new result (λ reply. TakesNext (state_of world.old noted.old)
        node task reply (state_of world.new noted.new)) }
{
    let arrival = oldest_at(world, node);
    match world.step(&Event::Pop { node, task }) {
        Ok(_) => write_received(writer, &arrival, true),
        Err(error) => write_refusal(writer, error),
    }
}
