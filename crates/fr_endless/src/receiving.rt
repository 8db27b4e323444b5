//! Frames that tasks receive in a world without history.
ghost use Rattle.fr_core.specs.Worlds.{interface_at};
ghost use Rattle.fr_endless.specs.Serving.{ReceivesAlike, TakesNextAlike};
ghost use Rattle.fr_endless.specs.Taps.{with_taps};
ghost use Rattle.fr_interface.specs.State.{oldest_of, received_by};
ghost use Rattle.fr_live.specs.LiveWorlds.{ForEachWorld};
ghost use Rattle.fr_session.specs.Queries.{Replies};
ghost use Rattle.std.specs.Prelude.{◌≡◌};

use crate::taps::Taps;
use crate::telling::step_told;
use crate::world::EndlessWorld;
use fr_core::event::Event;
use fr_journal::entry::Arrival;
use fr_session::noted::Noted;
use fr_session::replies::{write_received, write_refusal};
use fr_slots::numbers::{NodeId, TaskId};
use std::io;
use std::io::Write;

/// Returns the frame that the node's receive buffer holds.
fn held_at(world: &EndlessWorld, node: NodeId, buffer: u8) -> Option<Arrival>
    ensures { ForEachWorld world.now (λ w. result ≡ received_by (interface_at w node) buffer) }
{
    let place = usize::from(node.number());
    let interfaces = world.interfaces();
    if place < interfaces.len() {
        interfaces[place].received(buffer)
    } else {
        None
    }
}

/// Returns the oldest frame of the node's receive FIFO.
fn oldest_at(world: &EndlessWorld, node: NodeId) -> Option<Arrival>
    ensures { ForEachWorld world.now (λ w. result ≡ oldest_of (interface_at w node)) }
{
    let place = usize::from(node.number());
    let interfaces = world.interfaces();
    if place < interfaces.len() {
        interfaces[place].oldest()
    } else {
        None
    }
}

/// Makes the step that reads the receive buffer, and writes the frame that it held, as the session with history does.
pub(crate) fn receive<F: Write + Drop, W: Write>(
    world: &mut EndlessWorld,
    taps: &mut Taps<F>,
    noted: &mut Noted,
    node: NodeId,
    task: TaskId,
    buffer: u8,
    writer: &mut W,
) -> io::Result<()>
    ensures { Replies W.contents writer.old writer.new result (λ reply. ReceivesAlike (with_taps world.old taps.old)
        noted.old node task buffer reply (with_taps world.new taps.new) noted.new) }
{
    let arrival = held_at(world, node, buffer);
    match step_told(world, taps, &Event::Read { node, task, buffer }) {
        Ok(_) => {
            let fresh = noted.latest.note(node, buffer, &arrival);
            write_received(writer, &arrival, fresh)
        }
        Err(error) => write_refusal(writer, error),
    }
}

/// Makes the step that pops the receive FIFO, and writes the frame that was its oldest, as the session with history
/// does.
pub(crate) fn take_next<F: Write + Drop, W: Write>(
    world: &mut EndlessWorld,
    taps: &mut Taps<F>,
    noted: &mut Noted,
    node: NodeId,
    task: TaskId,
    writer: &mut W,
) -> io::Result<()>
    ensures { Replies W.contents writer.old writer.new result (λ reply. TakesNextAlike
        (with_taps world.old taps.old) noted.old node task reply (with_taps world.new taps.new) noted.new) }
{
    let arrival = oldest_at(world, node);
    match step_told(world, taps, &Event::Pop { node, task }) {
        Ok(_) => write_received(writer, &arrival, true),
        Err(error) => write_refusal(writer, error),
    }
}
