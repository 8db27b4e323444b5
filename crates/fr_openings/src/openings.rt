//! The transmit buffers of the dynamic segment in a window.
ghost use Rattle.std.specs.Prelude.{◌≡◌};
ghost use Rattle.fr_files.specs.NodeTexts.{of_nodes};
ghost use Rattle.fr_openings.specs.Aside.{is_aside, opens};
ghost use Rattle.fr_openings.specs.Openings.{both_text, channel_text, due_line, due_text, is_due, is_open, is_silent};
ghost use Rattle.fr_openings.specs.Openings.{node_text, opening_line, opening_text, opening_word, openings_text};
ghost use Rattle.fr_openings.specs.Openings.{closed_line, closed_text, is_above, is_closed, place_text, unopened_text};
ghost use Rattle.fr_text.specs.Writing.{Writes};

use fr_schedule::cluster::Cluster;
use fr_slots::channel::Channel;
use fr_slots::numbers::{Cycle, SlotId};
use fr_slots::params::Params;
use fr_slots::plan::{Buffer, NodePlan};
use fr_slots::window::{Window, opens_cycle};
use std::io;
use std::io::Write;

/// A buffer of a node in a cycle of a run.
#[derive(Clone, Copy)]
struct BufferPlace {
    /// The cycle of the run, counted from 0.
    cycle: usize,
    /// The number of the node.
    node: usize,
    /// The number of the buffer.
    number: usize,
}

/// Returns whether this is a transmit buffer of the dynamic segment for the channel, which is due in the cycle.
fn is_due(params: &Params, cycle: Cycle, channel: Channel, buffer: &Buffer) -> bool
    ensures { result ≡ is_due params.now cycle channel buffer.now }
{
    buffer.transmits_dynamic(params)
        && (buffer.filter.channels.includes(channel) && buffer.filter.cycles.admits(cycle))
}

/// Returns whether this is a transmit buffer of the dynamic segment, whose slot the channel opens in the window.
fn is_open(params: &Params, window: &Window, channel: Channel, buffer: &Buffer) -> bool
    ensures { result ≡ is_open params.now window.now channel buffer.now }
{
    buffer.transmits_dynamic(params) && buffer.filter.admits_window(window, channel)
}

/// For each channel, whether the slot that it opens in a window is its last one of the cycle.
#[derive(Clone, Copy)]
pub struct LastSlots {
    /// On channel A.
    pub a: bool,
    /// On channel B.
    pub b: bool,
}

/// Returns whether the slot is above the one that the channel opens.
fn is_above(opened: Option<SlotId>, slot: SlotId) -> bool
    ensures { result ≡ is_above opened slot }
{
    match opened {
        Some(opened) => opened.number() < slot.number(),
        None => false,
    }
}

/// Returns whether the buffer is due, and the channel opens its last slot in the window, which is below the buffer's.
fn is_closed(
    params: &Params,
    window: &Window,
    ends: bool,
    channel: Channel,
    buffer: &Buffer,
) -> bool
    ensures { result ≡ is_closed params.now window.now ends channel buffer.now }
{
    ends && (is_due(params, window.cycle, channel, buffer)
        && is_above(window.slot(channel), buffer.filter.slot))
}

/// Returns the word for a slot that opens at the minislot.
fn opening_word(latest: u16, minislot: u16) -> &'static str
    ensures { result.now ≡ opening_word latest minislot }
{
    if latest < minislot { "late" } else { "open" }
}

/// Writes the place of the buffer, its slot, the channel, and pLatestTx there.
#[tactic(auto, unfolding(crate::specs::Openings::place_text))]
fn write_place<W: Write>(
    writer: &mut W,
    place: BufferPlace,
    buffer: &Buffer,
    channel: Channel,
    latest: u16,
) -> io::Result<()>
    ensures { Writes W.contents writer.old writer.new result (place_text place buffer.now channel latest) }
{
    write!(writer, "{} {} {} ", place.cycle, place.node, place.number)?;
    write!(writer, "{} {channel} {latest}", buffer.filter.slot)
}

/// Writes the line of a buffer that is due.
fn write_due_line<W: Write>(
    writer: &mut W,
    place: BufferPlace,
    buffer: &Buffer,
    channel: Channel,
    latest: u16,
) -> io::Result<()>
    ensures { Writes W.contents writer.old writer.new result (due_line place buffer.now channel latest) }
{
    writer.write_all(b"due ")?;
    write_place(writer, place, buffer, channel, latest)?;
    writer.write_all(b"\n")
}

/// Writes the line of a buffer whose slot doesn't open in the cycle.
fn write_closed_line<W: Write>(
    writer: &mut W,
    place: BufferPlace,
    buffer: &Buffer,
    channel: Channel,
    latest: u16,
) -> io::Result<()>
    ensures { Writes W.contents writer.old writer.new result (closed_line place buffer.now channel latest) }
{
    writer.write_all(b"closed ")?;
    write_place(writer, place, buffer, channel, latest)?;
    writer.write_all(b"\n")
}

/// Writes the line of a buffer of the dynamic segment in a cycle without minislots.
fn write_unopened<W: Write>(
    writer: &mut W,
    params: &Params,
    place: BufferPlace,
    plan: &NodePlan,
    buffer: &Buffer,
    channel: Channel,
) -> io::Result<()>
    ensures { Writes W.contents writer.old writer.new result
        (unopened_text params.now place plan.now buffer.now channel) }
{
    if params.minislots == 0 {
        write_closed_line(writer, place, buffer, channel, plan.latest(channel))
    } else {
        Ok(())
    }
}

/// Writes the line of a buffer whose slot opens at the minislot.
fn write_opening_line<W: Write>(
    writer: &mut W,
    place: BufferPlace,
    buffer: &Buffer,
    channel: Channel,
    latest: u16,
    minislot: u16,
) -> io::Result<()>
    ensures { Writes W.contents writer.old writer.new result
        (opening_line place buffer.now channel latest minislot) }
{
    write!(writer, "{} ", opening_word(latest, minislot))?;
    write_place(writer, place, buffer, channel, latest)?;
    writeln!(writer, " {minislot}")
}

/// Writes the line of the buffer, if it is due in the cycle of the window.
fn write_due<W: Write>(
    writer: &mut W,
    params: &Params,
    window: &Window,
    place: BufferPlace,
    plan: &NodePlan,
    buffer: &Buffer,
    channel: Channel,
) -> io::Result<()>
    ensures { Writes W.contents writer.old writer.new result
        (due_text params.now window.now place plan.now buffer.now channel) }
{
    if is_due(params, window.cycle, channel, buffer) {
        write_due_line(writer, place, buffer, channel, plan.latest(channel))?;
        write_unopened(writer, params, place, plan, buffer, channel)
    } else {
        Ok(())
    }
}

/// Writes the line of the buffer, if the channel opens no further slot in the cycle, and so not its own.
fn write_closed<W: Write>(
    writer: &mut W,
    params: &Params,
    window: &Window,
    ends: bool,
    place: BufferPlace,
    plan: &NodePlan,
    buffer: &Buffer,
    channel: Channel,
) -> io::Result<()>
    ensures { Writes W.contents writer.old writer.new result
        (closed_text params.now window.now ends place plan.now buffer.now channel) }
{
    if is_closed(params, window, ends, channel, buffer) {
        write_closed_line(writer, place, buffer, channel, plan.latest(channel))
    } else {
        Ok(())
    }
}

/// Writes the line of the buffer, if the channel opens its slot in the window, or no further slot in the cycle.
fn write_opening<W: Write>(
    writer: &mut W,
    params: &Params,
    window: &Window,
    ends: bool,
    place: BufferPlace,
    plan: &NodePlan,
    buffer: &Buffer,
    channel: Channel,
) -> io::Result<()>
    ensures { Writes W.contents writer.old writer.new result
        (opening_text params.now window.now ends place plan.now buffer.now channel) }
{
    if is_open(params, window, channel, buffer) {
        let latest = plan.latest(channel);
        write_opening_line(writer, place, buffer, channel, latest, window.minislot)
    } else {
        write_closed(writer, params, window, ends, place, plan, buffer, channel)
    }
}

/// Writes what the window has of the buffer on the channel.
fn write_channel<W: Write>(
    writer: &mut W,
    params: &Params,
    window: &Window,
    ends: bool,
    place: BufferPlace,
    plan: &NodePlan,
    buffer: &Buffer,
    channel: Channel,
) -> io::Result<()>
    ensures { Writes W.contents writer.old writer.new result
        (channel_text params.now window.now ends place plan.now buffer.now channel) }
{
    if opens_cycle(window) {
        write_due(writer, params, window, place, plan, buffer, channel)
    } else {
        write_opening(writer, params, window, ends, place, plan, buffer, channel)
    }
}

/// Returns whether the channel opens the slot.
fn opens(opened: Option<SlotId>, slot: SlotId) -> bool
    ensures { result ≡ opens opened slot }
{
    match opened {
        Some(opened) => slot.number() == opened.number(),
        None => false,
    }
}

/// Returns whether the window isn't the first of its cycle, and no channel opens the slot or its last one in it.
fn is_aside(window: &Window, last: LastSlots, slot: SlotId) -> bool
    ensures { result ≡ is_aside window.now last slot }
{
    let is_told = opens_cycle(window) || last.a || last.b;
    !(is_told || opens(window.a, slot) || opens(window.b, slot))
}

/// Writes what the window has of the buffer. Most windows have nothing of it, which their slots tell.
fn write_buffer<W: Write>(
    writer: &mut W,
    params: &Params,
    window: &Window,
    last: LastSlots,
    place: BufferPlace,
    plan: &NodePlan,
    buffer: &Buffer,
) -> io::Result<()>
    ensures { Writes W.contents writer.old writer.new result
        (both_text params.now window.now last place plan.now buffer.now) }
{
    if is_aside(window, last, buffer.filter.slot) {
        return Ok(());
    }
    let LastSlots { a, b } = last;
    write_channel(writer, params, window, a, place, plan, buffer, Channel::A)?;
    write_channel(writer, params, window, b, place, plan, buffer, Channel::B)
}

/// Writes what the window has of a node's buffers.
fn write_node<W: Write>(
    writer: &mut W,
    params: &Params,
    cycle: usize,
    window: &Window,
    last: LastSlots,
    node: usize,
    plan: &NodePlan,
) -> io::Result<()>
    ensures { Writes W.contents writer.old writer.new result
        (node_text params.now cycle window.now last node plan.now) }
{
    for (number, buffer) in plan.buffers().iter().enumerate() {
        let place = BufferPlace {
            cycle,
            node,
            number,
        };
        write_buffer(writer, params, window, last, place, plan, buffer)?;
    }
    Ok(())
}

/// Writes what the window has of the buffers of all nodes.
fn write_nodes<W: Write>(
    writer: &mut W,
    cluster: &Cluster,
    cycle: usize,
    window: &Window,
    last: LastSlots,
) -> io::Result<()>
    ensures { Writes W.contents writer.old writer.new result
        (of_nodes (node_text cluster.now.params cycle window.now last) 0 cluster.now.plans) }
{
    for (node, plan) in cluster.plans().iter().enumerate() {
        write_node(writer, cluster.params(), cycle, window, last, node, plan)?;
    }
    Ok(())
}

/// Returns whether this is the window of a static slot that isn't the first of its cycle.
fn is_silent(window: &Window) -> bool
    ensures { result ≡ is_silent window.now }
{
    window.is_static() && !opens_cycle(window)
}

/// Writes what a window has of the transmit buffers of the dynamic segment (chapters 5 and 9; the lines are
/// project-defined).
///
/// The first window of a cycle has a line for each such buffer that is due in the cycle: `due`, the cycle of the run,
/// the node, the buffer, its slot, the channel, and the node's pLatestTx there in minislots. A window of the dynamic
/// segment has a line for each of them whose slot opens there: `open`, or `late` if this is after pLatestTx, then the
/// same words, and the minislot. If the slot that a channel opens there is its last one of the cycle, each buffer that
/// is due and whose slot is above has a line `closed` with the words of `due`. Without minislots it follows `due`. The
/// lines are in the order of the nodes and of their buffers, channel A before B.
///
/// `last` tells of each channel whether the slot that it opens in the window is its last one of the cycle. `cycle` is
/// the cycle of the run in which the window lies, counted from 0.
///
/// Fails if the writer fails, which may have written a part of the lines by then.
pub fn write_openings<W: Write>(
    writer: &mut W,
    cluster: &Cluster,
    cycle: usize,
    window: &Window,
    last: LastSlots,
) -> io::Result<()>
    ensures { Writes W.contents writer.old writer.new result
        (openings_text cluster.now cycle window.now last) }
{
    if is_silent(window) {
        Ok(())
    } else {
        write_nodes(writer, cluster, cycle, window, last)
    }
}
