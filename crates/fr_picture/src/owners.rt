//! The static slots of a channel, each with its owner in the cycle.

ghost use Rattle.std.specs.Prelude.{◌≡◌, OnOk};
ghost use Rattle.fr_text.specs.Writing.{Writes};
ghost use Rattle.fr_picture.specs.Owners.{box_text, end_of, free_element, free_title, number_text, owned_element};
ghost use Rattle.fr_picture.specs.Owners.{owned_title, start_of, Adds, AreOwnerTexts, IsOwnerText};

use crate::scale::{NUMBER_LENGTH, across, extent, row_of};
use fr_schedule::cluster::Cluster;
use fr_slots::channel::Channel;
use fr_slots::numbers::{Cycle, NodeId, SlotId};
use fr_slots::params::Params;
use fr_svg::elements::{close_group, close_text, open_text, write_rect};
use std::io;
use std::io::Write;

/// Returns the macrotick at which a static slot begins.
fn start_of(params: &Params, slot: SlotId) -> u32
    ensures { result ≡ start_of params.now slot }
{
    u32::from(slot.number() - 1) * u32::from(params.static_mt)
}

/// Returns the macrotick at which the slot after this one begins.
fn end_of(params: &Params, slot: SlotId) -> u32
    ensures { result ≡ end_of params.now slot }
{
    u32::from(slot.number()) * u32::from(params.static_mt)
}

/// Writes a box in the row of a channel.
fn write_box<W: Write>(writer: &mut W, left: u64, length: u64, channel: Channel) -> io::Result<()>
    ensures { Writes W.contents writer.old writer.new result (box_text left length channel) }
{
    write_rect(writer, left, row_of(channel), length, 420)
}

/// Writes the number of a node into its box, if it fits.
#[tactic(auto, unfolding(crate::specs::Owners::number_text))]
fn write_number<W: Write>(
    writer: &mut W,
    left: u64,
    length: u64,
    channel: Channel,
    node: u8,
) -> io::Result<()>
    ensures { Writes W.contents writer.old writer.new result (number_text left length channel node) }
{
    if length < NUMBER_LENGTH {
        return Ok(());
    }
    open_text(writer, left, row_of(channel), length / 2, 260)?;
    write!(writer, "{node}")?;
    close_text(writer)
}

/// Writes the front of the element of a slot that a node owns.
#[tactic(auto, unfolding(crate::specs::Owners::owned_title))]
fn write_owned_title<W: Write>(
    writer: &mut W,
    slot: u16,
    channel: Channel,
    node: u8,
) -> io::Result<()>
    ensures { Writes W.contents writer.old writer.new result (owned_title slot channel node) }
{
    write!(
        writer,
        "<g class='owner n{node}'><title>slot {slot} on {channel}: node {node}</title>"
    )
}

/// Writes the front of the element of a slot that has no owner in the cycle.
#[tactic(auto, unfolding(crate::specs::Owners::free_title))]
fn write_free_title<W: Write>(writer: &mut W, slot: u16, channel: Channel) -> io::Result<()>
    ensures { Writes W.contents writer.old writer.new result (free_title slot channel) }
{
    write!(
        writer,
        "<g class='free'><title>slot {slot} on {channel}: nobody</title>"
    )
}

/// Writes the element of a static slot on the channel that a node owns.
fn write_owned<W: Write>(
    writer: &mut W,
    params: &Params,
    slot: SlotId,
    channel: Channel,
    node: NodeId,
) -> io::Result<()>
    ensures { Writes W.contents writer.old writer.new result (owned_element params.now slot channel node) }
{
    let (start, end) = (start_of(params, slot), end_of(params, slot));
    let (left, length) = (across(params, start), extent(params, start, end));
    write_owned_title(writer, slot.number(), channel, node.number())?;
    write_box(writer, left, length, channel)?;
    write_number(writer, left, length, channel, node.number())?;
    close_group(writer)
}

/// Writes the element of a static slot on the channel that has no owner in the cycle.
fn write_free<W: Write>(
    writer: &mut W,
    params: &Params,
    slot: SlotId,
    channel: Channel,
) -> io::Result<()>
    ensures { Writes W.contents writer.old writer.new result (free_element params.now slot channel) }
{
    let (start, end) = (start_of(params, slot), end_of(params, slot));
    let (left, length) = (across(params, start), extent(params, start, end));
    write_free_title(writer, slot.number(), channel)?;
    write_box(writer, left, length, channel)?;
    close_group(writer)
}

/// Writes the element of a static slot on the channel, which names its owner in the cycle.
fn write_owner<W: Write>(
    writer: &mut W,
    cluster: &Cluster,
    cycle: Cycle,
    slot: SlotId,
    channel: Channel,
) -> io::Result<()>
    ensures { OnOk result
        (Adds (IsOwnerText cluster.now cycle slot channel) (W.contents writer.old) (W.contents writer.new)) }
{
    match cluster.sender(cycle, slot, channel) {
        Some(node) => write_owned(writer, cluster.params(), slot, channel, node),
        None => write_free(writer, cluster.params(), slot, channel),
    }
}

/// Writes the elements of the static slots, each with its owner (chapter 5).
///
/// The picture is project-defined. The owner is the node that the sender table has for the slot in the cycle. In each
/// slot the element on channel A stands before that on channel B.
///
/// Fails if the writer fails, which may have written a part by then.
pub fn write_owners<W: Write>(writer: &mut W, cluster: &Cluster, cycle: Cycle) -> io::Result<()>
    ensures { OnOk result
        (Adds
        (AreOwnerTexts cluster.now cycle cluster.now.params.static_slots)
        (W.contents writer.old)
        (W.contents writer.new)) }
{
    let params = cluster.params();
    for earlier in 0..params.static_slots {
        if let Some(slot) = SlotId::new(earlier + 1) {
            write_owner(writer, cluster, cycle, slot, Channel::A)?;
            write_owner(writer, cluster, cycle, slot, Channel::B)?;
        }
    }
    Ok(())
}
