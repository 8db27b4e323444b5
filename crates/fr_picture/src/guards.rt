//! The intervals of the cycle in which each channel is open to each node.

ghost use Rattle.std.specs.Prelude.{◌≡◌, ◌+◌, ◌<◌, ◌≤◌, ◌^◌, OnOk};
ghost use Rattle.fr_picture.specs.Guards.{AreGuardRows, guard_front, guard_name, guard_row, guard_words, IsGuardRow};
ghost use Rattle.fr_picture.specs.Guards.{open_front, open_text, opens_text, row_text};
ghost use Rattle.fr_picture.specs.Owners.{Adds};
ghost use Rattle.fr_text.specs.Writing.{Writes};

use crate::frame::{GUARD_PITCH, GUARDS_TOP};
use crate::scale::{LEFT, across, extent};
use fr_guardian::guardian::Guardian;
use fr_slots::channel::Channel;
use fr_slots::numbers::{Cycle, NodeId};
use fr_slots::params::Params;
use fr_svg::elements::{close_group, close_text, open_placed, write_rect};
use std::io;
use std::io::Write;

/// Returns the distance of the row of a node and a channel from the top.
fn guard_row(node: u8, channel: Channel) -> u64
    ensures value { result ≡ guard_row node channel }
    ensures small { result < 2 ^ 60 }
{
    let first = GUARDS_TOP + 2 * GUARD_PITCH * u64::from(node);
    match channel {
        Channel::A => first,
        Channel::B => first + GUARD_PITCH,
    }
}

/// Writes the front of the name of a row.
#[tactic(auto, unfolding(crate::specs::Guards::guard_front))]
fn write_guard_front<W: Write>(writer: &mut W, node: u8, channel: Channel) -> io::Result<()>
    ensures { Writes W.contents writer.old writer.new result (guard_front node channel) }
{
    write!(
        writer,
        "<g class='name'><title>node {node} {channel}</title>"
    )
}

/// Writes the words of the name of a row.
#[tactic(auto, unfolding(crate::specs::Guards::guard_words))]
fn write_guard_words<W: Write>(writer: &mut W, node: u8, channel: Channel) -> io::Result<()>
    ensures { Writes W.contents writer.old writer.new result (guard_words node channel) }
{
    write!(writer, "node {node} {channel}")
}

/// Writes the name of a row at a distance from the top.
#[tactic(auto, unfolding(crate::specs::Guards::guard_name))]
fn write_guard_name<W: Write>(
    writer: &mut W,
    top: u64,
    node: u8,
    channel: Channel,
) -> io::Result<()>
    requires { top < 2 ^ 60 }
    ensures { Writes W.contents writer.old writer.new result (guard_name top node channel) }
{
    write_guard_front(writer, node, channel)?;
    open_placed(writer, LEFT - 80, top + 115)?;
    write_guard_words(writer, node, channel)?;
    close_text(writer)?;
    close_group(writer)
}

/// Writes the front of the element of an open interval.
#[tactic(auto, unfolding(crate::specs::Guards::open_front))]
fn write_open_front<W: Write>(
    writer: &mut W,
    node: u8,
    channel: Channel,
    start: u32,
    end: u32,
) -> io::Result<()>
    ensures { Writes W.contents writer.old writer.new result (open_front node channel start end) }
{
    write!(
        writer,
        "<g class='open n{node}'><title>node {node} on {channel}: open from {start} to {end}</title>"
    )
}

/// Writes the element of an open interval.
#[tactic(auto, unfolding(crate::specs::Guards::open_text))]
fn write_open<W: Write>(
    writer: &mut W,
    params: &Params,
    top: u64,
    node: u8,
    channel: Channel,
    span: (u32, u32),
) -> io::Result<()>
    ensures { Writes W.contents writer.old writer.new result (open_text params.now top node channel span) }
{
    let (start, end) = span;
    let (left, length) = (across(params, start), extent(params, start, end));
    write_open_front(writer, node, channel, start, end)?;
    write_rect(writer, left, top, length, 150)?;
    close_group(writer)
}

/// Writes the elements of open intervals.
#[tactic(auto, unfolding(crate::specs::Guards::opens_text))]
fn write_opens<W: Write>(
    writer: &mut W,
    params: &Params,
    top: u64,
    node: u8,
    channel: Channel,
    spans: &[(u32, u32)],
) -> io::Result<()>
    ensures { Writes W.contents writer.old writer.new result (opens_text params.now top node channel spans.now) }
{
    for span in spans {
        write_open(writer, params, top, node, channel, *span)?;
    }
    Ok(())
}

/// Writes a row with its name and open intervals.
fn write_named<W: Write>(
    writer: &mut W,
    params: &Params,
    top: u64,
    node: u8,
    channel: Channel,
    spans: &[(u32, u32)],
) -> io::Result<()>
    requires { top < 2 ^ 60 }
    ensures { Writes W.contents writer.old writer.new result (row_text params.now top node channel spans.now) }
{
    write_guard_name(writer, top, node, channel)?;
    write_opens(writer, params, top, node, channel, spans)
}

/// Writes the row of a node and a channel: its name, and an element for each interval in which the guardian is open.
fn write_row<W: Write>(
    writer: &mut W,
    guardian: &Guardian,
    cycle: Cycle,
    node: NodeId,
    channel: Channel,
) -> io::Result<()>
    ensures { OnOk result
        (Adds (IsGuardRow guardian.now cycle node channel) (W.contents writer.old) (W.contents writer.new)) }
{
    write_named(
        writer,
        guardian.params(),
        guard_row(node.number(), channel),
        node.number(),
        channel,
        guardian.windows(node, cycle, channel),
    )
}

/// Writes the rows of the first nodes; in each node that of channel A before that of channel B.
pub(crate) fn write_guards<W: Write>(
    writer: &mut W,
    guardian: &Guardian,
    cycle: Cycle,
    nodes: u8,
) -> io::Result<()>
    requires { nodes ≤ 16 }
    ensures { OnOk result
        (Adds (AreGuardRows guardian.now cycle nodes) (W.contents writer.old) (W.contents writer.new)) }
{
    for number in 0..nodes {
        if let Some(node) = NodeId::new(number) {
            write_row(writer, guardian, cycle, node, Channel::A)?;
            write_row(writer, guardian, cycle, node, Channel::B)?;
        }
    }
    Ok(())
}
