//! The minislots at which dynamic slots can open.

ghost use Rattle.std.specs.Prelude.{◌≡◌, ◌+◌, ◌*◌, ◌/◌, ◌<◌, ◌≤◌, false, max, min, true, OnOk};
ghost use Rattle.fr_latency.specs.Openings.{is_used, slots_before};
ghost use Rattle.fr_latency.specs.Rows.{AreRows};
ghost use Rattle.fr_latency.specs.Tables.{AreOpenings};
ghost use Rattle.fr_picture.specs.Owners.{Adds};
ghost use Rattle.fr_picture.specs.Places.{row_of};
ghost use Rattle.fr_picture.specs.Ranges.{AreRangeTexts, IsRangeText, latest_of, minislot_start, range_front};
ghost use Rattle.fr_picture.specs.Ranges.{range_text};
ghost use Rattle.fr_picture.specs.Shares.{HasSender, IsPlace};
ghost use Rattle.fr_schedule.specs.Descriptions.{Description};
ghost use Rattle.fr_slots.specs.Numbers.{last_slot};
ghost use Rattle.fr_slots.specs.Parameters.{is_static_slot};
ghost use Rattle.fr_text.specs.Writing.{Writes};

use crate::scale::{CHANNEL_HEIGHT, across, extent, row_of};
use crate::shares::{Sender, count_senders, length_of_shares, sender_in};
use fr_latency::openings::{Openings, Row};
use fr_schedule::cluster::Cluster;
use fr_slots::channel::Channel;
use fr_slots::numbers::{Cycle, LAST_SLOT, NodeId, SlotId};
use fr_slots::params::Params;
use fr_svg::elements::{close_group, write_rect};
use fr_timing::segments::segments_of;
use std::io;
use std::io::Write;

/// The height of the strip under the dynamic slots of a channel.
const STRIP: u64 = 70;

/// The place of the line of a range in its strip: its distance from the top, and its height.
#[derive(Clone, Copy)]
struct Strip {
    top: u64,
    height: u64,
}

/// Returns the rows of the channel.
fn rows_of(openings: &Openings, channel: Channel) -> &[Row]
    ensures { (d : Description) → AreOpenings d openings.now → AreRows d channel result.now }
{
    match channel {
        Channel::A => openings.a.as_slice(),
        Channel::B => openings.b.as_slice(),
    }
}

/// Returns the number of dynamic slots before a slot.
fn slots_before(params: &Params, slot: SlotId) -> u16
    ensures value { result ≡ slots_before params.now slot }
    ensures few { result ≤ 2047 }
    ensures within { is_static_slot params.now slot ≡ false → params.now.static_slots + result < last_slot }
{
    slot.number().saturating_sub(params.static_slots + 1)
}

/// Returns the last minislot at which a dynamic slot can open in the cycle, or 0 if it never opens.
fn latest_of(
    cluster: &Cluster,
    openings: &Openings,
    cycle: Cycle,
    channel: Channel,
    slot: SlotId,
) -> u16
    requires openings { AreOpenings cluster.now openings.now }
    requires dynamic { is_static_slot cluster.now.params slot ≡ false }
    requires used { is_used cluster.now.plans slot channel ≡ true }
    ensures { result ≡ latest_of cluster.now cycle channel slot }
{
    let rows = rows_of(openings, channel);
    let row = &rows[usize::from(slots_before(cluster.params(), slot))];
    row.opening[usize::from(cycle.number())]
}

/// Returns the macrotick at which a minislot of the cycle begins. Minislots are counted from 1.
fn start_of(params: &Params, minislot: u32) -> u32
    requires first { 1 ≤ minislot }
    requires few { minislot ≤ 65536 }
    ensures { result ≡ minislot_start params.now minislot }
{
    segments_of(params).dynamic + (minislot - 1) * u32::from(params.minislot_mt)
}

/// Writes the front of the line of a range.
#[tactic(auto, unfolding(crate::specs::Ranges::range_front))]
fn write_range_front<W: Write>(
    writer: &mut W,
    slot: u16,
    channel: Channel,
    node: u8,
    first: u16,
    last: u16,
) -> io::Result<()>
    ensures { Writes W.contents writer.old writer.new result (range_front slot channel node first last) }
{
    write!(
        writer,
        "<g class='range n{node}'><title>dynamic slot {slot} on {channel} opens at minislots {first} to {last}</title>"
    )
}

/// Writes the line of a range. It begins where the first minislot begins, and ends where the last one ends.
#[tactic(auto, unfolding(crate::specs::Ranges::range_text))]
fn write_range<W: Write>(
    writer: &mut W,
    params: &Params,
    channel: Channel,
    slot: SlotId,
    node: NodeId,
    first: u16,
    last: u16,
    strip: Strip,
) -> io::Result<()>
    requires { 1 ≤ first }
    ensures { Writes W.contents writer.old writer.new result
        (range_text params.now channel slot node first last strip.top strip.height) }
{
    let start = start_of(params, u32::from(first));
    let end = start_of(params, u32::from(last) + 1);
    write_range_front(writer, slot.number(), channel, node.number(), first, last)?;
    write_rect(
        writer,
        across(params, start),
        strip.top,
        extent(params, start, end),
        strip.height,
    )?;
    close_group(writer)
}

/// Returns the place of the line of a dynamic slot with a sender, after this number of such slots among so many.
fn strip_of(channel: Channel, before: u64, count: u64) -> Strip
    requires count { 1 ≤ count }
    requires before { before ≤ last_slot }
    ensures top { result.top ≡ row_of channel + 350 + before * 70 / count }
    ensures height { result.height ≡ min (max (70 / count) 4) 14 }
{
    Strip {
        top: row_of(channel) + (CHANNEL_HEIGHT - STRIP) + length_of_shares(STRIP, count, before),
        height: (STRIP / count).max(4).min(14),
    }
}

/// Writes the line of a dynamic slot in which a node sends, if the slot can open in the cycle. It comes after this
/// number of such slots among so many.
fn write_sent_range<W: Write>(
    writer: &mut W,
    cluster: &Cluster,
    openings: &Openings,
    cycle: Cycle,
    channel: Channel,
    sender: Sender,
    before: u64,
    count: u64,
) -> io::Result<()>
    requires openings { AreOpenings cluster.now openings.now }
    requires sender { HasSender cluster.now cycle channel sender.slot sender.node }
    requires place { IsPlace cluster.now cycle channel sender.slot before count }
    ensures { OnOk result
        (Adds (IsRangeText cluster.now cycle channel sender.slot) (W.contents writer.old) (W.contents writer.new)) }
{
    let slot = sender.slot;
    let last = latest_of(cluster, openings, cycle, channel, slot);
    if last == 0 {
        return Ok(());
    }
    // Each dynamic slot before takes one minislot at least.
    let first = slots_before(cluster.params(), slot) + 1;
    let strip = strip_of(channel, before, count);
    write_range(
        writer,
        cluster.params(),
        channel,
        slot,
        sender.node,
        first,
        last,
        strip,
    )
}

/// Writes a line for each dynamic slot of the channel that has a sender in the cycle and can open there.
pub(crate) fn write_ranges<W: Write>(
    writer: &mut W,
    cluster: &Cluster,
    openings: &Openings,
    cycle: Cycle,
    channel: Channel,
) -> io::Result<()>
    requires { AreOpenings cluster.now openings.now }
    ensures { OnOk result
        (Adds (AreRangeTexts cluster.now cycle channel 2047) (W.contents writer.old) (W.contents writer.new)) }
{
    let count = count_senders(cluster, cycle, channel);
    let mut before: u64 = 0;
    for earlier in 0..LAST_SLOT {
        if let Some(sender) = sender_in(cluster, cycle, channel, earlier + 1) {
            write_sent_range(
                writer, cluster, openings, cycle, channel, sender, before, count,
            )?;
            before += 1;
        }
    }
    Ok(())
}
