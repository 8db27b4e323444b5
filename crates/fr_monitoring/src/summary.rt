//! The summary of a recording.

ghost use Rattle.std.specs.Prelude.{◌≡◌};
ghost use Rattle.fr_text.specs.Writing.{Writes};
ghost use Rattle.fr_monitoring.specs.SummaryText.{span_text, records_text, lane_text, channel_text, is_own_of};
ghost use Rattle.fr_monitoring.specs.SummaryText.{is_buffer_of, sends_in, nodes_from, nodes_text, is_slot_of, is_heard};
ghost use Rattle.fr_monitoring.specs.SummaryText.{tally_text, slot_line, has_line, slot_text, slots_text, found_line};
ghost use Rattle.fr_monitoring.specs.SummaryText.{found_text, summary_text, comma_if, dash_unless, lane_counts};
ghost use Rattle.fr_monitoring.specs.SummaryText.{tally_counts};
ghost use Rattle.std.specs.List.{list_any};

use crate::names::{ALL, name_word};
use fr_judging::judge::Judge;
use fr_judging::lane::Lane;
use fr_judging::tally::{SlotTally, Span};
use fr_logged::finding::Name;
use fr_schedule::cluster::Cluster;
use fr_slots::channel::Channel;
use fr_slots::params::Params;
use fr_slots::plan::{Buffer, NodePlan, Own};
use std::io;
use std::io::Write;

/// The number of slots.
const SLOTS: u32 = 2047;

/// Writes the shortest and the longest of some times.
#[tactic(auto, unfolding(crate::specs::SummaryText::span_text))]
fn write_span<W: Write>(writer: &mut W, span: Option<Span>) -> io::Result<()>
    ensures { Writes W.contents writer.old writer.new result (span_text span) }
{
    match span {
        Some(span) => write!(
            writer,
            "shortest {} longest {}",
            span.shortest, span.longest
        ),
        None => write!(writer, "shortest - longest -"),
    }
}

/// Writes the line of all records.
#[tactic(auto, unfolding(crate::specs::SummaryText::records_text))]
fn write_records<W: Write>(writer: &mut W, judge: &Judge, blocks: u64) -> io::Result<()>
    ensures { Writes W.contents writer.old writer.new result (records_text judge.now blocks) }
{
    let (records, foreign, symbols) = (judge.records(), judge.foreign(), judge.symbols());
    writeln!(
        writer,
        "records {records} foreign {foreign} symbols {symbols} skipped {blocks}"
    )
}

/// Writes the counts of a channel.
#[tactic(auto, unfolding(crate::specs::SummaryText::lane_counts))]
fn write_lane_counts<W: Write>(writer: &mut W, lane: &Lane) -> io::Result<()>
    ensures { Writes W.contents writer.old writer.new result (lane_counts lane.now) }
{
    let (frames, cycles, gaps, lost) = (lane.frames, lane.cycles, lane.gaps, lane.lost);
    write!(
        writer,
        " frames {frames} cycles {cycles} gaps {gaps} lost {lost} "
    )
}

/// Writes the line of a channel.
#[tactic(auto, unfolding(crate::specs::SummaryText::lane_text))]
fn write_lane<W: Write>(writer: &mut W, channel: Channel, lane: &Lane) -> io::Result<()>
    ensures { Writes W.contents writer.old writer.new result (lane_text channel lane.now) }
{
    write!(writer, "channel {channel}")?;
    write_lane_counts(writer, lane)?;
    write_span(writer, lane.span)?;
    writeln!(writer)
}

/// Writes the line of a channel, if it is judged.
#[tactic(auto, unfolding(crate::specs::SummaryText::channel_text))]
fn write_channel<W: Write>(writer: &mut W, judge: &Judge, channel: Channel) -> io::Result<()>
    ensures { Writes W.contents writer.old writer.new result (channel_text judge.now channel) }
{
    if judge.rules().judges(channel) {
        write_lane(writer, channel, judge.lane(channel))
    } else {
        Ok(())
    }
}

/// Returns whether an ownership line is for the slot on the channel.
fn is_own_of(own: &Own, slot: u32, channel: Channel) -> bool
    ensures { result ≡ is_own_of slot channel own.now }
{
    u32::from(own.slot.number()) == slot && own.channels.includes(channel)
}

/// Returns whether a buffer transmits in the dynamic slot on the channel.
fn is_buffer_of(params: &Params, buffer: &Buffer, slot: u32, channel: Channel) -> bool
    ensures { result ≡ is_buffer_of params.now slot channel buffer.now }
{
    let filter = &buffer.filter;
    buffer.transmits()
        && !params.is_static(filter.slot)
        && (u32::from(filter.slot.number()) == slot && filter.channels.includes(channel))
}

/// Returns whether a node has an ownership line for the slot on the channel.
fn owns_in(plan: &NodePlan, slot: u32, channel: Channel) -> bool
    ensures { result ≡ list_any (is_own_of slot channel) plan.now.owned }
{
    let owned = plan.owned();
    owned.iter().any(|own| is_own_of(own, slot, channel))
}

/// Returns whether a node has a transmit buffer for the dynamic slot on the channel.
fn has_buffer_in(params: &Params, plan: &NodePlan, slot: u32, channel: Channel) -> bool
    ensures { result ≡ list_any (is_buffer_of params.now slot channel) plan.now.buffers }
{
    let buffers = plan.buffers();
    buffers
        .iter()
        .any(|buffer| is_buffer_of(params, buffer, slot, channel))
}

/// Returns whether a node sends in the slot on the channel in some cycle.
fn sends_in(params: &Params, plan: &NodePlan, slot: u32, channel: Channel) -> bool
    ensures { result ≡ sends_in params.now slot channel plan.now }
{
    owns_in(plan, slot, channel) || has_buffer_in(params, plan, slot, channel)
}

/// Writes the comma before a node that isn't the first.
fn write_comma<W: Write>(writer: &mut W, some: bool) -> io::Result<()>
    ensures { Writes W.contents writer.old writer.new result (comma_if some) }
{
    if some { write!(writer, ",") } else { Ok(()) }
}

/// Writes a dash for no node.
fn write_dash<W: Write>(writer: &mut W, some: bool) -> io::Result<()>
    ensures { Writes W.contents writer.old writer.new result (dash_unless some) }
{
    if some { Ok(()) } else { write!(writer, "-") }
}

/// Writes the nodes that send in the slot on the channel.
fn write_nodes<W: Write>(
    writer: &mut W,
    cluster: &Cluster,
    slot: u32,
    channel: Channel,
) -> io::Result<()>
    ensures { Writes W.contents writer.old writer.new result (nodes_text cluster.now slot channel) }
{
    let params = cluster.params();
    let plans = cluster.plans();
    let mut some = false;
    for (node, plan) in plans.iter().enumerate() {
        if sends_in(params, plan, slot, channel) {
            write_comma(writer, some)?;
            write!(writer, "{node}")?;
            some = true;
        }
    }
    write_dash(writer, some)
}

/// Returns whether the slot has a sender on the channel in some cycle.
fn is_slot_of(cluster: &Cluster, slot: u32, channel: Channel) -> bool
    ensures { result ≡ is_slot_of cluster.now slot channel }
{
    let params = cluster.params();
    let plans = cluster.plans();
    plans
        .iter()
        .any(|plan| sends_in(params, plan, slot, channel))
}

/// Writes the counts of a slot.
#[tactic(auto, unfolding(crate::specs::SummaryText::tally_counts))]
fn write_tally_counts<W: Write>(writer: &mut W, tally: &SlotTally) -> io::Result<()>
    ensures { Writes W.contents writer.old writer.new result (tally_counts tally.now) }
{
    let (values, nulls) = (tally.data_frames, tally.null_frames);
    let (missing, other) = (tally.missing, tally.other);
    write!(
        writer,
        " data {values} null {nulls} missing {missing} other {other} "
    )
}

/// Writes the counts and the times of a slot.
#[tactic(auto, unfolding(crate::specs::SummaryText::tally_text))]
fn write_tally<W: Write>(writer: &mut W, tally: &SlotTally) -> io::Result<()>
    ensures { Writes W.contents writer.old writer.new result (tally_text tally.now) }
{
    write_tally_counts(writer, tally)?;
    write_span(writer, tally.span)?;
    writeln!(writer)
}

/// Writes the line of a slot on a channel.
#[tactic(auto, unfolding(crate::specs::SummaryText::slot_line))]
fn write_slot_line<W: Write>(
    writer: &mut W,
    judge: &Judge,
    slot: u32,
    channel: Channel,
) -> io::Result<()>
    ensures { Writes W.contents writer.old writer.new result (slot_line judge.now slot channel) }
{
    write!(writer, "slot {slot} {channel} ")?;
    write_nodes(writer, &judge.rules().cluster, slot, channel)?;
    write_tally(writer, &judge.tally(slot, channel))
}

/// Returns whether a slot had a good frame.
fn is_heard(tally: &SlotTally) -> bool
    ensures { result ≡ is_heard tally.now }
{
    tally.odd || (tally.data_frames != 0 || tally.null_frames != 0)
}

/// Returns whether a slot on a channel has a line.
fn has_line(judge: &Judge, slot: u32, channel: Channel) -> bool
    ensures { result ≡ has_line judge.now slot channel }
{
    judge.rules().judges(channel)
        && (is_heard(&judge.tally(slot, channel))
            || is_slot_of(&judge.rules().cluster, slot, channel))
}

/// Writes the line of a slot on a channel, if it has one.
#[tactic(auto, unfolding(crate::specs::SummaryText::slot_text))]
fn write_slot<W: Write>(
    writer: &mut W,
    judge: &Judge,
    slot: u32,
    channel: Channel,
) -> io::Result<()>
    ensures { Writes W.contents writer.old writer.new result (slot_text judge.now slot channel) }
{
    if has_line(judge, slot, channel) {
        write_slot_line(writer, judge, slot, channel)
    } else {
        Ok(())
    }
}

/// Writes the lines of all slots.
fn write_slots<W: Write>(writer: &mut W, judge: &Judge) -> io::Result<()>
    ensures { Writes W.contents writer.old writer.new result (slots_text judge.now 2047) }
{
    for earlier in 0..SLOTS {
        write_slot(writer, judge, earlier + 1, Channel::A)?;
        write_slot(writer, judge, earlier + 1, Channel::B)?;
    }
    Ok(())
}

/// Writes the line of a name, if it has findings.
#[tactic(auto, unfolding(crate::specs::SummaryText::found_line))]
fn write_found<W: Write>(writer: &mut W, judge: &Judge, name: Name) -> io::Result<()>
    ensures { Writes W.contents writer.old writer.new result (found_line judge.now name) }
{
    let count = judge.found(name);
    if count == 0 {
        Ok(())
    } else {
        writeln!(writer, "found {} {count}", name_word(name))
    }
}

/// Writes the lines of all names with findings.
fn write_names<W: Write>(writer: &mut W, judge: &Judge) -> io::Result<()>
    ensures { Writes W.contents writer.old writer.new result (found_text judge.now) }
{
    let names = ALL.as_slice();
    for name in names {
        write_found(writer, judge, *name)?;
    }
    Ok(())
}

/// Writes the summary of a recording, of which so many blocks were no records.
///
/// Fails if the writer fails. Then a part of the summary may have gone out.
#[tactic(auto, unfolding(crate::specs::SummaryText::summary_text))]
pub fn write_summary<W: Write>(writer: &mut W, judge: &Judge, blocks: u64) -> io::Result<()>
    ensures { Writes W.contents writer.old writer.new result (summary_text judge.now blocks) }
{
    write_records(writer, judge, blocks)?;
    write_channel(writer, judge, Channel::A)?;
    write_channel(writer, judge, Channel::B)?;
    write_slots(writer, judge)?;
    write_names(writer, judge)
}
