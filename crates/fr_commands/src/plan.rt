//! `fr_bench plan`.
ghost use Rattle.std.specs.Prelude.{◌≡◌, ◌<◌, ◌≤◌, length, true, OnOk};
ghost use Rattle.fr_commands.specs.Checks.{Plans};
ghost use Rattle.std.specs.Io.KnownBytes.{Appends};
ghost use Rattle.std.specs.List.{flat_map};
ghost use Rattle.fr_commands.specs.PlanText.{slot_line, begins_at, owner_text, base_text, owners_text};
ghost use Rattle.fr_commands.specs.PlanText.{slot_text, static_text, cycles_told};
ghost use Rattle.fr_commands.specs.PlanText.{dynamic_line, buffer_text, node_text, dynamic_text};
ghost use Rattle.fr_slots.specs.Admission.{letter_of};
ghost use Rattle.fr_slots.specs.Parameters.{is_static_slot};
ghost use Rattle.fr_commands.specs.PlanText.{guard_line, IsGuardText, AreCycleTexts, AreGuardTexts, IsPlanText, Adds};
ghost use Rattle.fr_slots.specs.Numbers.{cycle_count};
ghost use Rattle.fr_files.specs.Inputs.{ForText};
ghost use Rattle.fr_schedule.specs.Clusters.{IsCluster};

use crate::line::{LastNumbers, write_line};
use fr_files::error::BenchError;
use fr_files::output::write_whole;
use fr_guardian::guardian::Guardian;
use fr_lines::writing::channels_word;
use fr_reader::cluster_file::cluster_of;
use fr_schedule::cluster::Cluster;
use fr_slots::channel::Channel;
use fr_slots::filter::CycleFilter;
use fr_slots::numbers::{Cycle, NodeId, SlotId};
use fr_slots::params::Params;
use fr_slots::plan::{Buffer, NodePlan, Own};
use std::alloc::Global;
use std::io::{self, Read, Write};

/// Returns the word of a channel.
fn letter(channel: Channel) -> &'static str
    ensures word { result.now ≡ letter_of channel }
    ensures short { length result.now ≤ 2 }
{
    match channel {
        Channel::A => "A",
        Channel::B => "B",
    }
}

/// Returns whether the ownership line is for the slot on the channel, with this cycle as its first.
fn begins_at(own: &Own, slot: SlotId, channel: Channel, base: Cycle) -> bool
    ensures { result ≡ begins_at slot channel base own.now }
{
    own.slot == slot && own.channels.includes(channel) && own.cycles.base() == base.number()
}

/// Writes the line of a static slot on the channel that the node owns in these cycles.
fn write_slot_line<W: Write>(
    writer: &mut W,
    slot: SlotId,
    channel: Channel,
    node: NodeId,
    cycles: CycleFilter,
) -> io::Result<()>
    ensures { OnOk result
        (Appends (W.contents writer.old) (W.contents writer.new) (slot_line slot channel node cycles)) }
{
    write_line(
        writer,
        "slot",
        u64::from(slot.number()),
        letter(channel),
        LastNumbers {
            second: u64::from(node.number()),
            third: u64::from(cycles.base()),
            fourth: u64::from(cycles.repetition()),
        },
    )
}

/// Writes the lines of the node's ownership lines that begin there (`begins_at`).
fn write_owner<W: Write>(
    writer: &mut W,
    slot: SlotId,
    channel: Channel,
    base: Cycle,
    node: NodeId,
    plan: &NodePlan,
) -> io::Result<()>
    ensures { OnOk result
        (Appends (W.contents writer.old) (W.contents writer.new) (owner_text slot channel base node plan.now)) }
{
    for own in plan.owned() {
        if begins_at(own, slot, channel, base) {
            write_slot_line(writer, slot, channel, node, own.cycles)?;
        }
    }
    Ok(())
}

/// Writes the line of the ownership line that begins there (`begins_at`), if there is one.
fn write_base<W: Write>(
    writer: &mut W,
    cluster: &Cluster,
    slot: SlotId,
    channel: Channel,
    base: Cycle,
) -> io::Result<()>
    requires is_static { is_static_slot cluster.now.params slot ≡ true }
    requires is_cycle { base < cycle_count }
    ensures { OnOk result
        (Appends (W.contents writer.old) (W.contents writer.new) (base_text cluster.now.plans slot channel base)) }
{
    // Only the node that sends in this cycle can have that line.
    let Some(node) = cluster.sender(base, slot, channel) else {
        return Ok(());
    };
    let Some(plan) = cluster.node(node) else {
        return Ok(());
    };
    write_owner(writer, slot, channel, base, node, plan)
}

/// Writes the lines of a static slot on the channel, one for each of its ownership lines.
fn write_owners<W: Write>(
    writer: &mut W,
    cluster: &Cluster,
    slot: SlotId,
    channel: Channel,
    cycles: u8,
) -> io::Result<()>
    requires lawful { IsCluster cluster.now }
    requires is_static { is_static_slot cluster.now.params slot ≡ true }
    requires cycles { cycles ≡ cycles_told cluster.now }
    requires few { cycles ≤ cycle_count }
    ensures { OnOk result
        (Appends (W.contents writer.old) (W.contents writer.new) (owners_text cluster.now.plans slot channel)) }
{
    for number in 0..cycles {
        write_base(writer, cluster, slot, channel, Cycle::from_bits(number))?;
    }
    Ok(())
}

/// Writes the lines of a static slot.
fn write_slot<W: Write>(
    writer: &mut W,
    cluster: &Cluster,
    slot: SlotId,
    cycles: u8,
) -> io::Result<()>
    requires lawful { IsCluster cluster.now }
    requires is_static { is_static_slot cluster.now.params slot ≡ true }
    requires cycles { cycles ≡ cycles_told cluster.now }
    requires few { cycles ≤ cycle_count }
    ensures { OnOk result (Appends (W.contents writer.old) (W.contents writer.new) (slot_text cluster.now.plans slot)) }
{
    write_owners(writer, cluster, slot, Channel::A, cycles)?;
    write_owners(writer, cluster, slot, Channel::B, cycles)
}

/// Writes the lines of the static slots.
fn write_slots<W: Write>(writer: &mut W, cluster: &Cluster, cycles: u8) -> io::Result<()>
    requires cycles { cycles ≡ cycles_told cluster.now }
    requires few { cycles ≤ cycle_count }
    ensures { OnOk result (Appends (W.contents writer.old) (W.contents writer.new) (static_text cluster.now)) }
{
    let params = cluster.params();
    for earlier in 0..params.static_slots {
        if let Some(slot) = SlotId::new(earlier + 1) {
            write_slot(writer, cluster, slot, cycles)?;
        }
    }
    Ok(())
}

/// Writes the line of a dynamic transmit buffer.
fn write_dynamic<W: Write>(writer: &mut W, number: usize, buffer: &Buffer) -> io::Result<()>
    ensures { OnOk result (Appends (W.contents writer.old) (W.contents writer.new) (dynamic_line number buffer.now)) }
{
    let filter = buffer.filter;
    write_line(
        writer,
        "dynamic",
        u64::from(filter.slot.number()),
        channels_word(filter.channels),
        LastNumbers {
            second: number as u64,
            third: u64::from(filter.cycles.base()),
            fourth: u64::from(filter.cycles.repetition()),
        },
    )
}

/// Writes the line of a buffer, if it is a dynamic transmit buffer.
fn write_buffer<W: Write>(
    writer: &mut W,
    params: &Params,
    number: usize,
    buffer: &Buffer,
) -> io::Result<()>
    ensures { OnOk result
        (Appends (W.contents writer.old) (W.contents writer.new) (buffer_text params.now number buffer.now)) }
{
    if buffer.transmits_dynamic(params) {
        write_dynamic(writer, number, buffer)
    } else {
        Ok(())
    }
}

/// Writes the lines of the dynamic transmit buffers among these.
fn write_buffers<W: Write>(
    writer: &mut W,
    params: &Params,
    number: usize,
    buffers: &[Buffer],
) -> io::Result<()>
    ensures { OnOk result
        (Appends
        (W.contents writer.old)
        (W.contents writer.new)
        (flat_map (buffer_text params.now number) buffers.now)) }
{
    for buffer in buffers {
        write_buffer(writer, params, number, buffer)?;
    }
    Ok(())
}

/// Writes the lines of the dynamic transmit buffers of all nodes.
fn write_dynamics<W: Write>(writer: &mut W, cluster: &Cluster) -> io::Result<()>
    ensures { OnOk result (Appends (W.contents writer.old) (W.contents writer.new) (dynamic_text cluster.now)) }
{
    for (number, plan) in cluster.plans().iter().enumerate() {
        write_buffers(writer, cluster.params(), number, plan.buffers())?;
    }
    Ok(())
}

/// Writes a line for each of the intervals of the cycle.
fn write_spans<W: Write>(
    writer: &mut W,
    number: u8,
    channel: Channel,
    cycle: Cycle,
    spans: &[(u32, u32)],
) -> io::Result<()>
    ensures { OnOk result
        (Appends
        (W.contents writer.old)
        (W.contents writer.new)
        (flat_map (guard_line number channel cycle) spans.now)) }
{
    for (start, end) in spans {
        write_line(
            writer,
            "guard",
            u64::from(number),
            letter(channel),
            LastNumbers {
                second: u64::from(cycle.number()),
                third: u64::from(*start),
                fourth: u64::from(*end),
            },
        )?;
    }
    Ok(())
}

/// Writes the lines of the intervals in which the channel is open to the node in the cycle.
fn write_guard<W: Write>(
    writer: &mut W,
    guardian: &Guardian,
    node: NodeId,
    channel: Channel,
    cycle: Cycle,
) -> io::Result<()>
    ensures { OnOk result
        (Adds (IsGuardText guardian.now node channel cycle) (W.contents writer.old) (W.contents writer.new)) }
{
    write_spans(
        writer,
        node.number(),
        channel,
        cycle,
        guardian.windows(node, cycle, channel),
    )
}

/// Writes the lines of the node's open intervals on the channel in the first `cycles` cycles.
fn write_cycles<W: Write>(
    writer: &mut W,
    guardian: &Guardian,
    node: NodeId,
    channel: Channel,
    cycles: u8,
) -> io::Result<()>
    requires { cycles ≤ cycle_count }
    ensures { OnOk result
        (Adds (AreCycleTexts guardian.now node channel cycles) (W.contents writer.old) (W.contents writer.new)) }
{
    for number in 0..cycles {
        write_guard(writer, guardian, node, channel, Cycle::from_bits(number))?;
    }
    Ok(())
}

/// Writes the lines of the open intervals of the first `nodes` nodes.
fn write_guards<W: Write>(writer: &mut W, guardian: &Guardian, nodes: u8) -> io::Result<()>
    requires { nodes ≤ 16 }
    ensures { OnOk result (Adds (AreGuardTexts guardian.now nodes) (W.contents writer.old) (W.contents writer.new)) }
{
    let cycles = guardian.cycles();
    for number in 0..nodes {
        if let Some(node) = NodeId::new(number) {
            write_cycles(writer, guardian, node, Channel::A, cycles)?;
            write_cycles(writer, guardian, node, Channel::B, cycles)?;
        }
    }
    Ok(())
}

/// Writes the plan of a cluster (project-defined).
///
/// 1. For each static slot and channel, it has a line for each of its ownership lines, by base.
/// 2. It has a line for each dynamic transmit buffer.
/// 3. For each node, channel and cycle, it has a line for each interval in which the channel is open to the node. The
///    cycles are those below the greatest repetition of the ownership lines, or the first one if there are none.
///
/// Fails if the writer fails, which may have written a part by then.
pub fn write_plan<W: Write>(
    writer: &mut W,
    cluster: &Cluster,
    guardian: &Guardian,
) -> io::Result<()>
    requires { guardian.now ≡ cluster.now }
    ensures { OnOk result (Adds (IsPlanText cluster.now) (W.contents writer.old) (W.contents writer.new)) }
{
    write_slots(writer, cluster, guardian.cycles())?;
    write_dynamics(writer, cluster)?;
    write_guards(writer, guardian, cluster.nodes())
}

/// Reads a cluster file to its end, and writes the cluster's plan (project-defined).
///
/// The errors are those of `check`. Every error but `Write` leaves the writer unchanged.
pub fn plan_text<R: Read, W: Write>(
    alloc: Global,
    reader: &mut R,
    writer: &mut W,
) -> Result<(), BenchError>
    ensures { ForText (R.remaining reader.old)
        (λ text. Plans text (W.contents writer.old) (W.contents writer.new) result) }
{
    let cluster = cluster_of(alloc, reader)?;
    let Ok(guardian) = Guardian::new(alloc, &cluster) else {
        return Err(BenchError::Memory);
    };
    let mut text = Vec::new(alloc);
    match write_plan(&mut text, &cluster, &guardian) {
        Ok(()) => write_whole(writer, text.as_slice()),
        // A list of bytes takes no more only if an allocation fails.
        Err(_) => Err(BenchError::Memory),
    }
}
