//! The text of a cluster's latencies.

ghost use Rattle.std.specs.Prelude.{◌≡◌, ◌∷◌, ◌*◌, true, slice_get, Some, OnOk};
ghost use Rattle.std.specs.Io.KnownBytes.{Appends};
ghost use Rattle.fr_files.specs.Inputs.{ForText};
ghost use Rattle.fr_files.specs.NodeTexts.{of_nodes};
ghost use Rattle.fr_lines.specs.Parts.{optional_number};
ghost use Rattle.fr_text.specs.Writing.{Writes};
ghost use Rattle.fr_schedule.specs.Clusters.{IsCluster};
ghost use Rattle.fr_latency.specs.Commands.{ShowsLatencies};
ghost use Rattle.fr_latency.specs.LatencyText.{buffer_text, channel_text, latency_line, latency_text, load_line};
ghost use Rattle.fr_latency.specs.LatencyText.{minislots_text, node_text, place_text, state_word, worst_text};
ghost use Rattle.fr_latency.specs.Tables.{AreOpenings, IsUsedFor};

use crate::latency::{Latency, State, latency_of};
use crate::load::{Load, load_of};
use crate::openings::{Openings, openings_of};
use fr_files::cluster_file::cluster_of;
use fr_files::error::BenchError;
use fr_files::output::write_whole;
use fr_lines::writing::channels_word;
use fr_schedule::cluster::Cluster;
use fr_slots::channel::Channel;
use fr_slots::plan::{Buffer, NodePlan};
use std::alloc::Global;
use std::io;
use std::io::{Read, Write};

/// Returns the word of a kind of transmit buffer.
fn state_word(state: State) -> &'static str
    ensures { result.now ≡ state_word state }
{
    match state {
        State::Guaranteed => "guaranteed",
        State::Possible => "possible",
        State::Blocked => "blocked",
        State::Idle => "idle",
    }
}

/// Writes the place of a transmit buffer: its node, number, slot, channels and cycles.
fn write_place<W: Write>(
    writer: &mut W,
    node: usize,
    number: usize,
    buffer: &Buffer,
) -> io::Result<()>
    ensures { Writes W.contents writer.old writer.new result (place_text node number buffer.now) }
{
    let (slot, cycles) = (buffer.filter.slot, buffer.filter.cycles);
    let channels = channels_word(buffer.filter.channels);
    write!(writer, "{node} {number} {slot} {channels}")?;
    write!(writer, " {} {}", cycles.base(), cycles.repetition())
}

/// Writes a space, and the minislot or a dash.
fn write_minislot<W: Write>(writer: &mut W, minislot: Option<u16>) -> io::Result<()>
    ensures { Writes W.contents writer.old writer.new result (32 ∷ optional_number minislot) }
{
    match minislot {
        Some(minislot) => write!(writer, " {minislot}"),
        None => write!(writer, " -"),
    }
}

/// Writes the first, last and latest minislot, each after a space.
fn write_minislots<W: Write>(writer: &mut W, latency: &Latency) -> io::Result<()>
    ensures { Writes W.contents writer.old writer.new result (minislots_text latency.now) }
{
    write_minislot(writer, latency.first)?;
    write_minislot(writer, latency.last)?;
    write_minislot(writer, latency.latest)
}

/// Writes the kind of the buffer, its guaranteed cycles and its worst latency, and ends the line.
fn write_worst<W: Write>(writer: &mut W, latency: &Latency) -> io::Result<()>
    ensures { Writes W.contents writer.old writer.new result (worst_text latency.now) }
{
    let (state, cycles) = (state_word(latency.state), latency.cycles);
    match latency.worst {
        Some(worst) => writeln!(writer, " {state} {cycles} {worst}"),
        None => writeln!(writer, " {state} {cycles} -"),
    }
}

/// Writes the line of a transmit buffer.
fn write_line<W: Write>(
    writer: &mut W,
    node: usize,
    number: usize,
    buffer: &Buffer,
    latency: &Latency,
) -> io::Result<()>
    ensures { Writes W.contents writer.old writer.new result (latency_line node number buffer.now latency.now) }
{
    write_place(writer, node, number, buffer)?;
    write_minislots(writer, latency)?;
    write_worst(writer, latency)
}

/// Writes the line of a buffer, if it transmits.
fn write_buffer<W: Write>(
    writer: &mut W,
    openings: &Openings,
    cluster: &Cluster,
    node: usize,
    plan: &NodePlan,
    number: usize,
    buffer: &Buffer,
) -> io::Result<()>
    requires openings { AreOpenings cluster.now openings.now }
    requires used { IsUsedFor cluster.now buffer.now }
    ensures { Writes W.contents writer.old writer.new result
        (buffer_text cluster.now node plan.now number buffer.now) }
{
    if !buffer.transmits() {
        return Ok(());
    }
    let latency = latency_of(openings, cluster, plan, buffer);
    write_line(writer, node, number, buffer, &latency)
}

/// Writes the lines of a node.
fn write_node<W: Write>(
    writer: &mut W,
    openings: &Openings,
    cluster: &Cluster,
    node: usize,
    plan: &NodePlan,
) -> io::Result<()>
    requires lawful { IsCluster cluster.now }
    requires openings { AreOpenings cluster.now openings.now }
    requires node { slice_get cluster.now.plans node ≡ Some plan.now }
    ensures { Writes W.contents writer.old writer.new result (node_text cluster.now node plan.now) }
{
    for (number, buffer) in plan.buffers().iter().enumerate() {
        write_buffer(writer, openings, cluster, node, plan, number, buffer)?;
    }
    Ok(())
}

/// Writes the lines of all nodes.
fn write_nodes<W: Write>(writer: &mut W, openings: &Openings, cluster: &Cluster) -> io::Result<()>
    requires { AreOpenings cluster.now openings.now }
    ensures { Writes W.contents writer.old writer.new result (of_nodes (node_text cluster.now) 0 cluster.now.plans) }
{
    for (node, plan) in cluster.plans().iter().enumerate() {
        write_node(writer, openings, cluster, node, plan)?;
    }
    Ok(())
}

/// Writes the line of a channel with this load.
fn write_load<W: Write>(writer: &mut W, channel: Channel, slots: u16, load: &Load) -> io::Result<()>
    ensures { Writes W.contents writer.old writer.new result (load_line channel slots load.now) }
{
    let (owned, all) = (load.owned, 64 * u32::from(slots));
    write!(writer, "channel {channel} {owned} {all}")?;
    writeln!(writer, " {} {} {}", load.least, load.most, load.slack)
}

/// Writes the line of a channel.
fn write_channel<W: Write>(
    writer: &mut W,
    openings: &Openings,
    cluster: &Cluster,
    channel: Channel,
) -> io::Result<()>
    requires { AreOpenings cluster.now openings.now }
    ensures { Writes W.contents writer.old writer.new result (channel_text cluster.now channel) }
{
    let load = load_of(openings, cluster, channel);
    write_load(writer, channel, cluster.params().static_slots, &load)
}

/// Writes the latencies of a cluster (project-defined).
///
/// It has a line for each transmit buffer, by node and number, then one for each channel.
///
/// Fails if the writer fails, which may have written a part by then.
pub fn write_latencies<W: Write>(
    writer: &mut W,
    openings: &Openings,
    cluster: &Cluster,
) -> io::Result<()>
    requires { AreOpenings cluster.now openings.now }
    ensures { Writes W.contents writer.old writer.new result (latency_text cluster.now) }
{
    write_nodes(writer, openings, cluster)?;
    write_channel(writer, openings, cluster, Channel::A)?;
    write_channel(writer, openings, cluster, Channel::B)
}

/// Reads a cluster file to its end, and writes the cluster's latencies (project-defined).
///
/// The errors are those of `check` (`fr_commands`). Every error but `Write` leaves the writer unchanged.
pub fn show_latencies<R: Read, W: Write>(
    alloc: Global,
    reader: &mut R,
    writer: &mut W,
) -> Result<(), BenchError>
    ensures { ForText (R.remaining reader.old)
        (λ text. ShowsLatencies text (W.contents writer.old) (W.contents writer.new) result) }
{
    let cluster = cluster_of(alloc, reader)?;
    let Ok(openings) = openings_of(alloc, &cluster) else {
        return Err(BenchError::Memory);
    };
    let mut text = Vec::new(alloc);
    match write_latencies(&mut text, &openings, &cluster) {
        Ok(()) => write_whole(writer, text.as_slice()),
        // A list of bytes takes no more only if an allocation fails.
        Err(_) => Err(BenchError::Memory),
    }
}
