//! The text of a way to the latest start of a slot.

ghost use Rattle.std.specs.Prelude.{◌≡◌, ◌∷◌, [], ◌++◌, IfErr, IfOk};
ghost use Rattle.std.specs.Fmt.{decimal};
ghost use Rattle.std.specs.List.{flat_map};
ghost use Rattle.fr_lines.specs.Spelling.{line_text};
ghost use Rattle.fr_text.specs.Writing.{Writes};
ghost use Rattle.fr_files.specs.declared.error.BenchError.TheVariants as refusal;
ghost use Rattle.fr_files.specs.Inputs.{ForText};
ghost use Rattle.fr_slots.specs.Parameters.{is_static_slot};
ghost use Rattle.fr_latency.specs.WayText.{IsTextBy, ShowsWay, frame_line};

use crate::way::{Frame, Way, way_to};
use fr_files::cluster_file::cluster_of;
use fr_files::error::BenchError;
use fr_files::output::write_whole;
use fr_schedule::cluster::Cluster;
use fr_slots::channel::Channel;
use fr_slots::numbers::SlotId;
use std::alloc::Global;
use std::io;
use std::io::{Read, Write};

/// Writes the line of a frame: its node, buffer, slot and minislot.
fn write_frame<W: Write>(writer: &mut W, frame: &Frame) -> io::Result<()>
    ensures { Writes W.contents writer.old writer.new result (frame_line frame.now) }
{
    let (node, buffer) = (frame.node, frame.buffer);
    writeln!(writer, "{node} {buffer} {} {}", frame.slot, frame.minislot)
}

/// Writes the lines of the frames.
fn write_frames<W: Write>(writer: &mut W, frames: &[Frame]) -> io::Result<()>
    ensures { Writes W.contents writer.old writer.new result (flat_map frame_line frames.now) }
{
    for frame in frames {
        write_frame(writer, frame)?;
    }
    Ok(())
}

/// Writes the cycle and the minislot of the latest start, and the frames before it.
fn write_way<W: Write>(writer: &mut W, way: &Way) -> io::Result<()>
    ensures { Writes W.contents writer.old writer.new result
        (line_text (decimal way.now.cycle ∷ decimal way.now.minislot ∷ [])
        ++ flat_map frame_line way.now.frames.items) }
{
    writeln!(writer, "{} {}", way.cycle.number(), way.minislot)?;
    write_frames(writer, way.frames.as_slice())
}

/// Returns the text of a way to the latest start of a slot, or an empty text for a static slot.
///
/// Fails if an allocation fails.
fn text_of(
    alloc: Global,
    cluster: &Cluster,
    slot: SlotId,
    channel: Channel,
) -> Result<Vec<u8>, BenchError>
    ensures text { IfOk result
        (λ text. IsTextBy (is_static_slot cluster.now.params slot) cluster.now slot channel text.items) }
    ensures refused { IfErr result (λ e. e ≡ refusal.Memory) }
{
    let mut text = Vec::new(alloc);
    if cluster.params().is_static(slot) {
        return Ok(text);
    }
    let Ok(way) = way_to(alloc, cluster, slot, channel) else {
        return Err(BenchError::Memory);
    };
    match write_way(&mut text, &way) {
        Ok(()) => Ok(text),
        // A list of bytes takes no more only if an allocation fails.
        Err(_) => Err(BenchError::Memory),
    }
}

/// Reads a cluster file to its end, and writes a way to the latest start of a slot on a channel (project-defined).
///
/// The errors are those of `show_latencies`. A static slot has no way, and nothing is written.
pub fn show_way<R: Read, W: Write>(
    alloc: Global,
    reader: &mut R,
    slot: SlotId,
    channel: Channel,
    writer: &mut W,
) -> Result<(), BenchError>
    ensures { ForText (R.remaining reader.old)
        (λ text. ShowsWay slot channel text (W.contents writer.old) (W.contents writer.new) result) }
{
    let cluster = cluster_of(alloc, reader)?;
    let text = text_of(alloc, &cluster, slot, channel)?;
    write_whole(writer, text.as_slice())
}
