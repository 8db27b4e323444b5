//! A picture of a cycle.

ghost use Rattle.std.specs.Prelude.{◌≡◌, IfErr, IfOk, OnOk};
ghost use Rattle.fr_files.specs.declared.error.BenchError.TheVariants as refusal;
ghost use Rattle.fr_files.specs.Inputs.{ForText};
ghost use Rattle.fr_latency.specs.Tables.{AreOpenings};
ghost use Rattle.fr_picture.specs.Owners.{Adds};
ghost use Rattle.fr_picture.specs.Ranges.{AreRanges};
ghost use Rattle.fr_picture.specs.Schedules.{AreSamePictures, Draws, IsPicture};
ghost use Rattle.fr_text.specs.Writing.{Writes};

use crate::dynamics::write_dynamic;
use crate::frame::write_front;
use crate::guards::write_guards;
use crate::owners::write_owners;
use crate::ranges::write_ranges;
use fr_files::cluster_file::cluster_of;
use fr_files::error::BenchError;
use fr_files::output::write_whole;
use fr_guardian::guardian::Guardian;
use fr_latency::openings::{Openings, openings_of};
use fr_schedule::cluster::Cluster;
use fr_slots::channel::Channel;
use fr_slots::numbers::Cycle;
use fr_svg::elements::close_picture;
use std::alloc::Global;
use std::io;
use std::io::{Read, Write};

/// Writes the ranges of the dynamic slots of both channels.
fn write_all_ranges<W: Write>(
    writer: &mut W,
    cluster: &Cluster,
    openings: &Openings,
    cycle: Cycle,
) -> io::Result<()>
    requires { AreOpenings cluster.now openings.now }
    ensures { OnOk result
        (Adds (AreRanges cluster.now cycle) (W.contents writer.old) (W.contents writer.new)) }
{
    write_ranges(writer, cluster, openings, cycle, Channel::A)?;
    write_ranges(writer, cluster, openings, cycle, Channel::B)
}

/// Returns the ranges of the dynamic slots of both channels.
fn ranges_of(alloc: Global, cluster: &Cluster, cycle: Cycle) -> Result<Vec<u8>, BenchError>
    ensures ranges { IfOk result (λ text. AreRanges cluster.now cycle text.items) }
    ensures refused { IfErr result (λ e. e ≡ refusal.Memory) }
{
    let Ok(openings) = openings_of(alloc, cluster) else {
        return Err(BenchError::Memory);
    };
    let mut text = Vec::new(alloc);
    match write_all_ranges(&mut text, cluster, &openings, cycle) {
        Ok(()) => Ok(text),
        // A list of bytes takes no more only if an allocation fails.
        Err(_) => Err(BenchError::Memory),
    }
}

/// Returns the guardian of the cluster.
fn guardian_of(alloc: Global, cluster: &Cluster) -> Result<Guardian, BenchError>
    ensures guardian { IfOk result (λ guardian. guardian ≡ cluster.now) }
    ensures refused { IfErr result (λ e. e ≡ refusal.Memory) }
{
    match Guardian::new(alloc, cluster) {
        Ok(guardian) => Ok(guardian),
        Err(_) => Err(BenchError::Memory),
    }
}

/// Writes bytes.
fn write_bytes<W: Write>(writer: &mut W, bytes: &[u8]) -> io::Result<()>
    ensures { Writes W.contents writer.old writer.new result bytes.now }
{
    writer.write_all(bytes)
}

/// Writes the picture of a cycle, with these ranges of its dynamic slots.
fn write_picture<W: Write>(
    writer: &mut W,
    cluster: &Cluster,
    cycle: Cycle,
    ranges: &[u8],
    guardian: &Guardian,
) -> io::Result<()>
    requires ranges { AreRanges cluster.now cycle ranges.now }
    requires guardian { guardian.now ≡ cluster.now }
    ensures { OnOk result
        (Adds (IsPicture cluster.now cycle) (W.contents writer.old) (W.contents writer.new)) }
{
    write_front(writer, cluster, cycle)?;
    write_owners(writer, cluster, cycle)?;
    write_dynamic(writer, cluster, cycle, Channel::A)?;
    write_dynamic(writer, cluster, cycle, Channel::B)?;
    write_bytes(writer, ranges)?;
    write_guards(writer, guardian, cycle, cluster.nodes())?;
    close_picture(writer)
}

/// Returns the text of the picture of a cycle.
fn picture_text(alloc: Global, cluster: &Cluster, cycle: Cycle) -> Result<Vec<u8>, BenchError>
    ensures picture { IfOk result (λ text. IsPicture cluster.now cycle text.items) }
    ensures refused { IfErr result (λ e. e ≡ refusal.Memory) }
{
    let ranges = ranges_of(alloc, cluster, cycle)?;
    let guardian = guardian_of(alloc, cluster)?;
    let mut text = Vec::new(alloc);
    match write_picture(&mut text, cluster, cycle, ranges.as_slice(), &guardian) {
        Ok(()) => Ok(text),
        // A list of bytes takes no more only if an allocation fails.
        Err(_) => Err(BenchError::Memory),
    }
}

/// Returns the picture of a cycle: an SVG text (project-defined).
///
/// All its parts are of this cycle:
///
/// - the four segments;
/// - for each channel, the static slots with their owners, the dynamic slots with a sender, and for each of these the
///   minislots at which it can open in a run without faults;
/// - for each node and channel, the intervals in which its guardian is open.
///
/// A cycle of a cluster has one picture. The only error is `Memory`.
pub fn picture_of(alloc: Global, cluster: &Cluster, cycle: Cycle) -> Result<Vec<u8>, BenchError>
    ensures picture { IfOk result (λ text. IsPicture cluster.now cycle text.items) }
    ensures same { AreSamePictures }
    ensures refused { IfErr result (λ e. e ≡ refusal.Memory) }
{
    picture_text(alloc, cluster, cycle)
}

/// Reads a cluster file to its end, and writes a picture of one of its cycles (project-defined).
///
/// The errors are those of `check`. Every error but `Write` leaves the writer unchanged.
pub fn show_schedule<R: Read, W: Write>(
    alloc: Global,
    reader: &mut R,
    cycle: Cycle,
    writer: &mut W,
) -> Result<(), BenchError>
    ensures { ForText (R.remaining reader.old)
        (λ text. Draws cycle text (W.contents writer.old) (W.contents writer.new) result) }
{
    let cluster = cluster_of(alloc, reader)?;
    let text = picture_of(alloc, &cluster, cycle)?;
    write_whole(writer, text.as_slice())
}
