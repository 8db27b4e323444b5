//! The commands that show a run.
ghost use Rattle.std.specs.Prelude.{◌≡◌, IfErr, IfOk};
ghost use Rattle.fr_files.specs.declared.error.BenchError.TheVariants as bench;
ghost use Rattle.fr_files.specs.Inputs.{ForText};
ghost use Rattle.fr_playing.specs.declared.error.PlayError.TheVariants as refusal;
ghost use Rattle.fr_showing.specs.Shows.{AreNotes, Prints, Tells};

use crate::idle::idle_lines;
use crate::shown::{Shown, text_of};
use fr_expecting::judging::missed_in;
use fr_expecting::missed::Missed;
use fr_files::error::BenchError;
use fr_files::output::write_whole;
use fr_names::names::Names;
use fr_playing::error::PlayError;
use fr_playing::file::{PlayedFile, play_file};
use fr_schedule::cluster::Cluster;
use std::alloc::{AllocError, Global};
use std::io::{Read, Write};

/// Notes on the lines of a scenario after a run (project-defined). Lines are counted from 1.
#[derive(Drop)]
pub struct Notes {
    /// The lines all of whose fault lines had no effect, as `idle_lines` has them.
    pub idle: Vec<u32>,
    /// The lines that name cycles, but none that the run has.
    pub skipped: Vec<u32>,
    /// The expectations that the run missed, in the order of their lines.
    pub missed: Vec<Missed>,
}

/// Returns the notes on the scenario of an executed run of so many cycles.
fn notes_of(alloc: Global, cycles: u16, file: &PlayedFile) -> Result<Notes, AllocError>
    ensures { IfOk result (λ notes. AreNotes cycles file.now notes) }
{
    let interfaces = file.played.world.interfaces();
    Ok(Notes {
        idle: idle_lines(alloc, file)?,
        skipped: Vec::from_slice(alloc, file.scenario.skipped())?,
        missed: missed_in(alloc, cycles, interfaces, file.scenario.expected())?,
    })
}

/// Returns the same, or `Memory`.
fn notes_in(alloc: Global, cycles: u16, file: &PlayedFile) -> Result<Notes, PlayError>
    ensures numbers { IfOk result (λ notes. AreNotes cycles file.now notes) }
    ensures refused { IfErr result (λ e. e ≡ refusal.Text bench.Memory) }
{
    match notes_of(alloc, cycles, file) {
        Ok(notes) => Ok(notes),
        Err(_) => Err(PlayError::Text(BenchError::Memory)),
    }
}

/// Runs the cluster with the scenario of a file, and writes a view of the run (project-defined).
///
/// The scenario file is read to its end. It may name nodes and buffers by these names.
///
/// It returns the numbers of the lines all of whose fault lines had no effect in the run, in their order, as
/// `idle_lines` does, those of the lines that name cycles, but none of the run, and the expectations that the run
/// missed.
///
/// Returns the error of `play_file`, then that of `text_of`, then `Write` if the writer fails. Nothing is written on an
/// error other than `Write`, after which a front of the view may have been written.
pub fn show_run<R: Read, W: Write>(
    alloc: Global,
    cluster: &Cluster,
    names: &Names,
    reader: &mut R,
    cycles: u16,
    shown: Shown,
    writer: &mut W,
) -> Result<Notes, PlayError>
    ensures written { Prints
        cluster.now
        names.now
        cycles
        shown
        (R.remaining reader.old)
        (W.contents writer.old)
        (W.contents writer.new)
        result }
    ensures refused { ForText (R.remaining reader.old) (λ text. Tells cluster.now names.now cycles shown text result) }
{
    let file = play_file(alloc, cluster, names, reader, cycles)?;
    let text = text_of(alloc, shown, &file)?;
    let notes = notes_in(alloc, cycles, &file)?;
    write_whole(writer, text.as_slice())?;
    Ok(notes)
}
