//! `fr_bench run`.
ghost use Rattle.std.specs.Prelude.{◌⊎◌, IfOk};
ghost use Rattle.fr_files.specs.Inputs.{ForText};
ghost use Rattle.fr_threads.specs.Outcomes.{AreNotes, Prints, Answers, IsFileRefused, IsFileRun};

use crate::outcome_error::OutcomeError;
use crate::run::{Run, run_threads};
use crate::workload::Workload;
use fr_desks::gate::OpenGate;
use fr_expecting::judging::missed_in;
use fr_expecting::missed::Missed;
use fr_files::error::BenchError;
use fr_files::output::write_whole;
use fr_names::cluster_file::named_cluster_of;
use fr_names::names::Names;
use fr_outcome::outcome_text::write_outcome;
use fr_outcome::scenario_file::scenario_of;
use fr_runs::effects::idle_lines;
use fr_scenario::scenario::Scenario;
use fr_schedule::cluster::Cluster;
use std::alloc::{AllocError, Global};
use std::io::{Read, Write};
use std::sync::Wait;
use std::thread::Threads;
use std::time::Clock;

/// The length of a run, and its mode (project-defined).
#[derive(Clone, Copy)]
pub struct RunOptions {
    /// The number of cycles.
    pub cycles: u16,
    /// True for a free-running run, in which a task executes its lines at any moment.
    pub free: bool,
}

/// Notes on the lines of a scenario after a run (project-defined). Lines are counted from 1.
#[derive(Drop)]
pub struct RunNotes {
    /// The lines that name cycles, but none that the run has.
    pub skipped: Vec<u32>,
    /// The lines of faults that had no effect in the run.
    pub idle: Vec<u32>,
    /// The expectations that the run missed, in the order of their lines.
    pub missed: Vec<Missed>,
}

/// Returns the notes on the scenario of a run of so many cycles.
fn notes_of(
    alloc: Global,
    cycles: u16,
    scenario: &Scenario,
    run: &Run,
) -> Result<RunNotes, AllocError>
    ensures { IfOk result (λ notes. AreNotes cycles scenario.now run.now notes) }
{
    Ok(RunNotes {
        skipped: Vec::from_slice(alloc, scenario.skipped())?,
        idle: idle_lines(
            alloc,
            run.bus.record(),
            scenario.faults(),
            scenario.fault_numbers(),
        )?,
        missed: missed_in(
            alloc,
            cycles,
            run.interfaces.as_slice(),
            scenario.expected(),
        )?,
    })
}

/// Runs the cluster with the scenario of a file, and writes the outcome (project-defined).
///
/// The scenario file is read to its end. It may name nodes and buffers by these names.
///
/// The outcome is each node's report, the number of windows and `settled`. In a free-running run a task's lines are
/// executed at any moment, in a lockstep run each in its cycle.
///
/// It returns the numbers of the scenario's lines that name cycles, but none of the run, those of the lines of faults
/// that had no effect in the run, and the expectations that the run missed.
///
/// Returns the error of the scenario's file, then that of the run. Nothing is written on an error other than `Write`,
/// after which a front of the outcome may have been written.
#[tactic(auto, using(crate::proofs::OutcomeLemmas::not_read_of, crate::proofs::OutcomeLemmas::unwritten))]
pub fn run_cluster<T: Threads + Wait + Clock + Sync, R: Read, W: Write>(
    rt: &T,
    alloc: Global,
    cluster: &Cluster,
    names: &Names,
    reader: &mut R,
    options: RunOptions,
    writer: &mut W,
) -> Result<RunNotes, OutcomeError>
    ensures written { Prints
        cluster.now
        names.now
        options.cycles
        options.free
        (R.remaining reader.old)
        (W.contents writer.old)
        (W.contents writer.new)
        result }
    ensures refused { ForText (R.remaining reader.old)
        (λ text. Answers cluster.now names.now options.cycles text result) }
{
    let scenario = scenario_of(alloc, reader, names, options.cycles)?;
    let workload = Workload {
        scripts: scenario.scripts(),
        faults: scenario.faults(),
        cycles: options.cycles,
        stepped: !options.free,
    };
    let run = run_threads(rt, alloc, cluster, &workload, &OpenGate)?;
    let Ok(notes) = notes_of(alloc, options.cycles, &scenario, &run) else {
        return Err(OutcomeError::Text(BenchError::Memory));
    };
    let mut text = Vec::new(alloc);
    let windows = run.settled.windows as usize;
    match write_outcome(&mut text, run.interfaces.as_slice(), windows) {
        Ok(()) => {
            write_whole(writer, text.as_slice())?;
            Ok(notes)
        }
        // A list of bytes fails to grow only if an allocation fails.
        Err(_) => Err(OutcomeError::Text(BenchError::Memory)),
    }
}

/// Reads a cluster file to its end, and then executes `run` with the cluster (project-defined).
///
/// If the cluster's file is rejected, no byte of the scenario is read.
pub fn run_text<T: Threads + Wait + Clock + Sync, F: Read, R: Read, W: Write>(
    rt: &T,
    alloc: Global,
    file: &mut F,
    reader: &mut R,
    options: RunOptions,
    writer: &mut W,
) -> Result<RunNotes, OutcomeError>
    ensures { IsFileRefused
        (F.remaining file.old)
        (R.remaining reader.old)
        (R.remaining reader.new)
        (W.contents writer.old)
        (W.contents writer.new)
        result
        ⊎ IsFileRun
        (F.remaining file.old)
        options.cycles
        options.free
        (R.remaining reader.old)
        (W.contents writer.old)
        (W.contents writer.new)
        result }
{
    let (cluster, names) = named_cluster_of(alloc, file)?;
    run_cluster(rt, alloc, &cluster, &names, reader, options, writer)
}
