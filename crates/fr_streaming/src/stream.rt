//! The run of a scenario file, shown as it goes.
ghost use Rattle.std.specs.List.{list_any};
ghost use Rattle.std.specs.Prelude.{◌≡◌, IfErr, IfOk, OnOk};
ghost use Rattle.fr_files.specs.Inputs.{ForText};
ghost use Rattle.fr_streaming.specs.Runs.{kept_refusal, AddsStream, AreNotes, ChecksStream, OpensStream, Streams};
ghost use Rattle.fr_streaming.specs.Runs.{CutsRun, CutsStream, TellsRun, TellsStream, calls_last, is_last};

use crate::hindrance::error_of;
pub use crate::telling::Streamed;
use crate::telling::{Run, close, opening_in};
use crate::windows::show_cycles;
use fr_bus::error::BusError;
use fr_core::script::{Line, Script};
use fr_endless::world::EndlessWorld;
use fr_files::error::BenchError;
use fr_files::output::write_whole;
use fr_live::room::Room;
use fr_names::names::Names;
use fr_outcome::scenario_file::scenario_of;
use fr_playing::error::PlayError;
use fr_playing::moving::whole_window;
use fr_runs::check::{RunRefusal, check_run};
use fr_scenario::scenario::Scenario;
use fr_schedule::cluster::Cluster;
use std::alloc::{AllocError, Global};
use std::io::{Read, Write};

/// Notes on the lines of a scenario after a run without history (project-defined). Lines are counted from 1.
#[derive(Drop)]
pub struct StreamNotes {
    /// The lines that name cycles, but none that the scenario is read for.
    pub skipped: Vec<u32>,
    /// The lines of the expectations that name a cycle of the run. None is judged.
    pub unjudged: Vec<u32>,
    /// True if a task has a call in cycle 1023, the last one that a scenario names.
    pub calls_last: bool,
}

/// The cycles that a scenario can name are 0 to 1023 (project-defined).
pub const NAMED_CYCLES: u32 = 1_024;

/// The last of these cycles.
const LAST_NAMED: u16 = 1_023;

/// Opens the world of a run of so many cycles.
fn open_world(alloc: Global, cluster: &Cluster, cycles: u32) -> Result<EndlessWorld, PlayError>
    ensures { OpensStream cluster.now cycles result }
{
    match EndlessWorld::new(alloc, cluster, cycles, &Room::greatest()) {
        Ok(world) => Ok(world),
        Err(BusError::BadCycles) => Err(PlayError::Run(RunRefusal::BadCycles)),
        Err(_) => Err(PlayError::Text(BenchError::Memory)),
    }
}

/// Returns the refusal of a run as its error, unless it is the want of room in a journal.
fn kept_refusal(checked: Result<(), RunRefusal>) -> Result<(), PlayError>
    ensures { result ≡ kept_refusal checked }
{
    match checked {
        Ok(()) | Err(RunRefusal::NoRoom(_)) => Ok(()),
        Err(refusal) => Err(PlayError::Run(refusal)),
    }
}

/// Checks that the scenario suits a run of so many cycles, at most 1,024. The room of journals doesn't matter.
fn check_named(cluster: &Cluster, scenario: &Scenario, cycles: u16) -> Result<(), PlayError>
    ensures { ChecksStream cluster.now scenario.now cycles result }
{
    kept_refusal(check_run(cluster, scenario.scripts(), scenario.faults(), cycles))
}

/// Executes a run with the scenario, and writes the view of it as it goes.
fn stream_scenario<W: Write>(
    alloc: Global,
    cluster: &Cluster,
    scenario: &Scenario,
    cycles: u32,
    streamed: Streamed,
    writer: &mut W,
) -> Result<(), PlayError>
    ensures written { OnOk result (AddsStream cluster.now cycles streamed scenario.now (W.contents writer.old)
        (W.contents writer.new)) }
    ensures refused { TellsRun cluster.now scenario.now cycles result }
    ensures early { IfErr result (CutsRun cluster.now scenario.now cycles streamed (W.contents writer.old)
        (W.contents writer.new)) }
{
    let mut world = open_world(alloc, cluster, cycles)?;
    check_named(cluster, scenario, cycles.min(NAMED_CYCLES) as u16)?;
    let Ok(due) = whole_window(alloc, cluster.nodes()) else {
        return Err(PlayError::Text(BenchError::Memory));
    };
    let run = Run {
        alloc,
        streamed,
        scenario,
        cluster,
        due: due.as_slice(),
    };
    let Ok(text) = opening_in(alloc, streamed) else {
        return Err(PlayError::Text(BenchError::Memory));
    };
    write_whole(writer, text.as_slice())?;
    if let Err(hindrance) = show_cycles(&mut world, &run, cycles, writer) {
        return Err(error_of(hindrance));
    }
    if world.bus().window().is_some() {
        return Err(PlayError::Unfinished);
    }
    // For the prover: the clause of this call.
    world.known();
    match close(alloc, streamed, &world, writer) {
        Ok(()) => Ok(()),
        Err(hindrance) => Err(error_of(hindrance)),
    }
}

/// Returns whether the line is in the last cycle that a scenario names.
fn is_last(line: &Line) -> bool
    ensures { result ≡ is_last line.now }
{
    line.cycle == LAST_NAMED
}

/// Returns whether the script has a call in the last cycle that a scenario names.
fn calls_last(script: &Script) -> bool
    ensures { result ≡ calls_last script.now }
{
    script.lines.iter().any(|line| is_last(line))
}

/// Returns whether one of the scripts has a call in the last cycle that a scenario names.
fn call_last(scripts: &[Script]) -> bool
    ensures { result ≡ list_any calls_last scripts.now }
{
    scripts.iter().any(|script| calls_last(script))
}

/// Returns the notes on the scenario.
fn notes_of(alloc: Global, scenario: &Scenario) -> Result<StreamNotes, AllocError>
    ensures { IfOk result (AreNotes scenario.now) }
{
    Ok(StreamNotes {
        skipped: Vec::from_slice(alloc, scenario.skipped())?,
        unjudged: scenario.expected().iter().map(|it| it.line).collect(alloc)?,
        calls_last: call_last(scenario.scripts()),
    })
}

/// Runs the cluster with the scenario of a file, and writes a view of the run as it goes (project-defined).
///
/// A run has 1 to 4,000,000 cycles, and the number of cycles, multiplied by the static slots and minislots of a cycle,
/// is at most 1,610,612,734. It needs the memory of one cycle. The events are those of `fr_playing::play::play`, and
/// the text is that of `fr_showing::show::show_run`, except for commits: a line for each thing that happens to one, as
/// the run goes. The file is read to its end first. It names cycles 0 to 1023 at most: calls of `*` are made in these
/// alone, and faults of `*` in every cycle.
///
/// It returns the numbers of the scenario's lines that name cycles, but none of the run. It also returns those of the
/// expectations that name a cycle of the run, none of which is judged. It notes whether a call is in cycle 1023.
///
/// Returns the error of `scenario_of`. Then comes `Run` with `BadCycles`, or with the `BadScript` or `BadFault` of a
/// run of at most 1,024 cycles; journals keep nothing, so there is no `NoRoom`. Returns `Write` if the writer fails,
/// and `Memory` if an allocation fails. The errors `Step` and `Unfinished` mean that the world refused an event, or
/// that the run wasn't over after its cycles; tests show that neither occurs. After `Write`, `Step`, `Unfinished` and
/// `Memory` a front of the view may have been written, and after every other error nothing.
pub fn stream_run<R: Read, W: Write>(
    alloc: Global,
    cluster: &Cluster,
    names: &Names,
    reader: &mut R,
    cycles: u32,
    streamed: Streamed,
    writer: &mut W,
) -> Result<StreamNotes, PlayError>
    ensures written { IfOk result (λ notes. ForText (R.remaining reader.old) (Streams cluster.now names.now cycles
        streamed (W.contents writer.old) (W.contents writer.new) notes)) }
    ensures refused { ForText (R.remaining reader.old) (λ text. TellsStream cluster.now names.now cycles text result) }
    // After an error of the run itself a front of the view of some accepted events is written, and otherwise nothing.
    ensures early { IfErr result (CutsStream cluster.now names.now cycles streamed (R.remaining reader.old)
        (W.contents writer.old) (W.contents writer.new)) }
{
    let named = cycles.min(NAMED_CYCLES) as u16;
    let scenario = scenario_of(alloc, reader, names, named)?;
    let Ok(notes) = notes_of(alloc, &scenario) else {
        return Err(PlayError::Text(BenchError::Memory));
    };
    stream_scenario(alloc, cluster, &scenario, cycles, streamed, writer)?;
    Ok(notes)
}
