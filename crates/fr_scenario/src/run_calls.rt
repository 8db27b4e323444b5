//! The calls of a scenario of version 3 in a run: those of each cycle first, then the lines of each task.
ghost use Rattle.std.specs.Prelude.{◌≡◌, ◌<◌, ◌++◌, ◌∷◌, [], length, map, replicate, slice_index_or, slice_set};
ghost use Rattle.std.specs.Prelude.{IfOk, OnOk, vec_len};
ghost use Rattle.fr_runs.specs.declared.cycles.RunCycles.TheVariants.{Only};
ghost use Rattle.fr_scenario.specs.Contents.{task_count};
ghost use Rattle.fr_scenario.specs.RunCalls.{calls_at, AddsPlace, AddsPlaces, AddsLines, AreLines, ArePlaces};
ghost use Rattle.fr_scenario.specs.RunContents.{line_at, scripts_in_run};

use crate::gathered::{TASK_COUNT, add_task_line, place_of, scripts_of};
use crate::statement::Statement;
use fr_core::script::{Line, Script};
use fr_interface::call::Call;
use fr_runs::cycles::RunCycles;
use std::alloc::{AllocError, Global};

/// Returns cycles without calls.
fn idle_cycles(alloc: Global, cycles: u16) -> Result<Vec<Vec<usize>>, AllocError>
    ensures places { IfOk result (λ places. map (λ made. made.items) places.items ≡ replicate cycles []) }
    ensures len { IfOk result (λ places. vec_len places ≡ cycles) }
{
    let mut places = Vec::with_capacity(alloc, usize::from(cycles))?;
    for _ in 0..cycles {
        places.push(Vec::new(alloc))?;
    }
    Ok(places)
}

/// Adds the place of a statement to this cycle.
fn add_place(places: &mut Vec<Vec<usize>>, cycle: u16, place: usize) -> Result<(), AllocError>
    requires { cycle < vec_len places.old }
    ensures places { OnOk result (map (λ made. made.items) places.new.items
        ≡ slice_set (map (λ made. made.items) places.old.items) cycle
        (slice_index_or (map (λ made. made.items) places.old.items) cycle [] ++ place ∷ [])) }
    ensures len { vec_len places.new ≡ vec_len places.old }
{
    let made = &mut places[usize::from(cycle)];
    made.push(place)?;
    Ok(())
}

/// Adds the place of a statement to each cycle of the run that is named.
fn add_to_named(
    places: &mut Vec<Vec<usize>>,
    cycles: u16,
    named: RunCycles,
    place: usize,
) -> Result<(), AllocError>
    requires { vec_len places.old ≡ cycles }
    ensures places { OnOk result (AddsPlace cycles named place
        (map (λ made. made.items) places.old.items) (map (λ made. made.items) places.new.items)) }
    ensures len { vec_len places.new ≡ vec_len places.old }
{
    for cycle in 0..cycles {
        if named.names(usize::from(cycle)) {
            add_place(places, cycle, place)?;
        }
    }
    Ok(())
}

/// Adds the place of a statement to this cycle, if the run has it.
fn add_to_one(
    places: &mut Vec<Vec<usize>>,
    cycles: u16,
    cycle: u16,
    place: usize,
) -> Result<(), AllocError>
    requires { vec_len places.old ≡ cycles }
    ensures places { OnOk result (AddsPlace cycles (Only cycle) place
        (map (λ made. made.items) places.old.items) (map (λ made. made.items) places.new.items)) }
    ensures len { vec_len places.new ≡ vec_len places.old }
{
    if cycle < cycles {
        add_place(places, cycle, place)
    } else {
        Ok(())
    }
}

/// Adds the statement's place to the cycles of the run in which it makes a call.
fn add_places(
    places: &mut Vec<Vec<usize>>,
    cycles: u16,
    statement: &Statement,
    place: usize,
) -> Result<(), AllocError>
    requires { vec_len places.old ≡ cycles }
    ensures places { OnOk result (AddsPlaces cycles statement.now place
        (map (λ made. made.items) places.old.items) (map (λ made. made.items) places.new.items)) }
    ensures len { vec_len places.new ≡ vec_len places.old }
{
    match statement {
        Statement::Calls {
            cycles: RunCycles::Only(cycle),
            ..
        } => add_to_one(places, cycles, *cycle, place),
        Statement::Calls { cycles: named, .. } => add_to_named(places, cycles, *named, place),
        Statement::Nothing
        | Statement::Fault(_)
        | Statement::Faults { .. }
        | Statement::Expected { .. } => Ok(()),
    }
}

/// Returns for each cycle of the run the places of the statements that make a call in it, in their order.
fn places_in_run(
    alloc: Global,
    cycles: u16,
    statements: &[Statement],
) -> Result<Vec<Vec<usize>>, AllocError>
    ensures places { IfOk result (λ places. ArePlaces cycles statements.now
        (map (λ made. made.items) places.items)) }
    ensures len { IfOk result (λ places. vec_len places ≡ cycles) }
{
    let mut places = idle_cycles(alloc, cycles)?;
    for place in 0..statements.len() {
        add_places(&mut places, cycles, &statements[place], place)?;
    }
    Ok(places)
}

/// Returns the line of the call in the cycle.
fn line_at(cycle: u16, call: &Call) -> Line
    ensures { result ≡ line_at cycle call.now }
{
    Line {
        cycle,
        action: call.duplicate(),
        answer: None,
    }
}

/// Adds the line that a statement at this place makes in this cycle to its task.
fn add_line(
    cycle: u16,
    statements: &[Statement],
    place: usize,
    tasks: &mut Vec<Vec<Line>>,
) -> Result<(), AllocError>
    requires { vec_len tasks.old ≡ task_count }
    ensures lines { OnOk result (AddsLines cycle (calls_at statements.now (place ∷ []))
        (map (λ lines. lines.items) tasks.old.items) (map (λ lines. lines.items) tasks.new.items)) }
    ensures len { vec_len tasks.new ≡ vec_len tasks.old }
{
    match statements.get(place) {
        Some(
            Statement::Calls {
                node,
                task,
                call,
                ..
            },
        ) => { add_task_line(tasks, place_of(*node, *task), line_at(cycle, call)) }
        _ => Ok(()),
    }
}

/// Adds the lines that the statements at these places make in this cycle to their tasks.
fn add_lines(
    cycle: u16,
    statements: &[Statement],
    places: &[usize],
    tasks: &mut Vec<Vec<Line>>,
) -> Result<(), AllocError>
    requires { vec_len tasks.old ≡ task_count }
    ensures lines { OnOk result (AddsLines cycle (calls_at statements.now places.now)
        (map (λ lines. lines.items) tasks.old.items) (map (λ lines. lines.items) tasks.new.items)) }
    ensures len { vec_len tasks.new ≡ vec_len tasks.old }
{
    for place in places {
        add_line(cycle, statements, *place, tasks)?;
    }
    Ok(())
}

// Room alone depends on the counts, so that no clause speaks of them.
/// Returns the number of lines of each task.
fn counts_of(statements: &[Statement], places: &[Vec<usize>]) -> [usize; TASK_COUNT] {
    let mut counts = [0usize; TASK_COUNT];
    for made in places {
        for place in made {
            if let Some(Statement::Calls { node, task, .. }) = statements.get(*place) {
                let count = &mut counts[place_of(*node, *task)];
                *count = count.saturating_add(1);
            }
        }
    }
    counts
}

/// Returns tasks without lines, with room for so many in each.
fn roomy_tasks(alloc: Global, counts: &[usize; TASK_COUNT]) -> Result<Vec<Vec<Line>>, AllocError>
    ensures tasks { IfOk result (λ tasks. map (λ lines. lines.items) tasks.items ≡ replicate task_count []) }
    ensures len { IfOk result (λ tasks. vec_len tasks ≡ task_count) }
{
    let mut tasks = Vec::with_capacity(alloc, TASK_COUNT)?;
    for task in 0..TASK_COUNT {
        tasks.push(Vec::with_capacity(alloc, counts[task])?)?;
    }
    Ok(tasks)
}

/// Returns the lines of each task, cycle after cycle.
fn lines_in_run(
    alloc: Global,
    cycles: u16,
    statements: &[Statement],
    places: &[Vec<usize>],
) -> Result<Vec<Vec<Line>>, AllocError>
    requires { length places.now ≡ cycles }
    ensures lines { IfOk result (λ tasks. AreLines cycles statements.now (map (λ made. made.items) places.now)
        (map (λ lines. lines.items) tasks.items)) }
    ensures len { IfOk result (λ tasks. vec_len tasks ≡ task_count) }
{
    let mut tasks = roomy_tasks(alloc, &counts_of(statements, places))?;
    for cycle in 0..cycles {
        let made = places[usize::from(cycle)].as_slice();
        add_lines(cycle, statements, made, &mut tasks)?;
    }
    Ok(tasks)
}

/// Returns the scripts of the tasks that have calls in the run.
pub(crate) fn scripts_in_run(
    alloc: Global,
    cycles: u16,
    statements: &[Statement],
) -> Result<Vec<Script>, AllocError>
    ensures { IfOk result (λ scripts. scripts.items ≡ scripts_in_run cycles statements.now) }
{
    let places = places_in_run(alloc, cycles, statements)?;
    let tasks = lines_in_run(alloc, cycles, statements, places.as_slice())?;
    let scripts = scripts_of(alloc, tasks)?;
    Ok(scripts)
}
