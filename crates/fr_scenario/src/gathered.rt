//! The lines of a scenario that are kept while it is read.
ghost use Rattle.std.specs.Prelude.{◌≡◌, ◌<◌, [], map, replicate, IfOk, OnOk, vec_len};
ghost use Rattle.fr_scenario.specs.Contents.{node_at, task_at, task_count};
ghost use Rattle.fr_scenario.specs.Gathering.{place_of, with_task_line, scripts_from};

use crate::spelled::SpelledLine;
use fr_core::script::{Line, Script};
use fr_runs::fault_line::FaultLine;
use fr_slots::numbers::{NODES, NodeId, TASKS, TaskId};
use std::alloc::{AllocError, Global};
use std::marker::Model;
use std::mem;

/// The largest number of tasks of a node.
const TASKS_OF_NODE: usize = TASKS as usize;

/// The largest number of tasks of all nodes.
pub(crate) const TASK_COUNT: usize = NODES as usize * TASKS_OF_NODE;

// Lines of different tasks may come in any order. Their order isn't kept.
/// The lines of each task, by node and then task, and the fault lines with their numbers.
#[derive(Drop)]
pub(crate) struct Gathered {
    tasks: Vec<Vec<Line>>,
    faults: Vec<FaultLine>,
    numbers: Vec<u32>,
}

impl Model for Gathered {
    ghost use Rattle.fr_scenario.specs.Gathering.{Kept};

    ghost Value = { Kept };

    ghost use Rattle.fr_scenario.specs.GatheredFields.{kept_in, HasAllTasks};

    ghost view = { kept_in };

    ghost invariant = { HasAllTasks };
}

/// Returns the place of the node's task among all tasks.
pub(crate) fn place_of(node: NodeId, task: TaskId) -> usize
    ensures place { result ≡ place_of node task }
    ensures within { result < task_count }
    ensures node { node_at result ≡ node }
    ensures task { task_at result ≡ task }
{
    TASKS_OF_NODE * usize::from(node.number()) + usize::from(task.number())
}

/// Returns the node of the task at this place.
fn node_at(place: usize) -> NodeId
    requires { place < task_count }
    ensures { result ≡ node_at place }
{
    match NodeId::new((place / TASKS_OF_NODE) as u8) {
        Some(node) => node,
        None => unreachable!(),
    }
}

/// Returns the number of the task at this place within its node.
fn task_at(place: usize) -> TaskId
    requires { place < task_count }
    ensures { result ≡ task_at place }
{
    match TaskId::new((place % TASKS_OF_NODE) as u8) {
        Some(task) => task,
        None => unreachable!(),
    }
}

/// Returns tasks without lines.
fn idle_tasks(alloc: Global) -> Result<Vec<Vec<Line>>, AllocError>
    ensures tasks { IfOk result (λ tasks. map (λ lines. lines.items) tasks.items ≡ replicate task_count []) }
    ensures len { IfOk result (λ tasks. vec_len tasks ≡ task_count) }
{
    let mut tasks = Vec::with_capacity(alloc, TASK_COUNT)?;
    for _ in 0..TASK_COUNT {
        tasks.push(Vec::new(alloc))?;
    }
    Ok(tasks)
}

/// Adds one line to the task at this place.
pub(crate) fn add_task_line(
    tasks: &mut Vec<Vec<Line>>,
    place: usize,
    line: Line,
) -> Result<(), AllocError>
    requires { place < vec_len tasks.old }
    ensures tasks { OnOk result (map (λ lines. lines.items) tasks.new.items
        ≡ with_task_line place line (map (λ lines. lines.items) tasks.old.items)) }
    ensures len { vec_len tasks.new ≡ vec_len tasks.old }
{
    let lines = &mut tasks[place];
    lines.push(line)?;
    Ok(())
}

/// Returns the scripts of the tasks that have lines.
pub(crate) fn scripts_of(alloc: Global, tasks: Vec<Vec<Line>>) -> Result<Vec<Script>, AllocError>
    requires { vec_len tasks ≡ task_count }
    ensures { IfOk result (λ scripts. scripts.items ≡ scripts_from 0 (map (λ lines. lines.items) tasks.items)) }
{
    let mut tasks = tasks;
    let mut scripts = Vec::new(alloc);
    for place in 0..TASK_COUNT {
        let lines = mem::replace(&mut tasks[place], Vec::new(alloc));
        if !lines.is_empty() {
            scripts.push(Script {
                node: node_at(place),
                task: task_at(place),
                lines,
            })?;
        }
    }
    Ok(scripts)
}

impl Gathered {
    ghost use Rattle.std.specs.Prelude.{◌≡◌, OnOk, IfOk};
    ghost use Rattle.fr_scenario.specs.Gathering.{none_yet, with_line, scripts_from};

    /// Returns the value before any line.
    pub(crate) fn new(alloc: Global) -> Result<Gathered, AllocError>
        ensures { IfOk result (λ gathered. gathered ≡ none_yet) }
    {
        Ok(Gathered {
            tasks: idle_tasks(alloc)?,
            faults: Vec::new(alloc),
            numbers: Vec::new(alloc),
        })
    }

    /// Keeps one more line, which has this number in the text.
    pub(crate) fn add(&mut self, number: u32, line: SpelledLine) -> Result<(), AllocError>
        ensures { OnOk result (self.new ≡ with_line number self.old line) }
    {
        match line {
            SpelledLine::Host { node, task, line } => add_task_line(
                &mut self.tasks,
                place_of(node, task),
                line,
            ),
            SpelledLine::Fault(fault) => {
                self.faults.push(fault)?;
                self.numbers.push(number)?;
                Ok(())
            }
        }
    }

    /// Returns the scripts, by node and then task, and the fault lines with their numbers.
    pub(crate) fn finish(
        self,
        alloc: Global,
    ) -> Result<(Vec<Script>, Vec<FaultLine>, Vec<u32>), AllocError>
        ensures scripts { IfOk result (λ made. made.0.items ≡ scripts_from 0 self.tasks) }
        ensures faults { IfOk result (λ made. made.1.items ≡ self.faults) }
        ensures numbers { IfOk result (λ made. made.2.items ≡ self.numbers) }
    {
        let Gathered {
            tasks,
            faults,
            numbers,
        } = self;
        let scripts = scripts_of(alloc, tasks)?;
        Ok((scripts, faults, numbers))
    }
}
