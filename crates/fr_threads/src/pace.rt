//! The cycle barrier of a lockstep run: a cycle's script lines come between the cycle before and its first fetch.

ghost use Rattle.std.specs.Prelude.{◌≡◌};
ghost use Rattle.fr_threads.specs.Pacing.{is_due};

use fr_core::script::{Line, Script};
use std::alloc::{AllocError, Global};
use std::sync::{Condvar, Mutex, Wait};

/// A cycle of the run.
#[derive(Drop)]
struct Turn {
    /// The number of tasks that have lines in it.
    tasks: u16,
    /// The signal that its lines are due, or the run was stopped. Each cycle has its own, so that only its tasks are
    /// woken.
    due: Condvar,
}

/// The progress of a run.
#[derive(Drop)]
pub(crate) struct Progress {
    /// The number of controllers that are still missing for the cycle that they are to begin.
    pub missing: u8,
    /// The cycle whose lines came due last, if there is one.
    pub due: Option<u32>,
    /// The number of tasks that have lines of that cycle and haven't executed all of them.
    pub busy: u16,
    pub stopped: bool,
}

/// Returns whether the lines of the cycle came due, given the cycle whose lines came due last.
fn is_due(cycle: u32, due: Option<u32>) -> bool
    ensures { result ≡ is_due cycle due }
{
    match due {
        Some(last) => cycle <= last,
        None => false,
    }
}

impl Progress {
    ghost use Rattle.std.specs.Prelude.{◌≡◌, ◌==◌};
    ghost use Rattle.fr_threads.specs.Pacing.{awaits_due, awaits_done, is_last, arrived, task_done, halted};

    /// Returns whether a task that has lines in the cycle waits until they are due.
    fn awaits_due(&self, cycle: u32) -> bool
        ensures { result ≡ awaits_due cycle self.now }
    {
        !is_due(cycle, self.due) && !self.stopped
    }

    /// Returns whether a controller that is to begin the cycle waits until its lines are executed.
    fn awaits_done(&self, cycle: u32) -> bool
        ensures { result ≡ awaits_done cycle self.now }
    {
        (!is_due(cycle, self.due) || self.busy > 0) && !self.stopped
    }

    /// Counts a controller that is to begin the cycle, and returns whether it is the last. With the last one the lines
    /// are due.
    fn arrive(&mut self, nodes: u8, cycle: u32, tasks: u16) -> bool
        ensures last { result ≡ is_last self.old }
        ensures after { self.new ≡ arrived nodes cycle tasks self.old }
    {
        if self.missing > 1 {
            self.missing -= 1;
            return false;
        }
        self.missing = nodes;
        self.due = Some(cycle);
        self.busy = tasks;
        true
    }

    /// Counts a task that has executed its lines of the cycle, and returns whether it is the last.
    ///
    /// The cycle is the one whose lines came due last.
    fn finish_task(&mut self) -> bool
        ensures none_left { result ≡ (self.new.busy == 0) }
        ensures after { self.new ≡ task_done self.old }
    {
        self.busy = self.busy.saturating_sub(1);
        self.busy == 0
    }

    /// Stops the run: from now on no thread waits.
    fn stop(&mut self)
        ensures { self.new ≡ halted self.old }
    {
        self.stopped = true;
    }
}

/// The cycle barrier: tasks wait for the lines of a cycle, and controllers for the fetches in it.
///
/// In a cycle without lines, no thread waits.
#[derive(Drop)]
pub(crate) struct Pace {
    nodes: u8,
    turns: Vec<Turn>,
    progress: Mutex<Progress>,
    /// The signal that all tasks have executed their lines, or the run was stopped.
    ///
    /// The lines are those of the cycle that came due last.
    done: Condvar,
}

/// Returns a turn for each cycle, in which no task has lines.
fn idle_turns(alloc: Global, cycles: u16) -> Result<Vec<Turn>, AllocError> {
    let mut turns = Vec::new(alloc);
    for _cycle in 0..cycles {
        turns.push(Turn {
            tasks: 0,
            due: Condvar::new(),
        })?;
    }
    Ok(turns)
}

/// Counts a task in each cycle in which it has lines. The lines stand in order of their cycles.
fn count_task(turns: &mut Vec<Turn>, lines: &[Line]) {
    let mut last = None;
    for line in lines {
        if last != Some(line.cycle) {
            if let Some(turn) = turns.get_mut(usize::from(line.cycle)) {
                turn.tasks = turn.tasks.saturating_add(1);
            }
            last = Some(line.cycle);
        }
    }
}

impl Pace {
    /// Returns the cycle barrier of a run with these scripts, at most one for each task.
    pub(crate) fn new(
        alloc: Global,
        nodes: u8,
        cycles: u16,
        scripts: &[Script],
    ) -> Result<Pace, AllocError> {
        let mut turns = idle_turns(alloc, cycles)?;
        for script in scripts {
            count_task(&mut turns, script.lines.as_slice());
        }
        Ok(Pace {
            nodes,
            turns,
            progress: Mutex::new(Progress {
                missing: nodes,
                due: None,
                busy: 0,
                stopped: false,
            }),
            done: Condvar::new(),
        })
    }

    /// Waits, as a task that has lines in the cycle, until these are due. Returns false if the run was stopped.
    pub(crate) fn wait_due<R: Wait>(&self, rt: &R, cycle: u16) -> bool {
        let Some(turn) = self.turns.get(usize::from(cycle)) else {
            return false;
        };
        let progress = turn.due.wait_while(rt, self.progress.lock(rt), |progress| {
            progress.awaits_due(u32::from(cycle))
        });
        !progress.stopped
    }

    /// Reports that a task has executed all its lines of the cycle that came due last.
    pub(crate) fn tell_done<R: Wait>(&self, rt: &R) {
        let mut progress = self.progress.lock(rt);
        let all = progress.finish_task();
        drop(progress);
        if all {
            self.done.notify_all();
        }
    }

    /// Waits, as a controller, until all lines of the cycle are executed.
    ///
    /// The controller has observed all cycles before. Returns false if the run was stopped.
    pub(crate) fn wait_done<R: Wait>(&self, rt: &R, cycle: u32) -> bool {
        let Some(turn) = self.turns.get(cycle as usize) else {
            return true;
        };
        if turn.tasks == 0 {
            return true;
        }
        self.arrive(rt, cycle, turn);
        let progress = self
            .done
            .wait_while(rt, self.progress.lock(rt), |progress| {
                progress.awaits_done(cycle)
            });
        !progress.stopped
    }

    /// Counts a controller that is to begin the cycle. With the last one the cycle's lines are due.
    fn arrive<R: Wait>(&self, rt: &R, cycle: u32, turn: &Turn) {
        let mut progress = self.progress.lock(rt);
        let all = progress.arrive(self.nodes, cycle, turn.tasks);
        drop(progress);
        if all {
            turn.due.notify_all();
        }
    }

    /// Stops the run: from now on no thread waits.
    pub(crate) fn stop<R: Wait>(&self, rt: &R) {
        let mut progress = self.progress.lock(rt);
        progress.stop();
        drop(progress);
        self.done.notify_all();
        for turn in &self.turns {
            turn.due.notify_all();
        }
    }
}
