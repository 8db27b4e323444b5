//! Scripts: the calls that a task is to make.

ghost use Rattle.std.specs.Prelude.{◌≡◌};
ghost use Rattle.std.specs.List.{list_any};
ghost use Rattle.fr_core.specs.Scripts.{is_for};

use crate::event::Reply;
use fr_interface::call::Call;
use fr_slots::numbers::{NodeId, TaskId};
use std::marker::Model;

/// A line of a script (project-defined).
#[derive(Drop, PartialEq, Eq)]
pub struct Line {
    /// The cycle of the run for the call, from 0.
    pub cycle: u16,
    /// The call.
    pub action: Call,
    /// The answer, or none if it isn't known, as before a run.
    pub answer: Option<Reply>,
}

/// The calls that a task of a node is to make, in order (project-defined).
#[derive(Drop)]
pub struct Script {
    /// The node.
    pub node: NodeId,
    /// The task of that node.
    pub task: TaskId,
    /// The calls.
    pub lines: Vec<Line>,
}

impl Model for Script {
    ghost use Rattle.fr_core.specs.Scripts.{Scripted};

    ghost Value = { Scripted };

    ghost use Rattle.fr_core.specs.ScriptFields.{scripted_in};

    ghost view = { scripted_in };
}

impl Script {
    ghost use Rattle.std.specs.Prelude.{◌≡◌};
    ghost use Rattle.fr_core.specs.Scripts.{is_for};

    /// Returns whether the script is for that task.
    pub fn is_for(&self, node: NodeId, task: TaskId) -> bool
        ensures { result ≡ is_for node task self.now }
    {
        self.node == node && self.task == task
    }
}

/// Returns whether one of the scripts is for the task.
pub fn has_script(scripts: &[Script], node: NodeId, task: TaskId) -> bool
    ensures { result ≡ list_any (is_for node task) scripts.now }
{
    scripts.iter().any(|script| script.is_for(node, task))
}
