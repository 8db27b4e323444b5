//! The calls of scripts in the world.
ghost use Rattle.std.specs.Prelude.{◌≡◌, slice_get, IfOk, OnOk};
ghost use Rattle.fr_playing.specs.Calls.{entries_in, asked_in_line, asked_in_script, asked_in, AddsCalls, DoesCall};

use crate::hindrance::Hindrance;
use crate::nodes::interface_of;
use fr_core::event::{Event, Reply};
use fr_core::script::{Line, Script};
use fr_core::world::World;
use fr_interface::call::Call;
use fr_slots::numbers::{NodeId, TaskId};

/// An executed line of a script, with its answer (project-defined).
#[derive(Drop, PartialEq, Eq)]
pub struct ExecutedCall {
    /// The node.
    pub node: NodeId,
    /// The task of that node.
    pub task: TaskId,
    /// The cycle of the run, from 0.
    pub cycle: u16,
    /// The call of the task.
    pub call: Call,
    // The number is kept, since the channel of a frame stands in the entry and not in the reply.
    /// The number of its entry in the node's journal, from 0.
    pub entry: u32,
    /// The answer.
    pub reply: Reply,
}

/// Returns the number of entries of the node's journal, or 0 if the cluster doesn't have the node.
fn entries_of(world: &World, node: NodeId) -> u32
    ensures { result ≡ entries_in (slice_get world.now.interfaces node) }
{
    match interface_of(world, node) {
        Some(interface) => interface.journal().len(),
        None => 0,
    }
}

/// Executes the action of the node's task.
fn do_call(
    world: &mut World,
    node: NodeId,
    task: TaskId,
    cycle: u16,
    call: &Call,
) -> Result<ExecutedCall, Hindrance>
    ensures does { IfOk result (λ executed. DoesCall world.old executed world.new) }
    ensures is { IfOk result (λ executed. (executed.node ≡ node) × (executed.task ≡ task) × (executed.cycle ≡ cycle)
        × (executed.call ≡ call.now)) }
{
    let entry = entries_of(world, node);
    let reply = world.step(&Event::of_call(node, task, call.duplicate()))?;
    Ok(ExecutedCall {
        node,
        task,
        cycle,
        call: call.duplicate(),
        entry,
        reply,
    })
}

/// Executes the line of the node's task, if it is one of this cycle.
fn do_line(
    world: &mut World,
    cycle: u16,
    node: NodeId,
    task: TaskId,
    line: &Line,
    calls: &mut Vec<ExecutedCall>,
) -> Result<(), Hindrance>
    ensures { OnOk result
        (AddsCalls calls.old.items calls.new.items world.old (asked_in_line cycle node task line.now) world.new) }
{
    if line.cycle != cycle {
        return Ok(());
    }
    let call = do_call(world, node, task, cycle, &line.action)?;
    calls.push(call)?;
    Ok(())
}

/// Executes the script's lines of this cycle, in their order.
fn do_script(
    world: &mut World,
    cycle: u16,
    script: &Script,
    calls: &mut Vec<ExecutedCall>,
) -> Result<(), Hindrance>
    ensures { OnOk result
        (AddsCalls calls.old.items calls.new.items world.old (asked_in_script cycle script.now) world.new) }
{
    let lines = script.lines.as_slice();
    for line in lines {
        do_line(world, cycle, script.node, script.task, line, calls)?;
    }
    Ok(())
}

/// Executes the lines of this cycle, in the order of the scripts and of the lines of each.
pub(crate) fn do_lines(
    world: &mut World,
    cycle: u16,
    scripts: &[Script],
    calls: &mut Vec<ExecutedCall>,
) -> Result<(), Hindrance>
    ensures { OnOk result
        (AddsCalls calls.old.items calls.new.items world.old (asked_in cycle scripts.now) world.new) }
{
    for script in scripts {
        do_script(world, cycle, script, calls)?;
    }
    Ok(())
}
