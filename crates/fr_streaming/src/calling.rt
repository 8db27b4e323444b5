//! The calls of scripts in a world without history, each shown as it is made.
ghost use Rattle.std.specs.Prelude.{◌∷◌, [], OnErr, OnOk};
ghost use Rattle.fr_playing.specs.Calls.{asked_in, asked_in_line, asked_in_script};
ghost use Rattle.fr_streaming.specs.RunFields.{tells};
ghost use Rattle.fr_streaming.specs.Streams.{asked, Breaks, Goes, MakesCalls};

use crate::hindrance::Hindrance;
use crate::log::place_in;
use crate::telling::{Run, call_in, write_out};
use fr_core::script::{Line, Script};
use fr_endless::world::EndlessWorld;
use fr_slots::numbers::{NodeId, TaskId};
use std::io::Write;

/// Executes the call of the task's line, which must be accepted, and writes what the view has of it.
fn show_call<W: Write>(
    world: &mut EndlessWorld,
    run: &Run<'_>,
    node: NodeId,
    task: TaskId,
    line: &Line,
    writer: &mut W,
) -> Result<(), Hindrance>
    ensures goes { OnOk result (Goes (tells run.now)
        (MakesCalls (asked node task line.now.cycle line.now.action ∷ [])) world.old (W.contents writer.old)
        (W.contents writer.new) world.new) }
    ensures early { OnErr result (Breaks (tells run.now) world.old (W.contents writer.old) (W.contents writer.new)) }
{
    let place = place_in(world, node, &line.action);
    let answer = match world.call(node, task, &line.action) {
        Ok(answer) => answer,
        Err(error) => return Err(Hindrance::from(error)),
    };
    let text = call_in(run.alloc, run.streamed, node, task, line, &place, answer)?;
    write_out(writer, text.as_slice())
}

/// Executes the line of the node's task, if it is one of this cycle.
fn show_line<W: Write>(
    world: &mut EndlessWorld,
    run: &Run<'_>,
    cycle: u32,
    node: NodeId,
    task: TaskId,
    line: &Line,
    writer: &mut W,
) -> Result<(), Hindrance>
    ensures goes { OnOk result (Goes (tells run.now) (MakesCalls (asked_in_line cycle node task line.now)) world.old
        (W.contents writer.old) (W.contents writer.new) world.new) }
    ensures early { OnErr result (Breaks (tells run.now) world.old (W.contents writer.old) (W.contents writer.new)) }
{
    if u32::from(line.cycle) == cycle {
        show_call(world, run, node, task, line, writer)
    } else {
        Ok(())
    }
}

/// Executes the script's lines of this cycle, in their order.
fn show_script<W: Write>(
    world: &mut EndlessWorld,
    run: &Run<'_>,
    cycle: u32,
    script: &Script,
    writer: &mut W,
) -> Result<(), Hindrance>
    ensures goes { OnOk result (Goes (tells run.now) (MakesCalls (asked_in_script cycle script.now)) world.old
        (W.contents writer.old) (W.contents writer.new) world.new) }
    ensures early { OnErr result (Breaks (tells run.now) world.old (W.contents writer.old) (W.contents writer.new)) }
{
    let lines = script.lines.as_slice();
    for line in lines {
        show_line(world, run, cycle, script.node, script.task, line, writer)?;
    }
    Ok(())
}

/// Executes the lines of this cycle, in the order of the scripts and of the lines of each.
pub(crate) fn show_lines<W: Write>(
    world: &mut EndlessWorld,
    run: &Run<'_>,
    cycle: u32,
    scripts: &[Script],
    writer: &mut W,
) -> Result<(), Hindrance>
    ensures goes { OnOk result (Goes (tells run.now) (MakesCalls (asked_in cycle scripts.now)) world.old
        (W.contents writer.old) (W.contents writer.new) world.new) }
    ensures early { OnErr result (Breaks (tells run.now) world.old (W.contents writer.old) (W.contents writer.new)) }
{
    for script in scripts {
        show_script(world, run, cycle, script, writer)?;
    }
    Ok(())
}
