//! The text of version 4 of a trace, up to its line `begin`.

ghost use Rattle.fr_text.specs.Writing.{Writes};
ghost use Rattle.fr_lines.specs.Spelling.{line_text, node_words};
ghost use Rattle.fr_slots.specs.Plans.{with_limits};
ghost use Rattle.fr_interface.specs.State.{State};
ghost use Rattle.fr_auditing.specs.LongText.{long_begin_text, long_numbers_text, long_plan_text, HasSameLines};

use fr_lines::writing::write_params;
use fr_slots::channel::Channel;
use fr_slots::params::Params;
use fr_slots::plan::NodePlan;
use fr_trace::trace::{write_buffers, write_owned, write_queues};
use std::io;
use std::io::Write;

/// Writes the line of a plan's numbers, with room for so many entries in place of the plan's own.
fn write_long_node<W: Write>(
    writer: &mut W,
    plan: &NodePlan,
    host_entries: u32,
    slot_entries: u32,
) -> io::Result<()>
    ensures { Writes W.contents writer.old writer.new result
        (line_text (node_words (with_limits plan.now host_entries slot_entries))) }
{
    let (latest_a, latest_b) = (plan.latest(Channel::A), plan.latest(Channel::B));
    write!(writer, "node {} {latest_a} {latest_b}", plan.tasks())?;
    writeln!(writer, " {host_entries} {slot_entries}")
}

/// Writes the lines up to the plan's numbers.
fn write_numbers<W: Write>(
    writer: &mut W,
    params: &Params,
    plan: &NodePlan,
    host_entries: u32,
    slot_entries: u32,
) -> io::Result<()>
    ensures { Writes W.contents writer.old writer.new result
        (long_numbers_text params.now (with_limits plan.now host_entries slot_entries)) }
{
    writeln!(writer, "frtrace 4")?;
    write_params(writer, params)?;
    write_long_node(writer, plan, host_entries, slot_entries)
}

/// Writes the lines up to the end of the plan.
fn write_plan<W: Write>(
    writer: &mut W,
    params: &Params,
    plan: &NodePlan,
    host_entries: u32,
    slot_entries: u32,
) -> io::Result<()>
    ensures { Writes W.contents writer.old writer.new result
        (long_plan_text params.now (with_limits plan.now host_entries slot_entries)) }
{
    write_numbers(writer, params, plan, host_entries, slot_entries)?;
    write_owned(writer, plan.owned())?;
    write_buffers(writer, plan.buffers())?;
    write_queues(writer, &plan.queue())
}

/// Writes the text of version 4 up to the line `begin`, for an interface with this plan and with room for so many
/// entries of the host and of the controller. The room that the plan gives doesn't count (project-defined).
///
/// A text that `audit` accepts has room for 1 to 1073741824 host entries and for 2 to 3221225469 slot entries.
///
/// Fails if the writer fails. Then a part of the text may have been written.
pub fn write_head<W: Write>(
    writer: &mut W,
    params: &Params,
    plan: &NodePlan,
    host_entries: u32,
    slot_entries: u32,
) -> io::Result<()>
    ensures { Writes W.contents writer.old writer.new result
        (long_begin_text params.now (with_limits plan.now host_entries slot_entries)) }
{
    write_plan(writer, params, plan, host_entries, slot_entries)?;
    writeln!(writer, "begin")
}

/// States that the texts of version 3 and of version 4 have the same lines after the first, and has no effect.
pub fn same_lines()
    ensures { (s : State) → HasSameLines s }
{}
