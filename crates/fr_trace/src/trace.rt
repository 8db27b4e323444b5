//! The text of an interface: its one trace of version 3.

ghost use Rattle.std.specs.Prelude.{◌++◌, IfErr, Ok, ◌≡◌};
ghost use Rattle.fr_text.specs.Writing.{Writes};
ghost use Rattle.std.specs.List.{flat_map};
ghost use Rattle.fr_lines.specs.declared.versions.Version.TheVariants.{Three};
ghost use Rattle.fr_trace.specs.TraceText.{own_line, buffer_line, queue_lines, entry_line, numbers_text};
ghost use Rattle.fr_trace.specs.TraceText.{plan_text, trace_text};
ghost use Rattle.fr_interface.specs.State.{IsNodeInterface};
ghost use Rattle.fr_trace.specs.Stream.{fresh, take_bytes, outcome_of};

use crate::error::TraceError;
use fr_interface::interface::Interface;
use fr_journal::journal::Journal;
use fr_lines::writing::{
    write_buffer, write_entry, write_node, write_own, write_params, write_queue,
};
use fr_slots::params::Params;
use fr_slots::plan::{Buffer, NodePlan, Own, Queue};
use std::io;
use std::io::Write;

/// Writes ownership lines. Fails if the writer fails.
pub fn write_owned<W: Write>(writer: &mut W, owned: &[Own]) -> io::Result<()>
    ensures { Writes W.contents writer.old writer.new result (flat_map (own_line Three) owned.now) }
{
    for own in owned {
        write_own(writer, own)?;
    }
    Ok(())
}

/// Writes the lines of buffers. Fails if the writer fails.
pub fn write_buffers<W: Write>(writer: &mut W, buffers: &[Buffer]) -> io::Result<()>
    ensures { Writes W.contents writer.old writer.new result (flat_map buffer_line buffers.now) }
{
    for buffer in buffers {
        write_buffer(writer, buffer)?;
    }
    Ok(())
}

/// Writes the line of a receive FIFO, if there is one. Fails if the writer fails.
pub fn write_queues<W: Write>(writer: &mut W, queue: &Option<Queue>) -> io::Result<()>
    ensures { Writes W.contents writer.old writer.new result (queue_lines queue.now) }
{
    match queue {
        Some(queue) => write_queue(writer, queue),
        None => Ok(()),
    }
}

/// Writes the lines up to the plan's numbers.
fn write_numbers<W: Write>(writer: &mut W, params: &Params, plan: &NodePlan) -> io::Result<()>
    ensures { Writes W.contents writer.old writer.new result (numbers_text Three params.now plan.now) }
{
    writeln!(writer, "frtrace 3")?;
    write_params(writer, params)?;
    write_node(writer, plan)
}

/// Writes the lines up to the end of the plan.
fn write_plan<W: Write>(writer: &mut W, params: &Params, plan: &NodePlan) -> io::Result<()>
    ensures { Writes W.contents writer.old writer.new result (plan_text Three params.now plan.now) }
{
    write_numbers(writer, params, plan)?;
    write_owned(writer, plan.owned())?;
    write_buffers(writer, plan.buffers())?;
    write_queues(writer, &plan.queue())
}

/// Writes the lines of a journal's entries.
fn write_entries<W: Write>(writer: &mut W, journal: &Journal) -> io::Result<()>
    ensures { Writes W.contents writer.old writer.new result (flat_map entry_line journal.now.entries) }
{
    for number in 0..journal.len() {
        if let Some(entry) = journal.get(number) {
            write_entry(writer, &entry)?;
        }
    }
    Ok(())
}

/// Writes the whole text.
fn write_text<W: Write>(writer: &mut W, interface: &Interface) -> io::Result<()>
    ensures written { Writes W.contents writer.old writer.new result (trace_text Three interface.now) }
    ensures legal { IsNodeInterface interface.now }
{
    write_plan(writer, interface.params(), interface.plan())?;
    writeln!(writer, "begin")?;
    write_entries(writer, interface.journal())?;
    writeln!(writer, "end")
}

/// Writes the trace of an interface.
///
/// It is the one text of version 3 of its parameters, its plan and its journal.
///
/// An interface that was read in version 1 or 2 is also written in version 3.
///
/// Returns `Write` if the writer fails. A part of the text may then have been written.
pub fn write_trace<W: Write>(interface: &Interface, writer: &mut W) -> Result<(), TraceError>
    ensures written { Writes W.contents writer.old writer.new result (trace_text Three interface.now) }
    ensures refused { IfErr result (λ e. e ≡ TraceError.Write) }
    // The text is accepted, and gives this interface.
    ensures again { outcome_of (take_bytes fresh (trace_text Three interface.now)) ≡ Ok interface.now }
{
    match write_text(writer, interface) {
        Ok(()) => Ok(()),
        Err(_) => Err(TraceError::Write),
    }
}
