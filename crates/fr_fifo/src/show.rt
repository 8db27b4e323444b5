//! A trace, read, and the frames of its receive FIFO.
ghost use Rattle.std.specs.Prelude.{◌≡◌, IfErr, IfSome, IsSomeAnd, Some};
ghost use Rattle.fr_capture.specs.Shows.{Ends, IsUnwritten, Shows};
ghost use Rattle.fr_fifo.specs.FifoText.{fifo_text, frames_text};
ghost use Rattle.fr_interface.specs.State.{State, IsNodeInterface};
ghost use Rattle.fr_text.specs.Writing.{Writes};
ghost use Rattle.fr_trace.specs.Audit.{IsNotRefused};
ghost use Rattle.fr_trace.specs.Refusals.{LineIsNamed};
ghost use Rattle.fr_trace.specs.TraceText.{IsTraceOf};

use crate::frames::{write_entry, write_waiting};
use crate::running::Running;
use fr_files::output::write_text;
use fr_interface::interface::Interface;
use fr_slots::plan::Queue;
use fr_trace::audit::interface_of;
use fr_trace::error::TraceError;
use std::alloc::Global;
use std::io;
use std::io::{Read, Write};

/// Writes the lines of a journal, for this receive FIFO of its node.
fn write_frames<W: Write>(writer: &mut W, interface: &Interface, queue: &Queue) -> io::Result<()>
    requires { interface.now.plan.queue ≡ Some queue.now }
    ensures { Writes W.contents writer.old writer.new result
        (frames_text interface.now queue.now interface.now.entries) }
{
    let journal = interface.journal();
    let mut running = Running::NONE;
    for number in 0..journal.len() {
        if let Some(entry) = journal.get(number) {
            let closed = journal.closed_window(number);
            running = write_entry(writer, interface, queue, running, &closed, &entry)?;
        }
    }
    write_waiting(writer, running)
}

/// Writes a line for each thing that happens to a frame of the node's receive FIFO, in the order of the journal
/// (project-defined).
///
/// `stored` is followed by the number of the frame, from 0, the cycle of the run in which it came, its slot, its
/// channel, its indicators and its payload. `overwritten` has the number of a frame and the cycle in which a later one
/// took its place, `popped` the number, the cycle and the task. `waiting` has the number of a frame that the FIFO holds
/// at the end. A node without a receive FIFO has no line.
///
/// Fails if the writer fails, which may have written a part of the lines by then.
pub fn write_fifo<W: Write>(writer: &mut W, interface: &Interface) -> io::Result<()>
    ensures { Writes W.contents writer.old writer.new result (fifo_text interface.now) }
{
    match interface.plan().queue() {
        Some(queue) => write_frames(writer, interface, &queue),
        None => Ok(()),
    }
}

/// Writes these lines at once.
///
/// Returns `Memory` if an allocation for the lines fails; nothing is written then. Returns `Write` if the writer fails;
/// a front of the lines may then have been written.
fn write_lines<W: Write>(
    alloc: Global,
    interface: &Interface,
    writer: &mut W,
) -> Result<(), TraceError>
    ensures written { Writes W.contents writer.old writer.new result (fifo_text interface.now) }
    ensures refused { IfErr result (λ e.
        IsUnwritten (fifo_text interface.now) (W.contents writer.old) (W.contents writer.new) e) }
{
    let mut text = Vec::new(alloc);
    if write_fifo(&mut text, interface).is_err() {
        // A list of bytes fails to grow only if an allocation fails.
        return Err(TraceError::Memory);
    }
    match write_text(writer, text.as_slice()) {
        Ok(()) => Ok(()),
        Err(_) => Err(TraceError::Write),
    }
}

/// Reads a trace to its end, and writes the lines of its receive FIFO (project-defined).
///
/// Returns the error of the first line at fault, at which it stops reading; `Read` if the reader fails; `Memory` if an
/// allocation fails; and `Write` if the writer fails. Nothing is written on an error other than `Write`. After `Write`
/// a front of the output may have been written.
pub fn show_fifo<R: Read, W: Write>(
    alloc: Global,
    reader: &mut R,
    writer: &mut W,
) -> Result<(), TraceError>
    // An accepted text is a text of a legal interface, whose lines are written.
    ensures found { Shows fifo_text (R.remaining reader.old) (W.contents writer.old)
        (W.contents writer.new) result }
    // It reads in pieces of at most 4096 bytes, and none after the one that has the fault.
    ensures read { Ends (R.remaining reader.old) (R.remaining reader.new) result }
    // The line that an error names is that of the byte with which the first fault shows.
    ensures line { IfSome (R.remaining reader.old) (λ text. LineIsNamed result text) }
    // A text of a legal interface is accepted in each version.
    ensures only { (s : State) → IsNodeInterface s → IsSomeAnd (R.remaining reader.old) (λ text. IsTraceOf s text)
        → IsNotRefused result }
{
    let interface = interface_of(alloc, reader)?;
    write_lines(alloc, &interface, writer)
}
