//! The lines of what happens to the frames of a receive FIFO.
ghost use Rattle.std.specs.Prelude.{◌≡◌, ◌-◌, ◌+◌, ◌<◌, ◌^◌, ◌∷◌, [], IfOk, Some};
ghost use Rattle.std.specs.Fmt.{decimal};
ghost use Rattle.std.specs.List.{flat_map, range_with_len};
ghost use Rattle.fr_fifo.specs.FifoSteps.{after_entry, after_window, frame_text, frames_seen, step_text, window_text};
ghost use Rattle.fr_fifo.specs.FifoSteps.{line_by, waiting_text, with_frames};
ghost use Rattle.fr_fifo.specs.FifoText.{popped_line, stored_line};
ghost use Rattle.fr_lines.specs.Spelling.{line_text};
ghost use Rattle.fr_text.specs.Writing.{Writes};

use crate::arrivals::frame_on;
use crate::running::{Running, cycle_in, oldest_in, with_frame, with_window, without_oldest};
use fr_frame::lent::LentFrame;
use fr_interface::interface::Interface;
use fr_journal::entry::Entry;
use fr_lines::frames::write_indicators;
use fr_slots::channel::Channel;
use fr_slots::numbers::TaskId;
use fr_slots::plan::Queue;
use fr_slots::window::Window;
use fr_status::seen::Seen;
use fr_text::hexes::write_hex;
use std::io;
use std::io::Write;

/// Writes the line of a frame that is stored under this number, in this cycle of the run.
fn write_stored<W: Write>(
    writer: &mut W,
    number: u32,
    cycle: u32,
    channel: Channel,
    frame: &LentFrame<'_>,
) -> io::Result<()>
    ensures { Writes W.contents writer.old writer.new result (stored_line number cycle channel frame.now) }
{
    write!(writer, "stored {number} {cycle} {} {channel} ", frame.id)?;
    write_indicators(writer, frame)?;
    writer.write_all(b" ")?;
    write_hex(writer, frame.payload)?;
    writer.write_all(b"\n")
}

/// Writes the line of the frame that the FIFO stores next on the channel, if there is one.
fn write_frame<W: Write>(
    writer: &mut W,
    running: Running,
    channel: Channel,
    frame: &Option<LentFrame<'_>>,
) -> io::Result<()>
    ensures { Writes W.contents writer.old writer.new result (frame_text running channel frame.now) }
{
    match frame {
        Some(frame) => write_stored(writer, running.stored, cycle_in(running), channel, frame),
        None => Ok(()),
    }
}

/// How frames leave the FIFO, or stay in it.
#[derive(Clone, Copy)]
pub(crate) enum Left {
    /// Later ones took their place in this cycle of the run.
    Overwritten(u32),
    /// The task popped them in this cycle of the run.
    Popped(u32, TaskId),
    /// They wait at the end.
    Waiting,
}

/// Writes a line of a word, the number of a frame and a cycle of the run.
fn write_word<W: Write>(writer: &mut W, word: &str, number: u32, cycle: u32) -> io::Result<()>
    ensures { Writes W.contents writer.old writer.new result
        (line_text (word.now ∷ decimal number ∷ decimal cycle ∷ [])) }
{
    writeln!(writer, "{word} {number} {cycle}")
}

/// Writes the line of a frame that the task popped in this cycle of the run.
fn write_popped<W: Write>(writer: &mut W, cycle: u32, task: TaskId, number: u32) -> io::Result<()>
    ensures { Writes W.contents writer.old writer.new result (popped_line cycle task number) }
{
    writeln!(writer, "popped {number} {cycle} {}", task.number())
}

/// Writes the line of a frame by its number.
fn write_number<W: Write>(writer: &mut W, left: &Left, number: u32) -> io::Result<()>
    ensures { Writes W.contents writer.old writer.new result (line_by left.now number) }
{
    match left {
        Left::Overwritten(cycle) => write_word(writer, "overwritten", number, *cycle),
        Left::Popped(cycle, task) => write_popped(writer, *cycle, *task, number),
        Left::Waiting => writeln!(writer, "waiting {number}"),
    }
}

/// Writes the lines of the frames from the first number on, up to the end.
pub(crate) fn write_numbers<W: Write>(
    writer: &mut W,
    left: &Left,
    first: u32,
    end: u32,
) -> io::Result<()>
    ensures { Writes W.contents writer.old writer.new result
        (flat_map (line_by left.now) (range_with_len first (end - first))) }
{
    for number in first..end {
        write_number(writer, left, number)?;
    }
    Ok(())
}

/// Writes the lines of the frames that wait: those that the FIFO holds.
pub(crate) fn write_waiting<W: Write>(writer: &mut W, running: Running) -> io::Result<()>
    ensures { Writes W.contents writer.old writer.new result (waiting_text running) }
{
    write_numbers(writer, &Left::Waiting, oldest_in(running), running.stored)
}

/// Writes the lines of the frames that the FIFO stores in a window, and of those that they overwrite. Returns the
/// numbers after that.
fn write_seen<W: Write>(
    writer: &mut W,
    capacity: u16,
    running: Running,
    a: &Option<LentFrame<'_>>,
    b: &Option<LentFrame<'_>>,
) -> io::Result<Running>
    requires stored { running.stored + 2 < 2 ^ 32 }
    requires held { running.held + 2 < 2 ^ 32 }
    ensures written { Writes W.contents writer.old writer.new result (frames_seen capacity running a.now b.now) }
    ensures after { IfOk result (λ r. r ≡ with_frames capacity running a.now b.now) }
{
    let between = with_frame(capacity, running, a);
    let next = with_frame(capacity, between, b);
    write_frame(writer, running, Channel::A, a)?;
    write_frame(writer, between, Channel::B, b)?;
    let left = Left::Overwritten(cycle_in(running));
    write_numbers(writer, &left, oldest_in(running), oldest_in(next))?;
    Ok(next)
}

/// Writes the lines of the entry that observes this window. Returns the numbers after it.
fn write_window<W: Write>(
    writer: &mut W,
    interface: &Interface,
    queue: &Queue,
    running: Running,
    closed: &Option<Window>,
    a: &Seen,
    b: &Seen,
) -> io::Result<Running>
    requires queue { interface.now.plan.queue ≡ Some queue.now }
    requires stored { running.stored + 2 < 2 ^ 32 }
    requires held { running.held + 2 < 2 ^ 32 }
    ensures written { Writes W.contents writer.old writer.new result
        (window_text interface.now queue.now running closed.now a.now b.now) }
    ensures after { IfOk result (λ r. r ≡ after_window interface.now queue.now running closed.now a.now b.now) }
{
    let Some(window) = closed else {
        return Ok(running);
    };
    let frame_a = frame_on(interface, queue, window, Channel::A, a);
    let frame_b = frame_on(interface, queue, window, Channel::B, b);
    write_seen(writer, queue.capacity, running, &frame_a, &frame_b)
}

/// Writes the lines of an entry, which closes this window. Returns the numbers after it.
pub(crate) fn write_entry<W: Write>(
    writer: &mut W,
    interface: &Interface,
    queue: &Queue,
    running: Running,
    closed: &Option<Window>,
    entry: &Entry,
) -> io::Result<Running>
    requires queue { interface.now.plan.queue ≡ Some queue.now }
    requires stored { running.stored + 2 < 2 ^ 32 }
    requires held { running.held + 2 < 2 ^ 32 }
    requires cycles { running.cycles + 1 < 2 ^ 32 }
    ensures written { Writes W.contents writer.old writer.new result
        (step_text interface.now queue.now running closed.now entry.now) }
    ensures after { IfOk result (λ r. r ≡ after_entry interface.now queue.now running closed.now entry.now) }
{
    match entry {
        Entry::Pop { task, .. } => {
            let next = without_oldest(running);
            let left = Left::Popped(running.cycles, *task);
            write_numbers(writer, &left, oldest_in(running), oldest_in(next))?;
            Ok(next)
        }
        Entry::Fetch { window, .. } => Ok(with_window(running, window)),
        Entry::Observe { a, b, .. } => {
            write_window(writer, interface, queue, running, closed, a, b)
        }
        Entry::Commit { .. } | Entry::Withdraw { .. } | Entry::Read { .. } => Ok(running),
    }
}
