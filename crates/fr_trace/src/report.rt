//! The report of an interface.

ghost use Rattle.std.specs.Prelude.{◌≡◌, IfErr};
ghost use Rattle.fr_text.specs.Writing.{Writes};
ghost use Rattle.fr_interface.specs.State.{received_by, tally_by};
ghost use Rattle.fr_trace.specs.ReportText.{answer_words, channels_report, counts_in, errors_text, channel_words};
ghost use Rattle.fr_trace.specs.ReportText.{held_words, queue_report, report_text, reports_from, tally_words};
ghost use Rattle.fr_lines.specs.Spelling.{line_text};

use crate::error::TraceError;
use fr_interface::interface::Chi;
use fr_journal::entry::Arrival;
use fr_journal::fate::Tally;
use fr_journal::history::History;
use fr_slots::channel::Channel;
use fr_text::hexes::write_hex;
use std::io;
use std::io::Write;

/// Writes the line of a receive buffer.
fn write_receive<W: Write>(writer: &mut W, number: u8, held: &Option<Arrival>) -> io::Result<()>
    ensures { Writes W.contents writer.old writer.new result (line_text (held_words number held.now)) }
{
    let Some(arrival) = held else {
        return writeln!(writer, "rx {number} - -");
    };
    let entry = arrival.origin.entry;
    match arrival.origin.channel {
        Channel::A => write!(writer, "rx {number} {entry}:A ")?,
        Channel::B => write!(writer, "rx {number} {entry}:B ")?,
    }
    write_hex(writer, arrival.frame.payload.as_slice())?;
    writer.write_all(b"\n")
}

/// Writes the line of a transmit buffer.
fn write_transmit<W: Write>(writer: &mut W, number: u8, tally: &Tally) -> io::Result<()>
    ensures { Writes W.contents writer.old writer.new result (line_text (tally_words number tally.now)) }
{
    write!(writer, "tx {number} {} {}", tally.committed, tally.sent)?;
    let (overwritten, pending) = (tally.overwritten, tally.pending);
    writeln!(writer, " {overwritten} {pending} {}", tally.withdrawn)
}

/// Writes the line of a buffer, from the answers of the interface.
fn write_buffer<H: History, W: Write>(
    interface: &Chi<H>,
    writer: &mut W,
    number: u8,
) -> io::Result<()>
    ensures { Writes W.contents writer.old writer.new result
        (line_text (answer_words number (tally_by interface.now number) (received_by interface.now number))) }
{
    match interface.tally(number) {
        Some(tally) => write_transmit(writer, number, &tally),
        None => write_receive(writer, number, &interface.received(number)),
    }
}

/// Writes the lines of the buffers.
fn write_buffers<H: History, W: Write>(interface: &Chi<H>, writer: &mut W) -> io::Result<()>
    ensures { Writes W.contents writer.old writer.new result (reports_from interface.now 0 interface.now.plan.buffers) }
{
    let count = interface.buffers().len() as u8;
    for number in 0..count {
        write_buffer(interface, writer, number)?;
    }
    Ok(())
}

/// Writes the line of the receive FIFO, if there is one.
fn write_queue<H: History, W: Write>(interface: &Chi<H>, writer: &mut W) -> io::Result<()>
    ensures { Writes W.contents writer.old writer.new result (queue_report interface.now interface.now.plan.queue) }
{
    match (interface.queue_len(), interface.queue_lost()) {
        (Some(length), Some(lost)) => writeln!(writer, "queue {length} {lost}"),
        _ => Ok(()),
    }
}

/// Writes the line of a channel.
fn write_channel<W: Write>(writer: &mut W, channel: Channel, counts: [u32; 5]) -> io::Result<()>
    ensures { Writes W.contents writer.old writer.new result (line_text (channel_words channel (counts_in counts))) }
{
    let [valid, syntax, content, boundary, conflict] = counts;
    write!(writer, "{channel} {valid} {syntax}")?;
    write_errors(writer, content, boundary, conflict)
}

/// Writes the last three counts of a channel's line.
fn write_errors<W: Write>(
    writer: &mut W,
    content: u32,
    boundary: u32,
    conflict: u32,
) -> io::Result<()>
    ensures { Writes W.contents writer.old writer.new result (errors_text content boundary conflict) }
{
    writeln!(writer, " {content} {boundary} {conflict}")
}

/// Writes the lines of both channels.
fn write_channels<H: History, W: Write>(interface: &Chi<H>, writer: &mut W) -> io::Result<()>
    ensures { Writes W.contents writer.old writer.new result (channels_report interface.now) }
{
    let counters = interface.counters();
    write_channel(writer, Channel::A, counters.a)?;
    write_channel(writer, Channel::B, counters.b)
}

/// Writes the whole report.
fn write_lines<H: History, W: Write>(interface: &Chi<H>, writer: &mut W) -> io::Result<()>
    ensures { Writes W.contents writer.old writer.new result (report_text interface.now) }
{
    write_buffers(interface, writer)?;
    write_queue(interface, writer)?;
    write_channels(interface, writer)
}

/// Writes the report of an interface, whatever its history.
///
/// It has a line for each buffer in order of their numbers, one for the receive FIFO if there is one, and one for each
/// channel.
///
/// Returns `Write` if the writer fails. A part of the report may then have been written.
pub fn write_report<H: History, W: Write>(
    interface: &Chi<H>,
    writer: &mut W,
) -> Result<(), TraceError>
    ensures written { Writes W.contents writer.old writer.new result (report_text interface.now) }
    ensures refused { IfErr result (λ e. e ≡ TraceError.Write) }
{
    match write_lines(interface, writer) {
        Ok(()) => Ok(()),
        Err(_) => Err(TraceError::Write),
    }
}
