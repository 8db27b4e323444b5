//! The report of an interface without its journal, from the data that it keeps.
ghost use Rattle.std.specs.Prelude.{◌≡◌, option_map, length};
ghost use Rattle.fr_text.specs.Writing.{Writes};
ghost use Rattle.fr_auditing.specs.KeptReport.{buffer_line, buffer_lines, queue_line, channel_line, channel_lines};
ghost use Rattle.fr_auditing.specs.KeptReport.{kept_report};
ghost use Rattle.fr_lines.specs.Spelling.{line_text};
ghost use Rattle.fr_trace.specs.ReportText.{counts_in, errors_text, held_words, tally_words};

use fr_interface::state::InterfaceState;
use fr_journal::entry::Arrival;
use fr_journal::fate::Tally;
use fr_slots::channel::Channel;
use fr_text::hexes::write_hex;
use std::io;
use std::io::Write;

/// Writes the line of a receive buffer.
fn write_receive<W: Write>(writer: &mut W, number: u8, held: &Option<Arrival>) -> io::Result<()>
    ensures { Writes W.contents writer.old writer.new result (line_text (held_words number held.now)) }
{
    let Some(arrival) = held else {
        return writeln!(writer, "rx {number} - -");
    };
    let entry = arrival.origin.entry;
    match arrival.origin.channel {
        Channel::A => write!(writer, "rx {number} {entry}:A ")?,
        Channel::B => write!(writer, "rx {number} {entry}:B ")?,
    }
    write_hex(writer, arrival.frame.payload.as_slice())?;
    writer.write_all(b"\n")
}

/// Writes the line of a transmit buffer.
fn write_transmit<W: Write>(writer: &mut W, number: u8, tally: &Tally) -> io::Result<()>
    ensures { Writes W.contents writer.old writer.new result (line_text (tally_words number tally.now)) }
{
    write!(writer, "tx {number} {} {}", tally.committed, tally.sent)?;
    let (overwritten, pending) = (tally.overwritten, tally.pending);
    writeln!(writer, " {overwritten} {pending} {}", tally.withdrawn)
}

/// Writes the line of a buffer.
fn write_buffer<W: Write>(interface: &InterfaceState, writer: &mut W, number: u8) -> io::Result<()>
    ensures { Writes W.contents writer.old writer.new result (buffer_line interface.now number) }
{
    match interface.tally(number) {
        Some(tally) => write_transmit(writer, number, &tally),
        None => write_receive(writer, number, &interface.received(number)),
    }
}

/// Writes the lines of so many buffers.
fn write_buffers<W: Write>(interface: &InterfaceState, count: u8, writer: &mut W) -> io::Result<()>
    ensures { Writes W.contents writer.old writer.new result (buffer_lines interface.now count) }
{
    for number in 0..count {
        write_buffer(interface, writer, number)?;
    }
    Ok(())
}

/// Writes the line of the receive FIFO, if there is one.
fn write_queue<W: Write>(interface: &InterfaceState, writer: &mut W) -> io::Result<()>
    ensures { Writes W.contents writer.old writer.new result
        (queue_line (option_map (λ q. length q.frames) interface.now.queue)
        (option_map (λ q. q.lost) interface.now.queue)) }
{
    match (interface.queue_len(), interface.queue_lost()) {
        (Some(length), Some(lost)) => writeln!(writer, "queue {length} {lost}"),
        _ => Ok(()),
    }
}

/// Writes the line of a channel.
fn write_channel<W: Write>(writer: &mut W, channel: Channel, counts: [u32; 5]) -> io::Result<()>
    ensures { Writes W.contents writer.old writer.new result (channel_line channel (counts_in counts)) }
{
    let [valid, syntax, content, boundary, conflict] = counts;
    write!(writer, "{channel} {valid} {syntax}")?;
    write_errors(writer, content, boundary, conflict)
}

/// Writes the last three counts of a channel's line.
fn write_errors<W: Write>(
    writer: &mut W,
    content: u32,
    boundary: u32,
    conflict: u32,
) -> io::Result<()>
    ensures { Writes W.contents writer.old writer.new result (errors_text content boundary conflict) }
{
    writeln!(writer, " {content} {boundary} {conflict}")
}

/// Writes the lines of both channels.
fn write_channels<W: Write>(interface: &InterfaceState, writer: &mut W) -> io::Result<()>
    ensures { Writes W.contents writer.old writer.new result (channel_lines interface.now.counters) }
{
    let counters = interface.counters();
    write_channel(writer, Channel::A, counters.a)?;
    write_channel(writer, Channel::B, counters.b)
}

/// Writes the report of an interface with so many buffers, as `fr_trace::report::write_report` does for one with its
/// journal. The plan of the interface has this number of buffers.
///
/// Fails if the writer fails. Then a part of the report may have been written.
pub fn write_kept_report<W: Write>(
    interface: &InterfaceState,
    count: u8,
    writer: &mut W,
) -> io::Result<()>
    ensures { Writes W.contents writer.old writer.new result (kept_report interface.now count) }
{
    write_buffers(interface, count, writer)?;
    write_queue(interface, writer)?;
    write_channels(interface, writer)
}
