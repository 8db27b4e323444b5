//! The status counters of a channel.
ghost use Rattle.std.specs.Prelude.{◌≡◌};
ghost use Rattle.fr_session.specs.Queries.{counters_on, last_counts_text, status_line, status_text};
ghost use Rattle.fr_text.specs.Writing.{Writes};
ghost use Rattle.fr_trace.specs.ReportText.{counts_in};

use fr_interface::interface::Interface;
use fr_slots::channel::Channel;
use fr_status::counters::Counters;
use std::io;
use std::io::Write;

/// Returns the counts of one channel, in the order of `Counters`.
pub fn counts_on(counters: &Counters, channel: Channel) -> [u32; 5]
    ensures { result ≡ counters_on channel counters.now }
{
    match channel {
        Channel::A => counters.a,
        Channel::B => counters.b,
    }
}

/// Writes the last four counts of a channel.
fn write_last_counts<W: Write>(
    writer: &mut W,
    syntax: u32,
    content: u32,
    boundary: u32,
    conflict: u32,
) -> io::Result<()>
    ensures { Writes W.contents writer.old writer.new result (last_counts_text syntax content boundary conflict) }
{
    writeln!(writer, " {syntax} {content} {boundary} {conflict}")
}

/// Writes the status counters of a channel, in the order of a report.
pub fn write_status<W: Write>(writer: &mut W, channel: Channel, counts: [u32; 5]) -> io::Result<()>
    ensures { Writes W.contents writer.old writer.new result (status_line channel (counts_in counts)) }
{
    let [valid, syntax, content, boundary, conflict] = counts;
    write!(writer, "status {channel} {valid}")?;
    write_last_counts(writer, syntax, content, boundary, conflict)
}

/// Writes the status counters of an interface on the channel.
pub(crate) fn write_interface_status<W: Write>(
    writer: &mut W,
    interface: &Interface,
    channel: Channel,
) -> io::Result<()>
    ensures { Writes W.contents writer.old writer.new result (status_text channel interface.now) }
{
    write_status(writer, channel, counts_on(&interface.counters(), channel))
}
