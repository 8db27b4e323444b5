//! The lines that are written about a text.
ghost use Rattle.std.specs.Prelude.{◌≡◌, ◌<◌, ◌^◌};
ghost use Rattle.std.specs.List.{flat_map};
ghost use Rattle.fr_text.specs.Writing.{Writes};
ghost use Rattle.fr_why.specs.WhyText.{refusal_line, is_shown, byte_text, after_space, place_text, reason_text};
ghost use Rattle.fr_why.specs.WhyText.{misfit_word, count_text, accepted_text, fault_text};

use crate::reason::{Misfit, Reason};
use fr_lines::forms::WordPlace;
use fr_lines::writing::write_entry;
use fr_slots::fault::PlanFault;
use fr_slots::params::RangeError;
use fr_text::hexes::write_hex;
use fr_trace::auditor::LINE;
use fr_trace::error::TraceError;
use std::io;
use std::io::Write;

/// Writes the line of a refusal, as an audit prints it.
fn write_error<W: Write>(writer: &mut W, error: TraceError) -> io::Result<()>
    ensures { Writes W.contents writer.old writer.new result (refusal_line error) }
{
    writeln!(writer, "refused {error}")
}

// A terminal would execute some bytes of a line at fault, so those print as hexadecimal digits.
/// Returns whether a byte is written as it is.
fn is_shown(byte: u8) -> bool
    ensures { result ≡ is_shown byte }
{
    32 <= byte && byte <= 126 && byte != b'\\'
}

/// Writes a byte of a line.
fn write_byte<W: Write>(writer: &mut W, byte: u8) -> io::Result<()>
    ensures { Writes W.contents writer.old writer.new result (byte_text byte) }
{
    if is_shown(byte) {
        return writer.write_all(&[byte]);
    }
    writer.write_all(b"\\")?;
    write_hex(writer, &[byte])
}

/// Writes bytes of a line.
fn write_bytes<W: Write>(writer: &mut W, bytes: &[u8]) -> io::Result<()>
    ensures { Writes W.contents writer.old writer.new result (flat_map byte_text bytes.now) }
{
    for byte in bytes {
        write_byte(writer, *byte)?;
    }
    Ok(())
}

/// Writes a space and at most as many bytes of the line as a line may have. Nothing is written for an empty line.
fn write_after_space<W: Write>(writer: &mut W, line: &[u8]) -> io::Result<()>
    ensures { Writes W.contents writer.old writer.new result (after_space line.now) }
{
    if line.is_empty() {
        return Ok(());
    }
    writer.write_all(b" ")?;
    write_bytes(writer, &line[..LINE.min(line.len())])
}

/// Writes the number of a line and its text.
fn write_place<W: Write>(writer: &mut W, number: u64, line: &[u8]) -> io::Result<()>
    ensures { Writes W.contents writer.old writer.new result (place_text number line.now) }
{
    write!(writer, "line {number}")?;
    write_after_space(writer, line)?;
    writer.write_all(b"\n")
}

/// Returns the word for the reason why a line can't stand in its place.
fn misfit_word(misfit: Misfit) -> &'static str
    ensures { result.now ≡ misfit_word misfit }
{
    match misfit {
        Misfit::Word => "Word",
        Misfit::Form => "Form",
        Misfit::Late => "Late",
        Misfit::Full => "Full",
        Misfit::After => "After",
    }
}

/// Writes the line of a refusal of parameters.
fn write_range<W: Write>(writer: &mut W, error: RangeError) -> io::Result<()>
    ensures { Writes W.contents writer.old writer.new result (reason_text (Reason.Params error)) }
{
    match error {
        RangeError::OutOfRange(key) => writeln!(writer, "reason Params OutOfRange {key}"),
        RangeError::CycleSum => writeln!(writer, "reason Params CycleSum"),
    }
}

/// Writes the line of a plan's fault.
fn write_fault<W: Write>(writer: &mut W, fault: PlanFault) -> io::Result<()>
    ensures { Writes W.contents writer.old writer.new result (reason_text (Reason.Plan fault)) }
{
    match fault {
        PlanFault::NotOwned(buffer) => writeln!(writer, "reason Plan NotOwned {buffer}"),
        PlanFault::DynamicBoth(buffer) => writeln!(writer, "reason Plan DynamicBoth {buffer}"),
        PlanFault::Overlap(slot, channel, cycle) => {
            writeln!(writer, "reason Plan Overlap {slot} {channel} {cycle}")
        }
        PlanFault::TooLong(buffer) => writeln!(writer, "reason Plan TooLong {buffer}"),
        PlanFault::OutOfParams => writeln!(writer, "reason Plan OutOfParams"),
    }
}

/// Writes the line for a line that can't stand in its place, with the place of the wrong word.
fn write_misfit<W: Write>(
    writer: &mut W,
    misfit: Misfit,
    place: Option<WordPlace>,
) -> io::Result<()>
    ensures { Writes W.contents writer.old writer.new result (reason_text (Reason.Line misfit place)) }
{
    let name = misfit_word(misfit);
    match place {
        Some(place) => writeln!(writer, "reason Line {name} {} {}", place.word, place.column),
        None => writeln!(writer, "reason Line {name}"),
    }
}

/// Writes the reason of a refusal.
fn write_reason<W: Write>(writer: &mut W, reason: &Reason) -> io::Result<()>
    ensures { Writes W.contents writer.old writer.new result (reason_text reason.now) }
{
    match reason {
        Reason::Plain => Ok(()),
        Reason::Line(misfit, place) => write_misfit(writer, *misfit, *place),
        Reason::Feed => writeln!(writer, "reason Feed"),
        Reason::Params(error) => write_range(writer, *error),
        Reason::Plan(fault) => write_fault(writer, *fault),
        Reason::Host(error) => writeln!(writer, "reason Host {error}"),
        Reason::Slot(error) => writeln!(writer, "reason Slot {error}"),
        Reason::Due(entry) => {
            writer.write_all(b"due ")?;
            write_entry(writer, entry)
        }
    }
}

/// Writes the number of lines and of windows.
fn write_count<W: Write>(writer: &mut W, lines: u64, windows: u32) -> io::Result<()>
    ensures { Writes W.contents writer.old writer.new result (count_text lines windows) }
{
    writeln!(writer, "lines {lines}")?;
    writeln!(writer, "windows {windows}")
}

/// Writes that a text is accepted, with its lines and windows.
pub(crate) fn write_accepted<W: Write>(writer: &mut W, lines: u64, windows: u32) -> io::Result<()>
    ensures { Writes W.contents writer.old writer.new result (accepted_text lines windows) }
{
    writeln!(writer, "accepted")?;
    write_count(writer, lines, windows)
}

/// Writes why a text is refused at this line, and the number of lines and windows before it.
pub(crate) fn write_refused<W: Write>(
    writer: &mut W,
    error: TraceError,
    before: u64,
    line: &[u8],
    reason: &Reason,
    windows: u32,
) -> io::Result<()>
    requires { before < 2 ^ 63 }
    ensures { Writes W.contents writer.old writer.new result (fault_text error before line.now reason.now windows) }
{
    write_error(writer, error)?;
    write_place(writer, before + 1, line)?;
    write_reason(writer, reason)?;
    write_count(writer, before, windows)
}
