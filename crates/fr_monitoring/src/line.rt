//! The text of a line that is told of a recording.

ghost use Rattle.std.specs.Prelude.{◌≡◌};
ghost use Rattle.fr_text.specs.Writing.{Writes};
ghost use Rattle.std.specs.Fmt.{sign_text};
ghost use Rattle.fr_monitoring.specs.LineText.{letter_if, dash_if, letters_text, optional_text, word_text, time_text};
ghost use Rattle.fr_monitoring.specs.LineText.{seconds_text, at_text, place_text, finding_text, line_text};
ghost use Rattle.fr_monitoring.specs.LineText.{lines_text, times_text};

use crate::digits::{nine_digits, six_digits, three_digits};
use crate::names::name_word;
use fr_judging::line::{At, Line};
use fr_logged::finding::{Finding, Letters, Place, Word};
use fr_recording::numbers::Moment;
use fr_slots::numbers::Cycle;
use std::io;
use std::io::Write;

/// Returns a letter, or a dash if it isn't to be shown.
fn letter_if(shown: bool, letter: u8) -> u8
    ensures { result ≡ letter_if shown letter }
{
    if shown { letter } else { b'-' }
}

/// Returns the four letters of indicators.
pub(crate) fn letters_text(letters: &Letters) -> [u8; 4]
    ensures { result ≡ letters_text letters.now }
{
    [
        letter_if(letters.preamble, b'p'),
        letter_if(!letters.has_data, b'n'),
        letter_if(letters.sync, b's'),
        letter_if(letters.startup, b'u'),
    ]
}

/// Writes a number, or a dash for none.
#[tactic(auto, unfolding(crate::specs::LineText::optional_text))]
pub(crate) fn write_optional<W: Write>(writer: &mut W, number: Option<u32>) -> io::Result<()>
    ensures { Writes W.contents writer.old writer.new result (optional_text number) }
{
    match number {
        Some(number) => write!(writer, "{number}"),
        None => write!(writer, "-"),
    }
}

/// Writes what was expected or found.
#[tactic(auto, unfolding(crate::specs::LineText::word_text))]
fn write_word<W: Write>(writer: &mut W, word: &Word) -> io::Result<()>
    ensures { Writes W.contents writer.old writer.new result (word_text word.now) }
{
    match word {
        Word::Absent => write!(writer, "-"),
        Word::Number(number) => write!(writer, "{number}"),
        Word::HeaderCrc(crc) => {
            write!(writer, "x")?;
            writer.write_all(&three_digits(u32::from(*crc)))
        }
        Word::FrameCrc(crc) => {
            write!(writer, "x")?;
            writer.write_all(&six_digits(*crc))
        }
        Word::Letters(letters) => writer.write_all(&letters_text(letters)),
    }
}

/// Writes the sign of a time before zero.
fn write_sign<W: Write>(writer: &mut W, negative: bool) -> io::Result<()>
    ensures { Writes W.contents writer.old writer.new result (sign_text negative) }
{
    if negative {
        write!(writer, "-")
    } else {
        Ok(())
    }
}

/// Writes a time in seconds, with nine decimals.
fn write_time<W: Write>(writer: &mut W, time: i128) -> io::Result<()>
    ensures { Writes W.contents writer.old writer.new result (time_text time) }
{
    let whole = time.unsigned_abs();
    write_sign(writer, time < 0)?;
    write!(writer, "{}.", whole / 1_000_000_000)?;
    writer.write_all(&nine_digits((whole % 1_000_000_000) as u32))
}

/// Writes a time in seconds, or a dash if it isn't known.
#[tactic(auto, unfolding(crate::specs::LineText::seconds_text))]
fn write_seconds<W: Write>(writer: &mut W, time: Option<Moment>) -> io::Result<()>
    ensures { Writes W.contents writer.old writer.new result (seconds_text time) }
{
    match time {
        Some(time) => write_time(writer, time.nanoseconds()),
        None => write!(writer, "-"),
    }
}

/// Writes the record that shows something.
#[tactic(auto, unfolding(crate::specs::LineText::at_text))]
pub(crate) fn write_at<W: Write>(writer: &mut W, at: &Option<At>) -> io::Result<()>
    ensures { Writes W.contents writer.old writer.new result (at_text at.now) }
{
    match at {
        Some(at) => {
            write!(writer, "{} ", at.number)?;
            write_seconds(writer, at.time)
        }
        None => write!(writer, "- -"),
    }
}

/// Returns a cycle as a number.
fn number_of(cycle: Option<Cycle>) -> Option<u32>
    ensures { result ≡ cycle }
{
    match cycle {
        Some(cycle) => Some(u32::from(cycle.number())),
        None => None,
    }
}

/// Writes the cycle, the channel and the slot.
#[tactic(auto, unfolding(crate::specs::LineText::place_text))]
pub(crate) fn write_place<W: Write>(writer: &mut W, place: &Place) -> io::Result<()>
    ensures { Writes W.contents writer.old writer.new result (place_text place.now) }
{
    write_optional(writer, number_of(place.cycle))?;
    write!(writer, " {} ", place.channel)?;
    write_optional(writer, place.slot)
}

/// Writes a name, and what was expected and found.
#[tactic(auto, unfolding(crate::specs::LineText::finding_text))]
fn write_finding<W: Write>(writer: &mut W, finding: &Finding) -> io::Result<()>
    ensures { Writes W.contents writer.old writer.new result (finding_text finding.now) }
{
    write!(writer, "{} ", name_word(finding.name))?;
    write_word(writer, &finding.expected)?;
    write!(writer, " ")?;
    write_word(writer, &finding.found)
}

/// Writes a node, and how often its slot was missing.
#[tactic(auto, unfolding(crate::specs::LineText::times_text))]
fn write_times<W: Write>(writer: &mut W, node: u8, times: u64) -> io::Result<()>
    ensures { Writes W.contents writer.old writer.new result (times_text node times) }
{
    writeln!(writer, " {node} {times}")
}

/// Writes a line.
#[tactic(auto, unfolding(crate::specs::LineText::line_text))]
fn write_line<W: Write>(writer: &mut W, line: &Line) -> io::Result<()>
    ensures { Writes W.contents writer.old writer.new result (line_text line.now) }
{
    match line {
        Line::Finding(at, place, finding) => {
            write!(writer, "finding ")?;
            write_at(writer, at)?;
            write!(writer, " ")?;
            write_place(writer, place)?;
            write!(writer, " ")?;
            write_finding(writer, finding)?;
            writeln!(writer)
        }
        Line::Back(at, place, node, times) => {
            write!(writer, "back ")?;
            write_at(writer, &Some(*at))?;
            write!(writer, " ")?;
            write_place(writer, place)?;
            write_times(writer, *node, *times)
        }
    }
}

/// Writes lines, one after another.
#[inline(never)]
fn write_each<W: Write>(writer: &mut W, lines: &[Line]) -> io::Result<()>
    ensures { Writes W.contents writer.old writer.new result (lines_text lines.now) }
{
    for line in lines {
        write_line(writer, line)?;
    }
    Ok(())
}

/// Writes lines, in their order.
pub fn write_lines<W: Write>(writer: &mut W, lines: &[Line]) -> io::Result<()>
    ensures { Writes W.contents writer.old writer.new result (lines_text lines.now) }
{
    // Most records show no line: this test is inlined, and the loop isn't.
    if lines.is_empty() {
        return Ok(());
    }
    write_each(writer, lines)
}
