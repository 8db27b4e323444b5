//! The lines of a table.

ghost use Rattle.std.specs.Prelude.{◌≡◌, ◌≤◌, ◌∷◌, ◌++◌, [], length};
ghost use Rattle.std.specs.Fmt.{decimal};
ghost use Rattle.std.specs.Option.{option_or};
ghost use Rattle.fr_text.specs.Writing.{Writes};
ghost use Rattle.fr_lines.specs.Parts.{absent, indicators};
ghost use Rattle.fr_lines.specs.Spelling.{line_text};
ghost use Rattle.fr_text.specs.Spaces.{line_of as words_joined};
ghost use Rattle.fr_capture.specs.Table.{bytes_words, bit_word, content_text, error_word, first_text};
ghost use Rattle.fr_capture.specs.Table.{frame_words, head_line, no_words};
ghost use Rattle.fr_frame.specs.Decoding.{decoded};
ghost use Rattle.fr_slots.specs.Windows.{slot_of};
ghost use Rattle.fr_frame.specs.Refusal.{refusal};

use crate::takers::{Takers, write_takers};
use fr_frame::decode::{DecodeError, decode_lent};
use fr_frame::lent::LentFrame;
use fr_lines::frames::write_indicators;
use fr_lines::writing::write_slot;
use fr_slots::channel::Channel;
use fr_slots::window::Window;
use fr_status::status::SlotStatus;
use fr_text::hexes::write_hex;
use std::io;
use std::io::Write;

/// Writes the names of the columns.
pub(crate) fn write_head_line<W: Write>(writer: &mut W) -> io::Result<()>
    ensures { Writes W.contents writer.old writer.new result head_line }
{
    writeln!(
        writer,
        "time cycle slot channel status error id flags taker bytes"
    )
}

/// Returns the word of the status bit that is set.
pub(crate) fn status_word(status: &SlotStatus) -> &'static str
    ensures { result.now ≡ bit_word status.now }
{
    if status.valid {
        "valid"
    } else if status.content {
        "content"
    } else if status.syntax {
        "syntax"
    } else {
        "-"
    }
}

/// Returns the word of the reason why bytes are no frame.
fn error_word(error: DecodeError) -> &'static str
    ensures { result.now ≡ error_word error }
{
    match error {
        DecodeError::TooShort => "short",
        DecodeError::LengthMismatch => "length",
        DecodeError::HeaderCrc => "header",
        DecodeError::FrameCrc => "frame",
    }
}

/// Writes the part of a line before its end: time and place of the observation, and its word.
pub(crate) fn write_first<W: Write>(
    writer: &mut W,
    time: u64,
    window: &Window,
    channel: Channel,
    word: &str,
) -> io::Result<()>
    ensures { Writes W.contents writer.old writer.new result
        (first_text time window.now.cycle (slot_of window.now channel) channel word.now) }
{
    write!(writer, "{time} {}", window.cycle.number())?;
    write_slot(writer, window.slot(channel))?;
    write!(writer, " {channel} {word} ")
}

/// Writes the words of a frame before its receivers.
fn write_fields<W: Write>(writer: &mut W, frame: &LentFrame<'_>) -> io::Result<()>
    ensures { Writes W.contents writer.old writer.new result
        (words_joined (absent ∷ decimal frame.now.id ∷ indicators frame.now ∷ []) ++ (32 ∷ [])) }
{
    write!(writer, "- {} ", frame.id)?;
    write_indicators(writer, frame)?;
    writer.write_all(b" ")
}

/// Writes the end of the line of a frame.
fn write_frame<W: Write>(
    writer: &mut W,
    frame: &LentFrame<'_>,
    takers: &Takers<'_>,
) -> io::Result<()>
    ensures { Writes W.contents writer.old writer.new result (line_text (frame_words frame.now takers.now)) }
{
    write_fields(writer, frame)?;
    write_takers(writer, takers)?;
    writer.write_all(b" ")?;
    write_hex(writer, frame.payload)?;
    writer.write_all(b"\n")
}

/// Writes the end of the line of bytes that are no frame.
fn write_bytes<W: Write>(
    writer: &mut W,
    error: DecodeError,
    takers: &Takers<'_>,
    bytes: &[u8],
) -> io::Result<()>
    requires { length bytes.now ≤ 262 }
    ensures { Writes W.contents writer.old writer.new result (line_text (bytes_words error takers.now bytes.now)) }
{
    write!(writer, "{} - - ", error_word(error))?;
    write_takers(writer, takers)?;
    writer.write_all(b" ")?;
    write_hex(writer, bytes)?;
    writer.write_all(b"\n")
}

/// Writes the end of a line without bytes.
pub(crate) fn write_nothing<W: Write>(writer: &mut W, takers: &Takers<'_>) -> io::Result<()>
    ensures { Writes W.contents writer.old writer.new result (line_text (no_words takers.now)) }
{
    writer.write_all(b"- - - ")?;
    write_takers(writer, takers)?;
    writer.write_all(b" -\n")
}

/// Writes the end of a line: the fields of a frame, or the reason why there is none.
#[tactic(auto, unfolding(crate::specs::Table::content_text))]
pub(crate) fn write_read<W: Write>(
    writer: &mut W,
    channel: Channel,
    takers: &Takers<'_>,
    bytes: &[u8],
) -> io::Result<()>
    requires { length bytes.now ≤ 262 }
    ensures { Writes W.contents writer.old writer.new result
        (content_text (refusal channel bytes.now) (decoded channel bytes.now) takers.now bytes.now) }
{
    match decode_lent(bytes, channel) {
        Ok(frame) => write_frame(writer, &frame, takers),
        Err(error) => write_bytes(writer, error, takers, bytes),
    }
}

/// Writes the end of a line whose frame may be known.
///
/// The bytes are decoded only if the frame isn't known yet.
#[tactic(auto, unfolding(crate::specs::Table::content_text))]
pub(crate) fn write_known<W: Write>(
    writer: &mut W,
    channel: Channel,
    takers: &Takers<'_>,
    bytes: &[u8],
    known: &Option<LentFrame<'_>>,
) -> io::Result<()>
    requires { length bytes.now ≤ 262 }
    ensures { Writes W.contents writer.old writer.new result
        (content_text
        (refusal channel bytes.now)
        (option_or known.now (decoded channel bytes.now))
        takers.now bytes.now) }
{
    match known {
        Some(frame) => write_frame(writer, frame, takers),
        None => write_read(writer, channel, takers, bytes),
    }
}
