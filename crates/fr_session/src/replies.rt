//! Replies, written with their line feeds.
ghost use Rattle.std.specs.Prelude.{◌≡◌, Some};
ghost use Rattle.fr_text.specs.Writing.{Writes};
ghost use Rattle.fr_lines.specs.Spelling.{line_text};
ghost use Rattle.fr_session.specs.Replies.{frame_words, frame_reply, window_words, refusal_words};
ghost use Rattle.fr_session.specs.Replies.{withdrawn_words, reply_words, answer_text, bad_line_words, greeting};
ghost use Rattle.fr_session.specs.Replies.{age_word, bad_fault_words, coming_text, done_words, received_words};

use fr_core::error::StepError;
use fr_core::event::Reply;
use fr_frame::frame::Frame;
use fr_frame::lent::LentFrame;
use fr_journal::entry::Arrival;
use fr_lines::frames::write_indicators;
use fr_lines::writing::write_slot;
use fr_slots::window::Window;
use fr_text::hexes::write_hex;
use std::io;
use std::io::Write;

/// Writes the first line of a session, with the version of its protocol.
pub fn write_greeting<W: Write>(writer: &mut W) -> io::Result<()>
    ensures { Writes W.contents writer.old writer.new result greeting }
{
    writeln!(writer, "frworld 1")
}

/// Returns the frame, whose payload stays where it is.
fn lent(frame: &Frame) -> LentFrame<'_>
    ensures { result ≡ frame.now }
{
    LentFrame {
        preamble: frame.preamble,
        has_data: frame.has_data,
        sync: frame.sync,
        startup: frame.startup,
        id: frame.id,
        payload: frame.payload.as_slice(),
        cycle: frame.cycle,
    }
}

/// Writes the reply of a frame.
fn write_frame<W: Write>(writer: &mut W, frame: &Frame) -> io::Result<()>
    ensures { Writes W.contents writer.old writer.new result (line_text (frame_words frame.now)) }
{
    write!(writer, "frame {} {} ", frame.cycle.number(), frame.id)?;
    write_indicators(writer, &lent(frame))?;
    writer.write_all(b" ")?;
    write_hex(writer, frame.payload.as_slice())?;
    writer.write_all(b"\n")
}

/// Writes the reply of a frame or of none.
fn write_frame_reply<W: Write>(writer: &mut W, frame: &Option<Frame>) -> io::Result<()>
    ensures { Writes W.contents writer.old writer.new result (line_text (frame_reply frame.now)) }
{
    match frame {
        Some(frame) => write_frame(writer, frame),
        None => writeln!(writer, "frame -"),
    }
}

/// Returns the word for the age of a frame.
fn age_word(fresh: bool) -> &'static str
    ensures { result.now ≡ age_word fresh }
{
    if fresh { "new" } else { "old" }
}

/// Writes the end of the reply of a frame: the channel on which it came, the cycle of the run, and whether it is new.
fn write_coming<W: Write>(writer: &mut W, arrival: &Arrival, fresh: bool) -> io::Result<()>
    ensures { Writes W.contents writer.old writer.new result (coming_text fresh arrival.now) }
{
    let age = age_word(fresh);
    writeln!(
        writer,
        " {} {} {age}",
        arrival.origin.channel, arrival.cycle
    )
}

/// Writes the reply of a frame with the channel on which it came, the cycle of the run, and whether it is new.
fn write_arrival<W: Write>(writer: &mut W, arrival: &Arrival, fresh: bool) -> io::Result<()>
    ensures { Writes W.contents writer.old writer.new result
        (line_text (received_words fresh (Some arrival.now))) }
{
    let frame = &arrival.frame;
    write!(writer, "frame {} {} ", frame.cycle.number(), frame.id)?;
    write_indicators(writer, &lent(frame))?;
    writer.write_all(b" ")?;
    write_hex(writer, frame.payload.as_slice())?;
    write_coming(writer, arrival, fresh)
}

/// Writes the reply of a frame that was received, or of none.
pub fn write_received<W: Write>(
    writer: &mut W,
    arrival: &Option<Arrival>,
    fresh: bool,
) -> io::Result<()>
    ensures { Writes W.contents writer.old writer.new result (line_text (received_words fresh arrival.now)) }
{
    match arrival {
        Some(arrival) => write_arrival(writer, arrival, fresh),
        None => writeln!(writer, "frame -"),
    }
}

/// Writes the line of a window.
pub fn write_window<W: Write>(writer: &mut W, kind: &str, window: &Window) -> io::Result<()>
    ensures { Writes W.contents writer.old writer.new result (line_text (window_words kind.now window.now)) }
{
    let (number, cycle) = (window.number, window.cycle.number());
    write!(writer, "{kind} {number} {cycle} {}", window.minislot)?;
    write_slot(writer, window.a)?;
    write_slot(writer, window.b)?;
    writeln!(writer)
}

/// Writes the reply of a withdraw.
fn write_withdrawn<W: Write>(writer: &mut W, of: Option<u32>) -> io::Result<()>
    ensures { Writes W.contents writer.old writer.new result (line_text (withdrawn_words of)) }
{
    match of {
        Some(commit) => writeln!(writer, "withdrawn {commit}"),
        None => writeln!(writer, "withdrawn -"),
    }
}

/// Writes the line of a refusal.
pub fn write_refusal<W: Write>(writer: &mut W, error: StepError) -> io::Result<()>
    ensures { Writes W.contents writer.old writer.new result (line_text (refusal_words error)) }
{
    writeln!(writer, "refused {error}")
}

/// Writes that the request is executed.
pub fn write_done<W: Write>(writer: &mut W) -> io::Result<()>
    ensures { Writes W.contents writer.old writer.new result (line_text done_words) }
{
    writeln!(writer, "done")
}

/// Writes the reply to an accepted event.
fn write_reply<W: Write>(writer: &mut W, reply: &Reply) -> io::Result<()>
    ensures { Writes W.contents writer.old writer.new result (line_text (reply_words reply.now)) }
{
    match reply {
        Reply::Committed(receipt) => writeln!(writer, "committed {}", receipt.entry),
        Reply::Withdrawn(of) => write_withdrawn(writer, *of),
        Reply::Frame(frame) => write_frame_reply(writer, frame),
        Reply::Window(window) => write_window(writer, "window", window),
        Reply::Done => write_done(writer),
    }
}

/// Writes the reply to an event.
pub fn write_answer<W: Write>(writer: &mut W, answer: &Result<Reply, StepError>) -> io::Result<()>
    ensures { Writes W.contents writer.old writer.new result (answer_text answer.now) }
{
    match answer {
        Ok(reply) => write_reply(writer, reply),
        Err(error) => write_refusal(writer, *error),
    }
}

/// Writes that the line of this number is no request.
pub fn write_bad_line<W: Write>(writer: &mut W, number: u64) -> io::Result<()>
    ensures { Writes W.contents writer.old writer.new result (line_text (bad_line_words number)) }
{
    writeln!(writer, "refused BadLine {number}")
}

/// Writes that a run couldn't have the fault line beside those that are kept, with their number.
pub fn write_bad_fault<W: Write>(writer: &mut W, kept: usize) -> io::Result<()>
    ensures { Writes W.contents writer.old writer.new result (line_text (bad_fault_words kept)) }
{
    writeln!(writer, "refused BadFault {kept}")
}
