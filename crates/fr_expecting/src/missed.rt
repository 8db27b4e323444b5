//! An expectation that a run missed, and its text.

ghost use Rattle.fr_expecting.specs.MissedText.{expected_text, found_text, missed_text, others_text, place_text};
ghost use Rattle.fr_expecting.specs.MissedText.{wanted_text};
ghost use Rattle.fr_text.specs.Writing.{Writes};

use fr_frame::payload::Payload;
use fr_slots::numbers::NodeId;
use fr_text::hexes::write_hex;
use std::io;
use std::io::Write;

/// The content of a buffer at the end of a cycle (project-defined).
#[derive(Drop)]
pub enum Found {
    /// The cluster has no receive buffer of this number at this node.
    NoBuffer,
    /// The receive buffer is empty.
    Nothing,
    /// The receive buffer holds a frame with this payload.
    Data(Payload),
}

/// An expectation that a run missed (project-defined).
#[derive(Drop)]
pub struct Missed {
    /// The number of its line in the text of the scenario, from 1.
    pub line: u32,
    /// The node.
    pub node: NodeId,
    /// The number of the receive buffer, from 0.
    pub buffer: u8,
    /// The payload that was expected, or none if the buffer had to be empty.
    pub wanted: Option<Payload>,
    /// The first cycle of the run that missed it, from 0.
    pub cycle: u16,
    /// The content of the buffer at the end of that cycle.
    pub found: Found,
    /// The number of cycles that missed it, at least 1.
    pub count: u16,
}

/// Writes the payload that was expected, or `nothing`.
fn write_wanted<W: Write>(writer: &mut W, wanted: &Option<Payload>) -> io::Result<()>
    ensures { Writes W.contents writer.old writer.new result (wanted_text wanted.now) }
{
    match wanted {
        Some(payload) => write_hex(writer, payload.as_slice()),
        None => write!(writer, "nothing"),
    }
}

/// Writes the content that was found.
fn write_found<W: Write>(writer: &mut W, found: &Found) -> io::Result<()>
    ensures { Writes W.contents writer.old writer.new result (found_text found.now) }
{
    match found {
        Found::NoBuffer => write!(writer, "no receive buffer"),
        Found::Nothing => write!(writer, "nothing"),
        Found::Data(payload) => write_hex(writer, payload.as_slice()),
    }
}

/// Writes the number of cycles beside the first one, of so many that missed it. One cycle has no text.
fn write_others<W: Write>(writer: &mut W, count: u16) -> io::Result<()>
    ensures { Writes W.contents writer.old writer.new result (others_text count) }
{
    if count <= 1 {
        return Ok(());
    }
    if count == 2 {
        return write!(writer, " (and in 1 other cycle)");
    }
    write!(writer, " (and in {} other cycles)", count - 1)
}

/// Writes the line of the scenario, the node, the buffer and the cycle.
fn write_place<W: Write>(writer: &mut W, missed: &Missed) -> io::Result<()>
    ensures { Writes W.contents writer.old writer.new result (place_text missed.now) }
{
    let (line, node, buffer) = (missed.line, missed.node.number(), missed.buffer);
    let cycle = missed.cycle;
    write!(
        writer,
        "line {line}: node {node} buffer {buffer} at the end of cycle {cycle}"
    )
}

/// Writes the place and the content that was expected there.
#[tactic(auto, unfolding(crate::specs::MissedText::expected_text))]
fn write_expected<W: Write>(writer: &mut W, missed: &Missed) -> io::Result<()>
    ensures { Writes W.contents writer.old writer.new result (expected_text missed.now) }
{
    write_place(writer, missed)?;
    write!(writer, ": expected ")?;
    write_wanted(writer, &missed.wanted)
}

/// Writes the text of a missed expectation, one line without its line feed (project-defined).
///
/// An example is `line 7: node 2 buffer 1 at the end of cycle 3: expected x0102, found x0103`. An empty buffer is
/// `nothing`, and a transmit buffer or one that the cluster doesn't have is `no receive buffer`. If other cycles missed
/// it too, there follows ` (and in 1 other cycle)` or ` (and in 4 other cycles)`.
///
/// Fails if the writer fails. Then a part of the text may have gone out.
pub fn write_missed<W: Write>(writer: &mut W, missed: &Missed) -> io::Result<()>
    ensures { Writes W.contents writer.old writer.new result (missed_text missed.now) }
{
    write_expected(writer, missed)?;
    write!(writer, ", found ")?;
    write_found(writer, &missed.found)?;
    write_others(writer, missed.count)
}
