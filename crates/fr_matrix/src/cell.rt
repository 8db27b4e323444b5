//! A cell of the matrix.

ghost use Rattle.std.specs.Prelude.{◌≡◌, ◌≤◌, ◌<◌, ◌^◌, if◌then◌else◌};
ghost use Rattle.std.specs.List.{flat_map};
ghost use Rattle.fr_text.specs.Writing.{Writes};
ghost use Rattle.fr_matrix.specs.Cells.{box_width, cell_text, content_text, fate_text, front_text, head_text};
ghost use Rattle.fr_matrix.specs.Cells.{label_text, letters_text, mark_text, marks_class, marks_letters, numbered_text};
ghost use Rattle.fr_matrix.specs.Cells.{sender_class, sender_number, sent_on, sent_text, signs_text, slot_text};
ghost use Rattle.fr_matrix.specs.Cells.{title_text, title_end, turned_text};

use crate::look::{Look, Marks, look_word, sign};
use fr_bus::outcome::{Sent, SentFate};
use fr_slots::channel::Channel;
use fr_slots::numbers::{NodeId, SlotId};
use fr_svg::elements::{close_group, close_text, open_plain, open_text, write_rect};
use fr_text::hexes::write_hex;
use std::io;
use std::io::Write;

/// The shape of a cell, which all cells of a column have (project-defined).
#[derive(Clone, Copy, PartialEq, Eq)]
pub enum Shape {
    /// A narrow box without texts.
    Narrow,
    /// A box without the slot, whose number stands above the column.
    Headed,
    /// A box with the number of the slot.
    Numbered,
}

/// The content of a cell of the matrix, and its place (project-defined).
#[derive(Clone, Copy)]
pub struct Cell {
    /// The distance from the left.
    pub left: u64,
    /// The distance from the top.
    pub top: u64,
    /// The shape.
    pub shape: Shape,
    /// The cycle of the run.
    pub cycle: usize,
    /// The open slot of the channel.
    pub slot: SlotId,
    /// The number of the window.
    pub number: u32,
    /// The observation.
    pub look: Look,
    /// The sender of the first transmission that passed.
    pub sender: Option<NodeId>,
    /// The results of the other transmissions.
    pub marks: Marks,
}

/// Writes a word, if its condition holds.
fn write_mark<W: Write>(writer: &mut W, is_so: bool, word: &'static str) -> io::Result<()>
    ensures { Writes W.contents writer.old writer.new result (mark_text is_so word.entry.now) }
{
    if is_so {
        writer.write_all(word.as_bytes())
    } else {
        Ok(())
    }
}

/// Writes the classes of the marks.
#[tactic(auto, unfolding(crate::specs::Cells::marks_class))]
fn write_marks_class<W: Write>(writer: &mut W, marks: Marks) -> io::Result<()>
    ensures { Writes W.contents writer.old writer.new result (marks_class marks) }
{
    write_mark(writer, marks.blocked, " blocked")?;
    write_mark(writer, marks.lost, " lost")?;
    write_mark(writer, marks.turned, " turned")
}

/// Writes the letters of the marks.
#[tactic(auto, unfolding(crate::specs::Cells::marks_letters))]
fn write_marks_letters<W: Write>(writer: &mut W, marks: Marks) -> io::Result<()>
    ensures { Writes W.contents writer.old writer.new result (marks_letters marks) }
{
    write_mark(writer, marks.blocked, "b")?;
    write_mark(writer, marks.lost, "l")?;
    write_mark(writer, marks.turned, "t")
}

/// Writes the class of the sender.
fn write_sender_class<W: Write>(writer: &mut W, sender: Option<NodeId>) -> io::Result<()>
    ensures { Writes W.contents writer.old writer.new result (sender_class sender) }
{
    match sender {
        Some(node) => write!(writer, " n{node}"),
        None => Ok(()),
    }
}

/// Writes the number of the sender.
fn write_sender_number<W: Write>(writer: &mut W, sender: Option<NodeId>) -> io::Result<()>
    ensures { Writes W.contents writer.old writer.new result (sender_number sender) }
{
    match sender {
        Some(node) => write!(writer, "{node}"),
        None => Ok(()),
    }
}

/// Writes the front of a cell.
#[tactic(auto, unfolding(crate::specs::Cells::head_text))]
fn write_head<W: Write>(writer: &mut W, cell: &Cell) -> io::Result<()>
    ensures { Writes W.contents writer.old writer.new result (head_text cell.now) }
{
    write!(writer, "<g class='{}", look_word(cell.look))?;
    write_sender_class(writer, cell.sender)?;
    write_marks_class(writer, cell.marks)?;
    write!(writer, "'>")
}

/// Writes the front of its title.
#[tactic(auto, unfolding(crate::specs::Cells::title_text))]
fn write_title<W: Write>(writer: &mut W, cell: &Cell) -> io::Result<()>
    ensures { Writes W.contents writer.old writer.new result (title_text cell.now) }
{
    let (cycle, slot, number, word) = (cell.cycle, cell.slot, cell.number, look_word(cell.look));
    write!(
        writer,
        "<title>cycle {cycle}, slot {slot}, window {number}: {word}"
    )
}

/// Returns the words for the result of a transmission.
fn fate_text(fate: SentFate) -> &'static str
    ensures { result.now ≡ fate_text fate }
{
    match fate {
        SentFate::Passed => "",
        SentFate::Blocked => ", blocked",
        SentFate::Muted => ", lost",
    }
}

/// Writes a transmission.
#[tactic(auto, unfolding(crate::specs::Cells::sent_text))]
fn write_sent<W: Write>(writer: &mut W, sent: &Sent) -> io::Result<()>
    ensures { Writes W.contents writer.old writer.new result (sent_text sent.now) }
{
    let (node, verb) = (sent.node, if sent.babble { "babbled" } else { "sent" });
    write!(writer, "; node {node} {verb} ")?;
    write_hex(writer, sent.bytes.as_slice())?;
    writer.write_all(fate_text(sent.fate).as_bytes())
}

/// Writes a transmission that was on the channel.
fn write_sent_on<W: Write>(writer: &mut W, channel: Channel, sent: &Sent) -> io::Result<()>
    ensures { Writes W.contents writer.old writer.new result (sent_on channel sent.now) }
{
    if sent.channel == channel {
        write_sent(writer, sent)
    } else {
        Ok(())
    }
}

/// Writes all transmissions on the channel.
fn write_all_sent<W: Write>(writer: &mut W, channel: Channel, all: &[Sent]) -> io::Result<()>
    ensures { Writes W.contents writer.old writer.new result (flat_map (sent_on channel) all.now) }
{
    for sent in all {
        write_sent_on(writer, channel, sent)?;
    }
    Ok(())
}

/// Writes the bit that a fault flipped, if there is one.
fn write_turned<W: Write>(writer: &mut W, turned: Option<u16>) -> io::Result<()>
    ensures { Writes W.contents writer.old writer.new result (turned_text turned) }
{
    match turned {
        Some(bit) => write!(writer, "; bit {bit} turned"),
        None => Ok(()),
    }
}

/// Writes the end of its title.
#[tactic(auto, unfolding(crate::specs::Cells::title_end))]
fn write_close<W: Write>(writer: &mut W) -> io::Result<()>
    ensures { Writes W.contents writer.old writer.new result title_end }
{
    write!(writer, "</title>")
}

/// Writes the number of its slot.
#[tactic(auto, unfolding(crate::specs::Cells::slot_text))]
fn write_slot<W: Write>(writer: &mut W, cell: &Cell) -> io::Result<()>
    ensures { Writes W.contents writer.old writer.new result (slot_text cell.now) }
{
    let slot = cell.slot;
    open_plain(writer, "slot")?;
    open_text(writer, cell.left, cell.top, 10, 8)?;
    write!(writer, "{slot}")?;
    close_text(writer)?;
    close_group(writer)
}

/// Writes the sender's number, and the sign by which it is read without colours.
#[tactic(auto, unfolding(crate::specs::Cells::label_text))]
fn write_label<W: Write>(writer: &mut W, cell: &Cell) -> io::Result<()>
    ensures { Writes W.contents writer.old writer.new result (label_text cell.now) }
{
    open_text(writer, cell.left, cell.top, 10, 17)?;
    write_sender_number(writer, cell.sender)?;
    writer.write_all(sign(cell.look).as_bytes())?;
    close_text(writer)
}

/// Writes the letters of its marks in a line of their own.
#[tactic(auto, unfolding(crate::specs::Cells::letters_text))]
fn write_letters<W: Write>(writer: &mut W, cell: &Cell) -> io::Result<()>
    ensures { Writes W.contents writer.old writer.new result (letters_text cell.now) }
{
    open_text(writer, cell.left, cell.top, 10, 25)?;
    write_marks_letters(writer, cell.marks)?;
    close_text(writer)
}

/// Writes the sender, its sign and the marks.
#[tactic(auto, unfolding(crate::specs::Cells::signs_text))]
fn write_signs<W: Write>(writer: &mut W, cell: &Cell) -> io::Result<()>
    ensures { Writes W.contents writer.old writer.new result (signs_text cell.now) }
{
    write_label(writer, cell)?;
    write_letters(writer, cell)
}

/// Writes all texts of a cell whose column has no heading.
#[tactic(auto, unfolding(crate::specs::Cells::numbered_text))]
fn write_numbered<W: Write>(writer: &mut W, cell: &Cell) -> io::Result<()>
    ensures { Writes W.contents writer.old writer.new result (numbered_text cell.now) }
{
    write_slot(writer, cell)?;
    write_signs(writer, cell)
}

/// Writes the texts in its box.
fn write_content<W: Write>(writer: &mut W, cell: &Cell) -> io::Result<()>
    ensures { Writes W.contents writer.old writer.new result (content_text cell.now.shape cell.now) }
{
    match cell.shape {
        Shape::Narrow => Ok(()),
        Shape::Headed => write_signs(writer, cell),
        Shape::Numbered => write_numbered(writer, cell),
    }
}

/// Returns the width of a cell of this shape.
fn width_of(shape: Shape) -> u64
    ensures { result ≡ box_width shape }
{
    match shape {
        Shape::Narrow => 3,
        Shape::Headed | Shape::Numbered => 20,
    }
}

/// Writes the part before its box: its classes, and its title.
fn write_front<W: Write>(
    writer: &mut W,
    cell: &Cell,
    channel: Channel,
    all: &[Sent],
    turned: Option<u16>,
) -> io::Result<()>
    ensures { Writes W.contents writer.old writer.new result (front_text cell.now channel all.now turned) }
{
    write_head(writer, cell)?;
    write_title(writer, cell)?;
    write_all_sent(writer, channel, all)?;
    write_turned(writer, turned)?;
    write_close(writer)
}

/// Writes a cell, with all transmissions on the channel and the flipped bit (project-defined).
///
/// Fails if the writer fails, which may have written a part by then.
pub fn write_cell<W: Write>(
    writer: &mut W,
    cell: &Cell,
    channel: Channel,
    all: &[Sent],
    turned: Option<u16>,
) -> io::Result<()>
    ensures { Writes W.contents writer.old writer.new result (cell_text cell.now channel all.now turned) }
{
    write_front(writer, cell, channel, all, turned)?;
    write_rect(writer, cell.left, cell.top, width_of(cell.shape), 28)?;
    write_content(writer, cell)?;
    close_group(writer)
}
