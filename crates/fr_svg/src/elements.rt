//! The elements.
ghost use Rattle.std.specs.Fmt.{decimal};
ghost use Rattle.fr_svg.specs.Elements.{picture_end, group_end, group_front, picture_front, moved_front, placed_text};
ghost use Rattle.fr_svg.specs.Elements.{placed_front, plain_front, rect_text, text_end};
ghost use Rattle.fr_text.specs.Writing.{Writes};

use std::io;
use std::io::Write;

/// Writes the first line of a picture: its width and height, and those in its own units.
#[tactic(auto, unfolding(crate::specs::Elements::picture_front))]
pub fn open_picture<W: Write>(
    writer: &mut W,
    width: u64,
    height: u64,
    across: u64,
    down: u64,
) -> io::Result<()>
    ensures { Writes W.contents writer.old writer.new result (picture_front width height across down) }
{
    writeln!(
        writer,
        "<svg xmlns='http://www.w3.org/2000/svg' width='{width}' height='{height}' viewBox='0 0 {across} {down}'>"
    )
}

/// Writes a box.
#[tactic(auto, unfolding(crate::specs::Elements::rect_text))]
pub fn write_rect<W: Write>(
    writer: &mut W,
    left: u64,
    top: u64,
    width: u64,
    height: u64,
) -> io::Result<()>
    ensures { Writes W.contents writer.old writer.new result (rect_text left top width height) }
{
    write!(
        writer,
        "<rect x='{left}' y='{top}' width='{width}' height='{height}'/>"
    )
}

/// Writes a text at a place.
#[tactic(auto, unfolding(crate::specs::Elements::placed_text))]
pub fn write_text<W: Write>(writer: &mut W, left: u64, top: u64, text: &str) -> io::Result<()>
    ensures { Writes W.contents writer.old writer.new result (placed_text left top text.now) }
{
    write!(writer, "<text x='{left}' y='{top}'>{text}</text>")
}

/// Writes a number at a place.
#[tactic(auto, unfolding(crate::specs::Elements::placed_text))]
pub fn write_number<W: Write>(writer: &mut W, left: u64, top: u64, number: u64) -> io::Result<()>
    ensures { Writes W.contents writer.old writer.new result (placed_text left top (decimal number)) }
{
    write!(writer, "<text x='{left}' y='{top}'>{number}</text>")
}

/// Writes the front of a text that is moved from a place, to the right and down.
#[tactic(auto, unfolding(crate::specs::Elements::moved_front))]
pub fn open_text<W: Write>(
    writer: &mut W,
    left: u64,
    top: u64,
    right: u64,
    down: u64,
) -> io::Result<()>
    ensures { Writes W.contents writer.old writer.new result (moved_front left top right down) }
{
    write!(
        writer,
        "<text x='{left}' y='{top}' dx='{right}' dy='{down}'>"
    )
}

/// Writes the front of a text at a place.
#[tactic(auto, unfolding(crate::specs::Elements::placed_front))]
pub fn open_placed<W: Write>(writer: &mut W, left: u64, top: u64) -> io::Result<()>
    ensures { Writes W.contents writer.old writer.new result (placed_front left top) }
{
    write!(writer, "<text x='{left}' y='{top}'>")
}

/// Writes the end of a text.
pub fn close_text<W: Write>(writer: &mut W) -> io::Result<()>
    ensures { Writes W.contents writer.old writer.new result text_end }
{
    write!(writer, "</text>")
}

/// Writes the front of a group of a class, with its title.
#[tactic(auto, unfolding(crate::specs::Elements::group_front))]
pub fn open_group<W: Write>(writer: &mut W, class: &str, title: &str) -> io::Result<()>
    ensures { Writes W.contents writer.old writer.new result (group_front class.now title.now) }
{
    write!(writer, "<g class='{class}'><title>{title}</title>")
}

/// Writes the front of a group of a class, without a title.
#[tactic(auto, unfolding(crate::specs::Elements::plain_front))]
pub fn open_plain<W: Write>(writer: &mut W, class: &str) -> io::Result<()>
    ensures { Writes W.contents writer.old writer.new result (plain_front class.now) }
{
    write!(writer, "<g class='{class}'>")
}

/// Writes the end of a group, and a line feed.
pub fn close_group<W: Write>(writer: &mut W) -> io::Result<()>
    ensures { Writes W.contents writer.old writer.new result group_end }
{
    writeln!(writer, "</g>")
}

/// Writes the last line of a picture.
pub fn close_picture<W: Write>(writer: &mut W) -> io::Result<()>
    ensures { Writes W.contents writer.old writer.new result picture_end }
{
    writeln!(writer, "</svg>")
}
