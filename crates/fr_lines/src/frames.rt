//! The parts of a line that shows a frame (project-defined).
ghost use Rattle.std.specs.Prelude.{◌≡◌};
ghost use Rattle.fr_text.specs.Writing.{Writes};
ghost use Rattle.fr_lines.specs.Parts.{indicators, mark};

use fr_frame::lent::LentFrame;
use std::io;
use std::io::Write;

/// Returns the letter of an indicator that is set, and a dash for one that isn't.
fn mark(letter: &'static str, is_so: bool) -> &'static str
    ensures { result.now ≡ mark letter.entry.now is_so }
{
    if is_so { letter } else { "-" }
}

/// Writes the letters of a frame's indicators (project-defined).
///
/// They are in this order: `p` for the payload preamble, `n` for a null frame, `s` for a sync frame, `u` for a startup
/// frame. A dash replaces the letter of an indicator that isn't set.
#[tactic(auto, unfolding(crate::specs::Parts::indicators))]
pub fn write_indicators<W: Write>(writer: &mut W, frame: &LentFrame<'_>) -> io::Result<()>
    ensures { Writes W.contents writer.old writer.new result (indicators frame.now) }
{
    let (preamble, null) = (mark("p", frame.preamble), mark("n", !frame.has_data));
    let (sync, startup) = (mark("s", frame.sync), mark("u", frame.startup));
    write!(writer, "{preamble}{null}{sync}{startup}")
}
