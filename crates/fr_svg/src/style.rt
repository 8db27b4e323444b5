//! The parts of style sheets that several pictures have: the rule of texts, and the colours of nodes.
ghost use Rattle.std.specs.Prelude.{◌≡◌};
ghost use Rattle.fr_svg.specs.Styles.{colour_of, text_rule};
ghost use Rattle.fr_text.specs.Writing.{Writes};

use std::io;
use std::io::Write;

/// Writes the rule of all texts: their size, and the width of a white outline, in units of the picture.
#[tactic(auto, unfolding(crate::specs::Styles::text_rule))]
pub fn write_text_rule<W: Write>(writer: &mut W, size: u64, outline: u64) -> io::Result<()>
    ensures { Writes W.contents writer.old writer.new result (text_rule size outline) }
{
    write!(
        writer,
        "text{{font-family:sans-serif;font-size:{size}px;text-anchor:middle;fill:#000;"
    )?;
    writeln!(
        writer,
        "stroke:#fff;stroke-width:{outline}px;paint-order:stroke;stroke-linejoin:round}}"
    )
}

/// Returns the colour of a node from 0 to 7. Pictures mark nodes from 8 on in another way.
///
/// The colours are those of Okabe and Ito, which colour-blind people tell apart. Node 7 is wine red, since a number
/// can't be read on their eighth colour, black.
pub fn colour_of(node: u8) -> &'static str
    ensures { result.now ≡ colour_of node }
{
    match node {
        0 => "#e69f00",
        1 => "#56b4e9",
        2 => "#009e73",
        3 => "#f0e442",
        4 => "#0072b2",
        5 => "#d55e00",
        6 => "#cc79a7",
        _ => "#882255",
    }
}
