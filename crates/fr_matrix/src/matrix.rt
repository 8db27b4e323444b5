//! The matrix of a run.

ghost use Rattle.std.specs.Prelude.{◌≡◌, IfOk};
ghost use Rattle.fr_matrix.specs.Cells.{IsMatrix, matrix_text};
ghost use Rattle.fr_text.specs.Writing.{Writes};

use crate::cells::write_cells;
use crate::extent::extent_of;
use crate::page::{write_end, write_front};
use crate::view::View;
use fr_bus::outcome::Sealed;
use fr_slots::params::Params;
use std::alloc::{AllocError, Global};
use std::io;
use std::io::Write;

/// Writes the matrix of a run with this record.
fn write_matrix<W: Write>(
    writer: &mut W,
    params: &Params,
    view: &View,
    recorded: &[Sealed],
) -> io::Result<()>
    ensures { Writes W.contents writer.old writer.new result (matrix_text params.now view.now recorded.now) }
{
    let extent = extent_of(params, view, recorded);
    write_front(writer, view, &extent)?;
    write_cells(writer, params, view, &extent, recorded)?;
    write_end(writer, extent.rows)
}

/// Returns the communication matrix of a run with this record: an SVG text (project-defined).
///
/// It has a row for each cycle of the run from `view.from` on, up to 64, and a column for each window of the cycle from
/// `view.from_window` on, as far as they fit in a width of 1,600. Static slots come first, then the windows of the
/// dynamic segment in their order. A dynamic column is narrow if nothing was sent there on the channel in any row. A
/// cell is left out if the channel has no slot there. Fails if an allocation fails.
pub fn matrix_of(
    alloc: Global,
    params: &Params,
    recorded: &[Sealed],
    view: &View,
) -> Result<Vec<u8>, AllocError>
    ensures { IfOk result (λ text. IsMatrix params.now view.now recorded.now text.items) }
{
    let mut text = Vec::new(alloc);
    match write_matrix(&mut text, params, view, recorded) {
        Ok(()) => Ok(text),
        // A list of bytes takes no more only if an allocation fails.
        Err(_) => Err(AllocError),
    }
}
