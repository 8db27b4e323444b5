//! The cells of a record.

ghost use Rattle.std.specs.Prelude.{◌≡◌, ◌≤◌, ◌<◌, IsTrue};
ghost use Rattle.fr_slots.specs.Windows.{slot_of};
ghost use Rattle.fr_text.specs.Writing.{Writes};
ghost use Rattle.fr_matrix.specs.Cells.{cell_at, cell_of, cells_text, shape_at, slot_cell};
ghost use Rattle.fr_matrix.specs.Places.{is_drawn};

use crate::cell::{Cell, Shape, write_cell};
use crate::extent::{Extent, has_row};
use crate::grid::{Grid, across, down, is_headed, is_wide};
use crate::look::{look_in, marks_in, sender_in, turned_bit};
use crate::view::View;
use fr_bus::outcome::Sealed;
use fr_slots::numbers::SlotId;
use fr_slots::params::Params;
use fr_slots::window::opens_cycle;
use std::io;
use std::io::Write;

/// Returns whether a window of this cycle of the run and of this column is drawn, if as many columns are.
fn is_drawn(view: &View, columns: usize, cycle: usize, column: usize) -> bool
    ensures { result ≡ is_drawn view.now columns cycle column }
{
    let first = usize::from(view.from_window);
    has_row(view, cycle) && first <= column && column - first < columns
}

/// Returns the shape of the cells of a column.
fn shape_at(grid: &Grid, place: usize) -> Shape
    requires { place < 377 }
    ensures { result ≡ shape_at grid.now place }
{
    if is_headed(grid, place) {
        Shape::Headed
    } else if is_wide(grid, place) {
        Shape::Numbered
    } else {
        Shape::Narrow
    }
}

/// Returns the cell of a window in which the channel has this slot.
fn cell_of(
    params: &Params,
    view: &View,
    extent: &Extent,
    cycle: usize,
    column: usize,
    slot: SlotId,
    sealed: &Sealed,
) -> Cell
    requires drawn { IsTrue (is_drawn view.now extent.now.columns cycle column) }
    requires columns { extent.now.columns ≤ 377 }
    ensures { result ≡ cell_of params.now view.now extent.now.grid cycle column slot sealed.now }
{
    let place = column - usize::from(view.from_window);
    Cell {
        left: across(&extent.grid, place),
        top: down(cycle - usize::from(view.from)),
        shape: shape_at(&extent.grid, place),
        cycle,
        slot,
        number: sealed.window.number,
        look: look_in(params, view, sealed),
        sender: sender_in(view.channel, sealed.sent.as_slice()),
        marks: marks_in(params, view.channel, sealed),
    }
}

/// Writes the cell of a window that is drawn, if the channel has a slot there.
fn write_slot_cell<W: Write>(
    writer: &mut W,
    params: &Params,
    view: &View,
    extent: &Extent,
    cycle: usize,
    column: usize,
    sealed: &Sealed,
) -> io::Result<()>
    requires drawn { IsTrue (is_drawn view.now extent.now.columns cycle column) }
    requires columns { extent.now.columns ≤ 377 }
    ensures { Writes W.contents writer.old writer.new result
        (slot_cell params.now view.now extent.now.grid cycle column sealed.now
        (slot_of sealed.now.window view.now.channel)) }
{
    match sealed.window.slot(view.channel) {
        Some(slot) => {
            let cell = cell_of(params, view, extent, cycle, column, slot, sealed);
            let turned = turned_bit(params, view.channel, sealed);
            write_cell(writer, &cell, view.channel, sealed.sent.as_slice(), turned)
        }
        None => Ok(()),
    }
}

/// Writes the cell of a window, if it is drawn.
fn write_at<W: Write>(
    writer: &mut W,
    params: &Params,
    view: &View,
    extent: &Extent,
    cycle: usize,
    column: usize,
    sealed: &Sealed,
) -> io::Result<()>
    requires { extent.now.columns ≤ 377 }
    ensures { Writes W.contents writer.old writer.new result
        (cell_at params.now view.now extent.now.grid extent.now.columns cycle column sealed.now) }
{
    if is_drawn(view, extent.columns, cycle, column) {
        write_slot_cell(writer, params, view, extent, cycle, column, sealed)
    } else {
        Ok(())
    }
}

/// Writes the cells of the record in these columns, in the order of its windows.
pub(crate) fn write_cells<W: Write>(
    writer: &mut W,
    params: &Params,
    view: &View,
    extent: &Extent,
    recorded: &[Sealed],
) -> io::Result<()>
    requires { extent.now.columns ≤ 377 }
    ensures { Writes W.contents writer.old writer.new result
        (cells_text params.now view.now extent.now.grid extent.now.columns recorded.now) }
{
    let mut cycles: usize = 0;
    let mut windows: usize = 0;
    for sealed in recorded {
        if opens_cycle(&sealed.window) {
            windows = 0;
        }
        cycles = sealed.cycles_with(cycles);
        windows += 1;
        write_at(
            writer,
            params,
            view,
            extent,
            cycles.saturating_sub(1),
            windows - 1,
            sealed,
        )?;
    }
    Ok(())
}
