//! The extent of a record: its cycles, its columns, and those of them that are drawn.

ghost use Rattle.std.specs.Prelude.{◌≡◌, ◌≤◌, max, if◌then◌else◌};
ghost use Rattle.fr_bus.specs.Windows.{cycles_begun};
ghost use Rattle.fr_matrix.specs.Extents.{with_mark};
ghost use Rattle.fr_matrix.specs.Places.{columns_in, grid_of, has_row, has_sent, is_on, most_drawn, rows_in};

use crate::grid::{Grid, MOST_COLUMNS, columns_of};
use crate::view::View;
use fr_bus::outcome::{Sealed, Sent};
use fr_slots::channel::Channel;
use fr_slots::params::Params;
use fr_slots::window::opens_cycle;

/// The greatest number of cycles in a matrix.
pub const MOST_CYCLES: usize = 64;

/// The extent of a record.
#[derive(Clone, Copy)]
pub struct Extent {
    /// The number of cycles.
    pub cycles: usize,
    /// The number of windows of the cycle with the most, of those that have a row.
    pub most: usize,
    /// The number of rows.
    pub rows: usize,
    /// The columns.
    pub grid: Grid,
    /// The number of columns that are drawn.
    pub columns: usize,
}

/// Returns whether the cycle of the run has a row.
pub(crate) fn has_row(view: &View, cycle: usize) -> bool
    ensures { result ≡ has_row view.now cycle }
{
    let from = usize::from(view.from);
    from <= cycle && cycle - from < MOST_CYCLES
}

/// Returns the greater of two numbers.
fn greater(a: usize, b: usize) -> usize
    ensures { result ≡ max a b }
{
    a.max(b)
}

/// Returns the columns after a window of a cycle that has as many windows so far.
fn widened(view: &View, cycle: usize, windows: usize, columns: usize) -> usize
    ensures { result ≡ (if has_row view.now cycle then max columns windows else columns) }
{
    if has_row(view, cycle) {
        greater(columns, windows)
    } else {
        columns
    }
}

/// Returns whether the transmission was on the channel.
fn is_on(channel: Channel, sent: &Sent) -> bool
    ensures { result ≡ is_on channel sent.now }
{
    sent.channel == channel
}

/// Returns whether any of the transmissions was on the channel.
fn has_sent(channel: Channel, sent: &[Sent]) -> bool
    ensures { result ≡ has_sent channel sent.now }
{
    sent.iter().any(|t| is_on(channel, t))
}

/// Marks the column of a window as busy, if something was sent there on the channel and it has a row.
fn mark(busy: &mut [bool; MOST_COLUMNS], view: &View, cycle: usize, column: usize, sealed: &Sealed)
    ensures { busy.new ≡ with_mark view.now cycle column sealed.now busy.old }
{
    let first = usize::from(view.from_window);
    if has_row(view, cycle) && has_sent(view.channel, sealed.sent.as_slice()) {
        if first <= column && column - first < MOST_COLUMNS {
            busy[column - first] = true;
        }
    }
}

/// Returns the extent of a record (project-defined).
pub fn extent_of(params: &Params, view: &View, recorded: &[Sealed]) -> Extent
    ensures cycles { result.cycles ≡ cycles_begun recorded.now }
    ensures most { result.most ≡ most_drawn view.now recorded.now }
    ensures rows { result.rows ≡ rows_in view.now recorded.now }
    ensures grid { result.grid ≡ grid_of params.now view.now recorded.now }
    ensures columns { result.columns ≡ columns_in (grid_of params.now view.now recorded.now)
        (most_drawn view.now recorded.now) }
    ensures few { result.columns ≤ 377 }
{
    let mut cycles: usize = 0;
    let mut windows: usize = 0;
    let mut most: usize = 0;
    let mut busy = [false; MOST_COLUMNS];
    for sealed in recorded {
        if opens_cycle(&sealed.window) {
            windows = 0;
        }
        cycles = sealed.cycles_with(cycles);
        windows += 1;
        most = widened(view, cycles.saturating_sub(1), windows, most);
        mark(
            &mut busy,
            view,
            cycles.saturating_sub(1),
            windows - 1,
            sealed,
        );
    }
    let grid = Grid {
        static_slots: params.static_slots,
        first: view.from_window,
        busy,
    };
    Extent {
        cycles,
        most,
        rows: cycles
            .saturating_sub(usize::from(view.from))
            .min(MOST_CYCLES),
        grid,
        columns: columns_of(&grid, most),
    }
}
