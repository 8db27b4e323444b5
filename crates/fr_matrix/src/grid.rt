//! The columns of a matrix: which of them are narrow, and where they are.

ghost use Rattle.std.specs.Prelude.{◌≡◌, ◌≤◌, ◌<◌, ◌+◌, ◌*◌};
ghost use Rattle.fr_matrix.specs.Places.{across, columns_in, down, is_headed, is_wide, step};

/// The greatest number of columns in a matrix, all of them narrow.
pub const MOST_COLUMNS: usize = 377;

/// The greatest distance of the end of a column from the left.
const LAST_END: u64 = 1580;

/// The columns from the first drawn one on (project-defined).
///
/// The place of a column is the number of these before it.
#[derive(Clone, Copy)]
pub struct Grid {
    /// The number of static slots. Their columns are the first ones of a cycle.
    pub static_slots: u16,
    /// The first column that is drawn, counted from 0.
    pub first: u16,
    /// For each place whether something was sent in its column, in one of the rows.
    pub busy: [bool; MOST_COLUMNS],
}

/// Returns whether the column is that of a static slot, whose number stands above it.
pub(crate) fn is_headed(grid: &Grid, place: usize) -> bool
    requires { place < 377 }
    ensures { result ≡ is_headed grid.now place }
{
    usize::from(grid.first) + place < usize::from(grid.static_slots)
}

/// Returns whether the column isn't narrow.
pub(crate) fn is_wide(grid: &Grid, place: usize) -> bool
    requires { place < 377 }
    ensures { result ≡ is_wide grid.now place }
{
    is_headed(grid, place) || grid.busy[place]
}

/// Returns the distance from the column to the next one.
fn step(grid: &Grid, place: usize) -> u64
    requires { place < 377 }
    ensures step { result ≡ step grid.now place }
    ensures small { result ≤ 22 }
{
    if is_wide(grid, place) { 22 } else { 4 }
}

/// Returns the distance of the column from the left.
pub(crate) fn across(grid: &Grid, places: usize) -> u64
    requires { places ≤ 377 }
    ensures across { result ≡ across grid.now places }
    ensures small { result ≤ 70 + 22 * places }
{
    let mut left = 70;
    for place in 0..places {
        left += step(grid, place);
    }
    left
}

/// Returns the number of columns that are drawn, if the longest cycle has as many windows.
pub(crate) fn columns_of(grid: &Grid, most: usize) -> usize
    ensures columns { result ≡ columns_in grid.now most }
    ensures few { result ≤ 377 }
{
    let places = most
        .saturating_sub(usize::from(grid.first))
        .min(MOST_COLUMNS);
    let mut left = 70;
    let mut columns = 0;
    for place in 0..places {
        left += step(grid, place);
        if left <= LAST_END {
            columns += 1;
        }
    }
    columns
}

/// Returns the distance of a row from the top.
pub(crate) fn down(row: usize) -> u64
    requires { row ≤ 64 }
    ensures { result ≡ down row }
{
    90 + 30 * (row as u64)
}
