//! The parts around the cells of a matrix: its style, the heading, and the numbers of its rows and columns.

ghost use Rattle.std.specs.Prelude.{◌≡◌, ◌≤◌, ◌<◌};
ghost use Rattle.std.specs.List.{flat_map, range_with_len};
ghost use Rattle.fr_matrix.specs.Pages.{broken_rule, column_numbers, column_text, columns_text, cycles_line};
ghost use Rattle.fr_matrix.specs.Pages.{dynamic_text, filled_rule, first_rules, headed_in, heading_text, height_of};
ghost use Rattle.fr_matrix.specs.Pages.{high_rule, last_rules, low_rule, more_text, more_windows, names_dynamic};
ghost use Rattle.fr_matrix.specs.Pages.{drawn_text, next_window};
ghost use Rattle.fr_matrix.specs.Pages.{no_windows, none_text, opening_text, page_end, page_front, paper_text};
ghost use Rattle.fr_matrix.specs.Pages.{range_text, row_numbers, row_text, rows_text, scope_text, style_text};
ghost use Rattle.fr_matrix.specs.Pages.{subject_text, title_line, width_of, windows_drawn, windows_line, windows_range};
ghost use Rattle.fr_matrix.specs.Pages.{windows_text};
ghost use Rattle.fr_text.specs.Writing.{Writes};

use crate::extent::Extent;
use crate::grid::{Grid, across, down};
use crate::key::write_key;
use crate::view::View;
use fr_svg::elements::{
    close_group, close_picture, close_text, open_group, open_picture, open_placed, open_plain,
    write_number, write_rect, write_text,
};
use fr_svg::style::{colour_of, write_text_rule};
use std::io;
use std::io::Write;

/// The rules in front of those for the nodes.
const RULES: &str = ".head text{font-size:14px;text-anchor:start}
.name text{text-anchor:end}
.legend text{font-size:11px;text-anchor:start}
.slot text{font-size:7px}
rect{stroke:#bbb;stroke-width:.5px}
.page rect{fill:#fff;stroke:none}
.silence rect,.broken rect{fill:#fff}
";

/// The rules after those for the nodes. A colour is pale where a frame has no data.
const LAST_RULES: &str = ".null rect{fill-opacity:.3}
.broken rect,.overrun rect{fill-opacity:.6;stroke:#d00;stroke-width:1.5px}
.collision rect{fill:#d00}
.blocked rect,.lost rect,.turned rect{stroke:#000;stroke-width:1.5px}
</style>
";

/// Writes the rules in front of those for the nodes.
#[tactic(auto, unfolding(crate::specs::Pages::first_rules))]
fn write_first_rules<W: Write>(writer: &mut W) -> io::Result<()>
    ensures { Writes W.contents writer.old writer.new result first_rules }
{
    writer.write_all(RULES.as_bytes())
}

/// Writes the rules after those for the nodes, and the end of the style.
#[tactic(auto, unfolding(crate::specs::Pages::last_rules))]
fn write_last_rules<W: Write>(writer: &mut W) -> io::Result<()>
    ensures { Writes W.contents writer.old writer.new result last_rules }
{
    writer.write_all(LAST_RULES.as_bytes())
}

/// Writes the rule of the cells of a sender.
#[tactic(auto, unfolding(crate::specs::Pages::filled_rule))]
fn write_filled<W: Write>(writer: &mut W, node: u8, colour: &str) -> io::Result<()>
    ensures { Writes W.contents writer.old writer.new result (filled_rule node colour.now) }
{
    writeln!(writer, ".n{node} rect{{fill:{colour}}}")
}

/// Writes the rule of the cells of a sender with broken lines around.
#[tactic(auto, unfolding(crate::specs::Pages::broken_rule))]
fn write_broken<W: Write>(writer: &mut W, node: u8, colour: &str) -> io::Result<()>
    ensures { Writes W.contents writer.old writer.new result (broken_rule node colour.now) }
{
    writeln!(
        writer,
        ".n{node} rect{{fill:{colour};stroke:#000;stroke-dasharray:2}}"
    )
}

/// Writes the rule of the cells whose sender is a node from 0 to 7.
#[tactic(auto, unfolding(crate::specs::Pages::low_rule))]
fn write_low<W: Write>(writer: &mut W, number: u8) -> io::Result<()>
    ensures { Writes W.contents writer.old writer.new result (low_rule number) }
{
    write_filled(writer, number, colour_of(number))
}

/// Writes the rule of the cells whose sender is a node from 8 on, with the colour of a node from 0 to 7.
#[tactic(auto, unfolding(crate::specs::Pages::high_rule))]
fn write_high<W: Write>(writer: &mut W, number: u8) -> io::Result<()>
    requires { number < 8 }
    ensures { Writes W.contents writer.old writer.new result (high_rule number) }
{
    write_broken(writer, number + 8, colour_of(number))
}

/// Writes the rules of the cells whose sender is a node below a number.
fn write_low_rules<W: Write>(writer: &mut W, nodes: u8) -> io::Result<()>
    ensures { Writes W.contents writer.old writer.new result (flat_map low_rule (range_with_len 0 nodes)) }
{
    for number in 0..nodes {
        write_low(writer, number)?;
    }
    Ok(())
}

/// Writes the rules of the cells whose sender is one of as many nodes from 8 on.
fn write_high_rules<W: Write>(writer: &mut W, nodes: u8) -> io::Result<()>
    requires { nodes ≤ 8 }
    ensures { Writes W.contents writer.old writer.new result (flat_map high_rule (range_with_len 0 nodes)) }
{
    for number in 0..nodes {
        write_high(writer, number)?;
    }
    Ok(())
}

/// Writes the style of all matrices.
#[tactic(auto, unfolding(crate::specs::Pages::style_text))]
fn write_style<W: Write>(writer: &mut W) -> io::Result<()>
    ensures { Writes W.contents writer.old writer.new result style_text }
{
    writeln!(writer, "<style>")?;
    write_text_rule(writer, 8, 2)?;
    write_first_rules(writer)?;
    write_low_rules(writer, 8)?;
    write_high_rules(writer, 8)?;
    write_last_rules(writer)
}

/// Writes the subject of the picture.
#[tactic(auto, unfolding(crate::specs::Pages::subject_text))]
fn write_subject<W: Write>(writer: &mut W, view: &View) -> io::Result<()>
    ensures { Writes W.contents writer.old writer.new result (subject_text view.now.channel view.now.node) }
{
    match view.node {
        Some(node) => write!(writer, "What node {node} saw on channel {}", view.channel),
        None => write!(writer, "What channel {} carried", view.channel),
    }
}

/// Writes the first and the last cycle that are drawn.
#[tactic(auto, unfolding(crate::specs::Pages::drawn_text))]
fn write_drawn<W: Write>(writer: &mut W, first: u16, last: u64, cycles: usize) -> io::Result<()>
    ensures { Writes W.contents writer.old writer.new result (drawn_text first last cycles) }
{
    write!(writer, ": cycles {first} to {last} of {cycles}")
}

/// Writes that no cycle is drawn.
#[tactic(auto, unfolding(crate::specs::Pages::none_text))]
fn write_none<W: Write>(writer: &mut W, cycles: usize) -> io::Result<()>
    ensures { Writes W.contents writer.old writer.new result (none_text cycles) }
{
    write!(writer, ": none of the {cycles} cycles")
}

/// Writes which cycles are drawn.
fn write_range<W: Write>(writer: &mut W, from: u16, cycles: usize, rows: usize) -> io::Result<()>
    requires { rows ≤ 64 }
    ensures { Writes W.contents writer.old writer.new result (range_text from cycles rows) }
{
    if rows == 0 {
        write_none(writer, cycles)
    } else {
        write_drawn(writer, from, u64::from(from) + rows as u64 - 1, cycles)
    }
}

/// Writes the option that shows the cycles after the drawn ones, if there are any.
#[tactic(auto, unfolding(crate::specs::Pages::more_text))]
fn write_more<W: Write>(writer: &mut W, from: u16, cycles: usize, rows: usize) -> io::Result<()>
    requires { rows ≤ 64 }
    ensures { Writes W.contents writer.old writer.new result (more_text from cycles rows) }
{
    let next = u64::from(from) + rows as u64;
    if next < cycles as u64 {
        write!(writer, "; --from {next} shows more")
    } else {
        Ok(())
    }
}

/// Writes which cycles are drawn, and the option that shows more.
#[tactic(auto, unfolding(crate::specs::Pages::scope_text))]
fn write_scope<W: Write>(writer: &mut W, from: u16, cycles: usize, rows: usize) -> io::Result<()>
    requires { rows ≤ 64 }
    ensures { Writes W.contents writer.old writer.new result (scope_text from cycles rows) }
{
    write_range(writer, from, cycles, rows)?;
    write_more(writer, from, cycles, rows)
}

/// Writes the first and the last window of a cycle that are drawn.
#[tactic(auto, unfolding(crate::specs::Pages::windows_drawn))]
fn write_windows_drawn<W: Write>(
    writer: &mut W,
    first: u16,
    last: u64,
    most: usize,
) -> io::Result<()>
    ensures { Writes W.contents writer.old writer.new result (windows_drawn first last most) }
{
    write!(writer, "Windows {first} to {last} of {most} in a cycle")
}

/// Writes that no window is drawn.
#[tactic(auto, unfolding(crate::specs::Pages::no_windows))]
fn write_no_windows<W: Write>(writer: &mut W, most: usize) -> io::Result<()>
    ensures { Writes W.contents writer.old writer.new result (no_windows most) }
{
    write!(writer, "None of the {most} windows in a cycle")
}

/// Writes which windows of a cycle are drawn.
fn write_windows_range<W: Write>(
    writer: &mut W,
    first: u16,
    most: usize,
    columns: usize,
) -> io::Result<()>
    requires { columns ≤ 377 }
    ensures { Writes W.contents writer.old writer.new result (windows_range first most columns) }
{
    if columns == 0 {
        write_no_windows(writer, most)
    } else {
        write_windows_drawn(writer, first, u64::from(first) + columns as u64 - 1, most)
    }
}

/// Writes the option that shows the windows from this one on.
#[tactic(auto, unfolding(crate::specs::Pages::next_window))]
fn write_next_window<W: Write>(writer: &mut W, next: u64) -> io::Result<()>
    ensures { Writes W.contents writer.old writer.new result (next_window next) }
{
    write!(writer, "; --from-window {next} shows more")
}

/// Writes the option that shows the windows after the drawn ones, if there are any.
fn write_more_windows<W: Write>(
    writer: &mut W,
    first: u16,
    most: usize,
    columns: usize,
) -> io::Result<()>
    requires { columns ≤ 377 }
    ensures { Writes W.contents writer.old writer.new result (more_windows first most columns) }
{
    let next = u64::from(first) + columns as u64;
    if next < most as u64 {
        write_next_window(writer, next)
    } else {
        Ok(())
    }
}

/// Writes which windows of a cycle are drawn, and the option that shows more.
#[tactic(auto, unfolding(crate::specs::Pages::windows_text))]
fn write_windows<W: Write>(
    writer: &mut W,
    first: u16,
    most: usize,
    columns: usize,
) -> io::Result<()>
    requires { columns ≤ 377 }
    ensures { Writes W.contents writer.old writer.new result (windows_text first most columns) }
{
    write_windows_range(writer, first, most, columns)?;
    write_more_windows(writer, first, most, columns)
}

/// Writes the first line of the heading: the subject, and which cycles are drawn.
#[tactic(auto, unfolding(crate::specs::Pages::cycles_line))]
fn write_cycles_line<W: Write>(
    writer: &mut W,
    view: &View,
    cycles: usize,
    rows: usize,
) -> io::Result<()>
    requires { rows ≤ 64 }
    ensures { Writes W.contents writer.old writer.new result (cycles_line view.now cycles rows) }
{
    open_placed(writer, 20, 30)?;
    write_subject(writer, view)?;
    write_scope(writer, view.from, cycles, rows)?;
    close_text(writer)
}

/// Writes the second line of the heading: which windows are drawn.
#[tactic(auto, unfolding(crate::specs::Pages::windows_line))]
fn write_windows_line<W: Write>(
    writer: &mut W,
    first: u16,
    most: usize,
    columns: usize,
) -> io::Result<()>
    requires { columns ≤ 377 }
    ensures { Writes W.contents writer.old writer.new result (windows_line first most columns) }
{
    open_placed(writer, 20, 50)?;
    write_windows(writer, first, most, columns)?;
    close_text(writer)
}

/// Writes the heading: the subject, and which cycles and windows are drawn.
#[tactic(auto, unfolding(crate::specs::Pages::heading_text))]
fn write_heading<W: Write>(writer: &mut W, view: &View, extent: &Extent) -> io::Result<()>
    requires rows { extent.now.rows ≤ 64 }
    requires columns { extent.now.columns ≤ 377 }
    ensures { Writes W.contents writer.old writer.new result
        (heading_text view.now extent.now.cycles extent.now.rows extent.now.most extent.now.columns) }
{
    open_plain(writer, "head")?;
    write_cycles_line(writer, view, extent.cycles, extent.rows)?;
    write_windows_line(writer, view.from_window, extent.most, extent.columns)?;
    close_group(writer)
}

/// Returns the width of a matrix with as many columns.
fn width_of(grid: &Grid, columns: usize) -> u64
    requires { columns ≤ 377 }
    ensures width { result ≡ width_of grid.now columns }
    ensures small { result ≤ 10000 }
{
    across(grid, columns).max(840) + 20
}

/// Returns the height of a matrix with as many rows.
fn height_of(rows: usize) -> u64
    requires { rows ≤ 64 }
    ensures { result ≡ height_of rows }
{
    down(rows) + 150
}

/// Writes the title of the picture.
fn write_title<W: Write>(writer: &mut W, view: &View) -> io::Result<()>
    ensures { Writes W.contents writer.old writer.new result (title_line view.now.channel view.now.node) }
{
    write!(writer, "<title>")?;
    write_subject(writer, view)?;
    writer.write_all(b"</title>\n")
}

/// Writes a white page.
fn write_paper<W: Write>(writer: &mut W, width: u64, height: u64) -> io::Result<()>
    ensures { Writes W.contents writer.old writer.new result (paper_text width height) }
{
    open_plain(writer, "page")?;
    write_rect(writer, 0, 0, width, height)?;
    close_group(writer)
}

/// Writes the part before the heading.
fn write_opening<W: Write>(writer: &mut W, view: &View, width: u64, height: u64) -> io::Result<()>
    ensures { Writes W.contents writer.old writer.new result
        (opening_text view.now.channel view.now.node width height) }
{
    open_picture(writer, width, height, width, height)?;
    write_title(writer, view)?;
    write_style(writer)?;
    write_paper(writer, width, height)
}

/// Writes the number of the static slot over its column.
#[tactic(auto, unfolding(crate::specs::Pages::column_text))]
fn write_column<W: Write>(writer: &mut W, grid: &Grid, place: usize) -> io::Result<()>
    requires { place < 377 }
    ensures { Writes W.contents writer.old writer.new result (column_text grid.now place) }
{
    let slot = u64::from(grid.first) + place as u64 + 1;
    write_number(writer, across(grid, place) + 10, 80, slot)
}

/// Writes the numbers of as many static slots.
#[tactic(auto, unfolding(crate::specs::Pages::column_numbers))]
fn write_column_numbers<W: Write>(writer: &mut W, grid: &Grid, headed: usize) -> io::Result<()>
    requires { headed ≤ 377 }
    ensures { Writes W.contents writer.old writer.new result (column_numbers grid.now headed) }
{
    for place in 0..headed {
        write_column(writer, grid, place)?;
    }
    Ok(())
}

/// Writes the numbers of the static slots above their columns.
#[tactic(auto, unfolding(crate::specs::Pages::columns_text))]
fn write_columns<W: Write>(writer: &mut W, grid: &Grid, headed: usize) -> io::Result<()>
    requires { headed ≤ 377 }
    ensures { Writes W.contents writer.old writer.new result (columns_text grid.now headed) }
{
    open_group(writer, "axis", "static slots")?;
    write_column_numbers(writer, grid, headed)?;
    close_group(writer)
}

/// Returns whether there are columns after those of the static slots, and room for a heading over them.
fn names_dynamic(grid: &Grid, headed: usize, columns: usize) -> bool
    requires headed { headed ≤ 377 }
    requires columns { columns ≤ 377 }
    ensures { result ≡ names_dynamic grid.now headed columns }
{
    headed < columns && across(grid, headed) + 100 <= width_of(grid, columns)
}

/// Writes the heading over the columns of the dynamic segment, if there are any, and room for it.
#[tactic(auto, unfolding(crate::specs::Pages::dynamic_text))]
fn write_dynamic<W: Write>(
    writer: &mut W,
    grid: &Grid,
    headed: usize,
    columns: usize,
) -> io::Result<()>
    requires headed { headed ≤ 377 }
    requires columns { columns ≤ 377 }
    ensures { Writes W.contents writer.old writer.new result (dynamic_text grid.now headed columns) }
{
    if !names_dynamic(grid, headed, columns) {
        return Ok(());
    }
    open_group(writer, "legend", "dynamic windows")?;
    write_text(writer, across(grid, headed), 80, "dynamic segment")?;
    close_group(writer)
}

/// Writes the number of the cycle of the run before its row.
#[tactic(auto, unfolding(crate::specs::Pages::row_text))]
fn write_row<W: Write>(writer: &mut W, from: u16, row: usize) -> io::Result<()>
    requires { row < 64 }
    ensures { Writes W.contents writer.old writer.new result (row_text from row) }
{
    write_number(writer, 60, down(row) + 17, u64::from(from) + row as u64)
}

/// Writes the numbers of as many rows.
#[tactic(auto, unfolding(crate::specs::Pages::row_numbers))]
fn write_row_numbers<W: Write>(writer: &mut W, from: u16, rows: usize) -> io::Result<()>
    requires { rows ≤ 64 }
    ensures { Writes W.contents writer.old writer.new result (row_numbers from rows) }
{
    for row in 0..rows {
        write_row(writer, from, row)?;
    }
    Ok(())
}

/// Writes the numbers of the cycles of the run that are drawn.
fn write_rows<W: Write>(writer: &mut W, from: u16, rows: usize) -> io::Result<()>
    requires { rows ≤ 64 }
    ensures { Writes W.contents writer.old writer.new result (rows_text from rows) }
{
    open_group(writer, "name", "cycles of the run")?;
    write_row_numbers(writer, from, rows)?;
    close_group(writer)
}

/// Returns the number of columns of static slots.
fn headed_in(grid: &Grid, columns: usize) -> usize
    ensures { result ≡ headed_in grid.now columns }
{
    columns.min(usize::from(grid.static_slots).saturating_sub(usize::from(grid.first)))
}

/// Writes the part before the cells.
#[tactic(auto, unfolding(crate::specs::Pages::page_front))]
pub(crate) fn write_front<W: Write>(writer: &mut W, view: &View, extent: &Extent) -> io::Result<()>
    requires rows { extent.now.rows ≤ 64 }
    requires columns { extent.now.columns ≤ 377 }
    ensures { Writes W.contents writer.old writer.new result
        (page_front view.now extent.now.grid extent.now.cycles extent.now.rows extent.now.most
        extent.now.columns) }
{
    let (grid, rows, columns) = (&extent.grid, extent.rows, extent.columns);
    let headed = headed_in(grid, columns);
    write_opening(writer, view, width_of(grid, columns), height_of(rows))?;
    write_heading(writer, view, extent)?;
    write_columns(writer, grid, headed)?;
    write_dynamic(writer, grid, headed, columns)?;
    write_rows(writer, view.from, rows)
}

/// Writes the part after the cells.
#[tactic(auto, unfolding(crate::specs::Pages::page_end))]
pub(crate) fn write_end<W: Write>(writer: &mut W, rows: usize) -> io::Result<()>
    requires { rows ≤ 64 }
    ensures { Writes W.contents writer.old writer.new result (page_end rows) }
{
    write_key(writer, down(rows) + 14)?;
    close_picture(writer)
}
