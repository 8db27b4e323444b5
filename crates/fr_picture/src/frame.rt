//! The front of a picture: its style, the segments of the cycle, and the names of the rows.

ghost use Rattle.std.specs.Prelude.{◌≡◌, ℕ, ◌+◌, ◌*◌, ◌<◌, ◌≤◌, ◌^◌, ◌∷◌, [], nat_le};
ghost use Rattle.std.specs.List.{flat_map, range_with_len};
ghost use Rattle.fr_picture.specs.Frames.{axis_number, axis_numbers, axis_step, axis_text, filled_rule};
ghost use Rattle.fr_picture.specs.Frames.{first_rules, front_text, gap_of, gap_rule, has_room, head_front};
ghost use Rattle.fr_picture.specs.Frames.{head_text, head_words, heading_text, height_of, high_rule, label_text};
ghost use Rattle.fr_picture.specs.Frames.{last_rules, low_rule, middle_of, name_text, names_text, nodes_word};
ghost use Rattle.fr_picture.specs.Frames.{opening_text, paper_front, paper_text, segment_box, segment_front};
ghost use Rattle.fr_picture.specs.Frames.{segment_text, segments_text, starts_of, stripe_colour, stripe_front};
ghost use Rattle.fr_picture.specs.Frames.{stripe_lines, stripe_text, striped_rule, stripes_text, style_text};
ghost use Rattle.fr_picture.specs.Frames.{tick_end, tick_front, tick_text, ticks_text, title_line};
ghost use Rattle.fr_picture.specs.Places.{across};
ghost use Rattle.fr_text.specs.Writing.{Writes};

use crate::scale::{LEFT, across, extent, row_of};
use fr_schedule::cluster::Cluster;
use fr_slots::channel::Channel;
use fr_slots::numbers::Cycle;
use fr_slots::params::Params;
use fr_svg::elements::{
    close_group, close_text, open_group, open_picture, open_placed, write_number, write_rect,
    write_text,
};
use fr_svg::style::{colour_of, write_text_rule};
use fr_timing::segments::segments_of;
use std::io;
use std::io::Write;

/// The distance of the first row of the guardians from the top.
pub(crate) const GUARDS_TOP: u64 = 2300;

/// The distance from one row of the guardians to the next.
pub(crate) const GUARD_PITCH: u64 = 180;

/// The rules in front of those for the nodes.
const RULES: &str = ".name text{text-anchor:end}
.head text{font-size:170px;text-anchor:start}
rect{stroke:#fff}
.page rect,.stripe{stroke:none}
.page rect{fill:#fff}
.free rect{fill:#eee}
.static rect{fill:#d9d9d9}
.dynamic rect{fill:#ececec}
.symbol rect{fill:#c4c4c4}
.idle rect{fill:#f6f6f6;stroke:#bbb}
";

/// The rules after those for the nodes.
const LAST_RULES: &str = ".never rect{fill-opacity:.25;stroke:#000;stroke-dasharray:40}
.axis text{font-size:90px}
.range rect{stroke:none}
</style>
";

/// The white stripes of a filling.
const STRIPES: &str =
    "<path class='stripe' fill='#fff' d='M0 60L60 0H30L0 30zM60 60V30L30 60z'/></pattern>
";

/// Writes the rules in front of those for the nodes.
#[tactic(auto, unfolding(crate::specs::Frames::first_rules))]
fn write_first_rules<W: Write>(writer: &mut W) -> io::Result<()>
    ensures { Writes W.contents writer.old writer.new result first_rules }
{
    writer.write_all(RULES.as_bytes())
}

/// Writes the rules after those for the nodes, and the end of the style.
#[tactic(auto, unfolding(crate::specs::Frames::last_rules))]
fn write_last_rules<W: Write>(writer: &mut W) -> io::Result<()>
    ensures { Writes W.contents writer.old writer.new result last_rules }
{
    writer.write_all(LAST_RULES.as_bytes())
}

/// Writes the rule of the boxes of a node, and of the stripes of a number.
#[tactic(auto, unfolding(crate::specs::Frames::filled_rule))]
fn write_filled<W: Write>(writer: &mut W, number: u8, colour: &str) -> io::Result<()>
    ensures { Writes W.contents writer.old writer.new result (filled_rule number colour.now) }
{
    writeln!(writer, ".n{number} rect,.s{number}{{fill:{colour}}}")
}

/// Writes the rule of the boxes of a node with stripes.
#[tactic(auto, unfolding(crate::specs::Frames::striped_rule))]
fn write_striped<W: Write>(writer: &mut W, node: u8, number: u8) -> io::Result<()>
    ensures { Writes W.contents writer.old writer.new result (striped_rule node number) }
{
    writeln!(writer, ".n{node} rect{{fill:url(#p{number})}}")
}

/// Writes the rule of the boxes of a node from 0 to 7.
#[tactic(auto, unfolding(crate::specs::Frames::low_rule))]
fn write_low<W: Write>(writer: &mut W, number: u8) -> io::Result<()>
    ensures { Writes W.contents writer.old writer.new result (low_rule number) }
{
    write_filled(writer, number, colour_of(number))
}

/// Writes the rule of the boxes of a node from 8 on, with the stripes of a number.
#[tactic(auto, unfolding(crate::specs::Frames::high_rule))]
fn write_high<W: Write>(writer: &mut W, number: u8) -> io::Result<()>
    requires { number < 8 }
    ensures { Writes W.contents writer.old writer.new result (high_rule number) }
{
    write_striped(writer, number + 8, number)
}

/// Writes the rules of the boxes of the nodes below a number.
fn write_low_rules<W: Write>(writer: &mut W, nodes: u8) -> io::Result<()>
    ensures { Writes W.contents writer.old writer.new result (flat_map low_rule (range_with_len 0 nodes)) }
{
    for number in 0..nodes {
        write_low(writer, number)?;
    }
    Ok(())
}

/// Writes the rules of the boxes of as many nodes from 8 on.
fn write_high_rules<W: Write>(writer: &mut W, nodes: u8) -> io::Result<()>
    requires { nodes ≤ 8 }
    ensures { Writes W.contents writer.old writer.new result (flat_map high_rule (range_with_len 0 nodes)) }
{
    for number in 0..nodes {
        write_high(writer, number)?;
    }
    Ok(())
}

/// Writes the style of all pictures.
#[tactic(auto, unfolding(crate::specs::Frames::style_text))]
fn write_style<W: Write>(writer: &mut W) -> io::Result<()>
    ensures { Writes W.contents writer.old writer.new result style_text }
{
    writeln!(writer, "<style>")?;
    write_text_rule(writer, 110, 24)?;
    write_first_rules(writer)?;
    write_low_rules(writer, 8)?;
    write_high_rules(writer, 8)?;
    write_last_rules(writer)
}

/// Writes the front of the stripes of a number.
#[tactic(auto, unfolding(crate::specs::Frames::stripe_front))]
fn write_stripe_front<W: Write>(writer: &mut W, number: u8) -> io::Result<()>
    ensures { Writes W.contents writer.old writer.new result (stripe_front number) }
{
    write!(
        writer,
        "<pattern id='p{number}' width='60' height='60' patternUnits='userSpaceOnUse'>"
    )
}

/// Writes the ground of the stripes of a number.
#[tactic(auto, unfolding(crate::specs::Frames::stripe_colour))]
fn write_stripe_colour<W: Write>(writer: &mut W, number: u8) -> io::Result<()>
    ensures { Writes W.contents writer.old writer.new result (stripe_colour number) }
{
    write!(writer, "<path class='s{number}' d='M0 0h60v60h-60z'/>")
}

/// Writes the white stripes.
#[tactic(auto, unfolding(crate::specs::Frames::stripe_lines))]
fn write_stripe_lines<W: Write>(writer: &mut W) -> io::Result<()>
    ensures { Writes W.contents writer.old writer.new result stripe_lines }
{
    writer.write_all(STRIPES.as_bytes())
}

/// Writes the stripes of a number.
#[tactic(auto, unfolding(crate::specs::Frames::stripe_text))]
fn write_stripe<W: Write>(writer: &mut W, number: u8) -> io::Result<()>
    ensures { Writes W.contents writer.old writer.new result (stripe_text number) }
{
    write_stripe_front(writer, number)?;
    write_stripe_colour(writer, number)?;
    write_stripe_lines(writer)
}

/// Writes the stripes of the numbers below one.
fn write_all_stripes<W: Write>(writer: &mut W, numbers: u8) -> io::Result<()>
    ensures { Writes W.contents writer.old writer.new result (flat_map stripe_text (range_with_len 0 numbers)) }
{
    for number in 0..numbers {
        write_stripe(writer, number)?;
    }
    Ok(())
}

/// Writes the striped fillings.
#[tactic(auto, unfolding(crate::specs::Frames::stripes_text))]
fn write_stripes<W: Write>(writer: &mut W) -> io::Result<()>
    ensures { Writes W.contents writer.old writer.new result stripes_text }
{
    writer.write_all(b"<defs>\n")?;
    write_all_stripes(writer, 8)?;
    writer.write_all(b"</defs>\n")
}

/// Returns the gap between boxes, which is smaller if static slots are short, so that they can be seen.
#[tactic(auto, unfolding(crate::specs::Frames::gap_of))]
fn gap_of(params: &Params) -> u64
    ensures { result ≡ gap_of params.now }
{
    (extent(params, 0, u32::from(params.static_mt)) / 12).min(6)
}

/// Writes the rule of the gap between boxes.
#[tactic(auto, unfolding(crate::specs::Frames::gap_rule))]
fn write_gap<W: Write>(writer: &mut W, gap: u64) -> io::Result<()>
    ensures { Writes W.contents writer.old writer.new result (gap_rule gap) }
{
    writeln!(writer, "<style>rect{{stroke-width:{gap}px}}</style>")
}

/// Writes the title of a picture.
#[tactic(auto, unfolding(crate::specs::Frames::title_line))]
fn write_title<W: Write>(writer: &mut W, cycle: Cycle) -> io::Result<()>
    ensures { Writes W.contents writer.old writer.new result (title_line cycle) }
{
    writeln!(writer, "<title>Schedule of cycle {cycle}</title>")
}

/// Writes the front of the page, with the title of the picture.
#[tactic(auto, unfolding(crate::specs::Frames::paper_front))]
fn write_paper_front<W: Write>(writer: &mut W, cycle: Cycle) -> io::Result<()>
    ensures { Writes W.contents writer.old writer.new result (paper_front cycle) }
{
    write!(
        writer,
        "<g class='page'><title>Schedule of cycle {cycle}</title>"
    )
}

/// Writes a white page.
#[tactic(auto, unfolding(crate::specs::Frames::paper_text))]
fn write_paper<W: Write>(writer: &mut W, cycle: Cycle, height: u64) -> io::Result<()>
    ensures { Writes W.contents writer.old writer.new result (paper_text cycle height) }
{
    write_paper_front(writer, cycle)?;
    write_rect(writer, 0, 0, 11600, height)?;
    close_group(writer)
}

/// Writes the front of the heading.
#[tactic(auto, unfolding(crate::specs::Frames::head_front))]
fn write_head_front<W: Write>(writer: &mut W, cycle: Cycle) -> io::Result<()>
    ensures { Writes W.contents writer.old writer.new result (head_front cycle) }
{
    write!(writer, "<g class='head'><title>cycle {cycle}</title>")
}

/// Returns the word for as many nodes.
fn nodes_word(nodes: u8) -> &'static str
    ensures { result.now ≡ nodes_word nodes }
{
    if nodes == 1 { "node" } else { "nodes" }
}

/// Writes the words of the heading.
#[tactic(auto, unfolding(crate::specs::Frames::head_words))]
fn write_head_words<W: Write>(
    writer: &mut W,
    cycle: Cycle,
    macroticks: u16,
    nodes: u8,
    word: &str,
) -> io::Result<()>
    ensures { Writes W.contents writer.old writer.new result (head_words cycle macroticks nodes word.now) }
{
    write!(
        writer,
        "Cycle {cycle}, {macroticks} macroticks, {nodes} {word}"
    )
}

/// Writes the heading.
#[tactic(auto, unfolding(crate::specs::Frames::heading_text))]
fn write_heading<W: Write>(
    writer: &mut W,
    cycle: Cycle,
    macroticks: u16,
    nodes: u8,
) -> io::Result<()>
    ensures { Writes W.contents writer.old writer.new result (heading_text cycle macroticks nodes) }
{
    write_head_front(writer, cycle)?;
    open_placed(writer, LEFT, 260)?;
    write_head_words(writer, cycle, macroticks, nodes, nodes_word(nodes))?;
    close_text(writer)?;
    close_group(writer)
}

/// Returns the height of a picture of as many nodes.
fn height_of(nodes: u8) -> u64
    ensures { result ≡ height_of nodes }
{
    GUARDS_TOP + 2 * GUARD_PITCH * u64::from(nodes) + 160
}

/// Writes the part before the page: the size, the title and the style.
#[tactic(auto, unfolding(crate::specs::Frames::opening_text))]
fn write_opening<W: Write>(
    writer: &mut W,
    params: &Params,
    cycle: Cycle,
    height: u64,
) -> io::Result<()>
    ensures { Writes W.contents writer.old writer.new result (opening_text params.now cycle height) }
{
    open_picture(writer, 1160, height / 10, 11600, height)?;
    write_title(writer, cycle)?;
    write_style(writer)?;
    write_gap(writer, gap_of(params))?;
    write_stripes(writer)
}

/// Writes the size, the title, the style and the heading.
#[tactic(auto, unfolding(crate::specs::Frames::head_text))]
fn write_head<W: Write>(writer: &mut W, params: &Params, cycle: Cycle, nodes: u8) -> io::Result<()>
    ensures { Writes W.contents writer.old writer.new result (head_text params.now cycle nodes) }
{
    write_opening(writer, params, cycle, height_of(nodes))?;
    write_paper(writer, cycle, height_of(nodes))?;
    write_heading(writer, cycle, params.cycle_mt, nodes)
}

/// Writes the front of the element of a segment.
#[tactic(auto, unfolding(crate::specs::Frames::segment_front))]
fn write_segment_front<W: Write>(
    writer: &mut W,
    class: &str,
    name: &str,
    start: u32,
    end: u32,
) -> io::Result<()>
    ensures { Writes W.contents writer.old writer.new result (segment_front class.now name.now start end) }
{
    write!(
        writer,
        "<g class='{class}'><title>{name}: macroticks {start} to {end}</title>"
    )
}

/// Writes the name of a segment, if its box has room for it.
#[tactic(auto, unfolding(crate::specs::Frames::label_text))]
fn write_label<W: Write>(writer: &mut W, left: u64, room: u64, name: &str) -> io::Result<()>
    requires left { left < 2 ^ 60 }
    requires room { room < 2 ^ 60 }
    ensures { Writes W.contents writer.old writer.new result (label_text left room name.now) }
{
    // A letter takes about 65.
    if room / 65 < name.len() as u64 {
        Ok(())
    } else {
        write_text(writer, left + room / 2, 790, name)
    }
}

/// Writes the box of a segment with its name.
#[tactic(auto, unfolding(crate::specs::Frames::segment_box))]
fn write_segment_box<W: Write>(writer: &mut W, left: u64, room: u64, name: &str) -> io::Result<()>
    requires left { left < 2 ^ 60 }
    requires room { room < 2 ^ 60 }
    ensures { Writes W.contents writer.old writer.new result (segment_box left room name.now) }
{
    write_rect(writer, left, 620, room, 260)?;
    write_label(writer, left, room, name)
}

/// Writes a segment of the cycle with its name, if it has any macroticks.
#[tactic(auto, unfolding(crate::specs::Frames::segment_text))]
fn write_segment<W: Write>(
    writer: &mut W,
    params: &Params,
    class: &str,
    name: &str,
    start: u32,
    end: u32,
) -> io::Result<()>
    ensures { Writes W.contents writer.old writer.new result (segment_text params.now class.now name.now start end) }
{
    if start >= end {
        return Ok(());
    }
    write_segment_front(writer, class, name, start, end)?;
    write_segment_box(
        writer,
        across(params, start),
        extent(params, start, end),
        name,
    )?;
    close_group(writer)
}

/// Writes the four segments of the cycle.
#[tactic(auto, unfolding(crate::specs::Frames::segments_text))]
fn write_segments<W: Write>(writer: &mut W, params: &Params) -> io::Result<()>
    ensures { Writes W.contents writer.old writer.new result (segments_text params.now) }
{
    let segments = segments_of(params);
    let (dynamic, symbol) = (segments.dynamic, segments.symbol);
    let (idle, end) = (segments.idle, segments.end);
    write_segment(writer, params, "static", "static segment", 0, dynamic)?;
    write_segment(
        writer,
        params,
        "dynamic",
        "dynamic segment",
        dynamic,
        symbol,
    )?;
    write_segment(writer, params, "symbol", "symbol window", symbol, idle)?;
    write_segment(writer, params, "idle", "network idle time", idle, end)
}

/// Writes the front of the element of a macrotick.
#[tactic(auto, unfolding(crate::specs::Frames::tick_front))]
fn write_tick_front<W: Write>(writer: &mut W, macrotick: u32) -> io::Result<()>
    ensures { Writes W.contents writer.old writer.new result (tick_front macrotick) }
{
    write!(writer, "<g><title>macrotick {macrotick}</title>")
}

/// Writes the number of a macrotick at its place, if that is not before the first free one.
#[tactic(auto, unfolding(crate::specs::Frames::tick_text))]
fn write_tick_at<W: Write>(writer: &mut W, left: u64, macrotick: u32, from: u64) -> io::Result<()>
    ensures { Writes W.contents writer.old writer.new result (tick_text left macrotick from) }
{
    if left < from {
        return Ok(());
    }
    write_tick_front(writer, macrotick)?;
    write_number(writer, left, 560, u64::from(macrotick))?;
    close_group(writer)
}

/// Returns the first free place after the number of a macrotick.
#[tactic(auto, unfolding(crate::specs::Frames::tick_end))]
fn tick_end(left: u64, from: u64) -> u64
    requires { left < 2 ^ 60 }
    ensures { result ≡ tick_end left from }
{
    if left < from { from } else { left + 400 }
}

/// Writes the numbers of macroticks that have room.
fn write_ticks<W: Write>(writer: &mut W, params: &Params, macroticks: &[u32]) -> io::Result<()>
    ensures { Writes W.contents writer.old writer.new result (ticks_text params.now 0 macroticks.now) }
{
    let mut from: u64 = 0;
    for macrotick in macroticks {
        let left = across(params, *macrotick);
        write_tick_at(writer, left, *macrotick, from)?;
        from = tick_end(left, from);
    }
    Ok(())
}

/// Writes the numbers of five macroticks, of which the first is 0.
fn write_five<W: Write>(
    writer: &mut W,
    params: &Params,
    dynamic: u32,
    symbol: u32,
    idle: u32,
    end: u32,
) -> io::Result<()>
    ensures { Writes W.contents writer.old writer.new result
        (ticks_text params.now 0 (0 ∷ dynamic ∷ symbol ∷ idle ∷ end ∷ [])) }
{
    write_ticks(writer, params, &[0, dynamic, symbol, idle, end])
}

/// Writes the macroticks at which the segments begin, and the end of the cycle.
fn write_starts<W: Write>(writer: &mut W, params: &Params) -> io::Result<()>
    ensures { Writes W.contents writer.old writer.new result (ticks_text params.now 0 (starts_of params.now)) }
{
    let segments = segments_of(params);
    write_five(
        writer,
        params,
        segments.dynamic,
        segments.symbol,
        segments.idle,
        segments.end,
    )
}

/// Returns whether as many static slots have room for a number.
fn has_room(room: u64, step: u64) -> bool
    ensures { result ≡ has_room room step }
{
    // The number of a slot takes 220 above its box.
    room.saturating_mul(step) >= 220
}

/// Returns the step between the static slots whose numbers are written, so that these have room.
#[tactic(auto, unfolding(crate::specs::Frames::axis_step))]
fn axis_step(room: u64) -> u16
    ensures step { result ≡ axis_step room }
    ensures some { 1 ≤ result }
{
    if has_room(room, 1) {
        1
    } else if has_room(room, 2) {
        2
    } else if has_room(room, 5) {
        5
    } else if has_room(room, 10) {
        10
    } else if has_room(room, 20) {
        20
    } else if has_room(room, 50) {
        50
    } else if has_room(room, 100) {
        100
    } else if has_room(room, 200) {
        200
    } else if has_room(room, 500) {
        500
    } else {
        1000
    }
}

/// Returns the middle of the box of a static slot.
#[tactic(auto, unfolding(crate::specs::Frames::middle_of))]
fn middle_of(params: &Params, slot: u16) -> u64
    requires { 1 ≤ slot }
    ensures { result ≡ middle_of params.now slot }
{
    let start = u32::from(slot - 1) * u32::from(params.static_mt);
    let end = u32::from(slot) * u32::from(params.static_mt);
    across(params, start) + extent(params, start, end) / 2
}

/// Writes the number of a static slot above its box, if it is one of those that are written.
#[tactic(auto, unfolding(crate::specs::Frames::axis_number))]
fn write_axis_number<W: Write>(
    writer: &mut W,
    params: &Params,
    step: u16,
    slot: u16,
) -> io::Result<()>
    requires step { 1 ≤ step }
    requires slot { 1 ≤ slot }
    ensures { Writes W.contents writer.old writer.new result (axis_number params.now step slot) }
{
    if slot == 1 || slot % step == 0 {
        write_number(writer, middle_of(params, slot), 975, u64::from(slot))
    } else {
        Ok(())
    }
}

/// Writes the numbers of the static slots above their boxes.
#[tactic(auto, unfolding(crate::specs::Frames::axis_numbers))]
fn write_axis_numbers<W: Write>(writer: &mut W, params: &Params, step: u16) -> io::Result<()>
    requires { 1 ≤ step }
    ensures { Writes W.contents writer.old writer.new result (axis_numbers params.now step) }
{
    for earlier in 0..params.static_slots {
        write_axis_number(writer, params, step, earlier + 1)?;
    }
    Ok(())
}

/// Writes the axis of the static slots.
#[tactic(auto, unfolding(crate::specs::Frames::axis_text))]
fn write_axis<W: Write>(writer: &mut W, params: &Params) -> io::Result<()>
    ensures { Writes W.contents writer.old writer.new result (axis_text params.now) }
{
    let step = axis_step(extent(params, 0, u32::from(params.static_mt)));
    open_group(writer, "axis", "static slots")?;
    write_axis_numbers(writer, params, step)?;
    close_group(writer)
}

/// Writes the name of a row with its middle at a distance from the top.
#[tactic(auto, unfolding(crate::specs::Frames::name_text))]
pub(crate) fn write_name<W: Write>(writer: &mut W, top: u64, name: &str) -> io::Result<()>
    requires { top < 2 ^ 60 }
    ensures { Writes W.contents writer.old writer.new result (name_text top name.now) }
{
    open_group(writer, "name", name)?;
    write_text(writer, LEFT - 80, top + 40, name)?;
    close_group(writer)
}

/// Writes the names of the rows of the channels.
#[tactic(auto, unfolding(crate::specs::Frames::names_text))]
fn write_names<W: Write>(writer: &mut W) -> io::Result<()>
    ensures { Writes W.contents writer.old writer.new result names_text }
{
    write_name(writer, row_of(Channel::A) + 210, "channel A")?;
    write_name(writer, row_of(Channel::B) + 210, "channel B")
}

/// Writes the part before the static slots.
#[tactic(auto, unfolding(crate::specs::Frames::front_text))]
pub(crate) fn write_front<W: Write>(
    writer: &mut W,
    cluster: &Cluster,
    cycle: Cycle,
) -> io::Result<()>
    ensures { Writes W.contents writer.old writer.new result (front_text cluster.now cycle) }
{
    let params = cluster.params();
    write_head(writer, params, cycle, cluster.nodes())?;
    write_segments(writer, params)?;
    write_starts(writer, params)?;
    write_axis(writer, params)?;
    write_names(writer)
}
