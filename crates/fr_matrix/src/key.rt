//! The key of a matrix: the meaning of its colours, signs and shapes.

ghost use Rattle.std.specs.Prelude.{◌≡◌, ◌≤◌, ◌<◌, ◌+◌};
ghost use Rattle.std.specs.List.{flat_map, range_with_len};
ghost use Rattle.fr_matrix.specs.Pages.{key_box, key_cell, key_entry, key_faults, key_frames, key_meaning};
ghost use Rattle.fr_matrix.specs.Pages.{key_others, key_sign, key_text, key_windows, node_box, node_sign, node_text};
ghost use Rattle.fr_matrix.specs.Pages.{key_narrow, key_nodes, key_stopped, node_front};
ghost use Rattle.fr_text.specs.Writing.{Writes};

use fr_svg::elements::{close_group, close_text, open_plain, open_text, write_rect, write_text};
use std::io;
use std::io::Write;

/// Writes a box of this class.
#[tactic(auto, unfolding(crate::specs::Pages::key_box))]
fn write_box<W: Write>(
    writer: &mut W,
    left: u64,
    top: u64,
    width: u64,
    class: &str,
) -> io::Result<()>
    ensures { Writes W.contents writer.old writer.new result (key_box left top width class.now) }
{
    open_plain(writer, class)?;
    write_rect(writer, left, top, width, 28)
}

/// Writes the sign in a box, and the end of its group.
#[tactic(auto, unfolding(crate::specs::Pages::key_sign))]
fn write_sign<W: Write>(
    writer: &mut W,
    left: u64,
    top: u64,
    line: u64,
    sign: &str,
) -> io::Result<()>
    ensures { Writes W.contents writer.old writer.new result (key_sign left top line sign.now) }
{
    open_text(writer, left, top, 10, line)?;
    writer.write_all(sign.as_bytes())?;
    close_text(writer)?;
    close_group(writer)
}

/// Writes the meaning of a sign.
#[tactic(auto, unfolding(crate::specs::Pages::key_meaning))]
fn write_meaning<W: Write>(writer: &mut W, left: u64, top: u64, meaning: &str) -> io::Result<()>
    requires { top ≤ 10000 }
    ensures { Writes W.contents writer.old writer.new result (key_meaning left top meaning.now) }
{
    open_plain(writer, "legend")?;
    write_text(writer, left, top + 18, meaning)?;
    close_group(writer)
}

/// Writes a box with a sign.
fn write_cell<W: Write>(
    writer: &mut W,
    left: u64,
    top: u64,
    line: u64,
    class: &str,
    sign: &str,
) -> io::Result<()>
    ensures { Writes W.contents writer.old writer.new result (key_cell left top line class.now sign.now) }
{
    write_box(writer, left, top, 20, class)?;
    write_sign(writer, left, top, line, sign)
}

/// Writes a box with a sign, and the meaning after it.
fn write_entry<W: Write>(
    writer: &mut W,
    left: u64,
    top: u64,
    line: u64,
    class: &str,
    sign: &str,
    meaning: &str,
) -> io::Result<()>
    requires left { left ≤ 10000 }
    requires top { top ≤ 10000 }
    ensures { Writes W.contents writer.old writer.new result
        (key_entry left top line class.now sign.now meaning.now) }
{
    write_cell(writer, left, top, line, class, sign)?;
    write_meaning(writer, left + 24, top, meaning)
}

/// Writes the front of the box of a node.
#[tactic(auto, unfolding(crate::specs::Pages::node_front))]
fn write_node_front<W: Write>(writer: &mut W, node: u8) -> io::Result<()>
    ensures { Writes W.contents writer.old writer.new result (node_front node) }
{
    write!(writer, "<g class='n{node}'>")
}

/// Writes the box of a node.
#[tactic(auto, unfolding(crate::specs::Pages::node_box))]
fn write_node_box<W: Write>(writer: &mut W, top: u64, node: u8) -> io::Result<()>
    requires { node < 16 }
    ensures { Writes W.contents writer.old writer.new result (node_box top node) }
{
    write_node_front(writer, node)?;
    write_rect(writer, 20 + 22 * u64::from(node), top, 20, 28)
}

/// Writes the number of a node in its box.
#[tactic(auto, unfolding(crate::specs::Pages::node_sign))]
fn write_node_sign<W: Write>(writer: &mut W, top: u64, node: u8) -> io::Result<()>
    requires { node < 16 }
    ensures { Writes W.contents writer.old writer.new result (node_sign top node) }
{
    open_text(writer, 20 + 22 * u64::from(node), top, 10, 17)?;
    write!(writer, "{node}")?;
    close_text(writer)?;
    close_group(writer)
}

/// Writes the colour of a node.
#[tactic(auto, unfolding(crate::specs::Pages::node_text))]
fn write_node<W: Write>(writer: &mut W, top: u64, node: u8) -> io::Result<()>
    requires { node < 16 }
    ensures { Writes W.contents writer.old writer.new result (node_text top node) }
{
    write_node_box(writer, top, node)?;
    write_node_sign(writer, top, node)
}

/// Writes the colours of as many nodes.
fn write_each_node<W: Write>(writer: &mut W, top: u64, nodes: u8) -> io::Result<()>
    requires { nodes ≤ 16 }
    ensures { Writes W.contents writer.old writer.new result (flat_map (node_text top) (range_with_len 0 nodes)) }
{
    for node in 0..nodes {
        write_node(writer, top, node)?;
    }
    Ok(())
}

/// Writes the colours of all nodes.
#[tactic(auto, unfolding(crate::specs::Pages::key_nodes))]
fn write_nodes<W: Write>(writer: &mut W, top: u64) -> io::Result<()>
    requires { top ≤ 10000 }
    ensures { Writes W.contents writer.old writer.new result (key_nodes top) }
{
    write_each_node(writer, top, 16)?;
    write_meaning(
        writer,
        376,
        top,
        "the node whose transmission passed; if several passed, the first",
    )
}

/// Writes the signs of what a single node sent.
#[tactic(auto, unfolding(crate::specs::Pages::key_frames))]
fn write_frames<W: Write>(writer: &mut W, top: u64) -> io::Result<()>
    requires { top ≤ 10000 }
    ensures { Writes W.contents writer.old writer.new result (key_frames top) }
{
    write_entry(writer, 20, top, 17, "data n0", "0", "data frame")?;
    write_entry(writer, 140, top, 17, "null n0", "0-", "null frame")?;
    write_entry(
        writer,
        260,
        top,
        17,
        "own n0",
        "0=",
        "sent by the observing node",
    )?;
    write_entry(
        writer,
        450,
        top,
        17,
        "broken n0",
        "0?",
        "bytes that are no frame",
    )?;
    write_entry(
        writer,
        630,
        top,
        17,
        "overrun n0",
        "0+",
        "too long for its slot",
    )
}

/// Writes the signs of collisions and guardians.
#[tactic(auto, unfolding(crate::specs::Pages::key_stopped))]
fn write_stopped<W: Write>(writer: &mut W, top: u64) -> io::Result<()>
    requires { top ≤ 10000 }
    ensures { Writes W.contents writer.old writer.new result (key_stopped top) }
{
    write_entry(writer, 20, top, 17, "collision n0", "0X", "collision")?;
    write_entry(
        writer,
        140,
        top,
        25,
        "silence blocked",
        "b",
        "blocked by a guardian",
    )
}

/// Writes the signs of faults.
#[tactic(auto, unfolding(crate::specs::Pages::key_faults))]
fn write_faults<W: Write>(writer: &mut W, top: u64) -> io::Result<()>
    requires { top ≤ 10000 }
    ensures { Writes W.contents writer.old writer.new result (key_faults top) }
{
    write_entry(writer, 310, top, 25, "silence lost", "l", "lost by a fault")?;
    write_entry(
        writer,
        450,
        top,
        25,
        "data n0 turned",
        "t",
        "a bit flipped by a fault",
    )
}

/// Writes the signs of collisions, guardians and faults.
#[tactic(auto, unfolding(crate::specs::Pages::key_others))]
fn write_others<W: Write>(writer: &mut W, top: u64) -> io::Result<()>
    requires { top ≤ 10000 }
    ensures { Writes W.contents writer.old writer.new result (key_others top) }
{
    write_stopped(writer, top)?;
    write_faults(writer, top)
}

/// Writes the shape of an empty dynamic window.
#[tactic(auto, unfolding(crate::specs::Pages::key_narrow))]
fn write_narrow<W: Write>(writer: &mut W, left: u64, top: u64) -> io::Result<()>
    requires left { left ≤ 10000 }
    requires top { top ≤ 10000 }
    ensures { Writes W.contents writer.old writer.new result (key_narrow left top) }
{
    write_box(writer, left, top, 3, "silence")?;
    close_group(writer)?;
    write_meaning(writer, left + 7, top, "dynamic window, empty in all rows")
}

/// Writes the shapes of windows, and where the rest is.
#[tactic(auto, unfolding(crate::specs::Pages::key_windows))]
fn write_windows<W: Write>(writer: &mut W, top: u64) -> io::Result<()>
    requires { top ≤ 10000 }
    ensures { Writes W.contents writer.old writer.new result (key_windows top) }
{
    write_entry(writer, 20, top, 17, "silence", "", "nothing passed")?;
    write_entry(
        writer,
        140,
        top,
        8,
        "silence slot",
        "7",
        "dynamic window of slot 7",
    )?;
    write_narrow(writer, 330, top)?;
    write_meaning(
        writer,
        560,
        top,
        "The title of each cell lists what was sent.",
    )
}

/// Writes the key.
#[tactic(auto, unfolding(crate::specs::Pages::key_text))]
pub(crate) fn write_key<W: Write>(writer: &mut W, top: u64) -> io::Result<()>
    requires { top ≤ 5000 }
    ensures { Writes W.contents writer.old writer.new result (key_text top) }
{
    write_nodes(writer, top)?;
    write_frames(writer, top + 32)?;
    write_others(writer, top + 64)?;
    write_windows(writer, top + 96)
}
