//! The text of a cluster's links.

ghost use Rattle.std.specs.Prelude.{◌≡◌, ◌++◌, IfOk, OnOk};
ghost use Rattle.std.specs.List.{flat_map};
ghost use Rattle.fr_files.specs.Inputs.{ForText};
ghost use Rattle.fr_text.specs.Writing.{Writes};
ghost use Rattle.fr_links.specs.Commands.{ShowsLinks};
ghost use Rattle.fr_links.specs.LinkText.{back_text, front_text, further_word, link_line, links_text};
ghost use Rattle.fr_links.specs.LinkText.{receiver_word, receivers_word, segment_word, sender_text, slot_text};
ghost use Rattle.fr_links.specs.LinkText.{times_text};

use crate::links::{Link, links_of};
use crate::receivers::{Receiver, receivers_of};
use fr_files::cluster_file::cluster_of;
use fr_files::error::BenchError;
use fr_files::output::write_whole;
use fr_schedule::cluster::Cluster;
use fr_slots::params::Params;
use std::alloc::{AllocError, Global};
use std::io;
use std::io::{Read, Write};

/// Writes a receiver: its node, and `b` with the number of a receive buffer, or `queue` for the receive FIFO.
fn write_receiver<W: Write>(writer: &mut W, receiver: &Receiver) -> io::Result<()>
    ensures { Writes W.contents writer.old writer.new result (receiver_word receiver.now) }
{
    let node = receiver.node;
    match receiver.buffer {
        Some(buffer) => write!(writer, "{node}:b{buffer}"),
        None => write!(writer, "{node}:queue"),
    }
}

/// Writes a comma and a receiver.
fn write_further<W: Write>(writer: &mut W, receiver: &Receiver) -> io::Result<()>
    ensures { Writes W.contents writer.old writer.new result (further_word receiver.now) }
{
    write!(writer, ",")?;
    write_receiver(writer, receiver)
}

/// Writes receivers, each after a comma.
fn write_others<W: Write>(writer: &mut W, receivers: &[Receiver]) -> io::Result<()>
    ensures { Writes W.contents writer.old writer.new result (flat_map further_word receivers.now) }
{
    for receiver in receivers {
        write_further(writer, receiver)?;
    }
    Ok(())
}

/// Writes the receivers with commas between them, or a dash if there are none.
fn write_receivers<W: Write>(writer: &mut W, receivers: &[Receiver]) -> io::Result<()>
    ensures { Writes W.contents writer.old writer.new result (receivers_word receivers.now) }
{
    match receivers {
        [] => write!(writer, "-"),
        [first, others @ ..] => {
            write_receiver(writer, first)?;
            write_others(writer, others)
        }
    }
}

/// Returns the word of a segment.
fn segment_word(is_static: bool) -> &'static str
    ensures { result.now ≡ segment_word is_static }
{
    if is_static { "static" } else { "dynamic" }
}

/// Writes the node of the link, and its buffer or a dash.
fn write_sender<W: Write>(writer: &mut W, link: &Link) -> io::Result<()>
    ensures { Writes W.contents writer.old writer.new result (sender_text link.now) }
{
    let node = link.node;
    match link.buffer {
        Some(buffer) => write!(writer, "{node} {buffer}"),
        None => write!(writer, "{node} -"),
    }
}

/// Writes the slot of the link, its cycles and its words, each after a space.
fn write_slot<W: Write>(writer: &mut W, params: &Params, link: &Link) -> io::Result<()>
    ensures { Writes W.contents writer.old writer.new result (slot_text params.now link.now) }
{
    let segment = segment_word(params.is_static(link.slot));
    write!(writer, " {segment} {} {}", link.slot, link.channel)?;
    let (base, repetition) = (link.cycles.base(), link.cycles.repetition());
    write!(writer, " {base} {repetition} {}", link.words)
}

/// Writes the macroticks of the cycle at which a static slot begins and ends, or dashes, each after a space.
fn write_times<W: Write>(writer: &mut W, params: &Params, link: &Link) -> io::Result<()>
    ensures { Writes W.contents writer.old writer.new result (times_text params.now link.now) }
{
    if !params.is_static(link.slot) {
        return write!(writer, " - -");
    }
    let (slot, length) = (u32::from(link.slot.number()), u32::from(params.static_mt));
    let begin = slot.saturating_sub(1) * length;
    write!(writer, " {begin} {}", slot * length)
}

/// Writes the sender, the slot and the times of a link.
fn write_front<W: Write>(writer: &mut W, params: &Params, link: &Link) -> io::Result<()>
    ensures { Writes W.contents writer.old writer.new result (front_text params.now link.now) }
{
    write_sender(writer, link)?;
    write_slot(writer, params, link)?;
    write_times(writer, params, link)
}

/// Writes a space and the receivers, and ends the line.
fn write_back<W: Write>(writer: &mut W, receivers: &[Receiver]) -> io::Result<()>
    ensures { Writes W.contents writer.old writer.new result (back_text receivers.now) }
{
    write!(writer, " ")?;
    write_receivers(writer, receivers)?;
    writeln!(writer)
}

/// Writes the line of a link with these receivers.
fn write_line<W: Write>(
    writer: &mut W,
    params: &Params,
    link: &Link,
    receivers: &[Receiver],
) -> io::Result<()>
    ensures { Writes W.contents writer.old writer.new result
        (front_text params.now link.now ++ back_text receivers.now) }
{
    write_front(writer, params, link)?;
    write_back(writer, receivers)
}

/// Appends the line of a link.
fn push_line(
    alloc: Global,
    text: &mut Vec<u8>,
    cluster: &Cluster,
    link: &Link,
) -> Result<(), AllocError>
    ensures { OnOk result (text.new.items ≡ text.old.items ++ link_line cluster.now link.now) }
{
    let receivers = receivers_of(alloc, cluster.plans(), link)?;
    match write_line(text, cluster.params(), link, receivers.as_slice()) {
        Ok(()) => Ok(()),
        // A list of bytes takes no more only if an allocation fails.
        Err(_) => Err(AllocError),
    }
}

/// Appends the lines of these links.
fn push_lines(
    alloc: Global,
    text: &mut Vec<u8>,
    cluster: &Cluster,
    links: &[Link],
) -> Result<(), AllocError>
    ensures { OnOk result (text.new.items ≡ text.old.items ++ flat_map (link_line cluster.now) links.now) }
{
    for link in links {
        push_line(alloc, text, cluster, link)?;
    }
    Ok(())
}

/// Returns the text of a cluster's links.
fn text_of(alloc: Global, cluster: &Cluster) -> Result<Vec<u8>, AllocError>
    ensures { IfOk result (λ text. text.items ≡ links_text cluster.now) }
{
    let links = links_of(alloc, cluster)?;
    let mut text = Vec::new(alloc);
    push_lines(alloc, &mut text, cluster, links.as_slice())?;
    Ok(text)
}

/// Reads a cluster file to its end, and writes the cluster's links with their receivers (project-defined).
///
/// The errors are those of `check` (`fr_commands`). Every error but `Write` leaves the writer unchanged.
pub fn show_links<R: Read, W: Write>(
    alloc: Global,
    reader: &mut R,
    writer: &mut W,
) -> Result<(), BenchError>
    ensures { ForText (R.remaining reader.old)
        (λ text. ShowsLinks text (W.contents writer.old) (W.contents writer.new) result) }
{
    let cluster = cluster_of(alloc, reader)?;
    match text_of(alloc, &cluster) {
        Ok(text) => write_whole(writer, text.as_slice()),
        Err(_) => Err(BenchError::Memory),
    }
}
