//! The commits of a run, each with its fate.
ghost use Rattle.std.specs.Prelude.{◌≡◌, ◌-◌, true, take, slice_get, IsSomeAnd, Some};
ghost use Rattle.std.specs.List.{flat_map};
ghost use Rattle.fr_frame.specs.Payload.{IsPayload};
ghost use Rattle.fr_journal.specs.Fate.{is_commit_on};
ghost use Rattle.fr_journal.specs.Lent.{whole, HasPayload};
ghost use Rattle.fr_showing.specs.CommitSteps.{committed, entry_text, handed_text, is_takeable, node_text};
ghost use Rattle.fr_showing.specs.CommitText.{became_text, commit_line, commits, end_in, line_in, made_text};
ghost use Rattle.fr_showing.specs.CommitText.{recorded_of, sending_text, sendings_text, taken_text};
ghost use Rattle.fr_showing.specs.Fates.{became, sending_if};
ghost use Rattle.fr_journal.specs.Cycles.{cycles_of};
ghost use Rattle.fr_capture.specs.Takers.{takers_word};
ghost use Rattle.fr_showing.specs.Takers.{takers_in};
ghost use Rattle.fr_text.specs.Writing.{Writes};

use crate::ends::{End, ended_word, offer_end};
use crate::fates::{Became, Sending, became_of, begun_with, is_commit_on, is_data_of};
use crate::parts::{interfaces_of, params_of};
use crate::takers::{Transmission, write_takers};
use fr_core::walk::sealed_at;
use fr_core::world::World;
use fr_interface::interface::Interface;
use fr_journal::entry::Offered;
use fr_journal::lent::LentEntry;
use fr_lines::writing::write_slot;
use fr_slots::channel::Channel;
use fr_slots::numbers::TaskId;
use fr_text::hexes::write_hex;
use std::io;
use std::io::Write;

/// A commit of a journal.
#[derive(Clone, Copy)]
struct Commitment<'a> {
    /// The node.
    node: usize,
    /// The buffer.
    buffer: u8,
    /// The task.
    task: TaskId,
    /// The cycle of the run, from 0.
    cycle: u32,
    /// The number of its entry.
    entry: u32,
    /// Its bytes.
    payload: &'a [u8],
}

/// A place in the journal of a node.
#[derive(Clone, Copy)]
struct JournalPlace {
    /// The node.
    node: usize,
    /// The number of the entry.
    entry: u32,
    /// The number of cycles that began before it.
    begun: u32,
}

/// Returns the end of the node's offer in the window of a sending.
fn end_in(world: &World, node: usize, sending: &Sending) -> Option<End>
    ensures { result ≡ end_in world.now node sending.now }
{
    let (record, window) = (world.bus().record(), sending.window.number);
    offer_end(params_of(world), record, window, sending.channel, node)
}

/// Returns whether a transmission with this end can be stored.
pub(crate) fn is_takeable(end: Option<End>) -> bool
    ensures { result ≡ is_takeable end }
{
    matches!(end, Some(End::Alone | End::Turned))
}

/// Writes the receivers of a transmission that passed alone, or a dash.
fn write_takers_of<W: Write>(writer: &mut W, world: &World, sending: &Sending) -> io::Result<()>
    ensures { Writes W.contents writer.old writer.new result
        (takers_word (takers_in world.now.bus.cluster.params world.now.interfaces
        (recorded_of world.now sending.now) sending.now.channel)) }
{
    match sealed_at(world.bus().record(), sending.window.number as usize) {
        Some(sealed) => {
            let sent = Transmission {
                params: params_of(world),
                sealed,
                channel: sending.channel,
            };
            write_takers(writer, interfaces_of(world), &sent)
        }
        None => write!(writer, "-"),
    }
}

/// Writes the receivers of a transmission with this end, or a dash.
fn write_taken<W: Write>(
    writer: &mut W,
    world: &World,
    sending: &Sending,
    end: Option<End>,
) -> io::Result<()>
    ensures { Writes W.contents writer.old writer.new result (taken_text world.now sending.now end) }
{
    if is_takeable(end) {
        write_takers_of(writer, world, sending)
    } else {
        write!(writer, "-")
    }
}

/// Writes a space, and the window in which the node's commit was sent.
#[tactic(auto, unfolding(crate::specs::CommitText::sending_text))]
fn write_sending<W: Write>(
    writer: &mut W,
    world: &World,
    node: usize,
    sending: &Sending,
) -> io::Result<()>
    ensures { Writes W.contents writer.old writer.new result (sending_text world.now node sending.now) }
{
    let end = end_in(world, node, sending);
    write!(writer, " {}", sending.cycle)?;
    write_slot(writer, sending.window.slot(sending.channel))?;
    write!(writer, " {} {} ", sending.channel, ended_word(end))?;
    write_taken(writer, world, sending, end)
}

/// Writes the same, if the commit is the offer on the channel.
fn write_if_sent<W: Write>(
    writer: &mut W,
    world: &World,
    node: usize,
    commit: u32,
    offered: Offered,
    sending: &Sending,
) -> io::Result<()>
    ensures { Writes W.contents writer.old writer.new result
        (flat_map (sending_text world.now node)
        (sending_if commit sending.now.cycle sending.now.window sending.now.channel offered)) }
{
    if is_data_of(commit, offered) {
        write_sending(writer, world, node, sending)
    } else {
        Ok(())
    }
}

/// Writes the windows in which the entry hands the node's commit to the bus, if it does.
///
/// The number of cycles that began up to this entry, and with it, is given.
fn write_handed<W: Write>(
    writer: &mut W,
    world: &World,
    node: usize,
    commit: u32,
    begun: u32,
    entry: &LentEntry<'_>,
) -> io::Result<()>
    ensures { Writes W.contents writer.old writer.new result
        (handed_text world.now node commit (begun - 1) (whole entry.now)) }
{
    match entry {
        LentEntry::Fetch { window, a, b } => {
            let (cycle, window) = (begun.saturating_sub(1), *window);
            let on_a = Sending {
                cycle,
                window,
                channel: Channel::A,
            };
            let on_b = Sending {
                cycle,
                window,
                channel: Channel::B,
            };
            write_if_sent(writer, world, node, commit, *a, &on_a)?;
            write_if_sent(writer, world, node, commit, *b, &on_b)
        }
        _ => Ok(()),
    }
}

/// Writes the sendings of the commit. After the next commit on its buffer a legal journal sends it no more.
fn write_sendings<W: Write>(
    writer: &mut W,
    world: &World,
    interface: &Interface,
    commit: &Commitment<'_>,
) -> io::Result<()>
    requires there { IsSomeAnd (slice_get interface.now.entries commit.now.entry)
        (λ e. is_commit_on commit.now.buffer e ≡ true) }
    requires cycle { commit.now.cycle ≡ cycles_of (take commit.now.entry interface.now.entries) }
    ensures { Writes W.contents writer.old writer.new result
        (sendings_text world.now commit.now.node interface.now.entries commit.now.entry) }
{
    let journal = interface.journal();
    let end = journal.len();
    let mut begun = commit.cycle;
    for number in commit.entry + 1..end {
        let Some(entry) = journal.lent(number) else {
            return Ok(());
        };
        if is_commit_on(commit.buffer, &entry) {
            return Ok(());
        }
        begun = begun_with(begun, &entry);
        write_handed(writer, world, commit.node, commit.entry, begun, &entry)?;
    }
    Ok(())
}

/// Writes the fate of the commit.
fn write_became<W: Write>(
    writer: &mut W,
    world: &World,
    interface: &Interface,
    commit: &Commitment<'_>,
) -> io::Result<()>
    requires there { IsSomeAnd (slice_get interface.now.entries commit.now.entry)
        (λ e. is_commit_on commit.now.buffer e ≡ true) }
    requires cycle { commit.now.cycle ≡ cycles_of (take commit.now.entry interface.now.entries) }
    ensures { Writes W.contents writer.old writer.new result
        (became_text world.now commit.now.node interface.now.entries commit.now.entry
        (became commit.now.buffer interface.now.entries commit.now.entry)) }
{
    match became_of(interface, commit.buffer, commit.entry, commit.cycle) {
        Became::Sent => {
            write!(writer, "sent")?;
            write_sendings(writer, world, interface, commit)
        }
        Became::Withdrawn { cycle, entry } => write!(writer, "withdrawn {cycle} {entry}"),
        Became::Overwritten { cycle, entry } => write!(writer, "overwritten {cycle} {entry}"),
        Became::Pending => write!(writer, "pending"),
    }
}

/// Writes the commit at the start of its line.
#[tactic(auto, unfolding(crate::specs::CommitText::made_text))]
fn write_made<W: Write>(writer: &mut W, commit: &Commitment<'_>) -> io::Result<()>
    requires { IsPayload commit.now.payload.now }
    ensures { Writes W.contents writer.old writer.new result (made_text (committed commit.now)) }
{
    let (node, buffer, task) = (commit.node, commit.buffer, commit.task.number());
    write!(writer, "{node} {buffer} {task} ")?;
    write!(writer, "{} {} ", commit.cycle, commit.entry)?;
    write_hex(writer, commit.payload)
}

/// Writes the line of the commit.
fn write_commit<W: Write>(
    writer: &mut W,
    world: &World,
    interface: &Interface,
    commit: &Commitment<'_>,
) -> io::Result<()>
    requires payload { IsPayload commit.now.payload.now }
    requires there { IsSomeAnd (slice_get interface.now.entries commit.now.entry)
        (λ e. is_commit_on commit.now.buffer e ≡ true) }
    requires cycle { commit.now.cycle ≡ cycles_of (take commit.now.entry interface.now.entries) }
    ensures { Writes W.contents writer.old writer.new result
        (line_in world.now interface.now.entries (committed commit.now)) }
{
    write_made(writer, commit)?;
    write!(writer, " = ")?;
    write_became(writer, world, interface, commit)?;
    writeln!(writer)
}

/// Writes the line of the entry at this place, if it is a commit.
fn write_entry<W: Write>(
    writer: &mut W,
    world: &World,
    interface: &Interface,
    place: JournalPlace,
    entry: &LentEntry<'_>,
) -> io::Result<()>
    requires payload { HasPayload entry.now }
    requires there { slice_get interface.now.entries place.entry ≡ Some (whole entry.now) }
    requires cycle { place.begun ≡ cycles_of (take place.entry interface.now.entries) }
    ensures { Writes W.contents writer.old writer.new result
        (entry_text world.now place.node interface.now.entries place.begun place.entry (whole entry.now)) }
{
    match entry {
        LentEntry::Commit {
            task,
            buffer,
            payload,
        } => {
            let commit = Commitment {
                node: place.node,
                buffer: *buffer,
                task: *task,
                cycle: place.begun,
                entry: place.entry,
                payload: *payload,
            };
            write_commit(writer, world, interface, &commit)
        }
        _ => Ok(()),
    }
}

/// Writes the lines of the node's commits.
fn write_node<W: Write>(
    writer: &mut W,
    world: &World,
    node: usize,
    interface: &Interface,
) -> io::Result<()>
    ensures { Writes W.contents writer.old writer.new result (node_text world.now node interface.now.entries) }
{
    let journal = interface.journal();
    let mut begun = 0;
    for number in 0..journal.len() {
        let Some(entry) = journal.lent(number) else {
            return Ok(());
        };
        let place = JournalPlace {
            node,
            entry: number,
            begun,
        };
        write_entry(writer, world, interface, place, &entry)?;
        begun = begun_with(begun, &entry);
    }
    Ok(())
}

// Commits come from journals, not from scripts, so each has its line by construction. Receivers come from the record
// and the plans: it is proved that each node observed this.
/// Writes a line for each commit of each node's journal (project-defined).
///
/// They are in the order of the nodes and of the entries.
///
/// A line has the node, the buffer, the task, the cycle of the run, the entry, the payload, `=`, and the fate. The fate
/// is `pending`; `withdrawn` or `overwritten`, with the cycle and the entry that decided it; or `sent`.
///
/// After `sent` stands each transmission of the commit: the cycle of the run, the slot, the channel, its end (`End`),
/// and its receivers. The receivers are the receive buffers and receive FIFOs that stored it, in the order of the
/// nodes, or a dash.
///
/// Fails if the writer fails. Then a part of the text may have gone out.
pub fn write_commits<W: Write>(writer: &mut W, world: &World) -> io::Result<()>
    ensures { Writes W.contents writer.old writer.new result (flat_map (commit_line world.now) (commits world.now)) }
{
    let interfaces = world.interfaces();
    for node in 0..interfaces.len() {
        write_node(writer, world, node, &interfaces[node])?;
    }
    Ok(())
}
