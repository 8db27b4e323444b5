//! The lines of the log of commits.
ghost use Rattle.std.specs.Prelude.{◌≡◌, ◌≤◌, [], length};
ghost use Rattle.fr_streaming.specs.CommitLog.{commit_text, pending_text};
ghost use Rattle.fr_streaming.specs.LogSteps.{call_text, commit_at, data_in, end_text, left_at, left_in, offers_in};
ghost use Rattle.fr_streaming.specs.LogSteps.{offers_of};
ghost use Rattle.fr_streaming.specs.LogSteps.{overwritten_by, place_in, sent_at, sent_from, sent_on, withdrawn_by};
ghost use Rattle.fr_text.specs.Writing.{Writes};

use arrayvec::ArrayVec;
use fr_bus::outcome::Sealed;
use fr_endless::world::EndlessWorld;
use fr_frame::payload::Payload;
use fr_interface::call::{Answer, Call};
use fr_interface::state::InterfaceState;
use fr_journal::entry::Offered;
use fr_schedule::cluster::Cluster;
use fr_showing::sending::write_sending;
use fr_slots::channel::Channel;
use fr_slots::numbers::{NodeId, TaskId};
use fr_slots::window::Window;
use fr_text::hexes::write_hex;
use std::io;
use std::io::Write;

/// The greatest number of nodes of a cluster.
const MOST_NODES: usize = 16;

/// The place of a call in a run.
#[derive(Clone, Copy)]
pub(crate) struct CallPlace {
    /// The pending commit that the call overwrites.
    pub(crate) overwritten: Option<u32>,
    /// The entry of the call in its node's journal.
    pub(crate) entry: u32,
    /// The cycle of the run, from 0.
    pub(crate) cycle: u32,
}

/// The commits that a node offers in a window.
#[derive(Clone, Copy, Default)]
pub(crate) struct NodeOffers {
    /// On channel A.
    pub(crate) a: Option<u32>,
    /// On channel B.
    pub(crate) b: Option<u32>,
}

/// The offers of all nodes in a window.
pub(crate) type AllOffers = ArrayVec<NodeOffers, MOST_NODES>;

/// Returns the pending commit that the call overwrites.
fn overwritten_by(interface: &InterfaceState, call: &Call) -> Option<u32>
    ensures { result ≡ overwritten_by interface.now call.now }
{
    match call {
        Call::Commit { buffer, .. } => interface.pending(*buffer),
        Call::Withdraw { .. } | Call::Read { .. } | Call::Pop => None,
    }
}

/// Returns the place of the next call of a node's task, which is this one.
pub(crate) fn place_in(world: &EndlessWorld, node: NodeId, call: &Call) -> CallPlace
    ensures { result ≡ place_in world.now node call.now }
{
    let cycle = world.bus().cycles_begun();
    match world.interfaces().get(usize::from(node.number())) {
        Some(interface) => CallPlace {
            overwritten: overwritten_by(interface, call),
            entry: interface.entries(),
            cycle,
        },
        None => CallPlace {
            overwritten: None,
            entry: 0,
            cycle,
        },
    }
}

/// Returns the commit whose data the offer has.
fn data_in(offered: Offered) -> Option<u32>
    ensures { result ≡ data_in offered }
{
    match offered {
        Offered::Data(commit) => Some(commit),
        Offered::Nothing | Offered::Null => None,
    }
}

/// Returns the commits that a node offers in a window.
fn offers_of(window: &Window, interface: &InterfaceState) -> NodeOffers
    ensures { result ≡ offers_of window.now interface.now }
{
    NodeOffers {
        a: data_in(interface.offered(window, Channel::A)),
        b: data_in(interface.offered(window, Channel::B)),
    }
}

/// Returns the commits that the nodes will offer in the open window.
pub(crate) fn offers_in(world: &EndlessWorld) -> AllOffers
    ensures { length world.now.interfaces ≤ 16
        → result.items ≡ offers_in world.now.bus.bus.opened world.now.interfaces }
{
    let mut offers = AllOffers::new();
    let Some(window) = world.bus().window() else {
        return offers;
    };
    let interfaces = world.interfaces();
    for interface in interfaces {
        // A cluster has no more nodes than there is room for.
        let _ = offers.try_push(offers_of(&window, interface));
    }
    offers
}

/// Writes the line of the node's commit that the call at this place ended, if there is one.
fn write_ended<W: Write>(
    writer: &mut W,
    word: &str,
    node: NodeId,
    place: &CallPlace,
    commit: Option<u32>,
) -> io::Result<()>
    ensures { Writes W.contents writer.old writer.new result (end_text word.now node commit place.now) }
{
    let Some(commit) = commit else {
        return Ok(());
    };
    write!(writer, "{word} {} {commit}", node.number())?;
    writeln!(writer, " {} {}", place.cycle, place.entry)
}

/// Writes the line of a commit.
#[tactic(auto, unfolding(fr_showing::specs::CommitText::made_text))]
fn write_commit<W: Write>(
    writer: &mut W,
    node: NodeId,
    task: TaskId,
    place: &CallPlace,
    buffer: u8,
    payload: &Payload,
) -> io::Result<()>
    ensures { Writes W.contents writer.old writer.new result
        (commit_text (commit_at node task place.now buffer payload.now)) }
{
    write!(
        writer,
        "commit {} {buffer} {} ",
        node.number(),
        task.number()
    )?;
    write!(writer, "{} {} ", place.cycle, place.entry)?;
    write_hex(writer, payload.as_slice())?;
    writeln!(writer)
}

/// Returns the commit that a withdraw with this answer took back.
fn withdrawn_by(answer: &Answer) -> Option<u32>
    ensures { result ≡ withdrawn_by answer.now }
{
    match answer {
        Answer::Withdrawn(of) => *of,
        Answer::Committed(_) | Answer::Frame(_) => None,
    }
}

/// Writes the lines of a task's call with this answer.
pub(crate) fn write_call<W: Write>(
    writer: &mut W,
    node: NodeId,
    task: TaskId,
    call: &Call,
    place: &CallPlace,
    answer: &Answer,
) -> io::Result<()>
    ensures { Writes W.contents writer.old writer.new result
        (call_text node task place.now answer.now call.now) }
{
    match call {
        Call::Commit { buffer, payload } => {
            write_ended(writer, "overwritten", node, place, place.overwritten)?;
            write_commit(writer, node, task, place, *buffer, payload)
        }
        Call::Withdraw { .. } => {
            write_ended(writer, "withdrawn", node, place, withdrawn_by(answer))
        }
        Call::Read { .. } | Call::Pop => Ok(()),
    }
}

/// Writes the line of the commit that the node sent in the window on the channel, if there is one.
fn write_sent_on<W: Write>(
    writer: &mut W,
    cluster: &Cluster,
    sealed: &Sealed,
    cycle: u32,
    node: usize,
    channel: Channel,
    commit: Option<u32>,
) -> io::Result<()>
    ensures { Writes W.contents writer.old writer.new result
        (sent_on cluster.now sealed.now cycle node channel commit) }
{
    let Some(commit) = commit else {
        return Ok(());
    };
    write!(writer, "sent {node} {commit} ")?;
    write_sending(writer, cluster, sealed, cycle, node, channel)?;
    writeln!(writer)
}

/// Writes the lines of the commits that the node sent in the window.
fn write_sent_at<W: Write>(
    writer: &mut W,
    cluster: &Cluster,
    sealed: &Sealed,
    cycle: u32,
    node: usize,
    offers: &NodeOffers,
) -> io::Result<()>
    ensures { Writes W.contents writer.old writer.new result
        (sent_at cluster.now sealed.now cycle node offers.now) }
{
    write_sent_on(writer, cluster, sealed, cycle, node, Channel::A, offers.a)?;
    write_sent_on(writer, cluster, sealed, cycle, node, Channel::B, offers.b)
}

/// Writes the lines of the commits that the nodes sent in the window, of which these were offered.
pub(crate) fn write_sent<W: Write>(
    writer: &mut W,
    cluster: &Cluster,
    sealed: &Sealed,
    cycle: u32,
    offers: &[NodeOffers],
) -> io::Result<()>
    ensures { Writes W.contents writer.old writer.new result
        (sent_from cluster.now sealed.now cycle 0 offers.now) }
{
    for (node, of_node) in offers.iter().enumerate() {
        write_sent_at(writer, cluster, sealed, cycle, node, of_node)?;
    }
    Ok(())
}

/// Writes the line of the node's pending commit, if there is one.
fn write_pending<W: Write>(writer: &mut W, node: usize, commit: Option<u32>) -> io::Result<()>
    ensures { Writes W.contents writer.old writer.new result (pending_text node commit) }
{
    match commit {
        Some(commit) => writeln!(writer, "pending {node} {commit}"),
        None => Ok(()),
    }
}

/// Writes the lines of the pending commits of a node with so many buffers.
fn write_left_at<W: Write>(
    writer: &mut W,
    node: usize,
    interface: &InterfaceState,
    buffers: u8,
) -> io::Result<()>
    ensures { Writes W.contents writer.old writer.new result (left_at node interface.now buffers) }
{
    for buffer in 0..buffers {
        write_pending(writer, node, interface.pending(buffer))?;
    }
    Ok(())
}

/// Writes the lines of the pending commits of all nodes, each with its number of buffers.
pub(crate) fn write_left<W: Write>(
    writer: &mut W,
    interfaces: &[InterfaceState],
    buffers: &[u8],
) -> io::Result<()>
    ensures { Writes W.contents writer.old writer.new result (left_in interfaces.now buffers.now 0) }
{
    for (node, interface) in interfaces.iter().enumerate() {
        let Some(count) = buffers.get(node) else {
            return Ok(());
        };
        write_left_at(writer, node, interface, *count)?;
    }
    Ok(())
}
