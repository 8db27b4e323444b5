//! What each node receives in a window.
ghost use Rattle.std.specs.Prelude.{◌≡◌, ◌≤◌, None, is_some, length};
ghost use Rattle.std.specs.Option.{option_and_then};
ghost use Rattle.fr_bus.specs.Record.{seen_by};
ghost use Rattle.fr_capture.specs.Takers.{takers_of, takers_word};
ghost use Rattle.fr_files.specs.NodeTexts.{of_nodes};
ghost use Rattle.fr_frame.specs.Refusal.{refusal};
ghost use Rattle.fr_journal.specs.Held.{data_frame_seen, with_data};
ghost use Rattle.fr_slots.specs.declared.channel.Channel.TheVariants as on;
ghost use Rattle.fr_slots.specs.Windows.{slot_of};
ghost use Rattle.fr_streaming.specs.Received.{bit_word, bytes_word, channel_text, counted_word, front_text};
ghost use Rattle.fr_streaming.specs.Received.{heard_text, is_frame, is_silent, node_line, node_text};
ghost use Rattle.fr_streaming.specs.Received.{received_in, seen_word};
ghost use Rattle.fr_streaming.specs.Received.{status_on};
ghost use Rattle.fr_text.specs.Writing.{Writes};

use fr_bus::outcome::Sealed;
use fr_capture::takers::{Observed, Takers, write_more};
use fr_capture::taking::Came;
use fr_frame::decode::{DecodeError, decode_lent};
use fr_frame::lent::LentFrame;
use fr_schedule::cluster::Cluster;
use fr_slots::channel::Channel;
use fr_slots::numbers::NodeId;
use fr_slots::params::Params;
use fr_slots::plan::NodePlan;
use fr_slots::window::Window;
use fr_status::seen::Seen;
use fr_status::status::{SlotStatus, lent_status_of};
use std::io;
use std::io::Write;

/// Returns the word for bytes on a channel: a frame, or the reason why they are none.
fn bytes_word(channel: Channel, bytes: &[u8]) -> &'static str
    ensures { result.now ≡ bytes_word (refusal channel bytes.now) }
{
    match decode_lent(bytes, channel) {
        Ok(_) => "frame",
        Err(DecodeError::TooShort) => "short",
        Err(DecodeError::LengthMismatch) => "length",
        Err(DecodeError::HeaderCrc) => "header-crc",
        Err(DecodeError::FrameCrc) => "frame-crc",
    }
}

/// Returns whether the status is that of a frame.
fn is_frame(status: Option<SlotStatus>) -> bool
    ensures { result ≡ is_frame status }
{
    match status {
        Some(status) => status.valid || status.content,
        None => false,
    }
}

/// Returns the word for an observation on a channel. The status of the slot is given.
fn seen_word(
    params: &Params,
    window: &Window,
    channel: Channel,
    seen: &Seen,
    status: Option<SlotStatus>,
) -> &'static str
    requires { status ≡ status_on params.now window.now channel seen.now }
    ensures { result.now ≡ seen_word channel seen.now }
{
    match seen {
        Seen::Silence => "silence",
        Seen::Own => "own",
        Seen::Conflict => "conflict",
        Seen::Noise => "noise",
        Seen::Overrun => "overrun",
        // Most bytes are a frame, and are decoded once, for the status.
        Seen::Bytes(_) if is_frame(status) => "frame",
        Seen::Bytes(bytes) => bytes_word(channel, bytes.as_slice()),
    }
}

/// Returns the word of the bit that is set.
fn bit_word(status: &SlotStatus) -> &'static str
    ensures { result.now ≡ bit_word status.now }
{
    if status.valid {
        "valid"
    } else if status.syntax {
        "syntax"
    } else if status.content {
        "content"
    } else if status.boundary {
        "boundary"
    } else if status.conflict {
        "conflict"
    } else {
        "-"
    }
}

/// Returns the word of the bit of the slot status that is counted.
fn counted_word(status: Option<SlotStatus>) -> &'static str
    ensures { result.now ≡ counted_word status }
{
    match status {
        Some(status) => bit_word(&status),
        None => "-",
    }
}

/// Returns whether this is a data frame.
fn is_data(frame: Option<LentFrame<'_>>) -> bool
    ensures { result ≡ is_some (option_and_then with_data frame.entry) }
{
    match frame {
        Some(frame) => frame.has_data,
        None => false,
    }
}

/// Returns the status of the slot on the channel, if it has one, and whether a valid data frame is observed there.
fn judged_on(
    params: &Params,
    window: &Window,
    channel: Channel,
    seen: &Seen,
) -> (Option<SlotStatus>, bool)
    ensures status { result.0 ≡ status_on params.now window.now channel seen.now }
    ensures data { result.1 ≡ is_some (data_frame_seen params.now window.now channel seen.now) }
{
    match window.slot(channel) {
        Some(slot) => {
            let (status, frame) = lent_status_of(params, window.cycle, slot, channel, seen);
            (Some(status), is_data(frame))
        }
        None => (None, false),
    }
}

/// A window, as a node observes it.
#[derive(Clone, Copy)]
struct Observation<'a> {
    params: &'a Params,
    window: &'a Window,
    plan: &'a NodePlan,
    a: &'a Seen,
    b: &'a Seen,
}

/// Returns the receivers of the frame on a channel. The data frames that come in the window are given.
fn takers_on<'a>(observation: &Observation<'a>, came: Came, channel: Channel) -> Takers<'a>
    requires a { came.a ≡ is_some (data_frame_seen observation.now.params.now observation.now.window.now on.A
        observation.now.a.now) }
    requires b { came.b ≡ is_some (data_frame_seen observation.now.params.now observation.now.window.now on.B
        observation.now.b.now) }
    ensures { result ≡ takers_of observation.now.params.now observation.now.plan.now observation.now.window.now
        observation.now.a.now observation.now.b.now channel None }
{
    let observed = Observed {
        window: observation.window,
        came,
        channel,
        node: None,
    };
    Takers {
        plan: observation.plan,
        observed,
    }
}

/// Writes the receivers with commas between them, or a dash.
fn write_takers<W: Write>(writer: &mut W, takers: &Takers<'_>) -> io::Result<()>
    ensures { Writes W.contents writer.old writer.new result (takers_word takers.now) }
{
    if write_more(writer, false, takers)? {
        Ok(())
    } else {
        write!(writer, "-")
    }
}

/// Writes what the node observes on a channel, and the receivers.
#[tactic(auto, unfolding(crate::specs::Received::channel_text))]
fn write_channel<W: Write>(
    writer: &mut W,
    params: &Params,
    window: &Window,
    channel: Channel,
    seen: &Seen,
    status: Option<SlotStatus>,
    takers: &Takers<'_>,
) -> io::Result<()>
    requires { status ≡ status_on params.now window.now channel seen.now }
    ensures { Writes W.contents writer.old writer.new result
        (channel_text params.now window.now channel seen.now takers.now) }
{
    write!(
        writer,
        " {} ",
        seen_word(params, window, channel, seen, status)
    )?;
    write!(writer, "{} ", counted_word(status))?;
    write_takers(writer, takers)
}

/// Writes the start of a node's line.
#[tactic(auto, unfolding(crate::specs::Received::front_text))]
fn write_front<W: Write>(
    writer: &mut W,
    cycle: u32,
    window: &Window,
    node: NodeId,
) -> io::Result<()>
    ensures { Writes W.contents writer.old writer.new result (front_text cycle window.now node) }
{
    write!(writer, "{} {cycle} {}", window.number, node.number())
}

/// Writes the line of a node.
#[tactic(auto, unfolding(crate::specs::Received::node_line))]
fn write_line<W: Write>(
    writer: &mut W,
    cycle: u32,
    node: NodeId,
    observation: &Observation<'_>,
) -> io::Result<()>
    ensures { Writes W.contents writer.old writer.new result (node_line observation.now.params.now cycle
        observation.now.window.now node observation.now.plan.now observation.now.a.now observation.now.b.now) }
{
    let Observation {
        params,
        window,
        a,
        b,
        ..
    } = *observation;
    let (status_a, data_a) = judged_on(params, window, Channel::A, a);
    let (status_b, data_b) = judged_on(params, window, Channel::B, b);
    let came = Came {
        a: data_a,
        b: data_b,
    };
    write_front(writer, cycle, window, node)?;
    let takers = takers_on(observation, came, Channel::A);
    write_channel(writer, params, window, Channel::A, a, status_a, &takers)?;
    let takers = takers_on(observation, came, Channel::B);
    write_channel(writer, params, window, Channel::B, b, status_b, &takers)?;
    writer.write_all(b"\n")
}

/// Returns whether this is silence.
fn is_silent(seen: &Seen) -> bool
    ensures { result ≡ is_silent seen.now }
{
    matches!(seen, Seen::Silence)
}

/// Writes the line of a node, unless it observes silence on both channels.
#[tactic(auto, unfolding(crate::specs::Received::heard_text))]
fn write_heard<W: Write>(
    writer: &mut W,
    cycle: u32,
    node: NodeId,
    observation: &Observation<'_>,
) -> io::Result<()>
    ensures { Writes W.contents writer.old writer.new result (heard_text observation.now.params.now cycle
        observation.now.window.now node observation.now.plan.now observation.now.a.now observation.now.b.now) }
{
    if is_silent(observation.a) && is_silent(observation.b) {
        return Ok(());
    }
    write_line(writer, cycle, node, observation)
}

/// Writes what a window has of a node.
fn write_node<W: Write>(
    writer: &mut W,
    params: &Params,
    cycle: u32,
    sealed: &Sealed,
    node: NodeId,
    plan: &NodePlan,
) -> io::Result<()>
    ensures { Writes W.contents writer.old writer.new result
        (node_text params.now cycle sealed.now node plan.now) }
{
    let a = sealed.seen(params, Channel::A, node);
    let b = sealed.seen(params, Channel::B, node);
    let observation = Observation {
        params,
        window: &sealed.window,
        plan,
        a: &a,
        b: &b,
    };
    write_heard(writer, cycle, node, &observation)
}

/// Writes what a window has of these nodes.
fn write_nodes<W: Write>(
    writer: &mut W,
    params: &Params,
    cycle: u32,
    sealed: &Sealed,
    plans: &[NodePlan],
) -> io::Result<()>
    requires few { length plans.now ≤ 16 }
    ensures { Writes W.contents writer.old writer.new result
        (of_nodes (node_text params.now cycle sealed.now) 0 plans.now) }
{
    for (number, plan) in plans.iter().enumerate() {
        let node = NodeId::from_number(number as u8);
        write_node(writer, params, cycle, sealed, node, plan)?;
    }
    Ok(())
}

/// Writes what each node receives in a window (chapters 6 and 9; the lines are project-defined).
///
/// A node that observes anything has a line: the number of the window, the cycle of the run, and the node. For channel
/// A, and then for B, follow three words: the observation (`silence`, `own`, `conflict`, `noise`, `overrun`, `frame`,
/// or the reason why bytes are no frame: `short`, `length`, `header-crc`, `frame-crc`); the bit of the slot status that
/// is counted (`valid`, `syntax`, `content`, `boundary`, `conflict`), or a dash; and the receive buffers and the
/// receive FIFO that store the frame, as `b0,queue`, or a dash. Nodes come in the order of their numbers.
///
/// `cycle` is the cycle of the run in which the window lies, counted from 0.
///
/// Fails if the writer fails, which may have written a part of the lines by then.
pub(crate) fn write_received<W: Write>(
    writer: &mut W,
    cluster: &Cluster,
    cycle: u32,
    sealed: &Sealed,
) -> io::Result<()>
    ensures { Writes W.contents writer.old writer.new result (received_in cluster.now cycle sealed.now) }
{
    // In most windows no node sends.
    write_nodes(writer, cluster.params(), cycle, sealed, cluster.plans())
}
