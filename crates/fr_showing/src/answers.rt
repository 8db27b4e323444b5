//! The lines of the scripts of a run, each with its answer.
ghost use Rattle.std.specs.Prelude.{◌≡◌, slice_get};
ghost use Rattle.std.specs.List.{flat_map};
ghost use Rattle.fr_text.specs.Spaces.{line_of};
ghost use Rattle.fr_text.specs.Writing.{Writes};
ghost use Rattle.fr_showing.specs.AnswerText.{told_words, answer_words, channel_word, answer_line, origin_of};
ghost use Rattle.fr_showing.specs.AnswerText.{answered_line, channel_answered, channel_in, frame_words, reply_line};
ghost use Rattle.fr_showing.specs.AnswerText.{came_answered, came_line, came_text, origin_answered, reply_text};
ghost use Rattle.fr_showing.specs.AnswerSteps.{asked_by};

use fr_core::event::Reply;
use fr_core::script::Line;
use fr_core::world::World;
use fr_frame::frame::Frame;
use fr_interface::call::{Answer, Call};
use fr_journal::entry::{Entry, Origin};
use fr_playing::call::ExecutedCall;
use fr_playing::nodes::interface_of;
use fr_slots::channel::Channel;
use fr_slots::numbers::{NodeId, TaskId};
use fr_text::hexes::write_hex;
use std::io;
use std::io::Write;

/// Returns the origin of the frame of a read or a pop.
fn origin_of(entry: &Entry) -> Option<Origin>
    ensures { result ≡ origin_of entry.now }
{
    match entry {
        Entry::Read { from, .. } | Entry::Pop { from, .. } => *from,
        _ => None,
    }
}

/// Returns the channel of the frame of the entry of this number.
fn channel_of(world: &World, node: NodeId, number: u32) -> Option<Channel>
    ensures { result ≡ channel_in (slice_get world.now.interfaces node) number }
{
    let interface = interface_of(world, node)?;
    let entry = interface.journal().get(number)?;
    let origin = origin_of(&entry)?;
    Some(origin.channel)
}

/// Writes the call of a task.
fn write_host_call<W: Write>(writer: &mut W, call: &Call) -> io::Result<()>
    ensures { Writes W.contents writer.old writer.new result (line_of (told_words call.now)) }
{
    match call {
        Call::Commit { buffer, payload } => {
            write!(writer, "commit {buffer} ")?;
            write_hex(writer, payload.as_slice())
        }
        Call::Withdraw { buffer } => write!(writer, "withdraw {buffer}"),
        Call::Read { buffer } => write!(writer, "read {buffer}"),
        Call::Pop => write!(writer, "pop"),
    }
}

/// Returns the word of a channel or of none.
fn channel_word(channel: Option<Channel>) -> &'static str
    ensures { result.now ≡ channel_word channel }
{
    match channel {
        Some(Channel::A) => "A",
        Some(Channel::B) => "B",
        None => "-",
    }
}

/// Writes a frame that was read or popped.
fn write_frame<W: Write>(writer: &mut W, channel: Option<Channel>, frame: &Frame) -> io::Result<()>
    ensures { Writes W.contents writer.old writer.new result (line_of (frame_words channel frame.now)) }
{
    let (cycle, word) = (frame.cycle.number(), channel_word(channel));
    write!(writer, "{cycle} {} {word} ", frame.id)?;
    write_hex(writer, frame.payload.as_slice())
}

/// Writes the answer, with the channel of a frame.
fn write_answer<W: Write>(writer: &mut W, channel: Option<Channel>, reply: &Reply) -> io::Result<()>
    ensures { Writes W.contents writer.old writer.new result (line_of (answer_words channel reply.now)) }
{
    match reply {
        Reply::Committed(receipt) => write!(writer, "{}", receipt.entry),
        Reply::Withdrawn(Some(commit)) => write!(writer, "{commit}"),
        Reply::Frame(Some(frame)) => write_frame(writer, channel, frame),
        _ => write!(writer, "-"),
    }
}

/// A call of a task.
#[derive(Clone, Copy)]
struct TaskCall<'a> {
    /// The node.
    node: NodeId,
    /// The task.
    task: TaskId,
    /// The cycle of the run, from 0.
    cycle: u16,
    /// The call.
    call: &'a Call,
}

/// Writes a call, with this reply and the channel of its frame, without a line feed.
fn write_reply_text<W: Write>(
    writer: &mut W,
    made: &TaskCall<'_>,
    channel: Option<Channel>,
    reply: &Reply,
) -> io::Result<()>
    ensures { Writes W.contents writer.old writer.new result (reply_text channel (asked_by made.now) reply.now) }
{
    let (node, task) = (made.node.number(), made.task.number());
    write!(writer, "{node} {task} {} ", made.cycle)?;
    write_host_call(writer, made.call)?;
    write!(writer, " = ")?;
    write_answer(writer, channel, reply)
}

/// Writes the line of a call, with this reply and the channel of its frame.
fn write_reply<W: Write>(
    writer: &mut W,
    made: &TaskCall<'_>,
    channel: Option<Channel>,
    reply: &Reply,
) -> io::Result<()>
    ensures { Writes W.contents writer.old writer.new result (reply_line channel (asked_by made.now) reply.now) }
{
    write_reply_text(writer, made, channel, reply)?;
    writeln!(writer)
}

/// Writes a space and the cycle of the run in which the frame of a reply came, or nothing without a frame.
fn write_came<W: Write>(writer: &mut W, came: Option<u32>, reply: &Reply) -> io::Result<()>
    ensures { Writes W.contents writer.old writer.new result (came_text came reply.now) }
{
    match (reply, came) {
        (Reply::Frame(Some(_)), Some(cycle)) => write!(writer, " {cycle}"),
        (Reply::Frame(Some(_)), None) => write!(writer, " -"),
        _ => Ok(()),
    }
}

/// Writes the line of a call, with this reply, and the channel of its frame and the cycle in which it came.
fn write_came_line<W: Write>(
    writer: &mut W,
    made: &TaskCall<'_>,
    came: Option<u32>,
    channel: Option<Channel>,
    reply: &Reply,
) -> io::Result<()>
    ensures { Writes W.contents writer.old writer.new result
        (came_line came channel (asked_by made.now) reply.now) }
{
    write_reply_text(writer, made, channel, reply)?;
    write_came(writer, came, reply)?;
    writeln!(writer)
}

/// Writes the line of an executed call, with its answer.
fn write_call<W: Write>(writer: &mut W, world: &World, call: &ExecutedCall) -> io::Result<()>
    ensures { Writes W.contents writer.old writer.new result (answer_line world.now call.now) }
{
    let made = TaskCall {
        node: call.node,
        task: call.task,
        cycle: call.cycle,
        call: &call.call,
    };
    let channel = channel_of(world, call.node, call.entry);
    write_reply(writer, &made, channel, &call.reply)
}

/// Returns the channel of the frame in an answer.
fn channel_answered(answer: &Answer) -> Option<Channel>
    ensures { result ≡ channel_answered answer.now }
{
    match answer {
        Answer::Frame(Some(arrival)) => Some(arrival.origin.channel),
        _ => None,
    }
}

/// Returns the cycle of the run in which the frame in an answer came.
fn came_answered(answer: &Answer) -> Option<u32>
    ensures { result ≡ came_answered answer.now }
{
    match answer {
        Answer::Frame(Some(arrival)) => Some(arrival.cycle),
        _ => None,
    }
}

/// Writes the line of a task's call, as `write_answers` does, with the answer of the node's interface
/// (project-defined).
///
/// Fails if the writer fails. Then a part of the line may have gone out.
pub fn write_answered<W: Write>(
    writer: &mut W,
    node: NodeId,
    task: TaskId,
    line: &Line,
    answer: Answer,
) -> io::Result<()>
    ensures { Writes W.contents writer.old writer.new result
        (answered_line (record { node = node; task = task; cycle = line.now.cycle; call = line.now.action }) answer) }
{
    let made = TaskCall {
        node,
        task,
        cycle: line.cycle,
        call: &line.action,
    };
    let channel = channel_answered(&answer);
    write_reply(writer, &made, channel, &Reply::from(answer))
}

/// Writes the same line, and after the words of a frame the cycle of the run in which it came, counted from 0
/// (project-defined).
///
/// Fails if the writer fails. Then a part of the line may have gone out.
pub fn write_origin<W: Write>(
    writer: &mut W,
    node: NodeId,
    task: TaskId,
    line: &Line,
    answer: Answer,
) -> io::Result<()>
    ensures { Writes W.contents writer.old writer.new result
        (origin_answered (record { node = node; task = task; cycle = line.now.cycle; call = line.now.action }) answer) }
{
    let made = TaskCall {
        node,
        task,
        cycle: line.cycle,
        call: &line.action,
    };
    let (came, channel) = (came_answered(&answer), channel_answered(&answer));
    write_came_line(writer, &made, came, channel, &Reply::from(answer))
}

/// Writes a line for each of the calls, in their order (project-defined).
///
/// A line has the node, the task, the cycle of the run, the call in the words of a scenario, `=`, and the answer. The
/// answer of a commit is the number of its entry, that of a withdraw the number of the withdrawn commit. For a read or
/// a pop it is the cycle count, the slot, the channel and the payload of the frame. It is `-` for none.
///
/// Fails if the writer fails. Then a part of the text may have gone out.
pub fn write_answers<W: Write>(
    writer: &mut W,
    world: &World,
    calls: &[ExecutedCall],
) -> io::Result<()>
    ensures { Writes W.contents writer.old writer.new result (flat_map (answer_line world.now) calls.now) }
{
    for call in calls {
        write_call(writer, world, call)?;
    }
    Ok(())
}
