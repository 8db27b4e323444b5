//! The lines of a trace, written with their line feeds (project-defined).
//!
//! Each function fails if the writer fails. Then a part of the line may have gone out.
ghost use Rattle.std.specs.Prelude.{◌≡◌, ◌∷◌};
ghost use Rattle.fr_text.specs.Writing.{Writes};
ghost use Rattle.fr_journal.specs.declared.entry.Entry.TheVariants as entries;
ghost use Rattle.fr_lines.specs.declared.versions.Version.TheVariants.{Three};
ghost use Rattle.fr_lines.specs.Parts.{channels_word, flag_word, from_word, offered_word, optional_number, seen_word};
ghost use Rattle.fr_lines.specs.Spelling.{line_text, params_words, node_words, own_words, transmit_words};
ghost use Rattle.fr_lines.specs.Spelling.{receive_words, buffer_words, queue_words, entry_words};

use fr_frame::payload::Payload;
use fr_journal::entry::{Entry, Offered, Origin};
use fr_slots::channel::{Channel, Channels};
use fr_slots::filter::Filter;
use fr_slots::numbers::{SlotId, TaskId};
use fr_slots::params::Params;
use fr_slots::plan::{Buffer, Mode, NodePlan, Own, Queue};
use fr_slots::window::Window;
use fr_status::seen::Seen;
use fr_text::hexes::write_hex;
use std::io;
use std::io::Write;

/// Returns the word of channels: `A`, `B`, or `AB` for both (project-defined).
pub fn channels_word(channels: Channels) -> &'static str
    ensures { result.now ≡ channels_word channels }
{
    match channels {
        Channels::A => "A",
        Channels::B => "B",
        Channels::Both => "AB",
    }
}

/// Returns the word of a flag.
fn flag_word(flag: bool) -> &'static str
    ensures { result.now ≡ flag_word flag }
{
    if flag { "1" } else { "0" }
}

/// Writes a space, and the word of a slot or of no slot.
pub fn write_slot<W: Write>(writer: &mut W, slot: Option<SlotId>) -> io::Result<()>
    ensures { Writes W.contents writer.old writer.new result (32 ∷ optional_number slot) }
{
    match slot {
        Some(slot) => write!(writer, " {}", slot.number()),
        None => write!(writer, " -"),
    }
}

/// Writes a space, and the word of a number of two-byte words, or of none stated.
fn write_size<W: Write>(writer: &mut W, words: Option<u8>) -> io::Result<()>
    ensures { Writes W.contents writer.old writer.new result (32 ∷ optional_number words) }
{
    match words {
        Some(words) => write!(writer, " {words}"),
        None => write!(writer, " -"),
    }
}

/// Writes a space, and the word of the withdrawn commit, or of none.
fn write_taken_back<W: Write>(writer: &mut W, of: Option<u32>) -> io::Result<()>
    ensures { Writes W.contents writer.old writer.new result (32 ∷ optional_number of) }
{
    match of {
        Some(commit) => write!(writer, " {commit}"),
        None => write!(writer, " -"),
    }
}

/// Writes a space, and the word of a frame's origin.
fn write_from<W: Write>(writer: &mut W, from: &Option<Origin>) -> io::Result<()>
    ensures { Writes W.contents writer.old writer.new result (32 ∷ from_word from.now) }
{
    let Some(origin) = from else {
        return write!(writer, " -");
    };
    match origin.channel {
        Channel::A => write!(writer, " {}:A", origin.entry),
        Channel::B => write!(writer, " {}:B", origin.entry),
    }
}

/// Writes a space, and the word of an offer.
fn write_offered<W: Write>(writer: &mut W, offered: Offered) -> io::Result<()>
    ensures { Writes W.contents writer.old writer.new result (32 ∷ offered_word offered) }
{
    match offered {
        Offered::Nothing => write!(writer, " -"),
        Offered::Null => write!(writer, " null"),
        Offered::Data(commit) => write!(writer, " {commit}"),
    }
}

/// Writes a space, and the word of an observation.
fn write_seen<W: Write>(writer: &mut W, seen: &Seen) -> io::Result<()>
    ensures { Writes W.contents writer.old writer.new result (32 ∷ seen_word seen.now) }
{
    match seen {
        Seen::Silence => write!(writer, " -"),
        Seen::Own => write!(writer, " own"),
        Seen::Conflict => write!(writer, " conflict"),
        Seen::Noise => write!(writer, " noise"),
        Seen::Overrun => write!(writer, " overrun"),
        Seen::Bytes(bytes) => {
            write!(writer, " ")?;
            write_hex(writer, bytes.as_slice())
        }
    }
}

/// Writes the line of the parameters.
pub fn write_params<W: Write>(writer: &mut W, params: &Params) -> io::Result<()>
    ensures { Writes W.contents writer.old writer.new result (line_text (params_words params.now)) }
{
    write!(
        writer,
        "params {} {}",
        params.static_slots, params.minislots
    )?;
    write!(writer, " {} {}", params.static_words, params.static_mt)?;
    write!(writer, " {} {}", params.minislot_mt, params.symbol_mt)?;
    write!(writer, " {} {}", params.nit_mt, params.cycle_mt)?;
    writeln!(writer, " {} {}", params.idle, params.words_per_minislot)
}

/// Writes the line of a plan's numbers. Its ownership lines, buffers and receive FIFO have lines of their own.
pub fn write_node<W: Write>(writer: &mut W, plan: &NodePlan) -> io::Result<()>
    ensures { Writes W.contents writer.old writer.new result (line_text (node_words plan.now)) }
{
    let (latest_a, latest_b) = (plan.latest(Channel::A), plan.latest(Channel::B));
    write!(writer, "node {} {latest_a} {latest_b}", plan.tasks())?;
    writeln!(writer, " {} {}", plan.host_entries(), plan.slot_entries())
}

/// Writes an ownership line of version 3, which has its cycles.
pub fn write_own<W: Write>(writer: &mut W, own: &Own) -> io::Result<()>
    ensures { Writes W.contents writer.old writer.new result (line_text (own_words Three own.now)) }
{
    let channels = channels_word(own.channels);
    let (sync, startup) = (flag_word(own.sync), flag_word(own.startup));
    write!(
        writer,
        "own {} {channels} {sync} {startup}",
        own.slot.number()
    )?;
    let (base, repetition) = (own.cycles.base(), own.cycles.repetition());
    writeln!(writer, " {base} {repetition}")
}

/// Writes the line of a transmit buffer of this mode.
fn write_transmit<W: Write>(writer: &mut W, mode: &str, buffer: &Buffer) -> io::Result<()>
    ensures { Writes W.contents writer.old writer.new result (line_text (transmit_words mode.now buffer.now)) }
{
    let filter = &buffer.filter;
    let (slot, channels) = (filter.slot.number(), channels_word(filter.channels));
    let (base, repetition) = (filter.cycles.base(), filter.cycles.repetition());
    write!(writer, "tx {mode} {slot} {channels} {base} {repetition}")?;
    write_size(writer, buffer.words)?;
    writeln!(writer, " {}", flag_word(buffer.preamble))
}

/// Writes the line of a receive buffer.
fn write_receive<W: Write>(writer: &mut W, filter: &Filter) -> io::Result<()>
    ensures { Writes W.contents writer.old writer.new result (line_text (receive_words filter.now)) }
{
    let (slot, channels) = (filter.slot.number(), channels_word(filter.channels));
    let (base, repetition) = (filter.cycles.base(), filter.cycles.repetition());
    writeln!(writer, "rx {slot} {channels} {base} {repetition}")
}

/// Writes the line of a buffer.
pub fn write_buffer<W: Write>(writer: &mut W, buffer: &Buffer) -> io::Result<()>
    ensures { Writes W.contents writer.old writer.new result (line_text (buffer_words buffer.now)) }
{
    match buffer.mode {
        Mode::Event => write_transmit(writer, "event", buffer),
        Mode::State => write_transmit(writer, "state", buffer),
        Mode::Receive => write_receive(writer, &buffer.filter),
    }
}

/// Writes the line of a receive FIFO.
pub fn write_queue<W: Write>(writer: &mut W, queue: &Queue) -> io::Result<()>
    ensures { Writes W.contents writer.old writer.new result (line_text (queue_words queue.now)) }
{
    let (first, last) = (queue.first.number(), queue.last.number());
    let channels = channels_word(queue.channels);
    write!(writer, "queue {} {first} {last} {channels}", queue.capacity)?;
    let (base, repetition) = (queue.cycles.base(), queue.cycles.repetition());
    writeln!(writer, " {base} {repetition}")
}

/// Writes the line of a fetch of the window, with these offers on A and on B.
pub fn write_fetch<W: Write>(
    writer: &mut W,
    window: &Window,
    a: Offered,
    b: Offered,
) -> io::Result<()>
    ensures { Writes W.contents writer.old writer.new result (line_text (entry_words (entries.Fetch window.now a b))) }
{
    let (number, cycle) = (window.number, window.cycle.number());
    write!(writer, "fetch {number} {cycle} {}", window.minislot)?;
    write_slot(writer, window.a)?;
    write_slot(writer, window.b)?;
    write_offered(writer, a)?;
    write_offered(writer, b)?;
    writeln!(writer)
}

/// Writes the line of an observe of the window of this number, with these observations on A and on B.
pub fn write_observe<W: Write>(writer: &mut W, window: u32, a: &Seen, b: &Seen) -> io::Result<()>
    ensures { Writes W.contents writer.old writer.new result
        (line_text (entry_words (entries.Observe window a.now b.now))) }
{
    write!(writer, "see {window}")?;
    write_seen(writer, a)?;
    write_seen(writer, b)?;
    writeln!(writer)
}

/// Writes the line of a commit.
fn write_commit<W: Write>(
    writer: &mut W,
    task: TaskId,
    buffer: u8,
    payload: &Payload,
) -> io::Result<()>
    ensures { Writes W.contents writer.old writer.new result
        (line_text (entry_words (entries.Commit task buffer payload.now))) }
{
    write!(writer, "commit {} {buffer} ", task.number())?;
    write_hex(writer, payload.as_slice())?;
    writeln!(writer)
}

/// Writes the line of a withdraw.
fn write_withdraw<W: Write>(
    writer: &mut W,
    task: TaskId,
    buffer: u8,
    of: Option<u32>,
) -> io::Result<()>
    ensures { Writes W.contents writer.old writer.new result
        (line_text (entry_words (entries.Withdraw task buffer of))) }
{
    write!(writer, "withdraw {} {buffer}", task.number())?;
    write_taken_back(writer, of)?;
    writeln!(writer)
}

/// Writes the line of a read.
fn write_read<W: Write>(
    writer: &mut W,
    task: TaskId,
    buffer: u8,
    from: &Option<Origin>,
) -> io::Result<()>
    ensures { Writes W.contents writer.old writer.new result
        (line_text (entry_words (entries.Read task buffer from.now))) }
{
    write!(writer, "read {} {buffer}", task.number())?;
    write_from(writer, from)?;
    writeln!(writer)
}

/// Writes the line of a pop.
fn write_pop<W: Write>(writer: &mut W, task: TaskId, from: &Option<Origin>) -> io::Result<()>
    ensures { Writes W.contents writer.old writer.new result (line_text (entry_words (entries.Pop task from.now))) }
{
    write!(writer, "pop {}", task.number())?;
    write_from(writer, from)?;
    writeln!(writer)
}

/// Writes the line of an entry. Version 1 has none for a withdraw.
pub fn write_entry<W: Write>(writer: &mut W, entry: &Entry) -> io::Result<()>
    ensures { Writes W.contents writer.old writer.new result (line_text (entry_words entry.now)) }
{
    match entry {
        Entry::Commit {
            task,
            buffer,
            payload,
        } => write_commit(writer, *task, *buffer, payload),
        Entry::Withdraw { task, buffer, of } => write_withdraw(writer, *task, *buffer, *of),
        Entry::Read { task, buffer, from } => write_read(writer, *task, *buffer, from),
        Entry::Pop { task, from } => write_pop(writer, *task, from),
        Entry::Fetch { window, a, b } => write_fetch(writer, window, *a, *b),
        Entry::Observe { window, a, b } => write_observe(writer, *window, a, b),
    }
}
