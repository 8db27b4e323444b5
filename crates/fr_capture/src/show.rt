//! A trace, read and shown.
//!
//! A capture is an audit and one walk. Each entry is made anew and each frame is decoded again, since a journal keeps
//! neither.

ghost use Rattle.std.specs.Prelude.{◌≡◌, ◌≤◌, ◌++◌, [], IfErr, IfSome, IsSomeAnd, OnErr, OnOk};
ghost use Rattle.std.specs.Io.KnownBytes.{Appends};
ghost use Rattle.std.specs.List.{flat_map};
ghost use Rattle.fr_files.specs.Outputs.{AppendsFront, FallsShort};
ghost use Rattle.fr_text.specs.Writing.{Writes};
ghost use Rattle.fr_interface.specs.State.{State, IsNodeInterface};
ghost use Rattle.fr_trace.specs.Audit.{IsNotRefused};
ghost use Rattle.fr_trace.specs.Refusals.{LineIsNamed};
ghost use Rattle.fr_trace.specs.TraceText.{IsTraceOf};
ghost use Rattle.fr_capture.specs.Clocks.{seen_after, sighting_at, HasRounds};
ghost use Rattle.fr_capture.specs.Shows.{heading, shown, shown_of, text_of, Ends, IsUnwritten, Shows};

use crate::captured::write_captured;
use crate::form::Form;
use crate::lines::write_lines;
use crate::moment::{Moment, moment_after};
use crate::pcap::write_file_header;
use crate::table::write_head_line;
use fr_files::output::write_text;
use fr_interface::interface::Interface;
use fr_journal::entry::Entry;
use fr_slots::channel::Channel;
use fr_status::seen::Seen;
use fr_trace::audit::interface_of;
use fr_trace::error::TraceError;
use std::alloc::Global;
use std::io;
use std::io::{Read, Write};

/// The number of bytes that are handed to the writer at once.
const ENOUGH: usize = 65_536;

/// The room for `ENOUGH` bytes, and for the rest of the entry that completes them.
const ROOM: usize = ENOUGH + 4096;

/// Writes the heading of all observations.
fn write_heading<W: Write>(writer: &mut W, form: Form) -> io::Result<()>
    ensures { Writes W.contents writer.old writer.new result (heading form) }
{
    match form {
        Form::Capture { .. } => write_file_header(writer),
        Form::Table { .. } => write_head_line(writer),
    }
}

/// Writes the observations in the window fetched last, on channel A and then on B.
fn write_seen<W: Write>(
    writer: &mut W,
    form: Form,
    interface: &Interface,
    moment: &Moment,
    a: &Seen,
    b: &Seen,
) -> io::Result<()>
    requires { moment.now.rounds ≤ 1000000 }
    ensures { Writes W.contents writer.old writer.new result
        (shown form interface.now.params (sighting_at interface.now moment.now a.now b.now Channel.A)
        ++ shown form interface.now.params (sighting_at interface.now moment.now a.now b.now Channel.B)) }
{
    match form {
        Form::Capture { own } => {
            write_captured(writer, own, interface, moment, Channel::A, a)?;
            write_captured(writer, own, interface, moment, Channel::B, b)
        }
        Form::Table { all } => write_lines(writer, all, interface, moment, a, b),
    }
}

/// Writes the observations of an entry, after the window fetched last.
fn write_entry<W: Write>(
    writer: &mut W,
    form: Form,
    interface: &Interface,
    last: &Option<Moment>,
    entry: &Entry,
) -> io::Result<()>
    requires { HasRounds 1000000 last.now }
    ensures { Writes W.contents writer.old writer.new result
        (flat_map (shown form interface.now.params) (seen_after interface.now last.now entry.now)) }
{
    let Entry::Observe { a, b, .. } = entry else {
        return Ok(());
    };
    match last {
        Some(moment) => write_seen(writer, form, interface, moment, a, b),
        None => Ok(()),
    }
}

/// Hands a piece to the writer, and leaves it empty.
fn hand_on<W: Write>(writer: &mut W, piece: &mut Vec<u8>) -> io::Result<()>
    ensures written { OnOk result (Appends (W.contents writer.old) (W.contents writer.new) piece.old.items) }
    ensures empty { OnOk result (piece.new.items ≡ []) }
    ensures cut { OnErr result (FallsShort (W.contents writer.old) (W.contents writer.new) piece.old.items) }
{
    write_text(writer, piece.as_slice())?;
    piece.clear();
    Ok(())
}

/// Writes the observations, piece by piece.
fn write_pieces<W: Write>(
    writer: &mut W,
    form: Form,
    interface: &Interface,
    piece: &mut Vec<u8>,
) -> io::Result<()>
    requires { piece.old.items ≡ [] }
    ensures written { Writes W.contents writer.old writer.new result
        (shown_of form interface.now interface.now.entries) }
    ensures cut { OnErr result (AppendsFront (W.contents writer.old) (W.contents writer.new)
        (shown_of form interface.now interface.now.entries)) }
{
    let (params, journal) = (interface.params(), interface.journal());
    let mut last = None;
    write_heading(piece, form)?;
    for number in 0..journal.len() {
        if let Some(entry) = journal.get(number) {
            write_entry(piece, form, interface, &last, &entry)?;
            last = moment_after(params, last, number, &entry);
        }
        if piece.len() >= ENOUGH {
            hand_on(writer, piece)?;
        }
    }
    hand_on(writer, piece)
}

/// Writes the observations of a controller in this form, as a capture or a table (project-defined).
///
/// Returns `Memory` if an allocation for the first piece fails; nothing is written then. Returns `Write` if the writer
/// fails; a front of the output may then have been written.
pub fn write_form<W: Write>(
    alloc: Global,
    form: Form,
    interface: &Interface,
    writer: &mut W,
) -> Result<(), TraceError>
    ensures written { Writes W.contents writer.old writer.new result (text_of form interface.now) }
    ensures refused { IfErr result (λ e.
        IsUnwritten (text_of form interface.now) (W.contents writer.old) (W.contents writer.new) e) }
{
    let Ok(mut piece) = Vec::with_capacity(alloc, ROOM) else {
        return Err(TraceError::Memory);
    };
    match write_pieces(writer, form, interface, &mut piece) {
        Ok(()) => Ok(()),
        Err(_) => Err(TraceError::Write),
    }
}

/// Reads a trace to its end, and writes its observations in this form (project-defined).
///
/// Returns the error of the first line at fault, at which it stops reading; `Read` if the reader fails; `Memory` if an
/// allocation fails; and `Write` if the writer fails. Nothing is written on an error other than `Write`. After `Write`
/// a front of the output may have been written.
pub fn show_trace<R: Read, W: Write>(
    alloc: Global,
    form: Form,
    reader: &mut R,
    writer: &mut W,
) -> Result<(), TraceError>
    // An accepted text is a text of a legal interface, whose observations are written in order.
    ensures found { Shows (text_of form) (R.remaining reader.old) (W.contents writer.old)
        (W.contents writer.new) result }
    // It reads in pieces of at most 4096 bytes, and none after the one that has the fault.
    ensures read { Ends (R.remaining reader.old) (R.remaining reader.new) result }
    // The line that an error names is that of the byte with which the first fault shows.
    ensures line { IfSome (R.remaining reader.old) (λ text. LineIsNamed result text) }
    // A text of a legal interface is accepted in each version.
    ensures only { (s : State) → IsNodeInterface s → IsSomeAnd (R.remaining reader.old) (λ text. IsTraceOf s text)
        → IsNotRefused result }
{
    let interface = interface_of(alloc, reader)?;
    write_form(alloc, form, &interface, writer)
}
