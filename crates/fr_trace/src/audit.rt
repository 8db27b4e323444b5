//! The audit of a reader's bytes.

ghost use Rattle.std.specs.Prelude.{IfOk, IfSome, IsSomeAnd};
ghost use Rattle.fr_interface.specs.State.{State, IsNodeInterface};
ghost use Rattle.fr_trace.specs.Audit.{Audits, Stops, Leaves, ReadsThrough, IsNotRefused, Understands, outcome};
ghost use Rattle.fr_trace.specs.Refusals.{HasFewLines, LineIsNamed, ShortIfTaken};
ghost use Rattle.fr_trace.specs.TraceText.{IsTraceOf};

use crate::auditor::Auditor;
use crate::error::TraceError;
use crate::pieces::lawful;
use crate::report::write_report;
use fr_interface::interface::Interface;
use std::alloc::Global;
use std::io::{ErrorKind, Read, Write};

/// The number of bytes that are asked for at a time.
const ROOM: usize = 4096;

/// Returns the interface that the reader's bytes leave. It stops reading at an error, and repeats an interrupted read.
fn read_through<R: Read>(alloc: Global, reader: &mut R) -> Result<Interface, TraceError>
    ensures through { ReadsThrough (R.remaining reader.old) (R.remaining reader.new) result }
    ensures legal { IfOk result IsNodeInterface }
    ensures few { IfOk result HasFewLines }
{
    let mut auditor = Auditor::new(alloc);
    let mut room = [0u8; ROOM];
    // The loop ends with `Read` after 2^64 - 1 reads, so that its termination can be proved.
    'pieces: for _ in 0..u64::MAX {
        let count = match reader.read(&mut room) {
            Ok(count) => count,
            Err(error) if error.kind() == ErrorKind::Interrupted => continue,
            Err(_) => return Err(TraceError::Read),
        };
        if count == 0 {
            return lawful(auditor.finish());
        }
        let fed = auditor.feed(&room[..count]);
        if let Err(fault) = fed {
            return Err(fault);
        }
    }
    Err(TraceError::Read)
}

/// Reads a trace to its end, and returns its interface.
///
/// Use this instead of `audit` if you need more than the report.
///
/// Returns the error of the first line at fault, at which it stops reading; `Read` if the reader fails; and `Memory` if
/// an allocation fails. `Write` never occurs.
pub fn interface_of<R: Read>(alloc: Global, reader: &mut R) -> Result<Interface, TraceError>
    // An accepted text is a text of the legal interface that is returned.
    ensures found { Understands (R.remaining reader.old) result }
    // It reads in pieces of at most 4096 bytes, and none after the one that has the fault.
    ensures read { Stops (R.remaining reader.old) (R.remaining reader.new) (outcome result) }
    // The line that an error names is that of the byte with which the first fault shows.
    ensures line { IfSome (R.remaining reader.old) (λ text. LineIsNamed result text) }
    // A text of a legal interface is accepted in each version.
    ensures only { (s : State) → IsNodeInterface s → IsSomeAnd (R.remaining reader.old) (λ text. IsTraceOf s text)
        → IsNotRefused result }
{
    read_through(alloc, reader)
}

/// Reads a trace to its end, and writes the report of its interface.
fn audit_through<R: Read, W: Write>(
    alloc: Global,
    reader: &mut R,
    writer: &mut W,
) -> Result<(), TraceError>
    ensures left { Leaves (R.remaining reader.old) (R.remaining reader.new)
        (W.contents writer.old) (W.contents writer.new) result }
    ensures short { ShortIfTaken result (R.remaining reader.old) }
{
    let interface = match read_through(alloc, reader) {
        Ok(interface) => interface,
        Err(fault) => return Err(fault),
    };
    write_report(&interface, writer)
}

/// Reads a trace to its end, and writes its report.
///
/// Returns the error of the first line at fault, at which it stops reading; `Read` if the reader fails; `Memory` if an
/// allocation fails; and `Write` if the writer fails. Nothing is written on an error other than `Write`. After `Write`
/// a part of the report may have been written.
pub fn audit<R: Read, W: Write>(
    alloc: Global,
    reader: &mut R,
    writer: &mut W,
) -> Result<(), TraceError>
    // An accepted text is a text of a legal interface, whose report is written.
    ensures found { Audits (R.remaining reader.old) (W.contents writer.old) (W.contents writer.new) result }
    // It reads in pieces of at most 4096 bytes, and none after the one that has the fault.
    ensures read { Stops (R.remaining reader.old) (R.remaining reader.new) result }
    // An accepted text is no longer than the longest text.
    ensures short { ShortIfTaken result (R.remaining reader.old) }
    // The line that an error names is that of the byte with which the first fault shows.
    ensures line { IfSome (R.remaining reader.old) (λ text. LineIsNamed result text) }
    // A text of a legal interface is accepted in each version.
    ensures only { (s : State) → IsNodeInterface s → IsSomeAnd (R.remaining reader.old) (λ text. IsTraceOf s text)
        → IsNotRefused result }
{
    audit_through(alloc, reader, writer)
}
