//! `fr_bench audit`.
ghost use Rattle.std.specs.Prelude.{◌≡◌, ◌≤◌, ℕ, List, Option, IsSomeAnd, length};
ghost use Rattle.std.specs.Io.KnownBytes.{Consumes};
ghost use Rattle.fr_auditing.specs.LongText.{long_text};
ghost use Rattle.fr_bench.specs.Audits.{Ends, EndsBy, Finds, FindsBy};
ghost use Rattle.fr_bench.specs.Reading.{Reports};
ghost use Rattle.fr_interface.specs.State.{State, IsLegalInterface, IsNodeInterface};
ghost use Rattle.fr_trace.specs.Audit.{IsNotRefused};
ghost use Rattle.fr_trace.specs.ReportText.{report_text};
ghost use Rattle.fr_trace.specs.TraceText.{IsTraceOf};

use crate::reading::{head_of, is_later, read_text};
use fr_files::output::write_text;
use fr_interface::interface::LiveInterface;
use fr_trace::error::TraceError;
use fr_trace::report::write_report;
use std::alloc::Global;
use std::io::{BufRead, Write};

/// Writes the report of an interface.
///
/// The report is gathered in memory and then written at once, so that no part of an incomplete report is written.
///
/// Returns `Memory` if an allocation fails; and `Write` if the writer fails, which may have taken a front of the
/// report.
fn report<W: Write>(
    alloc: Global,
    interface: &LiveInterface,
    writer: &mut W,
) -> Result<(), TraceError>
    ensures { Reports (report_text interface.now) (W.contents writer.old) (W.contents writer.new) result }
{
    let mut report = Vec::new(alloc);
    // A list of bytes fails to grow only if an allocation fails.
    if write_report(interface, &mut report).is_err() {
        return Err(TraceError::Memory);
    }
    match write_text(writer, report.as_slice()) {
        Ok(()) => Ok(()),
        Err(_) => Err(TraceError::Write),
    }
}

/// Reads a text after its head, which is of version 4 if `later`, and writes its report.
fn audit_by<R: BufRead, W: Write>(
    alloc: Global,
    later: bool,
    head: &[u8],
    reader: &mut R,
    writer: &mut W,
) -> Result<(), TraceError>
    requires { length head.now ≤ 4096 }
    ensures found { (text : Option (List ℕ)) → Consumes text (R.remaining reader.old) head.now
        → FindsBy later text (W.contents writer.old) (W.contents writer.new) result }
    ensures read { (text : Option (List ℕ)) → Consumes text (R.remaining reader.old) head.now
        → EndsBy later text (R.remaining reader.new) result }
{
    let interface = match read_text(alloc, later, head, reader) {
        Ok(interface) => interface,
        Err(fault) => return Err(fault),
    };
    report(alloc, &interface, writer)
}

/// Reads a trace to its end and writes its report.
fn audit_through<R: BufRead, W: Write>(
    alloc: Global,
    reader: &mut R,
    writer: &mut W,
) -> Result<(), TraceError>
    ensures found { Finds (R.remaining reader.old) (W.contents writer.old) (W.contents writer.new) result }
    ensures read { Ends (R.remaining reader.old) (R.remaining reader.new) result }
{
    let head = match head_of(reader) {
        Ok(head) => head,
        Err(fault) => return Err(fault),
    };
    let bytes = head.as_slice();
    audit_by(alloc, is_later(bytes), bytes, reader, writer)
}

/// Reads a trace to its end and writes its report (project-defined).
///
/// The first line decides between version 4 and the others. The report is gathered in memory and then written at once,
/// so that no part of an incomplete report is written.
///
/// Returns the error of the trace; `Memory` also if an allocation for the report fails; and `Write` if the writer
/// fails, which may have taken a front of the report. Every other error leaves the writer unchanged.
pub fn audit<R: BufRead, W: Write>(
    alloc: Global,
    reader: &mut R,
    writer: &mut W,
) -> Result<(), TraceError>
    // An accepted text is a text of a legal interface, whose report is written.
    ensures found { Finds (R.remaining reader.old) (W.contents writer.old) (W.contents writer.new) result }
    // It reads in pieces of at most 4096 bytes, and none after the one that has the fault.
    ensures read { Ends (R.remaining reader.old) (R.remaining reader.new) result }
    // A text of a legal interface is accepted in each version.
    ensures only { (s : State) → IsNodeInterface s → IsSomeAnd (R.remaining reader.old) (λ text. IsTraceOf s text)
        → IsNotRefused result }
    // In version 4 this holds with any room.
    ensures long { (s : State) → IsLegalInterface s → IsSomeAnd (R.remaining reader.old) (λ text. text ≡ long_text s)
        → IsNotRefused result }
{
    audit_through(alloc, reader, writer)
}
