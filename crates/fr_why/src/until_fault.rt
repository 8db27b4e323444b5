//! The observations of a trace, up to the line at fault.
ghost use Rattle.std.specs.Prelude.{ℕ, List, IfSome};
ghost use Rattle.fr_why.specs.Explains.{kept, ShowsUntil};
ghost use Rattle.fr_why.specs.Finding.{IsFaultIn};

use crate::before::interface_after;
use crate::finding::{FaultyLine, Found, find};
use crate::kept::kept_of;
use fr_capture::form::Form;
use fr_capture::show::write_form;
use fr_trace::error::TraceError;
use std::alloc::Global;
use std::io::{Read, Write};

/// Writes the observations before the line at fault, and returns its error.
fn show_before<W: Write>(
    alloc: Global,
    form: Form,
    text: &[u8],
    fault: &FaultyLine,
    writer: &mut W,
) -> Result<(), TraceError>
    requires { IsFaultIn text.now fault.now }
    ensures { ShowsUntil form text.now (W.contents writer.old) (W.contents writer.new) result }
{
    match interface_after(alloc, &fault.head, &text[..fault.start]) {
        Ok(Some(interface)) => {
            write_form(alloc, form, &interface, writer)?;
            Err(fault.error)
        }
        Ok(None) => Err(fault.error),
        Err(error) => Err(error),
    }
}

/// Reads a trace to its end, and writes its observations in this form (project-defined).
///
/// For a trace that an audit refuses, it writes the observations up to the line at fault, or up to the place where the
/// trace breaks off. It then returns the audit's error, that of the first line at fault. If the lines before don't
/// complete the plan, nothing is written.
///
/// Returns `Read` if the reader fails and `Memory` if an allocation fails; nothing is written then. Returns `Write` if
/// the writer fails; a front of the output may then have been written. Of a text of more than 98,548,055 bytes, which
/// is longer than any accepted text, only these bytes are read, and the text is rejected for them.
pub fn show_until_fault<R: Read, W: Write>(
    alloc: Global,
    form: Form,
    reader: &mut R,
    writer: &mut W,
) -> Result<(), TraceError>
    ensures shown { IfSome (R.remaining reader.old)
        (λ text. ShowsUntil form (kept text) (W.contents writer.old) (W.contents writer.new) result) }
    // The same for a reader whose bytes aren't known.
    ensures some { (text : List ℕ) × ShowsUntil form text (W.contents writer.old) (W.contents writer.new) result }
{
    let text = kept_of(alloc, reader)?;
    match find(alloc, text.as_slice()) {
        Ok(Found::Accepted(interface, _)) => write_form(alloc, form, &interface, writer),
        Ok(Found::Refused(fault)) => show_before(alloc, form, text.as_slice(), &fault, writer),
        Err(error) => Err(error),
    }
}
