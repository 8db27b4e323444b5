//! The explanation of an audit's result.
ghost use Rattle.std.specs.Prelude.{◌≡◌, ℕ, List, IfOk, IfErr, IfSome, OnOk, take};
ghost use Rattle.fr_why.specs.Explains.{kept, Explains, IsExplained, IsReadWhole};
ghost use Rattle.fr_why.specs.Faults.{is_fetch, window_count, windows_of};
ghost use Rattle.fr_why.specs.Finding.{between, IsFaultIn};
ghost use Rattle.fr_trace.specs.Stream.{fresh, take_bytes};
ghost use Rattle.fr_why.specs.Reasons.{reason_for, IsReasonOf};
ghost use Rattle.fr_why.specs.WhyText.{accepted_text, refused_text};

use crate::before::interface_after;
use crate::finding::{FaultyLine, Found, find};
use crate::kept::kept_of;
use crate::reasons::reason_of;
use crate::verdict::Verdict;
use crate::words::{write_accepted, write_refused};
use fr_files::output::write_text;
use fr_interface::interface::Interface;
use fr_journal::entry::Entry;
use fr_journal::journal::Journal;
use fr_trace::error::TraceError;
use std::alloc::Global;
use std::io::{Read, Write};

/// Returns whether the entry opened a window.
fn is_fetch(entry: &Entry) -> bool
    ensures { result ≡ is_fetch entry.now }
{
    match entry {
        Entry::Fetch { .. } => true,
        _ => false,
    }
}

/// Returns the number of windows that were fetched.
fn window_count(journal: &Journal) -> u32
    ensures { result ≡ window_count journal.now.entries }
{
    let mut count = 0;
    for number in 0..journal.len() {
        if let Some(entry) = journal.get(number) {
            if is_fetch(&entry) {
                count += 1;
            }
        }
    }
    count
}

/// Returns the number of windows that were fetched, or 0 without an interface.
fn windows_of(interface: &Option<Interface>) -> u32
    ensures { result ≡ windows_of interface.now }
{
    match interface {
        Some(interface) => window_count(interface.journal()),
        None => 0,
    }
}

/// Returns the explanation of the line at fault of the text.
fn fault_words(alloc: Global, text: &[u8], fault: &FaultyLine) -> Result<Vec<u8>, TraceError>
    requires { IsFaultIn text.now fault.now }
    ensures told { IfOk result (λ words. words.items
        ≡ refused_text fault.now.error (take fault.now.start text.now)
        (between fault.now.start fault.now.end text.now)) }
    ensures named { OnOk result (IsReasonOf fault.now.error (reason_for fault.now.error
        (take_bytes fresh (take fault.now.start text.now)) (between fault.now.start fault.now.end text.now))) }
    ensures refused { IfErr result (λ e. e ≡ TraceError.Memory) }
{
    // The lines before the fault are audited a second time. An auditor that kept reasons would pay at each line, and
    // six crates depend on it.
    let (front, line) = (&text[..fault.start], &text[fault.start..fault.end]);
    let mut interface = match interface_after(alloc, &fault.head, front) {
        Ok(interface) => interface,
        Err(error) => return Err(error),
    };
    let windows = windows_of(&interface);
    let reason = reason_of(fault.error, &fault.head, &mut interface, line);
    let mut words = Vec::new(alloc);
    let before = fault.before as u64;
    match write_refused(&mut words, fault.error, before, line, &reason, windows) {
        Ok(()) => Ok(words),
        // Here and below, a list of bytes fails to grow only if an allocation fails.
        Err(_) => Err(TraceError::Memory),
    }
}

/// Returns the explanation of a text that is accepted as this interface, with this number of lines.
fn accepted_words(alloc: Global, interface: &Interface, lines: usize) -> Result<Vec<u8>, TraceError>
    ensures told { IfOk result (λ words. words.items
        ≡ accepted_text lines (window_count interface.now.entries)) }
    ensures refused { IfErr result (λ e. e ≡ TraceError.Memory) }
{
    let windows = window_count(interface.journal());
    let mut words = Vec::new(alloc);
    match write_accepted(&mut words, lines as u64, windows) {
        Ok(()) => Ok(words),
        Err(_) => Err(TraceError::Memory),
    }
}

/// Returns the explanation of the text.
///
/// Returns `Memory` if an allocation fails.
fn explained(alloc: Global, text: &[u8]) -> Result<(Verdict, Vec<u8>), TraceError>
    ensures told { IfOk result (λ r. IsExplained text.now r.0 r.1.items) }
    ensures refused { IfErr result (λ e. e ≡ TraceError.Memory) }
{
    match find(alloc, text) {
        Ok(Found::Accepted(interface, lines)) => match accepted_words(alloc, &interface, lines) {
            Ok(words) => Ok((Verdict::Accepted, words)),
            Err(error) => Err(error),
        },
        Ok(Found::Refused(fault)) => match fault_words(alloc, text, &fault) {
            Ok(words) => Ok((Verdict::Refused, words)),
            Err(error) => Err(error),
        },
        Err(error) => Err(error),
    }
}

/// Reads a trace to its end, and writes why an audit rejects it, if it does (project-defined).
///
/// For an accepted trace these lines are written:
///
/// ```text
/// accepted
/// lines 26
/// windows 4
/// ```
///
/// For a rejected trace these lines are written:
/// - the refusal as an audit prints it;
/// - `line`: the number and the text of the line at fault;
/// - `reason`: the kind of the refusal (`Params`, `Plan`, `Host`, `Slot` or `Line`) and its name, or for a wrong answer
///   `due`, with the correct line;
/// - `lines` and `windows`: the number of lines and of fetched windows before the line at fault.
///
/// After `Line` stand the number and the column of the wrong word, if it is a single one. `Feed` means that only the
/// last line feed is missing. An example:
///
/// ```text
/// refused Refused 13
/// line 13 commit 0 0 x0001
/// reason Host WrongLength
/// lines 12
/// windows 1
/// ```
///
/// In the text of a line, a backslash, and each byte that isn't a printable ASCII character, is written as `\x` and its
/// two hexadecimal digits. At most 1200 bytes are written. If a text breaks off, its line at fault is the one in which
/// it breaks off.
///
/// Returns `Read` if the reader fails and `Memory` if an allocation fails; nothing is written then. Returns `Write` if
/// the writer fails; a front of the explanation may then have been written. Of a text of more than 98,548,055 bytes,
/// which is longer than any accepted text, only these bytes are read, and the text is rejected for them.
pub fn explain_trace<R: Read, W: Write>(
    alloc: Global,
    reader: &mut R,
    writer: &mut W,
) -> Result<Verdict, TraceError>
    ensures told { IfSome (R.remaining reader.old)
        (λ text. Explains (kept text) (W.contents writer.old) (W.contents writer.new) result) }
    // The same for a reader whose bytes aren't known.
    ensures some { (text : List ℕ) × Explains text (W.contents writer.old) (W.contents writer.new) result }
    // An accepted text was read whole.
    ensures whole { IfSome (R.remaining reader.old) (λ text. IsReadWhole text result) }
{
    let text = kept_of(alloc, reader)?;
    let (verdict, words) = explained(alloc, text.as_slice())?;
    match write_text(writer, words.as_slice()) {
        Ok(()) => Ok(verdict),
        Err(_) => Err(TraceError::Write),
    }
}
