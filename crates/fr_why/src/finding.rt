//! The line at which a text is refused.
ghost use Rattle.std.specs.Prelude.{◌≡◌, IfOk, IfErr};
ghost use Rattle.fr_interface.specs.State.{IsNodeInterface};
ghost use Rattle.fr_trace.specs.Refusals.{HasFewLines};
ghost use Rattle.fr_why.specs.Finding.{IsFound, found_of};

use crate::head::{Head, follow};
use fr_interface::interface::Interface;
use fr_trace::auditor::Auditor;
use fr_trace::error::TraceError;
use memchr::memchr;
use std::alloc::Global;

/// The line at which a text is refused (project-defined).
#[derive(Drop)]
pub struct FaultyLine {
    /// The error that the audit returns.
    pub error: TraceError,
    /// The start of the line. Before it are whole lines, none of which is refused.
    pub start: usize,
    /// The end of the line: its line feed, or the end of the text.
    pub end: usize,
    /// The number of lines before it.
    pub before: usize,
    /// The state after these lines.
    pub head: Head,
}

/// The result of an audit of a whole text (project-defined).
#[derive(Drop)]
pub enum Found {
    /// The audit accepts it as this interface, with this number of lines.
    Accepted(Interface, usize),
    /// The audit refuses it at this line.
    Refused(FaultyLine),
}

/// Returns the result for an error that an audit returns at the line.
fn refused(fault: FaultyLine) -> Result<Found, TraceError>
    ensures { result ≡ found_of fault.error fault }
{
    match fault.error {
        // An auditor has no reader and no writer.
        TraceError::Read | TraceError::Write | TraceError::Memory => Err(TraceError::Memory),
        _ => Ok(Found::Refused(fault)),
    }
}

/// Returns the result for an interface that an audit returns.
#[tactic(auto, using(crate::proofs::FindingLemmas::few_lines))]
fn accepted(interface: Interface, lines: usize) -> Found
    ensures found { result ≡ Found.Accepted interface lines }
    ensures legal { IsNodeInterface interface }
    ensures few { HasFewLines interface }
{
    // For the prover: the clauses of these calls.
    let _ = interface.params();
    let _ = interface.journal().len();
    Found::Accepted(interface, lines)
}

/// Returns the interface of the text, or the line at which an audit refuses it (project-defined).
///
/// The lines are fed to an auditor one after another. Returns `Memory` if an allocation fails.
pub(crate) fn find(alloc: Global, text: &[u8]) -> Result<Found, TraceError>
    ensures found { IfOk result (IsFound text.now) }
    ensures refused { IfErr result (λ e. e ≡ TraceError.Memory) }
{
    let mut auditor = Auditor::new(alloc);
    let mut head = Head::Start;
    let mut start = 0;
    let mut before = 0;
    while let Some(at) = memchr(b'\n', &text[start..]) {
        let end = start + at;
        if let Err(error) = auditor.feed(&text[start..end + 1]) {
            return refused(FaultyLine {
                error,
                start,
                end,
                before,
                head,
            });
        }
        follow(&mut head, &text[start..end]);
        start = end + 1;
        before += 1;
    }
    let _ = auditor.feed(&text[start..]);
    match auditor.finish() {
        Ok(interface) => Ok(accepted(interface, before)),
        Err(error) => refused(FaultyLine {
            error,
            start,
            end: text.len(),
            before,
            head,
        }),
    }
}
