//! The audit of a trace that comes in pieces of any length.

ghost use Rattle.std.specs.Prelude.{◌≡◌, ◌≤◌, ◌⊎◌, length, IfOk, OnOk, Ok, Err};
ghost use Rattle.std.specs.List.{flat_map};
ghost use Rattle.fr_interface.specs.State.{State, IsNodeInterface};
ghost use Rattle.fr_trace.specs.Feeds.{Begins, Reads};
ghost use Rattle.fr_trace.specs.Refusals.{HasFewLines, LineIsNamed, longest_text};
ghost use Rattle.fr_trace.specs.Stream.{fresh, take_bytes, outcome_of};
ghost use Rattle.fr_trace.specs.TraceText.{IsTraceOf};

use crate::auditor::{Auditor, lines_of};
use crate::error::TraceError;
use fr_interface::interface::Interface;
use std::alloc::Global;

/// Returns an auditor that has read these pieces.
fn fed(alloc: Global, pieces: &[&[u8]]) -> Auditor
    ensures { Reads fresh (flat_map (λ p. p.now) pieces.now) result }
{
    let mut auditor = Auditor::new(alloc);
    for piece in pieces {
        let _ = auditor.feed(piece);
    }
    auditor
}

/// Returns the interface that a trace in these pieces leaves.
///
/// Returns the error of the first line at fault, and `Memory` if an allocation fails.
pub fn audit_pieces(alloc: Global, pieces: &[&[u8]]) -> Result<Interface, TraceError>
    // An accepted text is a text of the interface that is returned, in whichever pieces it came.
    ensures found { IfOk result (λ s. IsTraceOf s (flat_map (λ p. p.now) pieces.now) × IsNodeInterface s) }
    // A text of a legal interface is accepted as that interface, unless memory runs out.
    ensures only { (s : State) → IsNodeInterface s → IsTraceOf s (flat_map (λ p. p.now) pieces.now)
        → (result ≡ Ok s) ⊎ (result ≡ Err TraceError.Memory) }
    // An accepted text is no longer than the longest text.
    ensures short { OnOk result (length (flat_map (λ p. p.now) pieces.now) ≤ longest_text) }
    // The line that an error names is that of the byte with which the first fault shows.
    ensures line { LineIsNamed result (flat_map (λ p. p.now) pieces.now) }
    // The exact refusal. Memory can run out only at the line `begin`.
    ensures exact { (result ≡ outcome_of (take_bytes fresh (flat_map (λ p. p.now) pieces.now)))
        ⊎ ((result ≡ Err TraceError.Memory) × Begins fresh (flat_map (λ p. p.now) pieces.now)) }
{
    let auditor = fed(alloc, pieces);
    lawful(auditor.finish())
}

// For the prover: an interface that an auditor returns is legal, and has few lines.
/// Returns the result of an auditor unchanged.
pub(crate) fn lawful(outcome: Result<Interface, TraceError>) -> Result<Interface, TraceError>
    ensures same { result ≡ outcome }
    ensures legal { IfOk result IsNodeInterface }
    ensures few { IfOk result HasFewLines }
{
    match outcome {
        Ok(interface) => {
            // For the prover: the clauses of these calls.
            let _ = interface.params();
            let _ = lines_of(&interface);
            Ok(interface)
        }
        Err(fault) => Err(fault),
    }
}
