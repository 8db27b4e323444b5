//! Laws of the bytes that are read of a text. Each is the clause of a function without code.
ghost use Rattle.std.specs.Prelude.{◌≡◌, ◌≤◌, ℕ, List, Err, length};
ghost use Rattle.fr_trace.specs.declared.error.TraceError.{TraceError};
ghost use Rattle.fr_trace.specs.Stream.{failed, fresh, outcome_of, take_bytes};
ghost use Rattle.fr_why.specs.Explains.{kept, most_kept};

// For the prover: the clause is the law.
/// The audit of a text has the outcome of the bytes that are kept of it (project-defined).
pub fn kept_outcome()
    ensures { (text : List ℕ) → outcome_of (take_bytes fresh (kept text)) ≡ outcome_of (take_bytes fresh text) }
{}

// For the prover: the clause is the law.
/// A text with as many bytes or more is refused by a fault that shows in them (project-defined).
pub fn shown_when_cut()
    ensures { (text : List ℕ) → most_kept ≤ length text → (e : TraceError)
        × (take_bytes fresh (kept text) ≡ failed e) × (outcome_of (take_bytes fresh text) ≡ Err e) }
{}
