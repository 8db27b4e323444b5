//! Explanations of rejected traces: the line at fault, the reason, and the observations before it (project-defined).
//!
//! ```text
//! explain_trace(alloc, &mut trace, &mut output)?; // `accepted`, or the place and the reason of the refusal
//! show_until_fault(alloc, Form::Table { all: false }, &mut trace, &mut output)?; // the observations before it
//! ```
//!
//! *(project-defined)* marks a rule of this project, and makes no claim about the standard.
//!
//! # Definitions
//!
//! - `Faults`, `Reasons`, `WhyText`, `Explains`: the faulty line of a text, the reason of its refusal, and the output.
//!
//! Modules that follow the steps of the code, for private functions, with the module that has the meaning:
//!
//! - `Heads`, `Finding`, `Asking`: the content of the lines before, line by line, and the call of a line. Meaning:
//!   `Faults`, `Reasons`.
//!
//! # Inner workings
//!
//! 1. `kept_of` (`kept`) keeps the whole text, or its first 98,548,055 bytes, which is more than any accepted text has.
//! 2. `find` (`finding`) feeds it to an auditor line by line. It keeps the start of the last line, the number of lines
//!    before it, and their content up to the journal (`head`): version, parameters and plan. The line at which the
//!    auditor returns an error is the faulty one.
//! 3. `interface_after` (`before`) audits the lines before it once more, with `end` after them. So the audit itself
//!    keeps nothing for explanations.
//! 4. `reason_of` (`reasons`) examines the faulty line. The line `params` gives the parameters' refusal, and `begin`
//!    the plan's fault. A journal line makes its call (`call`). The call is refused by its own name, or makes the
//!    correct entry.
//! 5. `misfit_of` (`misfits`) returns why a line can't stand in its place, and `words` writes it.
//! 6. `show_until_fault` writes the capture or table of that interface for `--until-fault`, and then returns the
//!    audit's error.
#![tactic(auto)]

mod before;
mod call;
pub mod explain;
pub mod finding;
pub mod head;
mod kept;
pub mod laws;
mod misfits;
pub mod reason;
mod reasons;
pub mod until_fault;
pub mod verdict;
mod words;
