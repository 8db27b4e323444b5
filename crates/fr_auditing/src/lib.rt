//! Traces audited in constant memory, in every version of the format; and traces of any length, in version 4, written
//! and reported.
//!
//! ```text
//! let mut auditor = KeptAuditor::new(alloc, true); // version 4; false for versions 1 to 3
//! auditor.feed(piece)?; // as often as pieces come
//! let interface = auditor.finish()?; // as the trace leaves it, without its journal
//! write_report(&interface, &mut out)?; // by fr_trace
//! write_head(&mut out, &params, &plan, 1 << 30, 3221225469)?; // version 4 up to `begin`
//! ```
//!
//! *(project-defined)* marks a rule of this project, and makes no claim about the standard.
//!
//! # Definitions
//!
//! - `LongText`: the text of version 4 of a trace.
//! - `LongReading`, `LongStream`: the line `node` of version 4; the state after each byte of a text of any version.
//! - `Tracking`: the state of an auditor, which is that of its text, and the effect of a piece on it.
//! - `KeptReport`: the text of a report, from the data that an interface keeps.
//!
//! Modules that follow the steps of the code, for private functions, with the module that has the meaning:
//!
//! - `Phases`, `AuditorFields`: the private fields of an auditor, and the effect of a line. Meaning: `Tracking`.
//!
//! # Inner workings
//!
//! A `LiveInterface` (`fr_interface`) has no journal, so its memory doesn't grow with a trace. In contracts it has all
//! entries, so the clauses are those of an audit with a journal. The auditor cuts pieces into lines as that of
//! `fr_trace` does, and replays entries by its `replay`. A `LongPlan` (`plans`) may give more room than a `NodePlan` can
//! have.
#![tactic(auto)]

pub mod auditor;
pub mod head;
mod plans;
pub mod report;
