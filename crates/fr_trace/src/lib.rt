//! Traces of an interface: audited as they come, and reported.
//!
//! ```text
//! let mut auditor = Auditor::new(alloc);
//! auditor.feed(piece)?; // as often as pieces come
//! let interface = auditor.finish()?; // of the legal journal in the trace
//! write_report(&interface, &mut out)?;
//! write_trace(&interface, &mut out)?; // its one text of the newest version
//! ```
//!
//! A chapter in parentheses is one of the FlexRay Protocol Specification 2.1, revision A.
//! *(project-defined)* marks a rule of this project, and makes no claim about the standard.
//!
//! # Definitions
//!
//! - `TraceText`, `ReportText`: the text of a trace; the text of a report.
//! - `Answers`: equality of an entry in a trace and the entry that its call makes.
//! - `Stream`: the state after each byte of a trace, and the fault that shows.
//! - `Refusals`: the line that a refusal names; no continuation helps after it; the longest trace.
//! - `Feeds`: the effect of a piece of a trace on an auditor, and the places where memory may run out.
//! - `Audit`: the audit of a reader, and how far it reads.
//! - `ErrorNames`: the printed text of a refusal.
//!
//! `TraceText` is the meaning of a trace: a text is accepted exactly if it is the text of a legal interface. The module
//! `Stream` reads that text byte by byte, which is needed to define which error comes and when. Two laws in `Refusals`
//! connect them. An error names the line on which the fault shows, and no text of a legal interface begins like this.
//!
//! Modules that follow the steps of the code, for private functions, with the module that has the meaning:
//!
//! - `Auditor`, `Views`: the private fields of an auditor. Meaning: the record that is the model of the type.
//!
//! # Inner workings
//!
//! The auditor keeps the front of a line that spans pieces, and reads any other line in place. At `begin` it looks for
//! a fault of the plan and makes the interface with room for its whole journal. From then on nothing is allocated. A
//! fetch is replayed by a call that spells no frame. The auditor asks for an entry only after a read or a pop, whose
//! origins it compares. In the other direction, `write_trace` (`trace`) writes the one text of version 3 of an
//! interface, by the functions of `fr_lines::writing`.
#![tactic(auto)]

pub mod audit;
pub mod auditor;
pub mod error;
pub mod pieces;
pub mod replay;
pub mod report;
pub mod trace;
