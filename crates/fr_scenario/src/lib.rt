//! Scenarios: the calls of a cluster's tasks in a run, the faults of the run and its expectations, as a text
//! (project-defined).
//!
//! ```text
//! let text = "frscenario 3\npop 0 1 0-7/2\nlost 2 *  # each offer of node 2\nend\n";
//! let scenario = Scenario::for_run(alloc, text, &names, 8)?;
//! scenario.scripts(); // the calls of each task, by node and then task
//! scenario.faults(); // the fault lines, in their order
//! scenario.fault_numbers(); // the line number of each fault line: 3 twice, for both channels
//! scenario.skipped(); // the lines that name cycles, but none of the run
//! scenario.expected(); // the expectations that name a cycle of the run
//! let faults = faults_of(alloc, b"mute 2 AB 8-16/2 s3-7"); // the fault lines of one line: two, for both channels
//! ```
//!
//! A chapter in parentheses is one of the FlexRay Protocol Specification 2.1, revision A.
//! *(project-defined)* marks a rule of this project, and makes no claim about the standard.
//!
//! # Definitions
//!
//! - `AnyText`, `Reading`: the texts of a scenario, of any version; the first fault of a text.
//! - `Contents`, `ScenarioText`, `Spelling`, `Parts`, `Spelled`, `LineReading`, `CallReading`, `PartReading`: in
//!   versions 1 and 2, the contents of a scenario, with the number of each fault line; its text and lines.
//! - `BlankWords`, `Statements`, `StatementParts`, `Lists`, `FaultLines`, `RunContents`: in version 3, the words of a
//!   line, and what they say; the lines for which a line with lists stands; the fault lines of one line; the contents
//!   in a run of so many cycles. `Parts` and `Spelled` also have the cycles and places of version 3.
//! - `StatementText`: the values in the ranges of version 3, and one spelling of each.
//! - `ErrorNames`: the printed text of an error.
//!
//! Modules that follow the steps of the code, for private functions, with the module that has the meaning:
//!
//! - `Gathering`: the contents of the lines so far. Meaning: `Contents`, `ScenarioText`.
//! - `Choosing`: the statements of a line with lists, element by element. Meaning: `Lists`.
//! - `RunCalls`: the statements that make the calls of each cycle, and the lines of each task. Meaning: `RunContents`.
//!
//! # Inner workings
//!
//! The crate isn't part of `fr_trace`, which would have to wait for the bus and the world.
#![tactic(auto)]

mod blanks;
pub mod calls;
pub mod error;
pub mod fault_lines;
mod gathered;
pub mod laws;
mod left;
mod lines;
mod lists;
mod parts;
mod run_calls;
mod run_contents;
pub mod scenario;
mod spelled;
mod statement;
mod statement_parts;
mod statements;
mod version;
