//! The texts that show a run (project-defined). They are the answers to the lines of scripts, the fates of commits, the
//! trace of a node, the outcome, and the record of the bus as lines, as a capture and as a picture. The crate also
//! finds fault lines without effect.
//!
//! ```text
//! // Writes a line for each commit, and returns the numbers of the fault lines without effect.
//! let idle = show_run(alloc, &cluster, &mut scenario_file, cycles, Shown::Commits, &mut output)?;
//! let text = text_of(alloc, Shown::Record, &file)?; // of an earlier run of a scenario file
//! ```
//!
//! *(project-defined)* marks a rule of this project, and makes no claim about the standard.
//!
//! # Definitions
//!
//! - `AnswerText`, `CommitText`, `Fates`: a line with its answer; a commit with its fate.
//! - `Ends`, `Takers`: the end of a transmission and its receivers.
//! - `RecordText`, `Origins`: the lines of a record, and the scenario line of each.
//! - `Listening`: the records of a capture of the bus.
//! - `Spans`: the windows, with their times and the lengths of slots.
//! - `EachWindow`: what is said of each window of a record, in its cycle of the run.
//! - `Idle`, `Shows`: fault lines without effect; the output for a run.
//!
//! Modules that follow the steps of the code, for private functions, with the module that has the meaning:
//!
//! - `AnswerSteps`: the call at hand. Meaning: `AnswerText`.
//! - `CommitSteps`, `FateSteps`: journals, entry by entry. Meaning: `CommitText`, `Fates`.
//!
//! # Inner workings
//!
//! 1. `show_run` (`show`) makes the text in memory (`shown`) and hands it to the writer at once. The texts come from
//!    `write_outcome`, `write_answers`, `write_commits`, `write_record`, `write_spans`, `write_capture`, `matrix_of`
//!    of `fr_matrix` or `write_trace` of `fr_trace`.
//! 2. `write_sending` (`sending`) writes a node's transmission in a recorded window, for a run without history.
//! 3. `idle_lines` returns the numbers of the fault lines without effect, by one walk along the record for each.
//!
//! To show something new of a run, call `play_file` or `play`. Both return the world with all journals, the record and
//! the calls. The first also returns the scenario with the number of each fault line.
#![tactic(auto)]

pub mod answers;
pub mod commits;
pub mod ends;
pub mod fates;
pub mod idle;
pub mod listener;
mod origins;
mod parts;
pub mod reasons;
pub mod record;
pub mod sending;
pub mod show;
pub mod shown;
pub mod spans;
mod takers;
