//! Runs of a scenario without history: a view of the run is written as it goes, so that a run of hours needs the memory
//! of one cycle. It is the answers of the calls, a log of the commits, the record of the bus, a capture of it, or what
//! each node receives.
//!
//! ```text
//! let notes = stream_run(alloc, &cluster, &names, &mut scenario_file, cycles, Streamed::Record, &mut output)?;
//! ```
//!
//! *(project-defined)* marks a rule of this project, and makes no claim about the standard.
//!
//! # Definitions
//!
//! - `Streams`: the text of a view after some calls and windows, and what a run in a world without history has written.
//! - `CommitLog`: the lines of the log of commits, by the journals of the world with its whole history.
//! - `Received`: what each node receives in a window.
//! - `CommitLaws`: what happens to the commits of a journal; the log and the view of all commits after a run follow
//!   from it.
//! - `Runs`: the run of a scenario, and the reasons why there is none.
//!
//! `LogSteps` follows the steps of the code, for private functions. It has the lines of the log by the kept data; the
//! meaning is in `CommitLog`.
//!
//! # Inner workings
//!
//! `stream_run` (`stream`) reads the scenario, checks it, and opens an `EndlessWorld` (`fr_endless`). In each cycle
//! `show_lines` (`calling`) executes the lines of the scripts, and writes what the view has of each call.
//! `show_windows` (`windows`) executes window after window by `play_window` (`playing`), and writes what the view has
//! of the sealed one. The events are those of `fr_playing::play`, and each clause speaks of the world with its whole
//! history that these events lead to. `log` has the lines of the log of commits: before a call and before a window the
//! kept data of the interfaces tell what they will do to a commit. `laws` has clauses alone.
#![tactic(auto)]

mod calling;
mod hindrance;
pub mod laws;
mod log;
mod playing;
mod received;
pub mod stream;
mod telling;
mod windows;
