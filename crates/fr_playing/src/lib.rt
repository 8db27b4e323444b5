//! Windows driven in the world, and single-threaded runs: one event after another (project-defined).
//!
//! ```text
//! let played = play(alloc, &cluster, scenario.scripts(), scenario.faults(), cycles)?;
//! played.world.interfaces(); // the interface of each node, with its journal
//! played.world.bus().record(); // the record of each window
//! played.calls; // the call of each line of a script with its answer, in the order of execution
//! play_file(alloc, &cluster, &mut scenario_file, cycles)?.played; // the same with the scenario of a file
//! ```
//!
//! *(project-defined)* marks a rule of this project, and makes no claim about the standard.
//!
//! # Definitions
//!
//! - `Striking`, `Moving`: the faults of a window; the steps that are due in a window, and windows one after another.
//! - `Calls`, `Windows`, `Playing`: the effects of script lines one after another; the windows of a cycle as events; a
//!   whole run.
//! - `Settled`: the properties of a lockstep run in threads, which `played_is_settled` (`laws`) proves of every
//!   single-threaded run.
//! - `Files`, `Refusals`, `ErrorNames`: the run of a scenario file, the reasons why there is none, and their texts.
//! - `Laws`: worlds that are led by events.
//!
//! # Inner workings
//!
//! 1. `play` (`play`) calls `check_run`, and makes the opening world.
//! 2. `do_lines` (`call`) executes the lines of a cycle, each by one event, and keeps an `ExecutedCall` with the call,
//!    the entry and the reply.
//! 3. `play_windows` (`windows`) executes window after window: the faults (`striking`), the offer of each node, the
//!    seal, the observation of each node, the advance.
//! 4. A session moves on by `finish_window` and `finish_cycles` (`moving`), which execute what is still due.
#![tactic(auto)]

pub mod call;
pub mod error;
pub mod file;
mod hindrance;
pub mod laws;
pub mod moving;
pub mod nodes;
pub mod play;
pub mod striking;
mod windows;
