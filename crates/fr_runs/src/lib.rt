//! The faults of a run, the check of a run's scripts and faults against its cluster, and the comparison of a record
//! with both.
//!
//! ```text
//! check_run(&cluster, &scripts, &faults, cycles)?; // the cluster accepts the run
//! if fault_line.strikes(run_cycle, &window) {} // the fault occurs in this window
//! have_faults(&faults, bus.record()); // a run had exactly these faults
//! are_stepped(&interfaces, bus.record(), &scripts); // each call was in the cycle of its line
//! idle_lines(alloc, bus.record(), &faults, &numbers)?; // the lines of a text whose faults had no effect
//! suits_after(&cluster, cycles, &faults, &fault_line); // the run can have one more fault line
//! ```
//!
//! A chapter in parentheses is one of the FlexRay Protocol Specification 2.1, revision A.
//! *(project-defined)* marks a rule of this project, and makes no claim about the standard.
//!
//! # Definitions
//!
//! - `Cycles`: the cycles that a line names.
//! - `Striking`, `Suiting`, `Refusing`, `Apart`: the windows of a fault line; scripts and faults that fit a cluster;
//!   refusals of a run; at most one fault of a kind, node and channel in a window.
//! - `Faulted`, `Stepping`: the faults of a record; execution of each line in its cycle.
//! - `Effects`: the effects of fault lines on the bus, and the lines that had none.
//!
//! Modules that follow the steps of the code, for private functions, with the module that has the meaning:
//!
//! - `Steps`: progress of a walk along a journal, as counts. Meaning: `Stepping`.
//!
//! # Inner workings
//!
//! The crate is below the texts of scenarios and the threads, so each of these is proved by itself.
#![tactic(auto)]

pub mod check;
pub mod cycles;
pub mod effects;
pub mod fault_line;
pub mod faulted;
pub mod faults;
mod scripts;
pub mod stepping;
