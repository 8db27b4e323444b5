//! A run of a cluster in threads: one for each task, one for each controller, and one for the bus; and its outcome as a
//! text.
//!
//! ```text
//! let run = run_threads(rt, alloc, &cluster, &Workload { scripts, faults, cycles, stepped }, &gate)?;
//! run.interfaces; // what each node's journal has by then
//! run.bus.record(); // what each window had
//! run.scripts; // the scripts, with the answers that the tasks got
//! run_text(rt, alloc, &mut file, &mut scenario, options, &mut output)?; // node 0, its report, node 1 and so on
//! ```
//!
//! A chapter in parentheses is one of the FlexRay Protocol Specification 2.1, revision A.
//! *(project-defined)* marks a rule of this project, and makes no claim about the standard.
//!
//! # Definitions
//!
//! - `Running`, `Failures`, `Pacing`, `Outcomes`: a run that completes; the reported failure; the cycle barrier of a
//!   lockstep run; the effect of `run` on the text of a scenario.
//! - `ErrorNames`: the printed texts of errors.
//!
//! # Inner workings
//!
//! A node's thread takes the ledger of its node, opens a `Desk` over a new interface, and starts a thread for each task
//! with a handle of its own. Then it is the node's controller until the bus has no further window.
//!
//! The lock of the cycle barrier (`pace`) has the cycle whose lines came due last, the number of controllers and tasks
//! that are still missing, and whether the run was stopped. Each change of these is a step with an exact clause, and no
//! thread holds another lock at the same time. The barrier knows beforehand how many tasks have lines in a cycle, so it
//! wakes only these.
//!
//! The first failure stops the bus and the barrier, and every thread ends. Each node joins its tasks, closes its `Desk`
//! and gathers the shares. Then the bus and the nodes are joined, and the failure of the least rank is reported. The
//! bus comes back in any case.
//!
//! A lock returns a value of which only the type is known: a legal interface, or a bus whose record is that of some
//! run. The cross-check tests that all of them are of one run. Its result gives the receivers' clause and the promise
//! of one sender. Two more tests, `have_faults` and `are_stepped`, show that it is the run of the scenario.
#![tactic(auto)]

mod answers;
pub mod error;
mod failure;
mod mover;
mod node;
pub mod outcome;
pub mod outcome_error;
mod pace;
pub mod run;
mod shared;
mod task;
pub mod workload;
