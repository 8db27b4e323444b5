//! The parts that all programs that run a cluster share: the file of a scenario, and the text of a run's outcome
//! (project-defined).
//!
//! ```text
//! let scenario = scenario_of(alloc, &mut file, &names, cycles)?;
//! write_outcome(&mut output, interfaces, windows)?; // node 0, its report, node 1 and so on
//! ```
//!
//! *(project-defined)* marks a rule of this project, and makes no claim about the standard.
//!
//! # Definitions
//!
//! - `ScenarioFiles`, `OutcomeText`: the reading of a scenario file, and the cluster's acceptance of a run with it; the
//!   text of an outcome.
//! - `ErrorNames`: the printed text of an error.
#![tactic(auto)]

pub mod file_error;
pub mod outcome_text;
pub mod scenario_file;
