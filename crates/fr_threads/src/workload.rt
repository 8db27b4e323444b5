//! The workload of a run.

use fr_core::script::Script;
use fr_runs::fault_line::FaultLine;

/// The scripts and faults of a run, its length and its mode (project-defined).
#[derive(Clone, Copy)]
pub struct Workload<'a> {
    /// The scripts, at most one for each task.
    pub scripts: &'a [Script],
    /// The fault lines.
    pub faults: &'a [FaultLine],
    /// The number of cycles.
    pub cycles: u16,
    /// True for a lockstep run, in which each line of a script is executed in its cycle.
    pub stepped: bool,
}
