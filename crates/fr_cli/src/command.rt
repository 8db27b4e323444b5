//! The commands of `fr_bench`.

/// A command of `fr_bench` (project-defined).
#[derive(Clone, Copy, PartialEq, Eq)]
pub enum Order<'a> {
    /// Read the trace of one controller on standard input and print its audited report.
    Audit,
    /// Read the cluster file of this name and print the line of its parameters.
    Check(&'a str),
    /// Read the cluster file of this name and print the senders and the guardians' open windows.
    Plan(&'a str),
    /// Read numbers on standard input and print their fault-tolerant midpoint.
    Midpoint,
    /// Run the cluster with a scenario, and print each node's report.
    Run {
        /// The name of the cluster file.
        cluster: &'a str,
        /// The name of the scenario file.
        scenario: &'a str,
        /// The number of cycles, 1 to 1024.
        cycles: u16,
        /// A free-running run: host calls come at any moment, and not each in its cycle.
        free: bool,
    },
}
