//! The cycles of a run that a line names.

/// The cycles of a run in which a fault occurs or a call is made (project-defined). They are counted from 0 over the
/// whole run, without a wrap after 63.
#[derive(Clone, Copy, PartialEq, Eq)]
pub enum RunCycles {
    /// Every cycle of the run.
    Every,
    /// The cycle of this number.
    Only(u16),
    /// Each `step`th cycle from `first` on, up to `last`. A step of 0 names no cycle.
    Span { first: u16, last: u16, step: u16 },
}

impl RunCycles {
    ghost use Rattle.std.specs.Prelude.{◌≡◌, ◌<◌, ℕ};
    ghost use Rattle.fr_runs.specs.Cycles.{cycles_within, names_cycle};

    /// Returns whether this cycle of the run is named (project-defined).
    pub fn names(self, cycle: usize) -> bool
        ensures { result ≡ names_cycle self cycle }
    {
        match self {
            RunCycles::Every => true,
            RunCycles::Only(only) => usize::from(only) == cycle,
            RunCycles::Span { first, last, step } => {
                let (first, last) = (usize::from(first), usize::from(last));
                step != 0
                    && first <= cycle
                    && cycle <= last
                    && (cycle - first) % usize::from(step) == 0
            }
        }
    }

    /// Returns these cycles up to the last one of a run of so many cycles.
    fn cut(self, cycles: u16) -> RunCycles
        ensures { result ≡ cycles_within cycles self }
    {
        match self {
            RunCycles::Every => RunCycles::Every,
            RunCycles::Only(only) => RunCycles::Only(only),
            RunCycles::Span { first, last, step } => RunCycles::Span {
                first,
                last: last.min(cycles.saturating_sub(1)),
                step,
            },
        }
    }

    /// Returns these cycles, without those that a run of so many cycles lacks (project-defined). A single cycle stays
    /// as it is.
    pub fn within(self, cycles: u16) -> RunCycles
        ensures within { result ≡ cycles_within cycles self }
        ensures same { (cycle : ℕ) → cycle < cycles → names_cycle result cycle ≡ names_cycle self cycle }
    {
        self.cut(cycles)
    }
}
