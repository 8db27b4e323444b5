//! Reasons to reject a text as a scenario.

ghost use Rattle.std.specs.Prelude.{◌≡◌};
ghost use Rattle.fr_scenario.specs.declared.error.ScenarioError.TheVariants as error;

use std::alloc::AllocError;
use std::error::Error;
use std::fmt;

/// Reasons to reject a text as a scenario. A number is that of the line at fault, counted from 1.
#[derive(Clone, Copy, Debug, PartialEq, Eq)]
pub enum ScenarioError {
    /// The first line isn't `frscenario 1`, `frscenario 2` or `frscenario 3` with its line feed.
    BadMagic,
    /// The line has no form of the version, a number out of its range, a name that can't be used, or too many bytes.
    ///
    /// It may have 1200 bytes before its line feed. Any byte after the last line also gives this error, and so does a
    /// line with lists that stands for more than 64 lines.
    BadLine(u32),
    /// Line 4097 begins, and no line before it is the last one. Or the lines of a text of version 3 stand for more than
    /// 4,096 lines.
    TooManyLines,
    /// The text ends before the line feed of its last line.
    Truncated,
    /// The calls of a text of version 3 are more than 262,144 in the cycles of the run.
    TooManyCalls,
    /// An allocation failed.
    Memory,
}

impl fmt::Display for ScenarioError {
    ghost use Rattle.std.specs.Prelude.{Some};
    ghost use Rattle.fr_scenario.specs.ErrorNames.{scenario_error_text};

    ghost output = { λ error. Some (scenario_error_text error) };

    /// Writes the name, and the number of the line at fault if there is one.
    fn fmt<W: fmt::Write>(&self, f: &mut fmt::Formatter<W>) -> fmt::Result {
        match self {
            ScenarioError::BadMagic => write!(f, "BadMagic"),
            ScenarioError::BadLine(line) => write!(f, "BadLine {line}"),
            ScenarioError::TooManyLines => write!(f, "TooManyLines"),
            ScenarioError::TooManyCalls => write!(f, "TooManyCalls"),
            ScenarioError::Truncated => write!(f, "Truncated"),
            ScenarioError::Memory => write!(f, "Memory"),
        }
    }
}

impl Error for ScenarioError {}

impl From<AllocError> for ScenarioError {
    ghost from_gives = { λ refused given. given ≡ error.Memory };

    fn from(_: AllocError) -> ScenarioError {
        ScenarioError::Memory
    }
}
