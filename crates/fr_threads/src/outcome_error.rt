//! Reasons why the outcome of a run isn't printed.

ghost use Rattle.std.specs.Prelude.{◌≡◌};
ghost use Rattle.fr_threads.specs.declared.outcome_error.OutcomeError.TheVariants as refusal;
ghost use Rattle.fr_threads.specs.Outcomes.{file_failure};

use crate::error::RunError;
use fr_files::error::BenchError;
use fr_outcome::file_error::FileError;
use fr_scenario::error::ScenarioError;
use std::error::Error;
use std::fmt;

// `BenchError` would have to depend on the threads to hold these errors.
/// Reasons why `run` didn't print the outcome of a run (project-defined).
///
/// An error prints as the names and values of the error within it.
#[derive(Clone, Copy, Debug, Drop, PartialEq, Eq)]
pub enum OutcomeError {
    /// The cluster file is rejected, a stream failed, an input is too long, or an allocation failed.
    Text(BenchError),
    /// The scenario file is rejected.
    Scenario(ScenarioError),
    /// The run is refused, or failed.
    Run(RunError),
}

impl fmt::Display for OutcomeError {
    ghost use Rattle.std.specs.Prelude.{Some};
    ghost use Rattle.fr_threads.specs.ErrorNames.{outcome_error_text};

    ghost output = { λ error. Some (outcome_error_text error) };

    /// Writes the error of the file or of the run.
    fn fmt<W: fmt::Write>(&self, f: &mut fmt::Formatter<W>) -> fmt::Result {
        match self {
            OutcomeError::Text(error) => write!(f, "{error}"),
            OutcomeError::Scenario(error) => write!(f, "{error}"),
            OutcomeError::Run(error) => write!(f, "{error}"),
        }
    }
}

impl Error for OutcomeError {}

impl From<BenchError> for OutcomeError {
    ghost from_gives = { λ error given. given ≡ refusal.Text error };

    fn from(error: BenchError) -> OutcomeError {
        OutcomeError::Text(error)
    }
}

impl From<FileError> for OutcomeError {
    ghost from_gives = { λ error given. given ≡ file_failure error };

    fn from(error: FileError) -> OutcomeError {
        match error {
            FileError::Text(error) => OutcomeError::Text(error),
            FileError::Scenario(error) => OutcomeError::Scenario(error),
        }
    }
}

impl From<RunError> for OutcomeError {
    ghost from_gives = { λ error given. given ≡ refusal.Run error };

    fn from(error: RunError) -> OutcomeError {
        OutcomeError::Run(error)
    }
}
