//! Reasons why a run isn't executed, or not shown.
ghost use Rattle.std.specs.Prelude.{◌≡◌};
ghost use Rattle.fr_playing.specs.declared.error.PlayError.TheVariants as refusal;
ghost use Rattle.fr_playing.specs.Refusals.{failure_of_file};

use fr_core::error::StepError;
use fr_files::error::BenchError;
use fr_outcome::file_error::FileError;
use fr_runs::check::RunRefusal;
use fr_scenario::error::ScenarioError;
use std::error::Error;
use std::fmt;

/// Reasons why a run isn't executed, or not shown (project-defined).
///
/// An error prints as its name. An error of a crate below prints as the names and values of that error.
#[derive(Clone, Copy, Debug, Drop, PartialEq, Eq)]
pub enum PlayError {
    /// The cluster file is rejected, a stream failed, an input is too long, or an allocation failed.
    Text(BenchError),
    /// The scenario file is rejected.
    Scenario(ScenarioError),
    /// The cluster doesn't accept the run.
    Run(RunRefusal),
    // A proof that it never occurs would need the stages of nodes, controllers and journals at each step of a window.
    /// The world refused an event of the run for a reason other than a failed allocation.
    Step(StepError),
    /// The bus didn't come to its end.
    Unfinished,
    /// The cluster doesn't have the node that is to be shown.
    UnknownNode,
}

impl fmt::Display for PlayError {
    ghost use Rattle.std.specs.Prelude.{Some};
    ghost use Rattle.fr_playing.specs.ErrorNames.{play_error_text};

    ghost output = { λ error. Some (play_error_text error) };

    /// Writes the name, or the error of the crate below.
    fn fmt<W: fmt::Write>(&self, f: &mut fmt::Formatter<W>) -> fmt::Result {
        match self {
            PlayError::Text(error) => write!(f, "{error}"),
            PlayError::Scenario(error) => write!(f, "{error}"),
            PlayError::Run(refusal) => write!(f, "{}", RefusalText(*refusal)),
            PlayError::Step(error) => write!(f, "{error}"),
            PlayError::Unfinished => write!(f, "Unfinished"),
            PlayError::UnknownNode => write!(f, "UnknownNode"),
        }
    }
}

impl Error for PlayError {}

// The text that `fr_runs` derives has no clause.
/// The text of the reason why the cluster doesn't accept a run.
#[derive(Clone, Copy)]
struct RefusalText(RunRefusal);

impl fmt::Display for RefusalText {
    ghost use Rattle.std.specs.Prelude.{Some};
    ghost use Rattle.fr_playing.specs.ErrorNames.{run_refusal_text};

    ghost output = { λ text. Some (run_refusal_text text.0) };

    /// Writes the name, and the place or the node at fault if there is one.
    fn fmt<W: fmt::Write>(&self, f: &mut fmt::Formatter<W>) -> fmt::Result {
        match self.0 {
            RunRefusal::BadCycles => write!(f, "BadCycles"),
            RunRefusal::BadScript(place) => write!(f, "BadScript {place}"),
            RunRefusal::BadFault(place) => write!(f, "BadFault {place}"),
            RunRefusal::NoRoom(node) => write!(f, "NoRoom {node}"),
        }
    }
}

impl From<BenchError> for PlayError {
    ghost from_gives = { λ error given. given ≡ refusal.Text error };

    fn from(error: BenchError) -> PlayError {
        PlayError::Text(error)
    }
}

impl From<FileError> for PlayError {
    ghost from_gives = { λ error given. given ≡ failure_of_file error };

    fn from(error: FileError) -> PlayError {
        match error {
            FileError::Text(error) => PlayError::Text(error),
            FileError::Scenario(error) => PlayError::Scenario(error),
        }
    }
}
