//! Reasons to reject the file of a scenario.
ghost use Rattle.std.specs.Prelude.{◌≡◌};
ghost use Rattle.fr_outcome.specs.declared.file_error.FileError.TheVariants as refusal;

use fr_files::error::BenchError;
use fr_scenario::error::ScenarioError;
use std::error::Error;
use std::fmt;

/// Reasons to reject the file of a scenario (project-defined).
///
/// An error prints as the name and the values of the error within it.
#[derive(Clone, Copy, Debug, Drop, PartialEq, Eq)]
pub enum FileError {
    /// The file couldn't be read, or is too long, or an allocation for its bytes failed.
    Text(BenchError),
    /// The text is no scenario.
    Scenario(ScenarioError),
}

impl fmt::Display for FileError {
    ghost use Rattle.std.specs.Prelude.{Some};
    ghost use Rattle.fr_outcome.specs.ErrorNames.{file_error_text};

    ghost output = { λ error. Some (file_error_text error) };

    /// Writes the error within it.
    fn fmt<W: fmt::Write>(&self, f: &mut fmt::Formatter<W>) -> fmt::Result {
        match self {
            FileError::Text(error) => write!(f, "{error}"),
            FileError::Scenario(error) => write!(f, "{error}"),
        }
    }
}

impl Error for FileError {}

impl From<BenchError> for FileError {
    ghost from_gives = { λ error given. given ≡ refusal.Text error };

    fn from(error: BenchError) -> FileError {
        FileError::Text(error)
    }
}
