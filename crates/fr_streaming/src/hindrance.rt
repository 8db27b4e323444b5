//! The events that end a run early.
ghost use Rattle.std.specs.Prelude.{◌≡◌};
ghost use Rattle.fr_streaming.specs.Runs.{error_of, hindrance_of};

use fr_bus::error::BusError;
use fr_core::error::StepError;
use fr_files::error::BenchError;
use fr_playing::error::PlayError;

/// An event that ends a run early.
#[derive(Clone, Copy, PartialEq, Eq)]
pub(crate) enum Hindrance {
    /// The world refused an event.
    Step(StepError),
    /// The bus didn't come to its end.
    Unfinished,
    /// An allocation failed.
    Memory,
    /// The writer failed.
    Write,
}

impl From<StepError> for Hindrance {
    ghost from_gives = { λ error given. given ≡ hindrance_of error };

    fn from(error: StepError) -> Hindrance {
        match error {
            StepError::Bus(BusError::Memory) => Hindrance::Memory,
            _ => Hindrance::Step(error),
        }
    }
}

/// Returns the hindrance as an error.
pub(crate) fn error_of(hindrance: Hindrance) -> PlayError
    ensures { result ≡ error_of hindrance }
{
    match hindrance {
        Hindrance::Step(error) => PlayError::Step(error),
        Hindrance::Unfinished => PlayError::Unfinished,
        Hindrance::Memory => PlayError::Text(BenchError::Memory),
        Hindrance::Write => PlayError::Text(BenchError::Write),
    }
}
