//! The events that end a single-threaded run early.
ghost use Rattle.std.specs.Prelude.{◌≡◌, None};
ghost use Rattle.fr_playing.specs.Refusals.{error_of_hindrance, hindrance_of, refusal_of, IsOfRun};
ghost use Rattle.fr_playing.specs.declared.hindrance.Hindrance.TheVariants as hindrance;
ghost use Rattle.fr_core.specs.declared.error.StepError.TheVariants as step;

use crate::error::PlayError;
use fr_bus::error::BusError;
use fr_core::error::StepError;
use fr_files::error::BenchError;
use std::alloc::{AllocError, AllocFailed};

/// An event that ends a single-threaded run early.
///
/// In a run that the cluster accepts, the only known one is a failed allocation.
#[derive(Clone, Copy, PartialEq, Eq)]
pub(crate) enum Hindrance {
    /// The world refused an event.
    Step(StepError),
    /// The bus didn't come to its end.
    Unfinished,
    /// An allocation failed.
    Memory,
}

/// Returns the hindrance as an error.
pub(crate) fn error_of(hindrance: Hindrance) -> PlayError
    ensures error { result ≡ error_of_hindrance hindrance }
    ensures told { refusal_of result ≡ None }
    ensures kind { IsOfRun result }
{
    match hindrance {
        Hindrance::Step(error) => PlayError::Step(error),
        Hindrance::Unfinished => PlayError::Unfinished,
        Hindrance::Memory => PlayError::Text(BenchError::Memory),
    }
}

impl From<StepError> for Hindrance {
    ghost from_gives = { λ error given. given ≡ hindrance_of error };

    fn from(error: StepError) -> Hindrance {
        match error {
            StepError::Bus(BusError::Memory) => Hindrance::Memory,
            _ => Hindrance::Step(error),
        }
    }
}

impl From<BusError> for Hindrance {
    ghost from_gives = { λ error given. given ≡ hindrance_of (step.Bus error) };

    fn from(error: BusError) -> Hindrance {
        Hindrance::from(StepError::Bus(error))
    }
}

impl From<AllocError> for Hindrance {
    ghost from_gives = { λ _ given. given ≡ hindrance.Memory };

    fn from(_error: AllocError) -> Hindrance {
        Hindrance::Memory
    }
}

impl<T: Drop> From<AllocFailed<T>> for Hindrance {
    ghost from_gives = { λ _ given. given ≡ hindrance.Memory };

    fn from(_error: AllocFailed<T>) -> Hindrance {
        Hindrance::Memory
    }
}
