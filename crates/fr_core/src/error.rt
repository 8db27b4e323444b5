//! The refusals of events.

use fr_bus::error::BusError;
use fr_interface::errors::{HostError, SlotError};
use std::error::Error;
use std::fmt;

/// Reasons to refuse an event (project-defined).
#[derive(Clone, Copy, Debug, PartialEq, Eq)]
pub enum StepError {
    /// A node that the cluster doesn't have.
    UnknownNode,
    /// A controller for which another step is due.
    WrongTurn,
    /// A task's call that the interface refuses.
    Host(HostError),
    /// A controller's call that the interface refuses.
    Slot(SlotError),
    /// A call that the bus refuses.
    Bus(BusError),
}

impl fmt::Display for StepError {
    ghost use Rattle.std.specs.Prelude.{Some};
    ghost use Rattle.fr_core.specs.ErrorNames.{step_error_text};

    ghost output = { λ error. Some (step_error_text error) };

    /// Writes the refusal's name; for one of an interface or the bus, also its own name.
    fn fmt<W: fmt::Write>(&self, f: &mut fmt::Formatter<W>) -> fmt::Result {
        match self {
            StepError::UnknownNode => write!(f, "UnknownNode"),
            StepError::WrongTurn => write!(f, "WrongTurn"),
            StepError::Host(error) => write!(f, "Host {error}"),
            StepError::Slot(error) => write!(f, "Slot {error}"),
            StepError::Bus(error) => write!(f, "Bus {error}"),
        }
    }
}

impl Error for StepError {}

impl From<HostError> for StepError {
    ghost use Rattle.std.specs.Prelude.{◌≡◌};
    ghost use Rattle.fr_core.specs.declared.error.StepError.TheVariants.{Host};

    ghost from_gives = { λ error e. e ≡ Host error };

    fn from(error: HostError) -> StepError {
        StepError::Host(error)
    }
}

impl From<SlotError> for StepError {
    ghost use Rattle.std.specs.Prelude.{◌≡◌};
    ghost use Rattle.fr_core.specs.declared.error.StepError.TheVariants.{Slot};

    ghost from_gives = { λ error e. e ≡ Slot error };

    fn from(error: SlotError) -> StepError {
        StepError::Slot(error)
    }
}

impl From<BusError> for StepError {
    ghost use Rattle.std.specs.Prelude.{◌≡◌};
    ghost use Rattle.fr_core.specs.declared.error.StepError.TheVariants.{Bus};

    ghost from_gives = { λ error e. e ≡ Bus error };

    fn from(error: BusError) -> StepError {
        StepError::Bus(error)
    }
}
