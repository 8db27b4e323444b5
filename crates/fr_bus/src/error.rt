//! The phases of the open window, and the refusals of a bus.

ghost use Rattle.std.specs.Prelude.{◌≡◌};
ghost use Rattle.fr_bus.specs.States.{collects, seals};

use std::error::Error;
use std::fmt;

/// The phase of the open window (project-defined).
#[derive(Clone, Copy, PartialEq, Eq)]
pub enum Phase {
    /// Nodes put their offers, and faults are injected.
    Collect,
    /// The window's outcome is in the record, and nodes take their observations.
    Sealed,
    /// The run has no further window.
    Finished,
}

impl Phase {
    /// Returns whether nodes put offers.
    pub(crate) fn collects(self) -> bool
        ensures { result ≡ collects self }
    {
        matches!(self, Phase::Collect)
    }

    /// Returns whether nodes take their observations.
    pub(crate) fn seals(self) -> bool
        ensures { result ≡ seals self }
    {
        matches!(self, Phase::Sealed)
    }
}

/// Reasons to refuse a call of a bus (project-defined).
#[derive(Clone, Copy, Debug, PartialEq, Eq)]
pub enum BusError {
    /// A node that the cluster doesn't have.
    UnknownNode,
    /// A window that is sealed, or a run that is over.
    NotCollecting,
    /// A number other than that of the open window.
    WrongWindow,
    /// A node that has put its offer in the open window.
    AlreadyPut,
    /// A second fault of this kind, node and channel in the open window.
    TooManyFaults,
    /// A node that hasn't put its offer in the open window.
    NotAllPut,
    /// A window that isn't sealed, or a run that is over.
    NotSealed,
    /// A node that has taken its observation in the open window.
    AlreadyTaken,
    /// A node that hasn't taken its observation in the open window.
    NotAllTaken,
    /// A number of cycles other than 1 to 1024.
    BadCycles,
    /// An allocation that failed.
    Memory,
}

impl BusError {
    ghost use Rattle.std.specs.Prelude.{◌≡◌};
    ghost use Rattle.fr_bus.specs.ErrorNames.{bus_error_name};

    /// Returns the printed name of the refusal (project-defined).
    pub fn name(self) -> &'static str
        ensures { result.now ≡ bus_error_name self }
    {
        match self {
            BusError::UnknownNode => "UnknownNode",
            BusError::NotCollecting => "NotCollecting",
            BusError::WrongWindow => "WrongWindow",
            BusError::AlreadyPut => "AlreadyPut",
            BusError::TooManyFaults => "TooManyFaults",
            BusError::NotAllPut => "NotAllPut",
            BusError::NotSealed => "NotSealed",
            BusError::AlreadyTaken => "AlreadyTaken",
            BusError::NotAllTaken => "NotAllTaken",
            BusError::BadCycles => "BadCycles",
            BusError::Memory => "Memory",
        }
    }
}

impl fmt::Display for BusError {
    ghost use Rattle.std.specs.Prelude.{Some};
    ghost use Rattle.fr_bus.specs.ErrorNames.{bus_error_name};

    ghost output = { λ error. Some (bus_error_name error) };

    /// Writes the name.
    fn fmt<W: fmt::Write>(&self, f: &mut fmt::Formatter<W>) -> fmt::Result {
        write!(f, "{}", self.name())
    }
}

impl Error for BusError {}
