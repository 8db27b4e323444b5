//! The refusals of calls of an interface.

use std::alloc::AllocError;
use std::error::Error;
use std::fmt;

/// Reasons to refuse a new interface.
#[derive(Clone, Copy, Debug, PartialEq, Eq)]
pub enum InterfaceError {
    /// A failed allocation of its journal.
    Memory,
}

impl InterfaceError {
    ghost use Rattle.std.specs.Prelude.{◌≡◌};
    ghost use Rattle.fr_interface.specs.ErrorNames.{interface_error_name};

    /// Returns the printed name of the refusal (project-defined).
    pub fn name(self) -> &'static str
        ensures { result.now ≡ interface_error_name self }
    {
        match self {
            InterfaceError::Memory => "Memory",
        }
    }
}

impl fmt::Display for InterfaceError {
    ghost use Rattle.std.specs.Prelude.{Some};
    ghost use Rattle.fr_interface.specs.ErrorNames.{interface_error_name};

    ghost output = { λ error. Some (interface_error_name error) };

    /// Writes the name.
    fn fmt<W: fmt::Write>(&self, f: &mut fmt::Formatter<W>) -> fmt::Result {
        write!(f, "{}", self.name())
    }
}

impl Error for InterfaceError {}

/// Reasons to refuse a call of the host (project-defined).
#[derive(Clone, Copy, Debug, PartialEq, Eq)]
pub enum HostError {
    /// A task that the plan doesn't have.
    UnknownTask,
    /// A buffer that the plan doesn't have.
    UnknownBuffer,
    /// A receive buffer, for a call of a transmit buffer.
    NotTransmit,
    /// A payload with another length than the buffer's.
    WrongLength,
    /// A journal without room for a further host entry.
    HostFull,
    /// A transmit buffer, for a call of a receive buffer.
    NotReceive,
    /// A plan without a receive FIFO.
    NoQueue,
}

impl HostError {
    ghost use Rattle.std.specs.Prelude.{◌≡◌};
    ghost use Rattle.fr_interface.specs.ErrorNames.{host_error_name};

    /// Returns the printed name of the refusal (project-defined).
    pub fn name(self) -> &'static str
        ensures { result.now ≡ host_error_name self }
    {
        match self {
            HostError::UnknownTask => "UnknownTask",
            HostError::UnknownBuffer => "UnknownBuffer",
            HostError::NotTransmit => "NotTransmit",
            HostError::WrongLength => "WrongLength",
            HostError::HostFull => "HostFull",
            HostError::NotReceive => "NotReceive",
            HostError::NoQueue => "NoQueue",
        }
    }
}

impl fmt::Display for HostError {
    ghost use Rattle.std.specs.Prelude.{Some};
    ghost use Rattle.fr_interface.specs.ErrorNames.{host_error_name};

    ghost output = { λ error. Some (host_error_name error) };

    /// Writes the name.
    fn fmt<W: fmt::Write>(&self, f: &mut fmt::Formatter<W>) -> fmt::Result {
        write!(f, "{}", self.name())
    }
}

impl Error for HostError {}

/// Reasons to refuse a call of the controller (project-defined).
#[derive(Clone, Copy, Debug, PartialEq, Eq)]
pub enum SlotError {
    /// A fetched window that isn't observed yet.
    NotObserved,
    /// A window whose number isn't above that of the window before.
    WindowOrder,
    /// A journal without room for two further slot entries.
    SlotFull,
    /// An observe without an open window.
    NotFetched,
    /// An observe of another window than the open one.
    WrongWindow,
    /// A window that the parameters don't have.
    BadWindow,
}

impl SlotError {
    ghost use Rattle.std.specs.Prelude.{◌≡◌};
    ghost use Rattle.fr_interface.specs.ErrorNames.{slot_error_name};

    /// Returns the printed name of the refusal (project-defined).
    pub fn name(self) -> &'static str
        ensures { result.now ≡ slot_error_name self }
    {
        match self {
            SlotError::NotObserved => "NotObserved",
            SlotError::WindowOrder => "WindowOrder",
            SlotError::SlotFull => "SlotFull",
            SlotError::NotFetched => "NotFetched",
            SlotError::WrongWindow => "WrongWindow",
            SlotError::BadWindow => "BadWindow",
        }
    }
}

impl fmt::Display for SlotError {
    ghost use Rattle.std.specs.Prelude.{Some};
    ghost use Rattle.fr_interface.specs.ErrorNames.{slot_error_name};

    ghost output = { λ error. Some (slot_error_name error) };

    /// Writes the name.
    fn fmt<W: fmt::Write>(&self, f: &mut fmt::Formatter<W>) -> fmt::Result {
        write!(f, "{}", self.name())
    }
}

impl Error for SlotError {}

impl From<AllocError> for InterfaceError {
    ghost use Rattle.std.specs.Prelude.{◌≡◌};
    ghost use Rattle.fr_interface.specs.declared.errors.InterfaceError.TheVariants.{Memory};

    ghost from_gives = { λ _ e. e ≡ Memory };

    fn from(_error: AllocError) -> InterfaceError {
        InterfaceError::Memory
    }
}
