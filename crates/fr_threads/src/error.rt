//! Reasons why a run is refused, or fails.

ghost use Rattle.std.specs.Prelude.{◌≡◌, Some, None};
ghost use Rattle.fr_threads.specs.Failures.{error_of, IsMemoryTold};
ghost use Rattle.fr_threads.specs.Running.{refusal_of};

use crate::failure::RunFailure;
use fr_bus::error::BusError;
use fr_core::settle::SettleError;
use fr_interface::errors::{HostError, SlotError};
use fr_runs::check::RunRefusal;
use fr_slots::numbers::NodeId;
use std::error::Error;
use std::fmt;

/// Reasons why a run is refused, or fails (project-defined).
#[derive(Clone, Copy, Debug, PartialEq, Eq)]
pub enum RunError {
    /// The number of cycles is 0 or above 1024.
    BadCycles,
    /// The script of this place, from 0, doesn't suit the cluster.
    BadScript(usize),
    /// The fault line of this place, from 0, doesn't suit the cluster.
    BadFault(usize),
    /// The journal of this node has no room for the run.
    NoRoom(NodeId),
    /// An interface refused the call of a task.
    Host(HostError),
    /// An interface refused the call of its controller.
    Slot(SlotError),
    /// The bus refused a call.
    Bus(BusError),
    /// The thread of a task, a controller or the bus couldn't be started. Or the bus didn't come to its end with the
    /// run's faults and, in a lockstep run, each line in its cycle.
    Thread,
    /// The results of the threads don't agree.
    Settle(SettleError),
    /// An allocation failed.
    Memory,
}

impl fmt::Display for RunError {
    ghost use Rattle.std.specs.Prelude.{Some};
    ghost use Rattle.fr_threads.specs.ErrorNames.{run_error_text};

    ghost output = { λ error. Some (run_error_text error) };

    /// Writes the name, the place or the node at fault, or the error of the crate below.
    fn fmt<W: fmt::Write>(&self, f: &mut fmt::Formatter<W>) -> fmt::Result {
        match self {
            RunError::BadCycles => write!(f, "BadCycles"),
            RunError::BadScript(place) => write!(f, "BadScript {place}"),
            RunError::BadFault(place) => write!(f, "BadFault {place}"),
            RunError::NoRoom(node) => write!(f, "NoRoom {node}"),
            RunError::Host(error) => write!(f, "Host {error}"),
            RunError::Slot(error) => write!(f, "Slot {error}"),
            RunError::Bus(error) => write!(f, "Bus {error}"),
            RunError::Thread => write!(f, "Thread"),
            RunError::Settle(error) => write!(f, "Settle {}", SettleText(*error)),
            RunError::Memory => write!(f, "Memory"),
        }
    }
}

impl Error for RunError {}

// The text that `fr_core` derives has no clause.
/// The text of a failed cross-check.
#[derive(Clone, Copy)]
struct SettleText(SettleError);

impl fmt::Display for SettleText {
    ghost use Rattle.std.specs.Prelude.{Some};
    ghost use Rattle.fr_threads.specs.ErrorNames.{settle_error_text};

    ghost output = { λ text. Some (settle_error_text text.0) };

    /// Writes the name, and the place of the difference.
    fn fmt<W: fmt::Write>(&self, f: &mut fmt::Formatter<W>) -> fmt::Result {
        match self.0 {
            SettleError::PlanDiffers(place) => write!(f, "PlanDiffers {place}"),
            SettleError::WindowsDiffer(node) => write!(f, "WindowsDiffer {node}"),
            SettleError::OfferDiffers(node, window) => write!(f, "OfferDiffers {node} {window}"),
            SettleError::SeenDiffers(node, window) => write!(f, "SeenDiffers {node} {window}"),
            SettleError::ScriptDiffers(node, task) => write!(f, "ScriptDiffers {node} {task}"),
            SettleError::Memory => write!(f, "Memory"),
        }
    }
}

/// Returns the refusal as an error.
pub(crate) fn error_of_refusal(refusal: RunRefusal) -> RunError
    ensures refusal { refusal_of result ≡ Some refusal }
    ensures memory { IsMemoryTold result }
{
    match refusal {
        RunRefusal::BadCycles => RunError::BadCycles,
        RunRefusal::BadScript(place) => RunError::BadScript(place),
        RunRefusal::BadFault(place) => RunError::BadFault(place),
        RunRefusal::NoRoom(node) => RunError::NoRoom(node),
    }
}

/// Returns the failure as an error.
///
/// A run in which every thread was stopped has no failed thread, and didn't come to its end.
pub(crate) fn error_of_failure(failure: RunFailure) -> RunError
    ensures error { result ≡ error_of failure }
    ensures no_refusal { refusal_of result ≡ None }
    ensures memory { IsMemoryTold result }
{
    match failure {
        RunFailure::Host(error) => RunError::Host(error),
        RunFailure::Slot(error) => RunError::Slot(error),
        RunFailure::Bus(BusError::Memory) => RunError::Memory,
        RunFailure::Bus(error) => RunError::Bus(error),
        RunFailure::Thread | RunFailure::Stopped => RunError::Thread,
        RunFailure::Settle(SettleError::Memory) => RunError::Memory,
        RunFailure::Settle(error) => RunError::Settle(error),
        RunFailure::Memory => RunError::Memory,
    }
}
