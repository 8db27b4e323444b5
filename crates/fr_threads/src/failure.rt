//! Reasons why threads of a run end before it is over.

ghost use Rattle.std.specs.Prelude.{◌≡◌, IfNone, IsOk};
ghost use Rattle.std.specs.Result.{result_err};
ghost use Rattle.fr_threads.specs.declared.failure.RunFailure.TheVariants as failure;
ghost use Rattle.fr_threads.specs.Failures.{rank, least_of, told_after, failure_of_bus, failure_of_wire};
ghost use Rattle.fr_threads.specs.Failures.{failure_of_settling};

use fr_bus::error::BusError;
use fr_core::settle::SettleError;
use fr_desks::wire::WireError;
use fr_interface::errors::{HostError, InterfaceError, SlotError};
use std::alloc::AllocError;

/// Reasons why a thread of a run, or the run, ends before it is over.
#[derive(Clone, Copy, PartialEq, Eq)]
pub(crate) enum RunFailure {
    /// An interface refused the call of a task.
    Host(HostError),
    /// An interface refused the call of its controller.
    Slot(SlotError),
    /// The bus refused a call.
    Bus(BusError),
    /// A thread couldn't be started, or the bus didn't come to its end.
    Thread,
    /// The results of the threads don't agree.
    Settle(SettleError),
    /// An allocation failed.
    Memory,
    /// Another thread failed.
    Stopped,
}

/// Returns the rank of a failure: of several failures, the one of the least rank is reported.
fn rank(failure: &RunFailure) -> u8
    ensures { result ≡ rank failure.now }
{
    match failure {
        RunFailure::Host(_) => 0,
        RunFailure::Slot(_) => 1,
        RunFailure::Bus(_) => 2,
        RunFailure::Thread => 3,
        RunFailure::Settle(_) => 4,
        RunFailure::Memory => 5,
        RunFailure::Stopped => 6,
    }
}

/// Returns the one of two failures that is reported.
pub(crate) fn least_of(earlier: Option<RunFailure>, failure: RunFailure) -> RunFailure
    ensures { result ≡ least_of earlier failure }
{
    match earlier {
        None => failure,
        Some(first) => {
            if rank(&failure) < rank(&first) {
                failure
            } else {
                first
            }
        }
    }
}

/// Returns the failure that is reported, of a thread's result and a failure before it.
pub(crate) fn told_with(
    earlier: Option<RunFailure>,
    answer: Result<(), RunFailure>,
) -> Option<RunFailure>
    ensures told { result ≡ told_after earlier (result_err answer) }
    ensures none { IfNone result (IsOk answer) }
{
    match answer {
        Ok(()) => earlier,
        Err(failure) => Some(least_of(earlier, failure)),
    }
}

/// Returns the failure for a refusal of the bus.
fn failure_of_bus(error: BusError) -> RunFailure
    ensures { result ≡ failure_of_bus error }
{
    match error {
        BusError::Memory => RunFailure::Memory,
        error => RunFailure::Bus(error),
    }
}

impl From<AllocError> for RunFailure {
    ghost from_gives = { λ _ given. given ≡ failure.Memory };

    fn from(_error: AllocError) -> RunFailure {
        RunFailure::Memory
    }
}

impl From<InterfaceError> for RunFailure {
    ghost from_gives = { λ _ given. given ≡ failure.Memory };

    fn from(error: InterfaceError) -> RunFailure {
        match error {
            InterfaceError::Memory => RunFailure::Memory,
        }
    }
}

impl From<HostError> for RunFailure {
    ghost from_gives = { λ error given. given ≡ failure.Host error };

    fn from(error: HostError) -> RunFailure {
        RunFailure::Host(error)
    }
}

impl From<SlotError> for RunFailure {
    ghost from_gives = { λ error given. given ≡ failure.Slot error };

    fn from(error: SlotError) -> RunFailure {
        RunFailure::Slot(error)
    }
}

impl From<BusError> for RunFailure {
    ghost from_gives = { λ error given. given ≡ failure_of_bus error };

    fn from(error: BusError) -> RunFailure {
        failure_of_bus(error)
    }
}

impl From<WireError> for RunFailure {
    ghost from_gives = { λ error given. given ≡ failure_of_wire error };

    fn from(error: WireError) -> RunFailure {
        match error {
            WireError::Bus(error) => failure_of_bus(error),
            WireError::Stopped => RunFailure::Stopped,
        }
    }
}

impl From<SettleError> for RunFailure {
    ghost from_gives = { λ error given. given ≡ failure_of_settling error };

    fn from(error: SettleError) -> RunFailure {
        match error {
            SettleError::Memory => RunFailure::Memory,
            error => RunFailure::Settle(error),
        }
    }
}
