//! The numbers of a receive FIFO after some entries of a journal.
ghost use Rattle.std.specs.Prelude.{◌≡◌, ◌<◌, ◌+◌, ◌^◌};
ghost use Rattle.fr_fifo.specs.FifoSteps.{cycle_in, oldest_in, with_frame, with_window, without_oldest};

use fr_frame::lent::LentFrame;
use fr_slots::window::{Window, cycles_with};

/// The numbers of a receive FIFO after some entries.
#[derive(Clone, Copy)]
pub(crate) struct Running {
    /// The number of frames that it stored.
    pub(crate) stored: u32,
    /// The number of frames that it holds.
    pub(crate) held: u32,
    /// The number of cycles that have begun.
    pub(crate) cycles: u32,
}

impl Running {
    /// The numbers before any entry.
    pub(crate) const NONE: Running = Running {
        stored: 0,
        held: 0,
        cycles: 0,
    };
}

/// Returns the number of the oldest frame in the FIFO, counted from 0.
pub(crate) fn oldest_in(running: Running) -> u32
    ensures { result ≡ oldest_in running }
{
    running.stored.saturating_sub(running.held)
}

/// Returns the cycle of the run in which the last window was fetched.
pub(crate) fn cycle_in(running: Running) -> u32
    ensures { result ≡ cycle_in running }
{
    running.cycles.saturating_sub(1)
}

/// Returns the numbers once the FIFO has stored a frame, if there is one. A full FIFO loses its oldest.
pub(crate) fn with_frame(capacity: u16, running: Running, frame: &Option<LentFrame<'_>>) -> Running
    requires stored { running.stored + 1 < 2 ^ 32 }
    requires held { running.held + 1 < 2 ^ 32 }
    ensures { result ≡ with_frame capacity running frame.now }
{
    match frame {
        Some(_) => Running {
            stored: running.stored + 1,
            held: (running.held + 1).min(u32::from(capacity)),
            cycles: running.cycles,
        },
        None => running,
    }
}

/// Returns the numbers after a pop.
pub(crate) fn without_oldest(running: Running) -> Running
    ensures { result ≡ without_oldest running }
{
    Running {
        stored: running.stored,
        held: running.held.saturating_sub(1),
        cycles: running.cycles,
    }
}

/// Returns the numbers once the window is fetched.
pub(crate) fn with_window(running: Running, window: &Window) -> Running
    requires { running.cycles + 1 < 2 ^ 32 }
    ensures { result ≡ with_window running window.now }
{
    Running {
        stored: running.stored,
        held: running.held,
        cycles: cycles_with(running.cycles, window),
    }
}
