//! The stage of the open window, kept beside the lock of the bus.

use std::sync::atomic::{AtomicU32, Ordering};

/// The stage of the open window.
#[derive(Clone, Copy)]
pub(crate) enum Stage {
    /// It collects, and not all nodes have put.
    Collecting,
    /// It collects, and all nodes have put.
    AllPut,
    /// It is sealed, and not all nodes have taken.
    Sealed,
    /// It is sealed, and all nodes have taken.
    AllTaken,
    /// The run is over, or the wire was stopped.
    Over,
}

impl Stage {
    /// Returns the stage of this number, in the numbering of `as`.
    fn of(number: u32) -> Stage {
        match number {
            0 => Stage::Collecting,
            1 => Stage::AllPut,
            2 => Stage::Sealed,
            3 => Stage::AllTaken,
            _ => Stage::Over,
        }
    }

    /// Returns whether a next, a put or an inject needn't wait.
    ///
    /// This holds if the open window collects, or the run is over.
    pub(crate) fn lets_offer(self) -> bool {
        !matches!(self, Stage::Sealed | Stage::AllTaken)
    }

    /// Returns whether a seal needn't wait: all nodes have put, or the run is over.
    pub(crate) fn lets_seal(self) -> bool {
        matches!(self, Stage::AllPut | Stage::Over)
    }

    /// Returns whether a take needn't wait: the open window is sealed, or the run is over.
    pub(crate) fn lets_take(self) -> bool {
        !matches!(self, Stage::Collecting | Stage::AllPut)
    }

    /// Returns whether an advance needn't wait: all nodes have taken, or the run is over.
    pub(crate) fn lets_advance(self) -> bool {
        matches!(self, Stage::AllTaken | Stage::Over)
    }
}

// Calls poll the hint before they take the lock, so that early calls don't take it from due ones.
/// The stage that was stored last. It may be stored late, so it decides nothing: each call tests the stage again under
/// the lock.
#[derive(Drop)]
pub(crate) struct Hint {
    stage: AtomicU32,
    /// The number of windows that were delivered, or more once the wire was stopped.
    delivered: AtomicU32,
}

impl Hint {
    /// Returns the hint of a window that just opened.
    pub(crate) fn new() -> Hint {
        Hint {
            stage: AtomicU32::new(Stage::Collecting as u32),
            delivered: AtomicU32::new(0),
        }
    }

    /// Stores the stage, for calls that poll.
    pub(crate) fn tell(&self, stage: Stage) {
        self.stage.store(stage as u32, Ordering::Release);
    }

    /// Returns the stage that was stored last.
    pub(crate) fn stage(&self) -> Stage {
        Stage::of(self.stage.load(Ordering::Acquire))
    }

    /// Stores that the window of this number was delivered.
    pub(crate) fn tell_delivered(&self, number: u32) {
        self.delivered
            .store(number.saturating_add(1), Ordering::Release);
    }

    /// Returns whether the window of this number was delivered, by what was stored last.
    pub(crate) fn has_delivered(&self, number: u32) -> bool {
        self.delivered.load(Ordering::Acquire) > number
    }
}
