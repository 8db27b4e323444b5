//! Faults of a run.

ghost use Rattle.std.specs.Prelude.{◌≡◌, OnOk};
ghost use Rattle.fr_runs.specs.Faulted.{lines_of_cycle};
ghost use Rattle.fr_runs.specs.Striking.{opens, opens_one, channel_of};

use crate::cycles::RunCycles;
use fr_bus::fault::Fault;
use fr_slots::channel::Channel;
use fr_slots::numbers::SlotId;
use fr_slots::window::Window;
use std::alloc::AllocError;

/// The windows of a cycle in which a fault occurs (project-defined).
#[derive(Clone, Copy, PartialEq, Eq)]
pub enum FaultPlace {
    /// Every window, of the static and the dynamic segment.
    EveryWindow,
    /// Every static slot.
    EverySlot,
    /// The static slot of this number, counted from 1.
    Slot(u16),
    /// Each static slot from `first` to `last`, counted from 1.
    Slots { first: u16, last: u16 },
    /// Every window of the dynamic segment.
    EveryMinislot,
    /// The window that opens at the minislot of this number, counted from 1. If none opens there, the fault doesn't
    /// occur.
    Minislot(u16),
    /// The window in which the fault's channel opens the dynamic slot of this number, at any minislot. If the channel
    /// doesn't open the slot in a cycle, the fault doesn't occur in it.
    Dynamic(u16),
}

/// A fault, and the windows of a run in which it occurs (project-defined).
#[derive(Drop, PartialEq, Eq)]
pub struct FaultLine {
    /// The fault.
    pub fault: Fault,
    /// The cycles.
    pub cycles: RunCycles,
    /// The windows of such a cycle.
    pub place: FaultPlace,
}

/// Replaces the kept lines by copies of the lines that name this cycle of the run, in order. No other line takes effect
/// in a window of that cycle (project-defined).
///
/// Fails if an allocation fails, and then some of them are kept.
pub fn keep_lines_of(
    lines: &[FaultLine],
    cycle: usize,
    kept: &mut Vec<FaultLine>,
) -> Result<(), AllocError>
    ensures { OnOk result (kept.new.items ≡ lines_of_cycle cycle lines.now) }
{
    kept.clear();
    for line in lines {
        if line.cycles.names(cycle) {
            kept.push(line.duplicate())?;
        }
    }
    Ok(())
}

/// Returns whether the channel opens the slot of this number.
fn opens(number: u16, slot: Option<SlotId>) -> bool
    ensures { result ≡ opens number slot }
{
    match slot {
        Some(slot) => slot.number() == number,
        None => false,
    }
}

/// Returns whether the channel opens one of the slots from the first to the last.
fn opens_one(first: u16, last: u16, slot: Option<SlotId>) -> bool
    ensures { result ≡ opens_one first last slot }
{
    match slot {
        Some(slot) => first <= slot.number() && slot.number() <= last,
        None => false,
    }
}

/// Returns the channel of the fault.
fn channel_of(fault: &Fault) -> Channel
    ensures { result ≡ channel_of fault.now }
{
    match fault {
        Fault::Babble { channel, .. }
        | Fault::Mute { channel, .. }
        | Fault::Corrupt { channel, .. } => *channel,
    }
}

impl FaultPlace {
    ghost use Rattle.std.specs.Prelude.{◌≡◌};
    ghost use Rattle.fr_runs.specs.Striking.{names_window};

    /// Returns whether the window is named for a fault on this channel.
    fn names(self, channel: Channel, window: &Window) -> bool
        ensures { result ≡ names_window self channel window.now }
    {
        match self {
            FaultPlace::EveryWindow => true,
            FaultPlace::EverySlot => window.is_static(),
            FaultPlace::Slot(number) => window.is_static() && opens(number, window.a),
            FaultPlace::Slots { first, last } => window.is_static()
                && opens_one(first, last, window.a),
            FaultPlace::EveryMinislot => !window.is_static(),
            FaultPlace::Minislot(number) => !window.is_static() && window.minislot == number,
            FaultPlace::Dynamic(number) => !window.is_static()
                && opens(number, window.slot(channel)),
        }
    }
}

impl FaultLine {
    ghost use Rattle.std.specs.Prelude.{◌≡◌};
    ghost use Rattle.fr_runs.specs.Striking.{line_within, strikes};

    /// Returns a copy of the line.
    pub fn duplicate(&self) -> FaultLine
        ensures { result ≡ self.now }
    {
        FaultLine {
            fault: self.fault.duplicate(),
            cycles: self.cycles,
            place: self.place,
        }
    }

    /// Returns a copy of the line, without the cycles that a run of so many cycles lacks (project-defined). A line of a
    /// single cycle stays as it is.
    pub fn within(&self, cycles: u16) -> FaultLine
        ensures { result ≡ line_within cycles self.now }
    {
        FaultLine {
            fault: self.fault.duplicate(),
            cycles: self.cycles.within(cycles),
            place: self.place,
        }
    }

    /// Returns whether the fault occurs in this window (project-defined). `cycle` is the number of the window's cycle
    /// in the run, counted from 0, without a wrap after 63.
    pub fn strikes(&self, cycle: usize, window: &Window) -> bool
        ensures { result ≡ strikes self.now cycle window.now }
    {
        self.cycles.names(cycle) && self.place.names(channel_of(&self.fault), window)
    }
}
