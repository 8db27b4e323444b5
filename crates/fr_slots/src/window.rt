//! Windows: transmission opportunities.

ghost use Rattle.std.specs.Prelude.{◌≡◌, ◌+◌, ◌<◌, ◌^◌};
ghost use Rattle.fr_slots.specs.Windows.{opens_cycle, cycles_with, most_cycles, run_cycle};

use crate::channel::Channel;
use crate::numbers::{Cycle, SlotId};
use crate::params::LAST_MINISLOT;
use std::marker::Model;

/// One transmission opportunity (project-defined): a static slot, or a minislot at which a slot opens.
#[derive(Clone, Copy, PartialEq, Eq)]
pub struct Window {
    /// The window's number in its run, from 0.
    pub number: u32,
    pub cycle: Cycle,
    /// The minislot at which it opens, 1 to 8000, or 0 for a static slot.
    pub minislot: u16,
    /// The slot that channel A opens, if any.
    pub a: Option<SlotId>,
    /// The slot that channel B opens, if any.
    pub b: Option<SlotId>,
}

impl Model for Window {
    ghost use Rattle.fr_slots.specs.Windows.{Opportunity, IsOpportunity};

    ghost Value = { Opportunity };

    ghost view = { λ w. record { number = w.number; cycle = w.cycle; minislot = w.minislot; a = w.a; b = w.b } };

    ghost invariant = { λ w.
        IsOpportunity (record { number = w.number; cycle = w.cycle; minislot = w.minislot; a = w.a; b = w.b }) };

    ghost inverse = { λ w. record { number = w.number; cycle = w.cycle; minislot = w.minislot; a = w.a; b = w.b } };
}

impl Window {
    ghost use Rattle.std.specs.Prelude.{◌≡◌, ◌==◌};
    ghost use Rattle.fr_slots.specs.Windows.{static_window, dynamic_window, slot_of, is_static};

    /// Returns the window of a static slot, which both channels open together (chapter 5).
    pub fn fixed(number: u32, cycle: Cycle, slot: SlotId) -> Window
        ensures { result ≡ static_window number cycle slot }
    {
        Window {
            number,
            cycle,
            minislot: 0,
            a: Some(slot),
            b: Some(slot),
        }
    }

    /// Returns the window of a minislot at which one channel or both open a slot (project-defined).
    ///
    /// Returns none for minislot 0 or above 8000, counted from 1, and if neither channel has a slot.
    pub fn dynamic(
        number: u32,
        cycle: Cycle,
        minislot: u16,
        a: Option<SlotId>,
        b: Option<SlotId>,
    ) -> Option<Window>
        ensures { result ≡ dynamic_window number cycle minislot a b }
    {
        if 1 <= minislot && minislot <= LAST_MINISLOT && (a.is_some() || b.is_some()) {
            Some(Window {
                number,
                cycle,
                minislot,
                a,
                b,
            })
        } else {
            None
        }
    }

    /// Returns the slot that the channel opens, if any.
    pub fn slot(&self, channel: Channel) -> Option<SlotId>
        ensures { result ≡ slot_of self.now channel }
    {
        match channel {
            Channel::A => self.a,
            Channel::B => self.b,
        }
    }

    /// Returns whether this is the window of a static slot.
    pub fn is_static(&self) -> bool
        ensures { result ≡ is_static self.now }
    {
        self.minislot == 0
    }
}

/// Returns whether the window is the first of its cycle: its static slot 1 (chapter 5).
pub fn opens_cycle(window: &Window) -> bool
    ensures { result ≡ opens_cycle window.now }
{
    window.is_static() && window.a.is_some_and(|slot| slot.number() == 1)
}

/// Returns the number of cycles of a run that have begun with this window, from the number before it
/// (project-defined).
///
/// At `u32::MAX`, which no run reaches, it stays.
pub fn cycles_with(begun: u32, window: &Window) -> u32
    ensures most { result ≡ most_cycles (cycles_with begun window.now) }
    ensures counted { begun + 1 < 2 ^ 32 → result ≡ cycles_with begun window.now }
{
    begun.saturating_add(u32::from(opens_cycle(window)))
}

/// Returns the cycle of the run, from 0, in which a window lies, from the number of cycles that began before it
/// (project-defined).
pub fn run_cycle(begun: u32, window: &Window) -> u32
    ensures { result ≡ run_cycle begun window.now }
{
    if opens_cycle(window) {
        begun
    } else {
        begun.saturating_sub(1)
    }
}
