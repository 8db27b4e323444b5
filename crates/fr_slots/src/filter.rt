//! Filters by slot, channel and cycle.

ghost use Rattle.std.specs.Prelude.{◌≡◌, ◌&&◌};
ghost use Rattle.fr_slots.specs.Admission.{cycle_class, cycle_admitted, is_every_cycle, includes};

use crate::channel::{Channel, Channels};
use crate::numbers::{CYCLES, Cycle, SlotId};
use crate::window::Window;
use std::marker::Model;
use thiserror::Error;

/// Reasons to refuse a base and a repetition.
#[derive(Clone, Copy, Debug, PartialEq, Eq, Error)]
pub enum FilterError {
    /// A repetition other than 1, 2, 4, 8, 16, 32 and 64.
    #[error("the repetition isn't 1, 2, 4, 8, 16, 32 or 64")]
    RepetitionNotPower,
    /// A base that isn't below the repetition.
    #[error("the base isn't below the repetition")]
    BaseTooLarge,
}

/// The cycles whose number leaves the base when divided by the repetition (chapter 9).
#[derive(Clone, Copy, PartialEq, Eq)]
pub struct CycleFilter {
    base: u8,
    repetition: u8,
}

impl Model for CycleFilter {
    ghost use Rattle.fr_slots.specs.Admission.{CycleClass, IsCycleClass};

    ghost Value = { CycleClass };

    ghost view = { λ f. record { base = f.base; repetition = f.repetition } };

    ghost invariant = { λ f. IsCycleClass (record { base = f.base; repetition = f.repetition }) };

    ghost inverse = { λ c. record { base = c.base; repetition = c.repetition } };
}

impl Default for CycleFilter {
    ghost is_default = { λ f. f ≡ record { base = 0; repetition = 1 } };

    /// Returns the filter of all cycles.
    fn default() -> CycleFilter {
        CycleFilter {
            base: 0,
            repetition: 1,
        }
    }
}

impl CycleFilter {
    ghost use Rattle.fr_slots.specs.Admission.{IsCycleClass};
    ghost use Rattle.fr_slots.specs.Faults.{first_common};

    /// Returns the filter of the cycles whose number leaves `base` when divided by `repetition`.
    ///
    /// Fails with `RepetitionNotPower` if the repetition isn't 1, 2, 4, 8, 16, 32 or 64, then with `BaseTooLarge` if
    /// the base isn't below it.
    pub fn new(base: u8, repetition: u8) -> Result<CycleFilter, FilterError>
        ensures { result ≡ cycle_class base repetition }
    {
        if !matches!(repetition, 1 | 2 | 4 | 8 | 16 | 32 | 64) {
            return Err(FilterError::RepetitionNotPower);
        }
        if base >= repetition {
            return Err(FilterError::BaseTooLarge);
        }
        Ok(CycleFilter { base, repetition })
    }

    /// Returns the remainder of the admitted cycles.
    pub fn base(self) -> u8
        ensures value { result ≡ self.base }
        ensures lawful { IsCycleClass self }
    {
        self.base
    }

    /// Returns the distance between admitted cycles: 1, 2, 4, 8, 16, 32 or 64.
    pub fn repetition(self) -> u8
        ensures value { result ≡ self.repetition }
        ensures lawful { IsCycleClass self }
    {
        self.repetition
    }

    /// Returns whether the filter admits the cycle.
    pub fn admits(self, cycle: Cycle) -> bool
        ensures { result ≡ cycle_admitted self cycle }
    {
        // The repetition is a power of two, so the remainder is in the bits below it.
        cycle.number() & (self.repetition - 1) == self.base
    }

    /// Returns whether the filter admits every cycle.
    pub fn is_every_cycle(self) -> bool
        ensures { result ≡ is_every_cycle self }
    {
        self.base == 0 && self.repetition == 1
    }

    /// Returns the least cycle that both filters admit, if there is one.
    pub fn first_common(&self, other: &CycleFilter) -> Option<Cycle>
        ensures { result ≡ first_common self.now other.now }
    {
        for number in 0..CYCLES {
            let cycle = Cycle::from_bits(number);
            if both_admit(*self, *other, cycle) {
                return Some(cycle);
            }
        }
        None
    }
}

/// Returns whether both filters admit the cycle.
fn both_admit(one: CycleFilter, other: CycleFilter, cycle: Cycle) -> bool
    ensures { result ≡ (cycle_admitted one cycle && cycle_admitted other cycle) }
{
    one.admits(cycle) && other.admits(cycle)
}

/// The slot, channels and cycles that a buffer is for.
#[derive(Clone, Copy, Default, PartialEq, Eq)]
pub struct Filter {
    pub slot: SlotId,
    pub channels: Channels,
    pub cycles: CycleFilter,
}

impl Filter {
    ghost use Rattle.fr_slots.specs.Plans.{filter_admits, admits_window};

    /// Returns whether slot, channel and cycle are all the filter's.
    pub fn admits(self, cycle: Cycle, slot: SlotId, channel: Channel) -> bool
        ensures { result ≡ filter_admits self cycle slot channel }
    {
        self.slot == slot && self.channels.includes(channel) && self.cycles.admits(cycle)
    }

    /// Returns whether the window has a slot on the channel that the filter admits.
    pub fn admits_window(self, window: &Window, channel: Channel) -> bool
        ensures { result ≡ admits_window self window.now channel }
    {
        let slot = window.slot(channel);
        slot.is_some_and(|slot| self.admits(window.cycle, slot, channel))
    }
}
