//! The parameters of a cluster.

ghost use Rattle.std.specs.Prelude.{◌≡◌, ◌≤◌, IfOk};
ghost use Rattle.fr_slots.specs.Parameters.{name_of, admits, least_of, greatest_of, number_at, first_five, last_five};
ghost use Rattle.fr_slots.specs.Parameters.{IsWithin, AreFirst, AreLast};

use crate::numbers::SlotId;
use crate::window::Window;
use std::fmt;
use std::marker::Model;
use thiserror::Error;

/// The last static slot that a cluster can have (chapter 5).
pub const LAST_STATIC_SLOT: u16 = 1023;

/// The last minislot that a cluster can have, counted from 1 (project-defined).
pub const LAST_MINISLOT: u16 = 8000;

/// The greatest length of a payload in two-byte words (chapter 4).
pub const MOST_WORDS: u16 = 127;

/// A parameter, as cluster files name it. The order is that of a cluster file's refusals and of the line `params` of a
/// trace.
#[derive(Clone, Copy, Debug, PartialEq, Eq)]
pub enum Key {
    StaticSlots,
    Minislots,
    StaticWords,
    StaticMt,
    MinislotMt,
    SymbolMt,
    NitMt,
    CycleMt,
    Idle,
    WordsPerMinislot,
}

impl Key {
    /// Returns the key as cluster files spell it.
    pub fn name(self) -> &'static str
        ensures { result.now ≡ name_of self }
    {
        match self {
            Key::StaticSlots => "static_slots",
            Key::Minislots => "minislots",
            Key::StaticWords => "static_words",
            Key::StaticMt => "static_mt",
            Key::MinislotMt => "minislot_mt",
            Key::SymbolMt => "symbol_mt",
            Key::NitMt => "nit_mt",
            Key::CycleMt => "cycle_mt",
            Key::Idle => "idle",
            Key::WordsPerMinislot => "words_per_minislot",
        }
    }

    /// Returns the least number in the key's range.
    pub fn least(self) -> u16
        ensures { result ≡ least_of self }
    {
        match self {
            Key::StaticSlots => 2,
            Key::CycleMt => 4,
            Key::StaticMt | Key::MinislotMt | Key::NitMt | Key::WordsPerMinislot => 1,
            Key::Minislots | Key::StaticWords | Key::SymbolMt | Key::Idle => 0,
        }
    }

    /// Returns the greatest number in the key's range.
    pub fn greatest(self) -> u16
        ensures { result ≡ greatest_of self }
    {
        match self {
            Key::StaticSlots => LAST_STATIC_SLOT,
            Key::Minislots => LAST_MINISLOT,
            Key::StaticWords | Key::WordsPerMinislot => MOST_WORDS,
            Key::StaticMt | Key::SymbolMt | Key::NitMt => 1000,
            Key::MinislotMt => 100,
            Key::CycleMt => 20000,
            Key::Idle => 2,
        }
    }

    /// Returns whether the number is in the key's range.
    pub fn admits(self, number: i64) -> bool
        ensures { result ≡ admits self number }
    {
        i64::from(self.least()) <= number && number <= i64::from(self.greatest())
    }
}

impl fmt::Display for Key {
    ghost use Rattle.std.specs.Prelude.{Some};

    ghost output = { λ key. Some (name_of key) };

    fn fmt<W: fmt::Write>(&self, f: &mut fmt::Formatter<W>) -> fmt::Result {
        write!(f, "{}", self.name())
    }
}

/// Reasons to refuse ten numbers as parameters.
#[derive(Clone, Copy, Debug, PartialEq, Eq, Error)]
pub enum RangeError {
    /// The first key, in order, with a number out of its range.
    #[error("{0} is out of its range")]
    OutOfRange(Key),
    /// A sum of static slots, minislots, symbol window and network idle time that isn't the cycle.
    #[error("the parts don't fill the cycle")]
    CycleSum,
}

/// The parameters of a cluster, each in its range, which together fill the cycle. Chapter 5; the ranges and the sum are
/// project-defined.
#[derive(Clone, Copy, PartialEq, Eq)]
pub struct Params {
    /// The number of static slots.
    pub static_slots: u16,
    /// The number of minislots of the dynamic segment.
    pub minislots: u16,
    /// The payload of a static frame, in two-byte words.
    pub static_words: u16,
    /// The length of a static slot, in macroticks.
    pub static_mt: u16,
    /// The length of a minislot, in macroticks.
    pub minislot_mt: u16,
    /// The length of the symbol window, in macroticks.
    pub symbol_mt: u16,
    /// The length of the network idle time, in macroticks.
    pub nit_mt: u16,
    /// The length of the cycle, in macroticks.
    pub cycle_mt: u16,
    /// The number of minislots that stay idle after a dynamic transmission.
    pub idle: u16,
    /// The number of two-byte words that a minislot carries.
    pub words_per_minislot: u16,
}

impl Model for Params {
    ghost use Rattle.fr_slots.specs.Parameters.{Parameters};

    ghost Value = { Parameters };

    ghost use Rattle.fr_slots.specs.ParameterFields.{parameters_in, fields_of, AreParameters};

    ghost view = { parameters_in };

    ghost invariant = { AreParameters };

    ghost inverse = { fields_of };
}

/// The numbers of the first five keys or of the last five, in the order of `Key`.
pub type Five = (u16, u16, u16, u16, u16);

/// Returns the number under the key, if it is in the key's range.
#[tactic(auto, unfolding(crate::specs::Parameters::number_at))]
fn number_at(key: Key, number: i64) -> Result<u16, RangeError>
    ensures value { result ≡ number_at key number }
    ensures within { IfOk result (λ n. IsWithin key n) }
{
    if key.admits(number) {
        Ok(number as u16)
    } else {
        Err(RangeError::OutOfRange(key))
    }
}

/// Returns the numbers under the first five keys.
#[tactic(auto, unfolding(crate::specs::Parameters::first_five))]
fn first_five(numbers: &[i64; 10]) -> Result<Five, RangeError>
    ensures value { result ≡ first_five numbers.now }
    ensures within { IfOk result AreFirst }
{
    let static_slots = number_at(Key::StaticSlots, numbers[0])?;
    let minislots = number_at(Key::Minislots, numbers[1])?;
    let static_words = number_at(Key::StaticWords, numbers[2])?;
    let static_mt = number_at(Key::StaticMt, numbers[3])?;
    let minislot_mt = number_at(Key::MinislotMt, numbers[4])?;
    Ok((
        static_slots,
        minislots,
        static_words,
        static_mt,
        minislot_mt,
    ))
}

/// Returns the numbers under the last five keys.
#[tactic(auto, unfolding(crate::specs::Parameters::last_five))]
fn last_five(numbers: &[i64; 10]) -> Result<Five, RangeError>
    ensures value { result ≡ last_five numbers.now }
    ensures within { IfOk result AreLast }
{
    let symbol_mt = number_at(Key::SymbolMt, numbers[5])?;
    let nit_mt = number_at(Key::NitMt, numbers[6])?;
    let cycle_mt = number_at(Key::CycleMt, numbers[7])?;
    let idle = number_at(Key::Idle, numbers[8])?;
    let words_per_minislot = number_at(Key::WordsPerMinislot, numbers[9])?;
    Ok((symbol_mt, nit_mt, cycle_mt, idle, words_per_minislot))
}

impl Params {
    ghost use Rattle.fr_slots.specs.Parameters.{Parameters, parameters_of, IsParameters, is_static_slot};
    ghost use Rattle.fr_slots.specs.Parameters.{AreFirst, AreLast, assembled, summed};
    ghost use Rattle.fr_slots.specs.Windows.{window_fits, static_slot_fits, dynamic_slot_fits};

    /// Returns the parameters with these numbers, in the order of `Key`.
    ///
    /// Fails with `OutOfRange` and the first key whose number is out of range, then as `assemble` does.
    #[tactic(auto, unfolding(crate::specs::Parameters::parameters_of))]
    pub fn new(numbers: [i64; 10]) -> Result<Params, RangeError>
        ensures { result ≡ parameters_of numbers }
    {
        let first = first_five(&numbers)?;
        let last = last_five(&numbers)?;
        Params::assemble(first, last)
    }

    /// Returns the parameters with these numbers, each of which is in its key's range.
    ///
    /// Fails with `CycleSum` if `static_slots * static_mt + minislots * minislot_mt + symbol_mt + nit_mt` isn't
    /// `cycle_mt` (project-defined).
    pub fn assemble(first: Five, last: Five) -> Result<Params, RangeError>
        requires first_within { AreFirst first }
        requires last_within { AreLast last }
        ensures { result ≡ summed (assembled first last) }
    {
        let (static_slots, minislots, static_words, static_mt, minislot_mt) = first;
        let (symbol_mt, nit_mt, cycle_mt, idle, words_per_minislot) = last;
        let filled = u32::from(static_slots) * u32::from(static_mt)
            + u32::from(minislots) * u32::from(minislot_mt)
            + u32::from(symbol_mt)
            + u32::from(nit_mt);
        if filled != u32::from(cycle_mt) {
            return Err(RangeError::CycleSum);
        }
        Ok(Params {
            static_slots,
            minislots,
            static_words,
            static_mt,
            minislot_mt,
            symbol_mt,
            nit_mt,
            cycle_mt,
            idle,
            words_per_minislot,
        })
    }

    /// Returns whether the slot is static (chapter 5).
    pub fn is_static(&self, slot: SlotId) -> bool
        ensures { result ≡ is_static_slot self.now slot }
    {
        slot.number() <= self.static_slots
    }

    /// Returns whether the cluster has the window (project-defined). A static window has a static slot. A dynamic
    /// window has a minislot in range, and slots after the static ones.
    pub fn has_window(&self, window: &Window) -> bool
        ensures { result ≡ window_fits self.now window.now }
    {
        if window.is_static() {
            self.is_static_or_none(window.a) && self.is_static_or_none(window.b)
        } else {
            window.minislot <= self.minislots
                && self.is_dynamic_or_none(window.a)
                && self.is_dynamic_or_none(window.b)
        }
    }

    /// Returns whether the slot, if there is one, is static.
    fn is_static_or_none(&self, slot: Option<SlotId>) -> bool
        ensures { result ≡ static_slot_fits self.now slot }
    {
        slot.is_none_or(|slot| self.is_static(slot))
    }

    /// Returns whether the slot, if there is one, is dynamic.
    fn is_dynamic_or_none(&self, slot: Option<SlotId>) -> bool
        ensures { result ≡ dynamic_slot_fits self.now slot }
    {
        slot.is_none_or(|slot| !self.is_static(slot))
    }
}
