//! The parts of a scenario's line that the lines of other texts don't have.
ghost use Rattle.std.specs.Prelude.{◌≡◌};
ghost use Rattle.fr_scenario.specs.PartReading.{run_cycle_in, cycles_in, counted_in, slots_in, minislot_in, place_in};

use fr_runs::cycles::RunCycles;
use fr_runs::fault_line::FaultPlace;
use fr_text::numbers::number_of;

/// Returns the cycle of a run that the word spells, 0 to 1023.
#[tactic(auto, unfolding(crate::specs::PartReading::run_cycle_in))]
pub(crate) fn run_cycle_of(word: &[u8]) -> Option<u16>
    ensures { result ≡ run_cycle_in word.now }
{
    let number = number_of(word, 1024)?;
    Some(number as u16)
}

/// Returns the cycles that the word spells: one, or each of the run for `*`.
#[tactic(auto, unfolding(crate::specs::PartReading::cycles_in))]
pub(crate) fn cycles_of(word: &[u8]) -> Option<RunCycles>
    ensures { result ≡ cycles_in word.now }
{
    match word {
        b"*" => Some(RunCycles::Every),
        _ => {
            let cycle = run_cycle_of(word)?;
            Some(RunCycles::Only(cycle))
        }
    }
}

/// Returns the number that the word spells, 1 to 8000.
#[tactic(auto, unfolding(crate::specs::PartReading::counted_in))]
pub(crate) fn place_number(word: &[u8]) -> Option<u16>
    ensures { result ≡ counted_in word.now }
{
    let number = number_of(word, 8001)?;
    if number == 0 {
        return None;
    }
    Some(number as u16)
}

/// Returns the static slots that the word spells after their mark: one, or all for `*`.
#[tactic(auto, unfolding(crate::specs::PartReading::slots_in))]
fn slots_of(word: &[u8]) -> Option<FaultPlace>
    ensures { result ≡ slots_in word.now }
{
    match word {
        b"*" => Some(FaultPlace::EverySlot),
        _ => {
            let slot = place_number(word)?;
            Some(FaultPlace::Slot(slot))
        }
    }
}

/// Returns the minislot that the word spells after its mark.
#[tactic(auto, unfolding(crate::specs::PartReading::minislot_in))]
fn minislot_of(word: &[u8]) -> Option<FaultPlace>
    ensures { result ≡ minislot_in word.now }
{
    let minislot = place_number(word)?;
    Some(FaultPlace::Minislot(minislot))
}

/// Returns the place of a fault that the word spells, by its mark.
#[tactic(auto, unfolding(crate::specs::PartReading::place_in))]
pub(crate) fn place_of(word: &[u8]) -> Option<FaultPlace>
    ensures { result ≡ place_in word.now }
{
    let (mark, number) = word.split_first()?;
    if *mark == b's' {
        return slots_of(number);
    }
    if *mark == b'm' {
        return minislot_of(number);
    }
    None
}
