//! The place of a macrotick in the cycle, and the macrotick of a place.

ghost use Rattle.std.specs.Prelude.{◌≡◌, ◌↔◌, ◌≤◌, ◌<◌, ◌+◌, ◌*◌, ◌^◌, ℕ, IfSome, IsNone};
ghost use Rattle.fr_slots.specs.Parameters.{IsParameters};
ghost use Rattle.fr_timing.specs.declared.place.Place.{Place};
ghost use Rattle.fr_timing.specs.Division.{place_at, start_at, start_in_row};
ghost use Rattle.fr_timing.specs.Layout.{IsAt};

use crate::place::Place;
use crate::segments::segments_of;
use fr_slots::numbers::SlotId;
use fr_slots::params::Params;

/// Returns the place of a macrotick of a cycle, counted from 0 (chapter 5).
///
/// Returns none from the end of the cycle on.
pub fn locate(params: &Params, macrotick: u32) -> Option<Place>
    ensures found { IfSome result (λ place. IsAt params.now macrotick place) }
    ensures only { (place : Place) → IsAt params.now macrotick place → result ≡ Some place }
    ensures inverse { IfSome result
        (λ place. (other : ℕ) → IsAt params.now other place → other ≡ macrotick) }
    ensures none { IsNone result ↔ (params.now.cycle_mt ≤ macrotick) }
{
    place_at(params, macrotick)
}

/// Returns the macrotick of a place in the cycle, counted from 0 (chapter 5).
///
/// Returns none if the cycle has no such place: no such static slot or minislot, or an offset that isn't below the
/// length of its part.
pub fn start_of(params: &Params, place: Place) -> Option<u32>
    ensures found { IfSome result (λ macrotick. IsAt params.now macrotick place) }
    ensures only { (macrotick : ℕ) → IsAt params.now macrotick place → result ≡ Some macrotick }
    ensures inverse { IfSome result
        (λ macrotick. (other : Place) → IsAt params.now macrotick other → other ≡ place) }
    ensures lawful { IsParameters params.now }
{
    start_at(params, place)
}

/// Returns the place of a macrotick, by division.
#[tactic(auto, unfolding(crate::specs::Division::place_at))]
fn place_at(params: &Params, macrotick: u32) -> Option<Place>
    ensures place { result ≡ place_at params.now macrotick }
    ensures lawful { IsParameters params.now }
{
    let segments = segments_of(params);
    if macrotick < segments.dynamic {
        let static_mt = u32::from(params.static_mt);
        let slot = SlotId::new((macrotick / static_mt + 1) as u16)?;
        let offset = macrotick % static_mt;
        return Some(Place::Static { slot, offset });
    }
    if macrotick < segments.symbol {
        let minislot_mt = u32::from(params.minislot_mt);
        let from_start = macrotick - segments.dynamic;
        return Some(Place::Minislot {
            number: (from_start / minislot_mt + 1) as u16,
            offset: from_start % minislot_mt,
        });
    }
    if macrotick < segments.idle {
        return Some(Place::Symbol {
            offset: macrotick - segments.symbol,
        });
    }
    if macrotick < segments.end {
        return Some(Place::Idle {
            offset: macrotick - segments.idle,
        });
    }
    None
}

/// Returns the macrotick at an offset in one of `count` parts of one length. The parts are numbered from 1, and follow
/// one another from `first`.
fn start_in_row(first: u32, count: u16, length: u16, number: u16, offset: u32) -> Option<u32>
    requires { first + count * length < 2 ^ 32 }
    ensures { result ≡ start_in_row first count length number offset }
{
    if 1 <= number && number <= count && offset < u32::from(length) {
        Some(first + u32::from(number - 1) * u32::from(length) + offset)
    } else {
        None
    }
}

/// Returns the macrotick of a place, by multiplication.
#[tactic(auto, unfolding(crate::specs::Division::start_at))]
fn start_at(params: &Params, place: Place) -> Option<u32>
    ensures value { result ≡ start_at params.now place }
    ensures lawful { IsParameters params.now }
{
    let segments = segments_of(params);
    match place {
        Place::Static { slot, offset } => start_in_row(
            0,
            params.static_slots,
            params.static_mt,
            slot.number(),
            offset,
        ),
        Place::Minislot { number, offset } => start_in_row(
            segments.dynamic,
            params.minislots,
            params.minislot_mt,
            number,
            offset,
        ),
        Place::Symbol { offset } => start_in_row(segments.symbol, 1, params.symbol_mt, 1, offset),
        Place::Idle { offset } => start_in_row(segments.idle, 1, params.nit_mt, 1, offset),
    }
}
