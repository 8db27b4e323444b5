//! The times of a journal's windows.

ghost use Rattle.std.specs.Prelude.{◌≡◌, ℕ, ◌<◌};
ghost use Rattle.fr_capture.specs.Clocks.{moment_after, rounds_at, HasRounds};
ghost use Rattle.fr_capture.specs.Moments.{place_in_round, place_of, start_of};
ghost use Rattle.fr_timing.specs.Layout.{IsAt};

use fr_journal::entry::Entry;
use fr_slots::numbers::{CYCLES, SlotId};
use fr_slots::params::Params;
use fr_slots::window::Window;
use fr_timing::cycle::start_of;
use fr_timing::place::Place;

/// A window and its start (project-defined).
#[derive(Clone, Copy)]
pub struct Moment {
    pub window: Window,
    /// The number of the entry that fetched it, from 0.
    pub entry: u32,
    /// The number of completed rounds of 64 cycles.
    pub rounds: u32,
    /// The distance of the window's first macrotick from the start of its round, in macroticks.
    pub place: u32,
}

/// Returns the place in the cycle where a window begins.
fn place_of(window: &Window) -> Place
    ensures { result ≡ place_of window.now }
{
    if window.is_static() {
        Place::Static {
            slot: window.a.unwrap_or(SlotId::default()),
            offset: 0,
        }
    } else {
        Place::Minislot {
            number: window.minislot,
            offset: 0,
        }
    }
}

/// Returns the macrotick of its cycle at which a window begins (chapter 5).
///
/// 0 for a window that the parameters don't have.
pub fn start_of_window(params: &Params, window: &Window) -> u32
    ensures value { result ≡ start_of params.now window.now }
    // The layout has the window's place at this macrotick.
    ensures layout { (macrotick : ℕ) → IsAt params.now macrotick (place_of window.now) → result ≡ macrotick }
    ensures below { result < 20000 }
{
    start_of(params, place_of(window)).unwrap_or(0)
}

/// Returns the distance of a window's first macrotick from the start of its round of 64 cycles.
fn place_in_round(params: &Params, window: &Window) -> u32
    ensures { result ≡ place_in_round params.now window.now }
{
    let cycle_mt = u32::from(params.cycle_mt);
    u32::from(window.cycle.number()) * cycle_mt + start_of_window(params, window)
}

/// Returns the number of rounds that are completed at a window of this place, after the last one.
///
/// The numbers of windows rise. So a window that isn't later in its round than the one before is of the next round.
fn rounds_at(place: u32, last: &Option<Moment>) -> u32
    requires { HasRounds 1000000 last.now }
    ensures { result ≡ rounds_at place last.now }
{
    match last {
        None => 0,
        Some(moment) if place <= moment.place => moment.rounds + 1,
        Some(moment) => moment.rounds,
    }
}

/// Returns the window fetched last, after the entry of this number.
pub fn moment_after(
    params: &Params,
    last: Option<Moment>,
    number: u32,
    entry: &Entry,
) -> Option<Moment>
    requires { HasRounds 1000000 last }
    ensures { result ≡ moment_after params.now last number entry.now }
{
    match entry {
        Entry::Fetch { window, .. } => {
            let place = place_in_round(params, window);
            Some(Moment {
                window: *window,
                entry: number,
                rounds: rounds_at(place, &last),
                place,
            })
        }
        _ => last,
    }
}

impl Moment {
    ghost use Rattle.std.specs.Prelude.{◌≡◌, ◌<◌, ◌≤◌, ◌*◌, ◌^◌};
    ghost use Rattle.fr_capture.specs.Clocks.{time_at};

    /// Returns the time in microseconds from the start of the first round. A macrotick takes one microsecond.
    pub fn time(&self, params: &Params) -> u64
        requires { self.now.rounds ≤ 1000000 }
        ensures value { result ≡ time_at params.now self.now }
        ensures few { result < 2 ^ 32 * 1000000 }
    {
        let cycle_mt = u64::from(params.cycle_mt);
        let place = self.place;
        u64::from(self.rounds) * (u64::from(CYCLES) * cycle_mt) + u64::from(place)
    }
}
