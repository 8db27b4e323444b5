//! The faults of a window, injected into a world without history.
ghost use Rattle.std.specs.List.{flat_map};
ghost use Rattle.fr_endless.specs.Taps.{ToldAlike, with_taps};
ghost use Rattle.fr_playing.specs.Moving.{Strikes};
ghost use Rattle.fr_playing.specs.Striking.{strike_events, Tries};

use crate::taps::Taps;
use crate::telling::apply_told;
use crate::world::EndlessWorld;
use fr_core::event::Event;
use fr_runs::fault_line::FaultLine;
use fr_slots::window::{Window, run_cycle};
use std::io::Write;

/// Injects the line's fault into the open window, if it occurs there.
fn strike<F: Write + Drop>(
    world: &mut EndlessWorld,
    taps: &mut Taps<F>,
    cycle: u32,
    window: &Window,
    line: &FaultLine,
)
    ensures { ToldAlike (with_taps world.old taps.old) (λ w v. Tries w (strike_events cycle window.now line.now) v)
        (with_taps world.new taps.new) }
{
    if line.strikes(cycle as usize, window) {
        // A fault of the window stays, if it has the same kind, node and channel.
        let _struck = apply_told(world, taps, &Event::Inject(line.fault.duplicate()));
    }
}

/// Injects the faults of the open window, in the order of their lines.
fn strike_all<F: Write + Drop>(
    world: &mut EndlessWorld,
    taps: &mut Taps<F>,
    cycle: u32,
    window: &Window,
    faults: &[FaultLine],
)
    ensures { ToldAlike (with_taps world.old taps.old)
        (λ w v. Tries w (flat_map (strike_events cycle window.now) faults.now) v) (with_taps world.new taps.new) }
{
    for line in faults {
        strike(world, taps, cycle, window, line);
    }
}

/// Injects the faults of the open window, unless it is sealed.
pub(crate) fn strike_open<F: Write + Drop>(
    world: &mut EndlessWorld,
    taps: &mut Taps<F>,
    faults: &[FaultLine],
)
    ensures { ToldAlike (with_taps world.old taps.old) (λ w v. Strikes faults.now w v) (with_taps world.new taps.new) }
{
    match world.bus().collecting() {
        Some(window) => {
            let cycle = run_cycle(world.bus().cycles_begun(), &window);
            strike_all(world, taps, cycle, &window, faults);
        }
        None => {}
    }
}
