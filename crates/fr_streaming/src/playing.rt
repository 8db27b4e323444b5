//! Events in a world without history, each of which must be accepted.
ghost use Rattle.std.specs.Prelude.{◌∷◌, [], OnOk};
ghost use Rattle.std.specs.List.{flat_map};
ghost use Rattle.fr_endless.specs.Alike.{Alike};
ghost use Rattle.fr_playing.specs.Striking.{strike_events, Passes};
ghost use Rattle.fr_playing.specs.Windows.{PlaysWindow};

use crate::hindrance::Hindrance;
use fr_core::event::Event;
use fr_endless::world::EndlessWorld;
use fr_runs::fault_line::FaultLine;
use fr_slots::window::Window;

/// Executes an event, which must be accepted.
pub(crate) fn pass(world: &mut EndlessWorld, event: &Event) -> Result<(), Hindrance>
    ensures { OnOk result (Alike world.old (λ w v. Passes w (event.now ∷ []) v) world.new) }
{
    match world.apply(event) {
        Ok(()) => Ok(()),
        Err(error) => Err(Hindrance::from(error)),
    }
}

/// Executes the events, each of which must be accepted.
fn pass_all(world: &mut EndlessWorld, events: &[Event]) -> Result<(), Hindrance>
    ensures { OnOk result (Alike world.old (λ w v. Passes w events.now v) world.new) }
{
    let mut place = 0;
    for turn in 0..events.len() {
        if place >= events.len() {
            return Ok(());
        }
        let passed = world.pass_front(&events[place..]);
        place += passed;
        if passed == 0 {
            pass(world, &events[place])?;
            place += 1;
        }
    }
    Ok(())
}

/// Injects the line's fault into the open window, if it takes effect there.
fn strike(
    world: &mut EndlessWorld,
    cycle: u32,
    window: &Window,
    line: &FaultLine,
) -> Result<(), Hindrance>
    ensures { OnOk result (Alike world.old (λ w v. Passes w (strike_events cycle window.now line.now) v) world.new) }
{
    if line.strikes(cycle as usize, window) {
        pass(world, &Event::Inject(line.fault.duplicate()))
    } else {
        Ok(())
    }
}

/// Injects the faults of the open window, in the order of their lines.
fn strike_all(
    world: &mut EndlessWorld,
    cycle: u32,
    window: &Window,
    faults: &[FaultLine],
) -> Result<(), Hindrance>
    ensures { OnOk result
        (Alike world.old (λ w v. Passes w (flat_map (strike_events cycle window.now) faults.now) v) world.new) }
{
    for line in faults {
        strike(world, cycle, window, line)?;
    }
    Ok(())
}

/// Executes the open window: its faults, then its due events, and then the bus's advance.
pub(crate) fn play_window(
    world: &mut EndlessWorld,
    cycle: u32,
    faults: &[FaultLine],
    due: &[Event],
) -> Result<(), Hindrance>
    ensures { OnOk result (Alike world.old (λ w v. PlaysWindow cycle faults.now due.now w v) world.new) }
{
    let Some(window) = world.bus().window() else {
        return Err(Hindrance::Unfinished);
    };
    strike_all(world, cycle, &window, faults)?;
    pass_all(world, due)?;
    pass(world, &Event::Advance)
}
