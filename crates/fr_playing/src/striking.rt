//! The faults of a window, injected into the world.
ghost use Rattle.std.specs.Prelude.{◌≡◌, ◌∷◌, [], OnOk};
ghost use Rattle.std.specs.List.{flat_map};
ghost use Rattle.fr_core.specs.declared.event.Event.TheVariants as event;
ghost use Rattle.fr_playing.specs.Striking.{first_of, strike_events, Passes, Tells, Tries};

use fr_bus::fault::Fault;
use fr_core::error::StepError;
use fr_core::world::World;
use fr_runs::fault_line::FaultLine;
use fr_slots::window::Window;

/// Injects the fault, and returns its refusal.
fn attempt(world: &mut World, fault: &Fault) -> Result<(), StepError>
    ensures { Tells world.old (event.Inject fault.now ∷ []) result world.new }
{
    let answer = world.inject(fault);
    // For the prover: the two cases.
    match answer {
        Ok(()) => Ok(()),
        Err(error) => Err(error),
    }
}

/// Injects the line's fault into the open window, if it takes effect there.
fn strike(
    world: &mut World,
    cycle: usize,
    window: &Window,
    line: &FaultLine,
) -> Result<(), StepError>
    ensures { Tells world.old (strike_events cycle window.now line.now) result world.new }
{
    if line.strikes(cycle, window) {
        attempt(world, &line.fault)
    } else {
        Ok(())
    }
}

/// Returns the first refusal: the one before, or otherwise this one.
fn first_of(before: Result<(), StepError>, next: Result<(), StepError>) -> Result<(), StepError>
    ensures { result ≡ first_of before next }
{
    match before {
        Ok(()) => next,
        Err(error) => Err(error),
    }
}

/// Injects the faults of the open window, in the order of their lines (project-defined).
///
/// The window and the number of the run's cycle must be those of the open window. The bus refuses a second fault of its
/// kind, node and channel in the window; the faults of other lines are still injected. The first such refusal is
/// returned.
pub fn strike_all(
    world: &mut World,
    cycle: usize,
    window: &Window,
    faults: &[FaultLine],
) -> Result<(), StepError>
    // If nothing is refused, each fault is injected.
    ensures passes { OnOk result (Passes world.old (flat_map (strike_events cycle window.now) faults.now) world.new) }
    ensures tries { Tries world.old (flat_map (strike_events cycle window.now) faults.now) world.new }
    // It returns the first refusal, if there is one.
    ensures told { Tells world.old (flat_map (strike_events cycle window.now) faults.now) result world.new }
{
    let mut struck = Ok(());
    for line in faults {
        let next = strike(world, cycle, window, line);
        struck = first_of(struck, next);
    }
    struck
}
