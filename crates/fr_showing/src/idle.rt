//! The fault lines of a scenario that had no effect in a run.
ghost use Rattle.std.specs.Prelude.{◌≡◌, IfOk};
ghost use Rattle.fr_showing.specs.Idle.{idle_lines};

use fr_playing::file::PlayedFile;
use fr_runs::effects;
use std::alloc::{AllocError, Global};

/// Returns the numbers of the scenario's lines of faults without effect, in order, as
/// `fr_runs::effects::idle_lines` has them (project-defined).
///
/// Fails if an allocation fails.
pub fn idle_lines(alloc: Global, file: &PlayedFile) -> Result<Vec<u32>, AllocError>
    ensures { IfOk result (λ idle. idle.items ≡ idle_lines file.now) }
{
    let (world, scenario) = (&file.played.world, &file.scenario);
    let (lines, numbers) = (scenario.faults(), scenario.fault_numbers());
    effects::idle_lines(alloc, world.bus().record(), lines, numbers)
}
