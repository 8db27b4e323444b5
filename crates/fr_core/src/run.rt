//! Lists of events.

ghost use Rattle.fr_core.specs.Headline.{Headline};
ghost use Rattle.fr_core.specs.Runs.{IsRunOf};

use crate::event::Event;
use crate::world::World;

/// Executes the events in order, and returns the number of accepted ones. A refused event changes nothing, and the
/// events after it are executed.
///
/// For any events, each interface then has as many further commits as there are accepted commits at its node, and the
/// headline promise holds for the world after them.
pub fn run_events(world: &mut World, events: &[Event]) -> u64
    ensures run { IsRunOf world.old events.now result world.new }
    ensures headline { Headline world.new }
{
    // The clause counts the added commits, not all of them. For an opening world both are the same.
    let mut accepted = 0;
    for event in events {
        accepted += u64::from(world.step(event).is_ok());
    }
    // For the prover: the clause of this call.
    world.known();
    accepted
}
