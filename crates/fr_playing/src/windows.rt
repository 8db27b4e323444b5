//! The windows of a cycle, in the world.
ghost use Rattle.std.specs.Prelude.{◌∷◌, ◌≤◌, [], OnOk, drop};
ghost use Rattle.fr_core.specs.declared.event.Event.TheVariants as event;
ghost use Rattle.fr_playing.specs.Moving.{for_nodes, offer_events, see_events, whole_window};
ghost use Rattle.fr_playing.specs.Windows.{PlaysWindow, PlaysWindows};
ghost use Rattle.fr_playing.specs.Striking.{Passes};

use crate::hindrance::Hindrance;
use crate::moving::{MOST_WINDOWS, is_at_cycle};
use crate::striking::strike_all;
use fr_core::event::Event;
use fr_core::world::World;
use fr_runs::fault_line::FaultLine;
use fr_slots::numbers::NodeId;

/// Executes an event, which must be accepted.
fn pass(world: &mut World, event: &Event) -> Result<(), Hindrance>
    ensures { OnOk result (Passes world.old (event.now ∷ []) world.new) }
{
    world.apply(event)?;
    Ok(())
}

/// Executes the events, each of which must be accepted.
fn pass_all(world: &mut World, events: &[Event]) -> Result<(), Hindrance>
    ensures { OnOk result (Passes world.old events.now world.new) }
{
    for event in events {
        pass(world, event)?;
    }
    Ok(())
}

/// Executes the look, the fetch and the put of the node, without so many first ones. Each must be accepted.
///
/// It isn't inlined, so that no room for events is cleared for events that are accepted.
#[inline(never)]
fn pass_offer_from(world: &mut World, node: NodeId, first: usize) -> Result<(), Hindrance>
    requires { first ≤ 3 }
    ensures { OnOk result (Passes world.old (drop first (offer_events node)) world.new) }
{
    let events = [Event::Look(node), Event::Fetch(node), Event::Put(node)];
    let all = events.as_slice();
    pass_all(world, &all[first..])
}

/// Executes the look, the fetch and the put of the node, each of which must be accepted.
fn pass_offer(world: &mut World, node: NodeId) -> Result<(), Hindrance>
    ensures { OnOk result (Passes world.old (offer_events node) world.new) }
{
    let accepted = world.offer(node);
    if accepted < 3 {
        return pass_offer_from(world, node, accepted);
    }
    Ok(())
}

/// Executes the take and the observe of the node, without so many first ones. Each must be accepted.
///
/// It isn't inlined, for the reason of `pass_offer_from`.
#[inline(never)]
fn pass_sight_from(world: &mut World, node: NodeId, first: usize) -> Result<(), Hindrance>
    requires { first ≤ 2 }
    ensures { OnOk result (Passes world.old (drop first (see_events node)) world.new) }
{
    let events = [Event::Take(node), Event::Observe(node)];
    let all = events.as_slice();
    pass_all(world, &all[first..])
}

/// Executes the take and the observe of the node, both of which must be accepted.
fn pass_sight(world: &mut World, node: NodeId) -> Result<(), Hindrance>
    ensures { OnOk result (Passes world.old (see_events node) world.new) }
{
    let accepted = world.see(node);
    if accepted < 2 {
        return pass_sight_from(world, node, accepted);
    }
    Ok(())
}

/// Brings the offer of each node to the bus.
fn pass_offers(world: &mut World, nodes: u8) -> Result<(), Hindrance>
    requires { nodes ≤ 16 }
    ensures { OnOk result (Passes world.old (for_nodes offer_events nodes) world.new) }
{
    for number in 0..nodes {
        pass_offer(world, NodeId::from_number(number))?;
    }
    Ok(())
}

/// Brings the observation of each node to its interface.
fn pass_sights(world: &mut World, nodes: u8) -> Result<(), Hindrance>
    requires { nodes ≤ 16 }
    ensures { OnOk result (Passes world.old (for_nodes see_events nodes) world.new) }
{
    for number in 0..nodes {
        pass_sight(world, NodeId::from_number(number))?;
    }
    Ok(())
}

/// Seals the open window, which must be accepted.
fn pass_seal(world: &mut World) -> Result<(), Hindrance>
    ensures { OnOk result (Passes world.old (event.Seal ∷ []) world.new) }
{
    world.seal()?;
    Ok(())
}

/// Makes the bus's advance, which must be accepted.
fn pass_advance(world: &mut World) -> Result<(), Hindrance>
    ensures { OnOk result (Passes world.old (event.Advance ∷ []) world.new) }
{
    world.advance()?;
    Ok(())
}

/// Executes the open window: its faults, then the events of an untouched window, and then the bus's advance.
fn play_window(
    world: &mut World,
    cycle: u16,
    faults: &[FaultLine],
    nodes: u8,
) -> Result<(), Hindrance>
    requires { nodes ≤ 16 }
    ensures { OnOk result (PlaysWindow cycle faults.now (whole_window nodes) world.old world.new) }
{
    let Some(window) = world.bus().window() else {
        return Err(Hindrance::Unfinished);
    };
    strike_all(world, usize::from(cycle), &window, faults)?;
    pass_offers(world, nodes)?;
    pass_seal(world)?;
    pass_sights(world, nodes)?;
    pass_advance(world)
}

/// Executes windows until the first one of a cycle is open, or the run is over.
pub(crate) fn play_windows(
    world: &mut World,
    cycle: u16,
    faults: &[FaultLine],
    nodes: u8,
) -> Result<(), Hindrance>
    requires { nodes ≤ 16 }
    ensures { OnOk result (PlaysWindows cycle faults.now (whole_window nodes) world.old world.new) }
{
    for count in 0..MOST_WINDOWS {
        play_window(world, cycle, faults, nodes)?;
        if is_at_cycle(world.bus().window()) {
            return Ok(());
        }
    }
    Err(Hindrance::Unfinished)
}
