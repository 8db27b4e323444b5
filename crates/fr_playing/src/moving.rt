//! The faults and steps of a window, as events.
ghost use Rattle.std.specs.Prelude.{◌≡◌, ◌≤◌, ◌++◌, true, length, take, None, List, IfOk, OnOk};
ghost use Rattle.std.specs.List.{flat_map, range_with_len};
ghost use Rattle.fr_core.specs.declared.event.Reply.TheVariants.{Done};
ghost use Rattle.fr_core.specs.Runs.{Answer, StepsAll};
ghost use Rattle.fr_core.specs.Steps.{answered};
ghost use Rattle.fr_playing.specs.Moving.{first_refusal, hindrance, observe_events, offer_events, see_events};
ghost use Rattle.fr_playing.specs.Moving.{for_nodes, whole_window, window_events, run_cycle_after, Strikes, DoesAll};
ghost use Rattle.fr_playing.specs.Moving.{IsObserveOf, MovesOn, is_at_cycle, EndsCycle, RunsCycles};

use crate::striking::strike_all;
use fr_bus::bus::Bus;
use fr_core::error::StepError;
use fr_core::event::Event;
use fr_core::world::World;
use fr_runs::fault_line::FaultLine;
use fr_slots::numbers::NodeId;
use fr_slots::window::{Window, opens_cycle, run_cycle};
use std::alloc::{AllocError, Global};

/// The greatest number of windows of a cycle: one for each of 1,023 static slots and 8,000 minislots (project-defined).
pub const MOST_WINDOWS: u32 = 9_023;

/// Returns the first refusal that isn't `WrongTurn`: the one found before, or otherwise that of this event
/// (project-defined).
pub fn first_refusal(found: Option<StepError>, outcome: Result<(), StepError>) -> Option<StepError>
    ensures { result ≡ first_refusal found (answered Done outcome) }
{
    match (found, outcome) {
        (Some(found), _) => Some(found),
        (None, Ok(())) => None,
        (None, Err(StepError::WrongTurn)) => None,
        (None, Err(error)) => Some(error),
    }
}

/// Returns the hindrance of the bus, from the outcome of its advance and the refusal found before (project-defined).
pub fn hindrance(found: Option<StepError>, last: Result<(), StepError>) -> Option<StepError>
    ensures { result ≡ hindrance found (answered Done last) }
{
    match (last, found) {
        (Ok(()), _) => None,
        (Err(_), Some(found)) => Some(found),
        (Err(error), None) => Some(error),
    }
}

/// Appends the observe of each node.
fn push_observes(events: &mut Vec<Event>, nodes: u8) -> Result<(), AllocError>
    requires { nodes ≤ 16 }
    ensures { OnOk result (events.new.items ≡ events.old.items ++ for_nodes observe_events nodes) }
{
    for number in 0..nodes {
        let node = NodeId::from_number(number);
        events.push(Event::Observe(node))?;
    }
    Ok(())
}

/// Appends for each node the steps that bring its offer to the bus.
fn push_offers(events: &mut Vec<Event>, nodes: u8) -> Result<(), AllocError>
    requires { nodes ≤ 16 }
    ensures { OnOk result (events.new.items ≡ events.old.items ++ for_nodes offer_events nodes) }
{
    for number in 0..nodes {
        let node = NodeId::from_number(number);
        events.push(Event::Look(node))?;
        events.push(Event::Fetch(node))?;
        events.push(Event::Put(node))?;
    }
    Ok(())
}

/// Appends for each node the steps that bring its observation to its interface.
fn push_sights(events: &mut Vec<Event>, nodes: u8) -> Result<(), AllocError>
    requires { nodes ≤ 16 }
    ensures { OnOk result (events.new.items ≡ events.old.items ++ for_nodes see_events nodes) }
{
    for number in 0..nodes {
        let node = NodeId::from_number(number);
        events.push(Event::Take(node))?;
        events.push(Event::Observe(node))?;
    }
    Ok(())
}

// This is the one list of the events that are due in a window. A session executes it after the events that are left
// over, a single-threaded run in an untouched window.
/// Appends the events that are due in a window in which nothing has been executed, except the advance.
fn push_whole(events: &mut Vec<Event>, nodes: u8) -> Result<(), AllocError>
    requires { nodes ≤ 16 }
    ensures { OnOk result (events.new.items ≡ events.old.items ++ whole_window nodes) }
{
    push_offers(events, nodes)?;
    events.push(Event::Seal)?;
    push_sights(events, nodes)
}

/// Returns the events that are due in an untouched window of at most 16 nodes (project-defined).
///
/// They are the look, fetch and put of each node, the seal, and the take and observe of each node. The bus's advance
/// isn't among them. Fails if an allocation fails.
pub fn whole_window(alloc: Global, nodes: u8) -> Result<Vec<Event>, AllocError>
    requires { nodes ≤ 16 }
    ensures { IfOk result (λ events. events.items ≡ whole_window nodes) }
{
    let mut events = Vec::new(alloc);
    push_whole(&mut events, nodes)?;
    Ok(events)
}

/// Returns all events that can be due in a window of at most 16 nodes, except the advance (project-defined).
///
/// They are an observe of each node, and those of an untouched window. Fails if an allocation fails.
pub fn window_events(alloc: Global, nodes: u8) -> Result<Vec<Event>, AllocError>
    requires { nodes ≤ 16 }
    ensures { IfOk result (λ events. events.items ≡ window_events nodes) }
{
    let mut events = Vec::new(alloc);
    push_observes(&mut events, nodes)?;
    push_whole(&mut events, nodes)?;
    Ok(events)
}

/// Returns whether this is an observe of one of the first `nodes` nodes.
fn is_observe_of(nodes: usize, event: &Event) -> bool
    ensures { result ≡ true → IsObserveOf nodes event.now }
{
    match event {
        Event::Observe(node) => usize::from(node.number()) < nodes,
        _ => false,
    }
}

// In a session each window begins with an observe of each node, a sixth of the events, for steps that a user left over.
/// Returns the number of first events that are observes, if no node has anything to observe. These are refused with
/// `WrongTurn`.
fn count_late(world: &World, events: &[Event]) -> usize
    ensures few { result ≤ length events.now }
    ensures late { DoesAll world.now (take result events.now) None world.now }
{
    if !world.between_windows() {
        return 0;
    }
    let nodes = world.interfaces().len();
    let mut count = 0;
    for event in events {
        if !is_observe_of(nodes, event) {
            return count;
        }
        count += 1;
    }
    count
}

/// Executes each of the events, and returns the first refusal that isn't `WrongTurn`.
fn do_each(world: &mut World, events: &[Event]) -> Option<StepError>
    ensures { DoesAll world.old events.now result world.new }
{
    let mut found = None;
    let mut place = 0;
    for turn in 0..events.len() {
        if place >= events.len() {
            return found;
        }
        let passed = world.pass_front(&events[place..]);
        place += passed;
        if passed == 0 {
            let outcome = world.apply(&events[place]);
            found = first_refusal(found, outcome);
            place += 1;
        }
    }
    found
}

/// Does the same, without the observes that stand first and aren't due.
fn do_all(world: &mut World, events: &[Event]) -> Option<StepError>
    ensures { DoesAll world.old events.now result world.new }
{
    let late = count_late(world, events);
    do_each(world, &events[late..])
}

/// Injects the faults of the open window, unless it is sealed.
fn strike_open(world: &mut World, faults: &[FaultLine])
    ensures { Strikes faults.now world.old world.new }
{
    match world.bus().collecting() {
        Some(window) => {
            let cycle = run_cycle(u32::from(world.bus().cycles_begun()), &window);
            // A fault of the window stays, if it has the same kind, node and channel.
            let _struck = strike_all(world, cycle as usize, &window, faults);
        }
        None => {}
    }
}

/// Finishes the open window: its faults, the events that are still due, and the bus's advance (project-defined).
///
/// The events are those of a window, as `window_events` returns them. Returns the hindrance of the bus.
pub fn finish_window(world: &mut World, faults: &[FaultLine], events: &[Event]) -> Option<StepError>
    ensures { MovesOn faults.now events.now world.old result world.new }
{
    strike_open(world, faults);
    let found = do_all(world, events);
    let last = world.apply(&Event::Advance);
    hindrance(found, last)
}

/// Returns whether the open window is the first of its cycle, or none is open, since the run is over (project-defined).
pub fn is_at_cycle(opened: Option<Window>) -> bool
    ensures { result ≡ is_at_cycle opened }
{
    match opened {
        Some(window) => opens_cycle(&window),
        None => true,
    }
}

/// Executes windows until the first one of a cycle is open, and returns a hindrance of the bus before.
fn finish_cycle(world: &mut World, faults: &[FaultLine], events: &[Event]) -> Option<StepError>
    ensures { EndsCycle faults.now events.now world.old result world.new }
{
    for count in 0..MOST_WINDOWS {
        match finish_window(world, faults, events) {
            Some(error) => return Some(error),
            None => {}
        }
        if is_at_cycle(world.bus().window()) {
            return None;
        }
    }
    None
}

/// Executes this number of cycles, and returns a hindrance of the bus before (project-defined).
///
/// The events are those of a window, as `window_events` returns them.
pub fn finish_cycles(
    world: &mut World,
    faults: &[FaultLine],
    events: &[Event],
    cycles: u16,
) -> Option<StepError>
    ensures { RunsCycles faults.now events.now cycles world.old result world.new }
{
    for count in 0..cycles {
        match finish_cycle(world, faults, events) {
            Some(error) => return Some(error),
            None => {}
        }
    }
    None
}
