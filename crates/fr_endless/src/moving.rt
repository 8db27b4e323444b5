//! Windows and cycles of a world without history, whose windows are written to the files of the session.
ghost use Rattle.std.specs.Prelude.{◌≡◌, ◌≤◌, false, length, take, true};
ghost use Rattle.fr_endless.specs.Fronts.{AreLate, HasNothing, IsLate, IsUntraced};
ghost use Rattle.fr_endless.specs.Taps.{ToldAlike, with_taps};
ghost use Rattle.fr_live.specs.LiveSteps.{Accepts};
ghost use Rattle.fr_live.specs.LiveWorlds.{ForEachWorld};
ghost use Rattle.fr_playing.specs.Moving.{DoesAll, MovesOn, EndsCycle, RunsCycles};

use crate::striking::strike_open;
use crate::taps::Taps;
use crate::telling::apply_told;
use crate::world::EndlessWorld;
use fr_core::controller::{Controller, Due};
use fr_core::error::StepError;
use fr_core::event::Event;
use fr_core::front::{Front, front_of};
use fr_playing::moving::{MOST_WINDOWS, first_refusal, hindrance, is_at_cycle};
use fr_runs::fault_line::FaultLine;
use std::io::Write;

/// Returns whether a trace gets lines of these events.
fn is_traced<F: Write + Drop>(taps: &Taps<F>, front: &Front) -> bool
    ensures { result ≡ false → IsUntraced taps.now.traced front.now }
{
    match front {
        Front::Offer(node) => taps.is_traced(*node),
        Front::See(node) => taps.is_traced(*node),
        Front::Other => false,
    }
}

/// Executes the events of a node that stand first in the list, if one call executes them and no trace gets a line of
/// them, up to the first one that is refused. Returns how many were accepted.
fn pass_front<F: Write + Drop>(world: &mut EndlessWorld, taps: &Taps<F>, events: &[Event]) -> usize
    ensures few { result ≤ length events.now }
    ensures accepts { ToldAlike (with_taps world.old taps.now) (λ w v. Accepts w (take result events.now) v)
        (with_taps world.new taps.now) }
{
    let front = front_of(events);
    if is_traced(taps, &front) {
        return 0;
    }
    world.pass(&front)
}

/// Returns whether the controller has something to observe.
fn observes(controller: &Controller) -> bool
    ensures { result ≡ false → HasNothing controller.now }
{
    match &controller.due {
        Due::Observe(_) => true,
        Due::Look | Due::Fetch(_) | Due::Put(_) | Due::Take(_) => false,
    }
}

/// Returns whether this is the observe of a node that has nothing to observe.
fn is_late(world: &EndlessWorld, event: &Event) -> bool
    ensures { result ≡ true → ForEachWorld world.now (λ w. IsLate w event.now) }
{
    let Event::Observe(node) = event else {
        return false;
    };
    let place = usize::from(node.number());
    let (interfaces, controllers) = (world.interfaces(), world.controllers());
    place < interfaces.len() && place < controllers.len() && !observes(&controllers[place])
}

/// Returns the number of first events that are observes of nodes that have nothing to observe. These are refused with
/// `WrongTurn`.
fn count_late(world: &EndlessWorld, events: &[Event]) -> usize
    ensures few { result ≤ length events.now }
    ensures late { ForEachWorld world.now (λ w. AreLate w (take result events.now)) }
{
    let mut count = 0;
    for event in events {
        if !is_late(world, event) {
            return count;
        }
        count += 1;
    }
    count
}

// No reply is asked for, so that no room for a frame is moved.
/// Executes the events, and returns the first refusal that isn't `WrongTurn`.
fn do_all<F: Write + Drop>(
    world: &mut EndlessWorld,
    taps: &mut Taps<F>,
    events: &[Event],
) -> Option<StepError>
    ensures { ToldAlike (with_taps world.old taps.old) (λ w v. DoesAll w events.now result v)
        (with_taps world.new taps.new) }
{
    let mut found = None;
    let mut place = count_late(world, events);
    for turn in 0..events.len() {
        if place >= events.len() {
            return found;
        }
        let passed = pass_front(world, taps, &events[place..]);
        place += passed;
        if passed == 0 {
            let outcome = apply_told(world, taps, &events[place]);
            found = first_refusal(found, outcome);
            place += 1;
        }
    }
    found
}

/// Finishes the open window as `fr_playing::moving::finish_window` does, and returns the hindrance of the bus.
pub(crate) fn finish_window<F: Write + Drop>(
    world: &mut EndlessWorld,
    taps: &mut Taps<F>,
    faults: &[FaultLine],
    events: &[Event],
) -> Option<StepError>
    ensures { ToldAlike (with_taps world.old taps.old) (λ w v. MovesOn faults.now events.now w result v)
        (with_taps world.new taps.new) }
{
    strike_open(world, taps, faults);
    let found = do_all(world, taps, events);
    let last = apply_told(world, taps, &Event::Advance);
    hindrance(found, last)
}

/// Executes windows until the first one of a cycle is open, and returns a hindrance of the bus before.
fn finish_cycle<F: Write + Drop>(
    world: &mut EndlessWorld,
    taps: &mut Taps<F>,
    faults: &[FaultLine],
    events: &[Event],
) -> Option<StepError>
    ensures { ToldAlike (with_taps world.old taps.old) (λ w v. EndsCycle faults.now events.now w result v)
        (with_taps world.new taps.new) }
{
    for count in 0..MOST_WINDOWS {
        match finish_window(world, taps, faults, events) {
            Some(error) => return Some(error),
            None => {}
        }
        if is_at_cycle(world.bus().window()) {
            return None;
        }
    }
    None
}

/// Executes this number of cycles as `fr_playing::moving::finish_cycles` does, and returns a hindrance of the bus
/// before.
pub(crate) fn finish_cycles<F: Write + Drop>(
    world: &mut EndlessWorld,
    taps: &mut Taps<F>,
    faults: &[FaultLine],
    events: &[Event],
    cycles: u16,
) -> Option<StepError>
    ensures { ToldAlike (with_taps world.old taps.old) (λ w v. RunsCycles faults.now events.now cycles w result v)
        (with_taps world.new taps.new) }
{
    for count in 0..cycles {
        match finish_cycle(world, taps, faults, events) {
            Some(error) => return Some(error),
            None => {}
        }
    }
    None
}
