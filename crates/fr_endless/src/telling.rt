//! Events in a world without history, with what they add written to the files of the session: a seal the window, and an
//! event of a node the entry of its journal.
ghost use Rattle.std.specs.Prelude.{◌≡◌, false, true};
ghost use Rattle.fr_core.specs.Steps.{Applies, Steps};
ghost use Rattle.fr_endless.specs.Taps.{ToldAlike, is_seal, with_taps};
ghost use Rattle.fr_endless.specs.Tracing.{adds_entry, IsPlain};
ghost use Rattle.fr_live.specs.LiveSteps.{without_value};

use crate::taps::Taps;
use crate::tracing::{adds_entry, apply_slot, is_call, node_of, step_traced};
use crate::world::EndlessWorld;
use fr_core::error::StepError;
use fr_core::event::{Event, Reply};
use std::io::Write;

/// Returns whether the event is a seal.
fn is_seal(event: &Event) -> bool
    ensures { result ≡ is_seal event.now }
{
    matches!(event, Event::Seal)
}

/// Returns whether the event, if it is accepted, adds a line to a trace that is written.
fn is_traced<F: Write + Drop>(taps: &Taps<F>, event: &Event) -> bool
    ensures adds { result ≡ true → adds_entry event.now ≡ true }
    ensures plain { result ≡ false → IsPlain taps.now.traced event.now }
{
    adds_entry(event) && taps.is_traced(node_of(event))
}

/// Executes one event that adds no line to a trace, as `EndlessWorld::step` does, and writes the window that it sealed.
/// Fails as that does.
fn step_plain<F: Write + Drop>(
    world: &mut EndlessWorld,
    taps: &mut Taps<F>,
    event: &Event,
) -> Result<Reply, StepError>
    requires { IsPlain taps.old.traced event.now }
    ensures { ToldAlike (with_taps world.old taps.old) (λ w v. Steps w event.now result v)
        (with_taps world.new taps.new) }
{
    let answer = world.step(event);
    if is_seal(event) && answer.is_ok() {
        taps.add_last(world.bus());
    }
    answer
}

/// Executes one event that adds no line to a trace, without its answer, and writes the window that it sealed.
fn apply_plain<F: Write + Drop>(
    world: &mut EndlessWorld,
    taps: &mut Taps<F>,
    event: &Event,
) -> Result<(), StepError>
    requires { IsPlain taps.old.traced event.now }
    ensures { ToldAlike (with_taps world.old taps.old) (λ w v. Applies w event.now result v)
        (with_taps world.new taps.new) }
{
    let outcome = world.apply(event);
    if is_seal(event) && outcome.is_ok() {
        taps.add_last(world.bus());
    }
    outcome
}

/// Executes one event, as `EndlessWorld::step` does, and writes what it added to the files. Fails as that does.
pub(crate) fn step_told<F: Write + Drop>(
    world: &mut EndlessWorld,
    taps: &mut Taps<F>,
    event: &Event,
) -> Result<Reply, StepError>
    ensures { ToldAlike (with_taps world.old taps.old) (λ w v. Steps w event.now result v)
        (with_taps world.new taps.new) }
{
    if is_traced(taps, event) {
        step_traced(world, taps, event)
    } else {
        step_plain(world, taps, event)
    }
}

/// Returns whether an event was accepted, without its reply.
fn without_reply(answer: Result<Reply, StepError>) -> Result<(), StepError>
    ensures { result ≡ without_value answer }
{
    match answer {
        Ok(_) => Ok(()),
        Err(error) => Err(error),
    }
}

/// Executes one event that adds a line to a trace if it is accepted, without its answer, and writes that line. Fails
/// as `EndlessWorld::apply` does.
///
/// It isn't inlined, so a session without traces doesn't pay for the room of a reply.
#[inline(never)]
fn apply_traced<F: Write + Drop>(
    world: &mut EndlessWorld,
    taps: &mut Taps<F>,
    event: &Event,
) -> Result<(), StepError>
    requires { adds_entry event.now ≡ true }
    ensures { ToldAlike (with_taps world.old taps.old) (λ w v. Applies w event.now result v)
        (with_taps world.new taps.new) }
{
    if is_call(event) {
        without_reply(step_traced(world, taps, event))
    } else {
        apply_slot(world, taps, event)
    }
}

/// Executes one event without its answer, as `EndlessWorld::apply` does, and writes what it added to the files. Fails
/// as that does.
pub(crate) fn apply_told<F: Write + Drop>(
    world: &mut EndlessWorld,
    taps: &mut Taps<F>,
    event: &Event,
) -> Result<(), StepError>
    ensures { ToldAlike (with_taps world.old taps.old) (λ w v. Applies w event.now result v)
        (with_taps world.new taps.new) }
{
    if is_traced(taps, event) {
        apply_traced(world, taps, event)
    } else {
        apply_plain(world, taps, event)
    }
}
