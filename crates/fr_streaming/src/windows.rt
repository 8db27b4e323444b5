//! The windows and the cycles of a run, each written as it is over.
ghost use Rattle.std.specs.Prelude.{◌≡◌, length, OnErr, OnOk};
ghost use Rattle.fr_playing.specs.Moving.{whole_window};
ghost use Rattle.fr_playing.specs.Playing.{PlaysCycle, PlaysCycles};
ghost use Rattle.fr_playing.specs.Windows.{PlaysWindow, PlaysWindows};
ghost use Rattle.fr_streaming.specs.RunFields.{due_of, faults_of, scripts_of, tells};
ghost use Rattle.fr_streaming.specs.Streams.{Breaks, Goes, WithoutCalls};

use crate::calling::show_lines;
use crate::hindrance::Hindrance;
use crate::playing::play_window;
use crate::telling::{Run, last_in, offers_for, write_out};
use fr_endless::world::EndlessWorld;
use fr_playing::moving::{MOST_WINDOWS, is_at_cycle};
use std::io::Write;

/// Executes the open window, and writes what the view has of it.
fn show_window<W: Write>(
    world: &mut EndlessWorld,
    run: &Run<'_>,
    cycle: u32,
    writer: &mut W,
) -> Result<(), Hindrance>
    requires { due_of run.now ≡ whole_window (length run.now.cluster.now.plans) }
    ensures goes { OnOk result (Goes (tells run.now)
        (WithoutCalls (PlaysWindow cycle (faults_of run.now) (due_of run.now))) world.old (W.contents writer.old)
        (W.contents writer.new) world.new) }
    ensures early { OnErr result (Breaks (tells run.now) world.old (W.contents writer.old) (W.contents writer.new)) }
{
    let offers = offers_for(run.streamed, world);
    play_window(world, cycle, run.scenario.faults(), run.due)?;
    let text = last_in(run, world.bus(), offers.as_slice())?;
    write_out(writer, text.as_slice())
}

/// Executes windows until the first one of a cycle is open, or the run is over.
fn show_windows<W: Write>(
    world: &mut EndlessWorld,
    run: &Run<'_>,
    cycle: u32,
    writer: &mut W,
) -> Result<(), Hindrance>
    requires { due_of run.now ≡ whole_window (length run.now.cluster.now.plans) }
    ensures goes { OnOk result (Goes (tells run.now)
        (WithoutCalls (PlaysWindows cycle (faults_of run.now) (due_of run.now))) world.old (W.contents writer.old)
        (W.contents writer.new) world.new) }
    ensures early { OnErr result (Breaks (tells run.now) world.old (W.contents writer.old) (W.contents writer.new)) }
{
    for count in 0..MOST_WINDOWS {
        show_window(world, run, cycle, writer)?;
        if is_at_cycle(world.bus().window()) {
            return Ok(());
        }
    }
    Err(Hindrance::Unfinished)
}

/// Executes a cycle: its lines, and then its windows.
fn show_cycle<W: Write>(
    world: &mut EndlessWorld,
    run: &Run<'_>,
    cycle: u32,
    writer: &mut W,
) -> Result<(), Hindrance>
    requires { due_of run.now ≡ whole_window (length run.now.cluster.now.plans) }
    ensures goes { OnOk result (Goes (tells run.now) (PlaysCycle cycle (scripts_of run.now) (faults_of run.now)
        (due_of run.now)) world.old (W.contents writer.old) (W.contents writer.new) world.new) }
    ensures early { OnErr result (Breaks (tells run.now) world.old (W.contents writer.old) (W.contents writer.new)) }
{
    show_lines(world, run, cycle, run.scenario.scripts(), writer)?;
    show_windows(world, run, cycle, writer)
}

/// Executes this number of cycles.
pub(crate) fn show_cycles<W: Write>(
    world: &mut EndlessWorld,
    run: &Run<'_>,
    cycles: u32,
    writer: &mut W,
) -> Result<(), Hindrance>
    requires { due_of run.now ≡ whole_window (length run.now.cluster.now.plans) }
    ensures goes { OnOk result (Goes (tells run.now) (PlaysCycles (scripts_of run.now) (faults_of run.now)
        (due_of run.now) cycles) world.old (W.contents writer.old) (W.contents writer.new) world.new) }
    ensures early { OnErr result (Breaks (tells run.now) world.old (W.contents writer.old) (W.contents writer.new)) }
{
    for cycle in 0..cycles {
        show_cycle(world, run, cycle, writer)?;
    }
    Ok(())
}
