//! A whole run, one event after another.
ghost use Rattle.std.specs.Prelude.{◌≡◌, ◌≤◌, [], IfOk, IfErr, OnOk};
ghost use Rattle.fr_core.specs.Headline.{Headline};
ghost use Rattle.fr_runs.specs.Refusing.{Refuses};
ghost use Rattle.fr_playing.specs.Moving.{whole_window};
ghost use Rattle.fr_playing.specs.Playing.{AddsCycle, PlaysCycles, IsPlayed};
ghost use Rattle.fr_playing.specs.Refusals.{refusal_told, IsOfRun};
ghost use Rattle.fr_playing.specs.Settled.{IsSettled};

use crate::call::{ExecutedCall, do_lines};
use crate::error::PlayError;
use crate::hindrance::{Hindrance, error_of};
use crate::windows::play_windows;
use fr_core::script::Script;
use fr_core::world::World;
use fr_runs::check::check_run;
use fr_runs::fault_line::FaultLine;
use fr_schedule::cluster::Cluster;
use std::alloc::Global;

/// The world and the calls at the end of a run (project-defined).
#[derive(Drop)]
pub struct Played {
    /// The world at its end.
    pub world: World,
    /// The executed lines of the scripts, in their order.
    pub calls: Vec<ExecutedCall>,
}

/// Executes a cycle: its lines, and then its windows.
fn play_cycle(
    world: &mut World,
    cycle: u16,
    scripts: &[Script],
    faults: &[FaultLine],
    nodes: u8,
    calls: &mut Vec<ExecutedCall>,
) -> Result<(), Hindrance>
    requires { nodes ≤ 16 }
    ensures { OnOk result (AddsCycle cycle scripts.now faults.now (whole_window nodes) calls.old.items calls.new.items
        world.old world.new) }
{
    do_lines(world, cycle, scripts, calls)?;
    play_windows(world, cycle, faults, nodes)
}

/// Executes this number of cycles.
fn play_cycles(
    world: &mut World,
    scripts: &[Script],
    faults: &[FaultLine],
    nodes: u8,
    cycles: u16,
    calls: &mut Vec<ExecutedCall>,
) -> Result<(), Hindrance>
    requires few { nodes ≤ 16 }
    requires empty { calls.old.items ≡ [] }
    ensures { OnOk result (PlaysCycles scripts.now faults.now (whole_window nodes) cycles world.old calls.new.items
        world.new) }
{
    for cycle in 0..cycles {
        play_cycle(world, cycle, scripts, faults, nodes, calls)?;
    }
    Ok(())
}

/// Executes a run that the cluster accepts.
fn play_all(
    alloc: Global,
    cluster: &Cluster,
    scripts: &[Script],
    faults: &[FaultLine],
    cycles: u16,
) -> Result<Played, Hindrance>
    ensures { IfOk result (IsPlayed cluster.now scripts.now faults.now cycles) }
{
    let mut world = World::new(alloc, cluster, cycles)?;
    let mut calls = Vec::new(alloc);
    play_cycles(
        &mut world,
        scripts,
        faults,
        cluster.nodes(),
        cycles,
        &mut calls,
    )?;
    match world.bus().window() {
        Some(_) => Err(Hindrance::Unfinished),
        None => Ok(Played { world, calls }),
    }
}

/// Executes a run of the cluster in one thread, one event of its world after another (project-defined).
///
/// In each cycle its lines are executed first, in the order of the scripts and of the lines of each. Then comes window
/// after window: its faults, in the order of their lines; the look, fetch and put of each node; the seal; the take and
/// observe of each node; the bus's advance. A lockstep run in threads leads to the same if no two tasks touch one
/// buffer or one receive FIFO in a cycle.
///
/// Returns `Run` exactly if `check_run` rejects the run, and `Memory` if an allocation fails. The errors `Step` and
/// `Unfinished` mean that the world refused an event, or that the run wasn't over after its cycles. Tests show that
/// neither occurs in a run that the cluster accepts.
pub fn play(
    alloc: Global,
    cluster: &Cluster,
    scripts: &[Script],
    faults: &[FaultLine],
    cycles: u16,
) -> Result<Played, PlayError>
    ensures refused { Refuses cluster.now scripts.now faults.now cycles (refusal_told result) }
    ensures kind { IfErr result IsOfRun }
    ensures played { IfOk result (IsPlayed cluster.now scripts.now faults.now cycles) }
    ensures headline { IfOk result (λ played. Headline played.world) }
    // Journals, record, scripts and answers agree, and each fault and each call comes in its window and its cycle.
    ensures settled { IfOk result (IsSettled cluster.now scripts.now faults.now cycles) }
{
    if let Err(refusal) = check_run(cluster, scripts, faults, cycles) {
        return Err(PlayError::Run(refusal));
    }
    match play_all(alloc, cluster, scripts, faults, cycles) {
        Ok(played) => {
            // For the prover: the clause of this call.
            played.world.known();
            Ok(played)
        }
        Err(hindrance) => Err(error_of(hindrance)),
    }
}
