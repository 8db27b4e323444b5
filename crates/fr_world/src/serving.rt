//! A session with the world that it opens.
ghost use Rattle.std.specs.Prelude.{◌≡◌, []};
ghost use Rattle.fr_world.specs.Serving.{IsFullNode, ServesKept, ServesLive, ServesRun, failure_of, node_named};

use crate::failure::WorldFailure;
use fr_cli::world::WorldRun;
use fr_core::script::Script;
use fr_core::world::World;
use fr_endless::error::EndlessError;
use fr_endless::session::serve_endless;
use fr_endless::taps::Taps;
use fr_endless::world::{EndlessWorld, greatest_cycles};
use fr_live::room::Room;
use fr_runs::check::{RunRefusal, check_run};
use fr_runs::fault_line::FaultLine;
use fr_schedule::cluster::Cluster;
use fr_session::session::serve;
use fr_slots::numbers::NodeId;
use std::alloc::Global;
use std::io::{BufRead, Write};

/// Returns the node that a refusal names because its journal lacks room.
fn node_named(refusal: RunRefusal) -> Option<NodeId>
    ensures { result ≡ node_named refusal }
{
    match refusal {
        RunRefusal::NoRoom(node) => Some(node),
        RunRefusal::BadCycles | RunRefusal::BadScript(_) | RunRefusal::BadFault(_) => None,
    }
}

/// Returns the first node whose journal has no room for the windows of a run of so many cycles. There are no scripts
/// and no fault lines.
#[tactic(auto, using(crate::proofs::ServingLemmas::full_told))]
fn full_node(
    cluster: &Cluster,
    scripts: &[Script],
    faults: &[FaultLine],
    cycles: u16,
) -> Option<NodeId>
    requires scripts { scripts.now ≡ [] }
    requires faults { faults.now ≡ [] }
    ensures { IsFullNode cluster.now cycles result }
{
    match check_run(cluster, scripts, faults, cycles) {
        Ok(()) => None,
        Err(refusal) => node_named(refusal),
    }
}

/// Opens the world of the cluster in a run of so many cycles, and serves it with its history.
///
/// Fails with `Room` if the journal of a node has no room for the windows of the run, with `World` if the world can't
/// be opened, and with `Session` if the session ends early.
fn serve_kept<R: BufRead, W: Write>(
    alloc: Global,
    cluster: &Cluster,
    cycles: u16,
    reader: &mut R,
    writer: &mut W,
) -> Result<(), WorldFailure>
    ensures { ServesKept cluster.now cycles (R.remaining reader.old) (R.remaining reader.new)
        (W.contents writer.old) (W.contents writer.new) result }
{
    if let Some(node) = full_node(cluster, &[], &[], cycles) {
        return Err(WorldFailure::Room(node));
    }
    let mut world = match World::new(alloc, cluster, cycles) {
        Ok(world) => world,
        Err(error) => return Err(WorldFailure::World(error)),
    };
    match serve(alloc, cluster, cycles, &mut world, reader, writer) {
        Ok(()) => Ok(()),
        Err(error) => Err(WorldFailure::Session(error)),
    }
}

/// Returns the end of a session without history as that of the program.
fn failure_of(error: EndlessError) -> WorldFailure
    ensures { result ≡ failure_of error }
{
    match error {
        EndlessError::Session(error) => WorldFailure::Session(error),
        EndlessError::Tap(tap) => WorldFailure::Tap(tap),
    }
}

/// Opens the world of the cluster in a run of so many cycles, and serves it without history.
///
/// Fails with `World` if the world can't be opened, with `Session` if the session ends early, and with `Tap` if a file
/// fails.
fn serve_live<F: Write + Drop, R: BufRead, W: Write>(
    alloc: Global,
    cluster: &Cluster,
    cycles: u32,
    taps: &mut Taps<F>,
    reader: &mut R,
    writer: &mut W,
) -> Result<(), WorldFailure>
    ensures { ServesLive cluster.now cycles (R.remaining reader.old) (R.remaining reader.new)
        (W.contents writer.old) (W.contents writer.new) taps.old taps.new result }
{
    let room = Room::greatest();
    let mut world = match EndlessWorld::new(alloc, cluster, cycles, &room) {
        Ok(world) => world,
        Err(error) => return Err(WorldFailure::World(error)),
    };
    taps.begin_traces(cluster, &room);
    if let Some(tap) = taps.failed() {
        return Err(WorldFailure::Tap(tap));
    }
    match serve_endless(alloc, cluster, cycles, &mut world, taps, reader, writer) {
        Ok(()) => Ok(()),
        Err(error) => Err(failure_of(error)),
    }
}

/// Opens the world of the cluster in this run, and answers each line of the reader (project-defined). An endless run
/// without a number of cycles has the most that the cluster allows. Its windows go to the files, by the parameters that
/// these were made for, which must be the cluster's. If there are traces, each node's gets the whole text of version 4:
/// the lines before the entries at once, each entry as it is made, and `end` at the end of the input.
///
/// Fails before anything is read or written: with `World` if the world can't be opened, and with history also with
/// `Room`, if the journal of a node has no room for two entries for each static slot and each minislot of each cycle.
/// Fails with `Session` if the session ends early, and with `Tap` if a file fails. A trace whose first lines can't be
/// written fails before anything is read.
pub fn serve_run<F: Write + Drop, R: BufRead, W: Write>(
    alloc: Global,
    cluster: &Cluster,
    run: WorldRun,
    taps: &mut Taps<F>,
    reader: &mut R,
    writer: &mut W,
) -> Result<(), WorldFailure>
    ensures { ServesRun run cluster.now (R.remaining reader.old) (R.remaining reader.new)
        (W.contents writer.old) (W.contents writer.new) taps.old taps.new result }
{
    match run {
        WorldRun::Kept(cycles) => serve_kept(alloc, cluster, cycles, reader, writer),
        WorldRun::Endless(Some(cycles)) => serve_live(alloc, cluster, cycles, taps, reader, writer),
        WorldRun::Endless(None) => {
            let cycles = greatest_cycles(cluster);
            serve_live(alloc, cluster, cycles, taps, reader, writer)
        }
    }
}
