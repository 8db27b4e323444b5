//! A whole run of a cluster.

ghost use Rattle.std.specs.Prelude.{◌≡◌, ◌+◌, ◌≤◌, ◌<◌, IfOk, OnOk, IsTrue, vec_len, length, map};
ghost use Rattle.std.specs.Result.{result_err};
ghost use Rattle.std.specs.Vec.{vec_capacity};
ghost use Rattle.fr_bus.specs.declared.error.Phase.TheVariants.{Finished};
ghost use Rattle.fr_bus.specs.States.{IsRun};
ghost use Rattle.fr_bus.specs.Windows.{cycles_begun};
ghost use Rattle.fr_interface.specs.Commits.{commits_of};
ghost use Rattle.fr_runs.specs.Faulted.{HaveFaults};
ghost use Rattle.fr_threads.specs.Failures.{told_after, told_of_all, TellsMemory};
ghost use Rattle.fr_threads.specs.Running.{IsRunOf, RefusesRun};

use crate::answers::with_answers;
use crate::error::{RunError, error_of_failure, error_of_refusal};
use crate::failure::{RunFailure, least_of, told_with};
use crate::mover::run_bus;
use crate::node::{NodeDone, run_node};
use crate::pace::Pace;
use crate::shared::{Common, Shared};
use crate::workload::Workload;
use fr_bus::bus::Bus;
use fr_bus::error::Phase;
use fr_core::event::Reply;
use fr_core::script::Script;
use fr_core::settle::{Settled, settle_in_threads};
use fr_desks::gate::Gate;
use fr_desks::wire::Wire;
use fr_interface::interface::Interface;
use fr_runs::check::check_run;
use fr_runs::fault_line::FaultLine;
use fr_runs::faulted::have_faults;
use fr_runs::stepping::are_stepped;
use fr_schedule::cluster::Cluster;
use std::alloc::{AllocError, Global};
use std::sync::Wait;
use std::thread;
use std::thread::{JoinHandle, Scope, Threads};
use std::time::Clock;

/// The results of a run (project-defined).
#[derive(Drop)]
pub struct Run {
    /// The interface of each node.
    pub interfaces: Vec<Interface>,
    /// The number of commits of each interface, by the shares of its tasks.
    pub commits: Vec<u64>,
    /// The given scripts, with the answers that the tasks got.
    pub scripts: Vec<Script>,
    /// The bus, at its end.
    pub bus: Bus,
    /// The result of the cross-check.
    pub settled: Settled,
}

/// The results of the nodes, in their order.
#[derive(Drop)]
struct NodesDone {
    interfaces: Vec<Interface>,
    commits: Vec<u64>,
    answers: Vec<Vec<Vec<Reply>>>,
}

impl NodesDone {
    /// Returns room for the results of this number of nodes.
    fn with_room(alloc: Global, count: usize) -> Result<NodesDone, AllocError>
        ensures interfaces { IfOk result (λ done. vec_len done.interfaces + count ≤ vec_capacity done.interfaces) }
        ensures commits { IfOk result (λ done. vec_len done.commits + count ≤ vec_capacity done.commits) }
        ensures answers { IfOk result (λ done. vec_len done.answers + count ≤ vec_capacity done.answers) }
        ensures counted { IfOk result (λ done. done.commits.items ≡ map commits_of done.interfaces.items) }
    {
        Ok(NodesDone {
            interfaces: Vec::with_capacity(alloc, count)?,
            commits: Vec::with_capacity(alloc, count)?,
            answers: Vec::with_capacity(alloc, count)?,
        })
    }

    /// Adds the results of a node. There is room for them.
    fn add(&mut self, done: NodeDone)
        requires interfaces { vec_len self.old.interfaces < vec_capacity self.old.interfaces }
        requires commits { vec_len self.old.commits < vec_capacity self.old.commits }
        requires answers { vec_len self.old.answers < vec_capacity self.old.answers }
        requires counted { self.old.commits.items ≡ map commits_of self.old.interfaces.items }
        ensures len_interfaces { vec_len self.new.interfaces ≡ vec_len self.old.interfaces + 1 }
        ensures len_commits { vec_len self.new.commits ≡ vec_len self.old.commits + 1 }
        ensures len_answers { vec_len self.new.answers ≡ vec_len self.old.answers + 1 }
        ensures room_interfaces { vec_capacity self.new.interfaces ≡ vec_capacity self.old.interfaces }
        ensures room_commits { vec_capacity self.new.commits ≡ vec_capacity self.old.commits }
        ensures room_answers { vec_capacity self.new.answers ≡ vec_capacity self.old.answers }
        ensures counted { self.new.commits.items ≡ map commits_of self.new.interfaces.items }
    {
        let NodeDone {
            interface,
            commits,
            answers,
        } = done;
        self.interfaces.push_reserved(interface);
        self.commits.push_reserved(commits);
        self.answers.push_reserved(answers);
    }
}

/// The results of the nodes, each of which has counted the commits of its interface.
#[derive(Drop)]
struct NodesCounted {
    nodes: NodesDone,
    ghost counted: { nodes.commits.items ≡ map commits_of nodes.interfaces.items },
}

/// Starts the thread of each node. If one can't be started, those before it run.
fn start_nodes<'s, E, R: Threads + Wait + Clock + Sync, G: Gate + Sync>(
    scope: &'s Scope<'s, E>,
    common: &'s Common<'s, R, G>,
    nodes: u8,
    running: &mut Vec<JoinHandle<Result<NodeDone, RunFailure>>>,
) -> Result<(), RunFailure>
    requires { vec_len running.old + nodes ≤ vec_capacity running.old }
    ensures few { vec_len running.new ≤ vec_len running.old + nodes }
    ensures all { OnOk result (vec_len running.new ≡ vec_len running.old + nodes) }
{
    for number in 0..nodes {
        match scope.spawn(move || run_node(common, number)) {
            Ok(handle) => running.push_reserved(handle),
            Err(_) => return Err(RunFailure::Thread),
        }
    }
    Ok(())
}

/// Joins the nodes, in their order. There is room for their results.
fn join_nodes<R: Threads>(
    rt: &R,
    running: Vec<JoinHandle<Result<NodeDone, RunFailure>>>,
    answers: &mut Vec<Result<NodeDone, RunFailure>>,
)
    requires { vec_len answers.old + vec_len running ≤ vec_capacity answers.old }
    ensures { vec_len answers.new ≡ vec_len answers.old + vec_len running }
{
    for handle in running {
        answers.push_reserved(handle.join(rt));
    }
}

/// Adds the results of nodes that didn't fail, and returns the failure that is reported.
///
/// There is room for the results.
fn keep_nodes(
    answers: Vec<Result<NodeDone, RunFailure>>,
    nodes: &mut NodesDone,
) -> Option<RunFailure>
    requires interfaces { vec_len nodes.old.interfaces + vec_len answers ≤ vec_capacity nodes.old.interfaces }
    requires commits { vec_len nodes.old.commits + vec_len answers ≤ vec_capacity nodes.old.commits }
    requires answers { vec_len nodes.old.answers + vec_len answers ≤ vec_capacity nodes.old.answers }
    requires counted { nodes.old.commits.items ≡ map commits_of nodes.old.interfaces.items }
    ensures told { result ≡ told_of_all (map result_err answers.items) }
    ensures counted { nodes.new.commits.items ≡ map commits_of nodes.new.interfaces.items }
{
    let mut told = None;
    for answer in answers {
        match answer {
            Ok(done) => nodes.add(done),
            Err(failure) => told = Some(least_of(told, failure)),
        }
    }
    told
}

/// Returns the results of the nodes, or the failure that is reported.
///
/// They are returned if no node failed, nor the bus, and all threads were started. There is room for the results.
fn all_done(
    answers: Vec<Result<NodeDone, RunFailure>>,
    bus: Result<(), RunFailure>,
    started: Result<(), RunFailure>,
    mut nodes: NodesDone,
) -> Result<NodesDone, RunFailure>
    requires interfaces { vec_len nodes.interfaces + vec_len answers ≤ vec_capacity nodes.interfaces }
    requires commits { vec_len nodes.commits + vec_len answers ≤ vec_capacity nodes.commits }
    requires answers { vec_len nodes.answers + vec_len answers ≤ vec_capacity nodes.answers }
    requires counted { nodes.commits.items ≡ map commits_of nodes.interfaces.items }
    ensures told { result_err result
        ≡ told_after (told_after (told_of_all (map result_err answers.items)) (result_err bus)) (result_err started) }
    ensures counted { IfOk result (λ nodes. nodes.commits.items ≡ map commits_of nodes.interfaces.items) }
{
    let told = told_with(keep_nodes(answers, &mut nodes), bus);
    match told_with(told, started) {
        Some(failure) => Err(failure),
        None => Ok(nodes),
    }
}

/// Runs the bus and the nodes, and joins them. If one of them fails, the run is stopped.
fn serve<'s, E, R: Threads + Wait + Clock + Sync, G: Gate + Sync>(
    scope: &'s Scope<'s, E>,
    common: &'s Common<'s, R, G>,
) -> Result<NodesCounted, RunFailure> {
    let (alloc, count) = (common.alloc, common.cluster.nodes());
    let nodes = NodesDone::with_room(alloc, usize::from(count))?;
    let mut answers = Vec::with_capacity(alloc, usize::from(count))?;
    let mut running = Vec::with_capacity(alloc, usize::from(count))?;
    let Ok(bus) = scope.spawn(move || run_bus(common)) else {
        return Err(RunFailure::Thread);
    };
    let started = start_nodes(scope, common, count, &mut running);
    if started.is_err() {
        common.shared.stop(common.rt);
    }
    join_nodes(common.rt, running, &mut answers);
    let nodes = all_done(answers, bus.join(common.rt), started, nodes)?;
    Ok(NodesCounted { nodes })
}

// The type has the fact about the nodes, since a contract of a closure that is given a struct fails to check.
/// Runs the bus and the nodes in a scope.
fn run_in_scope<R: Threads + Wait + Clock + Sync, G: Gate + Sync>(
    common: &Common<'_, R, G>,
) -> Result<NodesCounted, RunFailure> {
    thread::scope(thread::scope_env(), common.rt, |scope| serve(scope, common))
}

// The borrow checker covers the record only where its references are used nowhere else, so it is made here.
/// Runs the bus and the nodes with this workload.
fn run_workload<'w, R: Threads + Wait + Clock + Sync, G: Gate + Sync>(
    rt: &R,
    alloc: Global,
    shared: &Shared,
    cluster: &Cluster,
    workload: &'w Workload<'w>,
    gate: &G,
) -> Result<NodesCounted, RunFailure> {
    run_in_scope(&Common {
        rt,
        alloc,
        shared,
        cluster,
        workload,
        gate,
    })
}

/// Returns whether the bus was made for the cluster and came to its end after these cycles, with these faults.
///
/// The faults of its windows are exactly those of the lines.
fn is_at_end(
    alloc: Global,
    cluster: &Cluster,
    bus: &Bus,
    faults: &[FaultLine],
    cycles: u16,
) -> Result<bool, RunFailure>
    ensures cluster { IfOk result (λ answer. IsTrue answer → bus.now.cluster ≡ cluster.now) }
    ensures run { IfOk result (λ answer. IsTrue answer → IsRun bus.now) }
    ensures finished { IfOk result (λ answer. IsTrue answer → bus.now.phase ≡ Finished) }
    ensures cycles { IfOk result (λ answer. IsTrue answer → cycles_begun bus.now.sealed ≡ cycles) }
    ensures faults { IfOk result (λ answer. IsTrue answer → HaveFaults faults.now bus.now.sealed) }
{
    let is_faulted = have_faults(alloc, faults, bus.record())?;
    let has_cycles = bus.cycles_begun() == cycles;
    // A lock can't tell which bus was put in it.
    let is_of_cluster = bus.is_of(cluster);
    Ok(bus.phase() == Phase::Finished && has_cycles && is_faulted && is_of_cluster)
}

/// Returns the run, if it passes all checks.
///
/// The bus came to its end with these faults, the results of the nodes agree with it and the scripts, and in a lockstep
/// run each line was executed in its cycle.
fn settled_run<R: Threads + Sync>(
    rt: &R,
    alloc: Global,
    cluster: &Cluster,
    workload: &Workload<'_>,
    nodes: NodesDone,
    bus: Bus,
) -> Result<Run, RunFailure>
    requires { nodes.commits.items ≡ map commits_of nodes.interfaces.items }
    ensures { IfOk result (IsRunOf cluster.now workload.now.scripts.now workload.now.faults.now workload.now.cycles
        workload.now.stepped) }
{
    let given = workload.scripts;
    if !is_at_end(alloc, cluster, &bus, workload.faults, workload.cycles)? {
        return Err(RunFailure::Thread);
    }
    let NodesDone {
        interfaces,
        commits,
        answers,
    } = nodes;
    let scripts = with_answers(alloc, given, answers.as_slice())?;
    let answer = settle_in_threads(
        rt,
        alloc,
        cluster,
        interfaces.as_slice(),
        &bus,
        scripts.as_slice(),
    );
    let settled = answer?;
    if workload.stepped && !are_stepped(interfaces.as_slice(), bus.record(), given) {
        return Err(RunFailure::Thread);
    }
    Ok(Run {
        interfaces,
        commits,
        scripts,
        bus,
        settled,
    })
}

/// Returns the bus and the cycle barrier of a run.
fn shared_by_all(
    alloc: Global,
    cluster: &Cluster,
    workload: &Workload<'_>,
) -> Result<Shared, RunFailure> {
    let cycles = workload.cycles;
    let bus = Bus::new(alloc, cluster, cycles)?;
    let pace = if workload.stepped {
        Some(Pace::new(alloc, cluster.nodes(), cycles, workload.scripts)?)
    } else {
        None
    };
    Ok(Shared {
        wire: Wire::new(bus),
        pace,
    })
}

/// Runs the threads, and cross-checks their results.
fn run_all<R: Threads + Wait + Clock + Sync, G: Gate + Sync>(
    rt: &R,
    alloc: Global,
    cluster: &Cluster,
    workload: &Workload<'_>,
    gate: &G,
) -> Result<Run, RunFailure>
    ensures { IfOk result (IsRunOf cluster.now workload.now.scripts.now workload.now.faults.now workload.now.cycles
        workload.now.stepped) }
{
    let shared = shared_by_all(alloc, cluster, workload)?;
    let ended = run_workload(rt, alloc, &shared, cluster, workload, gate);
    let Shared { wire, pace: _ } = shared;
    let bus = wire.close();
    let NodesCounted { nodes } = ended?;
    settled_run(rt, alloc, cluster, workload, nodes, bus)
}

/// Runs the cluster with the workload, in threads (project-defined).
///
/// A thread for each task executes the lines of its script, one for each controller executes all windows, and one for
/// the bus injects the faults and moves the bus on.
///
/// In a lockstep run, the lines of a cycle are executed once all controllers have observed the whole of the cycle
/// before, and before any of them fetches in the cycle. Otherwise they are executed at any moment, in the order of each
/// script.
///
/// Returns `BadCycles`, `BadScript`, `BadFault` or `NoRoom`, in this order and as `check_run` does, before any thread
/// starts. Of several failures that threads meet, the first of these is reported: `Host`, `Slot`, `Bus`, `Thread` and
/// `Memory`.
///
/// If the threads meet no failure, a bus that isn't at its end after this number of cycles gives `Thread`, and results
/// that don't agree give `Settle`. A record with faults other than those of the lines also gives `Thread`, and so does
/// a line of a lockstep run that wasn't executed in its cycle.
///
/// All threads are joined before it returns. Its cross-check walks the journals in threads if these can be started,
/// otherwise one after another. A thread that can't be started there is no failure.
pub fn run_threads<R: Threads + Wait + Clock + Sync, G: Gate + Sync>(
    rt: &R,
    alloc: Global,
    cluster: &Cluster,
    workload: &Workload<'_>,
    gate: &G,
) -> Result<Run, RunError>
    ensures refused { RefusesRun cluster.now workload.now.scripts.now workload.now.faults.now workload.now.cycles
        result }
    ensures memory { TellsMemory result }
    ensures run { IfOk result (IsRunOf cluster.now workload.now.scripts.now workload.now.faults.now
        workload.now.cycles workload.now.stepped) }
{
    let (scripts, faults) = (workload.scripts, workload.faults);
    if let Err(refusal) = check_run(cluster, scripts, faults, workload.cycles) {
        return Err(error_of_refusal(refusal));
    }
    match run_all(rt, alloc, cluster, workload, gate) {
        Ok(run) => Ok(run),
        Err(failure) => Err(error_of_failure(failure)),
    }
}
