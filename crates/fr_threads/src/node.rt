//! The thread of a node: its controller, and its tasks in a scope of their own.

ghost use Rattle.std.specs.Prelude.{◌≡◌, ◌+◌, ◌≤◌, [], IfOk, OnOk, vec_len, map};
ghost use Rattle.std.specs.Result.{result_err};
ghost use Rattle.std.specs.Vec.{vec_capacity};
ghost use Rattle.fr_interface.specs.Commits.{commits_of};
ghost use Rattle.fr_ledger.specs.Posts.{parts_for};
ghost use Rattle.fr_threads.specs.Failures.{told_after, told_of_all};

use crate::failure::{RunFailure, least_of, told_with};
use crate::shared::Common;
use crate::task::{TaskDone, run_task};
use fr_core::event::Reply;
use fr_desks::desk::{Desk, TaskPass};
use fr_desks::gate::Gate;
use fr_interface::interface::{Interface, Offer};
use fr_ledger::books::{Share, gather};
use fr_runs::stepping::lines_given;
use fr_slots::numbers::NodeId;
use fr_slots::window::{cycles_with, opens_cycle};
use fr_status::seen::Seen;
use std::alloc::{AllocError, Global};
use std::marker::Brand;
use std::sync::Wait;
use std::sync::ledger::{Blank, Ledger};
use std::thread;
use std::thread::{JoinHandle, Scope, Threads};
use std::time::Clock;

/// The results of a node: its interface, the posts of its shares, and the answers of its tasks.
///
/// The posts are the interface's commits.
#[derive(Drop)]
pub(crate) struct NodeDone {
    pub interface: Interface,
    pub commits: u64,
    pub answers: Vec<Vec<Reply>>,
    pub ghost counted: { commits ≡ commits_of interface },
}

/// The results of a node's tasks, in their order.
#[derive(Drop)]
struct TasksDone<L: Ledger> {
    shares: Vec<Share<L>>,
    answers: Vec<Vec<Reply>>,
}

/// The values that a node's tasks return, in their order.
#[derive(Drop)]
struct TasksJoined<L: Ledger> {
    shares: Vec<Share<L>>,
    answers: Vec<Result<Vec<Reply>, RunFailure>>,
}

impl<L: Ledger> TasksJoined<L> {
    /// Returns room for the values of this number of tasks.
    fn with_room(alloc: Global, count: usize) -> Result<TasksJoined<L>, AllocError>
        ensures no_shares { IfOk result (λ joined. vec_len joined.shares ≡ 0) }
        ensures no_answers { IfOk result (λ joined. vec_len joined.answers ≡ 0) }
        ensures shares { IfOk result (λ joined. vec_len joined.shares + count ≤ vec_capacity joined.shares) }
        ensures answers { IfOk result (λ joined. vec_len joined.answers + count ≤ vec_capacity joined.answers) }
    {
        Ok(TasksJoined {
            shares: Vec::with_capacity(alloc, count)?,
            answers: Vec::with_capacity(alloc, count)?,
        })
    }
}

/// Executes all steps of the controller in the run.
fn control<L: Ledger, R: Wait + Clock, G: Gate>(
    common: &Common<'_, R, G>,
    desk: &Desk<L>,
    node: NodeId,
) -> Result<(), RunFailure> {
    let (rt, shared, gate) = (common.rt, common.shared, common.gate);
    let mut begun = 0;
    let mut offer = Offer { a: None, b: None };
    let mut a = Seen::Silence;
    let mut b = Seen::Silence;
    let mut opened = shared.wire.next(rt, node)?;
    for _ in rt.forever() {
        let Some(window) = opened else {
            return Ok(());
        };
        if opens_cycle(&window) {
            shared.wait_done(rt, begun)?;
        }
        begun = cycles_with(begun, &window);
        let number = window.number;
        desk.fetch_into(rt, gate, &window, &mut offer)?;
        shared.wire.put(rt, node, number, &offer)?;
        opened = shared.wire.receive_into(rt, node, number, &mut a, &mut b)?;
        desk.observe(rt, gate, number, &a, &b)?;
    }
    unreachable!()
}

/// Starts the thread of each task. If one can't be started, those before it run.
fn start_tasks<'s, E, L: Ledger + Send + Sync, R: Wait + Sync, G: Gate + Sync>(
    scope: &'s Scope<'s, E>,
    common: &'s Common<'s, R, G>,
    desk: &'s Desk<L>,
    node: NodeId,
    passes: Vec<TaskPass<L>>,
    running: &mut Vec<JoinHandle<TaskDone<L>>>,
) -> Result<(), RunFailure>
    requires { vec_len running.old + vec_len passes ≤ vec_capacity running.old }
    ensures few { vec_len running.new ≤ vec_len running.old + vec_len passes }
    ensures all { OnOk result (vec_len running.new ≡ vec_len running.old + vec_len passes) }
{
    for pass in passes {
        let lines = lines_given(common.workload.scripts, node, pass.task());
        match scope.spawn(move || run_task(common, desk, lines, pass)) {
            Ok(handle) => running.push_reserved(handle),
            Err(_) => return Err(RunFailure::Thread),
        }
    }
    Ok(())
}

/// Joins the tasks, in their order. There is room for their values.
fn join_tasks<L: Ledger, R: Threads>(
    rt: &R,
    running: Vec<JoinHandle<TaskDone<L>>>,
    joined: &mut TasksJoined<L>,
)
    requires shares { vec_len joined.old.shares + vec_len running ≤ vec_capacity joined.old.shares }
    requires answers { vec_len joined.old.answers + vec_len running ≤ vec_capacity joined.old.answers }
    ensures shares { vec_len joined.new.shares ≡ vec_len joined.old.shares + vec_len running }
    ensures answers { vec_len joined.new.answers ≡ vec_len joined.old.answers + vec_len running }
{
    for handle in running {
        let TaskDone { share, answers } = handle.join(rt);
        joined.shares.push_reserved(share);
        joined.answers.push_reserved(answers);
    }
}

/// Keeps the answers of tasks that didn't fail, and returns the failure that is reported.
///
/// There is room for all answers.
fn keep_answers(
    answers: Vec<Result<Vec<Reply>, RunFailure>>,
    kept: &mut Vec<Vec<Reply>>,
) -> Option<RunFailure>
    requires { vec_len kept.old + vec_len answers ≤ vec_capacity kept.old }
    ensures { result ≡ told_of_all (map result_err answers.items) }
{
    let mut told = None;
    for answer in answers {
        match answer {
            Ok(replies) => kept.push_reserved(replies),
            Err(failure) => told = Some(least_of(told, failure)),
        }
    }
    told
}

/// Returns the results of the tasks, or the failure that is reported.
///
/// It is reported if one of the tasks or their controller failed. There is room for their answers.
fn all_answered<L: Ledger>(
    joined: TasksJoined<L>,
    ended: Result<(), RunFailure>,
    mut kept: Vec<Vec<Reply>>,
) -> Result<TasksDone<L>, RunFailure>
    requires { vec_len kept + vec_len joined.answers ≤ vec_capacity kept }
    ensures told { result_err result
        ≡ told_after (told_of_all (map result_err joined.answers.items)) (result_err ended) }
    ensures shares { IfOk result (λ done. vec_len done.shares ≡ vec_len joined.shares) }
{
    let TasksJoined { shares, answers } = joined;
    match told_with(keep_answers(answers, &mut kept), ended) {
        Some(failure) => Err(failure),
        None => Ok(TasksDone {
            shares,
            answers: kept,
        }),
    }
}

/// Runs the node's tasks and its controller, and joins them. If one of them fails, the run is stopped.
fn serve<'s, E, L: Ledger + Send + Sync, R: Threads + Wait + Clock + Sync, G: Gate + Sync>(
    scope: &'s Scope<'s, E>,
    common: &'s Common<'s, R, G>,
    desk: &'s Desk<L>,
    node: NodeId,
    passes: Vec<TaskPass<L>>,
) -> Result<TasksDone<L>, RunFailure>
    ensures { IfOk result (λ done. vec_len done.shares ≡ vec_len passes) }
{
    let alloc = common.alloc;
    let mut joined = TasksJoined::with_room(alloc, passes.len())?;
    let kept = Vec::with_capacity(alloc, passes.len())?;
    let mut running = Vec::with_capacity(alloc, passes.len())?;
    let ended = match start_tasks(scope, common, desk, node, passes, &mut running) {
        Ok(()) => control(common, desk, node),
        Err(failure) => Err(failure),
    };
    if ended.is_err() {
        common.shared.stop(common.rt);
    }
    join_tasks(common.rt, running, &mut joined);
    all_answered(joined, ended, kept)
}

/// Runs the node's tasks and its controller in a scope.
fn run_in_scope<L: Ledger + Send + Sync, R: Threads + Wait + Clock + Sync, G: Gate + Sync>(
    common: &Common<'_, R, G>,
    desk: &Desk<L>,
    node: NodeId,
    passes: Vec<TaskPass<L>>,
) -> Result<TasksDone<L>, RunFailure>
    ensures { IfOk result (λ done. vec_len done.shares ≡ vec_len passes) }
{
    thread::scope(
        thread::scope_env(),
        common.rt,
        |scope| -> Result<TasksDone<L>, RunFailure>
            ensures { IfOk result (λ done. vec_len done.shares ≡ vec_len passes) }
        { serve(scope, common, desk, node, passes) },
    )
}

/// Opens the node's `Desk`, runs its tasks and its controller, and gathers the shares.
fn run_desk<L: Ledger + Send + Sync, R: Threads + Wait + Clock + Sync, G: Gate + Sync>(
    common: &Common<'_, R, G>,
    blank: Blank,
    interface: Interface,
    node: NodeId,
) -> Result<NodeDone, RunFailure>
    requires name { blank.name ≡ L.name }
    requires parts { blank.parts ≡ L.parts }
    requires one_each { blank.parts ≡ parts_for interface.plan.tasks }
    requires fresh { interface.entries ≡ [] }
{
    let (desk, passes) = Desk::<L>::open(common.alloc, blank, node, interface)?;
    let ended = run_in_scope(common, &desk, node, passes);
    let (interface, mut book, own) = desk.close();
    let TasksDone { shares, answers } = ended?;
    let commits = gather(&mut book, own, shares);
    Ok(NodeDone {
        interface,
        commits,
        answers,
    })
}

/// Makes the interface of the node of this number, and runs the node with a ledger of its own.
fn run_ledger<R: Threads + Wait + Clock + Sync, G: Gate + Sync>(
    common: &Common<'_, R, G>,
    number: u8,
) -> Result<NodeDone, RunFailure> {
    // A node that the cluster doesn't have has no thread, but the type of a number doesn't show this.
    let Some(node) = NodeId::new(number) else {
        return Err(RunFailure::Thread);
    };
    let Some(plan) = common.cluster.node(node) else {
        return Err(RunFailure::Thread);
    };
    let interface = Interface::new(common.alloc, common.cluster.params(), plan)?;
    let parts = u64::from(interface.plan().tasks()) + 1;
    run_desk::<Brand, R, G>(common, Blank::new(parts), interface, node)
}

/// Runs the thread of the node of this number. If it fails, the run is stopped.
pub(crate) fn run_node<R: Threads + Wait + Clock + Sync, G: Gate + Sync>(
    common: &Common<'_, R, G>,
    number: u8,
) -> Result<NodeDone, RunFailure> {
    let done = run_ledger(common, number);
    if done.is_err() {
        common.shared.stop(common.rt);
    }
    done
}
