//! The check of a run: its cycles, scripts, faults and journals.

ghost use Rattle.std.specs.Prelude.{◌≡◌, ◌↔◌, ◌<◌, ◌≤◌, IsTrue, OnOk};
ghost use Rattle.std.specs.Result.{result_err};
ghost use Rattle.fr_core.specs.Walks.{Finds};
ghost use Rattle.fr_runs.specs.Apart.{ComeApart};
ghost use Rattle.fr_runs.specs.Refusing.{Refuses};
ghost use Rattle.fr_runs.specs.Suiting.{lines_for, most_slot_entries_in, HasRoomIn, HasRoom};

use crate::fault_line::FaultLine;
use crate::faults::other_fault;
use crate::scripts::other_script;
use fr_core::script::Script;
use fr_schedule::cluster::Cluster;
use fr_slots::numbers::NodeId;
use fr_slots::params::Params;
use fr_slots::plan::NodePlan;
use thiserror::Error;

/// Reasons to refuse a run (project-defined).
#[derive(Clone, Copy, Debug, PartialEq, Eq, Error)]
pub enum RunRefusal {
    /// A number of cycles that is 0 or above 1024.
    #[error("BadCycles")]
    BadCycles,
    /// The script at this place, counted from 0, which doesn't fit the cluster and the run.
    #[error("BadScript {0}")]
    BadScript(usize),
    /// The fault line at this place, counted from 0, which doesn't fit the cluster and the run.
    #[error("BadFault {0}")]
    BadFault(usize),
    /// The node whose journal has less room than the run may take.
    #[error("NoRoom {0}")]
    NoRoom(NodeId),
}

/// Returns whether the scripts for the node together have at most so many lines.
fn has_host_room(scripts: &[Script], node: NodeId, host_entries: u16) -> bool
    ensures { IsTrue result ↔ (lines_for node scripts.now ≤ host_entries) }
{
    let mut room = usize::from(host_entries);
    for script in scripts {
        if script.node == node {
            let Some(left) = room.checked_sub(script.lines.len()) else {
                return false;
            };
            room = left;
        }
    }
    true
}

/// Returns the greatest number of slot entries that a run of so many cycles leaves in a journal. Each window has a
/// fetch and an observe.
fn most_slot_entries_in(params: &Params, cycles: u16) -> u64
    ensures { result ≡ most_slot_entries_in params.now cycles }
{
    2 * u64::from(cycles) * (u64::from(params.static_slots) + u64::from(params.minislots))
}

/// Returns whether the journal of a node with this plan has the room that the run may take.
fn has_room_in(
    params: &Params,
    cycles: u16,
    scripts: &[Script],
    node: NodeId,
    plan: &NodePlan,
) -> bool
    ensures { IsTrue result ↔ HasRoomIn params.now cycles scripts.now node plan.now }
{
    has_host_room(scripts, node, plan.host_entries())
        && most_slot_entries_in(params, cycles) <= u64::from(plan.slot_entries())
}

/// Returns whether the cluster doesn't have the node, or its journal has the room for the run.
fn has_room(cluster: &Cluster, cycles: u16, scripts: &[Script], node: NodeId) -> bool
    ensures { IsTrue result ↔ HasRoom cluster.now cycles scripts.now node }
{
    match cluster.node(node) {
        Some(plan) => has_room_in(cluster.params(), cycles, scripts, node, plan),
        None => true,
    }
}

/// Returns the first node whose journal doesn't have the room.
fn full_node(cluster: &Cluster, scripts: &[Script], cycles: u16) -> Option<NodeId>
    ensures { Finds (HasRoom cluster.now cycles scripts.now) result }
{
    for number in 0..cluster.nodes() {
        let node = NodeId::from_number(number);
        if !has_room(cluster, cycles, scripts, node) {
            return Some(node);
        }
    }
    None
}

/// Checks that the cluster accepts a run of so many cycles, these scripts and these faults. Project-defined. It
/// allocates no memory.
///
/// Fails in this order. Each kind is looked for in the whole lists before the next, and of a kind the first is named.
///
/// - `BadCycles`: 0 cycles or more than 1024.
/// - `BadScript`, for a script:
///   - its node isn't in the cluster, its task isn't one of the node's, or an earlier script has the task;
///   - a line's cycle is below that of the line before it, or isn't a cycle of the run, counted from 0;
///   - a line commits or withdraws on a buffer that isn't a transmit buffer of the node, or commits a payload of
///     another length than that buffer's;
///   - a line reads a buffer that isn't a receive buffer of the node, or pops while the node has no receive FIFO.
/// - `BadFault`, for a fault line:
///   - its node isn't in the cluster;
///   - its cycle isn't in the run; the first cycle of its span isn't, or is after the last, or the step is 0;
///   - a static slot or minislot isn't in a cycle; a first static slot is after the last; or a dynamic slot is at most
///     the number of static slots, or above the number of static slots and minislots together;
///   - it names a window that an earlier line names for the same kind, node and channel; for a corruption, for the same
///     channel. A line names the window at its minislot even if none opens there, and its dynamic slot is taken to open
///     at each minislot. Two dynamic slots have no window in common.
/// - `NoRoom`: a node's scripts together have more lines than its journal has room for host entries. Or its journal
///   doesn't have room for two slot entries for each static slot and each minislot of each cycle.
///
/// Accepted fault lines give at most one fault of a kind, node and channel in each window.
pub fn check_run(
    cluster: &Cluster,
    scripts: &[Script],
    faults: &[FaultLine],
    cycles: u16,
) -> Result<(), RunRefusal>
    ensures refusal { Refuses cluster.now scripts.now faults.now cycles (result_err result) }
    ensures apart { OnOk result (ComeApart faults.now) }
{
    if cycles == 0 || cycles > 1024 {
        return Err(RunRefusal::BadCycles);
    }
    if let Some(place) = other_script(cluster, scripts, cycles) {
        return Err(RunRefusal::BadScript(place));
    }
    if let Some(place) = other_fault(cluster, faults, cycles) {
        return Err(RunRefusal::BadFault(place));
    }
    if let Some(node) = full_node(cluster, scripts, cycles) {
        return Err(RunRefusal::NoRoom(node));
    }
    Ok(())
}
