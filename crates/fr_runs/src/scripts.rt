//! The check of scripts against a cluster.

ghost use Rattle.std.specs.Prelude.{◌≡◌, ◌↔◌, IsTrue, slice_get, option_map};
ghost use Rattle.std.specs.List.{list_all};
ghost use Rattle.std.specs.Option.{option_copied};
ghost use Rattle.fr_core.specs.Walks.{Finds};
ghost use Rattle.fr_runs.specs.Suiting.{sends, is_transmit, receives, call_suits, line_suits, AreInOrder, SuitsPlan};
ghost use Rattle.fr_runs.specs.Suiting.{SuitsNode, IsScriptAfter, ScriptSuits};

use fr_core::script::{Line, Script, has_script};
use fr_frame::payload::Payload;
use fr_interface::call::Call;
use fr_schedule::cluster::Cluster;
use fr_slots::params::Params;
use fr_slots::plan::{Buffer, NodePlan};

/// Returns whether the buffer exists, transmits, and sends payloads of this length.
fn sends(params: &Params, payload: &Payload, buffer: Option<Buffer>) -> bool
    ensures { result ≡ sends params.now payload.now buffer }
{
    match buffer {
        Some(buffer) => {
            buffer.transmits() && payload.as_slice().len() == 2 * usize::from(buffer.words(params))
        }
        None => false,
    }
}

/// Returns whether the buffer exists and transmits.
fn is_transmit(buffer: Option<Buffer>) -> bool
    ensures { result ≡ is_transmit buffer }
{
    match buffer {
        Some(buffer) => buffer.transmits(),
        None => false,
    }
}

/// Returns whether the buffer exists and receives.
fn receives(buffer: Option<Buffer>) -> bool
    ensures { result ≡ receives buffer }
{
    match buffer {
        Some(buffer) => buffer.mode.is_receive(),
        None => false,
    }
}

/// Returns whether the node has the buffer or receive FIFO that the call needs.
fn call_suits(params: &Params, plan: &NodePlan, call: &Call) -> bool
    ensures { result ≡ call_suits params.now plan.now call.now }
{
    match call {
        Call::Commit { buffer, payload } => sends(params, payload, plan.buffer(*buffer)),
        Call::Withdraw { buffer } => is_transmit(plan.buffer(*buffer)),
        Call::Read { buffer } => receives(plan.buffer(*buffer)),
        Call::Pop => plan.queue().is_some(),
    }
}

/// Returns whether the run has the line's cycle, and the node fits the line's call.
fn line_suits(params: &Params, plan: &NodePlan, cycles: u16, line: &Line) -> bool
    ensures { result ≡ line_suits params.now plan.now cycles line.now }
{
    line.cycle < cycles && call_suits(params, plan, &line.action)
}

/// Returns whether all lines fit the node and the run.
fn lines_suit(params: &Params, plan: &NodePlan, cycles: u16, lines: &[Line]) -> bool
    ensures { result ≡ list_all (line_suits params.now plan.now cycles) lines.now }
{
    lines
        .iter()
        .all(|line| line_suits(params, plan, cycles, line))
}

/// Returns whether each line's cycle is at least that of the line before it.
fn are_in_order(lines: &[Line]) -> bool
    ensures { IsTrue result ↔ AreInOrder lines.now }
{
    lines.is_sorted_by_key(|line| line.cycle)
}

/// Returns whether the node has the script's task, and the lines fit the node.
fn suits_plan(params: &Params, cycles: u16, script: &Script, plan: &NodePlan) -> bool
    ensures { IsTrue result ↔ SuitsPlan params.now cycles script.now plan.now }
{
    let lines = script.lines.as_slice();
    script.task.number() < plan.tasks()
        && lines_suit(params, plan, cycles, lines)
        && are_in_order(lines)
}

/// Returns whether the cluster has the script's node, and the script fits it.
fn suits_node(params: &Params, cycles: u16, script: &Script, plan: Option<&NodePlan>) -> bool
    ensures { IsTrue result ↔ SuitsNode params.now cycles script.now (option_map (λ plan. plan.now) plan.entry) }
{
    match plan {
        Some(plan) => suits_plan(params, cycles, script, plan),
        None => false,
    }
}

/// Returns whether the script fits the cluster, and no earlier one is for the same task.
fn suits_after(cluster: &Cluster, cycles: u16, before: &[Script], script: &Script) -> bool
    ensures { IsTrue result ↔ IsScriptAfter cluster.now cycles before.now script.now }
{
    suits_node(cluster.params(), cycles, script, cluster.node(script.node))
        && !has_script(before, script.node, script.task)
}

/// Returns the first script that doesn't fit.
pub(crate) fn other_script(cluster: &Cluster, scripts: &[Script], cycles: u16) -> Option<usize>
    ensures { Finds (ScriptSuits cluster.now cycles scripts.now) result }
{
    for (place, script) in scripts.iter().enumerate() {
        if !suits_after(cluster, cycles, &scripts[..place], script) {
            return Some(place);
        }
    }
    None
}
