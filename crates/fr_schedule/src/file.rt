//! Reading the table of a cluster file, before its nodes are compared.

ghost use Rattle.std.specs.Prelude.{◌≡◌, ◌≤◌, ◌<◌, [], true, None, Ok, Err, length, map, option_map, ok_or};
ghost use Rattle.std.specs.Prelude.{IfSome, IfOk, IfErr};
ghost use Rattle.fr_params.specs.Table.{parameters_in};
ghost use Rattle.fr_schedule.specs.declared.error.ConfigError.TheVariants as error;
ghost use Rattle.fr_schedule.specs.Files.{params_table, params_in, guard_named, guard_in, nodes_in, each_of};
ghost use Rattle.fr_schedule.specs.Files.{buffer_read, with_buffers_of, plan_of};
ghost use Rattle.fr_slots.specs.Numbers.{most_lines};
ghost use Rattle.fr_slots.specs.Parameters.{IsParameters};
ghost use Rattle.fr_slots.specs.Plans.{buffer_fits, IsPlan, Each};
ghost use Rattle.toml.specs.View.{view, table_view};

use crate::error::ConfigError;
use crate::node::{buffer_of, head_in};
use crate::table::{array_in, channels_named, tables_at};
use fr_params::table::{from_table, value_under};
use fr_slots::channel::Channels;
use fr_slots::numbers::{NODES, NodeId};
use fr_slots::params::Params;
use fr_slots::plan::{Buffer, NodePlan};
use std::alloc::Global;
use toml::{Table, Value};

/// The greatest number of nodes of a cluster (project-defined).
const MOST_NODES: usize = NODES as usize;

/// Returns the table `params`, if there is one.
fn params_table(root: &Table) -> Option<&Table>
    ensures { option_map (λ table. table_view table.now) result ≡ params_table (table_view root.now) }
{
    match value_under(root, "params") {
        Some(value) => value.as_table(),
        None => None,
    }
}

/// Returns the parameters. If there is no table `params`, its first key is missing.
#[tactic(auto, unfolding(crate::specs::Files::params_in))]
pub(crate) fn params_in(alloc: Global, root: &Table) -> Result<Params, ConfigError>
    ensures value { result ≡ params_in (table_view root.now) }
    ensures lawful { IfOk result IsParameters }
{
    let outcome = match params_table(root) {
        Some(table) => from_table(table),
        None => from_table(&Table::new(alloc)),
    };
    match outcome {
        Ok(params) => Ok(params),
        Err(error) => Err(ConfigError::Params(error)),
    }
}

/// Returns the guarded channels of this name.
fn guard_named(word: &str) -> Option<Option<Channels>>
    ensures { result ≡ guard_named word.now }
{
    if word == "none" {
        return Some(None);
    }
    let channels = channels_named(word)?;
    Some(Some(channels))
}

/// Returns the guarded channels under the key `guard` of a cluster file's table: both if there is no such key, and none
/// for the word `none` (project-defined).
///
/// Fails with `BadGuard` for another value than the words `A`, `B`, `AB` and `none`.
#[tactic(auto, unfolding(crate::specs::Files::guard_in))]
pub fn guard_in(root: &Table) -> Result<Option<Channels>, ConfigError>
    ensures { result ≡ guard_in (table_view root.now) }
{
    let Some(value) = value_under(root, "guard") else {
        return Ok(Some(Channels::Both));
    };
    let Some(word) = value.as_str() else {
        return Err(ConfigError::BadGuard);
    };
    guard_named(word).ok_or(ConfigError::BadGuard)
}

/// Returns the values of the nodes, 1 to 16.
#[tactic(auto, unfolding(crate::specs::Files::nodes_in))]
pub(crate) fn nodes_in(root: &Table) -> Option<&[Value]>
    ensures value { option_map (λ values. map view values.now) result ≡ nodes_in (table_view root.now) }
    ensures some { IfSome result (λ values. 1 ≤ length values.now) }
    ensures few { IfSome result (λ values. length values.now ≤ 16) }
{
    let value = value_under(root, "node")?;
    let values = array_in(value)?;
    if 1 <= values.len() && values.len() <= MOST_NODES {
        Some(values)
    } else {
        None
    }
}

/// Returns the buffer in the value.
fn buffer_read(
    params: &Params,
    node: NodeId,
    number: u8,
    value: &Value,
) -> Result<Buffer, ConfigError>
    ensures value { result ≡ buffer_read params.now node number (view value.now) }
    ensures fits { IfOk result (λ buffer. buffer_fits buffer ≡ true) }
{
    match buffer_of(params, value) {
        Some(buffer) => Ok(buffer),
        None => Err(ConfigError::BadBuffer(node, number)),
    }
}

/// Returns the plan with the buffers in the values.
fn with_buffers_of(
    params: &Params,
    node: NodeId,
    values: &[Value],
    plan: NodePlan,
) -> Result<NodePlan, ConfigError>
    requires few { length values.now ≤ most_lines }
    requires none_yet { plan.buffers ≡ [] }
    ensures { result ≡ with_buffers_of params.now node (map view values.now) plan }
{
    let mut plan = plan;
    for (number, value) in values.iter().enumerate() {
        let buffer = buffer_read(params, node, number as u8, value)?;
        if plan.add_buffer(buffer).is_err() {
            return Err(ConfigError::BadBuffer(node, number as u8));
        }
    }
    Ok(plan)
}

/// Returns the plan of a node.
#[tactic(auto, unfolding(crate::specs::Files::plan_of))]
fn plan_read(params: &Params, node: NodeId, value: &Value) -> Result<NodePlan, ConfigError>
    ensures { result ≡ plan_of params.now node (view value.now) }
{
    let Some(table) = value.as_table() else {
        return Err(ConfigError::BadNode(node));
    };
    let Some(plan) = head_in(params, table) else {
        return Err(ConfigError::BadNode(node));
    };
    // An element that isn't a table is a fault of its node, before any buffer is read: `buffer` then isn't an array of
    // tables.
    let Some(buffers) = tables_at(table, "buffer") else {
        return Err(ConfigError::BadNode(node));
    };
    with_buffers_of(params, node, buffers, plan)
}

/// Returns the plan of the node in an element of the array `node` of a cluster file (project-defined).
///
/// Fails with `BadNode` if the node's table is at fault, and then with `BadBuffer` for its first buffer at fault.
pub fn plan_of(params: &Params, node: NodeId, value: &Value) -> Result<NodePlan, ConfigError>
    ensures value { result ≡ plan_of params.now node (view value.now) }
    ensures lawful { IfOk result IsPlan }
{
    let plan = plan_read(params, node, value)?;
    // For the prover: the clause of this call.
    let _tasks = plan.tasks();
    Ok(plan)
}

/// Returns the plans of the nodes.
pub(crate) fn plans_of(
    alloc: Global,
    params: &Params,
    values: &[Value],
) -> Result<Vec<NodePlan>, ConfigError>
    requires { length values.now ≤ 16 }
    ensures plans { IfOk result (λ plans. each_of (plan_of params.now) 0 (map view values.now) ≡ Ok plans.items) }
    ensures lawful { IfOk result (λ plans. Each IsPlan plans.items) }
    ensures refused { IfErr result (λ e. ¬ (e ≡ error.Memory)
        → each_of (plan_of params.now) 0 (map view values.now) ≡ Err e) }
{
    // Each node is read completely before the next, and nodes are compared only after that.
    let mut plans = Vec::new(alloc);
    for (number, value) in values.iter().enumerate() {
        let plan = plan_of(params, NodeId::from_number(number as u8), value)?;
        if plans.push(plan).is_err() {
            return Err(ConfigError::Memory);
        }
    }
    Ok(plans)
}
