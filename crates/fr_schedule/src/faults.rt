//! The faults among the nodes of a cluster file.

ghost use Rattle.std.specs.Prelude.{◌≡◌, ◌≤◌, length, option_map};
ghost use Rattle.fr_schedule.specs.FileFaults.{all_owned, all_buffers, first_by, file_fault};
ghost use Rattle.fr_schedule.specs.FileFaults.{not_owned_in, dynamic_both_in, too_long_in};
ghost use Rattle.fr_schedule.specs.RuleFaults.{fault_by, overlap_fault};
ghost use Rattle.fr_slots.specs.Faults.{is_overlap};
ghost use Rattle.fr_slots.specs.Sharing.{IsFirst};

use crate::error::ConfigError;
use fr_slots::numbers::NodeId;
use fr_slots::params::Params;
use fr_slots::plan::NodePlan;
use fr_slots::sharing::Occasion;

/// A rule that each transmit buffer follows by itself.
#[derive(Clone, Copy, PartialEq, Eq)]
pub(crate) enum Rule {
    /// A static buffer's node owns the slot on the buffer's channels in the buffer's cycles (chapter 5).
    Owned,
    /// A dynamic buffer is for one channel (project-defined).
    OneChannel,
    /// A dynamic buffer's frame ends within the dynamic segment, even from pLatestTx on (project-defined).
    EndsInTime,
}

/// Returns the fault of the first occasion that two ownership lines or two transmit buffers share.
fn overlap_fault(overlap: Option<Occasion>) -> Option<ConfigError>
    ensures { result ≡ option_map overlap_fault overlap }
{
    let shared = overlap?;
    Some(ConfigError::Overlap(shared.slot, shared.channel, shared.cycle))
}

/// Returns the fault of the node's first static buffer whose slot isn't owned. A channel of the buffer and a cycle that
/// it admits are enough.
fn not_owned_in(params: &Params, node: NodeId, plan: &NodePlan) -> Option<ConfigError>
    ensures { result ≡ not_owned_in params.now node plan.now }
{
    let number = plan.first_not_owned(params)?;
    Some(ConfigError::NotOwned(node, number))
}

/// Returns the fault of the node's first dynamic buffer for both channels.
fn dynamic_both_in(params: &Params, node: NodeId, plan: &NodePlan) -> Option<ConfigError>
    ensures { result ≡ dynamic_both_in params.now node plan.now }
{
    let number = plan.first_dynamic_both(params)?;
    Some(ConfigError::DynamicBoth(node, number))
}

/// Returns the fault of the node's first dynamic buffer whose frame would end too late.
fn too_long_in(params: &Params, node: NodeId, plan: &NodePlan) -> Option<ConfigError>
    ensures { result ≡ too_long_in params.now node plan.now }
{
    let number = plan.first_too_long(params)?;
    Some(ConfigError::TooLong(node, number))
}

/// Returns the fault of the node's first buffer that breaks the rule.
fn fault_by(rule: Rule, params: &Params, node: NodeId, plan: &NodePlan) -> Option<ConfigError>
    ensures { result ≡ fault_by rule params.now node plan.now }
{
    match rule {
        Rule::Owned => not_owned_in(params, node, plan),
        Rule::OneChannel => dynamic_both_in(params, node, plan),
        Rule::EndsInTime => too_long_in(params, node, plan),
    }
}

/// Returns the fault of the first buffer, in the order of nodes, that breaks the rule.
fn first_by(rule: Rule, params: &Params, plans: &[NodePlan]) -> Option<ConfigError>
    requires { length plans.now ≤ 16 }
    ensures { result ≡ first_by (fault_by rule params.now) plans.now }
{
    for (number, plan) in plans.iter().enumerate() {
        if let Some(fault) = fault_by(rule, params, NodeId::from_number(number as u8), plan) {
            return Some(fault);
        }
    }
    None
}

/// Returns the first fault of the file. Each kind is looked for in all nodes before the next. Of a kind, the first in
/// the order of its numbers is named, channel A before B. `overlap` is the first occasion of two ownership lines or two
/// transmit buffers.
#[tactic(auto, using(crate::proofs::FilterLemmas::overlap_is), unfolding(crate::specs::FileFaults::file_fault))]
pub(crate) fn file_fault(
    params: &Params,
    plans: &[NodePlan],
    overlap: Option<Occasion>,
) -> Option<ConfigError>
    requires few { length plans.now ≤ 16 }
    requires first { IsFirst (is_overlap (all_owned plans.now) (all_buffers plans.now)) overlap }
    ensures { result ≡ file_fault params.now plans.now }
{
    first_by(Rule::Owned, params, plans)
        .or_else(|| first_by(Rule::OneChannel, params, plans))
        .or_else(|| overlap_fault(overlap))
        .or_else(|| first_by(Rule::EndsInTime, params, plans))
}
