//! The cross-check of a cluster, interfaces, a record and scripts.

ghost use Rattle.std.specs.Prelude.{◌≡◌, ◌↔◌, ◌<◌, ◌+◌, true, IsTrue, IfSome, OnOk, length, slice_get, option_map};
ghost use Rattle.std.specs.List.{list_all};
ghost use Rattle.fr_bus.specs.States.{OneSenderEach};
ghost use Rattle.fr_core.specs.Accounts.{IsHarmless};
ghost use Rattle.fr_core.specs.Receivers.{Receivers};
ghost use Rattle.fr_core.specs.Settling.{ArePlanned, PlansAgree, WindowsAgree, IsFatedAt, is_due, is_right, are_right};
ghost use Rattle.fr_core.specs.Settling.{Settles, EachFollows, IsBetweenWindows, DiffersInScriptsAlone};
ghost use Rattle.fr_core.specs.Walks.{Finds, FindsNext, FindsPlace, FindsLeast, AreDifferences};
ghost use Rattle.fr_core.specs.Walks.{AreFirstFindings, earlier, found_or, lesser_node, or_lesser};
ghost use Rattle.fr_slots.specs.Numbers.{last_node};

use crate::legal;
use crate::script::Script;
use crate::walk::{Findings, entries_of, find_in_threads, found_at, interface_at};
use fr_bus::bus::Bus;
use fr_bus::outcome::{Sealed, Sent, SentFate};
use fr_guardian::guardian::Guardian;
use fr_interface::interface::Interface;
use fr_schedule::cluster::Cluster;
use fr_slots::numbers::{NODES, NodeId, TaskId};
use fr_slots::params::Params;
use fr_slots::plan::NodePlan;
use fr_slots::window::Window;
use std::alloc::Global;
use std::thread::Threads;
use thiserror::Error;

/// The result of a cross-check in which everything agrees.
#[derive(Clone, Copy, PartialEq, Eq)]
pub struct Settled {
    /// The number of windows of the record.
    pub windows: u32,
}

/// Reasons for a cross-check to fail: the first difference, and its place (project-defined).
#[derive(Clone, Copy, Debug, PartialEq, Eq, Error)]
pub enum SettleError {
    /// A different plan, at this index of interfaces and nodes. The interface doesn't have the cluster's parameters and
    /// the node's plan, or only one of interface and node exists. The index may be the number after the last node.
    #[error("PlanDiffers {0}")]
    PlanDiffers(usize),
    /// A node that fetched or observed other windows than those of the record.
    #[error("WindowsDiffer {0}")]
    WindowsDiffer(NodeId),
    /// A node whose offer in the window of this number differs. It handed other bytes to the bus than the record has
    /// for it, or a transmission of the node has a fate that the cluster's guardians don't give, or the cluster doesn't
    /// have the node.
    #[error("OfferDiffers {0} {1}")]
    OfferDiffers(NodeId, u32),
    /// A node whose observation in the window of this number differs from that of the record.
    #[error("SeenDiffers {0} {1}")]
    SeenDiffers(NodeId, u32),
    /// A task of the node whose executed calls, by the journal, aren't its script.
    #[error("ScriptDiffers {0} {1}")]
    ScriptDiffers(NodeId, TaskId),
    /// An allocation that failed.
    #[error("Memory")]
    Memory,
}

/// The first difference of each kind that a walk along the journals finds. It is that of the first node, and of that
/// node the first place in the record or the first task.
#[derive(Clone, Copy)]
pub(crate) struct Differences {
    /// The node whose windows aren't the record's.
    pub window: Option<NodeId>,
    /// The node and place with an offer that isn't the record's.
    pub offer: Option<(NodeId, usize)>,
    /// The node and place with an observation that isn't the record's.
    pub sight: Option<(NodeId, usize)>,
    /// The node and task with executed calls that aren't its scripts.
    pub script: Option<(NodeId, TaskId)>,
}

/// Returns whether interface and node both exist, with the same parameters and plan, or neither does.
fn are_planned(params: &Params, interface: Option<&Interface>, plan: Option<&NodePlan>) -> bool
    ensures { IsTrue result
        ↔ ArePlanned params.now (option_map (λ i. i.now) interface.entry) (option_map (λ p. p.now) plan.entry) }
{
    match (interface, plan) {
        (Some(interface), Some(plan)) => {
            *interface.params() == *params && interface.plan().is_same(plan)
        }
        (None, None) => true,
        _ => false,
    }
}

/// Returns the plan at this place.
fn plan_at(plans: &[NodePlan], place: usize) -> Option<&NodePlan>
    ensures { option_map (λ plan. plan.now) result ≡ slice_get plans.now place }
{
    plans.get(place)
}

/// Returns the first place at which interface and node don't agree in existence, parameters and plan.
fn other_plan(cluster: &Cluster, interfaces: &[Interface]) -> Option<usize>
    ensures { Finds (PlansAgree cluster.now interfaces.now) result }
{
    let plans = cluster.plans();
    for place in 0..interfaces.len().max(plans.len()) {
        let interface = interface_at(interfaces, place);
        if !are_planned(cluster.params(), interface, plan_at(plans, place)) {
            return Some(place);
        }
    }
    None
}

/// Returns whether the fate is the guardian's, or a mute.
fn is_due(fate: SentFate, let_pass: bool) -> bool
    ensures { result ≡ is_due fate let_pass }
{
    match fate {
        SentFate::Passed => let_pass,
        SentFate::Blocked => !let_pass,
        SentFate::Muted => true,
    }
}

/// Returns whether the transmission is right, if the node sent it.
fn is_right(guardian: &Guardian, node: NodeId, window: &Window, sent: &Sent) -> bool
    ensures { result ≡ is_right guardian.now node window.now sent.now }
{
    sent.node != node
        || (node.number() < guardian.nodes()
            && is_due(sent.fate, guardian.passes(node, window, sent.channel)))
}

/// Returns the lesser of two nodes, one of which may be absent.
fn lesser_node(least: Option<NodeId>, node: NodeId) -> NodeId
    ensures { result ≡ lesser_node least node }
{
    match least {
        Some(least) => {
            if node.number() < least.number() {
                node
            } else {
                least
            }
        }
        None => node,
    }
}

/// Returns the least node with a transmission among these that isn't right.
fn wrong_node(guardian: &Guardian, window: &Window, sent: &[Sent]) -> Option<NodeId>
    ensures { FindsLeast (λ n. list_all (is_right guardian.now n window.now) sent.now ≡ true) result }
{
    let mut least = None;
    for transmission in sent {
        let node = transmission.node;
        if !is_right(guardian, node, window, transmission) {
            least = Some(lesser_node(least, node));
        }
    }
    least
}

/// Returns the least node with a transmission in the window that isn't right.
fn wrong_in(guardian: &Guardian, sealed: &Sealed) -> Option<NodeId>
    ensures { FindsLeast (λ n. are_right guardian.now n sealed.now ≡ true) result }
{
    wrong_node(guardian, &sealed.window, sealed.sent.as_slice())
}

/// Returns the earlier finding, unless the node found at this place is a lesser one.
fn or_lesser(
    found: Option<(NodeId, usize)>,
    here: Option<NodeId>,
    place: usize,
) -> Option<(NodeId, usize)>
    ensures { result ≡ or_lesser found here place }
{
    match (found, here) {
        (found, None) => found,
        (None, Some(here)) => Some((here, place)),
        (Some(found), Some(here)) => {
            if here.number() < found.0.number() {
                Some((here, place))
            } else {
                Some(found)
            }
        }
    }
}

/// Returns the first node with a transmission that isn't right, and its first such place.
fn other_fates(guardian: &Guardian, recorded: &[Sealed]) -> Option<(NodeId, usize)>
    ensures { FindsPlace (IsFatedAt guardian.now recorded.now) result }
{
    let mut found = None;
    for (place, sealed) in recorded.iter().enumerate() {
        found = or_lesser(found, wrong_in(guardian, sealed), place);
    }
    found
}

/// Returns the finding of the lesser node, and for the same node that of the lesser place.
fn earlier(one: Option<(NodeId, usize)>, other: Option<(NodeId, usize)>) -> Option<(NodeId, usize)>
    ensures { result ≡ earlier one other }
{
    match (one, other) {
        (None, other) => other,
        (one, None) => one,
        (Some(one), Some(other)) => {
            let (node, same) = (one.0.number(), other.0.number());
            if same < node || (same == node && other.1 < one.1) {
                Some(other)
            } else {
                Some(one)
            }
        }
    }
}

/// Returns the node, if its windows differ and no node was found before it.
fn or_node(found: Option<NodeId>, node: NodeId, agrees: bool) -> Option<NodeId>
    ensures { FindsNext (IsTrue agrees) node found result }
{
    match found {
        Some(found) => Some(found),
        None => { if agrees { None } else { Some(node) } }
    }
}

/// Returns the node and its place, if it has one and no node was found before it.
fn or_place(
    found: Option<(NodeId, usize)>,
    node: NodeId,
    here: Option<usize>,
) -> Option<(NodeId, usize)>
    ensures { result ≡ found_or found node here }
{
    match (found, here) {
        (Some(found), _) => Some(found),
        (None, Some(here)) => Some((node, here)),
        (None, None) => None,
    }
}

/// Returns the node and its task, if it has one and no node was found before it.
fn or_task(
    found: Option<(NodeId, TaskId)>,
    node: NodeId,
    here: Option<TaskId>,
) -> Option<(NodeId, TaskId)>
    ensures { result ≡ found_or found node here }
{
    match (found, here) {
        (Some(found), _) => Some(found),
        (None, Some(here)) => Some((node, here)),
        (None, None) => None,
    }
}

// Every number that a node can have is tested, since a record may have a transmission of a node outside the cluster.
/// Returns the first difference of each kind. The journals of the first nodes were walked, with the findings `first`;
/// all others are walked here.
fn find_differences(
    params: &Params,
    interfaces: &[Interface],
    recorded: &[Sealed],
    scripts: &[Script],
    first: &[Findings],
) -> Differences
    requires { AreFirstFindings params.now interfaces.now recorded.now scripts.now first.now }
    ensures { AreDifferences params.now interfaces.now recorded.now scripts.now (last_node + 1) result }
{
    let mut all = Differences {
        window: None,
        offer: None,
        sight: None,
        script: None,
    };
    for number in 0..NODES {
        let node = NodeId::from_number(number);
        let found = found_at(first, interfaces, params, node, recorded, scripts);
        all = Differences {
            window: or_node(all.window, node, found.has_windows),
            offer: or_place(all.offer, node, found.offer),
            sight: or_place(all.sight, node, found.sight),
            script: or_task(all.script, node, found.task),
        };
    }
    all
}

/// Returns the number of the window at this place of the record.
fn number_at(recorded: &[Sealed], place: usize) -> u32
    requires { place < length recorded.now }
    ensures { IfSome (slice_get recorded.now place) (λ r. result ≡ r.window.number) }
{
    let sealed = &recorded[place];
    sealed.window.number
}

/// Returns the number of windows of the record. One interface observed all of them.
fn count_windows(interfaces: &[Interface], recorded: &[Sealed]) -> u32
    requires there { 0 < length interfaces.now }
    requires agree { WindowsAgree interfaces.now recorded.now 0 }
    ensures { result ≡ length recorded.now }
{
    let Some(interface) = interface_at(interfaces, 0) else {
        unreachable!();
    };
    // For the prover: the clause of this call.
    let _entries = entries_of(interface);
    recorded.len() as u32
}

/// Cross-checks everything, given the findings of the first nodes.
fn judge(
    alloc: Global,
    cluster: &Cluster,
    interfaces: &[Interface],
    recorded: &[Sealed],
    scripts: &[Script],
    first: &[Findings],
) -> Result<Settled, SettleError>
    requires { AreFirstFindings cluster.now.params interfaces.now recorded.now scripts.now first.now }
    ensures { Settles cluster.now interfaces.now recorded.now scripts.now result }
{
    if let Some(place) = other_plan(cluster, interfaces) {
        return Err(SettleError::PlanDiffers(place));
    }
    let Differences {
        window,
        offer,
        sight,
        script,
    } = find_differences(cluster.params(), interfaces, recorded, scripts, first);
    if let Some(node) = window {
        return Err(SettleError::WindowsDiffer(node));
    }
    let Ok(guardian) = Guardian::new(alloc, cluster) else {
        return Err(SettleError::Memory);
    };
    if let Some(found) = earlier(offer, other_fates(&guardian, recorded)) {
        let number = number_at(recorded, found.1);
        return Err(SettleError::OfferDiffers(found.0, number));
    }
    if let Some(found) = sight {
        let number = number_at(recorded, found.1);
        return Err(SettleError::SeenDiffers(found.0, number));
    }
    if let Some(found) = script {
        return Err(SettleError::ScriptDiffers(found.0, found.1));
    }
    // For the prover: the clause of this call.
    let _params = cluster.params();
    let windows = count_windows(interfaces, recorded);
    Ok(Settled { windows })
}

/// Does the same as `settle`, given the findings of the first nodes.
fn settle_beside(
    alloc: Global,
    cluster: &Cluster,
    interfaces: &[Interface],
    bus: &Bus,
    scripts: &[Script],
    first: &[Findings],
) -> Result<Settled, SettleError>
    requires { AreFirstFindings cluster.now.params interfaces.now bus.now.sealed scripts.now first.now }
    ensures answer { Settles cluster.now interfaces.now bus.now.sealed scripts.now result }
    ensures follows { OnOk result (EachFollows cluster.now.params interfaces.now bus.now.sealed) }
    ensures one_sender { OnOk result (OneSenderEach cluster.now bus.now.sealed) }
    ensures receivers { OnOk result (Receivers cluster.now interfaces.now bus.now.sealed) }
    ensures harmless { OnOk result (bus.now.cluster ≡ cluster.now
        → IsHarmless cluster.now interfaces.now bus.now.sealed) }
    ensures between { IsBetweenWindows cluster.now interfaces.now bus.now → DiffersInScriptsAlone result }
{
    // The clauses on senders and receivers hold for any bus, since a lock can't return the bus that was put in it.
    let recorded = bus.record();
    let answer = judge(alloc, cluster, interfaces, recorded, scripts, first);
    // For the prover: the clauses of these calls.
    let _params = cluster.params();
    legal::known(interfaces);
    answer
}

/// Cross-checks a cluster, its nodes' interfaces, the scripts and the record (project-defined).
///
/// Each of these is tested for all nodes before the next. A failure names the least node, and of that node the first
/// window or the least task.
///
/// - `PlanDiffers`: each interface has the cluster's parameters and the plan of the node at its place, and there are as
///   many interfaces as nodes.
/// - `WindowsDiffer`: the windows that a node fetched, and those that it observed, are the record's.
/// - `OfferDiffers`: in each window, the record has the offers that the node's journal handed to the bus. The fate of
///   each of the node's transmissions is a mute, or the one that the cluster's guardians give. There is no transmission
///   of a node that the cluster doesn't have.
/// - `SeenDiffers`: a node's observation in each window is the one that the record gives.
/// - `ScriptDiffers`: a task's executed calls, by the journal, are the lines of each script for it, in any cycle, with
///   the answers of these lines. A task without a script executed none.
///
/// A failed allocation may give `Memory` in place of the last three and of the number of windows. A world between two
/// windows agrees with its own cluster, interfaces and bus, except for the scripts.
///
/// If everything agrees, each static slot of a channel that the cluster guards carries at most one sender in the
/// record. A frame from a fault-free slot, in a receive buffer or a receive FIFO, is one that the slot's owner in that
/// cycle committed and handed to the bus. Both hold for a bus that was made with any cluster. If the bus was made for
/// this one, babbling nodes are harmless in guarded static slots.
pub fn settle(
    alloc: Global,
    cluster: &Cluster,
    interfaces: &[Interface],
    bus: &Bus,
    scripts: &[Script],
) -> Result<Settled, SettleError>
    ensures answer { Settles cluster.now interfaces.now bus.now.sealed scripts.now result }
    ensures follows { OnOk result (EachFollows cluster.now.params interfaces.now bus.now.sealed) }
    ensures one_sender { OnOk result (OneSenderEach cluster.now bus.now.sealed) }
    ensures receivers { OnOk result (Receivers cluster.now interfaces.now bus.now.sealed) }
    ensures harmless { OnOk result (bus.now.cluster ≡ cluster.now
        → IsHarmless cluster.now interfaces.now bus.now.sealed) }
    ensures between { IsBetweenWindows cluster.now interfaces.now bus.now → DiffersInScriptsAlone result }
{
    settle_beside(alloc, cluster, interfaces, bus, scripts, &[])
}

/// Does the same as `settle`, in as many threads as there are cores (project-defined). If threads can't be made, or the
/// allocation of their findings fails, the journals are walked one after another. The answer is the same.
pub fn settle_in_threads<R: Threads + Sync>(
    rt: &R,
    alloc: Global,
    cluster: &Cluster,
    interfaces: &[Interface],
    bus: &Bus,
    scripts: &[Script],
) -> Result<Settled, SettleError>
    ensures answer { Settles cluster.now interfaces.now bus.now.sealed scripts.now result }
    ensures follows { OnOk result (EachFollows cluster.now.params interfaces.now bus.now.sealed) }
    ensures one_sender { OnOk result (OneSenderEach cluster.now bus.now.sealed) }
    ensures receivers { OnOk result (Receivers cluster.now interfaces.now bus.now.sealed) }
    ensures harmless { OnOk result (bus.now.cluster ≡ cluster.now
        → IsHarmless cluster.now interfaces.now bus.now.sealed) }
    ensures between { IsBetweenWindows cluster.now interfaces.now bus.now → DiffersInScriptsAlone result }
{
    // A thread for each node took longer than a short walk, so there are as many threads as cores.
    let first = find_in_threads(
        rt,
        alloc,
        interfaces,
        cluster.params(),
        bus.record(),
        scripts,
    );
    settle_beside(alloc, cluster, interfaces, bus, scripts, first.as_slice())
}
