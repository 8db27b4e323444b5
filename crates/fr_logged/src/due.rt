//! What a cluster allows in a slot on a channel in a cycle.

ghost use Rattle.std.specs.Prelude.{◌≡◌, None};
ghost use Rattle.fr_logged.specs.Dues.{due_of, line_in, buffer_in, preamble_of, is_both};
ghost use Rattle.fr_logged.specs.Dues.{is_for_both, static_due, dynamic_due, owner_or, sender_or, due_from};
ghost use Rattle.fr_slots.specs.Faults.{sends_at};

use fr_schedule::cluster::Cluster;
use fr_slots::channel::{Channel, Channels};
use fr_slots::numbers::{Cycle, NodeId, SlotId};
use fr_slots::params::Params;
use fr_slots::plan::{Buffer, NodePlan, Own};

/// What may be sent in a slot.
#[derive(Clone, Copy)]
pub struct Due {
    /// The owner of a static slot, or the sender of a dynamic one.
    pub node: u8,
    /// The sync frame indicator.
    pub sync: bool,
    /// The startup frame indicator.
    pub startup: bool,
    /// The payload length in two-byte words.
    pub words: u16,
    /// The payload preamble indicator of the transmit buffer, if one may send data frames here.
    pub preamble: Option<bool>,
    /// The transmit buffer is for both channels.
    pub both: bool,
    /// The last minislot at which the sender begins in the dynamic segment, 0 in a static slot.
    pub latest: u16,
}

/// Returns the ownership line of a node for the slot.
fn line_in(slot: SlotId, channel: Channel, cycle: Cycle, plan: &NodePlan) -> Option<Own>
    ensures { result ≡ line_in slot channel cycle plan.now }
{
    let owned = plan.owned();
    for own in owned {
        if own.claims(cycle, slot, channel) {
            return Some(*own);
        }
    }
    None
}

/// Returns whether a buffer is a transmit buffer that admits the slot.
fn sends_at(slot: SlotId, channel: Channel, cycle: Cycle, buffer: &Buffer) -> bool
    ensures { result ≡ sends_at slot channel cycle buffer.now }
{
    buffer.transmits() && buffer.filter.admits(cycle, slot, channel)
}

/// Returns the transmit buffer of a node for the slot.
fn buffer_in(slot: SlotId, channel: Channel, cycle: Cycle, plan: &NodePlan) -> Option<Buffer>
    ensures { result ≡ buffer_in slot channel cycle plan.now }
{
    let buffers = plan.buffers();
    for buffer in buffers {
        if sends_at(slot, channel, cycle, buffer) {
            return Some(*buffer);
        }
    }
    None
}

/// Returns the payload preamble indicator of a buffer that a host task can commit to.
fn preamble_of(plan: &NodePlan, buffer: &Option<Buffer>) -> Option<bool>
    ensures { result ≡ preamble_of plan.now buffer.now }
{
    match buffer {
        Some(buffer) if plan.tasks() != 0 => Some(buffer.preamble),
        _ => None,
    }
}

/// Returns whether these are both channels.
fn is_both(channels: Channels) -> bool
    ensures { result ≡ is_both channels }
{
    match channels {
        Channels::A | Channels::B => false,
        Channels::Both => true,
    }
}

/// Returns whether a buffer is for both channels.
fn is_for_both(buffer: &Option<Buffer>) -> bool
    ensures { result ≡ is_for_both buffer.now }
{
    match buffer {
        Some(buffer) => is_both(buffer.filter.channels),
        None => false,
    }
}

/// Returns what the owner of a static slot may send there.
fn static_due(params: &Params, node: u8, plan: &NodePlan, own: &Own, buffer: &Option<Buffer>) -> Due
    ensures { result ≡ static_due params.now node plan.now own.now buffer.now }
{
    Due {
        node,
        sync: own.sync,
        startup: own.startup,
        words: params.static_words,
        preamble: preamble_of(plan, buffer),
        both: is_for_both(buffer),
        latest: 0,
    }
}

/// Returns what the node that owns a static slot may send there.
fn owner_due(
    params: &Params,
    node: u8,
    plan: &NodePlan,
    slot: SlotId,
    channel: Channel,
    cycle: Cycle,
) -> Option<Due>
    ensures { result ≡ owner_or params.now node plan.now (line_in slot channel cycle plan.now)
        (buffer_in slot channel cycle plan.now) None }
{
    let own = line_in(slot, channel, cycle, plan)?;
    let buffer = buffer_in(slot, channel, cycle, plan);
    Some(static_due(params, node, plan, &own, &buffer))
}

/// Returns what the sender of a dynamic slot may send there.
fn dynamic_due(
    params: &Params,
    channel: Channel,
    node: u8,
    plan: &NodePlan,
    buffer: &Buffer,
) -> Option<Due>
    ensures { result ≡ dynamic_due params.now channel node plan.now buffer.now }
{
    if plan.tasks() == 0 {
        return None;
    }
    Some(Due {
        node,
        sync: false,
        startup: false,
        words: buffer.words(params),
        preamble: Some(buffer.preamble),
        both: false,
        latest: plan.latest(channel),
    })
}

/// Returns what the node that sends in a dynamic slot may send there.
fn sender_due(
    params: &Params,
    node: u8,
    plan: &NodePlan,
    slot: SlotId,
    channel: Channel,
    cycle: Cycle,
) -> Option<Due>
    ensures { result ≡ sender_or params.now channel node plan.now (buffer_in slot channel cycle plan.now) None }
{
    let buffer = buffer_in(slot, channel, cycle, plan)?;
    dynamic_due(params, channel, node, plan, &buffer)
}

/// Returns what the sender of the slot may send there.
fn due_from(
    cluster: &Cluster,
    node: NodeId,
    plan: &NodePlan,
    slot: SlotId,
    channel: Channel,
    cycle: Cycle,
) -> Option<Due>
    ensures { result ≡ due_from cluster.now.params node plan.now slot channel cycle }
{
    let params = cluster.params();
    if params.is_static(slot) {
        owner_due(params, node.number(), plan, slot, channel, cycle)
    } else {
        sender_due(params, node.number(), plan, slot, channel, cycle)
    }
}

/// Returns what may be sent in the slot on the channel in the cycle, if anything.
#[tactic(auto, using(crate::proofs::SenderLemmas::due_somebody))]
pub fn due_of(cluster: &Cluster, slot: SlotId, channel: Channel, cycle: Cycle) -> Option<Due>
    ensures { result ≡ due_of cluster.now slot channel cycle }
{
    // The table of senders has the node, so that only its own plan is searched.
    let node = cluster.sender(cycle, slot, channel)?;
    let plan = cluster.node(node)?;
    due_from(cluster, node, plan, slot, channel, cycle)
}
