//! The links of a cluster: who sends in each slot on each channel, and in which cycles.

ghost use Rattle.std.specs.Prelude.{◌≡◌, ◌++◌, ◌<◌, ◌&&◌, ◌==◌, Some, slice_get, IfOk, OnOk};
ghost use Rattle.std.specs.List.{flat_map};
ghost use Rattle.fr_schedule.specs.Clusters.{IsCluster};
ghost use Rattle.fr_slots.specs.Numbers.{cycle_count};
ghost use Rattle.fr_slots.specs.Plans.{IsPlan};
ghost use Rattle.fr_links.specs.Links.{base_links, begun_links, buffer_links, channel_links, dynamic_link, fills};
ghost use Rattle.fr_links.specs.Links.{dynamic_links, filled_links, link_of, links, node_links, node_owners, null_link};
ghost use Rattle.fr_links.specs.Links.{numbered, owner_if, owners, plan_links, slot_links, static_links};

use crate::cycles::shared;
use fr_schedule::cluster::Cluster;
use fr_slots::channel::Channel;
use fr_slots::filter::CycleFilter;
use fr_slots::numbers::{CYCLES, Cycle, SlotId};
use fr_slots::params::Params;
use fr_slots::plan::{Buffer, NodePlan, Own};
use std::alloc::{AllocError, Global};

/// A sender of a slot on a channel (project-defined).
///
/// In a dynamic slot it is a transmit buffer. In a static slot it is an ownership line with a transmit buffer of its
/// node that fills the slot in some of the line's cycles. If the line has none, its node sends null frames.
#[derive(Clone, Copy)]
pub struct Link {
    /// The slot, 1 to 2047.
    pub slot: SlotId,
    /// The channel.
    pub channel: Channel,
    /// The number of the sending node.
    pub node: usize,
    /// The number of its transmit buffer, or `None` if it sends null frames.
    pub buffer: Option<usize>,
    /// The cycles in which it sends.
    pub cycles: CycleFilter,
    /// The payload of its frames in two-byte words, 0 to 127.
    pub words: u16,
}

/// An ownership line for a slot on a channel (project-defined).
#[derive(Clone, Copy)]
pub struct Owner {
    /// The number of the node.
    pub node: usize,
    /// The cycles in which it owns the slot.
    pub cycles: CycleFilter,
}

/// A slot on a channel.
#[derive(Clone, Copy)]
struct Place {
    slot: SlotId,
    channel: Channel,
}

// ---- static slots

/// Appends the ownership line, if it is for the slot on the channel.
fn push_owner(
    owners: &mut Vec<Owner>,
    place: &Place,
    node: usize,
    own: &Own,
) -> Result<(), AllocError>
    ensures { OnOk result
        (owners.new.items ≡ owners.old.items ++ owner_if place.now.slot place.now.channel node own.now) }
{
    if own.slot == place.slot && own.channels.includes(place.channel) {
        owners.push(Owner {
            node,
            cycles: own.cycles,
        })?;
    }
    Ok(())
}

/// Appends the ownership lines of a node for the slot on the channel.
fn push_owners(
    owners: &mut Vec<Owner>,
    place: &Place,
    node: usize,
    owned: &[Own],
) -> Result<(), AllocError>
    ensures { OnOk result
        (owners.new.items ≡ owners.old.items ++ flat_map (owner_if place.now.slot place.now.channel node) owned.now) }
{
    for own in owned {
        push_owner(owners, place, node, own)?;
    }
    Ok(())
}

/// Returns the ownership lines of all nodes for the slot on the channel, in the order of nodes and lines.
fn owners_of(alloc: Global, plans: &[NodePlan], place: &Place) -> Result<Vec<Owner>, AllocError>
    ensures { IfOk result (λ found. found.items ≡ owners plans.now place.now.slot place.now.channel) }
{
    let mut owners = Vec::new(alloc);
    for (node, plan) in plans.iter().enumerate() {
        push_owners(&mut owners, place, node, plan.owned())?;
    }
    Ok(owners)
}

/// Returns whether this is a transmit buffer for the slot on the channel.
fn fills(place: &Place, buffer: &Buffer) -> bool
    ensures { result ≡ fills place.now.slot place.now.channel buffer.now }
{
    buffer.transmits()
        && buffer.filter.slot == place.slot
        && buffer.filter.channels.includes(place.channel)
}

/// Returns the link of a transmit buffer that sends on the channel in these cycles.
fn link_of(
    params: &Params,
    channel: Channel,
    node: usize,
    number: usize,
    buffer: &Buffer,
    cycles: CycleFilter,
) -> Link
    ensures { result ≡ link_of params.now channel node number buffer.now cycles }
{
    Link {
        slot: buffer.filter.slot,
        channel,
        node,
        buffer: Some(number),
        cycles,
        words: buffer.words(params),
    }
}

/// Appends the link of a buffer of the owner, if it fills the slot in some of the owner's cycles.
fn push_filled(
    links: &mut Vec<Link>,
    params: &Params,
    place: &Place,
    owner: &Owner,
    number: usize,
    buffer: &Buffer,
) -> Result<(), AllocError>
    ensures { OnOk result
        (links.new.items
        ≡ links.old.items ++ filled_links params.now place.now.slot place.now.channel owner.now number buffer.now) }
{
    if !fills(place, buffer) {
        return Ok(());
    }
    match shared(&owner.cycles, &buffer.filter.cycles) {
        Some(cycles) => {
            let (node, channel) = (owner.node, place.channel);
            links.push(link_of(params, channel, node, number, buffer, cycles))?;
            Ok(())
        }
        None => Ok(()),
    }
}

/// Appends the links of the owner's buffers that fill the slot.
fn push_buffers(
    links: &mut Vec<Link>,
    params: &Params,
    place: &Place,
    owner: &Owner,
    buffers: &[Buffer],
) -> Result<(), AllocError>
    ensures { OnOk result
        (links.new.items ≡ links.old.items
        ++ numbered (filled_links params.now place.now.slot place.now.channel owner.now) 0 buffers.now) }
{
    for (number, buffer) in buffers.iter().enumerate() {
        push_filled(links, params, place, owner, number, buffer)?;
    }
    Ok(())
}

/// Returns the link of an ownership line whose slot no buffer fills.
fn null_link(params: &Params, place: &Place, owner: &Owner) -> Link
    ensures { result ≡ null_link params.now place.now.slot place.now.channel owner.now }
{
    Link {
        slot: place.slot,
        channel: place.channel,
        node: owner.node,
        buffer: None,
        cycles: owner.cycles,
        words: params.static_words,
    }
}

/// Appends the links of an ownership line: those of the buffers that fill the slot, or one of null frames.
fn push_plan(
    links: &mut Vec<Link>,
    params: &Params,
    place: &Place,
    owner: &Owner,
    buffers: &[Buffer],
) -> Result<(), AllocError>
    ensures { OnOk result
        (links.new.items
        ≡ links.old.items ++ plan_links params.now place.now.slot place.now.channel owner.now buffers.now) }
{
    let before = links.len();
    push_buffers(links, params, place, owner, buffers)?;
    if links.len() == before {
        links.push(null_link(params, place, owner))?;
    }
    Ok(())
}

/// Appends the links of an ownership line, if this is its first cycle.
fn push_begun(
    links: &mut Vec<Link>,
    cluster: &Cluster,
    place: &Place,
    base: u8,
    owner: &Owner,
) -> Result<(), AllocError>
    ensures { OnOk result
        (links.new.items ≡ links.old.items ++ begun_links cluster.now place.now.slot place.now.channel base owner.now) }
{
    if owner.cycles.base() != base {
        return Ok(());
    }
    match cluster.plans().get(owner.node) {
        Some(plan) => push_plan(links, cluster.params(), place, owner, plan.buffers()),
        None => Ok(()),
    }
}

/// Appends the links of those of these ownership lines whose first cycle this is.
fn push_base(
    links: &mut Vec<Link>,
    cluster: &Cluster,
    place: &Place,
    base: u8,
    owners: &[Owner],
) -> Result<(), AllocError>
    ensures { OnOk result
        (links.new.items
        ≡ links.old.items ++ flat_map (begun_links cluster.now place.now.slot place.now.channel base) owners.now) }
{
    for owner in owners {
        push_begun(links, cluster, place, base, owner)?;
    }
    Ok(())
}

/// Appends the links of a static slot on the channel, in the order of their first cycles.
fn push_channel(
    alloc: Global,
    links: &mut Vec<Link>,
    cluster: &Cluster,
    place: &Place,
) -> Result<(), AllocError>
    ensures { OnOk result
        (links.new.items ≡ links.old.items ++ channel_links cluster.now place.now.slot place.now.channel) }
{
    let owners = owners_of(alloc, cluster.plans(), place)?;
    for base in 0..CYCLES {
        push_base(links, cluster, place, base, owners.as_slice())?;
    }
    Ok(())
}

/// Appends the links of a static slot.
fn push_slot(
    alloc: Global,
    links: &mut Vec<Link>,
    cluster: &Cluster,
    slot: SlotId,
) -> Result<(), AllocError>
    ensures { OnOk result (links.new.items ≡ links.old.items ++ slot_links cluster.now slot) }
{
    let on_a = Place {
        slot,
        channel: Channel::A,
    };
    let on_b = Place {
        slot,
        channel: Channel::B,
    };
    push_channel(alloc, links, cluster, &on_a)?;
    push_channel(alloc, links, cluster, &on_b)
}

/// Appends the links of the static slots.
fn push_static(alloc: Global, links: &mut Vec<Link>, cluster: &Cluster) -> Result<(), AllocError>
    ensures { OnOk result (links.new.items ≡ links.old.items ++ static_links cluster.now) }
{
    let params = cluster.params();
    for earlier in 0..params.static_slots {
        if let Some(slot) = SlotId::new(earlier + 1) {
            push_slot(alloc, links, cluster, slot)?;
        }
    }
    Ok(())
}

// ---- dynamic slots

/// Appends the link of the buffer on the channel, if it is a dynamic transmit buffer for it.
fn push_dynamic(
    links: &mut Vec<Link>,
    params: &Params,
    node: usize,
    number: usize,
    buffer: &Buffer,
    channel: Channel,
) -> Result<(), AllocError>
    ensures { OnOk result
        (links.new.items ≡ links.old.items ++ dynamic_link params.now node number buffer.now channel) }
{
    if buffer.transmits_dynamic(params) && buffer.filter.channels.includes(channel) {
        let cycles = buffer.filter.cycles;
        links.push(link_of(params, channel, node, number, buffer, cycles))?;
    }
    Ok(())
}

/// Appends the links of a dynamic transmit buffer.
fn push_buffer(
    links: &mut Vec<Link>,
    params: &Params,
    node: usize,
    number: usize,
    buffer: &Buffer,
) -> Result<(), AllocError>
    ensures { OnOk result (links.new.items ≡ links.old.items ++ buffer_links params.now node number buffer.now) }
{
    push_dynamic(links, params, node, number, buffer, Channel::A)?;
    push_dynamic(links, params, node, number, buffer, Channel::B)
}

/// Appends the links of the dynamic transmit buffers of a node.
fn push_node(
    links: &mut Vec<Link>,
    params: &Params,
    node: usize,
    plan: &NodePlan,
) -> Result<(), AllocError>
    ensures { OnOk result (links.new.items ≡ links.old.items ++ node_links params.now node plan.now) }
{
    for (number, buffer) in plan.buffers().iter().enumerate() {
        push_buffer(links, params, node, number, buffer)?;
    }
    Ok(())
}

/// Appends the links of the dynamic transmit buffers of all nodes.
fn push_nodes(links: &mut Vec<Link>, cluster: &Cluster) -> Result<(), AllocError>
    ensures { OnOk result (links.new.items ≡ links.old.items ++ dynamic_links cluster.now) }
{
    for (node, plan) in cluster.plans().iter().enumerate() {
        push_node(links, cluster.params(), node, plan)?;
    }
    Ok(())
}

// ---- the cluster

/// Returns the links of a cluster (project-defined).
///
/// The static slots come in their order, channel A before B, and each with its ownership lines in the order of their
/// first cycles. The dynamic transmit buffers follow in the order of nodes and buffers.
///
/// Fails if an allocation fails.
pub fn links_of(alloc: Global, cluster: &Cluster) -> Result<Vec<Link>, AllocError>
    ensures { IfOk result (λ found. found.items ≡ links cluster.now) }
{
    let mut links = Vec::new(alloc);
    push_static(alloc, &mut links, cluster)?;
    push_nodes(&mut links, cluster)?;
    Ok(links)
}
