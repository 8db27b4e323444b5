//! The load of a channel.

ghost use Rattle.std.specs.Prelude.{◌≡◌, ◌≤◌, ◌<◌, ◌+◌, ◌*◌, ◌&&◌, IsTrue, true, false, ℕ, length, slice_get, Some};
ghost use Rattle.fr_schedule.specs.Clusters.{IsCluster};
ghost use Rattle.fr_slots.specs.Numbers.{cycle_count};
ghost use Rattle.fr_slots.specs.Parameters.{is_static_slot};
ghost use Rattle.fr_latency.specs.Below.{least_below, most_below};
ghost use Rattle.fr_latency.specs.Loads.{demand, demand_of, has_owner, is_dynamic_in, length_in, load_of, owned_cycles};
ghost use Rattle.fr_latency.specs.Loads.{owned_slots, slack, spare, spare_in, spare_of};
ghost use Rattle.fr_latency.specs.Tables.{AreOpenings, HasRow, IsUsedFor};

use crate::latency::{channel_of, row_of};
use crate::openings::{Openings, Row, frame_length};
use fr_schedule::cluster::Cluster;
use fr_slots::channel::Channel;
use fr_slots::numbers::{CYCLES, Cycle, SlotId};
use fr_slots::params::Params;
use fr_slots::plan::{Buffer, NodePlan};

/// The load of a channel (project-defined).
#[derive(Clone, Copy)]
pub struct Load {
    /// The number of static slots with an owner, over 64 cycles.
    pub owned: u32,
    /// The number of minislots of all dynamic frames of a cycle, in the cycle that has the fewest.
    pub least: u32,
    /// The same in the cycle that has the most.
    pub most: u32,
    /// The least number of minislots between the latest start of a slot and the latest minislot of its node.
    pub slack: u16,
}

/// Returns whether a node owns the static slot on the channel in the cycle.
fn has_owner(cluster: &Cluster, slot: SlotId, channel: Channel, cycle: Cycle) -> bool
    requires { is_static_slot cluster.now.params slot ≡ true }
    ensures { result ≡ has_owner cluster.now.plans slot channel cycle }
{
    cluster.sender(cycle, slot, channel).is_some()
}

/// Returns the number of cycles in which a node owns the static slot on the channel.
fn owned_cycles(cluster: &Cluster, channel: Channel, slot: SlotId) -> u8
    requires { is_static_slot cluster.now.params slot ≡ true }
    ensures value { result ≡ owned_cycles cluster.now channel slot }
    ensures few { result ≤ 64 }
{
    let mut count = 0;
    for number in 0..CYCLES {
        if has_owner(cluster, slot, channel, Cycle::from_bits(number)) {
            count += 1;
        }
    }
    count
}

/// Returns the number of cycles in which a node owns the static slot after so many others.
fn owned_after(cluster: &Cluster, channel: Channel, earlier: u16) -> u8
    requires is_static { earlier < cluster.now.params.static_slots }
    requires few { earlier < 1023 }
    ensures value { result ≡ owned_cycles cluster.now channel (earlier + 1) }
    ensures few { result ≤ 64 }
{
    match SlotId::new(earlier + 1) {
        Some(slot) => owned_cycles(cluster, channel, slot),
        None => 0,
    }
}

/// Returns the number of static slots with an owner on the channel, over 64 cycles.
fn owned_slots(cluster: &Cluster, channel: Channel) -> u32
    ensures { result ≡ owned_slots cluster.now channel }
{
    let mut sum = 0;
    for earlier in 0..cluster.params().static_slots {
        sum += u32::from(owned_after(cluster, channel, earlier));
    }
    sum
}

/// Returns whether this is a dynamic transmit buffer on the channel that admits the cycle.
fn is_dynamic_in(params: &Params, channel: Channel, cycle: Cycle, buffer: &Buffer) -> bool
    ensures { result ≡ is_dynamic_in params.now channel cycle buffer.now }
{
    buffer.transmits_dynamic(params)
        && (buffer.filter.channels.includes(channel) && buffer.filter.cycles.admits(cycle))
}

/// Returns the minislots that the dynamic frame of the buffer takes in the cycle, or 0 if it isn't sent then.
fn length_in(params: &Params, channel: Channel, cycle: Cycle, buffer: &Buffer) -> u16
    ensures value { result ≡ length_in params.now channel cycle buffer.now }
    ensures few { result ≤ 300 }
{
    if is_dynamic_in(params, channel, cycle, buffer) {
        frame_length(params, buffer)
    } else {
        0
    }
}

/// Returns the minislots of all dynamic frames that the node can send on the channel in the cycle.
fn demand_of(params: &Params, channel: Channel, cycle: Cycle, plan: &NodePlan) -> u32
    ensures value { result ≡ demand_of params.now channel cycle plan.now }
    ensures few { result ≤ 19200 }
{
    let mut sum = 0;
    if plan.tasks() == 0 {
        return sum;
    }
    for buffer in plan.buffers() {
        sum += u32::from(length_in(params, channel, cycle, buffer));
    }
    sum
}

/// Returns the minislots of all dynamic frames of the cycle on the channel.
fn demand(cluster: &Cluster, channel: Channel, cycle: Cycle) -> u32
    ensures { result ≡ demand cluster.now channel cycle }
{
    let mut sum = 0;
    for plan in cluster.plans() {
        sum += demand_of(cluster.params(), channel, cycle, plan);
    }
    sum
}

/// Returns the least and the greatest number of minislots of all dynamic frames of a cycle on the channel.
fn demands(cluster: &Cluster, channel: Channel) -> (u32, u32)
    ensures least { result.0 ≡ least_below (demand cluster.now channel 0) (demand cluster.now channel) cycle_count }
    ensures most { result.1 ≡ most_below (demand cluster.now channel) cycle_count }
{
    let mut least = demand(cluster, channel, Cycle::from_bits(0));
    let mut most = 0;
    for number in 0..CYCLES {
        let minislots = demand(cluster, channel, Cycle::from_bits(number));
        least = minislots.min(least);
        most = minislots.max(most);
    }
    (least, most)
}

/// Returns the number of minislots between the latest start of the buffer's slot in the cycle and the latest minislot
/// of its node. It is that of all minislots if nothing is sent.
fn spare_in(
    cluster: &Cluster,
    channel: Channel,
    plan: &NodePlan,
    buffer: &Buffer,
    row: &Row,
    cycle: Cycle,
) -> u16
    requires { HasRow cluster.now buffer.now row.now }
    ensures { result ≡ spare_in cluster.now channel plan.now buffer.now cycle }
{
    let params = cluster.params();
    if is_dynamic_in(params, channel, cycle, buffer) {
        let latest = plan.latest(channel_of(buffer));
        latest.saturating_sub(row.begin[usize::from(cycle.number())])
    } else {
        params.minislots
    }
}

/// Returns the least of these numbers over all cycles.
fn spare(cluster: &Cluster, channel: Channel, plan: &NodePlan, buffer: &Buffer, row: &Row) -> u16
    requires { HasRow cluster.now buffer.now row.now }
    ensures { result ≡ spare cluster.now channel plan.now buffer.now }
{
    let mut least = cluster.params().minislots;
    for number in 0..CYCLES {
        least = spare_in(
            cluster,
            channel,
            plan,
            buffer,
            row,
            Cycle::from_bits(number),
        )
        .min(least);
    }
    least
}

/// Returns the least of these numbers for a buffer, which may receive.
fn spare_for(
    openings: &Openings,
    cluster: &Cluster,
    channel: Channel,
    plan: &NodePlan,
    buffer: &Buffer,
) -> u16
    requires openings { AreOpenings cluster.now openings.now }
    requires used { IsUsedFor cluster.now buffer.now }
    ensures { result ≡ spare cluster.now channel plan.now buffer.now }
{
    if !buffer.transmits() {
        return cluster.params().minislots;
    }
    spare(
        cluster,
        channel,
        plan,
        buffer,
        &row_of(openings, cluster, buffer),
    )
}

/// Returns the least of these numbers for a node.
fn spare_of(
    openings: &Openings,
    cluster: &Cluster,
    channel: Channel,
    node: usize,
    plan: &NodePlan,
) -> u16
    requires openings { AreOpenings cluster.now openings.now }
    requires node { slice_get cluster.now.plans node ≡ Some plan.now }
    ensures { result ≡ spare_of cluster.now channel plan.now }
{
    let mut least = cluster.params().minislots;
    if plan.tasks() == 0 {
        return least;
    }
    for buffer in plan.buffers() {
        least = spare_for(openings, cluster, channel, plan, buffer).min(least);
    }
    least
}

/// Returns the least of these numbers for all nodes.
fn slack(openings: &Openings, cluster: &Cluster, channel: Channel) -> u16
    requires { AreOpenings cluster.now openings.now }
    ensures { result ≡ slack cluster.now channel }
{
    let mut least = cluster.params().minislots;
    for (node, plan) in cluster.plans().iter().enumerate() {
        least = spare_of(openings, cluster, channel, node, plan).min(least);
    }
    least
}

/// Returns the load of a channel.
pub fn load_of(openings: &Openings, cluster: &Cluster, channel: Channel) -> Load
    requires { AreOpenings cluster.now openings.now }
    ensures { result ≡ load_of cluster.now channel }
{
    let (least, most) = demands(cluster, channel);
    Load {
        owned: owned_slots(cluster, channel),
        least,
        most,
        slack: slack(openings, cluster, channel),
    }
}
