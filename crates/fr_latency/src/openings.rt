//! The minislots at which the dynamic slots of a channel can begin.

ghost use Rattle.std.specs.Prelude.{◌≡◌, ◌≤◌, ◌<◌, ◌+◌, ◌==◌, length, slice_index, IfOk, ℕ, Bool, true, false};
ghost use Rattle.std.specs.List.{list_any};
ghost use Rattle.fr_schedule.specs.Clusters.{IsCluster};
ghost use Rattle.fr_slots.specs.Faults.{latest_on};
ghost use Rattle.fr_slots.specs.Numbers.{cycle_count, last_slot};
ghost use Rattle.fr_latency.specs.Cells.{AddsTo, CycleTest, HasBits, has_bit};
ghost use Rattle.fr_latency.specs.Exact.{AreExact, AreExactRows, IsTrueToLanes};
ghost use Rattle.fr_latency.specs.Tables.{AreOpenings};
ghost use Rattle.fr_latency.specs.Rows.{AreLast, AreRows, BeginsRightAfter, IsRow};
ghost use Rattle.fr_latency.specs.Openings.{frame_length, is_for, follows_buffer, follows_node, can_begin, slot_after};
ghost use Rattle.fr_latency.specs.Openings.{greatest, is_used};

use crate::cells::{add, greatest, mask_of};
use fr_schedule::cluster::Cluster;
use fr_slots::channel::Channel;
use fr_slots::numbers::{CYCLES, LAST_SLOT, SlotId};
use fr_slots::params::Params;
use fr_slots::plan::{Buffer, NodePlan};
use std::alloc::{AllocError, Global};

/// The number of minislots that no frame fills, with those that stay idle after it.
pub(crate) const LONGEST: u16 = 300;

/// The last minislots of a dynamic slot, for each cycle.
#[derive(Clone, Copy)]
pub struct Row {
    /// The last minislot at which the slot can begin, also after the dynamic segment.
    pub begin: [u16; 64],
    /// The last minislot at which it can open, or 0 if it never opens.
    pub opening: [u16; 64],
}

/// The last minislots of all dynamic slots, on each channel.
#[derive(Drop)]
pub struct Openings {
    pub a: Vec<Row>,
    pub b: Vec<Row>,
}

/// A row of a slot without a transmit buffer.
pub(crate) const UNUSED: Row = Row {
    begin: [0; 64],
    opening: [0; 64],
};

/// Returns the minislots that a frame of the buffer takes, with those that stay idle after it.
pub(crate) fn frame_length(params: &Params, buffer: &Buffer) -> u16
    ensures value { result ≡ frame_length params.now buffer.now }
    ensures some { 1 ≤ result }
    ensures few { result ≤ 300 }
{
    (buffer.words(params) + 4).div_ceil(params.words_per_minislot) + params.idle
}

/// Returns whether this is a transmit buffer for the slot on the channel.
fn is_for(buffer: &Buffer, slot: SlotId, channel: Channel) -> bool
    ensures { result ≡ is_for slot channel buffer.now }
{
    buffer.transmits() && buffer.filter.slot == slot && buffer.filter.channels.includes(channel)
}

/// Adds the minislots at which the next slot begins after a frame of the buffer, if the buffer is for this slot.
///
/// `before` has the minislots of this slot, and `after` those of the next one.
fn add_buffer(
    after: &mut [u64],
    before: &[u64],
    params: &Params,
    plan: &NodePlan,
    buffer: &Buffer,
    slot: SlotId,
    channel: Channel,
    earlier: u16,
)
    requires same { length after.old ≡ length before.now }
    requires room { length before.now ≡ params.now.minislots + 300 }
    requires latest { latest_on plan.now channel ≤ params.now.minislots }
    ensures { AddsTo earlier
        (λ test cycle minislot. follows_buffer params.now slot channel cycle (test cycle) minislot plan.now buffer.now)
        before.now after.old after.new }
{
    if !is_for(buffer, slot, channel) {
        return;
    }
    let shift = usize::from(frame_length(params, buffer) - 1);
    let count = usize::from(plan.latest(channel).saturating_sub(earlier));
    add(after, before, shift, count, mask_of(buffer.filter.cycles));
}

/// Adds the minislots at which the next slot begins after a frame of one of the node's buffers for this slot.
fn add_node(
    after: &mut [u64],
    before: &[u64],
    params: &Params,
    plan: &NodePlan,
    slot: SlotId,
    channel: Channel,
    earlier: u16,
)
    requires same { length after.old ≡ length before.now }
    requires room { length before.now ≡ params.now.minislots + 300 }
    requires latest { latest_on plan.now channel ≤ params.now.minislots }
    ensures { AddsTo earlier
        (λ test cycle minislot. follows_node params.now slot channel cycle (test cycle) minislot plan.now)
        before.now after.old after.new }
{
    if plan.tasks() == 0 {
        return;
    }
    for buffer in plan.buffers() {
        add_buffer(after, before, params, plan, buffer, slot, channel, earlier);
    }
}

/// Adds the minislots at which the next slot begins after a frame in this slot.
fn add_nodes(
    after: &mut [u64],
    before: &[u64],
    cluster: &Cluster,
    slot: SlotId,
    channel: Channel,
    earlier: u16,
)
    requires lawful { IsCluster cluster.now }
    requires same { length after.old ≡ length before.now }
    requires room { length before.now ≡ cluster.now.params.minislots + 300 }
    ensures { AddsTo earlier
        (λ test cycle minislot.
        list_any (follows_node cluster.now.params slot channel cycle (test cycle) minislot) cluster.now.plans)
        before.now after.old after.new }
{
    for plan in cluster.plans() {
        add_node(
            after,
            before,
            cluster.params(),
            plan,
            slot,
            channel,
            earlier,
        );
    }
}

/// Turns the minislots of this slot into those of the next one.
pub(crate) fn step(
    before: &mut [u64],
    after: &mut [u64],
    cluster: &Cluster,
    slot: SlotId,
    channel: Channel,
    earlier: u16,
)
    requires lawful { IsCluster cluster.now }
    requires same { length after.old ≡ length before.old }
    requires room { length before.old ≡ cluster.now.params.minislots + 300 }
    requires slot { slot ≡ slot_after cluster.now.params earlier }
    requires begins { HasBits (earlier + 1) (λ cycle minislot. can_begin cluster.now channel cycle earlier minislot)
        before.old }
    ensures begins { HasBits (earlier + 2) (λ cycle minislot. can_begin cluster.now channel cycle
        (earlier + 1) minislot)
        before.new }
{
    after.copy_from_slice(before);
    add_nodes(after, before, cluster, slot, channel, earlier);
    before.copy_from_slice(after);
}

/// Returns the last minislot up to this one at which the slot can begin in the cycle, or 0.
fn last_up_to(cells: &[u64], earlier: u16, cycle: u8, most: u16) -> u16
    requires room { most ≤ earlier + length cells.now }
    requires cycle { cycle < cycle_count }
    ensures { (test : CycleTest) → BeginsRightAfter earlier test → HasBits (earlier + 1) test cells.now
        → result ≡ greatest (test cycle) most }
{
    if most <= earlier {
        return 0;
    }
    let place = greatest(cells, cycle, usize::from(most - earlier - 1));
    earlier + 1 + place as u16
}

/// Returns for each cycle the last minislot up to this one at which the slot can begin, or 0.
pub(crate) fn lasts(cells: &[u64], earlier: u16, most: u16) -> [u16; 64]
    requires { most ≤ earlier + length cells.now }
    ensures { (test : CycleTest) → BeginsRightAfter earlier test → HasBits (earlier + 1) test cells.now
        → AreLast test most result }
{
    let mut lasts = [0; 64];
    for cycle in 0..CYCLES {
        lasts[usize::from(cycle)] = last_up_to(cells, earlier, cycle, most);
    }
    lasts
}

/// Returns whether a buffer of the node transmits in the slot on the channel.
fn is_used_by(plan: &NodePlan, slot: SlotId, channel: Channel) -> bool
    ensures { result ≡ list_any (is_for slot channel) plan.now.buffers }
{
    for buffer in plan.buffers() {
        if is_for(buffer, slot, channel) {
            return true;
        }
    }
    false
}

/// Returns whether a node has a transmit buffer for the slot on the channel.
fn is_used(cluster: &Cluster, slot: SlotId, channel: Channel) -> bool
    ensures { result ≡ is_used cluster.now.plans slot channel }
{
    for plan in cluster.plans() {
        if is_used_by(plan, slot, channel) {
            return true;
        }
    }
    false
}

/// Returns the row of a slot, from the minislots at which it can begin.
fn row_at(cells: &[u64], cluster: &Cluster, slot: SlotId, channel: Channel, earlier: u16) -> Row
    requires lawful { IsCluster cluster.now }
    requires few { earlier ≤ last_slot }
    requires room { length cells.now ≡ cluster.now.params.minislots + 300 }
    requires begins { HasBits (earlier + 1) (λ cycle minislot. can_begin cluster.now channel cycle earlier minislot)
        cells.now }
    ensures { is_used cluster.now.plans slot channel ≡ true → IsRow cluster.now channel earlier result }
{
    if !is_used(cluster, slot, channel) {
        return UNUSED;
    }
    let minislots = cluster.params().minislots;
    Row {
        begin: lasts(cells, earlier, earlier + (minislots + LONGEST)),
        opening: lasts(cells, earlier, minislots),
    }
}

/// Returns the slot that comes after so many dynamic slots.
pub(crate) fn slot_after(params: &Params, earlier: u16) -> SlotId
    requires { params.now.static_slots + earlier < last_slot }
    ensures { result ≡ slot_after params.now earlier }
{
    match SlotId::new(params.static_slots + 1 + earlier) {
        Some(slot) => slot,
        None => SlotId::default(),
    }
}

/// Returns the cells of the first dynamic slot, which begins at minislot 1 in every cycle.
pub(crate) fn first_cells(alloc: Global, width: usize) -> Result<Vec<u64>, AllocError>
    requires { 1 ≤ width }
    ensures size { IfOk result (λ cells. length cells.items ≡ width) }
    ensures bits { IfOk result (λ cells. HasBits 1 (λ cycle minislot. minislot == 1) cells.items) }
{
    let mut cells = vec![in alloc; 0; width]?;
    cells[0] = u64::MAX;
    Ok(cells)
}

/// Returns the last minislots of all dynamic slots, from the cells of the first one.
fn rows_from(
    alloc: Global,
    cluster: &Cluster,
    channel: Channel,
    before: &mut [u64],
    after: &mut [u64],
) -> Result<Vec<Row>, AllocError>
    requires lawful { IsCluster cluster.now }
    requires same { length after.old ≡ length before.old }
    requires room { length before.old ≡ cluster.now.params.minislots + 300 }
    requires begins { HasBits 1 (λ cycle minislot. minislot == 1) before.old }
    ensures { IfOk result (λ rows. AreRows cluster.now channel rows.items) }
{
    let params = cluster.params();
    let mut rows = Vec::new(alloc);
    for earlier in 0..LAST_SLOT - params.static_slots {
        let slot = slot_after(params, earlier);
        rows.push(row_at(before, cluster, slot, channel, earlier))?;
        step(before, after, cluster, slot, channel, earlier);
    }
    Ok(rows)
}

/// Returns the last minislots of all dynamic slots of the channel.
///
/// Fails if an allocation fails.
pub fn rows_on(alloc: Global, cluster: &Cluster, channel: Channel) -> Result<Vec<Row>, AllocError>
    ensures rows { IfOk result (λ rows. AreRows cluster.now channel rows.items) }
    ensures exact { IfOk result (λ rows. AreExactRows cluster.now channel rows.items) }
    ensures lanes { IsTrueToLanes cluster.now }
{
    let width = usize::from(cluster.params().minislots + LONGEST);
    let mut before = first_cells(alloc, width)?;
    let mut after = vec![in alloc; 0; width]?;
    rows_from(
        alloc,
        cluster,
        channel,
        before.as_mut_slice(),
        after.as_mut_slice(),
    )
}

/// Returns the last minislots of all dynamic slots of the cluster.
///
/// Fails if an allocation fails.
pub fn openings_of(alloc: Global, cluster: &Cluster) -> Result<Openings, AllocError>
    ensures rows { IfOk result (AreOpenings cluster.now) }
    ensures exact { IfOk result (AreExact cluster.now) }
    ensures lanes { IsTrueToLanes cluster.now }
{
    let a = rows_on(alloc, cluster, Channel::A)?;
    let b = rows_on(alloc, cluster, Channel::B)?;
    Ok(Openings { a, b })
}
