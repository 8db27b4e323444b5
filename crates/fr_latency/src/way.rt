//! A way to the latest start of a slot: the frames that have to be sent before it.

ghost use Rattle.std.specs.Prelude.{◌≡◌, ◌≤◌, ◌<◌, ◌+◌, ◌++◌, ◌==◌, List, IfOk, IfSome, IfNone, OnOk, true, false, ℕ};
ghost use Rattle.std.specs.Prelude.{Bool, length, map};
ghost use Rattle.std.specs.Prelude.{slice_index};
ghost use Rattle.std.specs.List.{list_any};
ghost use Rattle.fr_schedule.specs.Clusters.{IsCluster};
ghost use Rattle.fr_slots.specs.Numbers.{cycle_count, last_slot};
ghost use Rattle.fr_slots.specs.Faults.{sends_at};
ghost use Rattle.fr_slots.specs.Parameters.{is_static_slot};
ghost use Rattle.fr_latency.specs.WayText.{worst_cycle};
ghost use Rattle.fr_latency.specs.Cells.{HasBits, has_bit};
ghost use Rattle.fr_latency.specs.Marks.{AreMarks, AreMarksOf, AreStarts, IsBegin, IsFrameInto, IsFrameOf};
ghost use Rattle.fr_latency.specs.Marks.{is_admitted, place_of_most, start_in};
ghost use Rattle.fr_latency.specs.Openings.{can_begin, follows_buffer, follows_node, last_begin, slots_before};
ghost use Rattle.fr_latency.specs.Ways.{IsWay};
ghost use Rattle.fr_latency.specs.declared.way.Frame.{Frame};

use crate::cells::has_bit;
use crate::openings::{LONGEST, first_cells, frame_length, lasts, slot_after, step};
use fr_schedule::cluster::Cluster;
use fr_slots::channel::Channel;
use fr_slots::numbers::{CYCLES, Cycle, SlotId};
use fr_slots::params::Params;
use fr_slots::plan::{Buffer, NodePlan};
use std::alloc::{AllocError, Global};

/// A frame in a dynamic slot.
#[derive(Clone, Copy)]
pub struct Frame {
    /// The node that sends it.
    pub node: usize,
    /// The number of its buffer.
    pub buffer: usize,
    /// The slot.
    pub slot: u16,
    /// The minislot at which it begins.
    pub minislot: u16,
}

/// A way to the latest start of a slot.
#[derive(Drop)]
pub struct Way {
    /// The cycle of the latest start.
    pub cycle: Cycle,
    /// The minislot at which the slot begins then.
    pub minislot: u16,
    /// The frames that are sent before it, in order of their slots.
    pub frames: Vec<Frame>,
}

/// A slot of a channel in a cycle, and the number of dynamic slots before it.
#[derive(Clone, Copy)]
struct Place {
    slot: SlotId,
    channel: Channel,
    cycle: Cycle,
    earlier: u16,
}

/// Returns for each cell whether it has the bit of the cycle.
fn marks_of(alloc: Global, cells: &[u64], cycle: Cycle) -> Result<Vec<bool>, AllocError>
    ensures marks { IfOk result (λ marks. marks.items ≡ map (λ cell. has_bit cell cycle) cells.now) }
    ensures fits { cycle < cycle_count }
{
    let number = cycle.number();
    let mut marks = Vec::new(alloc);
    for cell in cells {
        marks.push(has_bit(*cell, number))?;
    }
    Ok(marks)
}

/// Returns for each dynamic slot the minislots at which it can begin in the cycle, up to the slot after so many others.
fn history_from(
    alloc: Global,
    cluster: &Cluster,
    channel: Channel,
    cycle: Cycle,
    count: u16,
    before: &mut [u64],
    after: &mut [u64],
) -> Result<Vec<Vec<bool>>, AllocError>
    requires lawful { IsCluster cluster.now }
    requires same { length after.old ≡ length before.old }
    requires room { length before.old ≡ cluster.now.params.minislots + 300 }
    requires count { cluster.now.params.static_slots + count < last_slot }
    requires begins { HasBits 1 (λ cycle minislot. minislot == 1) before.old }
    ensures { IfOk result (λ history. AreMarks cluster.now channel cycle count history.items) }
{
    let mut history = Vec::new(alloc);
    history.push(marks_of(alloc, before, cycle)?)?;
    for earlier in 0..count {
        let slot = slot_after(cluster.params(), earlier);
        step(before, after, cluster, slot, channel, earlier);
        history.push(marks_of(alloc, before, cycle)?)?;
    }
    Ok(history)
}

/// Returns whether the slot after so many dynamic slots can begin at the minislot.
fn begins_at(marks: &[bool], earlier: u16, minislot: u16) -> bool
    ensures { (test : ℕ → Bool) → AreMarksOf earlier test marks.now → result ≡ test minislot }
{
    if minislot <= earlier {
        return false;
    }
    let place = usize::from(minislot - earlier - 1);
    if place < marks.len() {
        marks[place]
    } else {
        false
    }
}

/// Returns whether the buffer transmits in the slot on the channel in the cycle.
fn sends_at(slot: SlotId, channel: Channel, cycle: Cycle, buffer: &Buffer) -> bool
    ensures { result ≡ sends_at slot channel cycle buffer.now }
{
    buffer.transmits() && buffer.filter.admits(cycle, slot, channel)
}

/// Returns the minislot at which a frame of the buffer begins in the slot, if the next slot begins at `minislot` after
/// it.
fn begin_of(
    params: &Params,
    plan: &NodePlan,
    buffer: &Buffer,
    place: &Place,
    marks: &[bool],
    minislot: u16,
) -> Option<u16>
    ensures found { (test : ℕ → Bool) → AreMarksOf place.now.earlier test marks.now
        → IfSome result (λ begin. IsBegin params.now place.now test minislot plan.now buffer.now begin) }
    ensures none { (test : ℕ → Bool) → AreMarksOf place.now.earlier test marks.now
        → IfNone result
        (follows_buffer params.now place.now.slot place.now.channel place.now.cycle test minislot plan.now
        buffer.now ≡ false) }
{
    if !sends_at(place.slot, place.channel, place.cycle, buffer) {
        return None;
    }
    let begin = minislot.saturating_sub(frame_length(params, buffer));
    if begin <= plan.latest(place.channel) && begins_at(marks, place.earlier, begin) {
        Some(begin)
    } else {
        None
    }
}

/// Returns the frame of a buffer of the node after which the next slot begins at the minislot, if there is one.
fn frame_of(
    params: &Params,
    node: usize,
    plan: &NodePlan,
    place: &Place,
    marks: &[bool],
    minislot: u16,
) -> Option<Frame>
    ensures found { (test : ℕ → Bool) → AreMarksOf place.now.earlier test marks.now
        → IfSome result (λ frame. IsFrameOf params.now node plan.now place.now test minislot frame) }
    ensures none { (test : ℕ → Bool) → AreMarksOf place.now.earlier test marks.now
        → IfNone result
        (follows_node params.now place.now.slot place.now.channel place.now.cycle test minislot plan.now ≡ false) }
{
    if plan.tasks() == 0 {
        return None;
    }
    for (number, buffer) in plan.buffers().iter().enumerate() {
        if let Some(begin) = begin_of(params, plan, buffer, place, marks, minislot) {
            return Some(Frame {
                node,
                buffer: number,
                slot: place.slot.number(),
                minislot: begin,
            });
        }
    }
    None
}

/// Returns the frame of a node after which the next slot begins at the minislot, if there is one.
fn frame_into(cluster: &Cluster, place: &Place, marks: &[bool], minislot: u16) -> Option<Frame>
    ensures found { (test : ℕ → Bool) → AreMarksOf place.now.earlier test marks.now
        → IfSome result
        (IsFrameInto cluster.now place.now.channel place.now.cycle place.now.slot test minislot) }
    ensures none { (test : ℕ → Bool) → AreMarksOf place.now.earlier test marks.now
        → IfNone result
        (list_any
        (follows_node cluster.now.params place.now.slot place.now.channel place.now.cycle test minislot)
        cluster.now.plans
        ≡ false) }
{
    for (node, plan) in cluster.plans().iter().enumerate() {
        if let Some(frame) = frame_of(cluster.params(), node, plan, place, marks, minislot) {
            return Some(frame);
        }
    }
    None
}

/// Appends the frames of a way on which the slot after so many dynamic slots begins at the minislot.
fn append_way(
    frames: &mut Vec<Frame>,
    cluster: &Cluster,
    channel: Channel,
    cycle: Cycle,
    history: &[Vec<bool>],
    earlier: u16,
    minislot: u16,
) -> Result<(), AllocError>
    requires marks { (count : ℕ) × AreMarks cluster.now channel cycle count history.now }
    requires few { earlier < length history.now }
    requires slots { cluster.now.params.static_slots + earlier ≤ last_slot }
    requires begins { can_begin cluster.now channel cycle earlier minislot ≡ true }
    ensures { OnOk result
        ((way : List Frame) × IsWay cluster.now channel cycle earlier minislot way
        × (frames.new.items ≡ frames.old.items ++ way)) }
{
    if earlier == 0 {
        return Ok(());
    }
    let place = Place {
        slot: slot_after(cluster.params(), earlier - 1),
        channel,
        cycle,
        earlier: earlier - 1,
    };
    let marks = history[usize::from(earlier - 1)].as_slice();
    let silent = minislot.saturating_sub(1);
    if begins_at(marks, earlier - 1, silent) {
        return append_way(
            frames,
            cluster,
            channel,
            cycle,
            history,
            earlier - 1,
            silent,
        );
    }
    match frame_into(cluster, &place, marks, minislot) {
        Some(frame) => {
            append_way(
                frames,
                cluster,
                channel,
                cycle,
                history,
                earlier - 1,
                frame.minislot,
            )?;
            frames.push(frame)?;
            Ok(())
        }
        None => Ok(()),
    }
}

/// Turns the minislots of the first dynamic slot into those of the slot after so many.
fn skip(before: &mut [u64], after: &mut [u64], cluster: &Cluster, channel: Channel, count: u16)
    requires lawful { IsCluster cluster.now }
    requires same { length after.old ≡ length before.old }
    requires room { length before.old ≡ cluster.now.params.minislots + 300 }
    requires count { cluster.now.params.static_slots + count < last_slot }
    requires begins { HasBits 1 (λ cycle minislot. minislot == 1) before.old }
    ensures { HasBits (count + 1) (λ cycle minislot. can_begin cluster.now channel cycle count minislot) before.new }
{
    for earlier in 0..count {
        let slot = slot_after(cluster.params(), earlier);
        step(before, after, cluster, slot, channel, earlier);
    }
}

/// Returns for each cycle the latest start of the slot after so many dynamic slots.
fn starts_of(
    cluster: &Cluster,
    channel: Channel,
    count: u16,
    before: &mut [u64],
    after: &mut [u64],
) -> [u16; 64]
    requires lawful { IsCluster cluster.now }
    requires same { length after.old ≡ length before.old }
    requires room { length before.old ≡ cluster.now.params.minislots + 300 }
    requires count { cluster.now.params.static_slots + count < last_slot }
    requires begins { HasBits 1 (λ cycle minislot. minislot == 1) before.old }
    ensures { AreStarts cluster.now channel count result }
{
    skip(before, after, cluster, channel, count);
    lasts(
        before,
        count,
        count + (cluster.params().minislots + LONGEST),
    )
}

/// Returns whether the node has a transmit buffer that admits the slot on the channel in the cycle.
fn is_admitted_by(plan: &NodePlan, slot: SlotId, channel: Channel, cycle: Cycle) -> bool
    ensures { result ≡ list_any (sends_at slot channel cycle) plan.now.buffers }
{
    for buffer in plan.buffers() {
        if sends_at(slot, channel, cycle, buffer) {
            return true;
        }
    }
    false
}

/// Returns whether a node has a transmit buffer that admits the slot on the channel in the cycle.
fn is_admitted(cluster: &Cluster, slot: SlotId, channel: Channel, cycle: Cycle) -> bool
    ensures { result ≡ is_admitted cluster.now.plans slot channel cycle }
{
    for plan in cluster.plans() {
        if is_admitted_by(plan, slot, channel, cycle) {
            return true;
        }
    }
    false
}

/// Returns the latest start of the slot in the cycle, or 0 if no buffer admits it then.
fn start_in(
    cluster: &Cluster,
    slot: SlotId,
    channel: Channel,
    count: u16,
    starts: &[u16; 64],
    cycle: Cycle,
) -> u16
    requires { AreStarts cluster.now channel count starts.now }
    ensures { result ≡ start_in cluster.now slot channel count cycle }
{
    if is_admitted(cluster, slot, channel, cycle) {
        starts[usize::from(cycle.number())]
    } else {
        0
    }
}

/// Returns the first cycle with the latest start of the slot.
fn worst_cycle(
    cluster: &Cluster,
    slot: SlotId,
    channel: Channel,
    count: u16,
    starts: &[u16; 64],
) -> Cycle
    requires { AreStarts cluster.now channel count starts.now }
    ensures { result ≡ place_of_most (start_in cluster.now slot channel count) cycle_count }
{
    let mut worst = 0;
    let mut most = start_in(cluster, slot, channel, count, starts, Cycle::from_bits(0));
    for number in 0..CYCLES {
        let start = start_in(
            cluster,
            slot,
            channel,
            count,
            starts,
            Cycle::from_bits(number),
        );
        if most < start {
            worst = number;
            most = start;
        }
    }
    Cycle::from_bits(worst)
}

/// Returns a way to the latest start of a dynamic slot on the channel, in the cycles in which a buffer admits it.
///
/// Fails if an allocation fails.
pub fn way_to(
    alloc: Global,
    cluster: &Cluster,
    slot: SlotId,
    channel: Channel,
) -> Result<Way, AllocError>
    requires { is_static_slot cluster.now.params slot ≡ false }
    ensures cycle { IfOk result (λ way. way.cycle ≡ worst_cycle cluster.now slot channel) }
    ensures start { IfOk result
        (λ way. way.minislot ≡ last_begin cluster.now channel way.cycle (slots_before cluster.now.params slot)) }
    ensures frames { IfOk result
        (λ way.
        IsWay cluster.now channel way.cycle (slots_before cluster.now.params slot) way.minislot way.frames.items) }
{
    let width = usize::from(cluster.params().minislots + LONGEST);
    let count = slot.number() - (cluster.params().static_slots + 1);
    let mut after = vec![in alloc; 0; width]?;
    let mut before = first_cells(alloc, width)?;
    let starts = starts_of(
        cluster,
        channel,
        count,
        before.as_mut_slice(),
        after.as_mut_slice(),
    );
    let cycle = worst_cycle(cluster, slot, channel, count, &starts);
    way_in(
        alloc,
        cluster,
        channel,
        cycle,
        count,
        starts[usize::from(cycle.number())],
    )
}

/// Returns a way to this start of the slot after so many dynamic slots in the cycle.
fn way_in(
    alloc: Global,
    cluster: &Cluster,
    channel: Channel,
    cycle: Cycle,
    count: u16,
    minislot: u16,
) -> Result<Way, AllocError>
    requires count { cluster.now.params.static_slots + count < last_slot }
    requires begins { can_begin cluster.now channel cycle count minislot ≡ true }
    ensures cycle { IfOk result (λ way. way.cycle ≡ cycle) }
    ensures start { IfOk result (λ way. way.minislot ≡ minislot) }
    ensures frames { IfOk result (λ way. IsWay cluster.now channel cycle count minislot way.frames.items) }
{
    let width = usize::from(cluster.params().minislots + LONGEST);
    let mut after = vec![in alloc; 0; width]?;
    let mut before = first_cells(alloc, width)?;
    let history = history_from(
        alloc,
        cluster,
        channel,
        cycle,
        count,
        before.as_mut_slice(),
        after.as_mut_slice(),
    )?;
    let mut frames = Vec::new(alloc);
    append_way(
        &mut frames,
        cluster,
        channel,
        cycle,
        history.as_slice(),
        count,
        minislot,
    )?;
    Ok(Way {
        cycle,
        minislot,
        frames,
    })
}
