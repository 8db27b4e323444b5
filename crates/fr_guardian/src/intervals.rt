//! The intervals of a cycle in which a channel is open to a node.

ghost use Rattle.std.specs.Prelude.{◌≡◌, ◌≤◌, ◌+◌, ◌*◌, ◌^◌, ◌<◌, ◌++◌, ◌||◌, ◌↔◌, IsTrue, not, false, slice_index_or};
ghost use Rattle.std.specs.Prelude.{length, IfOk, OnOk};
ghost use Rattle.std.specs.List.{All, AllPairs};
ghost use Rattle.fr_guardian.specs.Guarding.{IsOpenTo};
ghost use Rattle.fr_guardian.specs.GuardianFields.{IsSlotWithin, AreOwnedSlots};
ghost use Rattle.fr_guardian.specs.Intervals.{AreMaximalIntervals, IsCovered, run};

use fr_slots::channel::Channel;
use fr_slots::numbers::{Cycle, LAST_SLOT, SlotId};
use fr_slots::params::Params;
use fr_slots::plan::Own;
use fr_timing::segments::segments_of;
use std::alloc::{AllocError, Global};

/// The least length of an array that has a place for every slot number.
const SLOTS: usize = LAST_SLOT as usize + 1;

/// Returns for each number whether it is a slot that the node owns on the channel in the cycle.
fn owned_slots(owned: &[Own], cycle: Cycle, channel: Channel) -> [bool; SLOTS]
    ensures { AreOwnedSlots owned.now cycle channel result }
{
    let mut slots = [false; SLOTS];
    for own in owned {
        if own.claims(cycle, own.slot, channel) {
            slots[usize::from(own.slot.number())] = true;
        }
    }
    slots
}

/// Returns whether the static slot of this number is open to a node with these slots on the channel. On a channel
/// without guardians every slot is open.
fn is_open_slot(guarded: bool, slots: &[bool; SLOTS], number: u16) -> bool
    requires { number < 2048 }
    ensures { result ≡ (not guarded || slice_index_or slots.now number false) }
{
    !guarded || slots[usize::from(number)]
}

/// Appends the interval, unless it is empty.
fn add(intervals: &mut Vec<(u32, u32)>, start: u32, end: u32) -> Result<(), AllocError>
    ensures { OnOk result (intervals.new.items ≡ intervals.old.items ++ run start end) }
{
    if start < end {
        intervals.push((start, end))?;
    }
    Ok(())
}

/// Returns whether the macrotick lies in one of the intervals, by binary search.
fn is_covered(spans: &[(u32, u32)], macrotick: u32) -> bool
    requires not_empty { All (λ span. span.0 < span.1) spans.now }
    requires apart { AllPairs (λ span later. span.1 < later.0) spans.now }
    ensures { IsTrue result ↔ IsCovered spans.now macrotick }
{
    let started = spans.partition_point(|span| span.0 <= macrotick);
    0 < started && macrotick < spans[started - 1].1
}

/// Returns whether the slot is static and its first macrotick lies in one of the intervals.
pub fn is_slot_within(params: &Params, spans: &[(u32, u32)], slot: SlotId) -> bool
    requires not_empty { All (λ span. span.0 < span.1) spans.now }
    requires apart { AllPairs (λ span later. span.1 < later.0) spans.now }
    ensures { IsSlotWithin params.now spans.now slot result }
{
    let start = (u32::from(slot.number()) - 1) * u32::from(params.static_mt);
    params.is_static(slot) && is_covered(spans, start)
}

/// Returns the macroticks of the cycle in which a channel is open to a node, as half-open intervals. They cover the
/// dynamic segment, and the static slots that the node owns then. On a channel without guardians they cover all static
/// slots. Parts that touch are in one interval.
pub fn open_intervals(
    alloc: Global,
    params: &Params,
    guarded: bool,
    owned: &[Own],
    cycle: Cycle,
    channel: Channel,
) -> Result<Vec<(u32, u32)>, AllocError>
    ensures { IfOk result
        (λ intervals. AreMaximalIntervals (IsOpenTo params.now guarded owned.now cycle channel) intervals.items) }
{
    let static_mt = u32::from(params.static_mt);
    let slots = owned_slots(owned, cycle, channel);
    let mut intervals = Vec::new(alloc);
    // The start of the current interval, which may still be empty.
    let mut since = 0;
    for earlier in 0..params.static_slots {
        if !is_open_slot(guarded, &slots, earlier + 1) {
            let start = u32::from(earlier) * static_mt;
            add(&mut intervals, since, start)?;
            since = start + static_mt;
        }
    }
    add(&mut intervals, since, segments_of(params).symbol)?;
    Ok(intervals)
}
