//! A plan with an index of its lines, so that a call reads only a few of them.

ghost use Rattle.std.specs.Prelude.{◌≡◌, ◌==◌, ◌+◌, ◌<◌, ◌≤◌, [], ◌∷◌, ◌++◌, List, ℕ, length, slice_range, IfOk};
ghost use Rattle.fr_interface.specs.Ranges.{AreRanges, buffer_slots, own_slots, sending_slot, sending_slots};
ghost use Rattle.fr_interface.specs.Ranges.{slot_count, widened, joined};
ghost use Rattle.fr_slots.specs.Numbers.{most_lines};

use fr_slots::numbers::{LAST_SLOT, SlotId};
use fr_slots::plan::{Buffer, NodePlan, Own, Queue};
use std::alloc::{AllocError, Global};
use std::marker::Model;

/// The number of slot numbers with 0, which is no slot.
const SLOT_NUMBERS: usize = LAST_SLOT as usize + 1;

/// A range of places in a list of lines.
#[derive(Clone, Copy, PartialEq, Eq)]
pub(crate) struct LineRange {
    /// The first place.
    pub first: u8,
    /// The place after the last.
    pub end: u8,
}

impl LineRange {
    /// The empty range.
    pub(crate) const EMPTY: LineRange = LineRange { first: 0, end: 0 };

    /// Returns whether the range has no place.
    pub(crate) fn is_empty(self) -> bool
        ensures { result ≡ (self.first == self.end) }
    {
        self.first == self.end
    }

    /// Returns the range up to and with a later place.
    fn widened(self, place: u8) -> LineRange
        requires { place < most_lines }
        ensures { result ≡ widened self place }
    {
        let first = if self.first == self.end {
            place
        } else {
            self.first
        };
        LineRange {
            first,
            end: place + 1,
        }
    }

    /// Returns the range of both, with all places between them.
    pub(crate) fn joined(self, other: LineRange) -> LineRange
        ensures { result ≡ joined self other }
    {
        if self.first == self.end {
            other
        } else if other.first == other.end {
            self
        } else {
            LineRange {
                first: self.first.min(other.first),
                end: self.end.max(other.end),
            }
        }
    }

    /// Returns the lines of the range.
    pub(crate) fn of<T>(self, lines: &[T]) -> &[T]
        requires ordered { self.first ≤ self.end }
        requires within { self.end ≤ length lines.now }
        ensures { result.now ≡ slice_range lines.now self.first self.end }
    {
        &lines[usize::from(self.first)..usize::from(self.end)]
    }
}

/// Returns an empty range for each slot.
fn empty_ranges(alloc: Global) -> Result<Vec<LineRange>, AllocError>
    ensures { IfOk result (λ ranges. AreRanges [] ranges.items) }
{
    Ok(vec![in alloc; LineRange::EMPTY; SLOT_NUMBERS]?)
}

/// Adds a line of the slot, at this place after the others.
fn widen(ranges: &mut Vec<LineRange>, slot: u16, place: u8)
    requires all { length ranges.old.items ≡ slot_count }
    requires slot { slot < slot_count }
    requires few { place < most_lines }
    ensures { (slots : List ℕ) → length slots ≡ place → AreRanges slots ranges.old.items
        → AreRanges (slots ++ slot ∷ []) ranges.new.items }
{
    let number = usize::from(slot);
    ranges[number] = ranges[number].widened(place);
}

/// Returns for each slot the range of its buffers.
fn buffer_ranges(alloc: Global, buffers: &[Buffer]) -> Result<Vec<LineRange>, AllocError>
    requires { length buffers.now ≤ most_lines }
    ensures { IfOk result (λ ranges. AreRanges (buffer_slots buffers.now) ranges.items) }
{
    let mut ranges = empty_ranges(alloc)?;
    for (place, buffer) in buffers.iter().enumerate() {
        widen(&mut ranges, buffer.filter.slot.number(), place as u8);
    }
    Ok(ranges)
}

/// Returns the slot of a transmit buffer, and 0, which is no slot, for a receive buffer.
fn sending_slot(buffer: &Buffer) -> u16
    ensures value { result ≡ sending_slot buffer.now }
    ensures fits { result < slot_count }
{
    if buffer.transmits() {
        buffer.filter.slot.number()
    } else {
        0
    }
}

/// Returns for each slot the range of its transmit buffers.
fn sending_ranges(alloc: Global, buffers: &[Buffer]) -> Result<Vec<LineRange>, AllocError>
    requires { length buffers.now ≤ most_lines }
    ensures { IfOk result (λ ranges. AreRanges (sending_slots buffers.now) ranges.items) }
{
    let mut ranges = empty_ranges(alloc)?;
    for (place, buffer) in buffers.iter().enumerate() {
        widen(&mut ranges, sending_slot(buffer), place as u8);
    }
    Ok(ranges)
}

/// Returns for each slot the range of its ownership lines.
fn own_ranges(alloc: Global, owned: &[Own]) -> Result<Vec<LineRange>, AllocError>
    requires { length owned.now ≤ most_lines }
    ensures { IfOk result (λ ranges. AreRanges (own_slots owned.now) ranges.items) }
{
    let mut ranges = empty_ranges(alloc)?;
    for (place, own) in owned.iter().enumerate() {
        widen(&mut ranges, own.slot.number(), place as u8);
    }
    Ok(ranges)
}

// Without the ranges a short audit takes half as long again. Most nodes transmit in few slots and receive in many, so
// transmit buffers have ranges of their own.
/// A plan, and for each slot a range of places that holds all lines of the slot.
#[derive(Drop)]
pub(crate) struct IndexedPlan {
    plan: NodePlan,
    buffer_ranges: Vec<LineRange>,
    sending_ranges: Vec<LineRange>,
    own_ranges: Vec<LineRange>,
}

impl Model for IndexedPlan {
    ghost use Rattle.fr_slots.specs.Plans.{Plan};

    ghost Value = { Plan };

    ghost use Rattle.fr_interface.specs.IndexFields.{IsIndexed};

    ghost view = { λ i. i.plan };

    ghost invariant = { IsIndexed };
}

impl IndexedPlan {
    ghost use Rattle.fr_interface.specs.Ranges.{IsRangeOf};
    ghost use Rattle.fr_slots.specs.Plans.{IsPlan, buffer_at};

    /// Returns the plan with its index, which allocates three blocks of 4096 bytes.
    pub(crate) fn new(alloc: Global, plan: &NodePlan) -> Result<IndexedPlan, AllocError>
        ensures { IfOk result (λ indexed. indexed ≡ plan.now) }
    {
        let buffer_ranges = buffer_ranges(alloc, plan.buffers())?;
        let sending_ranges = sending_ranges(alloc, plan.buffers())?;
        let own_ranges = own_ranges(alloc, plan.owned())?;
        Ok(IndexedPlan {
            plan: plan.duplicate(),
            buffer_ranges,
            sending_ranges,
            own_ranges,
        })
    }

    /// Returns the plan itself.
    pub(crate) fn as_plan(&self) -> &NodePlan
        ensures { result.now ≡ self.now }
    {
        &self.plan
    }

    /// Returns the number of host tasks.
    pub(crate) fn tasks(&self) -> u8
        ensures value { result ≡ self.now.tasks }
        ensures lawful { IsPlan self.now }
    {
        self.plan.tasks()
    }

    /// Returns the buffer of this number, if the plan has it.
    pub(crate) fn buffer(&self, number: u8) -> Option<Buffer>
        ensures { result ≡ buffer_at self.now number }
    {
        self.plan.buffer(number)
    }

    /// Returns the receive FIFO, if the node has one.
    pub(crate) fn queue(&self) -> Option<Queue>
        ensures value { result ≡ self.now.queue }
        ensures lawful { IsPlan self.now }
    {
        self.plan.queue()
    }

    /// Returns a range that holds all buffers of the slot.
    pub(crate) fn buffer_range(&self, slot: SlotId) -> LineRange
        ensures { IsRangeOf slot (buffer_slots self.now.buffers) result }
    {
        self.buffer_ranges[usize::from(slot.number())]
    }

    /// Returns a range that holds all transmit buffers of the slot.
    pub(crate) fn sending_range(&self, slot: SlotId) -> LineRange
        ensures { IsRangeOf slot (sending_slots self.now.buffers) result }
    {
        self.sending_ranges[usize::from(slot.number())]
    }

    /// Returns a range that holds all ownership lines of the slot.
    pub(crate) fn own_range(&self, slot: SlotId) -> LineRange
        ensures { IsRangeOf slot (own_slots self.now.owned) result }
    {
        self.own_ranges[usize::from(slot.number())]
    }
}
