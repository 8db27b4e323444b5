//! The plan of a node: its static slots, its buffers and its receive FIFO.

ghost use Rattle.std.specs.Prelude.{◌≡◌, ◌↔◌, IsTrue};
ghost use Rattle.std.specs.Result.{result_err};
ghost use Rattle.fr_slots.specs.Plans.{own_fits, buffer_fits, queue_fits, IsOwn, IsBuffer, IsQueue};

use crate::channel::{Channel, Channels};
use crate::copies::array_of;
use crate::fault::{
    PlanFault, buffer_fault, dynamic_both_place, not_owned_place, ownership_fault, too_long_place,
};
use crate::filter::{CycleFilter, Filter};
use crate::numbers::{Cycle, SlotId, TASKS};
use crate::params::{LAST_MINISLOT, LAST_STATIC_SLOT, MOST_WORDS, Params};
use arrayvec::ArrayVec;
use std::marker::Model;
use thiserror::Error;

/// The greatest number of ownership lines, and of buffers, of a node (project-defined).
pub const LINES: usize = 64;

/// The greatest number of frames in the receive FIFO of a node (project-defined).
pub const FRAMES: u16 = 256;

/// The greatest number of host entries in the journal of a node (project-defined).
pub const HOST_ENTRIES: u16 = 16384;

/// The greatest number of slot entries in the journal of a node (project-defined).
pub const SLOT_ENTRIES: u32 = 65536;

/// A static slot that a node owns in the cycles that a filter admits. Chapter 5; the division of a static slot by
/// cycles is project-defined.
#[derive(Clone, Copy, Default, PartialEq, Eq)]
pub struct Own {
    /// The slot, 1 to 1023.
    pub slot: SlotId,
    pub channels: Channels,
    /// The cycles in which the node owns the slot, by default all.
    pub cycles: CycleFilter,
    /// The sync frame indicator of the node's frames there.
    pub sync: bool,
    /// The startup frame indicator of these frames, which only sync frames can have.
    pub startup: bool,
}

impl Own {
    ghost use Rattle.std.specs.Prelude.{◌≡◌};
    ghost use Rattle.fr_slots.specs.Faults.{claims, is_undivided};

    /// Returns whether the line is for the slot on the channel in the cycle. Chapter 5; the division by cycles is
    /// project-defined.
    pub fn claims(&self, cycle: Cycle, slot: SlotId, channel: Channel) -> bool
        ensures { result ≡ claims slot channel cycle self.now }
    {
        self.slot == slot && self.channels.includes(channel) && self.cycles.admits(cycle)
    }

    /// Returns whether the line is for the slot on the channel in all cycles.
    pub(crate) fn is_undivided(&self, slot: SlotId, channel: Channel) -> bool
        ensures { result ≡ is_undivided slot channel self.now }
    {
        self.slot == slot && self.channels.includes(channel) && self.cycles.is_every_cycle()
    }
}

/// The mode of a buffer (chapter 9; the names are project-defined).
#[derive(Clone, Copy, Default, PartialEq, Eq)]
pub enum Mode {
    /// Sends each commit at most once.
    Event,
    /// Sends the last commit at each admitted slot.
    State,
    /// Keeps the last valid data frame of an admitted slot.
    #[default]
    Receive,
}

impl Mode {
    ghost use Rattle.std.specs.Prelude.{◌≡◌};
    ghost use Rattle.fr_slots.specs.Plans.{is_receive};

    /// Returns whether a buffer of this mode receives; all other buffers transmit.
    pub fn is_receive(self) -> bool
        ensures { result ≡ is_receive self }
    {
        match self {
            Mode::Receive => true,
            Mode::Event | Mode::State => false,
        }
    }
}

/// A buffer of a node.
#[derive(Clone, Copy, Default, PartialEq, Eq)]
pub struct Buffer {
    pub mode: Mode,
    pub filter: Filter,
    /// The payload of a dynamic transmit buffer, 0 to 127 two-byte words. A static transmit buffer has the cluster's
    /// words, and a receive buffer none.
    pub words: Option<u8>,
    /// The payload preamble indicator of its frames.
    pub preamble: bool,
}

impl Buffer {
    ghost use Rattle.std.specs.Prelude.{◌≡◌, ◌<◌};
    ghost use Rattle.fr_slots.specs.Faults.{transmits, transmits_static, transmits_dynamic, words_of};

    /// Returns whether this is a transmit buffer (chapter 9).
    pub fn transmits(&self) -> bool
        ensures { result ≡ transmits self.now }
    {
        !self.mode.is_receive()
    }

    /// Returns whether this is a transmit buffer in a static slot.
    pub(crate) fn transmits_static(&self, params: &Params) -> bool
        ensures { result ≡ transmits_static params.now self.now }
    {
        self.transmits() && params.is_static(self.filter.slot)
    }

    /// Returns whether this is a transmit buffer in a dynamic slot.
    pub fn transmits_dynamic(&self, params: &Params) -> bool
        ensures { result ≡ transmits_dynamic params.now self.now }
    {
        self.transmits() && !params.is_static(self.filter.slot)
    }

    /// Returns the payload of a transmit buffer, in two-byte words (chapter 5). In a static slot it is that of the
    /// cluster's static frames. In a dynamic slot it is the buffer's own, or 0 if it has none. For a buffer of a plan
    /// it is at most 127.
    pub fn words(&self, params: &Params) -> u16
        ensures value { result ≡ words_of params.now self.now }
        ensures fits { result < 256 }
    {
        if params.is_static(self.filter.slot) {
            params.static_words
        } else {
            u16::from(self.words.unwrap_or(0))
        }
    }
}

/// The receive FIFO of a node (project-defined).
#[derive(Clone, Copy, PartialEq, Eq)]
pub struct Queue {
    /// The number of frames that it holds, 1 to 256.
    pub capacity: u16,
    /// The first slot of its range.
    pub first: SlotId,
    /// The last slot of its range, not below the first.
    pub last: SlotId,
    pub channels: Channels,
    pub cycles: CycleFilter,
}

impl Queue {
    ghost use Rattle.std.specs.Prelude.{◌≡◌};
    ghost use Rattle.fr_slots.specs.Plans.{queue_admits};

    /// Returns whether the slot is in the range of the receive FIFO, and channel and cycle are admitted.
    pub fn admits(&self, cycle: Cycle, slot: SlotId, channel: Channel) -> bool
        ensures { result ≡ queue_admits self.now cycle slot channel }
    {
        self.first.number() <= slot.number()
            && slot.number() <= self.last.number()
            && self.channels.includes(channel)
            && self.cycles.admits(cycle)
    }
}

/// Reasons to refuse a plan or a line of it.
#[derive(Clone, Copy, Debug, PartialEq, Eq, Error)]
pub enum PlanError {
    /// A number out of its range.
    #[error("a number is out of its range")]
    OutOfRange,
    /// A line for which there is no room.
    #[error("there is no room for a further line")]
    TooMany,
}

/// The plan of a node, which allocates no memory.
#[derive(Drop)]
pub struct NodePlan {
    tasks: u8,
    latest: [u16; 2],
    host_entries: u16,
    slot_entries: u32,
    owned: ArrayVec<Own, LINES>,
    buffers: ArrayVec<Buffer, LINES>,
    queue: Option<Queue>,
}

impl Model for NodePlan {
    ghost use Rattle.fr_slots.specs.Plans.{Plan};

    ghost Value = { Plan };

    ghost use Rattle.fr_slots.specs.PlanFields.{plan_in, IsLawful};

    ghost view = { plan_in };

    ghost invariant = { IsLawful };
}

impl NodePlan {
    ghost use Rattle.std.specs.Prelude.{◌≡◌, ◌<◌, ◌↔◌, IfOk, OnOk, OnErr, IfSome, IfNone, IsTrue, ◌==◌, length};
    ghost use Rattle.std.specs.Prelude.{position, slice_index};
    ghost use Rattle.fr_slots.specs.Plans.{IsPlan, IsNodePlan, plan_of, buffer_at, own_refusal, with_own};
    ghost use Rattle.fr_slots.specs.Plans.{buffer_refusal, with_buffer, queue_refusal, with_queue};
    ghost use Rattle.fr_slots.specs.Faults.{latest_on, plan_fault, IsFaultless, not_owned, dynamic_both, too_long};

    /// Returns a plan with no lines yet.
    ///
    /// - `latest`: pLatestTx for channel A and for B, the last minislot at which the node begins a dynamic
    ///   transmission. Minislots are counted from 1, and 0 means that it begins none. 0 to 8000 (chapter 5; a value for
    ///   each channel is project-defined).
    /// - `tasks`: the number of host tasks, 0 to 8 (project-defined).
    /// - `host_entries`, `slot_entries`: the room of its journal, 1 to 16384 and 2 to 65536 entries (project-defined).
    ///
    /// Fails with `OutOfRange` if one of these is out of its range.
    pub fn new(
        tasks: u8,
        latest: [u16; 2],
        host_entries: u16,
        slot_entries: u32,
    ) -> Result<NodePlan, PlanError>
        ensures { result ≡ plan_of tasks (slice_index latest 0) (slice_index latest 1) host_entries slot_entries }
    {
        let [latest_a, latest_b] = latest;
        if tasks > TASKS || latest_a > LAST_MINISLOT || latest_b > LAST_MINISLOT {
            return Err(PlanError::OutOfRange);
        }
        if host_entries < 1 || host_entries > HOST_ENTRIES {
            return Err(PlanError::OutOfRange);
        }
        if slot_entries < 2 || slot_entries > SLOT_ENTRIES {
            return Err(PlanError::OutOfRange);
        }
        Ok(NodePlan {
            tasks,
            latest,
            host_entries,
            slot_entries,
            owned: ArrayVec::new(),
            buffers: ArrayVec::new(),
            queue: None,
        })
    }

    /// Appends an ownership line.
    ///
    /// Fails with `OutOfRange` for a slot above 1023 and for startup without sync, then with `TooMany` for the 65th
    /// line. A refusal leaves the plan unchanged.
    pub fn add_own(&mut self, own: Own) -> Result<(), PlanError>
        ensures refusal { result_err result ≡ own_refusal self.old own }
        ensures accepted { OnOk result (self.new ≡ with_own self.old own) }
        ensures refused { OnErr result (self.new ≡ self.old) }
    {
        // Only the line by itself is tested here; `fault` finds faults between lines.
        if !own_fits(&own) {
            return Err(PlanError::OutOfRange);
        }
        if self.owned.is_full() {
            return Err(PlanError::TooMany);
        }
        self.owned.push(own);
        Ok(())
    }

    /// Appends a buffer; buffers are numbered from 0 in this order.
    ///
    /// Fails with `OutOfRange` for more than 127 words, and for a receive buffer with words or with the payload
    /// preamble indicator. Then it fails with `TooMany` for the 65th buffer. A refusal leaves the plan unchanged.
    pub fn add_buffer(&mut self, buffer: Buffer) -> Result<(), PlanError>
        ensures refusal { result_err result ≡ buffer_refusal self.old buffer }
        ensures accepted { OnOk result (self.new ≡ with_buffer self.old buffer) }
        ensures refused { OnErr result (self.new ≡ self.old) }
    {
        if !buffer_fits(&buffer) {
            return Err(PlanError::OutOfRange);
        }
        if self.buffers.is_full() {
            return Err(PlanError::TooMany);
        }
        self.buffers.push(buffer);
        Ok(())
    }

    /// Gives the node its receive FIFO.
    ///
    /// Fails with `OutOfRange` for a capacity of 0 or above 256 and for a first slot above the last, then with
    /// `TooMany` if the node has a receive FIFO already. A refusal leaves the plan unchanged.
    pub fn set_queue(&mut self, queue: Queue) -> Result<(), PlanError>
        ensures refusal { result_err result ≡ queue_refusal self.old queue }
        ensures accepted { OnOk result (self.new ≡ with_queue self.old queue) }
        ensures refused { OnErr result (self.new ≡ self.old) }
    {
        if !queue_fits(&queue) {
            return Err(PlanError::OutOfRange);
        }
        if self.queue.is_some() {
            return Err(PlanError::TooMany);
        }
        self.queue = Some(queue);
        Ok(())
    }

    /// Returns a copy of the plan.
    pub fn duplicate(&self) -> NodePlan
        ensures { result ≡ self.now }
    {
        // `Clone` is avoided, since it may run out of memory.
        NodePlan {
            tasks: self.tasks,
            latest: self.latest,
            host_entries: self.host_entries,
            slot_entries: self.slot_entries,
            owned: array_of(self.owned.as_slice()),
            buffers: array_of(self.buffers.as_slice()),
            queue: self.queue,
        }
    }

    /// Returns whether the plans have the same numbers, lines, buffers and receive FIFO, in the same order.
    pub fn is_same(&self, other: &NodePlan) -> bool
        ensures { IsTrue result ↔ (self.now ≡ other.now) }
    {
        let [latest_a, latest_b] = self.latest;
        let [other_a, other_b] = other.latest;
        if self.tasks != other.tasks || latest_a != other_a || latest_b != other_b {
            return false;
        }
        if self.host_entries != other.host_entries || self.slot_entries != other.slot_entries {
            return false;
        }
        if !is_same_owned(self.owned(), other.owned()) {
            return false;
        }
        if !are_same_buffers(self.buffers(), other.buffers()) {
            return false;
        }
        is_same_queue(&self.queue, &other.queue)
    }

    /// Returns the number of host tasks, 0 to 8.
    pub fn tasks(&self) -> u8
        ensures value { result ≡ self.now.tasks }
        ensures lawful { IsPlan self.now }
    {
        self.tasks
    }

    /// Returns pLatestTx: the last minislot at which the node begins a dynamic transmission on the channel. It is
    /// counted from 1 up to 8000, and 0 means that the node begins none (chapter 5; a value for each channel is
    /// project-defined).
    pub fn latest(&self, channel: Channel) -> u16
        ensures value { result ≡ latest_on self.now channel }
        ensures lawful { IsPlan self.now }
    {
        let [latest_a, latest_b] = self.latest;
        match channel {
            Channel::A => latest_a,
            Channel::B => latest_b,
        }
    }

    /// Returns the number of host entries that the node's journal has room for, 1 to 16384.
    pub fn host_entries(&self) -> u16
        ensures value { result ≡ self.now.host_entries }
        ensures lawful { IsNodePlan self.now }
    {
        self.host_entries
    }

    /// Returns the number of slot entries that the node's journal has room for, 2 to 65536.
    pub fn slot_entries(&self) -> u32
        ensures value { result ≡ self.now.slot_entries }
        ensures lawful { IsNodePlan self.now }
    {
        self.slot_entries
    }

    /// Returns the buffers in order of their numbers.
    pub fn buffers(&self) -> &[Buffer]
        ensures value { result.now ≡ self.now.buffers }
        ensures lawful { IsPlan self.now }
    {
        self.buffers.as_slice()
    }

    /// Returns the buffer of this number, if the plan has it.
    pub fn buffer(&self, number: u8) -> Option<Buffer>
        ensures { result ≡ buffer_at self.now number }
    {
        self.buffers().get(usize::from(number)).copied()
    }

    /// Returns the ownership lines, in the order in which they were added.
    pub fn owned(&self) -> &[Own]
        ensures value { result.now ≡ self.now.owned }
        ensures lawful { IsPlan self.now }
    {
        self.owned.as_slice()
    }

    /// Returns the receive FIFO, if the node has one.
    pub fn queue(&self) -> Option<Queue>
        ensures value { result ≡ self.now.queue }
        ensures lawful { IsPlan self.now }
    {
        self.queue
    }

    /// Returns the first fault of the plan by these parameters, if it has one.
    ///
    /// `OutOfParams` comes first, then the faults in the order of `PlanFault`. Each kind is looked for in the whole
    /// plan before the next. Of a kind, the first in the order of its numbers is named, channel A before B.
    #[tactic(auto, using(crate::proofs::FaultlessLemmas::faultless_if), unfolding(crate::specs::Faults::plan_fault))]
    pub fn fault(&self, params: &Params) -> Option<PlanFault>
        ensures value { result ≡ plan_fault params.now self.now }
        ensures faultless { IfNone result (IsFaultless params.now self.now) }
    {
        ownership_fault(params, self).or_else(|| buffer_fault(params, self))
    }

    /// Returns the number of the first static transmit buffer whose slot isn't owned. A channel of the buffer and a
    /// cycle that it admits are enough.
    pub fn first_not_owned(&self, params: &Params) -> Option<u8>
        ensures value { result ≡ position (not_owned params.now self.now.owned) self.now.buffers }
        ensures within { IfSome result (λ number. number < length self.now.buffers) }
    {
        let place = not_owned_place(params, self.owned(), self.buffers())?;
        Some(place as u8)
    }

    /// Returns the number of the first dynamic transmit buffer for both channels.
    pub fn first_dynamic_both(&self, params: &Params) -> Option<u8>
        ensures value { result ≡ position (dynamic_both params.now) self.now.buffers }
        ensures within { IfSome result (λ number. number < length self.now.buffers) }
    {
        let place = dynamic_both_place(params, self.buffers())?;
        Some(place as u8)
    }

    /// Returns the number of the first dynamic transmit buffer whose frame would end too late. The frame begins at
    /// pLatestTx of its channel, and would end after the dynamic segment.
    pub fn first_too_long(&self, params: &Params) -> Option<u8>
        ensures value { result ≡ position (too_long params.now self.now) self.now.buffers }
        ensures within { IfSome result (λ number. number < length self.now.buffers) }
    {
        let place = too_long_place(params, self, self.buffers())?;
        Some(place as u8)
    }
}

/// Returns whether the ownership lines are the same.
fn is_same_owned(owned: &[Own], other: &[Own]) -> bool
    ensures { IsTrue result ↔ (owned.now ≡ other.now) }
{
    owned == other
}

/// Returns whether the buffers are the same.
fn are_same_buffers(buffers: &[Buffer], other: &[Buffer]) -> bool
    ensures { IsTrue result ↔ (buffers.now ≡ other.now) }
{
    buffers == other
}

/// Returns whether the receive FIFOs are the same.
fn is_same_queue(queue: &Option<Queue>, other: &Option<Queue>) -> bool
    ensures { IsTrue result ↔ (queue.now ≡ other.now) }
{
    queue == other
}

/// Returns whether an ownership line is in range by itself.
pub fn own_fits(own: &Own) -> bool
    ensures value { result ≡ own_fits own.now }
    ensures ranges { IsOwn own.now }
{
    // For the prover: the clause of this call.
    let _base = own.cycles.base();
    own.slot.number() <= LAST_STATIC_SLOT && (!own.startup || own.sync)
}

/// Returns whether a buffer is in range by itself.
pub fn buffer_fits(buffer: &Buffer) -> bool
    ensures value { result ≡ buffer_fits buffer.now }
    ensures ranges { IsBuffer buffer.now }
{
    // For the prover: the clauses of these calls.
    let _slot = buffer.filter.slot.number();
    let _base = buffer.filter.cycles.base();
    let few_words = match buffer.words {
        Some(words) => u16::from(words) <= MOST_WORDS,
        None => true,
    };
    few_words && (!buffer.mode.is_receive() || !(buffer.words.is_some() || buffer.preamble))
}

/// Returns whether a receive FIFO is in range by itself.
pub fn queue_fits(queue: &Queue) -> bool
    ensures value { result ≡ queue_fits queue.now }
    ensures ranges { IsQueue queue.now }
{
    // For the prover: the clause of this call.
    let _base = queue.cycles.base();
    let (first, last) = (queue.first.number(), queue.last.number());
    1 <= queue.capacity && queue.capacity <= FRAMES && first <= last
}
