//! The numbers of slots, cycles, nodes and host tasks.

ghost use Rattle.std.specs.Prelude.{◌≡◌, ◌+◌, ◌%◌, ◌<◌, ◌≤◌};
ghost use Rattle.fr_slots.specs.Numbers.{number_within, last_slot, last_cycle, cycle_count, last_node, last_task};

use std::fmt;
use std::marker::Model;

/// The number of the last slot (chapter 5).
pub const LAST_SLOT: u16 = 2047;

/// The number of cycles, after which they are counted from 0 again (chapter 5).
pub const CYCLES: u8 = 64;

/// The greatest number of nodes of a cluster (project-defined).
pub const NODES: u8 = 16;

/// The greatest number of host tasks of a node (project-defined).
pub const TASKS: u8 = 8;

/// The number of a slot: 1 to 2047 (chapter 5).
#[derive(Clone, Copy, Debug, PartialEq, Eq, PartialOrd, Ord, Hash)]
pub struct SlotId(u16);

impl Model for SlotId {
    ghost use Rattle.std.specs.Prelude.{ℕ};
    ghost use Rattle.fr_slots.specs.Numbers.{IsSlot};

    ghost Value = { ℕ };

    ghost view = { λ s. s.0 };

    ghost invariant = { λ s. IsSlot s.0 };

    ghost inverse = { λ n. record { 0 = n } };
}

impl Default for SlotId {
    ghost is_default = { λ s. s ≡ 1 };

    /// Returns the first slot.
    fn default() -> SlotId {
        SlotId(1)
    }
}

impl fmt::Display for SlotId {
    ghost use Rattle.std.specs.Prelude.{Some};
    ghost use Rattle.std.specs.Fmt.{decimal};

    ghost output = { λ slot. Some (decimal slot) };

    /// Writes the number.
    fn fmt<W: fmt::Write>(&self, f: &mut fmt::Formatter<W>) -> fmt::Result {
        write!(f, "{}", self.number())
    }
}

impl SlotId {
    ghost use Rattle.fr_slots.specs.Numbers.{IsSlot};

    /// Returns the slot of this number, or none for 0 and above 2047.
    pub fn new(number: u16) -> Option<SlotId>
        ensures { result ≡ number_within 1 last_slot number }
    {
        if 1 <= number && number <= LAST_SLOT {
            Some(SlotId(number))
        } else {
            None
        }
    }

    /// Returns the slot as a number, 1 to 2047.
    pub fn number(self) -> u16
        ensures value { result ≡ self }
        ensures fits { IsSlot self }
    {
        self.0
    }
}

/// The number of a cycle: 0 to 63, then 0 again (chapter 5).
#[derive(Clone, Copy, Debug, PartialEq, Eq, PartialOrd, Ord, Hash)]
pub struct Cycle(u8);

impl Model for Cycle {
    ghost use Rattle.std.specs.Prelude.{ℕ, ◌<◌};
    ghost use Rattle.fr_slots.specs.Numbers.{cycle_count};

    ghost Value = { ℕ };

    ghost view = { λ c. c.0 };

    ghost invariant = { λ c. c.0 < cycle_count };

    ghost inverse = { λ n. record { 0 = n } };
}

impl fmt::Display for Cycle {
    ghost use Rattle.std.specs.Prelude.{Some};
    ghost use Rattle.std.specs.Fmt.{decimal};

    ghost output = { λ cycle. Some (decimal cycle) };

    /// Writes the number.
    fn fmt<W: fmt::Write>(&self, f: &mut fmt::Formatter<W>) -> fmt::Result {
        write!(f, "{}", self.number())
    }
}

impl Cycle {
    /// Returns the cycle of this number, or none above 63.
    pub fn new(number: u8) -> Option<Cycle>
        ensures { result ≡ number_within 0 last_cycle number }
    {
        if number < CYCLES {
            Some(Cycle(number))
        } else {
            None
        }
    }

    /// Returns the cycle of six bits, which always name one.
    pub fn from_bits(bits: u8) -> Cycle
        requires { bits < cycle_count }
        ensures { result ≡ bits }
    {
        Cycle(bits)
    }

    /// Returns the cycle as a number, 0 to 63.
    pub fn number(self) -> u8
        ensures value { result ≡ self }
        ensures fits { self < cycle_count }
    {
        self.0
    }

    /// Returns the next cycle, which is 0 after 63.
    pub fn next(self) -> Cycle
        ensures { result ≡ (self + 1) % cycle_count }
    {
        Cycle((self.0 + 1) % CYCLES)
    }
}

/// The number of a node: 0 to 15 (project-defined).
#[derive(Clone, Copy, Debug, PartialEq, Eq, PartialOrd, Ord, Hash)]
pub struct NodeId(u8);

impl Model for NodeId {
    ghost use Rattle.std.specs.Prelude.{ℕ, ◌<◌};

    ghost Value = { ℕ };

    ghost view = { λ n. n.0 };

    ghost invariant = { λ n. n.0 < 16 };

    ghost inverse = { λ n. record { 0 = n } };
}

impl fmt::Display for NodeId {
    ghost use Rattle.std.specs.Prelude.{Some};
    ghost use Rattle.std.specs.Fmt.{decimal};

    ghost output = { λ node. Some (decimal node) };

    /// Writes the number.
    fn fmt<W: fmt::Write>(&self, f: &mut fmt::Formatter<W>) -> fmt::Result {
        write!(f, "{}", self.number())
    }
}

impl NodeId {
    /// Returns the node of this number, or none above 15.
    pub fn new(number: u8) -> Option<NodeId>
        ensures { result ≡ number_within 0 last_node number }
    {
        if number < NODES {
            Some(NodeId(number))
        } else {
            None
        }
    }

    /// Returns the node of a number that is known to be in range.
    pub fn from_number(number: u8) -> NodeId
        requires { number < 16 }
        ensures { result ≡ number }
    {
        NodeId(number)
    }

    /// Returns the node as a number, 0 to 15.
    pub fn number(self) -> u8
        ensures value { result ≡ self }
        ensures fits { self < 16 }
    {
        self.0
    }
}

/// The number of a host task of a node: 0 to 7 (project-defined).
#[derive(Clone, Copy, Debug, PartialEq, Eq, PartialOrd, Ord, Hash)]
pub struct TaskId(u8);

impl Model for TaskId {
    ghost use Rattle.std.specs.Prelude.{ℕ, ◌<◌};

    ghost Value = { ℕ };

    ghost view = { λ t. t.0 };

    ghost invariant = { λ t. t.0 < 8 };

    ghost inverse = { λ n. record { 0 = n } };
}

impl fmt::Display for TaskId {
    ghost use Rattle.std.specs.Prelude.{Some};
    ghost use Rattle.std.specs.Fmt.{decimal};

    ghost output = { λ task. Some (decimal task) };

    /// Writes the number.
    fn fmt<W: fmt::Write>(&self, f: &mut fmt::Formatter<W>) -> fmt::Result {
        write!(f, "{}", self.number())
    }
}

impl TaskId {
    /// Returns the task of this number, or none above 7.
    pub fn new(number: u8) -> Option<TaskId>
        ensures { result ≡ number_within 0 last_task number }
    {
        if number < TASKS {
            Some(TaskId(number))
        } else {
            None
        }
    }

    /// Returns the task of a number that is known to be in range.
    pub fn from_number(number: u8) -> TaskId
        requires { number < 8 }
        ensures { result ≡ number }
    {
        TaskId(number)
    }

    /// Returns the task as a number, 0 to 7.
    pub fn number(self) -> u8
        ensures value { result ≡ self }
        ensures fits { self < 8 }
    {
        self.0
    }
}
