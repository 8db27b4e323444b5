//! Places in a cycle.

use fr_slots::numbers::SlotId;

/// A macrotick of a cycle: a part of the cycle, and the distance from the start of that part. Chapter 5; action points
/// aren't modelled.
///
/// An `offset` is in macroticks, 0 for the first macrotick of the part.
#[derive(Clone, Copy, PartialEq, Eq)]
pub enum Place {
    /// A macrotick of a static slot, which starts at the same time on both channels.
    Static { slot: SlotId, offset: u32 },
    /// A macrotick of a minislot of the dynamic segment, counted from 1.
    Minislot { number: u16, offset: u32 },
    /// A macrotick of the symbol window.
    Symbol { offset: u32 },
    /// A macrotick of the network idle time.
    Idle { offset: u32 },
}
