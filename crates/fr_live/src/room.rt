//! The room of a world without history.

use std::marker::Model;

/// The greatest number of host entries of a node.
const HOST: u32 = 1_073_741_824;

/// The greatest number of slot entries of a node.
const SLOT: u32 = 3_221_225_469;

/// The numbers of host calls and of controller calls that each interface of a world accepts (project-defined). No
/// memory is kept for them: entries are numbered in 32 bits, as those of a journal are.
#[derive(Drop)]
pub struct Room {
    host: u32,
    slot: u32,
}

impl Model for Room {
    ghost use Rattle.fr_live.specs.LiveWorlds.{Entries};

    ghost Value = { Entries };

    ghost use Rattle.fr_live.specs.RoomFields.{entries_in, Fits};

    ghost view = { entries_in };

    ghost invariant = { Fits };
}

impl Room {
    ghost use Rattle.std.specs.Prelude.{◌≡◌, ◌≤◌, ◌&&◌, nat_le, Some, None, if◌then◌else◌};
    ghost use Rattle.fr_slots.specs.Numbers.{last_host_limit, last_slot_limit};

    /// Returns the room for 2^30 host calls and 3·2^30 - 3 controller calls, the most that entry numbers allow.
    pub fn greatest() -> Room
        ensures { result ≡ record { host = last_host_limit; slot = last_slot_limit } }
    {
        Room {
            host: HOST,
            slot: SLOT,
        }
    }

    /// Returns the room for so many calls. None if there are no host calls or more than 2^30, and if there are fewer
    /// than 2 controller calls or more than 3·2^30 - 3.
    pub fn new(host: u32, slot: u32) -> Option<Room>
        ensures { result ≡ (if nat_le 1 host && nat_le host last_host_limit && nat_le 2 slot
            && nat_le slot last_slot_limit then Some (record { host = host; slot = slot }) else None) }
    {
        if host >= 1 && host <= HOST && slot >= 2 && slot <= SLOT {
            Some(Room { host, slot })
        } else {
            None
        }
    }

    /// Returns the number of host calls.
    pub fn host(&self) -> u32
        ensures value { result ≡ self.now.host }
        ensures some { 1 ≤ result }
        ensures fits { result ≤ last_host_limit }
    {
        self.host
    }

    /// Returns the number of controller calls.
    pub fn slot(&self) -> u32
        ensures value { result ≡ self.now.slot }
        ensures some { 2 ≤ result }
        ensures fits { result ≤ last_slot_limit }
    {
        self.slot
    }
}
