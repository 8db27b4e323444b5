//! A judge of a recording.

ghost use Rattle.std.specs.Prelude.{◌≡◌, ◌≤◌, ◌<◌, length, replicate, IfOk, slice_index_or};
ghost use Rattle.fr_judging.specs.Tallies.{fresh_tally, place_of, static_place, away_place, channel_number};
ghost use Rattle.fr_judging.specs.Rules.{other_channel};

use crate::kept::KeptFrame;
use crate::lane::Lane;
use crate::line::Line;
use crate::names::NAMES;
use crate::rules::Rules;
use crate::tally::SlotTally;
use fr_logged::due::Due;
use fr_slots::channel::Channel;
use std::alloc::{AllocError, Global};
use std::marker::Model;

/// The places of the counts of slots: 2,048 numbers on two channels.
pub(crate) const PLACES: usize = 4096;

/// The places of static slots: 1,024 numbers on two channels.
pub(crate) const STATIC_PLACES: usize = 2048;

/// The places of static slots, each with 16 nodes.
pub(crate) const AWAY_PLACES: usize = 32_768;

/// The most lines that are kept of a record. A record can show two for each static slot of a channel, and six more.
pub(crate) const MOST_LINES: usize = 4096;

/// The frame that a slot had in the last cycle in which a buffer for both channels could send there.
#[derive(Drop)]
pub struct Shown {
    /// The number of cycles that the channel had opened.
    pub opened: u64,
    pub frame: KeptFrame,
}

/// Judges a recording, record by record (project-defined).
#[derive(Drop)]
pub struct Judge {
    pub(crate) rules: Rules,
    /// The channel of the record, and the other one.
    pub(crate) mine: Box<Lane>,
    pub(crate) other: Box<Lane>,
    pub(crate) channel: Channel,
    /// What is due in static slots.
    pub(crate) dues: Vec<Option<Due>>,
    pub(crate) slots: Vec<SlotTally>,
    pub(crate) away: Vec<u64>,
    pub(crate) shown: Vec<Shown>,
    pub(crate) lines: Vec<Line>,
    pub(crate) found: Vec<u64>,
    pub(crate) backs: u64,
    pub(crate) records: u64,
    pub(crate) foreign: u64,
    pub(crate) symbols: u64,
}

impl Model for Judge {
    ghost use Rattle.fr_judging.specs.Judging.{State};

    ghost Value = { State };

    ghost use Rattle.fr_judging.specs.Fields.{state_in, HasPlaces};

    ghost view = { state_in };

    ghost invariant = { HasPlaces };
}

/// Returns the number of a channel among the places.
pub(crate) fn channel_number(channel: Channel) -> usize
    ensures value { result ≡ channel_number channel }
    ensures fits { result < 2 }
{
    match channel {
        Channel::A => 0,
        Channel::B => 1,
    }
}

/// Returns the other channel.
pub(crate) fn other_channel(channel: Channel) -> Channel
    ensures { result ≡ other_channel channel }
{
    match channel {
        Channel::A => Channel::B,
        Channel::B => Channel::A,
    }
}

/// Returns the place of a slot on a channel.
pub(crate) fn place_of(slot: u32, channel: Channel) -> usize
    ensures value { result ≡ place_of slot channel }
    ensures fits { result < 4096 }
{
    (slot % 2048) as usize * 2 + channel_number(channel)
}

/// Returns the place of a static slot on a channel.
pub(crate) fn static_place(slot: u32, channel: Channel) -> usize
    ensures value { result ≡ static_place slot channel }
    ensures fits { result < 2048 }
{
    (slot % 1024) as usize * 2 + channel_number(channel)
}

/// Returns the place of a static slot on a channel, and a node.
pub(crate) fn away_place(slot: u32, channel: Channel, node: u8) -> usize
    ensures value { result ≡ away_place slot channel node }
    ensures fits { result < 32768 }
{
    usize::from(node % 16) * STATIC_PLACES + static_place(slot, channel)
}
