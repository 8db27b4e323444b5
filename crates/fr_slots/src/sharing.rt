//! The first slot, on a channel and in a cycle, that two filters share.

ghost use Rattle.std.specs.Prelude.{◌≡◌};
ghost use Rattle.fr_slots.specs.Sharing.{both_include, is_before, earlier, IsFirst, is_shared, is_shared_with};
ghost use Rattle.fr_slots.specs.Sharing.{is_shared_by, common_channel};

use crate::channel::{Channel, Channels};
use crate::filter::Filter;
use crate::numbers::{Cycle, SlotId};

/// A slot on a channel in a cycle.
#[derive(Clone, Copy, PartialEq, Eq)]
pub struct Occasion {
    pub slot: SlotId,
    pub channel: Channel,
    pub cycle: Cycle,
}

/// Returns the first occasion that two of the filters admit, if there is one. The order is by slot, then channel A
/// before B, then by cycle.
pub fn first_shared(filters: &[Filter]) -> Option<Occasion>
    ensures { IsFirst (is_shared filters.now) result }
{
    // At most 64 lines and 64 buffers give about four thousand pairs, so pairs need no table. `fr_schedule` has up to
    // 1,024 of each, about a million pairs, and a table.
    let mut first = None;
    for (number, filter) in filters.iter().enumerate() {
        first = earlier(first, first_shared_with(filter, &filters[..number]));
    }
    first
}

/// Returns the first occasion that the filter and one of the others admit.
fn first_shared_with(filter: &Filter, others: &[Filter]) -> Option<Occasion>
    ensures { IsFirst (is_shared_with filter.now others.now) result }
{
    let mut first = None;
    for other in others {
        first = earlier(first, first_shared_by(filter, other));
    }
    first
}

/// Returns the first occasion that both filters admit.
fn first_shared_by(one: &Filter, other: &Filter) -> Option<Occasion>
    ensures { IsFirst (is_shared_by one.now other.now) result }
{
    if one.slot.number() != other.slot.number() {
        return None;
    }
    let channel = common_channel(one.channels, other.channels)?;
    let cycle = one.cycles.first_common(&other.cycles)?;
    Some(Occasion {
        slot: one.slot,
        channel,
        cycle,
    })
}

/// Returns the first channel that both include.
fn common_channel(one: Channels, other: Channels) -> Option<Channel>
    ensures { result ≡ common_channel one other }
{
    if both_include(one, other, Channel::A) {
        Some(Channel::A)
    } else if both_include(one, other, Channel::B) {
        Some(Channel::B)
    } else {
        None
    }
}

/// Returns whether both include the channel.
fn both_include(one: Channels, other: Channels, channel: Channel) -> bool
    ensures { result ≡ both_include one other channel }
{
    one.includes(channel) && other.includes(channel)
}

/// Returns the earlier one of two occasions, if there is one.
pub fn earlier(one: Option<Occasion>, other: Option<Occasion>) -> Option<Occasion>
    ensures { result ≡ earlier one other }
{
    match (one, other) {
        (None, _) => other,
        (Some(_), None) => one,
        (Some(first), Some(second)) => { if is_before(second, first) { other } else { one } }
    }
}

/// Returns whether one comes before the other: by slot, then by channel, then by cycle.
fn is_before(one: Occasion, other: Occasion) -> bool
    ensures { result ≡ is_before one other }
{
    let (one_cycle, other_cycle) = (one.cycle.number(), other.cycle.number());
    let (one_slot, other_slot) = (one.slot.number(), other.slot.number());
    if one_slot != other_slot {
        return one_slot < other_slot;
    }
    match (one.channel, other.channel) {
        (Channel::A, Channel::B) => true,
        (Channel::B, Channel::A) => false,
        (Channel::A, Channel::A) | (Channel::B, Channel::B) => one_cycle < other_cycle,
    }
}
