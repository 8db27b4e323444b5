//! What is due in static slots, as a table.

ghost use Rattle.std.specs.Prelude.{◌≡◌, ◌*◌, ◌^◌, ◌<◌, ◌≤◌, IfOk};
ghost use Rattle.fr_judging.specs.DueTable.{width_of, due_place, due_in, all_dues, channel_of};
ghost use Rattle.fr_judging.specs.Rules.{due_at};

use crate::judge::{Judge, channel_number};
use crate::rules::Rules;
use fr_logged::due::Due;
use fr_slots::channel::Channel;
use fr_slots::numbers::Cycle;
use std::alloc::{AllocError, Global};

/// Returns the number of places of a cycle: two for each static slot, and for slot 0.
#[inline(always)]
fn width_of(slots: u32) -> usize
    requires { slots < 2 ^ 16 }
    ensures { result ≡ width_of slots }
{
    (slots as usize + 1) * 2
}

/// Returns the place of a slot on a channel in a cycle, if a cycle has so many places.
#[inline(always)]
fn due_place(width: usize, slot: u32, channel: Channel, cycle: Cycle) -> usize
    requires { width < 2 ^ 18 }
    ensures value { result ≡ due_place width slot channel cycle }
    ensures fits { cycle < 64 }
{
    usize::from(cycle.number()) * width + (slot as usize * 2 + channel_number(channel))
}

/// Returns the channel of this number among the places.
fn channel_of(number: usize) -> Channel
    ensures { result ≡ channel_of number }
{
    if number == 0 { Channel::A } else { Channel::B }
}

/// Returns what is due at a place of the table, if a cycle has so many places.
fn due_in(rules: &Rules, width: usize, place: usize) -> Option<Due>
    requires some { 0 < width }
    requires few { width < 2 ^ 18 }
    requires within { place < 64 * width }
    ensures { result ≡ due_in rules.now.cluster width place }
{
    let rest = place % width;
    let channel = channel_of(rest % 2);
    let cycle = Cycle::from_bits((place / width) as u8);
    rules.due((rest / 2) as u32, channel, cycle)
}

/// Returns what is due in static slots.
pub(crate) fn all_dues(alloc: Global, rules: &Rules) -> Result<Vec<Option<Due>>, AllocError>
    ensures { IfOk result (λ dues. dues.items ≡ all_dues rules.now.cluster) }
{
    let width = width_of(rules.static_slots());
    let places = 64 * width;
    let mut dues = Vec::with_capacity(alloc, places)?;
    for place in 0..places {
        dues.push(due_in(rules, width, place))?;
    }
    Ok(dues)
}

impl Judge {
    /// Returns what may be sent in a static slot of this number on the channel, if anything, by the table.
    #[inline(always)]
    pub(crate) fn static_due(&self, slot: u32, cycle: Cycle) -> Option<Due>
        requires { slot ≤ self.now.rules.cluster.params.static_slots }
        ensures { result ≡ due_at self.now.rules.cluster slot self.now.channel cycle }
    {
        let width = width_of(self.rules.static_slots());
        let place = due_place(width, slot, self.channel, cycle);
        self.dues[place]
    }

    /// Returns what may be sent in the slot of this number on the channel, if anything. Static slots are in the table.
    pub(crate) fn due(&self, slot: u32, cycle: Cycle) -> Option<Due>
        ensures { result ≡ due_at self.now.rules.cluster slot self.now.channel cycle }
    {
        if slot <= self.rules.static_slots() {
            self.static_due(slot, cycle)
        } else {
            self.rules.due(slot, self.channel, cycle)
        }
    }
}
