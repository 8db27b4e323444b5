//! The faults of a node's plan, by the parameters of its cluster.

ghost use Rattle.std.specs.Prelude.{◌≡◌, ◌<◌, ◌≤◌, length, position, IfSome};
ghost use Rattle.std.specs.List.{list_any};
ghost use Rattle.fr_slots.specs.Faults.{ownership_fault, buffer_fault, first_overlap, first_buffer, out_of_params};
ghost use Rattle.fr_slots.specs.Faults.{is_owned_beyond, has_late_latest, has_wrong_words, is_unowned_on, any_unowned};
ghost use Rattle.fr_slots.specs.Faults.{is_unowned_in, is_owned_always, is_undivided, is_owned, claims, not_owned};
ghost use Rattle.fr_slots.specs.Faults.{dynamic_both, too_long, ends_late_on, ends_late, minislots_filled};
ghost use Rattle.fr_slots.specs.Numbers.{most_lines};
ghost use Rattle.fr_slots.specs.Sharing.{own_filter, own_filters, transmit_filters};

use crate::channel::Channel;
use crate::filter::Filter;
use crate::numbers::{CYCLES, Cycle, SlotId};
use crate::params::Params;
use crate::plan::{Buffer, LINES, NodePlan, Own};
use crate::sharing::{earlier, first_shared};
use arrayvec::ArrayVec;
use thiserror::Error;

/// Reasons to refuse a plan. A buffer is named by its number.
#[derive(Clone, Copy, Debug, PartialEq, Eq, Error)]
pub enum PlanFault {
    /// A static transmit buffer whose slot the node doesn't own. The node has to own it on all of the buffer's
    /// channels, in all cycles that the buffer admits (chapter 5; the division by cycles is project-defined).
    #[error("NotOwned {0}")]
    NotOwned(u8),
    /// A dynamic transmit buffer for both channels (project-defined).
    #[error("DynamicBoth {0}")]
    DynamicBoth(u8),
    /// Two ownership lines for the slot on the channel in the cycle, or two transmit buffers that admit it. In a cycle
    /// one node sends there, from one buffer (chapter 5).
    #[error("Overlap {0} {1} {2}")]
    Overlap(SlotId, Channel, Cycle),
    /// A dynamic transmit buffer whose frame could end after the dynamic segment (project-defined). The frame begins at
    /// pLatestTx of its channel, and the minislots that stay idle after it don't count.
    #[error("TooLong {0}")]
    TooLong(u8),
    /// A plan that doesn't fit the parameters (project-defined). An owned slot isn't static, pLatestTx is above the
    /// number of minislots, a static transmit buffer has words of its own, or a dynamic one has none.
    #[error("OutOfParams")]
    OutOfParams,
}

/// Returns the first `OutOfParams` or `NotOwned` of the plan.
#[tactic(auto, unfolding(crate::specs::Faults::ownership_fault))]
pub(crate) fn ownership_fault(params: &Params, plan: &NodePlan) -> Option<PlanFault>
    ensures { result ≡ ownership_fault params.now plan.now }
{
    out_of_params(params, plan).or_else(|| plan.first_not_owned(params).map(PlanFault::NotOwned))
}

/// Returns the first fault of another kind: of the ownership lines among themselves, or of the buffers.
#[tactic(auto, unfolding(crate::specs::Faults::buffer_fault))]
pub(crate) fn buffer_fault(params: &Params, plan: &NodePlan) -> Option<PlanFault>
    ensures { result ≡ buffer_fault params.now plan.now }
{
    let both = plan.first_dynamic_both(params).map(PlanFault::DynamicBoth);
    both.or_else(|| first_overlap(plan.owned(), plan.buffers()))
        .or_else(|| plan.first_too_long(params).map(PlanFault::TooLong))
}

/// Returns the fault of a plan that doesn't fit the parameters.
fn out_of_params(params: &Params, plan: &NodePlan) -> Option<PlanFault>
    ensures { result ≡ out_of_params params.now plan.now }
{
    if any_owned_beyond(params, plan.owned())
        || has_late_latest(params, plan)
        || any_wrong_words(params, plan.buffers())
    {
        Some(PlanFault::OutOfParams)
    } else {
        None
    }
}

/// Returns whether an ownership line is for a slot that isn't static.
fn any_owned_beyond(params: &Params, owned: &[Own]) -> bool
    ensures { result ≡ list_any (is_owned_beyond params.now) owned.now }
{
    owned.iter().any(|own| is_owned_beyond(params, own))
}

/// Returns whether the ownership line is for a slot that isn't static.
fn is_owned_beyond(params: &Params, own: &Own) -> bool
    ensures { result ≡ is_owned_beyond params.now own.now }
{
    !params.is_static(own.slot)
}

/// Returns whether pLatestTx of a channel is above the number of minislots.
fn has_late_latest(params: &Params, plan: &NodePlan) -> bool
    ensures { result ≡ has_late_latest params.now plan.now }
{
    params.minislots < plan.latest(Channel::A) || params.minislots < plan.latest(Channel::B)
}

/// Returns whether a transmit buffer has the wrong words.
fn any_wrong_words(params: &Params, buffers: &[Buffer]) -> bool
    ensures { result ≡ list_any (has_wrong_words params.now) buffers.now }
{
    buffers.iter().any(|buffer| has_wrong_words(params, buffer))
}

/// Returns whether a transmit buffer has words of its own in a static slot, or none in a dynamic one.
fn has_wrong_words(params: &Params, buffer: &Buffer) -> bool
    ensures { result ≡ has_wrong_words params.now buffer.now }
{
    buffer.transmits_static(params) && buffer.words.is_some()
        || buffer.transmits_dynamic(params) && buffer.words.is_none()
}

/// Returns the ownership lines, which are at most 64, as filters.
pub fn own_filters(owned: &[Own]) -> ArrayVec<Filter, LINES>
    requires { length owned.now ≤ most_lines }
    ensures { result.items ≡ own_filters owned.now }
{
    let mut filters = ArrayVec::new();
    for own in owned {
        filters.push(own_filter(own));
    }
    filters
}

/// Returns an ownership line as a filter.
fn own_filter(own: &Own) -> Filter
    ensures { result ≡ own_filter own.now }
{
    Filter {
        slot: own.slot,
        channels: own.channels,
        cycles: own.cycles,
    }
}

/// Returns the place of the first static transmit buffer whose slot isn't owned. A channel of the buffer and a cycle
/// that it admits are enough.
pub(crate) fn not_owned_place(params: &Params, owned: &[Own], buffers: &[Buffer]) -> Option<usize>
    ensures value { result ≡ position (not_owned params.now owned.now) buffers.now }
    ensures within { IfSome result (λ place. place < length buffers.now) }
{
    buffers
        .iter()
        .position(|buffer| not_owned(params, owned, buffer))
}

/// Returns whether a static transmit buffer has a channel and a cycle in which its slot isn't owned.
fn not_owned(params: &Params, owned: &[Own], buffer: &Buffer) -> bool
    ensures { result ≡ not_owned params.now owned.now buffer.now }
{
    buffer.transmits_static(params)
        && (is_unowned_on(owned, &buffer.filter, Channel::A)
            || is_unowned_on(owned, &buffer.filter, Channel::B))
}

/// Returns whether the channel is the filter's, and the slot isn't owned there in an admitted cycle.
fn is_unowned_on(owned: &[Own], filter: &Filter, channel: Channel) -> bool
    ensures { result ≡ is_unowned_on owned.now filter.now channel }
{
    filter.channels.includes(channel) && any_unowned(owned, filter, channel)
}

/// Returns whether the filter's slot isn't owned on the channel in a cycle that the filter admits.
fn any_unowned(owned: &[Own], filter: &Filter, channel: Channel) -> bool
    ensures { result ≡ any_unowned owned.now filter.now channel }
{
    // Most slots are undivided, and one pass over the lines is enough for them.
    if is_owned_always(owned, filter.slot, channel) {
        return false;
    }
    for number in 0..CYCLES {
        if is_unowned_in(owned, filter, channel, Cycle::from_bits(number)) {
            return true;
        }
    }
    false
}

/// Returns whether the filter admits the cycle, and its slot isn't owned on the channel in that cycle.
fn is_unowned_in(owned: &[Own], filter: &Filter, channel: Channel, cycle: Cycle) -> bool
    ensures { result ≡ is_unowned_in owned.now filter.now channel cycle }
{
    filter.cycles.admits(cycle) && !is_owned(owned, cycle, filter.slot, channel)
}

/// Returns whether an undivided ownership line is for the slot on the channel.
fn is_owned_always(owned: &[Own], slot: SlotId, channel: Channel) -> bool
    ensures { result ≡ is_owned_always owned.now slot channel }
{
    owned.iter().any(|own| own.is_undivided(slot, channel))
}

/// Returns whether an ownership line is for the slot on the channel in the cycle.
pub fn is_owned(owned: &[Own], cycle: Cycle, slot: SlotId, channel: Channel) -> bool
    ensures { result ≡ is_owned owned.now slot channel cycle }
{
    owned.iter().any(|own| own.claims(cycle, slot, channel))
}

/// Returns the place of the first dynamic transmit buffer for both channels.
pub(crate) fn dynamic_both_place(params: &Params, buffers: &[Buffer]) -> Option<usize>
    ensures value { result ≡ position (dynamic_both params.now) buffers.now }
    ensures within { IfSome result (λ place. place < length buffers.now) }
{
    buffers
        .iter()
        .position(|buffer| dynamic_both(params, buffer))
}

/// Returns whether a dynamic transmit buffer is for both channels.
fn dynamic_both(params: &Params, buffer: &Buffer) -> bool
    ensures { result ≡ dynamic_both params.now buffer.now }
{
    let channels = buffer.filter.channels;
    buffer.transmits_dynamic(params)
        && channels.includes(Channel::A)
        && channels.includes(Channel::B)
}

/// Returns the fault of the first overlap of two ownership lines or of two transmit buffers.
fn first_overlap(owned: &[Own], buffers: &[Buffer]) -> Option<PlanFault>
    requires few_owned { length owned.now ≤ most_lines }
    requires few_buffers { length buffers.now ≤ most_lines }
    ensures { result ≡ first_overlap owned.now buffers.now }
{
    let of_owners = first_shared(own_filters(owned).as_slice());
    let of_buffers = first_shared(transmit_filters(buffers).as_slice());
    let shared = earlier(of_owners, of_buffers)?;
    Some(PlanFault::Overlap(shared.slot, shared.channel, shared.cycle))
}

/// Returns the filters of the transmit buffers, which are at most 64.
pub fn transmit_filters(buffers: &[Buffer]) -> ArrayVec<Filter, LINES>
    requires { length buffers.now ≤ most_lines }
    ensures { result.items ≡ transmit_filters buffers.now }
{
    let mut filters = ArrayVec::new();
    for buffer in buffers {
        if buffer.transmits() {
            filters.push(buffer.filter);
        }
    }
    filters
}

/// Returns the place of the first dynamic transmit buffer whose frame would end too late.
pub(crate) fn too_long_place(params: &Params, plan: &NodePlan, buffers: &[Buffer]) -> Option<usize>
    ensures value { result ≡ position (too_long params.now plan.now) buffers.now }
    ensures within { IfSome result (λ place. place < length buffers.now) }
{
    buffers
        .iter()
        .position(|buffer| too_long(params, plan, buffer))
}

/// Returns whether a frame of a dynamic transmit buffer would end too late on one of its channels.
fn too_long(params: &Params, plan: &NodePlan, buffer: &Buffer) -> bool
    ensures { result ≡ too_long params.now plan.now buffer.now }
{
    buffer.transmits_dynamic(params)
        && (ends_late_on(params, plan, buffer, Channel::A)
            || ends_late_on(params, plan, buffer, Channel::B))
}

/// Returns whether the channel is the buffer's, and its frame would end too late there. The frame begins at pLatestTx
/// of the channel.
fn ends_late_on(params: &Params, plan: &NodePlan, buffer: &Buffer, channel: Channel) -> bool
    ensures { result ≡ ends_late_on params.now plan.now buffer.now channel }
{
    buffer.filter.channels.includes(channel)
        && ends_late(params, plan, buffer.words(params), channel)
}

/// Returns whether a frame of so many words would end after the dynamic segment. The frame begins at pLatestTx of the
/// channel.
fn ends_late(params: &Params, plan: &NodePlan, words: u16, channel: Channel) -> bool
    requires { words < 256 }
    ensures { result ≡ ends_late params.now plan.now words channel }
{
    let latest = plan.latest(channel);
    1 <= latest && params.minislots < latest - 1 + minislots_filled(params, words)
}

/// Returns the number of minislots that a frame of so many words fills.
fn minislots_filled(params: &Params, words: u16) -> u16
    requires { words < 256 }
    ensures value { result ≡ minislots_filled params.now words }
    ensures fits { result ≤ 260 }
{
    (words + 4).div_ceil(params.words_per_minislot)
}
