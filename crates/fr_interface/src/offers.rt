//! The offers of a node in a window, and their frames.

ghost use Rattle.std.specs.Prelude.{◌≡◌, ◌<◌, length, true, IfSome};
ghost use Rattle.std.specs.List.{position};
ghost use Rattle.fr_journal.specs.Entries.{IsOffered};
ghost use Rattle.fr_slots.specs.Faults.{claims};
ghost use Rattle.fr_interface.specs.Sending.{owner_on, outgoing_on, offered_by, null_frame_with, data_frame_with};
ghost use Rattle.fr_interface.specs.Sending.{frame_by, OffersNothing};
ghost use Rattle.fr_journal.specs.Offers.{is_admitting, transmitter, may_begin, ownership, line_of, sync_of};
ghost use Rattle.fr_journal.specs.Offers.{startup_of, preamble_in, IsHandedOut, bytes_of};

use crate::index::IndexedPlan;
use crate::sending::{Sender, payload_at, sender_on};
use fr_buffers::transmit::TxBuffer;
use fr_frame::encode::encode;
use fr_frame::frame::{Bytes, Frame};
use fr_frame::payload::Payload;
use fr_journal::entry::Offered;
use fr_slots::channel::Channel;
use fr_slots::numbers::{Cycle, SlotId};
use fr_slots::params::Params;
use fr_slots::plan::{Buffer, Own};
use fr_slots::window::Window;

/// Returns whether this is a transmit buffer that admits the window on the channel.
fn is_admitting(window: &Window, channel: Channel, buffer: &Buffer) -> bool
    ensures { result ≡ is_admitting window.now channel buffer.now }
{
    buffer.transmits() && buffer.filter.admits_window(window, channel)
}

/// The offer of a node in a window on a channel, with its buffer and its ownership line.
#[derive(Clone, Copy)]
pub(crate) struct Outgoing {
    /// The transmit buffer that offers a commit, and that commit.
    pub sender: Option<Sender>,
    /// The ownership line for the slot in the window's cycle.
    pub own: Option<Own>,
    /// The offer.
    pub offered: Offered,
}

/// Returns the place of the first transmit buffer that admits the window on the channel.
fn first_admitting(buffers: &[Buffer], window: &Window, channel: Channel) -> Option<usize>
    ensures value { result ≡ position (is_admitting window.now channel) buffers.now }
    ensures there { IfSome result (λ place. place < length buffers.now) }
{
    buffers
        .iter()
        .position(|buffer| is_admitting(window, channel, buffer))
}

/// Returns the number of the transmit buffer that admits the window on the channel.
///
/// It is inlined, so that the slot of the channel is found once for buffer and ownership.
#[inline(always)]
pub(crate) fn transmitter(plan: &IndexedPlan, window: &Window, channel: Channel) -> Option<u8>
    ensures { result ≡ transmitter plan.now window.now channel }
{
    let slot = window.slot(channel)?;
    let range = plan.sending_range(slot);
    let buffers = range.of(plan.as_plan().buffers());
    let place = first_admitting(buffers, window, channel)?;
    Some(range.first + place as u8)
}

/// Returns whether the node may begin to transmit in the window on the channel.
pub(crate) fn may_begin(plan: &IndexedPlan, window: &Window, channel: Channel) -> bool
    ensures { result ≡ may_begin plan.now window.now channel }
{
    window.is_static() || window.minislot <= plan.as_plan().latest(channel)
}

/// Returns the place of the first line for the slot on the channel in the cycle.
fn first_owned_at(owned: &[Own], cycle: Cycle, slot: SlotId, channel: Channel) -> Option<usize>
    ensures { result ≡ position (claims slot channel cycle) owned.now }
{
    owned
        .iter()
        .position(|own| own.claims(cycle, slot, channel))
}

/// Returns the ownership line for the slot on the channel in the cycle.
fn ownership(owned: &[Own], cycle: Cycle, slot: SlotId, channel: Channel) -> Option<Own>
    ensures { result ≡ ownership owned.now slot channel cycle }
{
    let place = first_owned_at(owned, cycle, slot, channel)?;
    owned.get(place).copied()
}

/// Returns the ownership line for the slot of a static window on the channel in the window's cycle.
pub(crate) fn line_of(
    plan: &IndexedPlan,
    window: &Window,
    channel: Channel,
    slot: SlotId,
) -> Option<Own>
    ensures { result ≡ line_of plan.now window.now channel slot }
{
    if !window.is_static() {
        return None;
    }
    let owned = plan.own_range(slot).of(plan.as_plan().owned());
    ownership(owned, window.cycle, slot, channel)
}

/// Returns the ownership line for the slot that the window has on the channel.
fn owner_on(plan: &IndexedPlan, window: &Window, channel: Channel) -> Option<Own>
    ensures { result ≡ owner_on plan.now window.now channel }
{
    let slot = window.slot(channel)?;
    line_of(plan, window, channel, slot)
}

/// Returns the node's offer in the window on the channel, by this ownership line and this sender.
fn offered_by(
    window: &Window,
    channel: Channel,
    own: &Option<Own>,
    sender: Option<Sender>,
) -> Offered
    ensures value { result ≡ offered_by window.now channel own.now sender }
    ensures fits { IsOffered result }
{
    if window.slot(channel).is_none() {
        return Offered::Nothing;
    }
    match sender {
        Some(sender) => Offered::Data(sender.commit),
        None if own.is_some() => Offered::Null,
        None => Offered::Nothing,
    }
}

/// Returns whether the node offers nothing on the channel by its index.
///
/// The plan then has no transmit buffer and no ownership line for the slot of the window.
pub(crate) fn is_idle(plan: &IndexedPlan, window: &Window, channel: Channel) -> bool
    ensures { result ≡ true → OffersNothing plan.now window.now channel }
{
    match window.slot(channel) {
        Some(slot) => plan.sending_range(slot).is_empty() && plan.own_range(slot).is_empty(),
        None => true,
    }
}

/// Returns the offer in the window on the channel, by these transmit buffers.
///
/// It is inlined, so that nothing is moved for the many windows without an offer.
#[inline(always)]
pub(crate) fn outgoing_on(
    plan: &IndexedPlan,
    buffers: &[TxBuffer],
    window: &Window,
    channel: Channel,
) -> Outgoing
    ensures value { result ≡ outgoing_on plan.now buffers.now window.now channel }
    ensures fits { IsOffered result.offered }
{
    // Most nodes send in few of the slots.
    if is_idle(plan, window, channel) {
        return Outgoing {
            sender: None,
            own: None,
            offered: Offered::Nothing,
        };
    }
    outgoing_by_lines(plan, buffers, window, channel)
}

/// Returns the same, by the lines of the plan.
#[inline(never)]
fn outgoing_by_lines(
    plan: &IndexedPlan,
    buffers: &[TxBuffer],
    window: &Window,
    channel: Channel,
) -> Outgoing
    ensures value { result ≡ outgoing_on plan.now buffers.now window.now channel }
    ensures fits { IsOffered result.offered }
{
    let sender = sender_on(plan, buffers, window, channel);
    let own = owner_on(plan, window, channel);
    Outgoing {
        sender,
        own,
        offered: offered_by(window, channel, &own, sender),
    }
}

/// Returns the sync frame indicator of frames sent by the line.
fn sync_of(line: &Option<Own>) -> bool
    ensures { result ≡ sync_of line.now }
{
    match line {
        Some(own) => own.sync,
        None => false,
    }
}

/// Returns the startup frame indicator of frames sent by the line.
fn startup_of(line: &Option<Own>) -> bool
    ensures { result ≡ startup_of line.now }
{
    match line {
        Some(own) => own.startup,
        None => false,
    }
}

/// Returns the payload preamble indicator of the buffer that admits the window on the channel.
fn preamble_in(plan: &IndexedPlan, window: &Window, channel: Channel) -> bool
    ensures { result ≡ preamble_in plan.now window.now channel }
{
    let Some(number) = transmitter(plan, window, channel) else {
        return false;
    };
    match plan.buffer(number) {
        Some(buffer) => buffer.preamble,
        None => false,
    }
}

/// Returns the null frame of a slot that the node owns in the window's cycle by this line.
pub(crate) fn null_frame_with(
    params: &Params,
    window: &Window,
    slot: SlotId,
    own: &Option<Own>,
) -> Frame
    ensures { result ≡ null_frame_with params.now window.now slot own.now }
{
    Frame {
        preamble: false,
        has_data: false,
        sync: sync_of(own),
        startup: startup_of(own),
        id: slot.number(),
        payload: Payload::zeros(params.static_words),
        cycle: window.cycle,
    }
}

/// Returns the data frame with this payload, in a slot with this ownership line in the window's cycle.
pub(crate) fn data_frame_with(
    plan: &IndexedPlan,
    window: &Window,
    channel: Channel,
    slot: SlotId,
    own: &Option<Own>,
    payload: Payload,
) -> Frame
    ensures { result ≡ data_frame_with plan.now window.now channel slot own.now payload }
{
    Frame {
        preamble: preamble_in(plan, window, channel),
        has_data: true,
        sync: sync_of(own),
        startup: startup_of(own),
        id: slot.number(),
        payload,
        cycle: window.cycle,
    }
}

/// Returns the frame that goes out in the window on the channel.
fn frame_by(
    params: &Params,
    plan: &IndexedPlan,
    buffers: &[TxBuffer],
    window: &Window,
    channel: Channel,
    outgoing: &Outgoing,
) -> Option<Frame>
    ensures { result ≡ frame_by params.now plan.now buffers.now window.now channel outgoing.now }
{
    let slot = window.slot(channel)?;
    let own = &outgoing.own;
    match outgoing.sender {
        Some(sender) => {
            let payload = payload_at(buffers, sender.buffer);
            Some(data_frame_with(plan, window, channel, slot, own, payload))
        }
        None if own.is_some() => Some(null_frame_with(params, window, slot, own)),
        None => None,
    }
}

/// Returns the bytes of the offer's frame in the window on the channel.
///
/// It isn't inlined, so that a window without an offer doesn't pay for the room of a frame.
#[inline(never)]
pub(crate) fn spelled_by(
    params: &Params,
    plan: &IndexedPlan,
    buffers: &[TxBuffer],
    window: &Window,
    channel: Channel,
    outgoing: &Outgoing,
) -> Option<Bytes>
    ensures spelled { IsHandedOut channel (frame_by params.now plan.now buffers.now window.now channel outgoing.now)
        result }
    ensures bytes { result ≡ bytes_of channel (frame_by params.now plan.now buffers.now window.now channel
        outgoing.now) }
{
    frame_by(params, plan, buffers, window, channel, outgoing).map(|frame| encode(&frame, channel))
}
