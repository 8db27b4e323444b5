//! The frames that the fetches of a journal handed to the bus.

ghost use Rattle.std.specs.Prelude.{◌≡◌, take};
ghost use Rattle.fr_interface.specs.Handing.{offered_on, bytes_in_entry};
ghost use Rattle.fr_journal.specs.Offers.{payload_of, data_frame_of, frame_with};

use crate::index::IndexedPlan;
use crate::offers::{data_frame_with, line_of, null_frame_with};
use fr_frame::encode::encode;
use fr_frame::frame::{Bytes, Frame};
use fr_frame::payload::Payload;
use fr_journal::entry::{Entry, Offered};
use fr_journal::journal::Journal;
use fr_slots::channel::Channel;
use fr_slots::numbers::SlotId;
use fr_slots::params::Params;
use fr_slots::window::Window;

/// The first entries of a journal.
#[derive(Clone, Copy)]
pub(crate) struct FirstEntries<'a> {
    /// The journal.
    pub journal: &'a Journal,
    /// The number of entries.
    pub count: u32,
}

/// Returns the payload of the commit of this number among the first entries, or none if it isn't one of these.
#[tactic(auto, using(crate::proofs::HandingLemmas::get_take, crate::proofs::HandingLemmas::get_past_take))]
fn payload_of(first: &FirstEntries<'_>, commit: u32) -> Payload
    ensures { result ≡ payload_of (take first.now.count first.now.journal.now.entries) commit }
{
    if commit >= first.count {
        return Payload::default();
    }
    match first.journal.get(commit) {
        Some(Entry::Commit { payload, .. }) => payload,
        _ => Payload::default(),
    }
}

/// Returns the data frame with the payload of the commit of this number among the first entries.
fn data_frame_of(
    plan: &IndexedPlan,
    first: &FirstEntries<'_>,
    window: &Window,
    channel: Channel,
    slot: SlotId,
    commit: u32,
) -> Frame
    ensures { result ≡ data_frame_of plan.now
        (take first.now.count first.now.journal.now.entries) window.now channel slot commit }
{
    let own = line_of(plan, window, channel, slot);
    let payload = payload_of(first, commit);
    data_frame_with(plan, window, channel, slot, &own, payload)
}

/// Returns the frame of this offer in the window on the channel, after the first entries.
fn frame_with(
    params: &Params,
    plan: &IndexedPlan,
    first: &FirstEntries<'_>,
    window: &Window,
    channel: Channel,
    offered: Offered,
) -> Option<Frame>
    ensures { result ≡ frame_with params.now plan.now
        (take first.now.count first.now.journal.now.entries) window.now channel offered }
{
    let slot = window.slot(channel)?;
    match offered {
        Offered::Nothing => None,
        Offered::Null => {
            let own = line_of(plan, window, channel, slot);
            Some(null_frame_with(params, window, slot, &own))
        }
        Offered::Data(commit) => { Some(data_frame_of(plan, first, window, channel, slot, commit)) }
    }
}

/// Returns the offer on one of the two channels.
fn offered_on(channel: Channel, a: Offered, b: Offered) -> Offered
    ensures { result ≡ offered_on channel a b }
{
    match channel {
        Channel::A => a,
        Channel::B => b,
    }
}

/// Returns the bytes that the entry after the first ones handed to the bus on the channel.
pub(crate) fn bytes_in_entry(
    params: &Params,
    plan: &IndexedPlan,
    first: &FirstEntries<'_>,
    channel: Channel,
    entry: &Entry,
) -> Option<Bytes>
    ensures { result ≡ bytes_in_entry params.now plan.now
        (take first.now.count first.now.journal.now.entries) channel entry.now }
{
    let Entry::Fetch { window, a, b } = entry else {
        return None;
    };
    let offered = offered_on(channel, *a, *b);
    let frame = frame_with(params, plan, first, window, channel, offered)?;
    Some(encode(&frame, channel))
}
