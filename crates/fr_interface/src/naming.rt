//! The frame that an origin names.

ghost use Rattle.std.specs.Prelude.{◌≡◌};
ghost use Rattle.fr_journal.specs.Counts.{seen_on};
ghost use Rattle.fr_journal.specs.Held.{frame_in_entry, frame_named};

use crate::observed::Told;
use fr_frame::frame::Frame;
use fr_frame::lent::LentFrame;
use fr_journal::entry::{Entry, Origin};
use fr_journal::journal::Journal;
use fr_journal::lent::LentEntry;
use fr_slots::channel::Channel;
use fr_slots::params::Params;
use fr_slots::window::Window;
use fr_status::seen::Seen;

/// Returns the valid data frame that the observe of this number had on this channel, if it had one.
#[tactic(auto, using(crate::proofs::NamingLemmas::frame_by_closed))]
pub(crate) fn frame_named(params: &Params, journal: &Journal, origin: Origin) -> Option<Frame>
    ensures { result ≡ frame_named params.now journal.now.entries origin }
{
    let entry = journal.get(origin.entry)?;
    let window = journal.closed_window(origin.entry);
    frame_in_entry(params, origin.channel, &window, &entry)
}

/// Returns the frame of the entry on the channel, if this window is open before it.
fn frame_in_entry(
    params: &Params,
    channel: Channel,
    window: &Option<Window>,
    entry: &Entry,
) -> Option<Frame>
    ensures { result ≡ frame_in_entry params.now channel window.now entry.now }
{
    match (entry, window) {
        (Entry::Observe { window: _, a, b }, Some(window)) => {
            frame_of(&Told::of(params, window, channel, seen_on(channel, a, b)).frame)
        }
        _ => None,
    }
}

/// Returns the frame with a payload of its own.
fn frame_of(frame: &Option<LentFrame<'_>>) -> Option<Frame>
    ensures { result ≡ frame.now }
{
    frame.as_ref().map(|frame| Frame::from_lent(frame))
}

/// Returns the observation on the channel.
fn seen_on<'a>(channel: Channel, a: &'a Seen, b: &'a Seen) -> &'a Seen
    ensures { result.now ≡ seen_on channel a.now b.now }
{
    match channel {
        Channel::A => a,
        Channel::B => b,
    }
}
