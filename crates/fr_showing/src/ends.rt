//! The ends of transmissions.
ghost use Rattle.std.specs.Prelude.{◌≡◌, option_map, slice_get, Some};
ghost use Rattle.std.specs.List.{find};
ghost use Rattle.fr_bus.specs.Record.{is_offer_of};
ghost use Rattle.fr_showing.specs.Ends.{end_alone, end_of, end_passed, end_word, ended_word, offer_end};

use fr_bus::outcome::{Sealed, Sent, SentFate};
use fr_core::walk::sealed_at;
use fr_runs::effects::{count_passed, is_turned};
use fr_slots::channel::Channel;
use fr_slots::params::Params;
use fr_slots::window::Window;

/// The end of a transmission (project-defined).
#[derive(Clone, Copy, PartialEq, Eq)]
pub enum End {
    /// It passed alone, as it was sent.
    Alone,
    /// It passed alone, with one of its bits flipped.
    Turned,
    /// It passed alone, and was too long for its slot or for the rest of the dynamic segment.
    Overrun,
    /// It passed, and so did others on its channel.
    Collided,
    /// A fault muted it.
    Muted,
    /// The guardian of its node stopped it.
    Blocked,
}

/// Returns the end of the only transmission that passed on its channel.
fn end_alone(params: &Params, sealed: &Sealed, sent: &Sent) -> End
    ensures { result ≡ end_alone params.now sealed.now sent.now }
{
    if sent.overruns(params, &sealed.window) {
        End::Overrun
    } else if is_turned(sealed.corrupt_on(sent.channel), sent.bytes.as_slice()) {
        End::Turned
    } else {
        End::Alone
    }
}

/// Returns the end of a transmission that passed.
fn end_passed(params: &Params, sealed: &Sealed, sent: &Sent) -> End
    ensures { result ≡ end_passed params.now sealed.now sent.now }
{
    if count_passed(sent.channel, sealed.sent.as_slice()) > 1 {
        End::Collided
    } else {
        end_alone(params, sealed, sent)
    }
}

/// Returns the end of a transmission of the window (project-defined).
pub fn end_of(params: &Params, sealed: &Sealed, sent: &Sent) -> End
    ensures { result ≡ end_of params.now sealed.now sent.now }
{
    match sent.fate {
        SentFate::Passed => end_passed(params, sealed, sent),
        SentFate::Blocked => End::Blocked,
        SentFate::Muted => End::Muted,
    }
}

/// Returns whether it is the node's offer on the channel.
fn is_offer_of(channel: Channel, node: usize, sent: &Sent) -> bool
    ensures { result ≡ is_offer_of channel node sent.now }
{
    usize::from(sent.node.number()) == node && sent.channel == channel && !sent.babble
}

/// Returns the node's offer on the channel, if it is among these.
fn offer_of(channel: Channel, node: usize, sent: &[Sent]) -> Option<&Sent>
    ensures { option_map (λ t. t.now) result ≡ find (is_offer_of channel node) sent.now }
{
    for t in sent {
        if is_offer_of(channel, node, t) {
            return Some(t);
        }
    }
    None
}

/// Returns the window of a sealed one.
pub(crate) fn window_of(sealed: &Sealed) -> &Window
    ensures { result.now ≡ sealed.now.window }
{
    &sealed.window
}

/// Returns the transmissions of the window.
pub(crate) fn sent_in(sealed: &Sealed) -> &[Sent]
    ensures { result.now ≡ sealed.now.sent }
{
    sealed.sent.as_slice()
}

/// Returns the end of the node's offer on the channel in the window, if there was one.
pub(crate) fn end_on(params: &Params, sealed: &Sealed, channel: Channel, node: usize) -> Option<End>
    ensures { result ≡ offer_end params.now (Some sealed.now) channel node }
{
    let sent = offer_of(channel, node, sent_in(sealed))?;
    Some(end_of(params, sealed, sent))
}

/// Returns the end of the node's offer on the channel in the window of this number, if there was one.
pub(crate) fn offer_end(
    params: &Params,
    windows: &[Sealed],
    window: u32,
    channel: Channel,
    node: usize,
) -> Option<End>
    ensures { result ≡ offer_end params.now (slice_get windows.now window) channel node }
{
    let sealed = sealed_at(windows, window as usize)?;
    end_on(params, sealed, channel, node)
}

/// Returns the word of the end of a transmission, if there was one.
pub(crate) fn ended_word(end: Option<End>) -> &'static str
    ensures { result.now ≡ ended_word end }
{
    match end {
        Some(end) => end_word(end),
        None => "-",
    }
}

/// Returns the word of the end of a transmission.
pub(crate) fn end_word(end: End) -> &'static str
    ensures { result.now ≡ end_word end }
{
    match end {
        End::Alone => "alone",
        End::Turned => "turned",
        End::Overrun => "overrun",
        End::Collided => "collided",
        End::Muted => "muted",
        End::Blocked => "blocked",
    }
}
