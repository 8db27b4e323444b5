//! The content of a cell, which follows from a window.

ghost use Rattle.std.specs.Prelude.{◌≡◌, option_map};
ghost use Rattle.std.specs.List.{find, list_any};
ghost use Rattle.fr_bus.specs.Outcome.{passed_on};
ghost use Rattle.fr_frame.specs.Decoding.{decoded};
ghost use Rattle.fr_matrix.specs.Looks.{look_in, look_of, look_read, look_word, marks_in, sender_in, sign};
ghost use Rattle.fr_matrix.specs.Looks.{is_blocked, is_lost, turned_bit};

use crate::view::View;
use fr_bus::outcome::{Sealed, Sent, SentFate};
use fr_frame::decode::decode_lent;
use fr_slots::channel::Channel;
use fr_slots::numbers::NodeId;
use fr_slots::params::Params;
use fr_status::seen::Seen;

/// An observation on a channel in a window, as a cell shows it (project-defined).
#[derive(Clone, Copy, PartialEq, Eq)]
pub enum Look {
    /// Nothing.
    Silence,
    /// The node's own transmission.
    Own,
    /// A frame with data.
    Data,
    /// A null frame.
    Null,
    /// Bytes that are no frame.
    Broken,
    /// Several transmissions at once.
    Collision,
    /// A transmission too long for its slot or for the rest of the dynamic segment.
    Overrun,
}

/// The marks of transmissions that didn't pass, and of a flipped bit (project-defined).
#[derive(Clone, Copy, PartialEq, Eq)]
pub struct Marks {
    /// A guardian blocked a transmission.
    pub blocked: bool,
    /// A fault muted a transmission.
    pub lost: bool,
    /// A fault flipped a bit.
    pub turned: bool,
}

/// Returns the look of bytes on the channel.
fn look_read(channel: Channel, bytes: &[u8]) -> Look
    ensures { result ≡ look_read (decoded channel bytes.now) }
{
    match decode_lent(bytes, channel) {
        Ok(frame) => if frame.has_data {
            Look::Data
        } else {
            Look::Null
        },
        Err(_) => Look::Broken,
    }
}

/// Returns the look of an observation.
fn look_of(channel: Channel, seen: &Seen) -> Look
    ensures { result ≡ look_of channel seen.now }
{
    match seen {
        Seen::Silence => Look::Silence,
        Seen::Own => Look::Own,
        Seen::Conflict | Seen::Noise => Look::Collision,
        Seen::Overrun => Look::Overrun,
        Seen::Bytes(bytes) => look_read(channel, bytes.as_slice()),
    }
}

/// Returns the look of the observation of the view's node in the window (project-defined).
///
/// Without a node it is the observation of a passive listener.
pub fn look_in(params: &Params, view: &View, sealed: &Sealed) -> Look
    ensures { result ≡ look_in params.now view.now sealed.now }
{
    // The record has what was sent, so the cell shows what a node receives that sends nothing.
    let sight = match view.node {
        Some(viewer) => sealed.seen(params, view.channel, viewer),
        None => sealed.heard(params, view.channel),
    };
    look_of(view.channel, &sight)
}

/// Returns the sender of the first transmission that passed on the channel (project-defined).
pub fn sender_in(channel: Channel, sent: &[Sent]) -> Option<NodeId>
    ensures { result ≡ sender_in channel sent.now }
{
    match sent.iter().find(|t| t.passed_on(channel)) {
        Some(t) => Some(t.node),
        None => None,
    }
}

/// Returns whether the transmission was on the channel, and a guardian blocked it.
fn is_blocked(channel: Channel, sent: &Sent) -> bool
    ensures { result ≡ is_blocked channel sent.now }
{
    sent.channel == channel && sent.fate == SentFate::Blocked
}

/// Returns whether the transmission was on the channel, and a fault muted it.
fn is_lost(channel: Channel, sent: &Sent) -> bool
    ensures { result ≡ is_lost channel sent.now }
{
    sent.channel == channel && sent.fate == SentFate::Muted
}

/// Returns whether a guardian blocked any of the transmissions on the channel.
fn any_blocked(channel: Channel, sent: &[Sent]) -> bool
    ensures { result ≡ list_any (is_blocked channel) sent.now }
{
    sent.iter().any(|t| is_blocked(channel, t))
}

/// Returns whether a fault muted any of the transmissions on the channel.
fn any_lost(channel: Channel, sent: &[Sent]) -> bool
    ensures { result ≡ list_any (is_lost channel) sent.now }
{
    sent.iter().any(|t| is_lost(channel, t))
}

/// Returns the bit that a fault flipped in the bytes on the channel, if any (project-defined).
pub fn turned_bit(params: &Params, channel: Channel, sealed: &Sealed) -> Option<u16>
    ensures { result ≡ turned_bit params.now channel sealed.now }
{
    match (sealed.corrupt_on(channel), sealed.heard(params, channel)) {
        (Some(bit), Seen::Bytes(bytes)) if usize::from(bit / 8) < bytes.len() => Some(bit),
        _ => None,
    }
}

/// Returns the marks of the transmissions on the channel (project-defined).
pub fn marks_in(params: &Params, channel: Channel, sealed: &Sealed) -> Marks
    ensures { result ≡ marks_in params.now channel sealed.now }
{
    Marks {
        blocked: any_blocked(channel, sealed.sent.as_slice()),
        lost: any_lost(channel, sealed.sent.as_slice()),
        turned: turned_bit(params, channel, sealed).is_some(),
    }
}

/// Returns the word of a look.
pub fn look_word(look: Look) -> &'static str
    ensures { result.now ≡ look_word look }
{
    match look {
        Look::Silence => "silence",
        Look::Own => "own",
        Look::Data => "data",
        Look::Null => "null",
        Look::Broken => "broken",
        Look::Collision => "collision",
        Look::Overrun => "overrun",
    }
}

/// Returns the sign after the sender's number, by which a cell is read without its colour.
pub fn sign(look: Look) -> &'static str
    ensures { result.now ≡ sign look }
{
    match look {
        Look::Silence | Look::Data => "",
        Look::Own => "=",
        Look::Null => "-",
        Look::Broken => "?",
        Look::Collision => "X",
        Look::Overrun => "+",
    }
}
