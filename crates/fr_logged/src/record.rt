//! Records of link type 210.

ghost use Rattle.std.specs.Prelude.{◌≡◌};
ghost use Rattle.std.specs.Result.{result_ok};
ghost use Rattle.fr_logged.specs.Logged.{kind_of, logged_in, logged_by, spelled, cut, place_in, place_of, channel_in};
ghost use Rattle.fr_logged.specs.Logged.{kind_by};

use crate::finding::{Finding, Name, Place, Word};
use crate::frame::{frame_by, header_in, plain_by};
use fr_frame::lent::LentFrame;
use fr_slots::channel::Channel;

/// The link type of FlexRay.
const FLEXRAY: u16 = 210;

/// The kinds of records (project-defined).
#[derive(Clone, Copy, Debug, PartialEq, Eq)]
pub enum Kind {
    /// A record of another link type or kind.
    Foreign,
    /// A symbol on a channel.
    Symbol(Channel),
    /// A frame on a channel.
    Frame(Channel),
}

/// Returns the channel in the first byte of a record.
#[inline(always)]
fn channel_in(byte: u8) -> Channel
    ensures { result ≡ channel_in byte }
{
    if byte >= 128 { Channel::B } else { Channel::A }
}

/// Returns the kind of a record with this link type and these bytes.
#[inline(always)]
pub fn kind_of(link: u16, bytes: &[u8]) -> Kind
    ensures { result ≡ kind_of link bytes.now }
{
    if bytes.is_empty() || link != FLEXRAY {
        return Kind::Foreign;
    }
    match bytes[0] % 128 {
        1 => Kind::Frame(channel_in(bytes[0])),
        2 => Kind::Symbol(channel_in(bytes[0])),
        _ => Kind::Foreign,
    }
}

/// Returns the first flag that the logger set.
#[tactic(auto, using(crate::proofs::ZeroLemmas::none_logged))]
fn logged_by(flags: u8) -> Option<Name>
    ensures { result ≡ logged_by flags }
{
    if flags % 32 == 0 {
        None
    } else if flags / 2 % 2 == 1 {
        Some(Name::LoggedCoding)
    } else if flags % 2 == 1 {
        Some(Name::LoggedStart)
    } else if flags / 8 % 2 == 1 {
        Some(Name::LoggedHeader)
    } else if flags / 4 % 2 == 1 {
        Some(Name::LoggedEnd)
    } else if flags / 16 % 2 == 1 {
        Some(Name::LoggedFrame)
    } else {
        None
    }
}

/// Returns the first flag that the logger set in a record of a frame.
#[inline(always)]
fn logged_in(bytes: &[u8]) -> Option<Name>
    ensures { result ≡ logged_in bytes.now }
{
    if bytes.len() < 2 {
        return None;
    }
    logged_by(bytes[1])
}

/// Returns the finding of a record of which fewer bytes were captured than there were.
pub fn cut(original: u32, captured: usize) -> Finding
    ensures { result ≡ cut original captured }
{
    Finding::with_numbers(Name::Cut, u64::from(original), captured as u64)
}

/// Returns the frame that a record of a frame spells on the channel, with so many bytes that there were, or its first
/// finding.
pub fn spelled(channel: Channel, original: u32, bytes: &[u8]) -> Result<LentFrame<'_>, Finding>
    ensures { result ≡ spelled channel original bytes.now }
{
    if bytes.len() < original as usize {
        return Err(cut(original, bytes.len()));
    }
    if let Some(name) = logged_in(bytes) {
        return Err(Finding::bare(name));
    }
    if bytes.len() < 7 {
        return Err(Finding {
            name: Name::Length,
            expected: Word::Absent,
            found: Word::number(bytes.len() as u64),
        });
    }
    let body = &bytes[2..];
    frame_by(channel, &header_in(body), body)
}

/// Returns the frame that a record of a frame spells on the channel, with so many bytes that there were, if it has no
/// finding.
#[inline(always)]
pub fn plain(channel: Channel, original: u32, bytes: &[u8]) -> Option<LentFrame<'_>>
    ensures { result ≡ result_ok (spelled channel original bytes.now) }
{
    if original as usize > bytes.len() {
        return None;
    }
    if logged_in(bytes).is_some() {
        return None;
    }
    if bytes.len() < 7 {
        return None;
    }
    let body = &bytes[2..];
    plain_by(channel, &header_in(body), body)
}

/// Returns the place of a record of a frame, as its header says, if it is whole.
pub fn place_in(channel: Channel, bytes: &[u8]) -> Place
    ensures { result ≡ place_in channel bytes.now }
{
    if bytes.len() < 7 {
        return Place {
            cycle: None,
            channel,
            slot: None,
        };
    }
    let header = header_in(&bytes[2..]);
    Place {
        cycle: Some(header.cycle),
        channel,
        slot: Some(u32::from(header.id)),
    }
}

/// Returns the place of a frame.
pub fn place_of(channel: Channel, frame: &LentFrame<'_>) -> Place
    ensures { result ≡ place_of channel frame.now }
{
    Place {
        cycle: Some(frame.cycle),
        channel,
        slot: Some(u32::from(frame.id)),
    }
}
