//! The frame in the bytes of a record.

ghost use Rattle.std.specs.Prelude.{◌≡◌, ◌+◌, ◌*◌, ◌≤◌, ◌<◌, ◌^◌, length, take, drop};
ghost use Rattle.std.specs.Option.{is_none};
ghost use Rattle.std.specs.Result.{result_ok};
ghost use Rattle.fr_frame.specs.Bits.{bits_of, bits_of_bytes, number_of};
ghost use Rattle.fr_logged.specs.Headers.{header_in, right_crc};
ghost use Rattle.fr_logged.specs.Logged.{frame_by, fields_by, length_finding, header_finding, frame_finding};
ghost use Rattle.fr_logged.specs.Logged.{trailer_finding, right_trailer, trailer_of};

use crate::finding::{Finding, Name, Word};
use crate::header_crc::header_crc;
use fr_frame::crc::crc24;
use fr_frame::lent::LentFrame;
use fr_slots::channel::Channel;
use fr_slots::numbers::Cycle;

/// The fields of a header (chapter 4).
#[derive(Clone, Copy)]
pub struct Header {
    pub preamble: bool,
    pub has_data: bool,
    pub sync: bool,
    pub startup: bool,
    /// The frame ID, 0 to 2047.
    pub id: u16,
    /// The payload length in two-byte words.
    pub words: u16,
    /// The header CRC that it has.
    pub crc: u16,
    pub cycle: Cycle,
}

/// Returns at most eight bytes as one number, the first byte highest.
fn number_from(bytes: &[u8]) -> u64
    requires { length bytes.now ≤ 8 }
    ensures bits { bits_of (8 * length bytes.now) result ≡ bits_of_bytes bytes.now }
    ensures fits { result < 2 ^ (8 * length bytes.now) }
{
    let mut number: u64 = 0;
    for byte in bytes {
        number = number << 8 | u64::from(*byte);
    }
    number
}

/// Returns the first five bytes as one number, the first byte highest.
#[inline(always)]
fn header_number(bytes: &[u8]) -> u64
    requires { 5 ≤ length bytes.now }
    ensures { bits_of 40 result ≡ bits_of_bytes (take 5 bytes.now) }
{
    // Each frame is read here, and the first four bytes of a header are one word.
    let front = u32::from_be_bytes([bytes[0], bytes[1], bytes[2], bytes[3]]);
    u64::from(front) << 8 | u64::from(bytes[4])
}

/// Returns the header in the first five bytes.
#[inline(always)]
pub(crate) fn header_in(bytes: &[u8]) -> Header
    requires { 5 ≤ length bytes.now }
    ensures value { result ≡ header_in bytes.now }
    ensures id_fits { result.id < 2 ^ 11 }
    ensures words_fit { result.words < 2 ^ 7 }
{
    let header = header_number(bytes);
    Header {
        preamble: header >> 38 & 1 == 1,
        has_data: header >> 37 & 1 == 1,
        sync: header >> 36 & 1 == 1,
        startup: header >> 35 & 1 == 1,
        id: (header >> 24 & 0x7ff) as u16,
        words: (header >> 17 & 0x7f) as u16,
        crc: (header >> 6 & 0x7ff) as u16,
        cycle: Cycle::from_bits((header & 0x3f) as u8),
    }
}

/// Returns the frame of a header and its bytes, whose payload stays among the bytes.
#[inline(always)]
fn lent_from<'a>(header: &Header, bytes: &'a [u8]) -> LentFrame<'a>
    requires id_fits { header.now.id < 2 ^ 11 }
    requires words_fit { header.now.words < 2 ^ 7 }
    requires whole { 5 + 2 * header.now.words ≤ length bytes.now }
    ensures { result ≡ fields_by header.now bytes.entry.now }
{
    LentFrame {
        preamble: header.preamble,
        has_data: header.has_data,
        sync: header.sync,
        startup: header.startup,
        id: header.id,
        payload: &bytes[5..5 + 2 * usize::from(header.words)],
        cycle: header.cycle,
    }
}

/// Returns the header CRC of the bits that it covers in these bytes.
#[inline(always)]
fn right_crc(header: &Header, bytes: &[u8]) -> u16
    requires header { header.now ≡ header_in bytes.now }
    requires id_fits { header.now.id < 2 ^ 11 }
    requires words_fit { header.now.words < 2 ^ 7 }
    requires whole { 5 + 2 * header.now.words ≤ length bytes.now }
    ensures { result ≡ right_crc bytes.now }
{
    header_crc(&lent_from(header, bytes))
}

/// Returns the finding of a record with so many bytes, by its header.
fn length_finding(due: usize, there: usize) -> Option<Finding>
    requires { due < 300 }
    ensures { result ≡ length_finding due there }
{
    if there == due || there == due + 3 {
        return None;
    }
    Some(Finding::with_numbers(Name::Length, due as u64, there as u64))
}

/// Returns the finding of a header CRC.
fn header_finding(right: u16, found: u16) -> Option<Finding>
    ensures { result ≡ header_finding right found }
{
    if found == right {
        return None;
    }
    Some(Finding {
        name: Name::HeaderCrc,
        expected: Word::HeaderCrc(right),
        found: Word::HeaderCrc(found),
    })
}

/// Returns the finding of a frame CRC.
fn trailer_finding(right: u32, found: u32) -> Option<Finding>
    ensures { result ≡ trailer_finding right found }
{
    if found == right {
        return None;
    }
    Some(Finding {
        name: Name::FrameCrc,
        expected: Word::FrameCrc(right),
        found: Word::FrameCrc(found),
    })
}

/// Returns the number in the last three bytes.
fn trailer_of(bytes: &[u8]) -> u32
    requires { 3 ≤ length bytes.now }
    ensures { result ≡ trailer_of bytes.now }
{
    number_from(&bytes[bytes.len() - 3..]) as u32
}

/// Returns the finding of the trailer, if it is there.
fn frame_finding(channel: Channel, words: u16, bytes: &[u8]) -> Option<Finding>
    requires words_fit { words < 2 ^ 7 }
    requires long { 3 ≤ length bytes.now }
    ensures { result ≡ frame_finding channel words bytes.now }
{
    if bytes.len() == 5 + 2 * usize::from(words) {
        return None;
    }
    let right = crc24(&bytes[..bytes.len() - 3], channel);
    trailer_finding(right, trailer_of(bytes))
}

/// Returns whether a record may have so many bytes, by its header.
#[inline(always)]
fn is_length_well(due: usize, there: usize) -> bool
    requires { due < 300 }
    ensures { result ≡ is_none (length_finding due there) }
{
    there == due || there == due + 3
}

/// Returns whether the trailer is right, or isn't there.
#[inline(always)]
fn is_trailer_well(channel: Channel, words: u16, bytes: &[u8]) -> bool
    requires words_fit { words < 2 ^ 7 }
    requires long { 3 ≤ length bytes.now }
    ensures { result ≡ is_none (frame_finding channel words bytes.now) }
{
    if bytes.len() == 5 + 2 * usize::from(words) {
        return true;
    }
    is_trailer_right(channel, words, bytes)
}

/// Returns whether the trailer is right, which is computed from all bytes.
#[inline(never)]
fn is_trailer_right(channel: Channel, words: u16, bytes: &[u8]) -> bool
    requires words_fit { words < 2 ^ 7 }
    requires long { 3 ≤ length bytes.now }
    ensures { result ≡ is_none (frame_finding channel words bytes.now) }
{
    frame_finding(channel, words, bytes).is_none()
}

/// Returns the frame that the bytes of a record spell after its first two, if there is no finding. It makes none, which
/// would take longer than the rest.
#[inline(always)]
pub(crate) fn plain_by<'a>(
    channel: Channel,
    header: &Header,
    bytes: &'a [u8],
) -> Option<LentFrame<'a>>
    requires header { header.now ≡ header_in bytes.now }
    requires id_fits { header.now.id < 2 ^ 11 }
    requires words_fit { header.now.words < 2 ^ 7 }
    requires long { 5 ≤ length bytes.now }
    requires short { length bytes.now < 2 ^ 63 }
    ensures { result ≡ result_ok (frame_by channel header.now bytes.entry.now) }
{
    if !is_length_well(7 + 2 * usize::from(header.words), bytes.len() + 2) {
        return None;
    }
    if header.crc != right_crc(header, bytes) {
        return None;
    }
    if !is_trailer_well(channel, header.words, bytes) {
        return None;
    }
    Some(lent_from(header, bytes))
}

/// Returns the frame that the bytes of a record spell after its first two, or the finding.
pub(crate) fn frame_by<'a>(
    channel: Channel,
    header: &Header,
    bytes: &'a [u8],
) -> Result<LentFrame<'a>, Finding>
    requires header { header.now ≡ header_in bytes.now }
    requires id_fits { header.now.id < 2 ^ 11 }
    requires words_fit { header.now.words < 2 ^ 7 }
    requires long { 5 ≤ length bytes.now }
    requires short { length bytes.now < 2 ^ 63 }
    ensures { result ≡ frame_by channel header.now bytes.entry.now }
{
    if let Some(finding) = length_finding(7 + 2 * usize::from(header.words), bytes.len() + 2) {
        return Err(finding);
    }
    if let Some(finding) = header_finding(right_crc(header, bytes), header.crc) {
        return Err(finding);
    }
    if let Some(finding) = frame_finding(channel, header.words, bytes) {
        return Err(finding);
    }
    Ok(lent_from(header, bytes))
}
