//! Decoding of frames.

ghost use Rattle.std.specs.Prelude.{◌≡◌, ◌<◌, ◌≤◌, ◌^◌, ◌*◌, length, IfOk, IfSome, IsSome};
ghost use Rattle.std.specs.Result.{result_err, result_ok};
ghost use Rattle.fr_frame.specs.Bits.{bits_of, bits_of_bytes, number_of};
ghost use Rattle.fr_frame.specs.Checks.{AreTwins, IsCheckOf, shortest_twins};
ghost use Rattle.fr_frame.specs.Crc.{frame_check};
ghost use Rattle.fr_frame.specs.Decoding.{decoded, fields_of};
ghost use Rattle.fr_frame.specs.Fields.{Fields};
ghost use Rattle.fr_frame.specs.Refusal.{refusal};
ghost use Rattle.fr_frame.specs.Spelling.{Spells};
ghost use Rattle.fr_slots.specs.declared.channel.Channel.TheVariants as Channel;

use crate::crc::{crc_of_header, crc24, crc24_both};
use crate::frame::Frame;
use crate::lent::LentFrame;
use fr_slots::channel::Channel;
use fr_slots::numbers::Cycle;
use thiserror::Error;

/// The least length of twins whose frame CRCs are computed together.
///
/// Comparing shorter ones takes as long as a second frame CRC.
const SHORTEST_TWINS: usize = 40;

/// Reasons to refuse bytes as a frame on a channel, in the order of the tests.
#[derive(Clone, Copy, Debug, PartialEq, Eq, Error)]
pub enum DecodeError {
    /// Fewer than 8 bytes, which header and trailer have together.
    #[error("fewer bytes than a header and a trailer have")]
    TooShort,
    /// A number of bytes that differs from the payload length in the header.
    #[error("another length than the header says")]
    LengthMismatch,
    /// A header CRC that differs from that of the covered bits.
    #[error("a wrong header CRC")]
    HeaderCrc,
    /// A trailer that differs from the frame CRC of the bytes before it on this channel.
    #[error("a wrong frame CRC")]
    FrameCrc,
}

/// Returns the frame that the bytes spell on this channel (chapter 4). The reserved bit of the header is ignored. The
/// payload of a null frame is kept, and a frame ID of 0 is accepted.
pub fn decode(bytes: &[u8], channel: Channel) -> Result<Frame, DecodeError>
    ensures refused { result_err result ≡ refusal channel bytes.now }
    ensures value { result_ok result ≡ decoded channel bytes.now }
    ensures found { IfOk result (λ f. Spells f channel bytes.now) }
    // Every spelling of a frame is decoded.
    ensures only { (f : Fields) → Spells f channel bytes.now → result ≡ Ok f }
{
    frame_of(lent_from(bytes, channel, None))
}

/// Returns the same frame, whose payload stays among the bytes.
pub fn decode_lent(bytes: &[u8], channel: Channel) -> Result<LentFrame<'_>, DecodeError>
    ensures refused { result_err result ≡ refusal channel bytes.now }
    ensures value { result_ok result ≡ decoded channel bytes.now }
{
    lent_from(bytes, channel, None)
}

/// Returns the same as [`decode_lent`], without computing a frame CRC that is known already.
///
/// `check` is the calculated frame CRC of the bytes before the trailer on this channel, if it is known.
pub fn decode_lent_by(
    bytes: &[u8],
    channel: Channel,
    check: Option<u32>,
) -> Result<LentFrame<'_>, DecodeError>
    requires { IfSome check (λ n. IsCheckOf channel bytes.now n) }
    ensures refused { result_err result ≡ refusal channel bytes.now }
    ensures value { result_ok result ≡ decoded channel bytes.now }
{
    lent_from(bytes, channel, check)
}

/// Returns the calculated frame CRCs of twins: that of `a` on channel A, and that of `b` on channel B.
///
/// Twins have the same length, at least 40 bytes, and differ at most in the trailer. A node that sends redundantly
/// sends twins. `None` for all other bytes.
pub fn checks_of_twins(a: &[u8], b: &[u8]) -> Option<(u32, u32)>
    ensures on_a { IfSome result (λ checks. IsCheckOf Channel.A a.now checks.0) }
    ensures on_b { IfSome result (λ checks. IsCheckOf Channel.B b.now checks.1) }
    ensures twins { IfSome result (λ _. (shortest_twins ≤ length a.now) × AreTwins a.now b.now) }
    ensures only { shortest_twins ≤ length a.now → AreTwins a.now b.now → IsSome result }
{
    if a.len() < SHORTEST_TWINS || a.len() != b.len() {
        return None;
    }
    let body = &a[..a.len() - 3];
    if body == &b[..b.len() - 3] {
        Some(crc24_both(body))
    } else {
        None
    }
}

/// Returns the decoded frame with a payload of its own.
fn frame_of(read: Result<LentFrame<'_>, DecodeError>) -> Result<Frame, DecodeError>
    ensures { result ≡ read.entry }
{
    match read {
        Ok(frame) => Ok(Frame::from_lent(&frame)),
        Err(refusal) => Err(refusal),
    }
}

/// Returns the same frame, with the clauses from which the others follow.
fn lent_from(
    bytes: &[u8],
    channel: Channel,
    check: Option<u32>,
) -> Result<LentFrame<'_>, DecodeError>
    requires { IfSome check (λ n. IsCheckOf channel bytes.now n) }
    ensures refused { result_err result ≡ refusal channel bytes.now }
    ensures read { IfOk result (λ f. f ≡ fields_of bytes.now) }
{
    if bytes.len() < 8 {
        return Err(DecodeError::TooShort);
    }
    let header = number_from(&bytes[..5]);
    let words = (header >> 17 & 0x7f) as usize;
    if bytes.len() != 8 + 2 * words {
        return Err(DecodeError::LengthMismatch);
    }
    let covered = (header >> 17 & 0xf_ffff) as u32;
    let stored = (header >> 6 & 0x7ff) as u16;
    if stored != crc_of_header(covered) {
        return Err(DecodeError::HeaderCrc);
    }
    let body = &bytes[..bytes.len() - 3];
    let last = number_from(&bytes[bytes.len() - 3..]);
    if last != u64::from(check_of(body, channel, check)) {
        return Err(DecodeError::FrameCrc);
    }
    Ok(LentFrame {
        preamble: header >> 38 & 1 == 1,
        has_data: header >> 37 & 1 == 1,
        sync: header >> 36 & 1 == 1,
        startup: header >> 35 & 1 == 1,
        id: (header >> 24 & 0x7ff) as u16,
        payload: &body[5..],
        cycle: Cycle::from_bits((header & 0x3f) as u8),
    })
}

/// Returns the calculated frame CRC of a body on the channel, which may be known already.
fn check_of(body: &[u8], channel: Channel, check: Option<u32>) -> u32
    requires { IfSome check (λ n. n ≡ number_of (frame_check channel body.now)) }
    ensures { result ≡ number_of (frame_check channel body.now) }
{
    match check {
        Some(known) => known,
        None => crc24(body, channel),
    }
}

/// Returns at most eight bytes as one number, the first byte highest.
fn number_from(bytes: &[u8]) -> u64
    requires { length bytes.now ≤ 8 }
    ensures bits { bits_of (8 * length bytes.now) result ≡ bits_of_bytes bytes.now }
    ensures fits { result < 2 ^ (8 * length bytes.now) }
{
    let mut number: u64 = 0;
    for byte in bytes {
        number = number << 8 | u64::from(*byte);
    }
    number
}
