//! The records of a capture.

ghost use Rattle.std.specs.Prelude.{◌≡◌, ◌<◌, ◌≤◌, ◌^◌, ◌*◌, length};
ghost use Rattle.fr_text.specs.Writing.{Writes};
ghost use Rattle.fr_capture.specs.Pcap.{captured_bytes, channel_mark, error_flags, file_header, record_header};
ghost use Rattle.fr_capture.specs.Pcap.{record_with};
ghost use Rattle.fr_frame.specs.Refusal.{refusal};

use fr_frame::decode::{DecodeError, decode_lent};
use fr_slots::channel::Channel;
use std::io;
use std::io::Write;

/// The file header of a capture.
///
/// It has the mark, version 2.4, no time zone offset, no accuracy, the length of the longest record, and the link type
/// of FlexRay. Each number has its lowest byte first.
const FILE_HEADER: [u8; 24] = [
    0xd4, 0xc3, 0xb2, 0xa1, 2, 0, 4, 0, 0, 0, 0, 0, 0, 0, 0, 0, 8, 1, 0, 0, 210, 0, 0, 0,
];

/// Writes the file header of a capture (project-defined).
///
/// Fails if the writer fails. Then a part of it may have gone out.
pub fn write_file_header<W: Write>(writer: &mut W) -> io::Result<()>
    ensures { Writes W.contents writer.old writer.new result file_header }
{
    writer.write_all(&FILE_HEADER)
}

/// Returns the byte of the measurement header that names the channel.
fn channel_mark(channel: Channel) -> u8
    ensures { result ≡ channel_mark channel }
{
    match channel {
        Channel::A => 0x01,
        Channel::B => 0x81,
    }
}

/// Returns the byte of the measurement header that has the reason why bytes are no frame.
fn error_flags(error: Option<DecodeError>) -> u8
    ensures { result ≡ error_flags error }
{
    match error {
        None => 0,
        Some(DecodeError::FrameCrc) => 0x10,
        Some(DecodeError::HeaderCrc) => 0x08,
        Some(DecodeError::LengthMismatch | DecodeError::TooShort) => 0x04,
    }
}

/// Returns the bytes without the trailer, or all bytes if it isn't known which bytes are the trailer.
fn captured_bytes(error: Option<DecodeError>, bytes: &[u8]) -> &[u8]
    ensures { result.now ≡ captured_bytes error bytes.entry.now }
{
    match error {
        Some(DecodeError::LengthMismatch | DecodeError::TooShort) => bytes,
        None | Some(DecodeError::HeaderCrc | DecodeError::FrameCrc) => {
            &bytes[..bytes.len().saturating_sub(3)]
        }
    }
}

/// Writes the header of a record.
fn write_record_header<W: Write>(writer: &mut W, time: u64, count: u32) -> io::Result<()>
    requires { time < 2 ^ 32 * 1000000 }
    ensures { Writes W.contents writer.old writer.new result (record_header time count) }
{
    let (seconds, rest) = ((time / 1_000_000) as u32, (time % 1_000_000) as u32);
    writer.write_all(&seconds.to_le_bytes())?;
    writer.write_all(&rest.to_le_bytes())?;
    writer.write_all(&count.to_le_bytes())?;
    writer.write_all(&count.to_le_bytes())
}

/// Writes the record of bytes that were on the channel at this time (project-defined).
///
/// The time is in microseconds from the start of the capture. Its seconds are a number of four bytes. Fails if the
/// writer fails. Then a part of the record may have gone out.
pub fn write_record<W: Write>(
    writer: &mut W,
    time: u64,
    channel: Channel,
    bytes: &[u8],
) -> io::Result<()>
    requires time { time < 2 ^ 32 * 1000000 }
    requires bytes { length bytes.now ≤ 262 }
    ensures { Writes W.contents writer.old writer.new result
        (record_with time channel (refusal channel bytes.now) bytes.now) }
{
    let error = decode_lent(bytes, channel).err();
    let captured = captured_bytes(error, bytes);
    write_record_header(writer, time, captured.len() as u32 + 2)?;
    writer.write_all(&[channel_mark(channel), error_flags(error)])?;
    writer.write_all(captured)
}
