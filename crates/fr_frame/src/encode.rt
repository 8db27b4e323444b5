//! Encoding of frames.

ghost use Rattle.std.specs.Prelude.{◌≡◌, ◌+◌, ◌<◌, ◌≤◌, ◌++◌, length, false, Some};
ghost use Rattle.arrayvec.specs.ArrayVec.{array_vec_len};
ghost use Rattle.fr_frame.specs.Bits.{number_of};
ghost use Rattle.fr_frame.specs.Decoding.{decoded};
ghost use Rattle.fr_frame.specs.Encoding.{encoded};
ghost use Rattle.fr_frame.specs.Spelling.{header, SpellsCanonically};
ghost use Rattle.fr_slots.specs.Numbers.{cycle_count};

use crate::crc::{covered_bits, crc_of_header, crc24};
use crate::frame::{Bytes, FRAME_BYTES, Frame};
use fr_slots::channel::Channel;

/// Returns the bytes in which a frame is sent on this channel (chapter 4). They are 8 and those of its payload, with
/// the reserved bit 0. Every frame has them, and no memory is allocated.
pub fn encode(frame: &Frame, channel: Channel) -> Bytes
    ensures value { result.items ≡ encoded frame.now channel }
    ensures canonical { SpellsCanonically frame.now channel result.items }
    // Decoding gives the frame that was encoded.
    ensures round_trip { decoded channel result.items ≡ Some frame.now }
{
    let mut bytes = Bytes::new();
    append(&mut bytes, &header_number(frame).to_be_bytes()[3..]);
    append(&mut bytes, frame.payload.as_slice());
    let check = crc24(bytes.as_slice(), channel);
    append(&mut bytes, &check.to_be_bytes()[1..]);
    bytes
}

/// Returns the 40 bits of a frame's header as one number; the highest bit is the reserved one, 0.
fn header_number(frame: &Frame) -> u64
    ensures value { result ≡ number_of (header false frame.now) }
    ensures cycle_fits { frame.now.cycle < cycle_count }
{
    let indicators = u64::from(frame.preamble) << 1 | u64::from(frame.has_data);
    let covered = covered_bits(frame);
    let checked = indicators << 20 | u64::from(covered);
    (checked << 11 | u64::from(crc_of_header(covered))) << 6 | u64::from(frame.cycle.number())
}

/// Appends bytes, for which there is room.
fn append(bytes: &mut Bytes, more: &[u8])
    requires { array_vec_len bytes.old + length more.now ≤ FRAME_BYTES }
    ensures { bytes.new.items ≡ bytes.old.items ++ more.now }
{
    let outcome = bytes.try_extend_from_slice(more);
    let fits = outcome.is_ok();
    prove!(fits);
}
