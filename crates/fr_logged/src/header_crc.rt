//! The header CRC of a frame that is read in place (chapter 4).

ghost use Rattle.std.specs.Prelude.{◌≡◌, ◌<◌, ◌*◌, ◌^◌, ◌++◌, false, replicate};
ghost use Rattle.fr_frame.specs.Bits.{bits_of, number_of};
ghost use Rattle.fr_frame.specs.Crc.{header_divisor, header_check};
ghost use Rattle.fr_frame.specs.Register.{left_by};
ghost use Rattle.fr_frame.specs.Spelling.{covered};

use crate::tables::{HEADER_TABLES, entry};
use fr_frame::lent::LentFrame;

/// The register of the header CRC before the first bit.
const HEADER_INITIAL: u16 = 0x01A;

// `fr_frame` computes the header CRC of a frame with a payload of its own, and to make one would take longer than the
// CRC.
/// Returns the header CRC of a frame: 11 bits.
#[inline(always)]
pub(crate) fn header_crc(frame: &LentFrame<'_>) -> u16
    ensures { result ≡ number_of (header_check (covered frame.now)) }
{
    crc_of_header(covered_bits(frame))
}

/// Returns the 20 bits that the header CRC of a frame covers.
#[inline(always)]
fn covered_bits(frame: &LentFrame<'_>) -> u32
    ensures bits { bits_of 20 result ≡ covered frame.now }
    ensures fits { result < 2 ^ 20 }
{
    let indicators = u32::from(frame.sync) << 1 | u32::from(frame.startup);
    let words = frame.payload.len() as u32 / 2;
    (indicators << 11 | u32::from(frame.id)) << 7 | words
}

/// Returns the header CRC of 20 bits.
#[inline(always)]
fn crc_of_header(covered: u32) -> u16
    requires { covered < 2 ^ 20 }
    ensures bits { bits_of 11 result ≡ header_check (bits_of 20 covered) }
    ensures value { result ≡ number_of (header_check (bits_of 20 covered)) }
    ensures fits { result < 2 ^ 11 }
{
    let met = covered ^ u32::from(HEADER_INITIAL) << 9;
    let [_, first, second, third] = met.to_be_bytes();
    (header_entry(2, first) ^ header_entry(1, second) ^ header_entry(0, third)) as u16
}

/// Returns the header CRC, from an empty register, of a byte and so many bytes of zeros.
#[inline(always)]
fn header_entry(zeros: usize, byte: u8) -> u32
    requires { zeros < 3 }
    ensures bits { bits_of 11 result ≡ left_by header_divisor 11 (bits_of 8 byte ++ replicate (8 * zeros) false) }
    ensures fits { result < 2 ^ 11 }
{
    entry(&HEADER_TABLES, zeros, byte)
}
