//! The two cyclic redundancy checks of a frame: the header CRC and the frame CRC (chapter 4).

ghost use Rattle.std.specs.Prelude.{◌≡◌, ◌<◌, ◌*◌, ◌^◌, ◌++◌, [], false, replicate};
ghost use Rattle.fr_frame.specs.Bits.{bits_of, bits_of_bytes, number_of};
ghost use Rattle.fr_frame.specs.Crc.{header_divisor, header_polynomial, header_check};
ghost use Rattle.fr_frame.specs.Crc.{frame_divisor, frame_polynomial, frame_check};
ghost use Rattle.fr_frame.specs.Register.{stepped, stepped_all, divided, left_by};
ghost use Rattle.fr_frame.specs.Spelling.{covered};
ghost use Rattle.fr_slots.specs.declared.channel.Channel.TheVariants as Channel;

use crate::frame::Frame;
use crate::tables::{FRAME_TABLES, HEADER_TABLES, entry};
use fr_slots::channel::Channel;

/// The polynomial of the header CRC, without its leading 1.
const HEADER_POLYNOMIAL: u16 = 0x385;

/// The register of the header CRC before the first bit.
const HEADER_INITIAL: u16 = 0x01A;

/// The register of the frame CRC before the first byte, on each channel.
const FRAME_INITIAL_A: u32 = 0xFE_DCBA;

const FRAME_INITIAL_B: u32 = 0xAB_CDEF;

/// Returns the header CRC of the bits, in the order in which they are sent: 11 bits.
pub fn crc11(bits: &[bool]) -> u16
    ensures value { result ≡ number_of (header_check bits.now) }
    ensures fits { result < 2 ^ 11 }
{
    // The tables are for bytes, so a list of bits is divided bit by bit.
    let mut register = HEADER_INITIAL;
    for bit in bits {
        register = step_header(register, *bit);
    }
    register
}

/// Returns the frame CRC of the bytes on a channel: 24 bits.
pub fn crc24(bytes: &[u8], channel: Channel) -> u32
    ensures value { result ≡ number_of (frame_check channel bytes.now) }
    ensures bits { bits_of 24 result ≡ frame_check channel bytes.now }
    ensures fits { result < 2 ^ 24 }
{
    let mut register = match channel {
        Channel::A => FRAME_INITIAL_A,
        Channel::B => FRAME_INITIAL_B,
    };
    // Sixteen bytes take sixteen entries at a time; `step_rest` takes the remaining bytes, four at a time.
    let (sixteens, rest) = bytes.as_chunks::<16>();
    for sixteen in sixteens {
        register = step_sixteen(register, *sixteen);
    }
    step_rest(register, rest)
}

/// Returns the frame CRCs of the bytes on channel A and on channel B: 24 bits each.
///
/// In a step, 13 of the 16 table entries don't depend on the register, so both channels share them.
pub(crate) fn crc24_both(bytes: &[u8]) -> (u32, u32)
    ensures on_a { result.0 ≡ number_of (frame_check Channel.A bytes.now) }
    ensures on_b { result.1 ≡ number_of (frame_check Channel.B bytes.now) }
{
    let (mut on_a, mut on_b) = (FRAME_INITIAL_A, FRAME_INITIAL_B);
    let (sixteens, rest) = bytes.as_chunks::<16>();
    for sixteen in sixteens {
        on_a = step_sixteen(on_a, *sixteen);
        on_b = step_sixteen(on_b, *sixteen);
    }
    (step_rest(on_a, rest), step_rest(on_b, rest))
}

/// Returns the header CRC of a frame: 11 bits. It covers the sync and startup indicators, the frame ID and the length
/// of the payload.
pub fn header_crc(frame: &Frame) -> u16
    ensures value { result ≡ number_of (header_check (covered frame.now)) }
    ensures fits { result < 2 ^ 11 }
{
    crc_of_header(covered_bits(frame))
}

/// Returns the 20 bits that the header CRC of a frame covers.
pub(crate) fn covered_bits(frame: &Frame) -> u32
    ensures bits { bits_of 20 result ≡ covered frame.now }
    ensures fits { result < 2 ^ 20 }
{
    let indicators = u32::from(frame.sync) << 1 | u32::from(frame.startup);
    let words = frame.payload.as_slice().len() as u32 / 2;
    (indicators << 11 | u32::from(frame.id)) << 7 | words
}

/// Returns the header CRC of 20 bits.
pub(crate) fn crc_of_header(covered: u32) -> u16
    requires { covered < 2 ^ 20 }
    ensures value { result ≡ number_of (header_check (bits_of 20 covered)) }
    ensures bits { bits_of 11 result ≡ header_check (bits_of 20 covered) }
    ensures fits { result < 2 ^ 11 }
{
    let met = covered ^ u32::from(HEADER_INITIAL) << 9;
    let [_, first, second, third] = met.to_be_bytes();
    (header_entry(2, first) ^ header_entry(1, second) ^ header_entry(0, third)) as u16
}

/// Returns the header CRC, from an empty register, of a byte and so many bytes of zeros.
fn header_entry(zeros: usize, byte: u8) -> u32
    requires { zeros < 3 }
    ensures bits { bits_of 11 result ≡ left_by header_divisor 11 (bits_of 8 byte ++ replicate (8 * zeros) false) }
    ensures fits { result < 2 ^ 11 }
{
    entry(&HEADER_TABLES, zeros, byte)
}

/// Returns the register of the header CRC after one more bit.
fn step_header(register: u16, bit: bool) -> u16
    requires { register < 2 ^ 11 }
    ensures fits { result < 2 ^ 11 }
    ensures bits { bits_of 11 result ≡ stepped (bits_of 11 header_polynomial) (bits_of 11 register) bit }
{
    let feedback = bit != (register >= 0x400);
    let shifted = (register & 0x3ff) << 1;
    if feedback {
        shifted ^ HEADER_POLYNOMIAL
    } else {
        shifted
    }
}

/// Returns the frame CRC, from an empty register, of a byte and so many bytes of zeros.
fn frame_entry(zeros: usize, byte: u8) -> u32
    requires { zeros < 16 }
    ensures bits { bits_of 24 result ≡ left_by frame_divisor 24 (bits_of 8 byte ++ replicate (8 * zeros) false) }
    ensures fits { result < 2 ^ 24 }
{
    entry(&FRAME_TABLES, zeros, byte)
}

/// Returns the same for four bytes.
fn frame_entries(zeros: usize, word: [u8; 4]) -> u32
    requires { zeros < 13 }
    ensures bits { bits_of 24 result ≡ left_by frame_divisor 24 (bits_of_bytes word ++ replicate (8 * zeros) false) }
    ensures fits { result < 2 ^ 24 }
{
    let [first, second, third, fourth] = word;
    let front = frame_entry(zeros + 3, first) ^ frame_entry(zeros + 2, second);
    front ^ frame_entry(zeros + 1, third) ^ frame_entry(zeros, fourth)
}

/// Returns the same for eight bytes.
fn frame_entries_of_two(zeros: usize, front: [u8; 4], back: [u8; 4]) -> u32
    requires { zeros < 9 }
    ensures bits { bits_of 24 result
        ≡ left_by frame_divisor 24 (bits_of_bytes (front ++ back) ++ replicate (8 * zeros) false) }
    ensures fits { result < 2 ^ 24 }
{
    let of_back = frame_entries(zeros, back);
    frame_entries(zeros + 4, front) ^ of_back
}

/// Returns the register of the frame CRC after sixteen more bytes.
fn step_sixteen(register: u32, bytes: [u8; 16]) -> u32
    requires { register < 2 ^ 24 }
    ensures fits { result < 2 ^ 24 }
    ensures bits { bits_of 24 result
        ≡ stepped_all (bits_of 24 frame_polynomial) (bits_of 24 register) (bits_of_bytes bytes) }
{
    let [a, b, c, d, e, f, g, h, i, j, k, l, m, n, o, p] = bytes;
    // The entries that need the register come last, so that the others are looked up while it is still computed.
    let back = frame_entries_of_two(0, [i, j, k, l], [m, n, o, p]);
    let met = register << 8 ^ u32::from_be_bytes([a, b, c, d]);
    frame_entries_of_two(8, met.to_be_bytes(), [e, f, g, h]) ^ back
}

/// Returns the register of the frame CRC after four more bytes.
fn step_four(register: u32, bytes: [u8; 4]) -> u32
    requires { register < 2 ^ 24 }
    ensures fits { result < 2 ^ 24 }
    ensures bits { bits_of 24 result
        ≡ stepped_all (bits_of 24 frame_polynomial) (bits_of 24 register) (bits_of_bytes bytes) }
{
    let met = register << 8 ^ u32::from_be_bytes(bytes);
    frame_entries(0, met.to_be_bytes())
}

/// Returns the register of the frame CRC after these bytes, which are few.
fn step_rest(register: u32, bytes: &[u8]) -> u32
    requires { register < 2 ^ 24 }
    ensures fits { result < 2 ^ 24 }
    ensures left { divided frame_divisor (bits_of 24 result) []
        ≡ divided frame_divisor (bits_of 24 register) (bits_of_bytes bytes.now) }
{
    let mut register = register;
    let (fours, rest) = bytes.as_chunks::<4>();
    for four in fours {
        register = step_four(register, *four);
    }
    for byte in rest {
        register = step_byte(register, *byte);
    }
    register
}

/// Returns the register of the frame CRC after one more byte.
fn step_byte(register: u32, byte: u8) -> u32
    requires { register < 2 ^ 24 }
    ensures fits { result < 2 ^ 24 }
    ensures bits { bits_of 24 result
        ≡ stepped_all (bits_of 24 frame_polynomial) (bits_of 24 register) (bits_of 8 byte) }
{
    let met = (register >> 16) as u8 ^ byte;
    frame_entry(0, met) ^ (register & 0xffff) << 8
}
