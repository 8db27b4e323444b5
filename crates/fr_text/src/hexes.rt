//! The bytes that words spell: the letter `x`, and two lower-case hexadecimal digits for each byte.
ghost use Rattle.std.specs.Prelude.{ℕ, ◌≡◌, ◌+◌, ◌-◌, ◌<◌, ◌≤◌, ◌++◌, length, option_map, replicate, slice_index};
ghost use Rattle.std.specs.Prelude.{◌*◌, ◌/◌, min, take, Some, IfSome, true};
ghost use Rattle.arrayvec.specs.ArrayVec.{array_vec_len};
ghost use Rattle.fr_text.specs.Digits.{AreDigits, AreValues, ArePacked};
ghost use Rattle.fr_text.specs.Writing.{Writes};
ghost use Rattle.fr_text.specs.Reading.{bytes_in, bytes_as, read_as};
ghost use Rattle.fr_text.specs.Spelling.{hex_text};
ghost use Rattle.hex.specs.Hex.{decode_of, encode_lower, lower_digits, IsBytes};

use arrayvec::ArrayVec;
use std::io;
use std::io::Write;
use std::simd::prelude::*;

/// The largest number of bytes that a word spells.
pub const MOST_BYTES: usize = 262;

/// The number of digits of a word of `MOST_BYTES` bytes.
const MOST_DIGITS: usize = 2 * MOST_BYTES;

/// The number of digits that are read at once.
const BLOCK: usize = 32;

const BLOCK_BYTES: usize = 16;

/// The number of bytes in which twins may differ, at their end: those of the frame CRC.
const CHECK_BYTES: usize = 3;

/// The number of digits of these bytes.
const CHECK_DIGITS: usize = 2 * CHECK_BYTES;

/// The smallest length of twins.
///
/// A shorter word has fewer than two blocks of digits. The last digits of a twin take one, so twins would save little.
const SHORTEST_TWIN: usize = 2 * BLOCK + 1;

/// Returns the value of a lower-case hexadecimal digit, and 16 or more for any other byte.
fn digit_value(digit: u8) -> u8
    ensures is { result < 16 → slice_index lower_digits result ≡ digit }
    ensures only { (k : ℕ) → k < 16 → slice_index lower_digits k ≡ digit → result ≡ k }
{
    // `0` to `9` become the ten greatest bytes, and then 0 to 9; all other bytes end at 16 or above. Without a branch a
    // block takes fewer instructions.
    let number = digit.wrapping_add(198).saturating_sub(6).wrapping_sub(240);
    let letter = digit.wrapping_sub(b'a').saturating_add(10);
    number.min(letter)
}

/// Returns the byte of each pair of values.
fn packed_bytes(values: &[u8; BLOCK]) -> [u8; BLOCK_BYTES]
    ensures { ArePacked BLOCK_BYTES values.now result }
{
    let mut bytes = [0u8; BLOCK_BYTES];
    for place in 0..BLOCK_BYTES {
        // For values below 16 the upper byte of the product is 16 times the first one, plus the second.
        let pair = u16::from_le_bytes([values[2 * place], values[2 * place + 1]]);
        bytes[place] = (pair.wrapping_mul(4097) >> 8) as u8;
    }
    bytes
}

/// Returns the number of values below 16 at the front of a block, before the first value of 16 or more.
fn front_below(values: [u8; BLOCK]) -> u8
    ensures few { result ≤ BLOCK }
    ensures below { (k : ℕ) → k < result → slice_index values k < 16 }
    ensures only { ((k : ℕ) → k < BLOCK → slice_index values k < 16) → result ≡ BLOCK }
{
    let others = u8x32::from_array(values)
        .simd_ge(u8x32::splat(16))
        .to_bitmask();
    if others == 0 {
        BLOCK as u8
    } else {
        others.trailing_zeros() as u8
    }
}

/// Returns the values of the digits of a block, and the number of digits at its front.
///
/// Each byte gets a value and the loop has no early return, so the compiler vectorises it.
fn values_in_front(digits: &[u8; BLOCK]) -> ([u8; BLOCK], u8)
    ensures few { result.1 ≤ BLOCK }
    ensures are { AreValues result.1 result.0 digits.now }
    ensures only { AreDigits BLOCK digits.now → result.1 ≡ BLOCK }
{
    let mut values = [0u8; BLOCK];
    for place in 0..BLOCK {
        values[place] = digit_value(digits[place]);
    }
    (values, front_below(values))
}

/// Returns the bytes that the digits at the front of a block spell, and the number of these digits.
///
/// The number of digits is at most `most`. The function is inlined, so that the compiler keeps the constants of the
/// comparisons between blocks.
#[inline(always)]
fn front_of(digits: &[u8; BLOCK], most: usize) -> ([u8; BLOCK_BYTES], usize)
    ensures few { (result.1 ≤ BLOCK) × (result.1 ≤ most) }
    ensures spelled { encode_lower (take (result.1 / 2) result.0) ≡ take (2 * (result.1 / 2)) digits.now }
    ensures only { AreDigits BLOCK digits.now → result.1 ≡ min BLOCK most }
    ensures fits { IsBytes result.0 }
{
    let (values, front) = values_in_front(digits);
    (packed_bytes(&values), usize::from(front).min(most))
}

/// Returns the block of these digits, filled with zeros.
fn whole_block(digits: &[u8]) -> [u8; BLOCK]
    requires { length digits.now < BLOCK }
    ensures { result ≡ digits.now ++ replicate (BLOCK - length digits.now) 48 }
{
    let mut block = [b'0'; BLOCK];
    block[..digits.len()].copy_from_slice(digits);
    block
}

/// Replaces the bytes by those that the digits spell in lower case. Returns whether the digits spell bytes.
fn digits_into<const N: usize>(digits: &[u8], bytes: &mut ArrayVec<u8, N>) -> bool
    requires { N ≤ MOST_BYTES }
    ensures { read_as result bytes.new.items ≡ bytes_as N digits.now (decode_of digits.now) }
{
    if digits.len() / 2 > N || digits.len() % 2 == 1 {
        return false;
    }
    bytes.clear();
    let (blocks, rest) = digits.as_chunks::<BLOCK>();
    for block in blocks {
        let (read, front) = front_of(block, BLOCK);
        if front < BLOCK {
            return false;
        }
        append(bytes, &read);
    }
    let (read, front) = front_of(&whole_block(rest), BLOCK);
    append(bytes, &read[..rest.len() / 2]);
    front == BLOCK
}

/// Appends bytes. The caller ensures that there is room.
fn append<const N: usize>(bytes: &mut ArrayVec<u8, N>, more: &[u8])
    requires { array_vec_len bytes.old + length more.now ≤ N }
    ensures { bytes.new.items ≡ bytes.old.items ++ more.now }
{
    let outcome = bytes.try_extend_from_slice(more);
    let fits = outcome.is_ok();
    prove!(fits);
}

/// Appends the bytes of the last digits if their number is even and there is room. Returns the length of the word that
/// spells all bytes.
fn finish<const N: usize>(
    bytes: &mut ArrayVec<u8, N>,
    read: &[u8; BLOCK_BYTES],
    digits: usize,
) -> Option<usize>
    requires few { digits ≤ BLOCK }
    requires room { N ≤ MOST_BYTES }
    ensures even { IfSome result (λ _. digits ≡ 2 * (digits / 2)) }
    ensures bytes { IfSome result (λ _. bytes.new.items ≡ bytes.old.items ++ take (digits / 2) read.now) }
    ensures length { IfSome result (λ len. len ≡ 2 * length bytes.new.items + 1) }
    ensures fits { IfSome result (λ _. length bytes.new.items ≤ N) }
{
    if digits % 2 == 1 || digits / 2 > N - bytes.len() {
        return None;
    }
    append(bytes, &read[..digits / 2]);
    Some(2 * bytes.len() + 1)
}

/// Replaces the bytes by those of a word at the front of the text, and returns its length.
///
/// The word ends with its digits, whatever follows. `None` if the text begins with no such word; the bytes are then
/// unspecified.
pub(crate) fn bytes_in_front<const N: usize>(
    text: &[u8],
    bytes: &mut ArrayVec<u8, N>,
) -> Option<usize>
    requires { N ≤ MOST_BYTES }
    ensures within { IfSome result (λ len. len ≤ length text.now) }
    ensures read { IfSome result (λ len. bytes_in N (take len text.now) ≡ Some bytes.new.items) }
{
    let (mark, digits) = text.split_first()?;
    if *mark != b'x' {
        return None;
    }
    bytes.clear();
    let (blocks, rest) = digits.as_chunks::<BLOCK>();
    for block in blocks {
        let (read, front) = front_of(block, BLOCK);
        if front < BLOCK {
            return finish(bytes, &read, front);
        }
        if N - bytes.len() < BLOCK_BYTES {
            return None;
        }
        append(bytes, &read);
    }
    let (read, front) = front_of(&whole_block(rest), rest.len());
    finish(bytes, &read, front)
}

/// Replaces the bytes by those that the word spells. Returns whether the word spells at most `N` bytes.
///
/// The spelling is the letter `x` and two lower-case digits for each byte; the word may be empty. If the result is
/// false, the bytes are unspecified. `N` is at most `MOST_BYTES`.
#[tactic(auto, unfolding(crate::specs::Reading::bytes_in))]
pub fn bytes_into<const N: usize>(word: &[u8], bytes: &mut ArrayVec<u8, N>) -> bool
    requires { N ≤ MOST_BYTES }
    ensures { read_as result bytes.new.items ≡ bytes_in N word.now }
{
    let Some((mark, digits)) = word.split_first() else {
        return false;
    };
    if *mark == b'x' {
        digits_into(digits, bytes)
    } else {
        false
    }
}

/// Replaces the bytes by those that the two words spell. Returns whether these words are twins.
///
/// Twins have the same length, at least `SHORTEST_TWIN`, and spell at most `N` bytes each: the same ones but for the
/// last `CHECK_BYTES`. To copy the bytes that they share is faster than to read their digits again. If the result is
/// false, the bytes are unspecified.
pub(crate) fn twins_into<const N: usize>(
    first_word: &[u8],
    second_word: &[u8],
    first: &mut ArrayVec<u8, N>,
    second: &mut ArrayVec<u8, N>,
) -> bool
    requires { N ≤ MOST_BYTES }
    ensures first { result ≡ true → bytes_in N first_word.now ≡ Some first.new.items }
    ensures second { result ≡ true → bytes_in N second_word.now ≡ Some second.new.items }
{
    if first_word.len() < SHORTEST_TWIN || second_word.len() != first_word.len() {
        return false;
    }
    let front = first_word.len() - CHECK_DIGITS;
    if first_word[..front] != second_word[..front] || !bytes_into(first_word, first) {
        return false;
    }
    let (checks, digits) = front_of(&whole_block(&second_word[front..]), CHECK_DIGITS);
    if digits < CHECK_DIGITS {
        return false;
    }
    second.clear();
    append(second, &first.as_slice()[..front / 2]);
    append(second, &checks[..CHECK_BYTES]);
    true
}

/// Returns the bytes that the word spells. `N` is at most `MOST_BYTES`.
///
/// The spelling is the letter `x` and two lower-case digits for each byte. `None` if the word, which may be empty, is
/// no such spelling, or has more than `N` bytes.
pub fn bytes_of<const N: usize>(word: &[u8]) -> Option<ArrayVec<u8, N>>
    requires { N ≤ MOST_BYTES }
    ensures { option_map (λ p. p.items) result ≡ bytes_in N word.now }
{
    let mut bytes = ArrayVec::new();
    if bytes_into(word, &mut bytes) {
        Some(bytes)
    } else {
        None
    }
}

/// Writes the word of at most `MOST_BYTES` bytes.
///
/// It is the letter `x`, and two lower-case digits for each byte.
pub fn write_hex<W: Write>(writer: &mut W, bytes: &[u8]) -> io::Result<()>
    requires { length bytes.now ≤ MOST_BYTES }
    ensures { Writes W.contents writer.old writer.new result (hex_text bytes.now) }
{
    let mut room = [0u8; MOST_DIGITS + 1];
    room[0] = b'x';
    let digits = &mut room[1..2 * bytes.len() + 1];
    // The library `hex` also reads upper case, so it is used only for writing.
    let _ = hex::encode_to_slice(bytes, digits);
    writer.write_all(&room[..2 * bytes.len() + 1])
}
