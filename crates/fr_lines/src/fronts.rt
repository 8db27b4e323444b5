//! Numbers and slots at the front of a line's bytes. They are read as their digits come, without a search for the next
//! space.
ghost use Rattle.std.specs.Prelude.{◌≡◌, ◌<◌, ◌≤◌, length, take, drop, IfSome};
ghost use Rattle.std.specs.Str.Parse.{AllDigits, digits_value};
ghost use Rattle.fr_text.specs.Reading.{number_in, first_in};
ghost use Rattle.fr_text.specs.Spaces.{words_of};
ghost use Rattle.fr_lines.specs.PartReading.{optional_slot_in};

use fr_slots::numbers::SlotId;

/// A number of digits that always write a number of 64 bits.
const FEW_DIGITS: usize = 9;

/// Returns the number of digits at the front of the bytes, few at most, and the number that they write.
#[inline(always)]
fn digits_at_front(bytes: &[u8]) -> (usize, u64)
    ensures few { result.0 ≤ 9 }
    ensures within { result.0 ≤ length bytes.now }
    ensures value { result.1 ≡ digits_value 10 (take result.0 bytes.now) }
    ensures digits { AllDigits 10 (take result.0 bytes.now) }
{
    let most = bytes.len().min(FEW_DIGITS);
    let mut number: u64 = 0;
    for at in 0..most {
        let value = bytes[at].wrapping_sub(b'0');
        if value > 9 {
            return (at, number);
        }
        number = number * 10 + u64::from(value);
    }
    (most, number)
}

/// Returns the number below `bound` that the first word spells, and the bytes after the space that ends it.
///
/// `None` if no space ends it, if it has more than few digits, or spells no such number.
#[inline(always)]
pub(crate) fn number_at_front(bytes: &[u8], bound: u64) -> Option<(u64, &[u8])>
    ensures number { IfSome result (λ r. first_in (number_in bound) (words_of bytes.now) ≡ Some r.0) }
    ensures below { IfSome result (λ r. r.0 < bound) }
    ensures left { IfSome result (λ r. words_of r.1.now ≡ drop 1 (words_of bytes.now)) }
{
    let (len, number) = digits_at_front(bytes);
    if len == 0 || number >= bound || len >= bytes.len() {
        return None;
    }
    if bytes[0] == b'0' && len > 1 {
        return None;
    }
    if bytes[len] != b' ' {
        return None;
    }
    Some((number, &bytes[len + 1..]))
}

/// Returns the slot that the first word spells, or none for `-`, and the bytes after the space that ends it.
///
/// `None` if no space ends it, or it spells neither.
#[inline(always)]
pub(crate) fn slot_at_front(bytes: &[u8]) -> Option<(Option<SlotId>, &[u8])>
    ensures slot { IfSome result (λ r. first_in optional_slot_in (words_of bytes.now) ≡ Some r.0) }
    ensures left { IfSome result (λ r. words_of r.1.now ≡ drop 1 (words_of bytes.now)) }
{
    if let Some(rest) = bytes.strip_prefix(b"- ".as_slice()) {
        return Some((None, rest));
    }
    let (number, rest) = number_at_front(bytes, 2048)?;
    let slot = SlotId::new(number as u16)?;
    Some((Some(slot), rest))
}
