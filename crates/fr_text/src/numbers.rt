//! The numbers that words spell.
ghost use Rattle.std.specs.Prelude.{◌≡◌, ◌<◌, ◌≤◌, length, take, Some, IfSome, IfNone};
ghost use Rattle.std.specs.Str.Parse.{AllDigits, digits_value};
ghost use Rattle.fr_text.specs.Reading.{number_in};

/// A number of digits that always write a number of 64 bits.
const FEW_DIGITS: usize = 9;

/// Returns the number that few digits write, leading zeros included. `None` if a byte is no digit.
fn few_digits(word: &[u8]) -> Option<u64>
    requires { length word.now ≤ 9 }
    ensures value { IfSome result (λ n. n ≡ digits_value 10 word.now) }
    ensures digits { IfSome result (λ _. AllDigits 10 word.now) }
    ensures none { IfNone result (AllDigits 10 word.now → ⊥) }
{
    let mut number: u64 = 0;
    for digit in word {
        let value = digit.wrapping_sub(b'0');
        if value > 9 {
            return None;
        }
        number = number * 10 + u64::from(value);
    }
    Some(number)
}

/// Returns the number below `bound` that a word of few digits spells.
fn short_number_of(word: &[u8], bound: u64) -> Option<u64>
    requires { length word.now ≤ 9 }
    ensures number { result ≡ number_in bound word.now }
    ensures below { IfSome result (λ n. n < bound) }
{
    let number = few_digits(word)?;
    if word.is_empty() {
        return None;
    }
    if word[0] == b'0' && word.len() > 1 {
        return None;
    }
    if number >= bound {
        return None;
    }
    Some(number)
}

/// Returns the number below `bound` that a word of any length spells.
///
/// It isn't inlined, so that a word of few digits doesn't pay for the stack of this function.
#[inline(never)]
fn long_number_of(word: &[u8], bound: u64) -> Option<u64>
    ensures number { result ≡ number_in bound word.now }
    ensures below { IfSome result (λ n. n < bound) }
{
    let Ok(text) = std::str::from_utf8(word) else {
        return None;
    };
    let Ok(number) = text.parse::<u64>() else {
        return None;
    };
    // `parse` also takes a sign and leading zeros.
    if word[0] == b'+' {
        return None;
    }
    if word[0] == b'0' && 1 < word.len() {
        return None;
    }
    if number >= bound {
        return None;
    }
    Some(number)
}

/// Returns the number below `bound` that the word spells in decimal, without sign and leading zeros.
///
/// `None` if the word, which may be empty, is no such spelling, or if the number is `bound` or more.
pub fn number_of(word: &[u8], bound: u64) -> Option<u64>
    ensures number { result ≡ number_in bound word.now }
    ensures below { IfSome result (λ n. n < bound) }
{
    if word.len() > FEW_DIGITS {
        long_number_of(word, bound)
    } else {
        short_number_of(word, bound)
    }
}

/// Returns the number of digits at the front of the bytes, few at most, and the number that they write.
#[inline(always)]
fn digits_in_front(bytes: &[u8]) -> (usize, u64)
    ensures few { result.0 ≤ 9 }
    ensures within { result.0 ≤ length bytes.now }
    ensures value { result.1 ≡ digits_value 10 (take result.0 bytes.now) }
    ensures digits { AllDigits 10 (take result.0 bytes.now) }
{
    let most = bytes.len().min(FEW_DIGITS);
    let mut number: u64 = 0;
    for at in 0..most {
        let value = bytes[at].wrapping_sub(b'0');
        if value > 9 {
            return (at, number);
        }
        number = number * 10 + u64::from(value);
    }
    (most, number)
}

/// Returns the number of digits at the front of the bytes, and the number that they spell. `None` if the digits are
/// more than few, or don't spell a number below `bound`.
#[inline(always)]
pub(crate) fn number_in_front(bytes: &[u8], bound: u64) -> Option<(usize, u64)>
    ensures within { IfSome result (λ found. found.0 ≤ length bytes.now) }
    ensures digits { IfSome result (λ found. AllDigits 10 (take found.0 bytes.now)) }
    ensures number { IfSome result (λ found. number_in bound (take found.0 bytes.now) ≡ Some found.1) }
    ensures below { IfSome result (λ found. found.1 < bound) }
{
    let (len, number) = digits_in_front(bytes);
    if len == 0 || number >= bound {
        return None;
    }
    if bytes[0] == b'0' && len > 1 {
        return None;
    }
    Some((len, number))
}
