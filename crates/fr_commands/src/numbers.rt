//! The numbers that a text spells.
ghost use Rattle.std.specs.Prelude.{◌≡◌, map, IfOk, IfErr, ◌⊎◌, None, Some};
ghost use Rattle.std.specs.Char.{is_ascii_digit};
ghost use Rattle.std.specs.List.{list_all};
ghost use Rattle.fr_commands.specs.Numbers.{spaced, magnitude_in, number_in, numbers_in, words_in};
ghost use Rattle.fr_files.specs.declared.error.BenchError.TheVariants as refusal;

use fr_files::error::BenchError;
use fr_text::words::Words;
use std::alloc::{AllocError, Global};
use std::str;

/// The most digits that a number may have.
const MOST_DIGITS: usize = 10;

/// Returns whether all bytes are decimal digits.
fn are_digits(bytes: &[u8]) -> bool
    ensures { result ≡ list_all is_ascii_digit bytes.now }
{
    bytes.iter().all(|byte| byte.is_ascii_digit())
}

/// Returns the number that 1 to 10 digits spell.
fn magnitude_of(digits: &[u8]) -> Option<u64>
    ensures { result ≡ magnitude_in digits.now }
{
    if digits.is_empty() || digits.len() > MOST_DIGITS {
        return None;
    }
    if !are_digits(digits) {
        return None;
    }
    let Ok(text) = str::from_utf8(digits) else {
        return None;
    };
    text.parse::<u64>().ok()
}

/// Returns the number that an optional `-` and 1 to 10 digits spell, if the word is of this form.
///
/// A number that doesn't fit 32 bits is brought to the nearest one that does.
fn number_of(word: &[u8]) -> Option<i32>
    ensures { result ≡ number_in word.now }
{
    // `-0` and `007` are numbers. `+7` and words of eleven digits aren't.
    match word.strip_prefix(b"-".as_slice()) {
        Some(digits) => {
            let magnitude = magnitude_of(digits)?;
            Some(-(magnitude.min(1 << 31) as i64) as i32)
        }
        None => {
            let magnitude = magnitude_of(word)?;
            Some(magnitude.min((1 << 31) - 1) as i32)
        }
    }
}

/// Returns the text with a space in place of each line feed.
fn with_spaces(alloc: Global, text: &[u8]) -> Result<Vec<u8>, AllocError>
    ensures { IfOk result (λ copy. copy.items ≡ map spaced text.now) }
{
    text.iter()
        .map(|byte| if *byte == b'\n' { b' ' } else { *byte })
        .collect(alloc)
}

// A text of separators has no numbers, and their midpoint is `none`.
/// Returns the numbers that a text spells, separated by spaces and line feeds (project-defined).
///
/// A number is an optional `-` and 1 to 10 digits. One that doesn't fit 32 bits is brought to the nearest that does.
/// Refused with `BadNumber` if a word isn't a number, and with `Memory` if an allocation fails.
#[tactic(auto, using(crate::proofs::NumberLemmas::one_more))]
pub fn numbers_of(alloc: Global, text: &[u8]) -> Result<Vec<i32>, BenchError>
    ensures found { IfOk result (λ numbers. numbers_in (words_in text.now) ≡ Some numbers.items) }
    ensures refused { IfErr result (λ e. (e ≡ refusal.Memory)
        ⊎ ((e ≡ refusal.BadNumber) × (numbers_in (words_in text.now) ≡ None))) }
{
    let Ok(spaced) = with_spaces(alloc, text) else {
        return Err(BenchError::Memory);
    };
    let mut words = Words::new(spaced.as_slice());
    let mut numbers = Vec::new(alloc);
    while let Some(word) = words.next_word() {
        if !word.is_empty() {
            let Some(number) = number_of(word) else {
                return Err(BenchError::BadNumber);
            };
            if numbers.push(number).is_err() {
                return Err(BenchError::Memory);
            }
        }
    }
    Ok(numbers)
}
