//! The line of the parameters.
ghost use Rattle.std.specs.Prelude.{◌≡◌, option_map, Ok, IfSome, IsSomeAnd};
ghost use Rattle.fr_slots.specs.Parameters.{Parameters, IsParameters, parameters_of};
ghost use Rattle.fr_text.specs.Spaces.{words_of, line_of};
ghost use Rattle.fr_lines.specs.Reading.{parameter_in, five_in, ten_in, params_in};
ghost use Rattle.fr_lines.specs.Spelling.{params_words};

use fr_text::numbers::number_of;
use fr_text::words::Words;

/// Returns the number of at most 32 bits that the word spells.
#[tactic(auto, unfolding(crate::specs::Reading::parameter_in))]
fn parameter_of(word: &[u8]) -> Option<i64>
    ensures { result ≡ parameter_in word.now }
{
    let number = number_of(word, 1 << 32)?;
    Some(number as i64)
}

/// Returns the numbers that the next five words spell.
#[tactic(auto, unfolding(crate::specs::Reading::five_in))]
fn five_of(words: &mut Words<'_>) -> Option<(i64, i64, i64, i64, i64)>
    ensures { option_map (λ numbers. (numbers, words.new)) result ≡ five_in words.old }
{
    let (first, second, third, fourth, fifth) = words.next_five()?;
    Some((
        parameter_of(first)?,
        parameter_of(second)?,
        parameter_of(third)?,
        parameter_of(fourth)?,
        parameter_of(fifth)?,
    ))
}

/// Returns the ten numbers that the words spell.
#[tactic(auto, unfolding(crate::specs::Reading::ten_in))]
fn ten_of(words: &mut Words<'_>) -> Option<[i64; 10]>
    ensures { result ≡ ten_in words.old }
{
    let (a, b, c, d, e) = five_of(words)?;
    let (f, g, h, i, j) = five_of(words)?;
    words.end()?;
    Some([a, b, c, d, e, f, g, h, i, j])
}

/// Returns the ten numbers that the line spells.
#[tactic(auto, unfolding(crate::specs::Reading::params_in))]
fn params_in(line: &[u8]) -> Option<[i64; 10]>
    ensures { result ≡ params_in (words_of line.now) }
{
    let mut words = Words::new(line);
    match words.next_word()? {
        b"params" => ten_of(&mut words),
        _ => None,
    }
}

/// Returns the ten numbers of a line `params`, in the order of `Key`.
///
/// `None` for a line of another form, and if a number doesn't fit 32 bits. `Params::new` tests the ranges of the keys.
pub fn params_of(line: &[u8]) -> Option<[i64; 10]>
    ensures found { IfSome result (λ numbers.
        (p : Parameters) → parameters_of numbers ≡ Ok p → line.now ≡ line_of (params_words p)) }
    ensures only { (p : Parameters) → IsParameters p → line.now ≡ line_of (params_words p)
        → IsSomeAnd result (λ numbers. parameters_of numbers ≡ Ok p) }
    ensures exact { result ≡ params_in (words_of line.now) }
{
    params_in(line)
}
