//! The lines of buffers.
ghost use Rattle.std.specs.Prelude.{◌≡◌, true, Some, IfSome};
ghost use Rattle.fr_slots.specs.declared.plan.Buffer.{Buffer};
ghost use Rattle.fr_text.specs.Spaces.{words_of, line_of};
ghost use Rattle.fr_lines.specs.Reading.{transmit_in, receive_in, buffer_in};
ghost use Rattle.fr_lines.specs.Spelled.{IsSpelledBuffer};
ghost use Rattle.fr_lines.specs.Spelling.{buffer_words};

use crate::parts::{filter_of, flag_of, mode_of, size_of};
use fr_slots::plan::{Buffer, Mode};
use fr_text::words::Words;

/// Returns the transmit buffer that the words spell.
#[tactic(auto, unfolding(crate::specs::Reading::transmit_in))]
pub(crate) fn transmit_of(words: &mut Words<'_>) -> Option<Buffer>
    ensures { result ≡ transmit_in words.old }
{
    let (mode, slot, channels, base) = words.next_four()?;
    let (repetition, size, preamble) = words.three()?;
    let mode = mode_of(mode)?;
    let filter = filter_of(slot, channels, base, repetition)?;
    let words = size_of(size)?;
    let preamble = flag_of(preamble)?;
    Some(Buffer {
        mode,
        filter,
        words,
        preamble,
    })
}

/// Returns the receive buffer that the words spell.
#[tactic(auto, unfolding(crate::specs::Reading::receive_in))]
pub(crate) fn receive_of(words: &mut Words<'_>) -> Option<Buffer>
    ensures { result ≡ receive_in words.old }
{
    let (slot, channels, base, repetition) = words.four()?;
    let filter = filter_of(slot, channels, base, repetition)?;
    Some(Buffer {
        mode: Mode::Receive,
        filter,
        words: None,
        preamble: false,
    })
}

/// Returns the buffer that the line spells.
#[tactic(auto, unfolding(crate::specs::Reading::buffer_in))]
fn buffer_in(line: &[u8]) -> Option<Buffer>
    ensures { result ≡ buffer_in (words_of line.now) }
{
    let mut words = Words::new(line);
    match words.next_word()? {
        b"tx" => transmit_of(&mut words),
        b"rx" => receive_of(&mut words),
        _ => None,
    }
}

/// Returns the buffer of a line `tx` or `rx`. A plan takes it as long as it has room.
///
/// `None` for a line of another form, for a slot that isn't 1 to 2047, and for more than 127 two-byte words.
///
/// Also `None` if base and repetition are no cycle counter filter (chapter 9): the repetition is 1, 2, 4, 8, 16, 32 or
/// 64, and the base is below it.
pub fn buffer_of(line: &[u8]) -> Option<Buffer>
    ensures found { IfSome result (λ b. line.now ≡ line_of (buffer_words b)) }
    ensures fits { IfSome result IsSpelledBuffer }
    ensures only { (b : Buffer) → IsSpelledBuffer b → line.now ≡ line_of (buffer_words b) → result ≡ Some b }
    ensures exact { result ≡ buffer_in (words_of line.now) }
{
    buffer_in(line)
}
