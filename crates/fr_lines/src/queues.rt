//! The line of a receive FIFO.
ghost use Rattle.std.specs.Prelude.{◌≡◌, Some, IfSome};
ghost use Rattle.fr_slots.specs.declared.plan.Queue.{Queue};
ghost use Rattle.fr_text.specs.Spaces.{words_of, line_of};
ghost use Rattle.fr_lines.specs.Reading.{fitting_queue, reception_in, queue_in};
ghost use Rattle.fr_lines.specs.Spelled.{IsSpelledQueue};
ghost use Rattle.fr_lines.specs.Spelling.{queue_words};

use crate::parts::{channels_of, cycles_of, slot_of};
use fr_slots::plan::{Queue, queue_fits};
use fr_text::numbers::number_of;
use fr_text::words::Words;

/// Returns the receive FIFO, if a plan can have it.
fn fitting(queue: Queue) -> Option<Queue>
    ensures { result ≡ fitting_queue queue }
{
    if queue_fits(&queue) {
        Some(queue)
    } else {
        None
    }
}

/// Returns the receive FIFO that the words spell.
#[tactic(auto, unfolding(crate::specs::Reading::reception_in))]
pub(crate) fn reception_of(words: &mut Words<'_>) -> Option<Queue>
    ensures { result ≡ reception_in words.old }
{
    let (capacity, first, last, channels) = words.next_four()?;
    let (base, repetition) = words.two()?;
    let capacity = number_of(capacity, 257)? as u16;
    let first = slot_of(first)?;
    let last = slot_of(last)?;
    let channels = channels_of(channels)?;
    let cycles = cycles_of(base, repetition)?;
    fitting(Queue {
        capacity,
        first,
        last,
        channels,
        cycles,
    })
}

/// Returns the receive FIFO that the line spells.
#[tactic(auto, unfolding(crate::specs::Reading::queue_in))]
fn queue_in(line: &[u8]) -> Option<Queue>
    ensures { result ≡ queue_in (words_of line.now) }
{
    let mut words = Words::new(line);
    match words.next_word()? {
        b"queue" => reception_of(&mut words),
        _ => None,
    }
}

/// Returns the receive FIFO of a line `queue`. A plan takes it if it has none yet.
///
/// `None` for a line of another form, for a capacity that isn't 1 to 256, for slots that aren't 1 to 2047, and if the
/// first slot is above the last. Also `None` if base and repetition are no cycle counter filter (chapter 9; the receive
/// FIFO is project-defined).
pub fn queue_of(line: &[u8]) -> Option<Queue>
    ensures found { IfSome result (λ q. line.now ≡ line_of (queue_words q)) }
    ensures fits { IfSome result IsSpelledQueue }
    ensures only { (q : Queue) → IsSpelledQueue q → line.now ≡ line_of (queue_words q) → result ≡ Some q }
    ensures exact { result ≡ queue_in (words_of line.now) }
{
    queue_in(line)
}
