//! The lines between the first one and `end`.
ghost use Rattle.std.specs.Prelude.{◌≡◌};
ghost use Rattle.fr_text.specs.Spaces.{words_of};
ghost use Rattle.fr_scenario.specs.LineReading.{told_call_in, host_in, babble_in, mute_in};
ghost use Rattle.fr_scenario.specs.LineReading.{corrupt_in, host_line, line_in};

use crate::calls::call_of;
use crate::parts::{cycles_of, place_of, run_cycle_of};
use crate::spelled::SpelledLine;
use crate::version::Version;
use fr_bus::fault::Fault;
use fr_core::script::Line;
use fr_frame::frame::FRAME_BYTES;
use fr_interface::call::Call;
use fr_lines::parts::{channel_of, node_of, task_of};
use fr_runs::fault_line::FaultLine;
use fr_slots::numbers::{NodeId, TaskId};
use fr_text::hexes::bytes_of;
use fr_text::numbers::number_of;
use fr_text::words::Words;

/// Returns the line of a task, without an answer.
fn host_line(node: NodeId, task: TaskId, cycle: u16, call: Call) -> SpelledLine
    ensures { result ≡ host_line node task cycle call }
{
    SpelledLine::Host {
        node,
        task,
        line: Line {
            cycle,
            action: call,
            answer: None,
        },
    }
}

/// Returns the call of a task that the words spell, if a scenario of the version has such a line.
#[tactic(auto, unfolding(crate::specs::LineReading::told_call_in))]
fn told_call_of(version: Version, kind: &[u8], words: &mut Words<'_>) -> Option<Call>
    ensures { result ≡ told_call_in version kind.now words.old }
{
    if version == Version::One && kind == b"withdraw".as_slice() {
        return None;
    }
    call_of(kind, words)
}

/// Returns the line of a task that the words spell, given its kind.
#[tactic(auto, unfolding(crate::specs::LineReading::host_in))]
fn host_of(version: Version, kind: &[u8], words: &mut Words<'_>) -> Option<SpelledLine>
    ensures { result ≡ host_in version kind.now words.old }
{
    let (node, task, cycle) = words.next_three()?;
    let node = node_of(node)?;
    let task = task_of(task)?;
    let cycle = run_cycle_of(cycle)?;
    let call = told_call_of(version, kind, words)?;
    Some(host_line(node, task, cycle, call))
}

/// Returns the babble that the words spell.
#[tactic(auto, unfolding(crate::specs::LineReading::babble_in))]
fn babble_of(words: &mut Words<'_>) -> Option<SpelledLine>
    ensures { result ≡ babble_in words.old }
{
    let (node, channel, cycles, place, bytes) = words.five()?;
    let node = node_of(node)?;
    let channel = channel_of(channel)?;
    let cycles = cycles_of(cycles)?;
    let place = place_of(place)?;
    let bytes = bytes_of::<FRAME_BYTES>(bytes)?;
    Some(SpelledLine::Fault(FaultLine {
        fault: Fault::Babble {
            node,
            channel,
            bytes,
        },
        cycles,
        place,
    }))
}

/// Returns the mute that the words spell.
#[tactic(auto, unfolding(crate::specs::LineReading::mute_in))]
fn mute_of(words: &mut Words<'_>) -> Option<SpelledLine>
    ensures { result ≡ mute_in words.old }
{
    let (node, channel, cycles, place) = words.four()?;
    let node = node_of(node)?;
    let channel = channel_of(channel)?;
    let cycles = cycles_of(cycles)?;
    let place = place_of(place)?;
    Some(SpelledLine::Fault(FaultLine {
        fault: Fault::Mute { node, channel },
        cycles,
        place,
    }))
}

/// Returns the corruption that the words spell.
#[tactic(auto, unfolding(crate::specs::LineReading::corrupt_in))]
fn corrupt_of(words: &mut Words<'_>) -> Option<SpelledLine>
    ensures { result ≡ corrupt_in words.old }
{
    let (channel, cycles, place, bit) = words.four()?;
    let channel = channel_of(channel)?;
    let cycles = cycles_of(cycles)?;
    let place = place_of(place)?;
    let bit = number_of(bit, 65536)?;
    Some(SpelledLine::Fault(FaultLine {
        fault: Fault::Corrupt {
            channel,
            bit: bit as u16,
        },
        cycles,
        place,
    }))
}

/// Returns the value of the line, which is given without its line feed.
///
/// `None` if it has no form of the format's version, or a number out of its range.
#[tactic(auto, unfolding(crate::specs::LineReading::line_in))]
pub(crate) fn line_of(version: Version, line: &[u8]) -> Option<SpelledLine>
    ensures { result ≡ line_in version (words_of line.now) }
{
    let mut words = Words::new(line);
    let kind = words.next_word()?;
    if kind == b"babble".as_slice() {
        return babble_of(&mut words);
    }
    if kind == b"mute".as_slice() {
        return mute_of(&mut words);
    }
    if kind == b"corrupt".as_slice() {
        return corrupt_of(&mut words);
    }
    host_of(version, kind, &mut words)
}
