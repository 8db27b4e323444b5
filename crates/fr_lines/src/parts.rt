//! The parts of lines.
ghost use Rattle.std.specs.Prelude.{◌≡◌, ◌<◌, ◌^◌, Some, None, [], true, false, drop};
ghost use Rattle.fr_frame.specs.Payload.{most_frame_bytes};
ghost use Rattle.fr_text.specs.Reading.{number_in, bytes_in, read_as, first_in};
ghost use Rattle.fr_lines.specs.PartReading.{slot_in, channels_in, cycles_in, filter_in, flag_in, mode_in, size_in};
ghost use Rattle.fr_lines.specs.PartReading.{payload_in, taken_back_in, channel_in, marked_channel_in, origin_in};
ghost use Rattle.fr_lines.specs.PartReading.{from_in, seen_in, same_slot, window_of};

use arrayvec::ArrayVec;
use fr_frame::frame::Bytes;
use fr_frame::payload::{PAYLOAD_BYTES, Payload};
use fr_journal::entry::Origin;
use fr_slots::channel::{Channel, Channels};
use fr_slots::filter::{CycleFilter, Filter};
use fr_slots::numbers::{Cycle, NodeId, SlotId, TaskId};
use fr_slots::plan::Mode;
use fr_slots::window::Window;
use fr_status::seen::Seen;
use fr_text::hexes::{bytes_into, bytes_of};
use fr_text::numbers::number_of;
use fr_text::words::Words;

/// Returns the node that the word spells, 0 to 15 (project-defined). `None` if it spells none.
pub fn node_of(word: &[u8]) -> Option<NodeId>
    ensures { result ≡ number_in 16 word.now }
{
    let number = number_of(word, 16)?;
    NodeId::new(number as u8)
}

/// Returns the task that the word spells, 0 to 7 (project-defined). `None` if it spells none.
pub fn task_of(word: &[u8]) -> Option<TaskId>
    ensures { result ≡ number_in 8 word.now }
{
    let number = number_of(word, 8)?;
    TaskId::new(number as u8)
}

/// Returns the number of a buffer that the word spells, 0 to 63 (project-defined). `None` if it spells none.
pub fn buffer_of(word: &[u8]) -> Option<u8>
    ensures { result ≡ number_in 64 word.now }
{
    let number = number_of(word, 64)?;
    Some(number as u8)
}

/// Returns the one channel that the word spells, `A` or `B` (project-defined). `None` if it spells none.
#[tactic(auto, unfolding(crate::specs::PartReading::channel_in))]
pub fn channel_of(word: &[u8]) -> Option<Channel>
    ensures { result ≡ channel_in word.now }
{
    match word {
        b"A" => Some(Channel::A),
        b"B" => Some(Channel::B),
        _ => None,
    }
}

/// Returns the slot that the word spells, 1 to 2047.
#[tactic(auto, unfolding(crate::specs::PartReading::slot_in))]
pub(crate) fn slot_of(word: &[u8]) -> Option<SlotId>
    ensures { result ≡ slot_in word.now }
{
    let number = number_of(word, 2048)?;
    SlotId::new(number as u16)
}

/// Returns the channels that the word spells, `A`, `B` or `AB` (project-defined). `None` if it spells none.
#[tactic(auto, unfolding(crate::specs::PartReading::channels_in))]
pub fn channels_of(word: &[u8]) -> Option<Channels>
    ensures { result ≡ channels_in word.now }
{
    match word {
        b"A" => Some(Channels::A),
        b"B" => Some(Channels::B),
        b"AB" => Some(Channels::Both),
        _ => None,
    }
}

/// Returns the cycles of this base and this repetition, if they are a cycle counter filter.
#[tactic(auto, unfolding(crate::specs::PartReading::cycles_in))]
pub(crate) fn cycles_of(base: &[u8], repetition: &[u8]) -> Option<CycleFilter>
    ensures { result ≡ cycles_in base.now repetition.now }
{
    // A base and a repetition that are no filter give `BadLine`, as a number out of range does.
    let base = number_of(base, 64)?;
    let repetition = number_of(repetition, 65)?;
    match CycleFilter::new(base as u8, repetition as u8) {
        Ok(cycles) => Some(cycles),
        Err(_) => None,
    }
}

/// Returns the filter that the words spell.
#[tactic(auto, unfolding(crate::specs::PartReading::filter_in))]
pub(crate) fn filter_of(
    slot: &[u8],
    channels: &[u8],
    base: &[u8],
    repetition: &[u8],
) -> Option<Filter>
    ensures { result ≡ filter_in slot.now channels.now base.now repetition.now }
{
    let slot = slot_of(slot)?;
    let channels = channels_of(channels)?;
    let cycles = cycles_of(base, repetition)?;
    Some(Filter {
        slot,
        channels,
        cycles,
    })
}

/// Returns the flag that the word spells, `1` or `0`.
#[tactic(auto, unfolding(crate::specs::PartReading::flag_in))]
pub(crate) fn flag_of(word: &[u8]) -> Option<bool>
    ensures { result ≡ flag_in word.now }
{
    match word {
        b"1" => Some(true),
        b"0" => Some(false),
        _ => None,
    }
}

/// Returns the mode of a transmit buffer that the word spells.
#[tactic(auto, unfolding(crate::specs::PartReading::mode_in))]
pub(crate) fn mode_of(word: &[u8]) -> Option<Mode>
    ensures { result ≡ mode_in word.now }
{
    match word {
        b"event" => Some(Mode::Event),
        b"state" => Some(Mode::State),
        _ => None,
    }
}

/// Returns the number of two-byte words that the word spells, 0 to 127, or none for `-`.
#[tactic(auto, unfolding(crate::specs::PartReading::size_in))]
pub(crate) fn size_of(word: &[u8]) -> Option<Option<u8>>
    ensures { result ≡ size_in word.now }
{
    match word {
        b"-" => Some(None),
        _ => {
            let words = number_of(word, 128)?;
            Some(Some(words as u8))
        }
    }
}

/// Returns the payload that the word spells: two-byte words, at most 254 bytes (project-defined). `None` if it spells
/// none.
#[tactic(auto, unfolding(crate::specs::PartReading::payload_in))]
pub fn payload_of(word: &[u8]) -> Option<Payload>
    ensures { result ≡ payload_in word.now }
{
    let bytes = bytes_of::<PAYLOAD_BYTES>(word)?;
    Payload::from_slice(bytes.as_slice()).ok()
}

/// Replaces the payload by the one that the word spells. Returns whether the word spells one.
#[tactic(auto, unfolding(crate::specs::PartReading::payload_in))]
pub(crate) fn payload_into(word: &[u8], payload: &mut Payload) -> bool
    ensures { read_as result payload.new ≡ payload_in word.now }
{
    let mut bytes = ArrayVec::new();
    if !bytes_into::<PAYLOAD_BYTES>(word, &mut bytes) {
        return false;
    }
    payload.set_from_slice(bytes.as_slice()).is_ok()
}

/// Returns the number of the withdrawn commit that the word spells, or none for `-`.
#[tactic(auto, unfolding(crate::specs::PartReading::taken_back_in))]
pub(crate) fn taken_back_of(word: &[u8]) -> Option<Option<u32>>
    ensures { result ≡ taken_back_in word.now }
{
    match word {
        b"-" => Some(None),
        _ => {
            let commit = number_of(word, 1 << 32)?;
            Some(Some(commit as u32))
        }
    }
}

/// Returns the channel that stands after the number of an entry.
#[tactic(auto, unfolding(crate::specs::PartReading::marked_channel_in))]
fn marked_channel_of(mark: &[u8]) -> Option<Channel>
    ensures { result ≡ marked_channel_in mark.now }
{
    match mark {
        b":A" => Some(Channel::A),
        b":B" => Some(Channel::B),
        _ => None,
    }
}

/// Returns the entry and channel that the word spells.
#[tactic(auto, unfolding(crate::specs::PartReading::origin_in))]
fn origin_of(word: &[u8]) -> Option<Origin>
    ensures { result ≡ origin_in word.now }
{
    let (entry, mark) = word.split_at(word.len().saturating_sub(2));
    let channel = marked_channel_of(mark)?;
    let entry = number_of(entry, 1 << 32)?;
    Some(Origin {
        entry: entry as u32,
        channel,
    })
}

/// Returns the entry and channel that the word spells, or none for `-`.
#[tactic(auto, unfolding(crate::specs::PartReading::from_in))]
pub(crate) fn from_of(word: &[u8]) -> Option<Option<Origin>>
    ensures { result ≡ from_in word.now }
{
    match word {
        b"-" => Some(None),
        _ => {
            let origin = origin_of(word)?;
            Some(Some(origin))
        }
    }
}

/// Replaces an observation by the one that a word other than bytes spells. Returns whether the word spells one.
#[tactic(auto, unfolding(crate::specs::PartReading::seen_in, crate::specs::PartReading::seen_bytes_in))]
fn seen_word_into(word: &[u8], seen: &mut Seen) -> bool
    requires { bytes_in most_frame_bytes word.now ≡ None }
    ensures { read_as result seen.new ≡ seen_in word.now }
{
    if word == b"-".as_slice() {
        *seen = Seen::Silence;
        return true;
    }
    if word == b"own".as_slice() {
        *seen = Seen::Own;
        return true;
    }
    if word == b"conflict".as_slice() {
        *seen = Seen::Conflict;
        return true;
    }
    if word == b"noise".as_slice() {
        *seen = Seen::Noise;
        return true;
    }
    if word == b"overrun".as_slice() {
        *seen = Seen::Overrun;
        return true;
    }
    false
}

/// Replaces an observation by the one that the next word spells. Returns whether the word spells one.
///
/// Bytes are written over the bytes that are there.
pub(crate) fn next_seen_into(words: &mut Words<'_>, seen: &mut Seen) -> bool
    ensures seen { read_as result seen.new ≡ first_in seen_in words.old }
    ensures left { words.new ≡ drop 1 words.old }
{
    if let Seen::Bytes(bytes) = seen {
        return match words.next_bytes_or(bytes) {
            Some(Ok(())) => true,
            Some(Err(word)) => seen_word_into(word, seen),
            None => false,
        };
    }
    let mut bytes = Bytes::new();
    match words.next_bytes_or(&mut bytes) {
        Some(Ok(())) => {
            *seen = Seen::Bytes(bytes);
            true
        }
        Some(Err(word)) => seen_word_into(word, seen),
        None => false,
    }
}

/// Takes the two words that are left, and replaces both observations by theirs, if these are twins.
///
/// Twins are those of `Words::take_twins`. Their bytes are written over the bytes that are there. Returns false for any
/// other words, and if an observation has no bytes. All words are then left, and the observations are unspecified.
pub(crate) fn take_seen_twins(words: &mut Words<'_>, a: &mut Seen, b: &mut Seen) -> bool
    ensures a { result ≡ true → first_in seen_in words.old ≡ Some a.new }
    ensures b { result ≡ true → first_in seen_in (drop 1 words.old) ≡ Some b.new }
    ensures two { result ≡ true → drop 2 words.old ≡ [] }
    ensures end { result ≡ true → words.new ≡ [] }
    ensures left { result ≡ false → words.new ≡ words.old }
{
    if let Seen::Bytes(first) = a {
        if let Seen::Bytes(second) = b {
            return words.take_twins(first, second);
        }
    }
    false
}

/// Returns the window of these numbers: at minislot 0 the static slot that both channels open.
pub(crate) fn window_at(
    number: u32,
    cycle: Cycle,
    minislot: u16,
    a: Option<SlotId>,
    b: Option<SlotId>,
) -> Option<Window>
    ensures { result ≡ window_of number cycle minislot a b }
{
    // At minislot 0 both channels have the same slot, and later at least one has a slot. Other numbers are no window
    // and give `BadLine`. A window that the parameters don't have gives `Refused`.
    if minislot != 0 {
        return Window::dynamic(number, cycle, minislot, a, b);
    }
    let a = a?;
    let b = b?;
    if a == b {
        Some(Window::fixed(number, cycle, a))
    } else {
        None
    }
}
