//! The lines of entries.
//!
//! Functions that return an entry are inlined, so that the compiler keeps the fields of each entry in registers.

ghost use Rattle.std.specs.Prelude.{◌≡◌, true, Some, IfSome, option_map, drop};
ghost use Rattle.fr_journal.specs.Forms.{Entry};
ghost use Rattle.fr_text.specs.Reading.{number_in, first_in};
ghost use Rattle.fr_text.specs.Spaces.{words_of, line_of};
ghost use Rattle.fr_lines.specs.PartReading.{optional_slot_in, offered_in};
ghost use Rattle.fr_lines.specs.Bare.{with_bytes};
ghost use Rattle.fr_lines.specs.declared.bare.EntryBytes.{EntryBytes};
ghost use Rattle.fr_lines.specs.Reading.{commit_in, told_withdraw_in, withdraw_in, read_in, pop_in, fetch_in};
ghost use Rattle.fr_lines.specs.Reading.{window_first, offers_in, observe_in, entry_in};
ghost use Rattle.fr_lines.specs.Spelled.{IsSpelledEntry};
ghost use Rattle.fr_lines.specs.Spelling.{entry_words};
ghost use Rattle.fr_lines.specs.Versions.{tells};

use crate::bare::{BareEntry, EntryBytes};
use crate::fronts::{number_at_front, slot_at_front};
use crate::parts::{
    from_of, next_seen_into, payload_into, take_seen_twins, taken_back_of, window_at,
};
use crate::versions::Version;
use fr_journal::entry::Offered;
use fr_slots::numbers::{Cycle, SlotId, TaskId};
use fr_slots::window::Window;
use fr_text::words::Words;

/// Returns the task that the next word spells.
fn next_task(words: &mut Words<'_>) -> Option<TaskId>
    ensures task { result ≡ first_in (number_in 8) words.old }
    ensures left { words.new ≡ drop 1 words.old }
{
    let number = words.next_number(8)?;
    TaskId::new(number as u8)
}

/// Returns the commit that the words spell.
#[tactic(auto, unfolding(crate::specs::Reading::commit_in))]
#[inline(always)]
fn commit_by_words(words: &mut Words<'_>, bytes: &mut EntryBytes) -> Option<BareEntry>
    ensures { option_map (with_bytes bytes.new) result ≡ commit_in words.old }
{
    let task = next_task(words)?;
    let buffer = words.next_number(64)?;
    if !payload_into(words.next_word()?, &mut bytes.payload) {
        return None;
    }
    words.end()?;
    Some(BareEntry::Commit {
        task,
        buffer: buffer as u8,
        payload: (),
    })
}

/// Returns the commit that the bytes spell. `None` also if a number of it has more than few digits.
#[inline(always)]
fn commit_at_front(line: &[u8], bytes: &mut EntryBytes) -> Option<BareEntry>
    ensures { IfSome result (λ e. commit_in (words_of line.now) ≡ Some (with_bytes bytes.new e)) }
{
    let (number, rest) = number_at_front(line, 8)?;
    let (buffer, payload) = number_at_front(rest, 64)?;
    let task = TaskId::new(number as u8)?;
    // A word that spells bytes has no space, so the payload is the last word.
    if !payload_into(payload, &mut bytes.payload) {
        return None;
    }
    Some(BareEntry::Commit {
        task,
        buffer: buffer as u8,
        payload: (),
    })
}

/// Returns the commit that the bytes after the first word spell.
#[inline(always)]
fn commit_of(line: &[u8], bytes: &mut EntryBytes) -> Option<BareEntry>
    ensures { option_map (with_bytes bytes.new) result ≡ commit_in (words_of line.now) }
{
    match commit_at_front(line, bytes) {
        Some(entry) => Some(entry),
        None => commit_by_words(&mut Words::new(line), bytes),
    }
}

/// Returns the withdraw that the words spell.
#[tactic(auto, unfolding(crate::specs::Reading::told_withdraw_in))]
#[inline(always)]
fn told_withdraw_of(words: &mut Words<'_>) -> Option<BareEntry>
    ensures { (bytes : EntryBytes) → option_map (with_bytes bytes) result ≡ told_withdraw_in words.old }
{
    let task = next_task(words)?;
    let buffer = words.next_number(64)?;
    let of = taken_back_of(words.next_word()?)?;
    words.end()?;
    Some(BareEntry::Withdraw {
        task,
        buffer: buffer as u8,
        of,
    })
}

/// Returns the withdraw that the words spell, if the version has such a line.
#[tactic(auto, unfolding(crate::specs::Reading::withdraw_in))]
#[inline(always)]
fn withdraw_of(version: Version, words: &mut Words<'_>) -> Option<BareEntry>
    ensures { (bytes : EntryBytes) → option_map (with_bytes bytes) result ≡ withdraw_in version words.old }
{
    if !version.has_withdraws() {
        return None;
    }
    told_withdraw_of(words)
}

/// Returns the read that the words spell.
#[tactic(auto, unfolding(crate::specs::Reading::read_in))]
#[inline(always)]
fn read_of(words: &mut Words<'_>) -> Option<BareEntry>
    ensures { (bytes : EntryBytes) → option_map (with_bytes bytes) result ≡ read_in words.old }
{
    let task = next_task(words)?;
    let buffer = words.next_number(64)?;
    let from = from_of(words.next_word()?)?;
    words.end()?;
    Some(BareEntry::Read {
        task,
        buffer: buffer as u8,
        from,
    })
}

/// Returns the pop that the words spell.
#[tactic(auto, unfolding(crate::specs::Reading::pop_in))]
#[inline(always)]
fn pop_of(words: &mut Words<'_>) -> Option<BareEntry>
    ensures { (bytes : EntryBytes) → option_map (with_bytes bytes) result ≡ pop_in words.old }
{
    let task = next_task(words)?;
    let from = from_of(words.next_word()?)?;
    words.end()?;
    Some(BareEntry::Pop { task, from })
}

/// Returns the slot that the next word spells, or none for `-`.
#[tactic(auto, unfolding(crate::specs::PartReading::optional_slot_in, crate::specs::PartReading::slot_in))]
fn next_slot(words: &mut Words<'_>) -> Option<Option<SlotId>>
    ensures slot { result ≡ first_in optional_slot_in words.old }
    ensures left { words.new ≡ drop 1 words.old }
{
    match words.next_number_or(2048)? {
        Ok(number) => {
            let slot = SlotId::new(number as u16)?;
            Some(Some(slot))
        }
        Err(b"-") => Some(None),
        Err(_) => None,
    }
}

/// Returns the offer on a channel that the next word spells.
#[tactic(auto, unfolding(crate::specs::PartReading::offered_in))]
fn next_offered(words: &mut Words<'_>) -> Option<Offered>
    ensures offered { result ≡ first_in offered_in words.old }
    ensures left { words.new ≡ drop 1 words.old }
{
    match words.next_number_or(1 << 32)? {
        Ok(commit) => Some(Offered::Data(commit as u32)),
        Err(b"-") => Some(Offered::Nothing),
        Err(b"null") => Some(Offered::Null),
        Err(_) => None,
    }
}

/// Returns the window that the next five words spell.
#[tactic(auto, unfolding(crate::specs::PartReading::window_in))]
fn next_window(words: &mut Words<'_>) -> Option<Window>
    ensures window { result ≡ window_first words.old }
    ensures left { IfSome result (λ _. words.new ≡ drop 5 words.old) }
{
    let number = words.next_number(1 << 32)?;
    let cycle = words.next_number(64)?;
    let minislot = words.next_number(8001)?;
    let a = next_slot(words)?;
    let b = next_slot(words)?;
    window_at(
        number as u32,
        Cycle::from_bits(cycle as u8),
        minislot as u16,
        a,
        b,
    )
}

/// Returns the offers on both channels that the words spell.
#[tactic(auto, unfolding(crate::specs::Reading::offers_in))]
#[inline(always)]
fn offers_by_words(words: &mut Words<'_>) -> Option<(Offered, Offered)>
    ensures { result ≡ offers_in words.old }
{
    let a = next_offered(words)?;
    let b = next_offered(words)?;
    words.end()?;
    Some((a, b))
}

/// Returns the offers on both channels that the bytes spell. Most windows have none.
#[inline(always)]
fn offers_of(line: &[u8]) -> Option<(Offered, Offered)>
    ensures { result ≡ offers_in (words_of line.now) }
{
    if line == b"- -".as_slice() {
        return Some((Offered::Nothing, Offered::Nothing));
    }
    offers_by_words(&mut Words::new(line))
}

/// Returns the fetch that the words spell.
#[tactic(auto, unfolding(crate::specs::Reading::fetch_in))]
#[inline(always)]
fn fetch_by_words(words: &mut Words<'_>) -> Option<BareEntry>
    ensures { (bytes : EntryBytes) → option_map (with_bytes bytes) result ≡ fetch_in words.old }
{
    let window = next_window(words)?;
    let a = next_offered(words)?;
    let b = next_offered(words)?;
    words.end()?;
    Some(BareEntry::Fetch { window, a, b })
}

/// Returns the fetch that the bytes spell. `None` also if a number of its window has more than few digits.
#[inline(always)]
fn fetch_at_front(line: &[u8]) -> Option<BareEntry>
    ensures { (bytes : EntryBytes) → IfSome result (λ e. fetch_in (words_of line.now) ≡ Some (with_bytes bytes e)) }
{
    let (number, rest) = number_at_front(line, 1 << 32)?;
    let (cycle, rest) = number_at_front(rest, 64)?;
    let (minislot, rest) = number_at_front(rest, 8001)?;
    let Some((slot_a, rest)) = slot_at_front(rest) else {
        return None;
    };
    let Some((slot_b, offers)) = slot_at_front(rest) else {
        return None;
    };
    let cycle = Cycle::from_bits(cycle as u8);
    let window = window_at(number as u32, cycle, minislot as u16, slot_a, slot_b)?;
    let (a, b) = offers_of(offers)?;
    Some(BareEntry::Fetch { window, a, b })
}

/// Returns the fetch that the bytes after the first word spell.
#[inline(always)]
fn fetch_of(line: &[u8]) -> Option<BareEntry>
    ensures { (bytes : EntryBytes) → option_map (with_bytes bytes) result ≡ fetch_in (words_of line.now) }
{
    match fetch_at_front(line) {
        Some(entry) => Some(entry),
        None => fetch_by_words(&mut Words::new(line)),
    }
}

/// Returns the observe that the words spell.
#[tactic(auto, unfolding(crate::specs::Reading::observe_in))]
#[inline(always)]
fn observe_of(words: &mut Words<'_>, bytes: &mut EntryBytes) -> Option<BareEntry>
    ensures { option_map (with_bytes bytes.new) result ≡ observe_in words.old }
{
    let window = words.next_number(1 << 32)?;
    // A node that sends redundantly sends the same bytes on both channels, but for those of the frame CRC.
    if !take_seen_twins(words, &mut bytes.a, &mut bytes.b) {
        if !next_seen_into(words, &mut bytes.a) || !next_seen_into(words, &mut bytes.b) {
            return None;
        }
        words.end()?;
    }
    Some(BareEntry::Observe {
        window: window as u32,
        a: (),
        b: (),
    })
}

/// Returns the entry that the line spells, by its first word.
#[tactic(auto, unfolding(crate::specs::Reading::entry_in))]
#[inline(always)]
fn entry_by_word(version: Version, line: &[u8], bytes: &mut EntryBytes) -> Option<BareEntry>
    ensures { option_map (with_bytes bytes.new) result ≡ entry_in version (words_of line.now) }
{
    let mut words = Words::new(line);
    let kind = words.next_word()?;
    if kind == b"commit".as_slice() {
        return commit_by_words(&mut words, bytes);
    }
    if kind == b"withdraw".as_slice() {
        return withdraw_of(version, &mut words);
    }
    if kind == b"read".as_slice() {
        return read_of(&mut words);
    }
    if kind == b"pop".as_slice() {
        return pop_of(&mut words);
    }
    if kind == b"fetch".as_slice() {
        return fetch_by_words(&mut words);
    }
    if kind == b"see".as_slice() {
        return observe_of(&mut words, bytes);
    }
    None
}

/// Returns the entry that the line spells. The first word of most lines is known without a search for its end.
#[inline(always)]
fn entry_in(version: Version, line: &[u8], bytes: &mut EntryBytes) -> Option<BareEntry>
    ensures { option_map (with_bytes bytes.new) result ≡ entry_in version (words_of line.now) }
{
    if let Some(observe) = line.strip_prefix(b"see ".as_slice()) {
        return observe_of(&mut Words::new(observe), bytes);
    }
    if let Some(fetch) = line.strip_prefix(b"fetch ".as_slice()) {
        return fetch_of(fetch);
    }
    if let Some(commit) = line.strip_prefix(b"commit ".as_slice()) {
        return commit_of(commit, bytes);
    }
    entry_by_word(version, line, bytes)
}

/// Returns the entry that the line spells in a text of this version, without its bytes.
///
/// The line is a `commit`, `withdraw`, `read`, `pop`, `fetch` or `see`. Its bytes replace those of the entry before. If
/// the result is `None`, the bytes are unspecified.
///
/// `None` for a line of another form, for `withdraw` in version 1, and for a number out of its range. A task is 0 to 7,
/// a buffer 0 to 63, a cycle 0 to 63, a minislot 0 to 8000, and a slot 1 to 2047. The number of a window or of an entry
/// fits 32 bits. A commit has an even number of bytes, at most 254, and an observation at most 262 bytes.
///
/// Also `None` if the numbers of a fetch are no window: at minislot 0 both channels open the same slot, and at a
/// minislot above 0 at least one channel opens a slot.
pub fn entry_into(version: Version, line: &[u8], bytes: &mut EntryBytes) -> Option<BareEntry>
    ensures found { IfSome result (λ e. line.now ≡ line_of (entry_words (with_bytes bytes.new e))) }
    ensures fits { IfSome result (λ e. IsSpelledEntry (with_bytes bytes.new e)) }
    ensures told { IfSome result (λ e. tells version (with_bytes bytes.new e) ≡ true) }
    ensures only { (e : Entry) → IsSpelledEntry e → tells version e ≡ true → line.now ≡ line_of (entry_words e)
        → option_map (with_bytes bytes.new) result ≡ Some e }
    ensures exact { option_map (with_bytes bytes.new) result ≡ entry_in version (words_of line.now) }
{
    entry_in(version, line, bytes)
}
