//! The finding of a frame in its slot.

ghost use Rattle.std.specs.Prelude.{◌≡◌, ℕ};
ghost use Rattle.std.specs.List.{list_all};
ghost use Rattle.std.specs.Option.{is_none};
ghost use Rattle.fr_logged.specs.Rules.{letters_of, unlike, bits_finding, preamble_finding, is_zero, null_finding};
ghost use Rattle.fr_logged.specs.Rules.{buffer_finding, static_rules, static_finding, words_finding, dynamic_rules};
ghost use Rattle.fr_logged.specs.Rules.{dynamic_finding, minislot_finding, kind_finding};

use crate::due::Due;
use crate::finding::{Finding, Letters, Name, Word};
use fr_frame::lent::LentFrame;

/// Returns the indicators of a frame.
fn letters_of(frame: &LentFrame<'_>) -> Letters
    ensures { result ≡ letters_of frame.now }
{
    Letters {
        preamble: frame.preamble,
        has_data: frame.has_data,
        sync: frame.sync,
        startup: frame.startup,
    }
}

/// Returns a finding with the indicators that were expected.
fn unlike(name: Name, expected: Letters, found: Letters) -> Finding
    ensures { result ≡ unlike name expected found }
{
    Finding {
        name,
        expected: Word::Letters(expected),
        found: Word::Letters(found),
    }
}

/// Returns the finding of sync and startup indicators that aren't these.
fn bits_finding(sync: bool, startup: bool, frame: &LentFrame<'_>) -> Finding
    ensures { result ≡ bits_finding sync startup frame.now }
{
    let found = letters_of(frame);
    let expected = Letters {
        preamble: found.preamble,
        has_data: found.has_data,
        sync,
        startup,
    };
    unlike(Name::Bits, expected, found)
}

/// Returns the finding of a payload preamble indicator, if it isn't this one.
fn preamble_finding(preamble: bool, frame: &LentFrame<'_>) -> Option<Finding>
    ensures { result ≡ preamble_finding preamble frame.now }
{
    let found = letters_of(frame);
    if preamble == found.preamble {
        return None;
    }
    let expected = Letters {
        preamble,
        has_data: found.has_data,
        sync: found.sync,
        startup: found.startup,
    };
    Some(unlike(Name::Preamble, expected, found))
}

/// Returns whether eight bytes are zero, which is one comparison.
#[inline(always)]
fn is_zero_word(word: &[u8; 8]) -> bool
    ensures { result ≡ list_all is_zero word.now }
{
    *word == [0; 8]
}

/// Returns whether all bytes are zero.
#[tactic(auto, using(crate::proofs::ZeroLemmas::all_chunks))]
#[inline(always)]
fn are_zeros(bytes: &[u8]) -> bool
    ensures { result ≡ list_all is_zero bytes.now }
{
    let (words, rest) = bytes.as_chunks::<8>();
    are_zero_words(words) && are_zero_bytes(rest)
}

/// Returns whether all bytes in groups of eight are zero.
#[inline(always)]
fn are_zero_words(words: &[[u8; 8]]) -> bool
    ensures { result ≡ list_all (list_all is_zero) words.now }
{
    words.iter().all(|word| is_zero_word(word))
}

/// Returns whether bytes, which are few, are zero.
#[inline(always)]
fn are_zero_bytes(bytes: &[u8]) -> bool
    ensures { result ≡ list_all is_zero bytes.now }
{
    bytes.iter().all(|byte| *byte == 0)
}

/// Returns the finding of a null frame in a static slot.
fn null_finding(frame: &LentFrame<'_>) -> Option<Finding>
    ensures { result ≡ null_finding frame.now }
{
    if !frame.preamble && are_zeros(frame.payload) {
        return None;
    }
    Some(Finding::bare(Name::NullFrame))
}

/// Returns the finding of a data frame, by the transmit buffer's payload preamble indicator, if there is a buffer.
fn buffer_finding(node: u8, preamble: Option<bool>, frame: &LentFrame<'_>) -> Option<Finding>
    ensures { result ≡ buffer_finding node preamble frame.now }
{
    match preamble {
        Some(preamble) => preamble_finding(preamble, frame),
        None => Some(Finding {
            name: Name::NoBuffer,
            expected: Word::number(u64::from(node)),
            found: Word::Absent,
        }),
    }
}

/// Returns whether a data frame has the payload preamble indicator of its transmit buffer.
#[inline(always)]
fn is_preamble_well(preamble: Option<bool>, frame: &LentFrame<'_>) -> bool
    ensures { (node : ℕ) → result ≡ is_none (buffer_finding node preamble frame.now) }
{
    match preamble {
        Some(preamble) if preamble == frame.preamble => true,
        _ => false,
    }
}

/// Returns whether a null frame in a static slot has no finding.
#[inline(always)]
fn is_null_well(frame: &LentFrame<'_>) -> bool
    ensures { result ≡ is_none (null_finding frame.now) }
{
    !frame.preamble && are_zeros(frame.payload)
}

/// Returns whether the frame of a static slot has no finding by its kind.
#[inline(always)]
fn is_kind_well(due: &Due, frame: &LentFrame<'_>) -> bool
    ensures { result ≡ is_none (kind_finding due.now frame.now) }
{
    if frame.has_data {
        is_preamble_well(due.preamble, frame)
    } else {
        is_null_well(frame)
    }
}

/// Returns whether the frame of a static slot has no finding, by what is due there. It makes no finding, which would
/// take longer than all the rest.
#[inline(always)]
pub fn is_well(due: &Due, frame: &LentFrame<'_>) -> bool
    ensures { result ≡ is_none (static_rules due.now frame.now) }
{
    let words = frame.payload.len() / 2;
    if words != usize::from(due.words) {
        return false;
    }
    let alike = due.sync == frame.sync && due.startup == frame.startup;
    if !alike {
        return false;
    }
    is_kind_well(due, frame)
}

/// Returns the finding of a frame in a static slot, by what is due there.
fn static_rules(due: &Due, frame: &LentFrame<'_>) -> Option<Finding>
    ensures { result ≡ static_rules due.now frame.now }
{
    let words = frame.payload.len() / 2;
    if words != usize::from(due.words) {
        return Some(Finding::with_numbers(Name::Words, u64::from(due.words), words as u64));
    }
    if due.sync != frame.sync || due.startup != frame.startup {
        return Some(bits_finding(due.sync, due.startup, frame));
    }
    if frame.has_data {
        buffer_finding(due.node, due.preamble, frame)
    } else {
        null_finding(frame)
    }
}

/// Returns the finding of a frame in a static slot. Findings that need the other channel or a time aren't looked for.
pub fn static_finding(due: &Option<Due>, frame: &LentFrame<'_>) -> Option<Finding>
    ensures { result ≡ static_finding due.now frame.now }
{
    match due {
        Some(due) => static_rules(due, frame),
        None => Some(Finding::bare(Name::Nobody)),
    }
}

/// Returns the finding of a data frame in a dynamic slot, by its length and its preamble.
fn words_finding(due: &Due, frame: &LentFrame<'_>) -> Option<Finding>
    ensures { result ≡ words_finding due.now frame.now }
{
    let words = frame.payload.len() / 2;
    if words != usize::from(due.words) {
        return Some(Finding::with_numbers(Name::Words, u64::from(due.words), words as u64));
    }
    buffer_finding(due.node, due.preamble, frame)
}

/// Returns the finding of a frame in a dynamic slot, by what is due there.
fn dynamic_rules(due: &Due, frame: &LentFrame<'_>) -> Option<Finding>
    ensures { result ≡ dynamic_rules due.now frame.now }
{
    if !frame.has_data {
        return Some(Finding::bare(Name::NullFrame));
    }
    if frame.sync || frame.startup {
        return Some(bits_finding(false, false, frame));
    }
    words_finding(due, frame)
}

/// Returns the finding of a frame in a dynamic slot, but for the minislot at which the slot opens.
pub fn dynamic_finding(due: &Option<Due>, frame: &LentFrame<'_>) -> Option<Finding>
    ensures { result ≡ dynamic_finding due.now frame.now }
{
    match due {
        Some(due) => dynamic_rules(due, frame),
        None => Some(Finding::bare(Name::Nobody)),
    }
}

/// Returns the finding of a dynamic slot that opens at this minislot, of so many, with the sender's latest one.
pub fn minislot_finding(minislots: u16, latest: u16, opens: u64) -> Option<Finding>
    ensures { result ≡ minislot_finding minislots latest opens }
{
    if opens > u64::from(minislots) {
        return Some(Finding::with_numbers(Name::Closed, u64::from(minislots), opens));
    }
    if opens > u64::from(latest) {
        return Some(Finding::with_numbers(Name::Late, u64::from(latest), opens));
    }
    None
}
