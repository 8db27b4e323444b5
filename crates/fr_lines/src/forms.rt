//! The words of a line of a trace after its first, and the first of its words that is wrong.
ghost use Rattle.std.specs.Prelude.{◌≡◌, ◌+◌, ◌≤◌, ◌^◌, is_some, length, option_map, take, IfSome};
ghost use Rattle.fr_lines.specs.Forms.{number_from_in, static_slot_in, repetition_in, own_forms, plan_forms_of};
ghost use Rattle.fr_lines.specs.Forms.{journal_forms_of, forms_of, wrong_at, wrong_in, place_in, BeginsNoLine};
ghost use Rattle.fr_lines.specs.PartReading.{optional_slot_in, offered_in, seen_in};
ghost use Rattle.fr_text.specs.Spaces.{words_of, room_of};

use crate::parts::{
    channels_of, flag_of, from_of, mode_of, payload_of, size_of, slot_of, taken_back_of,
};
use crate::versions::Version;
use fr_frame::frame::FRAME_BYTES;
use fr_slots::filter::CycleFilter;
use fr_slots::params::LAST_STATIC_SLOT;
use fr_text::hexes::bytes_of;
use fr_text::numbers::number_of;
use fr_text::words::Words;

/// The form of a word after the first of a line.
#[derive(Clone, Copy, PartialEq, Eq)]
pub(crate) enum WordForm {
    /// A number below this one.
    Number(u64),
    /// A number from the first of these to below the second.
    NumberFrom(u64, u64),
    /// A slot.
    Slot,
    /// A slot that can be a static one.
    StaticSlot,
    /// A slot or `-`.
    SlotOrNone,
    /// Channels.
    Channels,
    /// A repetition of a cycle counter filter.
    Repetition,
    /// `1` or `0`.
    Flag,
    /// The mode of a transmit buffer.
    Mode,
    /// A number of two-byte words or `-`.
    Size,
    /// A payload.
    Payload,
    /// The entry of a commit or `-`.
    Commit,
    /// The origin of a frame, or `-`.
    Origin,
    /// The offer of a node on a channel.
    Offer,
    /// The observation of a node on a channel.
    Observation,
}

impl WordForm {
    ghost use Rattle.std.specs.Prelude.{◌≡◌};
    ghost use Rattle.fr_lines.specs.Forms.{fits};

    /// Returns whether the word has this form.
    fn fits(self, word: &[u8]) -> bool
        ensures { result ≡ fits self word.now }
    {
        match self {
            WordForm::Number(bound) => number_of(word, bound).is_some(),
            WordForm::NumberFrom(least, bound) => is_number_from(word, least, bound),
            WordForm::Slot => slot_of(word).is_some(),
            WordForm::StaticSlot => is_static_slot(word),
            WordForm::SlotOrNone => is_slot_or_none(word),
            WordForm::Channels => channels_of(word).is_some(),
            WordForm::Repetition => is_repetition(word),
            WordForm::Flag => flag_of(word).is_some(),
            WordForm::Mode => mode_of(word).is_some(),
            WordForm::Size => size_of(word).is_some(),
            WordForm::Payload => payload_of(word).is_some(),
            WordForm::Commit => taken_back_of(word).is_some(),
            WordForm::Origin => from_of(word).is_some(),
            WordForm::Offer => is_offer(word),
            WordForm::Observation => is_observation(word),
        }
    }
}

/// Returns whether the word is a number from `least` to below `bound`.
#[tactic(auto, unfolding(crate::specs::Forms::number_from_in))]
fn is_number_from(word: &[u8], least: u64, bound: u64) -> bool
    ensures { result ≡ is_some (number_from_in least bound word.now) }
{
    match number_of(word, bound) {
        Some(number) => number >= least,
        None => false,
    }
}

/// Returns whether the word is a slot that can be a static one.
#[tactic(auto, unfolding(crate::specs::Forms::static_slot_in))]
fn is_static_slot(word: &[u8]) -> bool
    ensures { result ≡ is_some (static_slot_in word.now) }
{
    match slot_of(word) {
        Some(slot) => slot.number() <= LAST_STATIC_SLOT,
        None => false,
    }
}

/// Returns whether the word is a repetition of a cycle counter filter: 1, 2, 4, 8, 16, 32 or 64.
#[tactic(auto, unfolding(crate::specs::Forms::repetition_in))]
fn is_repetition(word: &[u8]) -> bool
    ensures { result ≡ is_some (repetition_in word.now) }
{
    match number_of(word, 65) {
        Some(number) => CycleFilter::new(0, number as u8).is_ok(),
        None => false,
    }
}

/// Returns whether the word is a slot or `-`.
#[tactic(auto, unfolding(crate::specs::PartReading::optional_slot_in))]
fn is_slot_or_none(word: &[u8]) -> bool
    ensures { result ≡ is_some (optional_slot_in word.now) }
{
    if word == b"-".as_slice() {
        return true;
    }
    slot_of(word).is_some()
}

/// Returns whether the word spells a node's offer on a channel.
#[tactic(auto, unfolding(crate::specs::PartReading::offered_in))]
fn is_offer(word: &[u8]) -> bool
    ensures { result ≡ is_some (offered_in word.now) }
{
    if word == b"-".as_slice() || word == b"null".as_slice() {
        return true;
    }
    number_of(word, 1 << 32).is_some()
}

/// Returns whether the word spells a node's observation on a channel.
#[tactic(auto, unfolding(crate::specs::PartReading::seen_in, crate::specs::PartReading::seen_bytes_in))]
fn is_observation(word: &[u8]) -> bool
    ensures { result ≡ is_some (seen_in word.now) }
{
    if word == b"-".as_slice() || word == b"own".as_slice() || word == b"conflict".as_slice() {
        return true;
    }
    if word == b"noise".as_slice() || word == b"overrun".as_slice() {
        return true;
    }
    bytes_of::<FRAME_BYTES>(word).is_some()
}

/// A number of at most 32 bits.
const WIDE: WordForm = WordForm::Number(1 << 32);

const PARAMS: [WordForm; 10] = [WIDE; 10];

const NODE: [WordForm; 5] = [
    WordForm::Number(9),
    WordForm::Number(8001),
    WordForm::Number(8001),
    WordForm::NumberFrom(1, 16385),
    WordForm::NumberFrom(2, 65537),
];

const OWN: [WordForm; 4] = [
    WordForm::StaticSlot,
    WordForm::Channels,
    WordForm::Flag,
    WordForm::Flag,
];

const OWN_IN_CYCLES: [WordForm; 6] = [
    WordForm::StaticSlot,
    WordForm::Channels,
    WordForm::Flag,
    WordForm::Flag,
    WordForm::Number(64),
    WordForm::Repetition,
];

const TX: [WordForm; 7] = [
    WordForm::Mode,
    WordForm::Slot,
    WordForm::Channels,
    WordForm::Number(64),
    WordForm::Repetition,
    WordForm::Size,
    WordForm::Flag,
];

const RX: [WordForm; 4] = [
    WordForm::Slot,
    WordForm::Channels,
    WordForm::Number(64),
    WordForm::Repetition,
];

const QUEUE: [WordForm; 6] = [
    WordForm::NumberFrom(1, 257),
    WordForm::Slot,
    WordForm::Slot,
    WordForm::Channels,
    WordForm::Number(64),
    WordForm::Repetition,
];

const COMMIT: [WordForm; 3] = [WordForm::Number(8), WordForm::Number(64), WordForm::Payload];

const WITHDRAW: [WordForm; 3] = [WordForm::Number(8), WordForm::Number(64), WordForm::Commit];

const READ: [WordForm; 3] = [WordForm::Number(8), WordForm::Number(64), WordForm::Origin];

const POP: [WordForm; 2] = [WordForm::Number(8), WordForm::Origin];

const FETCH: [WordForm; 7] = [
    WIDE,
    WordForm::Number(64),
    WordForm::Number(8001),
    WordForm::SlotOrNone,
    WordForm::SlotOrNone,
    WordForm::Offer,
    WordForm::Offer,
];

const SEE: [WordForm; 3] = [WIDE, WordForm::Observation, WordForm::Observation];

/// Returns the forms of the words after the first of an ownership line.
fn own_forms(version: Version) -> &'static [WordForm]
    ensures { result.now ≡ own_forms version }
{
    if version.has_own_cycles() {
        &OWN_IN_CYCLES
    } else {
        &OWN
    }
}

/// Returns the forms of the words after the first, for a line of a plan or a line before it.
fn forms_of_plan(version: Version, kind: &[u8]) -> Option<&'static [WordForm]>
    ensures { option_map (λ f. f.now) result ≡ plan_forms_of version kind.now }
{
    if kind == b"params".as_slice() {
        return Some(&PARAMS);
    }
    if kind == b"node".as_slice() {
        return Some(&NODE);
    }
    if kind == b"own".as_slice() {
        return Some(own_forms(version));
    }
    if kind == b"tx".as_slice() {
        return Some(&TX);
    }
    if kind == b"rx".as_slice() {
        return Some(&RX);
    }
    if kind == b"queue".as_slice() {
        return Some(&QUEUE);
    }
    if kind == b"begin".as_slice() {
        return Some(&[]);
    }
    None
}

/// Returns the forms of the words after the first, for a line of a journal.
fn forms_of_journal(version: Version, kind: &[u8]) -> Option<&'static [WordForm]>
    ensures { option_map (λ f. f.now) result ≡ journal_forms_of version kind.now }
{
    if kind == b"commit".as_slice() {
        return Some(&COMMIT);
    }
    if kind == b"withdraw".as_slice() {
        return if version.has_withdraws() {
            Some(&WITHDRAW)
        } else {
            None
        };
    }
    if kind == b"read".as_slice() {
        return Some(&READ);
    }
    if kind == b"pop".as_slice() {
        return Some(&POP);
    }
    if kind == b"fetch".as_slice() {
        return Some(&FETCH);
    }
    if kind == b"see".as_slice() {
        return Some(&SEE);
    }
    if kind == b"end".as_slice() {
        return Some(&[]);
    }
    None
}

/// Returns the forms of the words after the first, if a line of the version begins with this word.
fn forms_of(version: Version, kind: &[u8]) -> Option<&'static [WordForm]>
    ensures { option_map (λ f. f.now) result ≡ forms_of version kind.now }
{
    match forms_of_plan(version, kind) {
        Some(forms) => Some(forms),
        None => forms_of_journal(version, kind),
    }
}

/// Returns the number, from 0, of the first word that is wrong.
///
/// A word is wrong if it has the wrong form, is one too many, or is missing.
fn wrong_at(forms: &[WordForm], words: &mut Words<'_>) -> Option<usize>
    ensures place { result ≡ wrong_at forms.now words.old }
    ensures within { IfSome result (λ n. n ≤ length forms.now) }
{
    for place in 0..forms.len() {
        let Some(word) = words.next_word() else {
            return Some(place);
        };
        if !forms[place].fits(word) {
            return Some(place);
        }
    }
    match words.next_word() {
        Some(_) => Some(forms.len()),
        None => None,
    }
}

/// Returns the number, from 0, of the first word of a line that is wrong.
fn wrong_in(version: Version, line: &[u8]) -> Option<usize>
    ensures place { result ≡ wrong_in version (words_of line.now) }
    ensures few { IfSome result (λ n. n ≤ 2 ^ 63) }
{
    let mut words = Words::new(line);
    let kind = words.next_word()?;
    let Some(forms) = forms_of(version, kind) else {
        return Some(0);
    };
    let place = wrong_at(forms, &mut words)?;
    Some(place + 1)
}

/// Returns the column, from 1, at which the word of this number begins or would begin.
fn column_of(line: &[u8], place: usize) -> usize
    ensures { result ≡ room_of (take place (words_of line.now)) + 1 }
{
    let mut words = Words::new(line);
    let mut column = 1;
    for _ in 0..place {
        if let Some(word) = words.next_word() {
            column += word.len() + 1;
        }
    }
    column
}

/// The place of a word in a line (project-defined).
#[derive(Clone, Copy, PartialEq, Eq)]
pub struct WordPlace {
    /// The number of the word, from 1.
    pub word: usize,
    /// The column of its first byte, from 1.
    pub column: usize,
}

/// Returns the place of the first word of a line of a trace that is wrong there (project-defined).
///
/// A word is wrong if it has the wrong form, is one too many, or is missing. The form is that of its place in a line
/// that begins with this line's first word. The line is given without its line feed.
///
/// Returns `None` if each word may stand in its place. All lines of the version are such lines, and so are lines whose
/// words don't go together.
pub fn wrong_word(version: Version, line: &[u8]) -> Option<WordPlace>
    ensures place { result ≡ option_map (place_in (words_of line.now)) (wrong_in version (words_of line.now)) }
    ensures wrong { IfSome result (BeginsNoLine version (words_of line.now)) }
{
    let place = wrong_in(version, line)?;
    Some(WordPlace {
        word: place + 1,
        column: column_of(line, place),
    })
}
