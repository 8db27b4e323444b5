//! The parts of a line of version 3.
ghost use Rattle.std.specs.Prelude.{◌≡◌, ◌==◌, option_map, position};
ghost use Rattle.fr_scenario.specs.StatementParts.{parted, step_said, with_step, without_step, span_of};
ghost use Rattle.fr_scenario.specs.StatementParts.{span_said, one_cycle, cycles_said, slots_from, one_slot};
ghost use Rattle.fr_scenario.specs.StatementParts.{some_slots, slots_said, minislots_said, dynamic_said, marked_place};
ghost use Rattle.fr_scenario.specs.StatementParts.{place_said, node_said, buffer_said};

use crate::parts::{place_number, run_cycle_of};
use fr_lines::parts::{buffer_of, node_of};
use fr_names::names::Names;
use fr_runs::cycles::RunCycles;
use fr_runs::fault_line::FaultPlace;
use fr_slots::numbers::NodeId;
use fr_text::numbers::number_of;

/// Returns the place of the first byte of this value.
fn place_of_mark(word: &[u8], mark: u8) -> Option<usize>
    ensures { result ≡ position (λ byte. byte == mark) word.now }
{
    word.iter().position(|byte| *byte == mark)
}

/// Returns what stands before and after the first byte of this value, if the word has one.
fn parted(word: &[u8], mark: u8) -> Option<(&[u8], &[u8])>
    ensures { option_map (λ parts. (parts.0.now, parts.1.now)) result ≡ parted mark word.now }
{
    match place_of_mark(word, mark) {
        Some(at) => Some((&word[..at], &word[at + 1..])),
        None => None,
    }
}

/// Returns the step that the word spells, 1 to 1023.
#[tactic(auto, unfolding(crate::specs::StatementParts::step_said))]
fn step_of(word: &[u8]) -> Option<u16>
    ensures { result ≡ step_said word.now }
{
    let number = number_of(word, 1024)?;
    if number == 0 {
        return None;
    }
    Some(number as u16)
}

/// Returns each `step`th cycle from the first to the last, if the last isn't below the first.
fn span(first: u16, last: u16, step: u16) -> Option<RunCycles>
    ensures { result ≡ span_of first last step }
{
    if first <= last {
        Some(RunCycles::Span { first, last, step })
    } else {
        None
    }
}

/// Returns the cycles from the first to the one that the word spells, with the step of the other word.
#[tactic(auto, unfolding(crate::specs::StatementParts::with_step))]
fn with_step(first: u16, last: &[u8], step: &[u8]) -> Option<RunCycles>
    ensures { result ≡ with_step first last.now step.now }
{
    let last = run_cycle_of(last)?;
    let step = step_of(step)?;
    span(first, last, step)
}

/// Returns the cycles from the first to the one that the word spells.
#[tactic(auto, unfolding(crate::specs::StatementParts::without_step))]
fn without_step(first: u16, last: &[u8]) -> Option<RunCycles>
    ensures { result ≡ without_step first last.now }
{
    let last = run_cycle_of(last)?;
    span(first, last, 1)
}

/// Returns the cycles whose first one and rest are these words.
#[tactic(auto, unfolding(crate::specs::StatementParts::span_said))]
fn span_in(first: &[u8], rest: &[u8]) -> Option<RunCycles>
    ensures { result ≡ span_said first.now rest.now }
{
    let first = run_cycle_of(first)?;
    match parted(rest, b'/') {
        Some((last, step)) => with_step(first, last, step),
        None => without_step(first, rest),
    }
}

/// Returns the one cycle that the word spells.
#[tactic(auto, unfolding(crate::specs::StatementParts::one_cycle))]
fn one_cycle(word: &[u8]) -> Option<RunCycles>
    ensures { result ≡ one_cycle word.now }
{
    let cycle = run_cycle_of(word)?;
    Some(RunCycles::Only(cycle))
}

/// Returns the cycles that the word spells: `*`, C, C-D or C-D/STEP.
#[tactic(auto, unfolding(crate::specs::StatementParts::cycles_said))]
pub(crate) fn cycles_of(word: &[u8]) -> Option<RunCycles>
    ensures { result ≡ cycles_said word.now }
{
    if word == b"*".as_slice() {
        return Some(RunCycles::Every);
    }
    match parted(word, b'-') {
        Some((first, rest)) => span_in(first, rest),
        None => one_cycle(word),
    }
}

/// Returns the static slots from the first to the last, if the last isn't below the first.
fn slots(first: u16, last: u16) -> Option<FaultPlace>
    ensures { result ≡ slots_from first last }
{
    if first <= last {
        Some(FaultPlace::Slots { first, last })
    } else {
        None
    }
}

/// Returns the one static slot that the word spells.
#[tactic(auto, unfolding(crate::specs::StatementParts::one_slot))]
fn one_slot(word: &[u8]) -> Option<FaultPlace>
    ensures { result ≡ one_slot word.now }
{
    let slot = place_number(word)?;
    Some(FaultPlace::Slot(slot))
}

/// Returns the static slots between those that the words spell.
#[tactic(auto, unfolding(crate::specs::StatementParts::some_slots))]
fn some_slots(first: &[u8], last: &[u8]) -> Option<FaultPlace>
    ensures { result ≡ some_slots first.now last.now }
{
    let first = place_number(first)?;
    let last = place_number(last)?;
    slots(first, last)
}

/// Returns the static slots that the word spells after its letter.
#[tactic(auto, unfolding(crate::specs::StatementParts::slots_said))]
fn slots_of(word: &[u8]) -> Option<FaultPlace>
    ensures { result ≡ slots_said word.now }
{
    if word == b"*".as_slice() {
        return Some(FaultPlace::EverySlot);
    }
    match parted(word, b'-') {
        Some((first, last)) => some_slots(first, last),
        None => one_slot(word),
    }
}

/// Returns the minislots that the word spells after its letter.
#[tactic(auto, unfolding(crate::specs::StatementParts::minislots_said))]
fn minislots_of(word: &[u8]) -> Option<FaultPlace>
    ensures { result ≡ minislots_said word.now }
{
    if word == b"*".as_slice() {
        return Some(FaultPlace::EveryMinislot);
    }
    let minislot = place_number(word)?;
    Some(FaultPlace::Minislot(minislot))
}

/// Returns the dynamic slot that the word spells after its letter.
#[tactic(auto, unfolding(crate::specs::StatementParts::dynamic_said))]
fn dynamic_of(word: &[u8]) -> Option<FaultPlace>
    ensures { result ≡ dynamic_said word.now }
{
    let slot = place_number(word)?;
    Some(FaultPlace::Dynamic(slot))
}

/// Returns the place that the word spells by its first letter.
#[tactic(auto, unfolding(crate::specs::StatementParts::marked_place))]
fn marked_place(word: &[u8]) -> Option<FaultPlace>
    ensures { result ≡ marked_place word.now }
{
    let (mark, number) = word.split_first()?;
    if *mark == b's' {
        return slots_of(number);
    }
    if *mark == b'm' {
        return minislots_of(number);
    }
    if *mark == b'd' {
        return dynamic_of(number);
    }
    None
}

/// Returns the place that the word spells: `*` for every window, or slots or minislots by their letter.
#[tactic(auto, unfolding(crate::specs::StatementParts::place_said))]
pub(crate) fn place_of(word: &[u8]) -> Option<FaultPlace>
    ensures { result ≡ place_said word.now }
{
    if word == b"*".as_slice() {
        return Some(FaultPlace::EveryWindow);
    }
    marked_place(word)
}

/// Returns the node whose number or name the word is.
#[tactic(auto, unfolding(crate::specs::StatementParts::node_said))]
pub(crate) fn named_node(names: &Names, word: &[u8]) -> Option<NodeId>
    ensures { result ≡ node_said names.now word.now }
{
    match node_of(word) {
        Some(node) => Some(node),
        None => names.node(word),
    }
}

/// Returns the buffer of the node whose number or name the word is.
#[tactic(auto, unfolding(crate::specs::StatementParts::buffer_said))]
pub(crate) fn named_buffer(names: &Names, node: NodeId, word: &[u8]) -> Option<u8>
    ensures { result ≡ buffer_said names.now node word.now }
{
    match buffer_of(word) {
        Some(buffer) => Some(buffer),
        None => names.buffer(node, word),
    }
}
