//! The lines of version 3.
ghost use Rattle.std.specs.Prelude.{◌≡◌, map};
ghost use Rattle.fr_scenario.specs.Statements.{are_end, babble_said, call_said, calls_said, commit_said};
ghost use Rattle.fr_scenario.specs.Statements.{corrupt_said, expect_none_said, expect_said, fault_at, faults_on};
ghost use Rattle.fr_scenario.specs.Statements.{lost_said, mute_said, other_said, pop_said};
ghost use Rattle.fr_scenario.specs.Statements.{read_said, statement_said, withdraw_said};
ghost use Rattle.fr_bus.specs.declared.fault.Fault.TheVariants.{Babble, Mute, Corrupt};

use crate::statement::Statement;
use crate::statement_parts::{cycles_of, named_buffer, named_node, place_of};
use fr_bus::fault::Fault;
use fr_frame::frame::{Bytes, FRAME_BYTES, duplicate_bytes};
use fr_interface::call::Call;
use fr_lines::parts::{channels_of, payload_of, task_of};
use fr_names::names::Names;
use fr_runs::cycles::RunCycles;
use fr_runs::fault_line::{FaultLine, FaultPlace};
use fr_slots::channel::{Channel, Channels};
use fr_slots::numbers::NodeId;
use fr_text::hexes::bytes_of;
use fr_text::numbers::number_of;

/// Returns whether the words are those of the last line.
pub(crate) fn are_end(words: &[&[u8]]) -> bool
    ensures { result ≡ are_end (map (λ word. word.now) words.now) }
{
    match words {
        [word] => *word == b"end".as_slice(),
        _ => false,
    }
}

/// Returns the commit of the node whose buffer and payload are the words.
#[tactic(auto, unfolding(crate::specs::Statements::commit_said))]
fn commit_of(names: &Names, node: NodeId, words: &[&[u8]]) -> Option<Call>
    ensures { result ≡ commit_said names.now node (map (λ word. word.now) words.now) }
{
    let [buffer, payload] = words else {
        return None;
    };
    let buffer = named_buffer(names, node, buffer)?;
    let payload = payload_of(payload)?;
    Some(Call::Commit { buffer, payload })
}

/// Returns the withdraw of the node whose buffer is the word.
#[tactic(auto, unfolding(crate::specs::Statements::withdraw_said))]
fn withdraw_of(names: &Names, node: NodeId, words: &[&[u8]]) -> Option<Call>
    ensures { result ≡ withdraw_said names.now node (map (λ word. word.now) words.now) }
{
    let [buffer] = words else {
        return None;
    };
    let buffer = named_buffer(names, node, buffer)?;
    Some(Call::Withdraw { buffer })
}

/// Returns the read of the node whose buffer is the word.
#[tactic(auto, unfolding(crate::specs::Statements::read_said))]
fn read_of(names: &Names, node: NodeId, words: &[&[u8]]) -> Option<Call>
    ensures { result ≡ read_said names.now node (map (λ word. word.now) words.now) }
{
    let [buffer] = words else {
        return None;
    };
    let buffer = named_buffer(names, node, buffer)?;
    Some(Call::Read { buffer })
}

/// Returns the pop, if there are no words.
#[tactic(auto, unfolding(crate::specs::Statements::pop_said))]
fn pop_of(words: &[&[u8]]) -> Option<Call>
    ensures { result ≡ pop_said (map (λ word. word.now) words.now) }
{
    match words {
        [] => Some(Call::Pop),
        _ => None,
    }
}

/// Returns the call of this kind and node that the words spell.
#[tactic(auto, unfolding(crate::specs::Statements::call_said))]
fn call_of(names: &Names, kind: &[u8], node: NodeId, words: &[&[u8]]) -> Option<Call>
    ensures { result ≡ call_said names.now kind.now node (map (λ word. word.now) words.now) }
{
    if kind == b"commit".as_slice() {
        return commit_of(names, node, words);
    }
    if kind == b"withdraw".as_slice() {
        return withdraw_of(names, node, words);
    }
    if kind == b"read".as_slice() {
        return read_of(names, node, words);
    }
    if kind == b"pop".as_slice() {
        return pop_of(words);
    }
    None
}

/// Returns the calls of this kind that the words spell.
#[tactic(auto, unfolding(crate::specs::Statements::calls_said))]
fn calls_of(names: &Names, kind: &[u8], words: &[&[u8]]) -> Option<Statement>
    ensures { result ≡ calls_said names.now kind.now (map (λ word. word.now) words.now) }
{
    let [node, task, cycles, words @ ..] = words else {
        return None;
    };
    let node = named_node(names, node)?;
    let task = task_of(task)?;
    let cycles = cycles_of(cycles)?;
    let call = call_of(names, kind, node, words)?;
    Some(Statement::Calls {
        node,
        task,
        cycles,
        call,
    })
}

/// Returns the fault in these cycles and windows.
fn fault_at(fault: Fault, cycles: RunCycles, place: FaultPlace) -> FaultLine
    ensures { result ≡ fault_at fault cycles place }
{
    FaultLine {
        fault,
        cycles,
        place,
    }
}

/// Returns the faults on the channels: that of channel A, that of channel B, or both.
fn faults_on(
    channels: Channels,
    a: Fault,
    b: Fault,
    cycles: RunCycles,
    place: FaultPlace,
) -> Statement
    ensures { result ≡ faults_on channels a b cycles place }
{
    match channels {
        Channels::A => Statement::Fault(fault_at(a, cycles, place)),
        Channels::B => Statement::Fault(fault_at(b, cycles, place)),
        Channels::Both => Statement::Faults {
            a: fault_at(a, cycles, place),
            b: fault_at(b, cycles, place),
        },
    }
}

/// Returns the mute of the node on the channel.
fn mute(node: NodeId, channel: Channel) -> Fault
    ensures { result ≡ Mute node channel }
{
    Fault::Mute { node, channel }
}

/// Returns the babble of the node on the channel.
fn babble(node: NodeId, channel: Channel, bytes: &Bytes) -> Fault
    ensures { result ≡ Babble node channel bytes.now }
{
    Fault::Babble {
        node,
        channel,
        bytes: duplicate_bytes(bytes),
    }
}

/// Returns the flip of the bit on the channel.
fn corruption(channel: Channel, bit: u16) -> Fault
    ensures { result ≡ Corrupt channel bit }
{
    Fault::Corrupt { channel, bit }
}

/// Returns the babbles that the words spell.
#[tactic(auto, unfolding(crate::specs::Statements::babble_said))]
fn babble_of(names: &Names, words: &[&[u8]]) -> Option<Statement>
    ensures { result ≡ babble_said names.now (map (λ word. word.now) words.now) }
{
    let [node, channels, cycles, place, bytes] = words else {
        return None;
    };
    let node = named_node(names, node)?;
    let channels = channels_of(channels)?;
    let cycles = cycles_of(cycles)?;
    let place = place_of(place)?;
    let bytes = bytes_of::<FRAME_BYTES>(bytes)?;
    let (a, b) = (
        babble(node, Channel::A, &bytes),
        babble(node, Channel::B, &bytes),
    );
    Some(faults_on(channels, a, b, cycles, place))
}

/// Returns the mutes that the words spell.
#[tactic(auto, unfolding(crate::specs::Statements::mute_said))]
fn mute_of(names: &Names, words: &[&[u8]]) -> Option<Statement>
    ensures { result ≡ mute_said names.now (map (λ word. word.now) words.now) }
{
    let [node, channels, cycles, place] = words else {
        return None;
    };
    let node = named_node(names, node)?;
    let channels = channels_of(channels)?;
    let cycles = cycles_of(cycles)?;
    let place = place_of(place)?;
    let (a, b) = (mute(node, Channel::A), mute(node, Channel::B));
    Some(faults_on(channels, a, b, cycles, place))
}

/// Returns the flips that the words spell.
#[tactic(auto, unfolding(crate::specs::Statements::corrupt_said))]
fn corrupt_of(words: &[&[u8]]) -> Option<Statement>
    ensures { result ≡ corrupt_said (map (λ word. word.now) words.now) }
{
    let [channels, cycles, place, bit] = words else {
        return None;
    };
    let channels = channels_of(channels)?;
    let cycles = cycles_of(cycles)?;
    let place = place_of(place)?;
    let bit = number_of(bit, 65536)?;
    let (a, b) = (
        corruption(Channel::A, bit as u16),
        corruption(Channel::B, bit as u16),
    );
    Some(faults_on(channels, a, b, cycles, place))
}

/// Returns the loss of all offers of the node, for the node and cycles that the words spell.
#[tactic(auto, unfolding(crate::specs::Statements::lost_said))]
fn lost_of(names: &Names, words: &[&[u8]]) -> Option<Statement>
    ensures { result ≡ lost_said names.now (map (λ word. word.now) words.now) }
{
    let [node, cycles] = words else {
        return None;
    };
    let node = named_node(names, node)?;
    let cycles = cycles_of(cycles)?;
    let (a, b) = (mute(node, Channel::A), mute(node, Channel::B));
    Some(faults_on(Channels::Both, a, b, cycles, FaultPlace::EveryWindow))
}

/// Returns the expectation of a payload that the words spell.
#[tactic(auto, unfolding(crate::specs::Statements::expect_said))]
fn expect_of(names: &Names, words: &[&[u8]]) -> Option<Statement>
    ensures { result ≡ expect_said names.now (map (λ word. word.now) words.now) }
{
    let [node, cycles, buffer, payload] = words else {
        return None;
    };
    let node = named_node(names, node)?;
    let cycles = cycles_of(cycles)?;
    let buffer = named_buffer(names, node, buffer)?;
    let payload = payload_of(payload)?;
    Some(Statement::Expected {
        node,
        cycles,
        buffer,
        payload: Some(payload),
    })
}

/// Returns the expectation of an empty buffer that the words spell.
#[tactic(auto, unfolding(crate::specs::Statements::expect_none_said))]
fn expect_none_of(names: &Names, words: &[&[u8]]) -> Option<Statement>
    ensures { result ≡ expect_none_said names.now (map (λ word. word.now) words.now) }
{
    let [node, cycles, buffer] = words else {
        return None;
    };
    let node = named_node(names, node)?;
    let cycles = cycles_of(cycles)?;
    let buffer = named_buffer(names, node, buffer)?;
    Some(Statement::Expected {
        node,
        cycles,
        buffer,
        payload: None,
    })
}

/// Returns the statement of this kind that the words spell, other than a fault.
#[tactic(auto, unfolding(crate::specs::Statements::other_said))]
fn other_of(names: &Names, kind: &[u8], words: &[&[u8]]) -> Option<Statement>
    ensures { result ≡ other_said names.now kind.now (map (λ word. word.now) words.now) }
{
    if kind == b"expect".as_slice() {
        return expect_of(names, words);
    }
    if kind == b"expect-none".as_slice() {
        return expect_none_of(names, words);
    }
    calls_of(names, kind, words)
}

/// Returns the statement that the words of a line spell.
///
/// `None` if they have no form of a line, or a number out of its range, or a name that no node or buffer has.
#[tactic(auto, unfolding(crate::specs::Statements::statement_said))]
pub(crate) fn statement_of(names: &Names, words: &[&[u8]]) -> Option<Statement>
    ensures { result ≡ statement_said names.now (map (λ word. word.now) words.now) }
{
    let [kind, words @ ..] = words else {
        return Some(Statement::Nothing);
    };
    if *kind == b"babble".as_slice() {
        return babble_of(names, words);
    }
    if *kind == b"mute".as_slice() {
        return mute_of(names, words);
    }
    if *kind == b"corrupt".as_slice() {
        return corrupt_of(words);
    }
    if *kind == b"lost".as_slice() {
        return lost_of(names, words);
    }
    other_of(names, kind, words)
}
