//! The comparison of a record with the faults of a run.

ghost use Rattle.std.specs.Prelude.{◌≡◌, ◌↔◌, IfOk, IsTrue, ℕ, Some, not, ◌&&◌, slice_get, option_map};
ghost use Rattle.std.specs.Option.{option_copied};
ghost use Rattle.fr_bus.specs.Record.{corrupt_on, recordable};
ghost use Rattle.fr_runs.specs.Faulted.{bit_turned, bytes_babbled, loses, bit_by, bit_due, babble_by, babble_due};
ghost use Rattle.fr_runs.specs.Faulted.{is_lost_by, is_loss_due, is_muted, is_babble_of, babble_in, HasFaults};
ghost use Rattle.fr_runs.specs.Faulted.{HaveFaults, IsDue, IsDueAt, IsBabbled, IsBabbledBy, IsBabbledAt};
ghost use Rattle.fr_slots.specs.Windows.{slot_of};

use crate::fault_line::{FaultLine, keep_lines_of};
use fr_bus::fault::Fault;
use fr_bus::outcome::{Sealed, Sent, SentFate};
use fr_frame::frame::Bytes;
use fr_slots::channel::Channel;
use fr_slots::numbers::{NodeId, SlotId};
use fr_slots::window::{Window, opens_cycle};
use std::alloc::{AllocError, Global};

/// Returns the bit that the fault flips on the channel, if it flips one.
fn bit_turned(channel: Channel, fault: &Fault) -> Option<u16>
    ensures { result ≡ bit_turned channel fault.now }
{
    match fault {
        Fault::Corrupt { channel: on, bit } => if *on == channel { Some(*bit) } else { None },
        Fault::Babble { .. } | Fault::Mute { .. } => None,
    }
}

/// Returns the bytes that the node babbles on the channel by the fault, if it does.
fn bytes_babbled(node: NodeId, channel: Channel, fault: &Fault) -> Option<&Bytes>
    ensures { option_copied result ≡ bytes_babbled node channel fault.now }
{
    match fault {
        Fault::Babble {
            node: of,
            channel: on,
            bytes,
        } => if *of == node && *on == channel {
            Some(bytes)
        } else {
            None
        },
        Fault::Mute { .. } | Fault::Corrupt { .. } => None,
    }
}

/// Returns whether the fault mutes the node's offer on the channel.
fn loses(node: NodeId, channel: Channel, fault: &Fault) -> bool
    ensures { result ≡ loses node channel fault.now }
{
    match fault {
        Fault::Mute {
            node: of,
            channel: on,
        } => *of == node && *on == channel,
        Fault::Babble { .. } | Fault::Corrupt { .. } => false,
    }
}

/// Returns the bit that the line flips on the channel of the window, if it takes effect there.
fn bit_by(line: &FaultLine, cycle: usize, window: &Window, channel: Channel) -> Option<u16>
    ensures { result ≡ bit_by line.now cycle window.now channel }
{
    if line.strikes(cycle, window) {
        bit_turned(channel, &line.fault)
    } else {
        None
    }
}

/// Returns the bit that the lines flip on the channel of the window.
fn bit_due(lines: &[FaultLine], cycle: usize, window: &Window, channel: Channel) -> Option<u16>
    ensures { result ≡ bit_due lines.now cycle window.now channel }
{
    for line in lines {
        let bit = bit_by(line, cycle, window, channel);
        if bit.is_some() {
            return bit;
        }
    }
    None
}

/// Returns the node's babble on the channel of the window by the line, if it takes effect there.
fn babble_by<'a>(
    line: &'a FaultLine,
    cycle: usize,
    window: &Window,
    node: NodeId,
    channel: Channel,
) -> Option<&'a Bytes>
    ensures { option_copied result ≡ babble_by line.now cycle window.now node channel }
{
    if line.strikes(cycle, window) {
        bytes_babbled(node, channel, &line.fault)
    } else {
        None
    }
}

/// Returns the node's babble on the channel of the window by the lines.
fn babble_due<'a>(
    lines: &'a [FaultLine],
    cycle: usize,
    window: &Window,
    node: NodeId,
    channel: Channel,
) -> Option<&'a Bytes>
    ensures { option_copied result ≡ babble_due lines.now cycle window.now node channel }
{
    for line in lines {
        if let Some(bytes) = babble_by(line, cycle, window, node, channel) {
            return Some(bytes);
        }
    }
    None
}

/// Returns whether the line mutes the node's offer on the channel of the window.
fn is_lost_by(
    cycle: usize,
    window: &Window,
    node: NodeId,
    channel: Channel,
    line: &FaultLine,
) -> bool
    ensures { result ≡ is_lost_by cycle window.now node channel line.now }
{
    line.strikes(cycle, window) && loses(node, channel, &line.fault)
}

/// Returns whether a line mutes the node's offer on the channel of the window.
fn is_loss_due(
    lines: &[FaultLine],
    cycle: usize,
    window: &Window,
    node: NodeId,
    channel: Channel,
) -> bool
    ensures { result ≡ is_loss_due lines.now cycle window.now node channel }
{
    lines
        .iter()
        .any(|line| is_lost_by(cycle, window, node, channel, line))
}

/// Returns whether the fate is a mute.
fn is_muted(fate: SentFate) -> bool
    ensures { result ≡ is_muted fate }
{
    match fate {
        SentFate::Muted => true,
        SentFate::Passed | SentFate::Blocked => false,
    }
}

/// Returns whether the transmission is the node's babble on the channel.
fn is_babble_of(channel: Channel, node: NodeId, sent: &Sent) -> bool
    ensures { result ≡ is_babble_of channel node sent.now }
{
    sent.node == node && sent.channel == channel && sent.babble
}

/// Returns the bytes of the node's babble on the channel, if it is among these.
fn babble_in(channel: Channel, node: NodeId, sent: &[Sent]) -> Option<&Bytes>
    ensures { option_copied result ≡ babble_in channel node sent.now }
{
    for t in sent {
        if is_babble_of(channel, node, t) {
            return Some(&t.bytes);
        }
    }
    None
}

/// Returns the bytes that are recorded of these on a channel with or without a slot.
fn recordable(slot: Option<SlotId>, bytes: Option<&Bytes>) -> Option<&Bytes>
    ensures { option_copied result ≡ recordable slot (option_copied bytes.entry) }
{
    // A babble without bytes, or on a channel without a slot, isn't recorded.
    match (slot, bytes) {
        (Some(_), Some(bytes)) => if bytes.len() == 0 { None } else { Some(bytes) },
        _ => None,
    }
}

/// Returns whether both are the same bytes, or both are none.
fn are_same(one: Option<&Bytes>, other: Option<&Bytes>) -> bool
    ensures { IsTrue result ↔ (option_copied one.entry ≡ option_copied other.entry) }
{
    match (one, other) {
        (Some(one), Some(other)) => one == other,
        (None, None) => true,
        _ => false,
    }
}

/// Returns whether the babble is the one that the lines give its node.
fn is_babble_due(lines: &[FaultLine], cycle: usize, window: &Window, sent: &Sent) -> bool
    ensures { IsTrue result
        ↔ (recordable
        (slot_of window.now sent.now.channel)
        (babble_due lines.now cycle window.now sent.now.node sent.now.channel)
        ≡ Some sent.now.bytes) }
{
    let due = babble_due(lines, cycle, window, sent.node, sent.channel);
    let recorded = recordable(window.slot(sent.channel), due);
    are_same(recorded, Some(&sent.bytes))
}

/// Returns whether the transmission is muted exactly if it is an offer that a line mutes.
fn is_loss_right(lines: &[FaultLine], cycle: usize, window: &Window, sent: &Sent) -> bool
    ensures { IsTrue result
        ↔ (is_muted sent.now.fate
        ≡ (not sent.now.babble && is_loss_due lines.now cycle window.now sent.now.node sent.now.channel)) }
{
    // Only an offer can be muted: a mute of a silent node isn't recorded.
    let is_lost = !sent.babble && is_loss_due(lines, cycle, window, sent.node, sent.channel);
    is_muted(sent.fate) == is_lost
}

/// Returns whether the transmission is due. It is a babble of a line that takes effect, or an offer that is muted
/// exactly if such a line mutes it.
fn is_due(lines: &[FaultLine], cycle: usize, window: &Window, sent: &Sent) -> bool
    ensures { IsTrue result ↔ IsDue lines.now cycle window.now sent.now }
{
    (!sent.babble || is_babble_due(lines, cycle, window, sent))
        && is_loss_right(lines, cycle, window, sent)
}

/// Returns the transmission at this place.
fn sent_at(sent: &[Sent], place: usize) -> Option<&Sent>
    ensures { option_map (λ t. t.now) result ≡ slice_get sent.now place }
{
    sent.get(place)
}

/// Returns the line at this place.
fn line_at(lines: &[FaultLine], place: usize) -> Option<&FaultLine>
    ensures { option_map (λ line. line.now) result ≡ slice_get lines.now place }
{
    lines.get(place)
}

/// Returns whether the transmission at this place of the window is due, if there is one.
fn is_due_at(lines: &[FaultLine], cycle: usize, sealed: &Sealed, place: usize) -> bool
    ensures { IsTrue result ↔ IsDueAt lines.now cycle sealed.now place }
{
    match sent_at(sealed.sent.as_slice(), place) {
        Some(sent) => is_due(lines, cycle, &sealed.window, sent),
        None => true,
    }
}

/// Returns whether all transmissions of the window are due.
fn are_due(lines: &[FaultLine], cycle: usize, sealed: &Sealed) -> bool
    ensures { IsTrue result ↔ ((k : ℕ) → IsDueAt lines.now cycle sealed.now k) }
{
    for place in 0..sealed.sent.len() {
        if !is_due_at(lines, cycle, sealed, place) {
            return false;
        }
    }
    true
}

/// Returns whether the window has the babble that the fault gives a node.
fn is_babbled(sealed: &Sealed, fault: &Fault) -> bool
    ensures { IsTrue result ↔ IsBabbled sealed.now fault.now }
{
    match fault {
        Fault::Babble {
            node,
            channel,
            bytes,
        } => {
            let sent = babble_in(*channel, *node, sealed.sent.as_slice());
            are_same(sent, recordable(sealed.window.slot(*channel), Some(bytes)))
        }
        Fault::Mute { .. } | Fault::Corrupt { .. } => true,
    }
}

/// Returns whether the window has the babble of the line, if the line takes effect there.
fn is_babbled_by(cycle: usize, sealed: &Sealed, line: &FaultLine) -> bool
    ensures { IsTrue result ↔ IsBabbledBy cycle sealed.now line.now }
{
    !line.strikes(cycle, &sealed.window) || is_babbled(sealed, &line.fault)
}

/// Returns the same for the line at this place, if there is one.
fn is_babbled_at(lines: &[FaultLine], cycle: usize, sealed: &Sealed, place: usize) -> bool
    ensures { IsTrue result ↔ IsBabbledAt lines.now cycle sealed.now place }
{
    match line_at(lines, place) {
        Some(line) => is_babbled_by(cycle, sealed, line),
        None => true,
    }
}

/// Returns whether the window has all babbles of the lines.
fn are_babbled(lines: &[FaultLine], cycle: usize, sealed: &Sealed) -> bool
    ensures { IsTrue result ↔ ((k : ℕ) → IsBabbledAt lines.now cycle sealed.now k) }
{
    for place in 0..lines.len() {
        if !is_babbled_at(lines, cycle, sealed, place) {
            return false;
        }
    }
    true
}

// A bit to be flipped is always recorded, even if it flips nothing.
/// Returns whether the flipped bit on the channel of the window is the one of the lines.
fn is_bit_due(lines: &[FaultLine], cycle: usize, sealed: &Sealed, channel: Channel) -> bool
    ensures { IsTrue result ↔ (corrupt_on sealed.now channel ≡ bit_due lines.now cycle sealed.now.window channel) }
{
    sealed.corrupt_on(channel) == bit_due(lines, cycle, &sealed.window, channel)
}

/// Returns whether the window has exactly the faults of the lines that take effect there. The window is in the cycle of
/// this number of the run.
#[tactic(auto, using(crate::proofs::FaultedLemmas::has_faults))]
fn has_faults(lines: &[FaultLine], cycle: usize, sealed: &Sealed) -> bool
    ensures { IsTrue result → HasFaults lines.now cycle sealed.now }
{
    is_bit_due(lines, cycle, sealed, Channel::A)
        && is_bit_due(lines, cycle, sealed, Channel::B)
        && are_due(lines, cycle, sealed)
        && are_babbled(lines, cycle, sealed)
}

/// Returns whether the record has exactly the faults of the lines, in each window (project-defined).
///
/// It walks the record once. For each cycle it reads each line once, and for each window of the cycle it reads the
/// lines that name the cycle a few times. The lines of a cycle are copied, and the call fails if their allocation
/// fails.
///
/// Lines that give more than one fault of a kind, node and channel in a window, which `check_run` rejects, may give
/// false for a record that has their faults. Only the first of them is looked for.
pub fn have_faults(
    alloc: Global,
    lines: &[FaultLine],
    recorded: &[Sealed],
) -> Result<bool, AllocError>
    ensures { IfOk result (λ answer. IsTrue answer → HaveFaults lines.now recorded.now) }
{
    let mut begun = 0;
    let mut kept = Vec::new(alloc);
    keep_lines_of(lines, 0, &mut kept)?;
    for sealed in recorded {
        if opens_cycle(&sealed.window) {
            keep_lines_of(lines, begun, &mut kept)?;
        }
        begun = sealed.cycles_with(begun);
        if !has_faults(kept.as_slice(), begun.saturating_sub(1), sealed) {
            return Ok(false);
        }
    }
    Ok(true)
}
