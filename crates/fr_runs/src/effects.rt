//! The effects of fault lines on the bus, as a record has them.
ghost use Rattle.std.specs.Prelude.{◌≡◌, ◌+◌, ◌<◌, ◌^◌, IfOk, count_by, if◌then◌else◌};
ghost use Rattle.std.specs.List.{list_any};
ghost use Rattle.fr_bus.specs.Outcome.{passed_on};
ghost use Rattle.fr_bus.specs.Windows.{begins_cycle};
ghost use Rattle.fr_runs.specs.Effects.{brings, has_effect, has_effect_in, idle_lines, idle_numbers, is_flipped};
ghost use Rattle.fr_runs.specs.Effects.{is_sent_by, is_turned, repeats, shows, times, turns, wholly_idle};

use crate::fault_line::FaultLine;
use fr_bus::fault::Fault;
use fr_bus::outcome::{Sealed, Sent, SentFate};
use fr_slots::channel::Channel;
use fr_slots::numbers::NodeId;
use std::alloc::{AllocError, Global};

/// Returns whether the node sent it on the channel.
fn is_sent_by(node: NodeId, channel: Channel, sent: &Sent) -> bool
    ensures { result ≡ is_sent_by node channel sent.now }
{
    sent.node == node && sent.channel == channel
}

/// Returns whether the transmission is a babble of the fault, or an offer that the fault muted (project-defined).
pub fn brings(sent: &Sent, fault: &Fault) -> bool
    ensures { result ≡ brings sent.now fault.now }
{
    match fault {
        Fault::Babble { node, channel, .. } => sent.babble && is_sent_by(*node, *channel, sent),
        Fault::Mute { node, channel } => {
            sent.fate == SentFate::Muted && is_sent_by(*node, *channel, sent)
        }
        Fault::Corrupt { .. } => false,
    }
}

/// Returns whether the fault flips a bit on the channel (project-defined).
pub fn turns(channel: Channel, fault: &Fault) -> bool
    ensures { result ≡ turns channel fault.now }
{
    match fault {
        Fault::Corrupt { channel: on, .. } => *on == channel,
        Fault::Babble { .. } | Fault::Mute { .. } => false,
    }
}

/// Returns the number of transmissions that passed on the channel (project-defined).
pub fn count_passed(channel: Channel, sent: &[Sent]) -> usize
    ensures { result ≡ count_by (passed_on channel) sent.now }
{
    sent.iter().filter(|t| t.passed_on(channel)).count()
}

/// Returns whether the bit that is to be flipped is in one of these bytes (project-defined).
pub fn is_turned(corrupt: Option<u16>, bytes: &[u8]) -> bool
    ensures { result ≡ is_turned corrupt bytes.now }
{
    match corrupt {
        Some(bit) => usize::from(bit / 8) < bytes.len(),
        None => false,
    }
}

/// Returns whether a bit of the transmission was flipped: it alone passed on its channel, and the bit is in its bytes
/// (project-defined). It may be too long for its slot.
pub fn is_flipped(sealed: &Sealed, sent: &Sent) -> bool
    ensures { result ≡ is_flipped sealed.now sent.now }
{
    sent.passed_on(sent.channel)
        && count_passed(sent.channel, sealed.sent.as_slice()) <= 1
        && is_turned(sealed.corrupt_on(sent.channel), sent.bytes.as_slice())
}

/// Returns whether the transmission of the window shows the effect of the fault.
fn shows(sealed: &Sealed, fault: &Fault, sent: &Sent) -> bool
    ensures { result ≡ shows sealed.now fault.now sent.now }
{
    brings(sent, fault) || (turns(sent.channel, fault) && is_flipped(sealed, sent))
}

/// Returns whether a transmission of the window shows the effect of the fault.
fn is_shown(sealed: &Sealed, fault: &Fault) -> bool
    ensures { result ≡ list_any (shows sealed.now fault.now) sealed.now.sent }
{
    let sent = sealed.sent.as_slice();
    sent.iter().any(|t| shows(sealed, fault, t))
}

/// Returns whether the line had an effect in the window.
///
/// The window lies in the cycle of this number of the run.
fn has_effect_in(line: &FaultLine, cycle: usize, sealed: &Sealed) -> bool
    ensures { result ≡ has_effect_in line.now cycle sealed.now }
{
    line.strikes(cycle, &sealed.window) && is_shown(sealed, &line.fault)
}

/// Returns the number of cycles that began up to this window and with it, from the number before.
fn begun_with(begun: usize, sealed: &Sealed) -> usize
    requires { begun + 1 < 2 ^ 64 }
    ensures { result ≡ begun + (if begins_cycle sealed.now then 1 else 0) }
{
    sealed.cycles_with(begun)
}

/// Returns whether the line had an effect in a window of the record.
fn has_effect(windows: &[Sealed], line: &FaultLine) -> bool
    ensures { result ≡ has_effect windows.now line.now }
{
    let mut begun = 0;
    for sealed in windows {
        begun = begun_with(begun, sealed);
        if has_effect_in(line, begun.saturating_sub(1), sealed) {
            return true;
        }
    }
    false
}

/// Returns the numbers of the lines without effect, given the numbers of all lines.
fn idle_numbers(
    alloc: Global,
    windows: &[Sealed],
    lines: &[FaultLine],
    numbers: &[u32],
) -> Result<Vec<u32>, AllocError>
    ensures { IfOk result (λ idle. idle.items ≡ idle_numbers windows.now lines.now numbers.now) }
{
    let mut idle = Vec::new(alloc);
    for (line, number) in lines.iter().zip(numbers) {
        if !has_effect(windows, line) {
            idle.push(*number)?;
        }
    }
    Ok(idle)
}

/// Returns how often the number is among these.
fn times(number: u32, numbers: &[u32]) -> usize
    ensures { result ≡ times number numbers.now }
{
    numbers.iter().filter(|other| **other == number).count()
}

/// Returns whether the number is the one before it.
fn repeats(last: Option<u32>, number: u32) -> bool
    ensures { result ≡ repeats last number }
{
    match last {
        Some(last) => last == number,
        None => false,
    }
}

/// Returns the numbers of the lines all of whose fault lines had no effect, each once.
fn wholly_idle(alloc: Global, numbers: &[u32], idle: &[u32]) -> Result<Vec<u32>, AllocError>
    ensures { IfOk result (λ told. told.items ≡ wholly_idle numbers.now idle.now) }
{
    let mut told = Vec::new(alloc);
    let mut last = None;
    for number in idle {
        if !repeats(last, *number) && times(*number, idle) == times(*number, numbers) {
            told.push(*number)?;
        }
        last = Some(*number);
    }
    Ok(told)
}

/// Returns the numbers of the lines of a text whose faults had no effect on the bus, in their order (project-defined).
///
/// The record has the windows of a run with these fault lines, and the numbers say from which line of the text each of
/// them comes. A fault line had an effect if a transmission shows it, in a window in which the fault of the line
/// occurs:
/// - a babble line by a babble of its node on its channel, which a guardian may have stopped;
/// - a mute line by a muted offer of its node on its channel;
/// - a corrupt line by a transmission that alone passed on its channel and has the flipped bit. It may be too long.
///
/// A line of the text for both channels had an effect if one of its two fault lines had.
///
/// Fails if an allocation fails.
pub fn idle_lines(
    alloc: Global,
    windows: &[Sealed],
    lines: &[FaultLine],
    numbers: &[u32],
) -> Result<Vec<u32>, AllocError>
    ensures { IfOk result (λ idle. idle.items ≡ idle_lines windows.now lines.now numbers.now) }
{
    let idle = idle_numbers(alloc, windows, lines, numbers)?;
    wholly_idle(alloc, numbers, idle.as_slice())
}
