//! The facts for which the commits of a run weren't sent or weren't received, window by window.
ghost use Rattle.std.specs.Prelude.{◌≡◌};
ghost use Rattle.std.specs.List.{flat_map};
ghost use Rattle.fr_showing.specs.Reasons.{effect_if, effect_line, effect_word, effects_of, flipped_by, is_last_on};
ghost use Rattle.fr_showing.specs.Reasons.{last_in, reasons_in};
ghost use Rattle.fr_showing.specs.Origins.{origin_of_sent};
ghost use Rattle.fr_text.specs.Writing.{Writes};

use crate::ends::{End, end_of, end_word, sent_in, window_of};
use crate::origins::{origin_of_bit, origin_of_sent};
use fr_bus::outcome::{Sealed, Sent};
use fr_lines::writing::write_slot;
use fr_minislot::lane::row_length;
use fr_openings::openings::{LastSlots, write_openings};
use fr_runs::effects::is_flipped;
use fr_scenario::scenario::Scenario;
use fr_schedule::cluster::Cluster;
use fr_slots::channel::Channel;
use fr_slots::params::Params;
use std::io;
use std::io::Write;

/// Returns the word for a fault whose transmission has this end.
fn effect_word(end: End) -> &'static str
    ensures { result.now ≡ effect_word end }
{
    match end {
        End::Blocked => "stopped",
        _ => "effect",
    }
}

/// Returns the number of the scenario's line that babbles the transmission or mutes it, if one does.
fn made_by(scenario: &Scenario, cycle: usize, sealed: &Sealed, sent: &Sent) -> Option<u32>
    ensures { result ≡ origin_of_sent scenario.now cycle sealed.now.window sent.now }
{
    origin_of_sent(scenario, cycle, window_of(sealed), sent)
}

/// Returns the number of the scenario's line that flips a bit of the transmission, if one does.
fn flipped_by(scenario: &Scenario, cycle: usize, sealed: &Sealed, sent: &Sent) -> Option<u32>
    ensures { result ≡ flipped_by scenario.now cycle sealed.now sent.now }
{
    if is_flipped(sealed, sent) {
        origin_of_bit(scenario, cycle, window_of(sealed), sent.channel)
    } else {
        None
    }
}

/// Writes the line of an effect of the scenario's line of this number.
#[tactic(auto, unfolding(crate::specs::Reasons::effect_line))]
fn write_effect_line<W: Write>(
    writer: &mut W,
    params: &Params,
    cycle: usize,
    sealed: &Sealed,
    sent: &Sent,
    number: u32,
) -> io::Result<()>
    ensures { Writes W.contents writer.old writer.new result
        (effect_line params.now cycle sealed.now sent.now number) }
{
    let end = end_of(params, sealed, sent);
    write!(writer, "{} {cycle}", effect_word(end))?;
    write_slot(writer, window_of(sealed).slot(sent.channel))?;
    let (channel, node, word) = (sent.channel, sent.node.number(), end_word(end));
    writeln!(writer, " {channel} {word} {node} {number}")
}

/// Writes the line of an effect, if a line of the scenario has it.
fn write_effect<W: Write>(
    writer: &mut W,
    params: &Params,
    cycle: usize,
    sealed: &Sealed,
    sent: &Sent,
    number: Option<u32>,
) -> io::Result<()>
    ensures { Writes W.contents writer.old writer.new result
        (effect_if params.now cycle sealed.now sent.now number) }
{
    match number {
        Some(number) => write_effect_line(writer, params, cycle, sealed, sent, number),
        None => Ok(()),
    }
}

/// Writes the effects of faults that the transmission of the window shows.
fn write_effects<W: Write>(
    writer: &mut W,
    scenario: &Scenario,
    params: &Params,
    cycle: usize,
    sealed: &Sealed,
    sent: &Sent,
) -> io::Result<()>
    ensures { Writes W.contents writer.old writer.new result
        (effects_of scenario.now params.now cycle sealed.now sent.now) }
{
    let made = made_by(scenario, cycle, sealed, sent);
    let flipped = flipped_by(scenario, cycle, sealed, sent);
    write_effect(writer, params, cycle, sealed, sent, made)?;
    write_effect(writer, params, cycle, sealed, sent, flipped)
}

/// Writes the effects of faults that the window's transmissions show.
fn write_all_effects<W: Write>(
    writer: &mut W,
    scenario: &Scenario,
    params: &Params,
    cycle: usize,
    sealed: &Sealed,
) -> io::Result<()>
    ensures { Writes W.contents writer.old writer.new result
        (flat_map (effects_of scenario.now params.now cycle sealed.now) sealed.now.sent) }
{
    let sent = sent_in(sealed);
    for transmission in sent {
        write_effects(writer, scenario, params, cycle, sealed, transmission)?;
    }
    Ok(())
}

/// Returns whether the slot that the channel opens in the window takes the rest of the dynamic segment.
fn is_last_on(params: &Params, sealed: &Sealed, channel: Channel) -> bool
    ensures { result ≡ is_last_on params.now sealed.now channel }
{
    let left = (params.minislots + 1).saturating_sub(sealed.window.minislot);
    left <= row_length(params, sealed.longest(channel))
}

/// Returns for each channel whether no slot follows in the cycle.
fn last_in(params: &Params, sealed: &Sealed) -> LastSlots
    ensures { result ≡ last_in params.now sealed.now }
{
    LastSlots {
        a: is_last_on(params, sealed, Channel::A),
        b: is_last_on(params, sealed, Channel::B),
    }
}

/// Writes the facts of a window for which commits weren't sent or weren't received (project-defined).
///
/// First come the lines of `write_openings`: the transmit buffers of the dynamic segment that are due, and those whose
/// slots open, or don't open in the cycle. Then the window has a line for each line of the scenario that babbles one of
/// its transmissions, mutes it, or flips one of its bits: `effect`, or `stopped` if a bus guardian stops the babble,
/// the cycle of the run, the slot, the channel, the end of the transmission (`End`), its node, and the number of the
/// scenario's line.
///
/// `cycle` is the cycle of the run in which the window lies, counted from 0.
///
/// Fails if the writer fails, which may have written a part of the lines by then.
pub fn write_window<W: Write>(
    writer: &mut W,
    scenario: &Scenario,
    cluster: &Cluster,
    cycle: usize,
    sealed: &Sealed,
) -> io::Result<()>
    ensures { Writes W.contents writer.old writer.new result
        (reasons_in scenario.now cluster.now cycle sealed.now) }
{
    let last = last_in(cluster.params(), sealed);
    write_openings(writer, cluster, cycle, window_of(sealed), last)?;
    write_all_effects(writer, scenario, cluster.params(), cycle, sealed)
}
