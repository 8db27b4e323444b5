//! The bus's record, a line for each transmission and each flipped bit, with the scenario's line from which it comes.
ghost use Rattle.std.specs.Prelude.{◌≡◌, ◌∷◌, ◌+◌, ◌<◌, ◌^◌, if◌then◌else◌};
ghost use Rattle.std.specs.List.{flat_map};
ghost use Rattle.fr_bus.specs.Record.{corrupt_on};
ghost use Rattle.fr_bus.specs.Windows.{begins_cycle};
ghost use Rattle.fr_lines.specs.Parts.{optional_number};
ghost use Rattle.fr_showing.specs.RecordText.{bit_lines, bytes_line, fate_text, frame_text, minislot_word, place_text};
ghost use Rattle.fr_showing.specs.RecordText.{record_text, sent_line, turned_line, window_text};
ghost use Rattle.fr_text.specs.Writing.{Writes};

use crate::ends::{end_of, end_word, window_of};
use crate::origins::{origin_of_bit, origin_of_sent};
use fr_bus::bus::Bus;
use fr_bus::outcome::{Sealed, Sent};
use fr_frame::decode::decode_lent;
use fr_lines::frames::write_indicators;
use fr_lines::writing::write_slot;
use fr_scenario::scenario::Scenario;
use fr_session::words::{fate_word, kind_word};
use fr_slots::channel::Channel;
use fr_slots::params::Params;
use fr_slots::window::Window;
use fr_text::hexes::write_hex;
use std::io;
use std::io::Write;

/// Writes the minislot of a window, and a dash for a static one.
pub(crate) fn write_minislot<W: Write>(writer: &mut W, window: &Window) -> io::Result<()>
    ensures { Writes W.contents writer.old writer.new result (minislot_word window.now) }
{
    if window.is_static() {
        write!(writer, "-")
    } else {
        write!(writer, "{}", window.minislot)
    }
}

/// Writes the place of a transmission.
///
/// It is the window, the cycle of the run, the minislot, the slot and the channel.
#[tactic(auto, unfolding(crate::specs::RecordText::place_text))]
fn write_place<W: Write>(
    writer: &mut W,
    cycle: usize,
    window: &Window,
    channel: Channel,
) -> io::Result<()>
    ensures { Writes W.contents writer.old writer.new result (place_text cycle window.now channel) }
{
    write!(writer, "{} {cycle} ", window.number)?;
    write_minislot(writer, window)?;
    write_slot(writer, window.slot(channel))?;
    write!(writer, " {channel}")
}

/// Writes the ID and the flags of the frame that the bytes spell, or dashes if they spell none.
#[tactic(auto, unfolding(crate::specs::RecordText::frame_text))]
fn write_frame<W: Write>(writer: &mut W, channel: Channel, bytes: &[u8]) -> io::Result<()>
    ensures { Writes W.contents writer.old writer.new result (frame_text channel bytes.now) }
{
    match decode_lent(bytes, channel) {
        Ok(frame) => {
            write!(writer, "{} ", frame.id)?;
            write_indicators(writer, &frame)
        }
        Err(_) => write!(writer, "- -"),
    }
}

/// Writes the node, the kind, the fate and the end of a transmission.
#[tactic(auto, unfolding(crate::specs::RecordText::fate_text))]
fn write_fate<W: Write>(
    writer: &mut W,
    params: &Params,
    sealed: &Sealed,
    sent: &Sent,
) -> io::Result<()>
    ensures { Writes W.contents writer.old writer.new result (fate_text params.now sealed.now sent.now) }
{
    let (node, kind) = (sent.node.number(), kind_word(sent.babble));
    let (fate, end) = (fate_word(sent.fate), end_word(end_of(params, sealed, sent)));
    write!(writer, "{node} {kind} {fate} {end}")
}

/// Writes a space, and the number of a line of the scenario, or a dash for none.
fn write_origin<W: Write>(writer: &mut W, number: Option<u32>) -> io::Result<()>
    ensures { Writes W.contents writer.old writer.new result (32 ∷ optional_number number) }
{
    match number {
        Some(number) => write!(writer, " {number}"),
        None => write!(writer, " -"),
    }
}

/// Writes the end of the line of a transmission.
///
/// It is the frame, its bytes, and the number of the scenario's line from which it comes.
#[tactic(auto, unfolding(crate::specs::RecordText::bytes_line))]
fn write_bytes<W: Write>(writer: &mut W, number: Option<u32>, sent: &Sent) -> io::Result<()>
    ensures { Writes W.contents writer.old writer.new result (bytes_line number sent.now) }
{
    write_frame(writer, sent.channel, sent.bytes.as_slice())?;
    writer.write_all(b" ")?;
    write_hex(writer, sent.bytes.as_slice())?;
    write_origin(writer, number)?;
    writer.write_all(b"\n")
}

/// Writes the line of a transmission of the window.
fn write_sent<W: Write>(
    writer: &mut W,
    scenario: &Scenario,
    params: &Params,
    cycle: usize,
    sealed: &Sealed,
    sent: &Sent,
) -> io::Result<()>
    ensures { Writes W.contents writer.old writer.new result
        (sent_line scenario.now params.now cycle sealed.now sent.now) }
{
    let number = origin_of_sent(scenario, cycle, window_of(sealed), sent);
    write_place(writer, cycle, window_of(sealed), sent.channel)?;
    writer.write_all(b" ")?;
    write_fate(writer, params, sealed, sent)?;
    writer.write_all(b" ")?;
    write_bytes(writer, number, sent)
}

/// Writes the lines of the window's transmissions.
fn write_transmissions<W: Write>(
    writer: &mut W,
    scenario: &Scenario,
    params: &Params,
    cycle: usize,
    sealed: &Sealed,
) -> io::Result<()>
    ensures { Writes W.contents writer.old writer.new result
        (flat_map (sent_line scenario.now params.now cycle sealed.now) sealed.now.sent) }
{
    let sent = sealed.sent.as_slice();
    for transmission in sent {
        write_sent(writer, scenario, params, cycle, sealed, transmission)?;
    }
    Ok(())
}

/// Writes the end of the line of a bit.
///
/// It is its number, and the number of the scenario's line from which it comes.
#[tactic(auto, unfolding(crate::specs::RecordText::turned_line))]
fn write_turned<W: Write>(writer: &mut W, number: Option<u32>, bit: u16) -> io::Result<()>
    ensures { Writes W.contents writer.old writer.new result (turned_line number bit) }
{
    write!(writer, "- corrupt {bit}")?;
    write_origin(writer, number)?;
    writer.write_all(b"\n")
}

/// Writes the line of the bit that was to be flipped on the channel, if there is one.
fn write_bit<W: Write>(
    writer: &mut W,
    scenario: &Scenario,
    cycle: usize,
    sealed: &Sealed,
    channel: Channel,
) -> io::Result<()>
    ensures { Writes W.contents writer.old writer.new result
        (bit_lines scenario.now cycle sealed.now channel (corrupt_on sealed.now channel)) }
{
    match sealed.corrupt_on(channel) {
        Some(bit) => {
            let number = origin_of_bit(scenario, cycle, window_of(sealed), channel);
            write_place(writer, cycle, window_of(sealed), channel)?;
            writer.write_all(b" ")?;
            write_turned(writer, number, bit)
        }
        None => Ok(()),
    }
}

/// Writes the lines of a window of this cycle of the run, as `write_record` does (project-defined).
///
/// Fails if the writer fails. Then a part of the lines may have gone out.
pub fn write_window<W: Write>(
    writer: &mut W,
    scenario: &Scenario,
    params: &Params,
    cycle: usize,
    sealed: &Sealed,
) -> io::Result<()>
    ensures { Writes W.contents writer.old writer.new result
        (window_text scenario.now params.now cycle sealed.now) }
{
    write_transmissions(writer, scenario, params, cycle, sealed)?;
    write_bit(writer, scenario, cycle, sealed, Channel::A)?;
    write_bit(writer, scenario, cycle, sealed, Channel::B)
}

/// Returns the number of cycles that began up to this window and with it, from the number before.
pub(crate) fn begun_with(begun: usize, sealed: &Sealed) -> usize
    requires { begun + 1 < 2 ^ 64 }
    ensures { result ≡ begun + (if begins_cycle sealed.now then 1 else 0) }
{
    sealed.cycles_with(begun)
}

/// Writes the bus's record of a run with the scenario (project-defined).
///
/// The windows come in order. Each window has a line for each of its transmissions, and then one for each bit that was
/// to be flipped. The transmissions are in the order of the nodes; of a node, channel A comes before B, and its offer
/// before its babble.
///
/// A line has the window's number, the cycle of the run, the minislot or a dash in a static slot, the slot and the
/// channel. For a transmission follow the node, `offer` or `babble`, `passed`, `blocked` or `muted`, and its end
/// (`End`). Then come the ID and the flags of the frame that its bytes spell, or two dashes, and the bytes as sent. For
/// a bit follow a dash, `corrupt`, and the bit, counted from the most significant one of the first byte.
///
/// The last word is the number of the scenario's line from which it comes, where line 1 names the version, or a dash.
/// This line babbles, mutes the offer, or flips the bit.
///
/// Fails if the writer fails. Then a part of the text may have gone out.
pub fn write_record<W: Write>(
    writer: &mut W,
    scenario: &Scenario,
    params: &Params,
    bus: &Bus,
) -> io::Result<()>
    ensures { Writes W.contents writer.old writer.new result
        (record_text scenario.now params.now bus.now.sealed) }
{
    let record = bus.record();
    let mut begun = 0;
    for sealed in record {
        begun = begun_with(begun, sealed);
        let cycle = begun.saturating_sub(1);
        write_window(writer, scenario, params, cycle, sealed)?;
    }
    Ok(())
}
