//! The windows of a run: when each begins, and how long the slot of each channel lasts.
ghost use Rattle.std.specs.Prelude.{◌≡◌};
ghost use Rattle.fr_showing.specs.Spans.{begin_text, length_on, span_line, span_text, spans_text};
ghost use Rattle.fr_text.specs.Writing.{Writes};

use crate::listener::begins_at;
use crate::record::write_minislot;
use fr_bus::bus::Bus;
use fr_bus::outcome::Sealed;
use fr_minislot::lane::row_length;
use fr_slots::channel::Channel;
use fr_slots::params::Params;
use fr_slots::window::{Window, cycles_with};
use std::io;
use std::io::Write;

/// Returns the macroticks of the slot that the channel opens in the window.
fn length_on(params: &Params, sealed: &Sealed, channel: Channel) -> u32
    ensures { result ≡ length_on params.now sealed.now channel }
{
    let window = &sealed.window;
    if window.is_static() {
        return u32::from(params.static_mt);
    }
    let whole = row_length(params, sealed.longest(channel));
    let left = (params.minislots + 1).saturating_sub(window.minislot);
    u32::from(whole.min(left)) * u32::from(params.minislot_mt)
}

/// Writes the start of a window's line, up to the macrotick at which the window begins.
#[tactic(auto, unfolding(crate::specs::Spans::begin_text))]
fn write_begin<W: Write>(
    writer: &mut W,
    params: &Params,
    cycle: u32,
    window: &Window,
) -> io::Result<()>
    ensures { Writes W.contents writer.old writer.new result (begin_text params.now cycle window.now) }
{
    let begin = begins_at(params, cycle, window);
    write!(writer, "{} {cycle} ", window.number)?;
    write_minislot(writer, window)?;
    write!(writer, " {begin}")
}

/// Writes a space, and the slot that the channel opens in the window, with its length, or two dashes.
#[tactic(auto, unfolding(crate::specs::Spans::span_text))]
fn write_span<W: Write>(
    writer: &mut W,
    params: &Params,
    sealed: &Sealed,
    channel: Channel,
) -> io::Result<()>
    ensures { Writes W.contents writer.old writer.new result (span_text params.now sealed.now channel) }
{
    match sealed.window.slot(channel) {
        Some(slot) => {
            let length = length_on(params, sealed, channel);
            write!(writer, " {} {length}", slot.number())
        }
        None => write!(writer, " - -"),
    }
}

/// Writes the line of a window of this cycle of the run, as `write_spans` does (project-defined).
///
/// Fails if the writer fails, which may have written a part of the line by then.
pub fn write_window<W: Write>(
    writer: &mut W,
    params: &Params,
    cycle: u32,
    sealed: &Sealed,
) -> io::Result<()>
    ensures { Writes W.contents writer.old writer.new result (span_line params.now cycle sealed.now) }
{
    write_begin(writer, params, cycle, &sealed.window)?;
    write_span(writer, params, sealed, Channel::A)?;
    write_span(writer, params, sealed, Channel::B)?;
    writer.write_all(b"\n")
}

/// Writes a line for each window of a run (chapter 5; the lines are project-defined).
///
/// A line has the window's number, the cycle of the run, the minislot or a dash in a static slot, and the macrotick of
/// the run at which the window begins. For channel A, and then for B, follow the slot that the channel opens there and
/// its length in macroticks, or two dashes. A dynamic slot lasts as long as its longest transmission takes, or to the
/// end of the segment.
///
/// Fails if the writer fails, which may have written a part of the text by then.
pub fn write_spans<W: Write>(writer: &mut W, params: &Params, bus: &Bus) -> io::Result<()>
    ensures { Writes W.contents writer.old writer.new result (spans_text params.now bus.now.sealed) }
{
    let mut begun = 0;
    for sealed in bus.record() {
        begun = cycles_with(begun, &sealed.window);
        write_window(writer, params, begun.saturating_sub(1), sealed)?;
    }
    Ok(())
}
