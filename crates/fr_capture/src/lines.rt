//! The lines of a window's observations in a table.

ghost use Rattle.std.specs.Prelude.{◌≡◌, ◌≤◌, ◌++◌, is_some, option_map, Some};
ghost use Rattle.std.specs.Option.{option_and_then};
ghost use Rattle.fr_capture.specs.Clocks.{sighting_at, time_at};
ghost use Rattle.fr_capture.specs.LineSteps.{line_by, seen_by};
ghost use Rattle.fr_capture.specs.Sightings.{handed_by};
ghost use Rattle.fr_capture.specs.Table.{is_told, line_if_told, own_text, seen_word, status_word};
ghost use Rattle.fr_journal.specs.Held.{with_data};
ghost use Rattle.fr_slots.specs.Windows.{slot_of};
ghost use Rattle.fr_status.specs.Status.{frame_in, status_in};
ghost use Rattle.fr_text.specs.Writing.{Writes};

use crate::moment::Moment;
use crate::table::{status_word, write_first, write_known, write_nothing, write_read};
use crate::takers::{Observed, Takers};
use crate::taking::Came;
use fr_frame::frame::Bytes;
use fr_frame::lent::LentFrame;
use fr_interface::interface::Interface;
use fr_slots::channel::Channel;
use fr_slots::numbers::SlotId;
use fr_slots::params::Params;
use fr_slots::window::Window;
use fr_status::seen::Seen;
use fr_status::status::lent_status_of;
use std::io;
use std::io::Write;

/// The words of an observation on a channel of a window.
#[derive(Drop)]
struct ChannelReport<'a> {
    channel: Channel,
    seen: &'a Seen,
    /// The word for the observation.
    word: &'static str,
    /// The valid frame, if one came.
    frame: Option<LentFrame<'a>>,
}

/// Returns the word of a slot's status, and the valid frame that came in the slot, if any.
///
/// A channel without a slot has neither.
fn status_told<'a>(
    params: &Params,
    window: &Window,
    channel: Channel,
    seen: &'a Seen,
) -> (&'static str, Option<LentFrame<'a>>)
    ensures word { result.0.now ≡ status_word
        (option_map (λ s. status_in params.now window.now.cycle s channel seen.now) (slot_of window.now channel)) }
    ensures frame { result.1 ≡ option_and_then
        (λ s. frame_in params.now window.now.cycle s channel seen.now) (slot_of window.now channel) }
{
    match window.slot(channel) {
        Some(slot) => {
            let (status, frame) = lent_status_of(params, window.cycle, slot, channel, seen);
            (status_word(&status), frame)
        }
        None => ("-", None),
    }
}

/// Returns the word for the observation, given the word of the slot's status.
#[tactic(auto, unfolding(fr_status::specs::Status::status_in))]
fn word_of(
    params: &Params,
    window: &Window,
    channel: Channel,
    seen: &Seen,
    status: &'static str,
) -> &'static str
    requires { status.now ≡ status_word
        (option_map (λ s. status_in params.now window.now.cycle s channel seen.now) (slot_of window.now channel)) }
    ensures { result.now ≡ seen_word params.now window.now.cycle (slot_of window.now channel) channel seen.now }
{
    match seen {
        Seen::Silence => "silence",
        Seen::Own => "own",
        Seen::Conflict => "conflict",
        Seen::Noise => "noise",
        Seen::Overrun => "overrun",
        Seen::Bytes(_) => status,
    }
}

/// Returns the words of an observation on a channel.
fn told_of<'a>(
    params: &Params,
    window: &Window,
    channel: Channel,
    seen: &'a Seen,
) -> ChannelReport<'a>
    ensures channel { result.channel ≡ channel }
    ensures seen { result.seen.now ≡ seen.now }
    ensures word { result.word.now
        ≡ seen_word params.now window.now.cycle (slot_of window.now channel) channel seen.now }
    ensures frame { result.frame ≡ option_and_then
        (λ s. frame_in params.now window.now.cycle s channel seen.now) (slot_of window.now channel) }
{
    let (status, frame) = status_told(params, window, channel, seen);
    ChannelReport {
        channel,
        seen,
        word: word_of(params, window, channel, seen, status),
        frame,
    }
}

/// Returns whether this is a data frame.
fn is_data(frame: &Option<LentFrame<'_>>) -> bool
    ensures { result ≡ is_some (option_and_then with_data frame.now) }
{
    match frame {
        Some(frame) => frame.has_data,
        None => false,
    }
}

/// Returns whether the observation has a line.
fn is_told(all: bool, slot: Option<SlotId>, seen: &Seen) -> bool
    ensures { result ≡ is_told all slot seen.now }
{
    match seen {
        Seen::Bytes(_) => true,
        Seen::Silence => all && slot.is_some(),
        Seen::Own | Seen::Conflict | Seen::Noise | Seen::Overrun => all,
    }
}

/// Writes the end of the line of the controller's own frame, if its fetch handed one to the bus.
fn write_own<W: Write>(
    writer: &mut W,
    channel: Channel,
    takers: &Takers<'_>,
    handed: &Option<Bytes>,
) -> io::Result<()>
    ensures { Writes W.contents writer.old writer.new result (own_text channel takers.now handed.now) }
{
    match handed {
        Some(bytes) => write_read(writer, channel, takers, bytes.as_slice()),
        None => write_nothing(writer, takers),
    }
}

/// Writes the end of the line of an observation, given the number of the entry that fetched its window.
fn write_told<W: Write>(
    writer: &mut W,
    interface: &Interface,
    entry: u32,
    takers: &Takers<'_>,
    told: &ChannelReport<'_>,
) -> io::Result<()>
    ensures { Writes W.contents writer.old writer.new result
        (seen_by told.now.channel takers.now told.now.seen.now
        (handed_by interface.now (Some entry) told.now.channel) told.now.frame) }
{
    match told.seen {
        Seen::Bytes(bytes) => {
            write_known(writer, told.channel, takers, bytes.as_slice(), &told.frame)
        }
        Seen::Own => {
            let handed = interface.handed_at(entry, told.channel);
            write_own(writer, told.channel, takers, &handed)
        }
        _ => write_nothing(writer, takers),
    }
}

/// Writes the line of an observation on a channel of the window fetched last, if it has one.
///
/// The receivers follow from the data frames that came, which are given.
fn write_line<'a, W: Write>(
    writer: &mut W,
    all: bool,
    interface: &'a Interface,
    moment: &'a Moment,
    came: Came,
    told: &ChannelReport<'_>,
) -> io::Result<()>
    requires { moment.now.rounds ≤ 1000000 }
    ensures { Writes W.contents writer.old writer.new result
        (line_by all interface.now moment.now came.a came.b told.now.channel told.now.seen.now told.now.word.now
        told.now.frame) }
{
    let (window, channel) = (&moment.window, told.channel);
    if !is_told(all, window.slot(channel), told.seen) {
        return Ok(());
    }
    let time = moment.time(interface.params());
    write_first(writer, time, window, channel, told.word)?;
    let takers = Takers {
        plan: interface.plan(),
        observed: Observed {
            window,
            came,
            channel,
            node: None,
        },
    };
    write_told(writer, interface, moment.entry, &takers, told)
}

/// Writes the lines of the observations on channels A and B in the window fetched last.
pub(crate) fn write_lines<W: Write>(
    writer: &mut W,
    all: bool,
    interface: &Interface,
    moment: &Moment,
    a: &Seen,
    b: &Seen,
) -> io::Result<()>
    requires { moment.now.rounds ≤ 1000000 }
    ensures { Writes W.contents writer.old writer.new result
        (line_if_told all interface.now.params (sighting_at interface.now moment.now a.now b.now Channel.A)
        ++ line_if_told all interface.now.params (sighting_at interface.now moment.now a.now b.now Channel.B)) }
{
    let (params, window) = (interface.params(), &moment.window);
    let told_a = told_of(params, window, Channel::A, a);
    let told_b = told_of(params, window, Channel::B, b);
    let came = Came {
        a: is_data(&told_a.frame),
        b: is_data(&told_b.frame),
    };
    write_line(writer, all, interface, moment, came, &told_a)?;
    write_line(writer, all, interface, moment, came, &told_b)
}
