//! A capture of the bus, as a passive listener receives it.
ghost use Rattle.std.specs.Prelude.{◌≡◌, ◌+◌, ◌<◌, ◌*◌, ◌^◌, ◌&&◌, nat_lt, if◌then◌else◌};
ghost use Rattle.fr_bus.specs.Windows.{begins_cycle};
ghost use Rattle.fr_showing.specs.Listening.{all_records, begins_at, capture_of, channel_records, window_records};
ghost use Rattle.fr_text.specs.Writing.{Writes};

use fr_bus::bus::Bus;
use fr_bus::outcome::Sealed;
use fr_capture::moment::start_of_window;
use fr_capture::pcap::{write_file_header, write_record};
use fr_slots::channel::Channel;
use fr_slots::params::Params;
use fr_slots::window::{Window, cycles_with};
use fr_status::seen::Seen;
use std::io;
use std::io::Write;

/// Returns the time at which a window of this cycle of the run begins, in microseconds.
pub(crate) fn begins_at(params: &Params, cycle: u32, window: &Window) -> u64
    ensures value { result ≡ begins_at params.now cycle window.now }
    ensures few { result < 2 ^ 32 * 1000000 }
{
    u64::from(cycle) * u64::from(params.cycle_mt) + u64::from(start_of_window(params, window))
}

/// Writes the record of the bytes that the listener receives on the channel in the window, if there are any.
fn write_heard<W: Write>(
    writer: &mut W,
    params: &Params,
    cycle: u32,
    sealed: &Sealed,
    channel: Channel,
) -> io::Result<()>
    ensures { Writes W.contents writer.old writer.new result
        (channel_records params.now cycle sealed.now channel) }
{
    let Seen::Bytes(bytes) = sealed.heard(params, channel) else {
        return Ok(());
    };
    let time = begins_at(params, cycle, &sealed.window);
    write_record(writer, time, channel, bytes.as_slice())
}

/// Writes the records of a window of this cycle of the run, as `write_capture` does (project-defined).
///
/// Fails if the writer fails, which may have written a part of the records by then.
pub fn write_window<W: Write>(
    writer: &mut W,
    params: &Params,
    cycle: u32,
    sealed: &Sealed,
) -> io::Result<()>
    ensures { Writes W.contents writer.old writer.new result (window_records params.now cycle sealed.now) }
{
    write_heard(writer, params, cycle, sealed, Channel::A)?;
    write_heard(writer, params, cycle, sealed, Channel::B)
}

/// Writes the records of all windows.
fn write_windows<W: Write>(writer: &mut W, params: &Params, bus: &Bus) -> io::Result<()>
    ensures { Writes W.contents writer.old writer.new result (all_records params.now bus.now.sealed) }
{
    let mut begun = 0;
    for sealed in bus.record() {
        begun = cycles_with(begun, &sealed.window);
        write_window(writer, params, begun.saturating_sub(1), sealed)?;
    }
    Ok(())
}

/// Writes a capture of the bus, as a passive listener receives it (project-defined).
///
/// The capture has the classic format, link type 210. It has a record for each channel of each window in which a frame
/// or other bytes passed alone and weren't too long. The bytes are those that nodes receive that don't send, with a
/// flipped bit of a fault. Records stand in the order of the windows, and in one window channel A before B. The time is
/// that of the window's first macrotick, in microseconds from the start of the run; a macrotick takes a microsecond.
///
/// Fails if the writer fails, which may have written a part of the capture by then.
pub fn write_capture<W: Write>(writer: &mut W, params: &Params, bus: &Bus) -> io::Result<()>
    ensures { Writes W.contents writer.old writer.new result (capture_of params.now bus.now.sealed) }
{
    write_file_header(writer)?;
    write_windows(writer, params, bus)
}
