//! The record of an observation on a channel in a capture.

ghost use Rattle.std.specs.Prelude.{◌≡◌, ◌<◌, ◌≤◌, ◌^◌, ◌*◌, Some};
ghost use Rattle.fr_capture.specs.Clocks.{time_at};
ghost use Rattle.fr_capture.specs.Pcap.{own_record, record_seen};
ghost use Rattle.fr_capture.specs.Sightings.{handed_by};
ghost use Rattle.fr_text.specs.Writing.{Writes};

use crate::moment::Moment;
use crate::pcap::write_record;
use fr_frame::frame::Bytes;
use fr_interface::interface::Interface;
use fr_slots::channel::Channel;
use fr_status::seen::Seen;
use std::io;
use std::io::Write;

/// Writes the record of the controller's own frame, if its fetch handed one to the bus.
fn write_own<W: Write>(
    writer: &mut W,
    time: u64,
    channel: Channel,
    handed: &Option<Bytes>,
) -> io::Result<()>
    requires { time < 2 ^ 32 * 1000000 }
    ensures { Writes W.contents writer.old writer.new result (own_record time channel handed.now) }
{
    match handed {
        Some(bytes) => write_record(writer, time, channel, bytes.as_slice()),
        None => Ok(()),
    }
}

/// Writes the record of the observation on the channel in the window fetched last, if it has one.
pub(crate) fn write_captured<W: Write>(
    writer: &mut W,
    own: bool,
    interface: &Interface,
    moment: &Moment,
    channel: Channel,
    seen: &Seen,
) -> io::Result<()>
    requires { moment.now.rounds ≤ 1000000 }
    ensures { Writes W.contents writer.old writer.new result
        (record_seen own (time_at interface.now.params moment.now) channel seen.now
        (handed_by interface.now (Some moment.now.entry) channel)) }
{
    let time = moment.time(interface.params());
    match seen {
        Seen::Bytes(bytes) => write_record(writer, time, channel, bytes.as_slice()),
        Seen::Own if own => {
            let handed = interface.handed_at(moment.entry, channel);
            write_own(writer, time, channel, &handed)
        }
        _ => Ok(()),
    }
}
