//! Queries to a world without history, which change nothing.
ghost use Rattle.std.specs.Prelude.{◌≡◌, option_map, slice_get};
ghost use Rattle.fr_auditing.specs.KeptReport.{kept_report};
ghost use Rattle.fr_bus.specs.Standing.{bare};
ghost use Rattle.fr_endless.specs.Alike.{Alike};
ghost use Rattle.fr_endless.specs.Answers.{kept_status, kept_time, no_history_text};
ghost use Rattle.fr_endless.specs.Answers.{windows_by, IsReportOf, IsStatusOf};
ghost use Rattle.fr_session.specs.Queries.{now_text, moved_text, IsBlock, Replies};
ghost use Rattle.fr_text.specs.Writing.{Writes};

use crate::world::EndlessWorld;
use fr_auditing::report::write_kept_report;
use fr_bus::error::Phase;
use fr_bus::live::LiveBus;
use fr_bus::outcome::Sealed;
use fr_core::error::StepError;
use fr_interface::state::InterfaceState;
use fr_session::prepared::BlockWriter;
use fr_session::queries::{write_block, write_memory, write_unknown};
use fr_session::replies::{write_refusal, write_window};
use fr_session::status::{counts_on, write_status};
use fr_session::time::write_time;
use fr_slots::channel::Channel;
use fr_slots::numbers::NodeId;
use fr_slots::params::Params;
use std::alloc::Global;
use std::io;
use std::io::Write;

/// Writes the state of the bus.
pub(crate) fn write_now<W: Write>(writer: &mut W, bus: &LiveBus) -> io::Result<()>
    ensures { Writes W.contents writer.old writer.new result (now_text (bare bus.now.bus)) }
{
    let Some(window) = bus.window() else {
        return writeln!(writer, "over");
    };
    match bus.phase() {
        Phase::Sealed => write_window(writer, "sealed", &window),
        Phase::Collect | Phase::Finished => write_window(writer, "open", &window),
    }
}

/// Writes the state of the bus, or the hindrance.
pub(crate) fn write_moved<W: Write>(
    writer: &mut W,
    bus: &LiveBus,
    hindered: Option<StepError>,
) -> io::Result<()>
    ensures { Writes W.contents writer.old writer.new result (moved_text hindered (bare bus.now.bus)) }
{
    match hindered {
        Some(error) => write_refusal(writer, error),
        None => write_now(writer, bus),
    }
}

/// Returns the number of sealed windows, by the last of them.
pub(crate) fn windows_by(last: Option<&Sealed>) -> u64
    ensures { result ≡ windows_by (option_map (λ s. s.now) last.entry) }
{
    match last {
        Some(sealed) => u64::from(sealed.window.number) + 1,
        None => 0,
    }
}

/// Writes the time of the open window.
pub(crate) fn write_at<W: Write>(writer: &mut W, params: &Params, bus: &LiveBus) -> io::Result<()>
    ensures { Writes W.contents writer.old writer.new result (kept_time params.now bus.now) }
{
    let windows = windows_by(bus.last());
    write_time(
        writer,
        params,
        bus.window(),
        bus.phase(),
        bus.cycles_begun(),
        windows,
    )
}

/// Writes that there is no history.
pub(crate) fn write_no_history<W: Write>(writer: &mut W) -> io::Result<()>
    ensures { Writes W.contents writer.old writer.new result no_history_text }
{
    writeln!(writer, "refused NoHistory")
}

/// Writes the report of an interface with so many buffers as a block.
fn write_report_block<W: BlockWriter>(
    alloc: Global,
    writer: &mut W,
    interface: &InterfaceState,
    count: u8,
) -> io::Result<()>
    ensures { Replies W.contents writer.old writer.new result (IsBlock (kept_report interface.now count)) }
{
    let mut block = Vec::new(alloc);
    match write_kept_report(interface, count, &mut block) {
        Ok(()) => write_block(writer, block),
        Err(_) => write_memory(writer),
    }
}

/// Returns the number at this place.
pub(crate) fn count_at(buffers: &[u8], place: usize) -> Option<u8>
    ensures { result ≡ slice_get buffers.now place }
{
    buffers.get(place).copied()
}

/// Writes the report of the node's interface as a block.
pub(crate) fn write_node_report<W: BlockWriter>(
    alloc: Global,
    writer: &mut W,
    world: &EndlessWorld,
    node: NodeId,
) -> io::Result<()>
    ensures { Replies W.contents writer.old writer.new result (IsReportOf world.now node) }
{
    let place = usize::from(node.number());
    let interfaces = world.interfaces();
    if place < interfaces.len() {
        match count_at(world.buffers(), place) {
            Some(count) => write_report_block(alloc, writer, &interfaces[place], count),
            None => write_unknown(writer),
        }
    } else {
        write_unknown(writer)
    }
}

/// Writes the status counters of an interface on the channel.
fn write_kept_status<W: Write>(
    writer: &mut W,
    interface: &InterfaceState,
    channel: Channel,
) -> io::Result<()>
    ensures { Writes W.contents writer.old writer.new result (kept_status channel interface.now) }
{
    write_status(writer, channel, counts_on(&interface.counters(), channel))
}

/// Writes the status counters of the node on the channel.
pub(crate) fn write_node_status<W: Write>(
    writer: &mut W,
    world: &EndlessWorld,
    node: NodeId,
    channel: Channel,
) -> io::Result<()>
    ensures { Replies W.contents writer.old writer.new result (IsStatusOf world.now node channel) }
{
    let place = usize::from(node.number());
    let interfaces = world.interfaces();
    if place < interfaces.len() {
        write_kept_status(writer, &interfaces[place], channel)
    } else {
        write_unknown(writer)
    }
}
