//! What a view has of each call and of each window.
ghost use Rattle.std.specs.Prelude.{◌≡◌, ◌≤◌, length, IfErr, IfOk, OnErr, OnOk};
ghost use Rattle.std.specs.Io.KnownBytes.{Appends};
ghost use Rattle.fr_files.specs.Outputs.{FallsShort};
ghost use Rattle.fr_streaming.specs.declared.hindrance.Hindrance.TheVariants as hindrance;
ghost use Rattle.fr_live.specs.LiveWorlds.{ForEachWorld};
ghost use Rattle.fr_streaming.specs.Streams.{asked, offers_for, told_call, told_closing, told_last, told_opening};
ghost use Rattle.fr_streaming.specs.Streams.{Closes, ClosesShort};
ghost use Rattle.fr_text.specs.Writing.{Writes};

use crate::hindrance::Hindrance;
use crate::log::{AllOffers, CallPlace, NodeOffers, offers_in, write_call, write_left, write_sent};
use crate::received::write_received;
use fr_bus::live::LiveBus;
use fr_capture::pcap::write_file_header;
use fr_core::event::Event;
use fr_core::script::Line;
use fr_endless::outcome::write_outcome;
use fr_endless::world::EndlessWorld;
use fr_files::output::write_text;
use fr_interface::call::Answer;
use fr_scenario::scenario::Scenario;
use fr_schedule::cluster::Cluster;
use fr_showing::answers::{write_answered, write_origin};
use fr_showing::{listener, reasons, record, spans};
use fr_slots::numbers::{NodeId, TaskId};
use std::alloc::Global;
use std::io;
use std::io::Write;

/// A view that is written as the run goes (project-defined).
#[derive(Clone, Copy, PartialEq, Eq)]
pub enum Streamed {
    /// Each node's report, the number of windows and `settled`, once the run is over.
    Outcome,
    /// A line for each line of a script, with its answer.
    Answers,
    /// A line for each thing that happens to a commit.
    Commits,
    /// A line for each transmission and each flipped bit, with the number of the scenario's line.
    Record,
    /// A line for each window, with its first macrotick and the length of each channel's slot.
    Windows,
    /// The facts for which commits weren't sent or weren't received.
    Reasons,
    /// The answers, with the cycle of the run in which each frame came.
    Origins,
    /// A line for each node and window, with the node's observations.
    Received,
    /// A capture of the frames at a passive listener on the bus.
    Heard,
}

/// The terms of a run.
#[derive(Clone, Copy)]
pub(crate) struct Run<'a> {
    /// The memory that the text of a call or a window takes.
    pub(crate) alloc: Global,
    /// The view.
    pub(crate) streamed: Streamed,
    /// The scenario.
    pub(crate) scenario: &'a Scenario,
    /// The cluster.
    pub(crate) cluster: &'a Cluster,
    /// The events that are due in a window.
    pub(crate) due: &'a [Event],
}

/// Hands the text to the writer.
pub(crate) fn write_out<W: Write>(writer: &mut W, text: &[u8]) -> Result<(), Hindrance>
    ensures written { OnOk result (Appends (W.contents writer.old) (W.contents writer.new) text.now) }
    ensures cut { OnErr result (FallsShort (W.contents writer.old) (W.contents writer.new) text.now) }
{
    match write_text(writer, text) {
        Ok(()) => Ok(()),
        Err(_) => Err(Hindrance::Write),
    }
}

/// Writes what the view has before the first window.
fn write_opening<W: Write>(writer: &mut W, streamed: Streamed) -> io::Result<()>
    ensures { Writes W.contents writer.old writer.new result (told_opening streamed) }
{
    match streamed {
        Streamed::Heard => write_file_header(writer),
        _ => Ok(()),
    }
}

/// Returns what the view has before the first window.
pub(crate) fn opening_in(alloc: Global, streamed: Streamed) -> Result<Vec<u8>, Hindrance>
    ensures text { IfOk result (λ text. text.items ≡ told_opening streamed) }
    ensures refused { IfErr result (λ e. e ≡ hindrance.Memory) }
{
    let mut text = Vec::new(alloc);
    match write_opening(&mut text, streamed) {
        Ok(()) => Ok(text),
        // Here and below, a list of bytes fails to grow only if an allocation fails.
        Err(_) => Err(Hindrance::Memory),
    }
}

/// Writes what the view has of a task's call at this place with this answer.
fn write_made<W: Write>(
    writer: &mut W,
    streamed: Streamed,
    node: NodeId,
    task: TaskId,
    line: &Line,
    place: &CallPlace,
    answer: Answer,
) -> io::Result<()>
    ensures { Writes W.contents writer.old writer.new result
        (told_call streamed (asked node task line.now.cycle line.now.action) place.now answer) }
{
    match streamed {
        Streamed::Answers => write_answered(writer, node, task, line, answer),
        Streamed::Commits => write_call(writer, node, task, &line.action, place, &answer),
        Streamed::Origins => write_origin(writer, node, task, line, answer),
        _ => Ok(()),
    }
}

/// Returns what the view has of a task's call at this place with this answer.
pub(crate) fn call_in(
    alloc: Global,
    streamed: Streamed,
    node: NodeId,
    task: TaskId,
    line: &Line,
    place: &CallPlace,
    answer: Answer,
) -> Result<Vec<u8>, Hindrance>
    ensures { IfOk result (λ text. text.items
        ≡ told_call streamed (asked node task line.now.cycle line.now.action) place.now answer) }
{
    let mut text = Vec::new(alloc);
    match write_made(&mut text, streamed, node, task, line, place, answer) {
        Ok(()) => Ok(text),
        Err(_) => Err(Hindrance::Memory),
    }
}

/// Returns the commits that the nodes will offer in the open window, as far as the view has any.
pub(crate) fn offers_for(streamed: Streamed, world: &EndlessWorld) -> AllOffers
    ensures { length world.now.interfaces ≤ 16 → result.items ≡ offers_for streamed world.now }
{
    match streamed {
        Streamed::Commits => offers_in(world),
        _ => AllOffers::new(),
    }
}

/// Writes what the view has of the window that was sealed last, of these offers.
fn write_last<W: Write>(
    writer: &mut W,
    streamed: Streamed,
    scenario: &Scenario,
    cluster: &Cluster,
    bus: &LiveBus,
    offers: &[NodeOffers],
) -> io::Result<()>
    ensures { Writes W.contents writer.old writer.new result
        (told_last streamed scenario.now cluster.now bus.now.bus.course.begun bus.now.last offers.now) }
{
    let Some(sealed) = bus.last() else {
        return Ok(());
    };
    let (params, cycle) = (cluster.params(), bus.cycles_begun().saturating_sub(1));
    match streamed {
        Streamed::Outcome | Streamed::Answers | Streamed::Origins => Ok(()),
        Streamed::Commits => write_sent(writer, cluster, sealed, cycle, offers),
        Streamed::Record => record::write_window(writer, scenario, params, cycle as usize, sealed),
        Streamed::Windows => spans::write_window(writer, params, cycle, sealed),
        Streamed::Reasons => {
            reasons::write_window(writer, scenario, cluster, cycle as usize, sealed)
        }
        Streamed::Received => write_received(writer, cluster, cycle, sealed),
        Streamed::Heard => listener::write_window(writer, params, cycle, sealed),
    }
}

/// Returns what the view has of the window that was sealed last, of these offers.
pub(crate) fn last_in(
    run: &Run<'_>,
    bus: &LiveBus,
    offers: &[NodeOffers],
) -> Result<Vec<u8>, Hindrance>
    ensures { IfOk result (λ text. text.items ≡ told_last run.now.streamed run.now.scenario.now run.now.cluster.now
        bus.now.bus.course.begun bus.now.last offers.now) }
{
    let mut text = Vec::new(run.alloc);
    match write_last(
        &mut text,
        run.streamed,
        run.scenario,
        run.cluster,
        bus,
        offers,
    ) {
        Ok(()) => Ok(text),
        Err(_) => Err(Hindrance::Memory),
    }
}

/// Writes what the view has after the last window.
fn write_closing<W: Write>(
    writer: &mut W,
    streamed: Streamed,
    world: &EndlessWorld,
) -> io::Result<()>
    ensures { OnOk result (ForEachWorld world.now (λ w. Appends (W.contents writer.old) (W.contents writer.new)
        (told_closing streamed w))) }
{
    match streamed {
        Streamed::Commits => write_left(writer, world.interfaces(), world.buffers()),
        Streamed::Outcome => write_outcome(writer, world),
        _ => Ok(()),
    }
}

/// Hands to the writer what the view has after the last window.
pub(crate) fn close<W: Write>(
    alloc: Global,
    streamed: Streamed,
    world: &EndlessWorld,
    writer: &mut W,
) -> Result<(), Hindrance>
    ensures written { OnOk result (Closes streamed world.now (W.contents writer.old) (W.contents writer.new)) }
    ensures cut { OnErr result (ClosesShort streamed world.now (W.contents writer.old) (W.contents writer.new)) }
{
    let mut text = Vec::new(alloc);
    match write_closing(&mut text, streamed, world) {
        Ok(()) => write_out(writer, text.as_slice()),
        Err(_) => Err(Hindrance::Memory),
    }
}
