//! The files to which a session writes the windows that it seals, and the traces of its nodes.
ghost use Rattle.std.specs.Prelude.{◌≡◌, ◌<◌, ◌^◌, ℕ, [], List, None, OnOk, false, map, option_and_then, option_map};
ghost use Rattle.fr_capture.specs.Pcap.{file_header};
ghost use Rattle.fr_bus.specs.Courses.{opportunities};
ghost use Rattle.fr_endless.specs.Taps.{AddsAt, AddsFront, first_failed, head_of, traced_in};
ghost use Rattle.fr_showing.specs.Listening.{window_records};
ghost use Rattle.fr_showing.specs.RecordText.{window_text};
ghost use Rattle.fr_endless.specs.Taps.{IsLine};

use crate::keeping::{KeptText, forget_all, keep_last, new_texts};
use fr_auditing::head;
use fr_bus::live::LiveBus;
use fr_bus::outcome::Sealed;
use fr_capture::pcap::write_file_header;
use fr_live::room::Room;
use fr_scenario::scenario::Scenario;
use fr_schedule::cluster::Cluster;
use fr_session::prepared::hand_on;
use fr_showing::{listener, record};
use fr_slots::numbers::NodeId;
use fr_slots::params::Params;
use fr_slots::plan::NodePlan;
use std::alloc::{AllocError, Global};
use std::io;
use std::io::Write;
use std::marker::Model;

/// A file to which a session writes as it goes (project-defined).
#[derive(Clone, Copy, Debug, PartialEq, Eq)]
pub enum Tap {
    /// The bus's record, as lines.
    Record,
    /// A capture of the bus.
    Capture,
    /// The trace of a node.
    Trace(NodeId),
}

/// The greatest number of a node.
const LAST_NODE: usize = 15;

/// The scenario that a record names the lines of: none.
const NO_LINES: &str = "frscenario 3\nend\n";

/// The files of a session, each of which may be absent (project-defined). Once one of them fails, nothing more is
/// written to any.
///
/// In contracts they are the bytes that were written to each, as far as these are known, and the file that failed.
#[derive(Drop)]
pub struct Taps<F: Write + Drop> {
    scenario: Scenario,
    params: Params,
    failed: Option<Tap>,
    recorded: Option<F>,
    captured: Option<F>,
    /// The traces, in the order of the nodes. A node that isn't traced has none.
    traces: Vec<Option<F>>,
    /// The lines of the record for the windows that were sealed last.
    kept: Vec<KeptText>,
    alloc: Global,
    /// The text of one window, kept so that its room is allocated once.
    text: Vec<u8>,
}

impl<F: Write + Drop> Model for Taps<F> {
    ghost use Rattle.std.specs.Prelude.{◌≡◌, map, option_and_then};
    ghost use Rattle.fr_endless.specs.Taps.{TapsState, no_lines};

    ghost Value = { TapsState };

    ghost view = { λ t. record {
      params = t.params;
      failed = t.failed;
      recorded = option_and_then F.contents t.recorded;
      captured = option_and_then F.contents t.captured;
      traced = map (option_and_then F.contents) t.traces.items;
      kept = t.kept.items;
    } };

    ghost invariant = { λ t. t.scenario ≡ no_lines };
}

/// Returns the number of static slots and minislots of a cycle, which is the most windows that a cycle has.
fn opportunities(params: &Params) -> usize
    ensures value { result ≡ opportunities params.now }
    ensures few { result < 2 ^ 17 }
{
    usize::from(params.static_slots) + usize::from(params.minislots)
}

/// Returns the first of both files that failed.
fn first_failed(first: Option<Tap>, second: Option<Tap>) -> Option<Tap>
    ensures { result ≡ first_failed first second }
{
    match first {
        Some(tap) => Some(tap),
        None => second,
    }
}

/// Gathers what the record has of the window of this cycle of the run. Fails if an allocation does.
fn gather_record(
    text: &mut Vec<u8>,
    scenario: &Scenario,
    params: &Params,
    cycle: u32,
    sealed: &Sealed,
) -> io::Result<()>
    ensures { OnOk result (text.new.items ≡ window_text scenario.now params.now cycle sealed.now) }
{
    text.clear();
    record::write_window(text, scenario, params, cycle as usize, sealed)
}

/// Gathers what the capture has of the window of this cycle of the run. Fails if an allocation does.
fn gather_capture(
    text: &mut Vec<u8>,
    params: &Params,
    cycle: u32,
    sealed: &Sealed,
) -> io::Result<()>
    ensures { OnOk result (text.new.items ≡ window_records params.now cycle sealed.now) }
{
    text.clear();
    listener::write_window(text, params, cycle, sealed)
}

/// Hands the text to the file of this tap. Returns the tap if that fails.
fn hand_text<F: Write>(writer: &mut F, text: &[u8], tap: Tap) -> Option<Tap>
    ensures { AddsFront result (F.contents writer.old) (F.contents writer.new) text.now }
{
    match hand_on(writer, text) {
        Ok(()) => None,
        Err(_) => Some(tap),
    }
}

/// Writes the window of this cycle of the run to the record, if there is one. Returns the record if that fails.
fn write_recorded<F: Write>(
    file: &mut Option<F>,
    text: &mut Vec<u8>,
    scenario: &Scenario,
    params: &Params,
    cycle: u32,
    sealed: &Sealed,
) -> Option<Tap>
    ensures { AddsFront result (option_and_then F.contents file.old) (option_and_then F.contents file.new)
        (window_text scenario.now params.now cycle sealed.now) }
{
    let Some(writer) = file else {
        return None;
    };
    match gather_record(text, scenario, params, cycle, sealed) {
        Ok(()) => hand_text(writer, text.as_slice(), Tap::Record),
        Err(_) => Some(Tap::Record),
    }
}

/// Writes the window of this cycle of the run to the capture, if there is one. Returns the capture if that fails.
fn write_captured<F: Write>(
    file: &mut Option<F>,
    text: &mut Vec<u8>,
    params: &Params,
    cycle: u32,
    sealed: &Sealed,
) -> Option<Tap>
    ensures { AddsFront result (option_and_then F.contents file.old) (option_and_then F.contents file.new)
        (window_records params.now cycle sealed.now) }
{
    let Some(writer) = file else {
        return None;
    };
    match gather_capture(text, params, cycle, sealed) {
        Ok(()) => hand_text(writer, text.as_slice(), Tap::Capture),
        Err(_) => Some(Tap::Capture),
    }
}

/// Writes the header of the capture, if there is one, and flushes it. Returns the capture if that fails.
fn write_header<F: Write>(file: &mut Option<F>, text: &mut Vec<u8>) -> Option<Tap>
    ensures { AddsFront result (option_and_then F.contents file.old) (option_and_then F.contents file.new)
        file_header }
{
    let Some(writer) = file else {
        return None;
    };
    text.clear();
    if write_file_header(text).is_err() {
        return Some(Tap::Capture);
    }
    if hand_on(writer, text.as_slice()).is_err() {
        return Some(Tap::Capture);
    }
    match writer.flush() {
        Ok(()) => None,
        Err(_) => Some(Tap::Capture),
    }
}

/// Flushes the file, if there is one. Returns this file if that fails.
fn flush_file<F: Write>(file: &mut Option<F>, tap: Tap) -> Option<Tap>
    ensures { AddsFront result (option_and_then F.contents file.old) (option_and_then F.contents file.new) [] }
{
    let Some(writer) = file else {
        return None;
    };
    match writer.flush() {
        Ok(()) => None,
        Err(_) => Some(tap),
    }
}

/// Returns the trace at this place. No cluster has a place after that of the last node.
fn trace_at(place: usize) -> Tap {
    Tap::Trace(NodeId::from_number(place.min(LAST_NODE) as u8))
}

/// Hands the text to the file, if there is one. Returns this file if that fails.
fn hand_file<F: Write>(file: &mut Option<F>, text: &[u8], tap: Tap) -> Option<Tap>
    ensures { AddsFront result (option_and_then F.contents file.old) (option_and_then F.contents file.new) text.now }
{
    match file {
        Some(writer) => hand_text(writer, text, tap),
        None => None,
    }
}

/// Hands the text to the trace at this place, if there is one. Returns the trace if that fails.
fn hand_trace<F: Write>(traces: &mut Vec<Option<F>>, place: usize, text: &[u8]) -> Option<Tap>
    ensures { AddsAt result (map (option_and_then F.contents) traces.old.items)
        (map (option_and_then F.contents) traces.new.items) place text.now }
{
    if place < traces.len() {
        hand_file(&mut traces[place], text, trace_at(place))
    } else {
        None
    }
}

/// Flushes the trace at this place, if there is one. Returns the trace if that fails.
fn flush_trace<F: Write>(traces: &mut Vec<Option<F>>, place: usize) -> Option<Tap>
    ensures { AddsAt result (map (option_and_then F.contents) traces.old.items)
        (map (option_and_then F.contents) traces.new.items) place [] }
{
    if place < traces.len() {
        flush_file(&mut traces[place], trace_at(place))
    } else {
        None
    }
}

/// Writes the line, if it was gathered, to the trace at this place, if there is one. Returns the trace if that fails,
/// or without a line.
fn hand_line<F: Write>(
    traces: &mut Vec<Option<F>>,
    place: usize,
    line: &Option<Vec<u8>>,
) -> Option<Tap>
    ensures { (text : List ℕ) → IsLine (option_map (λ l. l.items) line.now) text → AddsAt result
        (map (option_and_then F.contents) traces.old.items) (map (option_and_then F.contents) traces.new.items) place
        text }
{
    match line {
        Some(text) => hand_trace(traces, place, text.as_slice()),
        None => Some(trace_at(place)),
    }
}

/// Gathers the lines of a trace before its entries. Fails if an allocation does.
fn gather_head(text: &mut Vec<u8>, params: &Params, plan: &NodePlan, room: &Room) -> io::Result<()>
    ensures { OnOk result (text.new.items ≡ head_of params.now room.now plan.now) }
{
    text.clear();
    head::write_head(text, params, plan, room.host(), room.slot())
}

/// Returns whether there is a trace at this place.
fn has_trace<F: Write>(traces: &Vec<Option<F>>, place: usize) -> bool
    ensures { result ≡ false → traced_in (map (option_and_then F.contents) traces.now.items) place ≡ None }
{
    place < traces.len() && traces[place].is_some()
}

/// Writes the lines before the entries to the trace at this place, if there is one. Returns the trace if that fails.
fn hand_head<F: Write>(
    traces: &mut Vec<Option<F>>,
    text: &mut Vec<u8>,
    place: usize,
    params: &Params,
    plan: &NodePlan,
    room: &Room,
) -> Option<Tap>
    ensures { AddsAt result (map (option_and_then F.contents) traces.old.items)
        (map (option_and_then F.contents) traces.new.items) place
        (head_of params.now room.now plan.now) }
{
    if !has_trace(traces, place) {
        return None;
    }
    match gather_head(text, params, plan, room) {
        Ok(()) => hand_trace(traces, place, text.as_slice()),
        Err(_) => Some(trace_at(place)),
    }
}

impl<F: Write + Drop> Taps<F> {
    ghost use Rattle.std.specs.Prelude.{◌≡◌, ◌*◌, ℕ, [], List, None, false, length, map, option_and_then, replicate};
    ghost use Rattle.std.specs.Prelude.{IfOk, option_map};
    ghost use Rattle.fr_capture.specs.Pcap.{file_header};
    ghost use Rattle.fr_bus.specs.Courses.{opportunities};
    ghost use Rattle.fr_endless.specs.Kept.{forgotten};
    ghost use Rattle.fr_endless.specs.Taps.{AddsBoth, AddsEach, AddsLast, KeepsWindow, WritesLast, at_node, head_at};
    ghost use Rattle.fr_endless.specs.Taps.{IsLine, head_of, last_line, traced_in, with_kept};

    /// Returns the files of a session with a cluster of these parameters (project-defined). The traces are in the order
    /// of the nodes. A node that isn't traced has no file there, or no place in the list. There are places for the
    /// lines of the windows of so many cycles.
    ///
    /// Fails if an allocation does.
    pub fn new(
        alloc: Global,
        params: &Params,
        recorded: Option<F>,
        captured: Option<F>,
        traces: Vec<Option<F>>,
        keep: u8,
    ) -> Result<Taps<F>, AllocError>
        ensures { IfOk result (λ taps. taps ≡ record {
          params = params.now;
          failed = None;
          recorded = option_and_then F.contents recorded;
          captured = option_and_then F.contents captured;
          traced = map (option_and_then F.contents) traces.items;
          kept = replicate (keep * opportunities params.now) None;
        }) }
    {
        let kept = new_texts(alloc, usize::from(keep) * opportunities(params))?;
        match Scenario::from_text(alloc, NO_LINES) {
            Ok(scenario) => Ok(Taps {
                scenario,
                params: *params,
                failed: None,
                recorded,
                captured,
                traces,
                kept,
                alloc,
                text: Vec::new(alloc),
            }),
            Err(_) => Err(AllocError),
        }
    }

    /// Returns the file that failed first.
    pub fn failed(&self) -> Option<Tap>
        ensures { result ≡ self.now.failed }
    {
        self.failed
    }

    /// Returns whether there is a trace of the node.
    pub(crate) fn is_traced(&self, node: NodeId) -> bool
        ensures { result ≡ false → traced_in self.now.traced node ≡ None }
    {
        has_trace(&self.traces, usize::from(node.number()))
    }

    /// Returns the handle for the lines of traces.
    pub(crate) fn alloc(&self) -> Global {
        self.alloc
    }

    /// Returns the number of traces.
    fn count(&self) -> usize
        ensures { result ≡ length self.now.traced }
    {
        self.traces.len()
    }

    /// Writes the lines before the entries to the trace at this place.
    fn add_head(&mut self, place: usize, params: &Params, plan: &NodePlan, room: &Room)
        ensures { AddsEach self.old self.new (at_node place
            (head_of params.now room.now plan.now)) }
    {
        if self.failed.is_none() {
            let text = &mut self.text;
            self.failed = hand_head(&mut self.traces, text, place, params, plan, room);
        }
    }

    /// Writes the lines that the traces of a new world have before the entries: those of the cluster, with this room
    /// (project-defined). They are flushed once the session begins.
    ///
    /// If a trace can't be written, `failed` returns one.
    pub fn begin_traces(&mut self, cluster: &Cluster, room: &Room)
        ensures { AddsEach self.old self.new (head_at cluster.now room.now) }
    {
        let plans = cluster.plans();
        for place in 0..plans.len() {
            self.add_head(place, cluster.params(), &plans[place], room);
        }
    }

    /// Writes the line of the node's entry to its trace. Without a line the trace fails.
    pub(crate) fn add_line(&mut self, node: NodeId, line: &Option<Vec<u8>>)
        ensures { (text : List ℕ) → IsLine (option_map (λ l. l.items) line.now) text
            → AddsEach self.old self.new (at_node node text) }
    {
        if self.failed.is_none() {
            let place = usize::from(node.number());
            self.failed = hand_line(&mut self.traces, place, line);
        }
    }

    /// Writes the last line of the trace at this place.
    fn end_trace(&mut self, place: usize)
        ensures { AddsEach self.old self.new (at_node place last_line) }
    {
        if self.failed.is_none() {
            self.failed = hand_trace(&mut self.traces, place, b"end\n");
        }
    }

    /// Flushes the trace at this place.
    fn flush_trace(&mut self, place: usize)
        ensures { AddsEach self.old self.new (at_node place []) }
    {
        if self.failed.is_none() {
            self.failed = flush_trace(&mut self.traces, place);
        }
    }

    /// Flushes the traces.
    fn flush_traces(&mut self)
        ensures { AddsEach self.old self.new (λ n. []) }
    {
        let count = self.count();
        for place in 0..count {
            self.flush_trace(place);
        }
    }

    /// Writes the last line of each trace, and flushes the traces.
    pub(crate) fn end(&mut self)
        ensures { AddsEach self.old self.new (λ n. last_line) }
    {
        let count = self.count();
        for place in 0..count {
            self.end_trace(place);
        }
        self.flush_traces();
    }

    /// Returns the lines of the record for the windows that were sealed last, each at the place of its number.
    pub(crate) fn kept(&self) -> &[KeptText]
        ensures { result.now ≡ self.now.kept }
    {
        self.kept.as_slice()
    }

    /// Forgets the lines of windows that were sealed before.
    pub(crate) fn forget(&mut self)
        ensures { self.new ≡ with_kept self.old (forgotten self.old.kept) }
    {
        forget_all(&mut self.kept);
    }

    /// Writes the header of the capture.
    fn add_header(&mut self)
        ensures { AddsBoth self.old self.new [] file_header }
    {
        if self.failed.is_none() {
            self.failed = write_header(&mut self.captured, &mut self.text);
        }
    }

    /// Writes what the files have before the first window: the header of the capture. Flushes all files, so that a file
    /// that can't be written fails before the session's first line.
    pub(crate) fn begin(&mut self)
        ensures { AddsBoth self.old self.new [] file_header }
    {
        self.add_header();
        self.flush();
    }

    /// Keeps the lines of the window that was sealed last.
    fn keep_last(&mut self, bus: &LiveBus)
        ensures { KeepsWindow self.old bus.now.last self.new }
    {
        keep_last(&mut self.kept, bus);
    }

    /// Keeps the lines of the window that was sealed last, and writes the window to the record and the capture.
    pub(crate) fn add_last(&mut self, bus: &LiveBus)
        ensures { AddsLast self.old bus.now.bus.course.begun bus.now.last self.new }
    {
        self.keep_last(bus);
        self.write_last(bus);
    }

    /// Writes the window that was sealed last to the record and the capture.
    fn write_last(&mut self, bus: &LiveBus)
        ensures { WritesLast self.old bus.now.bus.course.begun bus.now.last self.new }
    {
        let Some(sealed) = bus.last() else {
            return;
        };
        if self.failed.is_none() {
            let cycle = bus.cycles_begun().saturating_sub(1);
            let first = write_recorded(
                &mut self.recorded,
                &mut self.text,
                &self.scenario,
                &self.params,
                cycle,
                sealed,
            );
            let second = write_captured(
                &mut self.captured,
                &mut self.text,
                &self.params,
                cycle,
                sealed,
            );
            self.failed = first_failed(first, second);
        }
    }

    /// Flushes all files, so that the system has all that was written.
    pub(crate) fn flush(&mut self)
        ensures { AddsBoth self.old self.new [] [] }
    {
        self.flush_windows();
        self.flush_traces();
    }

    /// Flushes the record and the capture.
    fn flush_windows(&mut self)
        ensures { AddsBoth self.old self.new [] [] }
    {
        if self.failed.is_none() {
            let first = flush_file(&mut self.recorded, Tap::Record);
            let second = flush_file(&mut self.captured, Tap::Capture);
            self.failed = first_failed(first, second);
        }
    }
}
