//! An auditor, which reads a trace that comes in pieces. It holds at most one line of the text, the line that isn't
//! over. The lines before it have become a plan or an interface.

ghost use Rattle.std.specs.Prelude.{◌≡◌, ◌+◌, ◌≤◌, length, None};
ghost use Rattle.fr_lines.specs.Reading.{plan_line_in, entry_in};
ghost use Rattle.fr_slots.specs.Faults.{plan_fault};
ghost use Rattle.fr_text.specs.Spaces.{words_of};
ghost use Rattle.fr_trace.specs.Auditor.{phase_of};
ghost use Rattle.fr_trace.specs.Feeds.{GivesPhase, GivesUnless, IsBegin, IsNoEntry};
ghost use Rattle.fr_trace.specs.Stream.{magic, params, node, lines, body, take_line, too_long, line_number, line_count};
ghost use Rattle.fr_trace.specs.Stream.{has_owned_alone, after_begin, after_own, after_buffer, after_entry};
ghost use Rattle.fr_trace.specs.Stream.{after_queue, after_plan_line};

use crate::error::TraceError;
use crate::replay::replay;
use arrayvec::ArrayVec;
use fr_interface::interface::Interface;
use fr_lines::bare::EntryBytes;
use fr_lines::entries::entry_into;
use fr_lines::nodes::node_of;
use fr_lines::parameters::params_of;
use fr_lines::plan_lines::{PlanLine, plan_line_of};
use fr_lines::versions::{Version, version_of};
use fr_slots::params::Params;
use fr_slots::plan::{Buffer, NodePlan, Own, Queue};
use memchr::memchr;
use std::alloc::Global;
use std::marker::Model;
use std::mem;

/// The longest line, without its line feed (project-defined).
pub const LINE: usize = 1200;

/// The kinds of line that may come next, in a text of the version that its first line names.
#[derive(Drop)]
enum TextPhase {
    Magic,
    Parameters(Version),
    Node(Version, Params),
    Lines(Version, Params, NodePlan),
    Body(Version, Interface),
    Finished(Version, Interface),
}

/// Returns the number of lines that a plan has after its first.
fn line_count(plan: &NodePlan) -> u32
    ensures value { result ≡ line_count plan.now }
    ensures few { result ≤ 129 }
{
    let queue = u32::from(plan.queue().is_some());
    plan.owned().len() as u32 + plan.buffers().len() as u32 + queue
}

/// Returns the number of lines of an interface's plan and journal.
pub(crate) fn lines_of(interface: &Interface) -> u32
    ensures value { result ≡ line_count interface.now.plan + length interface.now.entries }
    ensures few { result ≤ 82049 }
{
    line_count(interface.plan()) + interface.journal().len()
}

/// Returns the number of the line that comes next.
fn line_number(phase: &TextPhase) -> u64
    ensures { result ≡ line_number (phase_of phase.now) }
{
    match phase {
        TextPhase::Magic => 1,
        TextPhase::Parameters(_) => 2,
        TextPhase::Node(_, _) => 3,
        TextPhase::Lines(_, _, plan) => u64::from(line_count(plan)) + 4,
        TextPhase::Body(_, interface) => u64::from(lines_of(interface)) + 5,
        TextPhase::Finished(_, interface) => u64::from(lines_of(interface)) + 6,
    }
}

/// Reads the first line, which names the version.
fn first_line(line: &[u8]) -> Result<TextPhase, TraceError>
    ensures { GivesPhase phase_of result (take_line magic line.now) }
{
    match version_of(line) {
        Some(version) => Ok(TextPhase::Parameters(version)),
        None => Err(TraceError::BadMagic),
    }
}

/// Reads the line of the parameters.
fn parameters_line(version: Version, line: &[u8]) -> Result<TextPhase, TraceError>
    ensures { GivesPhase phase_of result (take_line (params version) line.now) }
{
    let Some(numbers) = params_of(line) else {
        return Err(TraceError::BadLine(2));
    };
    match Params::new(numbers) {
        Ok(params) => Ok(TextPhase::Node(version, params)),
        Err(_) => Err(TraceError::Refused(2)),
    }
}

/// Reads the line of the plan's numbers.
fn node_line(version: Version, params: Params, line: &[u8]) -> Result<TextPhase, TraceError>
    ensures { GivesPhase phase_of result (take_line (node version params) line.now) }
{
    match node_of(line) {
        Some(plan) => Ok(TextPhase::Lines(version, params, plan)),
        None => Err(TraceError::BadLine(3)),
    }
}

/// Reads the line `begin`, of this number, the only line at which memory is taken.
fn begin(
    alloc: Global,
    version: Version,
    params: Params,
    plan: NodePlan,
    number: u64,
) -> Result<TextPhase, TraceError>
    requires { number ≡ line_number (lines version params plan) }
    ensures { GivesUnless (plan_fault params plan ≡ None) phase_of result (after_begin version params plan) }
{
    if plan.fault(&params).is_some() {
        return Err(TraceError::Refused(number));
    }
    match Interface::new(alloc, &params, &plan) {
        Ok(interface) => Ok(TextPhase::Body(version, interface)),
        Err(_) => Err(TraceError::Memory),
    }
}

/// Returns whether a plan has neither a buffer nor a receive FIFO.
fn has_owned_alone(plan: &NodePlan) -> bool
    ensures { result ≡ has_owned_alone plan.now }
{
    plan.buffers().is_empty() && plan.queue().is_none()
}

/// Reads an ownership line of the plan, which stands before its buffers and its receive FIFO.
fn own_line(
    version: Version,
    params: Params,
    mut plan: NodePlan,
    own: Own,
    number: u64,
) -> Result<TextPhase, TraceError>
    requires { number ≡ line_number (lines version params plan) }
    ensures { GivesPhase phase_of result (after_own version params plan own) }
{
    if !has_owned_alone(&plan) {
        return Err(TraceError::BadLine(number));
    }
    match plan.add_own(own) {
        Ok(()) => Ok(TextPhase::Lines(version, params, plan)),
        Err(_) => Err(TraceError::BadLine(number)),
    }
}

/// Reads a buffer of the plan, which stands before its receive FIFO.
fn buffer_line(
    version: Version,
    params: Params,
    mut plan: NodePlan,
    buffer: Buffer,
    number: u64,
) -> Result<TextPhase, TraceError>
    requires { number ≡ line_number (lines version params plan) }
    ensures { GivesPhase phase_of result (after_buffer version params plan buffer) }
{
    if plan.queue().is_some() {
        return Err(TraceError::BadLine(number));
    }
    match plan.add_buffer(buffer) {
        Ok(()) => Ok(TextPhase::Lines(version, params, plan)),
        Err(_) => Err(TraceError::BadLine(number)),
    }
}

/// Reads the receive FIFO of the plan, which stands after all its other lines.
fn queue_line(
    version: Version,
    params: Params,
    mut plan: NodePlan,
    queue: Queue,
    number: u64,
) -> Result<TextPhase, TraceError>
    requires { number ≡ line_number (lines version params plan) }
    ensures { GivesPhase phase_of result (after_queue version params plan queue) }
{
    match plan.set_queue(queue) {
        Ok(()) => Ok(TextPhase::Lines(version, params, plan)),
        Err(_) => Err(TraceError::BadLine(number)),
    }
}

/// Reads a line of the plan, of this number, or `begin`.
fn plan_line(
    alloc: Global,
    version: Version,
    params: Params,
    plan: NodePlan,
    number: u64,
    line: &[u8],
) -> Result<TextPhase, TraceError>
    requires { number ≡ line_number (lines version params plan) }
    ensures { GivesUnless (IsBegin (lines version params plan) line.now) phase_of result
        (take_line (lines version params plan) line.now) }
{
    if line == b"begin".as_slice() {
        return begin(alloc, version, params, plan, number);
    }
    match plan_line_of(version, line) {
        Some(PlanLine::Own(own)) => own_line(version, params, plan, own, number),
        Some(PlanLine::Buffer(buffer)) => buffer_line(version, params, plan, buffer, number),
        Some(PlanLine::Queue(queue)) => queue_line(version, params, plan, queue, number),
        None => Err(TraceError::BadLine(number)),
    }
}

/// Reads a line of the journal. The interface makes its call in place.
fn entry_line(
    version: Version,
    interface: &mut Interface,
    bytes: &mut EntryBytes,
    line: &[u8],
) -> Result<(), TraceError>
    ensures { GivesPhase (λ done. body version interface.new) result
        (after_entry version interface.old (entry_in version (words_of line.now))) }
{
    let number = u64::from(lines_of(interface)) + 5;
    match entry_into(version, line, bytes) {
        Some(entry) => replay(interface, &entry, bytes, number),
        None => Err(TraceError::BadLine(number)),
    }
}

/// Returns the phase after a whole line of this number that is no line of the journal.
fn after(alloc: Global, phase: TextPhase, number: u64, line: &[u8]) -> Result<TextPhase, TraceError>
    requires number { number ≡ line_number (phase_of phase) }
    requires ending { IsNoEntry (phase_of phase) line.now }
    ensures { GivesUnless (IsBegin (phase_of phase) line.now) phase_of result (take_line (phase_of phase) line.now) }
{
    match phase {
        TextPhase::Magic => first_line(line),
        TextPhase::Parameters(version) => parameters_line(version, line),
        TextPhase::Node(version, params) => node_line(version, params, line),
        TextPhase::Lines(version, params, plan) => plan_line(
            alloc, version, params, plan, number, line,
        ),
        TextPhase::Body(version, interface) => Ok(TextPhase::Finished(version, interface)),
        TextPhase::Finished(_, _) => Err(TraceError::BadLine(number)),
    }
}

/// Takes a whole line that is no line of the journal. If it is refused, the phase before it is lost.
///
/// It isn't inlined, so that a line of the journal doesn't pay for the plans and interfaces that are moved here.
#[inline(never)]
fn move_on(alloc: Global, phase: &mut TextPhase, line: &[u8]) -> Result<(), TraceError>
    requires { IsNoEntry (phase_of phase.old) line.now }
    ensures { GivesUnless (IsBegin (phase_of phase.old) line.now) (λ done. phase_of phase.new) result
        (take_line (phase_of phase.old) line.now) }
{
    let number = line_number(phase);
    let before = mem::replace(phase, TextPhase::Magic);
    match after(alloc, before, number, line) {
        Ok(next) => {
            *phase = next;
            Ok(())
        }
        Err(fault) => Err(fault),
    }
}

/// Takes a whole line. If it is refused, the phase before it is lost.
fn pass_line(
    alloc: Global,
    phase: &mut TextPhase,
    bytes: &mut EntryBytes,
    line: &[u8],
) -> Result<(), TraceError>
    ensures { GivesUnless (IsBegin (phase_of phase.old) line.now) (λ done. phase_of phase.new) result
        (take_line (phase_of phase.old) line.now) }
{
    if line != b"end".as_slice() {
        if let TextPhase::Body(version, interface) = phase {
            return entry_line(*version, interface, bytes, line);
        }
    }
    move_on(alloc, phase, line)
}

/// Returns the error of a line that is too long.
fn too_long(phase: &TextPhase) -> TraceError
    ensures { result ≡ too_long (phase_of phase.now) }
{
    match phase {
        TextPhase::Magic => TraceError::BadMagic,
        _ => TraceError::LineTooLong(line_number(phase)),
    }
}

/// Reads a trace in pieces (project-defined).
#[derive(Drop)]
pub struct Auditor {
    alloc: Global,
    phase: TextPhase,
    line: ArrayVec<u8, LINE>,
    /// The bytes of the entry that was read last. They are kept here, so that none is passed by value.
    bytes: EntryBytes,
    fault: Option<TraceError>,
}

impl Model for Auditor {
    ghost use Rattle.fr_trace.specs.Stream.{Progress};

    ghost Value = { Progress };

    ghost use Rattle.fr_trace.specs.Views.{progress_of};

    ghost view = { progress_of };
}

impl Auditor {
    ghost use Rattle.std.specs.Prelude.{◌≡◌, ◌∷◌, [], Ok, Err, true, ℕ, List, ◌++◌};
    ghost use Rattle.fr_trace.specs.Stream.{fresh, take_bytes, answer_of, outcome_of};
    ghost use Rattle.fr_text.specs.Plain.{has_no_feed};
    ghost use Rattle.fr_trace.specs.Feeds.{Reads, EndsLine, held, with_line};
    ghost use Rattle.fr_trace.specs.Refusals.{LineIsNamed, HopelessIfRefused};

    /// Returns an auditor before its first byte. It takes memory from `alloc` only at the line `begin`.
    pub fn new(alloc: Global) -> Auditor
        ensures { result ≡ fresh }
    {
        Auditor {
            alloc,
            phase: TextPhase::Magic,
            line: ArrayVec::new(),
            bytes: EntryBytes::new(),
            fault: None,
        }
    }

    /// Examines a whole line. No other line is held.
    fn end_line(&mut self, line: &[u8])
        requires { held self.old ≡ [] }
        ensures { EndsLine (with_line self.old line.now) self.new }
    {
        if self.fault.is_some() {
            return;
        }
        self.fault = pass_line(self.alloc, &mut self.phase, &mut self.bytes, line).err();
    }

    /// Takes bytes of one line.
    fn add(&mut self, bytes: &[u8])
        requires { has_no_feed bytes.now ≡ true }
        ensures { self.new ≡ take_bytes self.old bytes.now }
    {
        if self.fault.is_some() || bytes.is_empty() {
            return;
        }
        if let TextPhase::Finished(_, _) = &self.phase {
            self.fault = Some(TraceError::BadLine(line_number(&self.phase)));
        } else if bytes.len() > LINE - self.line.as_slice().len() {
            self.fault = Some(too_long(&self.phase));
        } else {
            let _ = self.line.try_extend_from_slice(bytes);
        }
    }

    /// Takes the rest of a line, and its line feed. A whole line is examined in place.
    fn take_line(&mut self, rest: &[u8])
        requires { has_no_feed rest.now ≡ true }
        ensures { Reads self.old (rest.now ++ 10 ∷ []) self.new }
    {
        if self.line.is_empty() && rest.len() <= LINE {
            self.end_line(rest);
        } else {
            self.add(rest);
            let line = mem::replace(&mut self.line, ArrayVec::new());
            self.end_line(line.as_slice());
        }
    }

    /// Takes the bytes of a piece.
    fn take_bytes(&mut self, piece: &[u8])
        ensures { Reads self.old piece.now self.new }
    {
        let mut rest = piece;
        while let Some(at) = memchr(b'\n', rest) {
            let (front, back) = rest.split_at(at);
            self.take_line(front);
            rest = &back[1..];
        }
        self.add(rest);
    }

    /// Returns the fault that has shown, if there is one.
    fn answer(&self) -> Result<(), TraceError>
        ensures { result ≡ answer_of self.now }
    {
        match self.fault {
            Some(fault) => Err(fault),
            None => Ok(()),
        }
    }

    /// Takes the next piece of a trace.
    ///
    /// It returns the error of the first line at fault as soon as the fault is known. A line that is too long is
    /// rejected at its byte 1201, a byte after `end` at once, and any other line at its line feed. From then on each
    /// call returns that error, and nothing more is read.
    pub fn feed(&mut self, piece: &[u8]) -> Result<(), TraceError>
        ensures state { Reads self.old piece.now self.new }
        ensures answer { result ≡ answer_of self.new }
        // The line that an error names is that of the byte with which the first fault shows.
        ensures line { (front : List ℕ) → self.old ≡ take_bytes fresh front → LineIsNamed result (front ++ piece.now) }
        // After a fault, no bytes that follow could make the text legal.
        ensures hopeless { (front : List ℕ) → self.old ≡ take_bytes fresh front
            → HopelessIfRefused result (front ++ piece.now) }
    {
        self.take_bytes(piece);
        self.answer()
    }

    /// Returns the interface that the whole trace leaves.
    ///
    /// Returns the error that was returned before; `BadMagic` if no whole line has come; and `Truncated` if the line
    /// feed of `end` hasn't come. It takes no memory.
    pub fn finish(self) -> Result<Interface, TraceError>
        ensures { result ≡ outcome_of self }
    {
        if let Some(fault) = self.fault {
            return Err(fault);
        }
        match self.phase {
            TextPhase::Finished(_, interface) => Ok(interface),
            TextPhase::Magic => Err(TraceError::BadMagic),
            _ => Err(TraceError::Truncated),
        }
    }
}
