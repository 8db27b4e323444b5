//! An auditor, which reads a trace of any version and any length that comes in pieces. It holds at most one line of the
//! text, and in place of the lines before it the plan, or an interface without a journal.

ghost use Rattle.std.specs.Prelude.{◌≡◌, ◌+◌, ◌≤◌, ◌^◌, length, None};
ghost use Rattle.fr_auditing.specs.LongStream.{line_by};
ghost use Rattle.fr_auditing.specs.Phases.{phase_of};
ghost use Rattle.fr_lines.specs.Reading.{entry_in};
ghost use Rattle.fr_slots.specs.Faults.{plan_fault};
ghost use Rattle.fr_text.specs.Spaces.{words_of};
ghost use Rattle.fr_trace.specs.Feeds.{GivesPhase, GivesUnless, IsBegin, IsNoEntry};
ghost use Rattle.fr_trace.specs.Stream.{magic, params, node, lines, body, take_line, too_long, line_number, line_count};
ghost use Rattle.fr_trace.specs.Stream.{after_begin, after_entry};

use crate::plans::{LongPlan, line_count, long_node_of, short_node_of};
use arrayvec::ArrayVec;
use fr_interface::interface::LiveInterface;
use fr_lines::bare::EntryBytes;
use fr_lines::entries::entry_into;
use fr_lines::parameters::params_of;
use fr_lines::versions::{Version, version_of};
use fr_slots::params::Params;
use fr_trace::auditor::LINE;
use fr_trace::error::TraceError;
use fr_trace::replay::replay;
use memchr::memchr;
use std::alloc::Global;
use std::marker::Model;
use std::mem;

/// The kinds of line that may come next.
#[derive(Drop)]
enum KeptPhase {
    Magic,
    Parameters(Version),
    Node(Version, Params),
    Lines(Version, Params, LongPlan),
    Body(Version, LiveInterface),
    Finished(Version, LiveInterface),
}

/// Returns the number of lines of an interface's plan and entries.
fn lines_of(interface: &LiveInterface) -> u64
    ensures value { result ≡ line_count interface.now.plan + length interface.now.entries }
    ensures few { result ≤ 129 + 2 ^ 32 }
{
    u64::from(line_count(interface.plan())) + u64::from(interface.entries())
}

/// Returns the number of the line that comes next.
fn line_number(phase: &KeptPhase) -> u64
    ensures { result ≡ line_number (phase_of phase.now) }
{
    match phase {
        KeptPhase::Magic => 1,
        KeptPhase::Parameters(_) => 2,
        KeptPhase::Node(_, _) => 3,
        KeptPhase::Lines(_, _, plan) => u64::from(plan.line_count()) + 4,
        KeptPhase::Body(_, interface) => lines_of(interface) + 5,
        KeptPhase::Finished(_, interface) => lines_of(interface) + 6,
    }
}

/// Reads the first line, which names the version. The lines of version 4 that follow are those of version 3.
fn first_line(later: bool, line: &[u8]) -> Result<KeptPhase, TraceError>
    ensures { GivesPhase phase_of result (line_by later magic line.now) }
{
    if later {
        if line == b"frtrace 4".as_slice() {
            return Ok(KeptPhase::Parameters(Version::Three));
        }
        return Err(TraceError::BadMagic);
    }
    match version_of(line) {
        Some(version) => Ok(KeptPhase::Parameters(version)),
        None => Err(TraceError::BadMagic),
    }
}

/// Reads the line of the parameters.
fn parameters_line(version: Version, line: &[u8]) -> Result<KeptPhase, TraceError>
    ensures { GivesPhase phase_of result (take_line (params version) line.now) }
{
    let Some(numbers) = params_of(line) else {
        return Err(TraceError::BadLine(2));
    };
    match Params::new(numbers) {
        Ok(params) => Ok(KeptPhase::Node(version, params)),
        Err(_) => Err(TraceError::Refused(2)),
    }
}

/// Reads the line of the plan's numbers.
fn node_line(
    later: bool,
    version: Version,
    params: Params,
    line: &[u8],
) -> Result<KeptPhase, TraceError>
    ensures { GivesPhase phase_of result (line_by later (node version params) line.now) }
{
    let plan = if later {
        long_node_of(line)
    } else {
        short_node_of(line)
    };
    match plan {
        Some(plan) => Ok(KeptPhase::Lines(version, params, plan)),
        None => Err(TraceError::BadLine(3)),
    }
}

/// Reads the line `begin`, of this number, the only line at which memory is taken.
fn begin(
    alloc: Global,
    version: Version,
    params: Params,
    plan: LongPlan,
    number: u64,
) -> Result<KeptPhase, TraceError>
    requires { number ≡ line_number (lines version params plan) }
    ensures { GivesUnless (plan_fault params plan ≡ None) phase_of result (after_begin version params plan) }
{
    if plan.is_faulty(&params) {
        return Err(TraceError::Refused(number));
    }
    match plan.interface(alloc, &params) {
        Ok(interface) => Ok(KeptPhase::Body(version, interface)),
        Err(_) => Err(TraceError::Memory),
    }
}

/// Reads a line of the plan, of this number, or `begin`.
fn plan_line(
    alloc: Global,
    version: Version,
    params: Params,
    mut plan: LongPlan,
    number: u64,
    line: &[u8],
) -> Result<KeptPhase, TraceError>
    requires { number ≡ line_number (lines version params plan) }
    ensures { GivesUnless (IsBegin (lines version params plan) line.now) phase_of result
        (take_line (lines version params plan) line.now) }
{
    if line == b"begin".as_slice() {
        return begin(alloc, version, params, plan, number);
    }
    match plan.take(version, &params, line) {
        Ok(()) => Ok(KeptPhase::Lines(version, params, plan)),
        Err(fault) => Err(fault),
    }
}

/// Reads a line of an entry. The interface makes its call in place.
fn entry_line(
    version: Version,
    interface: &mut LiveInterface,
    bytes: &mut EntryBytes,
    line: &[u8],
) -> Result<(), TraceError>
    ensures { GivesPhase (λ done. body version interface.new) result
        (after_entry version interface.old (entry_in version (words_of line.now))) }
{
    let number = lines_of(interface) + 5;
    match entry_into(version, line, bytes) {
        Some(entry) => replay(interface, &entry, bytes, number),
        None => Err(TraceError::BadLine(number)),
    }
}

/// Returns the phase after a whole line of this number that is no line of an entry.
fn after(
    alloc: Global,
    later: bool,
    phase: KeptPhase,
    number: u64,
    line: &[u8],
) -> Result<KeptPhase, TraceError>
    requires number { number ≡ line_number (phase_of phase) }
    requires ending { IsNoEntry (phase_of phase) line.now }
    ensures { GivesUnless (IsBegin (phase_of phase) line.now) phase_of result
        (line_by later (phase_of phase) line.now) }
{
    match phase {
        KeptPhase::Magic => first_line(later, line),
        KeptPhase::Parameters(version) => parameters_line(version, line),
        KeptPhase::Node(version, params) => node_line(later, version, params, line),
        KeptPhase::Lines(version, params, plan) => plan_line(
            alloc, version, params, plan, number, line,
        ),
        KeptPhase::Body(version, interface) => Ok(KeptPhase::Finished(version, interface)),
        KeptPhase::Finished(_, _) => Err(TraceError::BadLine(number)),
    }
}

/// Takes a whole line that is no line of an entry. If it is refused, the phase before it is lost.
///
/// It isn't inlined, so that a line of an entry doesn't pay for the plans and interfaces that are moved here.
#[inline(never)]
fn move_on(alloc: Global, later: bool, phase: &mut KeptPhase, line: &[u8]) -> Result<(), TraceError>
    requires { IsNoEntry (phase_of phase.old) line.now }
    ensures { GivesUnless (IsBegin (phase_of phase.old) line.now) (λ done. phase_of phase.new) result
        (line_by later (phase_of phase.old) line.now) }
{
    let number = line_number(phase);
    let before = mem::replace(phase, KeptPhase::Magic);
    match after(alloc, later, before, number, line) {
        Ok(next) => {
            *phase = next;
            Ok(())
        }
        Err(fault) => Err(fault),
    }
}

/// Takes a whole line. If it is refused, the phase before it is lost.
fn pass_line(
    alloc: Global,
    later: bool,
    phase: &mut KeptPhase,
    bytes: &mut EntryBytes,
    line: &[u8],
) -> Result<(), TraceError>
    ensures { GivesUnless (IsBegin (phase_of phase.old) line.now) (λ done. phase_of phase.new) result
        (line_by later (phase_of phase.old) line.now) }
{
    if line != b"end".as_slice() {
        if let KeptPhase::Body(version, interface) = phase {
            return entry_line(*version, interface, bytes, line);
        }
    }
    move_on(alloc, later, phase, line)
}

/// Returns the error of a line that is too long.
fn too_long(phase: &KeptPhase) -> TraceError
    ensures { result ≡ too_long (phase_of phase.now) }
{
    match phase {
        KeptPhase::Magic => TraceError::BadMagic,
        _ => TraceError::LineTooLong(line_number(phase)),
    }
}

/// Reads a trace in pieces (project-defined).
#[derive(Drop)]
pub struct KeptAuditor {
    alloc: Global,
    /// Whether the text is read as one of version 4.
    later: bool,
    phase: KeptPhase,
    line: ArrayVec<u8, LINE>,
    /// The bytes of the entry that was read last. They are kept here, so that none is passed by value.
    bytes: EntryBytes,
    fault: Option<TraceError>,
}

impl Model for KeptAuditor {
    ghost use Rattle.fr_auditing.specs.Tracking.{Auditing};

    ghost Value = { Auditing };

    ghost use Rattle.fr_auditing.specs.AuditorFields.{auditing_of};

    ghost view = { auditing_of };
}

impl KeptAuditor {
    ghost use Rattle.std.specs.Prelude.{◌≡◌, ◌∷◌, [], true, false, ℕ, List, ◌++◌, IfErr, IfOk};
    ghost use Rattle.fr_text.specs.Plain.{has_no_feed};
    ghost use Rattle.fr_auditing.specs.LongStream.{bytes_by, long_bytes};
    ghost use Rattle.fr_auditing.specs.LongText.{long_text};
    ghost use Rattle.fr_auditing.specs.Tracking.{Tracks, ReadsOn, IsEarlierText, IsLongText};
    ghost use Rattle.fr_auditing.specs.Phases.{EndsLine};
    ghost use Rattle.fr_interface.specs.State.{State, IsLegalInterface};
    ghost use Rattle.fr_trace.specs.Feeds.{held};
    ghost use Rattle.fr_trace.specs.Stream.{fresh, take_bytes, answer_of, outcome_of};

    /// Returns an auditor before its first byte. It takes memory from `alloc` only at the line `begin`.
    ///
    /// It reads a text of version 4 if `later`, and otherwise one of versions 1 to 3. It rejects any other text at its
    /// first line.
    pub fn new(alloc: Global, later: bool) -> KeptAuditor
        ensures { Tracks later result fresh }
    {
        KeptAuditor {
            alloc,
            later,
            phase: KeptPhase::Magic,
            line: ArrayVec::new(),
            bytes: EntryBytes::new(),
            fault: None,
        }
    }

    /// Examines a whole line. No other line is held.
    fn end_line(&mut self, line: &[u8])
        requires { held self.old.progress ≡ [] }
        ensures { EndsLine self.old.later self.old.progress line.now self.new }
    {
        if self.fault.is_some() {
            return;
        }
        self.fault = pass_line(
            self.alloc,
            self.later,
            &mut self.phase,
            &mut self.bytes,
            line,
        )
        .err();
    }

    /// Takes bytes of one line.
    fn add(&mut self, bytes: &[u8])
        requires { has_no_feed bytes.now ≡ true }
        ensures { Tracks self.old.later self.new (take_bytes self.old.progress bytes.now) }
    {
        if self.fault.is_some() || bytes.is_empty() {
            return;
        }
        if let KeptPhase::Finished(_, _) = &self.phase {
            self.fault = Some(TraceError::BadLine(line_number(&self.phase)));
        } else if bytes.len() > LINE - self.line.as_slice().len() {
            self.fault = Some(too_long(&self.phase));
        } else {
            let _ = self.line.try_extend_from_slice(bytes);
        }
    }

    /// Takes the rest of a line, and its line feed. A whole line is examined in place.
    fn take_line(&mut self, rest: &[u8])
        requires { has_no_feed rest.now ≡ true }
        ensures { ReadsOn self.old (rest.now ++ 10 ∷ []) self.new }
    {
        if self.line.is_empty() && rest.len() <= LINE {
            self.end_line(rest);
        } else {
            self.add(rest);
            let line = mem::replace(&mut self.line, ArrayVec::new());
            self.end_line(line.as_slice());
        }
    }

    /// Takes the bytes of a piece.
    fn take_bytes(&mut self, piece: &[u8])
        ensures { ReadsOn self.old piece.now self.new }
    {
        let mut rest = piece;
        while let Some(at) = memchr(b'\n', rest) {
            let (front, back) = rest.split_at(at);
            self.take_line(front);
            rest = &back[1..];
        }
        self.add(rest);
    }

    /// Returns the fault that has shown, if there is one.
    fn answer(&self) -> Result<(), TraceError>
        ensures { result ≡ answer_of self.now.progress }
    {
        match self.fault {
            Some(fault) => Err(fault),
            None => Ok(()),
        }
    }

    /// Takes the next piece of a trace.
    ///
    /// It returns the error of the first line at fault as soon as the fault is known. A line that is too long is
    /// rejected at its byte 1201, a byte after `end` at once, and any other line at its line feed. From then on each
    /// call returns that error, and nothing more is read.
    pub fn feed(&mut self, piece: &[u8]) -> Result<(), TraceError>
        ensures state { ReadsOn self.old piece.now self.new }
        ensures answer { result ≡ answer_of self.new.progress }
    {
        self.take_bytes(piece);
        self.answer()
    }

    /// Returns the interface that the whole trace leaves, as `finish` does.
    fn ended(self) -> Result<LiveInterface, TraceError>
        ensures exact { result ≡ outcome_of self.progress }
        ensures legal { IfOk result IsLegalInterface }
    {
        if let Some(fault) = self.fault {
            return Err(fault);
        }
        match self.phase {
            KeptPhase::Finished(_, interface) => {
                // For the prover: the clause of this call.
                let _ = interface.params();
                Ok(interface)
            }
            KeptPhase::Magic => Err(TraceError::BadMagic),
            _ => Err(TraceError::Truncated),
        }
    }

    /// Returns the interface that the whole trace leaves.
    ///
    /// Returns the error that was returned before; `BadMagic` if no whole line has come; and `Truncated` if the line
    /// feed of `end` hasn't come. It takes no memory.
    pub fn finish(self) -> Result<LiveInterface, TraceError>
        ensures exact { result ≡ outcome_of self.progress }
        ensures legal { IfOk result IsLegalInterface }
        // An accepted text of versions 1 to 3 is a text of a node's legal interface.
        ensures earlier { (text : List ℕ) → Tracks false self (bytes_by false fresh text)
            → IfOk result (λ s. IsEarlierText s text) }
        // An accepted text of version 4 is the text of a legal interface.
        ensures found { (text : List ℕ) → Tracks true self (long_bytes fresh text)
            → IfOk result (λ s. IsLongText s text) }
        // The text of version 4 of a legal interface is accepted.
        ensures only { (s : State) → IsLegalInterface s → Tracks true self (long_bytes fresh (long_text s))
            → IfErr result (λ e. ⊥) }
    {
        self.ended()
    }
}
