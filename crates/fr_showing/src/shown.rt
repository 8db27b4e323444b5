//! The views of a run, as texts.
ghost use Rattle.std.specs.Prelude.{◌≡◌, ◌⊎◌, Some, None, IfOk, OnOk, IfErr, length};
ghost use Rattle.std.specs.List.{flat_map};
ghost use Rattle.fr_files.specs.declared.error.BenchError.TheVariants as bench;
ghost use Rattle.fr_lines.specs.declared.versions.Version.TheVariants.{Three};
ghost use Rattle.fr_outcome.specs.OutcomeText.{outcome_text};
ghost use Rattle.fr_playing.specs.declared.error.PlayError.TheVariants as refusal;
ghost use Rattle.fr_showing.specs.AnswerText.{answer_line};
ghost use Rattle.fr_showing.specs.CommitText.{commit_line, commits};
ghost use Rattle.fr_showing.specs.Listening.{capture_of};
ghost use Rattle.fr_showing.specs.RecordText.{record_text};
ghost use Rattle.fr_matrix.specs.Cells.{IsMatrix};
ghost use Rattle.fr_showing.specs.Spans.{spans_text};
ghost use Rattle.fr_showing.specs.Shows.{HasViewer, IsShown, LacksNode, LacksViewer};
ghost use Rattle.fr_trace.specs.TraceText.{trace_text};

use crate::answers::write_answers;
use crate::commits::write_commits;
use crate::listener::write_capture;
use crate::parts::params_of;
use crate::record::write_record;
use crate::spans::write_spans;
use fr_core::world::World;
use fr_files::error::BenchError;
use fr_interface::interface::Interface;
use fr_matrix::matrix::matrix_of;
use fr_matrix::view::View;
use fr_outcome::outcome_text::write_outcome;
use fr_playing::error::PlayError;
use fr_playing::file::PlayedFile;
use fr_playing::nodes::interface_of;
use fr_playing::play::Played;
use fr_scenario::scenario::Scenario;
use fr_slots::numbers::NodeId;
use fr_trace::trace::write_trace;
use std::alloc::Global;

/// A view of a run (project-defined).
#[derive(Clone, Copy, PartialEq, Eq)]
pub enum Shown {
    /// Each node's report, the number of windows and `settled`, as `fr_bench run` prints them.
    Outcome,
    /// A line for each line of a script, with its answer.
    Answers,
    /// A line for each commit, with its fate.
    Commits,
    /// A line for each transmission and each flipped bit, with the number of the scenario's line.
    Record,
    /// A line for each window, with its first macrotick and the length of each channel's slot.
    Windows,
    /// A capture of the frames at a passive listener on the bus.
    Heard,
    /// A picture of the transmissions on a channel, or of a node's observations there.
    Matrix(View),
    /// The trace of this node, in version 3.
    Trace(NodeId),
}

/// Returns the outcome of a run that led to this world.
fn outcome_in(alloc: Global, world: &World) -> Result<Vec<u8>, PlayError>
    ensures text { IfOk result (λ text. text.items
        ≡ outcome_text world.now.interfaces (length world.now.bus.sealed)) }
    ensures refused { IfErr result (λ e. e ≡ refusal.Text bench.Memory) }
{
    let mut text = Vec::new(alloc);
    let windows = world.bus().record().len();
    match write_outcome(&mut text, world.interfaces(), windows) {
        Ok(()) => Ok(text),
        // Here and below, a list of bytes fails to grow only if an allocation fails.
        Err(_) => Err(PlayError::Text(BenchError::Memory)),
    }
}

/// Returns the answers of a run.
fn answers_in(alloc: Global, played: &Played) -> Result<Vec<u8>, PlayError>
    ensures text { IfOk result (λ text. text.items
        ≡ flat_map (answer_line played.now.world) played.now.calls.items) }
    ensures refused { IfErr result (λ e. e ≡ refusal.Text bench.Memory) }
{
    let mut text = Vec::new(alloc);
    match write_answers(&mut text, &played.world, played.calls.as_slice()) {
        Ok(()) => Ok(text),
        Err(_) => Err(PlayError::Text(BenchError::Memory)),
    }
}

/// Returns the commits of a run.
fn commits_in(alloc: Global, world: &World) -> Result<Vec<u8>, PlayError>
    ensures text { IfOk result (λ text. text.items ≡ flat_map (commit_line world.now) (commits world.now)) }
    ensures refused { IfErr result (λ e. e ≡ refusal.Text bench.Memory) }
{
    let mut text = Vec::new(alloc);
    match write_commits(&mut text, world) {
        Ok(()) => Ok(text),
        Err(_) => Err(PlayError::Text(BenchError::Memory)),
    }
}

/// Returns the bus's record.
fn record_in(alloc: Global, scenario: &Scenario, world: &World) -> Result<Vec<u8>, PlayError>
    ensures text { IfOk result (λ text. text.items
        ≡ record_text scenario.now world.now.bus.cluster.params world.now.bus.sealed) }
    ensures refused { IfErr result (λ e. e ≡ refusal.Text bench.Memory) }
{
    let mut text = Vec::new(alloc);
    match write_record(&mut text, scenario, params_of(world), world.bus()) {
        Ok(()) => Ok(text),
        Err(_) => Err(PlayError::Text(BenchError::Memory)),
    }
}

/// Returns the windows of a run.
fn windows_in(alloc: Global, world: &World) -> Result<Vec<u8>, PlayError>
    ensures text { IfOk result (λ text. text.items
        ≡ spans_text world.now.bus.cluster.params world.now.bus.sealed) }
    ensures refused { IfErr result (λ e. e ≡ refusal.Text bench.Memory) }
{
    let mut text = Vec::new(alloc);
    match write_spans(&mut text, params_of(world), world.bus()) {
        Ok(()) => Ok(text),
        Err(_) => Err(PlayError::Text(BenchError::Memory)),
    }
}

/// Returns the capture of a listener.
fn heard_in(alloc: Global, world: &World) -> Result<Vec<u8>, PlayError>
    ensures text { IfOk result (λ text. text.items
        ≡ capture_of world.now.bus.cluster.params world.now.bus.sealed) }
    ensures refused { IfErr result (λ e. e ≡ refusal.Text bench.Memory) }
{
    let mut text = Vec::new(alloc);
    match write_capture(&mut text, params_of(world), world.bus()) {
        Ok(()) => Ok(text),
        Err(_) => Err(PlayError::Text(BenchError::Memory)),
    }
}

/// Returns the matrix of the record.
fn drawn_in(alloc: Global, world: &World, view: &View) -> Result<Vec<u8>, PlayError>
    ensures text { IfOk result (λ text.
        IsMatrix world.now.bus.cluster.params view.now world.now.bus.sealed text.items) }
    ensures refused { IfErr result (λ e. e ≡ refusal.Text bench.Memory) }
{
    match matrix_of(alloc, params_of(world), world.bus().record(), view) {
        Ok(text) => Ok(text),
        Err(_) => Err(PlayError::Text(BenchError::Memory)),
    }
}

/// Returns the matrix of the record, unless its node isn't one of the cluster.
fn matrix_in(alloc: Global, world: &World, view: &View) -> Result<Vec<u8>, PlayError>
    ensures viewer { OnOk result (HasViewer view.now.node world.now) }
    ensures text { IfOk result (λ text.
        IsMatrix world.now.bus.cluster.params view.now world.now.bus.sealed text.items) }
    ensures refused { IfErr result (λ e. (e ≡ refusal.Text bench.Memory)
        ⊎ ((e ≡ refusal.UnknownNode) × LacksViewer view.now.node world.now)) }
{
    match view.node {
        Some(node) if interface_of(world, node).is_none() => Err(PlayError::UnknownNode),
        _ => drawn_in(alloc, world, view),
    }
}

/// Returns the trace of an interface.
fn trace_in(alloc: Global, interface: &Interface) -> Result<Vec<u8>, PlayError>
    ensures text { IfOk result (λ text. text.items ≡ trace_text Three interface.now) }
    ensures refused { IfErr result (λ e. e ≡ refusal.Text bench.Memory) }
{
    let mut text = Vec::new(alloc);
    match write_trace(interface, &mut text) {
        Ok(()) => Ok(text),
        Err(_) => Err(PlayError::Text(BenchError::Memory)),
    }
}

/// Returns the view of the run (project-defined).
///
/// Returns `UnknownNode` if the cluster doesn't have the node that is to be shown, and `Memory` if an allocation fails.
pub fn text_of(alloc: Global, shown: Shown, file: &PlayedFile) -> Result<Vec<u8>, PlayError>
    ensures text { IfOk result (λ text. IsShown shown file.now text.items) }
    ensures refused { IfErr result (λ e. (e ≡ refusal.Text bench.Memory)
        ⊎ ((e ≡ refusal.UnknownNode) × LacksNode shown file.now)) }
{
    let (scenario, played) = (&file.scenario, &file.played);
    match shown {
        Shown::Outcome => outcome_in(alloc, &played.world),
        Shown::Answers => answers_in(alloc, played),
        Shown::Commits => commits_in(alloc, &played.world),
        Shown::Record => record_in(alloc, scenario, &played.world),
        Shown::Windows => windows_in(alloc, &played.world),
        Shown::Heard => heard_in(alloc, &played.world),
        Shown::Matrix(view) => matrix_in(alloc, &played.world, &view),
        Shown::Trace(node) => match interface_of(&played.world, node) {
            Some(interface) => trace_in(alloc, interface),
            None => Err(PlayError::UnknownNode),
        },
    }
}
