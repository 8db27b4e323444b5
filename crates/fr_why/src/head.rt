//! The state after lines of a trace, without the content of its interface.
ghost use Rattle.std.specs.Prelude.{◌≡◌};
ghost use Rattle.fr_text.specs.Spaces.{words_of};
ghost use Rattle.fr_lines.specs.Reading.{version_in, params_in, node_in, plan_line_in};
ghost use Rattle.fr_why.specs.Heads.{after_version, after_numbers, after_node, with_line, next_head};

use fr_lines::nodes::node_of;
use fr_lines::parameters::params_of;
use fr_lines::plan_lines::{PlanLine, plan_line_of};
use fr_lines::versions::{Version, version_of};
use fr_slots::params::Params;
use fr_slots::plan::NodePlan;
use std::mem;

/// The state after lines of a trace, none of which was refused (project-defined).
#[derive(Drop)]
pub enum Head {
    /// No line has come.
    Start,
    /// The version has come.
    Parameters(Version),
    /// The parameters have come too.
    Node(Version, Params),
    /// The plan has come too, as far as its lines.
    Lines(Version, Params, NodePlan),
    /// The whole plan has come, with the line `begin`. The entries after it aren't kept here.
    Body(Version),
    /// The whole trace has come, with the line `end`.
    Finished,
}

/// Returns the state after the first line.
fn after_first(line: &[u8]) -> Head
    ensures { result ≡ after_version (version_in line.now) }
{
    match version_of(line) {
        Some(version) => Head::Parameters(version),
        None => Head::Finished,
    }
}

/// Returns the state after the line of the parameters.
fn after_parameters(version: Version, line: &[u8]) -> Head
    ensures { result ≡ after_numbers version (params_in (words_of line.now)) }
{
    let Some(numbers) = params_of(line) else {
        return Head::Finished;
    };
    match Params::new(numbers) {
        Ok(params) => Head::Node(version, params),
        Err(_) => Head::Finished,
    }
}

/// Returns the state after the line of the plan's numbers.
fn after_numbers_of(version: Version, params: Params, line: &[u8]) -> Head
    ensures { result ≡ after_node version params (node_in (words_of line.now)) }
{
    match node_of(line) {
        Some(plan) => Head::Lines(version, params, plan),
        None => Head::Finished,
    }
}

/// Adds a line of the plan. An auditor has taken the line, so it isn't refused here.
fn add(version: Version, plan: &mut NodePlan, line: &[u8])
    ensures { plan.new ≡ with_line plan.old (plan_line_in version (words_of line.now)) }
{
    let _ = match plan_line_of(version, line) {
        Some(PlanLine::Own(own)) => plan.add_own(own),
        Some(PlanLine::Buffer(buffer)) => plan.add_buffer(buffer),
        Some(PlanLine::Queue(queue)) => plan.set_queue(queue),
        None => Ok(()),
    };
}

/// Returns the state after a line of the plan, or `begin`.
fn after_plan_line(version: Version, params: Params, mut plan: NodePlan, line: &[u8]) -> Head
    ensures { result ≡ next_head (Head.Lines version params plan) line.now }
{
    if line == b"begin".as_slice() {
        return Head::Body(version);
    }
    add(version, &mut plan, line);
    Head::Lines(version, params, plan)
}

/// Returns the state after a line other than those of the journal.
fn after(head: Head, line: &[u8]) -> Head
    ensures { result ≡ next_head head line.now }
{
    match head {
        Head::Start => after_first(line),
        Head::Parameters(version) => after_parameters(version, line),
        Head::Node(version, params) => after_numbers_of(version, params, line),
        Head::Lines(version, params, plan) => after_plan_line(version, params, plan, line),
        Head::Body(version) => {
            if line == b"end".as_slice() {
                Head::Finished
            } else {
                Head::Body(version)
            }
        }
        Head::Finished => Head::Finished,
    }
}

/// Continues the state by a whole line, given without its line feed. An auditor has taken the line.
pub(crate) fn follow(head: &mut Head, line: &[u8])
    ensures { head.new ≡ next_head head.old line.now }
{
    if let Head::Body(_) = head {
        if line != b"end".as_slice() {
            return;
        }
    }
    let before = mem::replace(head, Head::Start);
    *head = after(before, line);
}
