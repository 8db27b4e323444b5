//! The reason of a line's refusal, by the state after the lines before it.
ghost use Rattle.std.specs.Prelude.{◌≡◌, None};
ghost use Rattle.fr_lines.specs.Reading.{params_in};
ghost use Rattle.fr_text.specs.Spaces.{words_of};
ghost use Rattle.fr_why.specs.Asking.{reason_by_head, reason_by_state, reason_asked, version_by_head, feed_by_head};
ghost use Rattle.fr_why.specs.Reasons.{reason_of_numbers, place_of};

use crate::call::reason_of_line;
use crate::head::Head;
use crate::misfits::misfit_of;
use crate::reason::{Misfit, Reason};
use fr_interface::interface::Interface;
use fr_lines::forms::{WordPlace, wrong_word};
use fr_lines::parameters::params_of;
use fr_lines::versions::Version;
use fr_slots::params::Params;
use fr_slots::plan::NodePlan;
use fr_trace::error::TraceError;

/// Returns the reason for the refusal of a line `params`.
fn reason_of_params(line: &[u8]) -> Reason
    ensures { result ≡ reason_of_numbers (params_in (words_of line.now)) }
{
    let Some(numbers) = params_of(line) else {
        return Reason::Plain;
    };
    match Params::new(numbers) {
        Ok(_) => Reason::Plain,
        Err(error) => Reason::Params(error),
    }
}

/// Returns the reason for the refusal of the line `begin`, after this plan.
fn reason_of_plan(version: Version, params: &Params, plan: &NodePlan, line: &[u8]) -> Reason
    ensures { result ≡ reason_by_head (Head.Lines version params.now plan.now) None line.now }
{
    if line != b"begin".as_slice() {
        return Reason::Plain;
    }
    match plan.fault(params) {
        Some(fault) => Reason::Plan(fault),
        None => Reason::Plain,
    }
}

/// Returns the reason for the refusal of a line of the journal.
fn reason_of_call(version: Version, interface: &mut Option<Interface>, line: &[u8]) -> Reason
    ensures { result ≡ reason_by_state version interface.old line.now }
{
    match interface {
        Some(interface) => reason_of_line(interface, version, line),
        None => Reason::Plain,
    }
}

/// Returns the reason for the refusal of a line, for each error that names it.
fn reason_by(head: &Head, interface: &mut Option<Interface>, line: &[u8]) -> Reason
    ensures { result ≡ reason_by_head head.now interface.old line.now }
{
    match head {
        Head::Parameters(_) => reason_of_params(line),
        Head::Lines(version, params, plan) => reason_of_plan(*version, params, plan, line),
        Head::Body(version) => reason_of_call(*version, interface, line),
        Head::Start | Head::Node(_, _) | Head::Finished => Reason::Plain,
    }
}

/// Returns the version of the format that the lines have, or the newest one if it no longer matters.
fn version_of(head: &Head) -> Version
    ensures { result ≡ version_by_head head.now }
{
    match head {
        Head::Parameters(version) | Head::Body(version) => *version,
        Head::Node(version, _) => *version,
        Head::Lines(version, _, _) => *version,
        Head::Start | Head::Finished => Version::Three,
    }
}

/// Returns the place of the wrong word in a line that can't stand in its place, if it is a single word.
fn place_of(version: Version, misfit: Misfit, line: &[u8]) -> Option<WordPlace>
    ensures { result ≡ place_of version misfit (words_of line.now) }
{
    match misfit {
        Misfit::Word => Some(WordPlace { word: 1, column: 1 }),
        Misfit::Form => wrong_word(version, line),
        Misfit::Late | Misfit::Full | Misfit::After => None,
    }
}

/// Returns the reason for the refusal of a text that breaks off in this line.
fn reason_of_end(head: &Head, line: &[u8]) -> Reason
    ensures { result ≡ feed_by_head head.now line.now }
{
    match head {
        Head::Body(_) => {
            if line == b"end".as_slice() {
                Reason::Feed
            } else {
                Reason::Plain
            }
        }
        _ => Reason::Plain,
    }
}

/// Returns the reason of this error of the line.
///
/// A line of the journal is tried on the interface after the lines before.
pub(crate) fn reason_of(
    error: TraceError,
    head: &Head,
    interface: &mut Option<Interface>,
    line: &[u8],
) -> Reason
    ensures { result ≡ reason_asked error head.now interface.old line.now }
{
    match error {
        TraceError::BadLine(_) => {
            let misfit = misfit_of(head, line);
            Reason::Line(misfit, place_of(version_of(head), misfit, line))
        }
        TraceError::Refused(_) | TraceError::WrongAnswer(_) => reason_by(head, interface, line),
        TraceError::Truncated => reason_of_end(head, line),
        _ => Reason::Plain,
    }
}
