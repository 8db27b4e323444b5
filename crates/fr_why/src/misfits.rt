//! Reasons why a line can't stand in its place.
ghost use Rattle.std.specs.Prelude.{◌≡◌};
ghost use Rattle.fr_lines.specs.Reading.{plan_line_in};
ghost use Rattle.fr_text.specs.Spaces.{words_of};
ghost use Rattle.fr_why.specs.Asking.{misfit_by_head};
ghost use Rattle.fr_why.specs.Reasons.{first_word, is_of_journal, is_of_plan, misfit_in_plan, misfit_of, misplaced};

use crate::head::Head;
use crate::reason::Misfit;
use fr_lines::plan_lines::{PlanLine, plan_line_of};
use fr_lines::versions::Version;
use fr_slots::plan::NodePlan;
use fr_text::words::Words;

/// Returns the first word of a line.
fn first_word(line: &[u8]) -> &[u8]
    ensures { result.now ≡ first_word (words_of line.now) }
{
    match Words::new(line).next_word() {
        Some(word) => word,
        None => b"",
    }
}

/// Returns whether a line of a plan, or the line after the plan, begins with the word.
fn is_of_plan(word: &[u8]) -> bool
    ensures { result ≡ is_of_plan word.now }
{
    word == b"own".as_slice()
        || word == b"tx".as_slice()
        || word == b"rx".as_slice()
        || word == b"queue".as_slice()
        || word == b"begin".as_slice()
}

/// Returns whether a line of a journal, or the line after the journal, begins with the word.
fn is_of_journal(word: &[u8]) -> bool
    ensures { result ≡ is_of_journal word.now }
{
    word == b"commit".as_slice()
        || word == b"withdraw".as_slice()
        || word == b"read".as_slice()
        || word == b"pop".as_slice()
        || word == b"fetch".as_slice()
        || word == b"see".as_slice()
        || word == b"end".as_slice()
}

/// Returns why a line isn't read, given whether its first word may stand there.
fn unread(may_stand: bool) -> Misfit
    ensures { result ≡ misfit_of may_stand }
{
    if may_stand {
        Misfit::Form
    } else {
        Misfit::Word
    }
}

/// Returns why a line that is read is refused, given whether its kind may still come.
fn too_many(may_come: bool) -> Misfit
    ensures { result ≡ misplaced may_come }
{
    if may_come { Misfit::Full } else { Misfit::Late }
}

/// Returns why a line can't stand in a plan, after its lines so far.
fn misfit_in_plan(version: Version, plan: &NodePlan, line: &[u8]) -> Misfit
    ensures { result ≡ misfit_in_plan plan.now (first_word (words_of line.now))
        (plan_line_in version (words_of line.now)) }
{
    match plan_line_of(version, line) {
        Some(PlanLine::Own(_)) => too_many(plan.buffers().is_empty() && plan.queue().is_none()),
        Some(PlanLine::Buffer(_)) => too_many(plan.queue().is_none()),
        Some(PlanLine::Queue(_)) => Misfit::Full,
        None => unread(is_of_plan(first_word(line))),
    }
}

/// Returns why a line can't stand in its place, after the lines that led to this state.
pub(crate) fn misfit_of(head: &Head, line: &[u8]) -> Misfit
    ensures { result ≡ misfit_by_head head.now (words_of line.now) }
{
    match head {
        Head::Start => Misfit::Word,
        Head::Parameters(_) => unread(first_word(line) == b"params".as_slice()),
        Head::Node(_, _) => unread(first_word(line) == b"node".as_slice()),
        Head::Lines(version, _, plan) => misfit_in_plan(*version, plan, line),
        Head::Body(_) => unread(is_of_journal(first_word(line))),
        Head::Finished => Misfit::After,
    }
}
