//! The given scripts, with the answers that the tasks got.

ghost use Rattle.std.specs.Prelude.{◌≡◌, IfOk, IsSome, map, option_map};
ghost use Rattle.std.specs.List.{All};
ghost use Rattle.fr_core.specs.Answers.{without_answer, without_answers, IsAnswered, AreAnswered};
ghost use Rattle.fr_threads.specs.Running.{replies_at};

use crate::failure::RunFailure;
use fr_core::event::Reply;
use fr_core::script::{Line, Script};
use std::alloc::Global;

/// Returns a copy of the reply.
fn duplicate_reply(reply: &Reply) -> Reply
    ensures { result ≡ reply.now }
{
    match reply {
        Reply::Committed(receipt) => Reply::Committed(*receipt),
        Reply::Withdrawn(of) => Reply::Withdrawn(*of),
        Reply::Frame(Some(frame)) => Reply::Frame(Some(frame.duplicate())),
        Reply::Frame(None) => Reply::Frame(None),
        Reply::Window(window) => Reply::Window(*window),
        Reply::Done => Reply::Done,
    }
}

/// Returns the line, with this answer.
fn answered_line(line: &Line, reply: &Reply) -> Line
    ensures given { without_answer result ≡ without_answer line.now }
    ensures answered { result.answer ≡ Some reply.now }
{
    Line {
        cycle: line.cycle,
        action: line.action.duplicate(),
        answer: Some(duplicate_reply(reply)),
    }
}

/// Returns the lines, with these answers, one for each.
fn answered_lines(alloc: Global, lines: &[Line], replies: &[Reply]) -> Result<Vec<Line>, RunFailure>
    ensures given { IfOk result (λ list. map without_answer list.items ≡ map without_answer lines.now) }
    ensures answered { IfOk result (λ list. All IsAnswered list.items) }
{
    // A task that was joined has answered each line, but the type of a thread's result doesn't show this.
    if lines.len() != replies.len() {
        return Err(RunFailure::Thread);
    }
    let mut list = Vec::with_capacity(alloc, lines.len())?;
    for place in 0..lines.len() {
        list.push_reserved(answered_line(&lines[place], &replies[place]));
    }
    Ok(list)
}

/// Returns the answers that the script's task got, from those of all tasks of all nodes.
fn replies_to<'a>(script: &Script, answers: &'a [Vec<Vec<Reply>>]) -> Option<&'a [Reply]>
    ensures { option_map (λ replies. replies.now) result ≡ replies_at answers.now script.now.node script.now.task }
{
    let tasks = answers.get(usize::from(script.node.number()))?;
    let replies = tasks.get(usize::from(script.task.number()))?;
    Some(replies.as_slice())
}

/// Returns the script, with the answers that its task got.
fn answered_script(
    alloc: Global,
    script: &Script,
    answers: &[Vec<Vec<Reply>>],
) -> Result<Script, RunFailure>
    ensures given { IfOk result (λ s. without_answers s ≡ without_answers script.now) }
    ensures answered { IfOk result (λ s. All IsAnswered s.lines) }
{
    // The script suits the cluster, and each node and task was joined. Neither fact stands in a type.
    let Some(replies) = replies_to(script, answers) else {
        return Err(RunFailure::Thread);
    };
    let lines = answered_lines(alloc, script.lines.as_slice(), replies)?;
    Ok(Script {
        node: script.node,
        task: script.task,
        lines,
    })
}

/// Returns the scripts, with the answers that the tasks of each node got.
pub(crate) fn with_answers(
    alloc: Global,
    scripts: &[Script],
    answers: &[Vec<Vec<Reply>>],
) -> Result<Vec<Script>, RunFailure>
    ensures { IfOk result (λ list. AreAnswered scripts.now list.items) }
{
    let mut list = Vec::with_capacity(alloc, scripts.len())?;
    for script in scripts {
        list.push_reserved(answered_script(alloc, script, answers)?);
    }
    Ok(list)
}
