//! The thread of a task.

use crate::failure::RunFailure;
use crate::shared::Common;
use fr_core::event::Reply;
use fr_core::script::Line;
use fr_desks::desk::{Desk, TaskPass};
use fr_desks::gate::Gate;
use fr_interface::call::Call;
use fr_interface::errors::HostError;
use fr_ledger::books::Share;
use std::sync::Wait;
use std::sync::ledger::Ledger;

/// The results of a task: its share, and its answers in the order of its lines.
///
/// It has answers only if it has executed all its lines.
#[derive(Drop)]
pub(crate) struct TaskDone<L: Ledger> {
    pub share: Share<L>,
    pub answers: Result<Vec<Reply>, RunFailure>,
}

/// Executes one line.
fn do_line<L: Ledger, R: Wait, G: Gate>(
    rt: &R,
    desk: &Desk<L>,
    gate: &G,
    me: &mut TaskPass<L>,
    call: &Call,
) -> Result<Reply, HostError> {
    match call {
        Call::Commit { buffer, payload } => {
            let receipt = desk.commit(rt, gate, me, *buffer, payload)?;
            Ok(Reply::Committed(receipt))
        }
        Call::Withdraw { buffer } => {
            let of = desk.withdraw(rt, gate, me, *buffer)?;
            Ok(Reply::Withdrawn(of))
        }
        Call::Read { buffer } => {
            let frame = desk.read(rt, gate, me, *buffer)?;
            Ok(Reply::Frame(frame))
        }
        Call::Pop => {
            let frame = desk.pop(rt, gate, me)?;
            Ok(Reply::Frame(frame))
        }
    }
}

/// Executes the lines, those of a cycle once they are due.
fn do_lines<L: Ledger, R: Wait, G: Gate>(
    common: &Common<'_, R, G>,
    desk: &Desk<L>,
    lines: &[Line],
    me: &mut TaskPass<L>,
) -> Result<Vec<Reply>, RunFailure> {
    let (rt, shared) = (common.rt, common.shared);
    let mut answers = Vec::with_capacity(common.alloc, lines.len())?;
    let mut begun = None;
    for line in lines {
        if begun != Some(line.cycle) {
            if begun.is_some() {
                shared.tell_done(rt);
            }
            shared.wait_due(rt, line.cycle)?;
            begun = Some(line.cycle);
        }
        answers.push_reserved(do_line(rt, desk, common.gate, me, &line.action)?);
    }
    if begun.is_some() {
        shared.tell_done(rt);
    }
    Ok(answers)
}

/// Runs the thread of a task. If it fails, the run is stopped.
pub(crate) fn run_task<L: Ledger, R: Wait, G: Gate>(
    common: &Common<'_, R, G>,
    desk: &Desk<L>,
    lines: &[Line],
    pass: TaskPass<L>,
) -> TaskDone<L> {
    let mut me = pass;
    let answers = do_lines(common, desk, lines, &mut me);
    if answers.is_err() {
        common.shared.stop(common.rt);
    }
    let share = me.into_share();
    TaskDone { share, answers }
}
