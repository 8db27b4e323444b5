//! The executed calls of tasks, compared with their scripts.

ghost use Rattle.std.specs.Prelude.{◌≡◌, ◌↔◌, ◌<◌, ◌+◌, IsTrue, IfSome, Some, slice_get, option_map, ℕ};
ghost use Rattle.std.specs.Option.{option_copied};
ghost use Rattle.fr_core.specs.Scripts.{frame_reply, IsLine};
ghost use Rattle.fr_core.specs.Walks.{FindsTask, done_by, HasLine, HasLineAt, HaveLines, AreCourses, CourseNext};
ghost use Rattle.fr_core.specs.Walks.{IsAsLongAt, Suits, SuitsAt, new_courses};
ghost use Rattle.fr_journal.specs.Lent.{whole, HasPayload};
ghost use Rattle.fr_slots.specs.Numbers.{most_entries};

use crate::event::Reply;
use crate::script::{Line, Script, has_script};
use fr_interface::call::Call;
use fr_interface::interface::{Interface, Receipt};
use fr_journal::entry::Origin;
use fr_journal::lent::{LentEntry, payload_of};
use fr_slots::numbers::{NodeId, TASKS, TaskId};

/// An executed call, and its answer.
type Executed = (Call, Reply);

/// The greatest number of tasks of a node.
const COUNT: usize = TASKS as usize;

/// The progress of a task beside its scripts.
#[derive(Clone, Copy)]
pub(crate) struct Course {
    /// The number of calls that it executed.
    pub calls: usize,
    /// True if these calls are the first lines of each of its scripts.
    pub agrees: bool,
}

/// The courses of all tasks of a node.
pub(crate) type Courses = [Course; COUNT];

/// Returns the courses of tasks that executed no call.
pub(crate) fn new_courses() -> Courses
    ensures { result ≡ new_courses }
{
    [Course {
        calls: 0,
        agrees: true,
    }; COUNT]
}

/// Returns the reply with the frame of this origin, or without a frame.
fn frame_reply(interface: &Interface, from: Option<Origin>) -> Reply
    ensures { result ≡ frame_reply interface.now from }
{
    match from {
        Some(origin) => Reply::Frame(interface.frame_at(origin)),
        None => Reply::Frame(None),
    }
}

/// Returns the task and the executed call of this entry, if it is the host's.
fn done_by(interface: &Interface, number: u32, entry: &LentEntry<'_>) -> Option<(TaskId, Executed)>
    requires { HasPayload entry.now }
    ensures { result ≡ done_by interface.now number (whole entry.now) }
{
    let (task, call, answer) = match entry {
        LentEntry::Commit {
            task,
            buffer,
            payload,
        } => {
            let receipt = Receipt {
                task: *task,
                entry: number,
            };
            let call = Call::Commit {
                buffer: *buffer,
                payload: payload_of(*payload),
            };
            (*task, call, Reply::Committed(receipt))
        }
        LentEntry::Withdraw { task, buffer, of } => {
            (
                *task,
                Call::Withdraw { buffer: *buffer },
                Reply::Withdrawn(*of),
            )
        }
        LentEntry::Read { task, buffer, from } => {
            (
                *task,
                Call::Read { buffer: *buffer },
                frame_reply(interface, *from),
            )
        }
        LentEntry::Pop { task, from } => (*task, Call::Pop, frame_reply(interface, *from)),
        LentEntry::Fetch { .. } | LentEntry::Observe { .. } => return None,
    };
    Some((task, (call, answer)))
}

/// Returns whether the line has no answer, or this one.
fn is_answer(told: &Option<Reply>, answer: &Reply) -> bool
    ensures { IsTrue result ↔ IfSome told.now (λ reply. reply ≡ answer.now) }
{
    match told {
        Some(told) => told == answer,
        None => true,
    }
}

// A line without an answer fits any. Cycles of lines aren't compared, since a world has no steps.
/// Returns whether the line is the executed call.
fn is_line(line: &Line, executed: &Executed) -> bool
    ensures { IsTrue result ↔ IsLine line.now executed.now }
{
    line.action == executed.0 && is_answer(&line.answer, &executed.1)
}

/// Returns the line at this place.
fn line_at(lines: &[Line], place: usize) -> Option<&Line>
    ensures { option_copied result ≡ slice_get lines.now place }
{
    lines.get(place)
}

/// Returns whether there is a line at this place and it is the executed call.
fn has_line(lines: &[Line], place: usize, executed: &Executed) -> bool
    ensures { IsTrue result ↔ HasLine (slice_get lines.now place) executed.now }
{
    match line_at(lines, place) {
        Some(line) => is_line(line, executed),
        None => false,
    }
}

/// Returns the script at this place.
fn script_at(scripts: &[Script], place: usize) -> Option<&Script>
    ensures { option_map (λ script. script.now) result ≡ slice_get scripts.now place }
{
    scripts.get(place)
}

/// Returns whether this script, if it is for the task, has the executed call as its line at the place.
fn has_line_at(
    scripts: &[Script],
    given: usize,
    node: NodeId,
    task: TaskId,
    place: usize,
    executed: &Executed,
) -> bool
    ensures { IsTrue result ↔ HasLineAt scripts.now node task place executed.now given }
{
    match script_at(scripts, given) {
        Some(script) => {
            !script.is_for(node, task) || has_line(script.lines.as_slice(), place, executed)
        }
        None => true,
    }
}

// A walk along the journal goes through all scripts for the task of a host entry, so each journal is walked once.
/// Returns whether each script for the task has the executed call as its line at the place.
fn have_lines(
    scripts: &[Script],
    node: NodeId,
    task: TaskId,
    place: usize,
    executed: &Executed,
) -> bool
    ensures { IsTrue result ↔ HaveLines scripts.now node task place executed.now }
{
    for given in 0..scripts.len() {
        if !has_line_at(scripts, given, node, task, place, executed) {
            return false;
        }
    }
    true
}

/// Returns the course of the task after this call, from the course before it.
fn course_past(
    scripts: &[Script],
    node: NodeId,
    task: TaskId,
    executed: &Executed,
    course: Course,
) -> Course
    requires { course.calls < most_entries }
    ensures { CourseNext scripts.now node task executed.now course result }
{
    let place = course.calls;
    Course {
        calls: place + 1,
        agrees: course.agrees && have_lines(scripts, node, task, place, executed),
    }
}

/// Returns the courses after the entry of this number, from the courses before it.
pub(crate) fn courses_past(
    interface: &Interface,
    node: NodeId,
    scripts: &[Script],
    number: u32,
    entry: &LentEntry<'_>,
    courses: &mut Courses,
)
    requires payload { HasPayload entry.now }
    requires few { number < most_entries }
    requires here { slice_get interface.now.entries number ≡ Some (whole entry.now) }
    requires so_far { AreCourses interface.now scripts.now node number courses.old }
    ensures { AreCourses interface.now scripts.now node (number + 1) courses.new }
{
    let Some(done) = done_by(interface, number, entry) else {
        return;
    };
    let place = usize::from(done.0.number());
    courses[place] = course_past(scripts, node, done.0, &done.1, courses[place]);
}

/// Returns whether this script, if it is for the task, has as many lines.
fn is_as_long_at(scripts: &[Script], given: usize, node: NodeId, task: TaskId, calls: usize) -> bool
    ensures { IsTrue result ↔ IsAsLongAt scripts.now node task calls given }
{
    match script_at(scripts, given) {
        Some(script) => !script.is_for(node, task) || script.lines.len() == calls,
        None => true,
    }
}

/// Returns whether each script for the task has as many lines.
fn are_as_long(scripts: &[Script], node: NodeId, task: TaskId, calls: usize) -> bool
    ensures { IsTrue result ↔ ((k : ℕ) → IsAsLongAt scripts.now node task calls k) }
{
    for given in 0..scripts.len() {
        if !is_as_long_at(scripts, given, node, task, calls) {
            return false;
        }
    }
    true
}

/// Returns whether a task of this course executed its scripts, or no call without a script.
fn suits(scripts: &[Script], node: NodeId, task: TaskId, course: Course) -> bool
    ensures { IsTrue result ↔ Suits scripts.now node task course }
{
    // Each script for a task must be all the calls that it executed. A task without a script must have executed none.
    course.agrees
        && are_as_long(scripts, node, task, course.calls)
        && (has_script(scripts, node, task) || course.calls == 0)
}

/// Returns the first task that didn't execute its scripts, by these courses.
pub(crate) fn other_task(scripts: &[Script], node: NodeId, courses: &Courses) -> Option<TaskId>
    ensures { FindsTask (SuitsAt scripts.now node courses.now) result }
{
    for number in 0..TASKS {
        let task = TaskId::from_number(number);
        if !suits(scripts, node, task, courses[usize::from(number)]) {
            return Some(task);
        }
    }
    None
}
