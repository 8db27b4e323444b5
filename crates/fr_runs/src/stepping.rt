//! The comparison of tasks' calls with the cycles of their lines.
//!
//! This walk is separate, so that a cross-check of a world doesn't need it.

ghost use Rattle.std.specs.Prelude.{◌≡◌, ◌<◌, ◌+◌, ◌↔◌, IsTrue, Some, IfSome, take, slice_get, option_map};
ghost use Rattle.std.specs.Prelude.{ℕ};
ghost use Rattle.fr_journal.specs.Lent.{whole};
ghost use Rattle.fr_runs.specs.Steps.{IsProgress, Stands, StandsFor};
ghost use Rattle.fr_runs.specs.Stepping.{is_fetch, task_of, lines_given, is_beginning, IsInTurn, IsStepped};
ghost use Rattle.fr_runs.specs.Stepping.{IsSteppedAt, AreStepped};
ghost use Rattle.fr_slots.specs.Numbers.{most_entries};

use fr_bus::outcome::Sealed;
use fr_core::script::{Line, Script};
use fr_core::walk::{entries_of, interface_at, sealed_at};
use fr_interface::interface::Interface;
use fr_journal::lent::LentEntry;
use fr_slots::numbers::{NODES, NodeId, TASKS, TaskId};
use fr_slots::window::opens_cycle;

/// The greatest number of tasks of a node.
const COUNT: usize = TASKS as usize;

/// The progress of a walk along a journal.
#[derive(Clone, Copy)]
pub(crate) struct Progress {
    /// The number of fetched windows.
    pub fetches: usize,
    /// The number of observed windows.
    pub observes: usize,
    /// The number of cycles that began in the fetched windows.
    pub begun: usize,
    /// The number of calls of each task.
    pub calls: [usize; COUNT],
}

/// A place in the journal of a node.
#[derive(Clone, Copy)]
struct EntryPlace<'a> {
    /// The node's interface.
    interface: &'a Interface,
    /// The number of the entry.
    number: u32,
}

/// Returns the lines of the task's script, which is the first that is for it, or none.
pub fn lines_given(scripts: &[Script], node: NodeId, task: TaskId) -> &[Line]
    ensures { result.now ≡ lines_given scripts.now node task }
{
    for script in scripts {
        if script.is_for(node, task) {
            return script.lines.as_slice();
        }
    }
    &[]
}

/// Returns whether the entry fetched a window.
fn is_fetch(entry: &LentEntry<'_>) -> bool
    ensures { result ≡ is_fetch (whole entry.now) }
{
    matches!(entry, LentEntry::Fetch { .. })
}

/// Returns the task that made the call, if a task did.
fn task_of(entry: &LentEntry<'_>) -> Option<TaskId>
    ensures { result ≡ task_of (whole entry.now) }
{
    match entry {
        LentEntry::Commit { task, .. } => Some(*task),
        LentEntry::Withdraw { task, .. } => Some(*task),
        LentEntry::Read { task, .. } => Some(*task),
        LentEntry::Pop { task, .. } => Some(*task),
        LentEntry::Fetch { .. } | LentEntry::Observe { .. } => None,
    }
}

/// Returns the entry at this place.
fn entry_at<'a>(place: &EntryPlace<'a>) -> Option<LentEntry<'a>>
    ensures { option_map whole result ≡ slice_get place.now.interface.now.entries place.now.number }
{
    place.interface.journal().lent(place.number)
}

/// Returns the line at this place.
fn line_at(lines: &[Line], place: usize) -> Option<&Line>
    ensures { option_map (λ line. line.now) result ≡ slice_get lines.now place }
{
    lines.get(place)
}

/// Returns whether a cycle begins at this place of the record.
fn is_beginning(recorded: &[Sealed], place: usize) -> bool
    ensures { result ≡ is_beginning (slice_get recorded.now place) }
{
    match sealed_at(recorded, place) {
        Some(sealed) => opens_cycle(&sealed.window),
        None => false,
    }
}

/// Returns whether the next call is in step with the cycle.
fn stands(recorded: &[Sealed], cycle: u16, progress: &Progress) -> bool
    ensures { IsTrue result ↔ Stands recorded.now cycle progress.now }
{
    progress.begun == usize::from(cycle)
        && progress.observes == progress.fetches
        && is_beginning(recorded, progress.fetches)
}

/// Returns whether the next call is in step with the cycle of the line at this place, if there is one.
fn stands_for(recorded: &[Sealed], lines: &[Line], place: usize, progress: &Progress) -> bool
    ensures { IsTrue result ↔ StandsFor recorded.now lines.now place progress.now }
{
    match line_at(lines, place) {
        Some(line) => stands(recorded, line.cycle, progress),
        None => true,
    }
}

/// Returns whether the entry at this place, if it is a task's, comes in step with the cycle of the task's next line.
fn is_in_turn(
    place: &EntryPlace<'_>,
    recorded: &[Sealed],
    scripts: &[Script],
    node: NodeId,
    entry: &LentEntry<'_>,
    progress: &Progress,
) -> bool
    requires { IsProgress recorded.now (take place.now.number place.now.interface.now.entries) progress.now }
    ensures { IsTrue result
        ↔ IsInTurn recorded.now scripts.now node (take place.now.number place.now.interface.now.entries)
        (whole entry.now) }
{
    let Some(task) = task_of(entry) else {
        return true;
    };
    let calls = progress.calls[usize::from(task.number())];
    stands_for(recorded, lines_given(scripts, node, task), calls, progress)
}

/// Goes past the entry at this place.
fn pass(place: &EntryPlace<'_>, recorded: &[Sealed], entry: &LentEntry<'_>, progress: &mut Progress)
    requires here { slice_get place.now.interface.now.entries place.now.number ≡ Some (whole entry.now) }
    requires few { place.now.number < most_entries }
    requires so_far { IsProgress recorded.now (take place.now.number place.now.interface.now.entries) progress.old }
    ensures { IsProgress recorded.now (take (place.now.number + 1) place.now.interface.now.entries) progress.new }
{
    if let Some(task) = task_of(entry) {
        progress.calls[usize::from(task.number())] += 1;
    } else if is_fetch(entry) {
        if is_beginning(recorded, progress.fetches) {
            progress.begun += 1;
        }
        progress.fetches += 1;
    } else {
        progress.observes += 1;
    }
}

/// Returns whether each call of the node was in the cycle of its line; the journal is walked once.
fn is_stepped(interface: &Interface, recorded: &[Sealed], scripts: &[Script], node: NodeId) -> bool
    ensures { IsTrue result ↔ IsStepped recorded.now scripts.now node interface.now }
{
    let mut progress = Progress {
        fetches: 0,
        observes: 0,
        begun: 0,
        calls: [0; COUNT],
    };
    for number in 0..entries_of(interface) {
        let place = EntryPlace { interface, number };
        let Some(entry) = entry_at(&place) else {
            unreachable!();
        };
        if !is_in_turn(&place, recorded, scripts, node, &entry, &progress) {
            return false;
        }
        pass(&place, recorded, &entry, &mut progress);
    }
    true
}

/// Returns the same for the node, if its interface exists.
fn is_stepped_at(
    interfaces: &[Interface],
    recorded: &[Sealed],
    scripts: &[Script],
    node: NodeId,
) -> bool
    ensures { IsTrue result ↔ IsSteppedAt recorded.now scripts.now interfaces.now node }
{
    match interface_at(interfaces, usize::from(node.number())) {
        Some(interface) => is_stepped(interface, recorded, scripts, node),
        None => true,
    }
}

/// Returns whether each call of a task came in the cycle of its line (project-defined). The node had fetched and
/// observed all windows of the earlier cycles by then, and hadn't fetched the first window of the line's cycle. A
/// task's lines are those of the first script for it, and its calls belong to them in their order. A line without a
/// call isn't reported here: `settle` reports it.
///
/// Each journal is walked once.
pub fn are_stepped(interfaces: &[Interface], recorded: &[Sealed], scripts: &[Script]) -> bool
    ensures { IsTrue result ↔ AreStepped recorded.now scripts.now interfaces.now }
{
    for number in 0..NODES {
        if !is_stepped_at(interfaces, recorded, scripts, NodeId::from_number(number)) {
            return false;
        }
    }
    true
}
